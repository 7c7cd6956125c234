//! Graphs of functions.

ghost use Rattle.std.specs.Prelude.{◌≡◌, ◌<◌, ◌≤◌, ◌++◌, [], ℕ, length, Some, IfOk, slice_get, option_map, map, Contains};
ghost use Rattle.ca_model.specs.Sites.{items_of};
ghost use Rattle.ca_model.specs.declared.tree.Item.{Item};
ghost use Rattle.ca_model.specs.declared.tree.Function.{Function};
ghost use Rattle.ca_flow.specs.declared.instr.NodeId.{NodeId};
ghost use Rattle.ca_flow.specs.declared.instr.Step.{Step};
ghost use Rattle.ca_flow.specs.Graphs.{successors, times, targets};
ghost use Rattle.ca_flow.specs.Flows.{IsFlowOf};
ghost use Rattle.ca_flow.specs.Tables.{rows_of, row, predecessors_from, as_often};

use crate::instr::{Links, Node, NodeId, Step};
use crate::links::{Link, find_links};
use crate::rows::{add, empty_rows};
use ca_model::Checked;
use ca_tree::{FunId, ItemId, NoMemory};
use std::alloc::Global;
use std::marker::Model;

/// The graph of a function: its steps, the node where it begins, and the number of registers of a frame; and the links
/// between the items of the function. Contracts see these. Which nodes stand before and after each node is kept beside.
#[derive(Drop)]
pub struct Graph {
    steps: Vec<Step>,
    entry: NodeId,
    registers: u32,
    first: ItemId,
    lowest: u32,
    count: u32,
    links: Vec<Link>,
    after: Vec<Vec<NodeId>>,
    before: Vec<Vec<NodeId>>,
}

impl Model for Graph {
    ghost use Rattle.ca_flow.specs.Graphs.{ControlFlow};
    ghost use Rattle.ca_flow.specs.Tables.{rows_of, HasNeighbours};

    ghost Value = { ControlFlow };

    ghost view = { λ g. record { steps = g.steps.items; entry = g.entry; registers = g.registers; first = g.first; lowest = g.lowest; count = g.count; links = g.links.items } };

    ghost invariant = { λ g. HasNeighbours g.steps.items (rows_of g.after.items) (rows_of g.before.items) };
}

// The nodes to which links lead.
fn targets(alloc: Global, links: Links) -> Result<Vec<NodeId>, NoMemory>
    ensures { IfOk result (λ ts. ts.items ≡ targets links) }
{
    let mut nodes = Vec::new(alloc);
    match links {
        Links::Nowhere => {}
        Links::One(node) => nodes.push(node)?,
        Links::Two { yes, no } => {
            nodes.push(yes)?;
            nodes.push(no)?;
        }
    }
    Ok(nodes)
}

// Adds a node to the rows of those to which its links lead.
fn link_back(rows: &mut Vec<Vec<NodeId>>, links: Links, from: NodeId) -> Result<(), NoMemory>
    ensures length { IfOk result (λ u. length rows.new.items ≡ length rows.old.items) }
    ensures rows { IfOk result (λ u. (k : ℕ) → k < length rows.old.items → row (rows_of rows.new.items) k ≡ row (rows_of rows.old.items) k ++ as_often from k (targets links)) }
{
    match links {
        Links::Nowhere => {}
        Links::One(node) => add(rows, node.0, from)?,
        Links::Two { yes, no } => {
            add(rows, yes.0, from)?;
            add(rows, no.0, from)?;
        }
    }
    Ok(())
}

// The nodes behind each node.
pub(crate) fn nodes_after(alloc: Global, steps: &[Step]) -> Result<Vec<Vec<NodeId>>, NoMemory>
    ensures { IfOk result (λ rows. rows_of rows.items ≡ map (λ s. targets s.links) steps.now) }
{
    let mut rows = Vec::new(alloc);
    'steps: for step in steps {
        let nodes = targets(alloc, step.links)?;
        rows.push(nodes)?;
    }
    Ok(rows)
}

// The nodes before each node.
pub(crate) fn nodes_before(alloc: Global, steps: &[Step]) -> Result<Vec<Vec<NodeId>>, NoMemory>
    requires { length steps.now < 4294967296 }
    ensures length { IfOk result (λ rows. length rows.items ≡ length steps.now) }
    ensures rows { IfOk result (λ rows. (n : ℕ) → n < length steps.now → row (rows_of rows.items) n ≡ predecessors_from 0 n steps.now) }
{
    let mut rows = empty_rows(alloc, steps.len() as u32)?;
    let mut from = 0;
    'steps: for step in steps {
        link_back(&mut rows, step.links, NodeId(from))?;
        from += 1;
    }
    Ok(rows)
}

// The lowest number of an item of a function: the one behind the closing brace of the function before it.
fn lowest_item(checked: &Checked, function: FunId) -> u32
    requires { function.0 < length checked.now.typed.functions }
    ensures { (f : Function) (i : Item) → slice_get checked.now.typed.functions function.0 ≡ Some f → Contains (items_of f) i → (0 < result) × (result ≤ i.id.0) × (i.id.0 ≤ f.close.id.0) }
{
    let _program = checked.program();
    if function.0 == 0 {
        return 1;
    }
    let before = checked.function(FunId(function.0 - 1));
    before.close.id.0.saturating_add(1)
}

impl Graph {
    /// The graph of a function of a source, from its steps. Where each node leads and what leads to it, and the links
    /// between the items of the function, are found here, each in one pass.
    pub fn new(
        alloc: Global,
        checked: &Checked,
        function: FunId,
        steps: Vec<Step>,
        entry: NodeId,
        registers: u32,
    ) -> Result<Graph, NoMemory>
        requires function { function.0 < length checked.now.typed.functions }
        requires few { length steps.items < 4294967296 }
        ensures steps { IfOk result (λ g. g.steps ≡ steps.items) }
        ensures entry { IfOk result (λ g. g.entry ≡ entry) }
        ensures registers { IfOk result (λ g. g.registers ≡ registers) }
        ensures flow { IfOk result (λ g. (f : Function) → slice_get checked.now.typed.functions function.0 ≡ Some f → IsFlowOf checked.now.typed f g) }
    {
        let _program = checked.program();
        let tree = checked.function(function);
        let lowest = lowest_item(checked, function);
        let count = tree.close.id.0.saturating_sub(lowest).saturating_add(1);
        let (first, links) = find_links(alloc, tree)?;
        let after = nodes_after(alloc, &steps)?;
        let before = nodes_before(alloc, &steps)?;
        Ok(Graph {
            steps,
            entry,
            registers,
            first,
            lowest,
            count,
            links,
            after,
            before,
        })
    }

    /// The instruction of a node, with its item. It takes no memory.
    pub fn node(&self, n: NodeId) -> &Node
        requires { n.0 < length self.now.steps }
        ensures { option_map (λ (s : Step). s.node) (slice_get self.now.steps n.0) ≡ Some result.now }
    {
        &self.steps[n.0 as usize].node
    }

    /// The nodes to which the links of a node lead; of a branch first the one for a true value. It takes no memory.
    pub fn successors(&self, n: NodeId) -> &[NodeId]
        requires { n.0 < length self.now.steps }
        ensures { result.now ≡ successors self.now.steps n.0 }
    {
        self.after[n.0 as usize].as_slice()
    }

    /// The nodes from which links lead to a node, each as often as it has one. It takes no memory.
    pub fn predecessors(&self, n: NodeId) -> &[NodeId]
        requires { n.0 < length self.now.steps }
        ensures { (m : NodeId) → times m result.now ≡ times n (successors self.now.steps m.0) }
    {
        self.before[n.0 as usize].as_slice()
    }

    /// The node where the function begins. It takes no memory.
    pub fn entry(&self) -> NodeId
        ensures { result ≡ self.now.entry }
    {
        self.entry
    }

    /// How many nodes there are: they are numbered from 0. It takes no memory.
    pub fn nodes(&self) -> u32
        ensures { result ≡ length self.now.steps }
    {
        self.steps.len() as u32
    }

    /// The nodes with their links, in order of their numbers. It takes no memory.
    pub fn steps(&self) -> &[Step]
        ensures steps { result.now ≡ self.now.steps }
        ensures few { length self.now.steps < 4294967296 }
    {
        self.steps.as_slice()
    }

    /// How many registers a frame has. It takes no memory.
    pub fn registers(&self) -> u32
        ensures { result ≡ self.now.registers }
    {
        self.registers
    }

    /// The first item of the function. It takes no memory.
    pub fn first(&self) -> ItemId
        ensures { result ≡ self.now.first }
    {
        self.first
    }

    /// The lowest number of an item of the function. It takes no memory.
    pub fn lowest(&self) -> u32
        ensures { result ≡ self.now.lowest }
    {
        self.lowest
    }

    /// How many items the function has. It takes no memory.
    pub fn count(&self) -> u32
        ensures { result ≡ self.now.count }
    {
        self.count
    }

    /// The links between the items of the function. It takes no memory.
    pub fn links(&self) -> &[Link]
        ensures { result.now ≡ self.now.links }
    {
        self.links.as_slice()
    }
}
