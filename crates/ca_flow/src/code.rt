//! The code of a source under a plan.

ghost use denote.Param.Send.{IsSend, IsSync};
ghost use Rattle.std.specs.Prelude.{◌≡◌, ◌↔◌, ◌<◌, IsTrue, IfOk, Some, length, map, slice_get, Contains};
ghost use Rattle.std.specs.List.Sorted.{IsStrictlyIncreasing};
ghost use Rattle.ca_tree.specs.declared.numbers.ItemId.{ItemId};
ghost use Rattle.ca_model.specs.Accesses.{Site, all_sites};
ghost use Rattle.ca_model.specs.Paths.{Calls, BeginsThreads};
ghost use Rattle.ca_model.specs.Plans.{Fits, IsItem, IsSite};
ghost use Rattle.ca_model.specs.Sites.{all_items, items_of};
ghost use Rattle.ca_model.specs.declared.tree.Function.{Function};
ghost use Rattle.ca_model.specs.declared.tree.Item.{Item};
ghost use Rattle.ca_flow.specs.contracts.code.Code as a_code;
ghost use Rattle.ca_flow.specs.Changes.{any_changes, kind_of_act, kinds_of};
ghost use Rattle.ca_flow.specs.Lowerings.{AreGraphsOf, IsLowering, StandsAt};

use crate::changes::ItemKind;
use crate::graph::Graph;
use crate::instr::NodeId;
use crate::main_function::main_of;
use crate::places::{last_site, places};
use crate::uses::{Uses, find_uses};
use ca_model::{Checked, GlobalStart, Plan};
use ca_tree::{FunId, ItemId, NoMemory, SiteId};
use std::alloc::Global;
use std::marker::Model;
use std::snapshot::Snapshot;

/// The graphs of a source under a plan. Contracts see the source, the plan and the graphs. Beside the graphs it keeps what
/// its calls answer.
#[derive(Drop)]
pub struct Code {
    source: Snapshot<Checked>,
    plan: Snapshot<Plan>,
    graphs: Vec<Graph>,
    uses: Uses,
    places: Vec<(FunId, NodeId)>,
    main: FunId,
    globals: Vec<GlobalStart>,
    mutexes: u32,
    limit: u32,
}

impl Model for Code {
    ghost use Rattle.std.specs.Prelude.{◌≡◌, ◌<◌, length};
    ghost use Rattle.std.specs.Coded.{codes};
    ghost use Rattle.ca_model.specs.contracts.tree.Function as typed_function;
    ghost use Rattle.ca_model.specs.contracts.plan.Plan as typed_plan;
    ghost use Rattle.ca_flow.specs.contracts.graph.Graph as drawn_graph;
    ghost use Rattle.ca_flow.specs.Lowerings.{Lowering, IsLowering};
    ghost use Rattle.ca_flow.specs.Tables.{uses_of, ArePlaces, HasTables};

    ghost Value = { Lowering };

    ghost coded = { Prim.hlevel (codes, typed_function.the_row.coded, typed_plan.the_row.coded, drawn_graph.the_row.coded) };

    ghost view = { λ c. record { source = c.source.value.typed; plan = c.plan.value; graphs = c.graphs.items } };

    ghost invariant = { λ c. IsLowering (record { source = c.source.value.typed; plan = c.plan.value; graphs = c.graphs.items })
        × HasTables (record { source = c.source.value.typed; plan = c.plan.value; graphs = c.graphs.items }) c.uses c.places.items c.main c.globals.items c.mutexes c.limit };
}

impl Code {
    /// The code of a source under a plan that fits it, from the graphs of its functions. All tables are made here, in one
    /// pass over the source and one over the nodes.
    pub fn new(
        alloc: Global,
        checked: &Checked,
        plan: &Plan,
        graphs: Vec<Graph>,
    ) -> Result<Code, NoMemory>
        requires fits { Fits checked.now.typed plan.now }
        requires graphs { AreGraphsOf checked.now.typed plan.now graphs.items }
        ensures { IfOk result (λ c. c ≡ record { source = checked.now.typed; plan = plan.now; graphs = graphs.items }) }
    {
        let main = main_of(checked.program());
        let uses = find_uses(alloc, checked)?;
        let sites = last_site(&graphs);
        let places = places(alloc, &graphs, sites)?;
        let globals = copied(alloc, checked.globals())?;
        Ok(Code {
            source: Snapshot::of(checked),
            plan: Snapshot::of(plan),
            graphs,
            uses,
            places,
            main,
            globals,
            mutexes: checked.mutexes(),
            limit: plan.limit,
        })
    }

    /// The graph of a function. It takes no memory.
    pub fn graph(&self, f: FunId) -> &Graph
        requires { f.0 < length self.now.source.functions }
        ensures graph { slice_get self.now.graphs f.0 ≡ Some result.now }
        ensures lowered { IsLowering self.now }
    {
        &self.graphs[f.0 as usize]
    }

    /// The graphs of the functions, in order of their numbers. It takes no memory.
    pub fn graphs(&self) -> &[Graph]
        ensures graphs { result.now ≡ self.now.graphs }
        ensures lowered { IsLowering self.now }
    {
        self.graphs.as_slice()
    }

    /// The items that call a function, in ascending order. It takes no memory.
    pub fn calls_of(&self, f: FunId) -> &[ItemId]
        requires { f.0 < length self.now.source.functions }
        ensures calls { (i : ItemId) → Contains result.now i ↔ ((x : Item) × IsItem self.now.source x i × Calls x.act f) }
        ensures ascend { IsStrictlyIncreasing (map (λ i. i.0) result.now) }
    {
        self.uses.calls_of(f)
    }

    /// How many mutexes the source has. It takes no memory.
    pub fn mutexes(&self) -> u32
        ensures { result ≡ self.now.source.mutexes }
    {
        self.mutexes
    }

    /// The globals of the source in order, each with its size and the value with which its first cell opens. It takes no
    /// memory.
    pub fn globals(&self) -> &[GlobalStart]
        ensures { result.now ≡ self.now.source.globals }
    {
        self.globals.as_slice()
    }

    /// How often an activation may retry at one site. It takes no memory.
    pub fn limit(&self) -> u32
        ensures { result ≡ self.now.plan.limit }
    {
        self.limit
    }

    /// How many sites the source has: they are numbered from 1. It takes no memory.
    pub fn sites(&self) -> u32
        ensures { result ≡ length (all_sites self.now.source) }
    {
        self.places.len() as u32
    }

    /// The function of an item. It takes no memory.
    pub fn function_of(&self, item: ItemId) -> FunId
        requires { (x : Item) × IsItem self.now.source x item }
        ensures { (f : Function) (x : Item) → Contains self.now.source.functions f → Contains (items_of f) x → x.id ≡ item → result ≡ f.id }
    {
        self.uses.function_at((item.0 - 1) as usize)
    }

    /// What an item does, as a plan asks for it. It takes no memory.
    pub fn kind_of(&self, item: ItemId) -> ItemKind
        requires { (x : Item) × IsItem self.now.source x item }
        ensures { (x : Item) → IsItem self.now.source x item → result ≡ kind_of_act x.act }
    {
        self.uses.kind_at((item.0 - 1) as usize)
    }

    /// What each item does, in order of their numbers, which begin with 1. It takes no memory.
    pub fn kinds(&self) -> &[ItemKind]
        ensures { result.now ≡ kinds_of (all_items self.now.source.functions) }
    {
        self.uses.kinds()
    }

    /// Whether something earlier in the item of a site reads what is shared or allocates. It takes no memory.
    pub fn changes_before(&self, site: SiteId) -> bool
        requires { (s : Site) × IsSite self.now.source s site }
        ensures { (s : Site) → IsSite self.now.source s site → result ≡ any_changes s.earlier }
    {
        self.uses.changes_at((site.0 - 1) as usize)
    }

    /// The function of a site, and a node of its graph with that site. It takes no memory.
    pub fn site_at(&self, site: SiteId) -> (FunId, NodeId)
        requires { (x : Site) × IsSite self.now.source x site }
        ensures { StandsAt self.now site result.0 result.1 }
    {
        self.places[(site.0 - 1) as usize]
    }

    /// The number of `main`. It takes no memory.
    pub fn main(&self) -> FunId
        ensures { result ≡ self.now.source.main }
    {
        self.main
    }

    /// Whether threads begin with a function: it is `main` or is named in a `pthread_create`. It takes no memory.
    pub fn is_start(&self, f: FunId) -> bool
        requires { f.0 < length self.now.source.functions }
        ensures { (fn : Function) → slice_get self.now.source.functions f.0 ≡ Some fn → IsTrue result ↔ BeginsThreads self.now.source fn }
    {
        f.0 == self.main.0 || self.uses.is_created(f)
    }
}

// The opening values of globals again.
fn copied(alloc: Global, globals: &[GlobalStart]) -> Result<Vec<GlobalStart>, NoMemory>
    ensures { IfOk result (λ gs. gs.items ≡ globals.now) }
{
    let mut copy = Vec::new(alloc);
    'globals: for global in globals {
        copy.push(*global)?;
    }
    Ok(copy)
}

/// Code may be moved to other threads, and shared with them.
pub fn code_crosses_threads()
    ensures moves { IsSend a_code.the_row }
    ensures is_shared { IsSync a_code.the_row }
{}
