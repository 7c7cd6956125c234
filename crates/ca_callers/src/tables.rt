//! Tables of a whole source, by the numbers of its items.

ghost use Rattle.std.specs.Prelude.{◌≡◌, ◌<◌, ◌≤◌, ◌+◌, ◌↔◌, ℕ, [], true, false, length, map, Contains, IfOk, Some, slice_get, replicate};
ghost use Rattle.ca_tree.specs.declared.numbers.ItemId.{ItemId as AnItem};
ghost use Rattle.ca_reach.specs.Reach.{rows_of};
ghost use Rattle.ca_model.specs.declared.tree.Item.{Item};
ghost use Rattle.ca_model.specs.declared.tree.Function.{Function};
ghost use Rattle.ca_flow.specs.declared.links.Link.{Link as ALink};
ghost use Rattle.ca_flow.specs.Graphs.{ControlFlow};
ghost use Rattle.ca_flow.specs.Lowerings.{IsLowering};
ghost use Rattle.ca_callers.specs.Callers.{AddsAll, AnyOf, IsLinked, AreTables, InRow, item_number, function_number, IsBehindIn, IsAboveOf, IsTheFirst};

use ca_flow::{Code, Graph, Link};
use ca_reach::{add, empty_rows};
use ca_tree::{FunId, ItemId, NoMemory};
use std::alloc::Global;

/// For each item the items with a link to it that don't destroy, those that do, and the calls of the function that it
/// begins, if no thread begins with it; the function that it begins; and how many functions there are.
#[derive(Drop)]
pub(crate) struct Tables {
    pub(crate) back: Vec<Vec<u32>>,
    pub(crate) stops: Vec<Vec<u32>>,
    pub(crate) above: Vec<Vec<u32>>,
    pub(crate) begun: Vec<Vec<u32>>,
    pub(crate) functions: u32,
}

// Whether the first item of a link destroys, or doesn't, as it is asked.
fn is_of(link: &Link, destroys: bool) -> bool
    ensures { (result ≡ true) ↔ (link.now.destroys ≡ destroys) }
{
    link.destroys == destroys
}

// Adds a link back to a table of those whose first item destroys, or of those whose first item doesn't.
fn add_link(rows: &mut Vec<Vec<u32>>, link: &Link, destroys: bool) -> Result<(), NoMemory>
    ensures length { IfOk result (λ u. length (rows_of rows.new.items) ≡ length (rows_of rows.old.items)) }
    ensures added { IfOk result (λ u. AddsAll (rows_of rows.old.items) (rows_of rows.new.items) (IsLinked destroys link.now)) }
{
    if !is_of(link, destroys) {
        return Ok(());
    }
    add(rows, link.to.0, link.from.0)?;
    Ok(())
}

// Adds the links of one kind among some.
fn add_links(rows: &mut Vec<Vec<u32>>, links: &[Link], destroys: bool) -> Result<(), NoMemory>
    ensures length { IfOk result (λ u. length (rows_of rows.new.items) ≡ length (rows_of rows.old.items)) }
    ensures added { IfOk result (λ u. AddsAll (rows_of rows.old.items) (rows_of rows.new.items) (AnyOf ALink links.now (IsLinked destroys))) }
{
    'links: for link in links {
        add_link(rows, link, destroys)?;
    }
    Ok(())
}

// Adds the links of a function.
fn add_behind(
    rows: &mut Vec<Vec<u32>>,
    code: &Code,
    function: FunId,
    destroys: bool,
) -> Result<(), NoMemory>
    requires { function.0 < length code.now.source.functions }
    ensures length { IfOk result (λ u. length (rows_of rows.new.items) ≡ length (rows_of rows.old.items)) }
    ensures added { IfOk result (λ u. (f : Function) → slice_get code.now.source.functions function.0 ≡ Some f → AddsAll (rows_of rows.old.items) (rows_of rows.new.items) (InRow Item item_number (IsBehindIn code.now.source destroys f))) }
{
    let links = code.graph(function).links();
    add_links(rows, links, destroys)?;
    Ok(())
}

// Adds calls to the row of an item.
fn add_calls(rows: &mut Vec<Vec<u32>>, first: u32, calls: &[ItemId]) -> Result<(), NoMemory>
    ensures length { IfOk result (λ u. length (rows_of rows.new.items) ≡ length (rows_of rows.old.items)) }
    ensures added { IfOk result (λ u. AddsAll (rows_of rows.old.items) (rows_of rows.new.items) (AnyOf AnItem calls.now (λ i k x. (k ≡ first) × (x ≡ i.0)))) }
{
    'calls: for call in calls {
        add(rows, first, call.0)?;
    }
    Ok(())
}

// Adds the calls of a function, if no thread begins with it.
fn add_above(rows: &mut Vec<Vec<u32>>, code: &Code, function: FunId) -> Result<(), NoMemory>
    requires { function.0 < length code.now.source.functions }
    ensures length { IfOk result (λ u. length (rows_of rows.new.items) ≡ length (rows_of rows.old.items)) }
    ensures added { IfOk result (λ u. (f : Function) → slice_get code.now.source.functions function.0 ≡ Some f → AddsAll (rows_of rows.old.items) (rows_of rows.new.items) (InRow Item item_number (IsAboveOf code.now.source f))) }
{
    let first = code.graph(function).first();
    if code.is_start(function) {
        return Ok(());
    }
    add_calls(rows, first.0, code.calls_of(function))?;
    Ok(())
}

// Adds the number of a function to the row of its first item.
fn add_begun(rows: &mut Vec<Vec<u32>>, code: &Code, function: FunId) -> Result<(), NoMemory>
    requires { function.0 < length code.now.source.functions }
    ensures length { IfOk result (λ u. length (rows_of rows.new.items) ≡ length (rows_of rows.old.items)) }
    ensures added { IfOk result (λ u. (f : Function) → slice_get code.now.source.functions function.0 ≡ Some f → AddsAll (rows_of rows.old.items) (rows_of rows.new.items) (InRow Function function_number (IsTheFirst f))) }
{
    let first = code.graph(function).first();
    add(rows, first.0, function.0)?;
    Ok(())
}

// How many functions the source has.
fn functions_of(code: &Code) -> u32
    ensures { result ≡ length code.now.source.functions }
{
    code.graphs().len() as u32
}

// The number behind those of the items of a graph, or a greater one.
fn higher(above: u32, graph: &Graph) -> u32
    ensures least { above ≤ result }
    ensures graph { (n : ℕ) → n < graph.now.lowest + graph.now.count → n < 4294967295 → n < result }
{
    let end = graph.lowest().saturating_add(graph.count());
    if end > above { end } else { above }
}

// A number behind those of all items.
fn behind_all(graphs: &[Graph]) -> u32
    ensures { (g : ControlFlow) (n : ℕ) → Contains graphs.now g → n < g.lowest + g.count → n < 4294967295 → n < result }
{
    let mut above = 0;
    'graphs: for graph in graphs {
        above = higher(above, graph);
    }
    above
}

// The links back from items that destroy, or from those that don't.
fn behind(
    alloc: Global,
    code: &Code,
    functions: u32,
    size: u32,
    destroys: bool,
) -> Result<Vec<Vec<u32>>, NoMemory>
    requires { functions ≡ length code.now.source.functions }
    ensures length { IfOk result (λ rows. length (rows_of rows.items) ≡ size) }
    ensures rows { IfOk result (λ rows. AddsAll (replicate size []) (rows_of rows.items) (AnyOf Function code.now.source.functions (λ f. InRow Item item_number (IsBehindIn code.now.source destroys f)))) }
{
    let mut rows = empty_rows(alloc, size)?;
    'functions: for f in 0..functions {
        add_behind(&mut rows, code, FunId(f), destroys)?;
    }
    Ok(rows)
}

// The calls of functions with which no thread begins, by their first items.
fn above(alloc: Global, code: &Code, functions: u32, size: u32) -> Result<Vec<Vec<u32>>, NoMemory>
    requires { functions ≡ length code.now.source.functions }
    ensures length { IfOk result (λ rows. length (rows_of rows.items) ≡ size) }
    ensures rows { IfOk result (λ rows. AddsAll (replicate size []) (rows_of rows.items) (AnyOf Function code.now.source.functions (λ f. InRow Item item_number (IsAboveOf code.now.source f)))) }
{
    let mut rows = empty_rows(alloc, size)?;
    'functions: for f in 0..functions {
        add_above(&mut rows, code, FunId(f))?;
    }
    Ok(rows)
}

// The functions by their first items.
fn begun(alloc: Global, code: &Code, functions: u32, size: u32) -> Result<Vec<Vec<u32>>, NoMemory>
    requires { functions ≡ length code.now.source.functions }
    ensures length { IfOk result (λ rows. length (rows_of rows.items) ≡ size) }
    ensures rows { IfOk result (λ rows. AddsAll (replicate size []) (rows_of rows.items) (AnyOf Function code.now.source.functions (λ f. InRow Function function_number (IsTheFirst f)))) }
{
    let mut rows = empty_rows(alloc, size)?;
    'functions: for f in 0..functions {
        add_begun(&mut rows, code, FunId(f))?;
    }
    Ok(rows)
}

/// The tables of a source, each made in one pass over its links, calls or functions. The only error is want of memory.
pub(crate) fn make_tables(alloc: Global, code: &Code) -> Result<Tables, NoMemory>
    ensures { IfOk result (λ t. AreTables code.now.source t) }
{
    let functions = functions_of(code);
    let size = behind_all(code.graphs());
    let back = behind(alloc, code, functions, size, false)?;
    let stops = behind(alloc, code, functions, size, true)?;
    let above = above(alloc, code, functions, size)?;
    let begun = begun(alloc, code, functions, size)?;
    Ok(Tables {
        back,
        stops,
        above,
        begun,
        functions,
    })
}
