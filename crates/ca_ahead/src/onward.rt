//! The links onward over the items of a whole source.

ghost use Rattle.std.specs.Prelude.{◌≡◌, ◌<◌, ◌↔◌, ◌+◌, [], ℕ, true, not, length, Contains, IfOk, replicate};
ghost use Rattle.ca_reach.specs.Reach.{IsSet, row, rows_of};
ghost use Rattle.ca_model.specs.Sites.{all_items};
ghost use Rattle.ca_ahead.specs.Onward.{LeadsOn, IsOnward, HasOnward, InGraphs, Grows, Gains, FollowsMarked};

use ca_flow::{Code, Graph, Link};
use ca_reach::{add, empty_rows, row};
use ca_tree::NoMemory;
use std::alloc::Global;

/// Whether a number is set.
pub(crate) fn is_set(flags: &[bool], n: u32) -> bool
    ensures { (result ≡ true) ↔ IsSet flags.now n }
{
    match flags.get(n as usize) {
        None => false,
        Some(b) => *b,
    }
}

// Whether a path goes over a link: its first item doesn't destroy.
fn is_passed(link: &Link) -> bool
    ensures { result ≡ not link.now.destroys }
{
    !link.destroys
}

// Adds a link to the rows, if a path goes over it.
fn add_link(rows: &mut Vec<Vec<u32>>, link: &Link) -> Result<(), NoMemory>
    ensures { IfOk result (λ u. Grows (rows_of rows.old.items) (rows_of rows.new.items) (λ n m. IsOnward link.now n m)) }
{
    if !is_passed(link) {
        return Ok(());
    }
    add(rows, link.from.0, link.to.0)?;
    Ok(())
}

// Adds links to the rows.
fn add_links(rows: &mut Vec<Vec<u32>>, links: &[Link]) -> Result<(), NoMemory>
    ensures { IfOk result (λ u. Grows (rows_of rows.old.items) (rows_of rows.new.items) (λ n m. HasOnward links.now n m)) }
{
    'links: for link in links {
        add_link(rows, link)?;
    }
    Ok(())
}

// The rows of the links of some graphs.
fn rows_in(alloc: Global, graphs: &[Graph], count: u32) -> Result<Vec<Vec<u32>>, NoMemory>
    ensures { IfOk result (λ rows. Grows (replicate count []) (rows_of rows.items) (λ n m. InGraphs graphs.now n m)) }
{
    let mut rows = empty_rows(alloc, count)?;
    'graphs: for graph in graphs {
        let links = graph.links();
        add_links(&mut rows, links)?;
    }
    Ok(rows)
}

/// How many rows there are for the items of a source, which are numbered from 1.
pub(crate) fn row_count(code: &Code) -> u32
    ensures { result ≡ length (all_items code.now.source.functions) + 1 }
{
    let _graphs = code.graphs();
    let kinds = code.kinds();
    kinds.len() as u32 + 1
}

/// The rows of the links onward of a source, over items that don't destroy.
pub(crate) fn onward_rows(alloc: Global, code: &Code, count: u32) -> Result<Vec<Vec<u32>>, NoMemory>
    requires { count ≡ length (all_items code.now.source.functions) + 1 }
    ensures length { IfOk result (λ rows. length (rows_of rows.items) ≡ count) }
    ensures exact { IfOk result (λ rows. (n : ℕ) (m : ℕ) → Contains (row (rows_of rows.items) n) m ↔ LeadsOn code.now.source n m) }
{
    let graphs = code.graphs();
    let rows = rows_in(alloc, graphs, count)?;
    Ok(rows)
}

// Adds the numbers of a row, if its number is marked.
fn add_row(
    numbers: &mut Vec<u32>,
    rows: &[Vec<u32>],
    marked: &[bool],
    n: u32,
) -> Result<(), NoMemory>
    ensures { IfOk result (λ u. Gains numbers.old.items numbers.new.items (λ m. IsSet marked.now n × Contains (row (rows_of rows.now) n) m)) }
{
    if !is_set(marked, n) {
        return Ok(());
    }
    numbers.extend_from_slice(row(rows, n))?;
    Ok(())
}

/// The numbers to which marked ones lead onward.
pub(crate) fn follow_marked(
    alloc: Global,
    rows: &[Vec<u32>],
    marked: &[bool],
    count: u32,
) -> Result<Vec<u32>, NoMemory>
    ensures { IfOk result (λ numbers. (m : ℕ) → Contains numbers.items m ↔ FollowsMarked (rows_of rows.now) marked.now count m) }
{
    let mut numbers = Vec::new(alloc);
    'rows: for n in 0..count {
        add_row(&mut numbers, rows, marked, n)?;
    }
    Ok(numbers)
}
