//! Where the sites stand.

ghost use Rattle.std.specs.Prelude.{◌≡◌, ◌≤◌, ◌<◌, ◌+◌, ◌⊎◌, ℕ, length, get_or, IfOk, slice_get, Some, Contains};
ghost use Rattle.ca_tree.specs.declared.numbers.SiteId.{SiteId as Site};
ghost use Rattle.ca_flow.specs.declared.instr.AtSite.{AtSite as At};
ghost use Rattle.ca_flow.specs.Graphs.{ControlFlow};
ghost use Rattle.ca_flow.specs.Lowerings.{site_in, HasSite};
ghost use Rattle.ca_flow.specs.Places.{HasSiteInOne, IsPlace, IsPlaceInOne, no_place};

use crate::graph::Graph;
use crate::instr::{AtSite, Instr, NodeId, Step};
use ca_tree::{FunId, NoMemory};
use std::alloc::Global;

// The site of an instruction.
fn site_in(instr: &Instr) -> Option<AtSite>
    ensures { result ≡ site_in instr.now }
{
    match instr {
        Instr::Load { at, .. } | Instr::Store { at, .. } => *at,
        Instr::Lock { at, .. } | Instr::Free { at, .. } | Instr::Assert { at, .. } => Some(*at),
        _ => None,
    }
}

// The site of an instruction, if it is above another number.
fn higher(above: u32, instr: &Instr) -> u32
    ensures least { above ≤ result }
    ensures all { (a : At) → site_in instr.now ≡ Some a → a.site.0 ≤ result }
    ensures one { (result ≡ above) ⊎ ((a : At) × (site_in instr.now ≡ Some a) × (a.site.0 ≡ result)) }
{
    let Some(at) = site_in(instr) else {
        return above;
    };
    if above < at.site.0 { at.site.0 } else { above }
}

// The highest site of some steps, if it is above another number.
fn highest(steps: &[Step], above: u32) -> u32
    ensures least { above ≤ result }
    ensures all { (s : Site) → HasSite steps.now s → s.0 ≤ result }
    ensures one { (result ≡ above) ⊎ HasSite steps.now (record { 0 = result }) }
{
    let mut last = above;
    'steps: for step in steps {
        last = higher(last, &step.node.instr);
    }
    last
}

/// The highest site of all graphs; 0 where there is none.
pub(crate) fn last_site(graphs: &[Graph]) -> u32
    ensures all { (s : Site) → HasSiteInOne graphs.now s → s.0 ≤ result }
    ensures one { (result ≡ 0) ⊎ HasSiteInOne graphs.now (record { 0 = result }) }
{
    let mut last = 0;
    'graphs: for graph in graphs {
        last = highest(graph.steps(), last);
    }
    last
}

// Notes where the site of an instruction stands, if it has one.
fn note_one(places: &mut Vec<(FunId, NodeId)>, function: FunId, node: u32, instr: &Instr)
    ensures length { length places.new.items ≡ length places.old.items }
    ensures noted { (a : At) → site_in instr.now ≡ Some a → (k : ℕ) → a.site.0 ≡ k + 1 → k < length places.old.items → get_or places.new.items k no_place ≡ (function, record { 0 = node }) }
    ensures other { (k : ℕ) → (get_or places.new.items k no_place ≡ get_or places.old.items k no_place) ⊎ ((a : At) × (site_in instr.now ≡ Some a) × (a.site.0 ≡ k + 1) × (get_or places.new.items k no_place ≡ (function, record { 0 = node }))) }
{
    let Some(at) = site_in(instr) else {
        return;
    };
    let number = at.site.0 as usize;
    if number > 0 && number <= places.len() {
        places[number - 1] = (function, NodeId(node));
    }
}

// Notes where the sites of a graph stand.
fn note(places: &mut Vec<(FunId, NodeId)>, function: FunId, steps: &[Step])
    requires { length steps.now < 4294967296 }
    ensures length { length places.new.items ≡ length places.old.items }
    ensures noted { (k : ℕ) → k < length places.old.items → HasSite steps.now (record { 0 = k + 1 }) → IsPlace function steps.now (record { 0 = k + 1 }) (get_or places.new.items k no_place) }
    ensures other { (k : ℕ) → (get_or places.new.items k no_place ≡ get_or places.old.items k no_place) ⊎ IsPlace function steps.now (record { 0 = k + 1 }) (get_or places.new.items k no_place) }
{
    let mut node = 0;
    'steps: for step in steps {
        note_one(places, function, node, &step.node.instr);
        node += 1;
    }
}

/// Where each of so many sites stands.
pub(crate) fn places(
    alloc: Global,
    graphs: &[Graph],
    sites: u32,
) -> Result<Vec<(FunId, NodeId)>, NoMemory>
    requires { length graphs.now < 4294967296 }
    ensures length { IfOk result (λ ps. length ps.items ≡ sites) }
    ensures placed { IfOk result (λ ps. (k : ℕ) → k < sites → HasSiteInOne graphs.now (record { 0 = k + 1 }) → IsPlaceInOne graphs.now (record { 0 = k + 1 }) (get_or ps.items k no_place)) }
{
    let mut places = vec![in alloc; (FunId(0), NodeId(0)); sites as usize]?;
    let mut function = 0;
    'graphs: for graph in graphs {
        note(&mut places, FunId(function), graph.steps());
        function += 1;
    }
    Ok(places)
}
