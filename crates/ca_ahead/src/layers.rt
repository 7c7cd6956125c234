//! One search for each number of calls gone up.

ghost use Rattle.std.specs.Prelude.{◌≡◌, ◌<◌, ◌↔◌, true, Some, length, slice_get, Contains, IfOk};
ghost use Rattle.ca_tree.specs.declared.numbers.ItemId.{ItemId as AnItem};
ghost use Rattle.ca_model.specs.Paths.{BeginsThreads};
ghost use Rattle.ca_model.specs.declared.tree.Function.{Function};
ghost use Rattle.ca_ahead.specs.Onward.{Gains, IsEither, HasCall, IsEntered, EntersOne};

use crate::onward::is_set;
use ca_flow::Code;
use ca_tree::{FunId, ItemId, NoMemory};
use std::alloc::Global;

// Whether a number is marked or was found one call further up.
fn is_either(marked: &[bool], above: &[bool], n: u32) -> bool
    ensures { (result ≡ true) ↔ IsEither marked.now above.now n }
{
    is_set(marked, n) || is_set(above, n)
}

// Whether one of some items is marked or was found one call further up.
fn has_either(items: &[ItemId], marked: &[bool], above: &[bool]) -> bool
    ensures { (result ≡ true) ↔ ((i : AnItem) × Contains items.now i × IsEither marked.now above.now i.0) }
{
    'items: for item in items {
        if is_either(marked, above, item.0) {
            return true;
        }
    }
    false
}

// Whether paths go up from a function: threads don't begin with it.
fn is_left(code: &Code, function: FunId) -> bool
    requires { function.0 < length code.now.source.functions }
    ensures { (f : Function) → slice_get code.now.source.functions function.0 ≡ Some f → (result ≡ true) ↔ (BeginsThreads code.now.source f → ⊥) }
{
    !code.is_start(function)
}

// Whether a path goes up from a function to a call that is marked or was found.
fn has_call(code: &Code, function: FunId, marked: &[bool], above: &[bool]) -> bool
    requires { function.0 < length code.now.source.functions }
    ensures { (f : Function) → slice_get code.now.source.functions function.0 ≡ Some f → (result ≡ true) ↔ HasCall code.now.source marked.now above.now f }
{
    let _graphs = code.graphs();
    let calls = code.calls_of(function);
    is_left(code, function) && has_either(calls, marked, above)
}

// Adds the first item of a function, if a path goes up from it to a call that is marked or was found.
fn add_entry(
    numbers: &mut Vec<u32>,
    code: &Code,
    function: FunId,
    marked: &[bool],
    above: &[bool],
) -> Result<(), NoMemory>
    requires { function.0 < length code.now.source.functions }
    ensures { IfOk result (λ u. (f : Function) → slice_get code.now.source.functions function.0 ≡ Some f → Gains numbers.old.items numbers.new.items (λ n. IsEntered code.now.source marked.now above.now f n)) }
{
    if !has_call(code, function, marked, above) {
        return Ok(());
    }
    let graph = code.graph(function);
    let first = graph.first();
    numbers.push(first.0)?;
    Ok(())
}

// How many functions a source has.
fn function_count(code: &Code) -> u32
    ensures { result ≡ length code.now.source.functions }
{
    let graphs = code.graphs();
    graphs.len() as u32
}

/// Some numbers, and the first items of the functions from which a path goes up to a call that is marked or was found.
pub(crate) fn with_entries(
    alloc: Global,
    numbers: &[u32],
    code: &Code,
    marked: &[bool],
    above: &[bool],
) -> Result<Vec<u32>, NoMemory>
    ensures { IfOk result (λ all. Gains numbers.now all.items (λ n. EntersOne code.now.source marked.now above.now code.now.source.functions n)) }
{
    let mut all = numbers.to_vec(alloc)?;
    let count = function_count(code);
    'functions: for k in 0..count {
        add_entry(&mut all, code, FunId(k), marked, above)?;
    }
    Ok(all)
}
