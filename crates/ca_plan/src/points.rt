//! What stands before items, and where the paths from them stop.

ghost use Rattle.std.specs.Prelude.{◌≡◌, ◌<◌, ◌≤◌, IfOk, Contains};
ghost use Rattle.ca_tree.specs.declared.numbers.FunId.{FunId as AFun};
ghost use Rattle.ca_model.specs.Bounds.{IsBounded};
ghost use Rattle.ca_model.specs.WellFormed.{IsWellFormed};
ghost use Rattle.ca_plan.specs.Planning.{AreItems, ArePoints};

use crate::acquiring::read_items;
use ca_callers::Callers;
use ca_flow::{Code, Points};
use ca_tree::{FunId, ItemId, NoMemory};
use std::alloc::Global;

// The number of a function has 32 bits.
fn read_function(function: FunId)
    ensures { function.0 < 4294967296 }
{
    let _number = function.0;
}

// Functions that are read have numbers of 32 bits.
fn read_functions(functions: &[FunId])
    ensures { (n : AFun) → Contains functions.now n → n.0 < 4294967296 }
{
    'functions: for function in functions {
        read_function(*function);
    }
}

/// A source is well-formed, and keeps within limits.
pub(crate) fn formed(code: &Code)
    ensures formed { IsWellFormed code.now.source }
    ensures bounded { IsBounded code.now.source }
{
    let _graphs = code.graphs();
}

/// What stands before some items, and where the paths from them stop.
pub(crate) fn points(
    alloc: Global,
    callers: &Callers,
    from: &[ItemId],
    depth: u32,
) -> Result<Points, NoMemory>
    requires formed { IsWellFormed callers.now }
    requires bounded { IsBounded callers.now }
    requires from { AreItems callers.now from.now }
    requires depth { depth ≤ 8 }
    ensures points { IfOk result (λ r. ArePoints callers.now depth from.now r) }
{
    let points = callers.points(alloc, from, depth)?;
    read_items(points.items.as_slice());
    read_items(points.after.as_slice());
    read_functions(points.entries.as_slice());
    Ok(points)
}
