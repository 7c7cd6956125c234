//! Events of a running frame.

ghost use Rattle.std.specs.Prelude.{◌≡◌, [], ◌∷◌, ℕ, true, MatchOption, Some, None, slice_get, map, length};
ghost use Rattle.ca_tree.specs.declared.numbers.ItemId.{ItemId};
ghost use Rattle.ca_model.specs.Asks.{Is, Wants};
ghost use Rattle.ca_model.specs.Laws.{Stands};
ghost use Rattle.ca_flow.specs.Instructions.{instr_run, node_run, toward};
ghost use Rattle.ca_thread.specs.Silent.{Silent, StopsAt};
ghost use Rattle.ca_flow.specs.Graphs.{IsDrawn};
ghost use Rattle.ca_thread.specs.Standing.{IsWaiting, Answered};

use crate::frames::{Row, put};
use crate::silent::{node_at, settle, toward};
use ca_flow::{Instr, NodeId, Step};
use ca_model::Value;

// The registers after an answer to what an instruction asks for.
fn take(instr: &Instr, row: &mut Row, answer: Value)
    ensures { (i : ItemId) → IsWaiting (instr_run instr.now i row.old []) → instr_run instr.now i row.old (answer ∷ []) ≡ Is (row.new, true) [] }
{
    match instr {
        Instr::Load { to, .. } | Instr::Malloc { to, .. } | Instr::Create { to, .. } => put(
            row, *to, answer,
        ),
        Instr::Call { to: Some(to), .. } => put(row, *to, answer),
        _ => {}
    }
}

/// The node after an answer to what a node asks for, and the silent steps after it.
pub(crate) fn answered(steps: &[Step], node: NodeId, row: &mut Row, answer: Value) -> NodeId
    requires { IsDrawn steps.now }
    ensures { Answered steps.now answer node.0 row.old result.0 row.new }
{
    let Some(at) = node_at(steps, node) else {
        return node;
    };
    take(&at.node.instr, row, answer);
    let Some(next) = toward(at.links, true) else {
        return node;
    };
    settle(steps, next, row)
}
