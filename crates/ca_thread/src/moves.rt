//! How the frames of a thread go on.

ghost use Rattle.std.specs.Prelude.{◌≡◌, ◌<◌, ◌++◌, ◌∷◌, [], List, None, IfOk, vec_len, vec_capacity};
ghost use Rattle.ca_tree.specs.declared.numbers.ItemId.{ItemId};
ghost use Rattle.ca_model.specs.Asks.{Want, Wants};
ghost use Rattle.ca_model.specs.Frames.{Frame, begun};
ghost use Rattle.ca_model.specs.Private.{gone};
ghost use Rattle.ca_model.specs.declared.values.Value.{Value as Registered};
ghost use Rattle.ca_flow.specs.Instructions.{instr_run};
ghost use Rattle.ca_flow.specs.Lowerings.{rules_of};
ghost use Rattle.ca_thread.specs.Moves.{IsMove, IsCallee};
ghost use Rattle.ca_thread.specs.Standing.{AreStanding};

use crate::frames::RunningFrame;
use crate::own::returned;
use crate::stack::{begin, go_on_top, leave, step_at, top_of, values_in};
use ca_flow::{Code, Instr, Reg};
use ca_model::Value;
use ca_tree::{FunId, NoMemory};
use std::alloc::Global;

// What an answer to an instruction does to the frames: it goes on in its frame, calls a function, or returns.
pub(crate) enum Move<'a> {
    Plain,
    Call(FunId, &'a [Reg]),
    Return(Option<Reg>),
}

fn move_of(instr: &Instr) -> Move<'_>
    ensures { (i : ItemId) (r : List Registered) (w : Want) → instr_run instr.now i r [] ≡ Wants w → IsMove result r w }
{
    match instr {
        Instr::Call {
            function,
            arguments,
            ..
        } => Move::Call(*function, arguments.as_slice()),
        Instr::Return(from) => Move::Return(*from),
        Instr::Load { .. } | Instr::Store { .. } | Instr::Lock { .. } => Move::Plain,
        Instr::Unlock(_) | Instr::Malloc { .. } | Instr::Free { .. } => Move::Plain,
        Instr::Print { .. } | Instr::Create { .. } | Instr::Join { .. } => Move::Plain,
        Instr::Turn | Instr::Save | Instr::Assert { .. } => Move::Plain,
        Instr::Put { .. } | Instr::Copy { .. } | Instr::Not { .. } => Move::Plain,
        Instr::Branch(_) | Instr::Negate { .. } | Instr::Binary { .. } => Move::Plain,
        Instr::Displace { .. } => Move::Plain,
    }
}

/// The frame that an answer to what the innermost one asks for begins, if that is a call.
pub(crate) fn callee(
    alloc: Global,
    code: &Code,
    frames: &[RunningFrame],
) -> Result<Option<RunningFrame>, NoMemory>
    requires { (f : Frame) × (fs : List Frame) × (w : Want) × AreStanding code.now frames.now (f ∷ fs) × (begun (rules_of code.now) f ≡ Wants w) }
    ensures { IfOk result (λ x. (f : Frame) (fs : List Frame) (w : Want) → AreStanding code.now frames.now (f ∷ fs) → begun (rules_of code.now) f ≡ Wants w → IsCallee code.now w x) }
{
    let Some(top) = top_of(frames) else {
        return Ok(None);
    };
    let Some(at) = step_at(code, top.function, top.node) else {
        return Ok(None);
    };
    match move_of(&at.node.instr) {
        Move::Plain => Ok(None),
        Move::Return(_) => Ok(None),
        Move::Call(function, arguments) => {
            let values = values_in(alloc, &top.row, arguments)?;
            let frame = begin(alloc, code, function, &values)?;
            Ok(Some(frame))
        }
    }
}

// One frame more, where there is a place for it.
fn push_frame(frames: &mut Vec<RunningFrame>, frame: RunningFrame)
    requires { vec_len frames.old < vec_capacity frames.old }
    ensures { frames.new.items ≡ frames.old.items ++ frame ∷ [] }
{
    let _ = frames.push(frame);
}

// The frames go on by an answer to what is no call.
fn go_without_call(code: &Code, frames: &mut Vec<RunningFrame>, answer: Value)
    ensures { (f : Frame) (fs : List Frame) (w : Want) → AreStanding code.now frames.old.items (f ∷ fs) → begun (rules_of code.now) f ≡ Wants w → IsCallee code.now w None → AreStanding code.now frames.new.items (gone (rules_of code.now) w answer f fs) }
{
    let Some(top) = top_of(frames) else {
        return;
    };
    let Some(at) = step_at(code, top.function, top.node) else {
        return;
    };
    match move_of(&at.node.instr) {
        Move::Plain => go_on_top(code, frames, answer),
        Move::Return(from) => {
            let value = returned(&top.row, from);
            leave(code, frames, value);
        }
        Move::Call(_, _) => {}
    }
}

/// The frames go on by an answer to what the innermost one asks for, or by the frame that a call begins.
pub(crate) fn go(
    code: &Code,
    frames: &mut Vec<RunningFrame>,
    answer: Value,
    callee: Option<RunningFrame>,
)
    requires { vec_len frames.old < vec_capacity frames.old }
    ensures { (f : Frame) (fs : List Frame) (w : Want) → AreStanding code.now frames.old.items (f ∷ fs) → begun (rules_of code.now) f ≡ Wants w → IsCallee code.now w callee → AreStanding code.now frames.new.items (gone (rules_of code.now) w answer f fs) }
{
    match callee {
        None => go_without_call(code, frames, answer),
        Some(frame) => push_frame(frames, frame),
    }
}
