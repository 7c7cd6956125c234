//! Running frames of code: answers and calls.

ghost use Rattle.std.specs.Prelude.{◌≡◌, ◌<◌, ◌++◌, MatchOption, IfOk, IfSome, IfNone, List, [], ◌∷◌, Some, None, length, map, take, replicate, slice_get};
ghost use Rattle.ca_model.specs.Arith.{null};
ghost use Rattle.ca_model.specs.Asks.{Want, Wants};
ghost use Rattle.ca_model.specs.Begun.{IsReturn};
ghost use Rattle.ca_model.specs.Eval.{local};
ghost use Rattle.ca_model.specs.Frames.{Frame, begun, answered, frame_of};
ghost use Rattle.ca_flow.specs.Instructions.{reg};
ghost use Rattle.ca_flow.specs.Graphs.{ControlFlow, IsDrawn};
ghost use Rattle.ca_flow.specs.Lowerings.{rules_of, IsLowering};
ghost use Rattle.ca_thread.specs.Standing.{IsStanding, AreStanding};
ghost use Rattle.ca_thread.specs.declared.frames.RunningFrame.{RunningFrame as Running};

use crate::answers::answered;
use crate::frames::{Row, RunningFrame, register, row_with};
use crate::silent::{node_at, settle};
use ca_flow::{Code, Graph, NodeId, Reg, Step};
use ca_model::Value;
use ca_tree::{FunId, NoMemory};
use std::alloc::Global;

fn find_graph(code: &Code, f: FunId) -> Option<&Graph>
    ensures found { MatchOption result (slice_get code.now.graphs f.0 ≡ None) (λ g. slice_get code.now.graphs f.0 ≡ Some g.now) }
    ensures lowered { IsLowering code.now }
{
    code.graphs().get(f.0 as usize)
}

// The graph of a function, if there is one.
fn graph_of(code: &Code, f: FunId) -> Option<&Graph>
    ensures found { MatchOption result (slice_get code.now.graphs f.0 ≡ None) (λ g. slice_get code.now.graphs f.0 ≡ Some g.now) }
    ensures drawn { IfSome result (λ g. IsDrawn g.now.steps) }
    ensures lowered { IsLowering code.now }
{
    let Some(graph) = find_graph(code, f) else {
        return None;
    };
    Some(graph)
}

/// A node of a function's graph, if there is one.
pub(crate) fn step_at(code: &Code, f: FunId, node: NodeId) -> Option<&Step>
    ensures none { IfNone result ((g : ControlFlow) → slice_get code.now.graphs f.0 ≡ Some g → slice_get g.steps node.0 ≡ None) }
    ensures some { IfSome result (λ at. (g : ControlFlow) × (slice_get code.now.graphs f.0 ≡ Some g) × (slice_get g.steps node.0 ≡ Some at.now)) }
    ensures lowered { IsLowering code.now }
{
    let Some(graph) = graph_of(code, f) else {
        return None;
    };
    let Some(at) = node_at(graph.steps(), node) else {
        return None;
    };
    Some(at)
}

/// A running frame goes on by an answer to what it asks for.
pub(crate) fn go_on(code: &Code, frame: &mut RunningFrame, answer: Value)
    ensures { (f : Frame) (w : Want) → IsStanding code.now frame.old f → begun (rules_of code.now) f ≡ Wants w → (IsReturn w → ⊥) → IsStanding code.now frame.new (answered (rules_of code.now) f answer) }
{
    let Some(graph) = graph_of(code, frame.function) else {
        return;
    };
    let steps = graph.steps();
    frame.node = answered(steps, frame.node, &mut frame.row, answer);
}

fn value_or_null(values: &[Value], place: usize) -> Value
    ensures { result ≡ local values.now place }
{
    match values.get(place) {
        Some(value) => *value,
        None => Value::Num(0),
    }
}

// So many registers, of which the first have some values, and the others are null.
fn row_of(alloc: Global, registers: u32, values: &[Value]) -> Result<Vec<Value>, NoMemory>
    ensures { IfOk result (λ row. row.items ≡ take registers (values.now ++ replicate registers null)) }
{
    let mut row = Vec::new(alloc);
    'registers: for place in 0..registers {
        row.push(value_or_null(values, place as usize))?;
    }
    Ok(row)
}

/// The values of some registers.
pub(crate) fn values_in(alloc: Global, row: &Row, from: &[Reg]) -> Result<Vec<Value>, NoMemory>
    ensures { IfOk result (λ xs. xs.items ≡ map (reg row.now) from.now) }
{
    let mut values = Vec::new(alloc);
    'registers: for a in from {
        values.push(register(row, *a))?;
    }
    Ok(values)
}

/// A function begins, with its arguments.
pub(crate) fn begin(
    alloc: Global,
    code: &Code,
    f: FunId,
    arguments: &[Value],
) -> Result<RunningFrame, NoMemory>
    requires { f.0 < length code.now.source.functions }
    ensures { IfOk result (λ x. IsStanding code.now x (frame_of (rules_of code.now) f arguments.now)) }
{
    let graph = code.graph(f);
    let mut row = row_with(row_of(alloc, graph.registers(), arguments)?);
    let node = settle(graph.steps(), graph.entry(), &mut row);
    Ok(RunningFrame {
        function: f,
        node,
        row,
    })
}

/// The innermost of some frames.
pub(crate) fn top_of(frames: &[RunningFrame]) -> Option<&RunningFrame>
    ensures none { IfNone result (frames.now ≡ []) }
    ensures some { IfSome result (λ x. (xs : List Running) × (frames.now ≡ xs ++ x.now ∷ [])) }
{
    let count = frames.len();
    if count == 0 {
        return None;
    }
    Some(&frames[count - 1])
}

/// The innermost frame goes on by an answer to what it asks for.
pub(crate) fn go_on_top(code: &Code, frames: &mut Vec<RunningFrame>, answer: Value)
    ensures none { frames.old.items ≡ [] → frames.new.items ≡ [] }
    ensures some { (f : Frame) (fs : List Frame) (w : Want) → AreStanding code.now frames.old.items (f ∷ fs) → begun (rules_of code.now) f ≡ Wants w → (IsReturn w → ⊥) → AreStanding code.now frames.new.items (answered (rules_of code.now) f answer ∷ fs) }
{
    let count = frames.len();
    if count == 0 {
        return;
    }
    go_on(code, &mut frames[count - 1], answer);
}

/// The innermost frame returns a value to its caller, if it has one.
pub(crate) fn leave(code: &Code, frames: &mut Vec<RunningFrame>, value: Value)
    ensures caller { (f h : Frame) (hs : List Frame) → AreStanding code.now frames.old.items (f ∷ h ∷ hs) → AreStanding code.now frames.new.items (answered (rules_of code.now) h value ∷ hs) }
    ensures last { (f : Frame) → AreStanding code.now frames.old.items (f ∷ []) → AreStanding code.now frames.new.items [] }
{
    let Some(left) = frames.pop() else {
        return;
    };
    drop(left);
    go_on_top(code, frames, value);
}
