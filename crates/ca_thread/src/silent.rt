//! Silent steps: instructions that ask for nothing.

ghost use Rattle.std.specs.Prelude.{◌≡◌, ◌<◌, [], ℕ, MatchOption, Some, None, true, slice_get, IfSome, IfNone};
ghost use Rattle.ca_tree.specs.declared.numbers.ItemId.{ItemId};
ghost use Rattle.ca_model.specs.Asks.{Is};
ghost use Rattle.ca_model.specs.Eval.{negated};
ghost use Rattle.ca_model.specs.Laws.{Stands};
ghost use Rattle.ca_flow.specs.Instructions.{instr_run, put, displacement, toward};
ghost use Rattle.ca_thread.specs.Silent.{Silent, StopsAt};
ghost use Rattle.ca_flow.specs.Graphs.{IsDrawn};

use crate::frames::{Row, put, register};
use ca_flow::{Instr, Links, NodeId, Reg, Step};
use ca_model::Value;
use ca_values::{displace, negate, operated, truth};

// The negative of a value.
fn negated(x: Value) -> Option<Value>
    ensures { result ≡ negated x }
{
    let n = match x {
        Value::Num(n) => n,
        Value::Addr(_) => 0,
    };
    match negate(n) {
        Ok(m) => Some(Value::Num(m)),
        Err(_) => None,
    }
}

// The displacement of an access in cells.
pub(crate) fn displacement(row: &Row, index: &Option<(Reg, u32)>, field: u32) -> i64
    ensures { result ≡ displacement row.now index.now field }
{
    match index {
        None => field as i64,
        Some((a, scale)) => {
            let n = match register(row, *a) {
                Value::Num(n) => n,
                Value::Addr(_) => 0,
            };
            (n as i64) * (*scale as i64) + (field as i64)
        }
    }
}

// Sets a register to a value, if there is one.
fn set(row: &mut Row, to: Reg, value: Option<Value>) -> Option<bool>
    ensures { MatchOption result ((value ≡ None) × (row.new ≡ row.old)) (λ b. (b ≡ true) × MatchOption value ⊥ (λ x. row.new ≡ put row.old to x)) }
{
    let x = value?;
    put(row, to, x);
    Some(true)
}

// An instruction that asks for nothing and has a result: the registers after it, and whether the first link is taken.
fn silent(instr: &Instr, row: &mut Row) -> Option<bool>
    ensures { (i : ItemId) → MatchOption result (Stands (instr_run instr.now i row.old []) × (row.new ≡ row.old)) (λ b. instr_run instr.now i row.old [] ≡ Is (row.new, b) []) }
{
    match instr {
        Instr::Put { to, value } => {
            put(row, *to, *value);
            Some(true)
        }
        Instr::Copy { to, from } => {
            let value = register(row, *from);
            put(row, *to, value);
            Some(true)
        }
        Instr::Negate { to, from } => {
            let value = negated(register(row, *from));
            set(row, *to, value)
        }
        Instr::Not { to, from } => {
            let value = truth(register(row, *from));
            put(row, *to, Value::Num(if value { 0 } else { 1 }));
            Some(true)
        }
        Instr::Binary {
            to,
            op,
            left,
            right,
        } => {
            let a = register(row, *left);
            let b = register(row, *right);
            let value = operated(*op, a, b).ok();
            set(row, *to, value)
        }
        Instr::Displace {
            to,
            base,
            index,
            field,
        } => {
            let by = displacement(row, index, *field);
            let value = displace(register(row, *base), by).ok();
            set(row, *to, value)
        }
        Instr::Assert { value, .. } => {
            if truth(register(row, *value)) {
                Some(true)
            } else {
                None
            }
        }
        Instr::Branch(value) => Some(truth(register(row, *value))),
        _ => None,
    }
}

// The node of a link.
pub(crate) fn toward(links: Links, taken: bool) -> Option<NodeId>
    ensures { MatchOption result (toward links taken ≡ None) (λ m. toward links taken ≡ Some m.0) }
{
    match links {
        Links::Nowhere => None,
        Links::One(node) => Some(node),
        Links::Two { yes, no } => Some(if taken { yes } else { no }),
    }
}

// A node of a graph.
pub(crate) fn node_at(steps: &[Step], node: NodeId) -> Option<&Step>
    ensures { MatchOption result (slice_get steps.now node.0 ≡ None) (λ at. slice_get steps.now node.0 ≡ Some at.now) }
{
    steps.get(node.0 as usize)
}

// The node after one silent step, if there is one from a node.
fn step_on(steps: &[Step], node: NodeId, row: &mut Row) -> Option<NodeId>
    requires { IsDrawn steps.now }
    ensures on { IfSome result (λ m. Silent steps.now node.0 row.old m.0 row.new × (m.0 < node.0)) }
    ensures stops { IfNone result ((row.new ≡ row.old) × StopsAt steps.now node.0 row.old) }
{
    let Some(at) = node_at(steps, node) else {
        return None;
    };
    let Some(taken) = silent(&at.node.instr, row) else {
        return None;
    };
    let Some(next) = toward(at.links, taken) else {
        return None;
    };
    Some(next)
}

/// The silent steps from a node up to one that asks for something or has no result.
pub(crate) fn settle(steps: &[Step], node: NodeId, row: &mut Row) -> NodeId
    requires { IsDrawn steps.now }
    ensures goes { Silent steps.now node.0 row.old result.0 row.new }
    ensures stops { StopsAt steps.now result.0 row.new }
{
    let mut now = node;
    'steps: while let Some(next) = step_on(steps, now, row) {
        now = next;
    }
    now
}
