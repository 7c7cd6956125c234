//! The own part of an entry: whether it answers what an instruction asks for.

ghost use Rattle.std.specs.Prelude.{◌≡◌, [], ℕ, List, None, false, option_map, pos, ◌*ℤ◌};
ghost use Rattle.ca_tree.specs.declared.numbers.ItemId.{ItemId};
ghost use Rattle.ca_model.specs.Arith.{number, null};
ghost use Rattle.ca_model.specs.Asks.{Want, Wants, Returns, Faults, No_result};
ghost use Rattle.ca_model.specs.Private.{answer, is_at, when, may_fault};
ghost use Rattle.ca_flow.specs.Instructions.{instr_run, reg, returned};
ghost use Rattle.ca_thread.specs.Asked.{last_or, IsText, wants_save};
ghost use Rattle.ca_model.specs.declared.values.Value.{Value as Registered};
ghost use Rattle.ca_model.specs.Hardened.{site_of};
ghost use Rattle.ca_flow.specs.Lowerings.{site_in};
ghost use Rattle.ca_model.specs.declared.values.FaultKind.TheVariants as fault;

use crate::frames::{Row, register};
use crate::silent::displacement;
use ca_flow::{AtSite, Instr, Reg};
use ca_model::{Addr, EventAct, FaultKind, Value};
use ca_values::{same, suits};

// Whether a base with a displacement is an address.
fn is_at(base: Value, by: i64, at: &Addr) -> bool
    ensures { result ≡ is_at base by at.now }
{
    match base {
        Value::Num(_) => false,
        Value::Addr(a) => {
            let between = i64::from(at.offset) - i64::from(a.offset);
            a.block == at.block && between == by
        }
    }
}

// The number in a register.
pub(crate) fn number_in(row: &Row, a: Reg) -> i32
    ensures { result ≡ number (reg row.now a) }
{
    match register(row, a) {
        Value::Num(n) => n,
        Value::Addr(_) => 0,
    }
}

// What a return gives.
pub(crate) fn returned(row: &Row, from: Option<Reg>) -> Value
    ensures { result ≡ returned row.now from }
{
    match from {
        None => Value::Num(0),
        Some(a) => register(row, a),
    }
}

// How many cells a `malloc` asks for.
pub(crate) fn cells_of(row: &Row, count: Reg, size: u32) -> i64
    ensures { result ≡ number (reg row.now count) *ℤ pos size }
{
    i64::from(number_in(row, count)) * i64::from(size)
}

fn null_if(test: bool) -> Option<Value>
    ensures { result ≡ when test null }
{
    if test { Some(Value::Num(0)) } else { None }
}

// The answer that an entry gives to a return.
fn own_return(row: &Row, from: Option<Reg>, last: bool, act: &EventAct) -> Option<Value>
    ensures { result ≡ answer (last_or last (Returns (returned row.now from))) act.now }
{
    if last {
        return match act {
            EventAct::End => Some(Value::Num(0)),
            _ => None,
        };
    }
    match act {
        EventAct::Return(value) => null_if(same(returned(row, from), *value)),
        _ => None,
    }
}

// The answer that an entry gives to an instruction that asks for something, if it is such an entry. The bytes are those
// that a print writes; a return of the last frame is an end.
pub(crate) fn own_answer(
    instr: &Instr,
    row: &Row,
    text: &[u8],
    last: bool,
    act: &EventAct,
) -> Option<Value>
    ensures wanted { (i : ItemId) (w : Want) → instr_run instr.now i row.now [] ≡ Wants w → IsText instr.now row.now text.now → result ≡ answer (last_or last w) act.now }
    ensures none { (i : ItemId) → instr_run instr.now i row.now [] ≡ No_result → result ≡ None }
{
    match instr {
        Instr::Load {
            base,
            index,
            field,
            kind,
            ..
        } => match act {
            EventAct::Read { at, value } => {
                let by = displacement(row, index, *field);
                let here = is_at(register(row, *base), by, at) && suits(*kind, *value);
                if here { Some(*value) } else { None }
            }
            _ => None,
        },
        Instr::Store {
            from,
            base,
            index,
            field,
            ..
        } => match act {
            EventAct::Write { at, value } => {
                let by = displacement(row, index, *field);
                null_if(is_at(register(row, *base), by, at) && same(register(row, *from), *value))
            }
            _ => None,
        },
        Instr::Lock { mutex, .. } => match act {
            EventAct::Lock(m) => null_if(mutex.0 == m.0),
            _ => None,
        },
        Instr::Unlock(mutex) => match act {
            EventAct::Unlock(m) => null_if(mutex.0 == m.0),
            _ => None,
        },
        Instr::Malloc { count, size, .. } => match act {
            EventAct::Malloc { cells, at } => {
                if cells_of(row, *count, *size) == *cells {
                    Some(*at)
                } else {
                    None
                }
            }
            _ => None,
        },
        Instr::Free { from, .. } => match act {
            EventAct::Free { at } => null_if(same(register(row, *from), *at)),
            _ => None,
        },
        Instr::Print { .. } => match act {
            EventAct::Print(bytes) => null_if(*text == *bytes.as_slice()),
            _ => None,
        },
        Instr::Create { .. } => match act {
            EventAct::Create(u) => {
                if 0 < *u && *u < 64 {
                    Some(Value::Num(*u as i32))
                } else {
                    None
                }
            }
            _ => None,
        },
        Instr::Join { thread } => match act {
            EventAct::Join(u) => null_if(i64::from(number_in(row, *thread)) == i64::from(*u)),
            _ => None,
        },
        Instr::Call { function, .. } => match act {
            EventAct::Call(f) => null_if(function.0 == f.0),
            _ => None,
        },
        Instr::Return(from) => own_return(row, *from, last, act),
        Instr::Turn => match act {
            EventAct::Turn => Some(Value::Num(0)),
            _ => None,
        },
        Instr::Save => match act {
            EventAct::Save => Some(Value::Num(0)),
            _ => None,
        },
        Instr::Put { .. } | Instr::Copy { .. } | Instr::Not { .. } | Instr::Branch(_) => None,
        Instr::Negate { .. } | Instr::Binary { .. } | Instr::Displace { .. } => None,
        Instr::Assert { .. } => None,
    }
}

/// The site that an instruction stands at where it asks for something.
pub(crate) fn asked_site(instr: &Instr) -> Option<AtSite>
    ensures mark { result ≡ site_in instr.now }
    ensures wanted { (i : ItemId) (r : List Registered) (w : Want) → instr_run instr.now i r [] ≡ Wants w → site_of w ≡ option_map (λ a. a.site) result }
    ensures none { (i : ItemId) (r : List Registered) → instr_run instr.now i r [] ≡ No_result → result ≡ None }
{
    match instr {
        Instr::Load { at, .. } | Instr::Store { at, .. } => *at,
        Instr::Lock { at, .. } | Instr::Free { at, .. } | Instr::Assert { at, .. } => Some(*at),
        Instr::Unlock(_) | Instr::Malloc { .. } | Instr::Print { .. } => None,
        Instr::Create { .. } | Instr::Join { .. } | Instr::Call { .. } => None,
        Instr::Turn | Instr::Save | Instr::Return(_) => None,
        Instr::Put { .. } | Instr::Copy { .. } | Instr::Not { .. } | Instr::Branch(_) => None,
        Instr::Negate { .. } | Instr::Binary { .. } | Instr::Displace { .. } => None,
    }
}

/// Whether a fault may come at an instruction that asks for something or has no result.
pub(crate) fn may_fault(instr: &Instr, kind: FaultKind) -> bool
    ensures wanted { (i : ItemId) (r : List Registered) (w : Want) → instr_run instr.now i r [] ≡ Wants w → result ≡ may_fault w kind }
    ensures none { (i : ItemId) (r : List Registered) → instr_run instr.now i r [] ≡ No_result → result ≡ may_fault (Faults fault.Arith) kind }
{
    match instr {
        Instr::Load { .. } => matches!(kind, FaultKind::Pointer | FaultKind::Kind),
        Instr::Store { .. } | Instr::Free { .. } => matches!(kind, FaultKind::Pointer),
        Instr::Unlock(_) => matches!(kind, FaultKind::Mutex),
        Instr::Create { .. } | Instr::Join { .. } => matches!(kind, FaultKind::Thread),
        Instr::Assert { .. } => matches!(kind, FaultKind::Assert),
        Instr::Negate { .. } | Instr::Binary { .. } | Instr::Displace { .. } => {
            matches!(kind, FaultKind::Arith)
        }
        Instr::Lock { .. } | Instr::Malloc { .. } | Instr::Print { .. } => false,
        Instr::Call { .. } | Instr::Return(_) | Instr::Turn | Instr::Save => false,
        Instr::Put { .. } | Instr::Copy { .. } | Instr::Not { .. } | Instr::Branch(_) => false,
    }
}

/// Whether an instruction asks for a save.
pub(crate) fn saves(instr: &Instr) -> bool
    ensures wanted { (i : ItemId) (r : List Registered) (w : Want) → instr_run instr.now i r [] ≡ Wants w → result ≡ wants_save w }
    ensures none { (i : ItemId) (r : List Registered) → instr_run instr.now i r [] ≡ No_result → result ≡ false }
{
    match instr {
        Instr::Save => true,
        Instr::Load { .. } | Instr::Store { .. } | Instr::Free { .. } => false,
        Instr::Unlock(_) | Instr::Create { .. } | Instr::Join { .. } => false,
        Instr::Assert { .. } | Instr::Lock { .. } | Instr::Malloc { .. } => false,
        Instr::Print { .. } | Instr::Call { .. } | Instr::Return(_) | Instr::Turn => false,
        Instr::Put { .. } | Instr::Copy { .. } | Instr::Not { .. } | Instr::Branch(_) => false,
        Instr::Negate { .. } | Instr::Binary { .. } | Instr::Displace { .. } => false,
    }
}
