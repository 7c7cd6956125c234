//! Entries of a thread's own: copies of them, and what they take.

ghost use Rattle.std.specs.Prelude.{◌≡◌, [], IfOk, List, ℤ, Bool, None, Some};
ghost use Rattle.ca_tree.specs.declared.numbers.ItemId.{ItemId};
ghost use Rattle.ca_model.specs.Asks.{Want, Wants, No_result, Locks, Mallocs};
ghost use Rattle.ca_tree.specs.declared.numbers.MutexId.{MutexId as Mutex};
ghost use Rattle.ca_tree.specs.declared.numbers.SiteId.{SiteId as Site};
ghost use Rattle.ca_model.specs.Frames.{Code};
ghost use Rattle.ca_model.specs.Hardened.{taking};
ghost use Rattle.ca_model.specs.Sites.{if_any};
ghost use Rattle.ca_model.specs.declared.values.Value.{Value as Registered};
ghost use Rattle.ca_flow.specs.Instructions.{instr_run};
ghost use Rattle.ca_flow.specs.Lowerings.{acquiring_in};

use ca_flow::Instr;
use ca_model::{Event, EventAct, Given, Value};
use ca_tree::NoMemory;
use ca_tree::listed::Listed;
use std::alloc::Global;

fn copy_act(alloc: Global, act: &EventAct) -> Result<EventAct, NoMemory>
    ensures { IfOk result (λ a. a ≡ act.now) }
{
    let copy = match act {
        EventAct::Read { at, value } => EventAct::Read {
            at: *at,
            value: *value,
        },
        EventAct::Write { at, value } => EventAct::Write {
            at: *at,
            value: *value,
        },
        EventAct::Lock(m) => EventAct::Lock(*m),
        EventAct::Unlock(m) => EventAct::Unlock(*m),
        EventAct::Malloc { cells, at } => EventAct::Malloc {
            cells: *cells,
            at: *at,
        },
        EventAct::Free { at } => EventAct::Free { at: *at },
        EventAct::Print(text) => return copy_print(alloc, text.as_slice()),
        EventAct::Create(u) => EventAct::Create(*u),
        EventAct::Join(u) => EventAct::Join(*u),
        EventAct::Call(f) => EventAct::Call(*f),
        EventAct::Return(value) => EventAct::Return(*value),
        EventAct::Turn => EventAct::Turn,
        EventAct::End => EventAct::End,
        EventAct::Fault(kind) => EventAct::Fault(*kind),
        EventAct::Save => EventAct::Save,
        EventAct::Retry { site, gives } => {
            let gives = Vec::from_slice(alloc, gives.as_slice())?;
            return Ok(EventAct::Retry {
                site: *site,
                gives: Listed::from_vec(gives),
            });
        }
    };
    Ok(copy)
}

fn copy_print(alloc: Global, text: &[u8]) -> Result<EventAct, NoMemory>
    ensures { IfOk result (λ a. a ≡ EventAct.Print text.now) }
{
    let bytes = Vec::from_slice(alloc, text)?;
    Ok(EventAct::Print(Listed::from_vec(bytes)))
}

/// An entry again, with lists of its own.
pub fn copy_event(alloc: Global, event: &Event) -> Result<Event, NoMemory>
    ensures { IfOk result (λ e. e ≡ event.now) }
{
    Ok(Event {
        thread: event.thread,
        act: copy_act(alloc, &event.act)?,
    })
}

fn given_lock(acquiring: bool, act: &EventAct) -> Option<Given>
    ensures { (m : Mutex) (s : Site) (i : ItemId) (code : Code) → acquiring ≡ code.acquires i → if_any result ≡ taking code (Locks m s i) act.now }
{
    match act {
        EventAct::Lock(m) => {
            if acquiring {
                Some(Given::Mutex(*m))
            } else {
                None
            }
        }
        _ => None,
    }
}

fn given_block(acquiring: bool, act: &EventAct) -> Option<Given>
    ensures { (n : ℤ) (i : ItemId) (code : Code) → acquiring ≡ code.acquires i → if_any result ≡ taking code (Mallocs n i) act.now }
{
    match act {
        EventAct::Malloc { at, .. } => match at {
            Value::Num(_) => None,
            Value::Addr(a) => {
                if acquiring {
                    Some(Given::Block(a.block))
                } else {
                    None
                }
            }
        },
        _ => None,
    }
}

/// What an entry takes at an instruction whose item acquires.
pub(crate) fn given(instr: &Instr, act: &EventAct) -> Option<Given>
    ensures wanted { (i : ItemId) (r : List Registered) (w : Want) (code : Code) → ((b : Bool) → acquiring_in instr.now ≡ Some b → b ≡ code.acquires i) → instr_run instr.now i r [] ≡ Wants w → if_any result ≡ taking code w act.now }
    ensures none { (i : ItemId) (r : List Registered) → instr_run instr.now i r [] ≡ No_result → result ≡ None }
{
    match instr {
        Instr::Lock { acquiring, .. } => given_lock(*acquiring, act),
        Instr::Malloc { acquiring, .. } => given_block(*acquiring, act),
        Instr::Load { .. } | Instr::Store { .. } | Instr::Unlock(_) => None,
        Instr::Free { .. } | Instr::Print { .. } | Instr::Create { .. } => None,
        Instr::Join { .. } | Instr::Call { .. } | Instr::Return(_) => None,
        Instr::Turn | Instr::Save | Instr::Assert { .. } => None,
        Instr::Put { .. } | Instr::Copy { .. } | Instr::Not { .. } => None,
        Instr::Branch(_) | Instr::Negate { .. } | Instr::Binary { .. } => None,
        Instr::Displace { .. } => None,
    }
}
