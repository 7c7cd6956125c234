//! For what a thread waits.

ghost use Rattle.std.specs.Prelude.{◌≡◌};
ghost use Rattle.ca_model.specs.Hardened.{Hardened, hardened};
ghost use Rattle.ca_model.specs.Asks.{Joins};
ghost use Rattle.ca_model.specs.Machine.{State};
ghost use Rattle.ca_flow.specs.Lowerings.{rules_of};
ghost use Rattle.ca_shared.specs.Histories.{state};
ghost use Rattle.ca_machine.specs.Machines.{IsAt, AreParts, StandAs};
ghost use Rattle.ca_machine.specs.Coming.{IsWaitAt, IsWaitOf};

use ca_flow::Code;
use ca_shared::{Phase, Shared};
use ca_thread::{Next, Private};
use ca_tree::MutexId;

/// For what a thread waits: a mutex that a thread holds, or the end of a thread that it joins.
#[derive(Clone, Copy, Debug, PartialEq, Eq)]
pub enum Waits {
    Lock { mutex: MutexId, owner: u32 },
    Join(u32),
}

// The wait at a join.
fn at_join(shared: &Shared, number: i32) -> Option<Waits>
    ensures { IsWaitAt (state shared.now) (Joins number) result }
{
    if number < 1 {
        return None;
    }
    let thread = number as u32;
    if thread >= shared.threads() || shared.has_ended(thread) {
        return None;
    }
    Some(Waits::Join(thread))
}

// The wait of a thread by itself.
fn wait_of(code: &Code, shared: &Shared, own: &Private) -> Option<Waits>
    requires { code.now ≡ own.now.code }
    ensures { (h : Hardened) → IsAt own.now h → IsWaitAt (state shared.now) ((hardened (rules_of own.now.code)).want h) result }
{
    match own.next(code) {
        Next::Lock(mutex) => match shared.owners().owner_if_there(mutex) {
            Some(owner) => Some(Waits::Lock { mutex, owner }),
            None => None,
        },
        Next::Join(number) => at_join(shared, number),
        _ => None,
    }
}

/// For what a thread of an open run waits. It takes no memory.
pub(crate) fn wait(code: &Code, shared: &Shared, privates: &[Private], thread: u32) -> Option<Waits>
    requires { AreParts code.now shared.now privates.now }
    ensures { (s : State Hardened) → StandAs code.now shared.now privates.now s → IsWaitOf s ((hardened (rules_of code.now)).want) thread result }
{
    match shared.phase() {
        Phase::Open => {}
        _ => return None,
    }
    match privates.get(thread as usize) {
        Some(own) => wait_of(code, shared, own),
        None => None,
    }
}
