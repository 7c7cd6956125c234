//! A thread by itself, with its code.

ghost use Rattle.std.specs.Prelude.{◌≡◌, true};
ghost use Rattle.ca_thread.specs.Privates.{IsStart};

use ca_flow::Code;
use ca_lower::lower;
use ca_model::{Event, Given, Plan, Value, fits};
use ca_thread::{AdvanceNo, Next, Private};
use ca_tree::{FunId, NoMemory, SiteId};
use ca_worked::typing;
use std::alloc::Global;

/// The code of a text under a plan, where the text is a source that the plan fits.
pub fn code_of(alloc: Global, text: &[u8], plan: &Plan) -> Result<Option<Code>, NoMemory> {
    let Ok(checked) = typing(alloc, text)? else {
        return Ok(None);
    };
    if !fits(&checked, plan) {
        return Ok(None);
    }
    let code = lower(alloc, &checked, plan)?;
    Ok(Some(code))
}

// Whether a thread of this number may start with a function.
fn may_start(code: &Code, thread: u32, function: FunId) -> bool
    ensures { result ≡ true → IsStart code.now.source thread function }
{
    if function.0 as usize >= code.graphs().len() {
        return false;
    }
    if thread == 0 {
        return function.0 == code.main().0;
    }
    function.0 != code.main().0 && code.is_start(function)
}

/// A thread by itself, with its code.
#[derive(Drop)]
pub struct Run {
    code: Code,
    private: Private,
    ghost same: { code ≡ private.code },
}

impl Run {
    /// A thread at its start, where a thread of this number may start with the function.
    pub fn start(
        alloc: Global,
        code: Code,
        thread: u32,
        function: u32,
        argument: Value,
    ) -> Result<Option<Run>, NoMemory> {
        let function = FunId(function);
        if !may_start(&code, thread, function) {
            return Ok(None);
        }
        let private = Private::start(alloc, &code, thread, function, argument)?;
        Ok(Some(Run { code, private }))
    }

    /// Its number.
    pub fn thread(&self) -> u32 {
        self.private.thread()
    }

    /// Its next action.
    pub fn next(&self) -> Next<'_> {
        self.private.next(&self.code)
    }

    /// The site at which it may retry.
    pub fn can_retry(&self) -> Option<SiteId> {
        self.private.can_retry(&self.code)
    }

    /// What it has taken.
    pub fn taken(&self) -> &[Given] {
        self.private.taken()
    }

    /// Its own events.
    pub fn events(&self) -> &[Event] {
        self.private.events()
    }

    /// Makes room for an event.
    pub fn prepare(&mut self, event: &Event) -> Result<(), AdvanceNo> {
        self.private.prepare(&self.code, event)
    }

    /// Takes an event.
    pub fn advance(&mut self, event: &Event) -> Result<(), AdvanceNo> {
        self.private.advance(&self.code, event)
    }
}
