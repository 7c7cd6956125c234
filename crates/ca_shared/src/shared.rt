//! The shared state, which keeps the trace that made it.

ghost use denote.Param.Send.{IsSend, IsSync};
ghost use Rattle.std.specs.Prelude.{◌≡◌, ◌<◌, ◌≤◌, ◌^◌, ◌↔◌, All, [], length, Some, None, IfOk, IsTrue, OnOk, OnErr, true};
ghost use Rattle.std.specs.FinSet as set;
ghost use Rattle.ca_model.specs.Shared.{IsLegal};
ghost use Rattle.ca_model.specs.Runner.{since_last};
ghost use Rattle.ca_model.specs.declared.tree.GlobalStart.{GlobalStart as Start};
ghost use Rattle.ca_memory.specs.Kept.{most_cells};
ghost use Rattle.ca_shared.specs.contracts.shared.Shared as a_shared_state;
ghost use Rattle.ca_shared.specs.Histories.{state, appended};
ghost use Rattle.ca_shared.specs.Frames as counted;
ghost use Rattle.ca_shared.specs.Kept.{phase_of};
ghost use Rattle.ca_shared.specs.Legal.{IsLegalHistory};
ghost use Rattle.ca_shared.specs.Refusals.{refusal};
ghost use Rattle.ca_shared.specs.declared.refusals.Illegal.{Illegal as Why};

use crate::phase::Phase;
use crate::refusals::AppendNo;
use crate::threads::{Depth, Progress, has_ended, note};
use crate::{checks, effects};
use ca_memory::{Memory, Owners};
use ca_model::{Checked, Event, GlobalStart, typed_programs_are_well_formed};
use ca_tree::NoMemory;
use std::alloc::Global;
use std::marker::Model;

// More entries take more than any memory has; so the counts of entries have 32 bits.
const MOST_ENTRIES: usize = 4_000_000_000;

/// The state that all threads share: the memory, the owners of the mutexes, the output, and the threads. All of it is the
/// effect of its trace, of which each entry was legal when it was made. Contracts see how it opened, and the trace.
#[derive(Drop)]
pub struct Shared {
    globals: Vec<GlobalStart>,
    memory: Memory,
    owners: Owners,
    output: Vec<u8>,
    threads: Vec<Progress>,
    frames: u32,
    phase: Phase,
    trace: Vec<Event>,
}

impl Model for Shared {
    ghost use Rattle.std.specs.Coded.{codes};
    ghost use Rattle.ca_model.specs.contracts.values.Value as value;
    ghost use Rattle.ca_shared.specs.Histories.{History};
    ghost use Rattle.ca_shared.specs.Kept.{AreParts};

    ghost Value = { History };

    ghost coded = { Prim.hlevel (codes, value.the_row.coded) };

    ghost view = { λ s. record { globals = s.globals.items; mutexes = s.owners.count; trace = s.trace.items } };

    ghost invariant = { λ s. AreParts s.globals.items s.trace.items s.memory s.owners s.output.items s.threads.items s.frames s.phase };
}

impl Shared {
    /// The opening of a run of a source.
    pub fn start(alloc: Global, checked: &Checked) -> Result<Shared, NoMemory>
        ensures { IfOk result (λ s. s ≡ record { globals = checked.now.typed.globals; mutexes = checked.now.typed.mutexes; trace = [] }) }
    {
        let _program = checked.program();
        typed_programs_are_well_formed();
        Shared::open(alloc, checked.globals(), checked.mutexes())
    }

    /// The opening of a run over these globals and so many mutexes: the globals have their values, no mutex is owned, and
    /// there is one thread.
    pub fn open(alloc: Global, globals: &[GlobalStart], mutexes: u32) -> Result<Shared, NoMemory>
        requires few { length globals.now ≤ 65536 }
        requires short { All (λ (g : Start). g.cells ≤ most_cells) globals.now }
        ensures { IfOk result (λ s. s ≡ record { globals = globals.now; mutexes = mutexes; trace = [] }) }
    {
        let memory = Memory::open(alloc, globals)?;
        let owners = Owners::new(alloc, mutexes)?;
        let first = Progress {
            ended: false,
            depth: Depth {
                now: 1,
                saved: None,
            },
            last: 0,
        };
        Ok(Shared {
            globals: Vec::from_slice(alloc, globals)?,
            memory,
            owners,
            output: Vec::new(alloc),
            threads: Vec::from_slice(alloc, &[first])?,
            frames: 1,
            phase: Phase::Open,
            trace: Vec::new(alloc),
        })
    }

    /// Appends a legal entry, with its effect. `Illegal` comes exactly where the state forbids the entry; what the program
    /// of its thread may do isn't judged here. It takes the time of one look-up, and for a retry that of its list.
    pub fn append(&mut self, alloc: Global, event: Event) -> Result<(), AppendNo>
        ensures ok { OnOk result (self.new ≡ appended self.old event) }
        ensures legal { OnOk result (IsLegal (state self.old) event.thread event.act) }
        ensures err { OnErr result (self.new ≡ self.old) }
        ensures illegal { (i : Why) → result ≡ Err (AppendNo.Illegal i) → refusal (state self.old) event ≡ Some i }
        ensures forbidden { (i : Why) → result ≡ Err (AppendNo.Illegal i) → IsLegal (state self.old) event.thread event.act → ⊥ }
    {
        let why = checks::refusal(
            &mut self.memory,
            &mut self.owners,
            self.threads.as_slice(),
            self.phase,
            &event,
        );
        match why {
            Some(why) => return Err(AppendNo::Illegal(why)),
            None => {}
        }
        let entries = self.trace.len();
        if entries >= MOST_ENTRIES {
            return Err(AppendNo::NoMemory);
        }
        let Ok(()) = self.trace.reserve(1) else {
            return Err(AppendNo::NoMemory);
        };
        let place = entries as u32 + 1;
        let applied = effects::apply(
            alloc,
            &mut self.memory,
            &mut self.owners,
            &mut self.output,
            &mut self.threads,
            &mut self.phase,
            event.thread,
            &event.act,
            place,
        );
        let Ok(()) = applied else {
            return Err(AppendNo::NoMemory);
        };
        note(
            &mut self.threads,
            &mut self.frames,
            event.thread,
            &event.act,
            place,
        );
        self.trace.push_reserved(event);
        Ok(())
    }

    /// The entries so far. It takes no memory.
    pub fn trace(&self) -> &[Event]
        ensures value { result.now ≡ self.now.trace }
        ensures legal { IsLegalHistory self.now }
    {
        self.trace.as_slice()
    }

    /// The memory. It takes no memory.
    pub fn memory(&self) -> &Memory
        ensures { result.now ≡ (state self.now).blocks }
    {
        &self.memory
    }

    /// The owners of the mutexes. It takes no memory.
    pub fn owners(&self) -> &Owners
        ensures { result.now ≡ record { count = (state self.now).mutexes; owners = (state self.now).owners } }
    {
        &self.owners
    }

    /// The bytes that were printed. It takes no memory.
    pub fn output(&self) -> &[u8]
        ensures { result.now ≡ (state self.now).output }
    {
        self.output.as_slice()
    }

    /// Whether the run is open. It takes no memory.
    pub fn phase(&self) -> Phase
        ensures { phase_of result ≡ (state self.now).phase }
    {
        self.phase
    }

    /// The number of threads. It takes no memory.
    pub fn threads(&self) -> u32
        ensures { result ≡ (state self.now).threads }
    {
        self.threads.len() as u32
    }

    /// Whether a thread has ended. It takes no memory.
    pub fn has_ended(&self, t: u32) -> bool
        requires { t < (state self.now).threads }
        ensures { result ≡ set.contains (state self.now).ended t }
    {
        has_ended(self.threads.as_slice(), t)
    }

    /// The frames of all threads together. A return of a thread with one frame, and a retry of a thread without a save,
    /// leave their number. It takes no memory.
    pub fn frames(&self) -> u32
        ensures { result ≡ counted.frames self.now }
    {
        self.frames
    }

    /// The entries after the last one of a thread, or after its create where it has none. It takes no memory.
    pub fn since_last(&self, t: u32) -> u32
        requires { t < (state self.now).threads }
        ensures { result ≡ since_last 0 t self.now.trace }
    {
        self.trace.len() as u32 - self.threads[t as usize].last
    }

    /// Whether it opened with these globals and so many mutexes. It takes no memory.
    pub fn opened_as(&self, globals: &[GlobalStart], mutexes: u32) -> bool
        ensures { IsTrue result ↔ ((self.now.globals ≡ globals.now) × (self.now.mutexes ≡ mutexes)) }
    {
        self.owners.count() == mutexes && self.globals.as_slice() == globals
    }
}

/// A shared state may be moved to other threads, and shared with them.
pub fn shared_states_cross_threads()
    ensures moves { IsSend a_shared_state.the_row }
    ensures is_shared { IsSync a_shared_state.the_row }
{}
