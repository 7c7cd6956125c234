//! The private state of a thread.

ghost use denote.Param.Send.{IsSend, IsSync};
ghost use Rattle.std.specs.Prelude.{◌≡◌, ◌↔◌, IsTrue, ◌<◌, ◌++◌, ◌∷◌, [], IfOk, IfErr, IsOk, OnOk, Option, None, Some, Ok, map, option_map, vec_len, vec_capacity};
ghost use Rattle.ca_model.specs.Hardened.{Hardened, Saved, hardened, retry_site};
ghost use Rattle.ca_model.specs.Machine.{by};
ghost use Rattle.ca_model.specs.Matched.{LeadsTo};
ghost use Rattle.ca_model.specs.declared.values.Event.{Event as Entry};
ghost use Rattle.ca_flow.specs.Lowerings.{Lowering, rules_of};
ghost use Rattle.ca_thread.specs.Entered.{with_entry, own_advance, Tells};
ghost use Rattle.ca_thread.specs.Kept.{AreKept, HavePlace};
ghost use Rattle.ca_thread.specs.Privates.{IsStart, taken_in};
ghost use Rattle.ca_thread.specs.contracts.private.Private as a_private_state;
ghost use Rattle.ca_wants.specs.Shown.{Shows};

use crate::changes::{AdvanceNo, Change, apply, change_by};
use crate::entries::copy_event;
use crate::frames::RunningFrame;
use crate::saved::{SavedState, reserve_place};
use crate::stack::begin;
use crate::top::{next_at_top, note_text, retry_at_top};
use ca_flow::Code;
use ca_model::{Event, Given, Value};
use ca_tree::{FunId, NoMemory, SiteId};
use ca_wants::Next;
use std::alloc::Global;
use std::marker::Model;
use std::snapshot::Snapshot;

// An event, and what it changes. All memory for it is there.
#[derive(Debug, Drop)]
struct Prepared {
    entry: Event,
    change: Change,
}

/// A thread by itself: where it stands, what it saved, and its own events. Contracts see its code, its number, its start
/// with its own entries, and the event for which all memory is there.
#[derive(Drop)]
pub struct Private {
    alloc: Global,
    code: Snapshot<Code>,
    thread: u32,
    function: FunId,
    argument: Value,
    frames: Vec<RunningFrame>,
    saved: Option<SavedState>,
    events: Vec<Event>,
    prepared: Option<Prepared>,
    // What it prints, where it stands at a print.
    text: Vec<u8>,
}

impl Model for Private {
    ghost use Rattle.std.specs.Prelude.{map, option_map, ◌<◌, ◌≤◌, vec_len, vec_capacity};
    ghost use Rattle.std.specs.Coded.{codes};
    ghost use Rattle.ca_flow.specs.contracts.code.Code as drawn_code;
    ghost use Rattle.ca_model.specs.contracts.values.Event as event;
    ghost use Rattle.ca_model.specs.contracts.values.EventAct as event_act;
    ghost use Rattle.ca_model.specs.contracts.values.Value as value;
    ghost use Rattle.ca_thread.specs.Privates.{Thread, IsThere, AreMine, IsTextAt, IsReady};

    ghost Value = { Thread };

    ghost coded = { Prim.hlevel (codes, drawn_code.the_row.coded, event.the_row.coded, event_act.the_row.coded, value.the_row.coded) };

    ghost view = { λ p. record { code = p.code.value; thread = p.thread; own = record { function = p.function; argument = p.argument; entries = map (λ e. e.act) p.events.items }; prepared = option_map (λ q. q.entry) p.prepared } };

    ghost invariant = { λ p. IsThere p.code.value p.thread (record { function = p.function; argument = p.argument; entries = map (λ e. e.act) p.events.items }) p.frames.items p.saved
        × AreMine p.thread p.events.items × IsTextAt p.code.value p.frames.items p.text.items × (328 ≤ vec_capacity p.text)
        × IsReady p.code.value p.thread (record { function = p.function; argument = p.argument; entries = map (λ e. e.act) p.events.items }) (vec_len p.frames < vec_capacity p.frames) (vec_len p.events < vec_capacity p.events) p.saved p.prepared };
}

// A format of 256 bytes with eight arguments of eleven bytes each writes no more.
const MOST_BYTES: usize = 328;

// The event again, and places for it, for a frame, and for what it takes or counts.
fn make_room(
    alloc: Global,
    frames: &mut Vec<RunningFrame>,
    events: &mut Vec<Event>,
    saved: &mut Option<SavedState>,
    event: &Event,
) -> Result<Event, NoMemory>
    ensures event { IfOk result (λ e. e ≡ event.now) }
    ensures frames { frames.new.items ≡ frames.old.items }
    ensures events { events.new.items ≡ events.old.items }
    ensures saved { (l : Lowering) (o : Option Saved) → AreKept l saved.old o → AreKept l saved.new o }
    ensures places { OnOk result ((vec_len frames.new < vec_capacity frames.new) × (vec_len events.new < vec_capacity events.new) × HavePlace saved.new) }
{
    let entry = copy_event(alloc, event)?;
    frames.reserve(1)?;
    events.reserve(1)?;
    reserve_place(saved)?;
    Ok(entry)
}

// One event more, where there is a place for it.
fn push_event(events: &mut Vec<Event>, event: Event)
    requires { vec_len events.old < vec_capacity events.old }
    ensures { events.new.items ≡ events.old.items ++ event ∷ [] }
{
    let _ = events.push(event);
}

// Whether this event is prepared.
fn is_for(prepared: &Option<Prepared>, event: &Event) -> bool
    ensures { IsTrue result ↔ (option_map (λ q. q.entry) prepared.now ≡ Some event.now) }
{
    match prepared {
        None => false,
        Some(prepared) => prepared.entry == *event,
    }
}

fn forget(prepared: &mut Option<Prepared>)
    ensures { prepared.new ≡ None }
{
    *prepared = None;
}

fn keep(prepared: &mut Option<Prepared>, one: Prepared)
    ensures { prepared.new ≡ Some one }
{
    *prepared = Some(one);
}

impl Private {
    /// A thread at its start: with `main` where its number is 0, and else with a function that is named in a
    /// `pthread_create`. The silent steps up to its first event are made.
    pub fn start(
        alloc: Global,
        code: &Code,
        thread: u32,
        function: FunId,
        argument: Value,
    ) -> Result<Private, NoMemory>
        requires { IsStart code.now.source thread function }
        ensures { IfOk result (λ p. p ≡ record { code = code.now; thread = thread; own = record { function = function; argument = argument; entries = [] }; prepared = None }) }
    {
        let first = begin(alloc, code, function, &[argument])?;
        let mut frames = Vec::new(alloc);
        frames.push(first)?;
        let mut text = Vec::new(alloc);
        text.reserve(MOST_BYTES)?;
        note_text(code, &frames, &mut text);
        Ok(Private {
            alloc,
            code: Snapshot::of(code),
            thread,
            function,
            argument,
            frames,
            saved: None,
            events: Vec::new(alloc),
            prepared: None,
            text,
        })
    }

    /// Its number. It takes no memory.
    pub fn thread(&self) -> u32
        ensures { result ≡ self.now.thread }
    {
        self.thread
    }

    /// Its own events. It takes no memory.
    pub fn events(&self) -> &[Event]
        ensures { result.now ≡ map (by self.now.thread) self.now.own.entries }
    {
        self.events.as_slice()
    }

    /// What was taken since the last save, the earliest first. It takes no memory.
    pub fn taken(&self) -> &[Given]
        ensures { (h : Hardened) → LeadsTo (rules_of self.now.code) self.now.own h → result.now ≡ taken_in h.saved }
    {
        match &self.saved {
            None => &[],
            Some(saved) => saved.taken(),
        }
    }

    /// The next action. After an end or a fault it is `Ended`. It takes no memory.
    pub fn next(&self, code: &Code) -> Next<'_>
        requires { code.now ≡ self.now.code }
        ensures { (h : Hardened) → LeadsTo (rules_of self.now.code) self.now.own h → Shows result ((hardened (rules_of self.now.code)).want h) (retry_site (rules_of self.now.code) h) }
    {
        let retry = self.can_retry(code);
        next_at_top(code, &self.frames, &self.text, retry)
    }

    /// The site of the plan at which the thread stands with a saved state and tries left. It takes no memory.
    pub fn can_retry(&self, code: &Code) -> Option<SiteId>
        requires { code.now ≡ self.now.code }
        ensures { (h : Hardened) → LeadsTo (rules_of self.now.code) self.now.own h → result ≡ retry_site (rules_of self.now.code) h }
    {
        retry_at_top(code, &self.frames, &self.saved)
    }

    /// Makes all growths that an `advance` by this event needs. After a refusal nothing is prepared.
    pub fn prepare(&mut self, code: &Code, event: &Event) -> Result<(), AdvanceNo>
        requires { code.now ≡ self.old.code }
        ensures ready { IfOk result (λ u. self.new ≡ record self.old { prepared = Some event.now }) }
        ensures exact { (h : Hardened) → LeadsTo (rules_of self.old.code) self.old.own h → Tells result (own_advance (rules_of self.old.code) self.old.thread h event.now) }
        ensures unchanged { IfErr result (λ e. self.new ≡ record self.old { prepared = None }) }
    {
        forget(&mut self.prepared);
        if event.thread != self.thread {
            return Err(AdvanceNo::NotNext);
        }
        let change = match change_by(
            self.alloc,
            code,
            &self.frames,
            &self.saved,
            &self.text,
            &event.act,
        ) {
            Ok(change) => change,
            Err(no) => return Err(no),
        };
        let Ok(entry) = make_room(
            self.alloc,
            &mut self.frames,
            &mut self.events,
            &mut self.saved,
            event,
        ) else {
            return Err(AdvanceNo::NoMemory);
        };
        keep(&mut self.prepared, Prepared { entry, change });
        Ok(())
    }

    // Takes the prepared event.
    fn commit(&mut self, code: &Code)
        requires { code.now ≡ self.old.code }
        ensures { (e : Entry) → self.old.prepared ≡ Some e → self.new ≡ record self.old { own = with_entry self.old.own e.act; prepared = None } }
    {
        let Some(prepared) = self.prepared.take() else {
            return;
        };
        apply(code, &mut self.frames, &mut self.saved, prepared.change);
        push_event(&mut self.events, prepared.entry);
        note_text(code, &self.frames, &mut self.text);
    }

    /// Takes an event of its own, and the silent steps after it. By the prepared event it takes no memory and succeeds.
    /// After a refusal nothing is prepared.
    pub fn advance(&mut self, code: &Code, event: &Event) -> Result<(), AdvanceNo>
        requires { code.now ≡ self.old.code }
        ensures made { IfOk result (λ u. self.new ≡ record self.old { own = with_entry self.old.own event.now.act; prepared = None }) }
        ensures exact { (h : Hardened) → LeadsTo (rules_of self.old.code) self.old.own h → Tells result (own_advance (rules_of self.old.code) self.old.thread h event.now) }
        ensures unchanged { IfErr result (λ e. self.new ≡ record self.old { prepared = None }) }
        ensures prepared { self.old.prepared ≡ Some event.now → IsOk result }
    {
        if !is_for(&self.prepared, event) {
            self.prepare(code, event)?;
        }
        self.commit(code);
        Ok(())
    }
}

/// A private state may be moved to other threads, and shared with them.
pub fn private_states_cross_threads()
    ensures moves { IsSend a_private_state.the_row }
    ensures is_shared { IsSync a_private_state.the_row }
{}
