//! Saved states. What a retry goes back to stands behind these few functions.

ghost use Rattle.std.specs.Prelude.{◌≡◌, ◌++◌, ◌∷◌, [], List, Option, Some, IfOk, OnOk, ◌<◌, ◌+◌, ◌==◌, if◌then◌else◌, vec_len, vec_capacity};
ghost use Rattle.ca_tree.specs.declared.numbers.SiteId.{SiteId as Site};
ghost use Rattle.ca_model.specs.Frames.{Frame, answered, begun};
ghost use Rattle.ca_model.specs.Arith.{null};
ghost use Rattle.ca_model.specs.Asks.{Wants, Saves};
ghost use Rattle.ca_model.specs.Hardened.{Saved, took, tries};
ghost use Rattle.ca_model.specs.Sites.{if_any};
ghost use Rattle.ca_flow.specs.Lowerings.{Lowering, rules_of};
ghost use Rattle.ca_thread.specs.Kept.{place_in, IsKept, AreKept, HasPlace, HavePlace, count_in};
ghost use Rattle.ca_thread.specs.Standing.{AreStanding};

use crate::frames::{RunningFrame, copy_frames};
use crate::stack::go_on_top;
use ca_flow::Code;
use ca_model::{Given, Value};
use ca_tree::{NoMemory, SiteId};
use std::alloc::Global;

/// How often a site was tried.
#[derive(Clone, Copy, Debug)]
pub(crate) struct Tried {
    pub(crate) site: SiteId,
    pub(crate) count: u32,
}

/// A copy of all frames, how often each site was tried since, and what was taken since, the earliest first.
#[derive(Debug, Drop)]
pub(crate) struct SavedState {
    copy: Vec<RunningFrame>,
    tried: Vec<Tried>,
    taken: Vec<Given>,
}

// How often a site was tried.
fn count_of(tried: &[Tried], site: SiteId) -> u32
    ensures { result ≡ count_in tried.now site }
{
    'tried: for one in tried {
        if one.site.0 == site.0 {
            return one.count;
        }
    }
    0
}

// The place of a site among those that were tried, or behind them.
fn place_of(tried: &[Tried], site: SiteId) -> usize
    ensures { result ≡ place_in tried.now site }
{
    let mut place = 0;
    'tried: for one in tried {
        if one.site.0 == site.0 {
            return place;
        }
        place += 1;
    }
    place
}

// One count more, where there is a place for it.
fn push_try(tried: &mut Vec<Tried>, one: Tried)
    requires { vec_len tried.old < vec_capacity tried.old }
    ensures { tried.new.items ≡ tried.old.items ++ one ∷ [] }
{
    let _ = tried.push(one);
}

// A site was tried so often.
fn set_tries(tried: &mut Vec<Tried>, site: SiteId, count: u32)
    requires { vec_len tried.old < vec_capacity tried.old }
    ensures { (k : Site) → count_in tried.new.items k ≡ (if site.0 == k.0 then count else count_in tried.old.items k) }
{
    let place = place_of(tried, site);
    if place < tried.len() {
        tried[place] = Tried { site, count };
    } else {
        push_try(tried, Tried { site, count });
    }
}

/// The saved state of a thread that stands at a save: its frames behind the save, with no try and nothing taken.
pub(crate) fn saved_after(
    alloc: Global,
    code: &Code,
    frames: &[RunningFrame],
) -> Result<SavedState, NoMemory>
    ensures { IfOk result (λ s. (f : Frame) (fs : List Frame) → AreStanding code.now frames.now (f ∷ fs) → begun (rules_of code.now) f ≡ Wants Saves → IsKept code.now s (record { copy = answered (rules_of code.now) f null ∷ fs; tried = []; taken = [] })) }
{
    let mut copy = copy_frames(alloc, frames)?;
    go_on_top(code, &mut copy, Value::Num(0));
    Ok(SavedState {
        copy,
        tried: Vec::new(alloc),
        taken: Vec::new(alloc),
    })
}

impl SavedState {
    /// How often a site was tried.
    pub(crate) fn tries(&self, site: SiteId) -> u32
        ensures count { result ≡ count_in self.now.tried.items site }
        ensures tries { (l : Lowering) (sv : Saved) → IsKept l self.now sv → result ≡ tries sv site }
    {
        count_of(&self.tried, site)
    }

    /// What was taken, the earliest first.
    pub(crate) fn taken(&self) -> &[Given]
        ensures { result.now ≡ self.now.taken.items }
    {
        self.taken.as_slice()
    }

    // One thing more is taken, where there is a place for it.
    fn take(&mut self, given: Given)
        requires { HasPlace self.old }
        ensures { (l : Lowering) (sv : Saved) → IsKept l self.old sv → IsKept l self.new (record { copy = sv.copy; tried = sv.tried; taken = sv.taken ++ given ∷ [] }) }
    {
        let _ = self.taken.push(given);
    }

    /// The frames again.
    pub(crate) fn frames(&self, alloc: Global) -> Result<Vec<RunningFrame>, NoMemory>
        ensures { IfOk result (λ rows. (l : Lowering) (sv : Saved) → IsKept l self.now sv → AreStanding l rows.items sv.copy) }
    {
        copy_frames(alloc, &self.copy)
    }

    // A retry at a site, which was tried so often with this one: nothing is taken.
    fn again(&mut self, site: SiteId, count: u32)
        requires { HasPlace self.old }
        ensures { (l : Lowering) (sv : Saved) → IsKept l self.old sv → count ≡ tries sv site + 1 → IsKept l self.new (record { copy = sv.copy; tried = site ∷ sv.tried; taken = [] }) }
    {
        set_tries(&mut self.tried, site, count);
        self.taken.clear();
    }

    // A place for one thing more, and for one count more.
    fn reserve(&mut self) -> Result<(), NoMemory>
        ensures same { (l : Lowering) (sv : Saved) → IsKept l self.old sv → IsKept l self.new sv }
        ensures place { OnOk result (HasPlace self.new) }
    {
        self.taken.reserve(1)?;
        self.tried.reserve(1)?;
        Ok(())
    }
}

/// A place for one thing more, and for one count more, where there is a saved state.
pub(crate) fn reserve_place(saved: &mut Option<SavedState>) -> Result<(), NoMemory>
    ensures same { (l : Lowering) (o : Option Saved) → AreKept l saved.old o → AreKept l saved.new o }
    ensures place { OnOk result (HavePlace saved.new) }
{
    match saved {
        None => {}
        Some(saved) => saved.reserve()?,
    }
    Ok(())
}

/// What an entry takes is taken, where there is a saved state.
pub(crate) fn take_given(saved: &mut Option<SavedState>, given: Option<Given>)
    requires { HavePlace saved.old }
    ensures { (l : Lowering) (o : Option Saved) → AreKept l saved.old o → AreKept l saved.new (took (if_any given) o) }
{
    match given {
        None => {}
        Some(given) => take_one(saved, given),
    }
}

fn take_one(saved: &mut Option<SavedState>, given: Given)
    requires { HavePlace saved.old }
    ensures { (l : Lowering) (o : Option Saved) → AreKept l saved.old o → AreKept l saved.new (took (given ∷ []) o) }
{
    match saved {
        None => {}
        Some(saved) => saved.take(given),
    }
}

/// A retry at a site, which was tried so often with this one: nothing is taken.
pub(crate) fn try_again(saved: &mut Option<SavedState>, site: SiteId, count: u32)
    requires { HavePlace saved.old }
    ensures { (l : Lowering) (sv : Saved) → AreKept l saved.old (Some sv) → count ≡ tries sv site + 1 → AreKept l saved.new (Some (record { copy = sv.copy; tried = site ∷ sv.tried; taken = [] })) }
{
    match saved {
        None => {}
        Some(saved) => saved.again(site, count),
    }
}
