//! What a thread wants: what its innermost frame asks for.

ghost use Rattle.std.specs.Prelude.{◌≡◌, ◌↔◌, ◌<◌, ◌≤◌, IsTrue, IfSome, List, None, Some, length, option_map, vec_capacity, ◌&&◌, nat_lt, if◌then◌else◌};
ghost use Rattle.ca_model.specs.Frames.{Frame};
ghost use Rattle.ca_model.specs.Hardened.{Hardened, retry_site, site_of, taking};
ghost use Rattle.ca_model.specs.Private.{stand, answer, may_fault};
ghost use Rattle.ca_model.specs.Sites.{if_any};
ghost use Rattle.ca_flow.specs.Lowerings.{rules_of};
ghost use Rattle.ca_thread.specs.Asked.{wants_save};
ghost use Rattle.ca_thread.specs.Changes.{StandsAs};
ghost use Rattle.ca_thread.specs.Kept.{HaveTries};
ghost use Rattle.ca_thread.specs.Privates.{IsTextAt};
ghost use Rattle.ca_thread.specs.Standing.{AreStanding};
ghost use Rattle.ca_wants.specs.Shown.{Shows};

use crate::entries::given;
use crate::frames::RunningFrame;
use crate::next::asked;
use crate::own::{asked_site, may_fault, own_answer, saves};
use crate::saved::SavedState;
use crate::stack::{step_at, top_of};
use crate::text::write_asked;
use ca_flow::{AtSite, Code};
use ca_model::{EventAct, FaultKind, Given, Value};
use ca_tree::SiteId;
use ca_wants::Next;

/// Notes what the innermost frame prints, if it stands at a print.
pub(crate) fn note_text(code: &Code, frames: &[RunningFrame], text: &mut Vec<u8>)
    requires { 328 ≤ vec_capacity text.old }
    ensures text { IsTextAt code.now frames.now text.new.items }
    ensures room { 328 ≤ vec_capacity text.new }
{
    let Some(top) = top_of(frames) else {
        return;
    };
    let Some(at) = step_at(code, top.function, top.node) else {
        return;
    };
    write_asked(text, &at.node.instr, &top.row);
}

// Whether there is one frame alone.
fn is_one(frames: &[RunningFrame]) -> bool
    ensures { IsTrue result ↔ (length frames.now ≡ 1) }
{
    frames.len() == 1
}

/// The answer that an entry gives to what a thread wants, if it is such an entry.
pub(crate) fn answer_at_top(
    code: &Code,
    frames: &[RunningFrame],
    text: &[u8],
    act: &EventAct,
) -> Option<Value>
    requires { IsTextAt code.now frames.now text.now }
    ensures { (h : List Frame) → AreStanding code.now frames.now h → result ≡ answer (stand (rules_of code.now) h).want act.now }
{
    let Some(top) = top_of(frames) else {
        return None;
    };
    let Some(at) = step_at(code, top.function, top.node) else {
        return None;
    };
    own_answer(&at.node.instr, &top.row, text, is_one(frames), act)
}

/// What a thread does next.
pub(crate) fn next_at_top<'a>(
    code: &Code,
    frames: &[RunningFrame],
    text: &'a [u8],
    retry: Option<SiteId>,
) -> Next<'a>
    requires { IsTextAt code.now frames.now text.now }
    ensures { (h : List Frame) → AreStanding code.now frames.now h → Shows result (stand (rules_of code.now) h).want retry }
{
    let Some(top) = top_of(frames) else {
        return Next::Ended;
    };
    let Some(at) = step_at(code, top.function, top.node) else {
        return Next::Ended;
    };
    asked(&at.node.instr, &top.row, text, retry, is_one(frames))
}

/// What an entry takes.
pub(crate) fn given_at_top(code: &Code, frames: &[RunningFrame], act: &EventAct) -> Option<Given>
    ensures { (h : List Frame) → AreStanding code.now frames.now h → if_any result ≡ taking (rules_of code.now) (stand (rules_of code.now) h).want act.now }
{
    let Some(top) = top_of(frames) else {
        return None;
    };
    let Some(at) = step_at(code, top.function, top.node) else {
        return None;
    };
    given(&at.node.instr, act)
}

/// Whether a fault may come at what a thread wants.
pub(crate) fn may_fault_at_top(code: &Code, frames: &[RunningFrame], kind: FaultKind) -> bool
    ensures { (h : List Frame) → AreStanding code.now frames.now h → result ≡ may_fault (stand (rules_of code.now) h).want kind }
{
    let Some(top) = top_of(frames) else {
        return false;
    };
    let Some(at) = step_at(code, top.function, top.node) else {
        return false;
    };
    may_fault(&at.node.instr, kind)
}

/// Whether the thread wants a save.
pub(crate) fn saves_at_top(code: &Code, frames: &[RunningFrame]) -> bool
    ensures { (h : List Frame) → AreStanding code.now frames.now h → result ≡ wants_save (stand (rules_of code.now) h).want }
{
    let Some(top) = top_of(frames) else {
        return false;
    };
    let Some(at) = step_at(code, top.function, top.node) else {
        return false;
    };
    saves(&at.node.instr)
}

// The site at which the innermost frame stands, if it is at one.
fn site_at_top(code: &Code, frames: &[RunningFrame]) -> Option<AtSite>
    ensures site { (h : List Frame) → AreStanding code.now frames.now h → option_map (λ a. a.site) result ≡ site_of (stand (rules_of code.now) h).want }
    ensures planned { (h : List Frame) → AreStanding code.now frames.now h → IfSome result (λ a. a.planned ≡ (rules_of code.now).planned a.site) }
{
    let Some(top) = top_of(frames) else {
        return None;
    };
    let Some(at) = step_at(code, top.function, top.node) else {
        return None;
    };
    asked_site(&at.node.instr)
}

// The site, where the plan has it and it was tried less often than the limit.
fn retry_at(mark: AtSite, tries: u32, limit: u32) -> Option<SiteId>
    ensures site { result ≡ (if mark.planned && nat_lt tries limit then Some mark.site else None) }
    ensures few { IfSome result (λ s. (s ≡ mark.site) × (tries < 4294967295)) }
{
    if mark.planned && tries < limit {
        Some(mark.site)
    } else {
        None
    }
}

/// The site of the plan at which a thread stands with a saved state and tries left.
pub(crate) fn retry_at_top(
    code: &Code,
    frames: &[RunningFrame],
    saved: &Option<SavedState>,
) -> Option<SiteId>
    ensures site { (h : Hardened) → StandsAs code.now frames.now saved.now h → result ≡ retry_site (rules_of code.now) h }
    ensures few { IfSome result (HaveTries saved.now) }
{
    let Some(saved) = saved else {
        return None;
    };
    let Some(mark) = site_at_top(code, frames) else {
        return None;
    };
    retry_at(mark, saved.tries(mark.site), code.limit())
}
