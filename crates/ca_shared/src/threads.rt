//! What is kept of each thread.

ghost use Rattle.std.specs.Prelude.{◌≡◌, ◌<◌, ◌+◌, ◌-◌, cond, nat_lt, length, sum_by};
ghost use Rattle.std.specs.FinSet as set;
ghost use Rattle.ca_model.specs.FrameCounts as counted;
ghost use Rattle.ca_shared.specs.declared.threads.Progress.{Progress as Kept};
ghost use Rattle.ca_shared.specs.Kept.{ended_from, depth_of, noted_at, made, most};

use ca_model::EventAct;

// The frames of a thread now, and at its last save.
#[derive(Clone, Copy)]
pub(crate) struct Depth {
    pub(crate) now: u32,
    pub(crate) saved: Option<u32>,
}

// Whether a thread has ended, its frames, and the place behind its last entry in the trace, or behind its create.
#[derive(Clone, Copy)]
pub(crate) struct Progress {
    pub(crate) ended: bool,
    pub(crate) depth: Depth,
    pub(crate) last: u32,
}

// Whether a thread has ended.
pub(crate) fn has_ended(threads: &[Progress], t: u32) -> bool
    requires { t < length threads.now }
    ensures { result ≡ set.contains (ended_from 0 threads.now) t }
{
    threads[t as usize].ended
}

// One frame fewer, but for the last.
fn fewer(frames: u32) -> u32
    ensures { result ≡ cond (nat_lt 1 frames) (frames - 1) frames }
{
    if frames > 1 { frames - 1 } else { frames }
}

// The frames of a thread after an entry of its own.
fn deeper(d: Depth, act: &EventAct) -> Depth
    requires { d.now < 4294967295 }
    ensures { depth_of result ≡ counted.deeper (depth_of d) act.now }
{
    let now = match act {
        EventAct::Call(_) => d.now + 1,
        EventAct::Return(_) => fewer(d.now),
        EventAct::End => 0,
        EventAct::Fault(_) => 0,
        EventAct::Save => {
            return Depth {
                now: d.now,
                saved: Some(d.now),
            };
        }
        EventAct::Retry { .. } => d.saved.unwrap_or(d.now),
        EventAct::Read { .. } => d.now,
        EventAct::Write { .. } => d.now,
        EventAct::Lock(_) => d.now,
        EventAct::Unlock(_) => d.now,
        EventAct::Malloc { .. } => d.now,
        EventAct::Free { .. } => d.now,
        EventAct::Print(_) => d.now,
        EventAct::Create(_) => d.now,
        EventAct::Join(_) => d.now,
        EventAct::Turn => d.now,
    };
    Depth {
        now,
        saved: d.saved,
    }
}

// The number of threads that an entry makes.
fn made(act: &EventAct) -> u32
    ensures { result ≡ made act.now }
{
    match act {
        EventAct::Create(_) => 1,
        _ => 0,
    }
}

/// Notes the entry of a thread, which is the last of so many: its frames, those of all threads, and its place.
pub(crate) fn note(
    threads: &mut Vec<Progress>,
    frames: &mut u32,
    t: u32,
    act: &EventAct,
    place: u32,
)
    requires there { t < length threads.old.items }
    requires counted { frames.old + made act.now ≡ sum_by (λ (x : Kept). x.depth.now) threads.old.items }
    requires fits { sum_by most threads.old.items < 4294967295 }
    ensures threads { threads.new.items ≡ noted_at threads.old.items t act.now place }
    ensures frames { frames.new ≡ sum_by (λ (x : Kept). x.depth.now) threads.new.items }
{
    let thread = threads[t as usize];
    let depth = deeper(thread.depth, act);
    threads[t as usize] = Progress {
        ended: thread.ended,
        depth,
        last: place,
    };
    *frames = *frames + made(act) - thread.depth.now + depth.now;
}
