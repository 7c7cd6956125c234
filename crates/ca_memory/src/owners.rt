//! Mutexes.

ghost use Rattle.std.specs.Prelude.{◌≡◌, ◌≢◌, ◌<◌, Some, None, ◌≤◌, IfOk, IfErr, OnOk, OnErr, IfSome, IfNone, length, take, slice_get};
ghost use Rattle.std.specs.Bool.{OnTrue, OnFalse};
ghost use Rattle.std.specs.FinMap as finite;
ghost use Rattle.ca_model.specs.declared.values.Given.{Given as Thing};
ghost use Rattle.ca_tree.specs.declared.numbers.MutexId.{MutexId};
ghost use Rattle.ca_memory.specs.GivenBack.{AreMutexesHeld, IsFirstNoMutex, IsMutexHeld, owners_without, owners_without_all};
ghost use Rattle.ca_memory.specs.Hidden.{owners_with, owners_with_all};

use ca_model::Given;
use ca_tree::{MutexId, NoMemory};
use std::alloc::Global;
use std::marker::Model;

/// A mutex is held: by this thread.
#[derive(Clone, Copy, Debug, PartialEq, Eq)]
pub struct Held {
    pub by: u32,
}

/// A thread doesn't own a mutex: this one does, or none.
#[derive(Clone, Copy, Debug, PartialEq, Eq)]
pub struct NotOwner {
    pub owner: Option<u32>,
}

/// A thing of a list that is a mutex which a thread can't give back when its turn comes: its place, its number, and the
/// owner that it has then.
#[derive(Clone, Copy, Debug, PartialEq, Eq)]
pub struct MutexNotHeld {
    pub place: usize,
    pub mutex: MutexId,
    pub owner: Option<u32>,
}

/// The owners of the mutexes.
#[derive(Drop)]
pub struct Owners {
    owners: Vec<Option<u32>>,
}

impl Model for Owners {
    ghost use Rattle.std.specs.Prelude.{length, ◌<◌, ◌^◌};
    ghost use Rattle.std.specs.FinMap as finite;
    ghost use Rattle.std.specs.Coded.{coded_ℕ, coded×, code_by};
    ghost use Rattle.ca_memory.specs.Mutexes.{Mutexes, owners_from, coded_mutexes};

    ghost Value = { Mutexes };

    ghost coded = { coded_mutexes };

    ghost view = { λ o. record { count = length o.owners.items; owners = owners_from 0 o.owners.items } };

    ghost invariant = { λ o. length o.owners.items < 2 ^ 32 };
}

impl Owners {
    /// So many mutexes, none of them owned.
    pub fn new(alloc: Global, count: u32) -> Result<Owners, NoMemory>
        ensures { IfOk result (λ o. o ≡ record { count = count; owners = finite.empty }) }
    {
        Ok(Owners {
            owners: vec![in alloc; None; count as usize]?,
        })
    }

    /// The number of mutexes. It takes no memory.
    pub fn count(&self) -> u32
        ensures { result ≡ self.now.count }
    {
        self.owners.len() as u32
    }

    /// The owner of a mutex. It takes no memory.
    pub fn owner(&self, m: MutexId) -> Option<u32>
        requires { m.0 < self.now.count }
        ensures { result ≡ finite.get self.now.owners m.0 }
    {
        self.owners[m.0 as usize]
    }

    /// A thread takes a free mutex. It takes no memory.
    pub fn take(&mut self, m: MutexId, t: u32) -> Result<(), Held>
        requires { m.0 < self.old.count }
        ensures ok { OnOk result ((finite.get self.old.owners m.0 ≡ None) × (self.new ≡ record self.old { owners = finite.insert self.old.owners m.0 t })) }
        ensures err { IfErr result (λ e. (finite.get self.old.owners m.0 ≡ Some e.by) × (self.new ≡ self.old)) }
    {
        match self.owners[m.0 as usize] {
            Some(by) => Err(Held { by }),
            None => {
                self.owners[m.0 as usize] = Some(t);
                Ok(())
            }
        }
    }

    /// A thread gives its mutex back. It takes no memory.
    pub fn give(&mut self, m: MutexId, t: u32) -> Result<(), NotOwner>
        requires { m.0 < self.old.count }
        ensures ok { OnOk result ((finite.get self.old.owners m.0 ≡ Some t) × (self.new ≡ record self.old { owners = finite.remove self.old.owners m.0 })) }
        ensures err { IfErr result (λ e. (finite.get self.old.owners m.0 ≡ e.owner) × (e.owner ≢ Some t) × (self.new ≡ self.old)) }
    {
        let owner = self.owners[m.0 as usize];
        if owner != Some(t) {
            return Err(NotOwner { owner });
        }
        self.owners[m.0 as usize] = None;
        Ok(())
    }

    /// The first thing of a list that is a mutex which a thread can't give back when its turn comes, where the things are
    /// given back one after another. It takes no memory, and the time of the list.
    pub fn first_not_held(&mut self, t: u32, things: &[Given]) -> Option<MutexNotHeld>
        ensures same { self.new ≡ self.old }
        ensures none { IfNone result (AreMutexesHeld self.old t things.now) }
        ensures first { IfSome result (λ n. IsFirstNoMutex self.old t things.now n.place n.mutex n.owner) }
    {
        let held = give_all(self, t, things);
        let first = self.no_mutex_at(things, held);
        take_all(self, t, &things[..held]);
        first
    }

    // The mutex at a place of a list, with its owner.
    fn no_mutex_at(&self, things: &[Given], place: usize) -> Option<MutexNotHeld>
        ensures mutex { IfSome result (λ n. (n.place ≡ place) × (slice_get things.now place ≡ Some (Thing.Mutex n.mutex)) × (n.owner ≡ finite.get self.now.owners n.mutex.0)) }
        ensures none { IfNone result ((m : MutexId) → slice_get things.now place ≡ Some (Thing.Mutex m) → ⊥) }
    {
        match things.get(place) {
            Some(Given::Mutex(m)) => Some(MutexNotHeld {
                place,
                mutex: *m,
                owner: self.owner_if_there(*m),
            }),
            Some(Given::Block(_)) => None,
            None => None,
        }
    }

    // Makes a thread the owner of a mutex, where there is such a mutex.
    fn set(&mut self, m: MutexId, t: u32)
        ensures { self.new ≡ owners_with self.old t (Thing.Mutex m) }
    {
        if m.0 < self.count() {
            self.owners[m.0 as usize] = Some(t);
        }
    }

    /// The owner of a mutex, or none where there is no such mutex. It takes no memory.
    pub fn owner_if_there(&self, m: MutexId) -> Option<u32>
        ensures { result ≡ finite.get self.now.owners m.0 }
    {
        match self.owners.get(m.0 as usize) {
            Some(owner) => *owner,
            None => None,
        }
    }
}

fn give_thing(owners: &mut Owners, t: u32, thing: Given) -> bool
    ensures given { OnTrue result (IsMutexHeld owners.old t thing × (owners.new ≡ owners_without owners.old thing)) }
    ensures gone { OnFalse result ((IsMutexHeld owners.old t thing → ⊥) × (owners.new ≡ owners.old)) }
{
    match thing {
        Given::Mutex(m) => m.0 < owners.count() && owners.give(m, t).is_ok(),
        Given::Block(_) => true,
    }
}

fn take_thing(owners: &mut Owners, t: u32, thing: Given)
    ensures { owners.new ≡ owners_with owners.old t thing }
{
    match thing {
        Given::Mutex(m) => owners.set(m, t),
        Given::Block(_) => {}
    }
}

// Gives back the mutexes of a list up to the first that the thread doesn't own, and gives the number of things before it.
fn give_all(owners: &mut Owners, t: u32, things: &[Given]) -> usize
    ensures within { result ≤ length things.now }
    ensures were { AreMutexesHeld owners.old t (take result things.now) }
    ensures given { owners.new ≡ owners_without_all owners.old (take result things.now) }
    ensures first { (g : Thing) → slice_get things.now result ≡ Some g → IsMutexHeld owners.new t g → ⊥ }
{
    let mut index = 0usize;
    'things: while index < things.len() {
        let thing = things[index];
        if !give_thing(owners, t, thing) {
            return index;
        }
        index += 1;
    }
    index
}

// Takes the mutexes of a list, the last one first.
fn take_all(owners: &mut Owners, t: u32, things: &[Given])
    ensures { owners.new ≡ owners_with_all owners.old t things.now }
{
    let mut left = things.len();
    'things: while left > 0 {
        left -= 1;
        let thing = things[left];
        take_thing(owners, t, thing);
    }
}
