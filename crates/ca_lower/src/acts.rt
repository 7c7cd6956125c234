//! Lowering of items.

ghost use Rattle.std.specs.Prelude.{◌≡◌, ◌≤◌, ◌<◌, ◌+◌, ◌++◌, ℕ, length, suc, true, false, IfOk, Some, None, slice_get, ◌⊎◌};
ghost use Rattle.ca_model.specs.declared.tree.Act.{Act};
ghost use Rattle.ca_model.specs.declared.tree.Target.{Target};
ghost use Rattle.ca_model.specs.Sites.{act_sites, sites_of_all};
ghost use Rattle.ca_model.specs.WellFormed.{is_condition};
ghost use Rattle.ca_lower.specs.Lowered.{homes};
ghost use Rattle.ca_lower.specs.Building.{code_at, around, Grows, HasSites};
ghost use Rattle.ca_lower.specs.Acts.{are_shallow, fits_act, first_of, behind_of, targets, AddsFindAll, AddsWork, AddsEnd, AddsChoice};

use crate::builder::Builder;
use crate::expressions::{base_home, home, index_home};
use crate::scopes::InItem;
use ca_flow::{Instr, Links, NodeId, Reg, Regs};
use ca_model::{Act, BinOp, Exp, LoadKind, Place, Target, Value};
use ca_tree::listed::Listed;
use ca_tree::{FunId, MutexId, NoMemory, Text, VarId};
use std::alloc::Global;

// The registers of arguments, if `free` is the first one that is free.
fn homes(alloc: Global, es: &[Exp], free: u32) -> Result<Regs, NoMemory>
    requires { free + length es.now < 256 }
    ensures value { IfOk result (λ regs. regs ≡ homes es.now free) }
    ensures length { IfOk result (λ regs. length regs ≡ length es.now) }
{
    let mut regs = Vec::new(alloc);
    let mut register = free;
    'arguments: for e in es {
        regs.push(home(e, register))?;
        register += 1;
    }
    Ok(Listed::from_vec(regs))
}

// The same text.
fn copied(alloc: Global, text: &Text) -> Result<Text, NoMemory>
    ensures { IfOk result (λ t. t ≡ text.now) }
{
    let bytes = text.as_slice().to_vec(alloc)?;
    Ok(Listed::from_vec(bytes))
}

impl Builder {
    // Code of arguments, from the last to the first.
    fn find_all(
        &mut self,
        es: &[Exp],
        at: &InItem<'_>,
        free: u32,
        next: NodeId,
    ) -> Result<NodeId, NoMemory>
        requires locals { at.now.function.locals ≤ free }
        requires shallow { are_shallow at.now.function.locals es.now ≡ true }
        requires registers { free + length es.now + 64 < 256 }
        requires low { first_of at.now + sites_of_all es.now ≤ self.old.site }
        requires high { self.old.site ≤ behind_of at.now }
        requires next { next.0 < length self.old.steps.items }
        ensures adds { IfOk result (λ n. AddsFindAll at.now self.new n.0 next.0 free es.now) }
        ensures grows { IfOk result (λ n. Grows (around at.now) self.old self.new) }
        ensures entry { IfOk result (λ n. n.0 < length self.new.steps.items) }
        ensures site { IfOk result (λ n. self.old.site ≡ self.new.site + sites_of_all es.now) }
        ensures sites { IfOk result (λ n. HasSites self.new.steps.items self.new.site self.old.site) }
    {
        let mut start = next;
        let mut left = es.len();
        'arguments: while left > 0 {
            left -= 1;
            start = self.find(&es[left], at, free + left as u32, start)?;
        }
        Ok(start)
    }

    // A declaration without an initialiser.
    fn zero(&mut self, at: &InItem<'_>, x: VarId, next: NodeId) -> Result<NodeId, NoMemory>
        requires act { at.now.item.act ≡ Act.Zero x }
        requires fits { fits_act at.now.function.locals (Act.Zero x) ≡ true }
        requires few { at.now.function.locals ≤ 128 }
        requires site { self.old.site ≡ first_of at.now + act_sites (Act.Zero x) }
        requires high { self.old.site ≤ behind_of at.now }
        requires next { next.0 < length self.old.steps.items }
        ensures adds { IfOk result (λ n. AddsWork at.now self.new n.0 next.0) }
        ensures grows { IfOk result (λ n. Grows (around at.now) self.old self.new) }
        ensures entry { IfOk result (λ n. n.0 < length self.new.steps.items) }
        ensures sites { IfOk result (λ n. HasSites self.new.steps.items (first_of at.now) self.old.site) }
    {
        let put = Instr::Put {
            to: Reg(x.0),
            value: Value::Num(0),
        };
        let node = self.push(at, put, x.0, Links::One(next))?;
        Ok(node)
    }

    // An assignment to a local.
    fn set_local(
        &mut self,
        at: &InItem<'_>,
        x: VarId,
        e: &Exp,
        next: NodeId,
    ) -> Result<NodeId, NoMemory>
        requires act { at.now.item.act ≡ Act.Set (Target.Local x) e.now }
        requires fits { fits_act at.now.function.locals (Act.Set (Target.Local x) e.now) ≡ true }
        requires few { at.now.function.locals ≤ 128 }
        requires site { self.old.site ≡ first_of at.now + act_sites (Act.Set (Target.Local x) e.now) }
        requires high { self.old.site ≤ behind_of at.now }
        requires next { next.0 < length self.old.steps.items }
        ensures adds { IfOk result (λ n. AddsWork at.now self.new n.0 next.0) }
        ensures grows { IfOk result (λ n. Grows (around at.now) self.old self.new) }
        ensures entry { IfOk result (λ n. n.0 < length self.new.steps.items) }
        ensures sites { IfOk result (λ n. HasSites self.new.steps.items (first_of at.now) self.old.site) }
    {
        let low = at.locals();
        let start = self.set(e, at, x.0, low, next)?;
        Ok(start)
    }

    // An assignment through a place.
    fn set_place(
        &mut self,
        at: &InItem<'_>,
        p: &Place,
        e: &Exp,
        next: NodeId,
    ) -> Result<NodeId, NoMemory>
        requires act { at.now.item.act ≡ Act.Set (Target.Place p.now) e.now }
        requires fits { fits_act at.now.function.locals (Act.Set (Target.Place p.now) e.now) ≡ true }
        requires few { at.now.function.locals ≤ 128 }
        requires site { self.old.site ≡ first_of at.now + act_sites (Act.Set (Target.Place p.now) e.now) }
        requires high { self.old.site ≤ behind_of at.now }
        requires next { next.0 < length self.old.steps.items }
        ensures adds { IfOk result (λ n. AddsWork at.now self.new n.0 next.0) }
        ensures grows { IfOk result (λ n. Grows (around at.now) self.old self.new) }
        ensures entry { IfOk result (λ n. n.0 < length self.new.steps.items) }
        ensures sites { IfOk result (λ n. HasSites self.new.steps.items (first_of at.now) self.old.site) }
    {
        let low = at.locals();
        let site = self.take_access(at, p.through);
        let store = Instr::Store {
            from: home(e, low + 2),
            base: base_home(p, low),
            index: index_home(p, low),
            field: p.field,
            at: site,
        };
        let node = self.push(at, store, 0, Links::One(next))?;
        let middle = self.find(e, at, low + 2, node)?;
        let start = self.aim(p, at, low, middle)?;
        Ok(start)
    }

    // An update of a local.
    fn update_local(
        &mut self,
        at: &InItem<'_>,
        x: VarId,
        op: BinOp,
        e: &Exp,
        next: NodeId,
    ) -> Result<NodeId, NoMemory>
        requires act { at.now.item.act ≡ Act.Update (Target.Local x) op e.now }
        requires fits { fits_act at.now.function.locals (Act.Update (Target.Local x) op e.now) ≡ true }
        requires few { at.now.function.locals ≤ 128 }
        requires site { self.old.site ≡ first_of at.now + act_sites (Act.Update (Target.Local x) op e.now) }
        requires high { self.old.site ≤ behind_of at.now }
        requires next { next.0 < length self.old.steps.items }
        ensures adds { IfOk result (λ n. AddsWork at.now self.new n.0 next.0) }
        ensures grows { IfOk result (λ n. Grows (around at.now) self.old self.new) }
        ensures entry { IfOk result (λ n. n.0 < length self.new.steps.items) }
        ensures sites { IfOk result (λ n. HasSites self.new.steps.items (first_of at.now) self.old.site) }
    {
        let low = at.locals();
        let binary = Instr::Binary {
            to: Reg(x.0),
            op,
            left: Reg(x.0),
            right: home(e, low),
        };
        let node = self.push(at, binary, x.0, Links::One(next))?;
        let start = self.find(e, at, low, node)?;
        Ok(start)
    }

    // An update through a place.
    fn update_place(
        &mut self,
        at: &InItem<'_>,
        p: &Place,
        op: BinOp,
        e: &Exp,
        next: NodeId,
    ) -> Result<NodeId, NoMemory>
        requires act { at.now.item.act ≡ Act.Update (Target.Place p.now) op e.now }
        requires fits { fits_act at.now.function.locals (Act.Update (Target.Place p.now) op e.now) ≡ true }
        requires few { at.now.function.locals ≤ 128 }
        requires site { self.old.site ≡ first_of at.now + act_sites (Act.Update (Target.Place p.now) op e.now) }
        requires high { self.old.site ≤ behind_of at.now }
        requires next { next.0 < length self.old.steps.items }
        ensures adds { IfOk result (λ n. AddsWork at.now self.new n.0 next.0) }
        ensures grows { IfOk result (λ n. Grows (around at.now) self.old self.new) }
        ensures entry { IfOk result (λ n. n.0 < length self.new.steps.items) }
        ensures sites { IfOk result (λ n. HasSites self.new.steps.items (first_of at.now) self.old.site) }
    {
        let low = at.locals();
        let base = base_home(p, low);
        let index = index_home(p, low);
        let old = Reg(low + 2);
        let written = self.take_access(at, p.through);
        let store = Instr::Store {
            from: old,
            base,
            index,
            field: p.field,
            at: written,
        };
        let write = self.push(at, store, 0, Links::One(next))?;
        let binary = Instr::Binary {
            to: old,
            op,
            left: old,
            right: home(e, low + 3),
        };
        let operate = self.push(at, binary, low + 2, Links::One(write))?;
        let right = self.find(e, at, low + 3, operate)?;
        let read = self.take_access(at, p.through);
        let load = Instr::Load {
            to: old,
            base,
            index,
            field: p.field,
            kind: LoadKind::Int,
            at: read,
        };
        let left = self.push(at, load, low + 2, Links::One(right))?;
        let start = self.aim(p, at, low, left)?;
        Ok(start)
    }

    // A `malloc` into a local.
    fn malloc_local(
        &mut self,
        at: &InItem<'_>,
        x: VarId,
        c: &Exp,
        size: u32,
        next: NodeId,
    ) -> Result<NodeId, NoMemory>
        requires act { at.now.item.act ≡ Act.Malloc (Target.Local x) c.now size }
        requires fits { fits_act at.now.function.locals (Act.Malloc (Target.Local x) c.now size) ≡ true }
        requires few { at.now.function.locals ≤ 128 }
        requires site { self.old.site ≡ first_of at.now + act_sites (Act.Malloc (Target.Local x) c.now size) }
        requires high { self.old.site ≤ behind_of at.now }
        requires next { next.0 < length self.old.steps.items }
        ensures adds { IfOk result (λ n. AddsWork at.now self.new n.0 next.0) }
        ensures grows { IfOk result (λ n. Grows (around at.now) self.old self.new) }
        ensures entry { IfOk result (λ n. n.0 < length self.new.steps.items) }
        ensures sites { IfOk result (λ n. HasSites self.new.steps.items (first_of at.now) self.old.site) }
    {
        let low = at.locals();
        let malloc = Instr::Malloc {
            to: Reg(x.0),
            count: home(c, low),
            size,
            acquiring: at.acquires(),
        };
        let node = self.push(at, malloc, x.0, Links::One(next))?;
        let start = self.find(c, at, low, node)?;
        Ok(start)
    }

    // A `malloc` through a place.
    fn malloc_place(
        &mut self,
        at: &InItem<'_>,
        p: &Place,
        c: &Exp,
        size: u32,
        next: NodeId,
    ) -> Result<NodeId, NoMemory>
        requires act { at.now.item.act ≡ Act.Malloc (Target.Place p.now) c.now size }
        requires fits { fits_act at.now.function.locals (Act.Malloc (Target.Place p.now) c.now size) ≡ true }
        requires few { at.now.function.locals ≤ 128 }
        requires site { self.old.site ≡ first_of at.now + act_sites (Act.Malloc (Target.Place p.now) c.now size) }
        requires high { self.old.site ≤ behind_of at.now }
        requires next { next.0 < length self.old.steps.items }
        ensures adds { IfOk result (λ n. AddsWork at.now self.new n.0 next.0) }
        ensures grows { IfOk result (λ n. Grows (around at.now) self.old self.new) }
        ensures entry { IfOk result (λ n. n.0 < length self.new.steps.items) }
        ensures sites { IfOk result (λ n. HasSites self.new.steps.items (first_of at.now) self.old.site) }
    {
        let low = at.locals();
        let site = self.take_access(at, p.through);
        let store = Instr::Store {
            from: Reg(low + 2),
            base: base_home(p, low),
            index: index_home(p, low),
            field: p.field,
            at: site,
        };
        let write = self.push(at, store, 0, Links::One(next))?;
        let malloc = Instr::Malloc {
            to: Reg(low + 2),
            count: home(c, low + 2),
            size,
            acquiring: at.acquires(),
        };
        let node = self.push(at, malloc, low + 2, Links::One(write))?;
        let middle = self.find(c, at, low + 2, node)?;
        let start = self.aim(p, at, low, middle)?;
        Ok(start)
    }

    // A call whose result is dropped.
    fn call(
        &mut self,
        alloc: Global,
        at: &InItem<'_>,
        function: FunId,
        es: &[Exp],
        next: NodeId,
    ) -> Result<NodeId, NoMemory>
        requires act { at.now.item.act ≡ Act.Call None function es.now }
        requires fits { fits_act at.now.function.locals (Act.Call None function es.now) ≡ true }
        requires few { at.now.function.locals ≤ 128 }
        requires site { self.old.site ≡ first_of at.now + act_sites (Act.Call None function es.now) }
        requires high { self.old.site ≤ behind_of at.now }
        requires next { next.0 < length self.old.steps.items }
        ensures adds { IfOk result (λ n. AddsWork at.now self.new n.0 next.0) }
        ensures grows { IfOk result (λ n. Grows (around at.now) self.old self.new) }
        ensures entry { IfOk result (λ n. n.0 < length self.new.steps.items) }
        ensures sites { IfOk result (λ n. HasSites self.new.steps.items (first_of at.now) self.old.site) }
    {
        let low = at.locals();
        let call = Instr::Call {
            to: None,
            function,
            arguments: homes(alloc, es, low)?,
        };
        let node = self.push(at, call, 0, Links::One(next))?;
        let start = self.find_all(es, at, low, node)?;
        Ok(start)
    }

    // A call whose result goes into a local.
    fn call_into(
        &mut self,
        alloc: Global,
        at: &InItem<'_>,
        x: VarId,
        function: FunId,
        es: &[Exp],
        next: NodeId,
    ) -> Result<NodeId, NoMemory>
        requires act { at.now.item.act ≡ Act.Call (Some x) function es.now }
        requires fits { fits_act at.now.function.locals (Act.Call (Some x) function es.now) ≡ true }
        requires few { at.now.function.locals ≤ 128 }
        requires site { self.old.site ≡ first_of at.now + act_sites (Act.Call (Some x) function es.now) }
        requires high { self.old.site ≤ behind_of at.now }
        requires next { next.0 < length self.old.steps.items }
        ensures adds { IfOk result (λ n. AddsWork at.now self.new n.0 next.0) }
        ensures grows { IfOk result (λ n. Grows (around at.now) self.old self.new) }
        ensures entry { IfOk result (λ n. n.0 < length self.new.steps.items) }
        ensures sites { IfOk result (λ n. HasSites self.new.steps.items (first_of at.now) self.old.site) }
    {
        let low = at.locals();
        let call = Instr::Call {
            to: Some(Reg(x.0)),
            function,
            arguments: homes(alloc, es, low)?,
        };
        let node = self.push(at, call, x.0, Links::One(next))?;
        let start = self.find_all(es, at, low, node)?;
        Ok(start)
    }

    // A `printf`.
    fn print(
        &mut self,
        alloc: Global,
        at: &InItem<'_>,
        text: &Text,
        es: &[Exp],
        next: NodeId,
    ) -> Result<NodeId, NoMemory>
        requires act { at.now.item.act ≡ Act.Print text.now es.now }
        requires fits { fits_act at.now.function.locals (Act.Print text.now es.now) ≡ true }
        requires few { at.now.function.locals ≤ 128 }
        requires site { self.old.site ≡ first_of at.now + act_sites (Act.Print text.now es.now) }
        requires high { self.old.site ≤ behind_of at.now }
        requires next { next.0 < length self.old.steps.items }
        ensures adds { IfOk result (λ n. AddsWork at.now self.new n.0 next.0) }
        ensures grows { IfOk result (λ n. Grows (around at.now) self.old self.new) }
        ensures entry { IfOk result (λ n. n.0 < length self.new.steps.items) }
        ensures sites { IfOk result (λ n. HasSites self.new.steps.items (first_of at.now) self.old.site) }
    {
        let low = at.locals();
        let print = Instr::Print {
            format: copied(alloc, text)?,
            arguments: homes(alloc, es, low)?,
        };
        let node = self.push(at, print, 0, Links::One(next))?;
        let start = self.find_all(es, at, low, node)?;
        Ok(start)
    }

    // A `pthread_mutex_lock`.
    fn lock(&mut self, at: &InItem<'_>, mutex: MutexId, next: NodeId) -> Result<NodeId, NoMemory>
        requires act { at.now.item.act ≡ Act.Lock mutex }
        requires fits { fits_act at.now.function.locals (Act.Lock mutex) ≡ true }
        requires few { at.now.function.locals ≤ 128 }
        requires site { self.old.site ≡ first_of at.now + act_sites (Act.Lock mutex) }
        requires high { self.old.site ≤ behind_of at.now }
        requires next { next.0 < length self.old.steps.items }
        ensures adds { IfOk result (λ n. AddsWork at.now self.new n.0 next.0) }
        ensures grows { IfOk result (λ n. Grows (around at.now) self.old self.new) }
        ensures entry { IfOk result (λ n. n.0 < length self.new.steps.items) }
        ensures sites { IfOk result (λ n. HasSites self.new.steps.items (first_of at.now) self.old.site) }
    {
        let site = self.take_site(at);
        let lock = Instr::Lock {
            mutex,
            at: site,
            acquiring: at.acquires(),
        };
        let node = self.push(at, lock, 0, Links::One(next))?;
        Ok(node)
    }

    // A `pthread_mutex_unlock`.
    fn unlock(&mut self, at: &InItem<'_>, mutex: MutexId, next: NodeId) -> Result<NodeId, NoMemory>
        requires act { at.now.item.act ≡ Act.Unlock mutex }
        requires fits { fits_act at.now.function.locals (Act.Unlock mutex) ≡ true }
        requires few { at.now.function.locals ≤ 128 }
        requires site { self.old.site ≡ first_of at.now + act_sites (Act.Unlock mutex) }
        requires high { self.old.site ≤ behind_of at.now }
        requires next { next.0 < length self.old.steps.items }
        ensures adds { IfOk result (λ n. AddsWork at.now self.new n.0 next.0) }
        ensures grows { IfOk result (λ n. Grows (around at.now) self.old self.new) }
        ensures entry { IfOk result (λ n. n.0 < length self.new.steps.items) }
        ensures sites { IfOk result (λ n. HasSites self.new.steps.items (first_of at.now) self.old.site) }
    {
        let node = self.push(at, Instr::Unlock(mutex), 0, Links::One(next))?;
        Ok(node)
    }

    // A `pthread_create`.
    fn create(
        &mut self,
        at: &InItem<'_>,
        x: VarId,
        function: FunId,
        e: &Exp,
        next: NodeId,
    ) -> Result<NodeId, NoMemory>
        requires act { at.now.item.act ≡ Act.Create x function e.now }
        requires fits { fits_act at.now.function.locals (Act.Create x function e.now) ≡ true }
        requires few { at.now.function.locals ≤ 128 }
        requires site { self.old.site ≡ first_of at.now + act_sites (Act.Create x function e.now) }
        requires high { self.old.site ≤ behind_of at.now }
        requires next { next.0 < length self.old.steps.items }
        ensures adds { IfOk result (λ n. AddsWork at.now self.new n.0 next.0) }
        ensures grows { IfOk result (λ n. Grows (around at.now) self.old self.new) }
        ensures entry { IfOk result (λ n. n.0 < length self.new.steps.items) }
        ensures sites { IfOk result (λ n. HasSites self.new.steps.items (first_of at.now) self.old.site) }
    {
        let low = at.locals();
        let create = Instr::Create {
            to: Reg(x.0),
            function,
            argument: home(e, low),
        };
        let node = self.push(at, create, x.0, Links::One(next))?;
        let start = self.find(e, at, low, node)?;
        Ok(start)
    }

    // A `pthread_join`.
    fn join(&mut self, at: &InItem<'_>, e: &Exp, next: NodeId) -> Result<NodeId, NoMemory>
        requires act { at.now.item.act ≡ Act.Join e.now }
        requires fits { fits_act at.now.function.locals (Act.Join e.now) ≡ true }
        requires few { at.now.function.locals ≤ 128 }
        requires site { self.old.site ≡ first_of at.now + act_sites (Act.Join e.now) }
        requires high { self.old.site ≤ behind_of at.now }
        requires next { next.0 < length self.old.steps.items }
        ensures adds { IfOk result (λ n. AddsWork at.now self.new n.0 next.0) }
        ensures grows { IfOk result (λ n. Grows (around at.now) self.old self.new) }
        ensures entry { IfOk result (λ n. n.0 < length self.new.steps.items) }
        ensures sites { IfOk result (λ n. HasSites self.new.steps.items (first_of at.now) self.old.site) }
    {
        let low = at.locals();
        let thread = home(e, low);
        let node = self.push(at, Instr::Join { thread }, 0, Links::One(next))?;
        let start = self.find(e, at, low, node)?;
        Ok(start)
    }

    // A `free`.
    fn free(&mut self, at: &InItem<'_>, e: &Exp, next: NodeId) -> Result<NodeId, NoMemory>
        requires act { at.now.item.act ≡ Act.Free e.now }
        requires fits { fits_act at.now.function.locals (Act.Free e.now) ≡ true }
        requires few { at.now.function.locals ≤ 128 }
        requires site { self.old.site ≡ first_of at.now + act_sites (Act.Free e.now) }
        requires high { self.old.site ≤ behind_of at.now }
        requires next { next.0 < length self.old.steps.items }
        ensures adds { IfOk result (λ n. AddsWork at.now self.new n.0 next.0) }
        ensures grows { IfOk result (λ n. Grows (around at.now) self.old self.new) }
        ensures entry { IfOk result (λ n. n.0 < length self.new.steps.items) }
        ensures sites { IfOk result (λ n. HasSites self.new.steps.items (first_of at.now) self.old.site) }
    {
        let low = at.locals();
        let site = self.take_site(at);
        let from = home(e, low);
        let node = self.push(at, Instr::Free { from, at: site }, 0, Links::One(next))?;
        let start = self.find(e, at, low, node)?;
        Ok(start)
    }

    // An `assert`.
    fn assert(&mut self, at: &InItem<'_>, e: &Exp, next: NodeId) -> Result<NodeId, NoMemory>
        requires act { at.now.item.act ≡ Act.Assert e.now }
        requires fits { fits_act at.now.function.locals (Act.Assert e.now) ≡ true }
        requires few { at.now.function.locals ≤ 128 }
        requires site { self.old.site ≡ first_of at.now + act_sites (Act.Assert e.now) }
        requires high { self.old.site ≤ behind_of at.now }
        requires next { next.0 < length self.old.steps.items }
        ensures adds { IfOk result (λ n. AddsWork at.now self.new n.0 next.0) }
        ensures grows { IfOk result (λ n. Grows (around at.now) self.old self.new) }
        ensures entry { IfOk result (λ n. n.0 < length self.new.steps.items) }
        ensures sites { IfOk result (λ n. HasSites self.new.steps.items (first_of at.now) self.old.site) }
    {
        let low = at.locals();
        let site = self.take_site(at);
        let value = home(e, low);
        let node = self.push(at, Instr::Assert { value, at: site }, 0, Links::One(next))?;
        let start = self.find(e, at, low, node)?;
        Ok(start)
    }

    // A `return` of a value; control goes on nowhere.
    fn give_back(&mut self, at: &InItem<'_>, e: &Exp, next: NodeId) -> Result<NodeId, NoMemory>
        requires act { at.now.item.act ≡ Act.Return (Some e.now) }
        requires fits { fits_act at.now.function.locals (Act.Return (Some e.now)) ≡ true }
        requires few { at.now.function.locals ≤ 128 }
        requires site { self.old.site ≡ first_of at.now + act_sites (Act.Return (Some e.now)) }
        requires high { self.old.site ≤ behind_of at.now }
        requires next { next.0 < length self.old.steps.items }
        ensures adds { IfOk result (λ n. AddsWork at.now self.new n.0 next.0) }
        ensures grows { IfOk result (λ n. Grows (around at.now) self.old self.new) }
        ensures entry { IfOk result (λ n. n.0 < length self.new.steps.items) }
        ensures sites { IfOk result (λ n. HasSites self.new.steps.items (first_of at.now) self.old.site) }
    {
        let low = at.locals();
        let value = home(e, low);
        let node = self.push(at, Instr::Return(Some(value)), 0, Links::Nowhere)?;
        let start = self.find(e, at, low, node)?;
        Ok(start)
    }

    // A `return` without a value, or a closing brace.
    pub(crate) fn end(&mut self, at: &InItem<'_>) -> Result<NodeId, NoMemory>
        requires act { (at.now.item.act ≡ Act.Return None) ⊎ (at.now.item.act ≡ Act.Close) }
        ensures adds { IfOk result (λ n. AddsEnd at.now self.new n.0) }
        ensures grows { IfOk result (λ n. Grows (around at.now) self.old self.new) }
        ensures entry { IfOk result (λ n. n.0 < length self.new.steps.items) }
    {
        let node = self.push(at, Instr::Return(None), 0, Links::Nowhere)?;
        Ok(node)
    }

    // An item that sets a local or a cell.
    fn work_on_target(
        &mut self,
        at: &InItem<'_>,
        target: &Target,
        next: NodeId,
    ) -> Result<NodeId, NoMemory>
        requires act { targets at.now.item.act ≡ Some target.now }
        requires fits { fits_act at.now.function.locals at.now.item.act ≡ true }
        requires few { at.now.function.locals ≤ 128 }
        requires site { self.old.site ≡ behind_of at.now }
        requires next { next.0 < length self.old.steps.items }
        ensures adds { IfOk result (λ n. AddsWork at.now self.new n.0 next.0) }
        ensures grows { IfOk result (λ n. Grows (around at.now) self.old self.new) }
        ensures entry { IfOk result (λ n. n.0 < length self.new.steps.items) }
        ensures sites { IfOk result (λ n. HasSites self.new.steps.items (first_of at.now) self.old.site) }
    {
        match target {
            Target::Local(x) => match at.act() {
                Act::Set(_, e) => self.set_local(at, *x, e, next),
                Act::Update(_, op, e) => self.update_local(at, *x, *op, e, next),
                Act::Malloc(_, c, size) => self.malloc_local(at, *x, c, *size, next),
                _ => Ok(next),
            },
            Target::Place(p) => match at.act() {
                Act::Set(_, e) => self.set_place(at, p, e, next),
                Act::Update(_, op, e) => self.update_place(at, p, *op, e, next),
                Act::Malloc(_, c, size) => self.malloc_place(at, p, c, *size, next),
                _ => Ok(next),
            },
        }
    }

    // An item that is no condition, from the number behind its last site.
    fn work_by_act(
        &mut self,
        alloc: Global,
        at: &InItem<'_>,
        next: NodeId,
    ) -> Result<NodeId, NoMemory>
        requires act { is_condition at.now.item.act ≡ false }
        requires fits { fits_act at.now.function.locals at.now.item.act ≡ true }
        requires few { at.now.function.locals ≤ 128 }
        requires site { self.old.site ≡ behind_of at.now }
        requires next { next.0 < length self.old.steps.items }
        ensures adds { IfOk result (λ n. AddsWork at.now self.new n.0 next.0) }
        ensures grows { IfOk result (λ n. Grows (around at.now) self.old self.new) }
        ensures entry { IfOk result (λ n. n.0 < length self.new.steps.items) }
        ensures sites { IfOk result (λ n. HasSites self.new.steps.items (first_of at.now) self.old.site) }
    {
        match at.act() {
            Act::Zero(x) => self.zero(at, *x, next),
            Act::Set(target, _) | Act::Update(target, _, _) | Act::Malloc(target, _, _) =>
                self.work_on_target(at, target, next),
            Act::Call(None, function, es) => self.call(alloc, at, *function, es.as_slice(), next),
            Act::Call(Some(x), function, es) => self.call_into(
                alloc,
                at,
                *x,
                *function,
                es.as_slice(),
                next,
            ),
            Act::Lock(mutex) => self.lock(at, *mutex, next),
            Act::Unlock(mutex) => self.unlock(at, *mutex, next),
            Act::Create(x, function, e) => self.create(at, *x, *function, e, next),
            Act::Join(e) => self.join(at, e, next),
            Act::Free(e) => self.free(at, e, next),
            Act::Assert(e) => self.assert(at, e, next),
            Act::Print(text, es) => self.print(alloc, at, text, es.as_slice(), next),
            Act::Return(Some(e)) => self.give_back(at, e, next),
            Act::Return(None) | Act::Close => {
                let start = self.end(at)?;
                Ok(start)
            }
            Act::Cond(_) => Ok(next),
        }
    }

    /// An item that is no condition; control goes on at `next`.
    pub(crate) fn work(
        &mut self,
        alloc: Global,
        at: &InItem<'_>,
        next: NodeId,
    ) -> Result<NodeId, NoMemory>
        requires act { is_condition at.now.item.act ≡ false }
        requires next { next.0 < length self.old.steps.items }
        ensures adds { IfOk result (λ n. AddsWork at.now self.new n.0 next.0) }
        ensures grows { IfOk result (λ n. Grows (around at.now) self.old self.new) }
        ensures entry { IfOk result (λ n. n.0 < length self.new.steps.items) }
        ensures sites { IfOk result (λ n. HasSites self.new.steps.items (first_of at.now) (behind_of at.now)) }
    {
        at.keep_within();
        self.site = at.behind();
        let start = self.work_by_act(alloc, at, next)?;
        Ok(start)
    }

    /// A condition; control goes on at `one` where it is true, and at `other` where it is false.
    pub(crate) fn choose(
        &mut self,
        at: &InItem<'_>,
        one: NodeId,
        other: NodeId,
    ) -> Result<NodeId, NoMemory>
        requires act { is_condition at.now.item.act ≡ true }
        requires next { (one.0 < length self.old.steps.items) × (other.0 < length self.old.steps.items) }
        ensures adds { IfOk result (λ n. AddsChoice at.now self.new n.0 one.0 other.0) }
        ensures grows { IfOk result (λ n. Grows (around at.now) self.old self.new) }
        ensures entry { IfOk result (λ n. n.0 < length self.new.steps.items) }
        ensures sites { IfOk result (λ n. HasSites self.new.steps.items (first_of at.now) (behind_of at.now)) }
    {
        at.keep_within();
        self.site = at.behind();
        match at.act() {
            Act::Cond(e) => {
                let low = at.locals();
                let start = self.decide(e, at, low, one, other)?;
                Ok(start)
            }
            _ => Ok(one),
        }
    }
}
