//! Lowering of expressions.

ghost use Rattle.std.specs.Prelude.{◌≡◌, ◌≤◌, ◌<◌, ◌+◌, ℕ, length, suc, true, IfOk, Some, slice_get};
ghost use Rattle.ca_model.specs.declared.tree.Place.{out-Place};
ghost use Rattle.ca_model.specs.Bounds.{among, depth};
ghost use Rattle.ca_model.specs.Eval.{part, spot};
ghost use Rattle.ca_model.specs.Sites.{act_sites};
ghost use Rattle.ca_lower.specs.Lowered.{home};
ghost use Rattle.ca_lower.specs.Building.{among_place, depth_to, code_at, around, index_home, Grows, HasSites, AddsSet, AddsFind, AddsAim, AddsDecide};

use crate::builder::Builder;
use crate::scopes::InItem;
use ca_flow::{Instr, Links, NodeId, Reg};
use ca_model::{Addr, Exp, Place, Value};
use ca_tree::NoMemory;

// The register of an expression's value, if `free` is the first one that is free.
pub(crate) fn home(e: &Exp, free: u32) -> Reg
    ensures { result.0 ≡ home e.now free }
{
    match e {
        Exp::Local(x) => Reg(x.0),
        _ => Reg(free),
    }
}

// The register of a place's base.
pub(crate) fn base_home(p: &Place, free: u32) -> Reg
    ensures { result.0 ≡ home (out-Place p.now).base free }
{
    let base = p.base.get();
    home(base, free)
}

// The register of a place's index, with the cells of one element.
pub(crate) fn index_home(p: &Place, free: u32) -> Option<(Reg, u32)>
    requires { free < 256 }
    ensures { result ≡ index_home (out-Place p.now).index free }
{
    match &p.index {
        None => None,
        Some((i, scale)) => {
            let index = i.get();
            Some((home(index, free + 1), *scale))
        }
    }
}

// A number as a value.
fn number(n: &i32) -> Value
    ensures { result ≡ Value.Num n.now }
{
    Value::Num(*n)
}

impl Builder {
    #[cycle(lower_exp)]
    // Code that sets register `to` to the value of an expression, whose temporaries are from `free` on.
    pub(crate) fn set(
        &mut self,
        e: &Exp,
        at: &InItem<'_>,
        to: u32,
        free: u32,
        next: NodeId,
    ) -> Result<NodeId, NoMemory>
        requires locals { at.now.function.locals ≤ free }
        requires among { among at.now.function.locals e.now ≡ true }
        requires registers { free + depth e.now < 256 }
        requires low { (code_at at.now).first_site at.now.item.id + (part e.now).sites ≤ self.old.site }
        requires high { self.old.site ≤ (code_at at.now).first_site at.now.item.id + act_sites at.now.item.act }
        requires target { to < 256 }
        requires next { next.0 < length self.old.steps.items }
        ensures adds { IfOk result (λ n. AddsSet at.now self.new n.0 next.0 to free e.now) }
        ensures wide { IfOk result (λ n. to < self.new.registers) }
        ensures grows { IfOk result (λ n. Grows (around at.now) self.old self.new) }
        ensures entry { IfOk result (λ n. n.0 < length self.new.steps.items) }
        ensures site { IfOk result (λ n. self.old.site ≡ self.new.site + (part e.now).sites) }
        ensures sites { IfOk result (λ n. HasSites self.new.steps.items self.new.site self.old.site) }
    {
        match e {
            Exp::Num(n) => {
                let value = number(n);
                let node = self.push(at, Instr::Put { to: Reg(to), value }, to, Links::One(next))?;
                Ok(node)
            }
            Exp::Null => {
                let value = Value::Num(0);
                let node = self.push(at, Instr::Put { to: Reg(to), value }, to, Links::One(next))?;
                Ok(node)
            }
            Exp::Local(x) => {
                let from = Reg(x.0);
                let node = self.push(at, Instr::Copy { to: Reg(to), from }, to, Links::One(next))?;
                Ok(node)
            }
            Exp::Global(g) => {
                let value = Value::Addr(Addr {
                    block: g.0,
                    offset: 0,
                });
                let node = self.push(at, Instr::Put { to: Reg(to), value }, to, Links::One(next))?;
                Ok(node)
            }
            Exp::Load(p, kind) => {
                let site = self.take_access(at, p.through);
                let base = base_home(p, free);
                let index = index_home(p, free);
                let load = Instr::Load {
                    to: Reg(to),
                    base,
                    index,
                    field: p.field,
                    kind: *kind,
                    at: site,
                };
                let node = self.push(at, load, to, Links::One(next))?;
                let start = self.aim(p, at, free, node)?;
                Ok(start)
            }
            Exp::AddressOf(p) => {
                let base = base_home(p, free);
                let index = index_home(p, free);
                let displace = Instr::Displace {
                    to: Reg(to),
                    base,
                    index,
                    field: p.field,
                };
                let node = self.push(at, displace, to, Links::One(next))?;
                let start = self.aim(p, at, free, node)?;
                Ok(start)
            }
            Exp::Negate(a) => {
                let operand = a.get();
                let from = home(operand, free);
                let node = self.push(
                    at,
                    Instr::Negate { to: Reg(to), from },
                    to,
                    Links::One(next),
                )?;
                let start = self.find(operand, at, free, node)?;
                Ok(start)
            }
            Exp::Not(a) => {
                let operand = a.get();
                let from = home(operand, free);
                let node = self.push(at, Instr::Not { to: Reg(to), from }, to, Links::One(next))?;
                let start = self.find(operand, at, free, node)?;
                Ok(start)
            }
            Exp::Binary(op, a, b) => {
                let first = a.get();
                let second = b.get();
                let left = home(first, free);
                let right = home(second, free + 1);
                let binary = Instr::Binary {
                    to: Reg(to),
                    op: *op,
                    left,
                    right,
                };
                let node = self.push(at, binary, to, Links::One(next))?;
                let middle = self.find(second, at, free + 1, node)?;
                let start = self.find(first, at, free, middle)?;
                Ok(start)
            }
            Exp::And(a, b) => {
                let first = a.get();
                let second = b.get();
                let one = self.flag(at, to, 1, next)?;
                let other = self.flag(at, to, 0, next)?;
                let right = self.decide(second, at, free, one, other)?;
                let start = self.decide(first, at, free, right, other)?;
                Ok(start)
            }
            Exp::Or(a, b) => {
                let first = a.get();
                let second = b.get();
                let one = self.flag(at, to, 1, next)?;
                let other = self.flag(at, to, 0, next)?;
                let middle = self.decide(second, at, free, one, other)?;
                let start = self.decide(first, at, free, one, middle)?;
                Ok(start)
            }
        }
    }

    #[cycle(lower_exp)]
    // Code that leaves the value in its register.
    pub(crate) fn find(
        &mut self,
        e: &Exp,
        at: &InItem<'_>,
        free: u32,
        next: NodeId,
    ) -> Result<NodeId, NoMemory>
        requires locals { at.now.function.locals ≤ free }
        requires among { among at.now.function.locals e.now ≡ true }
        requires registers { free + depth e.now < 256 }
        requires low { (code_at at.now).first_site at.now.item.id + (part e.now).sites ≤ self.old.site }
        requires high { self.old.site ≤ (code_at at.now).first_site at.now.item.id + act_sites at.now.item.act }
        requires next { next.0 < length self.old.steps.items }
        ensures adds { IfOk result (λ n. AddsFind at.now self.new n.0 next.0 free e.now) }
        ensures grows { IfOk result (λ n. Grows (around at.now) self.old self.new) }
        ensures entry { IfOk result (λ n. n.0 < length self.new.steps.items) }
        ensures site { IfOk result (λ n. self.old.site ≡ self.new.site + (part e.now).sites) }
        ensures sites { IfOk result (λ n. HasSites self.new.steps.items self.new.site self.old.site) }
    {
        match e {
            Exp::Local(_) => Ok(next),
            _ => {
                let start = self.set(e, at, free, free, next)?;
                Ok(start)
            }
        }
    }

    #[cycle(lower_exp)]
    // Code that leaves the base and the index of a place in their registers.
    pub(crate) fn aim(
        &mut self,
        p: &Place,
        at: &InItem<'_>,
        free: u32,
        next: NodeId,
    ) -> Result<NodeId, NoMemory>
        requires locals { at.now.function.locals ≤ free }
        requires among { among_place at.now.function.locals p.now ≡ true }
        requires registers { free + depth_to p.now < 256 }
        requires low { (code_at at.now).first_site at.now.item.id + (spot p.now).sites ≤ self.old.site }
        requires high { self.old.site ≤ (code_at at.now).first_site at.now.item.id + act_sites at.now.item.act }
        requires next { next.0 < length self.old.steps.items }
        ensures adds { IfOk result (λ n. AddsAim at.now self.new n.0 next.0 free p.now) }
        ensures grows { IfOk result (λ n. Grows (around at.now) self.old self.new) }
        ensures entry { IfOk result (λ n. n.0 < length self.new.steps.items) }
        ensures site { IfOk result (λ n. self.old.site ≡ self.new.site + (spot p.now).sites) }
        ensures sites { IfOk result (λ n. HasSites self.new.steps.items self.new.site self.old.site) }
    {
        match &p.index {
            None => {
                let base = p.base.get();
                let start = self.find(base, at, free, next)?;
                Ok(start)
            }
            Some((i, _)) => {
                let base = p.base.get();
                let index = i.get();
                let middle = self.find(index, at, free + 1, next)?;
                let start = self.find(base, at, free, middle)?;
                Ok(start)
            }
        }
    }

    #[cycle(lower_exp)]
    // Code that goes on at one node for a true value and at another for a false one.
    pub(crate) fn decide(
        &mut self,
        e: &Exp,
        at: &InItem<'_>,
        free: u32,
        one: NodeId,
        other: NodeId,
    ) -> Result<NodeId, NoMemory>
        requires locals { at.now.function.locals ≤ free }
        requires among { among at.now.function.locals e.now ≡ true }
        requires registers { free + depth e.now < 256 }
        requires low { (code_at at.now).first_site at.now.item.id + (part e.now).sites ≤ self.old.site }
        requires high { self.old.site ≤ (code_at at.now).first_site at.now.item.id + act_sites at.now.item.act }
        requires next { (one.0 < length self.old.steps.items) × (other.0 < length self.old.steps.items) }
        ensures adds { IfOk result (λ n. AddsDecide at.now self.new n.0 one.0 other.0 free e.now) }
        ensures grows { IfOk result (λ n. Grows (around at.now) self.old self.new) }
        ensures entry { IfOk result (λ n. n.0 < length self.new.steps.items) }
        ensures site { IfOk result (λ n. self.old.site ≡ self.new.site + (part e.now).sites) }
        ensures sites { IfOk result (λ n. HasSites self.new.steps.items self.new.site self.old.site) }
    {
        match e {
            Exp::And(a, b) => {
                let first = a.get();
                let second = b.get();
                let middle = self.decide(second, at, free, one, other)?;
                let start = self.decide(first, at, free, middle, other)?;
                Ok(start)
            }
            Exp::Or(a, b) => {
                let first = a.get();
                let second = b.get();
                let middle = self.decide(second, at, free, one, other)?;
                let start = self.decide(first, at, free, one, middle)?;
                Ok(start)
            }
            _ => {
                let value = home(e, free);
                let links = Links::Two {
                    yes: one,
                    no: other,
                };
                let node = self.push(at, Instr::Branch(value), 0, links)?;
                let start = self.find(e, at, free, node)?;
                Ok(start)
            }
        }
    }

    // A value of 1 or 0.
    fn flag(
        &mut self,
        at: &InItem<'_>,
        to: u32,
        value: i32,
        next: NodeId,
    ) -> Result<NodeId, NoMemory>
        requires target { to < 256 }
        requires next { next.0 < length self.old.steps.items }
        ensures pushed { IfOk result (λ n. slice_get self.new.steps.items n.0 ≡ Some (record { node = record { item = at.now.item.id; instr = Instr.Put (record { 0 = to }) (Value.Num value) }; links = Links.One next })) }
        ensures fresh { IfOk result (λ n. n.0 ≡ length self.old.steps.items) }
        ensures length { IfOk result (λ n. length self.new.steps.items ≡ suc (length self.old.steps.items)) }
        ensures grows { IfOk result (λ n. Grows (around at.now) self.old self.new) }
        ensures wide { IfOk result (λ n. to < self.new.registers) }
        ensures site { self.new.site ≡ self.old.site }
    {
        let put = Instr::Put {
            to: Reg(to),
            value: Value::Num(value),
        };
        let node = self.push(at, put, to, Links::One(next))?;
        Ok(node)
    }
}
