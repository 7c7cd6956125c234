//! What is assigned to (C11 6.5.16).

ghost use Rattle.std.specs.Prelude.{◌≡◌, IfOk, OnOk};
ghost use Rattle.ca_bodies.specs.Shown.{shown_aim};
ghost use Rattle.ca_model.specs.typing.Expressions.{judged};
ghost use Rattle.ca_model.specs.typing.Targets as targets;
ghost use Rattle.ca_model.specs.typing.Values.{also};
ghost use Rattle.ca_operands.specs.Noted.{noted};

use ca_model::{ObjectType, Operand, Target};
use ca_operands::{Faults, Scope, held, operand, unless_place};
use ca_tree::tree::Exp;
use ca_tree::{NoMemory, VarId};
use std::alloc::Global;

/// What is assigned to: its type, where that isn't refused, and where it is, where it isn't refused itself.
#[derive(Drop)]
pub struct Aim {
    pub of: Option<ObjectType>,
    pub at: Option<Target>,
}

impl Aim {
    /// What was found at a target, or that it was refused.
    pub(crate) fn of_target(found: Option<(ObjectType, Target)>) -> Aim
        ensures { shown_aim result ≡ targets.aim_of found }
    {
        match found {
            Some((of, at)) => Aim {
                of: Some(of),
                at: Some(at),
            },
            None => Aim { of: None, at: None },
        }
    }
}

// An operand that can be assigned to: a local or a place that holds a value.
fn target_of(operand: Operand) -> Option<(ObjectType, Target)>
    ensures { result ≡ targets.target_of operand }
{
    match operand {
        Operand::Local(of, var) => Some((of, Target::Local(var))),
        Operand::Place(of, place) => {
            let _value = held(of)?;
            Some((of, Target::Place(place)))
        }
        Operand::Value(..) | Operand::Name => None,
    }
}

fn targeted(operand: Option<Operand>) -> Option<(ObjectType, Target)>
    ensures { result ≡ also operand targets.target_of }
{
    target_of(operand?)
}

/// What can be assigned to at an expression, where it isn't refused; the faults in it are noted.
pub(crate) fn target<'a>(
    alloc: Global,
    scope: &Scope<'a>,
    exp: &'a Exp,
    faults: &mut Faults,
) -> Result<Option<(ObjectType, Target)>, NoMemory>
    ensures is { IfOk result (λ r. r ≡ also (judged scope.now exp.now).is targets.target_of) }
    ensures noted { OnOk result (faults.new.first ≡ noted faults.old.first (targets.aim_faults scope.now exp.now)) }
{
    let of = operand(alloc, scope, exp, faults)?;
    let is_typed = of.is_some();
    let found = targeted(of);
    unless_place(exp, is_typed, found.is_some(), faults);
    Ok(found)
}

/// The target of an assignment; the faults in it are noted.
pub fn aim_at<'a>(
    alloc: Global,
    scope: &Scope<'a>,
    exp: &'a Exp,
    faults: &mut Faults,
) -> Result<Aim, NoMemory>
    ensures is { IfOk result (λ a. shown_aim a ≡ targets.aim scope.now exp.now) }
    ensures noted { OnOk result (faults.new.first ≡ noted faults.old.first (targets.aim_faults scope.now exp.now)) }
{
    let found = target(alloc, scope, exp, faults)?;
    Ok(Aim::of_target(found))
}

/// The target; local 0 stands for one that was refused.
pub(crate) fn target_at(at: Option<Target>) -> Target
    ensures { result ≡ targets.target_at at }
{
    match at {
        Some(target) => target,
        None => Target::Local(VarId(0)),
    }
}

/// The local that is assigned to, where it is one.
pub(crate) fn local_at(at: &Option<Target>) -> Option<VarId>
    ensures { result ≡ targets.local_at at.now }
{
    match at {
        Some(Target::Local(var)) => Some(*var),
        Some(Target::Place(_)) | None => None,
    }
}
