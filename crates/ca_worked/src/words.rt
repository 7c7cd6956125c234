//! Typed expressions in words.

use ca_model::{Exp, Place};
use std::alloc::{AllocError, Global};

/// A cell: its address, the index and the cells of an element, the field, and a `!` where it is a site.
#[cycle(typed)]
pub fn place_shown(alloc: Global, place: &Place) -> Result<String, AllocError> {
    let base = shown(alloc, place.base.get())?;
    let mark = if place.through { "!" } else { "" };
    match &place.index {
        Some((index, cells)) => {
            let index = shown(alloc, index.get())?;
            format!(in alloc; "{base}[{index}*{cells}].{}{mark}", place.field)
        }
        None => format!(in alloc; "{base}.{}{mark}", place.field),
    }
}

/// An expression in prefix form; a load as the type that it is loaded at.
#[cycle(typed)]
pub fn shown(alloc: Global, exp: &Exp) -> Result<String, AllocError> {
    match exp {
        Exp::Num(number) => format!(in alloc; "{number}"),
        Exp::Null => format!(in alloc; "NULL"),
        Exp::Local(var) => format!(in alloc; "L{}", var.0),
        Exp::Global(global) => format!(in alloc; "G{}", global.0),
        Exp::Load(place, kind) => {
            let place = place_shown(alloc, place)?;
            format!(in alloc; "{kind:?}({place})")
        }
        Exp::AddressOf(place) => {
            let place = place_shown(alloc, place)?;
            format!(in alloc; "Address({place})")
        }
        Exp::Negate(a) => {
            let a = shown(alloc, a.get())?;
            format!(in alloc; "Negate({a})")
        }
        Exp::Not(a) => {
            let a = shown(alloc, a.get())?;
            format!(in alloc; "Not({a})")
        }
        Exp::Binary(operator, a, b) => {
            let a = shown(alloc, a.get())?;
            let b = shown(alloc, b.get())?;
            format!(in alloc; "{operator:?}({a}, {b})")
        }
        Exp::And(a, b) => {
            let a = shown(alloc, a.get())?;
            let b = shown(alloc, b.get())?;
            format!(in alloc; "And({a}, {b})")
        }
        Exp::Or(a, b) => {
            let a = shown(alloc, a.get())?;
            let b = shown(alloc, b.get())?;
            format!(in alloc; "Or({a}, {b})")
        }
    }
}
