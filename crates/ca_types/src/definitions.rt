//! The functions that a program defines, and `main` (C11 5.1.2.2.1).

ghost use Rattle.std.specs.List.{list_any};
ghost use Rattle.std.specs.Option.{option_map};
ghost use Rattle.std.specs.Prelude.{◌≡◌, ◌<◌, ◌^◌, List, [], ◌∷◌, map, length, IfOk};
ghost use Rattle.ca_tree.specs.declared.tree.Top.{Top};
ghost use Rattle.ca_model.specs.typing.Programs as programs;
ghost use Rattle.ca_types.specs.Defined.{with_first};

use ca_bodies::Functions;
use ca_tree::NoMemory;
use ca_tree::tree::{Base, Function, ResultType, Top};
use std::alloc::Global;

fn is_int(of: &Base) -> bool
    ensures { result ≡ programs.is_int_base of.now }
{
    match of {
        Base::Int => true,
        Base::Struct(_) => false,
    }
}

fn has_int(of: &ResultType) -> bool
    ensures { result ≡ programs.has_int of.now }
{
    match of {
        ResultType::Value(of) => is_int(&of.base) && of.stars == 0,
        ResultType::Void | ResultType::Pointer => false,
    }
}

fn is_main(of: &Function) -> bool
    ensures { result ≡ programs.is_main of.now }
{
    of.name.text.as_slice() == b"main".as_slice()
        && (has_int(&of.result) && of.parameters.as_slice().is_empty())
}

// The function that a declaration defines.
fn definition(top: &Top) -> Option<&Function>
    ensures { (more : List Top) → programs.definitions (top.now ∷ more) ≡ with_first (option_map (λ f. f.now) result) (programs.definitions more) }
{
    let Top::Function(of) = top else {
        return None;
    };
    if of.body.is_some() {
        return Some(of);
    }
    None
}

/// Whether the declarations define a `main` as C has it, without parameters.
pub(crate) fn defines_main(tops: &[Top]) -> bool
    ensures { result ≡ list_any programs.is_main (programs.definitions tops.now) }
{
    for top in tops {
        if let Some(of) = definition(top) {
            if is_main(of) {
                return true;
            }
        }
    }
    false
}

/// The names of what the declarations define; no function is declared yet.
pub(crate) fn definitions<'a>(alloc: Global, tops: &'a [Top]) -> Result<Functions<'a>, NoMemory>
    requires { length (programs.definitions tops.now) < 2 ^ 32 }
    ensures functions { IfOk result (λ f. f.functions ≡ []) }
    ensures defined { IfOk result (λ f. f.defined ≡ map (λ f. f.name.text) (programs.definitions tops.now)) }
{
    let mut functions = Functions::new(alloc);
    for top in tops {
        if let Some(of) = definition(top) {
            functions = functions.define(of.name.text.as_slice())?;
        }
    }
    Ok(functions)
}
