//! Which function is `main` (C11 5.1.2.2.1).

ghost use Rattle.std.specs.Prelude.{◌≡◌, ◌<◌, ◌∷◌, List, option_map};
ghost use Rattle.ca_tree.specs.declared.tree.Top.{Top as Declaration};
ghost use Rattle.ca_flow.specs.Definitions.{with_first};
ghost use Rattle.ca_model.specs.typing.Programs as programs;
ghost use Rattle.ca_model.specs.typing.Typing.{main_number};

use ca_tree::FunId;
use ca_tree::tree::{Base, Function, Program, ResultType, Top};

fn is_int(of: &Base) -> bool
    ensures { result ≡ programs.is_int_base of.now }
{
    match of {
        Base::Int => true,
        Base::Struct(_) => false,
    }
}

fn has_int(of: &ResultType) -> bool
    ensures { result ≡ programs.has_int of.now }
{
    match of {
        ResultType::Value(of) => is_int(&of.base) && of.stars == 0,
        ResultType::Void | ResultType::Pointer => false,
    }
}

fn is_main(of: &Function) -> bool
    ensures { result ≡ programs.is_main of.now }
{
    of.name.text.as_slice() == b"main".as_slice()
        && (has_int(&of.result) && of.parameters.as_slice().is_empty())
}

// The function that a declaration defines.
fn definition(top: &Top) -> Option<&Function>
    ensures { (more : List Declaration) → programs.definitions (top.now ∷ more) ≡ with_first (option_map (λ f. f.now) result) (programs.definitions more) }
{
    let Top::Function(of) = top else {
        return None;
    };
    if of.body.is_some() {
        return Some(of);
    }
    None
}

/// The number of `main`: the definitions before it are counted.
pub(crate) fn main_of(program: &Program) -> FunId
    requires { (main_number 0 (programs.definitions program.now.tops)).0 < 4294967296 }
    ensures { result ≡ main_number 0 (programs.definitions program.now.tops) }
{
    let mut number = 0usize;
    'tops: for top in program.tops.as_slice() {
        if let Some(of) = definition(top) {
            if is_main(of) {
                return FunId(number as u32);
            }
            number += 1;
        }
    }
    FunId(0)
}
