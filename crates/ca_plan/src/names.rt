//! The names of the functions that a program defines.

ghost use Rattle.std.specs.Prelude.{◌≡◌, ◌++◌, ◌∷◌, List, map, IfOk};
ghost use Rattle.ca_tree.specs.declared.tree.Top.{Top as Declaration};
ghost use Rattle.ca_tree.specs.declared.tree.Top.TheVariants as tops;
ghost use Rattle.ca_model.specs.typing.Programs.{definitions};
ghost use Rattle.ca_plan.specs.SiteTables.{names};

use ca_tree::tree::{Function, Program, Top};
use ca_tree::{Listed, NoMemory, Text};
use std::alloc::Global;

// Adds the name of a function that has a body.
fn add_name(alloc: Global, names: &mut Vec<Text>, of: &Function) -> Result<(), NoMemory>
    ensures { IfOk result (λ u. (more : List Declaration) → names.new.items ++ map (λ f. f.name.text) (definitions more) ≡ names.old.items ++ map (λ f. f.name.text) (definitions (tops.Function of.now ∷ more))) }
{
    if of.body.is_some() {
        let name = Vec::from_slice(alloc, of.name.text.as_slice())?;
        names.push(Listed::from_vec(name))?;
    }
    Ok(())
}

// Adds the name of the function that a declaration defines, if it does.
fn add_top(alloc: Global, names: &mut Vec<Text>, top: &Top) -> Result<(), NoMemory>
    ensures { IfOk result (λ u. (more : List Declaration) → names.new.items ++ map (λ f. f.name.text) (definitions more) ≡ names.old.items ++ map (λ f. f.name.text) (definitions (top.now ∷ more))) }
{
    match top {
        Top::Function(of) => add_name(alloc, names, of),
        Top::Struct(_) | Top::Globals(_) => Ok(()),
    }
}

/// The names of the functions that a program defines, in order.
pub(crate) fn names_of(alloc: Global, program: &Program) -> Result<Vec<Text>, NoMemory>
    ensures { IfOk result (λ ns. ns.items ≡ names program.now) }
{
    let mut names = Vec::new(alloc);
    'tops: for top in program.tops.as_slice() {
        add_top(alloc, &mut names, top)?;
    }
    Ok(names)
}
