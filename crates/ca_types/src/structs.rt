//! Definitions of structs (C11 6.7.2.1).

ghost use Rattle.std.specs.Prelude.{◌≡◌, ◌<◌, ◌≤◌, ◌++◌, ◌||◌, not, [], map, length, IfOk, OnOk};
ghost use Rattle.std.specs.List.{list_any};
ghost use Rattle.std.specs.Str.{bytes_eq};
ghost use Rattle.ca_model.specs.typing.Structs as structs;
ghost use Rattle.ca_operands.specs.Noted.{noted};
ghost use Rattle.ca_operands.specs.Shown.{shown_field};
ghost use Rattle.ca_tree.specs.Names.{is_library_word};
ghost use Rattle.ca_tree.specs.ProgramTrees.{field_count};

use ca_expressions::reserved::is_library_word;
use ca_model::TypeKind;
use ca_operands::{Faults, FieldOf, Scope, note_type, written_type};
use ca_tree::NoMemory;
use ca_tree::tree::{Fields, Name, Struct};
use std::alloc::Global;

fn note_bases<'a>(scope: &Scope<'a>, groups: &'a [Fields], faults: &mut Faults)
    ensures { faults.new.first ≡ noted faults.old.first (structs.base_faults scope.now groups.now) }
{
    for group in groups {
        note_type(scope, &group.base, faults);
    }
}

fn push_fields<'a>(
    scope: &Scope<'a>,
    group: &'a Fields,
    fields: &mut Vec<FieldOf<'a>>,
) -> Result<(), NoMemory>
    ensures { OnOk result (map shown_field fields.new.items ≡ map shown_field fields.old.items ++ map (structs.field scope.now group.now.base) group.now.declarators) }
{
    for declarator in group.declarators.as_slice() {
        fields.push(FieldOf {
            name: declarator.name.text.as_slice(),
            of: written_type(scope, &group.base, declarator.stars),
        })?;
    }
    Ok(())
}

// The fields of a struct, with their types.
fn fields_of<'a>(
    alloc: Global,
    scope: &Scope<'a>,
    groups: &'a [Fields],
) -> Result<Vec<FieldOf<'a>>, NoMemory>
    ensures { IfOk result (λ fs. map shown_field fs.items ≡ structs.fields scope.now groups.now) }
{
    let mut fields = Vec::new(alloc);
    for group in groups {
        push_fields(scope, group, &mut fields)?;
    }
    Ok(fields)
}

fn push_names<'a>(group: &'a Fields, names: &mut Vec<&'a Name>) -> Result<(), NoMemory>
    ensures { OnOk result (map (λ n. n.now) names.new.items ≡ map (λ n. n.now) names.old.items ++ map (λ d. d.name) group.now.declarators) }
{
    for declarator in group.declarators.as_slice() {
        names.push(&declarator.name)?;
    }
    Ok(())
}

fn names_of<'a>(alloc: Global, groups: &'a [Fields]) -> Result<Vec<&'a Name>, NoMemory>
    ensures { IfOk result (λ ns. map (λ n. n.now) ns.items ≡ structs.names_of groups.now) }
{
    let mut names = Vec::new(alloc);
    for group in groups {
        push_names(group, &mut names)?;
    }
    Ok(names)
}

fn is_among(text: &[u8], names: &[&Name]) -> bool
    ensures { result ≡ list_any (λ n. bytes_eq text.now n.now.text) names.now }
{
    for name in names {
        if text == name.text.as_slice() {
            return true;
        }
    }
    false
}

// Whether a name is taken by earlier ones, or calls the library.
fn is_taken(text: &[u8], names: &[&Name]) -> bool
    ensures { result ≡ (is_library_word text.now || list_any (λ n. bytes_eq text.now n.now.text) names.now) }
{
    is_library_word(text) || is_among(text, names)
}

// Whether a tag isn't taken, and calls no function of the library.
fn is_free<'a>(scope: &Scope<'a>, tag: &'a [u8]) -> bool
    ensures { result ≡ not (is_library_word tag.now || structs.is_tag scope.now tag.now) }
{
    !(is_library_word(tag) || scope.struct_id(tag).is_some())
}

// Notes each name that stands twice, or calls the library.
fn note_twice(names: &[&Name], faults: &mut Faults)
    ensures { faults.new.first ≡ noted faults.old.first (structs.twice_among [] (map (λ n. n.now) names.now)) }
{
    for (index, name) in names.iter().enumerate() {
        let is_taken = is_taken(name.text.as_slice(), &names[..index]);
        faults.unless(!is_taken, name.pos, TypeKind::Twice);
    }
}

fn note_field_names(alloc: Global, groups: &[Fields], faults: &mut Faults) -> Result<(), NoMemory>
    ensures { OnOk result (faults.new.first ≡ noted faults.old.first (structs.twice_among [] (structs.names_of groups.now))) }
{
    let names = names_of(alloc, groups)?;
    note_twice(names.as_slice(), faults);
    Ok(())
}

/// The definition of a struct; its faults are noted. It is one of at most 64, with at most 64 fields.
pub fn struct_definition<'a>(
    alloc: Global,
    scope: &mut Scope<'a>,
    of: &'a Struct,
    faults: &mut Faults,
) -> Result<(), NoMemory>
    requires structs { length scope.old.structs < 64 }
    requires fields { field_count of.now.fields ≤ 64 }
    ensures is { OnOk result (scope.new ≡ structs.with_tag scope.old of.now.name.text (structs.fields (structs.with_tag scope.old of.now.name.text []) of.now.fields)) }
    ensures noted { OnOk result (faults.new.first ≡ noted faults.old.first (structs.struct_faults scope.old of.now)) }
{
    let tag = of.name.text.as_slice();
    let groups = of.fields.as_slice();
    let was_declared = scope.struct_id(tag).is_some();
    faults.unless(is_free(scope, tag), of.name.pos, TypeKind::Twice);
    scope.declare_struct(alloc, tag)?;
    note_bases(scope, groups, faults);
    note_field_names(alloc, groups, faults)?;
    if !was_declared {
        let fields = fields_of(alloc, scope, groups)?;
        scope.complete_struct(tag, fields)?;
    }
    Ok(())
}
