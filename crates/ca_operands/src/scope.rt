//! What is visible at a place of a program.

ghost use Rattle.std.specs.List.{list_any};
ghost use Rattle.std.specs.Str.{bytes_eq};
ghost use Rattle.std.specs.Prelude.{◌≡◌, ◌<◌, ◌≤◌, ◌-◌, true, [], ◌∷◌, map, take, drop, length, MatchOption, OnOk, OnErr};
ghost use Rattle.ca_model.specs.typing.Types.{cells};
ghost use Rattle.ca_model.specs.typing.Scopes.{find, numbered, struct_numbered, meaning, fields_of, field_count, field_of};
ghost use Rattle.ca_model.specs.typing.Globals.{with_name};
ghost use Rattle.ca_model.specs.typing.Structs.{is_tag, with_tag};
ghost use Rattle.ca_operands.specs.Shown.{same_text, shown, shown_field, shown_local, Completes, IsSmall};
ghost use Rattle.indexmap.specs.IndexMap.{insert_entry};

use ca_model::{Kind, Meaning, ObjectType};
use ca_tree::{NoMemory, StructId};
use indexmap::IndexMap;
use std::alloc::Global;
use std::marker::Model;

/// A field of a struct; a type that was refused is none.
#[derive(Clone, Copy)]
pub struct FieldOf<'a> {
    pub name: &'a [u8],
    pub of: Option<ObjectType>,
}

/// A parameter or a local that is visible.
#[derive(Clone, Copy)]
pub struct LocalName<'a> {
    pub name: &'a [u8],
    pub means: Meaning,
}

/// What is visible: the structs by their tags and the names outside of functions, each in order of declaration, and the
/// parameters and locals, the latest last.
#[derive(Drop)]
pub struct Scope<'a> {
    structs: IndexMap<&'a [u8], Vec<FieldOf<'a>>>,
    globals: IndexMap<&'a [u8], Meaning>,
    locals: Vec<LocalName<'a>>,
}

impl<'a> Model for Scope<'a> {
    ghost use Rattle.ca_model.specs.typing.Scopes.{Scope};
    ghost use Rattle.ca_operands.specs.Shown.{shown, shown_field, IsSmall};

    ghost Value = { Scope };

    ghost view = { λ s. shown s.structs.entries s.globals.entries s.locals.items };

    ghost invariant = { λ s. IsSmall s.structs.entries };
}

impl<'a> Scope<'a> {
    /// Nothing is declared yet.
    pub fn new(alloc: Global) -> Scope<'a>
        ensures structs { result.structs ≡ [] }
        ensures globals { result.globals ≡ [] }
        ensures locals { result.locals ≡ [] }
    {
        Scope {
            structs: IndexMap::new(alloc),
            globals: IndexMap::new(alloc),
            locals: Vec::new(alloc),
        }
    }

    /// Declares a struct that has no fields yet, so that they can be pointers to it; a second definition changes nothing.
    pub fn declare_struct(&mut self, alloc: Global, tag: &'a [u8]) -> Result<(), NoMemory>
        requires { length self.old.structs < 64 }
        ensures ok { OnOk result (self.new ≡ with_tag self.old tag.now []) }
        ensures err { OnErr result (self.new ≡ self.old) }
    {
        if !self.structs.contains_key(&tag) {
            put(&mut self.structs, tag, Vec::new(alloc))?;
        }
        Ok(())
    }

    /// Gives a struct that was declared last its fields.
    pub fn complete_struct(
        &mut self,
        tag: &'a [u8],
        fields: Vec<FieldOf<'a>>,
    ) -> Result<(), NoMemory>
        requires declared { is_tag self.old tag.now ≡ true }
        requires few { length fields.items ≤ 64 }
        ensures { OnOk result (Completes self.old self.new tag.now (map shown_field fields.entry.items)) }
    {
        put(&mut self.structs, tag, fields)
    }

    /// Declares a name outside of functions; a second declaration changes nothing.
    pub fn declare_global(&mut self, name: &'a [u8], means: Meaning) -> Result<(), NoMemory>
        ensures ok { OnOk result (self.new ≡ with_name self.old name.now means) }
        ensures err { OnErr result (self.new ≡ self.old) }
    {
        if !self.globals.contains_key(&name) {
            self.globals.insert(name, means)?;
        }
        Ok(())
    }

    /// Makes a parameter or a local visible, which hides those of its name.
    pub fn push_local(&mut self, name: &'a [u8], means: Meaning) -> Result<(), NoMemory>
        ensures ok { OnOk result (self.new ≡ record self.old { locals = (name.now, means) ∷ self.old.locals }) }
        ensures err { OnErr result (self.new ≡ self.old) }
    {
        self.locals.push(LocalName { name, means })?;
        Ok(())
    }

    /// The struct of a tag.
    pub fn struct_id(&self, tag: &'a [u8]) -> Option<StructId>
        ensures { result ≡ struct_numbered 0 tag.now self.now.structs }
    {
        let index = self.structs.get_index_of(&tag)?;
        Some(StructId(index as u32))
    }

    fn local(&self, name: &[u8]) -> Option<Meaning>
        ensures { result ≡ find name.now self.now.locals }
    {
        let locals = self.locals.as_slice();
        let mut left = locals.len();
        while left > 0 {
            left -= 1;
            let local = locals[left];
            if name == local.name {
                return Some(local.means);
            }
        }
        None
    }

    /// How many locals are visible.
    pub fn local_count(&self) -> usize
        ensures { result ≡ length self.now.locals }
    {
        self.locals.len()
    }

    /// Whether a local has this name that is none of the earliest so many.
    pub fn has_local_behind(&self, count: usize, name: &[u8]) -> bool
        requires { count ≤ length self.now.locals }
        ensures { result ≡ list_any (λ x. bytes_eq name.now x.0) (take (length self.now.locals - count) self.now.locals) }
    {
        has_name(&self.locals[count..], name)
    }

    /// Only the earliest so many locals stay visible.
    pub fn keep_locals(&mut self, count: usize)
        ensures { self.new ≡ record self.old { locals = drop (length self.old.locals - count) self.old.locals } }
    {
        self.locals.truncate(count);
    }

    /// What a name means outside of functions.
    pub fn global(&self, name: &'a [u8]) -> Option<Meaning>
        ensures { result ≡ find name.now self.now.globals }
    {
        self.globals.get(&name).copied()
    }

    /// What a name means here.
    pub fn meaning(&self, name: &'a [u8]) -> Option<Meaning>
        ensures { result ≡ meaning self.now name.now }
    {
        match self.local(name) {
            Some(means) => Some(means),
            None => self.global(name),
        }
    }

    fn fields(&self, of: StructId) -> Option<&[FieldOf<'a>]>
        ensures { MatchOption result (fields_of self.now of ≡ []) (λ f. (map shown_field f.now ≡ fields_of self.now of) × (length f.now ≤ 64)) }
    {
        let (_, fields) = self.structs.get_index(of.0 as usize)?;
        Some(fields.as_slice())
    }

    /// How many cells an object has: a struct one for each field, of which it has at most 64.
    pub fn cells(&self, of: ObjectType) -> u32
        ensures is { result ≡ cells (field_count self.now) of }
        ensures most { result ≤ 64 }
    {
        match of.kind {
            Kind::Struct(id) if of.stars == 0 => match self.fields(id) {
                Some(fields) => fields.len() as u32,
                None => 0,
            },
            _ => 1,
        }
    }

    /// The number of a field of a struct, and its type.
    pub fn field(&self, of: StructId, name: &[u8]) -> Option<(u32, Option<ObjectType>)>
        ensures { result ≡ field_of self.now of name.now }
    {
        numbered(self.fields(of)?, name)
    }
}

// The fields of a tag, in place of those that it had.
fn put<'a>(
    structs: &mut IndexMap<&'a [u8], Vec<FieldOf<'a>>>,
    tag: &'a [u8],
    fields: Vec<FieldOf<'a>>,
) -> Result<(), NoMemory>
    ensures entries { OnOk result (structs.new.entries ≡ insert_entry same_text structs.old.entries tag.entry fields.entry) }
    ensures err { OnErr result (structs.new.entries ≡ structs.old.entries) }
{
    structs.insert(tag, fields)?;
    Ok(())
}

fn has_name(locals: &[LocalName<'_>], name: &[u8]) -> bool
    ensures { result ≡ list_any (λ l. bytes_eq name.now (shown_local l).0) locals.now }
{
    for local in locals {
        if name == local.name {
            return true;
        }
    }
    false
}

fn numbered(fields: &[FieldOf<'_>], name: &[u8]) -> Option<(u32, Option<ObjectType>)>
    requires { length fields.now ≤ 64 }
    ensures { result ≡ numbered 0 name.now (map shown_field fields.now) }
{
    let mut index = 0;
    for field in fields {
        if name == field.name {
            return Some((index, field.of));
        }
        index += 1;
    }
    None
}
