//! The functions of a program.

ghost use Rattle.std.specs.Prelude.{◌≡◌, ◌<◌, ◌^◌, ◌++◌, [], ◌∷◌, Some, length, IfOk, OnOk};
ghost use Rattle.ca_bodies.specs.Functions.{context};
ghost use Rattle.ca_bodies.specs.Shown.{shown_called};
ghost use Rattle.ca_model.specs.typing.Calls.{signature_of};
ghost use Rattle.ca_model.specs.typing.Scopes as scopes;
ghost use Rattle.ca_model.specs.typing.Signatures.{function_of, is_defined, declared_first, declared_too, changed_at};
ghost use Rattle.ca_bodies.specs.Shown.{shown_function, shown_signature};
ghost use Rattle.std.specs.Option.{option_map};

use ca_model::{Meaning, ObjectType};
use ca_tree::{FunId, Listed, NoMemory};
use indexmap::IndexMap;
use std::alloc::Global;
use std::marker::Model;

/// A function by its types: what it gives, and what its parameters take. A type that was refused is none.
#[derive(Drop)]
pub struct Signature {
    pub result: Option<ObjectType>,
    pub parameters: Listed<Option<ObjectType>>,
}

/// A function by its declarations so far. The first decides on calls.
#[derive(Drop)]
pub struct FunctionEntry {
    pub first: Signature,
    pub definition: Option<Signature>,
    pub prototypes: Vec<Signature>,
}

/// The functions that are declared so far, in order, and the names of those that the whole program defines, in order.
#[derive(Drop)]
pub struct Functions<'a> {
    declared: Vec<FunctionEntry>,
    defined: Vec<&'a [u8]>,
    numbers: IndexMap<&'a [u8], FunId>,
}

impl<'a> Model for Functions<'a> {
    ghost use Rattle.ca_bodies.specs.Functions as functions;
    ghost use Rattle.ca_bodies.specs.Shown.{shown_functions, IsNumbering};

    ghost Value = { functions.Functions };

    ghost view = { λ f. shown_functions f.declared.items f.defined.items };

    ghost invariant = { λ f. IsNumbering f.numbers.entries f.defined.items };
}

impl<'a> Functions<'a> {
    /// No function is declared or defined.
    pub fn new(alloc: Global) -> Functions<'a>
        ensures functions { result.functions ≡ [] }
        ensures defined { result.defined ≡ [] }
    {
        Functions {
            declared: Vec::new(alloc),
            defined: Vec::new(alloc),
            numbers: IndexMap::new(alloc),
        }
    }

    /// The number of the first definition of a name; 0 where there is none.
    pub fn function_id(&self, name: &'a [u8]) -> FunId
        ensures { (s : scopes.Scope) → result ≡ scopes.function_id (context s self.now) name.now }
    {
        match self.numbers.get(&name) {
            Some(id) => *id,
            None => FunId(0),
        }
    }

    /// The types of a function that a name means, by its first declaration.
    pub fn signature(&self, means: Meaning) -> Option<&Signature>
        ensures { (s : scopes.Scope) → shown_called result ≡ signature_of (context s self.now) (Some means) }
    {
        match means {
            Meaning::Function(index) => {
                let entry = self.declared.get(index)?;
                Some(&entry.first)
            }
            _ => None,
        }
    }

    /// A function that a name means, by its declarations so far.
    pub fn entry(&self, means: Meaning) -> Option<&FunctionEntry>
        ensures { (s : scopes.Scope) → option_map (λ f. shown_function f.now) result ≡ function_of (context s self.now) means }
    {
        match means {
            Meaning::Function(index) => self.declared.get(index),
            _ => None,
        }
    }

    /// How many functions are declared.
    pub fn count(&self) -> usize
        ensures { result ≡ length self.now.functions }
    {
        self.declared.len()
    }

    /// Whether the program defines a function of a name.
    pub fn is_defined(&self, name: &'a [u8]) -> bool
        ensures { (s : scopes.Scope) → result ≡ is_defined (context s self.now) name.now }
    {
        self.numbers.contains_key(&name)
    }

    /// The functions, with one more that the program defines under a name.
    pub fn define(self, name: &'a [u8]) -> Result<Functions<'a>, NoMemory>
        requires { length self.defined < 2 ^ 32 }
        ensures { IfOk result (λ f. f ≡ record self.entry { defined = self.entry.defined ++ name.now ∷ [] }) }
    {
        let Functions {
            declared,
            mut defined,
            mut numbers,
        } = self;
        let id = FunId(defined.len() as u32);
        if !numbers.contains_key(&name) {
            numbers.insert(name, id)?;
        }
        defined.push(name)?;
        Ok(Functions {
            declared,
            defined,
            numbers,
        })
    }

    /// A function by its first declaration.
    pub fn add(&mut self, alloc: Global, is_definition: bool, of: Signature) -> Result<(), NoMemory>
        ensures { OnOk result (self.new ≡ record self.old { functions = self.old.functions ++ declared_first is_definition (shown_signature of) ∷ [] }) }
    {
        let entry = first_entry(alloc, is_definition, of)?;
        self.declared.push(entry)?;
        Ok(())
    }

    /// A declared function by one more declaration.
    pub fn declare_too(
        &mut self,
        index: usize,
        is_definition: bool,
        of: Signature,
    ) -> Result<(), NoMemory>
        ensures { OnOk result (self.new ≡ record self.old { functions = changed_at index (declared_too is_definition (shown_signature of)) self.old.functions }) }
    {
        let Some(entry) = self.declared.get_mut(index) else {
            return Ok(());
        };
        one_more(entry, is_definition, of)
    }
}

fn first_entry(alloc: Global, is_definition: bool, of: Signature) -> Result<FunctionEntry, NoMemory>
    ensures { IfOk result (λ f. shown_function f ≡ declared_first is_definition (shown_signature of)) }
{
    let first = copied(alloc, &of)?;
    if is_definition {
        return Ok(FunctionEntry {
            first,
            definition: Some(of),
            prototypes: Vec::new(alloc),
        });
    }
    Ok(FunctionEntry {
        first,
        definition: None,
        prototypes: vec![in alloc; of]?,
    })
}

fn one_more(entry: &mut FunctionEntry, is_definition: bool, of: Signature) -> Result<(), NoMemory>
    ensures { OnOk result (shown_function entry.new ≡ declared_too is_definition (shown_signature of) (shown_function entry.old)) }
{
    if is_definition {
        entry.definition = Some(of);
    } else {
        entry.prototypes.push(of)?;
    }
    Ok(())
}

fn copied(alloc: Global, of: &Signature) -> Result<Signature, NoMemory>
    ensures { IfOk result (λ g. shown_signature g ≡ shown_signature of.now) }
{
    let mut parameters = Vec::new(alloc);
    parameters.extend_from_slice(of.parameters.as_slice())?;
    Ok(Signature {
        result: of.result,
        parameters: Listed::from_vec(parameters),
    })
}
