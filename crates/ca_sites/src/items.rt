//! The sites in the text of an item: of its expressions and of simple statements.

ghost use Rattle.std.specs.Prelude.{◌≡◌, ◌++◌, ◌∷◌, [], IfOk};
ghost use Rattle.ca_sites.specs.TextSites.{sought, accessed, value_places, values_places, if_written, right_places, right_if_written, sites_at, loads, stores, word_site, library_sites, simple_sites};

use crate::site::SiteKind;
use ca_tree::tree::{Exp, ItemAt, Library, Right, Simple, UnaryOp};
use ca_tree::{ItemId, NoMemory, Pos};

/// A site in the text: its item, its kind and its place.
#[derive(Clone, Copy, Debug, PartialEq, Eq)]
pub struct TextSite {
    pub item: ItemId,
    pub kind: SiteKind,
    pub pos: Pos,
}

// The place of the first character of an expression.
fn first_character(e: &Exp) -> Pos
    ensures { result ≡ (sought e.now).pos }
{
    match e {
        Exp::Number(pos, _) | Exp::Null(pos) => *pos,
        Exp::Name(name) => name.pos,
        Exp::Unary(pos, _, _) | Exp::Binary(pos, _, _, _) | Exp::Index(pos, _, _) => *pos,
        Exp::Field(pos, _, _) | Exp::Arrow(pos, _, _) => *pos,
    }
}

// Whether an expression is a place that is found through a pointer or an index.
fn is_through(e: &Exp) -> bool
    ensures { result ≡ (sought e.now).through }
{
    match e {
        Exp::Unary(_, UnaryOp::Deref, _) | Exp::Index(_, _, _) | Exp::Arrow(_, _, _) => true,
        Exp::Field(_, a, _) => is_through(a.get()),
        _ => false,
    }
}

// One site more.
fn add(sites: &mut Vec<TextSite>, item: ItemId, kind: SiteKind, pos: Pos) -> Result<(), NoMemory>
    ensures { IfOk result (λ u. sites.new.items ≡ sites.old.items ++ record { item = item; kind = kind; pos = pos } ∷ []) }
{
    sites.push(TextSite { item, kind, pos })?;
    Ok(())
}

// An access of a kind to an expression.
fn access(e: &Exp, item: ItemId, kind: SiteKind, sites: &mut Vec<TextSite>) -> Result<(), NoMemory>
    ensures { IfOk result (λ u. sites.new.items ≡ sites.old.items ++ sites_at item kind (accessed (sought e.now))) }
{
    if is_through(e) {
        return add(sites, item, kind, first_character(e));
    }
    Ok(())
}

fn load(e: &Exp, item: ItemId, sites: &mut Vec<TextSite>) -> Result<(), NoMemory>
    ensures { IfOk result (λ u. sites.new.items ≡ sites.old.items ++ loads item (accessed (sought e.now))) }
{
    access(e, item, SiteKind::Load, sites)
}

fn store(e: &Exp, item: ItemId, sites: &mut Vec<TextSite>) -> Result<(), NoMemory>
    ensures { IfOk result (λ u. sites.new.items ≡ sites.old.items ++ stores item (accessed (sought e.now))) }
{
    access(e, item, SiteKind::Store, sites)
}

// What is loaded to find an expression, or to get its value where it is no place.
fn within(e: &Exp, item: ItemId, sites: &mut Vec<TextSite>) -> Result<(), NoMemory>
    ensures { IfOk result (λ u. sites.new.items ≡ sites.old.items ++ loads item (sought e.now).within) }
{
    match e {
        Exp::Number(_, _) | Exp::Null(_) | Exp::Name(_) => Ok(()),
        Exp::Unary(_, UnaryOp::AddressOf, a) | Exp::Field(_, a, _) => {
            within(a.get(), item, sites)?;
            Ok(())
        }
        Exp::Unary(_, _, a) | Exp::Arrow(_, a, _) => {
            within(a.get(), item, sites)?;
            load(a.get(), item, sites)?;
            Ok(())
        }
        Exp::Binary(_, _, a, b) | Exp::Index(_, a, b) => {
            within(a.get(), item, sites)?;
            load(a.get(), item, sites)?;
            within(b.get(), item, sites)?;
            load(b.get(), item, sites)?;
            Ok(())
        }
    }
}

/// The value of an expression.
pub(crate) fn value(e: &Exp, item: ItemId, sites: &mut Vec<TextSite>) -> Result<(), NoMemory>
    ensures { IfOk result (λ u. sites.new.items ≡ sites.old.items ++ loads item (value_places e.now)) }
{
    within(e, item, sites)?;
    load(e, item, sites)
}

fn values(es: &[Exp], item: ItemId, sites: &mut Vec<TextSite>) -> Result<(), NoMemory>
    ensures { IfOk result (λ u. sites.new.items ≡ sites.old.items ++ loads item (values_places es.now)) }
{
    'each: for e in es {
        value(e, item, sites)?;
    }
    Ok(())
}

/// An expression that may be absent.
pub(crate) fn value_if_written(
    e: &Option<Exp>,
    item: ItemId,
    sites: &mut Vec<TextSite>,
) -> Result<(), NoMemory>
    ensures { IfOk result (λ u. sites.new.items ≡ sites.old.items ++ loads item (if_written e.now)) }
{
    match e {
        None => Ok(()),
        Some(e) => value(e, item, sites),
    }
}

fn right(r: &Right, item: ItemId, sites: &mut Vec<TextSite>) -> Result<(), NoMemory>
    ensures { IfOk result (λ u. sites.new.items ≡ sites.old.items ++ loads item (right_places r.now)) }
{
    match r {
        Right::Value(e) => value(e, item, sites),
        Right::Call(call) => values(call.arguments.as_slice(), item, sites),
        Right::Malloc(malloc) => value_if_written(&malloc.count, item, sites),
    }
}

/// The right side of a declaration, if it has one.
pub(crate) fn right_if_written(
    r: &Option<Right>,
    item: ItemId,
    sites: &mut Vec<TextSite>,
) -> Result<(), NoMemory>
    ensures { IfOk result (λ u. sites.new.items ≡ sites.old.items ++ loads item (right_if_written r.now)) }
{
    match r {
        None => Ok(()),
        Some(r) => right(r, item, sites),
    }
}

// A site at the word of a call of the library, with which its item begins.
fn word(item: ItemAt, kind: SiteKind, sites: &mut Vec<TextSite>) -> Result<(), NoMemory>
    ensures { IfOk result (λ u. sites.new.items ≡ sites.old.items ++ word_site item kind) }
{
    add(sites, item.id, kind, item.pos)
}

// A call of the library.
fn library(call: &Library, item: ItemAt, sites: &mut Vec<TextSite>) -> Result<(), NoMemory>
    ensures { IfOk result (λ u. sites.new.items ≡ sites.old.items ++ library_sites item call.now) }
{
    match call {
        Library::Lock(_) => word(item, SiteKind::Lock, sites),
        Library::Unlock(_) => Ok(()),
        Library::Create(_, _, e) | Library::Join(e) => value(e, item.id, sites),
        Library::Free(e) => {
            value(e, item.id, sites)?;
            word(item, SiteKind::Free, sites)
        }
        Library::Assert(e) => {
            value(e, item.id, sites)?;
            word(item, SiteKind::Assert, sites)
        }
        Library::Print(_, _, es) => values(es.as_slice(), item.id, sites),
    }
}

fn set(a: &Exp, r: &Right, item: ItemId, sites: &mut Vec<TextSite>) -> Result<(), NoMemory>
    ensures { IfOk result (λ u. sites.new.items ≡ sites.old.items ++ (loads item (sought a.now).within ++ (loads item (right_places r.now) ++ stores item (accessed (sought a.now))))) }
{
    within(a, item, sites)?;
    right(r, item, sites)?;
    store(a, item, sites)
}

fn update(a: &Exp, b: &Exp, item: ItemId, sites: &mut Vec<TextSite>) -> Result<(), NoMemory>
    ensures { IfOk result (λ u. sites.new.items ≡ sites.old.items ++ (loads item (sought a.now).within ++ (loads item (accessed (sought a.now)) ++ (loads item (value_places b.now) ++ stores item (accessed (sought a.now)))))) }
{
    within(a, item, sites)?;
    load(a, item, sites)?;
    value(b, item, sites)?;
    store(a, item, sites)
}

/// A simple statement, which is an item.
pub(crate) fn simple(of: &Simple, item: ItemAt, sites: &mut Vec<TextSite>) -> Result<(), NoMemory>
    ensures { IfOk result (λ u. sites.new.items ≡ sites.old.items ++ simple_sites item of.now) }
{
    match of {
        Simple::Set(a, r) => set(a, r, item.id, sites),
        Simple::Update(a, _, b) => update(a, b, item.id, sites),
        Simple::Call(call) => values(call.arguments.as_slice(), item.id, sites),
        Simple::Library(call) => library(call, item, sites),
    }
}
