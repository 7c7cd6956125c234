//! The sites in the text of a program.

ghost use Rattle.std.specs.Prelude.{◌≡◌, ◌++◌, IfOk};
ghost use Rattle.ca_sites.specs.TextSites.{first_sites, step_sites, head_sites, declarator_sites, declarators_sites, locals_sites, stmt_sites, stmts_sites, body_sites, top_sites, text_sites};

use crate::items::{TextSite, right_if_written, simple, value, value_if_written};
use ca_tree::NoMemory;
use ca_tree::tree::{
    Body, ForFirst, ForHead, ItemAt, LocalDeclarator, Locals, Program, Simple, Stmt, Top,
};
use std::alloc::Global;

fn declarator(d: &LocalDeclarator, sites: &mut Vec<TextSite>) -> Result<(), NoMemory>
    ensures { IfOk result (λ u. sites.new.items ≡ sites.old.items ++ declarator_sites d.now) }
{
    right_if_written(&d.value, d.item.id, sites)
}

fn declarators(ds: &[LocalDeclarator], sites: &mut Vec<TextSite>) -> Result<(), NoMemory>
    ensures { IfOk result (λ u. sites.new.items ≡ sites.old.items ++ declarators_sites ds.now) }
{
    'each: for d in ds {
        declarator(d, sites)?;
    }
    Ok(())
}

fn locals(of: &Locals, sites: &mut Vec<TextSite>) -> Result<(), NoMemory>
    ensures { IfOk result (λ u. sites.new.items ≡ sites.old.items ++ locals_sites of.now) }
{
    match of {
        Locals::Threads(_) => Ok(()),
        Locals::Variables(_, ds) => declarators(ds.as_slice(), sites),
    }
}

fn first(of: &Option<ForFirst>, sites: &mut Vec<TextSite>) -> Result<(), NoMemory>
    ensures { IfOk result (λ u. sites.new.items ≡ sites.old.items ++ first_sites of.now) }
{
    match of {
        None => Ok(()),
        Some(ForFirst::Simple(item, a)) => simple(a, *item, sites),
        Some(ForFirst::Local(_, d)) => declarator(d, sites),
    }
}

fn step(of: &Option<(ItemAt, Simple)>, sites: &mut Vec<TextSite>) -> Result<(), NoMemory>
    ensures { IfOk result (λ u. sites.new.items ≡ sites.old.items ++ step_sites of.now) }
{
    match of {
        None => Ok(()),
        Some((item, a)) => simple(a, *item, sites),
    }
}

fn head(of: &ForHead, sites: &mut Vec<TextSite>) -> Result<(), NoMemory>
    ensures { IfOk result (λ u. sites.new.items ≡ sites.old.items ++ head_sites of.now) }
{
    first(&of.first, sites)?;
    value_if_written(&of.condition, of.item.id, sites)?;
    step(&of.step, sites)
}

#[cycle(statement)]
fn statement(stmt: &Stmt, sites: &mut Vec<TextSite>) -> Result<(), NoMemory>
    ensures { IfOk result (λ u. sites.new.items ≡ sites.old.items ++ stmt_sites stmt.now) }
{
    match stmt {
        Stmt::Block(stmts) => {
            statements(stmts.as_slice(), sites)?;
            Ok(())
        }
        Stmt::Locals(of) => {
            locals(of, sites)?;
            Ok(())
        }
        Stmt::Empty | Stmt::Break(_) | Stmt::Continue(_) => Ok(()),
        Stmt::Simple(item, of) => {
            simple(of, *item, sites)?;
            Ok(())
        }
        Stmt::Return(item, e) => {
            value_if_written(e, item.id, sites)?;
            Ok(())
        }
        Stmt::If(item, e, yes, no) => {
            value(e, item.id, sites)?;
            statement(yes.get(), sites)?;
            match no {
                Some(no) => {
                    statement(no.get(), sites)?;
                    Ok(())
                }
                None => Ok(()),
            }
        }
        Stmt::While(item, e, body) => {
            value(e, item.id, sites)?;
            statement(body.get(), sites)?;
            Ok(())
        }
        Stmt::Do(body, item, e) => {
            statement(body.get(), sites)?;
            value(e, item.id, sites)?;
            Ok(())
        }
        Stmt::For(of, body) => {
            head(of, sites)?;
            statement(body.get(), sites)?;
            Ok(())
        }
    }
}

#[cycle(statement)]
fn statements(stmts: &[Stmt], sites: &mut Vec<TextSite>) -> Result<(), NoMemory>
    ensures { IfOk result (λ u. sites.new.items ≡ sites.old.items ++ stmts_sites stmts.now) }
{
    for stmt in stmts {
        statement(stmt, sites)?;
    }
    Ok(())
}

fn body(of: &Option<Body>, sites: &mut Vec<TextSite>) -> Result<(), NoMemory>
    ensures { IfOk result (λ u. sites.new.items ≡ sites.old.items ++ body_sites of.now) }
{
    match of {
        None => Ok(()),
        Some(of) => statements(of.statements.as_slice(), sites),
    }
}

fn top(of: &Top, sites: &mut Vec<TextSite>) -> Result<(), NoMemory>
    ensures { IfOk result (λ u. sites.new.items ≡ sites.old.items ++ top_sites of.now) }
{
    match of {
        Top::Function(f) => body(&f.body, sites),
        Top::Struct(_) | Top::Globals(_) => Ok(()),
    }
}

/// The sites in the text of a program, in order of item and evaluation.
pub(crate) fn sites_in(alloc: Global, program: &Program) -> Result<Vec<TextSite>, NoMemory>
    ensures { IfOk result (λ ss. ss.items ≡ text_sites program.now) }
{
    let mut sites = Vec::new(alloc);
    'tops: for of in program.tops.as_slice() {
        top(of, &mut sites)?;
    }
    Ok(sites)
}
