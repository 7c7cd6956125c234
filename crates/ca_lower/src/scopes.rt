//! What is lowered.

ghost use Rattle.std.specs.Prelude.{◌≡◌, ◌≤◌, ◌+◌, ◌<◌, true, Contains};
ghost use Rattle.ca_model.specs.Sites.{act_sites, items_of};
ghost use Rattle.ca_model.specs.WellFormed.{IsWellFormed};
ghost use Rattle.ca_model.specs.Bounds.{IsBounded};
ghost use Rattle.ca_lower.specs.Scopes.{IsInFunction, IsInItem};
ghost use Rattle.ca_lower.specs.Acts.{fits_act, behind_of};
ghost use Rattle.ca_lower.specs.Building.{code_at, code_in, IsSiteMark, around};

use ca_flow::AtSite;
use ca_model::{Act, Function, Item};
use ca_tables::Tables;
use ca_tree::{ItemId, SiteId};
use std::marker::Model;

/// A function of the source.
#[derive(Drop)]
pub(crate) struct InFunction<'a> {
    tables: &'a Tables<'a>,
    function: &'a Function,
}

impl<'a> Model for InFunction<'a> {
    ghost use Rattle.ca_model.specs.contracts.tree.Stmt as stmt;
    ghost use Rattle.ca_model.specs.contracts.tree.Exp as exp;
    ghost use Rattle.ca_model.specs.contracts.tree.Place as place;
    ghost use Rattle.std.specs.Coded.{codes};
    ghost use Rattle.ca_lower.specs.Scopes as scopes;

    ghost Value = { scopes.InFunction };

    ghost coded = { Prim.hlevel (codes, stmt.the_row.coded, exp.the_row.coded, place.the_row.coded) };

    ghost view = { λ s. record { source = s.tables.now.source; plan = s.tables.now.plan; function = s.function.now } };

    ghost invariant = { λ s. scopes.IsInFunction (record { source = s.tables.now.source; plan = s.tables.now.plan; function = s.function.now }) };
}

/// An item of a function of the source.
#[derive(Drop)]
pub(crate) struct InItem<'a> {
    tables: &'a Tables<'a>,
    function: &'a Function,
    item: &'a Item,
}

impl<'a> Model for InItem<'a> {
    ghost use Rattle.ca_model.specs.contracts.tree.Stmt as stmt;
    ghost use Rattle.ca_model.specs.contracts.tree.Exp as exp;
    ghost use Rattle.ca_model.specs.contracts.tree.Place as place;
    ghost use Rattle.std.specs.Coded.{codes};
    ghost use Rattle.ca_lower.specs.Scopes as scopes;

    ghost Value = { scopes.InItem };

    ghost coded = { Prim.hlevel (codes, stmt.the_row.coded, exp.the_row.coded, place.the_row.coded) };

    ghost view = { λ s. record { source = s.tables.now.source; plan = s.tables.now.plan; function = s.function.now; item = s.item.now } };

    ghost invariant = { λ s. scopes.IsInItem (record { source = s.tables.now.source; plan = s.tables.now.plan; function = s.function.now; item = s.item.now }) };
}

impl<'a> InFunction<'a> {
    pub(crate) fn new(tables: &'a Tables<'a>, function: &'a Function) -> InFunction<'a>
        requires { Contains tables.now.source.functions function.now }
        ensures { result ≡ record { source = tables.now.source; plan = tables.now.plan; function = function.now } }
    {
        InFunction { tables, function }
    }

    pub(crate) fn function(&self) -> &'a Function
        ensures { result.now ≡ self.now.function }
    {
        self.function
    }

    // The function is one of a source that is well-formed and within its bounds.
    pub(crate) fn known(&self)
        ensures formed { IsWellFormed self.now.source }
        ensures bounded { IsBounded self.now.source }
        ensures there { IsInFunction self.now }
    {
        self.tables.known();
    }

    // An item of the function.
    pub(crate) fn at(&self, item: &'a Item) -> InItem<'a>
        requires { Contains (items_of self.now.function) item.now }
        ensures { result ≡ record { source = self.now.source; plan = self.now.plan; function = self.now.function; item = item.now } }
    {
        InItem {
            tables: self.tables,
            function: self.function,
            item,
        }
    }
}

impl<'a> InItem<'a> {
    pub(crate) fn id(&self) -> ItemId
        ensures value { result ≡ self.now.item.id }
        ensures known { IsInItem self.now }
    {
        self.item.id
    }

    pub(crate) fn locals(&self) -> u32
        ensures { result ≡ self.now.function.locals }
    {
        self.function.locals
    }

    // What the item does.
    pub(crate) fn act(&self) -> &'a Act
        ensures { result.now ≡ self.now.item.act }
    {
        &self.item.act
    }

    // The number behind its last site.
    pub(crate) fn behind(&self) -> u32
        ensures { result ≡ behind_of self.now }
    {
        self.tables.behind(self.item)
    }

    // The item is within the limits of every source.
    pub(crate) fn keep_within(&self)
        ensures fits { fits_act self.now.function.locals self.now.item.act ≡ true }
        ensures few { self.now.function.locals ≤ 128 }
    {
        self.tables.known();
    }

    // Whether the plan has a save at the entry of the function.
    pub(crate) fn saves_at_entry(&self) -> bool
        ensures { result ≡ (code_at self.now).saves_at_entry self.now.function.id }
    {
        self.tables.saves_at_entry(self.function.id)
    }

    // Whether the plan has a save after the item.
    pub(crate) fn saves_after(&self) -> bool
        ensures { result ≡ (code_at self.now).saves_after self.now.item.id }
    {
        self.tables.saves_after(self.item.id)
    }

    // Whether the plan has a site.
    pub(crate) fn is_planned(&self, site: SiteId) -> bool
        ensures { result ≡ (code_at self.now).planned site }
    {
        self.tables.is_planned(site)
    }

    // Whether the item acquires in the plan.
    pub(crate) fn acquires(&self) -> bool
        ensures { result ≡ (code_at self.now).acquires self.now.item.id }
    {
        self.tables.acquires(self.item.id)
    }
}
