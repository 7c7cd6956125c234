//! The points of items, and their words.

ghost use Rattle.std.specs.Prelude.{◌≡◌, ◌<◌, ◌≤◌, IfOk};
ghost use Rattle.ca_model.specs.declared.tree.Item.{Item};
ghost use Rattle.ca_model.specs.Plans.{IsItem};
ghost use Rattle.ca_model.specs.WellFormed.{IsWellFormed};
ghost use Rattle.ca_model.specs.Bounds.{IsBounded};
ghost use Rattle.ca_plan.specs.Finding.{AreWordsOf, IsHeadOf, IsKnown, IsKnownIfAny};
ghost use Rattle.ca_plan.specs.Planning.{ArePoints, AreItems};

use crate::heads::heads;
use crate::lines::words_of;
use crate::names::names_of;
use crate::places::item_places;
use crate::points::{formed, points};
use ca_callers::Callers;
use ca_flow::Code;
use ca_model::Checked;
use ca_tree::{ItemId, NoMemory, Pos, Text};
use std::alloc::Global;
use std::marker::Model;
use std::snapshot::Snapshot;

/// The words of the points of an item.
#[derive(Drop)]
pub(crate) struct Known {
    pub(crate) head: ItemId,
    pub(crate) words: Vec<u8>,
}

/// What the points of items and their words are found by: links and calls, the first items of runs, the names of functions
/// and the places of items. Contracts see the source.
#[derive(Drop)]
pub(crate) struct Finder {
    checked: Snapshot<Checked>,
    callers: Callers,
    heads: Vec<ItemId>,
    names: Vec<Text>,
    places: Vec<Pos>,
}

impl Model for Finder {
    ghost use Rattle.std.specs.Coded.{codes};
    ghost use Rattle.ca_tree.specs.contracts.tree.Program as read_program;
    ghost use Rattle.ca_model.specs.contracts.tree.Function as typed_function;
    ghost use Rattle.ca_model.specs.typing.Sources.{Source};
    ghost use Rattle.ca_plan.specs.Finding.{IsLookup};

    ghost Value = { Source };

    ghost coded = { Prim.hlevel (codes, read_program.the_row.coded, typed_function.the_row.coded) };

    ghost view = { λ f. f.checked.value };

    ghost invariant = { λ f. IsLookup f.checked.value f.callers f.heads.items f.names.items f.places.items };
}

impl Finder {
    /// What the points of a source's items are found by. It takes time in the source.
    pub(crate) fn new(alloc: Global, checked: &Checked, code: &Code) -> Result<Finder, NoMemory>
        requires { code.now.source ≡ checked.now.typed }
        ensures { IfOk result (λ f. f ≡ checked.now) }
    {
        formed(code);
        let callers = Callers::new(alloc, code)?;
        let heads = heads(alloc, &callers, checked.items())?;
        let names = names_of(alloc, checked.program())?;
        let places = item_places(alloc, checked)?;
        Ok(Finder {
            checked: Snapshot::of(checked),
            callers,
            heads,
            names,
            places,
        })
    }

    /// An item with the same points, which is one for all items of a run.
    pub(crate) fn head(&self, item: ItemId) -> ItemId
        requires { (x : Item) × IsItem self.now.typed x item }
        ensures { (x : Item) → IsItem self.now.typed x item → IsHeadOf self.now.typed x result }
    {
        self.heads[item.0 as usize]
    }

    /// The words of the points of an item.
    pub(crate) fn words(&self, alloc: Global, item: ItemId, depth: u32) -> Result<Vec<u8>, NoMemory>
        requires item { (x : Item) × IsItem self.now.typed x item }
        requires depth { depth ≤ 8 }
        ensures { IfOk result (λ words. (x : Item) → IsItem self.now.typed x item → AreWordsOf self.now depth x words.items) }
    {
        let found = points(alloc, &self.callers, &[item], depth)?;
        let words = words_of(alloc, &self.names, &self.places, &found)?;
        Ok(words)
    }

    /// The words of the points of an item, which may be known.
    pub(crate) fn known_at(
        &self,
        alloc: Global,
        known: Option<Known>,
        item: ItemId,
        depth: u32,
    ) -> Result<Known, NoMemory>
        requires item { (x : Item) × IsItem self.now.typed x item }
        requires depth { depth ≤ 8 }
        requires known { IsKnownIfAny self.now depth known }
        ensures known { IfOk result (λ k. IsKnown self.now depth k) }
        ensures head { IfOk result (λ k. k.head ≡ item) }
    {
        if let Some(known) = known {
            if known.head == item {
                return Ok(known);
            }
        }
        let words = self.words(alloc, item, depth)?;
        Ok(Known { head: item, words })
    }
}
