//! The table of blocks.

ghost use Rattle.std.specs.Prelude.{◌≡◌, ◌↔◌, IsTrue, ◌<◌, ◌≤◌, ℕ, length, pos, ◌+ℤ◌, Some, None, IfSome, IfNone, OnSome, is_some, IsSome, slice_get, option_map, replicate, slice_set, List, IfOk, OnOk, OnErr, true, false, take};
ghost use Rattle.ca_model.specs.Arith.{null};
ghost use Rattle.ca_model.specs.declared.values.Value.{Value};
ghost use Rattle.ca_model.specs.Runner.{IsLeastUnused};
ghost use Rattle.std.specs.Bool.{OnTrue, OnFalse};
ghost use Rattle.std.specs.FinMap as finite;
ghost use Rattle.ca_model.specs.Shared.{Block, live_block, cell, with_cell, freed, IsHeapStart};
ghost use Rattle.ca_memory.specs.Kept.{blocks_of};
ghost use Rattle.ca_memory.specs.Zeros.{start_of, global_block};
ghost use Rattle.ca_memory.specs.GivenBack.{IsBlockHeld, AreBlocksHeld, IsFirstNoBlock};
ghost use Rattle.ca_memory.specs.Hidden.{mark, mark_thing, hidden, shown, AreHidden};
ghost use Rattle.ca_model.specs.declared.values.Given.{Given as Thing};
ghost use Rattle.ca_model.specs.Opening.{globals_from};

use ca_model::{Addr, Given, GlobalStart, Value};
use ca_tree::NoMemory;
use std::alloc::Global;
use std::collections::BTreeMap;
use std::snapshot::Snapshot;

/// A thing of a list that is a block which can't be given back when its turn comes: its place, and its number.
#[derive(Clone, Copy, Debug, PartialEq, Eq)]
pub struct BlockNotHeld {
    pub place: usize,
    pub block: u32,
}

// A block: whether `malloc` made it, and its cells.
#[derive(Drop)]
pub(crate) struct Slot {
    pub(crate) heap: bool,
    pub(crate) cells: Cells,
}

// The cells of a block. Those of a dead one take no room: clauses alone know what they were.
#[derive(Drop)]
pub(crate) enum Cells {
    Live(Vec<Value>),
    Dead(Snapshot<Vec<Value>>),
}

pub(crate) type Table = BTreeMap<u32, Slot>;

// The place of an offset and a displacement among so many cells.
fn place_in(cells: usize, a: Addr, by: i64) -> Option<usize>
    ensures place { IfSome result (λ n. (n < cells) × (a.offset +ℤ by ≡ pos n)) }
    ensures none { IfNone result ((n : ℕ) → a.offset +ℤ by ≡ pos n → cells ≤ n) }
{
    let sum = i128::from(a.offset) + i128::from(by);
    let place = usize::try_from(sum).ok()?;
    if place < cells { Some(place) } else { None }
}

// The cell that an access reaches.
pub(crate) fn cell(table: &Table, a: Addr, by: i64) -> Option<Value>
    ensures { result ≡ cell (blocks_of table.now.entries) a.block (a.offset +ℤ by) }
{
    let Some(slot) = table.get(&a.block) else {
        return None;
    };
    let Cells::Live(cells) = &slot.cells else {
        return None;
    };
    let Some(place) = place_in(cells.len(), a, by) else {
        return None;
    };
    Some(cells[place])
}

// Whether a block is live.
pub(crate) fn is_live(table: &Table, block: u32) -> bool
    ensures { result ≡ is_some (live_block (blocks_of table.now.entries) block) }
{
    match table.get(&block) {
        Some(slot) => match &slot.cells {
            Cells::Live(_) => true,
            Cells::Dead(_) => false,
        },
        None => false,
    }
}

// Whether a block is live and `malloc` made it.
pub(crate) fn is_heap(table: &Table, block: u32) -> bool
    ensures { IsTrue result ↔ IsHeapStart (blocks_of table.now.entries) (start_of block) }
{
    match table.get(&block) {
        Some(slot) => match &slot.cells {
            Cells::Live(_) => slot.heap,
            Cells::Dead(_) => false,
        },
        None => false,
    }
}

// Whether a number was used.
pub(crate) fn is_used(table: &Table, block: u32) -> bool
    ensures { result ≡ is_some (finite.get (blocks_of table.now.entries) block) }
{
    table.contains_key(&block)
}

// Puts a value into a cell, where there is one.
pub(crate) fn put(table: &mut Table, a: Addr, by: i64, value: Value) -> bool
    ensures put { OnTrue result (IsSome (cell (blocks_of table.old.entries) a.block (a.offset +ℤ by))
        × (blocks_of table.new.entries ≡ with_cell (blocks_of table.old.entries) (record { block = a.block; offset = a.offset +ℤ by }) value)) }
    ensures no { OnFalse result ((cell (blocks_of table.old.entries) a.block (a.offset +ℤ by) ≡ None) × (table.new.entries ≡ table.old.entries)) }
{
    let Some(slot) = table.get_mut(&a.block) else {
        return false;
    };
    let Cells::Live(cells) = &mut slot.cells else {
        return false;
    };
    let Some(place) = place_in(cells.len(), a, by) else {
        return false;
    };
    cells[place] = value;
    true
}

// Ends a live block of the heap, and gives the number of its cells.
pub(crate) fn end(table: &mut Table, block: u32) -> Option<usize>
    ensures ended { IfSome result (λ n. (xs : List Value) × (finite.get (blocks_of table.old.entries) block ≡ Some (record { heap = true; live = true; cells = xs })) × (length xs ≡ n)) }
    ensures freed { IfSome result (λ n. blocks_of table.new.entries ≡ freed (blocks_of table.old.entries) (start_of block)) }
    ensures none { IfNone result ((IsHeapStart (blocks_of table.old.entries) (start_of block) → ⊥) × (table.new.entries ≡ table.old.entries)) }
{
    let Some(slot) = table.get_mut(&block) else {
        return None;
    };
    if !slot.heap {
        return None;
    }
    let Cells::Live(cells) = &slot.cells else {
        return None;
    };
    let count = cells.len();
    let was = Snapshot::of(cells);
    slot.cells = Cells::Dead(was);
    Some(count)
}

// Marks a live block of the heap as none of the heap.
fn hide(table: &mut Table, block: u32) -> bool
    ensures hidden { OnTrue result (IsHeapStart (blocks_of table.old.entries) (start_of block)
        × (blocks_of table.new.entries ≡ mark false (blocks_of table.old.entries) block)) }
    ensures gone { OnFalse result ((IsHeapStart (blocks_of table.old.entries) (start_of block) → ⊥) × (table.new.entries ≡ table.old.entries)) }
{
    let Some(slot) = table.get_mut(&block) else {
        return false;
    };
    let heap = slot.heap;
    if !heap {
        return false;
    }
    let Cells::Live(_) = &slot.cells else {
        return false;
    };
    slot.heap = false;
    true
}

// Marks a block as one of the heap.
fn show(table: &mut Table, block: u32)
    ensures { blocks_of table.new.entries ≡ mark true (blocks_of table.old.entries) block }
{
    let Some(slot) = table.get_mut(&block) else {
        return;
    };
    slot.heap = true;
}

fn hide_thing(table: &mut Table, thing: Given) -> bool
    ensures hidden { OnTrue result (IsBlockHeld (blocks_of table.old.entries) thing
        × (blocks_of table.new.entries ≡ mark_thing false (blocks_of table.old.entries) thing)) }
    ensures gone { OnFalse result ((IsBlockHeld (blocks_of table.old.entries) thing → ⊥) × (table.new.entries ≡ table.old.entries)) }
{
    match thing {
        Given::Mutex(_) => true,
        Given::Block(block) => hide(table, block),
    }
}

fn show_thing(table: &mut Table, thing: Given)
    ensures { blocks_of table.new.entries ≡ mark_thing true (blocks_of table.old.entries) thing }
{
    match thing {
        Given::Mutex(_) => {}
        Given::Block(block) => show(table, block),
    }
}

// Hides the blocks of a list up to the first that is no live block of the heap, and gives their number.
fn hide_all(table: &mut Table, things: &[Given]) -> usize
    ensures within { result ≤ length things.now }
    ensures were { AreHidden (blocks_of table.old.entries) (take result things.now) }
    ensures hidden { blocks_of table.new.entries ≡ hidden (blocks_of table.old.entries) (take result things.now) }
    ensures first { (g : Thing) → slice_get things.now result ≡ Some g → IsBlockHeld (blocks_of table.new.entries) g → ⊥ }
{
    let mut index = 0usize;
    'things: while index < things.len() {
        let thing = things[index];
        if !hide_thing(table, thing) {
            return index;
        }
        index += 1;
    }
    index
}

// Shows the blocks of a list again, the last one first.
fn show_all(table: &mut Table, things: &[Given])
    ensures { blocks_of table.new.entries ≡ shown (blocks_of table.old.entries) things.now }
{
    let mut left = things.len();
    'things: while left > 0 {
        left -= 1;
        let thing = things[left];
        show_thing(table, thing);
    }
}

// The place of the first thing that is a block which can't be given back when its turn comes.
pub(crate) fn first_gone(table: &mut Table, things: &[Given]) -> Option<BlockNotHeld>
    ensures same { blocks_of table.new.entries ≡ blocks_of table.old.entries }
    ensures none { IfNone result (AreBlocksHeld (blocks_of table.old.entries) things.now) }
    ensures first { IfSome result (λ n. IsFirstNoBlock (blocks_of table.old.entries) things.now n.place n.block) }
{
    let held = hide_all(table, things);
    show_all(table, &things[..held]);
    if held == things.len() {
        return None;
    }
    match things[held] {
        Given::Block(block) => Some(BlockNotHeld { place: held, block }),
        Given::Mutex(_) => None,
    }
}

// Cells that hold 0.
fn zeros(alloc: Global, cells: u32) -> Result<Vec<Value>, NoMemory>
    ensures { IfOk result (λ xs. xs.items ≡ replicate cells null) }
{
    Ok(vec![in alloc; Value::Num(0); cells as usize]?)
}

// Cells of which the first holds a value and the others 0.
fn opening_cells(alloc: Global, cells: u32, first: Value) -> Result<Vec<Value>, NoMemory>
    ensures { IfOk result (λ xs. xs.items ≡ slice_set (replicate cells null) 0 first) }
{
    let mut cells = zeros(alloc, cells)?;
    if !cells.is_empty() {
        cells[0] = first;
    }
    Ok(cells)
}

// A new live block.
fn insert(table: &mut Table, block: u32, heap: bool, cells: Vec<Value>) -> Result<(), NoMemory>
    ensures ok { OnOk result (blocks_of table.new.entries ≡ finite.insert (blocks_of table.old.entries) block (record { heap = heap; live = true; cells = cells.items })) }
    ensures err { OnErr result (table.new.entries ≡ table.old.entries) }
{
    let slot = Slot {
        heap,
        cells: Cells::Live(cells),
    };
    match table.insert(block, slot) {
        Ok(_) => Ok(()),
        Err(_) => Err(NoMemory),
    }
}

// A new block of the heap, all cells 0.
pub(crate) fn add(alloc: Global, table: &mut Table, block: u32, cells: u32) -> Result<(), NoMemory>
    ensures ok { OnOk result (blocks_of table.new.entries ≡ finite.insert (blocks_of table.old.entries) block (record { heap = true; live = true; cells = replicate cells null })) }
    ensures err { OnErr result (table.new.entries ≡ table.old.entries) }
{
    let cells = zeros(alloc, cells)?;
    insert(table, block, true, cells)
}

// The block of a global.
fn add_global(
    alloc: Global,
    table: &mut Table,
    block: u32,
    global: GlobalStart,
) -> Result<(), NoMemory>
    ensures { OnOk result (blocks_of table.new.entries ≡ finite.insert (blocks_of table.old.entries) block (global_block global)) }
{
    let cells = opening_cells(alloc, global.cells, global.first)?;
    insert(table, block, false, cells)
}

// The blocks of globals, which are numbered from 0.
pub(crate) fn globals(alloc: Global, globals: &[GlobalStart]) -> Result<Table, NoMemory>
    requires { length globals.now ≤ 65536 }
    ensures { IfOk result (λ t. blocks_of t.entries ≡ globals_from 0 globals.now) }
{
    let mut table = BTreeMap::new(alloc);
    let mut left = globals.len();
    'globals: while left > 0 {
        left -= 1;
        add_global(alloc, &mut table, left as u32, globals[left])?;
    }
    Ok(table)
}

// The least number never used, where all below `from` are.
pub(crate) fn least_unused(table: &Table, count: u32, from: u32) -> u32
    requires count { count ≡ finite.len (blocks_of table.now.entries) }
    requires below { (c : ℕ) → c < from → IsSome (finite.get (blocks_of table.now.entries) c) }
    ensures { IsLeastUnused (blocks_of table.now.entries) result }
{
    let mut least = from;
    'used: while is_used(table, least) {
        least += 1;
    }
    least
}
