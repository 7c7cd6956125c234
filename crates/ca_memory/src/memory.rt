//! Blocks of cells.

ghost use Rattle.std.specs.Prelude.{All, map, ◌≡◌, ◌<◌, ◌≤◌, ◌+◌, ◌^◌, ◌↔◌, pos, true, false, replicate, length, Some, None, IfErr, OnOk, OnErr, IfOk, IfSome, IfNone, IsTrue, is_some, IsSome};
ghost use Rattle.std.specs.Result.{result_ok};
ghost use Rattle.std.specs.FinMap as finite;
ghost use Rattle.ca_model.specs.Shared as shared;
ghost use Rattle.ca_model.specs.declared.tree.GlobalStart.{GlobalStart as Start};
ghost use Rattle.ca_model.specs.Runner.{IsLeastUnused};
ghost use Rattle.ca_memory.specs.Zeros.{stored, start_of, IsNear, zeroed};
ghost use Rattle.ca_memory.specs.Kept.{most_cells};
ghost use Rattle.ca_memory.specs.GivenBack.{AreBlocksHeld, IsFirstNoBlock};
ghost use Rattle.ca_model.specs.Opening.{globals_from};

use crate::blocks;
use crate::blocks::{BlockNotHeld, Table};
use ca_model::{Addr, Given, GlobalStart, Value};
use ca_tree::NoMemory;
use std::alloc::Global;
use std::collections::BTreeMap;
use std::marker::Model;

/// The address that an access or a `free` was refused at, and the displacement.
#[derive(Clone, Copy, Debug, PartialEq, Eq)]
pub struct Bad {
    pub at: Value,
    pub by: i64,
}

/// The memory of a run. Contracts see its blocks. Counts are kept, so that each question is answered in constant time
/// or by one look-up.
#[derive(Drop)]
pub struct Memory {
    table: Table,
    cells: u32,
    count: u32,
    least: u32,
}

impl Model for Memory {
    ghost use Rattle.std.specs.FinMap as finite;
    ghost use Rattle.std.specs.Coded.{codes, coded_ℕ};
    ghost use Rattle.ca_model.specs.contracts.values.Value as value;
    ghost use Rattle.ca_model.specs.Shared.{Blocks};

    ghost Value = { Blocks };

    ghost coded = { finite.code coded_ℕ (Prim.hlevel (codes, value.the_row.coded)) };

    ghost use Rattle.ca_memory.specs.Kept.{blocks_of, AreCounts};

    ghost view = { λ m. blocks_of m.table.entries };

    ghost invariant = { λ m. AreCounts (blocks_of m.table.entries) m.cells m.count m.least };
}

// Globals whose first cell opens with 0.
fn zero_starts(alloc: Global, globals: &[u32]) -> Result<Vec<GlobalStart>, NoMemory>
    ensures { IfOk result (λ xs. xs.items ≡ map zeroed globals.now) }
{
    let mut starts = Vec::new(alloc);
    'globals: for cells in globals {
        starts.push(GlobalStart {
            cells: *cells,
            first: Value::Num(0),
        })?;
    }
    Ok(starts)
}

impl Memory {
    /// The memory at the opening of a run: a block for each global in order, whose first cell has its opening value and
    /// whose other cells are 0 (C11 6.7.9).
    pub fn open(alloc: Global, globals: &[GlobalStart]) -> Result<Memory, NoMemory>
        requires few { length globals.now ≤ 65536 }
        requires short { All (λ (g : Start). g.cells ≤ most_cells) globals.now }
        ensures { IfOk result (λ m. m ≡ globals_from 0 globals.now) }
    {
        let table = blocks::globals(alloc, globals)?;
        Ok(Memory {
            table,
            cells: 0,
            count: globals.len() as u32,
            least: globals.len() as u32,
        })
    }

    /// A block for each global in order, of so many cells, all 0.
    pub fn new(alloc: Global, globals: &[u32]) -> Result<Memory, NoMemory>
        requires few { length globals.now ≤ 65536 }
        requires short { All (λ n. n ≤ most_cells) globals.now }
        ensures { IfOk result (λ m. m ≡ globals_from 0 (map zeroed globals.now)) }
    {
        let starts = zero_starts(alloc, globals)?;
        Memory::open(alloc, &starts)
    }

    /// The value of the cell that an access reaches (C11 6.5.3.2). It takes no memory.
    pub fn load(&self, at: Value, by: i64) -> Result<Value, Bad>
        ensures value { result_ok result ≡ shared.reached self.now at by }
        ensures near { IfOk result (λ x. IsNear at by) }
        ensures bad { IfErr result (λ e. e ≡ record { at = at; by = by }) }
    {
        let Value::Addr(a) = at else {
            return Err(Bad { at, by });
        };
        match blocks::cell(&self.table, a, by) {
            Some(value) => Ok(value),
            None => Err(Bad { at, by }),
        }
    }

    /// Sets the cell that an access reaches. It takes no memory.
    pub fn store(&mut self, at: Value, by: i64, value: Value) -> Result<(), Bad>
        ensures ok { OnOk result (IsSome (shared.reached self.old at by) × (self.new ≡ stored self.old at by value)) }
        ensures near { OnOk result (IsNear at by) }
        ensures err { OnErr result ((shared.reached self.old at by ≡ None) × (self.new ≡ self.old)) }
        ensures bad { IfErr result (λ e. e ≡ record { at = at; by = by }) }
    {
        let Value::Addr(a) = at else {
            return Err(Bad { at, by });
        };
        if blocks::put(&mut self.table, a, by, value) {
            Ok(())
        } else {
            Err(Bad { at, by })
        }
    }

    /// Makes a block of the heap, all cells 0 (C11 7.22.3).
    pub fn allocate(&mut self, alloc: Global, cells: u32, block: u32) -> Result<(), NoMemory>
        requires unused { finite.get self.old block ≡ None }
        requires some { 0 < cells }
        requires room { shared.live_cells self.old + cells ≤ 2 ^ 20 }
        requires few { finite.len self.old + 1 < 2 ^ 32 }
        ensures ok { OnOk result (self.new ≡ shared.made self.old (pos cells) (start_of block)) }
        ensures err { OnErr result (self.new ≡ self.old) }
    {
        blocks::add(alloc, &mut self.table, block, cells)?;
        self.cells += cells;
        self.count += 1;
        self.least = blocks::least_unused(&self.table, self.count, self.least);
        Ok(())
    }

    /// Ends a block of the heap (C11 7.22.3.3). It takes no memory.
    pub fn release(&mut self, at: Value) -> Result<(), Bad>
        ensures ok { OnOk result (shared.CanFree self.old at × (self.new ≡ shared.freed self.old at)) }
        ensures err { OnErr result ((shared.CanFree self.old at → ⊥) × (self.new ≡ self.old)) }
        ensures bad { IfErr result (λ e. e ≡ record { at = at; by = pos 0 }) }
    {
        let a = match at {
            Value::Num(0) => return Ok(()),
            Value::Num(_) => return Err(Bad { at, by: 0 }),
            Value::Addr(a) => a,
        };
        if a.offset != 0 {
            return Err(Bad { at, by: 0 });
        }
        let Some(cells) = blocks::end(&mut self.table, a.block) else {
            return Err(Bad { at, by: 0 });
        };
        self.cells -= cells as u32;
        Ok(())
    }

    /// Whether `release` would be Ok. It takes no memory.
    pub fn can_release(&self, at: Value) -> bool
        ensures { IsTrue result ↔ shared.CanFree self.now at }
    {
        match at {
            Value::Num(n) => n == 0,
            Value::Addr(a) => a.offset == 0 && blocks::is_heap(&self.table, a.block),
        }
    }

    /// The first thing of a list that is a block which can't be released when its turn comes, where the things are given back one after another. It takes no memory, and the time of the list.
    pub fn first_not_held(&mut self, things: &[Given]) -> Option<BlockNotHeld>
        ensures same { self.new ≡ self.old }
        ensures none { IfNone result (AreBlocksHeld self.old things.now) }
        ensures first { IfSome result (λ n. IsFirstNoBlock self.old things.now n.place n.block) }
    {
        blocks::first_gone(&mut self.table, things)
    }

    /// Whether a block is live. It takes no memory.
    pub fn is_live(&self, block: u32) -> bool
        ensures { result ≡ is_some (shared.live_block self.now block) }
    {
        blocks::is_live(&self.table, block)
    }

    /// Whether a number was used for a block. It takes no memory.
    pub fn is_used(&self, block: u32) -> bool
        ensures { result ≡ is_some (finite.get self.now block) }
    {
        blocks::is_used(&self.table, block)
    }

    /// The live cells of the heap. It takes no memory.
    pub fn live_cells(&self) -> u32
        ensures { result ≡ shared.live_cells self.now }
    {
        self.cells
    }

    /// The blocks ever made. It takes no memory.
    pub fn made(&self) -> u32
        ensures { result ≡ finite.len self.now }
    {
        self.count
    }

    /// The least number never used for a block. It takes no memory.
    pub fn next_block(&self) -> u32
        ensures { IsLeastUnused self.now result }
    {
        self.least
    }
}
