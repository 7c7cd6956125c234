//! Rows of a table.

ghost use Rattle.std.specs.Prelude.{◌≡◌, [], IfOk, replicate};
ghost use Rattle.ca_flow.specs.Tables.{rows_of, longer};

use ca_tree::NoMemory;
use std::alloc::Global;

/// So many empty rows.
pub(crate) fn empty_rows<T: Drop>(alloc: Global, count: u32) -> Result<Vec<Vec<T>>, NoMemory>
    ensures { IfOk result (λ rows. rows_of rows.items ≡ replicate count []) }
{
    let mut rows = Vec::new(alloc);
    'rows: for _ in 0..count {
        rows.push(Vec::new(alloc))?;
    }
    Ok(rows)
}

/// One thing more in a row, if there is one.
pub(crate) fn add<T: Drop>(rows: &mut Vec<Vec<T>>, n: u32, x: T) -> Result<(), NoMemory>
    ensures { IfOk result (λ u. rows_of rows.new.items ≡ longer (rows_of rows.old.items) n x) }
{
    let k = n as usize;
    if k < rows.len() {
        rows[k].push(x)?;
    }
    Ok(())
}
