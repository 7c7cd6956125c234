//! The search of what is reached.

ghost use Rattle.std.specs.Prelude.{◌≡◌, ◌<◌, ◌∷◌, [], ◌↔◌, ℕ, true, length, map, IfOk};
ghost use Rattle.ca_reach.specs.Reach.{IsSet, row, rows_of, Reached, Spreads};

use ca_tree::NoMemory;
use std::alloc::Global;

// Notes a number of the table that wasn't found before.
fn find(flags: &mut Vec<bool>, todo: &mut Vec<u32>, n: u32) -> Result<(), NoMemory>
    ensures { IfOk result (λ u. Spreads flags.old.items todo.old.items flags.new.items todo.new.items (n ∷ [])) }
{
    let k = n as usize;
    if k < flags.len() && !flags[k] {
        todo.push(n)?;
        flags[k] = true;
    }
    Ok(())
}

// Notes those of some numbers that weren't found before.
fn spread(flags: &mut Vec<bool>, todo: &mut Vec<u32>, numbers: &[u32]) -> Result<(), NoMemory>
    ensures { IfOk result (λ u. Spreads flags.old.items todo.old.items flags.new.items todo.new.items numbers.now) }
{
    'numbers: for n in numbers {
        find(flags, todo, *n)?;
    }
    Ok(())
}

/// The numbers to which one is linked; none where the table has no row for it. It takes no memory.
pub fn row(links: &[Vec<u32>], n: u32) -> &[u32]
    ensures { result.now ≡ row (rows_of links.now) n }
{
    match links.get(n as usize) {
        None => &[],
        Some(r) => r.as_slice(),
    }
}

/// Which numbers of a table are reached from some starts along its rows, the starts among them: a flag for each row. A
/// number for which there is no row isn't reached. Each number is put on the list of what is to do once, and each row is
/// read once, so it takes time in the starts, the rows and the numbers in them. The only error is want of memory.
pub fn reached(alloc: Global, links: &[Vec<u32>], starts: &[u32]) -> Result<Vec<bool>, NoMemory>
    ensures exact { IfOk result (λ flags. (n : ℕ) → IsSet flags.items n ↔ Reached (rows_of links.now) starts.now n) }
    ensures length { IfOk result (λ flags. length flags.items ≡ length links.now) }
{
    let mut flags = vec![in alloc; false; links.len()]?;
    let mut todo = Vec::new(alloc);
    spread(&mut flags, &mut todo, starts)?;
    'search: while let Some(n) = todo.pop() {
        let numbers = row(links, n);
        spread(&mut flags, &mut todo, numbers)?;
    }
    Ok(flags)
}
