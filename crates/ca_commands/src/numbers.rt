// Numbers and lists of numbers.
ghost use Rattle.std.specs.Prelude.{◌≡◌, ◌≤◌, ◌==◌, ℕ, List, All, map, length, IfSome, IfNone, IfOk};
ghost use Rattle.std.specs.List.{slice_split};
ghost use Rattle.std.specs.Fmt.{decimal};
ghost use Rattle.ca_commands.specs.Words.{IsNumber, IsNumbers};

use ca_tree::NoMemory;
use itoa::Buffer;
use std::alloc::{AllocError, Global};

/// A number in its range.
pub(crate) fn number(text: &str, least: u32, most: u32) -> Option<u32>
    ensures found { IfSome result (λ n. IsNumber least most text.now n) }
    ensures none { IfNone result ((n : ℕ) → IsNumber least most text.now n → ⊥) }
{
    let Ok(number) = text.parse::<u32>() else {
        return None;
    };
    if Buffer::new().format(number) == text && least <= number && number <= most {
        Some(number)
    } else {
        None
    }
}

// The numbers up to one that the parts are.
fn each(alloc: Global, parts: &[&str], most: u32) -> Result<Option<Vec<u32>>, NoMemory>
    ensures found { IfOk result (λ o. IfSome o (λ ns. map (λ p. p.now) parts.now ≡ map decimal ns.items)) }
    ensures small { IfOk result (λ o. IfSome o (λ ns. All (λ n. n ≤ most) ns.items)) }
    ensures none { IfOk result (λ o. IfNone o ((ns : List ℕ) → map (λ p. p.now) parts.now ≡ map decimal ns → All (λ n. n ≤ most) ns → ⊥)) }
{
    let mut numbers = Vec::new(alloc);
    'parts: for part in parts {
        let Some(found) = number(part, 0, most) else {
            return Ok(None);
        };
        numbers.push(found)?;
    }
    Ok(Some(numbers))
}

fn parts(alloc: Global, text: &str) -> Result<Vec<&str>, AllocError>
    ensures { IfOk result (λ v. map (λ x. x.now) v.items ≡ slice_split (λ c. c == 44) text.now) }
{
    text.split(',').collect(alloc)
}

/// At most so many numbers up to one, with commas between them.
pub(crate) fn numbers(
    alloc: Global,
    text: &str,
    count: u32,
    most: u32,
) -> Result<Option<Vec<u32>>, NoMemory>
    ensures found { IfOk result (λ o. IfSome o (λ ns. IsNumbers count most text.now ns.items)) }
    ensures none { IfOk result (λ o. IfNone o ((ns : List ℕ) → IsNumbers count most text.now ns → ⊥)) }
{
    let parts = parts(alloc, text)?;
    if parts.len() > count as usize {
        return Ok(None);
    }
    each(alloc, &parts, most)
}
