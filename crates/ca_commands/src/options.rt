// What stands among the pieces of a command.
ghost use Rattle.std.specs.Prelude.{◌≡◌, ◌↔◌, ℕ, Bool, [], List, Option, Ok, Err, cond, true, IfSome, IfNone, IfOk, OnErr, IsErrOf, slice_get};
ghost use Rattle.std.specs.Option.{option_map};
ghost use Rattle.ca_commands.specs.Words.{IsNumber, IsNumbers, IsRead, names_of, plains_of, values_of, AreAbsent};
ghost use Rattle.ca_commands.specs.Gathering.{list_of};

use crate::key::Key;
use crate::numbers::{number, numbers};
use crate::pieces::Piece;
use crate::words::WordsNo;
use ca_tree::{Listed, NoMemory};
use std::alloc::Global;

/// Something stands there twice.
#[derive(Clone, Copy, Debug, PartialEq, Eq)]
pub(crate) struct Twice;

/// The name that stands at a place among the names.
pub(crate) fn name_at<'a>(pieces: &[Piece<'a>], place: usize) -> Option<&'a str>
    ensures { option_map (λ x. x.now) result ≡ slice_get (names_of pieces.now) place }
{
    let mut before = 0;
    'pieces: for piece in pieces {
        if let Some(name) = piece.as_name() {
            if before == place {
                return Some(name);
            }
            before += 1;
        }
    }
    None
}

/// Whether `--plain` stands there.
pub(crate) fn is_plain(pieces: &[Piece<'_>]) -> Result<bool, Twice>
    ensures found { IfOk result (λ b. plains_of pieces.now ≡ cond b 1 0) }
    ensures twice { OnErr result ((b : Bool) → plains_of pieces.now ≡ cond b 1 0 → ⊥) }
{
    let mut plain = false;
    'pieces: for piece in pieces {
        if piece.is_plain() {
            if plain {
                return Err(Twice);
            }
            plain = true;
        }
    }
    Ok(plain)
}

// The value of an option, if it stands there.
fn value<'a>(pieces: &[Piece<'a>], key: Key) -> Result<Option<&'a str>, Twice>
    ensures found { IfOk result (λ o. values_of key pieces.now ≡ list_of (option_map (λ x. x.now) o)) }
    ensures twice { OnErr result ((o : Option (List ℕ)) → values_of key pieces.now ≡ list_of o → ⊥) }
{
    let mut found: Option<&'a str> = None;
    'pieces: for piece in pieces {
        if let Some(text) = piece.as_value(key) {
            if found.is_some() {
                return Err(Twice);
            }
            found = Some(text);
        }
    }
    Ok(found)
}

/// The number that an option says, if it stands there.
pub(crate) fn number_of(
    pieces: &[Piece<'_>],
    key: Key,
    least: u32,
    most: u32,
) -> Result<Option<u32>, WordsNo>
    ensures found { IfOk result (λ o. IsRead (IsNumber least most) (values_of key pieces.now) o) }
    ensures misworded { OnErr result ((o : Option ℕ) → IsRead (IsNumber least most) (values_of key pieces.now) o → ⊥) }
{
    let text = match value(pieces, key) {
        Ok(Some(text)) => text,
        Ok(None) => return Ok(None),
        Err(Twice) => return Err(WordsNo::Misworded),
    };
    match number(text, least, most) {
        Some(number) => Ok(Some(number)),
        None => Err(WordsNo::Misworded),
    }
}

/// The list of numbers that an option says, if it stands there.
pub(crate) fn numbers_of(
    alloc: Global,
    pieces: &[Piece<'_>],
    key: Key,
    count: u32,
    most: u32,
) -> Result<Option<Listed<u32>>, WordsNo>
    ensures found { IfOk result (λ o. IsRead (IsNumbers count most) (values_of key pieces.now) o) }
    ensures misworded { IsErrOf result WordsNo.Misworded → (o : Option (List ℕ)) → IsRead (IsNumbers count most) (values_of key pieces.now) o → ⊥ }
{
    let text = match value(pieces, key) {
        Ok(Some(text)) => text,
        Ok(None) => return Ok(None),
        Err(Twice) => return Err(WordsNo::Misworded),
    };
    match numbers(alloc, text, count, most) {
        Ok(Some(numbers)) => Ok(Some(Listed::from_vec(numbers))),
        Ok(None) => Err(WordsNo::Misworded),
        Err(NoMemory) => Err(WordsNo::NoMemory),
    }
}

// Whether an option doesn't stand there.
fn is_absent(pieces: &[Piece<'_>], key: Key) -> bool
    ensures { (result ≡ true) ↔ (values_of key pieces.now ≡ []) }
{
    match value(pieces, key) {
        Ok(text) => text.is_none(),
        Err(Twice) => false,
    }
}

/// Whether none of some options stands there.
pub(crate) fn are_absent(pieces: &[Piece<'_>], keys: &[Key]) -> bool
    ensures { (result ≡ true) ↔ AreAbsent keys.now pieces.now }
{
    'keys: for key in keys {
        if !is_absent(pieces, *key) {
            return false;
        }
    }
    true
}
