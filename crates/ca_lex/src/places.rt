//! Places that move on.

ghost use Rattle.std.specs.Prelude.{◌≡◌, ◌+◌, ◌<◌, ◌^◌, ◌||◌, length};
ghost use Rattle.std.specs.Fmt.{is_char_start};
ghost use Rattle.std.specs.List.{list_any};
ghost use Rattle.ca_tree.specs.Lexed.{fresh_after, has_line_feed};
ghost use Rattle.ca_tree.specs.Places.{after, after_byte};

use ca_tree::Pos;

// Whether a byte begins a character of UTF-8.
fn is_char_start(byte: u8) -> bool
    ensures { result ≡ is_char_start byte }
{
    byte < 0x80 || 0xC0 <= byte
}

fn after_byte(place: Pos, byte: u8) -> Pos
    requires line { place.line + 1 < 2 ^ 32 }
    requires column { place.column + 1 < 2 ^ 32 }
    ensures { result ≡ after_byte place byte }
{
    if byte == b'\n' {
        return Pos {
            line: place.line + 1,
            column: 1,
        };
    }
    if is_char_start(byte) {
        return Pos {
            line: place.line,
            column: place.column + 1,
        };
    }
    place
}

/// The place after some bytes.
pub(crate) fn place_after(place: Pos, bytes: &[u8]) -> Pos
    requires line { place.line + length bytes.now < 2 ^ 32 }
    requires column { place.column + length bytes.now < 2 ^ 32 }
    ensures { result ≡ after place bytes.now }
{
    let mut now = place;
    'bytes: for byte in bytes {
        now = after_byte(now, *byte);
    }
    now
}

fn has_line_feed(bytes: &[u8]) -> bool
    ensures { result ≡ has_line_feed bytes.now }
{
    bytes.iter().any(|byte| *byte == b'\n')
}

/// Whether no token stands before on the line, behind some skipped bytes.
pub(crate) fn fresh_after(fresh: bool, bytes: &[u8]) -> bool
    ensures { result ≡ fresh_after fresh bytes.now }
{
    has_line_feed(bytes) || fresh
}
