//! Texts and places in them.

use crate::listed::Listed;

/// Bytes that contracts see as a list.
pub type Text = Listed<u8>;

/// A place in a text: its line and its column, in characters, both from 1.
#[derive(Clone, Copy, Debug, PartialEq, Eq)]
pub struct Pos {
    pub line: u32,
    pub column: u32,
}
