//! Tokens of a text.

use crate::text::{Pos, Text};

/// A mark, by its spelling.
#[derive(Clone, Copy, Debug, PartialEq, Eq)]
pub enum Mark {
    /// `(`
    OpenParen,
    /// `)`
    CloseParen,
    /// `[`
    OpenBracket,
    /// `]`
    CloseBracket,
    /// `{`
    OpenBrace,
    /// `}`
    CloseBrace,
    /// `;`
    Semicolon,
    /// `,`
    Comma,
    /// `=`
    Assign,
    /// `+`
    Plus,
    /// `-`
    Minus,
    /// `*`
    Star,
    /// `/`
    Slash,
    /// `%`
    Percent,
    /// `<`
    Less,
    /// `>`
    More,
    /// `<=`
    LessSame,
    /// `>=`
    MoreSame,
    /// `==`
    Same,
    /// `!=`
    Differs,
    /// `&&`
    And,
    /// `||`
    Or,
    /// `!`
    Not,
    /// `&`
    Ampersand,
    /// `.`
    Dot,
    /// `->`
    Arrow,
    /// `++`
    Increment,
    /// `--`
    Decrement,
    /// `+=`
    PlusAssign,
    /// `-=`
    MinusAssign,
    /// `*=`
    StarAssign,
    /// `/=`
    SlashAssign,
    /// `%=`
    PercentAssign,
    /// `|`
    Pipe,
    /// `^`
    Caret,
    /// `~`
    Tilde,
    /// `<<`
    ShiftLeft,
    /// `>>`
    ShiftRight,
    /// `?`
    Question,
    /// `:`
    Colon,
    /// `<<=`
    ShiftLeftAssign,
    /// `>>=`
    ShiftRightAssign,
    /// `&=`
    AmpersandAssign,
    /// `|=`
    PipeAssign,
    /// `^=`
    CaretAssign,
    /// `...`
    Ellipsis,
    /// `#`
    Hash,
}

/// What a token is. Keywords and the words of the library are names.
#[derive(Debug, PartialEq, Drop)]
pub enum Word {
    /// A name, by its bytes (C11 6.4.2.1).
    Name(Text),
    /// A decimal or hexadecimal number, at most 2147483647 (C11 6.4.4.1).
    Number(i32),
    /// The bytes of a string, after its escapes (C11 6.4.5).
    Str(Text),
    Mark(Mark),
    /// The end of the text, which stands last.
    End,
}

/// A token, and the place of its first character.
#[derive(Debug, PartialEq, Drop)]
pub struct Token {
    pub pos: Pos,
    pub word: Word,
}

/// Why a text has no tokens.
#[derive(Clone, Copy, Debug, PartialEq, Eq)]
pub enum LexKind {
    /// The text is longer than 1,048,576 bytes. Its place is 1:1.
    TooLong,
    /// A byte that is no part of a character of UTF-8.
    NotUtf8,
    /// A character that begins no token, or the `\` of an escape that is none.
    BadChar,
    /// The `/*` of a comment that doesn't end.
    OpenComment,
    /// The `"` of a string that its line doesn't end.
    OpenString,
    /// The first digit of a number that a letter, a digit, a `_` or a `.` follows directly, or of a `0x` without a digit.
    NumberForm,
    /// The first digit of a number above 2147483647.
    NumberTooLarge,
}

/// The first fault of a text that has no tokens, and its place.
#[derive(Clone, Copy, Debug, PartialEq, Eq)]
pub struct LexFault {
    pub pos: Pos,
    pub kind: LexKind,
}
