//! The longest form at the head of a text.

ghost use Rattle.std.specs.Prelude.{◌≡◌, ◌≢◌, ◌≤◌, ◌<◌, ℕ, List, [], ◌∷◌, ◌++◌, length, take, drop, true, ◌||◌, ◌==◌, Some, slice_index, MatchOption, IfSome, IfNone};
ghost use Rattle.std.specs.Char.{digit_value};
ghost use Rattle.std.specs.List.{prefix_len};
ghost use Rattle.ca_tree.specs.Tokens.{is_letter, begins_name, goes_on_name, is_name, is_digit, is_hex_digit, is_decimal, is_hexadecimal, value_from, Form, IsForm};
ghost use Rattle.ca_lex.specs.Fronts.{IsFront, front_len, small, IsLongestThat, HasNone, IsSpelled, IsLongestMark};

use ca_tree::Mark;

/// A form at the head of a text, with its length in bytes.
#[derive(Clone, Copy, Debug, PartialEq)]
pub(crate) enum Front {
    Name { len: usize },
    /// A decimal or hexadecimal number, with its value if it is at most 2147483647.
    Number { len: usize, value: Option<u32> },
    Mark { len: usize, mark: Mark },
}

/// The longest form at the head of a text that begins with no `"`, or none.
pub(crate) fn longest_front(text: &[u8]) -> Option<Front>
    requires some { 0 < length text.now }
    requires no_string { slice_index text.now 0 ≢ 34 }
    ensures found { IfSome result (λ found. IsFront text.now found) }
    ensures size { IfSome result (λ found. (0 < front_len found) × (front_len found ≤ length text.now)) }
    ensures none { IfNone result ((f : Form) (u rest : List ℕ) → text.now ≡ u ++ rest → IsForm f u → ⊥) }
{
    let first = text[0];
    if begins_name(first) {
        Some(Front::Name {
            len: name_len(text),
        })
    } else if is_digit(first) {
        Some(number(text))
    } else {
        let (mark, len) = mark(text)?;
        Some(Front::Mark { len, mark })
    }
}

fn is_letter(c: u8) -> bool
    ensures { result ≡ is_letter c }
{
    (b'a' <= c && c <= b'z') || (b'A' <= c && c <= b'Z')
}

fn is_digit(c: u8) -> bool
    ensures { result ≡ is_digit c }
{
    b'0' <= c && c <= b'9'
}

fn is_hex_digit(c: u8) -> bool
    ensures { result ≡ is_hex_digit c }
{
    is_digit(c) || (b'a' <= c && c <= b'f') || (b'A' <= c && c <= b'F')
}

/// Whether a name begins with a byte.
fn begins_name(c: u8) -> bool
    ensures { result ≡ begins_name c }
{
    is_letter(c) || c == b'_'
}

/// Whether a name goes on with a byte.
pub(crate) fn goes_on_name(c: u8) -> bool
    ensures { result ≡ goes_on_name c }
{
    is_letter(c) || is_digit(c) || c == b'_'
}

/// The length of a name that the text begins with.
#[tactic(auto, using(crate::proofs::Longest::name_longest))]
fn name_len(text: &[u8]) -> usize
    requires begins { begins_name (slice_index text.now 0) ≡ true }
    ensures longest { IsLongestThat is_name text.now result }
    ensures some { 0 < result }
{
    name_bytes(text)
}

/// How many letters, digits and `_` the text begins with.
fn name_bytes(text: &[u8]) -> usize
    ensures { result ≡ prefix_len goes_on_name text.now }
{
    text.iter().take_while(|c| goes_on_name(**c)).count()
}

/// A number that the text begins with.
fn number(text: &[u8]) -> Front
    requires begins { is_digit (slice_index text.now 0) ≡ true }
    ensures found { IsFront text.now result }
    ensures size { (0 < front_len result) × (front_len result ≤ length text.now) }
{
    match hexadecimal_len(text) {
        Some(len) => Front::Number {
            len,
            value: value_of(&text[2..len], 16),
        },
        None => {
            let len = decimal_len(text);
            Front::Number {
                len,
                value: value_of(&text[..len], 10),
            }
        }
    }
}

fn is_x(c: u8) -> bool
    ensures { result ≡ (c == 120) || (c == 88) }
{
    c == b'x' || c == b'X'
}

/// How many hexadecimal digits the text begins with.
fn hex_digits(text: &[u8]) -> usize
    ensures value { result ≡ prefix_len is_hex_digit text.now }
    ensures within { result ≤ length text.now }
{
    text.iter().take_while(|c| is_hex_digit(**c)).count()
}

/// The length of a hexadecimal number that the text begins with, if it begins with one.
fn hexadecimal_len(text: &[u8]) -> Option<usize>
    ensures found { IfSome result (λ n. IsLongestThat is_hexadecimal text.now n) }
    ensures size { IfSome result (λ n. 2 < n) }
    ensures none { IfNone result (HasNone is_hexadecimal text.now) }
{
    if text.len() < 2 || text[0] != b'0' || !is_x(text[1]) {
        return None;
    }
    match hex_digits(&text[2..]) {
        0 => None,
        n => Some(n + 2),
    }
}

/// How many digits the text begins with.
fn digits(text: &[u8]) -> usize
    ensures { result ≡ prefix_len is_digit text.now }
{
    text.iter().take_while(|c| is_digit(**c)).count()
}

/// The length of a decimal number that the text begins with: a `0` stands alone.
#[tactic(auto, using(crate::proofs::Longest::decimal_longest))]
fn decimal_len(text: &[u8]) -> usize
    requires begins { is_digit (slice_index text.now 0) ≡ true }
    ensures longest { IsLongestThat is_decimal text.now result }
    ensures some { 0 < result }
{
    if text[0] == b'0' { 1 } else { digits(text) }
}

/// The value of a digit or a letter, and 36 for any other byte.
fn digit_value(c: u8) -> u64
    ensures { result ≡ digit_value c }
{
    u64::from(char::from(c).to_digit(36).unwrap_or(36))
}

/// The value of digits to a base, if it is at most 2147483647.
#[tactic(auto, using(crate::proofs::Longest::too_large))]
fn value_of(digits: &[u8], base: u64) -> Option<u32>
    requires base { (1 ≤ base) × (base ≤ 16) }
    ensures { result ≡ small (value_from base 0 digits.now) }
{
    let mut value = 0u64;
    'digits: for c in digits {
        value = value * base + digit_value(*c);
        if value > 2147483647 {
            return None;
        }
    }
    Some(value as u32)
}

/// The longest mark at the head of a text, and its length.
fn mark(text: &[u8]) -> Option<(Mark, usize)>
    ensures { IsLongestMark text.now result }
{
    let first = *text.first()?;
    let second = text.get(1).copied();
    if let (Some(second), Some(third)) = (second, text.get(2))
        && let Some(mark) = triple(first, second, *third)
    {
        return Some((mark, 3));
    }
    if let Some(second) = second
        && let Some(mark) = double(first, second)
    {
        return Some((mark, 2));
    }
    Some((single(first)?, 1))
}

/// A mark of three bytes.
fn triple(first: u8, second: u8, third: u8) -> Option<Mark>
    ensures { IsSpelled (first ∷ second ∷ third ∷ []) result }
{
    if first != second {
        return None;
    }
    match first {
        b'<' if third == b'=' => Some(Mark::ShiftLeftAssign),
        b'>' if third == b'=' => Some(Mark::ShiftRightAssign),
        b'.' if third == b'.' => Some(Mark::Ellipsis),
        _ => None,
    }
}

/// A mark of two bytes.
fn double(first: u8, second: u8) -> Option<Mark>
    ensures { IsSpelled (first ∷ second ∷ []) result }
{
    if first == second {
        doubled(first)
    } else if second == b'=' {
        before_equals(first)
    } else if first == b'-' && second == b'>' {
        Some(Mark::Arrow)
    } else {
        None
    }
}

/// A mark of the same byte twice.
fn doubled(byte: u8) -> Option<Mark>
    ensures { IsSpelled (byte ∷ byte ∷ []) result }
{
    match byte {
        b'=' => Some(Mark::Same),
        b'&' => Some(Mark::And),
        b'|' => Some(Mark::Or),
        b'+' => Some(Mark::Increment),
        b'-' => Some(Mark::Decrement),
        b'<' => Some(Mark::ShiftLeft),
        b'>' => Some(Mark::ShiftRight),
        _ => None,
    }
}

/// A mark of another byte and `=`.
fn before_equals(byte: u8) -> Option<Mark>
    requires { byte ≢ 61 }
    ensures { IsSpelled (byte ∷ 61 ∷ []) result }
{
    match byte {
        b'<' => Some(Mark::LessSame),
        b'>' => Some(Mark::MoreSame),
        b'!' => Some(Mark::Differs),
        b'+' => Some(Mark::PlusAssign),
        b'-' => Some(Mark::MinusAssign),
        b'*' => Some(Mark::StarAssign),
        b'/' => Some(Mark::SlashAssign),
        b'%' => Some(Mark::PercentAssign),
        b'&' => Some(Mark::AmpersandAssign),
        b'|' => Some(Mark::PipeAssign),
        b'^' => Some(Mark::CaretAssign),
        _ => None,
    }
}

/// A mark of one byte.
fn single(byte: u8) -> Option<Mark>
    ensures { IsSpelled (byte ∷ []) result }
{
    let mark = match byte {
        b'(' => Mark::OpenParen,
        b')' => Mark::CloseParen,
        b'[' => Mark::OpenBracket,
        b']' => Mark::CloseBracket,
        b'{' => Mark::OpenBrace,
        b'}' => Mark::CloseBrace,
        b';' => Mark::Semicolon,
        b',' => Mark::Comma,
        b'=' => Mark::Assign,
        b'+' => Mark::Plus,
        b'-' => Mark::Minus,
        b'*' => Mark::Star,
        b'/' => Mark::Slash,
        b'%' => Mark::Percent,
        b'<' => Mark::Less,
        b'>' => Mark::More,
        b'!' => Mark::Not,
        b'&' => Mark::Ampersand,
        b'.' => Mark::Dot,
        b'|' => Mark::Pipe,
        b'^' => Mark::Caret,
        b'~' => Mark::Tilde,
        b'?' => Mark::Question,
        b':' => Mark::Colon,
        b'#' => Mark::Hash,
        _ => return None,
    };
    Some(mark)
}

#[cfg(test)]
mod tests {
    use super::*;

    fn name(len: usize) -> Option<Front> {
        Some(Front::Name { len })
    }

    fn number(len: usize, value: Option<u32>) -> Option<Front> {
        Some(Front::Number { len, value })
    }

    fn mark(len: usize, mark: Mark) -> Option<Front> {
        Some(Front::Mark { len, mark })
    }

    #[test]
    fn names_are_longest(rt: HostRuntime) {
        assert_eq!(rt; longest_front(b"a_1Z-b"), name(4));
        assert_eq!(rt; longest_front(b"_"), name(1));
    }

    #[test]
    fn numbers_are_longest(rt: HostRuntime) {
        assert_eq!(rt; longest_front(b"0x7fffffff"), number(10, Some(2147483647)));
        assert_eq!(rt; longest_front(b"0X80000000;"), number(10, None));
        assert_eq!(rt; longest_front(b"0x"), number(1, Some(0)));
        assert_eq!(rt; longest_front(b"08"), number(1, Some(0)));
        assert_eq!(rt; longest_front(b"1a"), number(1, Some(1)));
        assert_eq!(rt; longest_front(b"2147483647"), number(10, Some(2147483647)));
        assert_eq!(rt; longest_front(b"2147483648 "), number(10, None));
        assert_eq!(rt;
            longest_front(b"99999999999999999999999999"),
            number(26, None)
        );
    }

    #[test]
    fn marks_are_longest(rt: HostRuntime) {
        assert_eq!(rt; longest_front(b"+++b"), mark(2, Mark::Increment));
        assert_eq!(rt; longest_front(b"<<="), mark(3, Mark::ShiftLeftAssign));
        assert_eq!(rt; longest_front(b"<<"), mark(2, Mark::ShiftLeft));
        assert_eq!(rt; longest_front(b"<="), mark(2, Mark::LessSame));
        assert_eq!(rt; longest_front(b"->"), mark(2, Mark::Arrow));
        assert_eq!(rt; longest_front(b"..."), mark(3, Mark::Ellipsis));
        assert_eq!(rt; longest_front(b".."), mark(1, Mark::Dot));
        assert_eq!(rt; longest_front(b"&&&"), mark(2, Mark::And));
    }

    #[test]
    fn other_bytes_begin_no_form(rt: HostRuntime) {
        assert_eq!(rt; longest_front(b"@"), None);
        assert_eq!(rt; longest_front(b"\xc3\xa9"), None);
    }
}
