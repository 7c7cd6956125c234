//! What is skipped: comments, and the lines that include a header.

ghost use Rattle.std.specs.Prelude.{◌≡◌, MatchOption, MatchBool};
ghost use Rattle.std.specs.Option.{option_copied};
ghost use Rattle.ca_tree.specs.Tokens.{is_blank};
ghost use Rattle.ca_tree.specs.Lexed.{after_close, from_line_feed, IsBare};
ghost use Rattle.ca_lex.specs.Skipped.{CommentAt, IncludeOf, NoInclude, after_front as front_cut, after_line_blanks as line_blanks_cut, after_header as header_cut, after_include as include_cut};

/// What a text begins with: no comment, one that doesn't end, or one of this length (C11 6.4.9).
#[derive(Clone, Copy, Debug, PartialEq, Eq)]
pub(crate) enum Comment {
    Absent,
    Open,
    Ends { len: usize },
}

fn after_front<'a>(text: &'a [u8], front: &[u8]) -> Option<&'a [u8]>
    ensures { option_copied result ≡ front_cut front.now text.now }
{
    let mut rest = text;
    'front: for c in front {
        let Some((first, more)) = rest.split_first() else {
            return None;
        };
        if *first != *c {
            return None;
        }
        rest = more;
    }
    Some(rest)
}

// What follows the next `*/`.
fn behind_close(text: &[u8]) -> Option<&[u8]>
    ensures { option_copied result ≡ after_close text.now }
{
    let mut rest = text;
    'bytes: while let Some((first, more)) = rest.split_first() {
        if let Some((second, behind)) = more.split_first() {
            if *first == b'*' && *second == b'/' {
                return Some(behind);
            }
        }
        rest = more;
    }
    None
}

fn at_line_feed(text: &[u8]) -> &[u8]
    ensures { result.now ≡ from_line_feed text.now }
{
    let mut rest = text;
    'bytes: while let Some((first, more)) = rest.split_first() {
        if *first == b'\n' {
            break;
        }
        rest = more;
    }
    rest
}

/// The comment that the text begins with.
pub(crate) fn comment_at(text: &[u8]) -> Comment
    ensures { CommentAt text.now result }
{
    if let Some(more) = after_front(text, b"/*") {
        let Some(rest) = behind_close(more) else {
            return Comment::Open;
        };
        return Comment::Ends {
            len: text.len() - rest.len(),
        };
    }
    let Some(more) = after_front(text, b"//") else {
        return Comment::Absent;
    };
    Comment::Ends {
        len: text.len() - at_line_feed(more).len(),
    }
}

pub(crate) fn is_blank(c: u8) -> bool
    ensures { result ≡ is_blank c }
{
    c == b' ' || (b'\t' <= c && c <= b'\r')
}

fn behind_line_blanks(text: &[u8]) -> &[u8]
    ensures { result.now ≡ line_blanks_cut text.now }
{
    let mut rest = text;
    'blanks: while let Some((first, more)) = rest.split_first() {
        if !is_blank(*first) || *first == b'\n' {
            break;
        }
        rest = more;
    }
    rest
}

fn behind_header(text: &[u8]) -> Option<&[u8]>
    ensures { option_copied result ≡ header_cut text.now }
{
    if let Some(rest) = after_front(text, b"<pthread.h>") {
        return Some(rest);
    }
    if let Some(rest) = after_front(text, b"<stdio.h>") {
        return Some(rest);
    }
    if let Some(rest) = after_front(text, b"<stdlib.h>") {
        return Some(rest);
    }
    after_front(text, b"<assert.h>")
}

// What follows `#`, `include` and a header with blanks between.
fn behind_include(text: &[u8]) -> Option<&[u8]>
    ensures { option_copied result ≡ include_cut text.now }
{
    let Some(hashed) = after_front(text, b"#") else {
        return None;
    };
    let Some(rest) = after_front(behind_line_blanks(hashed), b"include") else {
        return None;
    };
    behind_header(behind_line_blanks(rest))
}

// Whether nothing but blanks and comments stands up to the end of the line.
fn is_bare(text: &[u8]) -> bool
    ensures { MatchBool result (IsBare text.now) (IsBare text.now → ⊥) }
{
    let mut rest = text;
    'line: while let Some((first, more)) = rest.split_first() {
        if *first == b'\n' {
            return true;
        }
        if is_blank(*first) {
            rest = more;
            continue;
        }
        let Comment::Ends { len } = comment_at(rest) else {
            return false;
        };
        let (skipped, behind) = rest.split_at(len);
        if skipped.contains(&b'\n') {
            return true;
        }
        rest = behind;
    }
    true
}

/// The length of `#include` with a header of the library that the text begins with, where nothing else stands
/// on its line (C11 6.10.2).
pub(crate) fn include_len(text: &[u8]) -> Option<usize>
    ensures { MatchOption result (NoInclude text.now) (λ len. IncludeOf text.now len) }
{
    let Some(rest) = behind_include(text) else {
        return None;
    };
    if is_bare(rest) {
        Some(text.len() - rest.len())
    } else {
        None
    }
}
