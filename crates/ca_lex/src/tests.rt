// Tokens and faults, worked by hand from the rules of C11 6.4.
use crate::{LexNo, tokens};
use ca_tree::{LexFault, LexKind, Pos, Text, Token, Word};
use std::alloc::{AllocError, Global};
use std::str::from_utf8;
use std::test::Fail;

fn text_of(text: &Text) -> &str {
    from_utf8(text.as_slice()).unwrap_or("?")
}

// A token as `word@line:column`.
fn token_shown(alloc: Global, token: &Token) -> Result<String, AllocError> {
    let Pos { line, column } = token.pos;
    match &token.word {
        Word::Name(name) => format!(in alloc; "{}@{line}:{column}", text_of(name)),
        Word::Number(number) => format!(in alloc; "{number}@{line}:{column}"),
        Word::Str(bytes) => format!(in alloc; "\"{}\"@{line}:{column}", text_of(bytes)),
        Word::Mark(mark) => format!(in alloc; "{mark:?}@{line}:{column}"),
        Word::End => format!(in alloc; "End@{line}:{column}"),
    }
}

// The tokens with a blank between, or the fault.
fn shown(alloc: Global, text: &[u8]) -> Result<String, AllocError> {
    let found = match tokens(alloc, text) {
        Ok(found) => found,
        Err(LexNo::Fault(LexFault { pos, kind })) => {
            return format!(in alloc; "{kind:?}@{}:{}", pos.line, pos.column);
        }
        Err(LexNo::NoMemory) => return Err(AllocError),
    };
    let mut all = String::new(alloc);
    for token in &found {
        if !all.is_empty() {
            all.push_str(" ")?;
        }
        all.push_str(token_shown(alloc, token)?.as_str())?;
    }
    Ok(all)
}

// The cases of `reader-faults` that are about tokens.
const READER_FAULTS: [(&[u8], &str); 3] = [
    (b"int main(void) { /* x", "OpenComment@1:18"),
    (b"int g;\n\xff", "NotUtf8@2:1"),
    (b"int g = 2147483648;", "NumberTooLarge@1:9"),
];

const MARKS: [(&[u8], &str); 5] = [
    (
        b"( ) [ ] { } ; ,",
        "OpenParen@1:1 CloseParen@1:3 OpenBracket@1:5 CloseBracket@1:7 OpenBrace@1:9 CloseBrace@1:11 Semicolon@1:13 Comma@1:15 End@1:16",
    ),
    (
        b"= + - * / % < > ! & .",
        "Assign@1:1 Plus@1:3 Minus@1:5 Star@1:7 Slash@1:9 Percent@1:11 Less@1:13 More@1:15 Not@1:17 Ampersand@1:19 Dot@1:21 End@1:22",
    ),
    (
        b"<= >= == != && || -> ++ --",
        "LessSame@1:1 MoreSame@1:4 Same@1:7 Differs@1:10 And@1:13 Or@1:16 Arrow@1:19 Increment@1:22 Decrement@1:25 End@1:27",
    ),
    (
        b"+= -= *= /= %= &= |= ^=",
        "PlusAssign@1:1 MinusAssign@1:4 StarAssign@1:7 SlashAssign@1:10 PercentAssign@1:13 AmpersandAssign@1:16 PipeAssign@1:19 CaretAssign@1:22 End@1:24",
    ),
    (
        b"| ^ ~ << >> ? : <<= >>= ... #",
        "Pipe@1:1 Caret@1:3 Tilde@1:5 ShiftLeft@1:7 ShiftRight@1:10 Question@1:13 Colon@1:15 ShiftLeftAssign@1:17 ShiftRightAssign@1:21 Ellipsis@1:25 Hash@1:29 End@1:30",
    ),
];

const WORDS: [(&[u8], &str); 23] = [
    (b"", "End@1:1"),
    (b"int g;", "int@1:1 g@1:5 Semicolon@1:6 End@1:7"),
    (b"_a1Z-b", "_a1Z@1:1 Minus@1:5 b@1:6 End@1:7"),
    (b"a+++b", "a@1:1 Increment@1:2 Plus@1:4 b@1:5 End@1:6"),
    (b"<<=", "ShiftLeftAssign@1:1 End@1:4"),
    (b"< <=", "Less@1:1 LessSame@1:3 End@1:5"),
    (b"->", "Arrow@1:1 End@1:3"),
    (b"...", "Ellipsis@1:1 End@1:4"),
    (b"..", "Dot@1:1 Dot@1:2 End@1:3"),
    (b"&&&", "And@1:1 Ampersand@1:3 End@1:4"),
    (b"0", "0@1:1 End@1:2"),
    (b"-1", "Minus@1:1 1@1:2 End@1:3"),
    (b"2147483647", "2147483647@1:1 End@1:11"),
    (b"0x7fffffff", "2147483647@1:1 End@1:11"),
    (b"0XfF+1", "255@1:1 Plus@1:5 1@1:6 End@1:7"),
    (b"\"\"", "\"\"@1:1 End@1:3"),
    (b"\"a\\n\\t\\\\\\\"\"", "\"a\n\t\\\"\"@1:1 End@1:12"),
    (b"\"a\tb\"", "\"a\tb\"@1:1 End@1:6"),
    (b"\"\xc3\xa9\" b", "\"\u{e9}\"@1:1 b@1:5 End@1:6"),
    (b"\"a\rb\"", "\"a\rb\"@1:1 End@1:6"),
    (b"a\r\nb", "a@1:1 b@2:1 End@2:2"),
    (b"a\x0cb\x0b", "a@1:1 b@1:3 End@1:5"),
    (b"\t\n\n x", "x@3:2 End@3:3"),
];

const SKIPPED: [(&[u8], &str); 22] = [
    (b"a // b", "a@1:1 End@1:7"),
    (b"a /* b */", "a@1:1 End@1:10"),
    (b"//", "End@1:3"),
    (b"/**/b", "b@1:5 End@1:6"),
    (b"/* * ** */b", "b@1:11 End@1:12"),
    (b"a//*\nb", "a@1:1 b@2:1 End@2:2"),
    (b"/* \xc3\xa9 */ a", "a@1:9 End@1:10"),
    (b"#include <stdio.h>\nx", "x@2:1 End@2:2"),
    (b" # \tinclude\t <pthread.h> // c\nx", "x@2:1 End@2:2"),
    (b"/* c */ #include <assert.h> /* d */\nx", "x@2:1 End@2:2"),
    (b"#include <stdlib.h> /* a\nb */ x", "x@2:6 End@2:7"),
    (b"#include <stdio.h>\n#include <stdio.h>", "End@2:19"),
    (b"a\n#include <stdio.h>\nb", "a@1:1 b@3:1 End@3:2"),
    (b"#include <stdio.h>\r\nx", "x@2:1 End@2:2"),
    (b"a /*\n*/ #include <stdio.h>", "a@1:1 End@2:22"),
    (
        b"# /* c */ include <stdio.h>",
        "Hash@1:1 include@1:11 Less@1:19 stdio@1:20 Dot@1:25 h@1:26 More@1:27 End@1:28",
    ),
    (
        b"#include /* c */ <stdio.h>",
        "Hash@1:1 include@1:2 Less@1:18 stdio@1:19 Dot@1:24 h@1:25 More@1:26 End@1:27",
    ),
    (
        b"#include \"x\"",
        "Hash@1:1 include@1:2 \"x\"@1:10 End@1:13",
    ),
    (b"# define A", "Hash@1:1 define@1:3 A@1:10 End@1:11"),
    (
        b"a #include <stdio.h>",
        "a@1:1 Hash@1:3 include@1:4 Less@1:12 stdio@1:13 Dot@1:18 h@1:19 More@1:20 End@1:21",
    ),
    (
        b"#include <stdio.h> b",
        "Hash@1:1 include@1:2 Less@1:10 stdio@1:11 Dot@1:16 h@1:17 More@1:18 b@1:20 End@1:21",
    ),
    (
        b"#include <math.h>",
        "Hash@1:1 include@1:2 Less@1:10 math@1:11 Dot@1:15 h@1:16 More@1:17 End@1:18",
    ),
];

const FAULTS: [(&[u8], &str); 22] = [
    (b"/*/", "OpenComment@1:1"),
    (b"\xc3\xa9\xc3", "NotUtf8@1:2"),
    (b"0x80000000", "NumberTooLarge@1:1"),
    (b"0x", "NumberForm@1:1"),
    (b"a 0xg", "NumberForm@1:3"),
    (b"1a", "NumberForm@1:1"),
    (b"1.5", "NumberForm@1:1"),
    (b"08", "NumberForm@1:1"),
    (b"99999999999999999999a", "NumberForm@1:1"),
    (b"x \"ab\ny\"", "OpenString@1:3"),
    (b"\"ab", "OpenString@1:1"),
    (b"\"a\\\"", "OpenString@1:1"),
    (b"\"a\\q\"", "BadChar@1:3"),
    (b"\"a\\q", "OpenString@1:1"),
    (b"a \xc3\xa9 b", "BadChar@1:3"),
    (b"/*\xc3\xa9*/ @ \xc3\xa9", "BadChar@1:7"),
    (b"0x @", "NumberForm@1:1"),
    (b"@ \xff", "NotUtf8@1:3"),
    (b"1\xc3\xa9", "BadChar@1:2"),
    (b"#include <stdio.h> /* a", "OpenComment@1:20"),
    (b"\"\xc3\xa9\\q\"", "BadChar@1:3"),
    (b"@ 0x", "BadChar@1:1"),
];

#[test]
fn reader_faults(rt: HostRuntime) -> Result<(), Fail> {
    for (text, expected) in READER_FAULTS {
        assert_eq!(rt; shown(rt.alloc(), text)?.as_str(), expected);
    }
    Ok(())
}

#[test]
fn each_mark_has_its_spelling(rt: HostRuntime) -> Result<(), Fail> {
    for (text, expected) in MARKS {
        assert_eq!(rt; shown(rt.alloc(), text)?.as_str(), expected);
    }
    Ok(())
}

#[test]
fn words_are_longest_and_keep_their_places(rt: HostRuntime) -> Result<(), Fail> {
    for (text, expected) in WORDS {
        assert_eq!(rt; shown(rt.alloc(), text)?.as_str(), expected);
    }
    Ok(())
}

#[test]
fn comments_and_lines_of_known_headers_are_dropped(rt: HostRuntime) -> Result<(), Fail> {
    for (text, expected) in SKIPPED {
        assert_eq!(rt; shown(rt.alloc(), text)?.as_str(), expected);
    }
    Ok(())
}

#[test]
fn the_first_fault_is_answered_with_its_place(rt: HostRuntime) -> Result<(), Fail> {
    for (text, expected) in FAULTS {
        assert_eq!(rt; shown(rt.alloc(), text)?.as_str(), expected);
    }
    Ok(())
}

#[test]
fn a_text_of_a_mebibyte_is_read_and_no_longer_one(rt: HostRuntime) -> Result<(), Fail> {
    let alloc = rt.alloc();
    let mut text = vec![in alloc; b' '; 1_048_576]?;
    assert_eq!(rt; shown(alloc, &text)?.as_str(), "End@1:1048577");
    text.push(0xFF)?;
    assert_eq!(rt; shown(alloc, &text)?.as_str(), "TooLong@1:1");
    Ok(())
}

#[test]
fn refusals_are_told(rt: HostRuntime) -> Result<(), Fail> {
    let alloc = rt.alloc();
    let fault = LexNo::Fault(LexFault {
        pos: Pos { line: 1, column: 1 },
        kind: LexKind::BadChar,
    });
    assert_eq!(rt; tokens(alloc, b"@").err(), Some(fault));
    assert_eq!(rt;
        format!(in alloc; "{}", LexNo::NoMemory)?.as_str(),
        "out of memory"
    );
    Ok(())
}
