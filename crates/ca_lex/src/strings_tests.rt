// Strings at the head of a text.
use crate::strings::{Quoted, string};
use ca_tree::Listed;
use std::alloc::Global;
use std::test::Fail;

// What the text begins with; a text that begins with no `"` is open here.
fn found(alloc: Global, text: &[u8]) -> Result<Quoted, Fail> {
    match text.first() {
        Some(b'"') => Ok(string(alloc, text)?),
        _ => Ok(Quoted::Open),
    }
}

#[test]
fn a_string_stands_for_its_bytes(rt: HostRuntime) -> Result<(), Fail> {
    let alloc = rt.alloc();
    let texts = [
        (b"\"\"".as_slice(), 2, b"".as_slice()),
        (b"\"ab\" \"c\"".as_slice(), 4, b"ab".as_slice()),
        (
            b"\"\\n\\t\\\\\\\"\";".as_slice(),
            10,
            b"\n\t\\\"".as_slice(),
        ),
        (b"\"a\tb\"".as_slice(), 5, b"a\tb".as_slice()),
        (b"\"\xc3\xa9\"".as_slice(), 4, b"\xc3\xa9".as_slice()),
        (b"\"/*\"*/".as_slice(), 4, b"/*".as_slice()),
    ];
    for (text, len, bytes) in texts {
        let bytes = Listed::from_vec(bytes.to_vec(alloc)?);
        assert_eq!(rt; found(alloc, text)?, Quoted::Closed { len, bytes });
    }
    Ok(())
}

#[test]
fn a_line_ends_no_string(rt: HostRuntime) -> Result<(), Fail> {
    let alloc = rt.alloc();
    let texts = [
        b"\"".as_slice(),
        b"\"a".as_slice(),
        b"\"a\nb\"".as_slice(),
        b"\"a\\q".as_slice(),
        b"\"\\\"".as_slice(),
        b"\"a\\\n\"".as_slice(),
        b"\"a\\".as_slice(),
    ];
    for text in texts {
        assert_eq!(rt; found(alloc, text)?, Quoted::Open);
    }
    Ok(())
}

#[test]
fn the_first_escape_that_is_none_is_told(rt: HostRuntime) -> Result<(), Fail> {
    let alloc = rt.alloc();
    let texts = [
        (b"\"a\\q\"".as_slice(), 2),
        (b"\"\\0\"".as_slice(), 1),
        (b"\"\\n\\x\\y\"".as_slice(), 3),
        (b"\"\\\\\\a\"".as_slice(), 3),
    ];
    for (text, at) in texts {
        assert_eq!(rt; found(alloc, text)?, Quoted::Bad { at });
    }
    Ok(())
}
