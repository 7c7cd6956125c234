// Comments and dropped lines at the head of a text.
use crate::skipped::{Comment, comment_at, include_len};

#[test]
fn comments_end_at_their_marks(rt: HostRuntime) {
    let texts = [
        (b"/* a */b".as_slice(), 7),
        (b"/* a */".as_slice(), 7),
        (b"/**/".as_slice(), 4),
        (b"/* * / **/ */".as_slice(), 10),
        (b"/*\n*/x".as_slice(), 5),
        (b"// a\nb".as_slice(), 4),
        (b"// a".as_slice(), 4),
        (b"//".as_slice(), 2),
        (b"//\n".as_slice(), 2),
        (b"// /*\n*/".as_slice(), 5),
    ];
    for (text, len) in texts {
        assert_eq!(rt; comment_at(text), Comment::Ends { len });
    }
}

#[test]
fn a_comment_is_open_or_none_begins(rt: HostRuntime) {
    let texts = [
        (b"/*/".as_slice(), Comment::Open),
        (b"/*".as_slice(), Comment::Open),
        (b"/* * /".as_slice(), Comment::Open),
        (b"/".as_slice(), Comment::Absent),
        (b"".as_slice(), Comment::Absent),
        (b" //".as_slice(), Comment::Absent),
        (b"*/".as_slice(), Comment::Absent),
    ];
    for (text, answer) in texts {
        assert_eq!(rt; comment_at(text), answer);
    }
}

#[test]
fn a_header_of_the_library_is_dropped(rt: HostRuntime) {
    let texts = [
        (b"#include <stdio.h>\nint".as_slice(), 18),
        (b"#include <stdio.h>".as_slice(), 18),
        (b"#include<stdlib.h> \t\n".as_slice(), 18),
        (b"#include <assert.h> // a\n".as_slice(), 19),
        (b"# \t include \x0b <pthread.h>".as_slice(), 25),
        (b"#include <stdio.h> /* a */ // b".as_slice(), 18),
        (b"#include <stdio.h> /* a\n*/ int".as_slice(), 18),
    ];
    for (text, len) in texts {
        assert_eq!(rt; include_len(text), Some(len));
    }
}

#[test]
fn other_lines_are_kept(rt: HostRuntime) {
    let texts = [
        b"#include \"x\"".as_slice(),
        b"# define A".as_slice(),
        b"#includex <stdio.h>".as_slice(),
        b"#include <stdio.h> int".as_slice(),
        b"#include <stdio.h> /* a */ int".as_slice(),
        b"#include <stdio.h> /* a".as_slice(),
        b"#include <stdio.h> /".as_slice(),
        b"#include <string.h>".as_slice(),
        b"#include < stdio.h>".as_slice(),
        b"#include\n<stdio.h>".as_slice(),
        b"#\ninclude <stdio.h>".as_slice(),
        b" #include <stdio.h>".as_slice(),
        b"#".as_slice(),
        b"".as_slice(),
    ];
    for text in texts {
        assert_eq!(rt; include_len(text), None);
    }
}
