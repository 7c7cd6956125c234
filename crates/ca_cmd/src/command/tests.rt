// The worked examples of the command, over files and sinks in memory.
use super::command_alone;
use ca_io::{MemoryFiles, MemorySink};
use std::alloc::{AllocError, Global};
use std::process::Abort;
use std::test::Fail;

const EMPTY_MAIN: &[u8] = b"int main(void){ return 0; }";

const PRINT_SUM: &[u8] = b"int g; int main(void){ g = 2 + 3; printf(\"%d\\n\", g); return 0; }";

const REPORT: &str = "trace 1\n0 end\nending finished\noutput 0\n";

const MISWORDED: &str = "conair: words not understood\n";

// What a call is given: its words, the source in `a.c`, and the numbers of the loads and puts that fail.
#[derive(Clone, Copy)]
struct Given<'a> {
    words: &'a [&'a str],
    source: &'a [u8],
    loads: &'a [u32],
    outs: &'a [u32],
    errs: &'a [u32],
}

// What it answers and writes.
#[derive(Clone, Copy)]
struct Wanted<'a> {
    status: u8,
    out: &'a str,
    err: &'a str,
}

fn check(rt: &impl Abort, alloc: Global, given: Given<'_>, wanted: Wanted<'_>) -> Result<(), Fail> {
    let mut words = Vec::new(alloc);
    for word in given.words {
        words.push(String::from_str(alloc, word)?)?;
    }
    let mut files = MemoryFiles::new(alloc, given.loads.to_vec(alloc)?)?;
    files.add("a.c", given.source)?;
    let mut out = MemorySink::new(alloc, given.outs.to_vec(alloc)?)?;
    let mut err = MemorySink::new(alloc, given.errs.to_vec(alloc)?)?;
    let status = command_alone(alloc, &words, &mut files, &mut out, &mut err);
    assert_eq!(rt; status, wanted.status);
    assert_eq!(rt; out.bytes(), wanted.out.as_bytes());
    assert_eq!(rt; err.bytes(), wanted.err.as_bytes());
    Ok(())
}

// A run of a source in which nothing fails.
fn run_of(source: &[u8]) -> Given<'_> {
    Given {
        words: &["run", "a.c"],
        source,
        loads: &[],
        outs: &[],
        errs: &[],
    }
}

// Other words, with the source that runs.
fn said<'a>(words: &'a [&'a str]) -> Given<'a> {
    Given {
        words,
        source: EMPTY_MAIN,
        loads: &[],
        outs: &[],
        errs: &[],
    }
}

// The source that runs, with what fails.
fn failing<'a>(loads: &'a [u32], outs: &'a [u32], errs: &'a [u32]) -> Given<'a> {
    Given {
        words: &["run", "a.c"],
        source: EMPTY_MAIN,
        loads,
        outs,
        errs,
    }
}

#[test]
fn empty_main(rt: HostRuntime) -> Result<(), Fail> {
    let wanted = Wanted {
        status: 0,
        out: REPORT,
        err: "",
    };
    let sources: [&[u8]; 4] = [
        EMPTY_MAIN,
        b"int main(void){return 2147483647;}",
        b"\x0b\x0c int\tmain\r\n( void ) {\nreturn\n7 ; }\n",
        b"int main(void){return 10;}",
    ];
    for source in sources {
        check(&rt, rt.alloc(), run_of(source), wanted)?;
    }
    Ok(())
}

const LEX_FAULTS: [(&[u8], &str); 14] = [
    (b"int main(void) { /* x", "1:18: OpenComment"),
    (b"int g;\n\xff", "2:1: NotUtf8"),
    (b"int main(void){ return 0;\xff }", "1:26: NotUtf8"),
    (b"/* \xE6\xBC\xA2 */ \xE6", "1:9: NotUtf8"),
    (b"int g = 2147483648;", "1:9: NumberTooLarge"),
    (
        b"int main(void){ return 99999999999999999999; }",
        "1:24: NumberTooLarge",
    ),
    (b"int main(void){ return 007; }", "1:24: NumberForm"),
    (b"int 1x;", "1:5: NumberForm"),
    (b"int x = 0x;", "1:9: NumberForm"),
    (b"int main(void){ return 0; }\x00", "1:28: BadChar"),
    (b"\xef\xbb\xbfint g;", "1:1: BadChar"),
    (b"int g;\n  @", "2:3: BadChar"),
    (b"int main(void) { printf(\"x\n\"); }", "1:25: OpenString"),
    (b"int main(void) { printf(\"a\\q\"); }", "1:27: BadChar"),
];

const READ_FAULTS: [(&[u8], &str); 16] = [
    (
        b"int main(void) { /* \xE6\xBC\xA2\xE5\xAD\x97 */ return f(); }",
        "1:35: LeftOut InnerCall",
    ),
    (b"int main(void) { x = 1 << 2; }", "1:24: LeftOut Operator"),
    (b"int main(void) { goto x; }", "1:18: LeftOut Keyword"),
    (b"int g;\n#define x 1\n", "2:1: LeftOut Preprocessor"),
    (
        b"int _Bool; int main(void){ return 0; }",
        "1:5: LeftOut Keyword",
    ),
    (b"int while; int main(void){ return 0; }", "1:5: Grammar"),
    (b"int main(void){ return0; }", "1:24: Grammar"),
    (b"intmain(void){ return 0; }", "1:1: Grammar"),
    (b"int main(void){ return 0 }", "1:26: Grammar"),
    (b"int main(void){ return 0; } x", "1:29: Grammar"),
    (b"int main(void){ return 0; ", "1:27: Grammar"),
    (b"int x; int main(void){ x==1; return 0; }", "1:25: Grammar"),
    (
        b"int x; int main(void){ x = 1++2; return 0; }",
        "1:29: Grammar",
    ),
    (
        b"int x; int main(void){ x = 1 + +2; return 0; }",
        "1:32: Grammar",
    ),
    (b"int x; int main(void){ x = ; return 0; }", "1:28: Grammar"),
    (
        b"int x; int main(void){ x = 1 +; return 0; }",
        "1:31: Grammar",
    ),
];

const TYPE_FAULTS: [(&[u8], &str); 11] = [
    (b"", "1:1: NoMain"),
    (b"int Main(void){ return 0; }", "1:1: NoMain"),
    (b"int main(void) { x = 1; return 0; }", "1:18: Unknown"),
    (
        b"int g; int main(void){ g = h; return 0; }",
        "1:28: Unknown",
    ),
    (b"int g; int g; int main(void) { return 0; }", "1:12: Twice"),
    (b"int printf; int main(void){ return 0; }", "1:5: Twice"),
    (b"int main(void){ return; }", "1:17: Mismatch"),
    (
        b"int main(void){ printf(\"%s\"); return 0; }",
        "1:24: Directive",
    ),
    (
        b"int main(void){ int x; int *p = &(x + 1); return 0; }",
        "1:35: NotLvalue",
    ),
    (
        b"int a[65537]; int main(void){ return 0; }",
        "1:5: TooManyCells",
    ),
    (
        b"int f(void){ return 0; } int main(void){ pthread_t t; pthread_create(&t, NULL, f, NULL); return 0; }",
        "1:80: ThreadForm",
    ),
];

// A fault with its place.
fn faulty(rt: &impl Abort, alloc: Global, source: &[u8], fault: &str) -> Result<(), Fail> {
    let err = format!(in alloc; "conair: a.c:{fault}\n")?;
    let wanted = Wanted {
        status: 3,
        out: "",
        err: err.as_str(),
    };
    check(rt, alloc, run_of(source), wanted)
}

#[test]
fn the_first_fault_is_told_with_its_place(rt: HostRuntime) -> Result<(), Fail> {
    for (source, fault) in LEX_FAULTS {
        faulty(&rt, rt.alloc(), source, fault)?;
    }
    for (source, fault) in READ_FAULTS {
        faulty(&rt, rt.alloc(), source, fault)?;
    }
    for (source, fault) in TYPE_FAULTS {
        faulty(&rt, rt.alloc(), source, fault)?;
    }
    // a fault of the tokens comes before one of the grammar, and this before one of types
    faulty(
        &rt,
        rt.alloc(),
        b"int main(void){ x = 1; return 0 }",
        "1:33: Grammar",
    )?;
    faulty(
        &rt,
        rt.alloc(),
        b"} int g = 2147483648;",
        "1:11: NumberTooLarge",
    )
}

// The report of a run, with this status.
fn reports(
    rt: &impl Abort,
    alloc: Global,
    source: &[u8],
    status: u8,
    out: &str,
) -> Result<(), Fail> {
    let wanted = Wanted {
        status,
        out,
        err: "",
    };
    check(rt, alloc, run_of(source), wanted)
}

// A text with a piece in it that is there some times.
fn repeated(
    alloc: Global,
    front: &str,
    piece: &str,
    count: u32,
    back: &str,
) -> Result<String, AllocError> {
    let mut text = String::from_str(alloc, front)?;
    for _ in 0..count {
        text.push_str(piece)?;
    }
    text.push_str(back)?;
    Ok(text)
}

#[test]
fn print_sum(rt: HostRuntime) -> Result<(), Fail> {
    reports(
        &rt,
        rt.alloc(),
        PRINT_SUM,
        0,
        "trace 4\n0 write @0.0 5\n0 read @0.0 5\n0 print 350a\n0 end\nending finished\noutput 2\n5\n",
    )
}

#[test]
fn sum_overflows(rt: HostRuntime) -> Result<(), Fail> {
    let fault = "trace 1\n0 fault arith\nending fault\noutput 0\n";
    let sources: [&[u8]; 3] = [
        b"int g; int main(void){ g = 2147483647 + 1; return 0; }",
        b"int main(void){ return 2147483647 + 1; }",
        b"int main(void){ return 1 + 2147483647 + 0; }",
    ];
    for source in sources {
        reports(&rt, rt.alloc(), source, 1, fault)?;
    }
    reports(
        &rt,
        rt.alloc(),
        b"int g; int main(void){ g = 2147483647; printf(\"%d\\n\", 7); printf(\"%d\\n\", g + g); return 0; }",
        1,
        "trace 5\n0 write @0.0 2147483647\n0 print 370a\n0 read @0.0 2147483647\n0 read @0.0 2147483647\n0 fault arith\nending fault\noutput 2\n7\n",
    )
}

#[test]
fn globals_are_read_from_left_to_right(rt: HostRuntime) -> Result<(), Fail> {
    reports(
        &rt,
        rt.alloc(),
        b"int a; int b;\nint c;\nint main(void){ a = 1; b = 20; c = 300; a = a + 4 + b + 5 + c; return a; }",
        0,
        "trace 9\n0 write @0.0 1\n0 write @1.0 20\n0 write @2.0 300\n0 read @0.0 1\n0 read @1.0 20\n0 read @2.0 300\n0 write @0.0 330\n0 read @0.0 330\n0 end\nending finished\noutput 0\n",
    )?;
    reports(
        &rt,
        rt.alloc(),
        b"int _; int x1; int main(void){ x1=x1+_; return 0; }",
        0,
        "trace 4\n0 read @1.0 0\n0 read @0.0 0\n0 write @1.0 0\n0 end\nending finished\noutput 0\n",
    )
}

#[test]
fn comments_and_includes_are_skipped(rt: HostRuntime) -> Result<(), Fail> {
    let alloc = rt.alloc();
    reports(
        &rt,
        alloc,
        b"#include <pthread.h>\n# include <stdio.h> // out\n#include <stdlib.h>\n/* and */ #include <assert.h>\nint g; // a global\nint main(void) { g /* is */ = 0x1F; return g; }\n",
        0,
        "trace 3\n0 write @0.0 31\n0 read @0.0 31\n0 end\nending finished\noutput 0\n",
    )?;
    reports(
        &rt,
        alloc,
        b"int main(void){ return 0; /* x */ } // y",
        0,
        REPORT,
    )
}

#[test]
fn names_have_up_to_63_bytes(rt: HostRuntime) -> Result<(), Fail> {
    let alloc = rt.alloc();
    let long = repeated(alloc, "", "a", 62, "")?;
    let source = format!(in alloc;
        "int {long}b; int {long}c; int main(void){{ {long}c = 2; return {long}b; }}"
    )?;
    let out = "trace 3\n0 write @1.0 2\n0 read @0.0 0\n0 end\nending finished\noutput 0\n";
    reports(&rt, alloc, source.as_str().as_bytes(), 0, out)?;
    let longer = format!(in alloc; "int {long}bc; int main(void){{ return 0; }}")?;
    faulty(
        &rt,
        alloc,
        longer.as_str().as_bytes(),
        "1:5: TooMany NameBytes",
    )
}

#[test]
fn sums_have_up_to_64_parts(rt: HostRuntime) -> Result<(), Fail> {
    let alloc = rt.alloc();
    let most = repeated(alloc, "int main(void){ return 0", " + 1", 63, "; }")?;
    reports(&rt, alloc, most.as_str().as_bytes(), 0, REPORT)?;
    let more = repeated(alloc, "int main(void){ return 0", " + 1", 64, "; }")?;
    faulty(
        &rt,
        alloc,
        more.as_str().as_bytes(),
        "1:278: TooMany Nesting",
    )
}

#[test]
fn there_are_up_to_1024_globals(rt: HostRuntime) -> Result<(), Fail> {
    let alloc = rt.alloc();
    let mut declarations = String::new(alloc);
    for number in 0..1024u32 {
        let line = format!(in alloc; "int g{number};\n")?;
        declarations.push_str(line.as_str())?;
    }
    let most = format!(in alloc; "{declarations}int main(void){{ return g1023; }}")?;
    let out = "trace 2\n0 read @1023.0 0\n0 end\nending finished\noutput 0\n";
    reports(&rt, alloc, most.as_str().as_bytes(), 0, out)?;
    let more = format!(in alloc; "int h; {declarations}int main(void){{ return 0; }}")?;
    faulty(
        &rt,
        alloc,
        more.as_str().as_bytes(),
        "1024:5: TooMany Globals",
    )
}

#[test]
fn words_refused(rt: HostRuntime) -> Result<(), Fail> {
    let wanted = Wanted {
        status: 2,
        out: "",
        err: MISWORDED,
    };
    let all: [&[&str]; 10] = [
        &[],
        &["run"],
        &["a.c"],
        &["run", "a.c", "b.c"],
        &["check", "a.c"],
        &["Run", "a.c"],
        &["run", "-"],
        &["run", "--plain"],
        &["run", "a.c", "--seed", "1", "--schedule", "0"],
        &["run", "a.c", "--limit", "10001"],
    ];
    for words in all {
        check(&rt, rt.alloc(), said(words), wanted)?;
    }
    Ok(())
}

#[test]
fn outside_fails(rt: HostRuntime) -> Result<(), Fail> {
    let alloc = rt.alloc();
    let unread = Wanted {
        status: 6,
        out: "",
        err: "conair: cannot read a.c\n",
    };
    check(&rt, alloc, failing(&[1], &[], &[]), unread)?;
    let missing = Wanted {
        status: 6,
        out: "",
        err: "conair: cannot read b.c\n",
    };
    check(&rt, alloc, said(&["run", "b.c"]), missing)?;
    let fronts = [
        "",
        "trace 1\n",
        "trace 1\n0 end\n",
        "trace 1\n0 end\nending finished\n",
    ];
    let mut number = 0u32;
    for out in fronts {
        number = number.saturating_add(1);
        let cut = Wanted {
            status: 7,
            out,
            err: "",
        };
        check(&rt, alloc, failing(&[], &[number], &[]), cut)?;
    }
    let whole = Wanted {
        status: 0,
        out: REPORT,
        err: "",
    };
    check(&rt, alloc, failing(&[2], &[5], &[1]), whole)?;
    let without_output = Wanted {
        status: 7,
        out: "trace 4\n0 write @0.0 5\n0 read @0.0 5\n0 print 350a\n0 end\nending finished\noutput 2\n",
        err: "",
    };
    let printing = Given {
        source: PRINT_SUM,
        ..failing(&[], &[8], &[])
    };
    check(&rt, alloc, printing, without_output)?;
    let untold = Wanted {
        status: 7,
        out: "",
        err: "",
    };
    check(&rt, alloc, failing(&[1], &[], &[1]), untold)
}

#[test]
fn longest_source(rt: HostRuntime) -> Result<(), Fail> {
    let alloc = rt.alloc();
    let mut source = vec![in alloc; b' '; 1048549]?;
    source.extend_from_slice(EMPTY_MAIN)?;
    let whole = Wanted {
        status: 0,
        out: REPORT,
        err: "",
    };
    check(&rt, alloc, run_of(&source), whole)?;
    source.push(b'\n')?;
    let long = Wanted {
        status: 3,
        out: "",
        err: "conair: a.c: longer than 1048576 bytes\n",
    };
    check(&rt, alloc, run_of(&source), long)
}
