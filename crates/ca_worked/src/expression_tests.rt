// Expressions read from their text, worked by hand from the rules of C11 6.5.
use crate::readings::{read_expression as read, repeated};
use ca_lex::LexNo;
use ca_read::ReadNo;
use ca_tree::tree::Exp;
use ca_tree::{Pos, Text};
use std::alloc::{AllocError, Global};
use std::str::from_utf8;
use std::test::Fail;

fn text_of(text: &Text) -> &str {
    from_utf8(text.as_slice()).unwrap_or("?")
}

// An expression in prefix form, with its parts.
#[cycle(shown)]
pub(crate) fn shown(alloc: Global, exp: &Exp) -> Result<String, AllocError> {
    match exp {
        Exp::Number(_, value) => format!(in alloc; "{value}"),
        Exp::Null(_) => format!(in alloc; "NULL"),
        Exp::Name(name) => format!(in alloc; "{}", text_of(&name.text)),
        Exp::Unary(_, operator, a) => {
            let a = shown(alloc, a.get())?;
            format!(in alloc; "{operator:?}({a})")
        }
        Exp::Binary(_, operator, a, b) => {
            let a = shown(alloc, a.get())?;
            let b = shown(alloc, b.get())?;
            format!(in alloc; "{operator:?}({a}, {b})")
        }
        Exp::Index(_, a, i) => {
            let a = shown(alloc, a.get())?;
            let i = shown(alloc, i.get())?;
            format!(in alloc; "{a}[{i}]")
        }
        Exp::Field(_, a, name) => {
            let a = shown(alloc, a.get())?;
            format!(in alloc; "{a}.{}", text_of(&name.text))
        }
        Exp::Arrow(_, a, name) => {
            let a = shown(alloc, a.get())?;
            format!(in alloc; "{a}->{}", text_of(&name.text))
        }
    }
}

fn at(alloc: Global, pos: Pos) -> Result<String, AllocError> {
    format!(in alloc; "{}:{}", pos.line, pos.column)
}

// The tree, the places of its first character without and with its parentheses, and its depth; or the fault and its place.
fn answer(alloc: Global, text: &[u8]) -> Result<String, AllocError> {
    match read(alloc, text) {
        Ok(Ok(a)) => {
            let tree = shown(alloc, &a.exp)?;
            let pos = at(alloc, a.pos)?;
            let start = at(alloc, a.start)?;
            format!(in alloc; "{tree} {pos} {start} {}", a.depth)
        }
        Ok(Err(ReadNo::Fault(fault))) => {
            let pos = at(alloc, fault.pos)?;
            format!(in alloc; "{:?} {pos}", fault.kind)
        }
        Ok(Err(ReadNo::NoMemory)) => Err(AllocError),
        Err(LexNo::NoMemory) => Err(AllocError),
        Err(LexNo::Fault(_)) => format!(in alloc; "no tokens"),
    }
}

const TREES: [(&[u8], &str); 38] = [
    (b"7", "7 1:1 1:1 1"),
    (b"0x1F", "31 1:1 1:1 1"),
    (b" NULL", "NULL 1:2 1:2 1"),
    (b"free", "free 1:1 1:1 1"),
    (b"(a)", "a 1:2 1:1 1"),
    (b"((a))", "a 1:3 1:1 2"),
    (b"((a) + b)", "Add(a, b) 1:2 1:1 2"),
    (b"(((a)))", "a 1:4 1:1 3"),
    (b"a[1]", "a[1] 1:1 1:1 2"),
    (b"a[i][j + 1]", "a[i][Add(j, 1)] 1:1 1:1 3"),
    (b"a.f", "a.f 1:1 1:1 2"),
    (b"a->f.g", "a->f.g 1:1 1:1 3"),
    (b"(a)->f", "a->f 1:1 1:1 2"),
    (b"-a", "Negate(a) 1:1 1:1 2"),
    (b"!a", "Not(a) 1:1 1:1 2"),
    (b"*a", "Deref(a) 1:1 1:1 2"),
    (b"&a", "AddressOf(a) 1:1 1:1 2"),
    (b"- -a", "Negate(Negate(a)) 1:1 1:1 3"),
    (b"-a[i]->f.g", "Negate(a[i]->f.g) 1:1 1:1 5"),
    (b"*&p->x", "Deref(AddressOf(p->x)) 1:1 1:1 4"),
    (b"a * b / c % d", "Rem(Div(Mul(a, b), c), d) 1:1 1:1 4"),
    (b"a - b - c", "Sub(Sub(a, b), c) 1:1 1:1 3"),
    (b"a - (b - c)", "Sub(a, Sub(b, c)) 1:1 1:1 3"),
    (b"a + b * c", "Add(a, Mul(b, c)) 1:1 1:1 3"),
    (b"a * b + c", "Add(Mul(a, b), c) 1:1 1:1 3"),
    (b"(a + b) % c", "Rem(Add(a, b), c) 1:1 1:1 3"),
    (b"a < b < c", "Less(Less(a, b), c) 1:1 1:1 3"),
    (b"a > b", "More(a, b) 1:1 1:1 2"),
    (b"a <= b >= c", "MoreSame(LessSame(a, b), c) 1:1 1:1 3"),
    (b"a < b + c", "Less(a, Add(b, c)) 1:1 1:1 3"),
    (b"a == b != c", "Differs(Same(a, b), c) 1:1 1:1 3"),
    (b"a == b < c", "Same(a, Less(b, c)) 1:1 1:1 3"),
    (b"a && b && c", "And(And(a, b), c) 1:1 1:1 3"),
    (b"a && b == c", "And(a, Same(b, c)) 1:1 1:1 3"),
    (b"a || b || c", "Or(Or(a, b), c) 1:1 1:1 3"),
    (b"a || b && c", "Or(a, And(b, c)) 1:1 1:1 3"),
    (b"!a && b || c", "Or(And(Not(a), b), c) 1:1 1:1 4"),
    (b"a\n  + /* b */ c", "Add(a, c) 1:1 1:1 2"),
];

#[test]
fn each_expression_has_its_tree(rt: HostRuntime) -> Result<(), Fail> {
    for (text, expected) in TREES {
        assert_eq!(rt; answer(rt.alloc(), text)?.as_str(), expected);
    }
    Ok(())
}

const FAULTS: [(&[u8], &str); 24] = [
    (b"", "Grammar 1:1"),
    (b"\n ", "Grammar 2:2"),
    (b"a b", "Grammar 1:3"),
    (b"a, b", "Grammar 1:2"),
    (b"a = b", "Grammar 1:3"),
    (b"+a", "Grammar 1:1"),
    (b"a++", "Grammar 1:2"),
    (b"a == = b", "Grammar 1:6"),
    (b"while", "Grammar 1:1"),
    (b"pthread_t", "Grammar 1:1"),
    (b"a.7", "Grammar 1:3"),
    (b"\"a\"", "Grammar 1:1"),
    (b"1(", "Grammar 1:2"),
    (b"NULL(", "Grammar 1:5"),
    (b"a[1](", "Grammar 1:5"),
    (b"f(x)", "LeftOut(InnerCall) 1:2"),
    (b"1 + f (x)", "LeftOut(InnerCall) 1:7"),
    (b"free(x)", "LeftOut(InnerCall) 1:5"),
    (b"a << 1", "LeftOut(Operator) 1:3"),
    (b"a & b", "LeftOut(Operator) 1:3"),
    (b"a ? b : c", "LeftOut(Operator) 1:3"),
    (b"~a", "LeftOut(Operator) 1:1"),
    (b"a + goto", "LeftOut(Keyword) 1:5"),
    (b"a\n#", "LeftOut(Preprocessor) 2:1"),
];

#[test]
fn the_first_fault_is_answered(rt: HostRuntime) -> Result<(), Fail> {
    for (text, expected) in FAULTS {
        assert_eq!(rt; answer(rt.alloc(), text)?.as_str(), expected);
    }
    Ok(())
}

// A smallest text for each production, a character for each token.
const SMALLEST: [&[u8]; 20] = [
    b"1", b"a", b"(1)", b"a[1]", b"a.b", b"-1", b"!1", b"*a", b"&a", b"1*1", b"1/1", b"1%1",
    b"1+1", b"1-1", b"1<1", b"1>1", b"(a)[1]", b"(a).b", b"-(1)", b"a[1][1]",
];

// What a token is replaced by, and the kind of the fault there.
const REPLACED: [(&[u8], &str); 4] = [
    (b" # ", "LeftOut(Preprocessor)"),
    (b" switch ", "LeftOut(Keyword)"),
    (b" ? ", "LeftOut(Operator)"),
    (b" ) ", "Grammar"),
];

#[test]
fn a_text_that_is_cut_or_changed_has_its_fault_there(rt: HostRuntime) -> Result<(), Fail> {
    let alloc = rt.alloc();
    for text in SMALLEST {
        assert!(rt; read(alloc, text)?.is_ok());
        for i in 0..text.len() {
            let cut = format!(in alloc; "Grammar 1:{}", i.saturating_add(1))?;
            let front = text.get(..i).unwrap_or(b"");
            let is_whole = read(alloc, front)?.is_ok();
            if !is_whole {
                assert_eq!(rt; answer(alloc, front)?.as_str(), cut.as_str());
            }
            for (other, kind) in REPLACED {
                if text.get(i) == Some(&b')') && kind == "Grammar" {
                    continue;
                }
                let mut changed = Vec::from_slice(alloc, front)?;
                changed.extend_from_slice(other)?;
                changed.extend_from_slice(text.get(i.saturating_add(1)..).unwrap_or(b""))?;
                let there = format!(in alloc; "{kind} 1:{}", i.saturating_add(2))?;
                assert_eq!(rt; answer(alloc, &changed)?.as_str(), there.as_str());
            }
        }
    }
    Ok(())
}

// What is repeated between two texts up to which number of times, and the fault with one more.
const DEEPEST: [(&[u8], &[u8], &[u8], u32, &str); 5] = [
    (b"1", b"+1", b"", 63, "TooMany(Nesting) 1:128"),
    (b"", b"!", b"a", 63, "TooMany(Nesting) 1:64"),
    (b"a", b"[1]", b"", 63, "TooMany(Nesting) 1:191"),
    (b"a", b".b", b"", 63, "TooMany(Nesting) 1:128"),
    (b"a", b"->b", b"", 63, "TooMany(Nesting) 1:191"),
];

#[test]
fn an_expression_is_at_most_64_deep(rt: HostRuntime) -> Result<(), Fail> {
    let alloc = rt.alloc();
    for (front, middle, back, times, expected) in DEEPEST {
        let deepest = repeated(alloc, front, middle, times, back)?;
        assert!(rt; read(alloc, &deepest)?.is_ok());
        let deeper = repeated(alloc, front, middle, times.saturating_add(1), back)?;
        assert_eq!(rt; answer(alloc, &deeper)?.as_str(), expected);
    }
    Ok(())
}

fn enclosed(alloc: Global, open: &[u8], times: u32, close: &[u8]) -> Result<Vec<u8>, AllocError> {
    let opened = repeated(alloc, b"", open, times, b"1")?;
    repeated(alloc, &opened, close, times, b"")
}

// What stands before and behind a 1 up to which number of times, and the fault with one more.
const ENCLOSED: [(&[u8], &[u8], u32, &str); 4] = [
    (b"(", b")", 64, "TooMany(Nesting) 1:65"),
    (b"a[", b"]", 63, "TooMany(Nesting) 1:128"),
    (b"-(", b")", 63, "TooMany(Nesting) 1:127"),
    (b"(1+", b")", 63, "TooMany(Nesting) 1:192"),
];

#[test]
fn what_is_enclosed_is_at_most_64_deep(rt: HostRuntime) -> Result<(), Fail> {
    let alloc = rt.alloc();
    for (open, close, times, expected) in ENCLOSED {
        match read(alloc, &enclosed(alloc, open, times, close)?)? {
            Ok(a) => assert_eq!(rt; a.depth, 64),
            Err(_) => assert!(rt; false),
        }
        let deeper = enclosed(alloc, open, times.saturating_add(1), close)?;
        assert_eq!(rt; answer(alloc, &deeper)?.as_str(), expected);
    }
    Ok(())
}

#[test]
fn a_name_has_at_most_63_bytes(rt: HostRuntime) -> Result<(), Fail> {
    let alloc = rt.alloc();
    let longest = repeated(alloc, b"a->", b"x", 63, b"")?;
    assert!(rt; read(alloc, &longest)?.is_ok());
    let longer = repeated(alloc, b"a->", b"x", 64, b" b")?;
    assert_eq!(rt; answer(alloc, &longer)?.as_str(), "TooMany(NameBytes) 1:4");
    Ok(())
}

#[test]
fn an_expression_of_16381_tokens_is_read(rt: HostRuntime) -> Result<(), Fail> {
    let alloc = rt.alloc();
    let mut text = Vec::from_slice(alloc, b"a")?;
    for _ in 0..12 {
        let mut sum = Vec::from_slice(alloc, b"(")?;
        sum.extend_from_slice(&text)?;
        sum.push(b'+')?;
        sum.extend_from_slice(&text)?;
        sum.push(b')')?;
        text = sum;
    }
    match read(alloc, &text)? {
        Ok(a) => assert_eq!(rt; a.depth, 13),
        Err(_) => assert!(rt; false),
    }
    Ok(())
}
