// Programs read from their text, worked by hand from the grammar.
use crate::expression_tests::shown;
use crate::readings::{read_program as read, repeated};
use ca_lex::LexNo;
use ca_read::ReadNo;
use ca_sources::ALL;
use ca_tree::tree::{Right, Simple, Stmt, Top};
use std::alloc::{AllocError, Global};
use std::test::Fail;

// `read` for a program, or the fault and its place.
fn answer(alloc: Global, text: &[u8]) -> Result<String, AllocError> {
    match read(alloc, text) {
        Ok(Ok(_)) => format!(in alloc; "read"),
        Ok(Err(ReadNo::Fault(fault))) => {
            format!(in alloc; "{:?} {}:{}", fault.kind, fault.pos.line, fault.pos.column)
        }
        Ok(Err(ReadNo::NoMemory)) => Err(AllocError),
        Err(LexNo::NoMemory) => Err(AllocError),
        Err(LexNo::Fault(_)) => format!(in alloc; "no tokens"),
    }
}

const DECLARATIONS: [&[u8]; 18] = [
    b"",
    b"int main(void){ return 0; }",
    b"int g; int main(void){ g = 2 + 3; printf(\"%d\\n\", g); return 0; }",
    b"static volatile int x = 1, *p = NULL, a[3], y = -5;",
    b"volatile static volatile int x;",
    b"pthread_mutex_t a = PTHREAD_MUTEX_INITIALIZER, b; static pthread_t t, ts[2];",
    b"struct s { int a, *b; struct s *next; }; struct s x, *y; struct t *z;",
    b"struct s { struct t *a, **b; };",
    b"int f(); int f(void); int f(int); int f(int a, int **b, struct s *c, void *d);",
    b"void f(void); void *f(void *); void *f(void *x); int *f(int x); struct s *f(struct s *x);",
    b"static struct s *g(void); static struct s f;",
    b"void f(void) { }",
    b"void f(int, int) { }",
    b"int f(int malloc, int free) { return malloc + free; }",
    b"int malloc; struct free { int printf; }; void assert(void) { x = 1 + free; }",
    b"#include <stdio.h>\nint a; /* comment */ int b; // comment\nint c;",
    b"int x[2], y; int z = NULL, w = -0;",
    b"pthread_t t;",
];

const STATEMENTS: [&[u8]; 34] = [
    b";",
    b"{ } {;} { { int a; } }",
    b"int a; int *b = NULL, c = 1, **d; volatile volatile int e;",
    b"pthread_t t, u; struct s *p, *q = x; volatile pthread_t v;",
    b"x = y; *x = y; x[1] = 2; x->f.g = -y; (x) = 1; -x = 1; 1 = 2; NULL = x;",
    b"x += 1; x -= 1; x *= 1; x /= 1; x %= 1;",
    b"x++; x--; ++x; --x; *p++; ++*p; x->n++; ++free;",
    b"g(); g(1); g(1, a + b, *c); x = g(2); int y = g(y);",
    b"p = malloc(sizeof(int)); p = malloc(sizeof(struct s)); p = malloc(sizeof(int *));",
    b"p = malloc(n * sizeof(int)); p = malloc((a + b) * sizeof(struct s **));",
    b"p = (int *)malloc(sizeof(int)); p = (struct s *)malloc(2 * sizeof(struct s));",
    b"int *p = malloc(sizeof(int)); x = (a); x = (a)[1]; x = (a + b) * c;",
    b"pthread_mutex_lock(&m); pthread_mutex_unlock(&m);",
    b"pthread_create(&t, NULL, g, NULL); pthread_join(t, NULL);",
    b"free(p); assert(a == b); printf(\"\"); printf(\"%d\", 1, 2);",
    b"return; return 1; return (a);",
    b"if (a) x = 1; if (a) ; else ; if (a) { } else if (b) { } else { }",
    b"while (a) ; while (a) { break; continue; } while (1) if (a) break; else continue;",
    b"do ; while (a); do { x++; } while (a); do while (a) ; while (b);",
    b"for (;;) ; for (x = 0; x < 3; x++) ; for (; a; ) ; for (; ; x++) ;",
    b"for (int i = 0; i < 3; i++) { continue; } for (struct s *p = a; ; ) break;",
    b"for (g(); ; g()) ; for (free(p); a; free(p)) ; for (int i; ; ++x) ;",
    b"x = !a && b || c; x = a < b < c;",
    b"x = NULL; x = 0x1F; x = &a; x = *&p->x; x = -1; x = - -1;",
    b"while (a) do if (b) break; while (c);",
    b"if (a) while (b) if (c) ; else ; else ;",
    b"if (a) do ; while (b); else ;",
    b"if (a) for (;;) if (b) ; else ; else ;",
    b"g(a, b, c, d, e, f, g, h, i, j, k);",
    b"x = a[b[c]]; x = a->b->c[1].d;",
    b"x = malloc((malloc) * sizeof(int));",
    b"printf(\"%d\", 1, 2, 3, 4, 5, 6, 7, 8);",
    b"if ((a)) { int a; } else { pthread_t b; }",
    b"x = y(z) ; x = (y)[1] ; x = y[1] ; x = y ;",
];

fn in_function(alloc: Global, body: &[u8]) -> Result<Vec<u8>, AllocError> {
    repeated(alloc, b"void f(void) {", body, 1, b"}")
}

#[test]
fn worked_sources_are_read(rt: HostRuntime) -> Result<(), Fail> {
    let alloc = rt.alloc();
    for source in ALL {
        assert_eq!(rt; answer(alloc, source)?.as_str(), "read");
    }
    Ok(())
}

#[test]
fn programs_are_read(rt: HostRuntime) -> Result<(), Fail> {
    let alloc = rt.alloc();
    for text in DECLARATIONS {
        assert_eq!(rt; answer(alloc, text)?.as_str(), "read");
    }
    for body in STATEMENTS {
        let text = in_function(alloc, body)?;
        assert_eq!(rt; answer(alloc, &text)?.as_str(), "read");
    }
    Ok(())
}

const FAULTS: [(&[u8], &str); 36] = [
    (b"}", "Grammar 1:1"),
    (b"int main(void) { } }", "Grammar 1:20"),
    (b"int main(void) {", "Grammar 1:17"),
    (
        b"int main(void) { /* \xE6\xBC\xA2\xE5\xAD\x97 */ return f(); }",
        "LeftOut(InnerCall) 1:35",
    ),
    (b"int main(void) { x = 1 << 2; }", "LeftOut(Operator) 1:24"),
    (b"int main(void) { goto x; }", "LeftOut(Keyword) 1:18"),
    (b"#define A", "LeftOut(Preprocessor) 1:1"),
    (b"int a, b(", "LeftOut(InnerCall) 1:9"),
    (b"struct s (*f)(void);", "LeftOut(InnerCall) 1:10"),
    (b"struct s f(void);", "Grammar 1:10"),
    (b"struct s f(int x) { }", "Grammar 1:10"),
    (b"struct s f {", "Grammar 1:12"),
    (b"struct s { };", "Grammar 1:12"),
    (b"struct s { struct t x; };", "Grammar 1:21"),
    (b"struct s { struct t *n, m; };", "Grammar 1:25"),
    (b"struct s { int a[2]; };", "Grammar 1:17"),
    (b"static struct s { int a; };", "Grammar 1:17"),
    (b"void f(struct s x);", "Grammar 1:17"),
    (b"void f(struct s);", "Grammar 1:16"),
    (b"void f(void x);", "Grammar 1:13"),
    (b"void f(int a[3]);", "Grammar 1:13"),
    (b"void f(int,);", "Grammar 1:12"),
    (b"void x;", "Grammar 1:7"),
    (b"int f(void) = 1;", "Grammar 1:13"),
    (b"int if;", "Grammar 1:5"),
    (b"int NULL;", "Grammar 1:5"),
    (b"int x = - NULL;", "Grammar 1:11"),
    (b"int x = 1 + 1;", "Grammar 1:11"),
    (b"int x[n];", "Grammar 1:7"),
    (b"pthread_mutex_t m = 0;", "Grammar 1:21"),
    (b"pthread_mutex_t m[2];", "Grammar 1:18"),
    (b"pthread_t t = 0;", "Grammar 1:13"),
    (b"pthread_t *t;", "Grammar 1:11"),
    (b"char c;", "LeftOut(Keyword) 1:1"),
    (b"int x = ~1;", "LeftOut(Operator) 1:9"),
    (b"int x; 5", "Grammar 1:8"),
];

const BODY_FAULTS: [(&[u8], &str); 44] = [
    (b"x = free(p);", "Grammar 1:19"),
    (b"x = free;", "Grammar 1:19"),
    (b"x = malloc;", "Grammar 1:25"),
    (b"malloc(1);", "Grammar 1:15"),
    (b"x = malloc(1);", "Grammar 1:27"),
    (b"x = malloc(n * m);", "Grammar 1:30"),
    (b"x = malloc(sizeof(int) * 2);", "Grammar 1:38"),
    (b"x = malloc(sizeof x);", "Grammar 1:33"),
    (b"x = (int *)y;", "Grammar 1:26"),
    (b"x = (int)malloc;", "Grammar 1:30"),
    (b"x = y = z;", "Grammar 1:21"),
    (b"x = 1, y = 2;", "Grammar 1:20"),
    (b"x = f(1) + 2;", "Grammar 1:24"),
    (b"x = 1 + f(1);", "LeftOut(InnerCall) 1:24"),
    (b"x;", "Grammar 1:16"),
    (b"x[1](2);", "Grammar 1:19"),
    (b"f(1)(2);", "Grammar 1:19"),
    (b"f(1,);", "Grammar 1:19"),
    (b"x++ + 1;", "Grammar 1:19"),
    (b"++x++;", "Grammar 1:18"),
    (b"break;", "Grammar 1:15"),
    (b"continue;", "Grammar 1:15"),
    (b"if (a) break;", "Grammar 1:22"),
    (b"{ while (a) ; break; }", "Grammar 1:29"),
    (b"else ;", "Grammar 1:15"),
    (b"if (a) ; else ; else ;", "Grammar 1:31"),
    (b"if (a) { } ; else ;", "Grammar 1:28"),
    (b"if a ;", "Grammar 1:18"),
    (b"if (f(1)) ;", "LeftOut(InnerCall) 1:20"),
    (b"do x = 1; x = 2; while (a);", "Grammar 1:25"),
    (b"do ; while (a)", "Grammar 1:29"),
    (b"for (;) ;", "Grammar 1:21"),
    (b"for (int i = 0, j = 0;;) ;", "Grammar 1:29"),
    (b"for (volatile int i;;) ;", "Grammar 1:20"),
    (b"if (a) int x;", "Grammar 1:22"),
    (b"int a[2];", "Grammar 1:20"),
    (b"struct s x;", "Grammar 1:24"),
    (b"struct s *x, y;", "Grammar 1:28"),
    (b"static int x;", "Grammar 1:15"),
    (b"pthread_mutex_t m;", "Grammar 1:15"),
    (b"pthread_mutex_lock(m);", "Grammar 1:34"),
    (b"pthread_join(t);", "Grammar 1:29"),
    (b"printf(x);", "Grammar 1:22"),
    (b"switch (a) { }", "LeftOut(Keyword) 1:15"),
];

#[test]
fn the_first_fault_of_a_program_is_answered(rt: HostRuntime) -> Result<(), Fail> {
    let alloc = rt.alloc();
    for (text, expected) in FAULTS {
        assert_eq!(rt; answer(alloc, text)?.as_str(), expected);
    }
    for (body, expected) in BODY_FAULTS {
        let text = in_function(alloc, body)?;
        assert_eq!(rt; answer(alloc, &text)?.as_str(), expected);
    }
    Ok(())
}

// What is repeated between two texts up to which number of times, and the fault with one more.
const MOST: [(&[u8], &[u8], &[u8], u32, &str); 20] = [
    (
        b"",
        b"void f(void) {}\n",
        b"",
        256,
        "TooMany(Functions) 257:6",
    ),
    (b"", b"int a;\n", b"", 1024, "TooMany(Globals) 1025:5"),
    (
        b"",
        b"pthread_t t[2];\n",
        b"",
        1024,
        "TooMany(Globals) 1025:11",
    ),
    (
        b"",
        b"pthread_mutex_t m;\n",
        b"",
        64,
        "TooMany(Mutexes) 65:17",
    ),
    (
        b"",
        b"struct s { int a; };\n",
        b"",
        64,
        "TooMany(Structs) 65:8",
    ),
    (
        b"struct s {\n",
        b"int a;\n",
        b"};",
        64,
        "TooMany(Fields) 66:5",
    ),
    (
        b"struct s { int a",
        b", a",
        b"; };",
        63,
        "TooMany(Fields) 1:208",
    ),
    (
        b"void f(int a",
        b", int a",
        b");",
        15,
        "TooMany(Parameters) 1:124",
    ),
    (
        b"void f(int",
        b", int",
        b");",
        15,
        "TooMany(Parameters) 1:91",
    ),
    (
        b"void f(void){printf(\"\"",
        b",1",
        b");}",
        8,
        "TooMany(Arguments) 1:40",
    ),
    (
        b"void f(void){\n",
        b"x++;\n",
        b"}",
        65_535,
        "TooMany(Items) 65538:1",
    ),
    (
        b"void f(void){",
        b"if(1)",
        b";}",
        63,
        "TooMany(Nesting) 1:334",
    ),
    (
        b"void f(void){",
        b"while(1)",
        b";}",
        63,
        "TooMany(Nesting) 1:526",
    ),
    (
        b"void f(void){",
        b"for(;;)",
        b";}",
        63,
        "TooMany(Nesting) 1:462",
    ),
    (
        b"void f(void){",
        b"if(1);else ",
        b";}",
        63,
        "TooMany(Nesting) 1:712",
    ),
    (
        b"void f(void){int x = 1",
        b"+1",
        b";}",
        63,
        "TooMany(Nesting) 1:149",
    ),
    (
        b"void f(void){int ",
        b"x",
        b";}",
        63,
        "TooMany(NameBytes) 1:18",
    ),
    (b"int ", b"x", b";", 63, "TooMany(NameBytes) 1:5"),
    (b"struct ", b"x", b" *y;", 63, "TooMany(NameBytes) 1:8"),
    (
        b"void f(void){printf(\"",
        b"\\n",
        b"\");}",
        256,
        "TooMany(StringBytes) 1:21",
    ),
];

#[test]
fn each_limit_is_kept(rt: HostRuntime) -> Result<(), Fail> {
    let alloc = rt.alloc();
    for (front, middle, back, times, expected) in MOST {
        let most = repeated(alloc, front, middle, times, back)?;
        assert_eq!(rt; answer(alloc, &most)?.as_str(), "read");
        let more = repeated(alloc, front, middle, times.saturating_add(1), back)?;
        assert_eq!(rt; answer(alloc, &more)?.as_str(), expected);
    }
    Ok(())
}

#[test]
fn blocks_are_at_most_64_deep(rt: HostRuntime) -> Result<(), Fail> {
    let alloc = rt.alloc();
    let opened = repeated(alloc, b"void f(void){", b"{", 64, b"")?;
    let deepest = repeated(alloc, &opened, b"}", 65, b"")?;
    assert_eq!(rt; answer(alloc, &deepest)?.as_str(), "read");
    let more = repeated(alloc, &opened, b";", 1, b"")?;
    assert_eq!(rt; answer(alloc, &more)?.as_str(), "TooMany(Nesting) 1:78");
    // the braces of a body count nothing themselves
    let bodies = repeated(alloc, b"void f(void){", b"if(1){", 64, b"")?;
    let closed = repeated(alloc, &bodies, b"}", 65, b"")?;
    assert_eq!(rt; answer(alloc, &closed)?.as_str(), "read");
    Ok(())
}

#[test]
fn of_two_limits_at_one_token_the_first_is_answered(rt: HostRuntime) -> Result<(), Fail> {
    let alloc = rt.alloc();
    let items = repeated(alloc, b"void f(void){\n", b"x++;\n", 65_536, b"")?;
    let deep = repeated(alloc, &items, b"{", 64, b"x++;")?;
    assert_eq!(rt; answer(alloc, &deep)?.as_str(), "TooMany(Items) 65538:65");
    let functions = repeated(alloc, b"", b"void f(void) {}\n", 256, b"void ")?;
    let named = repeated(alloc, &functions, b"x", 64, b"(void) {}")?;
    assert_eq!(rt; answer(alloc, &named)?.as_str(), "TooMany(NameBytes) 257:6");
    let mutexes = repeated(alloc, b"", b"pthread_mutex_t m;\n", 64, b"pthread_mutex_t ")?;
    let mutex = repeated(alloc, &mutexes, b"x", 64, b";")?;
    assert_eq!(rt; answer(alloc, &mutex)?.as_str(), "TooMany(Mutexes) 65:17");
    Ok(())
}

#[test]
fn a_fault_before_a_late_limit_is_answered(rt: HostRuntime) -> Result<(), Fail> {
    let alloc = rt.alloc();
    let functions = repeated(alloc, b"", b"void f(void) {}\n", 256, b"void f(int x y) {}")?;
    assert_eq!(rt; answer(alloc, &functions)?.as_str(), "Grammar 257:14");
    let prototype = repeated(alloc, b"", b"void f(void) {}\n", 256, b"void f(void);")?;
    assert_eq!(rt; answer(alloc, &prototype)?.as_str(), "read");
    let globals = repeated(alloc, b"", b"int a;\n", 1024, b"int a +")?;
    assert_eq!(rt; answer(alloc, &globals)?.as_str(), "Grammar 1025:7");
    let function = repeated(alloc, b"", b"int a;\n", 1024, b"int a(void);")?;
    assert_eq!(rt; answer(alloc, &function)?.as_str(), "read");
    Ok(())
}

// A statement in prefix form, as far as its kinds are looked at here.
#[cycle(statement_shown)]
fn statement_shown(alloc: Global, statement: &Stmt) -> Result<String, AllocError> {
    match statement {
        Stmt::If(_, condition, yes, no) => {
            let condition = shown(alloc, condition)?;
            let yes = statement_shown(alloc, yes.get())?;
            match no {
                Some(no) => {
                    let no = statement_shown(alloc, no.get())?;
                    format!(in alloc; "If({condition}, {yes}, {no})")
                }
                None => format!(in alloc; "If({condition}, {yes})"),
            }
        }
        Stmt::Simple(_, Simple::Set(target, Right::Value(value))) => {
            let target = shown(alloc, target)?;
            let value = shown(alloc, value)?;
            format!(in alloc; "Set({target}, {value})")
        }
        Stmt::Simple(_, Simple::Update(target, operator, value)) => {
            let target = shown(alloc, target)?;
            let value = shown(alloc, value)?;
            format!(in alloc; "Update({target}, {operator:?}, {value})")
        }
        _ => format!(in alloc; "other"),
    }
}

// The first statement of the one function of a program.
fn first_statement(alloc: Global, text: &[u8]) -> Result<String, AllocError> {
    match read(alloc, text) {
        Ok(Ok(read)) => match read.tops.as_slice().first() {
            Some(Top::Function(function)) => match &function.body {
                Some(body) => match body.statements.as_slice().first() {
                    Some(statement) => statement_shown(alloc, statement),
                    None => format!(in alloc; "no statement"),
                },
                None => format!(in alloc; "no body"),
            },
            _ => format!(in alloc; "no function"),
        },
        _ => format!(in alloc; "not read"),
    }
}

const FIRST_STATEMENTS: [(&[u8], &str); 8] = [
    (
        b"if (a) if (b) x = 1; else x = 2;",
        "If(a, If(b, Set(x, 1), Set(x, 2)))",
    ),
    (
        b"if (a) { if (b) x = 1; } else x = 2;",
        "If(a, other, Set(x, 2))",
    ),
    (
        b"if (a) if (b) x = 1; else x = 2; else x = 3;",
        "If(a, If(b, Set(x, 1), Set(x, 2)), Set(x, 3))",
    ),
    (b"x = a < b < c;", "Set(x, Less(Less(a, b), c))"),
    (b"x++;", "Update(x, Add, 1)"),
    (b"--x;", "Update(x, Sub, 1)"),
    (b"*p++;", "Update(Deref(p), Add, 1)"),
    (b"x %= y - z;", "Update(x, Rem, Sub(y, z))"),
];

#[test]
fn statements_have_their_trees(rt: HostRuntime) -> Result<(), Fail> {
    let alloc = rt.alloc();
    for (body, expected) in FIRST_STATEMENTS {
        let text = in_function(alloc, body)?;
        assert_eq!(rt; first_statement(alloc, &text)?.as_str(), expected);
    }
    Ok(())
}
