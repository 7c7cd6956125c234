//! The types of programs from their texts, worked by hand from the rules of names and types.
use ca_sources::ALL;
use ca_worked::typing;
use std::alloc::{AllocError, Global};
use std::test::Fail;

// "typed", or the fault.
fn answer(alloc: Global, text: &[u8]) -> Result<String, AllocError> {
    match typing(alloc, text)? {
        Ok(_) => format!(in alloc; "typed"),
        Err(fault) => Ok(fault),
    }
}

// A statement stands on line 11 between these.
const BEFORE: &[u8] = b"pthread_mutex_t m;
pthread_t gt, ts[3];
struct node { int v; struct node *n; int *b; };
struct node s, u, *q, ar[2];
int g, a[4], *p;
void *work(void *w) { return w; }
int two(int i, int *j) { return i; }
void drop(void) { return; }
int main(void) {
int x, *y; struct node *h; pthread_t t;
";

const BEHIND: &[u8] = b"
return 0; }
";

fn in_main(alloc: Global, statement: &[u8]) -> Result<Vec<u8>, AllocError> {
    let mut text = Vec::new(alloc);
    text.extend_from_slice(BEFORE)?;
    text.extend_from_slice(statement)?;
    text.extend_from_slice(BEHIND)?;
    Ok(text)
}

const UNKNOWN: [(&[u8], &str); 19] = [
    (b"x = p * zz;", "Unknown 11:9"),
    (b"zz = 1;", "Unknown 11:1"),
    (b"x = h->zz;", "Unknown 11:8"),
    (b"x = s.zz;", "Unknown 11:7"),
    (b"zz();", "Unknown 11:1"),
    (b"*zz = 1;", "Unknown 11:2"),
    (b"x = -zz;", "Unknown 11:6"),
    (b"x = zz + yy;", "Unknown 11:5"),
    (b"x = ar[zz].v;", "Unknown 11:8"),
    (b"x = 1 + printf;", "Unknown 11:9"),
    (b"pthread_mutex_lock(&zz);", "Unknown 11:21"),
    (b"pthread_mutex_unlock(&zz);", "Unknown 11:23"),
    (b"pthread_create(&zz, NULL, work, NULL);", "Unknown 11:17"),
    (b"pthread_create(&t, NULL, zz, NULL);", "Unknown 11:26"),
    (b"h = malloc(sizeof(struct zz));", "Unknown 11:26"),
    (
        b"h = (struct zz *)malloc(sizeof(struct node));",
        "Unknown 11:13",
    ),
    (b"struct zz *k;", "Unknown 11:8"),
    (b"int k = k;", "Unknown 11:9"),
    (b"printf(\"%d\\n\", zz);", "Unknown 11:16"),
];

const TWICE: [(&[u8], &str); 4] = [
    (b"int x;", "Twice 11:5"),
    (b"int free;", "Twice 11:5"),
    (b"int k, k;", "Twice 11:8"),
    (b"pthread_t h;", "Twice 11:11"),
];

const THREAD_FORM: [(&[u8], &str); 5] = [
    (b"pthread_create(&t, NULL, two, NULL);", "ThreadForm 11:26"),
    (b"pthread_create(&t, NULL, drop, NULL);", "ThreadForm 11:26"),
    (b"pthread_create(&t, NULL, main, NULL);", "ThreadForm 11:26"),
    (b"pthread_create(&t, NULL, g, NULL);", "ThreadForm 11:26"),
    (b"pthread_create(&t, NULL, x, NULL);", "ThreadForm 11:26"),
];

const NOT_LVALUE: [(&[u8], &str); 27] = [
    (b"p = &x;", "NotLvalue 11:6"),
    (b"p = &(x);", "NotLvalue 11:7"),
    (b"a = p;", "NotLvalue 11:1"),
    (b"m = 1;", "NotLvalue 11:1"),
    (b"two = 1;", "NotLvalue 11:1"),
    (b"s = u;", "NotLvalue 11:1"),
    (b"s = 1;", "NotLvalue 11:1"),
    (b"*h = s;", "NotLvalue 11:1"),
    (b"ar[0] = s;", "NotLvalue 11:1"),
    (b"s += 1;", "NotLvalue 11:1"),
    (b"++s;", "NotLvalue 11:3"),
    (b"p = &a;", "NotLvalue 11:6"),
    (b"p = &m;", "NotLvalue 11:6"),
    (b"p = &two;", "NotLvalue 11:6"),
    (b"5 = x;", "NotLvalue 11:1"),
    (b"NULL = p;", "NotLvalue 11:1"),
    (b"-x = 1;", "NotLvalue 11:1"),
    (b"(x + 1) = 2;", "NotLvalue 11:2"),
    (b"p = &(x + 1);", "NotLvalue 11:7"),
    (b"++5;", "NotLvalue 11:3"),
    (b"-zz = 1;", "NotLvalue 11:1"),
    (b"p = &(x * zz);", "NotLvalue 11:7"),
    (b"p = &-zz;", "NotLvalue 11:6"),
    (b"(1 + m) = 2;", "NotLvalue 11:2"),
    (b"-m = 1;", "NotLvalue 11:1"),
    (b"5 = zz;", "NotLvalue 11:1"),
    (b"5 += p;", "NotLvalue 11:1"),
];

const DIRECTIVE: [(&[u8], &str); 4] = [
    (b"printf(\"%s\\n\");", "Directive 11:8"),
    (b"printf(\"%\");", "Directive 11:8"),
    (b"printf(\"%d %x\\n\", x);", "Directive 11:8"),
    (b"printf(\"%%%\");", "Directive 11:8"),
];

const OPERANDS: [(&[u8], &str); 32] = [
    (b"x = 1 + m;", "Mismatch 11:5"),
    (b"x = m + 1;", "Mismatch 11:5"),
    (b"x = m;", "Mismatch 11:5"),
    (b"x = two;", "Mismatch 11:5"),
    (b"x = s;", "Mismatch 11:5"),
    (b"x = !s;", "Mismatch 11:5"),
    (b"x = s == u;", "Mismatch 11:5"),
    (b"x = x && m;", "Mismatch 11:5"),
    (b"x = -p;", "Mismatch 11:5"),
    (b"x = *NULL;", "Mismatch 11:5"),
    (b"x = NULL[0];", "Mismatch 11:5"),
    (b"y = NULL + 1;", "Mismatch 11:5"),
    (b"x = *x;", "Mismatch 11:5"),
    (b"x = x[0];", "Mismatch 11:5"),
    (b"x = a[p];", "Mismatch 11:5"),
    (b"x = q.v;", "Mismatch 11:5"),
    (b"x = h.v;", "Mismatch 11:5"),
    (b"x = s->v;", "Mismatch 11:5"),
    (b"x = p->v;", "Mismatch 11:5"),
    (b"x = ts[0] == ts[1];", "Mismatch 11:5"),
    (b"x = gt == t;", "Mismatch 11:5"),
    (b"x = !t;", "Mismatch 11:5"),
    (b"x = p * 2;", "Mismatch 11:5"),
    (b"x = 1 + p;", "Mismatch 11:5"),
    (b"x = p - 1;", "Mismatch 11:5"),
    (b"x = p < p;", "Mismatch 11:5"),
    (b"x = (x + 1) % p;", "Mismatch 11:5"),
    (b"x = (x * p) % 2;", "Mismatch 11:6"),
    (b"x = 1 + (x * p);", "Mismatch 11:10"),
    (b"x = p == h;", "Mismatch 11:5"),
    (b"x = p == 1;", "Mismatch 11:5"),
    (b"x = p == -0;", "Mismatch 11:5"),
];

const VALUES: [(&[u8], &str); 25] = [
    (b"y = -0;", "Mismatch 11:5"),
    (b"y = 1 - 1;", "Mismatch 11:5"),
    (b"y = 1;", "Mismatch 11:5"),
    (b"x = NULL;", "Mismatch 11:5"),
    (b"x = p;", "Mismatch 11:5"),
    (b"h = p;", "Mismatch 11:5"),
    (b"t = 1;", "Mismatch 11:5"),
    (b"x = t;", "Mismatch 11:5"),
    (b"p = &ts[0];", "Mismatch 11:5"),
    (b"p = &s;", "Mismatch 11:5"),
    (b"if (m) ;", "Mismatch 11:5"),
    (b"if (t) ;", "Mismatch 11:5"),
    (b"while (t) ;", "Mismatch 11:8"),
    (b"for (; m; ) ;", "Mismatch 11:8"),
    (b"assert(m);", "Mismatch 11:8"),
    (b"assert(t);", "Mismatch 11:8"),
    (b"x += p;", "Mismatch 11:1"),
    (b"x -= m;", "Mismatch 11:1"),
    (b"p += 1;", "Mismatch 11:1"),
    (b"p++;", "Mismatch 11:1"),
    (b"++p;", "Mismatch 11:1"),
    (b"t += 1;", "Mismatch 11:1"),
    (b"return;", "Mismatch 11:1"),
    (b"return p;", "Mismatch 11:8"),
    (b"return m;", "Mismatch 11:8"),
];

const CALLS: [(&[u8], &str); 35] = [
    (b"printf(\"%s\", x);", "Mismatch 11:1"),
    (b"printf(\"%d\");", "Mismatch 11:1"),
    (b"printf(\"%d\", x, x);", "Mismatch 11:1"),
    (b"printf(\"%d %d\", 1);", "Mismatch 11:1"),
    (b"printf(\"%d\", p);", "Mismatch 11:14"),
    (b"printf(\"%d\", m);", "Mismatch 11:14"),
    (b"free(x);", "Mismatch 11:6"),
    (b"free(1);", "Mismatch 11:6"),
    (b"free(t);", "Mismatch 11:6"),
    (b"free(m);", "Mismatch 11:6"),
    (b"pthread_join(x, NULL);", "Mismatch 11:14"),
    (b"pthread_mutex_lock(&g);", "Mismatch 11:21"),
    (b"pthread_mutex_lock(&t);", "Mismatch 11:21"),
    (b"pthread_create(&x, NULL, work, NULL);", "Mismatch 11:17"),
    (b"pthread_create(&gt, NULL, work, NULL);", "Mismatch 11:17"),
    (b"pthread_create(&t, NULL, work, 1);", "Mismatch 11:32"),
    (b"pthread_create(&t, NULL, work, t);", "Mismatch 11:32"),
    (b"x = two(1);", "Mismatch 11:5"),
    (b"x = two(1, p, 2);", "Mismatch 11:5"),
    (b"two(zz);", "Mismatch 11:1"),
    (b"g = two(1, p);", "Mismatch 11:5"),
    (b"g = two(zz, p);", "Mismatch 11:5"),
    (b"y = two(1, p);", "Mismatch 11:5"),
    (b"x = drop();", "Mismatch 11:5"),
    (b"two(p, p);", "Mismatch 11:5"),
    (b"two(1, h);", "Mismatch 11:8"),
    (b"main();", "Mismatch 11:1"),
    (b"m();", "Mismatch 11:1"),
    (b"x();", "Mismatch 11:1"),
    (b"x = (int)malloc(sizeof(int));", "Mismatch 11:5"),
    (b"x = malloc(sizeof(int));", "Mismatch 11:5"),
    (b"y = (struct node *)malloc(sizeof(int));", "Mismatch 11:5"),
    (b"h = (int *)malloc(sizeof(int));", "Mismatch 11:5"),
    (b"y = malloc(sizeof(struct node));", "Mismatch 11:5"),
    (b"h = malloc(p * sizeof(struct node));", "Mismatch 11:12"),
];

const TYPED: [&[u8]; 62] = [
    b"y = 0;",
    b"y = 0x0;",
    b"y = (0);",
    b"y = NULL;",
    b"y = p;",
    b"y = a;",
    b"y = a + 1;",
    b"p = &a[1] + 2;",
    b"q = &s;",
    b"q = h->n;",
    b"x = h->n->b[1];",
    b"x = *&g;",
    b"x = (&s)->v;",
    b"x = s.n->v;",
    b"x = ar->v;",
    b"t = gt;",
    b"gt = ts[1];",
    b"ts[0] = t;",
    b"x = p == 0;",
    b"x = 0 == p;",
    b"x = NULL == p;",
    b"x = NULL == NULL;",
    b"x = NULL == 0;",
    b"x = h == h->n;",
    b"x = !p;",
    b"x = !NULL;",
    b"x = p && x;",
    b"if (NULL) ;",
    b"if (a) ;",
    b"assert(p);",
    b"free(0);",
    b"free(NULL);",
    b"free(p);",
    b"free(&ts[0]);",
    b"free(a);",
    b"pthread_join(gt, NULL);",
    b"pthread_join(ts[2], NULL);",
    b"pthread_create(&t, NULL, work, 0);",
    b"pthread_create(&t, NULL, work, &ts[0]);",
    b"pthread_create(&t, NULL, work, p);",
    b"pthread_mutex_lock(&m);",
    b"two(1, p);",
    b"x = two(1, 0);",
    b"two(1, NULL);",
    b"drop();",
    b"work(p);",
    b"y = work(p);",
    b"h = work(h);",
    b"h = malloc(sizeof(struct node));",
    b"h = (struct node *)malloc(x * sizeof(struct node));",
    b"h->b = malloc(4 * sizeof(int));",
    b"x += 1;",
    b"x++;",
    b"--g;",
    b"s.v %= 2;",
    b"{ int x; x = 1; }",
    b"{ int m; m = 1; }",
    b"for (int x = 0; x < 3; x++) { int x; x = 1; }",
    b"for (int i = 0; i < 3; i++) ; for (int i = 0; ; ) ;",
    b"printf(\"100%%\\n\");",
    b"printf(\"%%%d\\n\", x);",
    b"return x;",
];

const PROGRAMS: [(&[u8], &str); 43] = [
    (b"int main(void) { x = 1; return 0; }", "Unknown 1:18"),
    (b"int f(void); int main(void) { return 0; }", "Unknown 1:5"),
    (b"struct n *p; int main(void) { return 0; }", "Unknown 1:8"),
    (
        b"struct a { struct b *p; }; int main(void) { return 0; }",
        "Unknown 1:19",
    ),
    (
        b"struct a { struct b *p; }; struct b { int v; }; int main(void) { return 0; }",
        "Unknown 1:19",
    ),
    (
        b"int main(void) { f(); return 0; } void f(void) { }",
        "Unknown 1:18",
    ),
    (b"int main(void) { int k = k; return 0; }", "Unknown 1:26"),
    (b"int g; int g; int main(void) { return 0; }", "Twice 1:12"),
    (
        b"int f(int a) { int a; return a; } int main(void) { return 0; }",
        "Twice 1:20",
    ),
    (b"int printf; int main(void) { return 0; }", "Twice 1:5"),
    (
        b"struct free { int v; }; int main(void) { return 0; }",
        "Twice 1:8",
    ),
    (
        b"struct a { int free; }; int main(void) { return 0; }",
        "Twice 1:16",
    ),
    (
        b"int f(int free); int f(int b) { return b; } int main(void) { return 0; }",
        "Twice 1:11",
    ),
    (
        b"int f(int a, int a); int f(int a, int b) { return a; } int main(void) { return 0; }",
        "Twice 1:18",
    ),
    (
        b"int f(void) { return 0; } int f(void) { return 0; } int main(void) { return 0; }",
        "Twice 1:31",
    ),
    (
        b"int f; int f(void) { return 0; } int main(void) { return 0; }",
        "Twice 1:12",
    ),
    (
        b"struct a { int v; }; struct a { int v; }; int main(void) { return 0; }",
        "Twice 1:29",
    ),
    (
        b"struct a { int v; int v; }; int main(void) { return 0; }",
        "Twice 1:23",
    ),
    (
        b"pthread_mutex_t g; int g; int main(void) { return 0; }",
        "Twice 1:24",
    ),
    (
        b"void *work(void *w) { return w + 1; } int main(void) { return 0; }",
        "Mismatch 1:30",
    ),
    (
        b"void *work(void *w) { int x; x = w[0]; return w; } int main(void) { return 0; }",
        "Mismatch 1:34",
    ),
    (
        b"void *work(void *w) { int x; x = *w; return w; } int main(void) { return 0; }",
        "Mismatch 1:34",
    ),
    (
        b"int g = NULL; int main(void) { return 0; }",
        "Mismatch 1:5",
    ),
    (b"int *p = 1; int main(void) { return 0; }", "Mismatch 1:6"),
    (
        b"struct a { int v; }; struct a s = 0; int main(void) { return 0; }",
        "Mismatch 1:31",
    ),
    (
        b"int f(void *x) { return 0; } int main(void) { return 0; }",
        "Mismatch 1:5",
    ),
    (
        b"void *f(void *x, int y) { return x; } int main(void) { return 0; }",
        "Mismatch 1:7",
    ),
    (
        b"int f(int y, void *x) { return y; } int main(void) { return 0; }",
        "Mismatch 1:5",
    ),
    (
        b"void *f(int x) { return NULL; } int main(void) { return 0; }",
        "Mismatch 1:7",
    ),
    (
        b"int f(int) { return 0; } int main(void) { return 0; }",
        "Mismatch 1:5",
    ),
    (
        b"int f(int a); int f(int *a) { return 0; } int main(void) { return 0; }",
        "Mismatch 1:19",
    ),
    (
        b"int f(int a) { return 0; } int f(int *a); int main(void) { return 0; }",
        "Mismatch 1:32",
    ),
    (
        b"void f(void) { return 1; } int main(void) { return 0; }",
        "Mismatch 1:23",
    ),
    (
        b"int a[65537]; int main(void) { return 0; }",
        "TooManyCells 1:5",
    ),
    (
        b"int a[65536]; int b; int main(void) { return 0; }",
        "TooManyCells 1:19",
    ),
    (
        b"int a[0]; int main(void) { return 0; }",
        "TooManyCells 1:5",
    ),
    (
        b"struct n { int v; int w; }; struct n a[32769]; int main(void) { return 0; }",
        "TooManyCells 1:38",
    ),
    (b"", "NoMain 1:1"),
    (b"int g;", "NoMain 1:1"),
    (b"int main(void);", "NoMain 1:1"),
    (b"void main(void) { }", "NoMain 1:1"),
    (b"int main(int a) { return 0; }", "NoMain 1:1"),
    (b"int g; int g;", "NoMain 1:1"),
];

const TYPED_PROGRAMS: [&[u8]; 9] = [
    b"int f(void); int f(void); int main(void) { return 0; } int f(void) { return 0; }",
    b"struct a { struct a *p; }; int main(void) { return 0; }",
    b"int f(int a) { { int a; } return a; } int main(void) { return 0; }",
    b"int *p = -0; int main(void) { return 0; }",
    b"int *p = 0, *q = NULL; int main(void) { return 0; }",
    b"int a[65536]; int main(void) { return 0; }",
    b"int a[65535]; int b; int main(void) { return 0; }",
    b"int f(int); int f(int a) { return a; } int main(void) { return 0; }",
    b"int main() { return 0; }",
];

#[test]
fn names_that_are_not_declared_are_unknown(rt: HostRuntime) -> Result<(), Fail> {
    let alloc = rt.alloc();
    for (statement, fault) in UNKNOWN {
        let text = in_main(alloc, statement)?;
        assert_eq!(rt; answer(alloc, &text)?.as_str(), fault);
    }
    Ok(())
}

#[test]
fn second_declarations_of_a_block_are_twice(rt: HostRuntime) -> Result<(), Fail> {
    let alloc = rt.alloc();
    for (statement, fault) in TWICE {
        let text = in_main(alloc, statement)?;
        assert_eq!(rt; answer(alloc, &text)?.as_str(), fault);
    }
    Ok(())
}

#[test]
fn the_function_of_a_thread_has_its_form(rt: HostRuntime) -> Result<(), Fail> {
    let alloc = rt.alloc();
    for (statement, fault) in THREAD_FORM {
        let text = in_main(alloc, statement)?;
        assert_eq!(rt; answer(alloc, &text)?.as_str(), fault);
    }
    Ok(())
}

#[test]
fn what_is_no_place_is_told_at_its_first_token(rt: HostRuntime) -> Result<(), Fail> {
    let alloc = rt.alloc();
    for (statement, fault) in NOT_LVALUE {
        let text = in_main(alloc, statement)?;
        assert_eq!(rt; answer(alloc, &text)?.as_str(), fault);
    }
    Ok(())
}

#[test]
fn a_percent_stands_before_a_d_or_a_percent(rt: HostRuntime) -> Result<(), Fail> {
    let alloc = rt.alloc();
    for (statement, fault) in DIRECTIVE {
        let text = in_main(alloc, statement)?;
        assert_eq!(rt; answer(alloc, &text)?.as_str(), fault);
    }
    Ok(())
}

#[test]
fn operands_of_the_wrong_types_are_mismatches(rt: HostRuntime) -> Result<(), Fail> {
    let alloc = rt.alloc();
    for (statement, fault) in OPERANDS {
        let text = in_main(alloc, statement)?;
        assert_eq!(rt; answer(alloc, &text)?.as_str(), fault);
    }
    Ok(())
}

#[test]
fn values_of_the_wrong_types_are_mismatches(rt: HostRuntime) -> Result<(), Fail> {
    let alloc = rt.alloc();
    for (statement, fault) in VALUES {
        let text = in_main(alloc, statement)?;
        assert_eq!(rt; answer(alloc, &text)?.as_str(), fault);
    }
    Ok(())
}

#[test]
fn calls_that_do_not_fit_are_mismatches(rt: HostRuntime) -> Result<(), Fail> {
    let alloc = rt.alloc();
    for (statement, fault) in CALLS {
        let text = in_main(alloc, statement)?;
        assert_eq!(rt; answer(alloc, &text)?.as_str(), fault);
    }
    Ok(())
}

#[test]
fn statements_are_typed(rt: HostRuntime) -> Result<(), Fail> {
    let alloc = rt.alloc();
    for statement in TYPED {
        let text = in_main(alloc, statement)?;
        assert_eq!(rt; answer(alloc, &text)?.as_str(), "typed");
    }
    Ok(())
}

#[test]
fn declarations_have_their_faults(rt: HostRuntime) -> Result<(), Fail> {
    let alloc = rt.alloc();
    for (text, fault) in PROGRAMS {
        assert_eq!(rt; answer(alloc, text)?.as_str(), fault);
    }
    Ok(())
}

#[test]
fn programs_are_typed(rt: HostRuntime) -> Result<(), Fail> {
    let alloc = rt.alloc();
    for text in TYPED_PROGRAMS {
        assert_eq!(rt; answer(alloc, text)?.as_str(), "typed");
    }
    for source in ALL {
        assert_eq!(rt; answer(alloc, source)?.as_str(), "typed");
    }
    Ok(())
}

// A `main` of so many locals, each on a line of its own.
fn with_locals(alloc: Global, count: u32) -> Result<Vec<u8>, AllocError> {
    let mut text = Vec::new(alloc);
    text.extend_from_slice(b"int main(void) {\n")?;
    for index in 0..count {
        let local = format!(in alloc; "int a{index};\n")?;
        text.extend_from_slice(local.as_bytes())?;
    }
    text.extend_from_slice(b"return 0; }\n")?;
    Ok(text)
}

#[test]
fn a_function_has_at_most_128_locals(rt: HostRuntime) -> Result<(), Fail> {
    let alloc = rt.alloc();
    assert_eq!(rt; answer(alloc, &with_locals(alloc, 128)?)?.as_str(), "typed");
    let many = with_locals(alloc, 129)?;
    assert_eq!(rt; answer(alloc, &many)?.as_str(), "TooManyLocals 130:5");
    Ok(())
}
