// Expressions with their types, worked by hand from the rules on names and types.
use ca_bodies::aim_at;
use ca_model::{Kind, Meaning, ObjectType, Operand, Target, TypeFault, ValueType, Wanted};
use ca_operands::{Faults, FieldOf, INT, Scope, THREAD, VOID_POINTER, operand, value_in};
use ca_tree::tree::Exp;
use ca_tree::{GlobalId, MutexId, NoMemory, StructId, VarId};
use ca_worked::{place_shown, read_expression as read, shown};
use std::alloc::{AllocError, Global};
use std::test::Fail;

const INT_POINTER: ObjectType = ObjectType {
    kind: Kind::Int,
    stars: 1,
};

const INT_POINTERS: ObjectType = ObjectType {
    kind: Kind::Int,
    stars: 2,
};

const NODE: ObjectType = ObjectType {
    kind: Kind::Struct(StructId(0)),
    stars: 0,
};

const NODE_POINTER: ObjectType = ObjectType {
    kind: Kind::Struct(StructId(0)),
    stars: 1,
};

// pthread_mutex_t m; pthread_t gt, ts[3]; struct node s, u, *q, ar[2]; int g, a[4], *p; and functions; `refused` is a
// global of a struct that isn't declared, and `k` is hidden.
const GLOBALS: [(&str, Meaning); 13] = [
    ("m", Meaning::Mutex(MutexId(0))),
    ("gt", Meaning::Global(GlobalId(0), Some(THREAD))),
    ("ts", Meaning::Array(GlobalId(1), Some(THREAD))),
    ("s", Meaning::Global(GlobalId(2), Some(NODE))),
    ("u", Meaning::Global(GlobalId(3), Some(NODE))),
    ("q", Meaning::Global(GlobalId(4), Some(NODE_POINTER))),
    ("ar", Meaning::Array(GlobalId(5), Some(NODE))),
    ("g", Meaning::Global(GlobalId(6), Some(INT))),
    ("a", Meaning::Array(GlobalId(7), Some(INT))),
    ("p", Meaning::Global(GlobalId(8), Some(INT_POINTER))),
    ("k", Meaning::Global(GlobalId(9), Some(THREAD))),
    ("refused", Meaning::Global(GlobalId(10), None)),
    ("two", Meaning::Function(0)),
];

// int x, *y; struct node *h; a parameter void *w; pthread_t t; and two of one name, the second in an inner block.
const LOCALS: [(&str, Meaning); 7] = [
    ("x", Meaning::Local(VarId(0), Some(INT))),
    ("y", Meaning::Local(VarId(1), Some(INT_POINTER))),
    ("h", Meaning::Local(VarId(2), Some(NODE_POINTER))),
    ("w", Meaning::Local(VarId(3), Some(VOID_POINTER))),
    ("t", Meaning::Local(VarId(4), Some(THREAD))),
    ("k", Meaning::Local(VarId(5), Some(INT))),
    ("k", Meaning::Local(VarId(6), Some(INT_POINTER))),
];

// struct node { int v; struct node *n; int *b; };
fn with_node<'a>(alloc: Global) -> Result<Scope<'a>, NoMemory> {
    let mut scope = Scope::new(alloc);
    let tag = b"node".as_slice();
    scope.declare_struct(alloc, tag)?;
    let mut fields = Vec::new(alloc);
    for (name, of) in [("v", INT), ("n", NODE_POINTER), ("b", INT_POINTER)] {
        let name = name.as_bytes();
        let of = Some(of);
        fields.push(FieldOf { name, of })?;
    }
    if fields.len() <= 64 && scope.struct_id(tag).is_some() {
        scope.complete_struct(tag, fields)?;
    }
    Ok(scope)
}

fn scope_of_all<'a>(alloc: Global) -> Result<Scope<'a>, NoMemory> {
    let mut scope = with_node(alloc)?;
    for (name, means) in GLOBALS {
        scope.declare_global(name.as_bytes(), means)?;
    }
    for (name, means) in LOCALS {
        scope.push_local(name.as_bytes(), means)?;
    }
    Ok(scope)
}

fn type_shown(alloc: Global, kind: Kind, stars: usize) -> Result<String, AllocError> {
    let mut text = match kind {
        Kind::Void => format!(in alloc; "void")?,
        Kind::Int => format!(in alloc; "int")?,
        Kind::Thread => format!(in alloc; "pthread_t")?,
        Kind::Struct(id) => format!(in alloc; "struct {}", id.0)?,
    };
    for _ in 0..stars {
        text.push('*')?;
    }
    Ok(text)
}

fn value_type_shown(alloc: Global, of: ValueType) -> Result<String, AllocError> {
    match of {
        ValueType::Int => format!(in alloc; "int"),
        ValueType::Thread => format!(in alloc; "pthread_t"),
        ValueType::Null => format!(in alloc; "NULL"),
        ValueType::Pointer(to) => type_shown(alloc, to.kind, to.stars.saturating_add(1)),
    }
}

fn fault_shown(alloc: Global, fault: TypeFault) -> Result<String, AllocError> {
    format!(in alloc; "{:?} {}:{}", fault.kind, fault.pos.line, fault.pos.column)
}

fn operand_shown(alloc: Global, operand: &Option<Operand>) -> Result<String, AllocError> {
    match operand {
        Some(Operand::Value(of, exp)) => {
            let of = value_type_shown(alloc, *of)?;
            let exp = shown(alloc, exp)?;
            format!(in alloc; "value {of}: {exp}")
        }
        Some(Operand::Local(of, var)) => {
            let of = type_shown(alloc, of.kind, of.stars)?;
            format!(in alloc; "local {of}: L{}", var.0)
        }
        Some(Operand::Place(of, place)) => {
            let of = type_shown(alloc, of.kind, of.stars)?;
            let place = place_shown(alloc, place)?;
            format!(in alloc; "place {of}: {place}")
        }
        Some(Operand::Name) => format!(in alloc; "name"),
        None => format!(in alloc; "nothing"),
    }
}

fn target_shown(
    alloc: Global,
    of: Option<ObjectType>,
    at: &Option<Target>,
) -> Result<String, AllocError> {
    let Some(of) = of else {
        return format!(in alloc; "nothing");
    };
    let of = type_shown(alloc, of.kind, of.stars)?;
    match at {
        Some(Target::Local(var)) => format!(in alloc; "{of}: L{}", var.0),
        Some(Target::Place(place)) => {
            let place = place_shown(alloc, place)?;
            format!(in alloc; "{of}: {place}")
        }
        None => format!(in alloc; "nowhere"),
    }
}

// Where an expression stands.
#[derive(Clone, Copy)]
enum Stands {
    AsOperand,
    In(Wanted),
    AsTarget,
}

// What an expression is where it stands; or the first fault in it and its place.
fn judged<'a>(
    alloc: Global,
    scope: &Scope<'a>,
    stands: Stands,
    exp: &'a Exp,
) -> Result<String, Fail> {
    let mut faults = Faults::none();
    let found = match stands {
        Stands::AsOperand => {
            let found = operand(alloc, scope, exp, &mut faults)?;
            operand_shown(alloc, &found)?
        }
        Stands::In(wanted) => {
            let found = value_in(alloc, scope, wanted, exp, &mut faults)?;
            shown(alloc, &found)?
        }
        Stands::AsTarget => {
            let found = aim_at(alloc, scope, exp, &mut faults)?;
            target_shown(alloc, found.of, &found.at)?
        }
    };
    match faults.first {
        Some(fault) => Ok(fault_shown(alloc, fault)?),
        None => Ok(found),
    }
}

fn answer(alloc: Global, stands: Stands, text: &str) -> Result<String, Fail> {
    match read(alloc, text.as_bytes())? {
        Ok(found) => {
            let scope = scope_of_all(alloc)?;
            judged(alloc, &scope, stands, &found.exp)
        }
        Err(_) => Ok(format!(in alloc; "not read")?),
    }
}

// In an object of this type.
fn into(of: Option<ObjectType>) -> Stands {
    Stands::In(Wanted::OfType(of))
}

// The cases that are answered otherwise.
fn wrong(alloc: Global, stands: Stands, cases: &[(&str, &str)]) -> Result<String, Fail> {
    let mut told = String::new(alloc);
    for (text, expected) in cases {
        let found = answer(alloc, stands, text)?;
        if found.as_str() != *expected {
            let line = format!(in alloc; "{text} is {found}, not {expected}; ")?;
            told.push_str(line.as_str())?;
        }
    }
    Ok(told)
}

// What numbers and names are.
const NAMES: [(&str, &str); 26] = [
    ("7", "value int: 7"),
    ("NULL", "value NULL: NULL"),
    ("(0x1F)", "value int: 31"),
    ("x", "local int: L0"),
    ("y", "local int*: L1"),
    ("h", "local struct 0*: L2"),
    ("w", "local void*: L3"),
    ("t", "local pthread_t: L4"),
    // the inner one of two locals that hide a global
    ("k", "local int*: L6"),
    ("g", "place int: G6.0"),
    ("p", "place int*: G8.0"),
    ("q", "place struct 0*: G4.0"),
    ("s", "place struct 0: G2.0"),
    ("gt", "place pthread_t: G0.0"),
    // the name of an array is a pointer to its first cell
    ("a", "value int*: G7"),
    ("ar", "value struct 0*: G5"),
    ("ts", "value pthread_t*: G1"),
    ("m", "name"),
    ("two", "name"),
    // a type that was refused makes its operators nothing, and nothing is wrong with them
    ("refused", "nothing"),
    ("&refused", "nothing"),
    ("-refused", "nothing"),
    ("refused * m", "nothing"),
    ("m + refused", "nothing"),
    ("refused.v", "nothing"),
    ("refused[t]", "nothing"),
];

// What is behind an address.
const PLACES: [(&str, &str); 27] = [
    // through the pointer that `&` makes
    ("*&g", "place int: Address(G6.0).0!"),
    ("(&s)->v", "place int: Address(G2.0).0!"),
    ("(*&s).n", "place struct 0*: Address(G2.0).1!"),
    ("*y", "place int: L1.0!"),
    ("*p", "place int: Pointer(G8.0).0!"),
    ("*a", "place int: G7.0!"),
    ("*h", "place struct 0: L2.0!"),
    ("a[1]", "place int: G7[1*1].0!"),
    ("a[g]", "place int: G7[Int(G6.0)*1].0!"),
    ("y[x + 1]", "place int: L1[Add(L0, 1)*1].0!"),
    ("p[a[x]]", "place int: Pointer(G8.0)[Int(G7[L0*1].0!)*1].0!"),
    ("ts[1]", "place pthread_t: G1[1*1].0!"),
    // an element of 3 cells
    ("ar[1]", "place struct 0: G5[1*3].0!"),
    ("ar[1].v", "place int: G5[1*3].0!"),
    ("ar[x].n", "place struct 0*: G5[L0*3].1!"),
    ("h[2].b", "place int*: L2[2*3].2!"),
    ("ar->b", "place int*: G5.2!"),
    ("s.v", "place int: G2.0"),
    ("s.n", "place struct 0*: G2.1"),
    ("s.b", "place int*: G2.2"),
    ("s.n->v", "place int: Pointer(G2.1).0!"),
    ("h->v", "place int: L2.0!"),
    ("(*h).b", "place int*: L2.2!"),
    (
        "h->n->b[1]",
        "place int: Pointer(Pointer(L2.1!).2!)[1*1].0!",
    ),
    ("*h->b", "place int: Pointer(L2.2!).0!"),
    ("q->n->v", "place int: Pointer(Pointer(G4.0).1!).0!"),
    ("(ar + 1)->v", "place int: Address(G5[1*3].0!).0!"),
];

// What `&` and a pointer plus an `int` give.
const ADDRESSES: [(&str, &str); 16] = [
    ("&g", "value int*: Address(G6.0)"),
    ("&p", "value int**: Address(G8.0)"),
    ("&gt", "value pthread_t*: Address(G0.0)"),
    ("&ts[0]", "value pthread_t*: Address(G1[0*1].0!)"),
    // a whole struct is a place
    ("&s", "value struct 0*: Address(G2.0)"),
    ("&*h", "value struct 0*: Address(L2.0!)"),
    ("&ar[1]", "value struct 0*: Address(G5[1*3].0!)"),
    ("&s.n", "value struct 0**: Address(G2.1)"),
    ("&*y", "value int*: Address(L1.0!)"),
    (
        "&a[1] + 2",
        "value int*: Address(Address(G7[1*1].0!)[2*1].0!)",
    ),
    (
        "&ar[1] + 1",
        "value struct 0*: Address(Address(G5[1*3].0!)[1*3].0!)",
    ),
    ("a + 1", "value int*: Address(G7[1*1].0!)"),
    (
        "y + x + g",
        "value int*: Address(Address(L1[L0*1].0!)[Int(G6.0)*1].0!)",
    ),
    ("h + 1", "value struct 0*: Address(L2[1*3].0!)"),
    ("ts + 1", "value pthread_t*: Address(G1[1*1].0!)"),
    // a pointer is one cell, whatever it points at
    (
        "&s.n + x",
        "value struct 0**: Address(Address(G2.1)[L0*1].0!)",
    ),
];

// What operators give.
const VALUES: [(&str, &str); 37] = [
    ("-x", "value int: Negate(L0)"),
    ("- -0", "value int: Negate(Negate(0))"),
    ("!g", "value int: Not(Int(G6.0))"),
    ("!p", "value int: Not(Pointer(G8.0))"),
    ("!a", "value int: Not(G7)"),
    ("!w", "value int: Not(L3)"),
    ("!NULL", "value int: Not(NULL)"),
    ("p && g", "value int: And(Pointer(G8.0), Int(G6.0))"),
    ("h || NULL", "value int: Or(L2, NULL)"),
    ("x && w || 0", "value int: Or(And(L0, L3), 0)"),
    ("(x + 1) % 2", "value int: Rem(Add(L0, 1), 2)"),
    (
        "x - g * 2 / s.v",
        "value int: Sub(L0, Div(Mul(Int(G6.0), 2), Int(G2.0)))",
    ),
    ("x < g", "value int: Less(L0, Int(G6.0))"),
    ("x > 1", "value int: More(L0, 1)"),
    ("x <= 1", "value int: LessSame(L0, 1)"),
    ("x >= *y", "value int: MoreSame(L0, Int(L1.0!))"),
    ("x == g", "value int: Same(L0, Int(G6.0))"),
    ("x != 0", "value int: Differs(L0, 0)"),
    // two pointers of one type
    ("p == y", "value int: Same(Pointer(G8.0), L1)"),
    ("p != a", "value int: Differs(Pointer(G8.0), G7)"),
    ("ar == h", "value int: Same(G5, L2)"),
    ("h != h->n", "value int: Differs(L2, Pointer(L2.1!))"),
    ("ts == &ts[1]", "value int: Same(G1, Address(G1[1*1].0!))"),
    // a pointer and `NULL`, 0 or a `void *`
    ("p == w", "value int: Same(Pointer(G8.0), L3)"),
    ("w != h", "value int: Differs(L3, L2)"),
    ("w == w", "value int: Same(L3, L3)"),
    ("p == NULL", "value int: Same(Pointer(G8.0), NULL)"),
    ("NULL != p", "value int: Differs(NULL, Pointer(G8.0))"),
    ("p == 0", "value int: Same(Pointer(G8.0), 0)"),
    ("0 == p", "value int: Same(0, Pointer(G8.0))"),
    ("p == (0x0)", "value int: Same(Pointer(G8.0), 0)"),
    ("w == NULL", "value int: Same(L3, NULL)"),
    ("NULL == w", "value int: Same(NULL, L3)"),
    ("w == 0", "value int: Same(L3, 0)"),
    ("NULL == NULL", "value int: Same(NULL, NULL)"),
    ("NULL == 0", "value int: Same(NULL, 0)"),
    ("0 != NULL", "value int: Differs(0, NULL)"),
];

#[test]
fn names_and_places_have_their_types(rt: HostRuntime) -> Result<(), Fail> {
    let alloc = rt.alloc();
    assert_eq!(rt; wrong(alloc, Stands::AsOperand, &NAMES)?.as_str(), "");
    assert_eq!(rt; wrong(alloc, Stands::AsOperand, &PLACES)?.as_str(), "");
    Ok(())
}

#[test]
fn operators_have_their_types(rt: HostRuntime) -> Result<(), Fail> {
    let alloc = rt.alloc();
    assert_eq!(rt; wrong(alloc, Stands::AsOperand, &ADDRESSES)?.as_str(), "");
    assert_eq!(rt; wrong(alloc, Stands::AsOperand, &VALUES)?.as_str(), "");
    Ok(())
}

// Names and fields that aren't declared.
const UNKNOWN: [(&str, &str); 34] = [
    ("zz", "Unknown 1:1"),
    ("(zz)", "Unknown 1:2"),
    ("-zz", "Unknown 1:2"),
    ("*zz", "Unknown 1:2"),
    ("&zz", "Unknown 1:2"),
    ("zz[0]", "Unknown 1:1"),
    ("a[zz]", "Unknown 1:3"),
    ("zz.v", "Unknown 1:1"),
    ("zz->v", "Unknown 1:1"),
    ("h->zz", "Unknown 1:4"),
    ("s.zz", "Unknown 1:3"),
    ("h->n->zz", "Unknown 1:7"),
    ("ar->zz", "Unknown 1:5"),
    ("ar[zz].v", "Unknown 1:4"),
    ("1 +\n zz", "Unknown 2:2"),
    // a word of the library is a name; a tag and a field are none, and a global is no field
    ("1 + printf", "Unknown 1:5"),
    ("node", "Unknown 1:1"),
    ("v", "Unknown 1:1"),
    ("s.g", "Unknown 1:3"),
    // an operator of a refused operand is refused, and nothing more is wrong with it: a whole struct, a mutex, a function or a pointer beside it is no fault of its own
    ("p * zz", "Unknown 1:5"),
    ("zz * p", "Unknown 1:1"),
    ("m + zz", "Unknown 1:5"),
    ("zz + m", "Unknown 1:1"),
    ("two == zz", "Unknown 1:8"),
    ("s && zz", "Unknown 1:6"),
    ("m[zz]", "Unknown 1:3"),
    ("refused[zz]", "Unknown 1:9"),
    ("ar[zz].v + m", "Unknown 1:4"),
    // of two, the first in the text
    ("zz + yy", "Unknown 1:1"),
    ("h->zz + yy", "Unknown 1:4"),
    ("zz + x * p", "Unknown 1:1"),
    ("zz + &m", "Unknown 1:1"),
    ("zz +\nyy", "Unknown 1:1"),
    // at one place the name comes before the place that it isn't
    ("&(zz * p)", "Unknown 1:3"),
];

// Operands of `&` that are no places.
const NO_PLACES: [(&str, &str); 23] = [
    // a local has no address
    ("&x", "NotLvalue 1:2"),
    ("&(x)", "NotLvalue 1:3"),
    ("&y", "NotLvalue 1:2"),
    ("&h", "NotLvalue 1:2"),
    ("&w", "NotLvalue 1:2"),
    ("&t", "NotLvalue 1:2"),
    // a mutex, a function and the name of an array
    ("&m", "NotLvalue 1:2"),
    ("&two", "NotLvalue 1:2"),
    ("&a", "NotLvalue 1:2"),
    ("&ar", "NotLvalue 1:2"),
    ("&ts", "NotLvalue 1:2"),
    // by its form
    ("&5", "NotLvalue 1:2"),
    ("&NULL", "NotLvalue 1:2"),
    ("&(x + 1)", "NotLvalue 1:3"),
    ("&(p + 1)", "NotLvalue 1:3"),
    ("& &g", "NotLvalue 1:3"),
    ("&-x", "NotLvalue 1:2"),
    // whatever is refused in it, here or later in the text
    ("&-zz", "NotLvalue 1:2"),
    ("&(p * zz)", "NotLvalue 1:3"),
    ("&(x *\nzz)", "NotLvalue 1:3"),
    ("&m + zz", "NotLvalue 1:2"),
    // at one place it comes before a use that the types don't allow
    ("&(1 + m)", "NotLvalue 1:3"),
    ("&-m", "NotLvalue 1:2"),
];

#[test]
fn what_is_not_declared_or_no_place_is_told(rt: HostRuntime) -> Result<(), Fail> {
    let alloc = rt.alloc();
    assert_eq!(rt; wrong(alloc, Stands::AsOperand, &UNKNOWN)?.as_str(), "");
    assert_eq!(rt; wrong(alloc, Stands::AsOperand, &NO_PLACES)?.as_str(), "");
    Ok(())
}

// Uses that the types don't allow.
const MISMATCHES: [(&str, &str); 90] = [
    // a mutex, a function, a whole struct and a `pthread_t` have no operators
    ("1 + m", "Mismatch 1:1"),
    ("m + 1", "Mismatch 1:1"),
    ("m + m", "Mismatch 1:1"),
    ("-m", "Mismatch 1:1"),
    ("!m", "Mismatch 1:1"),
    ("*m", "Mismatch 1:1"),
    ("m[0]", "Mismatch 1:1"),
    ("a[m]", "Mismatch 1:1"),
    ("m.v", "Mismatch 1:1"),
    ("m->v", "Mismatch 1:1"),
    ("m == m", "Mismatch 1:1"),
    ("x && m", "Mismatch 1:1"),
    ("two + 1", "Mismatch 1:1"),
    ("-two", "Mismatch 1:1"),
    ("*two", "Mismatch 1:1"),
    ("two[0]", "Mismatch 1:1"),
    ("two.v", "Mismatch 1:1"),
    ("two == two", "Mismatch 1:1"),
    ("1 + s", "Mismatch 1:1"),
    ("-s", "Mismatch 1:1"),
    ("!s", "Mismatch 1:1"),
    ("*s", "Mismatch 1:1"),
    ("s[0]", "Mismatch 1:1"),
    ("s == u", "Mismatch 1:1"),
    ("x || s", "Mismatch 1:1"),
    ("t + 1", "Mismatch 1:1"),
    ("-t", "Mismatch 1:1"),
    ("!t", "Mismatch 1:1"),
    ("!gt", "Mismatch 1:1"),
    ("*t", "Mismatch 1:1"),
    ("a[t]", "Mismatch 1:1"),
    ("ts[0] == ts[1]", "Mismatch 1:1"),
    ("gt == t", "Mismatch 1:1"),
    ("t != 0", "Mismatch 1:1"),
    ("t || x", "Mismatch 1:1"),
    ("x && t", "Mismatch 1:1"),
    // `NULL` points at no type, and neither does a `void *`
    ("*NULL", "Mismatch 1:1"),
    ("NULL[0]", "Mismatch 1:1"),
    ("NULL + 1", "Mismatch 1:1"),
    ("1 + NULL", "Mismatch 1:1"),
    ("-NULL", "Mismatch 1:1"),
    ("NULL->v", "Mismatch 1:1"),
    ("NULL < 0", "Mismatch 1:1"),
    ("w + 1", "Mismatch 1:1"),
    ("w[0]", "Mismatch 1:1"),
    ("*w", "Mismatch 1:1"),
    ("w->v", "Mismatch 1:1"),
    // an `int` is no pointer
    ("*g", "Mismatch 1:1"),
    ("*x", "Mismatch 1:1"),
    ("x[0]", "Mismatch 1:1"),
    ("g[0]", "Mismatch 1:1"),
    ("5[a]", "Mismatch 1:1"),
    ("x.v", "Mismatch 1:1"),
    ("x->v", "Mismatch 1:1"),
    ("*5", "Mismatch 1:1"),
    // a pointer is no `int`
    ("-p", "Mismatch 1:1"),
    ("a[p]", "Mismatch 1:1"),
    ("a[NULL]", "Mismatch 1:1"),
    ("1 + p", "Mismatch 1:1"),
    ("p + p", "Mismatch 1:1"),
    ("p - 1", "Mismatch 1:1"),
    ("p - y", "Mismatch 1:1"),
    ("p * 2", "Mismatch 1:1"),
    ("2 / p", "Mismatch 1:1"),
    ("p % 2", "Mismatch 1:1"),
    ("g < p", "Mismatch 1:1"),
    ("p < y", "Mismatch 1:1"),
    ("p <= 0", "Mismatch 1:1"),
    ("p >= NULL", "Mismatch 1:1"),
    ("a > a", "Mismatch 1:1"),
    // a pointer is no struct, and a struct no pointer
    ("p.v", "Mismatch 1:1"),
    ("h.v", "Mismatch 1:1"),
    ("ar.v", "Mismatch 1:1"),
    ("h->n.v", "Mismatch 1:1"),
    ("s.v.v", "Mismatch 1:1"),
    ("s->v", "Mismatch 1:1"),
    ("p->v", "Mismatch 1:1"),
    ("(p).v", "Mismatch 1:1"),
    ("(p)->v", "Mismatch 1:1"),
    // other types, and other numbers than 0 as it is written
    ("p == h", "Mismatch 1:1"),
    ("p == &p", "Mismatch 1:1"),
    ("ts == p", "Mismatch 1:1"),
    ("p == 1", "Mismatch 1:1"),
    ("p == -0", "Mismatch 1:1"),
    ("p == 1 - 1", "Mismatch 1:1"),
    ("p == x", "Mismatch 1:1"),
    ("g != p", "Mismatch 1:1"),
    ("NULL == 1", "Mismatch 1:1"),
    ("NULL == x", "Mismatch 1:1"),
    ("w == 1", "Mismatch 1:1"),
];

// Where a use stands that the types don't allow.
const SMALLEST: [(&str, &str); 21] = [
    // the smallest expression whose operands aren't allowed; parentheses directly round it are no part of it
    ("(x + p)", "Mismatch 1:2"),
    ("(x + p) % g", "Mismatch 1:2"),
    ("(x + g) % p", "Mismatch 1:1"),
    ("1 + (x * p)", "Mismatch 1:6"),
    ("-(x * p)", "Mismatch 1:3"),
    ("!(p < y)", "Mismatch 1:3"),
    ("a[x * p]", "Mismatch 1:3"),
    ("h->b[-p]", "Mismatch 1:6"),
    ("(((p)).v)", "Mismatch 1:2"),
    ("!(m)", "Mismatch 1:1"),
    ("&*w", "Mismatch 1:2"),
    ("&x[0]", "Mismatch 1:2"),
    ("&s->v", "Mismatch 1:2"),
    ("x\n+ m", "Mismatch 1:1"),
    ("1 +\n(x * p)", "Mismatch 2:2"),
    // one in a part, beside what would be wrong with the whole, or behind it another
    ("m + x * p", "Mismatch 1:5"),
    ("x * p + m", "Mismatch 1:1"),
    ("(x * p) + zz", "Mismatch 1:2"),
    ("(x + p)[zz]", "Mismatch 1:2"),
    ("(x * p) * (y * x)", "Mismatch 1:2"),
    ("refused + x * p", "Mismatch 1:11"),
];

#[test]
fn what_the_types_do_not_allow_is_told(rt: HostRuntime) -> Result<(), Fail> {
    let alloc = rt.alloc();
    assert_eq!(rt; wrong(alloc, Stands::AsOperand, &MISMATCHES)?.as_str(), "");
    assert_eq!(rt; wrong(alloc, Stands::AsOperand, &SMALLEST)?.as_str(), "");
    Ok(())
}

// Conditions.
const CONDITIONS: [(&str, &str); 16] = [
    ("x", "L0"),
    ("0", "0"),
    ("p", "Pointer(G8.0)"),
    ("a", "G7"),
    ("w", "L3"),
    ("NULL", "NULL"),
    ("h->v", "Int(L2.0!)"),
    ("zz", "Unknown 1:1"),
    ("(m)", "Mismatch 1:2"),
    ("m", "Mismatch 1:1"),
    ("two", "Mismatch 1:1"),
    ("s", "Mismatch 1:1"),
    ("*h", "Mismatch 1:1"),
    ("t", "Mismatch 1:1"),
    ("gt", "Mismatch 1:1"),
    ("ts[1]", "Mismatch 1:1"),
];

// What goes into an `int`.
const INTS: [(&str, &str); 17] = [
    ("x", "L0"),
    ("g", "Int(G6.0)"),
    ("-0", "Negate(0)"),
    ("!p", "Not(Pointer(G8.0))"),
    ("(p)", "Mismatch 1:2"),
    ("x + zz", "Unknown 1:5"),
    ("p", "Mismatch 1:1"),
    ("y", "Mismatch 1:1"),
    ("a", "Mismatch 1:1"),
    ("w", "Mismatch 1:1"),
    ("&g", "Mismatch 1:1"),
    ("NULL", "Mismatch 1:1"),
    ("t", "Mismatch 1:1"),
    ("ts[0]", "Mismatch 1:1"),
    ("m", "Mismatch 1:1"),
    ("two", "Mismatch 1:1"),
    ("s", "Mismatch 1:1"),
];

// What goes into an `int *`: `NULL`, 0 as it is written, a `void *`, and a pointer to `int`.
const POINTERS: [(&str, &str); 29] = [
    ("NULL", "NULL"),
    ("0", "0"),
    ("(0)", "0"),
    ("0x0", "0"),
    ("w", "L3"),
    ("p", "Pointer(G8.0)"),
    ("y", "L1"),
    ("a", "G7"),
    ("&g", "Address(G6.0)"),
    ("s.b", "Pointer(G2.2)"),
    ("y + 1", "Address(L1[1*1].0!)"),
    ("&x", "NotLvalue 1:2"),
    ("&(p * zz)", "NotLvalue 1:3"),
    ("p * zz", "Unknown 1:5"),
    ("(1 - 1)", "Mismatch 1:2"),
    ("-0", "Mismatch 1:1"),
    ("1 - 1", "Mismatch 1:1"),
    ("!1", "Mismatch 1:1"),
    ("1", "Mismatch 1:1"),
    ("x", "Mismatch 1:1"),
    ("h", "Mismatch 1:1"),
    ("&p", "Mismatch 1:1"),
    ("&s", "Mismatch 1:1"),
    ("&ts[0]", "Mismatch 1:1"),
    ("ts", "Mismatch 1:1"),
    ("t", "Mismatch 1:1"),
    ("m", "Mismatch 1:1"),
    ("two", "Mismatch 1:1"),
    ("s", "Mismatch 1:1"),
];

// What goes into a `struct node *`.
const NODES: [(&str, &str); 14] = [
    ("NULL", "NULL"),
    ("0", "0"),
    ("w", "L3"),
    ("h", "L2"),
    ("h->n", "Pointer(L2.1!)"),
    ("ar", "G5"),
    ("&s", "Address(G2.0)"),
    ("p", "Mismatch 1:1"),
    ("a", "Mismatch 1:1"),
    ("s", "Mismatch 1:1"),
    ("*h", "Mismatch 1:1"),
    ("&s.n", "Mismatch 1:1"),
    ("1", "Mismatch 1:1"),
    ("x", "Mismatch 1:1"),
];

// What goes into an `int **`.
const POINTERS_TO_POINTERS: [(&str, &str); 6] = [
    ("NULL", "NULL"),
    ("w", "L3"),
    ("&p", "Address(G8.0)"),
    ("p", "Mismatch 1:1"),
    ("&g", "Mismatch 1:1"),
    ("&s.n", "Mismatch 1:1"),
];

// What goes into a `void *`: any pointer.
const ADDRESSES_OF_ANY: [(&str, &str); 16] = [
    ("NULL", "NULL"),
    ("0", "0"),
    ("w", "L3"),
    ("p", "Pointer(G8.0)"),
    ("h", "L2"),
    ("&p", "Address(G8.0)"),
    ("ts", "G1"),
    ("&ts[0]", "Address(G1[0*1].0!)"),
    ("1", "Mismatch 1:1"),
    ("-0", "Mismatch 1:1"),
    ("x", "Mismatch 1:1"),
    ("t", "Mismatch 1:1"),
    ("gt", "Mismatch 1:1"),
    ("m", "Mismatch 1:1"),
    ("two", "Mismatch 1:1"),
    ("s", "Mismatch 1:1"),
];

// What goes into a `pthread_t`.
const THREADS: [(&str, &str); 11] = [
    ("t", "L4"),
    ("gt", "Thread(G0.0)"),
    ("ts[1]", "Thread(G1[1*1].0!)"),
    ("0", "Mismatch 1:1"),
    ("x", "Mismatch 1:1"),
    ("NULL", "Mismatch 1:1"),
    ("p", "Mismatch 1:1"),
    ("ts", "Mismatch 1:1"),
    ("&gt", "Mismatch 1:1"),
    ("m", "Mismatch 1:1"),
    ("s", "Mismatch 1:1"),
];

// What goes into a place whose type was refused: anything; what is no value stands as 0.
const ANYTHING: [(&str, &str); 5] = [
    ("x", "L0"),
    ("t", "L4"),
    ("m", "0"),
    ("zz", "Unknown 1:1"),
    ("1 + m", "Mismatch 1:1"),
];

#[test]
fn values_go_where_they_fit(rt: HostRuntime) -> Result<(), Fail> {
    let alloc = rt.alloc();
    assert_eq!(rt;
        wrong(alloc, Stands::In(Wanted::Scalar), &CONDITIONS)?.as_str(),
        ""
    );
    assert_eq!(rt; wrong(alloc, into(Some(INT)), &INTS)?.as_str(), "");
    assert_eq!(rt;
        wrong(alloc, into(Some(INT_POINTER)), &POINTERS)?.as_str(),
        ""
    );
    assert_eq!(rt;
        wrong(alloc, into(Some(NODE_POINTER)), &NODES)?.as_str(),
        ""
    );
    Ok(())
}

#[test]
fn pointers_go_where_they_fit(rt: HostRuntime) -> Result<(), Fail> {
    let alloc = rt.alloc();
    assert_eq!(rt;
        wrong(alloc, into(Some(INT_POINTERS)), &POINTERS_TO_POINTERS)?.as_str(),
        ""
    );
    assert_eq!(rt;
        wrong(alloc, into(Some(VOID_POINTER)), &ADDRESSES_OF_ANY)?.as_str(),
        ""
    );
    assert_eq!(rt; wrong(alloc, into(Some(THREAD)), &THREADS)?.as_str(), "");
    assert_eq!(rt; wrong(alloc, into(None), &ANYTHING)?.as_str(), "");
    Ok(())
}

// What is assigned to.
const TARGETS: [(&str, &str); 55] = [
    ("x", "int: L0"),
    ("(x)", "int: L0"),
    ("y", "int*: L1"),
    ("w", "void*: L3"),
    ("t", "pthread_t: L4"),
    ("k", "int*: L6"),
    ("g", "int: G6.0"),
    ("p", "int*: G8.0"),
    ("gt", "pthread_t: G0.0"),
    ("*p", "int: Pointer(G8.0).0!"),
    ("*&g", "int: Address(G6.0).0!"),
    ("a[x]", "int: G7[L0*1].0!"),
    ("ts[2]", "pthread_t: G1[2*1].0!"),
    ("s.n", "struct 0*: G2.1"),
    ("ar[0].v", "int: G5[0*3].0!"),
    ("h->n->b", "int*: Pointer(L2.1!).2!"),
    ("refused", "nothing"),
    ("*refused", "nothing"),
    // an array, a whole struct, a mutex and a function
    ("a", "NotLvalue 1:1"),
    ("ar", "NotLvalue 1:1"),
    ("ts", "NotLvalue 1:1"),
    ("s", "NotLvalue 1:1"),
    ("((s))", "NotLvalue 1:3"),
    ("*h", "NotLvalue 1:1"),
    ("(*q)", "NotLvalue 1:2"),
    ("ar[0]", "NotLvalue 1:1"),
    ("m", "NotLvalue 1:1"),
    ("two", "NotLvalue 1:1"),
    // by its form, whatever is wrong in it
    ("5", "NotLvalue 1:1"),
    ("NULL", "NotLvalue 1:1"),
    ("-x", "NotLvalue 1:1"),
    ("!x", "NotLvalue 1:1"),
    ("&g", "NotLvalue 1:1"),
    ("x + 1", "NotLvalue 1:1"),
    ("(x + 1)", "NotLvalue 1:2"),
    ("p + 1", "NotLvalue 1:1"),
    ("-zz", "NotLvalue 1:1"),
    ("&zz", "NotLvalue 1:1"),
    ("&m", "NotLvalue 1:1"),
    ("-refused", "NotLvalue 1:1"),
    ("(p * zz)", "NotLvalue 1:2"),
    ("-m", "NotLvalue 1:1"),
    ("(1 + m)", "NotLvalue 1:2"),
    // nothing more where it is refused
    ("zz", "Unknown 1:1"),
    ("*zz", "Unknown 1:2"),
    ("zz[0]", "Unknown 1:1"),
    ("a[zz]", "Unknown 1:3"),
    ("s.zz", "Unknown 1:3"),
    ("m[zz]", "Unknown 1:3"),
    ("*w", "Mismatch 1:1"),
    ("*NULL", "Mismatch 1:1"),
    ("x[0]", "Mismatch 1:1"),
    ("p.v", "Mismatch 1:1"),
    ("a[x * p]", "Mismatch 1:3"),
    // at one place the name comes first
    ("zz + 1", "Unknown 1:1"),
];

#[test]
fn targets_are_places_that_hold_values(rt: HostRuntime) -> Result<(), Fail> {
    let alloc = rt.alloc();
    assert_eq!(rt; wrong(alloc, Stands::AsTarget, &TARGETS)?.as_str(), "");
    Ok(())
}
