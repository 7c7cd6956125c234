//! What functions give that touch no memory, by the silent nodes of their graphs; worked by hand from C's arithmetic.
use crate::graphs::{NO_PLAN, lowered};
use ca_flow::{Graph, Instr, Links, NodeId, Reg};
use ca_model::Value;
use ca_values::{negate, operated, truth};
use ca_worked::repeated;
use std::alloc::{AllocError, Global};
use std::test::Fail;

fn held(registers: &[Value], at: Reg) -> Value {
    registers
        .get(at.0 as usize)
        .copied()
        .unwrap_or(Value::Num(0))
}

fn negated(value: Value) -> Option<Value> {
    match value {
        Value::Num(number) => negate(number).ok().map(Value::Num),
        Value::Addr(_) => None,
    }
}

// What a silent node puts into a register.
fn put(registers: &[Value], instr: &Instr) -> Option<(Reg, Value)> {
    match instr {
        Instr::Put { to, value } => Some((*to, *value)),
        Instr::Copy { to, from } => Some((*to, held(registers, *from))),
        Instr::Negate { to, from } => {
            let value = negated(held(registers, *from))?;
            Some((*to, value))
        }
        Instr::Not { to, from } => {
            let holds = truth(held(registers, *from));
            Some((*to, Value::Num(i32::from(!holds))))
        }
        Instr::Binary {
            to,
            op,
            left,
            right,
        } => {
            let value = operated(*op, held(registers, *left), held(registers, *right)).ok()?;
            Some((*to, value))
        }
        _ => None,
    }
}

// Whether a node was a turn, a branch or a silent one, whose value is then in its register.
fn is_done(registers: &mut Vec<Value>, instr: &Instr) -> bool {
    if matches!(instr, Instr::Turn | Instr::Branch(_)) {
        return true;
    }
    let Some((to, value)) = put(registers, instr) else {
        return false;
    };
    match registers.get_mut(to.0 as usize) {
        Some(register) => {
            *register = value;
            true
        }
        None => false,
    }
}

// The node behind one with these links.
fn behind(registers: &[Value], instr: &Instr, links: Links) -> Option<NodeId> {
    match links {
        Links::Nowhere => None,
        Links::One(next) => Some(next),
        Links::Two { yes, no } => {
            let Instr::Branch(value) = instr else {
                return None;
            };
            Some(if truth(held(registers, *value)) {
                yes
            } else {
                no
            })
        }
    }
}

fn opened(alloc: Global, graph: &Graph, arguments: [i32; 2]) -> Result<Vec<Value>, AllocError> {
    let mut registers = Vec::new(alloc);
    for number in arguments {
        registers.push(Value::Num(number))?;
    }
    for _ in 2..graph.registers() {
        registers.push(Value::Num(0))?;
    }
    Ok(registers)
}

// What a function of two parameters returns; nothing where it comes to anything else than a silent node.
fn given(alloc: Global, graph: &Graph, arguments: [i32; 2]) -> Result<Option<Value>, AllocError> {
    let mut registers = opened(alloc, graph, arguments)?;
    let mut node = graph.entry();
    for _ in 0..2000 {
        let Some(step) = graph.steps().get(node.0 as usize) else {
            return Ok(None);
        };
        let instr = &step.node.instr;
        if let Instr::Return(Some(from)) = instr {
            return Ok(Some(held(&registers, *from)));
        }
        if !is_done(&mut registers, instr) {
            return Ok(None);
        }
        let Some(next) = behind(&registers, instr, step.links) else {
            return Ok(None);
        };
        node = next;
    }
    Ok(None)
}

// What a body gives in a function of two parameters, `x` and `y`.
fn answer(alloc: Global, body: &[u8], arguments: [i32; 2]) -> Result<Option<Value>, Fail> {
    let text = repeated(
        alloc,
        b"int f(int x, int y) {",
        body,
        1,
        b"} int main(void) { return 0; }",
    )?;
    let Some(code) = lowered(alloc, &text, NO_PLAN)? else {
        return Ok(None);
    };
    match code.graphs().first() {
        Some(graph) => Ok(given(alloc, graph, arguments)?),
        None => Ok(None),
    }
}

const VALUES: [(&[u8], [i32; 2], i32); 37] = [
    // a target that is an operand is written last
    (b"x = x + (y * x); return x;", [3, 5], 18),
    (b"x = (y * x) + x; return x;", [3, 5], 18),
    (b"x = (x + y) * (x - y); return x;", [7, 2], 45),
    (b"y = x - (y - (x - y)); return y;", [10, 4], 12),
    (b"x = -(x - (y * x)); return x;", [3, 5], 12),
    (b"x -= y - x; return x;", [3, 5], 1),
    (b"x %= y; x++; --y; return x * y;", [7, 4], 12),
    // `&&` and `||` as values
    (b"return x && y;", [2, 3], 1),
    (b"return x && y;", [2, 0], 0),
    (b"return x && y;", [0, 3], 0),
    (b"return x || y;", [0, 3], 1),
    (b"return x || y;", [0, 0], 0),
    (b"x = y && (x || y); return x;", [0, 5], 1),
    (b"x = !x && y > x; return x;", [0, 1], 1),
    (b"x = !x && y > x; return x;", [2, 3], 0),
    // what isn't needed isn't evaluated
    (b"return x && y / x;", [0, 1], 0),
    (b"return !x || y / x > 1;", [0, 1], 1),
    // in conditions
    (b"if (x && y) return 1; return 2;", [1, 1], 1),
    (b"if (x && y) return 1; return 2;", [1, 0], 2),
    (b"if (x && y) return 1; return 2;", [0, 1], 2),
    (b"if (x || !y) return 1; return 2;", [0, 0], 1),
    (b"if (x || !y) return 1; else return 2;", [0, 1], 2),
    // a `for` with each part, and with each part absent
    (
        b"int s = 0; for (x = 0; x < y; x++) s += x; return s;",
        [9, 4],
        6,
    ),
    (b"for (; x < y; x++) ; return x;", [1, 4], 4),
    (
        b"for (x = 0; ; x++) if (x == y) return x; return 9;",
        [7, 3],
        3,
    ),
    (b"for (x = 0; x < y; ) x += 2; return x;", [7, 5], 6),
    (
        b"for (;;) { if (x > y) break; x = x * 2; } return x;",
        [1, 5],
        8,
    ),
    (
        b"int s = 0; for (; x < 6; x++) { if (x % 2) continue; s += x; } return s;",
        [0, 0],
        6,
    ),
    // the other loops
    (b"do x--; while (x > y); return x;", [9, 4], 4),
    (b"do x--; while (x > y); return x;", [1, 4], 0),
    (
        b"do { x--; if (x > y) continue; y = 0; } while (x > 0); return x - y;",
        [9, 4],
        0,
    ),
    (
        b"int s = 0; while (x) { x--; if (x == y) continue; s++; } return s;",
        [3, 1],
        2,
    ),
    (
        b"while (x) while (y) { y = 0; x = 0; } return x + y;",
        [3, 1],
        0,
    ),
    // code behind a `return` and behind a `break`
    (b"return x; x = 5; return y;", [1, 2], 1),
    (b"while (x) { break; x = 5; } return x;", [3, 0], 3),
    // a local that hides a parameter
    (b"{ int x = y; x++; } return x;", [3, 7], 3),
    (b"int z; z = z + x; return z;", [3, 7], 3),
];

#[test]
fn functions_give_what_their_texts_say(rt: HostRuntime) -> Result<(), Fail> {
    let alloc = rt.alloc();
    for (body, arguments, value) in VALUES {
        let given = answer(alloc, body, arguments)?;
        assert_eq!(rt; given, Some(Value::Num(value)));
    }
    Ok(())
}

// What stands before and behind a text 63 times, the text, the arguments and the value.
type Deep<'a> = (&'a [u8], &'a [u8], &'a [u8], [i32; 2], i32);

// Expressions that are 64 deep.
const DEEPEST: [Deep<'static>; 9] = [
    (b"", b"1", b"+1", [0, 0], 64),
    (b"(1+", b"1", b")", [0, 0], 64),
    (b"(x-", b"y", b")", [1, 5], -4),
    (b"!", b"x", b"", [0, 0], 1),
    (b"!", b"x", b"", [4, 0], 0),
    (b"-(", b"x", b")", [5, 0], -5),
    (b"(x&&", b"y", b")", [1, 7], 1),
    (b"(x&&", b"y", b")", [1, 0], 0),
    (b"(x||", b"y", b")", [0, 7], 1),
];

// Statements that are 64 deep.
const DEEPEST_STATEMENTS: [Deep<'static>; 8] = [
    (b"if (x) ", b"x = y;", b"", [1, 9], 9),
    (b"if (x) ", b"x = y;", b"", [0, 9], 0),
    (b"if (x) ; else ", b"x = y;", b"", [0, 9], 9),
    (b"{", b"x = y;", b"}", [1, 9], 9),
    (b"while (x) ", b"x = 0;", b"", [4, 0], 0),
    (b"do ", b"x = y;", b" while (x < y);", [1, 9], 9),
    (b"for (; x; ) ", b"x = 0;", b"", [4, 0], 0),
    (b"for (;;) { ", b"return y;", b"}", [4, 6], 6),
];

fn nested(alloc: Global, deep: Deep<'static>) -> Result<Vec<u8>, AllocError> {
    let opened = repeated(alloc, b"", deep.0, 63, deep.1)?;
    repeated(alloc, &opened, deep.2, 63, b"")
}

#[test]
fn the_deepest_expressions_and_statements_are_lowered(rt: HostRuntime) -> Result<(), Fail> {
    let alloc = rt.alloc();
    for deep in DEEPEST {
        let inner = nested(alloc, deep)?;
        let body = repeated(alloc, b"x = ", &inner, 1, b"; return x;")?;
        let given = answer(alloc, &body, deep.3)?;
        assert_eq!(rt; given, Some(Value::Num(deep.4)));
    }
    for deep in DEEPEST_STATEMENTS {
        let inner = nested(alloc, deep)?;
        let body = repeated(alloc, &inner, b" return x;", 1, b"")?;
        let given = answer(alloc, &body, deep.3)?;
        assert_eq!(rt; given, Some(Value::Num(deep.4)));
    }
    Ok(())
}
