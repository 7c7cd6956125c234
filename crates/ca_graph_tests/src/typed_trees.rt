//! Whole typed trees, worked by hand from the rules of names, types and items.
use ca_model::{Act, Checked, Exp, Function, Item, Stmt, Target};
use ca_sources::{GIVEN_BLOCK, LOOP_POINTS, NULL_POINTER, PRINTED_SUM};
use ca_tree::{FunId, VarId};
use ca_worked::{place_shown, shown, typing};
use std::alloc::{AllocError, Global};
use std::test::Fail;

fn target_shown(alloc: Global, target: &Target) -> Result<String, AllocError> {
    match target {
        Target::Local(var) => format!(in alloc; "L{}", var.0),
        Target::Place(place) => place_shown(alloc, place),
    }
}

fn all_shown(alloc: Global, exps: &[Exp]) -> Result<String, AllocError> {
    let mut text = String::new(alloc);
    for exp in exps {
        let one = shown(alloc, exp)?;
        text.push_str(", ")?;
        text.push_str(one.as_str())?;
    }
    Ok(text)
}

fn local_or_none(alloc: Global, local: &Option<VarId>) -> Result<String, AllocError> {
    match local {
        Some(var) => format!(in alloc; "L{}", var.0),
        None => format!(in alloc; "none"),
    }
}

fn act_shown(alloc: Global, act: &Act) -> Result<String, AllocError> {
    match act {
        Act::Zero(var) => format!(in alloc; "Zero L{}", var.0),
        Act::Set(target, exp) => {
            let target = target_shown(alloc, target)?;
            let exp = shown(alloc, exp)?;
            format!(in alloc; "Set {target}, {exp}")
        }
        Act::Update(target, operator, exp) => {
            let target = target_shown(alloc, target)?;
            let exp = shown(alloc, exp)?;
            format!(in alloc; "Update {target}, {operator:?}, {exp}")
        }
        Act::Malloc(target, count, cells) => {
            let target = target_shown(alloc, target)?;
            let count = shown(alloc, count)?;
            format!(in alloc; "Malloc {target}, {count}, {cells}")
        }
        Act::Call(result, function, arguments) => {
            let result = local_or_none(alloc, result)?;
            let arguments = all_shown(alloc, arguments.as_slice())?;
            format!(in alloc; "Call {result}, f{}{arguments}", function.0)
        }
        Act::Lock(mutex) => format!(in alloc; "Lock m{}", mutex.0),
        Act::Unlock(mutex) => format!(in alloc; "Unlock m{}", mutex.0),
        Act::Create(var, function, argument) => {
            let argument = shown(alloc, argument)?;
            format!(in alloc; "Create L{}, f{}, {argument}", var.0, function.0)
        }
        Act::Join(exp) => {
            let exp = shown(alloc, exp)?;
            format!(in alloc; "Join {exp}")
        }
        Act::Free(exp) => {
            let exp = shown(alloc, exp)?;
            format!(in alloc; "Free {exp}")
        }
        Act::Assert(exp) => {
            let exp = shown(alloc, exp)?;
            format!(in alloc; "Assert {exp}")
        }
        Act::Print(words, arguments) => {
            let arguments = all_shown(alloc, arguments.as_slice())?;
            format!(in alloc; "Print {:?}{arguments}", words.as_slice())
        }
        Act::Return(None) => format!(in alloc; "Return"),
        Act::Return(Some(exp)) => {
            let exp = shown(alloc, exp)?;
            format!(in alloc; "Return {exp}")
        }
        Act::Cond(exp) => {
            let exp = shown(alloc, exp)?;
            format!(in alloc; "Cond {exp}")
        }
        Act::Close => format!(in alloc; "Close"),
    }
}

// A line for each item: its number, its place, and what it does.
fn show_item(alloc: Global, item: &Item, text: &mut String) -> Result<(), AllocError> {
    let act = act_shown(alloc, &item.act)?;
    let line = format!(in alloc;
        "{} {}:{} {act}\n",
        item.id.0, item.pos.line, item.pos.column
    )?;
    text.push_str(line.as_str())
}

fn show_if_there(alloc: Global, item: &Option<Item>, text: &mut String) -> Result<(), AllocError> {
    match item {
        Some(item) => show_item(alloc, item, text),
        None => text.push_str("none\n"),
    }
}

#[cycle(show)]
fn show_all(alloc: Global, stmts: &[Stmt], text: &mut String) -> Result<(), AllocError> {
    for stmt in stmts {
        show(alloc, stmt, text)?;
    }
    Ok(())
}

// A statement: a word before each of its parts, and a brace behind the last.
#[cycle(show)]
fn show(alloc: Global, stmt: &Stmt, text: &mut String) -> Result<(), AllocError> {
    match stmt {
        Stmt::Item(item) => show_item(alloc, item, text),
        Stmt::Block(stmts) => {
            text.push_str("block {\n")?;
            show_all(alloc, stmts.as_slice(), text)?;
            text.push_str("}\n")
        }
        Stmt::If { cond, yes, no } => {
            text.push_str("if {\n")?;
            show_item(alloc, cond, text)?;
            show(alloc, yes.get(), text)?;
            if let Some(no) = no {
                text.push_str("else\n")?;
                show(alloc, no.get(), text)?;
            }
            text.push_str("}\n")
        }
        Stmt::While { cond, body } => {
            text.push_str("while {\n")?;
            show_item(alloc, cond, text)?;
            show(alloc, body.get(), text)?;
            text.push_str("}\n")
        }
        Stmt::Do { body, cond } => {
            text.push_str("do {\n")?;
            show(alloc, body.get(), text)?;
            show_item(alloc, cond, text)?;
            text.push_str("}\n")
        }
        Stmt::For {
            first,
            cond,
            step,
            body,
        } => {
            text.push_str("for {\n")?;
            show_if_there(alloc, first, text)?;
            show_item(alloc, cond, text)?;
            show_if_there(alloc, step, text)?;
            show(alloc, body.get(), text)?;
            text.push_str("}\n")
        }
        Stmt::Break => text.push_str("break\n"),
        Stmt::Continue => text.push_str("continue\n"),
    }
}

fn show_function(alloc: Global, function: &Function, text: &mut String) -> Result<(), AllocError> {
    let head = format!(in alloc;
        "f{} of {} and {} locals\n",
        function.id.0, function.parameters, function.locals
    )?;
    text.push_str(head.as_str())?;
    show_all(alloc, function.body.as_slice(), text)?;
    show_item(alloc, &function.close, text)
}

// The globals, each with its cells and its first value, the mutexes, the items, and the functions.
fn tree_shown(alloc: Global, source: &Checked) -> Result<String, AllocError> {
    let mut text = String::new(alloc);
    for global in source.globals() {
        let line = format!(in alloc; "global {} {:?}\n", global.cells, global.first)?;
        text.push_str(line.as_str())?;
    }
    let counts = format!(in alloc; "{} mutexes, {} items\n", source.mutexes(), source.items())?;
    text.push_str(counts.as_str())?;
    for number in 0..source.functions() {
        show_function(alloc, source.function(FunId(number)), &mut text)?;
    }
    Ok(text)
}

fn answer(alloc: Global, text: &[u8]) -> Result<String, AllocError> {
    match typing(alloc, text)? {
        Ok(source) => tree_shown(alloc, &source),
        Err(fault) => Ok(fault),
    }
}

// A struct, an array of pointers, loops in one another, and a prototype.
pub(crate) const LIST: &[u8] = b"struct node { int v; struct node *next; };
struct node *row[3];
int sum(struct node *n, int k);
int main(void) {
  int i, s = 0;
  for (i = 0; i < 3; i++) {
    row[i] = malloc(sizeof(struct node));
    row[i]->v = i;
    for (int j = 0; ; j += 1)
      if (j > i) break; else row[i]->next = row[0];
  }
  s = sum(row[2], 2);
  return s;
}
int sum(struct node *n, int k) {
  do { k--; } while (n->v < k && n->next != NULL);
  return -k;
}
";

const TREES: [(&[u8], &str); 5] = [
    (
        PRINTED_SUM,
        "global 1 Num(0)
0 mutexes, 4 items
f0 of 0 and 0 locals
1 1:24 Set G0.0, Add(2, 3)
2 1:35 Print [37, 100, 10], Int(G0.0)
3 1:54 Return 0
4 1:64 Close
",
    ),
    (
        NULL_POINTER,
        "global 1 Num(0)
0 mutexes, 10 items
f0 of 1 and 1 locals
1 3:3 Print [37, 100, 10], Int(Pointer(G0.0).0!)
2 4:3 Return NULL
3 5:1 Close
f1 of 0 and 1 locals
4 7:3 Zero L0
5 8:3 Create L0, f0, NULL
6 9:3 Malloc G0.0, 1, 1
7 10:3 Set Pointer(G0.0).0!, 7
8 11:3 Join L0
9 12:3 Return 0
10 13:1 Close
",
    ),
    (
        GIVEN_BLOCK,
        "global 1 Num(0)
0 mutexes, 11 items
f0 of 1 and 2 locals
1 3:3 Malloc L1, 2, 1
2 4:3 Assert Int(G0.0)
3 5:3 Free L1
4 6:3 Return NULL
5 7:1 Close
f1 of 0 and 1 locals
6 9:3 Zero L0
7 10:3 Create L0, f0, NULL
8 11:3 Set G0.0, 1
9 12:3 Join L0
10 13:3 Return 0
11 14:1 Close
",
    ),
    (
        LOOP_POINTS,
        "global 2 Num(0)
global 1 Num(0)
0 mutexes, 6 items
f0 of 0 and 1 locals
1 4:3 Set L0, 0
while {
2 5:10 Cond Less(L0, Int(G0[Int(G1.0)*1].0!))
block {
3 6:5 Set L0, Add(L0, 1)
4 7:5 Set G1.0, L0
}
}
5 9:3 Return 0
6 10:1 Close
",
    ),
    (
        LIST,
        "global 3 Num(0)
0 mutexes, 19 items
f0 of 0 and 3 locals
1 5:3 Zero L0
2 5:10 Set L1, 0
for {
3 6:8 Set L0, 0
4 6:15 Cond Less(L0, 3)
5 6:22 Update L0, Add, 1
block {
6 7:5 Malloc G0[L0*1].0!, 1, 2
7 8:5 Set Pointer(G0[L0*1].0!).0!, L0
for {
8 9:10 Set L2, 0
9 9:21 Cond 1
10 9:23 Update L2, Add, 1
if {
11 10:11 Cond More(L2, L0)
break
else
12 10:30 Set Pointer(G0[L0*1].0!).1!, Pointer(G0[0*1].0!)
}
}
}
}
13 12:3 Call L1, f1, Pointer(G0[2*1].0!), 2
14 13:3 Return L1
15 14:1 Close
f1 of 2 and 2 locals
do {
block {
16 16:8 Update L1, Sub, 1
}
17 16:22 Cond And(Less(Int(L0.0!), L1), Differs(Pointer(L0.1!), NULL))
}
18 17:3 Return Negate(L1)
19 18:1 Close
",
    ),
];

#[test]
fn sources_have_these_typed_trees(rt: HostRuntime) -> Result<(), Fail> {
    let alloc = rt.alloc();
    for (text, tree) in TREES {
        assert_eq!(rt; answer(alloc, text)?.as_str(), tree);
    }
    Ok(())
}
