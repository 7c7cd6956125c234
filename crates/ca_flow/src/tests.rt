// Links between items, the nodes before and after each node, and what items do, worked by hand.
use crate::changes::kind_of;
use crate::graph::{nodes_after, nodes_before};
use crate::{Instr, ItemKind, Links, Node, NodeId, Reg, Step, destroys, find_links};
use ca_model::{Act, BinOp, Exp, Function, Item, LoadKind, Place, Stmt, Target};
use ca_tree::listed::Listed;
use ca_tree::{FunId, GlobalId, ItemId, MutexId, NoMemory, Pos, VarId};
use sqlite_items::Boxed;
use std::alloc::Global;
use std::process::Abort;
use std::test::Fail;

fn item(number: u32, act: Act) -> Item {
    Item {
        id: ItemId(number),
        pos: Pos { line: 1, column: 1 },
        act,
    }
}

fn cond(number: u32) -> Item {
    item(number, Act::Cond(Exp::Num(1)))
}

fn local(number: u32) -> Item {
    item(number, Act::Set(Target::Local(VarId(0)), Exp::Num(2)))
}

fn place(alloc: Global) -> Result<Place, NoMemory> {
    Ok(Place {
        base: Boxed::new(alloc, Exp::Global(GlobalId(0)))?,
        index: None,
        field: 0,
        through: false,
    })
}

fn shared(alloc: Global, number: u32) -> Result<Item, NoMemory> {
    let target = Target::Place(place(alloc)?);
    Ok(item(number, Act::Set(target, Exp::Num(2))))
}

fn block(alloc: Global, first: Stmt, second: Stmt) -> Result<Stmt, NoMemory> {
    let mut stmts = Vec::new(alloc);
    stmts.push(first)?;
    stmts.push(second)?;
    Ok(Stmt::Block(Listed::from_vec(stmts)))
}

// A function of one statement, and its closing brace.
fn function(alloc: Global, stmt: Stmt, close: u32) -> Result<Function, NoMemory> {
    let mut body = Vec::new(alloc);
    body.push(stmt)?;
    Ok(Function {
        id: FunId(0),
        parameters: 0,
        locals: 1,
        body: Listed::from_vec(body),
        close: item(close, Act::Close),
    })
}

// Whether a function begins with an item, and has these links, the last ones first.
fn has_links(
    rt: &impl Abort,
    alloc: Global,
    function: &Function,
    first: u32,
    links: &[(u32, u32, bool)],
) -> Result<(), Fail> {
    let (begin, found) = find_links(alloc, function)?;
    assert_eq!(rt; begin, ItemId(first));
    assert_eq!(rt; found.len(), links.len());
    for (link, wanted) in found.iter().zip(links) {
        assert_eq!(rt; link.from.0, wanted.0);
        assert_eq!(rt; link.to.0, wanted.1);
        assert_eq!(rt; link.destroys, wanted.2);
    }
    Ok(())
}

// for (1; 2; 3) { if (4) break; 5 } return 6; }
#[test]
fn a_step_goes_to_the_condition_and_a_break_behind_the_loop(rt: HostRuntime) -> Result<(), Fail> {
    let alloc = rt.alloc();
    let stop = Stmt::If {
        cond: cond(4),
        yes: Boxed::new(alloc, Stmt::Break)?,
        no: None,
    };
    let body = block(alloc, stop, Stmt::Item(shared(alloc, 5)?))?;
    let round = Stmt::For {
        first: Some(local(1)),
        cond: cond(2),
        step: Some(local(3)),
        body: Boxed::new(alloc, body)?,
    };
    let end = Stmt::Item(item(6, Act::Return(None)));
    let whole = function(alloc, block(alloc, round, end)?, 7)?;
    has_links(
        &rt,
        alloc,
        &whole,
        1,
        &[
            (5, 3, true),
            (4, 5, false),
            (4, 6, false),
            (3, 2, false),
            (1, 2, false),
            (2, 6, false),
            (2, 4, false),
        ],
    )
}

// do { 1; continue; } while (2); }, and for (; 1; ) continue; }
#[test]
fn a_continue_goes_to_the_condition(rt: HostRuntime) -> Result<(), Fail> {
    let alloc = rt.alloc();
    let body = block(alloc, Stmt::Item(local(1)), Stmt::Continue)?;
    let round = Stmt::Do {
        body: Boxed::new(alloc, body)?,
        cond: cond(2),
    };
    let whole = function(alloc, round, 3)?;
    has_links(
        &rt,
        alloc,
        &whole,
        1,
        &[(1, 2, false), (2, 3, false), (2, 1, false)],
    )?;
    let bare = Stmt::For {
        first: None,
        cond: cond(1),
        step: None,
        body: Boxed::new(alloc, Stmt::Continue)?,
    };
    let whole = function(alloc, bare, 2)?;
    has_links(&rt, alloc, &whole, 1, &[(1, 2, false), (1, 1, false)])
}

// if (1) 2; else while (3) 4; }
#[test]
fn both_branches_go_on_behind_the_else(rt: HostRuntime) -> Result<(), Fail> {
    let alloc = rt.alloc();
    let other = Stmt::While {
        cond: cond(3),
        body: Boxed::new(alloc, Stmt::Item(local(4)))?,
    };
    let either = Stmt::If {
        cond: cond(1),
        yes: Boxed::new(alloc, Stmt::Item(local(2)))?,
        no: Some(Boxed::new(alloc, other)?),
    };
    let whole = function(alloc, either, 5)?;
    has_links(
        &rt,
        alloc,
        &whole,
        1,
        &[
            (4, 3, false),
            (3, 5, false),
            (3, 4, false),
            (2, 5, false),
            (1, 3, false),
            (1, 2, false),
        ],
    )
}

// return 1; 2; }, and an empty function.
#[test]
fn nothing_follows_a_return(rt: HostRuntime) -> Result<(), Fail> {
    let alloc = rt.alloc();
    let end = Stmt::Item(item(1, Act::Return(None)));
    let whole = function(alloc, block(alloc, end, Stmt::Item(local(2)))?, 3)?;
    has_links(&rt, alloc, &whole, 1, &[(2, 3, false)])?;
    let empty = Stmt::Block(Listed::from_vec(Vec::new(alloc)));
    let whole = function(alloc, empty, 1)?;
    has_links(&rt, alloc, &whole, 1, &[])
}

fn destroys_one(act: Act) -> bool {
    destroys(&act)
}

#[test]
fn locks_and_locals_destroy_nothing(rt: HostRuntime) {
    let local = Target::Local(VarId(0));
    assert!(rt; !destroys_one(Act::Lock(MutexId(0))));
    assert!(rt; !destroys_one(Act::Zero(VarId(0))));
    assert!(rt; !destroys_one(Act::Malloc(local, Exp::Num(1), 1)));
    assert!(rt; !destroys_one(Act::Assert(Exp::Null)));
    assert!(rt; destroys_one(Act::Unlock(MutexId(0))));
    assert!(rt; destroys_one(Act::Close));
}

#[test]
fn a_malloc_into_a_place_destroys(rt: HostRuntime) -> Result<(), Fail> {
    let target = Target::Place(place(rt.alloc())?);
    assert!(rt; destroys_one(Act::Malloc(target, Exp::Num(1), 1)));
    Ok(())
}

// A load through a pointer that is in a global.
fn load(alloc: Global) -> Result<Exp, NoMemory> {
    let pointer = Exp::Load(place(alloc)?, LoadKind::Pointer);
    let at = Place {
        base: Boxed::new(alloc, pointer)?,
        index: None,
        field: 0,
        through: true,
    };
    Ok(Exp::Load(at, LoadKind::Int))
}

// *p + *p; and assert(1);
#[test]
fn a_read_is_known_at_the_sites_behind_it(rt: HostRuntime) -> Result<(), Fail> {
    let alloc = rt.alloc();
    let sum = Exp::Binary(
        BinOp::Add,
        Boxed::new(alloc, load(alloc)?)?,
        Boxed::new(alloc, load(alloc)?)?,
    );
    let mut changes = Vec::new(alloc);
    let read = kind_of(&item(1, Act::Cond(sum)), &mut changes)?;
    let tested = kind_of(&item(2, Act::Assert(Exp::Num(1))), &mut changes)?;
    let does = |can_change| ItemKind {
        is_lock: false,
        has_malloc: false,
        can_change,
    };
    assert_eq!(rt; read, does(true));
    assert_eq!(rt; tested, does(false));
    assert_eq!(rt; changes.as_slice(), [true, true, false].as_slice());
    Ok(())
}

// lock(&m); and x = malloc(1), where x is a local.
#[test]
fn a_lock_reads_nothing_and_a_malloc_changes(rt: HostRuntime) -> Result<(), Fail> {
    let mut changes = Vec::new(rt.alloc());
    let lock = kind_of(&item(1, Act::Lock(MutexId(0))), &mut changes)?;
    let local = Target::Local(VarId(0));
    let malloc = kind_of(&item(2, Act::Malloc(local, Exp::Num(1), 1)), &mut changes)?;
    assert!(rt; lock.is_lock && !lock.has_malloc && !lock.can_change);
    assert!(rt; !malloc.is_lock && malloc.has_malloc && malloc.can_change);
    assert_eq!(rt; changes.as_slice(), [false].as_slice());
    Ok(())
}

fn step(instr: Instr, links: Links) -> Step {
    Step {
        node: Node {
            item: ItemId(1),
            instr,
        },
        links,
    }
}

// 0 returns, 1 branches to 0 and 2, 2 is a turn that goes to 1, and 3 branches to 1 either way.
#[test]
fn each_node_is_listed_where_its_links_lead(rt: HostRuntime) -> Result<(), Fail> {
    let alloc = rt.alloc();
    let (yes, no) = (NodeId(0), NodeId(2));
    let mut steps = Vec::new(alloc);
    steps.push(step(Instr::Return(None), Links::Nowhere))?;
    steps.push(step(Instr::Branch(Reg(0)), Links::Two { yes, no }))?;
    steps.push(step(Instr::Turn, Links::One(NodeId(1))))?;
    let (yes, no) = (NodeId(1), NodeId(1));
    steps.push(step(Instr::Branch(Reg(0)), Links::Two { yes, no }))?;
    let after = nodes_after(alloc, &steps)?;
    let before = nodes_before(alloc, &steps)?;
    assert_eq!(rt; after.len(), 4);
    assert_eq!(rt; before.len(), 4);
    assert!(rt; after[0].is_empty());
    assert_eq!(rt; after[1].as_slice(), [NodeId(0), NodeId(2)].as_slice());
    assert_eq!(rt; after[2].as_slice(), [NodeId(1)].as_slice());
    assert_eq!(rt; after[3].as_slice(), [NodeId(1), NodeId(1)].as_slice());
    assert_eq!(rt; before[0].as_slice(), [NodeId(1)].as_slice());
    assert_eq!(rt;
        before[1].as_slice(),
        [NodeId(2), NodeId(3), NodeId(3)].as_slice()
    );
    assert_eq!(rt; before[2].as_slice(), [NodeId(1)].as_slice());
    assert!(rt; before[3].is_empty());
    Ok(())
}
