// Edges of memory and owners, worked by hand.
use super::{Bad, BlockNotHeld, Held, Memory, MutexNotHeld, NotOwner, Owners};
use ca_model::{Addr, Given, GlobalStart, Value};
use ca_tree::MutexId;
use std::alloc::Global;
use std::process::Abort;
use std::test::Fail;

const MOST_CELLS: u32 = 1_048_576;

fn at(block: u32, offset: i32) -> Value {
    Value::Addr(Addr { block, offset })
}

fn bad(at: Value, by: i64) -> Bad {
    Bad { at, by }
}

// A block where there is room for it and its number is unused.
fn allocate(
    rt: &impl Abort,
    alloc: Global,
    memory: &mut Memory,
    cells: u32,
    block: u32,
) -> Result<(), Fail> {
    assert!(rt; cells > 0 && cells <= MOST_CELLS);
    assert!(rt; memory.live_cells() <= MOST_CELLS - cells);
    assert!(rt; !memory.is_used(block) && memory.made() < u32::MAX);
    memory.allocate(alloc, cells, block)?;
    Ok(())
}

#[test]
fn accesses_reach_live_cells_alone(rt: HostRuntime) -> Result<(), Fail> {
    let alloc = rt.alloc();
    let mut memory = Memory::new(alloc, &[2, 1])?;
    assert_eq!(rt; memory.load(at(0, 1), 0), Ok(Value::Num(0)));
    assert_eq!(rt; memory.store(at(0, -1), 1, at(1, 0)), Ok(()));
    assert_eq!(rt; memory.load(at(0, 0), 0), Ok(at(1, 0)));
    assert_eq!(rt; memory.load(at(0, 1), 0), Ok(Value::Num(0)));
    for (value, by) in [
        (Value::Num(0), 0),
        (at(0, 2), 0),
        (at(0, 0), -1),
        (at(0, -1), 0),
        (at(0, i32::MAX), i64::MAX),
        (at(0, i32::MIN), i64::MIN),
        (at(2, 0), 0),
    ] {
        assert_eq!(rt;
            memory.load(value, by),
            Err(bad(value, by)),
            "{value:?} {by}"
        );
        assert_eq!(rt;
            memory.store(value, by, Value::Num(1)),
            Err(bad(value, by)),
            "{value:?} {by}"
        );
    }
    Ok(())
}

#[test]
fn globals_open_with_their_values(rt: HostRuntime) -> Result<(), Fail> {
    let start = |cells, number| GlobalStart {
        cells,
        first: Value::Num(number),
    };
    let memory = Memory::open(rt.alloc(), &[start(1, 7), start(3, -2)])?;
    assert_eq!(rt; memory.load(at(0, 0), 0), Ok(Value::Num(7)));
    assert_eq!(rt; memory.load(at(1, 0), 0), Ok(Value::Num(-2)));
    assert_eq!(rt; memory.load(at(1, 0), 2), Ok(Value::Num(0)));
    assert_eq!(rt;
        (memory.made(), memory.live_cells(), memory.next_block()),
        (2, 0, 2)
    );
    Ok(())
}

#[test]
fn a_block_is_released_once(rt: HostRuntime) -> Result<(), Fail> {
    let alloc = rt.alloc();
    let mut memory = Memory::new(alloc, &[1])?;
    allocate(&rt, alloc, &mut memory, 3, 1)?;
    assert_eq!(rt; memory.live_cells(), 3);
    for value in [at(0, 0), at(1, 1), at(2, 0), Value::Num(1)] {
        assert!(rt; !memory.can_release(value), "{value:?}");
        assert_eq!(rt; memory.release(value), Err(bad(value, 0)), "{value:?}");
    }
    assert!(rt; memory.can_release(Value::Num(0)) && memory.can_release(at(1, 0)));
    assert_eq!(rt; memory.release(Value::Num(0)), Ok(()));
    assert_eq!(rt; memory.release(at(1, 0)), Ok(()));
    assert_eq!(rt; memory.release(at(1, 0)), Err(bad(at(1, 0), 0)));
    assert_eq!(rt; memory.load(at(1, 0), 0), Err(bad(at(1, 0), 0)));
    assert_eq!(rt;
        memory.store(at(1, 0), 0, Value::Num(1)),
        Err(bad(at(1, 0), 0))
    );
    assert!(rt; memory.is_used(1) && !memory.is_live(1) && memory.is_live(0));
    assert_eq!(rt;
        (memory.made(), memory.live_cells(), memory.next_block()),
        (2, 0, 2)
    );
    Ok(())
}

#[test]
fn the_next_block_is_the_least_unused(rt: HostRuntime) -> Result<(), Fail> {
    let alloc = rt.alloc();
    let mut memory = Memory::new(alloc, &[])?;
    assert_eq!(rt; memory.next_block(), 0);
    for (block, next) in [(0, 1), (7, 1), (3, 1), (1, 2), (2, 4), (u32::MAX, 4)] {
        allocate(&rt, alloc, &mut memory, 1, block)?;
        assert_eq!(rt; memory.next_block(), next, "after {block}");
    }
    Ok(())
}

#[test]
fn the_heap_is_filled_by_one_block_and_by_single_cells(rt: HostRuntime) -> Result<(), Fail> {
    let alloc = rt.alloc();
    let mut memory = Memory::new(alloc, &[])?;
    allocate(&rt, alloc, &mut memory, MOST_CELLS, 0)?;
    assert_eq!(rt; memory.live_cells(), MOST_CELLS);
    assert_eq!(rt; memory.load(at(0, 1_048_575), 0), Ok(Value::Num(0)));
    assert_eq!(rt; memory.release(at(0, 0)), Ok(()));
    for block in 1..=MOST_CELLS {
        allocate(&rt, alloc, &mut memory, 1, block)?;
    }
    assert_eq!(rt;
        (memory.live_cells(), memory.next_block()),
        (MOST_CELLS, MOST_CELLS + 1)
    );
    for block in 1..=MOST_CELLS {
        assert_eq!(rt; memory.load(at(block, 0), 0), Ok(Value::Num(0)));
        assert_eq!(rt; memory.release(at(block, 0)), Ok(()));
    }
    assert_eq!(rt; memory.live_cells(), 0);
    Ok(())
}

#[test]
fn a_mutex_has_one_owner(rt: HostRuntime) -> Result<(), Fail> {
    let mut owners = Owners::new(rt.alloc(), 2)?;
    let (first, second) = (MutexId(0), MutexId(1));
    assert!(rt; owners.count() == 2);
    assert_eq!(rt; owners.give(first, 0), Err(NotOwner { owner: None }));
    assert_eq!(rt; owners.take(first, 3), Ok(()));
    assert_eq!(rt; owners.take(first, 3), Err(Held { by: 3 }));
    assert_eq!(rt; owners.give(first, 0), Err(NotOwner { owner: Some(3) }));
    assert_eq!(rt;
        (owners.owner(first), owners.owner(second)),
        (Some(3), None)
    );
    assert_eq!(rt; owners.give(first, 3), Ok(()));
    assert_eq!(rt; owners.owner(first), None);
    Ok(())
}

#[test]
fn the_first_thing_that_is_not_held_is_found(rt: HostRuntime) -> Result<(), Fail> {
    let alloc = rt.alloc();
    let mut memory = Memory::new(alloc, &[1])?;
    let mut owners = Owners::new(alloc, 3)?;
    allocate(&rt, alloc, &mut memory, 2, 1)?;
    allocate(&rt, alloc, &mut memory, 1, 2)?;
    assert_eq!(rt; owners.take(MutexId(0), 5), Ok(()));
    assert_eq!(rt; owners.take(MutexId(1), 6), Ok(()));
    let mutex = |number| Given::Mutex(MutexId(number));
    let block = Given::Block;
    for (things, no_block, no_mutex) in [
        ([mutex(0), block(1), block(2)], None, None),
        ([block(1), block(1), mutex(0)], Some((1, 1)), None),
        (
            [block(2), block(0), mutex(1)],
            Some((1, 0)),
            Some((2, 1, Some(6))),
        ),
        (
            [mutex(0), block(3), mutex(0)],
            Some((1, 3)),
            Some((2, 0, None)),
        ),
        ([mutex(2), mutex(0), block(1)], None, Some((0, 2, None))),
        ([mutex(0), mutex(3), block(1)], None, Some((1, 3, None))),
    ] {
        let found = no_block.map(|(place, block)| BlockNotHeld { place, block });
        assert_eq!(rt; memory.first_not_held(&things), found, "{things:?}");
        let found = no_mutex.map(|(place, number, owner)| MutexNotHeld {
            place,
            mutex: MutexId(number),
            owner,
        });
        assert_eq!(rt; owners.first_not_held(5, &things), found, "{things:?}");
    }
    assert_eq!(rt; memory.release(at(1, 0)), Ok(()));
    assert_eq!(rt;
        memory.first_not_held(&[block(2), block(1)]),
        Some(BlockNotHeld { place: 1, block: 1 })
    );
    assert!(rt; owners.count() == 3);
    assert_eq!(rt; owners.owner(MutexId(0)), Some(5));
    assert_eq!(rt; memory.live_cells(), 1);
    Ok(())
}
