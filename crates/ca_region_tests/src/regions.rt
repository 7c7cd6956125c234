// What stands before items in their functions.
use crate::sources::{LOOPS, OWN_SITES};
use ca_flow::{Graph, NodeId};
use ca_region::{Region, region};
use ca_sources::{LOOP_POINTS, OPPOSED_LOCKS};
use ca_tree::{FunId, ItemId};
use ca_worked::typing;
use std::alloc::{AllocError, Global};
use std::test::Fail;

fn numbers(alloc: Global, list: &[ItemId], text: &mut String) -> Result<(), AllocError> {
    for item in list {
        let one = format!(in alloc; " {}", item.0)?;
        text.push_str(one.as_str())?;
    }
    Ok(())
}

pub(crate) fn region_shown(alloc: Global, found: &Region) -> Result<String, AllocError> {
    let mut text = String::new(alloc);
    numbers(alloc, found.items.as_slice(), &mut text)?;
    text.push_str(" after")?;
    numbers(alloc, found.after.as_slice(), &mut text)?;
    if found.reaches_entry {
        text.push_str(" entry")?;
    }
    Ok(text)
}

// The region from an item of a function of a text. The search reads the links between items alone, so the graph has no
// nodes.
fn shown(alloc: Global, text: &[u8], function: u32, item: u32) -> Result<String, AllocError> {
    let Ok(checked) = typing(alloc, text)? else {
        return format!(in alloc; "no typing");
    };
    if function >= checked.functions() {
        return format!(in alloc; "no function");
    }
    let steps = Vec::new(alloc);
    let Ok(graph) = Graph::new(alloc, &checked, FunId(function), steps, NodeId(0), 0) else {
        return Err(AllocError);
    };
    let Ok(found) = region(alloc, &graph, ItemId(item)) else {
        return Err(AllocError);
    };
    region_shown(alloc, &found)
}

#[test]
fn a_loop_has_a_point_and_the_entry(rt: HostRuntime) -> Result<(), Fail> {
    let found = shown(rt.alloc(), LOOP_POINTS, 0, 2)?;
    assert_eq!(rt; found.as_str(), " 1 after 4 entry");
    Ok(())
}

#[test]
fn conditions_are_reached_from_all_sides(rt: HostRuntime) -> Result<(), Fail> {
    let alloc = rt.alloc();
    let found = shown(alloc, LOOPS, 0, 2)?;
    assert_eq!(rt;
        found.as_str(),
        " 1 2 3 4 after entry",
        "the condition of a `while`"
    );
    let found = shown(alloc, LOOPS, 0, 6)?;
    assert_eq!(rt;
        found.as_str(),
        " 1 2 3 4 5 6 after entry",
        "behind `break`, and of a `do`"
    );
    let found = shown(alloc, LOOPS, 0, 8)?;
    assert_eq!(rt;
        found.as_str(),
        " 1 2 3 4 5 6 7 9 after 11 12 entry",
        "of a `for`"
    );
    let found = shown(alloc, LOOPS, 0, 13)?;
    assert_eq!(rt;
        found.as_str(),
        " 1 2 3 4 5 6 7 8 9 after 11 12 entry",
        "behind the `for`"
    );
    Ok(())
}

#[test]
fn paths_stop_at_items_that_destroy(rt: HostRuntime) -> Result<(), Fail> {
    let alloc = rt.alloc();
    let found = shown(alloc, LOOPS, 0, 9)?;
    assert_eq!(rt;
        found.as_str(),
        " after 11 12",
        "the step of a `for`, behind both branches"
    );
    let found = shown(alloc, LOOPS, 0, 11)?;
    assert_eq!(rt;
        found.as_str(),
        " 1 2 3 4 5 6 7 8 9 10 after 11 12 entry",
        "in a branch"
    );
    let found = shown(alloc, LOOPS, 0, 14)?;
    assert_eq!(rt; found.as_str(), " after", "behind a `return`");
    Ok(())
}

#[test]
fn the_own_item_counts_as_the_entry_alone(rt: HostRuntime) -> Result<(), Fail> {
    let alloc = rt.alloc();
    let found = shown(alloc, OWN_SITES, 0, 1)?;
    assert_eq!(rt; found.as_str(), " after entry", "the first item");
    let found = shown(alloc, OWN_SITES, 0, 3)?;
    assert_eq!(rt;
        found.as_str(),
        " 2 after 1 3",
        "a loop round an item that destroys"
    );
    let found = shown(alloc, OPPOSED_LOCKS, 1, 10)?;
    assert_eq!(rt;
        found.as_str(),
        " 8 9 after entry",
        "in the second function"
    );
    Ok(())
}
