// What stands before items of sources, by their code.
use crate::regions::region_shown;
use ca_lower::lower;
use ca_model::{Plan, fits};
use ca_region::region_in;
use ca_sources::{LOOP_POINTS, OPPOSED_LOCKS};
use ca_tree::ItemId;
use ca_worked::typing;
use std::alloc::{AllocError, Global};
use std::test::Fail;

fn shown(alloc: Global, text: &[u8], item: u32) -> Result<String, AllocError> {
    let Ok(checked) = typing(alloc, text)? else {
        return format!(in alloc; "no typing");
    };
    let plan = Plan::empty(alloc);
    if !fits(&checked, &plan) {
        return format!(in alloc; "no plan");
    }
    let Ok(code) = lower(alloc, &checked, &plan) else {
        return Err(AllocError);
    };
    let _graphs = code.graphs();
    let items = checked.items();
    if item == 0 {
        return format!(in alloc; "no item");
    }
    if item > items {
        return format!(in alloc; "no item");
    }
    let Ok(found) = region_in(alloc, &code, ItemId(item)) else {
        return Err(AllocError);
    };
    region_shown(alloc, &found)
}

#[test]
fn the_function_of_the_item_is_searched(rt: HostRuntime) -> Result<(), Fail> {
    let alloc = rt.alloc();
    let found = shown(alloc, LOOP_POINTS, 2)?;
    assert_eq!(rt; found.as_str(), " 1 after 4 entry");
    let found = shown(alloc, OPPOSED_LOCKS, 10)?;
    assert_eq!(rt; found.as_str(), " 8 9 after entry");
    Ok(())
}
