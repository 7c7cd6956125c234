// Which items have a marked item before them, through callers.
use crate::code::code_of;
use ca_ahead::stands_before;
use ca_sources::THROUGH_CALLER;
use std::alloc::{AllocError, Global};
use std::test::Fail;

fn numbers(alloc: Global, flags: &[bool]) -> Result<String, AllocError> {
    let mut all = String::new(alloc);
    let mut number = 0u64;
    for b in flags {
        if *b {
            let one = format!(in alloc; " {number}")?;
            all.push_str(one.as_str())?;
        }
        number = number.saturating_add(1);
    }
    Ok(all)
}

fn shown(alloc: Global, text: &[u8], marked: &[bool], depth: u32) -> Result<String, AllocError> {
    let Some(code) = code_of(alloc, text)? else {
        return format!(in alloc; "no code");
    };
    if depth > 8 {
        return format!(in alloc; "too deep");
    }
    let Ok(flags) = stands_before(alloc, &code, marked, depth) else {
        return Err(AllocError);
    };
    numbers(alloc, flags.as_slice())
}

// Item 4 calls the function of items 1 and 2; item 8 makes a thread of that of items 3 to 6.
#[test]
fn marked_items_are_found_through_callers(rt: HostRuntime) -> Result<(), Fail> {
    let alloc = rt.alloc();
    let third = [false, false, false, true];
    let fourth = [false, false, false, false, true];
    let eighth = [false, false, false, false, false, false, false, false, true];
    let found = shown(alloc, THROUGH_CALLER, &third, 0)?;
    assert_eq!(rt; found.as_str(), " 4");
    let found = shown(alloc, THROUGH_CALLER, &third, 1)?;
    assert_eq!(rt; found.as_str(), " 1 2 4");
    let found = shown(alloc, THROUGH_CALLER, &fourth, 0)?;
    assert_eq!(rt; found.as_str(), "");
    let found = shown(alloc, THROUGH_CALLER, &fourth, 8)?;
    assert_eq!(rt; found.as_str(), " 1 2");
    let found = shown(alloc, THROUGH_CALLER, &eighth, 1)?;
    assert_eq!(rt; found.as_str(), "");
    Ok(())
}
