// Whether going back over so many calls can help, at all sites of a source.
use crate::code::code_of;
use crate::sources::{NEAR_READS, TWICE_CALLED};
use ca_prune::hopeless_sites;
use ca_sources::{GIVEN_BLOCK, OPPOSED_LOCKS, THROUGH_CALLER};
use std::alloc::{AllocError, Global};
use std::test::Fail;

fn shown(alloc: Global, text: &[u8], depth: u32) -> Result<String, AllocError> {
    if depth > 8 {
        return format!(in alloc; "too deep");
    }
    let Some(code) = code_of(alloc, text)? else {
        return format!(in alloc; "no code");
    };
    let Ok(reasons) = hopeless_sites(alloc, &code, depth) else {
        return Err(AllocError);
    };
    let mut all = String::new(alloc);
    for reason in &reasons {
        let one = match reason {
            None => format!(in alloc; "helps, ")?,
            Some(reason) => format!(in alloc; "{reason:?}, ")?,
        };
        all.push_str(one.as_str())?;
    }
    Ok(all)
}

#[test]
fn all_sites_are_answered_in_order(rt: HostRuntime) -> Result<(), Fail> {
    let alloc = rt.alloc();
    let found = shown(alloc, OPPOSED_LOCKS, 3)?;
    assert_eq!(rt; found.as_str(), "Lock, helps, Lock, helps, ");
    let found = shown(alloc, GIVEN_BLOCK, 0)?;
    assert_eq!(rt; found.as_str(), "helps, helps, ");
    let found = shown(alloc, NEAR_READS, 0)?;
    assert_eq!(rt; found.as_str(), "Local, Local, helps, Local, helps, ");
    Ok(())
}

#[test]
fn a_read_of_the_caller_helps_where_calls_are_gone_up(rt: HostRuntime) -> Result<(), Fail> {
    let alloc = rt.alloc();
    let found = shown(alloc, THROUGH_CALLER, 0)?;
    assert_eq!(rt; found.as_str(), "Local, ");
    let found = shown(alloc, THROUGH_CALLER, 1)?;
    assert_eq!(rt; found.as_str(), "helps, ");
    Ok(())
}

#[test]
fn each_depth_goes_one_call_higher(rt: HostRuntime) -> Result<(), Fail> {
    let alloc = rt.alloc();
    let found = shown(alloc, TWICE_CALLED, 1)?;
    assert_eq!(rt; found.as_str(), "Local, Lock, helps, ");
    let found = shown(alloc, TWICE_CALLED, 2)?;
    assert_eq!(rt; found.as_str(), "helps, Lock, helps, ");
    Ok(())
}
