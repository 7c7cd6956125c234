// What stands before sites through callers, their points, and whether going back can help there.
use crate::code::code_of;
use crate::sources::TWICE_CALLED;
use ca_callers::{Callers, Points, points_of};
use ca_prune::is_hopeless;
use ca_sources::{LOOP_POINTS, THROUGH_CALLER};
use ca_tree::{ItemId, SiteId};
use std::alloc::{AllocError, Global};
use std::test::Fail;

fn numbers(alloc: Global, list: &[ItemId], text: &mut String) -> Result<(), AllocError> {
    for item in list {
        let one = format!(in alloc; " {}", item.0)?;
        text.push_str(one.as_str())?;
    }
    Ok(())
}

fn points_shown(alloc: Global, found: &Points) -> Result<String, AllocError> {
    let mut text = String::new(alloc);
    numbers(alloc, found.items.as_slice(), &mut text)?;
    text.push_str(" after")?;
    numbers(alloc, found.after.as_slice(), &mut text)?;
    text.push_str(" entries")?;
    for function in found.entries.as_slice() {
        let one = format!(in alloc; " {}", function.0)?;
        text.push_str(one.as_str())?;
    }
    Ok(text)
}

// The points of a site, and why going back can't help there.
fn shown(alloc: Global, text: &[u8], site: u32, depth: u32) -> Result<String, AllocError> {
    let Some(code) = code_of(alloc, text)? else {
        return format!(in alloc; "no code");
    };
    let sites = code.sites();
    if site == 0 {
        return format!(in alloc; "no site");
    }
    if site > sites {
        return format!(in alloc; "no site");
    }
    if depth > 8 {
        return format!(in alloc; "too deep");
    }
    let Ok(points) = points_of(alloc, &code, SiteId(site), depth) else {
        return Err(AllocError);
    };
    let mut text = points_shown(alloc, &points)?;
    let reason = match is_hopeless(&code, &points, SiteId(site)) {
        None => format!(in alloc; ", helps")?,
        Some(reason) => format!(in alloc; ", {reason:?}")?,
    };
    text.push_str(reason.as_str())?;
    Ok(text)
}

// The items of `need` are its assertion (1) and its end (2); those of `f` are its reading of g (3), its call (4), its return
// (5) and its end (6). Functions are numbered from 0.
#[test]
fn paths_go_up_to_calls_as_far_as_the_depth_allows(rt: HostRuntime) -> Result<(), Fail> {
    let alloc = rt.alloc();
    let found = shown(alloc, THROUGH_CALLER, 1, 0)?;
    assert_eq!(rt; found.as_str(), " after entries 0, Local");
    let found = shown(alloc, THROUGH_CALLER, 1, 1)?;
    assert_eq!(rt; found.as_str(), " 3 4 after entries 1, helps");
    let found = shown(alloc, THROUGH_CALLER, 1, 8)?;
    assert_eq!(rt; found.as_str(), " 3 4 after entries 1, helps");
    let found = shown(alloc, LOOP_POINTS, 1, 2)?;
    assert_eq!(rt; found.as_str(), " 1 after 4 entries 0, helps");
    Ok(())
}

// The items of `inner` are its assertion (1) and its end (2); those of `outer` its call (3) and its end (4); those of `main`
// its reading of g (5), its call (6), its locks (7, 8), its return (9) and its end (10).
#[test]
fn each_depth_goes_one_caller_up(rt: HostRuntime) -> Result<(), Fail> {
    let alloc = rt.alloc();
    let found = shown(alloc, TWICE_CALLED, 1, 1)?;
    assert_eq!(rt; found.as_str(), " 3 after entries 1, Local");
    let found = shown(alloc, TWICE_CALLED, 1, 2)?;
    assert_eq!(rt; found.as_str(), " 3 5 6 after entries 2, helps");
    let found = shown(alloc, TWICE_CALLED, 2, 2)?;
    assert_eq!(rt; found.as_str(), " after 6 entries, Lock");
    let found = shown(alloc, TWICE_CALLED, 3, 2)?;
    assert_eq!(rt; found.as_str(), " 7 after 6 entries, helps");
    Ok(())
}

#[test]
fn some_items_have_the_points_of_each(rt: HostRuntime) -> Result<(), Fail> {
    let alloc = rt.alloc();
    let Some(code) = code_of(alloc, TWICE_CALLED)? else {
        assert!(&rt; false);
        return Ok(());
    };
    let Ok(callers) = Callers::new(alloc, &code) else {
        assert!(&rt; false);
        return Ok(());
    };
    let Ok(points) = callers.points(alloc, &[], 8) else {
        assert!(&rt; false);
        return Ok(());
    };
    let found = points_shown(alloc, &points)?;
    assert_eq!(&rt; found.as_str(), " after entries");
    Ok(())
}
