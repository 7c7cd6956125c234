// Plans.
use ca_model::Plan;
use ca_plan::{PlanNo, PlanOptions, plan};
use ca_sources::{
    GIVEN_BLOCK, LOOP_POINTS, NULL_POINTER, OPPOSED_LOCKS, SELF_LOCK, THROUGH_CALLER, WATCH,
};
use ca_tree::{ItemId, Listed};
use ca_worked::typing;
use std::alloc::{AllocError, Global};
use std::test::Fail;

fn items(alloc: Global, list: &[ItemId], text: &mut String) -> Result<(), AllocError> {
    for item in list {
        let one = format!(in alloc; " {}", item.0)?;
        text.push_str(one.as_str())?;
    }
    Ok(())
}

fn shown(alloc: Global, plan: &Plan) -> Result<String, AllocError> {
    let mut text = format!(in alloc; "limit {}, sites", plan.limit)?;
    for site in plan.sites.as_slice() {
        let one = format!(in alloc; " {}", site.0)?;
        text.push_str(one.as_str())?;
    }
    text.push_str(", entries")?;
    for function in plan.saves_at_entry.as_slice() {
        let one = format!(in alloc; " {}", function.0)?;
        text.push_str(one.as_str())?;
    }
    text.push_str(", after")?;
    items(alloc, plan.saves_after.as_slice(), &mut text)?;
    text.push_str(", acquires")?;
    items(alloc, plan.acquires.as_slice(), &mut text)?;
    Ok(text)
}

// The plan of a text over so many calls; with numbers of sites, under options that name them.
fn plan_of(alloc: Global, text: &[u8], depth: u32, only: &[u32]) -> Result<String, AllocError> {
    if depth > 8 {
        return format!(in alloc; "too deep");
    }
    let Ok(checked) = typing(alloc, text)? else {
        return format!(in alloc; "no typing");
    };
    let named = if only.is_empty() {
        None
    } else {
        Some(Listed::from_vec(Vec::from_slice(alloc, only)?))
    };
    let options = PlanOptions {
        limit: 7,
        depth,
        only: named,
    };
    match plan(alloc, &checked, &options) {
        Ok(found) => shown(alloc, &found),
        Err(PlanNo::NoSuchSite { number }) => format!(in alloc; "no site s{number}"),
        Err(PlanNo::NoMemory) => Err(AllocError),
    }
}

#[test]
fn a_plan_goes_up_to_callers_within_the_depth(rt: HostRuntime) -> Result<(), Fail> {
    let alloc = rt.alloc();
    let none = plan_of(alloc, THROUGH_CALLER, 0, &[])?;
    assert_eq!(rt; none.as_str(), "limit 7, sites, entries, after, acquires");
    let one = plan_of(alloc, THROUGH_CALLER, 1, &[])?;
    assert_eq!(rt;
        one.as_str(),
        "limit 7, sites 1, entries 1, after, acquires"
    );
    Ok(())
}

#[test]
fn a_second_lock_gives_back_the_first(rt: HostRuntime) -> Result<(), Fail> {
    let alloc = rt.alloc();
    let own = plan_of(alloc, SELF_LOCK, 3, &[])?;
    assert_eq!(rt;
        own.as_str(),
        "limit 7, sites 2, entries 0, after, acquires 1"
    );
    let both = plan_of(alloc, OPPOSED_LOCKS, 3, &[])?;
    assert_eq!(rt;
        both.as_str(),
        "limit 7, sites 2 4, entries 0 1, after, acquires 1 8"
    );
    Ok(())
}

#[test]
fn a_number_named_again_counts_once(rt: HostRuntime) -> Result<(), Fail> {
    let alloc = rt.alloc();
    let fourth = plan_of(alloc, OPPOSED_LOCKS, 3, &[4, 1, 4, 4])?;
    assert_eq!(rt;
        fourth.as_str(),
        "limit 7, sites 4, entries 1, after, acquires 8"
    );
    let both = plan_of(alloc, OPPOSED_LOCKS, 3, &[4, 2, 4])?;
    assert_eq!(rt;
        both.as_str(),
        "limit 7, sites 2 4, entries 0 1, after, acquires 1 8"
    );
    Ok(())
}

#[test]
fn a_save_stands_behind_a_store(rt: HostRuntime) -> Result<(), Fail> {
    let alloc = rt.alloc();
    let null = plan_of(alloc, NULL_POINTER, 3, &[])?;
    assert_eq!(rt;
        null.as_str(),
        "limit 7, sites 1 2, entries 0, after 6, acquires"
    );
    let points = plan_of(alloc, LOOP_POINTS, 3, &[])?;
    assert_eq!(rt;
        points.as_str(),
        "limit 7, sites 1, entries 0, after 4, acquires"
    );
    Ok(())
}

#[test]
fn an_attempt_gives_back_its_block(rt: HostRuntime) -> Result<(), Fail> {
    let alloc = rt.alloc();
    let given = plan_of(alloc, GIVEN_BLOCK, 3, &[])?;
    assert_eq!(rt;
        given.as_str(),
        "limit 7, sites 1 2, entries 0, after, acquires 1"
    );
    Ok(())
}

#[test]
fn the_first_number_that_is_no_sites_is_refused(rt: HostRuntime) -> Result<(), Fail> {
    let alloc = rt.alloc();
    let nine = plan_of(alloc, WATCH, 3, &[9, 0])?;
    assert_eq!(rt; nine.as_str(), "no site s9");
    let zero = plan_of(alloc, WATCH, 3, &[1, 0, 9])?;
    assert_eq!(rt; zero.as_str(), "no site s0");
    Ok(())
}
