// Tables of sites.
use crate::sources::{
    CALL_BETWEEN, CONSTANT, NEVER_CALLED, RECURSION, RUN_AND_BRANCH, STARTED_AND_CALLED,
};
use ca_plan::{PlanNo, PlanOptions, site_table};
use ca_sources::{LOOP_POINTS, NULL_POINTER, OPPOSED_LOCKS, THROUGH_CALLER, WATCH};
use ca_tree::Listed;
use ca_worked::typing;
use std::alloc::{AllocError, Global};
use std::str::from_utf8;
use std::test::Fail;

// The table of a text over so many calls; with numbers of sites, under options that name them.
fn table(alloc: Global, text: &[u8], depth: u32, only: &[u32]) -> Result<String, AllocError> {
    if depth > 8 {
        return format!(in alloc; "too deep");
    }
    let Ok(checked) = typing(alloc, text)? else {
        return format!(in alloc; "no typing");
    };
    let named = if only.is_empty() {
        None
    } else {
        Some(Listed::from_vec(Vec::from_slice(alloc, only)?))
    };
    let options = PlanOptions {
        limit: 100,
        depth,
        only: named,
    };
    match site_table(alloc, &checked, &options) {
        Ok(bytes) => format!(in alloc; "{}", from_utf8(&bytes).unwrap_or("?")),
        Err(PlanNo::NoSuchSite { number }) => format!(in alloc; "no site s{number}"),
        Err(PlanNo::NoMemory) => Err(AllocError),
    }
}

#[test]
fn second_locks_are_planned(rt: HostRuntime) -> Result<(), Fail> {
    let alloc = rt.alloc();
    let all = table(alloc, OPPOSED_LOCKS, 3, &[])?;
    assert_eq!(rt;
        all.as_str(),
        "sites 4
s1 5:3 lock pruned:lock entry:one
s2 6:3 lock planned entry:one
s3 13:3 lock pruned:lock entry:two
s4 14:3 lock planned entry:two
"
    );
    let fourth = table(alloc, OPPOSED_LOCKS, 3, &[4])?;
    assert_eq!(rt;
        fourth.as_str(),
        "sites 4
s1 5:3 lock pruned:lock entry:one
s2 6:3 lock left entry:one
s3 13:3 lock pruned:lock entry:two
s4 14:3 lock planned entry:two
"
    );
    Ok(())
}

#[test]
fn points_stand_at_entries_and_behind_stores(rt: HostRuntime) -> Result<(), Fail> {
    let alloc = rt.alloc();
    let null = table(alloc, NULL_POINTER, 3, &[])?;
    assert_eq!(rt;
        null.as_str(),
        "sites 2
s1 3:18 load planned entry:use
s2 10:3 store planned after:9:3
"
    );
    let points = table(alloc, LOOP_POINTS, 3, &[])?;
    assert_eq!(rt;
        points.as_str(),
        "sites 1\ns1 5:14 load planned entry:main after:7:5\n"
    );
    let constant = table(alloc, CONSTANT, 3, &[])?;
    assert_eq!(rt;
        constant.as_str(),
        "sites 1\ns1 1:29 assert pruned:local entry:main\n"
    );
    Ok(())
}

#[test]
fn paths_go_up_to_callers_within_the_depth(rt: HostRuntime) -> Result<(), Fail> {
    let alloc = rt.alloc();
    let none = table(alloc, THROUGH_CALLER, 0, &[])?;
    assert_eq!(rt;
        none.as_str(),
        "sites 1\ns1 3:3 assert pruned:local entry:need\n"
    );
    let one = table(alloc, THROUGH_CALLER, 1, &[])?;
    assert_eq!(rt; one.as_str(), "sites 1\ns1 3:3 assert planned entry:f\n");
    Ok(())
}

// At depth 1 the entry of `f` is passed from the assertion itself, and is a point on the path over the call in `f`.
#[test]
fn an_entry_at_the_limit_is_a_point_though_it_was_passed(rt: HostRuntime) -> Result<(), Fail> {
    let alloc = rt.alloc();
    let none = table(alloc, RECURSION, 0, &[])?;
    assert_eq!(rt;
        none.as_str(),
        "sites 1\ns1 3:3 assert pruned:local entry:f\n"
    );
    let one = table(alloc, RECURSION, 1, &[])?;
    assert_eq!(rt;
        one.as_str(),
        "sites 1\ns1 3:3 assert planned entry:f entry:main\n"
    );
    let most = table(alloc, RECURSION, 8, &[])?;
    assert_eq!(rt;
        most.as_str(),
        "sites 1\ns1 3:3 assert planned entry:f entry:main\n"
    );
    Ok(())
}

#[test]
fn paths_end_where_threads_begin_or_nothing_calls(rt: HostRuntime) -> Result<(), Fail> {
    let alloc = rt.alloc();
    let started = table(alloc, STARTED_AND_CALLED, 3, &[])?;
    assert_eq!(rt;
        started.as_str(),
        "sites 1\ns1 3:3 assert planned entry:w\n"
    );
    let never = table(alloc, NEVER_CALLED, 3, &[])?;
    assert_eq!(rt;
        never.as_str(),
        "sites 1\ns1 3:3 store planned entry:idle\n"
    );
    Ok(())
}

#[test]
fn a_call_destroys(rt: HostRuntime) -> Result<(), Fail> {
    let alloc = rt.alloc();
    let found = table(alloc, CALL_BETWEEN, 3, &[])?;
    assert_eq!(rt;
        found.as_str(),
        "sites 1\ns1 6:3 assert pruned:local after:5:3\n"
    );
    Ok(())
}

// The loads behind the first store have one point, those of one item alike; the two ways of the branch end with two points.
#[test]
fn items_of_a_run_have_the_same_points(rt: HostRuntime) -> Result<(), Fail> {
    let alloc = rt.alloc();
    let found = table(alloc, RUN_AND_BRANCH, 3, &[2, 5])?;
    assert_eq!(rt;
        found.as_str(),
        "sites 5
s1 5:11 load left after:4:3
s2 7:11 load planned after:4:3
s3 7:16 load left after:4:3
s4 11:9 load left after:4:3
s5 13:3 free planned after:4:3 after:9:5
"
    );
    Ok(())
}

#[test]
fn the_first_number_that_is_no_sites_is_refused(rt: HostRuntime) -> Result<(), Fail> {
    let alloc = rt.alloc();
    let nine = table(alloc, WATCH, 3, &[9])?;
    assert_eq!(rt; nine.as_str(), "no site s9");
    let zero = table(alloc, WATCH, 3, &[0])?;
    assert_eq!(rt; zero.as_str(), "no site s0");
    let first = table(alloc, OPPOSED_LOCKS, 3, &[2, 5, 4, 0])?;
    assert_eq!(rt; first.as_str(), "no site s5");
    Ok(())
}
