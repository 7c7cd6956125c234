//! Which plans fit a source.
use crate::typed_trees::LIST;
use ca_model::{Plan, fits};
use ca_tree::listed::Listed;
use ca_tree::{FunId, ItemId, SiteId};
use ca_worked::typing;
use std::alloc::{AllocError, Global};
use std::test::Fail;

fn items(alloc: Global, numbers: &[u32]) -> Result<Listed<ItemId>, AllocError> {
    let mut all = Vec::new(alloc);
    for number in numbers {
        all.push(ItemId(*number))?;
    }
    Ok(Listed::from_vec(all))
}

fn functions(alloc: Global, numbers: &[u32]) -> Result<Listed<FunId>, AllocError> {
    let mut all = Vec::new(alloc);
    for number in numbers {
        all.push(FunId(*number))?;
    }
    Ok(Listed::from_vec(all))
}

fn sites(alloc: Global, numbers: &[u32]) -> Result<Listed<SiteId>, AllocError> {
    let mut all = Vec::new(alloc);
    for number in numbers {
        all.push(SiteId(*number))?;
    }
    Ok(Listed::from_vec(all))
}

/// A limit, the items with a save behind them, the functions with a save at their entry, the sites, the acquiring items.
pub(crate) type Planned<'a> = (u32, &'a [u32], &'a [u32], &'a [u32], &'a [u32]);

// A plan, and whether it fits the list's source.
type Case<'a> = (Planned<'a>, bool);

const PLANS: [Case<'static>; 23] = [
    ((0, &[], &[], &[], &[]), true),
    ((10000, &[], &[], &[], &[]), true),
    ((10001, &[], &[], &[], &[]), false),
    // a store through an index or a pointer, and a call
    ((3, &[6, 7, 12, 13], &[], &[], &[]), true),
    // into a local, a condition, a return, a closing brace
    ((3, &[2], &[], &[], &[]), false),
    ((3, &[5], &[], &[], &[]), false),
    ((3, &[11], &[], &[], &[]), false),
    ((3, &[14], &[], &[], &[]), false),
    ((3, &[15], &[], &[], &[]), false),
    ((3, &[0], &[], &[], &[]), false),
    ((3, &[20], &[], &[], &[]), false),
    ((3, &[7, 6], &[], &[], &[]), false),
    ((3, &[7, 7], &[], &[], &[]), false),
    ((3, &[], &[0, 1], &[], &[]), true),
    ((3, &[], &[1, 0], &[], &[]), false),
    ((3, &[], &[2], &[], &[]), false),
    // a store, a load and a store, a load, a load and a store, a load, two loads
    ((3, &[], &[], &[1, 2, 3, 4, 5, 6, 7, 8, 9], &[]), true),
    ((3, &[], &[], &[10], &[]), false),
    ((3, &[], &[], &[0], &[]), false),
    ((3, &[], &[], &[2, 2], &[]), false),
    ((3, &[], &[], &[], &[6]), true),
    ((3, &[], &[], &[], &[7]), false),
    ((3, &[7], &[1], &[9], &[6]), true),
];

pub(crate) fn plan_of(alloc: Global, case: Planned<'static>) -> Result<Plan, AllocError> {
    Ok(Plan {
        limit: case.0,
        saves_after: items(alloc, case.1)?,
        saves_at_entry: functions(alloc, case.2)?,
        sites: sites(alloc, case.3)?,
        acquires: items(alloc, case.4)?,
    })
}

#[test]
fn these_plans_fit_the_list(rt: HostRuntime) -> Result<(), Fail> {
    let alloc = rt.alloc();
    let Ok(source) = typing(alloc, LIST)? else {
        assert!(rt; false);
        return Ok(());
    };
    for case in PLANS {
        let plan = plan_of(alloc, case.0)?;
        assert_eq!(rt; fits(&source, &plan), case.1);
    }
    assert!(rt; fits(&source, &Plan::empty(alloc)));
    assert_eq!(rt; Plan::empty(alloc).limit, 0);
    Ok(())
}
