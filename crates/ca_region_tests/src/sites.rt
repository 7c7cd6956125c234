// The sites of sources: their numbers, places, kinds and items.
use crate::sources::{LOOPS, OWN_SITES, SEVERAL_SITES};
use ca_sites::sites;
use ca_sources::{LOOP_POINTS, OPPOSED_LOCKS};
use ca_worked::typing;
use std::alloc::{AllocError, Global};
use std::test::Fail;

fn shown(alloc: Global, text: &[u8]) -> Result<String, AllocError> {
    let Ok(checked) = typing(alloc, text)? else {
        return format!(in alloc; "no typing");
    };
    let mut all = String::new(alloc);
    let list = match sites(alloc, &checked) {
        Ok(list) => list,
        Err(_) => return Err(AllocError),
    };
    for site in &list {
        let (id, pos, kind, item) = (site.id.0, site.pos, site.kind, site.item.0);
        let one = format!(in alloc; "s{id} {}:{} {kind:?} {item}, ", pos.line, pos.column)?;
        all.push_str(one.as_str())?;
    }
    Ok(all)
}

#[test]
fn locks_are_sites(rt: HostRuntime) -> Result<(), Fail> {
    let list = shown(rt.alloc(), OPPOSED_LOCKS)?;
    assert_eq!(rt;
        list.as_str(),
        "s1 5:3 Lock 1, s2 6:3 Lock 2, s3 13:3 Lock 8, s4 14:3 Lock 9, "
    );
    let list = shown(rt.alloc(), LOOP_POINTS)?;
    assert_eq!(rt; list.as_str(), "s1 5:14 Load 2, ");
    Ok(())
}

#[test]
fn sites_come_in_order_of_items(rt: HostRuntime) -> Result<(), Fail> {
    let list = shown(rt.alloc(), LOOPS)?;
    let wanted =
        "s1 5:10 Load 2, s2 6:9 Load 3, s3 7:9 Load 4, s4 12:12 Load 6, s5 13:12 Load 7, s6 13:18 Load 8, s7 13:28 Load 9, s8 14:9 Load 10, s9 15:7 Store 11, s10 17:11 Load 12, s11 21:7 Load 14, ";
    assert_eq!(rt; list.as_str(), wanted);
    Ok(())
}

#[test]
fn sites_of_an_item_come_in_order_of_evaluation(rt: HostRuntime) -> Result<(), Fail> {
    let list = shown(rt.alloc(), OWN_SITES)?;
    assert_eq!(rt;
        list.as_str(),
        "s1 3:3 Store 1, s2 5:10 Load 3, s3 5:5 Store 3, "
    );
    let list = shown(rt.alloc(), SEVERAL_SITES)?;
    let wanted =
        "s1 7:11 Load 2, s2 7:22 Load 2, s3 7:20 Load 2, s4 7:3 Assert 2, s5 8:3 Load 3, s6 8:12 Load 3, s7 8:3 Store 3, s8 9:3 Free 4, ";
    assert_eq!(rt; list.as_str(), wanted);
    Ok(())
}
