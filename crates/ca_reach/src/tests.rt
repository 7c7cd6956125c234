// Searches over small tables, worked by hand.
use crate::{add, empty_rows, items_at, put, reached, row};
use ca_tree::ItemId;
use std::test::Fail;

// 0 is linked to 1 and 2, 1 to 0, 2 to 4, and 3 to 4; a link to 9 leads nowhere, and there is no row 7.
#[test]
fn what_is_reached_is_set(rt: HostRuntime) -> Result<(), Fail> {
    let alloc = rt.alloc();
    let mut rows = empty_rows(alloc, 5)?;
    add(&mut rows, 0, 1)?;
    add(&mut rows, 0, 2)?;
    add(&mut rows, 1, 0)?;
    add(&mut rows, 2, 4)?;
    add(&mut rows, 3, 4)?;
    add(&mut rows, 4, 9)?;
    add(&mut rows, 7, 3)?;
    assert_eq!(rt; row(&rows, 0), [1, 2].as_slice());
    assert!(rt; row(&rows, 7).is_empty());
    let mut flags = reached(alloc, &rows, &[1, 8])?;
    assert_eq!(rt;
        flags.as_slice(),
        [true, true, true, false, true].as_slice()
    );
    put(&mut flags, 3);
    put(&mut flags, 5);
    assert_eq!(rt; flags.as_slice(), [true, true, true, true, true].as_slice());
    Ok(())
}

#[test]
fn set_flags_are_items_from_the_lowest_on(rt: HostRuntime) -> Result<(), Fail> {
    let items = items_at(rt.alloc(), &[false, true, false, true], 7)?;
    assert_eq!(rt; items.as_slice(), [ItemId(8), ItemId(10)].as_slice());
    let last = items_at(rt.alloc(), &[true, true, true], 4294967294)?;
    assert_eq!(rt;
        last.as_slice(),
        [ItemId(4294967294), ItemId(4294967295)].as_slice()
    );
    Ok(())
}
