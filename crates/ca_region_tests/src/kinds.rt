// Instructions that destroy, and that acquire.
use ca_flow::{AtSite, Instr, Reg, is_acquiring, is_destroying};
use ca_tree::{MutexId, SiteId};

fn marks(instr: Instr) -> (bool, bool) {
    (is_destroying(&instr), is_acquiring(&instr))
}

#[test]
fn stores_destroy_and_locks_acquire(rt: HostRuntime) {
    let site = SiteId(1);
    let at = AtSite {
        site,
        planned: false,
    };
    let (to, count, from, base) = (Reg(0), Reg(1), Reg(2), Reg(3));
    let index = None;
    let store = Instr::Store {
        from,
        base,
        index,
        field: 0,
        at: None,
    };
    let lock = Instr::Lock {
        mutex: MutexId(0),
        at,
        acquiring: false,
    };
    let malloc = Instr::Malloc {
        to,
        count,
        size: 1,
        acquiring: false,
    };
    assert!(rt; marks(store) == (true, false));
    assert!(rt; marks(lock) == (false, true));
    assert!(rt; marks(malloc) == (false, true));
    assert!(rt; marks(Instr::Unlock(MutexId(0))) == (true, false));
    assert!(rt; marks(Instr::Return(None)) == (true, false));
    assert!(rt; marks(Instr::Branch(to)) == (false, false));
    assert!(rt; marks(Instr::Turn) == (false, false));
}
