//! The shared state of a checked source at its opening.
use ca_model::{Addr, Value};
use ca_shared::{Phase, Shared};
use ca_sources::{LOOP_POINTS, OPPOSED_LOCKS};
use ca_tree::MutexId;
use ca_worked::typing;
use std::alloc::Global;
use std::test::Fail;

fn opened(alloc: Global, text: &[u8]) -> Result<Option<Shared>, Fail> {
    match typing(alloc, text)? {
        Ok(source) => {
            let shared = Shared::start(alloc, &source)?;
            Ok(Some(shared))
        }
        Err(_) => Ok(None),
    }
}

#[test]
fn a_checked_source_opens_with_its_globals_and_mutexes(rt: HostRuntime) -> Result<(), Fail> {
    let alloc = rt.alloc();
    let found = opened(alloc, LOOP_POINTS)?;
    assert!(rt; found.is_some());
    if let Some(shared) = found {
        assert_eq!(rt; shared.trace().len(), 0);
        assert_eq!(rt; shared.threads(), 1);
        assert_eq!(rt; shared.frames(), 1);
        assert_eq!(rt; shared.phase(), Phase::Open);
        assert_eq!(rt; shared.memory().made(), 2);
        let last = Value::Addr(Addr {
            block: 0,
            offset: 1,
        });
        assert_eq!(rt; shared.memory().load(last, 0), Ok(Value::Num(0)));
        assert!(rt; shared.memory().load(last, 1).is_err());
        assert_eq!(rt; shared.owners().count(), 0);
    }
    let found = opened(alloc, OPPOSED_LOCKS)?;
    assert!(rt; found.is_some());
    if let Some(shared) = found {
        assert_eq!(rt; shared.owners().count(), 2);
        assert_eq!(rt; shared.owners().owner_if_there(MutexId(1)), None);
        assert_eq!(rt; shared.memory().made(), 1);
    }
    Ok(())
}
