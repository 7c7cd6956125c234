// Lines of entries, worked by hand.
use super::{write_event, write_trace};
use ca_model::{Addr, Event, EventAct, FaultKind, Given, Value};
use ca_tree::{FunId, Listed, MutexId, SiteId};
use std::process::Abort;
use std::test::Fail;

fn at(block: u32, offset: i32) -> Addr {
    Addr { block, offset }
}

#[test]
fn each_entry_has_its_line(rt: HostRuntime) -> Result<(), Fail> {
    let alloc = rt.alloc();
    let text = Vec::from_slice(alloc, b"5\n")?;
    let gives = Vec::from_slice(alloc, &[Given::Mutex(MutexId(1)), Given::Block(7)])?;
    for (act, line) in [
        (
            EventAct::Read {
                at: at(0, -1),
                value: Value::Num(-5),
            },
            "3 read @0.-1 -5\n",
        ),
        (
            EventAct::Write {
                at: at(1, 2),
                value: Value::Addr(at(4, 0)),
            },
            "3 write @1.2 @4.0\n",
        ),
        (EventAct::Lock(MutexId(0)), "3 lock m0\n"),
        (EventAct::Unlock(MutexId(63)), "3 unlock m63\n"),
        (
            EventAct::Malloc {
                cells: 1_048_577,
                at: Value::Num(0),
            },
            "3 malloc 1048577 0\n",
        ),
        (
            EventAct::Free {
                at: Value::Addr(at(2, 0)),
            },
            "3 free @2.0\n",
        ),
        (EventAct::Print(Listed::from_vec(text)), "3 print 350a\n"),
        (
            EventAct::Print(Listed::from_vec(Vec::new(alloc))),
            "3 print -\n",
        ),
        (EventAct::Create(1), "3 create 1\n"),
        (EventAct::Join(1), "3 join 1\n"),
        (EventAct::Call(FunId(0)), "3 call f0\n"),
        (EventAct::Return(Value::Num(0)), "3 return 0\n"),
        (EventAct::Turn, "3 turn\n"),
        (EventAct::End, "3 end\n"),
        (EventAct::Fault(FaultKind::Assert), "3 fault assert\n"),
        (EventAct::Save, "3 save\n"),
        (
            EventAct::Retry {
                site: SiteId(2),
                gives: Listed::from_vec(gives),
            },
            "3 retry s2 m1 @7.0\n",
        ),
    ] {
        let written = write_event(alloc, &Event { thread: 3, act })?;
        assert!(rt; written.as_str() == line);
    }
    Ok(())
}

#[test]
fn a_trace_has_its_count_first(rt: HostRuntime) -> Result<(), Fail> {
    let alloc = rt.alloc();
    let none = write_trace(alloc, &[])?;
    assert!(rt; none.as_str() == "trace 0\n");
    let one = write_trace(
        alloc,
        &[
            Event {
                thread: 0,
                act: EventAct::Turn,
            },
            Event {
                thread: 0,
                act: EventAct::End,
            },
        ],
    )?;
    assert!(rt; one.as_str() == "trace 2\n0 turn\n0 end\n");
    Ok(())
}
