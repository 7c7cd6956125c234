// Texts and what they are read as, worked by hand.
use super::{TraceNo, read_trace};
use ca_model::{Addr, Event, EventAct, FaultKind, Given, Value};
use ca_tree::{FunId, Listed, MutexId, SiteId};
use std::alloc::Global;
use std::process::Abort;
use std::test::Fail;

fn at(block: u32, offset: i32) -> Addr {
    Addr { block, offset }
}

fn refused_at(rt: &impl Abort, alloc: Global, text: &[u8], line: u32) {
    match read_trace(alloc, text) {
        Ok(_) => assert!(rt; false),
        Err(no) => assert!(rt; no == TraceNo::Fault { line }),
    }
}

// The one entry of a trace of one line.
fn alone(rt: &impl Abort, alloc: Global, line: &str, event: Event) -> Result<(), Fail> {
    let text = format!(in alloc; "trace 1\n{line}\n")?;
    match read_trace(alloc, text.as_str().as_bytes()) {
        Ok(events) => assert!(rt; events.as_slice() == [event].as_slice()),
        Err(_) => assert!(rt; false),
    }
    Ok(())
}

// This second line is the first that has no reading.
fn no_entry(rt: &impl Abort, alloc: Global, line: &str) -> Result<(), Fail> {
    let text = format!(in alloc; "trace 1\n{line}\n")?;
    refused_at(rt, alloc, text.as_str().as_bytes(), 2);
    Ok(())
}

#[test]
fn each_entry_is_read_back(rt: HostRuntime) -> Result<(), Fail> {
    let alloc = rt.alloc();
    let text = Vec::from_slice(alloc, b"5\n\xff")?;
    let gives = Vec::from_slice(alloc, &[Given::Mutex(MutexId(1)), Given::Block(7)])?;
    for (line, act) in [
        (
            "3 read @0.-1 -5",
            EventAct::Read {
                at: at(0, -1),
                value: Value::Num(-5),
            },
        ),
        (
            "3 write @1.2 @4.0",
            EventAct::Write {
                at: at(1, 2),
                value: Value::Addr(at(4, 0)),
            },
        ),
        ("3 lock m0", EventAct::Lock(MutexId(0))),
        ("3 unlock m63", EventAct::Unlock(MutexId(63))),
        (
            "3 malloc 1048577 0",
            EventAct::Malloc {
                cells: 1_048_577,
                at: Value::Num(0),
            },
        ),
        (
            "3 malloc -2 @5.0",
            EventAct::Malloc {
                cells: -2,
                at: Value::Addr(at(5, 0)),
            },
        ),
        (
            "3 free @2.9",
            EventAct::Free {
                at: Value::Addr(at(2, 9)),
            },
        ),
        ("3 free 0", EventAct::Free { at: Value::Num(0) }),
        ("3 print 350aff", EventAct::Print(Listed::from_vec(text))),
        (
            "3 print -",
            EventAct::Print(Listed::from_vec(Vec::new(alloc))),
        ),
        ("3 create 1", EventAct::Create(1)),
        ("3 join 1", EventAct::Join(1)),
        ("3 call f0", EventAct::Call(FunId(0))),
        ("3 return 0", EventAct::Return(Value::Num(0))),
        ("3 turn", EventAct::Turn),
        ("3 end", EventAct::End),
        ("3 fault assert", EventAct::Fault(FaultKind::Assert)),
        ("3 fault pointer", EventAct::Fault(FaultKind::Pointer)),
        ("3 fault mutex", EventAct::Fault(FaultKind::Mutex)),
        ("3 fault arith", EventAct::Fault(FaultKind::Arith)),
        ("3 fault kind", EventAct::Fault(FaultKind::Kind)),
        ("3 fault thread", EventAct::Fault(FaultKind::Thread)),
        ("3 save", EventAct::Save),
        (
            "3 retry s2",
            EventAct::Retry {
                site: SiteId(2),
                gives: Listed::from_vec(Vec::new(alloc)),
            },
        ),
        (
            "3 retry s2 m1 @7.0",
            EventAct::Retry {
                site: SiteId(2),
                gives: Listed::from_vec(gives),
            },
        ),
    ] {
        alone(&rt, alloc, line, Event { thread: 3, act })?;
    }
    Ok(())
}

#[test]
fn the_last_number_of_each_range_is_read(rt: HostRuntime) -> Result<(), Fail> {
    let alloc = rt.alloc();
    for (line, act) in [
        (
            "4294967295 read @4294967295.2147483647 2147483647",
            EventAct::Read {
                at: at(4_294_967_295, 2_147_483_647),
                value: Value::Num(2_147_483_647),
            },
        ),
        (
            "4294967295 write @0.-2147483648 -2147483648",
            EventAct::Write {
                at: at(0, -2_147_483_648),
                value: Value::Num(-2_147_483_648),
            },
        ),
        (
            "4294967295 lock m4294967295",
            EventAct::Lock(MutexId(4_294_967_295)),
        ),
        (
            "4294967295 create 4294967295",
            EventAct::Create(4_294_967_295),
        ),
        (
            "4294967295 call f4294967295",
            EventAct::Call(FunId(4_294_967_295)),
        ),
        (
            "4294967295 malloc 9223372036854775807 0",
            EventAct::Malloc {
                cells: 9_223_372_036_854_775_807,
                at: Value::Num(0),
            },
        ),
    ] {
        alone(
            &rt,
            alloc,
            line,
            Event {
                thread: 4_294_967_295,
                act,
            },
        )?;
    }
    Ok(())
}

#[test]
fn a_number_has_one_spelling_within_its_range(rt: HostRuntime) -> Result<(), Fail> {
    let alloc = rt.alloc();
    for line in [
        "0 return -0",
        "0 read @0.-0 0",
        "0 malloc -0 0",
        "0 free -0",
        "-0 end",
        "0 return +1",
        "+1 end",
        "0 create +1",
        "0 read @0.+1 0",
        "0 malloc +1 0",
        "00 end",
        "0 lock m01",
        "0 return 00",
        "0 return -01",
        "0 free 00",
        "0 write @00.0 1",
        "0 write @0.00 1",
        "0 malloc 01 0",
        "0 retry s01",
        "0 retry s1 m01",
        "0 retry s1 @01.0",
        "0 retry s1 @1.00",
        "4294967296 end",
        "0 read @4294967296.0 0",
        "0 read @0.2147483648 0",
        "0 read @0.-2147483649 0",
        "0 read @0.0 2147483648",
        "0 return 2147483648",
        "0 return -2147483649",
        "0 lock m4294967296",
        "0 unlock m4294967296",
        "0 call f4294967296",
        "0 create 4294967296",
        "0 join 4294967296",
        "0 malloc 9223372036854775808 0",
        "0 malloc -9223372036854775809 0",
        "0 malloc 1 @4294967296.0",
        "0 free @4294967296.0",
        "0 retry s4294967296",
        "0 retry s0 m4294967296",
        "0 retry s0 @4294967296.0",
        "0 return 99999999999999999999999999",
    ] {
        no_entry(&rt, alloc, line)?;
    }
    Ok(())
}

#[test]
fn one_space_stands_between_words(rt: HostRuntime) -> Result<(), Fail> {
    let alloc = rt.alloc();
    for line in [
        "0\tend",
        "0 read\t@0.0 0",
        "0 read @0.0\t0",
        "0 end\r",
        "0  end",
        "0 read  @0.0 0",
        "0 read @0.0  0",
        "0 retry s1  m0",
        "0 end ",
        " 0 end",
        "0 retry s1 ",
        "",
        "0",
        "0 ",
    ] {
        no_entry(&rt, alloc, line)?;
    }
    Ok(())
}

#[test]
fn other_words_are_no_entry(rt: HostRuntime) -> Result<(), Fail> {
    let alloc = rt.alloc();
    for line in [
        "0 jump",
        "0 End",
        "end",
        "0 turn 1",
        "0 free 1",
        "0 free -1",
        "0 malloc 2 1",
        "0 malloc 2 @0.1",
        "0 malloc 2",
        "0 print 0A",
        "0 print 0",
        "0 print 0a0",
        "0 print 0g",
        "0 print --",
        "0 print ",
        "0 print",
        "0 retry",
        "0 retry 1",
        "0 retry s",
        "0 retry s1 m",
        "0 retry s1 @",
        "0 retry s1 @0",
        "0 retry s1 @0.1",
        "0 retry s1 f0",
        "0 retry s1 m0 @",
        "0 fault",
        "0 fault panic",
        "0 lock 0",
        "0 unlock mm0",
        "0 call 0",
        "0 create t1",
        "0 read @0.0",
        "0 read 0 0",
        "0 read @0 0",
        "0 write @.0 0",
        "0 write @0. 0",
        "0 return",
        "0 return @0",
        "0 return @0.0.0",
    ] {
        no_entry(&rt, alloc, line)?;
    }
    Ok(())
}

#[test]
fn the_first_line_counts_the_entries(rt: HostRuntime) {
    for (text, line) in [
        (b"".as_slice(), 1u32),
        (b"trace".as_slice(), 1),
        (b"trace \n".as_slice(), 1),
        (b"trace 0".as_slice(), 1),
        (b"trace 1\r\n0 end\n".as_slice(), 1),
        (b"trace  0\n".as_slice(), 1),
        (b"trace\t0\n".as_slice(), 1),
        (b"trace 00\n".as_slice(), 1),
        (b"trace -0\n".as_slice(), 1),
        (b"trace +0\n".as_slice(), 1),
        (b"Trace 0\n".as_slice(), 1),
        (b" trace 0\n".as_slice(), 1),
        (b"trace2 0\n".as_slice(), 1),
        (b"trace 2000001\n".as_slice(), 1),
        (b"trace 4294967295\n".as_slice(), 1),
        (b"trace 4294967296\n".as_slice(), 1),
        (b"trace 2000000\n".as_slice(), 2),
        (b"trace 1\n\xff end\n".as_slice(), 2),
        (b"trace 1\n0 turn\n0 end\n".as_slice(), 3),
        (b"trace 2\n0 end\n".as_slice(), 3),
        (b"trace 3\n0 turn\n0 end\n".as_slice(), 4),
        (b"trace 2\n0 turn\n0 jump\n".as_slice(), 3),
        (b"trace 2\n0 turn\nending finished\n".as_slice(), 3),
    ] {
        refused_at(&rt, rt.alloc(), text, line);
    }
}

#[test]
fn a_cut_in_a_line_is_told_with_that_line(rt: HostRuntime) {
    let alloc = rt.alloc();
    let text = b"trace 2\n0 turn\n0 end\n".as_slice();
    for len in 0..text.len() {
        let line = if len < 8 {
            1
        } else if len < 15 {
            2
        } else {
            3
        };
        refused_at(&rt, alloc, &text[..len], line);
    }
    match read_trace(alloc, text) {
        Ok(events) => assert!(rt; events.as_slice().len() == 2),
        Err(_) => assert!(rt; false),
    }
}

#[test]
fn a_report_may_follow(rt: HostRuntime) {
    let alloc = rt.alloc();
    for text in [
        b"trace 0\n".as_slice(),
        b"trace 0\nending ".as_slice(),
        b"trace 0\nending \xff\n\n".as_slice(),
        b"trace 0\nending finished\noutput 2\n4\n".as_slice(),
    ] {
        match read_trace(alloc, text) {
            Ok(events) => assert!(rt; events.as_slice().is_empty()),
            Err(_) => assert!(rt; false),
        }
    }
    for text in [
        b"trace 0\nending".as_slice(),
        b"trace 0\nendings".as_slice(),
        b"trace 0\n ending ".as_slice(),
        b"trace 0\n\n".as_slice(),
        b"trace 0\n\nending ".as_slice(),
        b"trace 0\n0 end\n".as_slice(),
        b"trace 0\nEnding ".as_slice(),
    ] {
        refused_at(&rt, alloc, text, 2);
    }
}

#[test]
fn the_laws_can_be_called() {
    super::a_text_has_one_reading();
    super::what_is_written_is_read();
}
