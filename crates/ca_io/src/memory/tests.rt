// The objects in memory, called through their traits.
use super::{MemoryFiles, MemorySink};
use crate::{Files, LoadNo, PutNo, Sink};
use std::process::Abort;
use std::test::Fail;

// A load and a put through the bounds of the traits.
fn load_of<F: Files>(files: &mut F, name: &str, limit: usize) -> Result<Vec<u8>, LoadNo> {
    files.load(name, limit)
}

fn put_to<S: Sink>(sink: &mut S, piece: &[u8]) -> Result<(), PutNo> {
    sink.put(piece)
}

fn expect_no(rt: &impl Abort, answer: Result<Vec<u8>, LoadNo>, wanted: LoadNo) {
    match answer {
        Ok(_) => assert!(rt; false, "bytes in place of {wanted:?}"),
        Err(why) => assert_eq!(rt; why, wanted),
    }
}

#[test]
fn files_hold_what_was_added(rt: HostRuntime) -> Result<(), Fail> {
    let alloc = rt.alloc();
    let mut files = MemoryFiles::new(alloc, vec![in alloc; 2, 5]?)?;
    files.add("a", b"one")?;
    files.add("b", b"")?;
    files.add("a", b"four")?;
    assert_eq!(rt; load_of(&mut files, "a", 4)?.as_slice(), b"four".as_slice());
    expect_no(&rt, load_of(&mut files, "a", 4), LoadNo::Failed);
    expect_no(&rt, load_of(&mut files, "a", 3), LoadNo::TooLong);
    expect_no(&rt, load_of(&mut files, "c", 9), LoadNo::Failed);
    expect_no(&rt, load_of(&mut files, "b", 9), LoadNo::Failed);
    assert_eq!(rt; load_of(&mut files, "b", 0)?.len(), 0);
    Ok(())
}

#[test]
fn a_sink_keeps_what_was_put(rt: HostRuntime) -> Result<(), Fail> {
    let alloc = rt.alloc();
    let mut sink = MemorySink::new(alloc, vec![in alloc; 2]?)?;
    put_to(&mut sink, b"ab")?;
    put_to(&mut sink, b"")?;
    assert_eq!(rt; put_to(&mut sink, b"lost"), Err(PutNo::Failed));
    put_to(&mut sink, b"c\n")?;
    assert_eq!(rt; sink.bytes(), b"abc\n".as_slice());
    Ok(())
}
