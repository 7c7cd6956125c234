// Calls of the crates below, with ample memory.
use ca_io::{MemorySink, NoMemory};
use ca_model::{Ending, FaultKind};
use ca_tree::{Listed, Text};
use std::alloc::{AllocError, Global};
use std::test::Fail;

fn text_of(alloc: Global, bytes: &[u8]) -> Result<Text, AllocError> {
    Ok(Listed::from_vec(bytes.to_vec(alloc)?))
}

fn is_same<T: PartialEq>(a: &T, b: &T) -> bool {
    a == b
}

#[test]
fn lists_are_compared_item_by_item(rt: HostRuntime) -> Result<(), Fail> {
    let alloc = rt.alloc();
    let text = text_of(alloc, b"ab")?;
    assert_eq!(rt; text.as_slice(), b"ab".as_slice());
    assert!(rt; is_same(&text, &text_of(alloc, b"ab")?));
    assert!(rt; !is_same(&text, &text_of(alloc, b"ac")?));
    assert!(rt; !is_same(&text, &text_of(alloc, b"a")?));
    Ok(())
}

#[test]
fn endings_have_words_and_statuses(rt: HostRuntime) {
    let endings = [
        (Ending::Finished, "finished", 0),
        (Ending::Fault(FaultKind::Arith), "fault", 1),
        (Ending::Deadlock, "deadlock", 4),
        (Ending::Unended, "unended", 5),
        (Ending::Events, "events", 5),
        (Ending::Frames, "frames", 5),
    ];
    for (ending, word, status) in endings {
        assert_eq!(rt; ending.word(), word);
        assert_eq!(rt; ending.status(), status);
    }
}

#[test]
fn want_of_memory_is_told(rt: HostRuntime) -> Result<(), Fail> {
    let alloc = rt.alloc();
    let mut err = MemorySink::new(alloc, vec![in alloc; 2]?)?;
    assert_eq!(rt; crate::out_of_memory(&mut err), 8);
    assert_eq!(rt; crate::out_of_memory(&mut err), 7);
    assert_eq!(rt; err.bytes(), b"conair: out of memory\n".as_slice());
    assert_eq!(rt; NoMemory::from(AllocError), NoMemory);
    Ok(())
}
