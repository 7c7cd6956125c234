// Calls of the command over a source and a trace in memory.
use ca_cmd::command_alone;
use ca_io::{MemoryFiles, MemorySink};
use std::alloc::{AllocError, Global};
use std::test::Fail;

/// What a command answers, and what it puts to its two sinks.
#[derive(Drop)]
pub(crate) struct Answer {
    pub(crate) status: u8,
    pub(crate) out: Vec<u8>,
    pub(crate) err: Vec<u8>,
}

/// Words behind the words of a command.
pub(crate) fn joined<'a>(
    alloc: Global,
    front: &[&'a str],
    back: &[&'a str],
) -> Result<Vec<&'a str>, AllocError> {
    let mut words = Vec::new(alloc);
    words.extend_from_slice(front)?;
    words.extend_from_slice(back)?;
    Ok(words)
}

/// The files are the source `a.c` and the trace `t.txt`.
pub(crate) fn call(
    alloc: Global,
    words: &[&str],
    more: &[&str],
    source: &[u8],
    trace: &[u8],
) -> Result<Answer, Fail> {
    failing(
        alloc,
        joined(alloc, words, more)?.as_slice(),
        source,
        trace,
        0,
        0,
    )
}

/// The same where a load or a put to `out` fails, by its number from 1.
pub(crate) fn failing(
    alloc: Global,
    words: &[&str],
    source: &[u8],
    trace: &[u8],
    load: u32,
    put: u32,
) -> Result<Answer, Fail> {
    let mut all = Vec::new(alloc);
    for word in words {
        all.push(String::from_str(alloc, word)?)?;
    }
    let mut files = MemoryFiles::new(alloc, vec![in alloc; load]?)?;
    files.add("a.c", source)?;
    files.add("t.txt", trace)?;
    let mut out = MemorySink::new(alloc, vec![in alloc; put]?)?;
    let mut err = MemorySink::new(alloc, Vec::new(alloc))?;
    let status = command_alone(alloc, &all, &mut files, &mut out, &mut err);
    Ok(Answer {
        status,
        out: out.bytes().to_vec(alloc)?,
        err: err.bytes().to_vec(alloc)?,
    })
}

/// A run of a source.
pub(crate) fn answer_to(alloc: Global, words: &[&str], source: &[u8]) -> Result<Answer, Fail> {
    call(alloc, &["run", "a.c"], words, source, b"")
}

/// The first lines of a text.
pub(crate) fn lines(alloc: Global, text: &[u8], count: u32) -> Result<Vec<u8>, AllocError> {
    let mut front = Vec::new(alloc);
    let mut left = count;
    for byte in text {
        if left == 0 {
            return Ok(front);
        }
        front.push(*byte)?;
        if *byte == b'\n' {
            left = left.saturating_sub(1);
        }
    }
    Ok(front)
}
