// The adapters over a real file, and over a reader and a writer that fail in mid-stream.
ghost use Rattle.std.specs.Prelude.{◌≤◌, IfOk};

use super::{HostFiles, HostSink, read_all};
use crate::{Files, LoadNo, PutNo, Sink};
use std::io::{ErrorKind, Read, Write};
use std::process::Abort;
use std::test::Fail;
use std::{env, fs, io, process};

fn expect_no(rt: &impl Abort, answer: Result<Vec<u8>, LoadNo>, wanted: LoadNo) {
    match answer {
        Ok(_) => assert!(rt; false, "bytes in place of {wanted:?}"),
        Err(why) => assert_eq!(rt; why, wanted),
    }
}

#[test]
fn a_real_file_is_written_and_loaded(rt: HostRuntime) -> Result<(), Fail> {
    let alloc = rt.alloc();
    let folder = env::temp_dir(&rt)?;
    let folder = folder.as_str();
    let id = process::id(rt.process());
    let path = format!(in alloc; "{folder}/conair_io_{id}")?;
    let path = path.as_str();
    let mut sink = HostSink::new(fs::create(&rt, path)?);
    sink.put(b"int main")?;
    sink.put(b"")?;
    sink.put(b"(void)\n")?;
    let mut files = HostFiles::new(&rt, alloc);
    assert_eq!(rt;
        files.load(path, 15)?.as_slice(),
        b"int main(void)\n".as_slice()
    );
    expect_no(&rt, files.load(path, 14), LoadNo::TooLong);
    assert_eq!(rt; files.load(path, usize::MAX)?.len(), 15);
    let mut unwritable = HostSink::new(fs::open(&rt, path)?);
    assert_eq!(rt; unwritable.put(b"x"), Err(PutNo::Failed));
    fs::remove_file(&rt, path)?;
    expect_no(&rt, files.load(path, 15), LoadNo::Failed);
    Ok(())
}

// Reads or writes so many bytes one by one, and then fails.
#[derive(Drop)]
struct Broken {
    left: u8,
}

impl Broken {
    fn step(&mut self, room: usize) -> io::Result<usize>
        ensures { IfOk result (λ n. n ≤ room) }
    {
        if self.left == 0 {
            return Err(io::Error::from(ErrorKind::Other));
        }
        if room == 0 {
            return Ok(0);
        }
        self.left -= 1;
        Ok(1)
    }
}

impl Read for Broken {
    fn read(&mut self, buf: &mut [u8]) -> io::Result<usize> {
        self.step(buf.len())
    }
}

impl Write for Broken {
    fn write(&mut self, buf: &[u8]) -> io::Result<usize> {
        self.step(buf.len())
    }

    fn flush(&mut self) -> io::Result<()> {
        Ok(())
    }
}

#[test]
fn a_failure_in_mid_stream_is_told(rt: HostRuntime) -> Result<(), Fail> {
    let alloc = rt.alloc();
    expect_no(&rt, read_all(alloc, Broken { left: 3 }, 9), LoadNo::Failed);
    expect_no(&rt, read_all(alloc, Broken { left: 3 }, 1), LoadNo::TooLong);
    let mut sink = HostSink::new(Broken { left: 3 });
    sink.put(b"ab")?;
    assert_eq!(rt; sink.put(b"cd"), Err(PutNo::Failed));
    assert_eq!(rt; sink.put(b"e"), Err(PutNo::Failed));
    Ok(())
}
