// The thin adapters over real files and streams. They tell no contents.
ghost use Rattle.std.specs.Prelude.{◌≡◌, ◌≢◌, ◌≤◌, ◌<◌, [], ◌∷◌, ◌++◌, ℕ, map, string_bytes, length, None, IfOk, IfSome, IsErrOf};
ghost use Rattle.ca_io.specs.Outside.{IsTold, IsEnough};

use crate::{Files, LoadNo, PutNo, Sink};
use std::alloc::Global;
use std::io::{Error, ErrorKind, Read, Write};
use std::{fs, io, rt};

/// Real files, by their paths.
#[derive(Drop)]
pub struct HostFiles<'a, R> {
    rt: &'a R,
    alloc: Global,
    faults: u64,
    asked: Vec<String>,
}

impl<'a, R: rt::Files> HostFiles<'a, R> {
    ghost use Rattle.ca_io.specs.Host.{host_asked, host_load_faults};

    /// The files that this runtime reaches.
    pub fn new(rt: &'a R, alloc: Global) -> Self
        ensures unasked { host_asked result ≡ [] }
        ensures no_faults { host_load_faults result ≡ 0 }
    {
        HostFiles {
            rt,
            alloc,
            faults: 0,
            asked: Vec::new(alloc),
        }
    }
}

// Want of memory apart from a failure.
fn load_no(error: &Error) -> LoadNo
    ensures { result ≢ LoadNo.TooLong }
{
    if error.kind() == ErrorKind::OutOfMemory {
        LoadNo::NoMemory
    } else {
        LoadNo::Failed
    }
}

// The bytes that a reader has left; of more than the limit, a front that is longer than it.
fn read_front<F: Read + Drop>(alloc: Global, mut file: F, limit: usize) -> io::Result<Vec<u8>>
    ensures { IfOk result (λ bytes. IfSome (F.remaining file) (λ held. IsEnough limit held bytes.items)) }
{
    let mut bytes = Vec::new(alloc);
    let Some(most) = (limit as u64).checked_add(1) else {
        file.read_to_end(&mut bytes)?;
        return Ok(bytes);
    };
    file.take(most).read_to_end(&mut bytes)?;
    Ok(bytes)
}

// All bytes that a reader has left, if there are at most so many.
fn read_all<F: Read + Drop>(alloc: Global, file: F, limit: usize) -> Result<Vec<u8>, LoadNo>
    ensures whole { IfOk result (λ bytes. IsTold (F.remaining file) bytes.items) }
    ensures short { IfOk result (λ bytes. length bytes.items ≤ limit) }
    ensures too_long { IsErrOf result LoadNo.TooLong →
        IfSome (F.remaining file) (λ bytes. limit < length bytes) }
{
    match read_front(alloc, file, limit) {
        Ok(bytes) => {
            if bytes.len() > limit {
                Err(LoadNo::TooLong)
            } else {
                Ok(bytes)
            }
        }
        Err(error) => Err(load_no(&error)),
    }
}

fn read_file<R: rt::Files>(
    rt: &R,
    alloc: Global,
    name: &str,
    limit: usize,
) -> Result<Vec<u8>, LoadNo>
    ensures { IfOk result (λ bytes. length bytes.items ≤ limit) }
{
    match fs::open(rt, name) {
        Ok(file) => read_all(alloc, file, limit),
        Err(error) => Err(load_no(&error)),
    }
}

impl<'a, R: rt::Files> Files for HostFiles<'a, R> {
    ghost holds = { λ _ _. None };

    ghost faults = { λ f. f.faults };

    ghost asked = { λ f. map string_bytes f.asked.items };

    fn load(&mut self, name: &str, limit: usize) -> Result<Vec<u8>, LoadNo> {
        let copy = String::from_str(self.alloc, name)?;
        match read_file(self.rt, self.alloc, name, limit) {
            Ok(bytes) => {
                self.asked.push(copy)?;
                Ok(bytes)
            }
            Err(LoadNo::TooLong) => {
                self.asked.push(copy)?;
                Err(LoadNo::TooLong)
            }
            Err(LoadNo::Failed) => {
                self.asked.push(copy)?;
                self.faults = self.faults.saturating_add(1);
                Err(LoadNo::Failed)
            }
            Err(LoadNo::NoMemory) => Err(LoadNo::NoMemory),
        }
    }
}

/// A real stream, or any other writer.
#[derive(Drop)]
pub struct HostSink<W> {
    writer: W,
    faults: u64,
}

impl<W: Write + Drop> HostSink<W> {
    ghost use Rattle.ca_io.specs.Host.{host_put_faults, writer_of};

    /// Puts go to this writer.
    pub fn new(writer: W) -> Self
        ensures no_faults { host_put_faults result ≡ 0 }
        ensures writer { writer_of result ≡ writer }
    {
        HostSink { writer, faults: 0 }
    }
}

impl<W: Write + Drop> Sink for HostSink<W> {
    ghost written = { λ _. None };

    ghost faults = { λ s. s.faults };

    fn put(&mut self, piece: &[u8]) -> Result<(), PutNo> {
        if piece.is_empty() {
            return Ok(());
        }
        match self.writer.write_all(piece) {
            Ok(()) => Ok(()),
            Err(_) => {
                self.faults = self.faults.saturating_add(1);
                Err(PutNo::Failed)
            }
        }
    }
}

#[cfg(test)]
mod tests;
