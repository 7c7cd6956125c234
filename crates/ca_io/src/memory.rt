// Files and a sink in memory, which fail where they are told to.
ghost use Rattle.std.specs.Prelude.{◌≡◌, ◌≢◌, ◌≤◌, ◌<◌, ◌⊎◌, [], ◌∷◌, ◌++◌, ℕ, List, map, string_bytes, Some, None, IsOk, OnOk, OnErr, IfOk, IsErrOf, IfSome, length, Contains};
ghost use Rattle.std.specs.BTreeMap.{get_by_text};
ghost use Rattle.std.specs.Io.KnownBytes.{Appends, Keeps};
ghost use Rattle.ca_io.specs.Outside.{IsTold, Rose, AppendsPart, one_more};
ghost use Rattle.ca_io.specs.Memory.{held, asked_names, load_faults, load_count, failing_loads, FailsLoad, put_bytes, put_faults, put_count, failing_puts, FailsPut};

use crate::{Files, LoadNo, NoMemory, PutNo, Sink};
use std::alloc::Global;
use std::collections::BTreeMap;

/// Files in memory. A load of a name that was not added fails.
#[derive(Drop)]
pub struct MemoryFiles {
    alloc: Global,
    entries: BTreeMap<String, Vec<u8>>,
    fails: Vec<u32>,
    loads: u64,
    faults: u64,
    asked: Vec<String>,
}

impl MemoryFiles {
    /// No name holds anything yet. The loads with the numbers `fails` fail, counted from 1; a load that answers `NoMemory` has no number.
    pub fn new(alloc: Global, fails: Vec<u32>) -> Result<MemoryFiles, NoMemory>
        ensures made { IsOk result }
        ensures empty { IfOk result (λ f. (name : List ℕ) → held f name ≡ None) }
        ensures unasked { IfOk result (λ f. asked_names f ≡ []) }
        ensures no_faults { IfOk result (λ f. load_faults f ≡ 0) }
        ensures no_loads { IfOk result (λ f. load_count f ≡ 0) }
        ensures failing { IfOk result (λ f. failing_loads f ≡ fails.items) }
    {
        Ok(MemoryFiles {
            alloc,
            entries: BTreeMap::new(alloc),
            fails,
            loads: 0,
            faults: 0,
            asked: Vec::new(alloc),
        })
    }

    /// Gives a name its contents, in place of those that it had. Want of memory leaves all names as they were.
    pub fn add(&mut self, name: &str, bytes: &[u8]) -> Result<(), NoMemory>
        ensures added { OnOk result (held self.new name.now ≡ Some bytes.now) }
        ensures others { (other : List ℕ) → other ≢ name.now → held self.new other ≡ held self.old other }
        ensures err { OnErr result ((other : List ℕ) → held self.new other ≡ held self.old other) }
        ensures asked { asked_names self.new ≡ asked_names self.old }
        ensures faults { load_faults self.new ≡ load_faults self.old }
        ensures loads { load_count self.new ≡ load_count self.old }
        ensures failing { failing_loads self.new ≡ failing_loads self.old }
    {
        let name = String::from_str(self.alloc, name)?;
        let bytes = bytes.to_vec(self.alloc)?;
        match self.entries.insert(name, bytes) {
            Ok(_) => Ok(()),
            Err(_) => Err(NoMemory),
        }
    }

    // What the load with this number answers.
    fn find(&self, number: u64, name: &str, limit: usize) -> Result<Vec<u8>, LoadNo>
        ensures whole { IfOk result (λ bytes. held self.now name.now ≡ Some bytes.items) }
        ensures short { IfOk result (λ bytes. length bytes.items ≤ limit) }
        ensures due { OnOk result (Contains (failing_loads self.now) number → ⊥) }
        ensures too_long { IsErrOf result LoadNo.TooLong →
            IfSome (held self.now name.now) (λ bytes. limit < length bytes) }
        ensures too_long_held { IsErrOf result LoadNo.TooLong → held self.now name.now ≢ None }
        ensures too_long_due { IsErrOf result LoadNo.TooLong → Contains (failing_loads self.now) number → ⊥ }
        ensures failed { IsErrOf result LoadNo.Failed →
            Contains (failing_loads self.now) number ⊎ (held self.now name.now ≡ None) }
    {
        if self.fails.iter().any(|n| u64::from(*n) == number) {
            return Err(LoadNo::Failed);
        }
        let Some(bytes) = self.entries.get(name) else {
            return Err(LoadNo::Failed);
        };
        if bytes.len() > limit {
            return Err(LoadNo::TooLong);
        }
        Ok(bytes.to_vec(self.alloc)?)
    }
}

impl Files for MemoryFiles {
    ghost holds = { λ m name. held m name };

    ghost faults = { λ m. m.faults };

    ghost asked = { λ m. map string_bytes m.asked.items };

    fn load(&mut self, name: &str, limit: usize) -> Result<Vec<u8>, LoadNo>
        ensures kept { held self.new ≡ held self.old }
        ensures later { load_faults self.old ≤ load_faults self.new }
        ensures whole { IfOk result (λ bytes. IsTold (held self.old name.now) bytes.items) }
        ensures short { IfOk result (λ bytes. length bytes.items ≤ limit) }
        ensures passed { OnOk result (load_faults self.new ≡ load_faults self.old) }
        ensures too_long { IsErrOf result LoadNo.TooLong →
            IfSome (held self.old name.now) (λ bytes. limit < length bytes) }
        ensures too_long_no_fault { IsErrOf result LoadNo.TooLong →
            load_faults self.new ≡ load_faults self.old }
        ensures failed { IsErrOf result LoadNo.Failed → Rose (load_faults self.old) (load_faults self.new) }
        ensures no_memory { IsErrOf result LoadNo.NoMemory → asked_names self.new ≡ asked_names self.old }
        ensures no_fault { IsErrOf result LoadNo.NoMemory → load_faults self.new ≡ load_faults self.old }
        ensures asked_ok { OnOk result (asked_names self.new ≡ asked_names self.old ++ name.now ∷ []) }
        ensures asked_failed { IsErrOf result LoadNo.Failed →
            asked_names self.new ≡ asked_names self.old ++ name.now ∷ [] }
        ensures asked_long { IsErrOf result LoadNo.TooLong →
            asked_names self.new ≡ asked_names self.old ++ name.now ∷ [] }

        // and which answer comes
        ensures given { IfOk result (λ bytes. held self.old name.now ≡ Some bytes.items) }
        ensures given_due { OnOk result (FailsLoad self.old name.now → ⊥) }
        ensures too_long_due { IsErrOf result LoadNo.TooLong → FailsLoad self.old name.now → ⊥ }
        ensures failed_due { IsErrOf result LoadNo.Failed → FailsLoad self.old name.now }
        ensures numbered { (IsErrOf result LoadNo.NoMemory → ⊥) →
            load_count self.new ≡ one_more (load_count self.old) }
        ensures unnumbered { IsErrOf result LoadNo.NoMemory → load_count self.new ≡ load_count self.old }
        ensures failing { failing_loads self.new ≡ failing_loads self.old }
    {
        let number = self.loads.saturating_add(1);
        let copy = String::from_str(self.alloc, name)?;
        match self.find(number, name, limit) {
            Ok(bytes) => {
                self.asked.push(copy)?;
                self.loads = number;
                Ok(bytes)
            }
            Err(LoadNo::TooLong) => {
                self.asked.push(copy)?;
                self.loads = number;
                Err(LoadNo::TooLong)
            }
            Err(LoadNo::Failed) => {
                self.asked.push(copy)?;
                self.loads = number;
                self.faults = self.faults.saturating_add(1);
                Err(LoadNo::Failed)
            }
            Err(LoadNo::NoMemory) => Err(LoadNo::NoMemory),
        }
    }
}

/// A sink in memory.
#[derive(Drop)]
pub struct MemorySink {
    bytes: Vec<u8>,
    fails: Vec<u32>,
    puts: u64,
    faults: u64,
}

impl MemorySink {
    /// Nothing was put yet. The puts with the numbers `fails` fail, counted from 1, and add nothing; a put of an empty piece, or one that answers `NoMemory`, has no number.
    pub fn new(alloc: Global, fails: Vec<u32>) -> Result<MemorySink, NoMemory>
        ensures made { IsOk result }
        ensures empty { IfOk result (λ s. put_bytes s ≡ []) }
        ensures no_faults { IfOk result (λ s. put_faults s ≡ 0) }
        ensures no_puts { IfOk result (λ s. put_count s ≡ 0) }
        ensures failing { IfOk result (λ s. failing_puts s ≡ fails.items) }
    {
        Ok(MemorySink {
            bytes: Vec::new(alloc),
            fails,
            puts: 0,
            faults: 0,
        })
    }

    /// What was put.
    pub fn bytes(&self) -> &[u8]
        ensures { result.now ≡ put_bytes self.now }
    {
        &self.bytes
    }
}

impl Sink for MemorySink {
    ghost written = { λ s. Some s.bytes.items };

    ghost faults = { λ s. s.faults };

    fn put(&mut self, piece: &[u8]) -> Result<(), PutNo>
        ensures whole { OnOk result
            (Appends (Some (put_bytes self.old)) (Some (put_bytes self.new)) piece.now) }
        ensures part { IsErrOf result PutNo.Failed →
            AppendsPart (Some (put_bytes self.old)) (Some (put_bytes self.new)) piece.now }
        ensures no_memory { IsErrOf result PutNo.NoMemory →
            Keeps (Some (put_bytes self.old)) (Some (put_bytes self.new)) }
        ensures no_fault { IsErrOf result PutNo.NoMemory → put_faults self.new ≡ put_faults self.old }
        ensures later { put_faults self.old ≤ put_faults self.new }
        ensures passed { OnOk result (put_faults self.new ≡ put_faults self.old) }
        ensures failed { IsErrOf result PutNo.Failed → Rose (put_faults self.old) (put_faults self.new) }
        ensures empty { length piece.now ≡ 0 → IsOk result }
        ensures empty_kept { length piece.now ≡ 0 → self.new ≡ self.old }

        // and which answer comes
        ensures nothing_added { IsErrOf result PutNo.Failed → put_bytes self.new ≡ put_bytes self.old }
        ensures failed_due { IsErrOf result PutNo.Failed → FailsPut self.old }
        ensures passed_due { OnOk result (0 < length piece.now → FailsPut self.old → ⊥) }
        ensures numbered { (IsErrOf result PutNo.NoMemory → ⊥) →
            0 < length piece.now → put_count self.new ≡ one_more (put_count self.old) }
        ensures unnumbered { IsErrOf result PutNo.NoMemory → put_count self.new ≡ put_count self.old }
        ensures failing { failing_puts self.new ≡ failing_puts self.old }
    {
        if piece.is_empty() {
            return Ok(());
        }
        let number = self.puts.saturating_add(1);
        if self.fails.iter().any(|n| u64::from(*n) == number) {
            self.puts = number;
            self.faults = self.faults.saturating_add(1);
            return Err(PutNo::Failed);
        }
        self.bytes.extend_from_slice(piece)?;
        self.puts = number;
        Ok(())
    }
}

#[cfg(test)]
mod tests;
