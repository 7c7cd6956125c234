// The two traits, by what is known of the object that is handed in.
ghost use Rattle.std.specs.Prelude.{◌≡◌, ◌≤◌, ◌<◌, [], ◌∷◌, ◌++◌, ℕ, List, length, IfOk, OnOk, IsOk, IsErrOf, IfSome, Option};
ghost use Rattle.std.specs.Io.KnownBytes.{Appends, Keeps};
ghost use Rattle.ca_io.specs.Outside.{Rose, AppendsPart, IsTold};
ghost use Rattle.ca_io.specs.declared.outside.LoadNo.TheVariants as load_no;
ghost use Rattle.ca_io.specs.declared.outside.PutNo.TheVariants as put_no;

use std::alloc::{AllocError, AllocFailed};

/// Why a load gave nothing.
#[derive(Clone, Copy, Debug, PartialEq, Eq)]
pub enum LoadNo {
    /// The load failed, and the count of faults rose.
    Failed,
    /// There are more bytes than the limit.
    TooLong,
    /// An allocation was refused.
    NoMemory,
}

impl From<AllocError> for LoadNo {
    ghost from_gives = { λ _ e. e ≡ load_no.NoMemory };

    fn from(_: AllocError) -> Self {
        LoadNo::NoMemory
    }
}

impl<T: Drop> From<AllocFailed<T>> for LoadNo {
    ghost from_gives = { λ _ e. e ≡ load_no.NoMemory };

    fn from(_: AllocFailed<T>) -> Self {
        LoadNo::NoMemory
    }
}

/// Why a put didn't add the whole piece.
#[derive(Clone, Copy, Debug, PartialEq, Eq)]
pub enum PutNo {
    /// The put failed, and the count of faults rose. A front of the piece was added.
    Failed,
    /// An allocation was refused, and nothing was added.
    NoMemory,
}

impl From<AllocError> for PutNo {
    ghost from_gives = { λ _ e. e ≡ put_no.NoMemory };

    fn from(_: AllocError) -> Self {
        PutNo::NoMemory
    }
}

/// Files that are loaded whole, by name.
pub trait Files {
    /// What a name holds, where that is told. No load changes it.
    ghost holds: { Self → List ℕ → Option (List ℕ) };

    /// How often a load has failed. It never falls.
    ghost faults: { Self → ℕ };

    /// The names that were loaded so far, the latest last.
    ghost asked: { Self → List (List ℕ) };

    /// The whole contents of a name, if they have at most `limit` bytes. Each answer but `NoMemory` adds the name to those asked.
    fn load(&mut self, name: &str, limit: usize) -> Result<Vec<u8>, LoadNo>
        ensures kept { holds self.new ≡ holds self.old }
        ensures later { faults self.old ≤ faults self.new }
        ensures whole { IfOk result (λ bytes. IsTold (holds self.old name.now) bytes.items) }
        ensures short { IfOk result (λ bytes. length bytes.items ≤ limit) }
        ensures passed { OnOk result (faults self.new ≡ faults self.old) }
        ensures too_long { IsErrOf result LoadNo.TooLong →
            IfSome (holds self.old name.now) (λ bytes. limit < length bytes) }
        ensures too_long_no_fault { IsErrOf result LoadNo.TooLong → faults self.new ≡ faults self.old }
        ensures failed { IsErrOf result LoadNo.Failed → Rose (faults self.old) (faults self.new) }
        ensures no_memory { IsErrOf result LoadNo.NoMemory → asked self.new ≡ asked self.old }
        ensures no_fault { IsErrOf result LoadNo.NoMemory → faults self.new ≡ faults self.old }
        ensures asked_ok { OnOk result (asked self.new ≡ asked self.old ++ name.now ∷ []) }
        ensures asked_failed { IsErrOf result LoadNo.Failed →
            asked self.new ≡ asked self.old ++ name.now ∷ [] }
        ensures asked_long { IsErrOf result LoadNo.TooLong →
            asked self.new ≡ asked self.old ++ name.now ∷ [] };
}

/// A place that bytes are put to.
pub trait Sink {
    /// The bytes that were put, where that is told.
    ghost written: { Self → Option (List ℕ) };

    /// How often a put has failed. It never falls.
    ghost faults: { Self → ℕ };

    /// Adds the whole piece. An empty piece changes nothing.
    fn put(&mut self, piece: &[u8]) -> Result<(), PutNo>
        ensures whole { OnOk result (Appends (written self.old) (written self.new) piece.now) }
        ensures part { IsErrOf result PutNo.Failed →
            AppendsPart (written self.old) (written self.new) piece.now }
        ensures no_memory { IsErrOf result PutNo.NoMemory → Keeps (written self.old) (written self.new) }
        ensures no_fault { IsErrOf result PutNo.NoMemory → faults self.new ≡ faults self.old }
        ensures later { faults self.old ≤ faults self.new }
        ensures passed { OnOk result (faults self.new ≡ faults self.old) }
        ensures failed { IsErrOf result PutNo.Failed → Rose (faults self.old) (faults self.new) }
        ensures empty { length piece.now ≡ 0 → IsOk result }
        ensures empty_kept { length piece.now ≡ 0 → self.new ≡ self.old };
}
