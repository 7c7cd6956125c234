//! Whether a run is open.

use ca_model::FaultKind;

/// Whether a run is open, has finished by the end of its first thread, or has failed.
#[derive(Clone, Copy, Debug, PartialEq, Eq)]
pub enum Phase {
    Open,
    Finished,
    Failed(FaultKind),
}
