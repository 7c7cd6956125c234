//! Why a reader stops.

ghost use Rattle.std.specs.Prelude.{◌≡◌};
ghost use Rattle.ca_expressions.specs.declared.stop.Stop.TheVariants.{NoMemory};

use ca_grammar::Counted;
use ca_tree::{NoMemory, Token};
use std::alloc::{AllocError, AllocFailed};

/// Why a reader stopped.
#[derive(Drop)]
pub enum Stop<'t> {
    /// No program goes on with the first of these tokens.
    At(&'t [Token]),
    /// With the first of these tokens a limit is exceeded.
    Over(Counted, &'t [Token]),
    /// The first of these tokens shows that the result of a function, named before it, is a struct without a star.
    Starless(&'t [Token]),
    /// An allocation was refused.
    NoMemory,
}

impl<'t> From<AllocError> for Stop<'t> {
    ghost from_gives = { λ _ e. e ≡ NoMemory };

    fn from(_: AllocError) -> Stop<'t> {
        Stop::NoMemory
    }
}

impl<'t, T: Drop> From<AllocFailed<T>> for Stop<'t> {
    ghost from_gives = { λ _ e. e ≡ NoMemory };

    fn from(_: AllocFailed<T>) -> Stop<'t> {
        Stop::NoMemory
    }
}

impl<'t> From<NoMemory> for Stop<'t> {
    ghost from_gives = { λ _ e. e ≡ NoMemory };

    fn from(_: NoMemory) -> Stop<'t> {
        Stop::NoMemory
    }
}
