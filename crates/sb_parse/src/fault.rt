//! Why tokens are no statements.

ghost use Rattle.std.specs.Prelude.{◌≡◌};
ghost use Rattle.sb_parse.specs.declared.fault.Fault.TheVariants.{Memory};

use sb_grammar::Barred;
use std::alloc::{AllocError, AllocFailed};

/// How many tokens are left from the first at which no spelling goes on.
#[derive(Clone, Copy, Debug, PartialEq, Eq)]
pub enum Fault {
    Memory,
    Bad(usize),
    /// That token is a word that isn't supported there.
    Unsupported(usize, Barred),
}

impl From<AllocError> for Fault {
    ghost from_gives = { λ _ e. e ≡ Memory };

    fn from(_e: AllocError) -> Fault {
        Fault::Memory
    }
}

impl<T: Drop> From<AllocFailed<T>> for Fault {
    ghost from_gives = { λ _ e. e ≡ Memory };

    fn from(_e: AllocFailed<T>) -> Fault {
        Fault::Memory
    }
}
