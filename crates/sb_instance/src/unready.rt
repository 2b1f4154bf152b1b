//! Why there is no instance over a log.

use std::alloc::AllocError;

#[derive(Clone, Copy, Debug, PartialEq, Eq)]
pub enum Unready {
    OutOfMemory,
    /// An entry defines a name that its kind has already, or sets a queue that isn't there.
    BadLog,
}

impl From<AllocError> for Unready {
    ghost use Rattle.std.specs.Prelude.{◌≡◌};
    ghost use Rattle.sb_instance.specs.declared.unready.Unready.TheVariants.{OutOfMemory};

    ghost from_gives = { λ _ e. e ≡ OutOfMemory };

    fn from(_e: AllocError) -> Unready {
        Unready::OutOfMemory
    }
}
