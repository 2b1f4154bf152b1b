//! Why a statement goes no further.

ghost use Rattle.std.specs.Prelude.{◌≡◌};
ghost use Rattle.sb_instance.specs.declared.stopped.Stopped.TheVariants.{OutOfMemory};

use sb_log::Refusal;
use std::alloc::{AllocError, AllocFailed};

/// A statement stops at a refusal, or where memory is wanting.
#[derive(Drop)]
pub enum Stopped {
    OutOfMemory,
    Refused(Refusal),
}

impl From<AllocError> for Stopped {
    ghost from_gives = { λ _ stopped. stopped ≡ OutOfMemory };

    fn from(_: AllocError) -> Stopped {
        Stopped::OutOfMemory
    }
}

impl<T: Drop> From<AllocFailed<T>> for Stopped {
    ghost from_gives = { λ _ stopped. stopped ≡ OutOfMemory };

    fn from(_: AllocFailed<T>) -> Stopped {
        Stopped::OutOfMemory
    }
}
