//! Why a field could not be read.

ghost use Rattle.std.specs.Prelude.{◌≡◌};
ghost use Rattle.sb_entry.specs.declared.unread.Unread.TheVariants.{OutOfMemory};

use std::alloc::{AllocError, AllocFailed};

/// Why reading stopped.
#[derive(Clone, Copy, Debug, PartialEq, Eq)]
pub enum Unread {
    OutOfMemory,
    /// A field can't be read; so many bytes are left from its first one on.
    Field { left: usize },
}

impl From<AllocError> for Unread {
    ghost from_gives = { λ _ e. e ≡ OutOfMemory };

    fn from(_: AllocError) -> Unread {
        Unread::OutOfMemory
    }
}

impl<T: Drop> From<AllocFailed<T>> for Unread {
    ghost from_gives = { λ _ e. e ≡ OutOfMemory };

    fn from(_: AllocFailed<T>) -> Unread {
        Unread::OutOfMemory
    }
}
