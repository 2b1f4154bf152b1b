//! Why an expression has no value.

use sb_log::{Text, ValueKind};
use std::alloc::{AllocError, AllocFailed};

/// Why an expression has no value.
#[derive(Debug, Drop, PartialEq, Eq)]
pub enum Fault {
    /// The variable isn't declared.
    NoVariable(Text),
    /// A value doesn't convert to this kind, or is NULL where it may not be.
    WrongKind(ValueKind),
    /// A sum or difference with this left operand leaves BIGINT.
    Overflow(i64),
    /// Memory is wanting. It may come at any time.
    OutOfMemory,
}

impl From<AllocError> for Fault {
    ghost use Rattle.std.specs.Prelude.{◌≡◌};
    ghost use Rattle.sb_value.specs.declared.fault.Fault.TheVariants.{OutOfMemory};

    ghost from_gives = { λ _ e. e ≡ OutOfMemory };

    fn from(_e: AllocError) -> Fault {
        Fault::OutOfMemory
    }
}

impl<T: Drop> From<AllocFailed<T>> for Fault {
    ghost use Rattle.std.specs.Prelude.{◌≡◌};
    ghost use Rattle.sb_value.specs.declared.fault.Fault.TheVariants.{OutOfMemory};

    ghost from_gives = { λ _ e. e ≡ OutOfMemory };

    fn from(_e: AllocFailed<T>) -> Fault {
        Fault::OutOfMemory
    }
}
