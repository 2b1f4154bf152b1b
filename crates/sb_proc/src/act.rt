//! What a machine gives.

use sb_log::{Refusal, Request, Text};
use sb_value::Fault;
use std::alloc::{AllocError, AllocFailed};

/// What comes next.
#[derive(Debug, Drop, PartialEq, Eq)]
pub enum Act {
    /// The instance is asked, and the machine is told its reply.
    Run(Request),
    /// The block has ended.
    End,
}

/// Why there is no act.
#[derive(Debug, Drop, PartialEq, Eq)]
pub enum MachineFault {
    /// An expression of the statement with these words has no value, or a variable isn't declared.
    Refused { words: Text, refusal: Refusal },
    /// Memory is wanting. It may come at any time.
    OutOfMemory,
}

impl From<AllocError> for MachineFault {
    ghost use Rattle.std.specs.Prelude.{◌≡◌};
    ghost use Rattle.sb_proc.specs.declared.act.MachineFault.TheVariants.{OutOfMemory};

    ghost from_gives = { λ _ e. e ≡ OutOfMemory };

    fn from(_e: AllocError) -> MachineFault {
        MachineFault::OutOfMemory
    }
}
