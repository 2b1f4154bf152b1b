//! How a run ends.

ghost use Rattle.std.specs.Prelude.{◌≡◌};
ghost use Rattle.sb_top.specs.Ends.{name_of, status_of};

use sb_log::Step;
use sb_script::BadWhy;

/// Why a run ended.
#[derive(Clone, Copy, Debug, PartialEq, Eq)]
pub enum Why {
    /// The whole script ran.
    Fine,
    /// The bytes are no script; the first refused line, from 1.
    Script { line: u64, why: BadWhy },
    /// The words of the command line aren't `steps` alone.
    Usage,
    /// The source failed.
    ReadFault,
    /// The sink failed.
    WriteFault,
    OutOfMemory,
    /// A step was to come, and the history was full: so many bytes of transcript, at most
    /// 2^64 - 1, and so many steps.
    HistoryFull { bytes: u64, steps: u64 },
}

impl Why {
    /// The name of the variant.
    pub fn name(self) -> &'static str
        ensures { result.now ≡ name_of self }
    {
        match self {
            Why::Fine => "Fine",
            Why::Script { .. } => "Script",
            Why::Usage => "Usage",
            Why::ReadFault => "ReadFault",
            Why::WriteFault => "WriteFault",
            Why::OutOfMemory => "OutOfMemory",
            Why::HistoryFull { .. } => "HistoryFull",
        }
    }

    /// The status of a program that ends for this reason.
    pub fn status(self) -> u8
        ensures { result ≡ status_of self }
    {
        match self {
            Why::Fine => 0,
            Why::Script { .. } => 1,
            Why::Usage => 2,
            Why::ReadFault => 3,
            Why::WriteFault => 4,
            Why::OutOfMemory => 5,
            Why::HistoryFull { .. } => 8,
        }
    }
}

/// How a run ended, and its history, of which so many steps were written whole.
#[derive(Debug, Drop)]
pub struct Ended {
    pub status: u8,
    pub why: Why,
    pub history: Vec<Step>,
    pub written_steps: usize,
}

/// The end of a run for this reason.
pub fn end(why: Why, history: Vec<Step>, written_steps: usize) -> Ended
    ensures status { result.status ≡ status_of why }
    ensures why { result.why ≡ why }
    ensures history { result.history.items ≡ history.items }
    ensures written { result.written_steps ≡ written_steps }
{
    Ended {
        status: why.status(),
        why,
        history,
        written_steps,
    }
}
