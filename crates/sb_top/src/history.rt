//! The history of a run, and how full it is.

ghost use Rattle.std.specs.Prelude.{◌≡◌, ◌<◌, ◌++◌, ◌∷◌, [], false, true, length, IsErrOf, OnOk};
ghost use Rattle.sb_show.specs.Transcript.{transcript};
ghost use Rattle.sb_show.specs.Values.{capped};
ghost use Rattle.sb_top.specs.Room.{is_full};

use sb_log::Step;
use sb_show::length;
use std::alloc::{AllocError, Global};
use std::marker::Model;

/// Why a run goes no further.
#[derive(Clone, Copy, Debug, PartialEq, Eq)]
pub enum Stopped {
    /// A step was to come, and the history was full.
    HistoryFull,
    OutOfMemory,
}

impl From<AllocError> for Stopped {
    ghost use Rattle.std.specs.Prelude.{◌≡◌};
    ghost use Rattle.sb_top.specs.declared.history.Stopped.TheVariants.{OutOfMemory};

    ghost from_gives = { λ _ e. e ≡ OutOfMemory };

    fn from(_e: AllocError) -> Stopped {
        Stopped::OutOfMemory
    }
}

/// The most steps of a history.
const MOST_STEPS: usize = 200_000;

/// So many bytes of transcript fill a history.
const MOST_BYTES: u64 = 536_870_912;

/// The steps so far.
#[derive(Drop)]
pub struct History {
    steps: Vec<Step>,
    /// The bytes of their transcript.
    bytes: u64,
}

impl Model for History {
    ghost use Rattle.std.specs.Prelude.{◌≡◌, ◌-◌, length, vec_capacity, vec_len};
    ghost use Rattle.sb_show.specs.Transcript.{transcript};
    ghost use Rattle.sb_show.specs.Values.{capped};
    ghost use Rattle.sb_top.specs.Room.{Recorded};

    ghost Value = { Recorded };

    ghost view = { λ h. record { steps = h.steps.items; spare = vec_capacity h.steps - vec_len h.steps } };

    ghost invariant = { λ h. h.bytes ≡ capped (length (transcript h.steps.items)) };
}

impl History {
    /// The history without a step.
    pub fn new(alloc: Global) -> History
        ensures { result.steps ≡ [] }
    {
        History {
            steps: Vec::new(alloc),
            bytes: 0,
        }
    }

    pub fn steps(&self) -> &[Step]
        ensures { result.now ≡ self.now.steps }
    {
        self.steps.as_slice()
    }

    /// How many steps there are.
    pub fn len(&self) -> usize
        ensures { result ≡ length self.now.steps }
    {
        self.steps.len()
    }

    pub fn into_steps(self) -> Vec<Step>
        ensures { result.items ≡ self.steps }
    {
        self.steps
    }

    /// How many bytes the transcript has, and the greatest `u64` where it has more.
    pub fn bytes(&self) -> u64
        ensures { result ≡ capped (length (transcript self.now.steps)) }
    {
        self.bytes
    }

    fn is_full(&self) -> bool
        ensures { result ≡ is_full self.now.steps }
    {
        self.steps.len() >= MOST_STEPS || self.bytes >= MOST_BYTES
    }

    /// Makes room for one more step.
    pub fn make_room(&mut self) -> Result<(), Stopped>
        ensures same { self.new.steps ≡ self.old.steps }
        ensures spare { OnOk result (0 < self.new.spare) }
        ensures room { OnOk result (is_full self.old.steps ≡ false) }
        ensures full { IsErrOf result Stopped.HistoryFull → is_full self.old.steps ≡ true }
    {
        if self.is_full() {
            return Err(Stopped::HistoryFull);
        }
        match self.steps.reserve(1) {
            Ok(()) => Ok(()),
            Err(_) => Err(Stopped::OutOfMemory),
        }
    }

    /// Adds a step for which there is room.
    pub fn push(&mut self, step: Step)
        requires { 0 < self.old.spare }
        ensures { self.new.steps ≡ self.old.steps ++ step ∷ [] }
    {
        let bytes = self.bytes.saturating_add(length(&step));
        self.steps.push(step).unwrap();
        self.bytes = bytes;
    }
}
