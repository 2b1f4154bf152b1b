//! Refusals of definitions, before anything is copied.

ghost use Rattle.std.specs.Prelude.{◌≡◌, ◌⊎◌, IfOk};
ghost use Rattle.sb_log.specs.declared.refusals.Refusal.TheVariants.{OutOfMemory};
ghost use Rattle.sb_catalog.specs.Seen.{refusal_seen};

use sb_log::{Name, Refusal};
use std::alloc::AllocError;

/// A refusal that lends the names of the refused definition.
#[derive(Clone, Copy)]
pub(crate) enum Refused<'a> {
    NameTaken(&'a Name),
    NoMessageType(&'a Name),
    NoContract(&'a Name),
    NoQueue(&'a Name),
    NoProcedure(&'a Name),
    NoService(&'a Name),
    NothingFromInitiator(&'a Name),
    TooMany,
    BadNumber(i64),
}

fn copied(why: Refused<'_>) -> Result<Refusal, AllocError>
    ensures { IfOk result (λ refusal. refusal ≡ refusal_seen why.entry) }
{
    match why {
        Refused::NameTaken(name) => Ok(Refusal::NameTaken(name.clone()?)),
        Refused::NoMessageType(name) => Ok(Refusal::NoMessageType(name.clone()?)),
        Refused::NoContract(name) => Ok(Refusal::NoContract(name.clone()?)),
        Refused::NoQueue(name) => Ok(Refusal::NoQueue(name.clone()?)),
        Refused::NoProcedure(name) => Ok(Refusal::NoProcedure(name.clone()?)),
        Refused::NoService(name) => Ok(Refusal::NoService(name.clone()?)),
        Refused::NothingFromInitiator(name) => Ok(Refusal::NothingFromInitiator(name.clone()?)),
        Refused::TooMany => Ok(Refusal::TooMany),
        Refused::BadNumber(number) => Ok(Refusal::BadNumber(number)),
    }
}

/// The refusal with names of its own, or want of memory.
pub(crate) fn refusal(why: Refused<'_>) -> Refusal
    ensures { (result ≡ OutOfMemory) ⊎ (result ≡ refusal_seen why.entry) }
{
    match copied(why) {
        Ok(refusal) => refusal,
        Err(_) => Refusal::OutOfMemory,
    }
}
