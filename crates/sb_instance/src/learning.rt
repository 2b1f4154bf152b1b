//! The catalog of a log.

ghost use Rattle.std.specs.Prelude.{◌≡◌, IfErr, IfOk, IsTrue, OnOk};
ghost use Rattle.sb_catalog.specs.Of.{IsOf};
ghost use Rattle.sb_instance.specs.Learning.{IsBad, may_learn, with_entry};

use crate::defining::copied;
use crate::unready::Unready;
use sb_catalog::Catalog;
use sb_log::Entry;
use std::alloc::{AllocError, Global};

fn may_learn(catalog: &Catalog, entry: &Entry) -> bool
    ensures { result ≡ may_learn catalog.now entry.now }
{
    match entry {
        Entry::Defined(ddl) => catalog.is_new(ddl),
        Entry::QueueSet { queue, .. } => catalog.queue(queue).is_some(),
        _ => true,
    }
}

fn learn(catalog: &mut Catalog, entry: &Entry) -> Result<(), AllocError>
    requires { IsTrue (may_learn catalog.old entry.now) }
    ensures { OnOk result (catalog.new ≡ with_entry catalog.old entry.now) }
{
    match entry {
        Entry::Defined(ddl) => {
            catalog.reserve(ddl)?;
            catalog.apply(copied(ddl)?);
            Ok(())
        }
        Entry::QueueSet { queue, on } => {
            catalog.set_queue(queue, *on);
            Ok(())
        }
        _ => Ok(()),
    }
}

/// What the log defines and sets, entry by entry.
pub fn learned(alloc: Global, log: &[Entry]) -> Result<Catalog, Unready>
    ensures so { IfOk result (IsOf log.now) }
    ensures bad { IfErr result (IsBad log.now) }
{
    let mut catalog = Catalog::new(alloc)?;
    for entry in log {
        if !may_learn(&catalog, entry) {
            return Err(Unready::BadLog);
        }
        learn(&mut catalog, entry)?;
    }
    Ok(catalog)
}
