//! What a definition and ALTER QUEUE need of the log and of the catalog.

ghost use Rattle.std.specs.Prelude.{◌≡◌, ◌⊎◌, ◌++◌, ◌∷◌, [], IfOk, OnOk, OnErr, option_map};
ghost use Rattle.sb_log.specs.declared.entries.Entry.TheVariants.{Defined, QueueSet};
ghost use Rattle.sb_log.specs.declared.refusals.Refusal.TheVariants.{NoQueue, OutOfMemory};
ghost use Rattle.sb_model.specs.Catalog.{find_queue};
ghost use Rattle.sb_catalog.specs.Known.{log_of};

use sb_catalog::Catalog;
use sb_log::{Ddl, Entry, Name, Refusal};
use std::alloc::AllocError;

pub fn copied(ddl: &Ddl) -> Result<Ddl, AllocError>
    ensures { IfOk result (λ copy. copy ≡ ddl.now) }
{
    ddl.clone()
}

pub fn push_definition(log: &mut Vec<Entry>, ddl: &Ddl) -> Result<(), AllocError>
    ensures written { OnOk result (log.new.items ≡ log.old.items ++ Defined ddl.now ∷ []) }
    ensures kept { OnErr result (log.new.items ≡ log.old.items) }
{
    let entry = Entry::Defined(copied(ddl)?);
    log.push(entry)?;
    Ok(())
}

pub fn push_setting(log: &mut Vec<Entry>, queue: &Name, on: bool) -> Result<(), AllocError>
    ensures written { OnOk result (log.new.items ≡ log.old.items ++ QueueSet queue.now on ∷ []) }
    ensures kept { OnErr result (log.new.items ≡ log.old.items) }
{
    let queue = queue.clone()?;
    log.push(Entry::QueueSet { queue, on })?;
    Ok(())
}

/// Whether the queue is on, if there is one with this name.
pub fn is_on(catalog: &Catalog, queue: &Name) -> Option<bool>
    ensures { result ≡ option_map (λ def. def.on) (find_queue (log_of catalog.now) queue.now) }
{
    match catalog.queue(queue) {
        None => None,
        Some(def) => Some(def.on),
    }
}

pub fn no_queue(queue: &Name) -> Refusal
    ensures { (result ≡ OutOfMemory) ⊎ (result ≡ NoQueue queue.now) }
{
    match queue.clone() {
        Err(_) => Refusal::OutOfMemory,
        Ok(name) => Refusal::NoQueue(name),
    }
}
