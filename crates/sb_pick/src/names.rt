//! The names of the queues that are known.

ghost use Rattle.std.specs.Prelude.{◌≡◌, ◌<◌, IsTrue, OnErr, OnOk, length, option_copied};
ghost use Rattle.sb_pick.specs.Inside.{KeepsPlaces, name_at};
ghost use Rattle.sb_pick.specs.Waiting.{is_known, queue_defined, with_queue};

use sb_log::{Ddl, Entry, Name};
use std::alloc::AllocError;

/// The name of the queue that an entry defines.
pub(crate) fn defined_queue(entry: &Entry) -> Option<&Name>
    ensures { option_copied result ≡ queue_defined entry.now }
{
    match entry {
        Entry::Defined(Ddl::Queue(def)) => Some(&def.name),
        _ => None,
    }
}

pub(crate) fn is_known(names: &[Name], queue: &Name) -> bool
    ensures { result ≡ is_known names.now queue.now }
{
    names.iter().any(|name| *queue == *name)
}

/// The place of a queue that is known.
pub(crate) fn place_of(names: &[Name], queue: &Name) -> usize
    requires { IsTrue (is_known names.now queue.now) }
    ensures within { result < length names.now }
    ensures named { name_at names.now result ≡ queue.now }
{
    for place in 0..names.len() {
        if *queue == names[place] {
            return place;
        }
    }
    unreachable!()
}

/// Adds the name, unless it is known.
pub(crate) fn learn(names: &mut Vec<Name>, queue: &Name) -> Result<(), AllocError>
    ensures ok { OnOk result (names.new.items ≡ with_queue names.old.items queue.now) }
    ensures err { OnErr result (names.new.items ≡ names.old.items) }
    ensures places { KeepsPlaces names.old.items names.new.items }
{
    if !is_known(names.as_slice(), queue) {
        names.push(queue.clone()?)?;
    }
    Ok(())
}
