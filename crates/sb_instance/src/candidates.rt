//! The items that a RECEIVE may take.

ghost use Rattle.std.specs.Prelude.{◌≡◌, ◌++◌, [], false, IfOk, OnErr, OnOk, map, slice_index_or};
ghost use Rattle.sb_model.specs.Pick.{candidates};
ghost use Rattle.sb_instance.specs.Candidates.{placed, placed_seen};
ghost use Rattle.sb_instance.specs.Untaken.{untaken};

use crate::facts::{Facts, facts_for, named_side};
use crate::marks::marks;
use sb_log::{Entry, Filter, GroupId, Handle, Name, SideId};
use sb_scan::{SeenItem, item_in};
use std::alloc::{AllocError, Global};

/// A waiting item with its side's handle, group and level.
#[derive(Clone, Copy, Drop)]
pub struct Candidate<'a> {
    pub item: SeenItem<'a>,
    pub handle: Handle,
    pub group: Option<GroupId>,
    pub level: u64,
}

/// The items that wait in the queue, which the filter admits, in the order of the log.
pub fn candidates<'a>(
    alloc: Global,
    log: &'a [Entry],
    queue: &Name,
    filter: Filter,
) -> Result<Vec<Candidate<'a>>, AllocError>
    ensures { IfOk result (λ found. map placed_seen found.items ≡ map (placed log.now) (candidates log.now [] 0 queue.now filter)) }
{
    let named = named_side(alloc, log, filter)?;
    let marks = marks(alloc, log)?;
    let mut known = Vec::new(alloc);
    let mut found = Vec::new(alloc);
    let mut number = 1;
    for entry in log {
        if let Some(item) = item_in(entry, number) {
            let facts = facts_for(log, queue, filter, named, &mut known, item.side)?;
            push_untaken(&mut found, marks.as_slice(), facts, item)?;
            number += 1;
        }
    }
    Ok(found)
}

fn push_untaken<'a>(
    found: &mut Vec<Candidate<'a>>,
    marks: &[bool],
    facts: Facts,
    item: SeenItem<'a>,
) -> Result<(), AllocError>
    ensures ok { OnOk result (found.new.items ≡ found.old.items ++ untaken marks.now facts item.entry) }
    ensures err { OnErr result (found.new.items ≡ found.old.items) }
{
    if facts.is_admitted && !is_marked(marks, item.number) {
        found.push(Candidate {
            item,
            handle: facts.handle,
            group: facts.group,
            level: facts.level,
        })?;
    }
    Ok(())
}

fn is_marked(marks: &[bool], number: u64) -> bool
    ensures { result ≡ slice_index_or marks.now number false }
{
    match marks.get(number as usize) {
        None => false,
        Some(mark) => *mark,
    }
}
