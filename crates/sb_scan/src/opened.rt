//! Open transactions, what they hold, and the log as each sees it.

ghost use Rattle.std.specs.Prelude.{◌≡◌, ◌==◌, ◌++◌, IfOk, find, map, option_copied, option_map};
ghost use Rattle.std.specs.List.{list_any};
ghost use Rattle.sb_model.specs.Sides.{same_id};
ghost use Rattle.sb_model.specs.Transactions.{find_open, holder, holds_other, is_free, view, with_ops};
ghost use Rattle.sb_scan.specs.Opened.{open_seen};

use sb_log::{Entry, GroupId, Groups, Listed, Name, Ops};
use std::alloc::{AllocError, Global};

/// A key of a table.
#[derive(Clone, Debug, Drop, PartialEq, Eq)]
pub struct Key {
    pub table: Name,
    pub key: i64,
}

/// Whose transaction it is.
#[derive(Clone, Debug, Drop, PartialEq, Eq)]
pub enum Owner {
    Session(u64),
    Reader { number: u64, queue: Name },
}

/// An open transaction.
#[derive(Debug, Drop, PartialEq, Eq)]
pub struct OpenTransaction {
    pub owner: Owner,
    pub tx: u64,
    pub ops: Ops,
    pub groups: Groups,
    pub keys: Listed<Key>,
    pub waits_for: Option<u64>,
}

fn find_open(opened: &[OpenTransaction], tx: u64) -> Option<&OpenTransaction>
    ensures { option_map open_seen (option_copied result) ≡ find_open (map open_seen opened.now) tx }
{
    for known in opened {
        if known.tx == tx {
            return Some(known);
        }
    }
    None
}

fn copied(alloc: Global, log: &[Entry]) -> Result<Vec<Entry>, AllocError>
    ensures { IfOk result (λ copy. copy.items ≡ log.now) }
{
    let mut copy = Vec::new(alloc);
    for entry in log {
        copy.push(entry.clone()?)?;
    }
    Ok(copy)
}

fn copied_operations(ops: &Ops) -> Result<Ops, AllocError>
    ensures { IfOk result (λ copy. copy ≡ ops.now) }
{
    ops.clone()
}

fn with_ops(alloc: Global, log: &[Entry], tx: u64, ops: &Ops) -> Result<Vec<Entry>, AllocError>
    ensures { IfOk result (λ seen. seen.items ≡ with_ops log.now tx ops.now) }
{
    let mut seen = copied(alloc, log)?;
    if ops.len() > 0 {
        let ops = copied_operations(ops)?;
        seen.push(Entry::Txn { tx, ops })?;
    }
    Ok(seen)
}

/// The log as the transaction sees it: with its operations so far.
pub fn view(
    alloc: Global,
    log: &[Entry],
    opened: &[OpenTransaction],
    tx: u64,
) -> Result<Vec<Entry>, AllocError>
    ensures { IfOk result (λ seen. seen.items ≡ view log.now (map open_seen opened.now) tx) }
{
    match find_open(opened, tx) {
        None => copied(alloc, log),
        Some(own) => with_ops(alloc, log, tx, &own.ops),
    }
}

fn lists(groups: &[GroupId], group: GroupId) -> bool
    ensures { result ≡ list_any (same_id group) groups.now }
{
    for listed in groups {
        if group == *listed {
            return true;
        }
    }
    false
}

fn holds_other(opened: &OpenTransaction, group: GroupId, tx: u64) -> bool
    ensures { result ≡ holds_other group tx (open_seen opened.now) }
{
    opened.tx != tx && lists(opened.groups.as_slice(), group)
}

/// The other open transaction that holds the group.
pub fn holder(opened: &[OpenTransaction], group: GroupId, tx: u64) -> Option<u64>
    ensures { result ≡ holder (map open_seen opened.now) group tx }
{
    for known in opened {
        if holds_other(known, group, tx) {
            return Some(known.tx);
        }
    }
    None
}

/// Whether no other open transaction holds the group.
pub fn is_free(opened: &[OpenTransaction], group: GroupId, tx: u64) -> bool
    ensures { result ≡ is_free (map open_seen opened.now) group tx }
{
    holder(opened, group, tx).is_none()
}
