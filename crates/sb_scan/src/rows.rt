//! Rows of tables.

ghost use Rattle.std.specs.Prelude.{◌≡◌, ◌&&◌, IfOk, fold, option_map};
ghost use Rattle.sb_model.specs.Sides.{ops_of_entry, same_name};
ghost use Rattle.sb_model.specs.Rows.{row_after, rows_of, same_int};
ghost use Rattle.sb_scan.specs.Rows.{row_seen};

use sb_log::{Entry, Name, Op, Row, Text};
use std::alloc::AllocError;

/// A row, as it stands in the log.
#[derive(Clone, Copy)]
pub struct SeenRow<'a> {
    pub n: Option<i64>,
    pub body: &'a Option<Text>,
}

impl SeenRow<'_> {
    /// A copy of the row.
    pub fn copied(self) -> Result<Row, AllocError>
        ensures { IfOk result (λ row. row ≡ row_seen self.entry) }
    {
        Ok(Row {
            n: self.n,
            body: self.body.clone()?,
        })
    }
}

fn is_key(own: &Name, own_key: i64, table: &Name, key: i64) -> bool
    ensures { result ≡ (same_name own.now table.now && same_int own_key key) }
{
    *own == *table && own_key == key
}

fn row_after<'a>(
    row: Option<SeenRow<'a>>,
    op: &'a Op,
    table: &Name,
    key: i64,
) -> Option<SeenRow<'a>>
    ensures { option_map row_seen result ≡ row_after table.now key (option_map row_seen row.entry) op.now }
{
    match op {
        Op::Put {
            table: own,
            key: own_key,
            n,
            body,
        } => {
            if is_key(own, *own_key, table, key) {
                Some(SeenRow { n: *n, body })
            } else {
                row
            }
        }
        Op::Delete {
            table: own,
            key: own_key,
        } => {
            if is_key(own, *own_key, table, key) {
                None
            } else {
                row
            }
        }
        _ => row,
    }
}

fn row_behind<'a>(
    row: Option<SeenRow<'a>>,
    ops: &'a [Op],
    table: &Name,
    key: i64,
) -> Option<SeenRow<'a>>
    ensures { option_map row_seen result ≡ fold (row_after table.now key) (option_map row_seen row.entry) ops.now }
{
    let mut last = row;
    for op in ops {
        last = row_after(last, op, table, key);
    }
    last
}

fn row_in<'a>(
    row: Option<SeenRow<'a>>,
    entry: &'a Entry,
    table: &Name,
    key: i64,
) -> Option<SeenRow<'a>>
    ensures { option_map row_seen result ≡ fold (row_after table.now key) (option_map row_seen row.entry) (ops_of_entry entry.now) }
{
    match entry {
        Entry::Txn { ops, .. } => row_behind(row, ops.as_slice(), table, key),
        _ => row,
    }
}

/// The row of the key: that of its last put, unless a delete stands after it.
#[tactic(auto, using(crate::proofs::Looking::folding))]
pub fn rows_of<'a>(log: &'a [Entry], table: &Name, key: i64) -> Option<SeenRow<'a>>
    ensures { option_map row_seen result ≡ rows_of log.now table.now key }
{
    let mut last = None;
    for entry in log {
        last = row_in(last, entry, table, key);
    }
    last
}
