//! The committed rows, and the keys that transactions hold.

ghost use Rattle.std.specs.Prelude.{◌≡◌, ◌+◌, ◌<◌, ◌≤◌, ℤ, Some, None, OnOk, OnErr, IfErr, option_copied};
ghost use Rattle.sb_model.specs.Sides.{Bytes};
ghost use Rattle.sb_rows.specs.RowsAndLocks.{row_in, lock_in, other_holder, nothing, room_for, Applies, KeepsOtherKeys};

use crate::by_key::ByKey;
use sb_log::{Name, Op, Row};
use std::alloc::{AllocError, Global};
use std::marker::Model;

/// Another transaction holds the key.
#[derive(Clone, Copy, Debug, PartialEq, Eq)]
pub struct RowHeld {
    pub by: u64,
}

/// The rows of all tables as they are committed, and the keys that open transactions hold.
/// A key may be held whether it has a row or not.
#[derive(Drop)]
pub struct Tables {
    rows: ByKey<Row>,
    locks: ByKey<u64>,
    // There is room for so many more of each.
    spare: usize,
}

impl Model for Tables {
    ghost use Rattle.sb_rows.specs.RowsAndLocks.{RowsAndLocks};

    ghost Value = { RowsAndLocks };

    ghost use Rattle.sb_rows.specs.Inside.{rows_and_locks, HasRoom};

    ghost view = { rows_and_locks };

    ghost invariant = { HasRoom };
}

impl Tables {
    pub fn new(alloc: Global) -> Tables
        ensures { result ≡ nothing }
    {
        Tables {
            rows: ByKey::new(alloc),
            locks: ByKey::new(alloc),
            spare: 0,
        }
    }

    /// The committed row of a table with this key.
    pub fn get(&self, table: &Name, key: i64) -> Option<&Row>
        ensures { option_copied result ≡ row_in self.now.rows table.now key }
    {
        self.rows.get(table, key)
    }

    /// The transaction that holds this key of the table.
    pub fn holder(&self, table: &Name, key: i64) -> Option<u64>
        ensures { result ≡ lock_in self.now.locks table.now key }
    {
        self.locks.get(table, key).copied()
    }

    /// Makes room for so many rows and so many locks, so that neither `lock` nor `apply`
    /// takes memory.
    pub fn reserve(&mut self, more: usize) -> Result<(), AllocError>
        ensures room { OnOk result (more ≤ self.new.spare) }
        ensures spare { self.old.spare ≤ self.new.spare }
        ensures rows { self.new.rows ≡ self.old.rows }
        ensures locks { self.new.locks ≡ self.old.locks }
    {
        self.rows.reserve(more)?;
        self.locks.reserve(more)?;
        self.spare = self.spare.max(more);
        Ok(())
    }

    /// Lets the transaction hold a key of a table, unless another one holds it.
    pub fn lock(&mut self, table: Name, key: i64, tx: u64) -> Result<(), RowHeld>
        requires { 0 < self.old.spare }
        ensures held { OnOk result (lock_in self.new.locks table key ≡ Some tx) }
        ensures others { OnOk result (KeepsOtherKeys table key self.old.locks self.new.locks) }
        ensures rows { self.new.rows ≡ self.old.rows }
        ensures spare { self.old.spare ≤ self.new.spare + 1 }

        // Whoever holds it already changes nothing.
        ensures again { lock_in self.old.locks table key ≡ Some tx → self.new ≡ self.old }

        // It is refused exactly where another transaction holds it.
        ensures free { OnOk result (other_holder tx (lock_in self.old.locks table key) ≡ None) }
        ensures refused { IfErr result (λ why. other_holder tx (lock_in self.old.locks table key) ≡ Some why.by) }
        ensures err { OnErr result (self.new ≡ self.old) }
    {
        match self.holder(&table, key) {
            Some(by) if by == tx => Ok(()),
            Some(by) => Err(RowHeld { by }),
            None => {
                self.hold(table, key, tx);
                Ok(())
            }
        }
    }

    /// Notes who holds a key.
    fn hold(&mut self, table: Name, key: i64, tx: u64)
        requires { 0 < self.old.spare }
        ensures held { lock_in self.new.locks table key ≡ Some tx }
        ensures others { KeepsOtherKeys table key self.old.locks self.new.locks }
        ensures rows { self.new.rows ≡ self.old.rows }
        ensures spare { self.old.spare ≤ self.new.spare + 1 }
    {
        self.locks.put(table, key, tx);
        self.spare -= 1;
    }

    /// Lets go of each key that the transaction holds. It goes over all that are held.
    pub fn unlock_all(&mut self, tx: u64)
        ensures locks { (t : Bytes) (k : ℤ) → lock_in self.new.locks t k ≡ other_holder tx (lock_in self.old.locks t k) }
        ensures rows { self.new.rows ≡ self.old.rows }
        ensures spare { self.old.spare ≤ self.new.spare }
    {
        self.locks.let_go(tx);
    }

    /// Does what a committed operation says of rows. Only a Put needs room.
    pub fn apply(&mut self, op: Op)
        requires { room_for op ≤ self.old.spare }
        ensures rows { Applies self.old.rows op self.new.rows }
        ensures locks { self.new.locks ≡ self.old.locks }
        ensures spare { self.old.spare ≤ self.new.spare + room_for op }
    {
        match op {
            Op::Put {
                table,
                key,
                n,
                body,
            } => {
                self.rows.put(table, key, Row { n, body });
                self.spare -= 1;
            }
            Op::Delete { table, key } => self.rows.remove(&table, key),
            _ => {}
        }
    }
}
