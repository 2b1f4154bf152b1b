//! Values by table and key.

ghost use Rattle.std.specs.Prelude.{◌≡◌, ◌+◌, ◌<◌, ◌≤◌, ◌&&◌, if◌then◌else◌, not, ◌==◌, ℤ, [], Some, None, OnOk, option_copied};
ghost use Rattle.sb_model.specs.Rows.{same_int};
ghost use Rattle.sb_model.specs.Sides.{Bytes, same_name};
ghost use Rattle.sb_rows.specs.Keyed.{value_in};
ghost use Rattle.sb_rows.specs.RowsAndLocks.{other_holder};

use crate::numbers::TableNumbers;
use indexmap::IndexMap;
use sb_log::Name;
use std::alloc::{AllocError, Global};
use std::marker::Model;

/// At most one value for each table and key.
// A map by name and key is asked with a key that owns its name, which takes memory; a map of
// a table's own can't be given room before the table is known. So a number stands for the
// table: it is found by a borrowed text, and a number with a key is made without memory.
#[derive(Drop)]
pub(crate) struct ByKey<V: Drop> {
    numbers: TableNumbers,
    values: IndexMap<(usize, i64), V>,
}

impl<V: Drop> Model for ByKey<V> {
    ghost use Rattle.std.specs.Prelude.{map, min};
    ghost use Rattle.indexmap.specs.IndexMap.{spare};
    ghost use Rattle.sb_rows.specs.Keyed.{Keyed, keyed_code};
    ghost use Rattle.sb_rows.specs.ByNumber.{named, AreNumbered};

    ghost Value = { Keyed V };

    ghost coded = { keyed_code V.code };

    ghost view = { λ b. record { entries = map (named b.numbers.names) b.values.entries; room = min b.numbers.room (spare b.values) } };

    ghost invariant = { λ b. AreNumbered b.numbers.names b.values.entries };
}

impl<V: Drop> ByKey<V> {
    pub(crate) fn new(alloc: Global) -> ByKey<V>
        ensures { result.entries ≡ [] }
    {
        ByKey {
            numbers: TableNumbers::new(alloc),
            values: IndexMap::new(alloc),
        }
    }

    pub(crate) fn get(&self, table: &Name, key: i64) -> Option<&V>
        ensures { option_copied result ≡ value_in self.now.entries table.now key }
    {
        let number = self.numbers.number(table)?;
        self.values.get(&(number, key))
    }

    /// Makes room for so many more values.
    pub(crate) fn reserve(&mut self, more: usize) -> Result<(), AllocError>
        ensures room { OnOk result (more ≤ self.new.room) }
        ensures kept { self.old.room ≤ self.new.room }
        ensures entries { self.new.entries ≡ self.old.entries }
    {
        self.numbers.reserve(more)?;
        self.values.reserve(more)
    }

    /// Puts a value at a key, in the place of the one that was there.
    pub(crate) fn put(&mut self, table: Name, key: i64, value: V)
        requires { 0 < self.old.room }
        ensures values { (t : Bytes) (k : ℤ) → value_in self.new.entries t k ≡ (if same_name table t && same_int key k then Some value else value_in self.old.entries t k) }
        ensures room { self.old.room ≤ self.new.room + 1 }
    {
        let number = self.numbers.number_or_new(table);
        match self.values.insert((number, key), value) {
            Ok(_) => {}
            Err(_) => unreachable!(),
        }
    }

    /// Takes away the value at a key, if there is one.
    pub(crate) fn remove(&mut self, table: &Name, key: i64)
        ensures values { (t : Bytes) (k : ℤ) → value_in self.new.entries t k ≡ (if same_name table.now t && same_int key k then None else value_in self.old.entries t k) }
        ensures room { self.old.room ≤ self.new.room }
    {
        if let Some(number) = self.numbers.number(table) {
            self.values.swap_remove(&(number, key));
        }
    }
}

impl ByKey<u64> {
    /// Takes away each key that this transaction holds.
    pub(crate) fn let_go(&mut self, tx: u64)
        ensures values { (t : Bytes) (k : ℤ) → value_in self.new.entries t k ≡ other_holder tx (value_in self.old.entries t k) }
        ensures room { self.old.room ≤ self.new.room }
    {
        // `len` says that no key stands twice, which the proof cites.
        let _len = self.values.len();
        self.values.retain(
            |_place: &(usize, i64), by: &mut u64| -> bool
                ensures { (result ≡ not (by.old == tx)) × (by.new ≡ by.old) }
            { *by != tx },
        );
    }
}
