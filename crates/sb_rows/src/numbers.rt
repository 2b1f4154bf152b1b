//! Tables' names, each with a number.

ghost use Rattle.std.specs.Prelude.{◌≡◌, ◌+◌, ◌<◌, ◌≤◌, [], Some, OnOk, position};
ghost use Rattle.sb_model.specs.Sides.{same_name};
ghost use Rattle.sb_rows.specs.Numbers.{with_name};

use indexmap::IndexSet;
use sb_log::Name;
use std::alloc::{AllocError, Global};
use std::marker::Model;

/// The names of tables; the number of a table is the place of its name. None is ever taken
/// out, since tables aren't either.
#[derive(Drop)]
pub(crate) struct TableNumbers {
    names: IndexSet<String>,
}

impl Model for TableNumbers {
    ghost use Rattle.std.specs.Prelude.{map, string_bytes};
    ghost use Rattle.indexmap.specs.IndexSet.{spare};
    ghost use Rattle.sb_rows.specs.Numbers.{Numbered};

    ghost Value = { Numbered };

    ghost view = { λ t. record { names = map string_bytes t.names.keys; room = spare t.names } };
}

impl TableNumbers {
    pub(crate) fn new(alloc: Global) -> TableNumbers
        ensures { result.names ≡ [] }
    {
        TableNumbers {
            names: IndexSet::new(alloc),
        }
    }

    pub(crate) fn number(&self, table: &Name) -> Option<usize>
        ensures { result ≡ position (same_name table.now) self.now.names }
    {
        self.names.get_index_of(table.as_str())
    }

    /// The number of the table, which gets one if it has none yet.
    pub(crate) fn number_or_new(&mut self, table: Name) -> usize
        requires { 0 < self.old.room }
        ensures number { position (same_name table) self.new.names ≡ Some result }
        ensures names { self.new.names ≡ with_name self.old.names table }
        ensures room { self.old.room ≤ self.new.room + 1 }
    {
        match self.names.insert_full(table.into_string()) {
            Ok((number, _)) => number,
            Err(_) => unreachable!(),
        }
    }

    pub(crate) fn reserve(&mut self, more: usize) -> Result<(), AllocError>
        ensures room { OnOk result (more ≤ self.new.room) }
        ensures kept { self.old.room ≤ self.new.room }
        ensures names { self.new.names ≡ self.old.names }
    {
        self.names.reserve(more)
    }
}
