//! Definitions of one kind, found by their names.

ghost use Rattle.std.specs.Prelude.{◌≡◌, ◌+◌, ◌<◌, ◌≤◌, ◌++◌, [], ◌∷◌, None, OnOk, OnErr, IfOk, is_some, length, option_copied, string_bytes};
ghost use Rattle.sb_catalog.specs.Known.{with_on};
ghost use Rattle.sb_catalog.specs.Tables.{found};

use crate::named::Named;
use indexmap::IndexMap;
use sb_log::{Name, QueueDef};
use std::alloc::{AllocError, Global};
use std::marker::Model;

/// Definitions in the order in which they came, and the places of their names.
#[derive(Drop)]
pub(crate) struct ByName<D: Named + Drop> {
    defs: IndexMap<String, D>,
}

impl<D: Named + Drop> Model for ByName<D> {
    ghost use Rattle.std.specs.Prelude.{string_bytes};
    ghost use Rattle.indexmap.specs.IndexMap.{values, spare};
    ghost use Rattle.sb_catalog.specs.Tables.{StandByName, Table, table_code};

    ghost Value = { Table D };

    ghost coded = { table_code D.code };

    ghost view = { λ t. record { defs = values t.defs; room = spare t.defs } };

    ghost invariant = { λ t. StandByName string_bytes D.name_bytes t.defs.entries };
}

impl<D: Named + Drop> ByName<D> {
    pub(crate) fn new(alloc: Global) -> ByName<D>
        ensures { result.defs ≡ [] }
    {
        ByName {
            defs: IndexMap::new(alloc),
        }
    }

    pub(crate) fn len(&self) -> usize
        ensures { result ≡ length self.now.defs }
    {
        self.defs.len()
    }

    pub(crate) fn get(&self, name: &Name) -> Option<&D>
        ensures { option_copied result ≡ found D.name_bytes self.now.defs name.now }
    {
        self.defs.get(name.as_str())
    }

    pub(crate) fn has(&self, name: &Name) -> bool
        ensures { result ≡ is_some (found D.name_bytes self.now.defs name.now) }
    {
        self.get(name).is_some()
    }

    /// Makes room for one more.
    pub(crate) fn reserve(&mut self) -> Result<(), AllocError>
        ensures room { OnOk result (0 < self.new.room) }
        ensures more { self.old.room ≤ self.new.room }
        ensures kept { self.new.defs ≡ self.old.defs }
    {
        self.defs.reserve(1)
    }

    /// Adds one for which there is room, under its name.
    pub(crate) fn add(&mut self, key: String, def: D)
        requires room { 0 < self.old.room }
        requires key { string_bytes key ≡ D.name_bytes def }
        requires new { found D.name_bytes self.old.defs (D.name_bytes def) ≡ None }
        ensures { self.new.defs ≡ self.old.defs ++ def ∷ [] }
    {
        match self.defs.insert(key, def) {
            Ok(_) => {}
            Err(_) => unreachable!(),
        }
    }

    /// With this one alone.
    pub(crate) fn with(alloc: Global, key: String, def: D) -> Result<ByName<D>, AllocError>
        requires { string_bytes key ≡ D.name_bytes def }
        ensures { IfOk result (λ t. t.defs ≡ def ∷ []) }
    {
        let mut table = ByName::new(alloc);
        table.reserve()?;
        table.add(key, def);
        Ok(table)
    }
}

impl ByName<QueueDef> {
    /// The queue with this name is on or off from now on.
    pub(crate) fn set_on(&mut self, name: &Name, on: bool)
        ensures defs { self.new.defs ≡ with_on name.now on self.old.defs }
        ensures room { self.new.room ≡ self.old.room }
    {
        if let Some(def) = self.defs.get_mut(name.as_str()) {
            def.on = on;
        }
    }
}
