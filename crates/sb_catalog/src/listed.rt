//! Lists of names in a definition.

ghost use Rattle.std.specs.Prelude.{◌≡◌, [], map, option_map, List, ℕ};
ghost use Rattle.std.specs.List.{list_any};
ghost use Rattle.sb_log.specs.declared.refusals.Refusal.{Refusal};
ghost use Rattle.sb_model.specs.Sides.{same_name};
ghost use Rattle.sb_model.specs.Definitions.{listed};
ghost use Rattle.sb_catalog.specs.Seen.{fault_seen};
ghost use Rattle.sb_catalog.specs.Tables.{found};

use crate::by_name::ByName;
use crate::named::Named;
use sb_log::Name;

/// Why a list of names can't stand.
#[derive(Clone, Copy)]
pub(crate) enum Fault<'a> {
    /// It names this twice.
    Twice(&'a Name),
    /// No definition has this name.
    Missing(&'a Name),
}

fn is_listed<T: Named>(items: &[T], name: &Name) -> bool
    ensures { result ≡ list_any (same_name name.now) (map T.name_bytes items.now) }
{
    for item in items {
        if *name == *item.name() {
            return true;
        }
    }
    false
}

/// The first place of the list that can't stand.
pub(crate) fn first_fault<'a, T: Named, D: Named + Drop>(
    items: &'a [T],
    table: &ByName<D>,
) -> Option<Fault<'a>>
    ensures { (refuse : List ℕ → Refusal) → option_map (fault_seen refuse) result ≡ listed (found D.name_bytes table.now.defs) refuse [] (map T.name_bytes items.now) }
{
    for i in 0..items.len() {
        let name = items[i].name();
        if is_listed(&items[..i], name) {
            return Some(Fault::Twice(name));
        }
        if !table.has(name) {
            return Some(Fault::Missing(name));
        }
    }
    None
}
