//! Priority levels.

ghost use Rattle.std.specs.Prelude.{◌≡◌, ◌∷◌, [], filter, flat_map, fold, nat_abs, option_copied};
ghost use Rattle.std.specs.List.{list_any};
ghost use Rattle.sb_model.specs.Sides.{before_made, is_of, made_by};
ghost use Rattle.sb_model.specs.Catalog.{ddl_of, definitions, priorities, priority_def};
ghost use Rattle.sb_model.specs.Matches.{admits, best_by, better};
ghost use Rattle.sb_model.specs.Groups.{fit, level_among, level_made, level_of, matches, own_service};
ghost use Rattle.sb_scan.specs.Seen.{making_of};

use crate::making::{MadeSide, made, made_in};
use crate::queue::own_end;
use crate::routing::far_service;
use sb_log::{Ddl, Entry, Name, PriorityDef, SideId, Text};

fn admits_name(own: &Option<Name>, name: &Name) -> bool
    ensures { result ≡ admits own.now name.now }
{
    match own {
        None => true,
        Some(named) => *named == *name,
    }
}

fn admits_text(own: &Option<Text>, name: &Name) -> bool
    ensures { result ≡ admits own.now name.now }
{
    match own {
        None => true,
        Some(text) => text.as_str() == name.as_str(),
    }
}

fn matches(def: &PriorityDef, contract: &Name, local: &Name, remote: &Name) -> bool
    ensures { result ≡ matches contract.now local.now remote.now def.now }
{
    admits_name(&def.contract, contract)
        && admits_name(&def.local, local)
        && admits_text(&def.remote, remote)
}

fn fit(def: &PriorityDef) -> u8
    ensures { result ≡ fit def.now }
{
    let contract = if def.contract.is_some() { 4 } else { 0 };
    let local = if def.local.is_some() { 2 } else { 0 };
    let remote = if def.remote.is_some() { 1 } else { 0 };
    contract + local + remote
}

fn better<'a>(best: Option<&'a PriorityDef>, def: &'a PriorityDef) -> Option<&'a PriorityDef>
    ensures { option_copied result ≡ better fit (option_copied best.entry) def.now }
{
    let Some(known) = best else {
        return Some(def);
    };
    let own = fit(def);
    let most = fit(known);
    if own == most {
        Some(known)
    } else if own.max(most) == own {
        Some(def)
    } else {
        Some(known)
    }
}

fn taken_up<'a>(
    best: Option<&'a PriorityDef>,
    entry: &'a Entry,
    contract: &Name,
    local: &Name,
    remote: &Name,
) -> Option<&'a PriorityDef>
    ensures { option_copied result ≡ fold (better fit) (option_copied best.entry) (filter (matches contract.now local.now remote.now) (flat_map priority_def (ddl_of entry.now))) }
{
    match entry {
        Entry::Defined(Ddl::Priority(def)) => {
            if matches(def, contract, local, remote) {
                better(best, def)
            } else {
                best
            }
        }
        _ => best,
    }
}

fn makes(entry: &Entry, side: SideId) -> bool
    ensures { result ≡ list_any (is_of side) (made_by entry.now) }
{
    made_in(entry, side).is_some()
}

#[tactic(auto, using(crate::proofs::Looking::folding))]
fn best_before<'a>(
    log: &'a [Entry],
    side: SideId,
    contract: &Name,
    local: &Name,
    remote: &Name,
) -> Option<&'a PriorityDef>
    ensures { option_copied result ≡ best_by fit (filter (matches contract.now local.now remote.now) (priorities (before_made log.now side))) }
{
    let mut best = None;
    for entry in log {
        if makes(entry, side) {
            return best;
        }
        best = taken_up(best, entry, contract, local, remote);
    }
    best
}

/// The level of a side that the log makes so.
pub fn level_made(log: &[Entry], made: MadeSide<'_>) -> u64
    ensures { result ≡ level_made log.now (making_of made.entry) }
{
    let header = made.header;
    let local = own_end(made.side, header);
    let remote = far_service(made.side, header);
    match best_before(log, made.side, &header.contract, local, remote) {
        None => 5,
        Some(def) => def.level.unsigned_abs(),
    }
}

/// The level of the side, fixed when it was made.
pub fn level_of(log: &[Entry], side: SideId) -> u64
    ensures { result ≡ level_of log.now side }
{
    match made(log, side) {
        None => 5,
        Some(found) => level_made(log, found),
    }
}
