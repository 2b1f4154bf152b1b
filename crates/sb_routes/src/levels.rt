//! The best of some broker priorities.

ghost use Rattle.std.specs.Prelude.{◌≡◌, [], ◌∷◌, IsTrue, filter, fold, option_copied};
ghost use Rattle.sb_model.specs.Matches.{better};
ghost use Rattle.sb_model.specs.Groups.{fit, matches, priority_level};
ghost use Rattle.sb_routes.specs.Ways.{best_priority, has_level};

use crate::matching::{admits_name, admits_text, points};
use sb_log::{Name, PriorityDef};

fn matches(def: &PriorityDef, contract: &Name, local: &Name, remote: &Name) -> bool
    ensures { result ≡ matches contract.now local.now remote.now def.now }
{
    admits_name(&def.contract, contract)
        && admits_name(&def.local, local)
        && admits_text(&def.remote, remote)
}

fn rank(def: &PriorityDef) -> u8
    ensures { result ≡ fit def.now }
{
    points(&def.contract, 4) + points(&def.local, 2) + points(&def.remote, 1)
}

fn better<'a>(best: Option<&'a PriorityDef>, def: &'a PriorityDef) -> Option<&'a PriorityDef>
    ensures { option_copied result ≡ better fit (option_copied best.entry) def.now }
{
    match best {
        None => Some(def),
        Some(known) => if rank(known) < rank(def) {
            Some(def)
        } else {
            Some(known)
        },
    }
}

fn taken_up<'a>(
    best: Option<&'a PriorityDef>,
    def: &'a PriorityDef,
    contract: &Name,
    local: &Name,
    remote: &Name,
) -> Option<&'a PriorityDef>
    ensures { option_copied result ≡ fold (better fit) (option_copied best.entry) (filter (matches contract.now local.now remote.now) (def.now ∷ [])) }
{
    if matches(def, contract, local, remote) {
        better(best, def)
    } else {
        best
    }
}

/// The first of the best of these priorities.
pub(crate) fn best_priority<'a>(
    priorities: &'a [PriorityDef],
    contract: &Name,
    local: &Name,
    remote: &Name,
) -> Option<&'a PriorityDef>
    ensures { option_copied result ≡ best_priority priorities.now contract.now local.now remote.now }
{
    let mut best = None;
    for def in priorities {
        best = taken_up(best, def, contract, local, remote);
    }
    best
}

/// The level as a number.
pub(crate) fn level_number(def: &PriorityDef) -> u8
    requires { IsTrue (has_level def.now) }
    ensures { result ≡ priority_level def.now }
{
    def.level.unsigned_abs() as u8
}
