//! Who may send by a contract.

ghost use Rattle.std.specs.Prelude.{◌≡◌, false, true, find, option_map};
ghost use Rattle.std.specs.List.{list_any};
ghost use Rattle.std.specs.Option.{option_map_or};
ghost use Rattle.sb_model.specs.Sides.{same_name};
ghost use Rattle.sb_model.specs.Catalog.{may_be_sent_by, sender_of};
ghost use Rattle.sb_model.specs.Definitions.{from_initiator};

use sb_log::{ContractDef, Name, Sender, SentBy};

pub(crate) fn may_be_sent_by(by: Sender, initiator: bool) -> bool
    ensures { result ≡ may_be_sent_by by initiator }
{
    match by {
        Sender::Initiator => initiator,
        Sender::Target => !initiator,
        Sender::Any => true,
    }
}

fn any_from_initiator(types: &[SentBy]) -> bool
    ensures { result ≡ list_any (λ sent. may_be_sent_by sent.by true) types.now }
{
    for sent in types {
        if may_be_sent_by(sent.by, true) {
            return true;
        }
    }
    false
}

/// Whether the initiator may send anything.
pub(crate) fn from_initiator(contract: &ContractDef) -> bool
    ensures { result ≡ from_initiator contract.now }
{
    any_from_initiator(contract.types.as_slice())
}

fn sender_among(types: &[SentBy], kind: &Name) -> Option<Sender>
    ensures { result ≡ option_map (λ sent. sent.by) (find (λ sent. same_name sent.kind kind.now) types.now) }
{
    for sent in types {
        if sent.kind == *kind {
            return Some(sent.by);
        }
    }
    None
}

/// Whether this end may send the type by the contract.
pub(crate) fn may_send(contract: &ContractDef, kind: &Name, initiator: bool) -> bool
    ensures { result ≡ option_map_or (λ by. may_be_sent_by by initiator) (sender_of contract.now kind.now) false }
{
    match sender_among(contract.types.as_slice(), kind) {
        None => false,
        Some(by) => may_be_sent_by(by, initiator),
    }
}
