//! What a message that arrives needs of the catalog.

ghost use Rattle.std.specs.Prelude.{◌≡◌, is_none, option_copied, false};
ghost use Rattle.std.specs.Option.{option_map_or};
ghost use Rattle.std.specs.List.{list_any};
ghost use Rattle.sb_model.specs.Sides.{same_name};
ghost use Rattle.sb_model.specs.Acceptance.{is_empty_type};
ghost use Rattle.sb_catalog.specs.Here.{here, refuses_type};
ghost use Rattle.sb_catalog.specs.Known.{log_of};

use crate::catalog::Catalog;
use crate::senders::may_send;
use sb_log::{Content, ContractDef, Data, Name, ServiceDef};

fn is_among(names: &[Name], name: &Name) -> bool
    ensures { result ≡ list_any (same_name name.now) names.now }
{
    for listed in names {
        if *name == *listed {
            return true;
        }
    }
    false
}

fn offers(service: Option<&ServiceDef>, contract: &Name) -> bool
    ensures { result ≡ option_map_or (λ def. list_any (same_name contract.now) def.contracts) (option_copied service.entry) false }
{
    match service {
        None => false,
        Some(def) => is_among(def.contracts.as_slice(), contract),
    }
}

impl Catalog {
    fn is_empty_type(&self, name: &Name) -> bool
        ensures { result ≡ is_empty_type (log_of self.now) name.now }
    {
        match self.message_kind(name) {
            None => false,
            Some(def) => def.empty,
        }
    }

    fn refuses_type(&self, contract: &ContractDef, initiator: bool, content: &Content) -> bool
        ensures { result ≡ refuses_type (log_of self.now) contract.now initiator content.now }
    {
        match content {
            Content::App { kind, body } => {
                !may_send(contract, kind, initiator) || self.is_empty_type(kind) && body.is_some()
            }
            _ => false,
        }
    }

    /// The number of what the message lacks here: 3 the service on which it makes a side,
    /// 5 the contract, 6 leave to send its type; 0 where it lacks nothing. `made` is the
    /// queue of the side to which it goes, where that side is there.
    ///
    /// Whether that queue is on is asked apart: it comes behind 3 and before the others.
    pub fn here(&self, sent: &Data, made: Option<&Name>) -> u8
        ensures { result ≡ here (log_of self.now) sent.now (is_none made.entry) }
    {
        let makes = made.is_none();
        let service = self.service(&sent.header.to_service);
        if makes && service.is_none() {
            return 3;
        }
        let Some(contract) = self.contract(&sent.header.contract) else {
            return 5;
        };
        if makes && !offers(service, &sent.header.contract) {
            return 5;
        }
        if self.refuses_type(contract, sent.side.initiator, &sent.content) {
            6
        } else {
            0
        }
    }
}
