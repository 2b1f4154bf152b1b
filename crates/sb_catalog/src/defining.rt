//! Which definitions are refused.

ghost use Rattle.std.specs.Prelude.{◌≡◌, ◌⊎◌, ◌∷◌, Some, None, IsSome, IsTrue, OnOk, OnErr, IfErr, option_map};
ghost use Rattle.sb_log.specs.declared.definitions.Ddl.TheVariants.{Contract, MessageType, Priority, Procedure, Queue, Route, Service, Table};
ghost use Rattle.sb_log.specs.declared.refusals.Refusal.TheVariants.{OutOfMemory};
ghost use Rattle.sb_model.specs.Definitions.{define_refusal, first_refusal, is_system_type, own_refusal};
ghost use Rattle.sb_catalog.specs.Known.{is_new, log_of};
ghost use Rattle.sb_catalog.specs.Names.{priority_names};
ghost use Rattle.sb_catalog.specs.Seen.{refusal_seen};

use crate::catalog::Catalog;
use crate::listed::Fault;
use crate::refused::{Refused, refusal};
use crate::senders::from_initiator;
use crate::texts::{bad_readers, bad_text, is_level};
use sb_log::{
    ContractDef, Ddl, MessageDef, Name, PriorityDef, ProcedureDef, QueueDef, Refusal, RouteDef,
    ServiceDef, TableDef,
};

/// Whether it is one of the types of the broker's own messages.
fn is_system_type(name: &Name) -> bool
    ensures { result ≡ is_system_type name.now }
{
    let text = name.as_str();
    text == "http://schemas.microsoft.com/SQL/ServiceBroker/EndDialog"
        || text == "http://schemas.microsoft.com/SQL/ServiceBroker/Error"
        || text == "http://schemas.microsoft.com/SQL/ServiceBroker/DialogTimer"
}

impl Catalog {
    fn refuse_message_type<'a>(&self, def: &'a MessageDef) -> Option<Refused<'a>>
        ensures { option_map refusal_seen result ≡ first_refusal (own_refusal (log_of self.now) (MessageType def.now)) }
    {
        if self.has_type(&def.name) || is_system_type(&def.name) {
            Some(Refused::NameTaken(&def.name))
        } else {
            None
        }
    }

    fn refuse_contract<'a>(&self, def: &'a ContractDef) -> Option<Refused<'a>>
        ensures { option_map refusal_seen result ≡ first_refusal (own_refusal (log_of self.now) (Contract def.now)) }
    {
        if self.has_contract(&def.name) {
            return Some(Refused::NameTaken(&def.name));
        }
        match self.type_fault(def.types.as_slice()) {
            Some(Fault::Twice(name)) => Some(Refused::NameTaken(name)),
            Some(Fault::Missing(name)) => Some(Refused::NoMessageType(name)),
            None => {
                if from_initiator(def) {
                    None
                } else {
                    Some(Refused::NothingFromInitiator(&def.name))
                }
            }
        }
    }

    fn refuse_queue<'a>(&self, def: &'a QueueDef) -> Option<Refused<'a>>
        ensures { option_map refusal_seen result ≡ first_refusal (own_refusal (log_of self.now) (Queue def.now)) }
    {
        if self.has_queue(&def.name) {
            return Some(Refused::NameTaken(&def.name));
        }
        if let Some(activation) = &def.activation {
            if !self.has_procedure(&activation.procedure) {
                return Some(Refused::NoProcedure(&activation.procedure));
            }
        }
        bad_readers(&def.activation)
    }

    fn refuse_service<'a>(&self, def: &'a ServiceDef) -> Option<Refused<'a>>
        ensures { option_map refusal_seen result ≡ first_refusal (own_refusal (log_of self.now) (Service def.now)) }
    {
        if self.has_service(&def.name) {
            return Some(Refused::NameTaken(&def.name));
        }
        if !self.has_queue(&def.queue) {
            return Some(Refused::NoQueue(&def.queue));
        }
        match self.contract_fault(def.contracts.as_slice()) {
            Some(Fault::Twice(name)) => Some(Refused::NameTaken(name)),
            Some(Fault::Missing(name)) => Some(Refused::NoContract(name)),
            None => None,
        }
    }

    fn refuse_route<'a>(&self, def: &'a RouteDef) -> Option<Refused<'a>>
        ensures { option_map refusal_seen result ≡ first_refusal (own_refusal (log_of self.now) (Route def.now)) }
    {
        if self.has_route(&def.name) {
            return Some(Refused::NameTaken(&def.name));
        }
        bad_text(&def.service)
    }

    fn refuse_names<'a>(&self, def: &'a PriorityDef) -> Option<Refused<'a>>
        ensures { option_map refusal_seen result ≡ priority_names (log_of self.now) def.now }
    {
        if self.has_priority(&def.name) {
            return Some(Refused::NameTaken(&def.name));
        }
        if let Some(contract) = &def.contract {
            if !self.has_contract(contract) {
                return Some(Refused::NoContract(contract));
            }
        }
        if let Some(local) = &def.local {
            if !self.has_service(local) {
                return Some(Refused::NoService(local));
            }
        }
        None
    }

    fn refuse_priority<'a>(&self, def: &'a PriorityDef) -> Option<Refused<'a>>
        ensures { option_map refusal_seen result ≡ first_refusal (own_refusal (log_of self.now) (Priority def.now)) }
    {
        if let Some(why) = self.refuse_names(def) {
            return Some(why);
        }
        if let Some(why) = bad_text(&def.remote) {
            return Some(why);
        }
        if is_level(def.level) {
            None
        } else {
            Some(Refused::BadNumber(def.level))
        }
    }

    fn refuse_table<'a>(&self, def: &'a TableDef) -> Option<Refused<'a>>
        ensures { option_map refusal_seen result ≡ first_refusal (own_refusal (log_of self.now) (Table def.now)) }
    {
        if self.has_table(&def.name) {
            Some(Refused::NameTaken(&def.name))
        } else {
            None
        }
    }

    fn refuse_procedure<'a>(&self, def: &'a ProcedureDef) -> Option<Refused<'a>>
        ensures { option_map refusal_seen result ≡ first_refusal (own_refusal (log_of self.now) (Procedure def.now)) }
    {
        if self.has_procedure(&def.name) {
            Some(Refused::NameTaken(&def.name))
        } else {
            None
        }
    }

    fn refuse_own<'a>(&self, ddl: &'a Ddl) -> Option<Refused<'a>>
        ensures { option_map refusal_seen result ≡ first_refusal (own_refusal (log_of self.now) ddl.now) }
    {
        match ddl {
            Ddl::MessageType(def) => self.refuse_message_type(def),
            Ddl::Contract(def) => self.refuse_contract(def),
            Ddl::Queue(def) => self.refuse_queue(def),
            Ddl::Service(def) => self.refuse_service(def),
            Ddl::Route(def) => self.refuse_route(def),
            Ddl::Priority(def) => self.refuse_priority(def),
            Ddl::Table(def) => self.refuse_table(def),
            Ddl::Procedure(def) => self.refuse_procedure(def),
        }
    }

    fn refuse<'a>(&self, ddl: &'a Ddl) -> Option<Refused<'a>>
        ensures { option_map refusal_seen result ≡ define_refusal (log_of self.now) ddl.now }
    {
        match self.refuse_own(ddl) {
            Some(why) => Some(why),
            None => if self.is_full() {
                Some(Refused::TooMany)
            } else {
                None
            },
        }
    }

    /// Whether the definition may be made, or the first reason why not.
    ///
    /// Memory is wanted only for the name that a refusal shows.
    pub fn define(&self, ddl: &Ddl) -> Result<(), Refusal>
        ensures accepted { OnOk result (define_refusal (log_of self.now) ddl.now ≡ None) }
        ensures new { OnOk result (IsTrue (is_new (log_of self.now) ddl.now)) }
        ensures due { OnErr result (IsSome (define_refusal (log_of self.now) ddl.now)) }
        ensures refused { IfErr result (λ why. (why ≡ OutOfMemory) ⊎ (define_refusal (log_of self.now) ddl.now ≡ Some why)) }
    {
        match self.refuse(ddl) {
            None => Ok(()),
            Some(why) => Err(refusal(why)),
        }
    }
}
