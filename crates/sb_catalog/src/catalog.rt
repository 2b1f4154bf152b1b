//! The catalog of an instance.

ghost use Rattle.std.specs.Prelude.{◌≡◌, ◌∷◌, [], Some, None, IsSome, IsTrue, IfOk, OnOk, OnErr, find, is_some, map, nat_le, length, option_copied, option_map, string_bytes};
ghost use Rattle.sb_log.specs.Names.{is_name};
ghost use Rattle.sb_log.specs.declared.refusals.Refusal.{Refusal};
ghost use Rattle.sb_model.specs.Sides.{Bytes, same_name};
ghost use Rattle.sb_model.specs.Definitions.{listed};
ghost use Rattle.sb_model.specs.Catalog.{auto_route, default_contract, default_type, definitions, find_contract, find_message_type, find_procedure, find_queue, find_service, find_table, priorities, routes};
ghost use Rattle.sb_catalog.specs.Kinds.{kind_of, name_of};
ghost use Rattle.sb_catalog.specs.Known.{defined, is_new, log_of, nothing, ready_for, told};
ghost use Rattle.sb_catalog.specs.Seen.{fault_seen};

use crate::by_name::ByName;
use crate::kinds::{Kind, kind_of, name_of};
use crate::listed::{Fault, first_fault};
use sb_log::{
    ContractDef, Ddl, Listed, MessageDef, Name, PriorityDef, ProcedureDef, QueueDef, RouteDef,
    Sender, SentBy, ServiceDef, TableDef,
};
use std::alloc::{AllocError, Global};
use std::marker::Model;

/// Room for one more definition.
#[derive(Drop)]
pub(crate) struct Ready {
    kind: Kind,
    // A copy of its name, to find it by.
    name: String,
}

/// The definitions of an instance, each found by its kind and its name.
///
/// The message type and contract DEFAULT and the route AutoCreatedLocal are there from
/// the start. Nothing is ever taken out.
#[derive(Drop)]
pub struct Catalog {
    message_types: ByName<MessageDef>,
    contracts: ByName<ContractDef>,
    queues: ByName<QueueDef>,
    services: ByName<ServiceDef>,
    routes: ByName<RouteDef>,
    priorities: ByName<PriorityDef>,
    tables: ByName<TableDef>,
    procedures: ByName<ProcedureDef>,
    ready: Option<Ready>,
}

impl Model for Catalog {
    ghost use Rattle.sb_catalog.specs.Known.{Known};

    ghost Value = { Known };

    ghost use Rattle.sb_catalog.specs.Inside.{known, IsSound};

    ghost view = { known };

    ghost invariant = { IsSound };
}

fn built_in_name(alloc: Global, text: &str) -> Result<Name, AllocError>
    requires { IsTrue (is_name text.now) }
    ensures { IfOk result (λ name. name ≡ text.now) }
{
    let text = String::from_str(alloc, text)?;
    Ok(Name::from_string(text))
}

fn copied_name(name: &Name) -> Result<String, AllocError>
    ensures { IfOk result (λ text. string_bytes text ≡ name.now) }
{
    let copy = name.clone()?;
    Ok(copy.into_string())
}

fn default_types(alloc: Global) -> Result<ByName<MessageDef>, AllocError>
    ensures { IfOk result (λ t. t.defs ≡ default_type ∷ []) }
{
    let name = built_in_name(alloc, "DEFAULT")?;
    let key = copied_name(&name)?;
    ByName::with(alloc, key, MessageDef { name, empty: false })
}

fn default_contracts(alloc: Global) -> Result<ByName<ContractDef>, AllocError>
    ensures { IfOk result (λ t. t.defs ≡ default_contract ∷ []) }
{
    let name = built_in_name(alloc, "DEFAULT")?;
    let key = copied_name(&name)?;
    let mut types = Listed::new(alloc);
    types.push(SentBy {
        kind: name.clone()?,
        by: Sender::Any,
    })?;
    ByName::with(alloc, key, ContractDef { name, types })
}

fn auto_routes(alloc: Global) -> Result<ByName<RouteDef>, AllocError>
    ensures { IfOk result (λ t. t.defs ≡ auto_route ∷ []) }
{
    let name = built_in_name(alloc, "AutoCreatedLocal")?;
    let key = copied_name(&name)?;
    let route = RouteDef {
        name,
        service: None,
        instance: None,
        to: None,
    };
    ByName::with(alloc, key, route)
}

impl Catalog {
    /// What is built in, and nothing else.
    pub fn new(alloc: Global) -> Result<Catalog, AllocError>
        ensures { IfOk result (λ catalog. catalog ≡ nothing) }
    {
        Ok(Catalog {
            message_types: default_types(alloc)?,
            contracts: default_contracts(alloc)?,
            queues: ByName::new(alloc),
            services: ByName::new(alloc),
            routes: auto_routes(alloc)?,
            priorities: ByName::new(alloc),
            tables: ByName::new(alloc),
            procedures: ByName::new(alloc),
            ready: None,
        })
    }

    /// The message type with this name.
    pub fn message_kind(&self, name: &Name) -> Option<&MessageDef>
        ensures { option_copied result ≡ find_message_type (log_of self.now) name.now }
    {
        self.message_types.get(name)
    }

    /// The contract with this name.
    pub fn contract(&self, name: &Name) -> Option<&ContractDef>
        ensures { option_copied result ≡ find_contract (log_of self.now) name.now }
    {
        self.contracts.get(name)
    }

    /// The queue with this name, on as it was told last, else as it was defined.
    pub fn queue(&self, name: &Name) -> Option<&QueueDef>
        ensures { option_copied result ≡ find_queue (log_of self.now) name.now }
    {
        self.queues.get(name)
    }

    /// The service with this name.
    pub fn service(&self, name: &Name) -> Option<&ServiceDef>
        ensures { option_copied result ≡ find_service (log_of self.now) name.now }
    {
        self.services.get(name)
    }

    /// The procedure with this name.
    pub fn procedure(&self, name: &Name) -> Option<&ProcedureDef>
        ensures { option_copied result ≡ find_procedure (log_of self.now) name.now }
    {
        self.procedures.get(name)
    }

    /// The table with this name.
    pub fn table(&self, name: &Name) -> Option<&TableDef>
        ensures { option_copied result ≡ find_table (log_of self.now) name.now }
    {
        self.tables.get(name)
    }

    pub(crate) fn has_type(&self, name: &Name) -> bool
        ensures { result ≡ is_some (find_message_type (log_of self.now) name.now) }
    {
        self.message_types.has(name)
    }

    pub(crate) fn has_contract(&self, name: &Name) -> bool
        ensures { result ≡ is_some (find_contract (log_of self.now) name.now) }
    {
        self.contracts.has(name)
    }

    pub(crate) fn has_queue(&self, name: &Name) -> bool
        ensures { result ≡ is_some (find_queue (log_of self.now) name.now) }
    {
        self.queues.has(name)
    }

    pub(crate) fn has_service(&self, name: &Name) -> bool
        ensures { result ≡ is_some (find_service (log_of self.now) name.now) }
    {
        self.services.has(name)
    }

    pub(crate) fn has_route(&self, name: &Name) -> bool
        ensures { result ≡ is_some (find (λ r. same_name r.name name.now) (routes (log_of self.now))) }
    {
        self.routes.has(name)
    }

    pub(crate) fn has_priority(&self, name: &Name) -> bool
        ensures { result ≡ is_some (find (λ r. same_name r.name name.now) (priorities (log_of self.now))) }
    {
        self.priorities.has(name)
    }

    pub(crate) fn has_table(&self, name: &Name) -> bool
        ensures { result ≡ is_some (find_table (log_of self.now) name.now) }
    {
        self.tables.has(name)
    }

    pub(crate) fn has_procedure(&self, name: &Name) -> bool
        ensures { result ≡ is_some (find_procedure (log_of self.now) name.now) }
    {
        self.procedures.has(name)
    }

    /// The first place of a contract's list that can't stand.
    pub(crate) fn type_fault<'a>(&self, types: &'a [SentBy]) -> Option<Fault<'a>>
        ensures { (refuse : Bytes → Refusal) → option_map (fault_seen refuse) result ≡ listed (find_message_type (log_of self.now)) refuse [] (map (λ sent. sent.kind) types.now) }
    {
        first_fault(types, &self.message_types)
    }

    /// The first place of a service's list that can't stand.
    pub(crate) fn contract_fault<'a>(&self, names: &'a [Name]) -> Option<Fault<'a>>
        ensures { (refuse : Bytes → Refusal) → option_map (fault_seen refuse) result ≡ listed (find_contract (log_of self.now)) refuse [] names.now }
    {
        first_fault(names, &self.contracts)
    }

    /// Whether there are 4,096 definitions beside those that are built in.
    pub(crate) fn is_full(&self) -> bool
        ensures { result ≡ nat_le 4096 (length (definitions (log_of self.now))) }
    {
        let dialogs = self
            .message_types
            .len()
            .saturating_add(self.contracts.len());
        let ends = self.queues.len().saturating_add(self.services.len());
        let ways = self.routes.len().saturating_add(self.priorities.len());
        let others = self.tables.len().saturating_add(self.procedures.len());
        let count = dialogs
            .saturating_add(ends)
            .saturating_add(ways)
            .saturating_add(others);
        // DEFAULT twice and AutoCreatedLocal don't count.
        4096 + 3 <= count
    }

    /// Whether no definition of its kind has its name.
    pub fn is_new(&self, ddl: &Ddl) -> bool
        ensures { result ≡ is_new (log_of self.now) ddl.now }
    {
        match ddl {
            Ddl::MessageType(def) => !self.has_type(&def.name),
            Ddl::Contract(def) => !self.has_contract(&def.name),
            Ddl::Queue(def) => !self.has_queue(&def.name),
            Ddl::Service(def) => !self.has_service(&def.name),
            Ddl::Route(def) => !self.has_route(&def.name),
            Ddl::Priority(def) => !self.has_priority(&def.name),
            Ddl::Table(def) => !self.has_table(&def.name),
            Ddl::Procedure(def) => !self.has_procedure(&def.name),
        }
    }

    /// Makes room for a definition of this kind and name, so that `apply` takes no memory.
    /// There is room for one at a time.
    pub fn reserve(&mut self, ddl: &Ddl) -> Result<(), AllocError>
        ensures ready { OnOk result (self.new ≡ ready_for self.old (Some (kind_of ddl.now, name_of ddl.now))) }
        ensures failed { OnErr result (self.new ≡ self.old) }
    {
        let name = copied_name(name_of(ddl))?;
        let kind = kind_of(ddl);
        match kind {
            Kind::MessageType => self.message_types.reserve()?,
            Kind::Contract => self.contracts.reserve()?,
            Kind::Queue => self.queues.reserve()?,
            Kind::Service => self.services.reserve()?,
            Kind::Route => self.routes.reserve()?,
            Kind::Priority => self.priorities.reserve()?,
            Kind::Table => self.tables.reserve()?,
            Kind::Procedure => self.procedures.reserve()?,
        }
        self.ready = Some(Ready { kind, name });
        Ok(())
    }

    /// Takes up a definition for which there is room, and whose name is new in its kind.
    pub fn apply(&mut self, ddl: Ddl)
        requires ready { self.old.ready ≡ Some (kind_of ddl, name_of ddl) }
        requires new { IsTrue (is_new (log_of self.old) ddl) }
        ensures { self.new ≡ defined (ready_for self.old None) ddl }
    {
        let Some(Ready { name, .. }) = self.ready.take() else {
            unreachable!()
        };
        match ddl {
            Ddl::MessageType(def) => self.message_types.add(name, def),
            Ddl::Contract(def) => self.contracts.add(name, def),
            Ddl::Queue(def) => self.queues.add(name, def),
            Ddl::Service(def) => self.services.add(name, def),
            Ddl::Route(def) => self.routes.add(name, def),
            Ddl::Priority(def) => self.priorities.add(name, def),
            Ddl::Table(def) => self.tables.add(name, def),
            Ddl::Procedure(def) => self.procedures.add(name, def),
        }
    }

    /// Tells that a queue, which is defined, is on or off from now on.
    pub fn set_queue(&mut self, queue: &Name, on: bool)
        requires { IsSome (find_queue (log_of self.old) queue.now) }
        ensures { self.new ≡ told self.old queue.now on }
    {
        self.queues.set_on(queue, on);
    }
}
