//! Definitions, and a catalog of some.

ghost use Rattle.std.specs.Prelude.{◌≡◌, Some, IsTrue};
ghost use Rattle.std.specs.Bool.{OnTrue};
ghost use Rattle.sb_catalog.specs.Kinds.{kind_of, name_of};
ghost use Rattle.sb_catalog.specs.Known.{is_new, log_of};

use crate::Catalog;
use sb_log::{
    Activation, ContractDef, Ddl, Listed, MessageDef, Name, Names, PriorityDef, ProcedureDef,
    QueueDef, RouteDef, Sender, SentBy, SentBys, ServiceDef, TableDef, Text,
};
use std::alloc::Global;
use std::process::Abort;
use std::test::Fail;

pub(super) fn name(alloc: Global, text: &str) -> Result<Name, Fail> {
    Ok(Name::new(alloc, text)?)
}

fn optional_name(alloc: Global, text: &str) -> Result<Option<Name>, Fail> {
    if text.is_empty() {
        Ok(None)
    } else {
        Ok(Some(name(alloc, text)?))
    }
}

fn text(alloc: Global, text: &str) -> Result<Text, Fail> {
    Ok(Text::from_string(String::from_str(alloc, text)?))
}

pub(super) fn message_def(alloc: Global, own: &str, empty: bool) -> Result<MessageDef, Fail> {
    let name = name(alloc, own)?;
    Ok(MessageDef { name, empty })
}

fn add_type(alloc: Global, types: &mut SentBys, kind: &str, by: Sender) -> Result<(), Fail> {
    let kind = name(alloc, kind)?;
    types.push(SentBy { kind, by })?;
    Ok(())
}

fn types_of(alloc: Global, types: [(&str, Sender); 2]) -> Result<SentBys, Fail> {
    let [first, second] = types;
    let mut sent = Listed::new(alloc);
    add_type(alloc, &mut sent, first.0, first.1)?;
    add_type(alloc, &mut sent, second.0, second.1)?;
    Ok(sent)
}

pub(super) fn contract_def(
    alloc: Global,
    own: &str,
    types: [(&str, Sender); 2],
) -> Result<ContractDef, Fail> {
    let types = types_of(alloc, types)?;
    let name = name(alloc, own)?;
    Ok(ContractDef { name, types })
}

fn activation(alloc: Global, procedure: &str, readers: i64) -> Result<Option<Activation>, Fail> {
    if procedure.is_empty() {
        return Ok(None);
    }
    let procedure = name(alloc, procedure)?;
    Ok(Some(Activation {
        on: true,
        procedure,
        readers,
    }))
}

/// A queue that is on, with no activation where the procedure has no name.
pub(super) fn queue_def(
    alloc: Global,
    own: &str,
    procedure: &str,
    readers: i64,
) -> Result<QueueDef, Fail> {
    let activation = activation(alloc, procedure, readers)?;
    let name = name(alloc, own)?;
    Ok(QueueDef {
        name,
        on: true,
        poison: true,
        activation,
    })
}

fn names_of(alloc: Global, names: [&str; 2]) -> Result<Names, Fail> {
    let [first, second] = names;
    let mut listed = Listed::new(alloc);
    listed.push(name(alloc, first)?)?;
    listed.push(name(alloc, second)?)?;
    Ok(listed)
}

pub(super) fn service_def(
    alloc: Global,
    own: &str,
    queue: &str,
    contracts: [&str; 2],
) -> Result<ServiceDef, Fail> {
    let contracts = names_of(alloc, contracts)?;
    let queue = name(alloc, queue)?;
    let name = name(alloc, own)?;
    Ok(ServiceDef {
        name,
        queue,
        contracts,
    })
}

pub(super) fn route_def(alloc: Global, own: &str, service: &str) -> Result<RouteDef, Fail> {
    let service = Some(text(alloc, service)?);
    let name = name(alloc, own)?;
    Ok(RouteDef {
        name,
        service,
        instance: None,
        to: None,
    })
}

/// A priority of a contract and a local service where these have names.
pub(super) fn priority_def(
    alloc: Global,
    own: &str,
    ends: [&str; 3],
    level: i64,
) -> Result<PriorityDef, Fail> {
    let [contract, local, remote] = ends;
    let contract = optional_name(alloc, contract)?;
    let local = optional_name(alloc, local)?;
    let remote = Some(text(alloc, remote)?);
    let name = name(alloc, own)?;
    Ok(PriorityDef {
        name,
        contract,
        local,
        remote,
        level,
    })
}

pub(super) fn table_def(alloc: Global, own: &str) -> Result<TableDef, Fail> {
    let name = name(alloc, own)?;
    Ok(TableDef { name })
}

pub(super) fn procedure_def(alloc: Global, own: &str) -> Result<ProcedureDef, Fail> {
    let text = text(alloc, "AS RETURN")?;
    let name = name(alloc, own)?;
    Ok(ProcedureDef { name, text })
}

fn has_room(catalog: &mut Catalog, ddl: &Ddl) -> bool
    ensures { OnTrue result (catalog.new.ready ≡ Some (kind_of ddl.now, name_of ddl.now)) }
{
    catalog.reserve(ddl).is_ok()
}

fn is_accepted(catalog: &Catalog, ddl: &Ddl) -> bool
    ensures { OnTrue result (IsTrue (is_new (log_of catalog.now) ddl.now)) }
{
    catalog.define(ddl).is_ok()
}

/// Takes up a definition that isn't refused.
pub(super) fn add(rt: &impl Abort, catalog: &mut Catalog, ddl: Ddl) {
    assert!(rt; has_room(catalog, &ddl));
    assert!(rt; is_accepted(catalog, &ddl));
    catalog.apply(ddl);
}

/// Types X and Y, of which Y has no body.
fn add_types(rt: &impl Abort, alloc: Global, catalog: &mut Catalog) -> Result<(), Fail> {
    let with_body = message_def(alloc, "X", false)?;
    add(rt, catalog, Ddl::MessageType(with_body));
    let empty = message_def(alloc, "Y", true)?;
    add(rt, catalog, Ddl::MessageType(empty));
    Ok(())
}

/// A contract by which each end may send X, and the initiator Y.
fn add_contract(
    rt: &impl Abort,
    alloc: Global,
    catalog: &mut Catalog,
    own: &str,
) -> Result<(), Fail> {
    let types = [("X", Sender::Any), ("Y", Sender::Initiator)];
    let contract = contract_def(alloc, own, types)?;
    add(rt, catalog, Ddl::Contract(contract));
    Ok(())
}

/// The procedure P, the queue Q and the service S of C and DEFAULT.
fn add_service(rt: &impl Abort, alloc: Global, catalog: &mut Catalog) -> Result<(), Fail> {
    let procedure = procedure_def(alloc, "P")?;
    add(rt, catalog, Ddl::Procedure(procedure));
    let queue = queue_def(alloc, "Q", "", 0)?;
    add(rt, catalog, Ddl::Queue(queue));
    let service = service_def(alloc, "S", "Q", ["C", "DEFAULT"])?;
    add(rt, catalog, Ddl::Service(service));
    Ok(())
}

/// The route R, the priority N and the table T.
fn add_others(rt: &impl Abort, alloc: Global, catalog: &mut Catalog) -> Result<(), Fail> {
    let route = route_def(alloc, "R", "Far")?;
    add(rt, catalog, Ddl::Route(route));
    let priority = priority_def(alloc, "N", ["C", "S", "Far"], 7)?;
    add(rt, catalog, Ddl::Priority(priority));
    let table = table_def(alloc, "T")?;
    add(rt, catalog, Ddl::Table(table));
    Ok(())
}

/// Types X and Y, contracts C and D of both, the procedure P, the queue Q, the service S of
/// C and DEFAULT, a route R, a priority N and a table T.
fn fill(rt: &impl Abort, alloc: Global, catalog: &mut Catalog) -> Result<(), Fail> {
    add_types(rt, alloc, catalog)?;
    add_contract(rt, alloc, catalog, "C")?;
    add_contract(rt, alloc, catalog, "D")?;
    add_service(rt, alloc, catalog)?;
    add_others(rt, alloc, catalog)
}

/// A function of its own, since each that lets go of a catalog is dear to prove.
pub(super) fn let_go(_catalog: Catalog) {}

pub(super) fn example(rt: &impl Abort, alloc: Global) -> Result<Catalog, Fail> {
    let mut catalog = Catalog::new(alloc)?;
    match fill(rt, alloc, &mut catalog) {
        Ok(()) => Ok(catalog),
        Err(why) => {
            let_go(catalog);
            Err(why)
        }
    }
}
