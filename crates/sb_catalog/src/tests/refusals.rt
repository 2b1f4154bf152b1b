//! Each refusal with a definition that meets it and one that just doesn't.

use crate::Catalog;
use crate::tests::made::{
    contract_def, example, let_go, message_def, priority_def, procedure_def, queue_def, route_def,
    service_def, table_def,
};
use sb_log::{Ddl, Refusal, RouteDef, Sender};
use std::alloc::Global;
use std::process::Abort;
use std::test::Fail;

/// The answer, with the definition let go.
fn asked(catalog: &Catalog, ddl: Ddl) -> Result<(), Refusal> {
    catalog.define(&ddl)
}

fn text_of(alloc: Global, why: Refusal) -> Result<String, Fail> {
    Ok(format!(in alloc; "{why}")?)
}

/// `ok`, or the refusal as a transcript shows it.
fn shown(alloc: Global, outcome: Result<(), Refusal>) -> Result<String, Fail> {
    match outcome {
        Ok(()) => Ok(String::from_str(alloc, "ok")?),
        Err(why) => text_of(alloc, why),
    }
}

/// Compares what the definition is answered with.
pub(super) fn answers(
    rt: &impl Abort,
    alloc: Global,
    catalog: &Catalog,
    ddl: Ddl,
    wanted: &str,
) -> Result<(), Fail> {
    let outcome = asked(catalog, ddl);
    let answer = shown(alloc, outcome)?;
    assert_eq!(rt; answer.as_str(), wanted);
    Ok(())
}

fn ask_types(rt: &impl Abort, alloc: Global, catalog: &Catalog) -> Result<(), Fail> {
    for (own, wanted) in [
        ("DEFAULT", "7 NameTaken [DEFAULT]"),
        ("X", "7 NameTaken [X]"),
        ("C", "ok"),
    ] {
        let def = message_def(alloc, own, false)?;
        answers(rt, alloc, catalog, Ddl::MessageType(def), wanted)?;
    }
    Ok(())
}

#[test]
fn types_are_refused(rt: HostRuntime) -> Result<(), Fail> {
    let catalog = example(&rt, rt.alloc())?;
    let outcome = ask_types(&rt, rt.alloc(), &catalog);
    let_go(catalog);
    outcome
}

/// Whether a type may be made whose name is the broker's own words and this one.
fn system_type(alloc: Global, catalog: &Catalog, word: &str) -> Result<bool, Fail> {
    let own = format!(in alloc; "http://schemas.microsoft.com/SQL/ServiceBroker/{word}")?;
    let def = message_def(alloc, own.as_str(), false)?;
    Ok(asked(catalog, Ddl::MessageType(def)).is_ok())
}

fn ask_system_types(rt: &impl Abort, alloc: Global, catalog: &Catalog) -> Result<(), Fail> {
    for (word, wanted) in [
        ("EndDialog", false),
        ("Error", false),
        ("DialogTimer", false),
        ("Dialog", true),
    ] {
        let is_accepted = system_type(alloc, catalog, word)?;
        assert_eq!(rt; is_accepted, wanted, "{word}");
    }
    Ok(())
}

#[test]
fn system_types_are_refused(rt: HostRuntime) -> Result<(), Fail> {
    let catalog = example(&rt, rt.alloc())?;
    let outcome = ask_system_types(&rt, rt.alloc(), &catalog);
    let_go(catalog);
    outcome
}

/// The first place of the list decides, then who may send.
fn ask_contracts(rt: &impl Abort, alloc: Global, catalog: &Catalog) -> Result<(), Fail> {
    for (own, types, wanted) in [
        (
            "DEFAULT",
            [("X", Sender::Any), ("Y", Sender::Any)],
            "7 NameTaken [DEFAULT]",
        ),
        (
            "C",
            [("X", Sender::Any), ("Y", Sender::Any)],
            "7 NameTaken [C]",
        ),
        (
            "E",
            [("X", Sender::Target), ("X", Sender::Any)],
            "7 NameTaken [X]",
        ),
        (
            "E",
            [("Z", Sender::Any), ("Z", Sender::Any)],
            "8 NoMessageType [Z]",
        ),
        (
            "E",
            [("X", Sender::Target), ("Y", Sender::Target)],
            "14 NothingFromInitiator [E]",
        ),
        ("E", [("X", Sender::Target), ("Y", Sender::Initiator)], "ok"),
        ("X", [("X", Sender::Target), ("DEFAULT", Sender::Any)], "ok"),
    ] {
        let def = contract_def(alloc, own, types)?;
        answers(rt, alloc, catalog, Ddl::Contract(def), wanted)?;
    }
    Ok(())
}

#[test]
fn contracts_are_refused(rt: HostRuntime) -> Result<(), Fail> {
    let catalog = example(&rt, rt.alloc())?;
    let outcome = ask_contracts(&rt, rt.alloc(), &catalog);
    let_go(catalog);
    outcome
}

fn ask_queues(rt: &impl Abort, alloc: Global, catalog: &Catalog) -> Result<(), Fail> {
    for (own, procedure, readers, wanted) in [
        ("Q", "none", -1, "7 NameTaken [Q]"),
        ("U", "none", -1, "11 NoProcedure [none]"),
        ("U", "P", -1, "23 BadNumber -1"),
        ("U", "P", 0, "ok"),
        ("U", "P", 32767, "ok"),
        ("U", "P", 32768, "23 BadNumber 32768"),
        ("S", "", 0, "ok"),
    ] {
        let def = queue_def(alloc, own, procedure, readers)?;
        answers(rt, alloc, catalog, Ddl::Queue(def), wanted)?;
    }
    Ok(())
}

#[test]
fn queues_are_refused(rt: HostRuntime) -> Result<(), Fail> {
    let catalog = example(&rt, rt.alloc())?;
    let outcome = ask_queues(&rt, rt.alloc(), &catalog);
    let_go(catalog);
    outcome
}

fn ask_services(rt: &impl Abort, alloc: Global, catalog: &Catalog) -> Result<(), Fail> {
    for (own, queue, contracts, wanted) in [
        ("S", "none", ["none", "none"], "7 NameTaken [S]"),
        ("V", "none", ["none", "none"], "10 NoQueue [none]"),
        ("V", "Q", ["C", "none"], "9 NoContract [none]"),
        ("V", "Q", ["C", "C"], "7 NameTaken [C]"),
        ("Q", "Q", ["DEFAULT", "C"], "ok"),
    ] {
        let def = service_def(alloc, own, queue, contracts)?;
        answers(rt, alloc, catalog, Ddl::Service(def), wanted)?;
    }
    Ok(())
}

#[test]
fn services_are_refused(rt: HostRuntime) -> Result<(), Fail> {
    let catalog = example(&rt, rt.alloc())?;
    let outcome = ask_services(&rt, rt.alloc(), &catalog);
    let_go(catalog);
    outcome
}

fn ask_routes(rt: &impl Abort, alloc: Global, catalog: &Catalog) -> Result<(), Fail> {
    for (own, service, wanted) in [
        ("AutoCreatedLocal", "Far", "7 NameTaken [AutoCreatedLocal]"),
        ("R", "", "7 NameTaken [R]"),
        ("W", "", "23 BadNumber 0"),
        ("W", "a\u{1f}", "23 BadNumber 2"),
        ("N", "a b", "ok"),
    ] {
        let def = route_def(alloc, own, service)?;
        answers(rt, alloc, catalog, Ddl::Route(def), wanted)?;
    }
    Ok(())
}

#[test]
fn routes_are_refused(rt: HostRuntime) -> Result<(), Fail> {
    let catalog = example(&rt, rt.alloc())?;
    let outcome = ask_routes(&rt, rt.alloc(), &catalog);
    let_go(catalog);
    outcome
}

/// A route to a service whose name has so many characters, of two bytes each.
fn long_route(alloc: Global, characters: u32) -> Result<RouteDef, Fail> {
    let mut service = String::new(alloc);
    for _ in 0..characters {
        service.push('\u{e4}')?;
    }
    route_def(alloc, "W", service.as_str())
}

fn ask_long_routes(rt: &impl Abort, alloc: Global, catalog: &Catalog) -> Result<(), Fail> {
    for (characters, wanted) in [(128, "ok"), (129, "23 BadNumber 129")] {
        let def = long_route(alloc, characters)?;
        answers(rt, alloc, catalog, Ddl::Route(def), wanted)?;
    }
    Ok(())
}

#[test]
fn routes_to_long_names_are_refused(rt: HostRuntime) -> Result<(), Fail> {
    let catalog = example(&rt, rt.alloc())?;
    let outcome = ask_long_routes(&rt, rt.alloc(), &catalog);
    let_go(catalog);
    outcome
}

/// The contract comes before the local service, names before numbers, and the remote
/// service before the level.
fn ask_priorities(rt: &impl Abort, alloc: Global, catalog: &Catalog) -> Result<(), Fail> {
    for (own, ends, level, wanted) in [
        ("N", ["none", "none", ""], 0, "7 NameTaken [N]"),
        ("M", ["none", "none", ""], 0, "9 NoContract [none]"),
        ("M", ["C", "none", ""], 0, "12 NoService [none]"),
        ("M", ["C", "S", "\u{e4}\u{7f}"], 0, "23 BadNumber 2"),
        ("M", ["", "", "Far"], 0, "23 BadNumber 0"),
        ("M", ["", "", "Far"], 1, "ok"),
        ("R", ["DEFAULT", "S", "Far"], 10, "ok"),
        ("M", ["", "", "Far"], 11, "23 BadNumber 11"),
    ] {
        let def = priority_def(alloc, own, ends, level)?;
        answers(rt, alloc, catalog, Ddl::Priority(def), wanted)?;
    }
    Ok(())
}

#[test]
fn priorities_are_refused(rt: HostRuntime) -> Result<(), Fail> {
    let catalog = example(&rt, rt.alloc())?;
    let outcome = ask_priorities(&rt, rt.alloc(), &catalog);
    let_go(catalog);
    outcome
}

fn ask_tables(rt: &impl Abort, alloc: Global, catalog: &Catalog) -> Result<(), Fail> {
    for (own, wanted) in [("T", "7 NameTaken [T]"), ("P", "ok")] {
        let def = table_def(alloc, own)?;
        answers(rt, alloc, catalog, Ddl::Table(def), wanted)?;
    }
    Ok(())
}

fn ask_procedures(rt: &impl Abort, alloc: Global, catalog: &Catalog) -> Result<(), Fail> {
    for (own, wanted) in [("P", "7 NameTaken [P]"), ("T", "ok")] {
        let def = procedure_def(alloc, own)?;
        answers(rt, alloc, catalog, Ddl::Procedure(def), wanted)?;
    }
    Ok(())
}

fn ask_others(rt: &impl Abort, alloc: Global, catalog: &Catalog) -> Result<(), Fail> {
    ask_tables(rt, alloc, catalog)?;
    ask_procedures(rt, alloc, catalog)
}

#[test]
fn tables_and_procedures_are_refused(rt: HostRuntime) -> Result<(), Fail> {
    let catalog = example(&rt, rt.alloc())?;
    let outcome = ask_others(&rt, rt.alloc(), &catalog);
    let_go(catalog);
    outcome
}
