//! Definitions under their names, and queues that are on or off.

use crate::Catalog;
use crate::tests::made::{add, example, let_go, name, priority_def, queue_def, route_def};
use sb_log::{Ddl, Name};
use std::alloc::Global;
use std::process::Abort;
use std::test::Fail;

/// Whether a type with this name is there, and whether it is empty.
fn type_found(catalog: &Catalog, name: &Name) -> Option<bool> {
    match catalog.message_kind(name) {
        None => None,
        Some(def) => Some(def.empty),
    }
}

/// How many types the contract with this name has.
fn types_found(catalog: &Catalog, name: &Name) -> Option<usize> {
    match catalog.contract(name) {
        None => None,
        Some(def) => Some(def.types.len()),
    }
}

/// How many contracts the service with this name has.
fn contracts_found(catalog: &Catalog, name: &Name) -> Option<usize> {
    match catalog.service(name) {
        None => None,
        Some(def) => Some(def.contracts.len()),
    }
}

/// Whether the queue with this name is on.
fn queue_found(catalog: &Catalog, name: &Name) -> Option<bool> {
    match catalog.queue(name) {
        None => None,
        Some(def) => Some(def.on),
    }
}

/// What is found under this name: of a type whether it is empty, of a contract and a service
/// how long its list is, of a queue whether it is on, then whether there is a procedure and
/// a table.
fn found(alloc: Global, catalog: &Catalog, own: &str) -> Result<String, Fail> {
    let own = name(alloc, own)?;
    let kind = type_found(catalog, &own);
    let contract = types_found(catalog, &own);
    let service = contracts_found(catalog, &own);
    let queue = queue_found(catalog, &own);
    let procedure = catalog.procedure(&own).is_some();
    let table = catalog.table(&own).is_some();
    Ok(format!(in alloc; "{kind:?} {contract:?} {service:?} {queue:?} {procedure} {table}")?)
}

fn find(rt: &impl Abort, alloc: Global, catalog: &Catalog) -> Result<(), Fail> {
    for (own, wanted) in [
        ("DEFAULT", "Some(false) Some(1) None None false false"),
        ("X", "Some(false) None None None false false"),
        ("Y", "Some(true) None None None false false"),
        ("C", "None Some(2) None None false false"),
        ("S", "None None Some(2) None false false"),
        ("Q", "None None None Some(true) false false"),
        ("P", "None None None None true false"),
        ("T", "None None None None false true"),
        ("R", "None None None None false false"),
    ] {
        let found = found(alloc, catalog, own)?;
        assert_eq!(rt; found.as_str(), wanted, "{own}");
    }
    Ok(())
}

#[test]
fn definitions_are_found_by_their_kind(rt: HostRuntime) -> Result<(), Fail> {
    let catalog = example(&rt, rt.alloc())?;
    let outcome = find(&rt, rt.alloc(), &catalog);
    let_go(catalog);
    outcome
}

/// Whether the name of the definition is new in its kind, with the definition let go.
fn is_new(catalog: &Catalog, ddl: Ddl) -> bool {
    catalog.is_new(&ddl)
}

fn ask_names(rt: &impl Abort, alloc: Global, catalog: &Catalog) -> Result<(), Fail> {
    for (own, [queue, route, priority]) in [
        ("Q", [false, true, true]),
        ("R", [true, false, true]),
        ("N", [true, true, false]),
        ("AutoCreatedLocal", [true, false, true]),
    ] {
        let def = queue_def(alloc, own, "", 0)?;
        assert_eq!(rt; is_new(catalog, Ddl::Queue(def)), queue, "{own}");
        let def = route_def(alloc, own, "")?;
        assert_eq!(rt; is_new(catalog, Ddl::Route(def)), route, "{own}");
        let def = priority_def(alloc, own, ["", "", ""], 0)?;
        assert_eq!(rt; is_new(catalog, Ddl::Priority(def)), priority, "{own}");
    }
    Ok(())
}

#[test]
fn names_are_new_in_their_kind(rt: HostRuntime) -> Result<(), Fail> {
    let catalog = example(&rt, rt.alloc())?;
    let outcome = ask_names(&rt, rt.alloc(), &catalog);
    let_go(catalog);
    outcome
}

/// Whether each of the two queues is on, once the first of them was told so.
fn told(
    rt: &impl Abort,
    catalog: &mut Catalog,
    queue: &Name,
    on: bool,
    other: &Name,
) -> [Option<bool>; 2] {
    assert!(rt; catalog.queue(queue).is_some());
    catalog.set_queue(queue, on);
    [queue_found(catalog, queue), queue_found(catalog, other)]
}

/// A queue is off when told so, another stays as it is, and it is on when told that.
fn tell(rt: &impl Abort, alloc: Global, catalog: &mut Catalog) -> Result<(), Fail> {
    let def = queue_def(alloc, "U", "", 0)?;
    add(rt, catalog, Ddl::Queue(def));
    let first = name(alloc, "Q")?;
    let last = name(alloc, "U")?;
    assert_eq!(rt;
        told(rt, catalog, &first, false, &last),
        [Some(false), Some(true)]
    );
    assert_eq!(rt;
        told(rt, catalog, &last, false, &first),
        [Some(false), Some(false)]
    );
    assert_eq!(rt;
        told(rt, catalog, &first, true, &last),
        [Some(true), Some(false)]
    );
    Ok(())
}

#[test]
fn queues_are_on_as_they_were_told_last(rt: HostRuntime) -> Result<(), Fail> {
    let mut catalog = example(&rt, rt.alloc())?;
    let outcome = tell(&rt, rt.alloc(), &mut catalog);
    let_go(catalog);
    outcome
}
