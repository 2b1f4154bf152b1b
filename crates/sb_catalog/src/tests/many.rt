//! As many definitions as there may be.

use crate::Catalog;
use crate::tests::made::{add, let_go, name, queue_def, table_def};
use crate::tests::refusals::answers;
use sb_log::{ContractDef, Ddl, Listed};
use std::alloc::Global;
use std::process::Abort;
use std::test::Fail;

fn add_table(
    rt: &impl Abort,
    alloc: Global,
    catalog: &mut Catalog,
    number: u32,
) -> Result<(), Fail> {
    let own = format!(in alloc; "T{number}")?;
    let def = table_def(alloc, own.as_str())?;
    add(rt, catalog, Ddl::Table(def));
    Ok(())
}

fn add_tables(
    rt: &impl Abort,
    alloc: Global,
    catalog: &mut Catalog,
    count: u32,
) -> Result<(), Fail> {
    for number in 0..count {
        add_table(rt, alloc, catalog, number)?;
    }
    Ok(())
}

fn ask_table(
    rt: &impl Abort,
    alloc: Global,
    catalog: &Catalog,
    own: &str,
    wanted: &str,
) -> Result<(), Fail> {
    let def = table_def(alloc, own)?;
    answers(rt, alloc, catalog, Ddl::Table(def), wanted)
}

/// What is wrong with a definition by itself comes before what there is too much of.
fn ask_silent_contract(rt: &impl Abort, alloc: Global, catalog: &Catalog) -> Result<(), Fail> {
    let contract = ContractDef {
        name: name(alloc, "none")?,
        types: Listed::new(alloc),
    };
    let wanted = "14 NothingFromInitiator [none]";
    answers(rt, alloc, catalog, Ddl::Contract(contract), wanted)
}

/// The 4,096th definition may be made, whatever its kind, and the next one not.
fn fill_to_the_end(rt: &impl Abort, alloc: Global, catalog: &mut Catalog) -> Result<(), Fail> {
    add_tables(rt, alloc, catalog, 4095)?;
    ask_table(rt, alloc, catalog, "last", "ok")?;
    let queue = queue_def(alloc, "last", "", 0)?;
    add(rt, catalog, Ddl::Queue(queue));
    ask_table(rt, alloc, catalog, "more", "15 TooMany 4096")?;
    ask_silent_contract(rt, alloc, catalog)
}

#[test]
fn the_definition_past_the_last_is_refused(rt: HostRuntime) -> Result<(), Fail> {
    let mut catalog = Catalog::new(rt.alloc())?;
    let outcome = fill_to_the_end(&rt, rt.alloc(), &mut catalog);
    let_go(catalog);
    outcome
}

/// Whether the table with this number is found under its name.
fn finds_table(alloc: Global, catalog: &Catalog, number: u32) -> Result<bool, Fail> {
    let own = format!(in alloc; "T{number}")?;
    let own = name(alloc, own.as_str())?;
    Ok(match catalog.table(&own) {
        None => false,
        Some(def) => def.name == own,
    })
}

fn find_each(rt: &impl Abort, alloc: Global, catalog: &mut Catalog) -> Result<(), Fail> {
    add_tables(rt, alloc, catalog, 4096)?;
    for number in 0..4097u32 {
        let is_found = finds_table(alloc, catalog, number)?;
        assert_eq!(rt; is_found, number < 4096, "{number}");
    }
    Ok(())
}

#[test]
fn each_of_many_is_found(rt: HostRuntime) -> Result<(), Fail> {
    let mut catalog = Catalog::new(rt.alloc())?;
    let outcome = find_each(&rt, rt.alloc(), &mut catalog);
    let_go(catalog);
    outcome
}
