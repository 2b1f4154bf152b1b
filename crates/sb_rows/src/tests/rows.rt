//! Rows that are put, put again and deleted.

use crate::Tables;
use crate::tests::made::{apply, delete, let_go, put, shown, took};
use sb_log::Op;
use std::alloc::Global;
use std::process::Abort;
use std::test::Fail;

#[derive(Clone, Copy)]
enum Change<'a> {
    Put(Option<i64>, Option<&'a str>),
    Delete,
    /// An operation that speaks of no row.
    Other,
}

fn op_of(alloc: Global, table: &str, key: i64, change: Change<'_>) -> Result<Op, Fail> {
    match change {
        Change::Put(n, body) => put(alloc, table, key, n, body),
        Change::Delete => delete(alloc, table, key),
        Change::Other => took(alloc, table),
    }
}

/// The rows of two keys of two tables.
fn all_shown(alloc: Global, tables: &Tables) -> Result<String, Fail> {
    let first = shown(alloc, tables, "A", -1)?;
    let second = shown(alloc, tables, "A", 2)?;
    let third = shown(alloc, tables, "B", -1)?;
    let last = shown(alloc, tables, "B", 2)?;
    Ok(format!(in alloc; "{first}, {second}, {third}, {last}")?)
}

fn change_rows(rt: &impl Abort, alloc: Global, tables: &mut Tables) -> Result<(), Fail> {
    for (table, key, change, wanted) in [
        ("A", -1, Change::Delete, "none, none, none, none"),
        (
            "A",
            -1,
            Change::Put(Some(5), Some("x")),
            "Some(5) x, none, none, none",
        ),
        (
            "B",
            -1,
            Change::Put(None, None),
            "Some(5) x, none, None NULL, none",
        ),
        (
            "A",
            -1,
            Change::Put(None, Some("y")),
            "None y, none, None NULL, none",
        ),
        (
            "A",
            2,
            Change::Put(Some(-7), None),
            "None y, Some(-7) NULL, None NULL, none",
        ),
        (
            "B",
            2,
            Change::Delete,
            "None y, Some(-7) NULL, None NULL, none",
        ),
        (
            "A",
            -1,
            Change::Other,
            "None y, Some(-7) NULL, None NULL, none",
        ),
        (
            "A",
            -1,
            Change::Delete,
            "none, Some(-7) NULL, None NULL, none",
        ),
        (
            "B",
            2,
            Change::Put(Some(0), Some("")),
            "none, Some(-7) NULL, None NULL, Some(0) ",
        ),
        (
            "A",
            -1,
            Change::Delete,
            "none, Some(-7) NULL, None NULL, Some(0) ",
        ),
        (
            "A",
            -1,
            Change::Put(Some(1), Some("z")),
            "Some(1) z, Some(-7) NULL, None NULL, Some(0) ",
        ),
        (
            "B",
            -1,
            Change::Delete,
            "Some(1) z, Some(-7) NULL, none, Some(0) ",
        ),
    ] {
        let op = op_of(alloc, table, key, change)?;
        apply(tables, op)?;
        let rows = all_shown(alloc, tables)?;
        assert_eq!(rt; rows.as_str(), wanted, "{table} {key}");
    }
    Ok(())
}

#[test]
fn rows_are_as_they_were_put_last(rt: HostRuntime) -> Result<(), Fail> {
    let mut tables = Tables::new(rt.alloc());
    let outcome = change_rows(&rt, rt.alloc(), &mut tables);
    let_go(tables);
    outcome
}

/// The table of a numbered row.
fn table_of(alloc: Global, number: i64) -> Result<String, Fail> {
    let own = number % 7;
    Ok(format!(in alloc; "T{own}")?)
}

fn put_numbered(alloc: Global, tables: &mut Tables, number: i64) -> Result<(), Fail> {
    let table = table_of(alloc, number)?;
    let op = put(alloc, table.as_str(), number, Some(number), None)?;
    apply(tables, op)
}

fn delete_numbered(alloc: Global, tables: &mut Tables, number: i64) -> Result<(), Fail> {
    let table = table_of(alloc, number)?;
    let op = delete(alloc, table.as_str(), number)?;
    apply(tables, op)
}

/// The row of this key in its own table, and that in the next one.
fn numbered_shown(alloc: Global, tables: &Tables, number: i64) -> Result<String, Fail> {
    let table = table_of(alloc, number)?;
    let own = shown(alloc, tables, table.as_str(), number)?;
    let table = table_of(alloc, number.saturating_add(1))?;
    let next = shown(alloc, tables, table.as_str(), number)?;
    Ok(format!(in alloc; "{own}, {next}")?)
}

fn wanted_row(alloc: Global, number: i64) -> Result<String, Fail> {
    if number % 3 == 0 || number >= 1000 {
        Ok(String::from_str(alloc, "none, none")?)
    } else {
        Ok(format!(in alloc; "Some({number}) NULL, none")?)
    }
}

fn compare_numbered(rt: &impl Abort, alloc: Global, tables: &Tables) -> Result<(), Fail> {
    for number in 0..1001i64 {
        let row = numbered_shown(alloc, tables, number)?;
        let wanted = wanted_row(alloc, number)?;
        assert_eq!(rt; row.as_str(), wanted.as_str(), "{number}");
    }
    Ok(())
}

/// A thousand rows in seven tables, every third of which is deleted again.
fn fill(rt: &impl Abort, alloc: Global, tables: &mut Tables) -> Result<(), Fail> {
    assert!(rt; tables.reserve(1000).is_ok());
    for number in 0..1000i64 {
        put_numbered(alloc, tables, number)?;
    }
    for number in 0..1000i64 {
        if number % 3 == 0 {
            delete_numbered(alloc, tables, number)?;
        }
    }
    compare_numbered(rt, alloc, tables)
}

#[test]
fn a_thousand_rows_are_found(rt: HostRuntime) -> Result<(), Fail> {
    let mut tables = Tables::new(rt.alloc());
    let outcome = fill(&rt, rt.alloc(), &mut tables);
    let_go(tables);
    outcome
}
