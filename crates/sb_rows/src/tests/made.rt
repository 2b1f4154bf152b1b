//! Names, operations, and rows as texts.

use crate::Tables;
use sb_log::{Name, Op, Row, Text};
use std::alloc::Global;
use std::test::Fail;

pub(super) fn name(alloc: Global, text: &str) -> Result<Name, Fail> {
    Ok(Name::new(alloc, text)?)
}

fn optional_text(alloc: Global, text: Option<&str>) -> Result<Option<Text>, Fail> {
    match text {
        None => Ok(None),
        Some(text) => Ok(Some(Text::from_string(String::from_str(alloc, text)?))),
    }
}

pub(super) fn put(
    alloc: Global,
    table: &str,
    key: i64,
    n: Option<i64>,
    body: Option<&str>,
) -> Result<Op, Fail> {
    let table = name(alloc, table)?;
    let body = optional_text(alloc, body)?;
    Ok(Op::Put {
        table,
        key,
        n,
        body,
    })
}

pub(super) fn delete(alloc: Global, table: &str, key: i64) -> Result<Op, Fail> {
    let table = name(alloc, table)?;
    Ok(Op::Delete { table, key })
}

pub(super) fn took(alloc: Global, queue: &str) -> Result<Op, Fail> {
    let queue = name(alloc, queue)?;
    Ok(Op::Took { queue, item: 1 })
}

/// Applies an operation, with room for it.
pub(super) fn apply(tables: &mut Tables, op: Op) -> Result<(), Fail> {
    tables.reserve(1)?;
    tables.apply(op);
    Ok(())
}

fn shown_row(alloc: Global, row: &Row) -> Result<String, Fail> {
    let body = match &row.body {
        None => "NULL",
        Some(body) => body.as_str(),
    };
    let n = row.n;
    Ok(format!(in alloc; "{n:?} {body}")?)
}

/// The row with this key, as a text.
pub(super) fn shown(alloc: Global, tables: &Tables, table: &str, key: i64) -> Result<String, Fail> {
    let table = name(alloc, table)?;
    match tables.get(&table, key) {
        None => Ok(String::from_str(alloc, "none")?),
        Some(row) => shown_row(alloc, row),
    }
}

pub(super) fn let_go(tables: Tables) {
    let _tables = tables;
}
