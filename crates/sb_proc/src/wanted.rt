//! Expressions where a kind is wanted.

ghost use Rattle.sb_proc.specs.Expressions as says;
ghost use Rattle.sb_proc.specs.Seen.{scope_of};
ghost use Rattle.sb_value.specs.Faults.{Gives};

use crate::expression::value;
use crate::seen::Seen;
use sb_grammar::Expr;
use sb_log::{Bytes, Handle, Text, ValueKind};
use sb_value::{Fault, as_bytes, as_identifier, as_number, as_text};
use std::alloc::Global;

/// A BIGINT; NULL is none.
pub fn number(alloc: Global, seen: &Seen<'_>, expr: &Expr) -> Result<i64, Fault>
    ensures { Gives (says.number (scope_of seen.now) expr.now) result }
{
    let value = value(alloc, seen, expr)?;
    as_number(value).ok_or(Fault::WrongKind(ValueKind::Bigint))
}

/// A text; NULL is none.
pub fn text(alloc: Global, seen: &Seen<'_>, expr: &Expr) -> Result<Text, Fault>
    ensures { Gives (says.text (scope_of seen.now) expr.now) result }
{
    let value = value(alloc, seen, expr)?;
    as_text(alloc, value)?.ok_or(Fault::WrongKind(ValueKind::Text))
}

/// An identifier; NULL is none.
pub fn identifier(alloc: Global, seen: &Seen<'_>, expr: &Expr) -> Result<Handle, Fault>
    ensures { Gives (says.identifier (scope_of seen.now) expr.now) result }
{
    let value = value(alloc, seen, expr)?;
    as_identifier(value).ok_or(Fault::WrongKind(ValueKind::Identifier))
}

/// A BIGINT or NULL.
pub fn number_or_null(alloc: Global, seen: &Seen<'_>, expr: &Expr) -> Result<Option<i64>, Fault>
    ensures { Gives (says.number_or_null (scope_of seen.now) expr.now) result }
{
    let value = value(alloc, seen, expr)?;
    if value.is_null() {
        return Ok(None);
    }
    match as_number(value) {
        Some(number) => Ok(Some(number)),
        None => Err(Fault::WrongKind(ValueKind::Bigint)),
    }
}

/// A text or NULL.
pub fn text_or_null(alloc: Global, seen: &Seen<'_>, expr: &Expr) -> Result<Option<Text>, Fault>
    ensures { Gives (says.text_or_null (scope_of seen.now) expr.now) result }
{
    let value = value(alloc, seen, expr)?;
    if value.is_null() {
        return Ok(None);
    }
    match as_text(alloc, value)? {
        Some(text) => Ok(Some(text)),
        None => Err(Fault::WrongKind(ValueKind::Text)),
    }
}

/// Bytes or NULL.
pub fn bytes_or_null(alloc: Global, seen: &Seen<'_>, expr: &Expr) -> Result<Option<Bytes>, Fault>
    ensures { Gives (says.bytes_or_null (scope_of seen.now) expr.now) result }
{
    let value = value(alloc, seen, expr)?;
    if value.is_null() {
        return Ok(None);
    }
    match as_bytes(alloc, value)? {
        Some(bytes) => Ok(Some(bytes)),
        None => Err(Fault::WrongKind(ValueKind::Bytes)),
    }
}

/// A BIGINT, where one is written.
pub fn number_if_written(
    alloc: Global,
    seen: &Seen<'_>,
    expr: &Option<Expr>,
) -> Result<Option<i64>, Fault>
    ensures { Gives (says.if_written (says.number (scope_of seen.now)) expr.now) result }
{
    match expr {
        None => Ok(None),
        Some(expr) => Ok(Some(number(alloc, seen, expr)?)),
    }
}
