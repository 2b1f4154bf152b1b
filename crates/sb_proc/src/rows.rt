//! What UPDATE changes of a row.

ghost use Rattle.std.specs.Prelude.{◌≡◌};
ghost use Rattle.sb_proc.specs.Requests as says;
ghost use Rattle.sb_proc.specs.Seen.{scope_of};
ghost use Rattle.sb_value.specs.Faults.{Gives};

use crate::seen::Seen;
use crate::wanted::{number_or_null, text_or_null};
use sb_grammar::Change;
use sb_log::{NumberChange, Text};
use sb_value::Fault;
use std::alloc::Global;

/// The changes of a row: of its number, of its body.
#[derive(Drop)]
pub struct Changed {
    pub n: Option<NumberChange>,
    pub body: Option<Option<Text>>,
}

/// The changes, computed in the order written.
pub fn all_changed(alloc: Global, seen: &Seen<'_>, changes: &[Change]) -> Result<Changed, Fault>
    ensures { Gives (says.all_changed (scope_of seen.now) changes.now) result }
{
    let mut changed = Changed {
        n: None,
        body: None,
    };
    for change in changes {
        changed = with_change(alloc, seen, changed, change)?;
    }
    Ok(changed)
}

fn with_change(
    alloc: Global,
    seen: &Seen<'_>,
    changed: Changed,
    change: &Change,
) -> Result<Changed, Fault>
    ensures { Gives (says.with_change (scope_of seen.now) changed change.now) result }
{
    let Changed { n, body } = changed;
    match change {
        Change::Number(expr) => {
            let number = number_or_null(alloc, seen, expr)?;
            Ok(with_number(NumberChange::To(number), body))
        }
        Change::Add(expr) => {
            let change = added(number_or_null(alloc, seen, expr)?);
            Ok(with_number(change, body))
        }
        Change::Subtract(expr) => {
            let change = subtracted(number_or_null(alloc, seen, expr)?);
            Ok(with_number(change, body))
        }
        Change::Body(expr) => {
            let text = text_or_null(alloc, seen, expr)?;
            Ok(Changed {
                n,
                body: Some(text),
            })
        }
    }
}

fn with_number(change: NumberChange, body: Option<Option<Text>>) -> Changed
    ensures { result ≡ says.changed (Some change) body }
{
    Changed {
        n: Some(change),
        body,
    }
}

// A sum with NULL is NULL.
fn added(number: Option<i64>) -> NumberChange
    ensures { result ≡ says.changed_by NumberChange.Add number }
{
    match number {
        Some(number) => NumberChange::Add(number),
        None => NumberChange::To(None),
    }
}

fn subtracted(number: Option<i64>) -> NumberChange
    ensures { result ≡ says.changed_by NumberChange.Subtract number }
{
    match number {
        Some(number) => NumberChange::Subtract(number),
        None => NumberChange::To(None),
    }
}
