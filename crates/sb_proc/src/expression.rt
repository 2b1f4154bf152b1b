//! The values of expressions.

ghost use Rattle.sb_proc.specs.Expressions as says;
ghost use Rattle.sb_proc.specs.Folds.{try_fold};
ghost use Rattle.sb_proc.specs.Seen.{scope_of};
ghost use Rattle.sb_value.specs.Faults.{Gives};

use crate::seen::Seen;
use sb_grammar::{Expr, Sign, Term};
use sb_log::{Text, ValueKind};
use sb_value::{Fault, Value, cast, minus, plus};
use std::alloc::Global;

/// The value of an expression.
#[cycle(value)]
pub fn value(alloc: Global, seen: &Seen<'_>, expr: &Expr) -> Result<Value, Fault>
    ensures { Gives (says.value_of (scope_of seen.now) expr.now) result }
{
    match expr {
        Expr::Null => Ok(Value::Null),
        Expr::Number(number) => Ok(Value::Number(*number)),
        Expr::Text(text) => Ok(Value::Text(text.clone()?)),
        Expr::Bytes(bytes) => Ok(Value::Bytes(bytes.clone()?)),
        Expr::Variable(name) => variable(seen, name),
        Expr::RowCount => Ok(Value::Number(seen.rows)),
        Expr::Sum(first, terms) => {
            let first = value(alloc, seen, first.get())?;
            sum(alloc, seen, first, terms.as_slice())
        }
        Expr::Cast(inner, kind) => {
            let inner = value(alloc, seen, inner.get())?;
            cast_to(alloc, *kind, inner)
        }
    }
}

// A value with the terms behind it.
#[cycle(value)]
fn sum(alloc: Global, seen: &Seen<'_>, first: Value, terms: &[Term]) -> Result<Value, Fault>
    ensures { Gives (try_fold (says.with_term (scope_of seen.now)) first terms.now) result }
{
    let mut total = first;
    for term in terms {
        let operand = value(alloc, seen, &term.operand)?;
        total = combined(alloc, term.sign, total, operand)?;
    }
    Ok(total)
}

fn combined(alloc: Global, sign: Sign, left: Value, right: Value) -> Result<Value, Fault>
    ensures { Gives (says.by_sign sign left right) result }
{
    match sign {
        Sign::Plus => plus(alloc, left, right),
        Sign::Minus => minus(left, right),
    }
}

fn variable(seen: &Seen<'_>, name: &Text) -> Result<Value, Fault>
    ensures { Gives (says.variable_value (scope_of seen.now) name.now) result }
{
    let variable = seen.declared(name)?;
    Ok(variable.value.clone()?)
}

fn cast_to(alloc: Global, kind: ValueKind, value: Value) -> Result<Value, Fault>
    ensures { Gives (says.cast_to kind value) result }
{
    match cast(alloc, kind, value)? {
        Some(made) => Ok(made),
        None => Err(Fault::WrongKind(kind)),
    }
}
