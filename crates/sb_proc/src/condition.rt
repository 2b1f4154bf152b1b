//! Whether conditions hold.

ghost use Rattle.sb_proc.specs.Expressions as says;
ghost use Rattle.sb_proc.specs.Seen.{scope_of};
ghost use Rattle.sb_value.specs.Faults.{Gives};

use crate::expression::value;
use crate::seen::Seen;
use sb_grammar::{Comparison, Condition, Expr};
use sb_value::{Fault, Value, is_equal, is_less};
use std::alloc::Global;

/// Whether a condition holds. All of it is computed.
#[cycle(holds)]
pub fn holds(alloc: Global, seen: &Seen<'_>, condition: &Condition) -> Result<bool, Fault>
    ensures { Gives (says.holds (scope_of seen.now) condition.now) result }
{
    match condition {
        Condition::Compare(comparison, left, right) => {
            relation(alloc, seen, *comparison, left, right)
        }
        Condition::IsNull(expr) => is_null(alloc, seen, expr),
        Condition::IsNotNull(expr) => Ok(!is_null(alloc, seen, expr)?),
        Condition::All(tests) => all_hold(alloc, seen, tests.as_slice()),
        Condition::Any(tests) => any_holds(alloc, seen, tests.as_slice()),
    }
}

#[cycle(holds)]
fn all_hold(alloc: Global, seen: &Seen<'_>, tests: &[Condition]) -> Result<bool, Fault>
    ensures { Gives (says.all_hold (scope_of seen.now) tests.now) result }
{
    let mut all = true;
    for test in tests {
        let one = holds(alloc, seen, test)?;
        all = all && one;
    }
    Ok(all)
}

#[cycle(holds)]
fn any_holds(alloc: Global, seen: &Seen<'_>, tests: &[Condition]) -> Result<bool, Fault>
    ensures { Gives (says.any_holds (scope_of seen.now) tests.now) result }
{
    let mut any = false;
    for test in tests {
        let one = holds(alloc, seen, test)?;
        any = any || one;
    }
    Ok(any)
}

fn relation(
    alloc: Global,
    seen: &Seen<'_>,
    comparison: Comparison,
    left: &Expr,
    right: &Expr,
) -> Result<bool, Fault>
    ensures { Gives (says.related (scope_of seen.now) comparison left.now right.now) result }
{
    let left = value(alloc, seen, left)?;
    let right = value(alloc, seen, right)?;
    compared(alloc, comparison, left, right)
}

fn is_null(alloc: Global, seen: &Seen<'_>, expr: &Expr) -> Result<bool, Fault>
    ensures { Gives (says.comes_to_null (scope_of seen.now) expr.now) result }
{
    Ok(value(alloc, seen, expr)?.is_null())
}

fn compared(alloc: Global, comparison: Comparison, left: Value, right: Value) -> Result<bool, Fault>
    ensures { Gives (says.compared comparison left right) result }
{
    match comparison {
        Comparison::Equal => is_equal(alloc, left, right),
        Comparison::NotEqual => differs(alloc, left, right),
        Comparison::Less => is_less(left, right),
        Comparison::Greater => is_less(right, left),
    }
}

// Nothing differs from NULL.
fn differs(alloc: Global, left: Value, right: Value) -> Result<bool, Fault>
    ensures { Gives (says.differs left right) result }
{
    let is_known = !left.is_null() && !right.is_null();
    let is_same = is_equal(alloc, left, right)?;
    Ok(is_known && !is_same)
}
