//! DECLARE and SET.

ghost use Rattle.sb_proc.specs.Seen.{scope_of};
ghost use Rattle.sb_proc.specs.Turns as says;
ghost use Rattle.sb_value.specs.Faults.{Gives, GivesItems, Leaves, want};
ghost use Rattle.sb_value.specs.Values as values;

use crate::expression::value;
use crate::seen::Seen;
use crate::variables::{Variable, Variables, declare};
use sb_grammar::{Declaration, Expr};
use sb_log::{Text, ValueKind};
use sb_value::{Fault, Value, converted};
use std::alloc::Global;

/// Declares variables. Where one is refused, none is declared.
pub fn declare_all(
    alloc: Global,
    variables: &mut Variables,
    declarations: &[Declaration],
) -> Result<(), Fault>
    ensures { Leaves (says.after_declare variables.old declarations.now) result variables.old variables.new }
{
    let new = all_new(alloc, variables, declarations)?;
    variables.declare_all(new)?;
    Ok(())
}

// What is declared, each seeing those before it.
fn all_new(
    alloc: Global,
    variables: &Variables,
    declarations: &[Declaration],
) -> Result<Vec<Variable>, Fault>
    ensures { GivesItems (says.all_new variables.now declarations.now) result }
{
    let mut new = Vec::new(alloc);
    for declaration in declarations {
        let variable = declared(alloc, variables, new.as_slice(), declaration)?;
        declare(&mut new, variable)?;
    }
    Ok(new)
}

fn declared(
    alloc: Global,
    variables: &Variables,
    added: &[Variable],
    declaration: &Declaration,
) -> Result<Variable, Fault>
    ensures { Gives (says.declared_variable (says.seen_with added.now variables.now) declaration.now) result }
{
    let seen = Seen::behind(added, variables);
    let first = first_value(alloc, &seen, &declaration.value)?;
    let kind = declaration.kind;
    let value = of_kind(alloc, kind, first)?;
    let name = declaration.variable.clone()?;
    Ok(Variable { name, kind, value })
}

fn first_value(alloc: Global, seen: &Seen<'_>, written: &Option<Expr>) -> Result<Value, Fault>
    ensures { Gives (says.first_value (scope_of seen.now) written.now) result }
{
    match written {
        None => Ok(Value::Null),
        Some(expr) => value(alloc, seen, expr),
    }
}

// A value as it is stored.
fn of_kind(alloc: Global, kind: ValueKind, value: Value) -> Result<Value, Fault>
    ensures { Gives (want (values.converted kind value) kind Ok) result }
{
    converted(alloc, kind, value)?.ok_or(Fault::WrongKind(kind))
}

/// Sets a variable, which has to be declared.
pub fn set(alloc: Global, variables: &mut Variables, name: &Text, expr: &Expr) -> Result<(), Fault>
    ensures { Leaves (says.after_set variables.old name.now expr.now) result variables.old variables.new }
{
    let value = value_to_set(alloc, variables, name, expr)?;
    variables.set(name.as_str(), value);
    Ok(())
}

fn value_to_set(
    alloc: Global,
    variables: &Variables,
    name: &Text,
    expr: &Expr,
) -> Result<Value, Fault>
    ensures { Gives (says.value_to_set variables.now name.now expr.now) result }
{
    let seen = Seen::of(variables);
    let variable = seen.declared(name)?;
    let value = value(alloc, &seen, expr)?;
    of_kind(alloc, variable.kind, value)
}
