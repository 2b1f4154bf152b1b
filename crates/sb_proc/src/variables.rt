//! Variables.

ghost use Rattle.std.specs.Prelude.{◌≡◌, ◌<◌, [], pos, OnOk, slice_get, slice_set, vec_len};
ghost use Rattle.std.specs.List.{position};
ghost use Rattle.std.specs.Option.{option_copied};
ghost use Rattle.sb_proc.specs.Turns as turns;
ghost use Rattle.sb_proc.specs.Scopes as says;

use sb_log::{Text, ValueKind};
use sb_value::Value;
use std::alloc::{AllocError, Global};
use std::marker::Model;
use std::mem;

/// A variable, which keeps the kind of its DECLARE.
#[derive(Debug, Drop, PartialEq, Eq)]
pub struct Variable {
    pub name: Text,
    pub kind: ValueKind,
    pub value: Value,
}

/// The variables of a session or a reader, and the number of rows of its last statement on rows or
/// messages.
#[derive(Debug, Drop)]
pub struct Variables {
    known: Vec<Variable>,
    rows: i64,
}

impl Model for Variables {
    ghost use Rattle.sb_proc.specs.Scopes.{Scope};

    ghost Value = { Scope };

    ghost view = { λ v. record { variables = v.known.items; rows = v.rows } };
}

/// The variable with this name.
pub fn find<'a>(known: &'a [Variable], name: &str) -> Option<&'a Variable>
    ensures { option_copied result ≡ says.find_variable name.now known.now }
{
    known.iter().find(|variable| variable.name.as_str() == name)
}

/// Puts a variable in the place of any other with its name.
pub fn declare(known: &mut Vec<Variable>, variable: Variable) -> Result<(), AllocError>
    ensures { OnOk result (known.new.items ≡ says.declared_anew variable known.old.items) }
{
    known.retain(|other| other.name != variable.name);
    known.push(variable)?;
    Ok(())
}

impl Variables {
    /// None yet, and no rows.
    pub fn new(alloc: Global) -> Variables
        ensures variables { result.variables ≡ [] }
        ensures rows { result.rows ≡ pos 0 }
    {
        Variables {
            known: Vec::new(alloc),
            rows: 0,
        }
    }

    pub fn known(&self) -> &[Variable]
        ensures { result.now ≡ self.now.variables }
    {
        self.known.as_slice()
    }

    pub fn rows(&self) -> i64
        ensures { result ≡ self.now.rows }
    {
        self.rows
    }

    pub fn count(&mut self, rows: i64)
        ensures variables { self.new.variables ≡ self.old.variables }
        ensures rows { self.new.rows ≡ rows }
    {
        self.rows = rows;
    }

    /// Gives the variable with this name this value, which is of its kind.
    pub fn set(&mut self, name: &str, value: Value)
        ensures { self.new ≡ says.scope_with self.old (says.with_value name.now value self.old.variables) }
    {
        match place(self.known.as_slice(), name) {
            Some(at) => give(&mut self.known, at, value),
            None => let_go(value),
        }
    }

    /// Declares these in the place of those with their names.
    pub fn declare_all(&mut self, new: Vec<Variable>) -> Result<(), AllocError>
        ensures { OnOk result (self.new ≡ turns.with_new self.old new.items) }
    {
        let mut new = new;
        self.known.retain(|variable| find(new.as_slice(), variable.name.as_str()).is_none());
        self.known.append(&mut new)?;
        Ok(())
    }
}

fn give(known: &mut Vec<Variable>, at: usize, value: Value)
    requires { at < vec_len known.old }
    ensures { (x : Variable) → slice_get known.old.items at ≡ Some x → known.new.items ≡ slice_set known.old.items at (says.given value x) }
{
    let old = mem::replace(&mut known[at].value, value);
    let_go(old);
}

fn let_go(_value: Value) {}

fn place(known: &[Variable], name: &str) -> Option<usize>
    ensures { result ≡ position (says.is_named name.now) known.now }
{
    known
        .iter()
        .position(|variable| variable.name.as_str() == name)
}
