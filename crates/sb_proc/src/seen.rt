//! The variables as an expression sees them.

ghost use Rattle.std.specs.Prelude.{◌≡◌, ◌⊎◌, IfOk, IfErr};
ghost use Rattle.std.specs.Option.{option_copied};
ghost use Rattle.sb_proc.specs.Scopes as says;
ghost use Rattle.sb_proc.specs.Seen.{scope_of};
ghost use Rattle.sb_proc.specs.Turns.{seen_with};
ghost use Rattle.sb_value.specs.Faults.{Gives};
ghost use Rattle.sb_value.specs.declared.fault.Fault.TheVariants.{NoVariable, OutOfMemory};

use crate::variables::{Variable, Variables, find};
use sb_log::Text;
use sb_value::Fault;

/// The variables that the same DECLARE has declared, and the others.
#[derive(Clone, Copy)]
pub struct Seen<'a> {
    pub added: &'a [Variable],
    pub known: &'a [Variable],
    pub rows: i64,
}

impl<'a> Seen<'a> {
    pub fn of(variables: &'a Variables) -> Seen<'a>
        ensures { scope_of result ≡ variables.now }
    {
        Seen {
            added: &[],
            known: variables.known(),
            rows: variables.rows(),
        }
    }

    /// With those that the same DECLARE has declared so far.
    pub fn behind(added: &'a [Variable], variables: &'a Variables) -> Seen<'a>
        ensures { scope_of result ≡ seen_with added.now variables.now }
    {
        Seen {
            added,
            known: variables.known(),
            rows: variables.rows(),
        }
    }

    pub fn find(&self, name: &Text) -> Option<&'a Variable>
        ensures { option_copied result ≡ says.find_variable name.now (scope_of self.now).variables }
    {
        match find(self.added, name.as_str()) {
            Some(variable) => Some(variable),
            None => find(self.known, name.as_str()),
        }
    }

    /// The variable, which has to be declared.
    pub fn declared(&self, name: &Text) -> Result<&'a Variable, Fault>
        ensures known { IfOk result (λ x. says.find_variable name.now (scope_of self.now).variables ≡ Some x.now) }
        ensures unknown { IfErr result (λ f. (f ≡ OutOfMemory) ⊎ ((f ≡ NoVariable name.now) × (says.find_variable name.now (scope_of self.now).variables ≡ None))) }
    {
        match self.find(name) {
            Some(variable) => Ok(variable),
            None => Err(Fault::NoVariable(name.clone()?)),
        }
    }

    pub fn is_declared(&self, name: &Text) -> Result<(), Fault>
        ensures { Gives (says.is_declared (scope_of self.now) name.now) result }
    {
        self.declared(name)?;
        Ok(())
    }
}
