//! A machine that goes through a block.

ghost use Rattle.std.specs.Prelude.{◌≡◌, ◌⊎◌, ◌↔◌, [], IsTrue, IfOk, IfErr, OnOk};
ghost use Rattle.sb_proc.specs.Machines as says;
ghost use Rattle.sb_proc.specs.declared.act.MachineFault.TheVariants.{OutOfMemory};
ghost use Rattle.sb_proc.specs.Requests as requests;
ghost use Rattle.sb_proc.specs.Steps as steps;
ghost use Rattle.sb_value.specs.Faults.{Gives, GivesAfter};

use crate::act::{Act, MachineFault};
use crate::condition::holds;
use crate::declaring::{declare_all, set};
use crate::left::pass;
use crate::naming::words;
use crate::replies::take_reply;
use crate::request::{Asking, asked};
use crate::rest::Rest;
use crate::seen::Seen;
use crate::variables::Variables;
use sb_grammar::Statement;
use sb_log::{Refusal, Reply, Request, Text, Who};
use sb_value::Fault;
use sqlite_items::Items;
use std::alloc::{AllocError, Global};
use std::marker::Model;

/// What is left of a block, and its variables.
#[derive(Drop)]
pub struct Machine {
    alloc: Global,
    who: Who,
    text: Text,
    rest: Rest<Statement>,
    variables: Variables,
}

impl Model for Machine {
    ghost use Rattle.std.specs.Coded.{codes};
    ghost use Rattle.sb_grammar.specs.contracts.tree.Statement as statement;
    ghost use Rattle.sb_proc.specs.Machines.{Standing, standing};
    ghost use Rattle.sb_proc.specs.Requests.{place_with};

    ghost Value = { Standing };

    ghost coded = { Prim.hlevel (codes, statement.the_row.coded) };

    ghost view = { λ m. standing (place_with m.who m.text) m.rest m.variables };
}

impl Machine {
    /// At the first statement of a block that runs on this instance. The text is the batch's, from
    /// which a procedure's is cut.
    pub fn new(
        alloc: Global,
        who: Who,
        text: Text,
        block: Items<Statement>,
        variables: Variables,
    ) -> Machine
        ensures { result ≡ says.standing (requests.place_with who text) block variables }
    {
        Machine {
            alloc,
            who,
            text,
            rest: Rest::new(alloc, block),
            variables,
        }
    }

    /// The next request, or the end. What needs no instance is done on the way.
    pub fn next(&mut self) -> Result<Act, MachineFault>
        // What was done on the way leads to where the act is given.
        ensures reaches { IfOk result (λ _. says.Reaches self.old self.new) }
        ensures gives { IfOk result (λ act. says.gives self.new ≡ Some act) }
        // A refusal is that of the statement that was reached, unless memory is wanting.
        ensures refused { IfErr result (λ why. (why ≡ OutOfMemory) ⊎ (says.Reaches self.old self.new × (says.refused self.new ≡ Some why))) }
        // What is refused is so before it asks.
        ensures words { IfErr result says.IsOfWords }
    {
        'turns: while !self.is_done() {
            match self.asked() {
                Ok(Some(request)) => return Ok(Act::Run(request)),
                Ok(None) => self.go_on()?,
                Err(fault) => return Err(self.refused(fault)),
            }
        }
        Ok(Act::End)
    }

    /// Takes the reply to the request that was given. Told of waiting, the machine gives that
    /// request again.
    pub fn told(&mut self, reply: &Reply) -> Result<(), AllocError>
        ensures { OnOk result (self.new ≡ says.told self.old reply.now) }
    {
        if let Reply::Waiting { .. } = reply {
            return Ok(());
        }
        match self.rest.first() {
            None => return Ok(()),
            Some(statement) => take_reply(self.alloc, &mut self.variables, statement, reply)?,
        }
        self.rest.drop_first()
    }

    pub fn into_variables(self) -> Variables
        ensures { result ≡ self.scope }
    {
        let Machine {
            alloc: _,
            who: _,
            text: _,
            rest: _,
            variables,
        } = self;
        variables
    }

    fn is_done(&self) -> bool
        ensures { IsTrue result ↔ (self.now.rest ≡ []) }
    {
        self.rest.first().is_none()
    }

    // What the next statement asks; none where it is done here.
    fn asked(&self) -> Result<Option<Request>, Fault>
        ensures { Gives (steps.next_asked self.now) result }
    {
        let asking = Asking {
            alloc: self.alloc,
            who: self.who,
            text: self.text.as_str(),
            seen: Seen::of(&self.variables),
        };
        match self.rest.first() {
            None => Ok(None),
            Some(statement) => asked(&asking, statement),
        }
    }

    // The fault of the next statement.
    fn refused(&self, fault: Fault) -> MachineFault
        ensures { says.IsShownAs (steps.next_words self.now) fault result }
    {
        match self.rest.first() {
            None => refused(self.alloc, "", fault),
            Some(statement) => refused(self.alloc, words(statement), fault),
        }
    }

    // Does the next statement, which asks nothing.
    fn go_on(&mut self) -> Result<(), MachineFault>
        ensures done { OnOk result (steps.stepped self.old ≡ Ok self.new) }
        ensures refused { IfErr result (λ why. (why ≡ OutOfMemory) ⊎ ((self.new ≡ self.old) × (steps.step_refused self.old ≡ Some why))) }
        ensures words { IfErr result says.IsOfWords }
    {
        match self.computed() {
            Ok(holds) => {
                self.step(holds)?;
                Ok(())
            }
            Err(fault) => Err(self.refused(fault)),
        }
    }

    // Stores what the next statement stores; whether what it tests holds.
    fn computed(&mut self) -> Result<bool, Fault>
        ensures { GivesAfter (steps.next_computed self.old) result self.old self.new }
    {
        match self.rest.first() {
            None => Ok(false),
            Some(statement) => computed(self.alloc, &mut self.variables, statement),
        }
    }

    // Takes the next statement away, and puts there what stands in its place.
    fn step(&mut self, holds: bool) -> Result<(), AllocError>
        ensures { OnOk result (self.new ≡ steps.past_step holds self.old) }
    {
        pass(self.alloc, &mut self.rest, holds)
    }
}

// Stores what a statement stores; whether what it tests holds.
fn computed(alloc: Global, variables: &mut Variables, statement: &Statement) -> Result<bool, Fault>
    ensures { GivesAfter (steps.computed variables.old statement.now) result variables.old variables.new }
{
    match statement {
        Statement::Declare(declarations) => {
            declare_all(alloc, variables, declarations.as_slice())?;
            Ok(false)
        }
        Statement::Set { variable, value } => {
            set(alloc, variables, variable, value)?;
            Ok(false)
        }
        Statement::If { condition, .. } => holds(alloc, &Seen::of(variables), condition),
        _ => Ok(false),
    }
}

fn refused(alloc: Global, words: &str, fault: Fault) -> MachineFault
    ensures { says.IsShownAs words.now fault result }
{
    let refusal = match fault {
        Fault::NoVariable(name) => Refusal::NoVariable(name),
        Fault::WrongKind(kind) => Refusal::WrongKind(kind),
        Fault::Overflow(left) => Refusal::Overflow(left),
        Fault::OutOfMemory => return MachineFault::OutOfMemory,
    };
    match String::from_str(alloc, words) {
        Ok(words) => MachineFault::Refused {
            words: Text::from_string(words),
            refusal,
        },
        Err(_) => MachineFault::OutOfMemory,
    }
}
