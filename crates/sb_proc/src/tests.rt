//! Statements made by hand.
//!
//! Trees stand in boxes and lists, and are let go by `drop`: a check of a test that holds one
//! itself goes through all that may be in it.

mod asking;
mod computing;
mod naming;
mod replying;

use crate::*;
use sb_grammar::{Declaration, Expr, Sign, Statement, Term};
use sb_log::{Handle, Name, Request, Text, ValueKind, Who};
use sb_value::Value;
use sqlite_items::{Boxed, Items};
use std::alloc::{AllocError, Global};
use std::fmt::Write;
use std::mem;
use std::test::Fail;

pub const DIALOG: &str = "a0000000-0000-0000-0000-000000000001";

pub const HANDLE: Handle = Handle(0xa000_0000_0000_0000_0000_0000_0000_0001);

pub fn text(alloc: Global, text: &str) -> Result<Text, AllocError> {
    Ok(Text::from_string(String::from_str(alloc, text)?))
}

pub fn name(alloc: Global, text: &str) -> Result<Name, Fail> {
    match Name::new(alloc, text) {
        Ok(name) => Ok(name),
        Err(_) => Err(Fail::from("no name")),
    }
}

/// Whether both are the same.
pub fn same<T: PartialEq + Drop>(left: T, right: T) -> bool {
    left == right
}

pub fn null(alloc: Global) -> Result<Boxed<Expr>, AllocError> {
    Boxed::new(alloc, Expr::Null)
}

pub fn number(alloc: Global, number: i64) -> Result<Boxed<Expr>, AllocError> {
    Boxed::new(alloc, Expr::Number(number))
}

pub fn written(alloc: Global, it: &str) -> Result<Boxed<Expr>, AllocError> {
    let it = text(alloc, it)?;
    Boxed::new(alloc, Expr::Text(it))
}

pub fn variable(alloc: Global, name: &str) -> Result<Boxed<Expr>, AllocError> {
    let name = text(alloc, name)?;
    Boxed::new(alloc, Expr::Variable(name))
}

pub fn sum(
    alloc: Global,
    first: Boxed<Expr>,
    sign: Sign,
    second: Boxed<Expr>,
) -> Result<Boxed<Expr>, AllocError> {
    let mut terms = Items::new(alloc);
    term(&mut terms, sign, second)?;
    Boxed::new(alloc, Expr::Sum(first, terms))
}

pub fn term(terms: &mut Items<Term>, sign: Sign, operand: Boxed<Expr>) -> Result<(), AllocError> {
    let operand = operand.into_inner();
    terms.push(Term { sign, operand })
}

pub fn declaration(
    alloc: Global,
    all: &mut Items<Declaration>,
    name: &str,
    kind: ValueKind,
    value: Boxed<Expr>,
) -> Result<(), AllocError> {
    let variable = text(alloc, name)?;
    all.push(Declaration {
        variable,
        kind,
        value: Some(value.into_inner()),
    })
}

/// Declares a variable, without a value.
pub fn declare(
    alloc: Global,
    block: &mut Items<Statement>,
    name: &str,
    kind: ValueKind,
) -> Result<(), AllocError> {
    let variable = text(alloc, name)?;
    let mut all = Items::new(alloc);
    all.push(Declaration {
        variable,
        kind,
        value: None,
    })?;
    block.push(Statement::Declare(all))
}

pub fn set(
    alloc: Global,
    block: &mut Items<Statement>,
    name: &str,
    value: Boxed<Expr>,
) -> Result<(), AllocError> {
    let variable = text(alloc, name)?;
    block.push(Statement::Set {
        variable,
        value: value.into_inner(),
    })
}

/// A machine on B, with no variables.
pub fn machine_of(alloc: Global, block: Items<Statement>) -> Result<Machine, AllocError> {
    let batch = text(alloc, "")?;
    Ok(Machine::new(alloc, Who::B, batch, block, Variables::new(alloc)))
}

/// What comes next, as a text.
pub fn outcome(alloc: Global, machine: &mut Machine) -> Result<String, Fail> {
    let mut out = String::new(alloc);
    let next = machine.next();
    let shown = show_next(&mut out, &next);
    mem::drop(next);
    shown?;
    Ok(out)
}

fn show_next(out: &mut String, next: &Result<Act, MachineFault>) -> Result<(), Fail> {
    match next {
        Ok(Act::End) => write!(out, "end")?,
        Ok(Act::Run(request)) => write!(out, "{}", asked_name(request))?,
        Err(fault) => show_fault(out, fault)?,
    }
    Ok(())
}

fn asked_name(request: &Request) -> &'static str {
    match request {
        Request::Commit => "commit",
        Request::Rollback => "rollback",
        _ => "request",
    }
}

fn show_fault(out: &mut String, fault: &MachineFault) -> Result<(), Fail> {
    match fault {
        MachineFault::Refused { words, refusal } => write!(out, "{}: {refusal}", words.as_str())?,
        MachineFault::OutOfMemory => write!(out, "memory")?,
    }
    Ok(())
}

/// The variables, as a text.
pub fn variables_of(alloc: Global, machine: Machine) -> Result<String, Fail> {
    let mut out = String::new(alloc);
    let variables = machine.into_variables();
    for variable in variables.known() {
        write!(out, "{} = ", variable.name.as_str())?;
        show_value(&mut out, &variable.value)?;
    }
    write!(out, "{} rows", variables.rows())?;
    Ok(out)
}

fn show_value(out: &mut String, value: &Value) -> Result<(), Fail> {
    match value {
        Value::Null => write!(out, "NULL, ")?,
        Value::Number(number) => write!(out, "{number}, ")?,
        Value::Text(text) => write!(out, "'{}', ", text.as_str())?,
        Value::Bytes(bytes) => write!(out, "{} bytes, ", bytes.as_slice().len())?,
        Value::Identifier(handle) => write!(out, "{handle}, ")?,
    }
    Ok(())
}

/// What comes of a block that asks nothing, and its variables.
pub fn done(alloc: Global, block: Items<Statement>) -> Result<String, Fail> {
    let mut machine = machine_of(alloc, block)?;
    let outcome = outcome(alloc, &mut machine)?;
    let variables = variables_of(alloc, machine)?;
    Ok(format!(in alloc; "{outcome}; {variables}")?)
}
