//! What is done without an instance.

use super::{
    declaration, declare, done, machine_of, null, number, outcome, set, sum, term, text, variable,
    variables_of, written,
};
use crate::*;
use sb_grammar::{Comparison, Condition, Expr, Sign, Statement};
use sb_log::{ValueKind, Who};
use sqlite_items::{Boxed, Items};
use std::alloc::{AllocError, Global};
use std::test::Fail;

// What a variable has after it was given this value.
fn set_to(alloc: Global, kind: ValueKind, value: Boxed<Expr>) -> Result<String, Fail> {
    let mut block = Items::new(alloc);
    declare(alloc, &mut block, "@a", kind)?;
    set(alloc, &mut block, "@a", value)?;
    done(alloc, block)
}

fn five_less_two_less_one(alloc: Global) -> Result<Boxed<Expr>, AllocError> {
    let mut terms = Items::new(alloc);
    term(&mut terms, Sign::Minus, number(alloc, 2)?)?;
    term(&mut terms, Sign::Minus, number(alloc, 1)?)?;
    Boxed::new(alloc, Expr::Sum(number(alloc, 5)?, terms))
}

#[test]
fn a_sum_goes_from_left_to_right(rt: HostRuntime) -> Result<(), Fail> {
    let alloc = rt.alloc();
    let first = set_to(alloc, ValueKind::Bigint, five_less_two_less_one(alloc)?)?;
    assert_eq!(rt; first.as_str(), "end; @a = 2, 0 rows");
    let right = sum(alloc, number(alloc, 2)?, Sign::Minus, number(alloc, 1)?)?;
    let second = sum(alloc, number(alloc, 5)?, Sign::Minus, right)?;
    let second = set_to(alloc, ValueKind::Bigint, second)?;
    assert_eq!(rt; second.as_str(), "end; @a = 4, 0 rows");
    Ok(())
}

#[test]
fn texts_are_joined(rt: HostRuntime) -> Result<(), Fail> {
    let alloc = rt.alloc();
    let joined = sum(
        alloc,
        written(alloc, "a")?,
        Sign::Plus,
        written(alloc, "b")?,
    )?;
    let joined = set_to(alloc, ValueKind::Text, joined)?;
    assert_eq!(rt; joined.as_str(), "end; @a = 'ab', 0 rows");
    Ok(())
}

#[test]
fn a_cast_is_not_a_use(rt: HostRuntime) -> Result<(), Fail> {
    let alloc = rt.alloc();
    let used = set_to(alloc, ValueKind::Bigint, written(alloc, "7")?)?;
    assert_eq!(rt; used.as_str(), "SET: 3 WrongKind BIGINT; @a = NULL, 0 rows");
    let cast = Boxed::new(alloc, Expr::Cast(written(alloc, "7")?, ValueKind::Bigint))?;
    let cast = set_to(alloc, ValueKind::Bigint, cast)?;
    assert_eq!(rt; cast.as_str(), "end; @a = 7, 0 rows");
    let rows = set_to(alloc, ValueKind::Bigint, Boxed::new(alloc, Expr::RowCount)?)?;
    assert_eq!(rt; rows.as_str(), "end; @a = 0, 0 rows");
    Ok(())
}

// 1 + 'x' + @none
fn twice_wrong(alloc: Global) -> Result<Boxed<Expr>, AllocError> {
    let mut terms = Items::new(alloc);
    term(&mut terms, Sign::Plus, written(alloc, "x")?)?;
    term(&mut terms, Sign::Plus, variable(alloc, "@none")?)?;
    Boxed::new(alloc, Expr::Sum(number(alloc, 1)?, terms))
}

#[test]
fn the_first_fault_is_named(rt: HostRuntime) -> Result<(), Fail> {
    let alloc = rt.alloc();
    let both = set_to(alloc, ValueKind::Bigint, twice_wrong(alloc)?)?;
    assert_eq!(rt; both.as_str(), "SET: 3 WrongKind BIGINT; @a = NULL, 0 rows");
    let unknown = sum(alloc, null(alloc)?, Sign::Plus, variable(alloc, "@none")?)?;
    let unknown = set_to(alloc, ValueKind::Bigint, unknown)?;
    assert_eq!(rt;
        unknown.as_str(),
        "SET: 2 NoVariable @none; @a = NULL, 0 rows"
    );
    let over = sum(
        alloc,
        number(alloc, i64::MAX)?,
        Sign::Plus,
        number(alloc, 1)?,
    )?;
    let over = set_to(alloc, ValueKind::Bigint, over)?;
    assert_eq!(rt;
        over.as_str(),
        "SET: 4 Overflow 9223372036854775807; @a = NULL, 0 rows"
    );
    Ok(())
}

fn compared(
    alloc: Global,
    comparison: Comparison,
    left: Boxed<Expr>,
    right: Boxed<Expr>,
) -> Result<Boxed<Condition>, AllocError> {
    let left = left.into_inner();
    let right = right.into_inner();
    Boxed::new(alloc, Condition::Compare(comparison, left, right))
}

fn pair(
    alloc: Global,
    left: Boxed<Condition>,
    right: Boxed<Condition>,
) -> Result<Items<Condition>, AllocError> {
    let mut tests = Items::new(alloc);
    tests.push(left.into_inner())?;
    tests.push(right.into_inner())?;
    Ok(tests)
}

fn equal(alloc: Global, left: i64, right: i64) -> Result<Boxed<Condition>, AllocError> {
    let left = number(alloc, left)?;
    compared(alloc, Comparison::Equal, left, number(alloc, right)?)
}

// COMMIT where the condition holds, else ROLLBACK.
fn decided(alloc: Global, condition: Boxed<Condition>) -> Result<String, Fail> {
    let then = Boxed::new(alloc, Statement::Commit)?;
    let otherwise = Boxed::new(alloc, Statement::Rollback)?;
    let mut block = Items::new(alloc);
    block.push(Statement::If {
        condition: condition.into_inner(),
        then,
        otherwise: Some(otherwise),
    })?;
    let mut machine = machine_of(alloc, block)?;
    outcome(alloc, &mut machine)
}

#[test]
fn nothing_compares_with_null(rt: HostRuntime) -> Result<(), Fail> {
    let alloc = rt.alloc();
    let equal = compared(alloc, Comparison::Equal, null(alloc)?, null(alloc)?)?;
    assert_eq!(rt; decided(alloc, equal)?.as_str(), "rollback");
    let differs = compared(alloc, Comparison::NotEqual, number(alloc, 1)?, null(alloc)?)?;
    assert_eq!(rt; decided(alloc, differs)?.as_str(), "rollback");
    let is_null = Boxed::new(alloc, Condition::IsNull(Expr::Null))?;
    assert_eq!(rt; decided(alloc, is_null)?.as_str(), "commit");
    let greater = compared(
        alloc,
        Comparison::Greater,
        number(alloc, 2)?,
        number(alloc, 1)?,
    )?;
    assert_eq!(rt; decided(alloc, greater)?.as_str(), "commit");
    Ok(())
}

#[test]
fn a_condition_is_computed_whole(rt: HostRuntime) -> Result<(), Fail> {
    let alloc = rt.alloc();
    let both = pair(alloc, equal(alloc, 1, 1)?, equal(alloc, 1, 2)?)?;
    let both = Boxed::new(alloc, Condition::All(both))?;
    assert_eq!(rt; decided(alloc, both)?.as_str(), "rollback");
    let either = pair(alloc, equal(alloc, 1, 1)?, equal(alloc, 1, 2)?)?;
    let either = Boxed::new(alloc, Condition::Any(either))?;
    assert_eq!(rt; decided(alloc, either)?.as_str(), "commit");
    Ok(())
}

#[test]
fn nothing_is_cut_short(rt: HostRuntime) -> Result<(), Fail> {
    let alloc = rt.alloc();
    let unknown = compared(
        alloc,
        Comparison::Equal,
        variable(alloc, "@x")?,
        null(alloc)?,
    )?;
    let either = pair(alloc, equal(alloc, 1, 1)?, unknown)?;
    let either = Boxed::new(alloc, Condition::Any(either))?;
    assert_eq!(rt; decided(alloc, either)?.as_str(), "IF: 2 NoVariable @x");
    Ok(())
}

#[test]
fn each_declaration_sees_those_before_it(rt: HostRuntime) -> Result<(), Fail> {
    let alloc = rt.alloc();
    let mut all = Items::new(alloc);
    declaration(alloc, &mut all, "@a", ValueKind::Bigint, number(alloc, 1)?)?;
    let next = sum(alloc, variable(alloc, "@a")?, Sign::Plus, number(alloc, 1)?)?;
    declaration(alloc, &mut all, "@b", ValueKind::Bigint, next)?;
    declaration(alloc, &mut all, "@a", ValueKind::Text, written(alloc, "x")?)?;
    let mut block = Items::new(alloc);
    block.push(Statement::Declare(all))?;
    block.push(Statement::SetNoCount(true))?;
    assert_eq!(rt;
        done(alloc, block)?.as_str(),
        "end; @b = 2, @a = 'x', 0 rows"
    );
    Ok(())
}

// DECLARE @a BIGINT = 1
fn first_batch(alloc: Global) -> Result<Items<Statement>, AllocError> {
    let mut all = Items::new(alloc);
    declaration(alloc, &mut all, "@a", ValueKind::Bigint, number(alloc, 1)?)?;
    let mut block = Items::new(alloc);
    block.push(Statement::Declare(all))?;
    Ok(block)
}

// DECLARE @b BIGINT = @a + 1, @a NVARCHAR = 'y'
fn second_batch(alloc: Global) -> Result<Items<Statement>, AllocError> {
    let next = sum(alloc, variable(alloc, "@a")?, Sign::Plus, number(alloc, 1)?)?;
    let mut all = Items::new(alloc);
    declaration(alloc, &mut all, "@b", ValueKind::Bigint, next)?;
    declaration(alloc, &mut all, "@a", ValueKind::Text, written(alloc, "y")?)?;
    let mut block = Items::new(alloc);
    block.push(Statement::Declare(all))?;
    Ok(block)
}

#[test]
fn a_later_batch_declares_anew(rt: HostRuntime) -> Result<(), Fail> {
    let alloc = rt.alloc();
    let second = second_batch(alloc)?;
    let batch = text(alloc, "")?;
    let mut machine = machine_of(alloc, first_batch(alloc)?)?;
    assert_eq!(rt; outcome(alloc, &mut machine)?.as_str(), "end");
    let variables = machine.into_variables();
    let mut machine = Machine::new(alloc, Who::B, batch, second, variables);
    assert_eq!(rt; outcome(alloc, &mut machine)?.as_str(), "end");
    let variables = variables_of(alloc, machine)?;
    assert_eq!(rt; variables.as_str(), "@b = 2, @a = 'y', 0 rows");
    Ok(())
}

#[test]
fn a_refused_declare_declares_nothing(rt: HostRuntime) -> Result<(), Fail> {
    let alloc = rt.alloc();
    let mut block = Items::new(alloc);
    declare(alloc, &mut block, "@a", ValueKind::Bigint)?;
    let mut all = Items::new(alloc);
    declaration(alloc, &mut all, "@c", ValueKind::Bigint, null(alloc)?)?;
    declaration(
        alloc,
        &mut all,
        "@d",
        ValueKind::Bigint,
        written(alloc, "1")?,
    )?;
    block.push(Statement::Declare(all))?;
    let wanted = "DECLARE: 3 WrongKind BIGINT; @a = NULL, 0 rows";
    assert_eq!(rt; done(alloc, block)?.as_str(), wanted);
    Ok(())
}

// A block with one statement, and COMMIT behind it.
fn within(alloc: Global, first: Boxed<Statement>) -> Result<Boxed<Statement>, AllocError> {
    let mut block = Items::new(alloc);
    block.push(first.into_inner())?;
    block.push(Statement::Commit)?;
    Boxed::new(alloc, Statement::Block(block))
}

#[test]
fn return_ends_every_block(rt: HostRuntime) -> Result<(), Fail> {
    let alloc = rt.alloc();
    let inner = within(alloc, Boxed::new(alloc, Statement::Return)?)?;
    let mut block = Items::new(alloc);
    block.push(within(alloc, inner)?.into_inner())?;
    let mut machine = machine_of(alloc, block)?;
    assert_eq!(rt; outcome(alloc, &mut machine)?.as_str(), "end");
    assert_eq!(rt; outcome(alloc, &mut machine)?.as_str(), "end");
    Ok(())
}

#[test]
fn a_block_stands_in_its_place(rt: HostRuntime) -> Result<(), Fail> {
    let alloc = rt.alloc();
    let mut inner = Items::new(alloc);
    set(alloc, &mut inner, "@a", number(alloc, 1)?)?;
    let mut block = Items::new(alloc);
    declare(alloc, &mut block, "@a", ValueKind::Bigint)?;
    block.push(Statement::Block(inner))?;
    let next = sum(alloc, variable(alloc, "@a")?, Sign::Plus, number(alloc, 1)?)?;
    set(alloc, &mut block, "@a", next)?;
    assert_eq!(rt; done(alloc, block)?.as_str(), "end; @a = 2, 0 rows");
    Ok(())
}

#[test]
fn without_else_nothing_is_done(rt: HostRuntime) -> Result<(), Fail> {
    let alloc = rt.alloc();
    let then = Boxed::new(alloc, Statement::Commit)?;
    let condition = equal(alloc, 1, 2)?;
    let mut block = Items::new(alloc);
    block.push(Statement::If {
        condition: condition.into_inner(),
        then,
        otherwise: None,
    })?;
    assert_eq!(rt; done(alloc, block)?.as_str(), "end; 0 rows");
    Ok(())
}
