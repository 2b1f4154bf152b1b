//! What stands in the place of a statement that is done.

ghost use Rattle.std.specs.Prelude.{◌≡◌, Bool, List, [], ◌∷◌, ◌++◌, OnOk, IfOk};
ghost use Rattle.sb_grammar.specs.declared.tree.Statement.{Statement, out-Statement};
ghost use Rattle.sb_proc.specs.Steps.{left, left_at, left_behind, left_by};
ghost use Rattle.sb_proc.specs.Turns.{branch};

use crate::rest::Rest;
use sb_grammar::Statement;
use sqlite_items::{Boxed, Items};
use std::alloc::{AllocError, Global};
use std::mem;

/// Takes the next statement away, and puts there what stands in its place, by whether its test
/// holds.
pub fn pass(alloc: Global, rest: &mut Rest<Statement>, holds: bool) -> Result<(), AllocError>
    ensures { OnOk result (rest.new ≡ left holds rest.old) }
{
    match rest.take_first() {
        Err(memory) => Err(memory),
        Ok(first) => replace(alloc, rest, holds, first),
    }
}

// Puts in front what stands in the place of a statement that was taken away.
fn replace(
    alloc: Global,
    rest: &mut Rest<Statement>,
    holds: bool,
    first: Option<Statement>,
) -> Result<(), AllocError>
    ensures { OnOk result (rest.new ≡ left_behind holds first rest.old) }
{
    let mut first = first;
    let left = left_of_first(alloc, holds, &mut first);
    // (let go in place, its fields would be gone through here)
    mem::drop(first);
    match left {
        Err(memory) => Err(memory),
        Ok(Some(block)) => rest.put(block),
        Ok(None) => {
            rest.clear(alloc);
            Ok(())
        }
    }
}

fn left_of_first(
    alloc: Global,
    holds: bool,
    first: &mut Option<Statement>,
) -> Result<Option<Items<Statement>>, AllocError>
    ensures { IfOk result (λ it. (rest : List Statement) → left_by it rest ≡ left_behind holds first.old rest) }
{
    match first {
        None => Ok(Some(Items::new(alloc))),
        Some(statement) => left_of(alloc, holds, statement),
    }
}

// The statements that come in its place, moved out of it; none where it ends its block.
fn left_of(
    alloc: Global,
    holds: bool,
    statement: &mut Statement,
) -> Result<Option<Items<Statement>>, AllocError>
    ensures { IfOk result (λ it. (rest : List Statement) → left_by it rest ≡ left_at holds (out-Statement statement.old) rest) }
{
    match statement {
        Statement::If {
            then,
            otherwise,
            ..
        } => Ok(Some(branch_of(alloc, holds, then, otherwise)?)),
        Statement::Block(all) => Ok(Some(mem::replace(all, Items::new(alloc)))),
        Statement::Return => Ok(None),
        _ => Ok(Some(Items::new(alloc))),
    }
}

fn branch_of(
    alloc: Global,
    holds: bool,
    taken: &mut Boxed<Statement>,
    passed: &mut Option<Boxed<Statement>>,
) -> Result<Items<Statement>, AllocError>
    ensures { IfOk result (λ all. all ≡ branch taken.old passed.old holds) }
{
    if holds {
        let other = Boxed::new(alloc, Statement::Return)?;
        return only(alloc, mem::replace(taken, other));
    }
    match passed.take() {
        None => Ok(Items::new(alloc)),
        Some(statement) => only(alloc, statement),
    }
}

fn only<T: Drop>(alloc: Global, item: Boxed<T>) -> Result<Items<T>, AllocError>
    ensures { IfOk result (λ all. all ≡ item ∷ []) }
{
    let mut all = Items::new(alloc);
    all.push(item.into_inner())?;
    Ok(all)
}
