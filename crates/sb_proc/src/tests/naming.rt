//! The words of statements.

use super::{name, number};
use crate::words;
use sb_grammar::{Columns, Expr, Filter, Receive, Statement, Waited};
use sqlite_items::Boxed;
use std::alloc::Global;
use std::test::Fail;

fn receive(alloc: Global, top: Boxed<Expr>) -> Result<Boxed<Receive>, Fail> {
    let queue = name(alloc, "FarQ")?;
    let receive = Receive {
        top: Some(top.into_inner()),
        columns: Columns::All,
        queue,
        filter: Filter::All,
    };
    Ok(Boxed::new(alloc, receive)?)
}

#[test]
fn waitfor_is_named_by_what_it_waits_for(rt: HostRuntime) -> Result<(), Fail> {
    let alloc = rt.alloc();
    let receive = receive(alloc, number(alloc, 1)?)?;
    let waitfor = Statement::Waitfor {
        waited: Waited::Receive(receive.into_inner()),
        timeout: None,
    };
    let waitfor = Boxed::new(alloc, waitfor)?;
    assert_eq!(rt; words(waitfor.get()), "RECEIVE");
    Ok(())
}
