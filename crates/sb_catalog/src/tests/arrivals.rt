//! What messages lack.

use crate::Catalog;
use crate::tests::made::{example, let_go, name};
use sb_log::{Body, Bytes, Content, Data, Handle, Header, Name, SideId};
use std::alloc::Global;
use std::process::Abort;
use std::test::Fail;

fn header(alloc: Global, to: &str, contract: &str) -> Result<Header, Fail> {
    let from_service = name(alloc, "Far")?;
    let to_service = name(alloc, to)?;
    let contract = name(alloc, contract)?;
    Ok(Header {
        from_service,
        to_service,
        contract,
        from: Handle(1),
        to: None,
        expires: 1,
    })
}

/// The number of what the message lacks, with the message let go.
fn lacks(
    catalog: &Catalog,
    header: Header,
    content: Content,
    initiator: bool,
    made: Option<&Name>,
) -> u8 {
    let sent = Data {
        side: SideId {
            conversation: Handle(2),
            initiator,
        },
        number: 1,
        header,
        content,
    };
    catalog.here(&sent, made)
}

/// A body of no bytes, or none.
fn body(alloc: Global, has_body: bool) -> Option<Body> {
    if has_body {
        Some(Bytes::from_vec(Vec::new(alloc)))
    } else {
        None
    }
}

fn asked(
    alloc: Global,
    catalog: &Catalog,
    [to, contract, kind]: [&str; 3],
    has_body: bool,
    initiator: bool,
    made: Option<&Name>,
) -> Result<u8, Fail> {
    let header = header(alloc, to, contract)?;
    let kind = name(alloc, kind)?;
    let body = body(alloc, has_body);
    let content = Content::App { kind, body };
    Ok(lacks(catalog, header, content, initiator, made))
}

/// Messages that make a side.
fn ask_first(rt: &impl Abort, alloc: Global, catalog: &Catalog) -> Result<(), Fail> {
    for (names, has_body, wanted) in [
        (["S", "C", "X"], true, 0),
        (["none", "none", "X"], true, 3),
        (["S", "none", "X"], true, 5),
        (["S", "D", "X"], true, 5),
        (["S", "C", "DEFAULT"], true, 6),
        (["S", "C", "Y"], true, 6),
        (["S", "C", "Y"], false, 0),
    ] {
        let number = asked(alloc, catalog, names, has_body, true, None)?;
        assert_eq!(rt; number, wanted);
    }
    Ok(())
}

#[test]
fn a_message_that_makes_a_side_lacks_what_is_not_here(rt: HostRuntime) -> Result<(), Fail> {
    let catalog = example(&rt, rt.alloc())?;
    let outcome = ask_first(&rt, rt.alloc(), &catalog);
    let_go(catalog);
    outcome
}

/// Messages without a body to a side that is there: neither its service nor what that offers
/// counts.
fn ask_next(rt: &impl Abort, alloc: Global, catalog: &Catalog) -> Result<(), Fail> {
    let queue = name(alloc, "Q")?;
    for (names, initiator, wanted) in [
        (["none", "none", "X"], true, 5),
        (["none", "C", "X"], true, 0),
        (["S", "D", "X"], false, 0),
        (["S", "D", "Y"], true, 0),
        (["S", "D", "Y"], false, 6),
        (["S", "D", "DEFAULT"], true, 6),
    ] {
        let number = asked(alloc, catalog, names, false, initiator, Some(&queue))?;
        assert_eq!(rt; number, wanted);
    }
    Ok(())
}

#[test]
fn a_message_to_a_side_lacks_what_is_not_here(rt: HostRuntime) -> Result<(), Fail> {
    let catalog = example(&rt, rt.alloc())?;
    let outcome = ask_next(&rt, rt.alloc(), &catalog);
    let_go(catalog);
    outcome
}

/// An end of a dialog needs its contract, and no leave to be sent.
fn ask_end(rt: &impl Abort, alloc: Global, catalog: &Catalog) -> Result<(), Fail> {
    let first = header(alloc, "S", "C")?;
    assert_eq!(rt; lacks(catalog, first, Content::EndDialog, true, None), 0);
    let second = header(alloc, "S", "D")?;
    assert_eq!(rt; lacks(catalog, second, Content::EndDialog, true, None), 5);
    Ok(())
}

#[test]
fn an_end_of_a_dialog_lacks_what_is_not_here(rt: HostRuntime) -> Result<(), Fail> {
    let catalog = example(&rt, rt.alloc())?;
    let outcome = ask_end(&rt, rt.alloc(), &catalog);
    let_go(catalog);
    outcome
}
