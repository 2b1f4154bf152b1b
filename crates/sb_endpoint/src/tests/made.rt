//! Entries, in few words.

use crate::Endpoints;
use sb_log::{Content, Data, Entry, Final, Handle, Header, Name, NewSide, Op, Ops, SideId, Text};
use std::alloc::Global;
use std::mem::drop;
use std::test::Fail;

/// What an operation does. A header that comes with a group has its number as the expiry.
#[derive(Clone, Copy)]
pub(super) enum Deed {
    Begin { handle: u128, group: u64 },
    Send(SideId),
    Took,
    EndSilently(SideId),
    End(SideId),
    EndWithError(SideId),
    Cleanup(SideId),
    Move(SideId, u128),
    Timer(SideId),
}

/// The kind of a content.
#[derive(Clone, Copy)]
pub(super) enum What {
    App,
    EndDialog,
    Error,
}

/// What an entry says.
#[derive(Clone, Copy)]
pub(super) enum Saying {
    Did(Deed),
    Both(Deed, Deed),
    Accepted(SideId, What),
    Made(SideId, u128, u64),
    Acked(SideId, u64, bool),
    Fired(SideId),
    Expired(SideId),
}

/// The two sides of the first conversation.
pub(super) const NEAR: SideId = SideId {
    conversation: Handle(1),
    initiator: true,
};

pub(super) const FAR: SideId = SideId {
    conversation: Handle(1),
    initiator: false,
};

fn name(alloc: Global, text: &str) -> Result<Name, Fail> {
    Ok(Name::new(alloc, text)?)
}

fn header(alloc: Global, to: Option<Handle>, expires: u64) -> Result<Header, Fail> {
    let from_service = name(alloc, "Buyer")?;
    let to_service = name(alloc, "Seller")?;
    let contract = name(alloc, "DEFAULT")?;
    Ok(Header {
        from_service,
        to_service,
        contract,
        from: Handle(0),
        to,
        expires,
    })
}

fn begin(alloc: Global, handle: u128, group: u64) -> Result<Op, Fail> {
    let header = header(alloc, None, group)?;
    Ok(Op::Begin {
        handle: Handle(handle),
        group: Handle(u128::from(group)),
        header,
    })
}

fn send(alloc: Global, side: SideId) -> Result<Op, Fail> {
    let kind = name(alloc, "DEFAULT")?;
    Ok(Op::Send {
        side,
        kind,
        body: None,
    })
}

fn took(alloc: Global) -> Result<Op, Fail> {
    let queue = name(alloc, "Q")?;
    Ok(Op::Took { queue, item: 1 })
}

fn text(alloc: Global) -> Result<Text, Fail> {
    Ok(Text::from_string(String::from_str(alloc, "broken")?))
}

fn end_with_error(alloc: Global, side: SideId) -> Result<Op, Fail> {
    let text = text(alloc)?;
    Ok(Op::End {
        side,
        last: Final::Error { code: 50, text },
    })
}

fn op_of(alloc: Global, deed: Deed) -> Result<Op, Fail> {
    match deed {
        Deed::Begin { handle, group } => begin(alloc, handle, group),
        Deed::Send(side) => send(alloc, side),
        Deed::Took => took(alloc),
        Deed::EndSilently(side) => Ok(Op::End {
            side,
            last: Final::Silent,
        }),
        Deed::End(side) => Ok(Op::End {
            side,
            last: Final::EndDialog,
        }),
        Deed::EndWithError(side) => end_with_error(alloc, side),
        Deed::Cleanup(side) => Ok(Op::Cleanup { side }),
        Deed::Move(side, group) => Ok(Op::Move {
            side,
            group: Handle(group),
        }),
        Deed::Timer(side) => Ok(Op::Timer { side, at: 1 }),
    }
}

fn push(alloc: Global, ops: &mut Ops, deed: Deed) -> Result<(), Fail> {
    let op = op_of(alloc, deed)?;
    ops.push(op)?;
    Ok(())
}

fn single(alloc: Global, deed: Deed) -> Result<Ops, Fail> {
    let mut ops = Ops::new(alloc);
    push(alloc, &mut ops, deed)?;
    Ok(ops)
}

fn pair(alloc: Global, first: Deed, second: Deed) -> Result<Ops, Fail> {
    let mut ops = single(alloc, first)?;
    push(alloc, &mut ops, second)?;
    Ok(ops)
}

fn app(alloc: Global) -> Result<Content, Fail> {
    let kind = name(alloc, "DEFAULT")?;
    Ok(Content::App { kind, body: None })
}

fn content_of(alloc: Global, what: What) -> Result<Content, Fail> {
    match what {
        What::App => app(alloc),
        What::EndDialog => Ok(Content::EndDialog),
        What::Error => {
            let text = text(alloc)?;
            Ok(Content::Error { code: 50, text })
        }
    }
}

fn made(alloc: Global, side: SideId, handle: u128, group: u64) -> Result<Entry, Fail> {
    let header = header(alloc, None, group)?;
    let made = NewSide {
        handle: Handle(handle),
        group: Handle(u128::from(group)),
        header,
    };
    Ok(Entry::Accepted {
        side,
        number: 1,
        made: Some(made),
        content: Content::EndDialog,
    })
}

/// A message of a side to an instance.
pub(super) fn data(
    alloc: Global,
    side: SideId,
    number: u64,
    to: Option<Handle>,
) -> Result<Data, Fail> {
    let header = header(alloc, to, 9)?;
    Ok(Data {
        side,
        number,
        header,
        content: Content::EndDialog,
    })
}

fn entry_of(alloc: Global, saying: Saying) -> Result<Entry, Fail> {
    match saying {
        Saying::Did(deed) => {
            let ops = single(alloc, deed)?;
            Ok(Entry::Txn { tx: 1, ops })
        }
        Saying::Both(first, second) => {
            let ops = pair(alloc, first, second)?;
            Ok(Entry::Txn { tx: 1, ops })
        }
        Saying::Accepted(side, what) => {
            let content = content_of(alloc, what)?;
            Ok(Entry::Accepted {
                side,
                number: 1,
                made: None,
                content,
            })
        }
        Saying::Made(side, handle, group) => made(alloc, side, handle, group),
        Saying::Acked(side, upto, closed) => Ok(Entry::Acked { side, upto, closed }),
        Saying::Fired(side) => Ok(Entry::Fired { side }),
        Saying::Expired(side) => Ok(Entry::Expired { side }),
    }
}

fn take_up(endpoints: &mut Endpoints, entry: &Entry) -> Result<(), Fail> {
    endpoints.reserve(entry)?;
    endpoints.apply(entry);
    Ok(())
}

/// Makes room for an entry and applies it.
pub(super) fn tell(alloc: Global, endpoints: &mut Endpoints, saying: Saying) -> Result<(), Fail> {
    let entry = entry_of(alloc, saying)?;
    let outcome = take_up(endpoints, &entry);
    drop(entry);
    outcome
}
