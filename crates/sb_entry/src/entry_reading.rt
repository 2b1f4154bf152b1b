//! Reading operations and entries.

ghost use Rattle.std.specs.Prelude.{◌≡◌};
ghost use Rattle.sb_fields.specs.Reading.{optional_at, list_at};
ghost use Rattle.sb_entry.specs.Gives.{Gives};
ghost use Rattle.sb_model.specs.Reading.{bigint_at, long_text_at, final_error_at, final_at, begin_at, send_at, took_at, end_at, cleanup_at, move_at, timer_at, put_at, delete_at, op_at, made_at, defined_at, count_at, txn_at, accepted_at, acked_at, fired_at, expired_at, queue_set_at, entry_at};

use crate::definition_reading::read_definition;
use crate::message_reading::{
    byte_between, eight_bytes, four_bytes, optional_bytes, read_bigint, read_content, read_flag,
    read_handle, read_header, read_long_text, read_name, read_side, read_text,
};
use crate::unread::Unread;
use sb_log::{Entry, Final, NewSide, Op, Ops, Text};
use std::alloc::Global;

#[tactic(auto, unfolding(sb_fields::specs::Reading::read_then, sb_fields::specs::Reading::give, sb_fields::specs::Reading::some_at, sb_fields::specs::Reading::optional_at))]
fn optional_bigint(bytes: &[u8]) -> Result<(Option<i64>, &[u8]), Unread>
    ensures { Gives (λ x. (x.0, x.1.now)) result (optional_at bigint_at bytes.now) }
{
    let (there, rest) = read_flag(bytes)?;
    if there {
        let (value, rest) = read_bigint(rest)?;
        Ok((Some(value), rest))
    } else {
        Ok((None, rest))
    }
}

#[tactic(auto, unfolding(sb_fields::specs::Reading::read_then, sb_fields::specs::Reading::give, sb_fields::specs::Reading::some_at, sb_fields::specs::Reading::optional_at))]
fn optional_long_text(alloc: Global, bytes: &[u8]) -> Result<(Option<Text>, &[u8]), Unread>
    ensures { Gives (λ x. (x.0, x.1.now)) result (optional_at long_text_at bytes.now) }
{
    let (there, rest) = read_flag(bytes)?;
    if there {
        let (value, rest) = read_long_text(alloc, rest)?;
        Ok((Some(value), rest))
    } else {
        Ok((None, rest))
    }
}

#[tactic(auto, unfolding(sb_fields::specs::Reading::read_then, sb_fields::specs::Reading::give, sb_model::specs::Reading::final_error_at))]
fn final_error(alloc: Global, bytes: &[u8]) -> Result<(Final, &[u8]), Unread>
    ensures { Gives (λ x. (x.0, x.1.now)) result (final_error_at bytes.now) }
{
    let (code, rest) = four_bytes(bytes)?;
    let (text, rest) = read_text(alloc, rest)?;
    Ok((Final::Error { code, text }, rest))
}

/// Reads the last message of a side.
#[tactic(auto, unfolding(sb_fields::specs::Reading::read_then, sb_fields::specs::Reading::give, sb_model::specs::Reading::final_at))]
fn read_final(alloc: Global, bytes: &[u8]) -> Result<(Final, &[u8]), Unread>
    ensures { Gives (λ x. (x.0, x.1.now)) result (final_at bytes.now) }
{
    let (kind, rest) = byte_between(bytes, 0, 2)?;
    match kind {
        0 => Ok((Final::Silent, rest)),
        1 => Ok((Final::EndDialog, rest)),
        _ => final_error(alloc, rest),
    }
}

#[tactic(auto, unfolding(sb_fields::specs::Reading::read_then, sb_fields::specs::Reading::give, sb_model::specs::Reading::begin_at))]
fn begin(alloc: Global, bytes: &[u8]) -> Result<(Op, &[u8]), Unread>
    ensures { Gives (λ x. (x.0, x.1.now)) result (begin_at bytes.now) }
{
    let (handle, rest) = read_handle(bytes)?;
    let (group, rest) = read_handle(rest)?;
    let (header, rest) = read_header(alloc, rest)?;
    Ok((
        Op::Begin {
            handle,
            group,
            header,
        },
        rest,
    ))
}

#[tactic(auto, unfolding(sb_fields::specs::Reading::read_then, sb_fields::specs::Reading::give, sb_model::specs::Reading::send_at))]
fn send(alloc: Global, bytes: &[u8]) -> Result<(Op, &[u8]), Unread>
    ensures { Gives (λ x. (x.0, x.1.now)) result (send_at bytes.now) }
{
    let (side, rest) = read_side(bytes)?;
    let (kind, rest) = read_name(alloc, rest)?;
    let (body, rest) = optional_bytes(alloc, rest)?;
    Ok((Op::Send { side, kind, body }, rest))
}

#[tactic(auto, unfolding(sb_fields::specs::Reading::read_then, sb_fields::specs::Reading::give, sb_model::specs::Reading::took_at))]
fn took(alloc: Global, bytes: &[u8]) -> Result<(Op, &[u8]), Unread>
    ensures { Gives (λ x. (x.0, x.1.now)) result (took_at bytes.now) }
{
    let (queue, rest) = read_name(alloc, bytes)?;
    let (item, rest) = eight_bytes(rest)?;
    Ok((Op::Took { queue, item }, rest))
}

#[tactic(auto, unfolding(sb_fields::specs::Reading::read_then, sb_fields::specs::Reading::give, sb_model::specs::Reading::end_at))]
fn end(alloc: Global, bytes: &[u8]) -> Result<(Op, &[u8]), Unread>
    ensures { Gives (λ x. (x.0, x.1.now)) result (end_at bytes.now) }
{
    let (side, rest) = read_side(bytes)?;
    let (last, rest) = read_final(alloc, rest)?;
    Ok((Op::End { side, last }, rest))
}

#[tactic(auto, unfolding(sb_fields::specs::Reading::read_then, sb_fields::specs::Reading::give, sb_model::specs::Reading::cleanup_at))]
fn cleanup(bytes: &[u8]) -> Result<(Op, &[u8]), Unread>
    ensures { Gives (λ x. (x.0, x.1.now)) result (cleanup_at bytes.now) }
{
    let (side, rest) = read_side(bytes)?;
    Ok((Op::Cleanup { side }, rest))
}

#[tactic(auto, unfolding(sb_fields::specs::Reading::read_then, sb_fields::specs::Reading::give, sb_model::specs::Reading::move_at))]
fn move_to(bytes: &[u8]) -> Result<(Op, &[u8]), Unread>
    ensures { Gives (λ x. (x.0, x.1.now)) result (move_at bytes.now) }
{
    let (side, rest) = read_side(bytes)?;
    let (group, rest) = read_handle(rest)?;
    Ok((Op::Move { side, group }, rest))
}

#[tactic(auto, unfolding(sb_fields::specs::Reading::read_then, sb_fields::specs::Reading::give, sb_model::specs::Reading::timer_at))]
fn timer(bytes: &[u8]) -> Result<(Op, &[u8]), Unread>
    ensures { Gives (λ x. (x.0, x.1.now)) result (timer_at bytes.now) }
{
    let (side, rest) = read_side(bytes)?;
    let (at, rest) = eight_bytes(rest)?;
    Ok((Op::Timer { side, at }, rest))
}

#[tactic(auto, unfolding(sb_fields::specs::Reading::read_then, sb_fields::specs::Reading::give, sb_model::specs::Reading::put_at))]
fn put(alloc: Global, bytes: &[u8]) -> Result<(Op, &[u8]), Unread>
    ensures { Gives (λ x. (x.0, x.1.now)) result (put_at bytes.now) }
{
    let (table, rest) = read_name(alloc, bytes)?;
    let (key, rest) = read_bigint(rest)?;
    let (n, rest) = optional_bigint(rest)?;
    let (body, rest) = optional_long_text(alloc, rest)?;
    Ok((
        Op::Put {
            table,
            key,
            n,
            body,
        },
        rest,
    ))
}

#[tactic(auto, unfolding(sb_fields::specs::Reading::read_then, sb_fields::specs::Reading::give, sb_model::specs::Reading::delete_at))]
fn delete(alloc: Global, bytes: &[u8]) -> Result<(Op, &[u8]), Unread>
    ensures { Gives (λ x. (x.0, x.1.now)) result (delete_at bytes.now) }
{
    let (table, rest) = read_name(alloc, bytes)?;
    let (key, rest) = read_bigint(rest)?;
    Ok((Op::Delete { table, key }, rest))
}

/// Reads an operation.
#[tactic(auto, unfolding(sb_fields::specs::Reading::read_then, sb_fields::specs::Reading::give, sb_model::specs::Reading::op_at))]
fn read_op(alloc: Global, bytes: &[u8]) -> Result<(Op, &[u8]), Unread>
    ensures { Gives (λ x. (x.0, x.1.now)) result (op_at bytes.now) }
{
    let (kind, rest) = byte_between(bytes, 1, 9)?;
    match kind {
        1 => begin(alloc, rest),
        2 => send(alloc, rest),
        3 => took(alloc, rest),
        4 => end(alloc, rest),
        5 => cleanup(rest),
        6 => move_to(rest),
        7 => timer(rest),
        8 => put(alloc, rest),
        _ => delete(alloc, rest),
    }
}

fn read_ops(alloc: Global, count: u32, bytes: &[u8]) -> Result<(Vec<Op>, &[u8]), Unread>
    ensures { Gives (λ x. (x.0.items, x.1.now)) result (list_at op_at count bytes.now) }
{
    let mut values = Vec::new(alloc);
    let mut rest = bytes;
    for _ in 0..count {
        let (value, after) = read_op(alloc, rest)?;
        values.push(value)?;
        rest = after;
    }
    Ok((values, rest))
}

#[tactic(auto, unfolding(sb_fields::specs::Reading::such_that, sb_model::specs::Reading::count_at))]
fn read_count(bytes: &[u8]) -> Result<(u32, &[u8]), Unread>
    ensures { Gives (λ x. (x.0, x.1.now)) result (count_at bytes.now) }
{
    let (count, rest) = four_bytes(bytes)?;
    if 1 <= count {
        Ok((count, rest))
    } else {
        Err(Unread::Field { left: bytes.len() })
    }
}

#[tactic(auto, unfolding(sb_fields::specs::Reading::read_then, sb_fields::specs::Reading::give, sb_model::specs::Reading::made_at))]
fn made(alloc: Global, bytes: &[u8]) -> Result<(NewSide, &[u8]), Unread>
    ensures { Gives (λ x. (x.0, x.1.now)) result (made_at bytes.now) }
{
    let (handle, rest) = read_handle(bytes)?;
    let (group, rest) = read_handle(rest)?;
    let (header, rest) = read_header(alloc, rest)?;
    Ok((
        NewSide {
            handle,
            group,
            header,
        },
        rest,
    ))
}

#[tactic(auto, unfolding(sb_fields::specs::Reading::read_then, sb_fields::specs::Reading::give, sb_fields::specs::Reading::some_at, sb_fields::specs::Reading::optional_at))]
fn optional_made(alloc: Global, bytes: &[u8]) -> Result<(Option<NewSide>, &[u8]), Unread>
    ensures { Gives (λ x. (x.0, x.1.now)) result (optional_at made_at bytes.now) }
{
    let (there, rest) = read_flag(bytes)?;
    if there {
        let (value, rest) = made(alloc, rest)?;
        Ok((Some(value), rest))
    } else {
        Ok((None, rest))
    }
}

#[tactic(auto, unfolding(sb_fields::specs::Reading::read_then, sb_fields::specs::Reading::give, sb_model::specs::Reading::defined_at))]
fn defined(alloc: Global, bytes: &[u8]) -> Result<(Entry, &[u8]), Unread>
    ensures { Gives (λ x. (x.0, x.1.now)) result (defined_at bytes.now) }
{
    let (ddl, rest) = read_definition(alloc, bytes)?;
    Ok((Entry::Defined(ddl), rest))
}

#[tactic(auto, unfolding(sb_fields::specs::Reading::read_then, sb_fields::specs::Reading::give, sb_model::specs::Reading::txn_at))]
fn txn(alloc: Global, bytes: &[u8]) -> Result<(Entry, &[u8]), Unread>
    ensures { Gives (λ x. (x.0, x.1.now)) result (txn_at bytes.now) }
{
    let (tx, rest) = eight_bytes(bytes)?;
    let (count, rest) = read_count(rest)?;
    let (ops, rest) = read_ops(alloc, count, rest)?;
    Ok((
        Entry::Txn {
            tx,
            ops: Ops::from_vec(ops),
        },
        rest,
    ))
}

#[tactic(auto, unfolding(sb_fields::specs::Reading::read_then, sb_fields::specs::Reading::give, sb_model::specs::Reading::accepted_at))]
fn accepted(alloc: Global, bytes: &[u8]) -> Result<(Entry, &[u8]), Unread>
    ensures { Gives (λ x. (x.0, x.1.now)) result (accepted_at bytes.now) }
{
    let (side, rest) = read_side(bytes)?;
    let (number, rest) = eight_bytes(rest)?;
    let (made, rest) = optional_made(alloc, rest)?;
    let (content, rest) = read_content(alloc, rest)?;
    Ok((
        Entry::Accepted {
            side,
            number,
            made,
            content,
        },
        rest,
    ))
}

#[tactic(auto, unfolding(sb_fields::specs::Reading::read_then, sb_fields::specs::Reading::give, sb_model::specs::Reading::acked_at))]
fn acked(bytes: &[u8]) -> Result<(Entry, &[u8]), Unread>
    ensures { Gives (λ x. (x.0, x.1.now)) result (acked_at bytes.now) }
{
    let (side, rest) = read_side(bytes)?;
    let (upto, rest) = eight_bytes(rest)?;
    let (closed, rest) = read_flag(rest)?;
    Ok((Entry::Acked { side, upto, closed }, rest))
}

#[tactic(auto, unfolding(sb_fields::specs::Reading::read_then, sb_fields::specs::Reading::give, sb_model::specs::Reading::fired_at))]
fn fired(bytes: &[u8]) -> Result<(Entry, &[u8]), Unread>
    ensures { Gives (λ x. (x.0, x.1.now)) result (fired_at bytes.now) }
{
    let (side, rest) = read_side(bytes)?;
    Ok((Entry::Fired { side }, rest))
}

#[tactic(auto, unfolding(sb_fields::specs::Reading::read_then, sb_fields::specs::Reading::give, sb_model::specs::Reading::expired_at))]
fn expired(bytes: &[u8]) -> Result<(Entry, &[u8]), Unread>
    ensures { Gives (λ x. (x.0, x.1.now)) result (expired_at bytes.now) }
{
    let (side, rest) = read_side(bytes)?;
    Ok((Entry::Expired { side }, rest))
}

#[tactic(auto, unfolding(sb_fields::specs::Reading::read_then, sb_fields::specs::Reading::give, sb_model::specs::Reading::queue_set_at))]
fn queue_set(alloc: Global, bytes: &[u8]) -> Result<(Entry, &[u8]), Unread>
    ensures { Gives (λ x. (x.0, x.1.now)) result (queue_set_at bytes.now) }
{
    let (queue, rest) = read_name(alloc, bytes)?;
    let (on, rest) = read_flag(rest)?;
    Ok((Entry::QueueSet { queue, on }, rest))
}

/// Reads an entry.
#[tactic(auto, unfolding(sb_fields::specs::Reading::read_then, sb_fields::specs::Reading::give, sb_model::specs::Reading::entry_at))]
pub(crate) fn read_entry(alloc: Global, bytes: &[u8]) -> Result<(Entry, &[u8]), Unread>
    ensures { Gives (λ x. (x.0, x.1.now)) result (entry_at bytes.now) }
{
    let (kind, rest) = byte_between(bytes, 1, 7)?;
    match kind {
        1 => defined(alloc, rest),
        2 => txn(alloc, rest),
        3 => accepted(alloc, rest),
        4 => acked(rest),
        5 => fired(rest),
        6 => expired(rest),
        _ => queue_set(alloc, rest),
    }
}
