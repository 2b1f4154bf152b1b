//! Writing operations and entries.

ghost use Rattle.std.specs.Prelude.{◌≡◌, ◌++◌, ◌<◌, ◌^◌, length, All, IfSome, OnOk};
ghost use Rattle.std.specs.List.{flat_map};
ghost use Rattle.sb_fields.specs.Spelling.{bytes32, optional};
ghost use Rattle.sb_entry.specs.Fields.{HeaderFits, BodyFits, FinalFits, OpFits, EntryFits};
ghost use Rattle.sb_model.specs.Spelling.{bigint_bytes, final_bytes, op_bytes, made_bytes, entry_bytes};

use crate::definition_writing::put_definition;
use crate::message_writing::{
    put_body, put_content, put_flag, put_handle, put_header, put_name, put_side,
};
use sb_fields::{put_bytes32, put_text16, put_u8, put_u32, put_u64};
use sb_log::{Entry, Final, NewSide, Op, Text};
use std::alloc::AllocError;

/// Appends a BIGINT.
#[tactic(auto, unfolding(sb_model::specs::Spelling::bigint_bytes))]
fn put_bigint(out: &mut Vec<u8>, n: i64) -> Result<(), AllocError>
    ensures { OnOk result (out.new.items ≡ out.old.items ++ bigint_bytes n) }
{
    put_u64(out, n.cast_unsigned())
}

#[tactic(auto, unfolding(sb_fields::specs::Spelling::optional))]
fn put_optional_bigint(out: &mut Vec<u8>, n: Option<i64>) -> Result<(), AllocError>
    ensures { OnOk result (out.new.items ≡ out.old.items ++ optional bigint_bytes n) }
{
    match n {
        None => put_flag(out, false),
        Some(n) => {
            put_flag(out, true)?;
            put_bigint(out, n)
        }
    }
}

#[tactic(auto, unfolding(sb_fields::specs::Spelling::optional))]
fn put_optional_text(out: &mut Vec<u8>, text: &Option<Text>) -> Result<(), AllocError>
    requires { BodyFits text.now }
    ensures { OnOk result (out.new.items ≡ out.old.items ++ optional bytes32 text.now) }
{
    match text {
        None => put_flag(out, false),
        Some(text) => {
            put_flag(out, true)?;
            put_bytes32(out, text.as_str().as_bytes())
        }
    }
}

/// Appends the last message of a side.
#[tactic(auto, unfolding(sb_model::specs::Spelling::final_bytes))]
fn put_final(out: &mut Vec<u8>, last: &Final) -> Result<(), AllocError>
    requires { FinalFits last.now }
    ensures { OnOk result (out.new.items ≡ out.old.items ++ final_bytes last.now) }
{
    match last {
        Final::Silent => put_u8(out, 0),
        Final::EndDialog => put_u8(out, 1),
        Final::Error { code, text } => {
            put_u8(out, 2)?;
            put_u32(out, *code)?;
            put_text16(out, text.as_str())
        }
    }
}

/// Appends an operation.
#[tactic(auto, unfolding(sb_model::specs::Spelling::op_bytes))]
fn put_op(out: &mut Vec<u8>, op: &Op) -> Result<(), AllocError>
    requires { OpFits op.now }
    ensures { OnOk result (out.new.items ≡ out.old.items ++ op_bytes op.now) }
{
    match op {
        Op::Begin {
            handle,
            group,
            header,
        } => {
            put_u8(out, 1)?;
            put_handle(out, *handle)?;
            put_handle(out, *group)?;
            put_header(out, header)
        }
        Op::Send { side, kind, body } => {
            put_u8(out, 2)?;
            put_side(out, *side)?;
            put_name(out, kind)?;
            put_body(out, body)
        }
        Op::Took { queue, item } => {
            put_u8(out, 3)?;
            put_name(out, queue)?;
            put_u64(out, *item)
        }
        Op::End { side, last } => {
            put_u8(out, 4)?;
            put_side(out, *side)?;
            put_final(out, last)
        }
        Op::Cleanup { side } => {
            put_u8(out, 5)?;
            put_side(out, *side)
        }
        Op::Move { side, group } => {
            put_u8(out, 6)?;
            put_side(out, *side)?;
            put_handle(out, *group)
        }
        Op::Timer { side, at } => {
            put_u8(out, 7)?;
            put_side(out, *side)?;
            put_u64(out, *at)
        }
        Op::Put {
            table,
            key,
            n,
            body,
        } => {
            put_u8(out, 8)?;
            put_name(out, table)?;
            put_bigint(out, *key)?;
            put_optional_bigint(out, *n)?;
            put_optional_text(out, body)
        }
        Op::Delete { table, key } => {
            put_u8(out, 9)?;
            put_name(out, table)?;
            put_bigint(out, *key)
        }
    }
}

fn put_ops(out: &mut Vec<u8>, ops: &[Op]) -> Result<(), AllocError>
    requires { All OpFits ops.now }
    ensures { OnOk result (out.new.items ≡ out.old.items ++ flat_map op_bytes ops.now) }
{
    for op in ops {
        put_op(out, op)?;
    }
    Ok(())
}

#[tactic(auto, unfolding(sb_model::specs::Spelling::made_bytes))]
fn put_made(out: &mut Vec<u8>, made: &NewSide) -> Result<(), AllocError>
    requires { HeaderFits made.now.header }
    ensures { OnOk result (out.new.items ≡ out.old.items ++ made_bytes made.now) }
{
    put_handle(out, made.handle)?;
    put_handle(out, made.group)?;
    put_header(out, &made.header)
}

#[tactic(auto, unfolding(sb_fields::specs::Spelling::optional))]
fn put_optional_made(out: &mut Vec<u8>, made: &Option<NewSide>) -> Result<(), AllocError>
    requires { IfSome made.now (λ m. HeaderFits m.header) }
    ensures { OnOk result (out.new.items ≡ out.old.items ++ optional made_bytes made.now) }
{
    match made {
        None => put_flag(out, false),
        Some(made) => {
            put_flag(out, true)?;
            put_made(out, made)
        }
    }
}

/// Appends an entry.
#[tactic(auto, unfolding(sb_model::specs::Spelling::entry_bytes))]
pub(crate) fn put_entry(out: &mut Vec<u8>, entry: &Entry) -> Result<(), AllocError>
    requires { EntryFits entry.now }
    ensures { OnOk result (out.new.items ≡ out.old.items ++ entry_bytes entry.now) }
{
    match entry {
        Entry::Defined(ddl) => {
            put_u8(out, 1)?;
            put_definition(out, ddl)
        }
        Entry::Txn { tx, ops } => {
            put_u8(out, 2)?;
            put_u64(out, *tx)?;
            put_u32(out, ops.len() as u32)?;
            put_ops(out, ops.as_slice())
        }
        Entry::Accepted {
            side,
            number,
            made,
            content,
        } => {
            put_u8(out, 3)?;
            put_side(out, *side)?;
            put_u64(out, *number)?;
            put_optional_made(out, made)?;
            put_content(out, content)
        }
        Entry::Acked { side, upto, closed } => {
            put_u8(out, 4)?;
            put_side(out, *side)?;
            put_u64(out, *upto)?;
            put_flag(out, *closed)
        }
        Entry::Fired { side } => {
            put_u8(out, 5)?;
            put_side(out, *side)
        }
        Entry::Expired { side } => {
            put_u8(out, 6)?;
            put_side(out, *side)
        }
        Entry::QueueSet { queue, on } => {
            put_u8(out, 7)?;
            put_name(out, queue)?;
            put_flag(out, *on)
        }
    }
}
