//! The lines of a dump.

ghost use Rattle.std.specs.Prelude.{◌≡◌, ◌++◌, OnOk, flat_map, length};
ghost use Rattle.sb_show.specs.Values.{capped};
ghost use Rattle.sb_show.specs.Answers as says;

use crate::value::{
    ID, name_len, number_len, number_or_null_len, numbered_len, push_handle, push_name,
    push_number, push_number_or_null, push_numbered, push_row_body, push_signed, push_text,
    row_body_len, signed_len, state_text, text_len, total,
};
use sb_log::DumpLine;
use std::alloc::AllocError;

fn on_word(on: bool) -> &'static str
    ensures { result.now ≡ says.on_word on }
{
    if on { " on waiting " } else { " off waiting " }
}

#[tactic(auto, unfolding(crate::specs::Answers::dump_words))]
fn push_words(out: &mut Vec<u8>, line: &DumpLine) -> Result<(), AllocError>
    ensures { OnOk result (out.new.items ≡ out.old.items ++ says.dump_words line.now) }
{
    match line {
        DumpLine::Queue { name, on, waiting } => {
            push_text(out, "queue ")?;
            push_name(out, name)?;
            push_text(out, on_word(*on))?;
            push_number(out, *waiting)
        }
        DumpLine::Side {
            handle,
            state,
            group,
            level,
            outgoing,
        } => {
            push_text(out, "side ")?;
            push_handle(out, *handle)?;
            push_text(out, " ")?;
            push_text(out, state_text(*state))?;
            push_text(out, " group ")?;
            push_handle(out, *group)?;
            push_text(out, " level ")?;
            push_number(out, *level as u64)?;
            push_numbered(out, " outgoing ", *outgoing)
        }
        DumpLine::Row { table, key, row } => {
            push_text(out, "row ")?;
            push_name(out, table)?;
            push_text(out, " ")?;
            push_signed(out, *key)?;
            push_text(out, " ")?;
            push_number_or_null(out, row.n)?;
            push_text(out, " ")?;
            push_row_body(out, &row.body)
        }
    }
}

#[tactic(auto, unfolding(crate::specs::Answers::dump_line))]
fn push_line(out: &mut Vec<u8>, line: &DumpLine) -> Result<(), AllocError>
    ensures { OnOk result (out.new.items ≡ out.old.items ++ says.dump_line line.now) }
{
    push_text(out, "  ")?;
    push_words(out, line)?;
    push_text(out, "\n")
}

/// Appends the lines of a dump.
pub fn push_dump(out: &mut Vec<u8>, lines: &[DumpLine]) -> Result<(), AllocError>
    ensures { OnOk result (out.new.items ≡ out.old.items ++ flat_map says.dump_line lines.now) }
{
    for line in lines {
        push_line(out, line)?;
    }
    Ok(())
}

#[tactic(auto, using(crate::proofs::Lengths::lengths), unfolding(crate::specs::Answers::dump_words))]
fn dump_words_len(line: &DumpLine) -> u64
    ensures { result ≡ capped (length (says.dump_words line.now)) }
{
    match line {
        DumpLine::Queue { name, on, waiting } => total(&[
            text_len("queue "),
            name_len(name),
            text_len(on_word(*on)),
            number_len(*waiting),
        ]),
        DumpLine::Side {
            state,
            level,
            outgoing,
            ..
        } => total(&[
            text_len("side "),
            ID,
            text_len(" "),
            text_len(state_text(*state)),
            text_len(" group "),
            ID,
            text_len(" level "),
            number_len(*level as u64),
            numbered_len(" outgoing ", *outgoing),
        ]),
        DumpLine::Row { table, key, row } => total(&[
            text_len("row "),
            name_len(table),
            text_len(" "),
            signed_len(*key),
            text_len(" "),
            number_or_null_len(row.n),
            text_len(" "),
            row_body_len(&row.body),
        ]),
    }
}

#[tactic(auto, using(crate::proofs::Lengths::lengths), unfolding(crate::specs::Answers::dump_line))]
fn dump_line_len(line: &DumpLine) -> u64
    ensures { result ≡ capped (length (says.dump_line line.now)) }
{
    total(&[text_len("  "), dump_words_len(line), text_len("\n")])
}

/// The length of the lines of a dump.
#[tactic(auto, using(crate::proofs::Lengths::lengths))]
pub fn dump_len(lines: &[DumpLine]) -> u64
    ensures { result ≡ capped (length (flat_map says.dump_line lines.now)) }
{
    let mut sum: u64 = 0;
    for line in lines {
        sum = sum.saturating_add(dump_line_len(line));
    }
    sum
}
