//! The answer of a step.

ghost use Rattle.std.specs.Prelude.{◌≡◌, ◌++◌, OnOk, flat_map, length};
ghost use Rattle.sb_show.specs.Values.{capped};
ghost use Rattle.sb_show.specs.Answers as says;

use crate::dump::{dump_len, push_dump};
use crate::refusal::{barred_len, push_barred, push_refusal, refusal_len};
use crate::value::{
    ID, LETTER, SIDE, body_len, bracketed_len, group_len, kind_name, name_len, numbered_len,
    push_body, push_group, push_handle, push_kind, push_letter, push_name, push_numbered,
    push_side, push_text, text_len, total,
};
use sb_log::{
    Answer, Arrived, Event, Frame, FrameLine, Name, ReceivedItem, Refusal, Reply, Verdict,
};
use std::alloc::AllocError;

#[tactic(auto, unfolding(crate::specs::Answers::off_text))]
fn push_off(out: &mut Vec<u8>, queue: &Name) -> Result<(), AllocError>
    ensures { OnOk result (out.new.items ≡ out.old.items ++ says.off_text queue.now) }
{
    push_text(out, ", off ")?;
    push_name(out, queue)
}

fn push_all_off(out: &mut Vec<u8>, queues: &[Name]) -> Result<(), AllocError>
    ensures { OnOk result (out.new.items ≡ out.old.items ++ flat_map says.off_text queues.now) }
{
    for queue in queues {
        push_off(out, queue)?;
    }
    Ok(())
}

#[tactic(auto, unfolding(crate::specs::Answers::rolled_back_words))]
fn push_rolled_back(out: &mut Vec<u8>, tx: u64, off: &[Name]) -> Result<(), AllocError>
    ensures { OnOk result (out.new.items ≡ out.old.items ++ says.rolled_back_words tx off.now) }
{
    push_numbered(out, "rolled back ", tx)?;
    push_all_off(out, off)
}

#[tactic(auto, unfolding(crate::specs::Answers::reply_words))]
fn push_reply(out: &mut Vec<u8>, reply: &Reply) -> Result<(), AllocError>
    ensures { OnOk result (out.new.items ≡ out.old.items ++ says.reply_words reply.now) }
{
    match reply {
        Reply::Done => push_text(out, "ok"),
        Reply::Began { tx } => push_numbered(out, "transaction ", *tx),
        Reply::Committed { tx } => push_numbered(out, "committed ", *tx),
        Reply::RolledBack { tx, off } => push_rolled_back(out, *tx, off.as_slice()),
        Reply::Dialog { handle, group } => {
            push_text(out, "handle ")?;
            push_handle(out, *handle)?;
            push_text(out, " group ")?;
            push_handle(out, *group)
        }
        Reply::Rows { count, .. } => push_numbered(out, "rows ", *count),
        Reply::Received { items } => push_numbered(out, "received ", items.as_slice().len() as u64),
        Reply::Group { group } => {
            push_text(out, "group ")?;
            push_group(out, *group)
        }
        Reply::Waiting { tx } => push_numbered(out, "waiting for ", *tx),
    }
}

fn push_undone(out: &mut Vec<u8>, undone: &Option<Reply>) -> Result<(), AllocError>
    ensures { OnOk result (out.new.items ≡ out.old.items ++ says.undone_text undone.now) }
{
    match undone {
        None => Ok(()),
        Some(reply) => {
            push_text(out, ", ")?;
            push_reply(out, reply)
        }
    }
}

fn push_verdict(out: &mut Vec<u8>, verdict: Verdict) -> Result<(), AllocError>
    ensures { OnOk result (out.new.items ≡ out.old.items ++ says.verdict_words verdict) }
{
    match verdict {
        Verdict::New => push_text(out, "new"),
        Verdict::Next => push_text(out, "next"),
        Verdict::Repeat => push_text(out, "repeat"),
        Verdict::Early => push_text(out, "early"),
        Verdict::Gone => push_text(out, "gone"),
        Verdict::NotHere(number) => push_numbered(out, "not here ", number as u64),
        Verdict::AckNew => push_text(out, "ack new"),
        Verdict::AckOld => push_text(out, "ack old"),
    }
}

fn push_arrived(out: &mut Vec<u8>, arrived: Arrived) -> Result<(), AllocError>
    ensures { OnOk result (out.new.items ≡ out.old.items ++ says.arrived_words arrived) }
{
    match arrived {
        Arrived::Verdict(verdict) => push_verdict(out, verdict),
        Arrived::BadFrame { at } => push_numbered(out, "bad frame ", at),
    }
}

fn fired_words(event: &Event) -> &'static str
    ensures { result.now ≡ says.fired_words event.now }
{
    match event {
        Event::Lifetime { .. } => "expired",
        _ => "fired",
    }
}

fn push_refused(
    out: &mut Vec<u8>,
    refusal: &Refusal,
    undone: &Option<Reply>,
) -> Result<(), AllocError>
    ensures { OnOk result (out.new.items ≡ out.old.items ++ says.refused_words refusal.now undone.now) }
{
    push_text(out, "refused ")?;
    push_refusal(out, refusal)?;
    push_undone(out, undone)
}

/// Appends the answer as the step's first line has it.
#[tactic(auto, unfolding(crate::specs::Answers::answer_words))]
pub fn push_answer(out: &mut Vec<u8>, event: &Event, answer: &Answer) -> Result<(), AllocError>
    ensures { OnOk result (out.new.items ≡ out.old.items ++ says.answer_words event.now answer.now) }
{
    match answer {
        Answer::Replied(reply) => push_reply(out, reply),
        Answer::Refused { refusal, undone } => push_refused(out, refusal, undone),
        Answer::Barred(barred) => {
            push_text(out, "refused ")?;
            push_barred(out, *barred)
        }
        Answer::Started { tx } => push_numbered(out, "transaction ", *tx),
        Answer::Pumped(lines) => push_numbered(out, "frames ", lines.as_slice().len() as u64),
        Answer::Arrived(arrived) => push_arrived(out, *arrived),
        Answer::Done | Answer::Dumped(_) => push_text(out, "ok"),
        Answer::Moment(moment) => push_numbered(out, "moment ", *moment),
        Answer::Fired => push_text(out, fired_words(event)),
        Answer::Entries(count) => push_numbered(out, "entries ", *count),
        Answer::OpenFailed => push_text(out, "disk failed"),
        Answer::OpenRefused { at } => push_numbered(out, "journal refused ", *at),
        Answer::Settled => push_text(out, "settled"),
    }
}

#[tactic(auto, unfolding(crate::specs::Answers::received_line))]
fn push_received(out: &mut Vec<u8>, received: &ReceivedItem) -> Result<(), AllocError>
    ensures { OnOk result (out.new.items ≡ out.old.items ++ says.received_line received.now) }
{
    push_numbered(out, "  ", received.item.sequence)?;
    push_text(out, " ")?;
    push_handle(out, received.handle)?;
    push_text(out, " ")?;
    push_handle(out, received.group)?;
    push_text(out, " ")?;
    push_kind(out, &received.item.message.kind)?;
    push_text(out, " ")?;
    push_body(out, &received.item.message.body)?;
    push_text(out, "\n")
}

fn push_all_received(out: &mut Vec<u8>, items: &[ReceivedItem]) -> Result<(), AllocError>
    ensures { OnOk result (out.new.items ≡ out.old.items ++ flat_map says.received_line items.now) }
{
    for received in items {
        push_received(out, received)?;
    }
    Ok(())
}

fn closed_word(closed: bool) -> &'static str
    ensures { result.now ≡ says.closed_word closed }
{
    if closed { " closed" } else { " open" }
}

#[tactic(auto, unfolding(crate::specs::Answers::frame_words))]
fn push_frame(out: &mut Vec<u8>, frame: &Frame) -> Result<(), AllocError>
    ensures { OnOk result (out.new.items ≡ out.old.items ++ says.frame_words frame.now) }
{
    match frame {
        Frame::Data(message) => {
            push_text(out, "data ")?;
            push_side(out, message.side)?;
            push_numbered(out, " ", message.number)
        }
        Frame::Ack(ack) => {
            push_text(out, "ack ")?;
            push_side(out, ack.side)?;
            push_numbered(out, " ", ack.upto)?;
            push_text(out, closed_word(ack.closed))
        }
    }
}

#[tactic(auto, unfolding(crate::specs::Answers::frame_line))]
fn push_frame_line(out: &mut Vec<u8>, line: &FrameLine) -> Result<(), AllocError>
    ensures { OnOk result (out.new.items ≡ out.old.items ++ says.frame_line line.now) }
{
    push_numbered(out, "  ", line.number)?;
    push_text(out, " to ")?;
    push_letter(out, line.to)?;
    push_text(out, " ")?;
    push_frame(out, &line.frame)?;
    push_text(out, "\n")
}

fn push_frame_lines(out: &mut Vec<u8>, lines: &[FrameLine]) -> Result<(), AllocError>
    ensures { OnOk result (out.new.items ≡ out.old.items ++ flat_map says.frame_line lines.now) }
{
    for line in lines {
        push_frame_line(out, line)?;
    }
    Ok(())
}

fn push_reply_details(out: &mut Vec<u8>, reply: &Reply) -> Result<(), AllocError>
    ensures { OnOk result (out.new.items ≡ out.old.items ++ says.reply_details reply.now) }
{
    match reply {
        Reply::Received { items } => push_all_received(out, items.as_slice()),
        _ => Ok(()),
    }
}

/// Appends the lines of detail.
#[tactic(auto, unfolding(crate::specs::Answers::details))]
pub fn push_details(out: &mut Vec<u8>, answer: &Answer) -> Result<(), AllocError>
    ensures { OnOk result (out.new.items ≡ out.old.items ++ says.details answer.now) }
{
    match answer {
        Answer::Replied(reply) => push_reply_details(out, reply),
        Answer::Pumped(lines) => push_frame_lines(out, lines.as_slice()),
        Answer::Dumped(lines) => push_dump(out, lines.as_slice()),
        _ => Ok(()),
    }
}

#[tactic(auto, using(crate::proofs::Lengths::lengths), unfolding(crate::specs::Answers::off_text))]
fn all_off_len(queues: &[Name]) -> u64
    ensures { result ≡ capped (length (flat_map says.off_text queues.now)) }
{
    let mut sum: u64 = 0;
    for queue in queues {
        sum = total(&[sum, text_len(", off "), name_len(queue)]);
    }
    sum
}

#[tactic(auto, using(crate::proofs::Lengths::lengths), unfolding(crate::specs::Answers::reply_words, crate::specs::Answers::rolled_back_words))]
fn reply_len(reply: &Reply) -> u64
    ensures { result ≡ capped (length (says.reply_words reply.now)) }
{
    match reply {
        Reply::Done => text_len("ok"),
        Reply::Began { tx } => numbered_len("transaction ", *tx),
        Reply::Committed { tx } => numbered_len("committed ", *tx),
        Reply::RolledBack { tx, off } => {
            total(&[
                numbered_len("rolled back ", *tx),
                all_off_len(off.as_slice()),
            ])
        }
        Reply::Dialog { .. } => total(&[text_len("handle "), ID, text_len(" group "), ID]),
        Reply::Rows { count, .. } => numbered_len("rows ", *count),
        Reply::Received { items } => numbered_len("received ", items.as_slice().len() as u64),
        Reply::Group { group } => total(&[text_len("group "), group_len(*group)]),
        Reply::Waiting { tx } => numbered_len("waiting for ", *tx),
    }
}

#[tactic(auto, using(crate::proofs::Lengths::lengths))]
fn undone_len(undone: &Option<Reply>) -> u64
    ensures { result ≡ capped (length (says.undone_text undone.now)) }
{
    match undone {
        None => 0,
        Some(reply) => total(&[text_len(", "), reply_len(reply)]),
    }
}

#[tactic(auto, using(crate::proofs::Lengths::lengths))]
fn refused_len(refusal: &Refusal, undone: &Option<Reply>) -> u64
    ensures { result ≡ capped (length (says.refused_words refusal.now undone.now)) }
{
    total(&[
        text_len("refused "),
        refusal_len(refusal),
        undone_len(undone),
    ])
}

#[tactic(auto, using(crate::proofs::Lengths::lengths))]
fn verdict_len(verdict: Verdict) -> u64
    ensures { result ≡ capped (length (says.verdict_words verdict)) }
{
    match verdict {
        Verdict::New => text_len("new"),
        Verdict::Next => text_len("next"),
        Verdict::Repeat => text_len("repeat"),
        Verdict::Early => text_len("early"),
        Verdict::Gone => text_len("gone"),
        Verdict::NotHere(number) => numbered_len("not here ", number as u64),
        Verdict::AckNew => text_len("ack new"),
        Verdict::AckOld => text_len("ack old"),
    }
}

#[tactic(auto, using(crate::proofs::Lengths::lengths))]
fn arrived_len(arrived: Arrived) -> u64
    ensures { result ≡ capped (length (says.arrived_words arrived)) }
{
    match arrived {
        Arrived::Verdict(verdict) => verdict_len(verdict),
        Arrived::BadFrame { at } => numbered_len("bad frame ", at),
    }
}

/// The length of the answer in the step's first line.
#[tactic(auto, using(crate::proofs::Lengths::lengths), unfolding(crate::specs::Answers::answer_words))]
pub fn answer_len(event: &Event, answer: &Answer) -> u64
    ensures { result ≡ capped (length (says.answer_words event.now answer.now)) }
{
    match answer {
        Answer::Replied(reply) => reply_len(reply),
        Answer::Refused { refusal, undone } => refused_len(refusal, undone),
        Answer::Barred(barred) => total(&[text_len("refused "), barred_len(*barred)]),
        Answer::Started { tx } => numbered_len("transaction ", *tx),
        Answer::Pumped(lines) => numbered_len("frames ", lines.as_slice().len() as u64),
        Answer::Arrived(arrived) => arrived_len(*arrived),
        Answer::Done | Answer::Dumped(_) => text_len("ok"),
        Answer::Moment(moment) => numbered_len("moment ", *moment),
        Answer::Fired => text_len(fired_words(event)),
        Answer::Entries(count) => numbered_len("entries ", *count),
        Answer::OpenFailed => text_len("disk failed"),
        Answer::OpenRefused { at } => numbered_len("journal refused ", *at),
        Answer::Settled => text_len("settled"),
    }
}

#[tactic(auto, using(crate::proofs::Lengths::lengths), unfolding(crate::specs::Answers::received_line))]
fn received_len(received: &ReceivedItem) -> u64
    ensures { result ≡ capped (length (says.received_line received.now)) }
{
    total(&[
        numbered_len("  ", received.item.sequence),
        text_len(" "),
        ID,
        text_len(" "),
        ID,
        text_len(" "),
        bracketed_len(kind_name(&received.item.message.kind)),
        text_len(" "),
        body_len(&received.item.message.body),
        text_len("\n"),
    ])
}

#[tactic(auto, using(crate::proofs::Lengths::lengths))]
fn all_received_len(items: &[ReceivedItem]) -> u64
    ensures { result ≡ capped (length (flat_map says.received_line items.now)) }
{
    let mut sum: u64 = 0;
    for received in items {
        sum = sum.saturating_add(received_len(received));
    }
    sum
}

#[tactic(auto, using(crate::proofs::Lengths::lengths), unfolding(crate::specs::Answers::frame_words, crate::specs::Values::side_text))]
fn frame_len(frame: &Frame) -> u64
    ensures { result ≡ capped (length (says.frame_words frame.now)) }
{
    match frame {
        Frame::Data(message) => {
            total(&[text_len("data "), SIDE, numbered_len(" ", message.number)])
        }
        Frame::Ack(ack) => total(&[
            text_len("ack "),
            SIDE,
            numbered_len(" ", ack.upto),
            text_len(closed_word(ack.closed)),
        ]),
    }
}

#[tactic(auto, using(crate::proofs::Lengths::lengths), unfolding(crate::specs::Answers::frame_line))]
fn frame_line_len(line: &FrameLine) -> u64
    ensures { result ≡ capped (length (says.frame_line line.now)) }
{
    total(&[
        numbered_len("  ", line.number),
        text_len(" to "),
        LETTER,
        text_len(" "),
        frame_len(&line.frame),
        text_len("\n"),
    ])
}

#[tactic(auto, using(crate::proofs::Lengths::lengths))]
fn frame_lines_len(lines: &[FrameLine]) -> u64
    ensures { result ≡ capped (length (flat_map says.frame_line lines.now)) }
{
    let mut sum: u64 = 0;
    for line in lines {
        sum = sum.saturating_add(frame_line_len(line));
    }
    sum
}

#[tactic(auto, using(crate::proofs::Lengths::lengths))]
fn reply_details_len(reply: &Reply) -> u64
    ensures { result ≡ capped (length (says.reply_details reply.now)) }
{
    match reply {
        Reply::Received { items } => all_received_len(items.as_slice()),
        _ => 0,
    }
}

/// The length of the lines of detail.
#[tactic(auto, using(crate::proofs::Lengths::lengths), unfolding(crate::specs::Answers::details))]
pub fn details_len(answer: &Answer) -> u64
    ensures { result ≡ capped (length (says.details answer.now)) }
{
    match answer {
        Answer::Replied(reply) => reply_details_len(reply),
        Answer::Pumped(lines) => frame_lines_len(lines.as_slice()),
        Answer::Dumped(lines) => dump_len(lines.as_slice()),
        _ => 0,
    }
}
