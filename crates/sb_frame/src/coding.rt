//! Frames as bytes, and bytes as frames.

ghost use Rattle.std.specs.Prelude.{◌≡◌, ◌++◌, ◌-◌, length, OnOk, IfOk, Ok};
ghost use Rattle.sb_log.specs.declared.messages.Frame.{Frame};
ghost use Rattle.sb_entry.specs.Gives.{Gives};
ghost use Rattle.sb_frame.specs.Decodes.{Decodes};
ghost use Rattle.sb_frame.specs.Fields.{FrameFits};
ghost use Rattle.sb_model.specs.FrameReading.{message_number_at, data_at, ack_at, frame_at, decode_frame};
ghost use Rattle.sb_model.specs.Spelling.{mark, frame_bytes};
ghost use Rattle.sb_frame.specs.Values.{IsFrame};

use crate::refused::FrameRefused;
use sb_entry::{
    Unread, byte_between, eight_bytes, put_content, put_flag, put_handle, put_header, put_side,
    read_content, read_flag, read_handle, read_header, read_side,
};
use sb_fields::{put_u8, put_u64};
use sb_log::{Ack, Data, Frame};
use std::alloc::{AllocError, Global};

/// The letters that a frame begins with.
const LETTERS: [u8; 2] = *b"SB";

/// The version of the frames.
const VERSION: u8 = 1;

#[tactic(auto, unfolding(sb_model::specs::Spelling::mark))]
fn put_mark(out: &mut Vec<u8>) -> Result<(), AllocError>
    ensures { OnOk result (out.new.items ≡ out.old.items ++ mark) }
{
    put_u8(out, LETTERS[0])?;
    put_u8(out, LETTERS[1])?;
    put_u8(out, VERSION)
}

#[tactic(auto, unfolding(sb_model::specs::Spelling::frame_bytes))]
fn put_frame(out: &mut Vec<u8>, frame: &Frame) -> Result<(), AllocError>
    requires { FrameFits frame.now }
    ensures { OnOk result (out.new.items ≡ out.old.items ++ frame_bytes frame.now) }
{
    put_mark(out)?;
    match frame {
        Frame::Data(data) => {
            put_u8(out, 1)?;
            put_side(out, data.side)?;
            put_u64(out, data.number)?;
            put_header(out, &data.header)?;
            put_content(out, &data.content)
        }
        Frame::Ack(ack) => {
            put_u8(out, 2)?;
            put_side(out, ack.side)?;
            put_u64(out, ack.upto)?;
            put_flag(out, ack.closed)?;
            put_handle(out, ack.to)
        }
    }
}

/// The one spelling of the frame.
pub fn encode(alloc: Global, frame: &Frame) -> Result<Vec<u8>, AllocError>
    requires { FrameFits frame.now }
    ensures { IfOk result (λ bytes. bytes.items ≡ frame_bytes frame.now) }
{
    let mut out = Vec::new(alloc);
    put_frame(&mut out, frame)?;
    Ok(out)
}

#[tactic(auto, unfolding(sb_fields::specs::Reading::such_that, sb_model::specs::FrameReading::message_number_at))]
fn message_number(bytes: &[u8]) -> Result<(u64, &[u8]), Unread>
    ensures { Gives (λ x. (x.0, x.1.now)) result (message_number_at bytes.now) }
{
    let (number, rest) = eight_bytes(bytes)?;
    if 1 <= number {
        Ok((number, rest))
    } else {
        Err(Unread::Field { left: bytes.len() })
    }
}

#[tactic(auto, unfolding(sb_fields::specs::Reading::read_then, sb_fields::specs::Reading::give, sb_model::specs::FrameReading::data_at))]
fn data(alloc: Global, bytes: &[u8]) -> Result<(Frame, &[u8]), Unread>
    ensures { Gives (λ x. (x.0, x.1.now)) result (data_at bytes.now) }
{
    let (side, rest) = read_side(bytes)?;
    let (number, rest) = message_number(rest)?;
    let (header, rest) = read_header(alloc, rest)?;
    let (content, rest) = read_content(alloc, rest)?;
    let data = Data {
        side,
        number,
        header,
        content,
    };
    Ok((Frame::Data(data), rest))
}

#[tactic(auto, unfolding(sb_fields::specs::Reading::read_then, sb_fields::specs::Reading::give, sb_model::specs::FrameReading::ack_at))]
fn ack(bytes: &[u8]) -> Result<(Frame, &[u8]), Unread>
    ensures { Gives (λ x. (x.0, x.1.now)) result (ack_at bytes.now) }
{
    let (side, rest) = read_side(bytes)?;
    let (upto, rest) = eight_bytes(rest)?;
    let (closed, rest) = read_flag(rest)?;
    let (to, rest) = read_handle(rest)?;
    let ack = Ack {
        side,
        upto,
        closed,
        to,
    };
    Ok((Frame::Ack(ack), rest))
}

#[tactic(auto, unfolding(sb_fields::specs::Reading::read_then, sb_fields::specs::Reading::give, sb_model::specs::FrameReading::frame_at))]
fn read_frame(alloc: Global, bytes: &[u8]) -> Result<(Frame, &[u8]), Unread>
    ensures { Gives (λ x. (x.0, x.1.now)) result (frame_at bytes.now) }
{
    let (_, rest) = byte_between(bytes, LETTERS[0], LETTERS[0])?;
    let (_, rest) = byte_between(rest, LETTERS[1], LETTERS[1])?;
    let (_, rest) = byte_between(rest, VERSION, VERSION)?;
    let (kind, rest) = byte_between(rest, 1, 2)?;
    match kind {
        1 => data(alloc, rest),
        _ => ack(rest),
    }
}

/// The refusal of the field that so many of the bytes are left from.
fn bad_frame(bytes: &[u8], left: usize) -> FrameRefused
    ensures { result ≡ FrameRefused.BadFrame (length bytes.now - left) }
{
    FrameRefused::BadFrame {
        at: bytes.len().saturating_sub(left) as u64,
    }
}

#[tactic(auto, unfolding(sb_fields::specs::Reading::whole))]
fn all_of(alloc: Global, bytes: &[u8]) -> Result<Frame, FrameRefused>
    ensures { Decodes result (decode_frame bytes.now) }
{
    match read_frame(alloc, bytes) {
        Ok((frame, rest)) => {
            if rest.is_empty() {
                Ok(frame)
            } else {
                Err(bad_frame(bytes, rest.len()))
            }
        }
        Err(Unread::Field { left }) => Err(bad_frame(bytes, left)),
        Err(Unread::OutOfMemory) => Err(FrameRefused::OutOfMemory),
    }
}

/// The frame that the bytes spell.
pub fn decode(alloc: Global, bytes: &[u8]) -> Result<Frame, FrameRefused>
    // What is decoded is spelled so.
    ensures spelled { IfOk result (λ frame. IsFrame frame × (bytes.now ≡ frame_bytes frame)) }
    // What is spelled so is decoded, unless memory runs out.
    ensures only { (frame : Frame) → IsFrame frame → bytes.now ≡ frame_bytes frame → Decodes result (Ok frame) }
    // Which place a refusal names.
    ensures exact { Decodes result (decode_frame bytes.now) }
{
    all_of(alloc, bytes)
}
