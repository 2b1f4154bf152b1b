//! Reading what entries and frames share: sides, headers and contents.

ghost use Rattle.std.specs.Prelude.{◌≡◌, IfSome, IfNone, true, false};
ghost use Rattle.std.specs.Str.{is_utf8};
ghost use Rattle.sb_fields.specs.Reading.{number_at, flag_at, optional_at};
ghost use Rattle.sb_entry.specs.Gives.{Gives};
ghost use Rattle.sb_model.specs.Reading.{text_at, long_text_at, bytes_at, name_at, handle_at, bigint_at, byte_at, side_at, header_at, app_at, error_at, content_at};

use crate::unread::Unread;
use sb_fields::{take_bytes32, take_text16, take_u8, take_u16, take_u32, take_u64, take_u128};
use sb_log::{Body, Bytes, Content, Handle, Header, Name, NameRefused, SideId, Text};
use std::alloc::Global;
use std::str::from_utf8;

#[tactic(auto, unfolding(sb_fields::specs::Reading::field))]
pub(crate) fn byte(bytes: &[u8]) -> Result<(u8, &[u8]), Unread>
    ensures { Gives (λ x. (x.0, x.1.now)) result (number_at 1 bytes.now) }
{
    take_u8(bytes).ok_or(Unread::Field { left: bytes.len() })
}

#[tactic(auto, unfolding(sb_fields::specs::Reading::such_that, sb_model::specs::Reading::byte_at))]
pub fn byte_between(bytes: &[u8], least: u8, most: u8) -> Result<(u8, &[u8]), Unread>
    ensures { Gives (λ x. (x.0, x.1.now)) result (byte_at least most bytes.now) }
{
    let (value, rest) = byte(bytes)?;
    if least <= value && value <= most {
        Ok((value, rest))
    } else {
        Err(Unread::Field { left: bytes.len() })
    }
}

#[tactic(auto, unfolding(sb_fields::specs::Reading::field))]
pub(crate) fn four_bytes(bytes: &[u8]) -> Result<(u32, &[u8]), Unread>
    ensures { Gives (λ x. (x.0, x.1.now)) result (number_at 4 bytes.now) }
{
    take_u32(bytes).ok_or(Unread::Field { left: bytes.len() })
}

#[tactic(auto, unfolding(sb_fields::specs::Reading::field))]
pub fn eight_bytes(bytes: &[u8]) -> Result<(u64, &[u8]), Unread>
    ensures { Gives (λ x. (x.0, x.1.now)) result (number_at 8 bytes.now) }
{
    take_u64(bytes).ok_or(Unread::Field { left: bytes.len() })
}

/// Reads an id.
#[tactic(auto, unfolding(sb_fields::specs::Reading::field, sb_fields::specs::Reading::read_then, sb_fields::specs::Reading::give, sb_model::specs::Reading::handle_at))]
pub fn read_handle(bytes: &[u8]) -> Result<(Handle, &[u8]), Unread>
    ensures { Gives (λ x. (x.0, x.1.now)) result (handle_at bytes.now) }
{
    match take_u128(bytes) {
        Some((id, rest)) => Ok((Handle(id), rest)),
        None => Err(Unread::Field { left: bytes.len() }),
    }
}

#[tactic(auto, unfolding(sb_fields::specs::Reading::field))]
pub(crate) fn two_bytes(bytes: &[u8]) -> Result<(u16, &[u8]), Unread>
    ensures { Gives (λ x. (x.0, x.1.now)) result (number_at 2 bytes.now) }
{
    take_u16(bytes).ok_or(Unread::Field { left: bytes.len() })
}

/// Reads a side; its two parts are fields of their own.
#[tactic(auto, unfolding(sb_fields::specs::Reading::read_then, sb_fields::specs::Reading::give, sb_model::specs::Reading::side_at))]
pub fn read_side(bytes: &[u8]) -> Result<(SideId, &[u8]), Unread>
    ensures { Gives (λ x. (x.0, x.1.now)) result (side_at bytes.now) }
{
    let (conversation, rest) = read_handle(bytes)?;
    let (part, rest) = byte_between(rest, 1, 2)?;
    let initiator = part == 1;
    Ok((
        SideId {
            conversation,
            initiator,
        },
        rest,
    ))
}

/// Reads whether something is so.
#[tactic(auto, unfolding(sb_fields::specs::Reading::read_then, sb_fields::specs::Reading::give, sb_fields::specs::Reading::such_that, sb_fields::specs::Reading::flag_at))]
pub fn read_flag(bytes: &[u8]) -> Result<(bool, &[u8]), Unread>
    ensures { Gives (λ x. (x.0, x.1.now)) result (flag_at bytes.now) }
{
    let (value, rest) = byte(bytes)?;
    if value <= 1 {
        Ok((value == 1, rest))
    } else {
        Err(Unread::Field { left: bytes.len() })
    }
}

#[tactic(auto, unfolding(sb_fields::specs::Reading::field))]
fn text_slice(bytes: &[u8]) -> Result<(&str, &[u8]), Unread>
    ensures { Gives (λ x. (x.0.now, x.1.now)) result (text_at bytes.now) }
{
    take_text16(bytes).ok_or(Unread::Field { left: bytes.len() })
}

#[tactic(auto, unfolding(sb_fields::specs::Reading::field))]
fn bytes_slice(bytes: &[u8]) -> Result<(&[u8], &[u8]), Unread>
    ensures { Gives (λ x. (x.0.now, x.1.now)) result (bytes_at bytes.now) }
{
    take_bytes32(bytes).ok_or(Unread::Field { left: bytes.len() })
}

/// Reads a text.
pub(crate) fn read_text(alloc: Global, bytes: &[u8]) -> Result<(Text, &[u8]), Unread>
    ensures { Gives (λ x. (x.0, x.1.now)) result (text_at bytes.now) }
{
    let (text, rest) = text_slice(bytes)?;
    Ok((Text::from_string(String::from_str(alloc, text)?), rest))
}

/// Reads a text that is a name.
#[tactic(auto, unfolding(sb_fields::specs::Reading::such_that, sb_model::specs::Reading::name_at))]
pub(crate) fn read_name(alloc: Global, bytes: &[u8]) -> Result<(Name, &[u8]), Unread>
    ensures { Gives (λ x. (x.0, x.1.now)) result (name_at bytes.now) }
{
    let (text, rest) = text_slice(bytes)?;
    match Name::new(alloc, text) {
        Ok(name) => Ok((name, rest)),
        Err(NameRefused::OutOfMemory) => Err(Unread::OutOfMemory),
        Err(_) => Err(Unread::Field { left: bytes.len() }),
    }
}

/// Reads bytes.
fn read_bytes(alloc: Global, bytes: &[u8]) -> Result<(Bytes, &[u8]), Unread>
    ensures { Gives (λ x. (x.0, x.1.now)) result (bytes_at bytes.now) }
{
    let (value, rest) = bytes_slice(bytes)?;
    Ok((Bytes::from_vec(Vec::from_slice(alloc, value)?), rest))
}

/// The text that the bytes are, where they are UTF-8.
#[tactic(auto, using(sb_fields::proofs::Texts::utf8_tests))]
fn as_text(bytes: &[u8]) -> Option<&str>
    ensures text { IfSome result (λ text. (text.now ≡ bytes.now) × (is_utf8 bytes.now ≡ true)) }
    ensures none { IfNone result (is_utf8 bytes.now ≡ false) }
{
    match from_utf8(bytes) {
        Ok(text) => Some(text),
        Err(_) => None,
    }
}

/// Reads a text behind a length of four bytes.
#[tactic(auto, unfolding(sb_fields::specs::Reading::such_that, sb_model::specs::Reading::long_text_at))]
pub(crate) fn read_long_text(alloc: Global, bytes: &[u8]) -> Result<(Text, &[u8]), Unread>
    ensures { Gives (λ x. (x.0, x.1.now)) result (long_text_at bytes.now) }
{
    let (value, rest) = bytes_slice(bytes)?;
    match as_text(value) {
        Some(text) => Ok((Text::from_string(String::from_str(alloc, text)?), rest)),
        None => Err(Unread::Field { left: bytes.len() }),
    }
}

/// Reads a BIGINT.
#[tactic(auto, unfolding(sb_fields::specs::Reading::read_then, sb_fields::specs::Reading::give, sb_model::specs::Reading::bigint_at))]
pub(crate) fn read_bigint(bytes: &[u8]) -> Result<(i64, &[u8]), Unread>
    ensures { Gives (λ x. (x.0, x.1.now)) result (bigint_at bytes.now) }
{
    let (bits, rest) = eight_bytes(bytes)?;
    Ok((bits.cast_signed(), rest))
}

#[tactic(auto, unfolding(sb_fields::specs::Reading::read_then, sb_fields::specs::Reading::give, sb_fields::specs::Reading::some_at, sb_fields::specs::Reading::optional_at))]
pub(crate) fn optional_handle(bytes: &[u8]) -> Result<(Option<Handle>, &[u8]), Unread>
    ensures { Gives (λ x. (x.0, x.1.now)) result (optional_at handle_at bytes.now) }
{
    let (there, rest) = read_flag(bytes)?;
    if there {
        let (value, rest) = read_handle(rest)?;
        Ok((Some(value), rest))
    } else {
        Ok((None, rest))
    }
}

#[tactic(auto, unfolding(sb_fields::specs::Reading::read_then, sb_fields::specs::Reading::give, sb_fields::specs::Reading::some_at, sb_fields::specs::Reading::optional_at))]
pub(crate) fn optional_bytes(alloc: Global, bytes: &[u8]) -> Result<(Option<Body>, &[u8]), Unread>
    ensures { Gives (λ x. (x.0, x.1.now)) result (optional_at bytes_at bytes.now) }
{
    let (there, rest) = read_flag(bytes)?;
    if there {
        let (value, rest) = read_bytes(alloc, rest)?;
        Ok((Some(value), rest))
    } else {
        Ok((None, rest))
    }
}

/// Reads a header.
#[tactic(auto, unfolding(sb_fields::specs::Reading::read_then, sb_fields::specs::Reading::give, sb_model::specs::Reading::header_at))]
pub fn read_header(alloc: Global, bytes: &[u8]) -> Result<(Header, &[u8]), Unread>
    ensures { Gives (λ x. (x.0, x.1.now)) result (header_at bytes.now) }
{
    let (from_service, rest) = read_name(alloc, bytes)?;
    let (to_service, rest) = read_name(alloc, rest)?;
    let (contract, rest) = read_name(alloc, rest)?;
    let (from, rest) = read_handle(rest)?;
    let (to, rest) = optional_handle(rest)?;
    let (expires, rest) = eight_bytes(rest)?;
    let header = Header {
        from_service,
        to_service,
        contract,
        from,
        to,
        expires,
    };
    Ok((header, rest))
}

#[tactic(auto, unfolding(sb_fields::specs::Reading::read_then, sb_fields::specs::Reading::give, sb_model::specs::Reading::app_at))]
fn app(alloc: Global, bytes: &[u8]) -> Result<(Content, &[u8]), Unread>
    ensures { Gives (λ x. (x.0, x.1.now)) result (app_at bytes.now) }
{
    let (kind, rest) = read_name(alloc, bytes)?;
    let (body, rest) = optional_bytes(alloc, rest)?;
    Ok((Content::App { kind, body }, rest))
}

#[tactic(auto, unfolding(sb_fields::specs::Reading::read_then, sb_fields::specs::Reading::give, sb_model::specs::Reading::error_at))]
fn error(alloc: Global, bytes: &[u8]) -> Result<(Content, &[u8]), Unread>
    ensures { Gives (λ x. (x.0, x.1.now)) result (error_at bytes.now) }
{
    let (code, rest) = four_bytes(bytes)?;
    let (text, rest) = read_text(alloc, rest)?;
    Ok((Content::Error { code, text }, rest))
}

/// Reads what a side sends.
#[tactic(auto, unfolding(sb_fields::specs::Reading::read_then, sb_fields::specs::Reading::give, sb_model::specs::Reading::content_at))]
pub fn read_content(alloc: Global, bytes: &[u8]) -> Result<(Content, &[u8]), Unread>
    ensures { Gives (λ x. (x.0, x.1.now)) result (content_at bytes.now) }
{
    let (kind, rest) = byte_between(bytes, 1, 3)?;
    match kind {
        1 => app(alloc, rest),
        2 => Ok((Content::EndDialog, rest)),
        _ => error(alloc, rest),
    }
}
