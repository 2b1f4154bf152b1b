//! How values convert.

ghost use Rattle.std.specs.Prelude.{◌≡◌, IfOk, option_map};
ghost use Rattle.std.specs.Fmt.{signed_decimal};
ghost use Rattle.sb_log.specs.Handles.{text_of_handle};
ghost use Rattle.sb_value.specs.Values as says;

use crate::value::Value;
use itoa::Buffer;
use sb_log::{Bytes, Handle, Text, ValueKind};
use sb_scan::utf16;
use std::alloc::{AllocError, Global};

/// A value as a BIGINT, as its use wants it.
pub fn as_number(value: Value) -> Option<i64>
    ensures { result ≡ says.as_number value }
{
    match value {
        Value::Number(number) => Some(number),
        _ => None,
    }
}

/// A value as a text.
pub fn as_text(alloc: Global, value: Value) -> Result<Option<Text>, AllocError>
    ensures { IfOk result (λ text. text ≡ says.as_text value) }
{
    match value {
        Value::Text(text) => Ok(Some(text)),
        Value::Bytes(bytes) => text_of_utf16(alloc, bytes.as_slice()),
        Value::Identifier(handle) => Ok(Some(text_of_handle(alloc, handle)?)),
        _ => Ok(None),
    }
}

/// A value as bytes.
pub fn as_bytes(alloc: Global, value: Value) -> Result<Option<Bytes>, AllocError>
    ensures { IfOk result (λ bytes. bytes ≡ says.as_bytes value) }
{
    match value {
        Value::Bytes(bytes) => Ok(Some(bytes)),
        Value::Text(text) => Ok(Some(utf16(alloc, text.as_str())?)),
        _ => Ok(None),
    }
}

/// A value as an identifier.
#[tactic(auto, unfolding(crate::specs::Values::as_identifier))]
pub fn as_identifier(value: Value) -> Option<Handle>
    ensures { result ≡ says.as_identifier value }
{
    match value {
        Value::Identifier(handle) => Some(handle),
        Value::Text(text) => Handle::read(text.as_str()),
        _ => None,
    }
}

/// A value as one of a kind, as it is stored; NULL is of each.
pub fn converted(alloc: Global, kind: ValueKind, value: Value) -> Result<Option<Value>, AllocError>
    ensures { IfOk result (λ made. made ≡ says.converted kind value) }
{
    if value.is_null() {
        return Ok(Some(Value::Null));
    }
    as_kind(alloc, kind, value)
}

/// A value as CAST makes it one of a kind.
pub fn cast(alloc: Global, kind: ValueKind, value: Value) -> Result<Option<Value>, AllocError>
    ensures { IfOk result (λ made. made ≡ says.cast kind value) }
{
    match (kind, value) {
        (ValueKind::Text, Value::Number(number)) => {
            Ok(Some(Value::Text(text_of_number(alloc, number)?)))
        }
        (ValueKind::Bigint, Value::Text(text)) => {
            Ok(number_of_text(text.as_str()).map(Value::Number))
        }
        (kind, value) => converted(alloc, kind, value),
    }
}

fn as_kind(alloc: Global, kind: ValueKind, value: Value) -> Result<Option<Value>, AllocError>
    ensures { IfOk result (λ made. made ≡ says.as_kind kind value) }
{
    match kind {
        ValueKind::Bigint => Ok(as_number(value).map(Value::Number)),
        ValueKind::Text => Ok(as_text(alloc, value)?.map(Value::Text)),
        ValueKind::Bytes => Ok(as_bytes(alloc, value)?.map(Value::Bytes)),
        ValueKind::Identifier => Ok(as_identifier(value).map(Value::Identifier)),
    }
}

fn text_of_handle(alloc: Global, handle: Handle) -> Result<Text, AllocError>
    ensures { IfOk result (λ text. text ≡ text_of_handle handle) }
{
    Ok(Text::from_string(handle.text(alloc)?))
}

fn text_of_number(alloc: Global, number: i64) -> Result<Text, AllocError>
    ensures { IfOk result (λ text. text ≡ signed_decimal number) }
{
    let mut buffer = Buffer::new();
    let text = String::from_str(alloc, buffer.format(number))?;
    Ok(Text::from_string(text))
}

// What has a sign or zeros that the number's own text lacks is no text of a number.
fn number_of_text(text: &str) -> Option<i64>
    ensures { result ≡ says.number_of_text text.now }
{
    let number = text.parse::<i64>().ok()?;
    let mut buffer = Buffer::new();
    if buffer.format(number) == text {
        Some(number)
    } else {
        None
    }
}

#[tactic(auto, unfolding(crate::specs::Values::text_of_utf16))]
fn text_of_utf16(alloc: Global, bytes: &[u8]) -> Result<Option<Text>, AllocError>
    ensures { IfOk result (λ text. text ≡ says.text_of_utf16 bytes.now) }
{
    match units(alloc, bytes)? {
        None => Ok(None),
        Some(units) => text_of_units(alloc, units.as_slice()),
    }
}

fn text_of_units(alloc: Global, units: &[u16]) -> Result<Option<Text>, AllocError>
    ensures { IfOk result (λ text. text ≡ says.text_of_units units.now) }
{
    match String::from_utf16(alloc, units)? {
        Ok(text) => Ok(Some(Text::from_string(text))),
        Err(_) => Ok(None),
    }
}

#[tactic(auto, using(crate::proofs::Units::units_step, crate::proofs::Units::units_all, crate::proofs::Units::units_odd))]
fn units(alloc: Global, bytes: &[u8]) -> Result<Option<Vec<u16>>, AllocError>
    ensures { IfOk result (λ found. option_map (λ v. v.items) found ≡ says.units bytes.now) }
{
    let mut units = Vec::new(alloc);
    let mut rest = bytes;
    'pairs: while let [low, high, more @ ..] = rest {
        units.push(*low as u16 + 256 * *high as u16)?;
        rest = more;
    }
    if rest.is_empty() {
        Ok(Some(units))
    } else {
        Ok(None)
    }
}
