//! What is computed with values.

ghost use Rattle.std.specs.Prelude.{◌+ℤ◌, ◌++◌};
ghost use Rattle.sb_value.specs.Faults.{Gives, want};
ghost use Rattle.sb_value.specs.Values.{as_number, as_text, as_bytes, as_identifier};
ghost use Rattle.sb_model.specs.Sides.{same_id};
ghost use Rattle.sb_value.specs.Results as says;

use crate::convert::{as_bytes, as_identifier, as_number, as_text};
use crate::fault::Fault;
use crate::value::Value;
use sb_log::{Bytes, Handle, Text, ValueKind};
use std::alloc::Global;

/// `left + right`
pub fn plus(alloc: Global, left: Value, right: Value) -> Result<Value, Fault>
    ensures { Gives (says.plus left right) result }
{
    if left.is_null() || right.is_null() {
        return Ok(Value::Null);
    }
    match left {
        Value::Number(number) => sum(number, right),
        left => joined(alloc, left, right),
    }
}

/// `left - right`
pub fn minus(left: Value, right: Value) -> Result<Value, Fault>
    ensures { Gives (says.minus left right) result }
{
    if left.is_null() || right.is_null() {
        return Ok(Value::Null);
    }
    let left = number(left)?;
    let right = number(right)?;
    match left.checked_sub(right) {
        Some(difference) => Ok(Value::Number(difference)),
        None => Err(Fault::Overflow(left)),
    }
}

/// `left = right`
pub fn is_equal(alloc: Global, left: Value, right: Value) -> Result<bool, Fault>
    ensures { Gives (says.is_equal left right) result }
{
    if right.is_null() {
        return Ok(false);
    }
    match left {
        Value::Null => Ok(false),
        Value::Number(left) => Ok(left == number(right)?),
        Value::Text(left) => Ok(left == text(alloc, right)?),
        Value::Bytes(left) => Ok(left == bytes(alloc, right)?),
        Value::Identifier(left) => is_same(left, right),
    }
}

/// `left < right`
pub fn is_less(left: Value, right: Value) -> Result<bool, Fault>
    ensures { Gives (says.is_less left right) result }
{
    if left.is_null() || right.is_null() {
        return Ok(false);
    }
    let left = number(left)?;
    let right = number(right)?;
    Ok(left < right)
}

fn is_same(left: Handle, right: Value) -> Result<bool, Fault>
    ensures { Gives (want (as_identifier right) ValueKind.Identifier (λ y. Ok (same_id left y))) result }
{
    let right = identifier(right)?;
    Ok(left == right)
}

fn sum(left: i64, right: Value) -> Result<Value, Fault>
    ensures { Gives (want (as_number right) ValueKind.Bigint (λ y. says.within_bigint left (left +ℤ y))) result }
{
    let right = number(right)?;
    match left.checked_add(right) {
        Some(sum) => Ok(Value::Number(sum)),
        None => Err(Fault::Overflow(left)),
    }
}

fn joined(alloc: Global, left: Value, right: Value) -> Result<Value, Fault>
    ensures { Gives (want (as_text left) ValueKind.Text (λ s. want (as_text right) ValueKind.Text (λ t. Ok (Value.Text (s ++ t))))) result }
{
    let left = text(alloc, left)?;
    let right = text(alloc, right)?;
    let mut joined = left.into_string();
    joined.push_str(right.as_str())?;
    Ok(Value::Text(Text::from_string(joined)))
}

fn number(value: Value) -> Result<i64, Fault>
    ensures { Gives (want (as_number value) ValueKind.Bigint Ok) result }
{
    match as_number(value) {
        Some(number) => Ok(number),
        None => Err(Fault::WrongKind(ValueKind::Bigint)),
    }
}

fn text(alloc: Global, value: Value) -> Result<Text, Fault>
    ensures { Gives (want (as_text value) ValueKind.Text Ok) result }
{
    match as_text(alloc, value)? {
        Some(text) => Ok(text),
        None => Err(Fault::WrongKind(ValueKind::Text)),
    }
}

fn bytes(alloc: Global, value: Value) -> Result<Bytes, Fault>
    ensures { Gives (want (as_bytes value) ValueKind.Bytes Ok) result }
{
    match as_bytes(alloc, value)? {
        Some(bytes) => Ok(bytes),
        None => Err(Fault::WrongKind(ValueKind::Bytes)),
    }
}

fn identifier(value: Value) -> Result<Handle, Fault>
    ensures { Gives (want (as_identifier value) ValueKind.Identifier Ok) result }
{
    match as_identifier(value) {
        Some(handle) => Ok(handle),
        None => Err(Fault::WrongKind(ValueKind::Identifier)),
    }
}
