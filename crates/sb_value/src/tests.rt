//! Every pair of kinds, and what converts.

use crate::*;
use sb_log::{Bytes, Handle, Text, ValueKind};
use std::alloc::{AllocError, Global};
use std::fmt::Write;
use std::test::Fail;

const DIALOG: &str = "a0000000-0000-0000-0000-000000000001";

fn text(alloc: Global, text: &str) -> Result<Value, AllocError> {
    Ok(Value::Text(Text::from_string(String::from_str(alloc, text)?)))
}

fn bytes(alloc: Global, digits: &str) -> Result<Value, Fail> {
    Ok(Value::Bytes(Bytes::from_vec(hex::decode(alloc, digits)?)))
}

// NULL, a number, a text, that text in UTF-16LE, an identifier.
fn sample(alloc: Global, which: usize) -> Result<Value, Fail> {
    match which {
        0 => Ok(Value::Null),
        1 => Ok(Value::Number(5)),
        2 => Ok(text(alloc, "5")?),
        3 => bytes(alloc, "3500"),
        _ => Ok(Value::Identifier(Handle(0xa000_0000_0000_0000_0000_0000_0000_0001))),
    }
}

fn show_bytes(out: &mut String, bytes: &[u8]) -> Result<(), Fail> {
    for byte in bytes {
        write!(out, "{byte:02x}")?;
    }
    Ok(())
}

fn show_value(out: &mut String, value: Value) -> Result<(), Fail> {
    match value {
        Value::Null => write!(out, "NULL")?,
        Value::Number(number) => write!(out, "{number}")?,
        Value::Text(text) => write!(out, "'{text}'")?,
        Value::Bytes(bytes) => show_bytes(out, bytes.as_slice())?,
        Value::Identifier(handle) => write!(out, "{handle}")?,
    }
    Ok(())
}

fn show_fault(out: &mut String, fault: Fault) -> Result<(), Fail> {
    match fault {
        Fault::NoVariable(name) => write!(out, "no {name}")?,
        Fault::WrongKind(kind) => write!(out, "{kind}")?,
        Fault::Overflow(left) => write!(out, "over {left}")?,
        Fault::OutOfMemory => write!(out, "memory")?,
    }
    Ok(())
}

fn show(out: &mut String, outcome: Result<Value, Fault>) -> Result<(), Fail> {
    match outcome {
        Ok(value) => show_value(out, value)?,
        Err(fault) => show_fault(out, fault)?,
    }
    write!(out, " ")?;
    Ok(())
}

fn show_test(out: &mut String, outcome: Result<bool, Fault>) -> Result<(), Fail> {
    match outcome {
        Ok(holds) => write!(out, "{holds}")?,
        Err(fault) => show_fault(out, fault)?,
    }
    write!(out, " ")?;
    Ok(())
}

fn sums(alloc: Global, left: usize) -> Result<String, Fail> {
    let mut out = String::new(alloc);
    for right in 0..5usize {
        let sum = plus(alloc, sample(alloc, left)?, sample(alloc, right)?);
        show(&mut out, sum)?;
    }
    Ok(out)
}

fn differences(alloc: Global, left: usize) -> Result<String, Fail> {
    let mut out = String::new(alloc);
    for right in 0..5usize {
        let difference = minus(sample(alloc, left)?, sample(alloc, right)?);
        show(&mut out, difference)?;
    }
    Ok(out)
}

fn equals(alloc: Global, left: usize) -> Result<String, Fail> {
    let mut out = String::new(alloc);
    for right in 0..5usize {
        let holds = is_equal(alloc, sample(alloc, left)?, sample(alloc, right)?);
        show_test(&mut out, holds)?;
    }
    Ok(out)
}

fn orders(alloc: Global, left: usize) -> Result<String, Fail> {
    let mut out = String::new(alloc);
    for right in 0..5usize {
        let holds = is_less(sample(alloc, left)?, sample(alloc, right)?);
        show_test(&mut out, holds)?;
    }
    Ok(out)
}

fn made(kind: ValueKind, value: Option<Value>) -> Result<Value, Fault> {
    value.ok_or(Fault::WrongKind(kind))
}

fn stored(alloc: Global, kind: ValueKind) -> Result<String, Fail> {
    let mut out = String::new(alloc);
    for which in 0..5usize {
        let value = converted(alloc, kind, sample(alloc, which)?)?;
        show(&mut out, made(kind, value))?;
    }
    Ok(out)
}

fn casts(alloc: Global, kind: ValueKind) -> Result<String, Fail> {
    let mut out = String::new(alloc);
    for which in 0..5usize {
        let value = cast(alloc, kind, sample(alloc, which)?)?;
        show(&mut out, made(kind, value))?;
    }
    Ok(out)
}

#[test]
fn plus_adds_or_joins(rt: HostRuntime) -> Result<(), Fail> {
    let alloc = rt.alloc();
    assert_eq!(rt; sums(alloc, 0)?.as_str(), "NULL NULL NULL NULL NULL ");
    assert_eq!(rt; sums(alloc, 1)?.as_str(), "NULL 10 BIGINT BIGINT BIGINT ");
    assert_eq!(rt;
        sums(alloc, 2)?.as_str(),
        "NULL NVARCHAR '55' '55' '5a0000000-0000-0000-0000-000000000001' "
    );
    assert_eq!(rt;
        sums(alloc, 3)?.as_str(),
        "NULL NVARCHAR '55' '55' '5a0000000-0000-0000-0000-000000000001' "
    );
    assert_eq!(rt;
        sums(alloc, 4)?.as_str(),
        "NULL NVARCHAR 'a0000000-0000-0000-0000-0000000000015' 'a0000000-0000-0000-0000-0000000000015' 'a0000000-0000-0000-0000-000000000001a0000000-0000-0000-0000-000000000001' "
    );
    Ok(())
}

#[test]
fn minus_subtracts_numbers(rt: HostRuntime) -> Result<(), Fail> {
    let alloc = rt.alloc();
    assert_eq!(rt;
        differences(alloc, 0)?.as_str(),
        "NULL NULL NULL NULL NULL "
    );
    assert_eq!(rt;
        differences(alloc, 1)?.as_str(),
        "NULL 0 BIGINT BIGINT BIGINT "
    );
    assert_eq!(rt;
        differences(alloc, 2)?.as_str(),
        "NULL BIGINT BIGINT BIGINT BIGINT "
    );
    assert_eq!(rt;
        differences(alloc, 3)?.as_str(),
        "NULL BIGINT BIGINT BIGINT BIGINT "
    );
    assert_eq!(rt;
        differences(alloc, 4)?.as_str(),
        "NULL BIGINT BIGINT BIGINT BIGINT "
    );
    Ok(())
}

#[test]
fn the_left_kind_is_compared(rt: HostRuntime) -> Result<(), Fail> {
    let alloc = rt.alloc();
    assert_eq!(rt;
        equals(alloc, 0)?.as_str(),
        "false false false false false "
    );
    assert_eq!(rt;
        equals(alloc, 1)?.as_str(),
        "false true BIGINT BIGINT BIGINT "
    );
    assert_eq!(rt;
        equals(alloc, 2)?.as_str(),
        "false NVARCHAR true true false "
    );
    assert_eq!(rt;
        equals(alloc, 3)?.as_str(),
        "false VARBINARY true true VARBINARY "
    );
    assert_eq!(rt;
        equals(alloc, 4)?.as_str(),
        "false UNIQUEIDENTIFIER UNIQUEIDENTIFIER UNIQUEIDENTIFIER true "
    );
    Ok(())
}

#[test]
fn numbers_alone_are_ordered(rt: HostRuntime) -> Result<(), Fail> {
    let alloc = rt.alloc();
    assert_eq!(rt;
        orders(alloc, 0)?.as_str(),
        "false false false false false "
    );
    assert_eq!(rt;
        orders(alloc, 1)?.as_str(),
        "false false BIGINT BIGINT BIGINT "
    );
    assert_eq!(rt;
        orders(alloc, 2)?.as_str(),
        "false BIGINT BIGINT BIGINT BIGINT "
    );
    assert_eq!(rt;
        orders(alloc, 3)?.as_str(),
        "false BIGINT BIGINT BIGINT BIGINT "
    );
    assert_eq!(rt;
        orders(alloc, 4)?.as_str(),
        "false BIGINT BIGINT BIGINT BIGINT "
    );
    assert!(rt; is_less(Value::Number(-1), Value::Number(0)) == Ok(true));
    Ok(())
}

#[test]
fn an_identifier_equals_its_text(rt: HostRuntime) -> Result<(), Fail> {
    let alloc = rt.alloc();
    assert!(rt; is_equal(alloc, text(alloc, DIALOG)?, sample(alloc, 4)?) == Ok(true));
    assert!(rt; is_equal(alloc, sample(alloc, 4)?, text(alloc, DIALOG)?) == Ok(true));
    Ok(())
}

#[test]
fn what_is_stored_converts(rt: HostRuntime) -> Result<(), Fail> {
    let alloc = rt.alloc();
    assert_eq!(rt;
        stored(alloc, ValueKind::Bigint)?.as_str(),
        "NULL 5 BIGINT BIGINT BIGINT "
    );
    assert_eq!(rt;
        stored(alloc, ValueKind::Text)?.as_str(),
        "NULL NVARCHAR '5' '5' 'a0000000-0000-0000-0000-000000000001' "
    );
    assert_eq!(rt;
        stored(alloc, ValueKind::Bytes)?.as_str(),
        "NULL VARBINARY 3500 3500 VARBINARY "
    );
    assert_eq!(rt;
        stored(alloc, ValueKind::Identifier)?.as_str(),
        "NULL UNIQUEIDENTIFIER UNIQUEIDENTIFIER UNIQUEIDENTIFIER a0000000-0000-0000-0000-000000000001 "
    );
    Ok(())
}

#[test]
fn a_cast_reads_and_writes_numbers(rt: HostRuntime) -> Result<(), Fail> {
    let alloc = rt.alloc();
    assert_eq!(rt;
        casts(alloc, ValueKind::Bigint)?.as_str(),
        "NULL 5 5 BIGINT BIGINT "
    );
    assert_eq!(rt;
        casts(alloc, ValueKind::Text)?.as_str(),
        "NULL '5' '5' '5' 'a0000000-0000-0000-0000-000000000001' "
    );
    assert_eq!(rt;
        casts(alloc, ValueKind::Bytes)?.as_str(),
        "NULL VARBINARY 3500 3500 VARBINARY "
    );
    assert_eq!(rt;
        casts(alloc, ValueKind::Identifier)?.as_str(),
        "NULL UNIQUEIDENTIFIER UNIQUEIDENTIFIER UNIQUEIDENTIFIER a0000000-0000-0000-0000-000000000001 "
    );
    Ok(())
}

fn number_in(alloc: Global, written: &str) -> Result<Option<Value>, AllocError> {
    cast(alloc, ValueKind::Bigint, text(alloc, written)?)
}

#[test]
fn only_the_text_of_a_number_is_one(rt: HostRuntime) -> Result<(), Fail> {
    let alloc = rt.alloc();
    assert!(rt; number_in(alloc, "007")? == None);
    assert!(rt; number_in(alloc, "+1")? == None);
    assert!(rt; number_in(alloc, " 1")? == None);
    assert!(rt; number_in(alloc, "-0")? == None);
    assert!(rt; number_in(alloc, "")? == None);
    Ok(())
}

#[test]
fn the_ends_of_bigint_are_read(rt: HostRuntime) -> Result<(), Fail> {
    let alloc = rt.alloc();
    assert!(rt; number_in(alloc, "9223372036854775807")? == Some(Value::Number(i64::MAX)));
    assert!(rt; number_in(alloc, "9223372036854775808")? == None);
    assert!(rt; number_in(alloc, "-9223372036854775808")? == Some(Value::Number(i64::MIN)));
    assert!(rt; number_in(alloc, "-9223372036854775809")? == None);
    Ok(())
}

fn text_in(alloc: Global, digits: &str) -> Result<Option<Text>, Fail> {
    Ok(as_text(alloc, bytes(alloc, digits)?)?)
}

fn is_text(found: Option<Text>, wanted: &str) -> bool {
    match found {
        Some(text) => text.as_str() == wanted,
        None => false,
    }
}

#[test]
fn only_well_formed_bytes_are_a_text(rt: HostRuntime) -> Result<(), Fail> {
    let alloc = rt.alloc();
    assert!(rt; text_in(alloc, "61")? == None);
    assert!(rt; text_in(alloc, "00d8")? == None);
    assert!(rt; text_in(alloc, "00dc00d8")? == None);
    assert!(rt; is_text(text_in(alloc, "3dd800de6100")?, "\u{1f600}a"));
    assert!(rt; is_text(text_in(alloc, "")?, ""));
    Ok(())
}

#[test]
fn a_sum_may_leave_bigint(rt: HostRuntime) -> Result<(), Fail> {
    let alloc = rt.alloc();
    let most = plus(alloc, Value::Number(i64::MAX), Value::Number(1));
    assert!(rt; most == Err(Fault::Overflow(i64::MAX)));
    let least = minus(Value::Number(i64::MIN), Value::Number(1));
    assert!(rt; least == Err(Fault::Overflow(i64::MIN)));
    assert!(rt; minus(Value::Number(0), Value::Number(i64::MIN)) == Err(Fault::Overflow(0)));
    assert!(rt; minus(Value::Number(-1), Value::Number(i64::MIN)) == Ok(Value::Number(i64::MAX)));
    Ok(())
}
