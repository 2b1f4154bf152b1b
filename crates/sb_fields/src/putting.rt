//! Writing a field behind bytes.

ghost use Rattle.std.specs.Prelude.{◌≡◌, ◌≤◌, ◌<◌, ◌^◌, ◌++◌, length, OnOk, OnErr};
ghost use Rattle.sb_fields.specs.Spelling.{number, text16, bytes32};

use byteorder::{BigEndian, ByteOrder};
use std::alloc::AllocError;

/// Appends a number of one byte.
#[tactic(auto, unfolding(crate::specs::Spelling::number))]
pub fn put_u8(out: &mut Vec<u8>, value: u8) -> Result<(), AllocError>
    ensures spelled { OnOk result (out.new.items ≡ out.old.items ++ number 1 value) }
    ensures kept { OnErr result (out.new.items ≡ out.old.items) }
{
    out.push(value)?;
    Ok(())
}

/// Appends a number of two bytes.
#[tactic(auto, unfolding(crate::specs::Spelling::number))]
pub fn put_u16(out: &mut Vec<u8>, value: u16) -> Result<(), AllocError>
    ensures spelled { OnOk result (out.new.items ≡ out.old.items ++ number 2 value) }
    ensures kept { OnErr result (out.new.items ≡ out.old.items) }
{
    let mut bytes = [0; 2];
    BigEndian::write_u16(&mut bytes, value);
    out.extend_from_slice(&bytes)
}

/// Appends a number of four bytes.
#[tactic(auto, unfolding(crate::specs::Spelling::number))]
pub fn put_u32(out: &mut Vec<u8>, value: u32) -> Result<(), AllocError>
    ensures spelled { OnOk result (out.new.items ≡ out.old.items ++ number 4 value) }
    ensures kept { OnErr result (out.new.items ≡ out.old.items) }
{
    let mut bytes = [0; 4];
    BigEndian::write_u32(&mut bytes, value);
    out.extend_from_slice(&bytes)
}

/// Appends a number of eight bytes.
#[tactic(auto, unfolding(crate::specs::Spelling::number))]
pub fn put_u64(out: &mut Vec<u8>, value: u64) -> Result<(), AllocError>
    ensures spelled { OnOk result (out.new.items ≡ out.old.items ++ number 8 value) }
    ensures kept { OnErr result (out.new.items ≡ out.old.items) }
{
    let mut bytes = [0; 8];
    BigEndian::write_u64(&mut bytes, value);
    out.extend_from_slice(&bytes)
}

/// Appends a number of sixteen bytes.
#[tactic(auto, unfolding(crate::specs::Spelling::number))]
pub fn put_u128(out: &mut Vec<u8>, value: u128) -> Result<(), AllocError>
    ensures spelled { OnOk result (out.new.items ≡ out.old.items ++ number 16 value) }
    ensures kept { OnErr result (out.new.items ≡ out.old.items) }
{
    let mut bytes = [0; 16];
    BigEndian::write_u128(&mut bytes, value);
    out.extend_from_slice(&bytes)
}

/// Appends a text behind its length in bytes, which takes two bytes.
#[tactic(auto, unfolding(crate::specs::Spelling::text16, crate::specs::Spelling::number))]
pub fn put_text16(out: &mut Vec<u8>, value: &str) -> Result<(), AllocError>
    requires { length value.now ≤ 65535 }
    ensures spelled { OnOk result (out.new.items ≡ out.old.items ++ text16 value.now) }
    ensures kept { OnErr result (out.new.items ≡ out.old.items) }
{
    let mut len = [0; 2];
    BigEndian::write_u16(&mut len, value.len() as u16);
    put_both(out, &len, value.as_bytes())
}

/// Appends bytes behind their length, which takes four bytes.
#[tactic(auto, unfolding(crate::specs::Spelling::bytes32, crate::specs::Spelling::number))]
pub fn put_bytes32(out: &mut Vec<u8>, value: &[u8]) -> Result<(), AllocError>
    requires { length value.now < 2 ^ 32 }
    ensures spelled { OnOk result (out.new.items ≡ out.old.items ++ bytes32 value.now) }
    ensures kept { OnErr result (out.new.items ≡ out.old.items) }
{
    let mut len = [0; 4];
    BigEndian::write_u32(&mut len, value.len() as u32);
    put_both(out, &len, value)
}

/// Appends a length and what has it; room for both is made before either is written.
fn put_both(out: &mut Vec<u8>, len: &[u8], value: &[u8]) -> Result<(), AllocError>
    requires short { length len.now ≤ 4 }
    requires held { length value.now < 2 ^ 32 }
    ensures spelled { OnOk result (out.new.items ≡ out.old.items ++ (len.now ++ value.now)) }
    ensures kept { OnErr result (out.new.items ≡ out.old.items) }
{
    out.reserve(len.len() + value.len())?;
    out.extend_from_slice(len)?;
    out.extend_from_slice(value)
}
