//! Reading a field from the front of bytes.

ghost use Rattle.std.specs.Prelude.{◌≡◌, ◌++◌, ◌<◌, ◌^◌, ℕ, List, length, IfSome, IfNone, true, false};
ghost use Rattle.std.specs.Str.{is_utf8};
ghost use Rattle.sb_fields.specs.Spelling.{number, text16, bytes32, IsText16};
ghost use Rattle.sb_fields.specs.Taking.{Takes, take_number, take_text16, take_bytes32};

use byteorder::{BigEndian, ByteOrder};
use std::str::from_utf8;

/// The number in the first byte, and the bytes after it.
#[tactic(auto, unfolding(crate::specs::Taking::take_number))]
pub fn take_u8(bytes: &[u8]) -> Option<(u8, &[u8])>
    ensures put { IfSome result (λ x. bytes.now ≡ number 1 x.0 ++ x.1.now) }
    ensures none { IfNone result ((n : ℕ) (rest : List ℕ) → bytes.now ≡ number 1 n ++ rest → ⊥) }
    ensures exact { Takes (λ x. (x.0, x.1.now)) result (take_number 1 bytes.now) }
{
    let (front, rest) = bytes.split_at_checked(1)?;
    Some((front[0], rest))
}

/// The number in the first two bytes, and the bytes after it.
#[tactic(auto, unfolding(crate::specs::Taking::take_number))]
pub fn take_u16(bytes: &[u8]) -> Option<(u16, &[u8])>
    ensures put { IfSome result (λ x. bytes.now ≡ number 2 x.0 ++ x.1.now) }
    ensures none { IfNone result ((n : ℕ) (rest : List ℕ) → bytes.now ≡ number 2 n ++ rest → ⊥) }
    ensures exact { Takes (λ x. (x.0, x.1.now)) result (take_number 2 bytes.now) }
{
    let (front, rest) = bytes.split_at_checked(2)?;
    Some((BigEndian::read_u16(front), rest))
}

/// The number in the first four bytes, and the bytes after it.
#[tactic(auto, unfolding(crate::specs::Taking::take_number))]
pub fn take_u32(bytes: &[u8]) -> Option<(u32, &[u8])>
    ensures put { IfSome result (λ x. bytes.now ≡ number 4 x.0 ++ x.1.now) }
    ensures none { IfNone result ((n : ℕ) (rest : List ℕ) → bytes.now ≡ number 4 n ++ rest → ⊥) }
    ensures exact { Takes (λ x. (x.0, x.1.now)) result (take_number 4 bytes.now) }
{
    let (front, rest) = bytes.split_at_checked(4)?;
    Some((BigEndian::read_u32(front), rest))
}

/// The number in the first eight bytes, and the bytes after it.
#[tactic(auto, unfolding(crate::specs::Taking::take_number))]
pub fn take_u64(bytes: &[u8]) -> Option<(u64, &[u8])>
    ensures put { IfSome result (λ x. bytes.now ≡ number 8 x.0 ++ x.1.now) }
    ensures none { IfNone result ((n : ℕ) (rest : List ℕ) → bytes.now ≡ number 8 n ++ rest → ⊥) }
    ensures exact { Takes (λ x. (x.0, x.1.now)) result (take_number 8 bytes.now) }
{
    let (front, rest) = bytes.split_at_checked(8)?;
    Some((BigEndian::read_u64(front), rest))
}

/// The number in the first sixteen bytes, and the bytes after it.
#[tactic(auto, unfolding(crate::specs::Taking::take_number))]
pub fn take_u128(bytes: &[u8]) -> Option<(u128, &[u8])>
    ensures put { IfSome result (λ x. bytes.now ≡ number 16 x.0 ++ x.1.now) }
    ensures none { IfNone result ((n : ℕ) (rest : List ℕ) → bytes.now ≡ number 16 n ++ rest → ⊥) }
    ensures exact { Takes (λ x. (x.0, x.1.now)) result (take_number 16 bytes.now) }
{
    let (front, rest) = bytes.split_at_checked(16)?;
    Some((BigEndian::read_u128(front), rest))
}

/// The text behind its length of two bytes, and the bytes after it.
///
/// The text is a slice of the bytes.
pub fn take_text16(bytes: &[u8]) -> Option<(&str, &[u8])>
    ensures put { IfSome result (λ x. bytes.now ≡ text16 x.0.now ++ x.1.now) }
    ensures none { IfNone result ((text rest : List ℕ) → IsText16 text → bytes.now ≡ text16 text ++ rest → ⊥) }
    ensures exact { Takes (λ x. (x.0.now, x.1.now)) result (take_text16 bytes.now) }
{
    text16_front(bytes)
}

#[tactic(auto, unfolding(crate::specs::Taking::take_text16, crate::specs::Taking::take_counted))]
fn text16_front(bytes: &[u8]) -> Option<(&str, &[u8])>
    ensures { Takes (λ x. (x.0.now, x.1.now)) result (take_text16 bytes.now) }
{
    let (len, rest) = take_u16(bytes)?;
    let (text, rest) = rest.split_at_checked(len as usize)?;
    Some((as_text(text)?, rest))
}

/// The text that the bytes are, where they are UTF-8.
#[tactic(auto, using(crate::proofs::Texts::utf8_tests))]
fn as_text(bytes: &[u8]) -> Option<&str>
    ensures text { IfSome result (λ text. (text.now ≡ bytes.now) × (is_utf8 bytes.now ≡ true)) }
    ensures none { IfNone result (is_utf8 bytes.now ≡ false) }
{
    match from_utf8(bytes) {
        Ok(text) => Some(text),
        Err(_) => None,
    }
}

/// The bytes behind their length of four bytes, and the bytes after them.
///
/// What is taken is a slice of the bytes.
pub fn take_bytes32(bytes: &[u8]) -> Option<(&[u8], &[u8])>
    ensures put { IfSome result (λ x. bytes.now ≡ bytes32 x.0.now ++ x.1.now) }
    ensures none { IfNone result ((value rest : List ℕ) → length value < 2 ^ 32 → bytes.now ≡ bytes32 value ++ rest → ⊥) }
    ensures exact { Takes (λ x. (x.0.now, x.1.now)) result (take_bytes32 bytes.now) }
{
    bytes32_front(bytes)
}

#[tactic(auto, unfolding(crate::specs::Taking::take_bytes32, crate::specs::Taking::take_counted))]
fn bytes32_front(bytes: &[u8]) -> Option<(&[u8], &[u8])>
    ensures { Takes (λ x. (x.0.now, x.1.now)) result (take_bytes32 bytes.now) }
{
    let (len, rest) = take_u32(bytes)?;
    rest.split_at_checked(len as usize)
}
