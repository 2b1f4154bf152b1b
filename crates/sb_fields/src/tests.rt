use super::*;
use std::alloc::AllocError;
use std::test::Fail;

const BYTES: [u8; 41] = [
    7, 0x12, 0x34, 0x01, 0x02, 0x03, 0x04, 0, 0, 0, 0, 0, 0, 0, 3, 0xa0, 0, 0, 0, 0, 0, 0, 0, 0, 0,
    0, 0, 0, 0, 0, 1, 0, 1, b'Q', 0, 0, 0, 2, 0xff, 0, 9,
];

#[test]
fn each_field_is_put(rt: HostRuntime) -> Result<(), AllocError> {
    let mut out = Vec::new(rt.alloc());
    put_u8(&mut out, 7)?;
    put_u16(&mut out, 0x1234)?;
    put_u32(&mut out, 0x0102_0304)?;
    put_u64(&mut out, 3)?;
    put_u128(&mut out, 0xa000_0000_0000_0000_0000_0000_0000_0001)?;
    put_text16(&mut out, "Q")?;
    put_bytes32(&mut out, &[0xff, 0])?;
    assert_eq!(rt; out.as_slice(), &BYTES[..40]);
    Ok(())
}

#[test]
fn each_field_is_taken(rt: HostRuntime) -> Result<(), Fail> {
    let (one, rest) = take_u8(&BYTES).ok_or("a byte")?;
    assert_eq!(rt; one, 7);
    let (two, rest) = take_u16(rest).ok_or("two bytes")?;
    assert_eq!(rt; two, 0x1234);
    let (four, rest) = take_u32(rest).ok_or("four bytes")?;
    assert_eq!(rt; four, 0x0102_0304);
    let (eight, rest) = take_u64(rest).ok_or("eight bytes")?;
    assert_eq!(rt; eight, 3);
    let (sixteen, rest) = take_u128(rest).ok_or("sixteen bytes")?;
    assert_eq!(rt; sixteen, 0xa000_0000_0000_0000_0000_0000_0000_0001);
    let (text, rest) = take_text16(rest).ok_or("a text")?;
    assert_eq!(rt; text.as_bytes(), b"Q".as_slice());
    let (bytes, rest) = take_bytes32(rest).ok_or("bytes")?;
    assert_eq!(rt; bytes, [0xff, 0].as_slice());
    assert_eq!(rt; rest, [9].as_slice());
    Ok(())
}

#[test]
fn nothing_is_taken_of_too_few_bytes(rt: HostRuntime) {
    assert!(rt; take_u8(&[]).is_none());
    assert!(rt; take_u16(&BYTES[..1]).is_none());
    assert!(rt; take_u32(&BYTES[..3]).is_none());
    assert!(rt; take_u64(&BYTES[..7]).is_none());
    assert!(rt; take_u128(&BYTES[..15]).is_none());
    assert!(rt; take_text16(&[0]).is_none());
    assert!(rt; take_text16(&[0, 2, b'Q']).is_none());
    assert!(rt; take_bytes32(&[0, 0, 0]).is_none());
    assert!(rt; take_bytes32(&[0, 0, 0, 3, 1, 2]).is_none());
}

#[test]
fn a_text_is_utf8(rt: HostRuntime) {
    assert!(rt; take_text16(&[0, 1, 0xff]).is_none());
    assert!(rt; take_text16(&[0, 1, 0xc3, 0xa4]).is_none());
    assert!(rt; take_text16(&[0, 3, 0xed, 0xa0, 0x80]).is_none());
    assert!(rt; take_text16(&[0, 2, 0xc3, 0xa4]).is_some());
}

#[test]
fn the_greatest_lengths(rt: HostRuntime) -> Result<(), Fail> {
    let text = "x".repeat(rt.alloc(), 65_535)?;
    let mut out = Vec::new(rt.alloc());
    if text.len() <= 65_535 {
        put_text16(&mut out, text.as_str())?;
    }
    assert_eq!(rt; out.len(), 65_537);
    put_bytes32(&mut out, text.as_bytes())?;
    let (first, rest) = take_text16(out.as_slice()).ok_or("a text")?;
    let (second, rest) = take_bytes32(rest).ok_or("bytes")?;
    assert_eq!(rt; first.len(), 65_535);
    assert_eq!(rt; second.len(), 65_535);
    assert!(rt; rest.is_empty());
    Ok(())
}
