mod spelled;

use super::*;
use sb_log::{Entry, Name};
use spelled::{CONTENTS, DEFINITIONS, OPERATIONS, OTHERS, bytes};
use std::alloc::Global;
use std::process::Abort;
use std::test::Fail;

/// Decodes the bytes and encodes the entry again.
fn there_and_back(rt: &impl Abort, alloc: Global, bytes: &[u8]) -> Result<(), Fail> {
    let entry = decode(alloc, bytes)?;
    let again = encode(alloc, &entry)?;
    assert_eq!(rt; again.as_slice(), bytes);
    assert_eq!(rt; encoded_len(&entry), bytes.len() as u64);
    Ok(())
}

/// The place at which the bytes spell no entry, if they spell none.
fn place(alloc: Global, bytes: &[u8]) -> Option<u64> {
    match decode(alloc, bytes) {
        Err(EntryRefused::BadEntry { at }) => Some(at),
        _ => None,
    }
}

/// The place in the spelled bytes.
fn place_in(alloc: Global, text: &str) -> Result<Option<u64>, Fail> {
    let bytes = bytes(alloc, text)?;
    Ok(place(alloc, bytes.as_slice()))
}

/// Each front of the bytes is refused, at a place within it.
fn is_refused_cut(rt: &impl Abort, alloc: Global, bytes: &[u8]) {
    for end in 0..bytes.len() {
        let at = place(alloc, &bytes[..end]);
        assert!(rt; at.is_some_and(|at| at <= end as u64));
    }
}

/// Each byte changed in turn gives another entry, or none.
fn is_another_changed(rt: &impl Abort, alloc: Global, bytes: &[u8]) -> Result<(), Fail> {
    for i in 0..bytes.len() {
        let mut changed = bytes.to_vec(alloc)?;
        changed[i] ^= 0x80;
        if place(alloc, changed.as_slice()).is_none() {
            there_and_back(rt, alloc, changed.as_slice())?;
        }
    }
    Ok(())
}

/// All three of the spelled entry.
fn is_exact(rt: &impl Abort, alloc: Global, entry: &[u8]) -> Result<(), Fail> {
    there_and_back(rt, alloc, entry)?;
    is_refused_cut(rt, alloc, entry);
    is_another_changed(rt, alloc, entry)
}

/// The bytes that two texts spell together.
fn joined(alloc: Global, head: &str, tail: &str) -> Result<Vec<u8>, Fail> {
    let mut entry = bytes(alloc, head)?;
    let tail = bytes(alloc, tail)?;
    entry.extend_from_slice(tail.as_slice())?;
    Ok(entry)
}

#[test]
fn each_operation(rt: HostRuntime) -> Result<(), Fail> {
    for operation in OPERATIONS {
        let entry = joined(rt.alloc(), "02 000000000000000c 00000001", operation)?;
        is_exact(&rt, rt.alloc(), entry.as_slice())?;
    }
    Ok(())
}

#[test]
fn each_definition(rt: HostRuntime) -> Result<(), Fail> {
    for definition in DEFINITIONS {
        let entry = joined(rt.alloc(), "01", definition)?;
        is_exact(&rt, rt.alloc(), entry.as_slice())?;
    }
    Ok(())
}

#[test]
fn each_content(rt: HostRuntime) -> Result<(), Fail> {
    let first = "03 id 01 0000000000000004 01 id id 000142 000153 000143 id 01 id 0000000000000007";
    for content in CONTENTS {
        let made = joined(rt.alloc(), first, content)?;
        is_exact(&rt, rt.alloc(), made.as_slice())?;
        let later = joined(rt.alloc(), "03 id 01 0000000000000004 00", content)?;
        is_exact(&rt, rt.alloc(), later.as_slice())?;
    }
    Ok(())
}

#[test]
fn each_other_entry(rt: HostRuntime) -> Result<(), Fail> {
    for other in OTHERS {
        let entry = bytes(rt.alloc(), other)?;
        is_exact(&rt, rt.alloc(), entry.as_slice())?;
    }
    Ok(())
}

#[test]
fn a_setting_is_spelled(rt: HostRuntime) -> Result<(), Fail> {
    let spelled = bytes(rt.alloc(), "07 000151 00")?;
    let queue = Name::new(rt.alloc(), "Q")?;
    let entry = Entry::QueueSet { queue, on: false };
    assert_eq!(rt; decode(rt.alloc(), spelled.as_slice())?, entry);
    assert_eq!(rt; place_in(rt.alloc(), "07 000151")?, Some(4));
    assert_eq!(rt; place_in(rt.alloc(), "07 000151 00 00")?, Some(5));
    Ok(())
}

#[test]
fn the_greatest_name(rt: HostRuntime) -> Result<(), Fail> {
    let mut entry = bytes(rt.alloc(), "07 0080")?;
    entry.resize(131, b'x')?;
    entry.push(1)?;
    there_and_back(&rt, rt.alloc(), entry.as_slice())?;
    let mut longer = bytes(rt.alloc(), "07 0081")?;
    longer.resize(132, b'x')?;
    longer.push(1)?;
    assert_eq!(rt; place(rt.alloc(), longer.as_slice()), Some(1));
    Ok(())
}

#[test]
fn the_greatest_text(rt: HostRuntime) -> Result<(), Fail> {
    let mut entry = bytes(rt.alloc(), "03 id 01 0000000000000004 00 03 00000032 ffff")?;
    let head = entry.len();
    entry.resize(head + 65_535, b'x')?;
    there_and_back(&rt, rt.alloc(), entry.as_slice())
}
