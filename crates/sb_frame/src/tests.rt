mod spelled;

use super::*;
use sb_log::{Ack, Frame, Handle, SideId};
use spelled::{ACKNOWLEDGEMENT, FRAMES, bytes};
use std::alloc::Global;
use std::process::Abort;
use std::test::Fail;

const CONVERSATION: Handle = Handle(0xa000_0000_0000_0000_0000_0000_0000_0001);

const INSTANCE: Handle = Handle(0xa000_0000_0000_0000_0000_0000_0000_0000);

/// Decodes the bytes and encodes the frame again.
fn there_and_back(rt: &impl Abort, alloc: Global, bytes: &[u8]) -> Result<(), Fail> {
    let frame = decode(alloc, bytes)?;
    let again = encode(alloc, &frame)?;
    assert_eq!(rt; again.as_slice(), bytes);
    Ok(())
}

/// The place at which the bytes spell no frame, if they spell none.
fn place(alloc: Global, bytes: &[u8]) -> Option<u64> {
    match decode(alloc, bytes) {
        Err(FrameRefused::BadFrame { at }) => Some(at),
        _ => None,
    }
}

/// Where the acknowledgement is no frame with this byte in that place.
fn place_changed(alloc: Global, at: usize, byte: u8) -> Result<Option<u64>, Fail> {
    let mut changed = bytes(alloc, ACKNOWLEDGEMENT)?;
    if at < changed.len() {
        changed[at] = byte;
    }
    Ok(place(alloc, changed.as_slice()))
}

/// Each byte changed in turn gives another frame, or none.
fn is_another_changed(rt: &impl Abort, alloc: Global, bytes: &[u8]) -> Result<(), Fail> {
    for i in 0..bytes.len() {
        let mut changed = bytes.to_vec(alloc)?;
        changed[i] ^= 0x80;
        if place(alloc, changed.as_slice()).is_none() {
            there_and_back(rt, alloc, changed.as_slice())?;
        }
    }
    Ok(())
}

/// The field that a cut acknowledgement ends in.
fn cut_field(end: usize) -> u64 {
    match end {
        0..=3 => end as u64,
        4..=19 => 4,
        20 => 20,
        21..=28 => 21,
        29 => 29,
        _ => 30,
    }
}

#[test]
fn an_acknowledgement_is_spelled(rt: HostRuntime) -> Result<(), Fail> {
    let side = SideId {
        conversation: CONVERSATION,
        initiator: true,
    };
    let frame = Frame::Ack(Ack {
        side,
        upto: 3,
        closed: false,
        to: INSTANCE,
    });
    let spelled = bytes(rt.alloc(), ACKNOWLEDGEMENT)?;
    assert_eq!(rt; decode(rt.alloc(), spelled.as_slice())?, frame);
    assert_eq!(rt; encode(rt.alloc(), &frame)?, spelled);
    Ok(())
}

#[test]
fn a_cut_acknowledgement_names_its_field(rt: HostRuntime) -> Result<(), Fail> {
    let bytes = bytes(rt.alloc(), ACKNOWLEDGEMENT)?;
    assert_eq!(rt; bytes.len(), 46);
    for end in 0..bytes.len() {
        assert_eq!(rt; place(rt.alloc(), &bytes[..end]), Some(cut_field(end)));
    }
    Ok(())
}

#[test]
fn a_byte_left_over_is_named(rt: HostRuntime) -> Result<(), Fail> {
    let mut longer = bytes(rt.alloc(), ACKNOWLEDGEMENT)?;
    longer.push(0)?;
    assert_eq!(rt; place(rt.alloc(), longer.as_slice()), Some(46));
    Ok(())
}

#[test]
fn each_frame_there_and_back(rt: HostRuntime) -> Result<(), Fail> {
    for frame in FRAMES {
        let bytes = bytes(rt.alloc(), frame)?;
        there_and_back(&rt, rt.alloc(), bytes.as_slice())?;
        is_another_changed(&rt, rt.alloc(), bytes.as_slice())?;
    }
    Ok(())
}

#[test]
fn faults_of_single_bytes(rt: HostRuntime) -> Result<(), Fail> {
    for (at, byte) in [
        (0, 0x54),
        (1, 0x43),
        (2, 2),
        (3, 0),
        (3, 3),
        (20, 0),
        (20, 3),
        (29, 2),
    ] {
        assert_eq!(rt; place_changed(rt.alloc(), at, byte)?, Some(at as u64));
    }
    Ok(())
}

#[test]
fn a_message_has_a_number(rt: HostRuntime) -> Result<(), Fail> {
    let unnumbered =
        "5342 01 01 id 01 0000000000000000 000142 000153 000143 instance 01 id 0000000000000007 02";
    let bytes = bytes(rt.alloc(), unnumbered)?;
    assert_eq!(rt; place(rt.alloc(), bytes.as_slice()), Some(21));
    Ok(())
}
