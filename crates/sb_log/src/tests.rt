//! Spellings of handles and names, and the texts of refusals.

use crate::{
    Bytes, Handle, Listed, Name, NameRefused, Refusal, Session, State, Text, ValueKind, Who,
};
use std::alloc::{AllocError, Global};

const A: u128 = 0xa000_0000_0000_0000_0000_0000_0000_0000;

#[test]
fn handles_are_spelled_and_read(rt: HostRuntime) -> Result<(), AllocError> {
    let alloc = rt.alloc();
    for (number, spelling) in [
        (A + 7, "a0000000-0000-0000-0000-000000000007"),
        (
            0xb000_0000_0000_0000_0000_0000_00c0_ffee,
            "b0000000-0000-0000-0000-000000c0ffee",
        ),
        (0, "00000000-0000-0000-0000-000000000000"),
        (u128::MAX, "ffffffff-ffff-ffff-ffff-ffffffffffff"),
    ] {
        let text = Handle(number).text(alloc)?;
        assert_eq!(rt; text.as_str(), spelling);
        assert_eq!(rt; Handle::read(spelling), Some(Handle(number)));
    }
    assert_eq!(rt;
        Handle::read("A0000000-0000-0000-0000-00000000000F"),
        Some(Handle(A + 15))
    );
    for spelling in [
        "",
        "a0000000000000000000000000000007",
        "{a0000000-0000-0000-0000-00000000007",
        "{a0000000-0000-0000-0000-000000000007}",
        "a0000000-0000-0000-0000-00000000007",
        "a0000000-0000-0000-0000-0000000000007",
        "a0000000-0000-0000-0000_000000000007",
        "g0000000-0000-0000-0000-000000000007",
    ] {
        assert_eq!(rt; Handle::read(spelling), None, "{spelling}");
    }
    Ok(())
}

#[test]
fn names_have_1_to_128_characters(rt: HostRuntime) -> Result<(), AllocError> {
    let alloc = rt.alloc();
    for (piece, times, refused) in [
        ("x", 0, Some(NameRefused::Length { characters: 0 })),
        ("x", 128, None),
        ("x", 129, Some(NameRefused::Length { characters: 129 })),
        ("é", 128, None),
        ("é", 129, Some(NameRefused::Length { characters: 129 })),
        ("a\nb\n", 1, Some(NameRefused::Control { at: 1 })),
        ("é\u{7f}", 1, Some(NameRefused::Control { at: 2 })),
        ("\u{80}~ ", 1, None),
    ] {
        let mut text = String::new(alloc);
        for _ in 0..times {
            text.push_str(piece)?;
        }
        match Name::new(alloc, text.as_str()) {
            Ok(name) => {
                assert!(rt; refused.is_none(), "{text}");
                assert_eq!(rt; name.as_str(), text.as_str());
            }
            Err(why) => assert_eq!(rt; Some(why), refused, "{text}"),
        }
    }
    Ok(())
}

fn named(alloc: Global, text: &str) -> Result<Name, AllocError> {
    match Name::new(alloc, text) {
        Ok(name) => Ok(name),
        Err(_) => Err(AllocError),
    }
}

/// Whether a transcript shows the refusal so.
fn shows(alloc: Global, refusal: &Refusal, text: &str) -> Result<bool, AllocError> {
    let shown = format!(in alloc; "{refusal}")?;
    Ok(shown.as_str() == text)
}

#[test]
fn refusals_show_numbers(rt: HostRuntime) -> Result<(), AllocError> {
    let session = Session {
        instance: Who::A,
        number: 1,
    };
    for (refusal, text) in [
        (Refusal::Down(Who::B), "1 Down B"),
        (Refusal::WrongKind(ValueKind::Text), "3 WrongKind NVARCHAR"),
        (
            Refusal::WrongKind(ValueKind::Identifier),
            "3 WrongKind UNIQUEIDENTIFIER",
        ),
        (
            Refusal::Overflow(i64::MIN),
            "4 Overflow -9223372036854775808",
        ),
        (Refusal::NoTransaction { session }, "5 NoTransaction A1"),
        (Refusal::TooMany, "15 TooMany 4096"),
        (
            Refusal::NoConversation(Handle(A + 9)),
            "16 NoConversation a0000000-0000-0000-0000-000000000009",
        ),
        (Refusal::WrongState(State::ER), "18 WrongState ER"),
        (Refusal::Full(62914561), "30 Full 62914561"),
        (Refusal::NotYet, "33 NotYet"),
    ] {
        assert!(rt; shows(rt.alloc(), &refusal, text)?, "{text}");
    }
    Ok(())
}

#[test]
fn refusals_show_names(rt: HostRuntime) -> Result<(), AllocError> {
    let alloc = rt.alloc();
    let queue = Refusal::QueueOff(named(alloc, "a]b")?);
    assert!(rt; shows(alloc, &queue, "24 QueueOff [a]]b]")?);
    let variable = Refusal::NoVariable(Text::from_string(String::from_str(alloc, "@z")?));
    assert!(rt; shows(alloc, &variable, "2 NoVariable @z")?);
    Ok(())
}

#[test]
fn refusals_show_lists(rt: HostRuntime) -> Result<(), AllocError> {
    let alloc = rt.alloc();
    let circle = Refusal::Deadlock(Listed::from_vec(vec![in alloc; 4u64, 3]?));
    assert!(rt; shows(alloc, &circle, "28 Deadlock 4 3")?);
    Ok(())
}

#[test]
fn values_are_copied_and_given_back(rt: HostRuntime) -> Result<(), AllocError> {
    let alloc = rt.alloc();
    let name = named(alloc, "Orders")?;
    let copy = name.clone()?;
    assert!(rt; copy == name);
    assert_eq!(rt; name.into_string().as_str(), "Orders");
    let bytes = Bytes::from_vec(vec![in alloc; 1u8, 2]?);
    let mut list: Listed<Bytes> = Listed::new(alloc);
    list.push(bytes.clone()?)?;
    let again = list.clone()?;
    assert!(rt; again == list);
    assert_eq!(rt; again.len(), 1);
    let back = bytes.into_vec();
    assert_eq!(rt; back.as_slice(), [1u8, 2].as_slice());
    let text = Text::from_string(String::from_str(alloc, "it")?);
    assert!(rt; text.clone()? == text);
    assert_eq!(rt; text.into_string().as_str(), "it");
    Ok(())
}
