//! Names, ids, numbers, bodies and sides.

ghost use Rattle.std.specs.Prelude.{◌≡◌, ◌++◌, ◌<◌, OnOk, chars, flat_map, length, sum};
ghost use Rattle.std.specs.Fmt.{decimal, signed_decimal};
ghost use Rattle.sb_log.specs.Handles.{text_of_handle};
ghost use Rattle.sb_model.specs.ErrorBody.{unit_bytes, utf16_of};
ghost use Rattle.sb_show.specs.Values as says;

use sb_log::{Actor, Body, GroupId, Handle, Kind, Name, Session, SideId, State, Text, Who};
use std::alloc::AllocError;
use uuid::Uuid;

/// Appends the text.
pub fn push_text(out: &mut Vec<u8>, text: &str) -> Result<(), AllocError>
    ensures { OnOk result (out.new.items ≡ out.old.items ++ text.now) }
{
    out.extend_from_slice(text.as_bytes())
}

/// Appends the number in decimal.
pub fn push_number(out: &mut Vec<u8>, number: u64) -> Result<(), AllocError>
    ensures { OnOk result (out.new.items ≡ out.old.items ++ decimal number) }
{
    let mut buffer = itoa::Buffer::new();
    push_text(out, buffer.format(number))
}

/// Appends the number in decimal, with its sign where it is below zero.
pub fn push_signed(out: &mut Vec<u8>, number: i64) -> Result<(), AllocError>
    ensures { OnOk result (out.new.items ≡ out.old.items ++ signed_decimal number) }
{
    let mut buffer = itoa::Buffer::new();
    push_text(out, buffer.format(number))
}

/// Appends a number behind a word.
#[tactic(auto, unfolding(crate::specs::Values::numbered))]
pub fn push_numbered(out: &mut Vec<u8>, word: &str, number: u64) -> Result<(), AllocError>
    ensures { OnOk result (out.new.items ≡ out.old.items ++ says.numbered word.now number) }
{
    push_text(out, word)?;
    push_number(out, number)
}

/// Appends a number, or NULL.
pub fn push_number_or_null(out: &mut Vec<u8>, number: Option<i64>) -> Result<(), AllocError>
    ensures { OnOk result (out.new.items ≡ out.old.items ++ says.number_or_null number) }
{
    match number {
        None => push_text(out, "NULL"),
        Some(number) => push_signed(out, number),
    }
}

/// Appends the 36 characters of a handle or of a group.
pub fn push_handle(out: &mut Vec<u8>, handle: Handle) -> Result<(), AllocError>
    ensures { OnOk result (out.new.items ≡ out.old.items ++ text_of_handle handle) }
{
    let mut buffer = Uuid::encode_buffer();
    let text = Uuid::from_u128(handle.0)
        .hyphenated()
        .encode_lower(&mut buffer);
    push_text(out, text)
}

/// Appends a group, or NULL.
pub fn push_group(out: &mut Vec<u8>, group: Option<GroupId>) -> Result<(), AllocError>
    ensures { OnOk result (out.new.items ≡ out.old.items ++ says.group_text group) }
{
    match group {
        None => push_text(out, "NULL"),
        Some(group) => push_handle(out, group),
    }
}

/// Appends the letter of an instance.
pub fn push_letter(out: &mut Vec<u8>, instance: Who) -> Result<(), AllocError>
    ensures { OnOk result (out.new.items ≡ out.old.items ++ says.letter instance) }
{
    match instance {
        Who::A => push_text(out, "A"),
        Who::B => push_text(out, "B"),
    }
}

/// Appends a session.
pub fn push_session(out: &mut Vec<u8>, session: Session) -> Result<(), AllocError>
    ensures { OnOk result (out.new.items ≡ out.old.items ++ says.session_text session) }
{
    push_letter(out, session.instance)?;
    out.push(b'0' + session.number % 10)?;
    Ok(())
}

/// Appends who makes a step.
pub fn push_actor(out: &mut Vec<u8>, who: Actor) -> Result<(), AllocError>
    ensures { OnOk result (out.new.items ≡ out.old.items ++ says.actor_text who) }
{
    match who {
        Actor::World => push_text(out, "world"),
        Actor::Session(session) => push_session(out, session),
        Actor::Reader { instance, reader } => {
            push_letter(out, instance)?;
            push_text(out, ".r")?;
            push_number(out, reader)
        }
    }
}

/// Appends a side.
#[tactic(auto, unfolding(crate::specs::Values::side_text))]
pub fn push_side(out: &mut Vec<u8>, side: SideId) -> Result<(), AllocError>
    ensures { OnOk result (out.new.items ≡ out.old.items ++ says.side_text side) }
{
    push_handle(out, side.conversation)?;
    if side.initiator {
        push_text(out, " i")
    } else {
        push_text(out, " t")
    }
}

fn push_doubled(out: &mut Vec<u8>, name: &str) -> Result<(), AllocError>
    ensures { OnOk result (out.new.items ≡ out.old.items ++ flat_map says.name_byte name.now) }
{
    for byte in name.as_bytes() {
        out.push(*byte)?;
        if *byte == b']' {
            out.push(*byte)?;
        }
    }
    Ok(())
}

#[tactic(auto, unfolding(crate::specs::Values::name_text))]
fn push_bracketed(out: &mut Vec<u8>, name: &str) -> Result<(), AllocError>
    ensures { OnOk result (out.new.items ≡ out.old.items ++ says.name_text name.now) }
{
    push_text(out, "[")?;
    push_doubled(out, name)?;
    push_text(out, "]")
}

/// Appends a name in brackets, each closing bracket within it doubled.
pub fn push_name(out: &mut Vec<u8>, name: &Name) -> Result<(), AllocError>
    ensures { OnOk result (out.new.items ≡ out.old.items ++ says.name_text name.now) }
{
    push_bracketed(out, name.as_str())
}

/// The name of a message's type.
pub fn kind_name(kind: &Kind) -> &str
    ensures { result.now ≡ says.kind_name kind.now }
{
    match kind {
        Kind::App(name) => name.as_str(),
        Kind::EndDialog => "http://schemas.microsoft.com/SQL/ServiceBroker/EndDialog",
        Kind::Error => "http://schemas.microsoft.com/SQL/ServiceBroker/Error",
        Kind::DialogTimer => "http://schemas.microsoft.com/SQL/ServiceBroker/DialogTimer",
    }
}

/// Appends the type of a message.
pub fn push_kind(out: &mut Vec<u8>, kind: &Kind) -> Result<(), AllocError>
    ensures { OnOk result (out.new.items ≡ out.old.items ++ says.name_text (says.kind_name kind.now)) }
{
    push_bracketed(out, kind_name(kind))
}

fn digit(value: u8) -> u8
    requires { value < 16 }
    ensures { result ≡ says.digit value }
{
    if value < 10 { b'0' + value } else { 87 + value }
}

fn push_byte(out: &mut Vec<u8>, byte: u8) -> Result<(), AllocError>
    ensures { OnOk result (out.new.items ≡ out.old.items ++ says.byte_text byte) }
{
    out.push(digit(byte / 16))?;
    out.push(digit(byte % 16))?;
    Ok(())
}

fn push_bytes(out: &mut Vec<u8>, bytes: &[u8]) -> Result<(), AllocError>
    ensures { OnOk result (out.new.items ≡ out.old.items ++ flat_map says.byte_text bytes.now) }
{
    for byte in bytes {
        push_byte(out, *byte)?;
    }
    Ok(())
}

/// Appends a body, or NULL.
#[tactic(auto, unfolding(crate::specs::Values::digits_text))]
pub fn push_body(out: &mut Vec<u8>, body: &Option<Body>) -> Result<(), AllocError>
    ensures { OnOk result (out.new.items ≡ out.old.items ++ says.body_text body.now) }
{
    match body {
        None => push_text(out, "NULL"),
        Some(bytes) => {
            push_text(out, "0x")?;
            push_bytes(out, bytes.as_slice())
        }
    }
}

fn push_unit(out: &mut Vec<u8>, unit: u32) -> Result<(), AllocError>
    requires { unit < 65536 }
    ensures { OnOk result (out.new.items ≡ out.old.items ++ flat_map says.byte_text (unit_bytes unit)) }
{
    push_byte(out, (unit % 256) as u8)?;
    push_byte(out, (unit / 256) as u8)
}

fn push_character(out: &mut Vec<u8>, character: char) -> Result<(), AllocError>
    ensures { OnOk result (out.new.items ≡ out.old.items ++ flat_map says.byte_text (utf16_of character)) }
{
    let code = character as u32;
    if code < 0x10000 {
        push_unit(out, code)
    } else {
        let above = code - 0x10000;
        push_unit(out, 0xd800 + above / 1024)?;
        push_unit(out, 0xdc00 + above % 1024)
    }
}

fn push_utf16(out: &mut Vec<u8>, text: &str) -> Result<(), AllocError>
    ensures { OnOk result (out.new.items ≡ out.old.items ++ flat_map says.byte_text (flat_map utf16_of (chars text.now))) }
{
    for character in text.chars() {
        push_character(out, character)?;
    }
    Ok(())
}

/// Appends a row's body, or NULL.
#[tactic(auto, unfolding(crate::specs::Values::digits_text))]
pub fn push_row_body(out: &mut Vec<u8>, body: &Option<Text>) -> Result<(), AllocError>
    ensures { OnOk result (out.new.items ≡ out.old.items ++ says.row_body_text body.now) }
{
    match body {
        None => push_text(out, "NULL"),
        Some(text) => {
            push_text(out, "0x")?;
            push_utf16(out, text.as_str())
        }
    }
}

/// The letters of a state.
pub fn state_text(state: State) -> &'static str
    ensures { result.now ≡ says.state_text state }
{
    match state {
        State::SO => "SO",
        State::SI => "SI",
        State::CO => "CO",
        State::DI => "DI",
        State::DO => "DO",
        State::ER => "ER",
        State::CD => "CD",
    }
}

/// The length of an id.
pub const ID: u64 = 36;
/// The letter of an instance.
pub const LETTER: u64 = 1;
/// An instance and the digit of its session.
pub const SESSION: u64 = 2;
/// A side: its conversation, a space and which end it is.
pub const SIDE: u64 = 38;

/// The sum of the parts, or the greatest `u64` where that is passed.
pub fn total(parts: &[u64]) -> u64
    ensures { result ≡ says.capped (sum parts.now) }
{
    let mut total: u64 = 0;
    for part in parts {
        total = total.saturating_add(*part);
    }
    total
}

/// The length of a text.
pub fn text_len(text: &str) -> u64
    ensures { result ≡ length text.now }
{
    text.len() as u64
}

/// The length of a number in decimal.
pub fn number_len(number: u64) -> u64
    ensures { result ≡ length (decimal number) }
{
    let mut buffer = itoa::Buffer::new();
    text_len(buffer.format(number))
}

/// The length of a number behind a word.
#[tactic(auto, using(crate::proofs::Lengths::lengths), unfolding(crate::specs::Values::numbered))]
pub fn numbered_len(word: &str, number: u64) -> u64
    ensures { result ≡ says.capped (length (says.numbered word.now number)) }
{
    total(&[text_len(word), number_len(number)])
}

/// The length of a number in decimal with its sign.
pub fn signed_len(number: i64) -> u64
    ensures { result ≡ length (signed_decimal number) }
{
    let mut buffer = itoa::Buffer::new();
    text_len(buffer.format(number))
}

/// The length of a number or of NULL.
pub fn number_or_null_len(number: Option<i64>) -> u64
    ensures { result ≡ length (says.number_or_null number) }
{
    match number {
        None => text_len("NULL"),
        Some(number) => signed_len(number),
    }
}

/// The length of a group or of NULL.
#[tactic(auto, using(crate::proofs::Lengths::lengths))]
pub fn group_len(group: Option<GroupId>) -> u64
    ensures { result ≡ length (says.group_text group) }
{
    match group {
        None => text_len("NULL"),
        Some(_) => ID,
    }
}

fn doubled_len(name: &str) -> u64
    ensures { result ≡ says.capped (length (flat_map says.name_byte name.now)) }
{
    let mut total: u64 = 0;
    for byte in name.as_bytes() {
        total = total.saturating_add(if *byte == b']' { 2 } else { 1 });
    }
    total
}

/// The length of a name in brackets.
#[tactic(auto, using(crate::proofs::Lengths::lengths), unfolding(crate::specs::Values::name_text))]
pub fn bracketed_len(name: &str) -> u64
    ensures { result ≡ says.capped (length (says.name_text name.now)) }
{
    total(&[text_len("["), doubled_len(name), text_len("]")])
}

/// The length of a name in brackets.
#[tactic(auto, using(crate::proofs::Lengths::lengths))]
pub fn name_len(name: &Name) -> u64
    ensures { result ≡ says.capped (length (says.name_text name.now)) }
{
    bracketed_len(name.as_str())
}

/// The length of a body or of NULL.
#[tactic(auto, using(crate::proofs::Lengths::lengths), unfolding(crate::specs::Values::digits_text))]
pub fn body_len(body: &Option<Body>) -> u64
    ensures { result ≡ says.capped (length (says.body_text body.now)) }
{
    match body {
        None => text_len("NULL"),
        Some(bytes) => {
            let digits = bytes.as_slice().len() as u64;
            total(&[text_len("0x"), digits, digits])
        }
    }
}

#[tactic(auto, using(crate::proofs::Lengths::lengths))]
fn character_len(character: char) -> u64
    ensures { result ≡ length (flat_map says.byte_text (utf16_of character)) }
{
    if (character as u32) < 0x10000 { 4 } else { 8 }
}

fn utf16_len(text: &str) -> u64
    ensures { result ≡ says.capped (length (flat_map says.byte_text (flat_map utf16_of (chars text.now)))) }
{
    let mut total: u64 = 0;
    for character in text.chars() {
        total = total.saturating_add(character_len(character));
    }
    total
}

/// The length of a row's body or of NULL.
#[tactic(auto, using(crate::proofs::Lengths::lengths), unfolding(crate::specs::Values::digits_text))]
pub fn row_body_len(body: &Option<Text>) -> u64
    ensures { result ≡ says.capped (length (says.row_body_text body.now)) }
{
    match body {
        None => text_len("NULL"),
        Some(text) => total(&[text_len("0x"), utf16_len(text.as_str())]),
    }
}

/// The length of who makes a step.
#[tactic(auto, using(crate::proofs::Lengths::lengths))]
pub fn actor_len(who: Actor) -> u64
    ensures { result ≡ says.capped (length (says.actor_text who)) }
{
    match who {
        Actor::World => text_len("world"),
        Actor::Session(_) => SESSION,
        Actor::Reader { reader, .. } => total(&[LETTER, text_len(".r"), number_len(reader)]),
    }
}
