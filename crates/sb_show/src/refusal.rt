//! Refusals.

ghost use Rattle.std.specs.Prelude.{◌≡◌, ◌++◌, OnOk, flat_map, length};
ghost use Rattle.sb_show.specs.Values.{capped};
ghost use Rattle.sb_show.specs.Refusals as says;

use crate::value::{
    ID, LETTER, SESSION, name_len, number_len, push_handle, push_letter, push_name, push_number,
    push_session, push_signed, push_text, signed_len, state_text, text_len, total,
};
use sb_log::{Barred, Refusal, ValueKind};
use std::alloc::AllocError;

/// The long keyword of a kind.
pub fn value_text(kind: ValueKind) -> &'static str
    ensures { result.now ≡ says.value_text kind }
{
    match kind {
        ValueKind::Bigint => "BIGINT",
        ValueKind::Text => "NVARCHAR",
        ValueKind::Bytes => "VARBINARY",
        ValueKind::Identifier => "UNIQUEIDENTIFIER",
    }
}

fn push_next_numbers(out: &mut Vec<u8>, numbers: &[u64]) -> Result<(), AllocError>
    ensures { OnOk result (out.new.items ≡ out.old.items ++ flat_map says.next_number_text numbers.now) }
{
    for number in numbers {
        push_text(out, " ")?;
        push_number(out, *number)?;
    }
    Ok(())
}

fn push_numbers(out: &mut Vec<u8>, numbers: &[u64]) -> Result<(), AllocError>
    ensures { OnOk result (out.new.items ≡ out.old.items ++ says.numbers_text numbers.now) }
{
    match numbers {
        [] => Ok(()),
        [first, rest @ ..] => {
            push_number(out, *first)?;
            push_next_numbers(out, rest)
        }
    }
}

/// The number and the name of a refusal.
pub fn refusal_words(refusal: &Refusal) -> &'static str
    ensures { result.now ≡ says.refusal_words refusal.now }
{
    match refusal {
        Refusal::Down(_) => "1 Down ",
        Refusal::NoVariable(_) => "2 NoVariable ",
        Refusal::WrongKind(_) => "3 WrongKind ",
        Refusal::Overflow(_) => "4 Overflow ",
        Refusal::NoTransaction { .. } => "5 NoTransaction ",
        Refusal::InTransaction(_) => "6 InTransaction ",
        Refusal::NameTaken(_) => "7 NameTaken ",
        Refusal::NoMessageType(_) => "8 NoMessageType ",
        Refusal::NoContract(_) => "9 NoContract ",
        Refusal::NoQueue(_) => "10 NoQueue ",
        Refusal::NoProcedure(_) => "11 NoProcedure ",
        Refusal::NoService(_) => "12 NoService ",
        Refusal::NoTable(_) => "13 NoTable ",
        Refusal::NothingFromInitiator(_) => "14 NothingFromInitiator ",
        Refusal::TooMany => "15 TooMany 4096",
        Refusal::NoConversation(_) => "16 NoConversation ",
        Refusal::NoGroup(_) => "17 NoGroup ",
        Refusal::WrongState(_) => "18 WrongState ",
        Refusal::NotInContract(_) => "19 NotInContract ",
        Refusal::NotYours(_) => "20 NotYours ",
        Refusal::BodyNotEmpty(_) => "21 BodyNotEmpty ",
        Refusal::BodyTooLong(_) => "22 BodyTooLong ",
        Refusal::BadNumber(_) => "23 BadNumber ",
        Refusal::QueueOff(_) => "24 QueueOff ",
        Refusal::GroupHeld(_) => "25 GroupHeld ",
        Refusal::RowHeld(_) => "26 RowHeld ",
        Refusal::DuplicateKey(_) => "27 DuplicateKey ",
        Refusal::Deadlock(_) => "28 Deadlock ",
        Refusal::TooBig(_) => "29 TooBig ",
        Refusal::Full(_) => "30 Full ",
        Refusal::DiskFailed(_) => "31 DiskFailed ",
        Refusal::OutOfMemory => "32 OutOfMemory",
        Refusal::NotYet => "33 NotYet",
    }
}

fn push_shown_value(out: &mut Vec<u8>, refusal: &Refusal) -> Result<(), AllocError>
    ensures { OnOk result (out.new.items ≡ out.old.items ++ says.shown_value refusal.now) }
{
    match refusal {
        Refusal::Down(instance) | Refusal::DiskFailed(instance) => push_letter(out, *instance),
        Refusal::NoVariable(name) => push_text(out, name.as_str()),
        Refusal::WrongKind(kind) => push_text(out, value_text(*kind)),
        Refusal::NoTransaction { session } => push_session(out, *session),
        Refusal::NoConversation(id) | Refusal::NoGroup(id) => push_handle(out, *id),
        Refusal::WrongState(state) => push_text(out, state_text(*state)),
        Refusal::Overflow(number) | Refusal::BadNumber(number) | Refusal::DuplicateKey(number) => {
            push_signed(out, *number)
        }
        Refusal::InTransaction(number)
        | Refusal::BodyNotEmpty(number)
        | Refusal::BodyTooLong(number)
        | Refusal::GroupHeld(number)
        | Refusal::RowHeld(number)
        | Refusal::TooBig(number)
        | Refusal::Full(number) => push_number(out, *number),
        Refusal::Deadlock(txs) => push_numbers(out, txs.as_slice()),
        Refusal::NameTaken(name)
        | Refusal::NoMessageType(name)
        | Refusal::NoContract(name)
        | Refusal::NoQueue(name)
        | Refusal::NoProcedure(name)
        | Refusal::NoService(name)
        | Refusal::NoTable(name)
        | Refusal::NothingFromInitiator(name)
        | Refusal::NotInContract(name)
        | Refusal::NotYours(name)
        | Refusal::QueueOff(name) => push_name(out, name),
        Refusal::TooMany | Refusal::OutOfMemory | Refusal::NotYet => Ok(()),
    }
}

/// Appends the number, the name and the value of a refusal.
#[tactic(auto, unfolding(crate::specs::Refusals::refusal_text))]
pub fn push_refusal(out: &mut Vec<u8>, refusal: &Refusal) -> Result<(), AllocError>
    ensures { OnOk result (out.new.items ≡ out.old.items ++ says.refusal_text refusal.now) }
{
    push_text(out, refusal_words(refusal))?;
    push_shown_value(out, refusal)
}

/// The name of a refusal of the world.
pub fn barred_words(barred: Barred) -> &'static str
    ensures { result.now ≡ says.barred_words barred }
{
    match barred {
        Barred::NoFrame(_) => "NoFrame ",
        Barred::WireFull(_) => "WireFull ",
        Barred::Up(_) => "Up ",
        Barred::ClockBack(_) => "ClockBack ",
        Barred::OpenSessions(_) => "OpenSessions ",
        Barred::Forged => "Forged",
    }
}

fn push_barred_value(out: &mut Vec<u8>, barred: Barred) -> Result<(), AllocError>
    ensures { OnOk result (out.new.items ≡ out.old.items ++ says.barred_value barred) }
{
    match barred {
        Barred::NoFrame(number) | Barred::WireFull(number) | Barred::ClockBack(number) => {
            push_number(out, number)
        }
        Barred::Up(instance) => push_letter(out, instance),
        Barred::OpenSessions(session) => push_session(out, session),
        Barred::Forged => Ok(()),
    }
}

/// Appends the name and the value of a refusal of the world.
#[tactic(auto, unfolding(crate::specs::Refusals::barred_text))]
pub fn push_barred(out: &mut Vec<u8>, barred: Barred) -> Result<(), AllocError>
    ensures { OnOk result (out.new.items ≡ out.old.items ++ says.barred_text barred) }
{
    push_text(out, barred_words(barred))?;
    push_barred_value(out, barred)
}

#[tactic(auto, using(crate::proofs::Lengths::lengths))]
fn next_numbers_len(numbers: &[u64]) -> u64
    ensures { result ≡ capped (length (flat_map says.next_number_text numbers.now)) }
{
    let mut sum: u64 = 0;
    for number in numbers {
        sum = total(&[sum, text_len(" "), number_len(*number)]);
    }
    sum
}

#[tactic(auto, using(crate::proofs::Lengths::lengths))]
fn numbers_len(numbers: &[u64]) -> u64
    ensures { result ≡ capped (length (says.numbers_text numbers.now)) }
{
    match numbers {
        [] => 0,
        [first, rest @ ..] => total(&[number_len(*first), next_numbers_len(rest)]),
    }
}

#[tactic(auto, using(crate::proofs::Lengths::lengths))]
fn shown_value_len(refusal: &Refusal) -> u64
    ensures { result ≡ capped (length (says.shown_value refusal.now)) }
{
    match refusal {
        Refusal::Down(_) | Refusal::DiskFailed(_) => LETTER,
        Refusal::NoVariable(name) => text_len(name.as_str()),
        Refusal::WrongKind(kind) => text_len(value_text(*kind)),
        Refusal::NoTransaction { .. } => SESSION,
        Refusal::NoConversation(_) | Refusal::NoGroup(_) => ID,
        Refusal::WrongState(state) => text_len(state_text(*state)),
        Refusal::Overflow(number) | Refusal::BadNumber(number) | Refusal::DuplicateKey(number) => {
            signed_len(*number)
        }
        Refusal::InTransaction(number)
        | Refusal::BodyNotEmpty(number)
        | Refusal::BodyTooLong(number)
        | Refusal::GroupHeld(number)
        | Refusal::RowHeld(number)
        | Refusal::TooBig(number)
        | Refusal::Full(number) => number_len(*number),
        Refusal::Deadlock(txs) => numbers_len(txs.as_slice()),
        Refusal::NameTaken(name)
        | Refusal::NoMessageType(name)
        | Refusal::NoContract(name)
        | Refusal::NoQueue(name)
        | Refusal::NoProcedure(name)
        | Refusal::NoService(name)
        | Refusal::NoTable(name)
        | Refusal::NothingFromInitiator(name)
        | Refusal::NotInContract(name)
        | Refusal::NotYours(name)
        | Refusal::QueueOff(name) => name_len(name),
        Refusal::TooMany | Refusal::OutOfMemory | Refusal::NotYet => 0,
    }
}

/// The length of a refusal.
#[tactic(auto, using(crate::proofs::Lengths::lengths), unfolding(crate::specs::Refusals::refusal_text))]
pub fn refusal_len(refusal: &Refusal) -> u64
    ensures { result ≡ capped (length (says.refusal_text refusal.now)) }
{
    total(&[text_len(refusal_words(refusal)), shown_value_len(refusal)])
}

#[tactic(auto, using(crate::proofs::Lengths::lengths))]
fn barred_value_len(barred: Barred) -> u64
    ensures { result ≡ capped (length (says.barred_value barred)) }
{
    match barred {
        Barred::NoFrame(number) | Barred::WireFull(number) | Barred::ClockBack(number) => {
            number_len(number)
        }
        Barred::Up(_) => LETTER,
        Barred::OpenSessions(_) => SESSION,
        Barred::Forged => 0,
    }
}

/// The length of a refusal of the world.
#[tactic(auto, using(crate::proofs::Lengths::lengths), unfolding(crate::specs::Refusals::barred_text))]
pub fn barred_len(barred: Barred) -> u64
    ensures { result ≡ capped (length (says.barred_text barred)) }
{
    total(&[text_len(barred_words(barred)), barred_value_len(barred)])
}
