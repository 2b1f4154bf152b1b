//! Statements on dialogs and messages, behind their first words.

ghost use Rattle.std.specs.Prelude.{◌≡◌, ◌≤◌, ◌<◌, ◌-◌, suc, length, IfOk, Ok};
ghost use Rattle.sb_parse.specs.Gives.{Gives};
ghost use Rattle.sb_grammar.specs.Exprs.{sum};
ghost use Rattle.sb_grammar.specs.Options.{one, more, options};
ghost use Rattle.sb_grammar.specs.Dialogs as spec;

use crate::expr::sum;
use crate::fault::Fault;
use crate::value::{broker, expect, name, phrase, variable};
use sb_grammar::{
    Barred, BrokerInstance, DialogOption, DialogOptions, DialogWord, Ending, Expr, Fixed, Lexeme,
    Statement, is,
};
use sb_log::{Name, Text};
use sqlite_items::Items;
use std::alloc::Global;

#[tactic(auto, unfolding(sb_grammar::specs::Dialogs::dialog_take))]
fn dialog_take(written: &DialogOptions, t: &Lexeme) -> Option<DialogWord>
    ensures { result ≡ (spec.dialog_choices (sum 0)).take written.now t.now }
{
    if is(Fixed::RelatedConversation, t) && !written.is_related {
        Some(DialogWord::RelatedConversation)
    } else if is(Fixed::RelatedConversationGroup, t) && !written.is_related {
        Some(DialogWord::RelatedGroup)
    } else if is(Fixed::Lifetime, t) && !written.has_lifetime {
        Some(DialogWord::Lifetime)
    } else if is(Fixed::Encryption, t) && !written.has_encryption {
        Some(DialogWord::Encryption)
    } else {
        None
    }
}

fn dialog_next(written: &DialogOptions) -> Option<DialogWord>
    ensures { result ≡ (spec.dialog_choices (sum 0)).next written.now }
{
    if !written.has_encryption {
        Some(DialogWord::Encryption)
    } else if !written.has_lifetime {
        Some(DialogWord::Lifetime)
    } else if !written.is_related {
        Some(DialogWord::RelatedConversation)
    } else {
        None
    }
}

#[tactic(auto, unfolding(sb_grammar::specs::Dialogs::encryption_bars))]
fn encryption_bars(t: &Lexeme) -> Option<Barred>
    ensures { result ≡ spec.encryption_bars t.now }
{
    if is(Fixed::On, t) {
        Some(Barred::On)
    } else {
        None
    }
}

/// OFF, where ON isn't supported.
fn off(tokens: &[Lexeme]) -> Result<&[Lexeme], Fault>
    ensures value { Gives (λ rest. (tt, rest.now)) result (spec.encryption.reads tokens.now) }
    ensures shorter { IfOk result (λ rest. length rest.now ≤ length tokens.now) }
{
    if let [t, ..] = tokens {
        if let Some(word) = encryption_bars(t) {
            return Err(Fault::Unsupported(tokens.len(), word));
        }
    }
    expect(Fixed::Off, tokens)
}

#[tactic(auto, unfolding(sb_grammar::specs::Dialogs::dialog_value))]
fn dialog_value(
    alloc: Global,
    levels: u32,
    mut written: DialogOptions,
    option: DialogWord,
    tokens: &[Lexeme],
) -> Result<(DialogOptions, &[Lexeme]), Fault>
    ensures value { Gives (λ x. (x.0, x.1.now)) result ((spec.dialog_value (sum levels) written option).reads tokens.now) }
    ensures shorter { IfOk result (λ x. length x.1.now ≤ length tokens.now) }
{
    let rest = expect(Fixed::Equals, tokens)?;
    match option {
        DialogWord::RelatedConversation => {
            let (handle, rest) = sum(alloc, levels, rest)?;
            written
                .options
                .push(DialogOption::RelatedConversation(handle))?;
            written.is_related = true;
            Ok((written, rest))
        }
        DialogWord::RelatedGroup => {
            let (group, rest) = sum(alloc, levels, rest)?;
            written.options.push(DialogOption::RelatedGroup(group))?;
            written.is_related = true;
            Ok((written, rest))
        }
        DialogWord::Lifetime => {
            let (seconds, rest) = sum(alloc, levels, rest)?;
            written.options.push(DialogOption::Lifetime(seconds))?;
            written.has_lifetime = true;
            Ok((written, rest))
        }
        DialogWord::Encryption => {
            let rest = off(rest)?;
            written.options.push(DialogOption::EncryptionOff)?;
            written.has_encryption = true;
            Ok((written, rest))
        }
    }
}

/// One more option.
#[tactic(auto, unfolding(sb_grammar::specs::Options::one))]
fn dialog_one(
    alloc: Global,
    levels: u32,
    written: DialogOptions,
    tokens: &[Lexeme],
) -> Result<(DialogOptions, &[Lexeme]), Fault>
    ensures value { Gives (λ x. (x.0, x.1.now)) result ((one (spec.dialog_choices (sum levels)) DialogWord.Encryption written).reads tokens.now) }
    ensures shorter { IfOk result (λ x. length x.1.now ≤ length tokens.now) }
{
    let [t, rest @ ..] = tokens else {
        return Err(Fault::Bad(0));
    };
    let Some(option) = dialog_take(&written, t) else {
        return Err(Fault::Bad(tokens.len()));
    };
    dialog_value(alloc, levels, written, option, rest)
}

/// The other options, one more than so many at most.
#[cycle(dialog)]
#[tactic(auto, unfolding(sb_grammar::specs::Options::more, sb_grammar::specs::Options::one, sb_grammar::specs::Words::fixed_at))]
fn dialog_another(
    alloc: Global,
    levels: u32,
    left: u32,
    written: DialogOptions,
    tokens: &[Lexeme],
) -> Result<(DialogOptions, &[Lexeme]), Fault>
    ensures value { Gives (λ x. (x.0, x.1.now)) result ((more (spec.dialog_choices (sum levels)) (suc left) written).reads tokens.now) }
    ensures shorter { IfOk result (λ x. length x.1.now ≤ length tokens.now) }
{
    let Some(_next) = dialog_next(&written) else {
        return Ok((written, tokens));
    };
    match tokens {
        [t, rest @ ..] if is(Fixed::Comma, t) => {
            let (written, rest) = dialog_one(alloc, levels, written, rest)?;
            dialog_more(alloc, levels, left, written, rest)
        }
        _ => Ok((written, tokens)),
    }
}

/// The other options, so many at most.
#[cycle(dialog)]
#[tactic(auto, unfolding(sb_grammar::specs::Options::more))]
fn dialog_more(
    alloc: Global,
    levels: u32,
    left: u32,
    written: DialogOptions,
    tokens: &[Lexeme],
) -> Result<(DialogOptions, &[Lexeme]), Fault>
    ensures value { Gives (λ x. (x.0, x.1.now)) result ((more (spec.dialog_choices (sum levels)) left written).reads tokens.now) }
    ensures shorter { IfOk result (λ x. length x.1.now ≤ length tokens.now) }
{
    if left == 0 {
        return Ok((written, tokens));
    }
    dialog_another(alloc, levels, left - 1, written, tokens)
}

#[tactic(auto, unfolding(sb_grammar::specs::Dialogs::dialog_options, sb_grammar::specs::Options::options, sb_grammar::specs::Words::fixed_at))]
fn dialog_options(
    alloc: Global,
    levels: u32,
    tokens: &[Lexeme],
) -> Result<(DialogOptions, &[Lexeme]), Fault>
    ensures value { Gives (λ x. (x.0, x.1.now)) result ((spec.dialog_options (sum levels)).reads tokens.now) }
    ensures shorter { IfOk result (λ x. length x.1.now ≤ length tokens.now) }
{
    let none = DialogOptions {
        options: Items::new(alloc),
        is_related: false,
        has_lifetime: false,
        has_encryption: false,
    };
    match tokens {
        [t, rest @ ..] if is(Fixed::With, t) => {
            let (written, rest) = dialog_one(alloc, levels, none, rest)?;
            dialog_more(alloc, levels, 2, written, rest)
        }
        _ => Ok((none, tokens)),
    }
}

#[tactic(auto, unfolding(sb_grammar::specs::Dialogs::contract_part, sb_grammar::specs::Words::fixed_at))]
fn contract_part(alloc: Global, tokens: &[Lexeme]) -> Result<(Option<Name>, &[Lexeme]), Fault>
    ensures value { Gives (λ x. (x.0, x.1.now)) result (spec.contract_part.reads tokens.now) }
    ensures shorter { IfOk result (λ x. length x.1.now ≤ length tokens.now) }
{
    match tokens {
        [t, rest @ ..] if is(Fixed::On, t) => {
            let (contract, rest) = name(alloc, expect(Fixed::Contract, rest)?)?;
            Ok((Some(contract), rest))
        }
        _ => Ok((None, tokens)),
    }
}

#[tactic(auto, unfolding(sb_grammar::specs::Dialogs::instance_part, sb_grammar::specs::Words::fixed_at))]
fn instance_part(tokens: &[Lexeme]) -> Result<(Option<BrokerInstance>, &[Lexeme]), Fault>
    ensures value { Gives (λ x. (x.0, x.1.now)) result (spec.instance_part.reads tokens.now) }
    ensures shorter { IfOk result (λ x. length x.1.now ≤ length tokens.now) }
{
    match tokens {
        [t, rest @ ..] if is(Fixed::Comma, t) => {
            let (instance, rest) = broker(rest)?;
            Ok((Some(instance), rest))
        }
        _ => Ok((None, tokens)),
    }
}

/// Behind the target's service.
#[tactic(auto, unfolding(sb_grammar::specs::Dialogs::dialog_end))]
fn dialog_end(
    alloc: Global,
    levels: u32,
    variable: Text,
    from: Name,
    to: Expr,
    tokens: &[Lexeme],
) -> Result<(Statement, &[Lexeme]), Fault>
    ensures value { Gives (λ x. (x.0, x.1.now)) result ((spec.dialog_end (sum levels) variable from to).reads tokens.now) }
    ensures shorter { IfOk result (λ x. length x.1.now ≤ length tokens.now) }
{
    let (instance, rest) = instance_part(tokens)?;
    let (contract, rest) = contract_part(alloc, rest)?;
    let (written, rest) = dialog_options(alloc, levels, rest)?;
    let DialogOptions {
        options,
        is_related: _,
        has_lifetime: _,
        has_encryption: _,
    } = written;
    let statement = Statement::BeginDialog {
        variable,
        from,
        to,
        instance,
        contract,
        options,
    };
    Ok((statement, rest))
}

#[tactic(auto, unfolding(sb_grammar::specs::Dialogs::conversation_word, sb_grammar::specs::Words::fixed_at))]
fn past_conversation(tokens: &[Lexeme]) -> &[Lexeme]
    ensures value { spec.conversation_word.reads tokens.now ≡ Ok (tt, result.now) }
    ensures shorter { length result.now ≤ length tokens.now }
{
    match tokens {
        [t, rest @ ..] if is(Fixed::Conversation, t) => rest,
        _ => tokens,
    }
}

/// Behind BEGIN DIALOG.
#[tactic(auto, unfolding(sb_grammar::specs::Dialogs::dialog_rest))]
pub(crate) fn dialog(
    alloc: Global,
    levels: u32,
    tokens: &[Lexeme],
) -> Result<(Statement, &[Lexeme]), Fault>
    ensures value { Gives (λ x. (x.0, x.1.now)) result ((spec.dialog_rest (sum levels)).reads tokens.now) }
    ensures shorter { IfOk result (λ x. length x.1.now ≤ length tokens.now) }
{
    let (variable, rest) = variable(alloc, past_conversation(tokens))?;
    let rest = phrase(&[Fixed::From, Fixed::Service], rest)?;
    let (from, rest) = name(alloc, rest)?;
    let rest = phrase(&[Fixed::To, Fixed::Service], rest)?;
    let (to, rest) = sum(alloc, levels, rest)?;
    dialog_end(alloc, levels, variable, from, to, rest)
}

/// Behind BEGIN CONVERSATION.
#[tactic(auto, unfolding(sb_grammar::specs::Dialogs::timer_rest))]
pub(crate) fn timer(
    alloc: Global,
    levels: u32,
    tokens: &[Lexeme],
) -> Result<(Statement, &[Lexeme]), Fault>
    ensures value { Gives (λ x. (x.0, x.1.now)) result ((spec.timer_rest (sum levels)).reads tokens.now) }
    ensures shorter { IfOk result (λ x. length x.1.now ≤ length tokens.now) }
{
    let rest = phrase(&[Fixed::Timer, Fixed::Open], tokens)?;
    let (conversation, rest) = sum(alloc, levels, rest)?;
    let rest = phrase(&[Fixed::Close, Fixed::Timeout, Fixed::Equals], rest)?;
    let (timeout, rest) = sum(alloc, levels, rest)?;
    let statement = Statement::Timer {
        conversation,
        timeout,
    };
    Ok((statement, rest))
}

#[tactic(auto, unfolding(sb_grammar::specs::Dialogs::kind_part, sb_grammar::specs::Words::fixed_at))]
fn kind_part(alloc: Global, tokens: &[Lexeme]) -> Result<(Option<Name>, &[Lexeme]), Fault>
    ensures value { Gives (λ x. (x.0, x.1.now)) result (spec.kind_part.reads tokens.now) }
    ensures shorter { IfOk result (λ x. length x.1.now ≤ length tokens.now) }
{
    match tokens {
        [t, rest @ ..] if is(Fixed::Message, t) => {
            let (kind, rest) = name(alloc, expect(Fixed::Type, rest)?)?;
            Ok((Some(kind), rest))
        }
        _ => Ok((None, tokens)),
    }
}

#[tactic(auto, unfolding(sb_grammar::specs::Dialogs::body_part, sb_grammar::specs::Words::fixed_at))]
fn body_part(
    alloc: Global,
    levels: u32,
    tokens: &[Lexeme],
) -> Result<(Option<Expr>, &[Lexeme]), Fault>
    ensures value { Gives (λ x. (x.0, x.1.now)) result ((spec.body_part (sum levels)).reads tokens.now) }
    ensures shorter { IfOk result (λ x. length x.1.now ≤ length tokens.now) }
{
    match tokens {
        [t, rest @ ..] if is(Fixed::Open, t) => {
            let (body, rest) = sum(alloc, levels, rest)?;
            Ok((Some(body), expect(Fixed::Close, rest)?))
        }
        _ => Ok((None, tokens)),
    }
}

/// Behind SEND.
#[tactic(auto, unfolding(sb_grammar::specs::Dialogs::send_rest))]
pub(crate) fn send(
    alloc: Global,
    levels: u32,
    tokens: &[Lexeme],
) -> Result<(Statement, &[Lexeme]), Fault>
    ensures value { Gives (λ x. (x.0, x.1.now)) result ((spec.send_rest (sum levels)).reads tokens.now) }
    ensures shorter { IfOk result (λ x. length x.1.now ≤ length tokens.now) }
{
    let rest = phrase(&[Fixed::On, Fixed::Conversation], tokens)?;
    let (conversation, rest) = sum(alloc, levels, rest)?;
    let (kind, rest) = kind_part(alloc, rest)?;
    let (body, rest) = body_part(alloc, levels, rest)?;
    let statement = Statement::Send {
        conversation,
        kind,
        body,
    };
    Ok((statement, rest))
}

/// Behind MOVE.
#[tactic(auto, unfolding(sb_grammar::specs::Dialogs::move_rest))]
pub(crate) fn move_rest(
    alloc: Global,
    levels: u32,
    tokens: &[Lexeme],
) -> Result<(Statement, &[Lexeme]), Fault>
    ensures value { Gives (λ x. (x.0, x.1.now)) result ((spec.move_rest (sum levels)).reads tokens.now) }
    ensures shorter { IfOk result (λ x. length x.1.now ≤ length tokens.now) }
{
    let (conversation, rest) = sum(alloc, levels, expect(Fixed::Conversation, tokens)?)?;
    let (group, rest) = sum(alloc, levels, expect(Fixed::To, rest)?)?;
    let statement = Statement::Move {
        conversation,
        group,
    };
    Ok((statement, rest))
}

#[tactic(auto, unfolding(sb_grammar::specs::Dialogs::ending_with, sb_grammar::specs::Words::fixed_at))]
fn ending_with(alloc: Global, levels: u32, tokens: &[Lexeme]) -> Result<(Ending, &[Lexeme]), Fault>
    ensures value { Gives (λ x. (x.0, x.1.now)) result ((spec.ending_with (sum levels)).reads tokens.now) }
    ensures shorter { IfOk result (λ x. length x.1.now ≤ length tokens.now) }
{
    match tokens {
        [t, rest @ ..] if is(Fixed::Cleanup, t) => Ok((Ending::Cleanup, rest)),
        _ => {
            let rest = phrase(&[Fixed::Error, Fixed::Equals], tokens)?;
            let (code, rest) = sum(alloc, levels, rest)?;
            let rest = phrase(&[Fixed::Description, Fixed::Equals], rest)?;
            let (description, rest) = sum(alloc, levels, rest)?;
            Ok((Ending::Error { code, description }, rest))
        }
    }
}

#[tactic(auto, unfolding(sb_grammar::specs::Dialogs::ending_part, sb_grammar::specs::Words::fixed_at))]
fn ending_part(alloc: Global, levels: u32, tokens: &[Lexeme]) -> Result<(Ending, &[Lexeme]), Fault>
    ensures value { Gives (λ x. (x.0, x.1.now)) result ((spec.ending_part (sum levels)).reads tokens.now) }
    ensures shorter { IfOk result (λ x. length x.1.now ≤ length tokens.now) }
{
    match tokens {
        [t, rest @ ..] if is(Fixed::With, t) => ending_with(alloc, levels, rest),
        _ => Ok((Ending::Plain, tokens)),
    }
}

/// Behind END CONVERSATION.
#[tactic(auto, unfolding(sb_grammar::specs::Dialogs::end_tail))]
pub(crate) fn end_tail(
    alloc: Global,
    levels: u32,
    tokens: &[Lexeme],
) -> Result<(Statement, &[Lexeme]), Fault>
    ensures value { Gives (λ x. (x.0, x.1.now)) result ((spec.end_tail (sum levels)).reads tokens.now) }
    ensures shorter { IfOk result (λ x. length x.1.now ≤ length tokens.now) }
{
    let (conversation, rest) = sum(alloc, levels, tokens)?;
    let (ending, rest) = ending_part(alloc, levels, rest)?;
    let statement = Statement::EndConversation {
        conversation,
        ending,
    };
    Ok((statement, rest))
}

/// Behind END.
#[tactic(auto, unfolding(sb_grammar::specs::Dialogs::end_rest))]
pub(crate) fn end_rest(
    alloc: Global,
    levels: u32,
    tokens: &[Lexeme],
) -> Result<(Statement, &[Lexeme]), Fault>
    ensures value { Gives (λ x. (x.0, x.1.now)) result ((spec.end_rest (sum levels)).reads tokens.now) }
    ensures shorter { IfOk result (λ x. length x.1.now ≤ length tokens.now) }
{
    end_tail(alloc, levels, expect(Fixed::Conversation, tokens)?)
}
