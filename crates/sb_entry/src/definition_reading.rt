//! Reading definitions.

ghost use Rattle.std.specs.Prelude.{◌≡◌};
ghost use Rattle.sb_fields.specs.Reading.{optional_at, list_at};
ghost use Rattle.sb_entry.specs.Gives.{Gives};
ghost use Rattle.sb_model.specs.Reading.{name_at, message_type_at, sender_of, sent_by_at, contract_at, activation_at, queue_at, service_at, place_of, route_at, priority_at, table_at, procedure_at, definition_at};

use crate::message_reading::{
    byte_between, optional_handle, read_flag, read_long_text, read_name, two_bytes,
};
use crate::unread::Unread;
use sb_log::{
    Activation, ContractDef, Ddl, MessageDef, Name, Names, PriorityDef, ProcedureDef, QueueDef,
    RouteDef, Sender, SentBy, SentBys, ServiceDef, TableDef, Text, Who,
};
use std::alloc::Global;

#[tactic(auto, unfolding(sb_fields::specs::Reading::read_then, sb_fields::specs::Reading::give, sb_fields::specs::Reading::some_at, sb_fields::specs::Reading::optional_at))]
fn optional_name(alloc: Global, bytes: &[u8]) -> Result<(Option<Name>, &[u8]), Unread>
    ensures { Gives (λ x. (x.0, x.1.now)) result (optional_at name_at bytes.now) }
{
    let (there, rest) = read_flag(bytes)?;
    if there {
        let (value, rest) = read_name(alloc, rest)?;
        Ok((Some(value), rest))
    } else {
        Ok((None, rest))
    }
}

/// Reads the text of a service: it is a name, or its field can't be read.
fn read_service(alloc: Global, bytes: &[u8]) -> Result<(Text, &[u8]), Unread>
    ensures { Gives (λ x. (x.0, x.1.now)) result (name_at bytes.now) }
{
    let (name, rest) = read_name(alloc, bytes)?;
    Ok((Text::from_string(name.into_string()), rest))
}

#[tactic(auto, unfolding(sb_fields::specs::Reading::read_then, sb_fields::specs::Reading::give, sb_fields::specs::Reading::some_at, sb_fields::specs::Reading::optional_at))]
fn optional_service(alloc: Global, bytes: &[u8]) -> Result<(Option<Text>, &[u8]), Unread>
    ensures { Gives (λ x. (x.0, x.1.now)) result (optional_at name_at bytes.now) }
{
    let (there, rest) = read_flag(bytes)?;
    if there {
        let (value, rest) = read_service(alloc, rest)?;
        Ok((Some(value), rest))
    } else {
        Ok((None, rest))
    }
}

#[tactic(auto, unfolding(sb_fields::specs::Reading::read_then, sb_fields::specs::Reading::give, sb_model::specs::Reading::message_type_at))]
fn message_type(alloc: Global, bytes: &[u8]) -> Result<(Ddl, &[u8]), Unread>
    ensures { Gives (λ x. (x.0, x.1.now)) result (message_type_at bytes.now) }
{
    let (name, rest) = read_name(alloc, bytes)?;
    let (validation, rest) = byte_between(rest, 1, 2)?;
    Ok((
        Ddl::MessageType(MessageDef {
            name,
            empty: validation == 2,
        }),
        rest,
    ))
}

fn sender(number: u8) -> Sender
    ensures { result ≡ sender_of number }
{
    match number {
        1 => Sender::Initiator,
        2 => Sender::Target,
        _ => Sender::Any,
    }
}

#[tactic(auto, unfolding(sb_fields::specs::Reading::read_then, sb_fields::specs::Reading::give, sb_model::specs::Reading::sent_by_at))]
fn sent_by(alloc: Global, bytes: &[u8]) -> Result<(SentBy, &[u8]), Unread>
    ensures { Gives (λ x. (x.0, x.1.now)) result (sent_by_at bytes.now) }
{
    let (kind, rest) = read_name(alloc, bytes)?;
    let (number, rest) = byte_between(rest, 1, 3)?;
    Ok((
        SentBy {
            kind,
            by: sender(number),
        },
        rest,
    ))
}

fn sent_bys(alloc: Global, count: u16, bytes: &[u8]) -> Result<(Vec<SentBy>, &[u8]), Unread>
    ensures { Gives (λ x. (x.0.items, x.1.now)) result (list_at sent_by_at count bytes.now) }
{
    let mut values = Vec::new(alloc);
    let mut rest = bytes;
    for _ in 0..count {
        let (value, after) = sent_by(alloc, rest)?;
        values.push(value)?;
        rest = after;
    }
    Ok((values, rest))
}

#[tactic(auto, unfolding(sb_fields::specs::Reading::read_then, sb_fields::specs::Reading::give, sb_model::specs::Reading::contract_at))]
fn contract(alloc: Global, bytes: &[u8]) -> Result<(Ddl, &[u8]), Unread>
    ensures { Gives (λ x. (x.0, x.1.now)) result (contract_at bytes.now) }
{
    let (name, rest) = read_name(alloc, bytes)?;
    let (count, rest) = two_bytes(rest)?;
    let (types, rest) = sent_bys(alloc, count, rest)?;
    Ok((
        Ddl::Contract(ContractDef {
            name,
            types: SentBys::from_vec(types),
        }),
        rest,
    ))
}

#[tactic(auto, unfolding(sb_fields::specs::Reading::read_then, sb_fields::specs::Reading::give, sb_model::specs::Reading::activation_at))]
fn activation(alloc: Global, bytes: &[u8]) -> Result<(Activation, &[u8]), Unread>
    ensures { Gives (λ x. (x.0, x.1.now)) result (activation_at bytes.now) }
{
    let (on, rest) = read_flag(bytes)?;
    let (procedure, rest) = read_name(alloc, rest)?;
    let (readers, rest) = two_bytes(rest)?;
    Ok((
        Activation {
            on,
            procedure,
            readers: i64::from(readers),
        },
        rest,
    ))
}

#[tactic(auto, unfolding(sb_fields::specs::Reading::read_then, sb_fields::specs::Reading::give, sb_fields::specs::Reading::some_at, sb_fields::specs::Reading::optional_at))]
fn optional_activation(alloc: Global, bytes: &[u8]) -> Result<(Option<Activation>, &[u8]), Unread>
    ensures { Gives (λ x. (x.0, x.1.now)) result (optional_at activation_at bytes.now) }
{
    let (there, rest) = read_flag(bytes)?;
    if there {
        let (value, rest) = activation(alloc, rest)?;
        Ok((Some(value), rest))
    } else {
        Ok((None, rest))
    }
}

#[tactic(auto, unfolding(sb_fields::specs::Reading::read_then, sb_fields::specs::Reading::give, sb_model::specs::Reading::queue_at))]
fn queue(alloc: Global, bytes: &[u8]) -> Result<(Ddl, &[u8]), Unread>
    ensures { Gives (λ x. (x.0, x.1.now)) result (queue_at bytes.now) }
{
    let (name, rest) = read_name(alloc, bytes)?;
    let (on, rest) = read_flag(rest)?;
    let (poison, rest) = read_flag(rest)?;
    let (activation, rest) = optional_activation(alloc, rest)?;
    Ok((
        Ddl::Queue(QueueDef {
            name,
            on,
            poison,
            activation,
        }),
        rest,
    ))
}

fn names(alloc: Global, count: u16, bytes: &[u8]) -> Result<(Vec<Name>, &[u8]), Unread>
    ensures { Gives (λ x. (x.0.items, x.1.now)) result (list_at name_at count bytes.now) }
{
    let mut values = Vec::new(alloc);
    let mut rest = bytes;
    for _ in 0..count {
        let (value, after) = read_name(alloc, rest)?;
        values.push(value)?;
        rest = after;
    }
    Ok((values, rest))
}

#[tactic(auto, unfolding(sb_fields::specs::Reading::read_then, sb_fields::specs::Reading::give, sb_model::specs::Reading::service_at))]
fn service(alloc: Global, bytes: &[u8]) -> Result<(Ddl, &[u8]), Unread>
    ensures { Gives (λ x. (x.0, x.1.now)) result (service_at bytes.now) }
{
    let (name, rest) = read_name(alloc, bytes)?;
    let (queue, rest) = read_name(alloc, rest)?;
    let (count, rest) = two_bytes(rest)?;
    let (contracts, rest) = names(alloc, count, rest)?;
    Ok((
        Ddl::Service(ServiceDef {
            name,
            queue,
            contracts: Names::from_vec(contracts),
        }),
        rest,
    ))
}

fn place(number: u8) -> Option<Who>
    ensures { result ≡ place_of number }
{
    match number {
        0 => None,
        1 => Some(Who::A),
        _ => Some(Who::B),
    }
}

#[tactic(auto, unfolding(sb_fields::specs::Reading::read_then, sb_fields::specs::Reading::give, sb_model::specs::Reading::route_at))]
fn route(alloc: Global, bytes: &[u8]) -> Result<(Ddl, &[u8]), Unread>
    ensures { Gives (λ x. (x.0, x.1.now)) result (route_at bytes.now) }
{
    let (name, rest) = read_name(alloc, bytes)?;
    let (service, rest) = optional_service(alloc, rest)?;
    let (instance, rest) = optional_handle(rest)?;
    let (number, rest) = byte_between(rest, 0, 2)?;
    Ok((
        Ddl::Route(RouteDef {
            name,
            service,
            instance,
            to: place(number),
        }),
        rest,
    ))
}

#[tactic(auto, unfolding(sb_fields::specs::Reading::read_then, sb_fields::specs::Reading::give, sb_model::specs::Reading::priority_at))]
fn priority(alloc: Global, bytes: &[u8]) -> Result<(Ddl, &[u8]), Unread>
    ensures { Gives (λ x. (x.0, x.1.now)) result (priority_at bytes.now) }
{
    let (name, rest) = read_name(alloc, bytes)?;
    let (contract, rest) = optional_name(alloc, rest)?;
    let (local, rest) = optional_name(alloc, rest)?;
    let (remote, rest) = optional_service(alloc, rest)?;
    let (level, rest) = byte_between(rest, 1, 10)?;
    Ok((
        Ddl::Priority(PriorityDef {
            name,
            contract,
            local,
            remote,
            level: i64::from(level),
        }),
        rest,
    ))
}

#[tactic(auto, unfolding(sb_fields::specs::Reading::read_then, sb_fields::specs::Reading::give, sb_model::specs::Reading::table_at))]
fn table(alloc: Global, bytes: &[u8]) -> Result<(Ddl, &[u8]), Unread>
    ensures { Gives (λ x. (x.0, x.1.now)) result (table_at bytes.now) }
{
    let (name, rest) = read_name(alloc, bytes)?;
    Ok((Ddl::Table(TableDef { name }), rest))
}

#[tactic(auto, unfolding(sb_fields::specs::Reading::read_then, sb_fields::specs::Reading::give, sb_model::specs::Reading::procedure_at))]
fn procedure(alloc: Global, bytes: &[u8]) -> Result<(Ddl, &[u8]), Unread>
    ensures { Gives (λ x. (x.0, x.1.now)) result (procedure_at bytes.now) }
{
    let (name, rest) = read_name(alloc, bytes)?;
    let (text, rest) = read_long_text(alloc, rest)?;
    Ok((Ddl::Procedure(ProcedureDef { name, text }), rest))
}

/// Reads a definition.
#[tactic(auto, unfolding(sb_fields::specs::Reading::read_then, sb_fields::specs::Reading::give, sb_model::specs::Reading::definition_at))]
pub(crate) fn read_definition(alloc: Global, bytes: &[u8]) -> Result<(Ddl, &[u8]), Unread>
    ensures { Gives (λ x. (x.0, x.1.now)) result (definition_at bytes.now) }
{
    let (kind, rest) = byte_between(bytes, 1, 8)?;
    match kind {
        1 => message_type(alloc, rest),
        2 => contract(alloc, rest),
        3 => queue(alloc, rest),
        4 => service(alloc, rest),
        5 => route(alloc, rest),
        6 => priority(alloc, rest),
        7 => table(alloc, rest),
        _ => procedure(alloc, rest),
    }
}
