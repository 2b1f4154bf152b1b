//! Writing definitions.

ghost use Rattle.std.specs.Prelude.{◌≡◌, ◌++◌, ◌<◌, ◌^◌, length, All, IfSome, OnOk};
ghost use Rattle.std.specs.List.{flat_map};
ghost use Rattle.sb_fields.specs.Spelling.{flag, text16, optional};
ghost use Rattle.sb_entry.specs.Fields.{IsNameField, ActivationFits, DefinitionFits};
ghost use Rattle.sb_model.specs.Spelling.{sender_number, sent_by_bytes, activation_bytes, place_number, definition_bytes};

use crate::message_writing::{put_flag, put_name, put_optional_handle};
use sb_fields::{put_bytes32, put_text16, put_u8, put_u16};
use sb_log::{
    Activation, ContractDef, Ddl, Name, PriorityDef, QueueDef, RouteDef, Sender, SentBy,
    ServiceDef, Text, Who,
};
use std::alloc::AllocError;

#[tactic(auto, unfolding(sb_fields::specs::Spelling::optional))]
fn put_optional_name(out: &mut Vec<u8>, name: &Option<Name>) -> Result<(), AllocError>
    requires { IfSome name.now IsNameField }
    ensures { OnOk result (out.new.items ≡ out.old.items ++ optional text16 name.now) }
{
    match name {
        None => put_flag(out, false),
        Some(name) => {
            put_flag(out, true)?;
            put_name(out, name)
        }
    }
}

#[tactic(auto, unfolding(sb_fields::specs::Spelling::optional))]
fn put_optional_service(out: &mut Vec<u8>, service: &Option<Text>) -> Result<(), AllocError>
    requires { IfSome service.now IsNameField }
    ensures { OnOk result (out.new.items ≡ out.old.items ++ optional text16 service.now) }
{
    match service {
        None => put_flag(out, false),
        Some(service) => {
            put_flag(out, true)?;
            put_text16(out, service.as_str())
        }
    }
}

fn number_of_sender(sender: Sender) -> u8
    ensures { result ≡ sender_number sender }
{
    match sender {
        Sender::Initiator => 1,
        Sender::Target => 2,
        Sender::Any => 3,
    }
}

#[tactic(auto, unfolding(sb_model::specs::Spelling::sent_by_bytes))]
fn put_sent_by(out: &mut Vec<u8>, sent: &SentBy) -> Result<(), AllocError>
    requires { IsNameField sent.now.kind }
    ensures { OnOk result (out.new.items ≡ out.old.items ++ sent_by_bytes sent.now) }
{
    put_name(out, &sent.kind)?;
    put_u8(out, number_of_sender(sent.by))
}

fn put_sent_bys(out: &mut Vec<u8>, types: &[SentBy]) -> Result<(), AllocError>
    requires { All (λ sent. IsNameField sent.kind) types.now }
    ensures { OnOk result (out.new.items ≡ out.old.items ++ flat_map sent_by_bytes types.now) }
{
    for sent in types {
        put_sent_by(out, sent)?;
    }
    Ok(())
}

fn put_names(out: &mut Vec<u8>, names: &[Name]) -> Result<(), AllocError>
    requires { All IsNameField names.now }
    ensures { OnOk result (out.new.items ≡ out.old.items ++ flat_map text16 names.now) }
{
    for name in names {
        put_name(out, name)?;
    }
    Ok(())
}

#[tactic(auto, unfolding(sb_model::specs::Spelling::activation_bytes))]
fn put_activation(out: &mut Vec<u8>, activation: &Activation) -> Result<(), AllocError>
    requires { ActivationFits activation.now }
    ensures { OnOk result (out.new.items ≡ out.old.items ++ activation_bytes activation.now) }
{
    put_flag(out, activation.on)?;
    put_name(out, &activation.procedure)?;
    put_u16(out, activation.readers.unsigned_abs() as u16)
}

#[tactic(auto, unfolding(sb_fields::specs::Spelling::optional))]
fn put_optional_activation(
    out: &mut Vec<u8>,
    activation: &Option<Activation>,
) -> Result<(), AllocError>
    requires { IfSome activation.now ActivationFits }
    ensures { OnOk result (out.new.items ≡ out.old.items ++ optional activation_bytes activation.now) }
{
    match activation {
        None => put_flag(out, false),
        Some(activation) => {
            put_flag(out, true)?;
            put_activation(out, activation)
        }
    }
}

fn number_of_place(place: Option<Who>) -> u8
    ensures { result ≡ place_number place }
{
    match place {
        None => 0,
        Some(Who::A) => 1,
        Some(Who::B) => 2,
    }
}

#[tactic(auto, unfolding(sb_model::specs::Spelling::definition_bytes))]
fn put_contract(out: &mut Vec<u8>, contract: &ContractDef) -> Result<(), AllocError>
    requires { DefinitionFits (Ddl.Contract contract.now) }
    ensures { OnOk result (out.new.items ≡ out.old.items ++ definition_bytes (Ddl.Contract contract.now)) }
{
    put_u8(out, 2)?;
    put_name(out, &contract.name)?;
    put_u16(out, contract.types.len() as u16)?;
    put_sent_bys(out, contract.types.as_slice())
}

#[tactic(auto, unfolding(sb_model::specs::Spelling::definition_bytes))]
fn put_queue(out: &mut Vec<u8>, queue: &QueueDef) -> Result<(), AllocError>
    requires { DefinitionFits (Ddl.Queue queue.now) }
    ensures { OnOk result (out.new.items ≡ out.old.items ++ definition_bytes (Ddl.Queue queue.now)) }
{
    put_u8(out, 3)?;
    put_name(out, &queue.name)?;
    put_flag(out, queue.on)?;
    put_flag(out, queue.poison)?;
    put_optional_activation(out, &queue.activation)
}

#[tactic(auto, unfolding(sb_model::specs::Spelling::definition_bytes))]
fn put_service(out: &mut Vec<u8>, service: &ServiceDef) -> Result<(), AllocError>
    requires { DefinitionFits (Ddl.Service service.now) }
    ensures { OnOk result (out.new.items ≡ out.old.items ++ definition_bytes (Ddl.Service service.now)) }
{
    put_u8(out, 4)?;
    put_name(out, &service.name)?;
    put_name(out, &service.queue)?;
    put_u16(out, service.contracts.len() as u16)?;
    put_names(out, service.contracts.as_slice())
}

#[tactic(auto, unfolding(sb_model::specs::Spelling::definition_bytes))]
fn put_route(out: &mut Vec<u8>, route: &RouteDef) -> Result<(), AllocError>
    requires { DefinitionFits (Ddl.Route route.now) }
    ensures { OnOk result (out.new.items ≡ out.old.items ++ definition_bytes (Ddl.Route route.now)) }
{
    put_u8(out, 5)?;
    put_name(out, &route.name)?;
    put_optional_service(out, &route.service)?;
    put_optional_handle(out, route.instance)?;
    put_u8(out, number_of_place(route.to))
}

#[tactic(auto, unfolding(sb_model::specs::Spelling::definition_bytes))]
fn put_priority(out: &mut Vec<u8>, priority: &PriorityDef) -> Result<(), AllocError>
    requires { DefinitionFits (Ddl.Priority priority.now) }
    ensures { OnOk result (out.new.items ≡ out.old.items ++ definition_bytes (Ddl.Priority priority.now)) }
{
    put_u8(out, 6)?;
    put_name(out, &priority.name)?;
    put_optional_name(out, &priority.contract)?;
    put_optional_name(out, &priority.local)?;
    put_optional_service(out, &priority.remote)?;
    put_u8(out, priority.level.unsigned_abs() as u8)
}

/// Appends a definition.
#[tactic(auto, unfolding(sb_model::specs::Spelling::definition_bytes))]
pub(crate) fn put_definition(out: &mut Vec<u8>, ddl: &Ddl) -> Result<(), AllocError>
    requires { DefinitionFits ddl.now }
    ensures { OnOk result (out.new.items ≡ out.old.items ++ definition_bytes ddl.now) }
{
    match ddl {
        Ddl::MessageType(message) => {
            put_u8(out, 1)?;
            put_name(out, &message.name)?;
            put_u8(out, if message.empty { 2 } else { 1 })
        }
        Ddl::Contract(contract) => put_contract(out, contract),
        Ddl::Queue(queue) => put_queue(out, queue),
        Ddl::Service(service) => put_service(out, service),
        Ddl::Route(route) => put_route(out, route),
        Ddl::Priority(priority) => put_priority(out, priority),
        Ddl::Table(table) => {
            put_u8(out, 7)?;
            put_name(out, &table.name)
        }
        Ddl::Procedure(procedure) => {
            put_u8(out, 8)?;
            put_name(out, &procedure.name)?;
            put_bytes32(out, procedure.text.as_str().as_bytes())
        }
    }
}
