//! How many bytes a spelling has. This takes no memory, and each length is counted whole, also
//! that of a text or a list which is longer than its field holds.

ghost use Rattle.std.specs.Prelude.{◌≡◌, length, sum};
ghost use Rattle.std.specs.List.{flat_map};
ghost use Rattle.sb_fields.specs.Spelling.{bytes32, text16, optional};
ghost use Rattle.sb_entry.specs.Lengths.{capped};
ghost use Rattle.sb_model.specs.Spelling.{handle_bytes, bigint_bytes, header_bytes, content_bytes, final_bytes, op_bytes, sent_by_bytes, activation_bytes, definition_bytes, made_bytes, entry_bytes};

use sb_log::{
    Activation, Body, Content, Ddl, Entry, Final, Handle, Header, Name, NewSide, Op, SentBy, Text,
};

/// A byte that tells a kind, or whether something is so.
const BYTE: u64 = 1;
/// The length of a text, and any number of two bytes.
const TWO: u64 = 2;
/// The length of bytes, and any number of four bytes.
const FOUR: u64 = 4;
/// A number of eight bytes.
const EIGHT: u64 = 8;
/// An id.
const HANDLE: u64 = 16;
/// A side.
const SIDE: u64 = 17;

/// The sum of the parts, or the greatest `u64` where that is passed.
fn total(parts: &[u64]) -> u64
    ensures { result ≡ capped (sum parts.now) }
{
    let mut total: u64 = 0;
    for part in parts {
        total = total.saturating_add(*part);
    }
    total
}

fn text_len(text: &Text) -> u64
    ensures { result ≡ length text.now }
{
    text.as_str().len() as u64
}

fn name_len(name: &Name) -> u64
    ensures { result ≡ length name.now }
{
    name.as_str().len() as u64
}

#[tactic(auto, using(crate::proofs::PartLengths::lengths), unfolding(sb_fields::specs::Spelling::optional, sb_model::specs::Spelling::handle_bytes))]
fn optional_handle_len(handle: Option<Handle>) -> u64
    ensures { result ≡ capped (length (optional handle_bytes handle)) }
{
    match handle {
        None => BYTE,
        Some(_) => BYTE + HANDLE,
    }
}

#[tactic(auto, using(crate::proofs::PartLengths::lengths), unfolding(sb_fields::specs::Spelling::optional, sb_fields::specs::Spelling::text16))]
fn optional_name_len(name: &Option<Name>) -> u64
    ensures { result ≡ capped (length (optional text16 name.now)) }
{
    match name {
        None => BYTE,
        Some(name) => total(&[BYTE, TWO, name_len(name)]),
    }
}

#[tactic(auto, using(crate::proofs::PartLengths::lengths), unfolding(sb_fields::specs::Spelling::optional, sb_fields::specs::Spelling::text16))]
fn optional_service_len(service: &Option<Text>) -> u64
    ensures { result ≡ capped (length (optional text16 service.now)) }
{
    match service {
        None => BYTE,
        Some(service) => total(&[BYTE, TWO, text_len(service)]),
    }
}

#[tactic(auto, using(crate::proofs::PartLengths::lengths), unfolding(sb_fields::specs::Spelling::optional, sb_fields::specs::Spelling::bytes32))]
fn optional_text_len(text: &Option<Text>) -> u64
    ensures { result ≡ capped (length (optional bytes32 text.now)) }
{
    match text {
        None => BYTE,
        Some(text) => total(&[BYTE, FOUR, text_len(text)]),
    }
}

#[tactic(auto, using(crate::proofs::PartLengths::lengths), unfolding(sb_fields::specs::Spelling::optional, sb_fields::specs::Spelling::bytes32))]
fn optional_body_len(body: &Option<Body>) -> u64
    ensures { result ≡ capped (length (optional bytes32 body.now)) }
{
    match body {
        None => BYTE,
        Some(body) => total(&[BYTE, FOUR, body.as_slice().len() as u64]),
    }
}

#[tactic(auto, using(crate::proofs::PartLengths::lengths), unfolding(sb_fields::specs::Spelling::optional, sb_model::specs::Spelling::bigint_bytes))]
fn optional_bigint_len(n: Option<i64>) -> u64
    ensures { result ≡ capped (length (optional bigint_bytes n)) }
{
    match n {
        None => BYTE,
        Some(_) => BYTE + EIGHT,
    }
}

#[tactic(auto, using(crate::proofs::PartLengths::lengths), unfolding(sb_model::specs::Spelling::header_bytes, sb_model::specs::Spelling::handle_bytes, sb_fields::specs::Spelling::text16))]
fn header_len(header: &Header) -> u64
    ensures { result ≡ capped (length (header_bytes header.now)) }
{
    total(&[
        TWO,
        name_len(&header.from_service),
        TWO,
        name_len(&header.to_service),
        TWO,
        name_len(&header.contract),
        HANDLE,
        optional_handle_len(header.to),
        EIGHT,
    ])
}

#[tactic(auto, using(crate::proofs::PartLengths::lengths), unfolding(sb_model::specs::Spelling::content_bytes, sb_fields::specs::Spelling::text16))]
fn content_len(content: &Content) -> u64
    ensures { result ≡ capped (length (content_bytes content.now)) }
{
    match content {
        Content::App { kind, body } => {
            total(&[BYTE, TWO, name_len(kind), optional_body_len(body)])
        }
        Content::EndDialog => BYTE,
        Content::Error { code: _, text } => total(&[BYTE, FOUR, TWO, text_len(text)]),
    }
}

#[tactic(auto, using(crate::proofs::PartLengths::lengths), unfolding(sb_model::specs::Spelling::final_bytes, sb_fields::specs::Spelling::text16))]
fn final_len(last: &Final) -> u64
    ensures { result ≡ capped (length (final_bytes last.now)) }
{
    match last {
        Final::Silent | Final::EndDialog => BYTE,
        Final::Error { code: _, text } => total(&[BYTE, FOUR, TWO, text_len(text)]),
    }
}

#[tactic(auto, using(crate::proofs::PartLengths::lengths), unfolding(sb_model::specs::Spelling::op_bytes, sb_model::specs::Spelling::handle_bytes, sb_model::specs::Spelling::side_bytes, sb_model::specs::Spelling::bigint_bytes, sb_fields::specs::Spelling::text16))]
fn op_len(op: &Op) -> u64
    ensures { result ≡ capped (length (op_bytes op.now)) }
{
    match op {
        Op::Begin {
            handle: _,
            group: _,
            header,
        } => total(&[BYTE, HANDLE, HANDLE, header_len(header)]),
        Op::Send {
            side: _,
            kind,
            body,
        } => total(&[BYTE, SIDE, TWO, name_len(kind), optional_body_len(body)]),
        Op::Took { queue, item: _ } => total(&[BYTE, TWO, name_len(queue), EIGHT]),
        Op::End { side: _, last } => total(&[BYTE, SIDE, final_len(last)]),
        Op::Cleanup { side: _ } => BYTE + SIDE,
        Op::Move { side: _, group: _ } => BYTE + SIDE + HANDLE,
        Op::Timer { side: _, at: _ } => BYTE + SIDE + EIGHT,
        Op::Put {
            table,
            key: _,
            n,
            body,
        } => total(&[
            BYTE,
            TWO,
            name_len(table),
            EIGHT,
            optional_bigint_len(*n),
            optional_text_len(body),
        ]),
        Op::Delete { table, key: _ } => total(&[BYTE, TWO, name_len(table), EIGHT]),
    }
}

fn ops_len(ops: &[Op]) -> u64
    ensures { result ≡ capped (length (flat_map op_bytes ops.now)) }
{
    let mut total: u64 = 0;
    for op in ops {
        total = total.saturating_add(op_len(op));
    }
    total
}

#[tactic(auto, using(crate::proofs::PartLengths::lengths), unfolding(sb_model::specs::Spelling::sent_by_bytes, sb_fields::specs::Spelling::text16))]
fn sent_by_len(sent: &SentBy) -> u64
    ensures { result ≡ capped (length (sent_by_bytes sent.now)) }
{
    total(&[TWO, name_len(&sent.kind), BYTE])
}

fn sent_bys_len(types: &[SentBy]) -> u64
    ensures { result ≡ capped (length (flat_map sent_by_bytes types.now)) }
{
    let mut total: u64 = 0;
    for sent in types {
        total = total.saturating_add(sent_by_len(sent));
    }
    total
}

#[tactic(auto, using(crate::proofs::PartLengths::lengths), unfolding(sb_fields::specs::Spelling::text16))]
fn text16_len(name: &Name) -> u64
    ensures { result ≡ capped (length (text16 name.now)) }
{
    total(&[TWO, name_len(name)])
}

fn names_len(names: &[Name]) -> u64
    ensures { result ≡ capped (length (flat_map text16 names.now)) }
{
    let mut total: u64 = 0;
    for name in names {
        total = total.saturating_add(text16_len(name));
    }
    total
}

#[tactic(auto, using(crate::proofs::PartLengths::lengths), unfolding(sb_fields::specs::Spelling::optional, sb_model::specs::Spelling::activation_bytes, sb_fields::specs::Spelling::text16))]
fn optional_activation_len(activation: &Option<Activation>) -> u64
    ensures { result ≡ capped (length (optional activation_bytes activation.now)) }
{
    match activation {
        None => BYTE,
        Some(activation) => total(&[BYTE, BYTE, TWO, name_len(&activation.procedure), TWO]),
    }
}

#[tactic(auto, using(crate::proofs::PartLengths::lengths), unfolding(sb_model::specs::Spelling::definition_bytes, sb_fields::specs::Spelling::text16, sb_fields::specs::Spelling::bytes32))]
fn definition_len(ddl: &Ddl) -> u64
    ensures { result ≡ capped (length (definition_bytes ddl.now)) }
{
    match ddl {
        Ddl::MessageType(message) => total(&[BYTE, TWO, name_len(&message.name), BYTE]),
        Ddl::Contract(contract) => total(&[
            BYTE,
            TWO,
            name_len(&contract.name),
            TWO,
            sent_bys_len(contract.types.as_slice()),
        ]),
        Ddl::Queue(queue) => total(&[
            BYTE,
            TWO,
            name_len(&queue.name),
            BYTE,
            BYTE,
            optional_activation_len(&queue.activation),
        ]),
        Ddl::Service(service) => total(&[
            BYTE,
            TWO,
            name_len(&service.name),
            TWO,
            name_len(&service.queue),
            TWO,
            names_len(service.contracts.as_slice()),
        ]),
        Ddl::Route(route) => total(&[
            BYTE,
            TWO,
            name_len(&route.name),
            optional_service_len(&route.service),
            optional_handle_len(route.instance),
            BYTE,
        ]),
        Ddl::Priority(priority) => total(&[
            BYTE,
            TWO,
            name_len(&priority.name),
            optional_name_len(&priority.contract),
            optional_name_len(&priority.local),
            optional_service_len(&priority.remote),
            BYTE,
        ]),
        Ddl::Table(table) => total(&[BYTE, TWO, name_len(&table.name)]),
        Ddl::Procedure(procedure) => total(&[
            BYTE,
            TWO,
            name_len(&procedure.name),
            FOUR,
            text_len(&procedure.text),
        ]),
    }
}

#[tactic(auto, using(crate::proofs::PartLengths::lengths), unfolding(sb_fields::specs::Spelling::optional, sb_model::specs::Spelling::made_bytes, sb_model::specs::Spelling::handle_bytes))]
fn optional_made_len(made: &Option<NewSide>) -> u64
    ensures { result ≡ capped (length (optional made_bytes made.now)) }
{
    match made {
        None => BYTE,
        Some(made) => total(&[BYTE, HANDLE, HANDLE, header_len(&made.header)]),
    }
}

/// How many bytes the spelling of the entry has, or the greatest `u64` where that is passed.
#[tactic(auto, using(crate::proofs::PartLengths::lengths), unfolding(sb_model::specs::Spelling::entry_bytes, sb_model::specs::Spelling::side_bytes, sb_model::specs::Spelling::handle_bytes, sb_fields::specs::Spelling::text16))]
pub fn encoded_len(entry: &Entry) -> u64
    ensures { result ≡ capped (length (entry_bytes entry.now)) }
{
    match entry {
        Entry::Defined(ddl) => total(&[BYTE, definition_len(ddl)]),
        Entry::Txn { tx: _, ops } => total(&[BYTE, EIGHT, FOUR, ops_len(ops.as_slice())]),
        Entry::Accepted {
            side: _,
            number: _,
            made,
            content,
        } => total(&[
            BYTE,
            SIDE,
            EIGHT,
            optional_made_len(made),
            content_len(content),
        ]),
        Entry::Acked {
            side: _,
            upto: _,
            closed: _,
        } => BYTE + SIDE + EIGHT + BYTE,
        Entry::Fired { side: _ } | Entry::Expired { side: _ } => BYTE + SIDE,
        Entry::QueueSet { queue, on: _ } => total(&[BYTE, TWO, name_len(queue), BYTE]),
    }
}
