//! The definitions of a log.

ghost use Rattle.std.specs.Prelude.{◌≡◌, None, find, flat_map, option_copied, option_map};
ghost use Rattle.std.specs.List.{list_any, last_or};
ghost use Rattle.sb_model.specs.Sides.{same_name};
ghost use Rattle.sb_model.specs.Catalog.{
  contract_def,
  ddl_of,
  default_contract,
  default_name,
  default_type,
  definitions,
  find_contract,
  find_message_type,
  find_queue,
  find_service,
  find_table,
  is_on,
  may_be_sent_by,
  message_def,
  queue_is_on,
  sender_of,
  service_queue,
  setting,
};
ghost use Rattle.sb_scan.specs.Seen.{contract_seen, type_seen};

use sb_log::{
    ContractDef, Ddl, Entry, MessageDef, Name, QueueDef, Sender, SentBy, ServiceDef, TableDef,
};

/// A message type, as it stands in the log or is built in.
#[derive(Clone, Copy)]
pub enum SeenType<'a> {
    BuiltIn,
    Defined(&'a MessageDef),
}

impl SeenType<'_> {
    /// Whether its messages have no body.
    pub fn is_empty(self) -> bool
        ensures { result ≡ (type_seen self.entry).empty }
    {
        match self {
            SeenType::BuiltIn => false,
            SeenType::Defined(def) => def.empty,
        }
    }
}

/// A contract, as it stands in the log or is built in.
#[derive(Clone, Copy)]
pub enum SeenContract<'a> {
    BuiltIn,
    Defined(&'a ContractDef),
}

/// Whether the name is that of the built-in type and contract.
pub fn is_default(name: &Name) -> bool
    ensures { result ≡ same_name default_name name.now }
{
    "DEFAULT" == name.as_str()
}

fn type_in<'a>(entry: &'a Entry, name: &Name) -> Option<&'a MessageDef>
    ensures { option_copied result ≡ find (λ def. same_name def.name name.now) (flat_map message_def (ddl_of entry.now)) }
{
    match entry {
        Entry::Defined(Ddl::MessageType(def)) => {
            if def.name == *name { Some(def) } else { None }
        }
        _ => None,
    }
}

#[tactic(auto, using(crate::proofs::Looking::finding))]
fn defined_type<'a>(log: &'a [Entry], name: &Name) -> Option<&'a MessageDef>
    ensures { option_copied result ≡ find (λ def. same_name def.name name.now) (flat_map message_def (definitions log.now)) }
{
    for entry in log {
        if let Some(def) = type_in(entry, name) {
            return Some(def);
        }
    }
    None
}

/// The message type with this name.
pub fn find_message_type<'a>(log: &'a [Entry], name: &Name) -> Option<SeenType<'a>>
    ensures { option_map type_seen result ≡ find_message_type log.now name.now }
{
    if is_default(name) {
        return Some(SeenType::BuiltIn);
    }
    match defined_type(log, name) {
        None => None,
        Some(def) => Some(SeenType::Defined(def)),
    }
}

fn contract_in<'a>(entry: &'a Entry, name: &Name) -> Option<&'a ContractDef>
    ensures { option_copied result ≡ find (λ def. same_name def.name name.now) (flat_map contract_def (ddl_of entry.now)) }
{
    match entry {
        Entry::Defined(Ddl::Contract(def)) => { if def.name == *name { Some(def) } else { None } }
        _ => None,
    }
}

#[tactic(auto, using(crate::proofs::Looking::finding))]
fn defined_contract<'a>(log: &'a [Entry], name: &Name) -> Option<&'a ContractDef>
    ensures { option_copied result ≡ find (λ def. same_name def.name name.now) (flat_map contract_def (definitions log.now)) }
{
    for entry in log {
        if let Some(def) = contract_in(entry, name) {
            return Some(def);
        }
    }
    None
}

/// The contract with this name.
pub fn find_contract<'a>(log: &'a [Entry], name: &Name) -> Option<SeenContract<'a>>
    ensures { option_map contract_seen result ≡ find_contract log.now name.now }
{
    if is_default(name) {
        return Some(SeenContract::BuiltIn);
    }
    match defined_contract(log, name) {
        None => None,
        Some(def) => Some(SeenContract::Defined(def)),
    }
}

fn sender_among(types: &[SentBy], kind: &Name) -> Option<Sender>
    ensures { result ≡ option_map (λ sent. sent.by) (find (λ sent. same_name sent.kind kind.now) types.now) }
{
    for sent in types {
        if sent.kind == *kind {
            return Some(sent.by);
        }
    }
    None
}

/// Who may send the type by the contract.
pub fn sender_of(contract: SeenContract<'_>, kind: &Name) -> Option<Sender>
    ensures { result ≡ sender_of (contract_seen contract.entry) kind.now }
{
    match contract {
        SeenContract::BuiltIn => {
            if is_default(kind) {
                Some(Sender::Any)
            } else {
                None
            }
        }
        SeenContract::Defined(def) => sender_among(def.types.as_slice(), kind),
    }
}

/// Whether this end of a conversation may send what the sender may.
pub fn may_be_sent_by(by: Sender, initiator: bool) -> bool
    ensures { result ≡ may_be_sent_by by initiator }
{
    match by {
        Sender::Initiator => initiator,
        Sender::Target => !initiator,
        Sender::Any => true,
    }
}

/// The queue with this name.
pub fn find_queue<'a>(log: &'a [Entry], name: &Name) -> Option<&'a QueueDef>
    ensures { option_copied result ≡ find_queue log.now name.now }
{
    for entry in log {
        if let Entry::Defined(Ddl::Queue(def)) = entry {
            if def.name == *name {
                return Some(def);
            }
        }
    }
    None
}

/// The service with this name.
pub fn find_service<'a>(log: &'a [Entry], name: &Name) -> Option<&'a ServiceDef>
    ensures { option_copied result ≡ find_service log.now name.now }
{
    for entry in log {
        if let Entry::Defined(Ddl::Service(def)) = entry {
            if def.name == *name {
                return Some(def);
            }
        }
    }
    None
}

/// The table with this name.
pub fn find_table<'a>(log: &'a [Entry], name: &Name) -> Option<&'a TableDef>
    ensures { option_copied result ≡ find_table log.now name.now }
{
    for entry in log {
        if let Entry::Defined(Ddl::Table(def)) = entry {
            if def.name == *name {
                return Some(def);
            }
        }
    }
    None
}

/// The queue of the service with this name.
pub fn service_queue<'a>(log: &'a [Entry], name: &Name) -> Option<&'a Name>
    ensures { option_copied result ≡ service_queue log.now name.now }
{
    let service = find_service(log, name)?;
    Some(&service.queue)
}

fn last_setting(log: &[Entry], queue: &Name) -> Option<bool>
    ensures { result ≡ last_or None (flat_map (setting queue.now) log.now) }
{
    let mut last = None;
    for entry in log {
        if let Entry::QueueSet { queue: own, on } = entry {
            if *own == *queue {
                last = Some(*on);
            }
        }
    }
    last
}

/// Whether the queue of this definition is on.
pub fn is_on(log: &[Entry], def: &QueueDef) -> bool
    ensures { result ≡ is_on log.now def.now }
{
    match last_setting(log, &def.name) {
        None => def.on,
        Some(on) => on,
    }
}

/// Whether the queue is there and on.
pub fn queue_is_on(log: &[Entry], name: &Name) -> bool
    ensures { result ≡ queue_is_on log.now name.now }
{
    match find_queue(log, name) {
        None => false,
        Some(def) => is_on(log, def),
    }
}
