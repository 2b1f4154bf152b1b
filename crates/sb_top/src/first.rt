//! The log with a dialog that is ready.

ghost use Rattle.std.specs.Prelude.{◌≡◌, IfOk, IsTrue, None};
ghost use Rattle.sb_log.specs.Names.{is_name};
ghost use Rattle.sb_laws.specs.Ready as ready;
ghost use Rattle.sb_log.specs.declared.identifiers.Who.TheVariants.{A};
ghost use Rattle.sb_model.specs.Instance.{opened};

use sb_instance::{Instance, Unready};
use sb_log::{Ddl, Entry, Handle, Header, Name, Names, Op, Ops, QueueDef, ServiceDef};
use std::alloc::{AllocError, Global};

/// The tag of instance A, in the high half of its handles.
const TAG: u128 = 0xa000_0000_0000_0000_0000_0000_0000_0000;

fn name(alloc: Global, text: &str) -> Result<Name, AllocError>
    requires { IsTrue (is_name text.now) }
    ensures { IfOk result (λ name. name ≡ text.now) }
{
    Ok(Name::from_string(String::from_str(alloc, text)?))
}

fn queue(alloc: Global, text: &str) -> Result<Entry, AllocError>
    requires { IsTrue (is_name text.now) }
    ensures { IfOk result (λ entry. entry ≡ ready.plain_queue text.now) }
{
    Ok(Entry::Defined(Ddl::Queue(QueueDef {
        name: name(alloc, text)?,
        on: true,
        poison: true,
        activation: None,
    })))
}

fn service(alloc: Global, text: &str, queue: &str, contracts: Names) -> Result<Entry, AllocError>
    requires service_named { IsTrue (is_name text.now) }
    requires queue_named { IsTrue (is_name queue.now) }
    ensures { IfOk result (λ entry. entry ≡ ready.service_on text.now queue.now contracts) }
{
    Ok(Entry::Defined(Ddl::Service(ServiceDef {
        name: name(alloc, text)?,
        queue: name(alloc, queue)?,
        contracts,
    })))
}

// The handle of instance A with this number; 0 stands for the instance.
fn handle(number: u64) -> Handle
    ensures { result ≡ ready.a_handle number }
{
    Handle(TAG + number as u128)
}

fn dialog(alloc: Global) -> Result<Entry, AllocError>
    ensures { IfOk result (λ entry. entry ≡ ready.near_to_far) }
{
    let header = Header {
        from_service: name(alloc, "Near")?,
        to_service: name(alloc, "Far")?,
        contract: name(alloc, "DEFAULT")?,
        from: handle(0),
        to: Some(handle(0)),
        expires: 2_147_483_647,
    };
    let mut ops = Ops::new(alloc);
    ops.push(Op::Begin {
        handle: handle(1),
        group: handle(2),
        header,
    })?;
    Ok(Entry::Txn { tx: 1, ops })
}

/// The instance A that has them.
pub fn instance(alloc: Global) -> Result<Instance, AllocError>
    ensures { IfOk result (λ instance. instance ≡ opened A ready.ready_log None) }
{
    match Instance::ready(alloc, entries(alloc)?) {
        Ok(instance) => Ok(instance),
        Err(Unready::OutOfMemory) => Err(AllocError),
        Err(Unready::BadLog) => unreachable!(),
    }
}

// Two queues, a service on each, and a dialog between the services.
pub fn entries(alloc: Global) -> Result<Vec<Entry>, AllocError>
    ensures { IfOk result (λ log. log.items ≡ ready.ready_log) }
{
    let mut contracts = Names::new(alloc);
    contracts.push(name(alloc, "DEFAULT")?)?;
    let mut log = Vec::new(alloc);
    log.push(queue(alloc, "NearQ")?)?;
    log.push(queue(alloc, "FarQ")?)?;
    log.push(service(alloc, "Near", "NearQ", Names::new(alloc))?)?;
    log.push(service(alloc, "Far", "FarQ", contracts)?)?;
    log.push(dialog(alloc)?)?;
    Ok(log)
}
