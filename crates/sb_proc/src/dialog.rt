//! What BEGIN DIALOG and SEND ask.

ghost use Rattle.std.specs.Prelude.{◌≡◌, option_map};
ghost use Rattle.sb_proc.specs.Requests as says;
ghost use Rattle.sb_proc.specs.Seen.{scope_of};
ghost use Rattle.sb_value.specs.Faults.{Gives};

use crate::seen::Seen;
use crate::wanted::{bytes_or_null, identifier, number};
use sb_grammar::{BrokerInstance, DialogOption, Expr};
use sb_log::{Body, Handle, Relation, Who};
use sb_scan::instance_id;
use sb_value::Fault;
use std::alloc::Global;

/// What the options of BEGIN DIALOG say of the group and the lifetime.
#[derive(Clone, Copy)]
pub struct Chosen {
    pub relation: Relation,
    pub lifetime: Option<i64>,
}

/// The options, computed in the order written.
pub fn options_chosen(
    alloc: Global,
    seen: &Seen<'_>,
    options: &[DialogOption],
) -> Result<Chosen, Fault>
    ensures { Gives (says.chosen (scope_of seen.now) options.now) result }
{
    let mut chosen = Chosen {
        relation: Relation::Alone,
        lifetime: None,
    };
    for option in options {
        chosen = with_option(alloc, seen, chosen, option)?;
    }
    Ok(chosen)
}

fn with_option(
    alloc: Global,
    seen: &Seen<'_>,
    chosen: Chosen,
    option: &DialogOption,
) -> Result<Chosen, Fault>
    ensures { Gives (says.with_option (scope_of seen.now) chosen option.now) result }
{
    match option {
        DialogOption::RelatedConversation(expr) => Ok(Chosen {
            relation: Relation::Conversation(identifier(alloc, seen, expr)?),
            lifetime: chosen.lifetime,
        }),
        DialogOption::RelatedGroup(expr) => Ok(Chosen {
            relation: Relation::Group(identifier(alloc, seen, expr)?),
            lifetime: chosen.lifetime,
        }),
        DialogOption::Lifetime(expr) => Ok(Chosen {
            relation: chosen.relation,
            lifetime: Some(number(alloc, seen, expr)?),
        }),
        DialogOption::EncryptionOff => Ok(chosen),
    }
}

fn named_instance(who: Who, instance: BrokerInstance) -> Handle
    ensures { result ≡ says.named_instance who instance }
{
    match instance {
        BrokerInstance::Current => instance_id(who),
        BrokerInstance::Other(handle) => handle,
    }
}

/// The broker instance, where one is written.
pub fn instance_if_written(who: Who, instance: Option<BrokerInstance>) -> Option<Handle>
    ensures { result ≡ option_map (says.named_instance who) instance }
{
    instance.map(|instance| named_instance(who, instance))
}

/// No body where none is written, and where it is NULL.
pub fn body_of(alloc: Global, seen: &Seen<'_>, body: &Option<Expr>) -> Result<Option<Body>, Fault>
    ensures { Gives (says.body_of (scope_of seen.now) body.now) result }
{
    match body {
        None => Ok(None),
        Some(expr) => bytes_or_null(alloc, seen, expr),
    }
}
