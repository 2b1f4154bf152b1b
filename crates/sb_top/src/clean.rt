//! `:clean` without frames: what the sides have sent is handed over.

ghost use Rattle.std.specs.Prelude.{◌≡◌, true, IsErrOf, IsSome};
ghost use Rattle.std.specs.List.{AllByRecursion};
ghost use Rattle.sb_model.specs.Steps.{to_hand_over};
ghost use Rattle.sb_top.specs.Following as says;
ghost use Rattle.sb_top.specs.Room.{is_full};
ghost use Rattle.sb_top.specs.Runs.{GoesOn, HandedOne, IsPending, IsPlain, Keeps, Made, world_of};

use crate::history::{History, Stopped};
use sb_instance::{Instance, Pending};
use sb_log::{Actor, Answer, Arrived, Event, SideId, Step, Verdict};
use std::alloc::Global;

/// Hands over what the sides have sent, side by side in the order of the log.
pub fn clean(alloc: Global, instance: &mut Instance, history: &mut History) -> Result<(), Stopped>
    requires { IsPlain instance.old }
    ensures goes { GoesOn instance.old history.old.steps instance.new history.new.steps (Made result (says.Cleans (world_of instance.old))) }
    ensures full { IsErrOf result Stopped.HistoryFull → is_full history.new.steps ≡ true }
{
    let pending = instance.pending(alloc)?;
    clean_sides(instance, history, pending.as_slice())
}

fn clean_sides(
    instance: &mut Instance,
    history: &mut History,
    pending: &[Pending],
) -> Result<(), Stopped>
    requires plain { IsPlain instance.old }
    requires there { AllByRecursion (IsPending instance.old) pending.now }
    ensures goes { GoesOn instance.old history.old.steps instance.new history.new.steps (Made result (says.InTurn says.CleansSide (world_of instance.old) pending.now)) }
    ensures full { IsErrOf result Stopped.HistoryFull → is_full history.new.steps ≡ true }
{
    for side in pending {
        clean_side(instance, history, *side)?;
    }
    Ok(())
}

// Hands over the messages of a side that its partner hasn't accepted, up to the first that isn't taken in.
fn clean_side(
    instance: &mut Instance,
    history: &mut History,
    pending: Pending,
) -> Result<(), Stopped>
    requires plain { IsPlain instance.old }
    requires there { IsPending instance.old pending }
    ensures goes { GoesOn instance.old history.old.steps instance.new history.new.steps (Made result (says.CleansSide (world_of instance.old) pending)) }
    ensures keeps { Keeps instance.old instance.new }
    ensures full { IsErrOf result Stopped.HistoryFull → is_full history.new.steps ≡ true }
{
    for place in pending.accepted..pending.numbered {
        let verdict = hand_over(instance, history, pending.side, place + 1)?;
        if !is_taken_in(verdict) {
            return Ok(());
        }
    }
    Ok(())
}

fn is_taken_in(verdict: Verdict) -> bool
    ensures { result ≡ says.is_taken_in verdict }
{
    matches!(verdict, Verdict::New | Verdict::Next)
}

// Hands the message of a side with this number over.
fn hand_over(
    instance: &mut Instance,
    history: &mut History,
    side: SideId,
    number: u64,
) -> Result<Verdict, Stopped>
    requires plain { IsPlain instance.old }
    requires there { IsSome (to_hand_over instance.old side number) }
    ensures goes { GoesOn instance.old history.old.steps instance.new history.new.steps (HandedOne side number result) }
    ensures keeps { Keeps instance.old instance.new }
    ensures full { IsErrOf result Stopped.HistoryFull → is_full history.new.steps ≡ true }
{
    history.make_room()?;
    let verdict = instance.hand_over(side, number)?;
    history.push(Step {
        who: Actor::World,
        event: Event::HandOver { side, number },
        answer: Answer::Arrived(Arrived::Verdict(verdict)),
    });
    Ok(verdict)
}
