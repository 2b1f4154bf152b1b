//! Steps of what is refused before the instance is asked.

ghost use Rattle.std.specs.Prelude.{◌≡◌, true, IfOk, IsErrOf};
ghost use Rattle.sb_top.specs.Following.{not_yet, refused_words};
ghost use Rattle.sb_top.specs.Room.{is_full};
ghost use Rattle.sb_top.specs.Runs.{GoesOn, IsPlain, MayRefuse, OneMade};

use crate::history::{History, Stopped};
use sb_instance::Instance;
use sb_log::{Actor, Answer, Event, Refusal, Step, Text};
use std::alloc::{AllocError, Global};

/// Refuses what has these words. The instance stays as it is.
pub fn refuse(
    instance: &Instance,
    history: &mut History,
    who: Actor,
    words: Text,
    refusal: Refusal,
) -> Result<(), Stopped>
    requires plain { IsPlain instance.now }
    requires may { MayRefuse who refusal }
    ensures goes { GoesOn instance.now history.old.steps instance.now history.new.steps (OneMade (refused_words who words refusal) result) }
    ensures full { IsErrOf result Stopped.HistoryFull → is_full history.new.steps ≡ true }
{
    history.make_room()?;
    history.push(Step {
        who,
        event: Event::Words(words),
        answer: Answer::Refused {
            refusal,
            undone: None,
        },
    });
    Ok(())
}

/// Refuses a statement or a command that is read and isn't built.
pub fn refuse_unbuilt(
    alloc: Global,
    instance: &Instance,
    history: &mut History,
    who: Actor,
    words: &str,
) -> Result<(), Stopped>
    requires plain { IsPlain instance.now }
    requires may { MayRefuse who Refusal.NotYet }
    ensures goes { GoesOn instance.now history.old.steps instance.now history.new.steps (OneMade (not_yet who words.now) result) }
    ensures full { IsErrOf result Stopped.HistoryFull → is_full history.new.steps ≡ true }
{
    history.make_room()?;
    let words = text(alloc, words)?;
    refuse(instance, history, who, words, Refusal::NotYet)
}

fn text(alloc: Global, text: &str) -> Result<Text, AllocError>
    ensures { IfOk result (λ copy. copy ≡ text.now) }
{
    Ok(Text::from_string(String::from_str(alloc, text)?))
}
