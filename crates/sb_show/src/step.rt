//! The text of a step.

ghost use Rattle.std.specs.Prelude.{◌≡◌, IfOk, length};
ghost use Rattle.sb_show.specs.Values.{capped};
ghost use Rattle.sb_show.specs.Transcript.{text_of_step};

use crate::answer::{answer_len, details_len, push_answer, push_details};
use crate::event::{event_len, push_event};
use crate::value::{actor_len, push_actor, push_text, text_len, total};
use sb_log::Step;
use std::alloc::{AllocError, Global};

/// The lines of the step in the transcript.
#[tactic(auto, unfolding(crate::specs::Transcript::text_of_step))]
pub fn show(alloc: Global, step: &Step) -> Result<Vec<u8>, AllocError>
    ensures text { IfOk result (λ text. text.items ≡ text_of_step step.now) }
{
    let mut out = Vec::new(alloc);
    push_actor(&mut out, step.who)?;
    push_text(&mut out, " ")?;
    push_event(&mut out, &step.event)?;
    push_text(&mut out, ": ")?;
    push_answer(&mut out, &step.event, &step.answer)?;
    push_text(&mut out, "\n")?;
    push_details(&mut out, &step.answer)?;
    Ok(out)
}

/// How many bytes the lines of the step have, and the greatest `u64` where they have more.
#[tactic(auto, using(crate::proofs::Lengths::lengths), unfolding(crate::specs::Transcript::text_of_step))]
pub fn length(step: &Step) -> u64
    ensures { result ≡ capped (length (text_of_step step.now)) }
{
    total(&[
        actor_len(step.who),
        text_len(" "),
        event_len(&step.event),
        text_len(": "),
        answer_len(&step.event, &step.answer),
        text_len("\n"),
        details_len(&step.answer),
    ])
}
