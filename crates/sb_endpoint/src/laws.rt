//! What is known of the sides is what the log says.

ghost use Rattle.std.specs.Prelude.{◌≡◌, ◌++◌, [], ◌∷◌, List, None, length};
ghost use Rattle.sb_log.specs.declared.entries.Entry.{Entry};
ghost use Rattle.sb_log.specs.declared.identifiers.Handle.{Handle};
ghost use Rattle.sb_log.specs.declared.identifiers.SideId.{SideId};
ghost use Rattle.sb_log.specs.declared.identifiers.Who.{Who};
ghost use Rattle.sb_log.specs.declared.messages.Ack.{Ack};
ghost use Rattle.sb_log.specs.declared.messages.Data.{Data};
ghost use Rattle.sb_model.specs.Acceptance.{ack_verdict, receiver, verdict};
ghost use Rattle.sb_model.specs.Sides.{has_side, made_by, side_of};
ghost use Rattle.sb_model.specs.Messages.{accepted, acked, is_closed, numbered};
ghost use Rattle.sb_model.specs.States.{state_of};
ghost use Rattle.sb_model.specs.Groups.{group_of};
ghost use Rattle.sb_endpoint.specs.Acceptance.{ack_verdict_on, is_queue_on, missing_here, verdict_on};
ghost use Rattle.sb_endpoint.specs.Changes.{endpoint_after};
ghost use Rattle.sb_endpoint.specs.Endpoints.{endpoint_of, unknown};
ghost use Rattle.sb_endpoint.specs.Handles.{side_after};
ghost use Rattle.sb_endpoint.specs.Headers.{header_after, header_of};
ghost use Rattle.sb_endpoint.specs.Seen.{AreOf, Takes, SidesAndHandles, nothing};
ghost use Rattle.sb_endpoint.specs.States.{group_by, is_closed_by, is_made, numbered_by, state_by};

/// What one more entry makes of a side, and of the side that a handle names.
pub fn endpoints_grow_with_the_log()
    ensures unknown { (s : SideId) → endpoint_of [] s ≡ unknown }
    ensures endpoint { (log : List Entry) (e : Entry) (s : SideId) → endpoint_of (log ++ e ∷ []) s ≡ endpoint_after s e (endpoint_of log s) }
    ensures unheaded { (s : SideId) → header_of [] s ≡ None }
    ensures header { (log : List Entry) (e : Entry) (s : SideId) → header_of (log ++ e ∷ []) s ≡ header_after (has_side log s) (made_by e) s (header_of log s) }
    ensures unnamed { (h : Handle) → side_of [] h ≡ None }
    ensures side { (log : List Entry) (e : Entry) (h : Handle) → side_of (log ++ e ∷ []) h ≡ side_after (has_side log) (made_by e) h (side_of log h) }
{}

/// What is asked of a side follows from its facts alone.
pub fn facts_are_those_of_the_log()
    ensures state { (log : List Entry) (s : SideId) → state_of log s ≡ state_by s (endpoint_of log s) }
    ensures group { (log : List Entry) (s : SideId) → group_of log s ≡ group_by (endpoint_of log s) }
    ensures made { (log : List Entry) (s : SideId) → has_side log s ≡ is_made (endpoint_of log s) }
    ensures closed { (log : List Entry) (s : SideId) → is_closed log s ≡ is_closed_by (endpoint_of log s) }
    ensures accepted { (log : List Entry) (s : SideId) → accepted log s ≡ (endpoint_of log s).accepted }
    ensures acked { (log : List Entry) (s : SideId) → acked log s ≡ (endpoint_of log s).acked }
    ensures numbered { (log : List Entry) (s : SideId) → length (numbered log s) ≡ numbered_by (endpoint_of log s) }
{}

/// Endpoints to which each entry of a log was applied in turn are those of the log.
pub fn kept_in_step_with_the_log()
    ensures none { AreOf [] nothing }
    ensures entry { (log : List Entry) (e : Entry) (old new : SidesAndHandles) → AreOf log old → Takes old e new → AreOf (log ++ e ∷ []) new }
{}

/// How messages and acknowledgements are answered follows from the facts of one side.
pub fn answers_are_those_of_the_log()
    ensures data { (who : Who) (log : List Entry) (d : Data) → verdict who log d ≡ verdict_on who d (endpoint_of log (receiver d)) (missing_here log d) (is_queue_on log d) }
    ensures ack { (who : Who) (log : List Entry) (k : Ack) → ack_verdict who log k ≡ ack_verdict_on who k (endpoint_of log k.side) }
{}
