//! Laws of the definitions of the broker, each the contract of a function that does nothing.
//!
//! They speak of `step` and of legal histories, not of the program. A history may start from any two
//! logs that are linked, and its logs have to stay fresh. A rolled-back transaction leaves no trace of
//! its handles in a log, so the number of steps is bounded too.
#![tactic(auto)]

ghost use Rattle.std.specs.Prelude.{◌≡◌, ℕ, ◌≤◌, ◌^◌, length, List, [], ◌∷◌, ◌++◌, Option, IsTrue, true};
ghost use Rattle.sb_log.specs.declared.identifiers.Who.{Who};
ghost use Rattle.sb_log.specs.declared.identifiers.Who.TheVariants.{A, B};
ghost use Rattle.sb_model.specs.Logs.{WellFormed};
ghost use Rattle.sb_log.specs.declared.entries.Entry.{Entry};
ghost use Rattle.sb_log.specs.declared.steps.Step.{Step};
ghost use Rattle.sb_model.specs.Sides.{Bytes};
ghost use Rattle.sb_model.specs.Rollbacks.{count_of};
ghost use Rattle.sb_model.specs.Poison.{rollbacks_in_a_row};
ghost use Rattle.sb_model.specs.Steps.{World, part};
ghost use Rattle.sb_model.specs.Histories.{Legal, Gives, outcome, after, first_world, at_most, kept, HoldsGroupsAlone, CommitsWhole};
ghost use Rattle.sb_model.specs.Survival.{Survives};
ghost use Rattle.sb_model.specs.Links.{DeliversInOrder, DeliversInTurn, StaysLinked, both};
ghost use Rattle.sb_laws.specs.Worlds.{StaysFresh};
ghost use Rattle.sb_laws.specs.Starts.{StartsLinked, IsReady};
ghost use Rattle.sb_laws.specs.Ready.{ready_log};
ghost use Rattle.sb_laws.specs.Fresh.{is_under, SpellsLow};
ghost use Rattle.sb_laws.specs.Kept.{KeepsOutgoing, KeepsItems};
ghost use Rattle.sb_laws.specs.Fifth.{TurnsOffAtFive};
ghost use Rattle.sb_laws.specs.Waits.{WaitsInNoCircle};

/// A legal history goes on with each step whose answer is that of `step`.
pub fn legal_history_grows()
    ensures { (w : World) (steps : List Step) (s : Step) → Legal w steps → Gives (outcome (after w steps) s) s → Legal w (steps ++ s ∷ []) }
{}

/// Logs that are made by hand, with nothing said in their dialogs, are linked.
pub fn ready_logs_start_linked()
    ensures { (log_a log_b : List Entry) → IsReady A log_a → IsReady B log_b → StartsLinked log_a log_b }
{}

/// In particular empty logs are.
pub fn empty_logs_start_linked()
    ensures { StartsLinked [] [] }
{}

/// And so is a log with one dialog between two services, beside an empty one.
pub fn example_starts_linked()
    ensures { StartsLinked ready_log [] }
{}

/// Where no related group is spelled with a great low half, the number of steps alone keeps the logs fresh.
pub fn drawn_handles_stay_fresh()
    ensures { (log_a log_b : List Entry) (end_a end_b : Option ℕ) (steps : List Step)
        → IsTrue (is_under (2 ^ 61) log_a) → IsTrue (is_under (2 ^ 61) log_b) → length steps ≤ 2 ^ 58 → SpellsLow (2 ^ 61) steps
        → StaysFresh (first_world log_a end_a log_b end_b) steps }
{}

/// After a legal history from linked logs, whatever survives of both logs is linked.
pub fn stays_linked()
    ensures { (log_a log_b : List Entry) (end_a end_b : Option ℕ) (steps : List Step)
        → StartsLinked log_a log_b → length steps ≤ 2 ^ 60
        → Legal (first_world log_a end_a log_b end_b) steps → StaysFresh (first_world log_a end_a log_b end_b) steps
        → StaysLinked (after (first_world log_a end_a log_b end_b) steps) }
{}

/// After a legal history from linked logs, whatever survives of a log is well formed.
pub fn stays_well_formed()
    ensures { (log_a log_b : List Entry) (end_a end_b : Option ℕ) (steps : List Step)
        → StartsLinked log_a log_b → length steps ≤ 2 ^ 60
        → Legal (first_world log_a end_a log_b end_b) steps → StaysFresh (first_world log_a end_a log_b end_b) steps
        → (x : Who) (log : List Entry)
        → Survives (at_most (after (first_world log_a end_a log_b end_b) steps) x) (kept (after (first_world log_a end_a log_b end_b) steps) x) log
        → WellFormed log }
{}

/// In whatever survives of both logs after a legal history from linked ones, each side received what its partner sent, in order and each
/// once. The initiator of a conversation whose target both instances made has no single partner and is left out.
pub fn delivers_in_order()
    ensures { (log_a log_b : List Entry) (end_a end_b : Option ℕ) (steps : List Step)
        → StartsLinked log_a log_b → length steps ≤ 2 ^ 60
        → Legal (first_world log_a end_a log_b end_b) steps → StaysFresh (first_world log_a end_a log_b end_b) steps
        → (a b : List Entry)
        → Survives (at_most (after (first_world log_a end_a log_b end_b) steps) A) (kept (after (first_world log_a end_a log_b end_b) steps) A) a
        → Survives (at_most (after (first_world log_a end_a log_b end_b) steps) B) (kept (after (first_world log_a end_a log_b end_b) steps) B) b
        → DeliversInOrder (both a b) }
{}

/// There too every side, also the initiator of such a conversation, receives the numbers 1, 2 and so on in turn, and each message with a
/// number is the one that a partner gave that number.
pub fn delivers_in_turn()
    ensures { (log_a log_b : List Entry) (end_a end_b : Option ℕ) (steps : List Step)
        → StartsLinked log_a log_b → length steps ≤ 2 ^ 60
        → Legal (first_world log_a end_a log_b end_b) steps → StaysFresh (first_world log_a end_a log_b end_b) steps
        → (a b : List Entry)
        → Survives (at_most (after (first_world log_a end_a log_b end_b) steps) A) (kept (after (first_world log_a end_a log_b end_b) steps) A) a
        → Survives (at_most (after (first_world log_a end_a log_b end_b) steps) B) (kept (after (first_world log_a end_a log_b end_b) steps) B) b
        → DeliversInTurn (both a b) }
{}

/// Along every legal history from linked logs, from a transaction's first touch of a group to its end no other transaction of the instance
/// touches that group.
pub fn holds_groups_alone()
    ensures { (log_a log_b : List Entry) (end_a end_b : Option ℕ) (steps : List Step)
        → StartsLinked log_a log_b → length steps ≤ 2 ^ 60
        → Legal (first_world log_a end_a log_b end_b) steps → StaysFresh (first_world log_a end_a log_b end_b) steps
        → HoldsGroupsAlone (first_world log_a end_a log_b end_b) steps }
{}

/// And each transaction that a step adds to a log, or that an opening finds, asked to commit and has all its operations in their order.
pub fn commits_whole()
    ensures { (log_a log_b : List Entry) (end_a end_b : Option ℕ) (steps : List Step)
        → StartsLinked log_a log_b → length steps ≤ 2 ^ 60
        → Legal (first_world log_a end_a log_b end_b) steps → StaysFresh (first_world log_a end_a log_b end_b) steps
        → CommitsWhole (first_world log_a end_a log_b end_b) steps }
{}

/// Nothing is lost of what was numbered: after a legal history from linked logs, in whatever survives, the messages that a side numbered
/// past those that its partner accepted are still to be sent, unless the side was cleaned or expired or was told that the partner closed.
pub fn keeps_outgoing()
    ensures { (log_a log_b : List Entry) (end_a end_b : Option ℕ) (steps : List Step)
        → StartsLinked log_a log_b → length steps ≤ 2 ^ 60
        → Legal (first_world log_a end_a log_b end_b) steps → StaysFresh (first_world log_a end_a log_b end_b) steps
        → (a b : List Entry)
        → Survives (at_most (after (first_world log_a end_a log_b end_b) steps) A) (kept (after (first_world log_a end_a log_b end_b) steps) A) a
        → Survives (at_most (after (first_world log_a end_a log_b end_b) steps) B) (kept (after (first_world log_a end_a log_b end_b) steps) B) b
        → KeepsOutgoing (both a b) }
{}

/// And nothing is lost of what was accepted: each item is taken, or of a side that was ended or cleaned, or it waits in a queue.
pub fn keeps_items()
    ensures { (log_a log_b : List Entry) (end_a end_b : Option ℕ) (steps : List Step)
        → StartsLinked log_a log_b → length steps ≤ 2 ^ 60
        → Legal (first_world log_a end_a log_b end_b) steps → StaysFresh (first_world log_a end_a log_b end_b) steps
        → (x : Who) (log : List Entry)
        → Survives (at_most (after (first_world log_a end_a log_b end_b) steps) x) (kept (after (first_world log_a end_a log_b end_b) steps) x) log
        → KeepsItems log }
{}

/// An instance that is up counts what its history shows: the rolled-back transactions that received from the queue since the last commit
/// that received from it, the last opening and the last turning on.
pub fn counts_rollbacks()
    ensures { (log_a log_b : List Entry) (end_a end_b : Option ℕ) (steps : List Step)
        → StartsLinked log_a log_b → length steps ≤ 2 ^ 60
        → Legal (first_world log_a end_a log_b end_b) steps → StaysFresh (first_world log_a end_a log_b end_b) steps
        → (x : Who) (q : Bytes) → (part (after (first_world log_a end_a log_b end_b) steps) x).up ≡ true
        → count_of (part (after (first_world log_a end_a log_b end_b) steps) x).counts q ≡ rollbacks_in_a_row q x (first_world log_a end_a log_b end_b) steps }
{}

/// Where poison message handling is on, a step that rolls back a transaction which received from the queue turns the queue off exactly where
/// it is the fifth in a row by the history, the queue is on and the journal has room.
pub fn fifth_rollback_turns_off()
    ensures { (log_a log_b : List Entry) (end_a end_b : Option ℕ) (steps : List Step)
        → StartsLinked log_a log_b → length steps ≤ 2 ^ 60
        → Legal (first_world log_a end_a log_b end_b) steps → StaysFresh (first_world log_a end_a log_b end_b) steps
        → (s : Step) → Gives (outcome (after (first_world log_a end_a log_b end_b) steps) s) s → (x : Who) (q : Bytes)
        → TurnsOffAtFive (after (first_world log_a end_a log_b end_b) steps) x s q (rollbacks_in_a_row q x (first_world log_a end_a log_b end_b) steps) }
{}

/// After every legal history from linked logs the waits of readers lead in no circle.
pub fn waits_in_no_circle()
    ensures { (log_a log_b : List Entry) (end_a end_b : Option ℕ) (steps : List Step)
        → StartsLinked log_a log_b → length steps ≤ 2 ^ 60
        → Legal (first_world log_a end_a log_b end_b) steps → StaysFresh (first_world log_a end_a log_b end_b) steps
        → WaitsInNoCircle (after (first_world log_a end_a log_b end_b) steps) }
{}
