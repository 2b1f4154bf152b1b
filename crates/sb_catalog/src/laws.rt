//! What is known of a log is what the log says.

ghost use Rattle.std.specs.Prelude.{◌≡◌, ◌++◌, [], ◌∷◌, Bool, List, Option, None, IsSome, IsTrue, option_map};
ghost use Rattle.sb_log.specs.declared.definitions.Ddl.{Ddl};
ghost use Rattle.sb_log.specs.declared.entries.Entry.{Entry};
ghost use Rattle.sb_log.specs.declared.entries.Entry.TheVariants.{Defined, QueueSet};
ghost use Rattle.sb_log.specs.declared.identifiers.Who.{Who};
ghost use Rattle.sb_log.specs.declared.messages.Data.{Data};
ghost use Rattle.sb_model.specs.Sides.{Bytes};
ghost use Rattle.sb_model.specs.Acceptance.{verdict, makes_side};
ghost use Rattle.sb_model.specs.Catalog.{ddl_of, find_contract, find_message_type, find_procedure, find_queue, find_service, find_table, setting};
ghost use Rattle.sb_model.specs.Definitions.{define_refusal};
ghost use Rattle.sb_catalog.specs.Here.{here, is_receiving_on, verdict_by};
ghost use Rattle.sb_catalog.specs.Known.{Known, defined, is_new, log_of, nothing, ready_for, told};
ghost use Rattle.sb_catalog.specs.Of.{IsOf, as_told};

/// What the look-ups find is what the log has, a queue with its last setting.
pub fn definitions_are_those_of_the_log()
    ensures message_types { (log : List Entry) (k : Known) → IsOf log k → (name : Bytes) → find_message_type (log_of k) name ≡ find_message_type log name }
    ensures contracts { (log : List Entry) (k : Known) → IsOf log k → (name : Bytes) → find_contract (log_of k) name ≡ find_contract log name }
    ensures queues { (log : List Entry) (k : Known) → IsOf log k → (name : Bytes) → find_queue (log_of k) name ≡ option_map (as_told log) (find_queue log name) }
    ensures services { (log : List Entry) (k : Known) → IsOf log k → (name : Bytes) → find_service (log_of k) name ≡ find_service log name }
    ensures procedures { (log : List Entry) (k : Known) → IsOf log k → (name : Bytes) → find_procedure (log_of k) name ≡ find_procedure log name }
    ensures tables { (log : List Entry) (k : Known) → IsOf log k → (name : Bytes) → find_table (log_of k) name ≡ find_table log name }
{}

/// A definition is refused as the log refuses it.
pub fn refusals_are_those_of_the_log()
    ensures { (log : List Entry) (k : Known) → IsOf log k → (ddl : Ddl) → define_refusal (log_of k) ddl ≡ define_refusal log ddl }
{}

/// What isn't refused has a name that is new in its kind, so that it can be applied.
pub fn accepted_names_are_new()
    ensures { (log : List Entry) (ddl : Ddl) → define_refusal log ddl ≡ None → IsTrue (is_new log ddl) }
{}

/// What a message lacks here is what the log lacks.
pub fn arrivals_are_judged_as_by_the_log()
    ensures { (log : List Entry) (k : Known) → IsOf log k → (d : Data) (makes : Bool) → here (log_of k) d makes ≡ here log d makes }
{}

/// The verdict is that of the table by what the message lacks and by the receiving queue.
pub fn verdicts_are_by_what_is_here()
    ensures { (who : Who) (log : List Entry) (d : Data) → verdict who log d ≡ verdict_by who log d (here log d (makes_side log d)) (is_receiving_on log d) }
{}

/// A catalog that takes up each definition and setting of a log as it comes knows what the log says.
pub fn knowledge_grows_with_the_log()
    ensures empty { IsOf [] nothing }
    ensures room { (log : List Entry) (k : Known) → IsOf log k → IsOf log (ready_for k None) }
    ensures defined { (log : List Entry) (k : Known) (ddl : Ddl) → IsOf log k → IsTrue (is_new log ddl) → IsOf (log ++ Defined ddl ∷ []) (defined k ddl) }
    ensures told { (log : List Entry) (k : Known) (queue : Bytes) (on : Bool) → IsOf log k → IsSome (find_queue log queue) → IsOf (log ++ QueueSet queue on ∷ []) (told k queue on) }
    ensures others { (log : List Entry) (k : Known) (e : Entry) → IsOf log k → ddl_of e ≡ [] → ((queue : Bytes) → setting queue e ≡ []) → IsOf (log ++ e ∷ []) k }
{}
