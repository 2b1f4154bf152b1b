//! What is found among the definitions of a log is what the log says.

ghost use Rattle.std.specs.Prelude.{◌≡◌, ◌++◌, [], ◌∷◌, List, Option, flat_map};
ghost use Rattle.sb_log.specs.declared.definitions.Ddl.{Ddl};
ghost use Rattle.sb_log.specs.declared.entries.Entry.{Entry};
ghost use Rattle.sb_log.specs.declared.entries.Entry.TheVariants.{Defined};
ghost use Rattle.sb_log.specs.declared.identifiers.Handle.{Handle};
ghost use Rattle.sb_log.specs.declared.identifiers.Who.{Who};
ghost use Rattle.sb_model.specs.Sides.{Bytes};
ghost use Rattle.sb_model.specs.Catalog.{definitions, priorities, priority_def, route_def};
ghost use Rattle.sb_model.specs.Groups.{level_among};
ghost use Rattle.sb_model.specs.Routes.{route};
ghost use Rattle.sb_routes.specs.Ways.{best_level, destination};

/// A message goes where the log's routes lead.
pub fn routes_are_those_of_the_log()
    ensures { (log : List Entry) (who : Who) (service : Bytes) (instance : Option Handle)
        → destination who (flat_map route_def (definitions log)) service instance ≡ route log who service instance }
{}

/// A level is the one that the log's priorities give.
pub fn levels_are_those_of_the_log()
    ensures { (log : List Entry) (contract local remote : Bytes)
        → best_level (priorities log) contract local remote ≡ level_among (priorities log) contract local remote }
{}

/// One more definition in the log is one more taken up.
pub fn defined_ways_grow()
    ensures routes { (log : List Entry) (ddl : Ddl) → flat_map route_def (definitions (log ++ Defined ddl ∷ [])) ≡ flat_map route_def (definitions log) ++ route_def ddl }
    ensures priorities { (log : List Entry) (ddl : Ddl) → priorities (log ++ Defined ddl ∷ []) ≡ priorities log ++ priority_def ddl }
{}
