//! The rows are what the log says.

ghost use Rattle.std.specs.Prelude.{◌++◌, [], ◌∷◌, List};
ghost use Rattle.sb_log.specs.declared.entries.Entry.{Entry};
ghost use Rattle.sb_model.specs.Sides.{ops_of_entry};
ghost use Rattle.sb_rows.specs.RowsAndLocks.{TableRow, AppliesAll, AreRowsOf};

/// Rows to which the operations of each entry were applied in turn are those of the log.
pub fn rows_are_those_of_the_log()
    ensures none { AreRowsOf [] [] }
    ensures entry { (log : List Entry) (entry : Entry) (old new : List TableRow) → AreRowsOf log old → AppliesAll old (ops_of_entry entry) new → AreRowsOf (log ++ entry ∷ []) new }
{}
