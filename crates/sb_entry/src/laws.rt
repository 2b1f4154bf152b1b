//! What holds of the spellings, whatever the values are.

ghost use Rattle.std.specs.Prelude.{◌≡◌, ◌++◌, ℕ, List, Ok, length};
ghost use Rattle.sb_log.specs.declared.entries.Entry.{Entry};
ghost use Rattle.sb_fields.specs.Laws.{OneSpelling};
ghost use Rattle.sb_model.specs.Reading.{entry_at};
ghost use Rattle.sb_model.specs.Sizes.{entry_size};
ghost use Rattle.sb_model.specs.Spelling.{entry_bytes};
ghost use Rattle.sb_entry.specs.Values.{IsEntry};

/// The spelling of an entry is no spelling of another, and none begins another one.
pub fn entry_has_one_spelling()
    ensures { OneSpelling entry_bytes IsEntry }
{}

/// An entry that was spelled is read again, whatever follows it.
pub fn entry_is_read_again()
    ensures { (entry : Entry) (rest : List ℕ) → IsEntry entry → entry_at (entry_bytes entry ++ rest) ≡ Ok (entry, rest) }
{}

/// The spelling of an entry has as many bytes as its size says.
pub fn entry_has_its_size()
    ensures { (entry : Entry) → length (entry_bytes entry) ≡ entry_size entry }
{}
