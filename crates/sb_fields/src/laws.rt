//! What holds of the spellings, whatever the values are.

ghost use Rattle.std.specs.Prelude.{◌<◌, ◌^◌, ℕ, length};
ghost use Rattle.sb_fields.specs.Laws.{OneSpelling};
ghost use Rattle.sb_fields.specs.Spelling.{number, text16, bytes32, IsText16};

/// A number that fits so many bytes has one spelling in them, and none begins another one.
pub fn number_has_one_spelling()
    ensures { (width : ℕ) → OneSpelling (number width) (λ n. n < 256 ^ width) }
{}

/// A text behind its length has one spelling, and none begins another one.
pub fn text16_has_one_spelling()
    ensures { OneSpelling text16 IsText16 }
{}

/// Bytes behind their length have one spelling, and none begins another one.
pub fn bytes32_has_one_spelling()
    ensures { OneSpelling bytes32 (λ value. length value < 2 ^ 32) }
{}
