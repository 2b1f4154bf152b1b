//! What holds of the spellings, whatever the values are.

ghost use Rattle.std.specs.Prelude.{◌≡◌, ◌++◌, ℕ, List, Ok, length};
ghost use Rattle.sb_log.specs.declared.messages.Frame.{Frame};
ghost use Rattle.sb_fields.specs.Laws.{OneSpelling};
ghost use Rattle.sb_model.specs.FrameReading.{frame_at};
ghost use Rattle.sb_model.specs.Sizes.{frame_size};
ghost use Rattle.sb_model.specs.Spelling.{frame_bytes};
ghost use Rattle.sb_frame.specs.Values.{IsFrame};

/// The spelling of a frame is no spelling of another, and none begins another one.
pub fn frame_has_one_spelling()
    ensures { OneSpelling frame_bytes IsFrame }
{}

/// A frame that was spelled is read again, whatever follows it.
pub fn frame_is_read_again()
    ensures { (frame : Frame) (rest : List ℕ) → IsFrame frame → frame_at (frame_bytes frame ++ rest) ≡ Ok (frame, rest) }
{}

/// The spelling of a frame has as many bytes as its size says.
pub fn frame_has_its_size()
    ensures { (frame : Frame) → length (frame_bytes frame) ≡ frame_size frame }
{}
