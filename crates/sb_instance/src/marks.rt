//! Which items were taken, noted in one pass over the log.

ghost use Rattle.std.specs.Prelude.{◌≡◌, ◌||◌, ◌==◌, ◌<◌, ◌+◌, ℕ, false, IfOk, flat_map, length, slice_index_or};
ghost use Rattle.std.specs.List.{list_any};
ghost use Rattle.sb_model.specs.Sides.{ops_of_entry};
ghost use Rattle.sb_model.specs.Items.{taken, taken_by};
ghost use Rattle.sb_instance.specs.Candidates.{AreMarks};

use sb_log::{Entry, Op};
use std::alloc::{AllocError, Global};

fn mark_op(marks: &mut [bool], op: &Op)
    ensures length { length marks.new ≡ length marks.old }
    ensures marked { (n : ℕ) → n < length marks.new → slice_index_or marks.new n false ≡ (slice_index_or marks.old n false || list_any (λ m. m == n) (taken_by op.now)) }
{
    if let Op::Took { item, .. } = op {
        let place = *item as usize;
        if place < marks.len() {
            marks[place] = true;
        }
    }
}

fn mark_ops(marks: &mut [bool], ops: &[Op])
    ensures length { length marks.new ≡ length marks.old }
    ensures marked { (n : ℕ) → n < length marks.new → slice_index_or marks.new n false ≡ (slice_index_or marks.old n false || list_any (λ m. m == n) (flat_map taken_by ops.now)) }
{
    for op in ops {
        mark_op(marks, op);
    }
}

fn mark_entry(marks: &mut [bool], entry: &Entry)
    ensures length { length marks.new ≡ length marks.old }
    ensures marked { (n : ℕ) → n < length marks.new → slice_index_or marks.new n false ≡ (slice_index_or marks.old n false || list_any (λ m. m == n) (flat_map taken_by (ops_of_entry entry.now))) }
{
    if let Entry::Txn { ops, .. } = entry {
        mark_ops(marks, ops.as_slice());
    }
}

/// For each number up to that of the last item, whether it was taken.
pub fn marks(alloc: Global, log: &[Entry]) -> Result<Vec<bool>, AllocError>
    ensures length { IfOk result (λ marks. length marks.items ≡ length log.now + 1) }
    ensures marked { IfOk result (λ marks. AreMarks (taken log.now) marks.items) }
{
    let mut marks = vec![in alloc; false; log.len() + 1]?;
    let slice = marks.as_mut_slice();
    for entry in log {
        mark_entry(slice, entry);
    }
    Ok(marks)
}
