//! What is picked is what the log says.

ghost use Rattle.std.specs.Prelude.{◌≡◌, [], ◌∷◌, ◌++◌, ℕ, false, IsSome, IsTrue, List, Option, None, Some};
ghost use Rattle.sb_log.specs.declared.entries.Entry.{Entry};
ghost use Rattle.sb_log.specs.declared.entries.Final.{Final};
ghost use Rattle.sb_log.specs.declared.entries.Op.{Op};
ghost use Rattle.sb_log.specs.declared.entries.Op.TheVariants.{Cleanup, End, Move, Took};
ghost use Rattle.sb_log.specs.declared.identifiers.Handle.{Handle};
ghost use Rattle.sb_log.specs.declared.identifiers.SideId.{SideId};
ghost use Rattle.sb_log.specs.declared.messages.Item.{Item};
ghost use Rattle.sb_log.specs.declared.requests.Filter.{Filter};
ghost use Rattle.sb_model.specs.Groups.{group_moved};
ghost use Rattle.sb_model.specs.Items.{queue_of, waiting, waits_in};
ghost use Rattle.sb_model.specs.Pick.{pick_in};
ghost use Rattle.sb_model.specs.Sides.{Bytes};
ghost use Rattle.sb_model.specs.Transactions.{OpenTransaction, with_ops};
ghost use Rattle.sb_pick.specs.Of.{HasNoOperations, HandlesDiffer, HoldsAs, IsOf, brings, numbered, placed};
ghost use Rattle.sb_pick.specs.Picked.{after, picked, withdraws};
ghost use Rattle.sb_pick.specs.Waiting.{Waiting, is_known, known_after, queue_defined, regrouped, without_item, without_side};

/// A queue that is known stays so, and one that an entry defines is known once there is room
/// for the entry.
pub fn known_queues_stay_known()
    ensures known { (queues : List Bytes) (entry : Entry) (q : Bytes) → IsTrue (is_known queues q) → IsTrue (is_known (known_after queues entry) q) }
    ensures defined { (queues : List Bytes) (entry : Entry) (q : Bytes) → queue_defined entry ≡ Some q → IsTrue (is_known (known_after queues entry) q) }
{}

/// Where what waits is what the log says, a transaction picks what its view of the log says:
/// the log with its operations behind it.
pub fn picks_are_those_of_the_log()
    ensures { (log : List Entry) (queues : List Bytes) (ws : List Waiting) (u : List OpenTransaction) (tx : ℕ) (ops : List Op) (holder : Handle → Option ℕ) (q : Bytes) (top : Option ℕ) (filter_by : Filter) → IsOf log queues ws → HandlesDiffer (with_ops log tx ops) → HoldsAs u tx holder → IsTrue (is_known queues q) → picked q top filter_by ops holder tx ws ≡ numbered (pick_in (with_ops log tx ops) u tx q top filter_by) }
{}

/// What waits after several operations is told one by one: what was taken waits no more, nor
/// does what a side that ended or was cleaned up has, and what a moved side has is in its
/// group.
pub fn operations_are_told_one_by_one()
    ensures first { (op : Op) (ops : List Op) (ws : List Waiting) → after (op ∷ ops) ws ≡ after ops (after (op ∷ []) ws) }
    ensures took { (q : Bytes) (number : ℕ) (ws : List Waiting) → after (Took q number ∷ []) ws ≡ without_item number ws }
    ensures ended { (side : SideId) (last : Final) (ws : List Waiting) → after (End side last ∷ []) ws ≡ without_side side ws }
    ensures cleaned { (side : SideId) (ws : List Waiting) → after (Cleanup side ∷ []) ws ≡ without_side side ws }
    ensures moved { (side : SideId) (g : Handle) (ws : List Waiting) → after (Move side g ∷ []) ws ≡ regrouped side g ws }
    ensures others { (op : Op) (ws : List Waiting) → ((w : Waiting) → withdraws w.item op ≡ false) → ((s : SideId) → group_moved s op ≡ []) → after (op ∷ []) ws ≡ ws }
{}

/// What waits is what the log says, from the empty log on, where it is told what each entry
/// does: its operations, or the message that it brings.
pub fn waiting_grows_with_the_log()
    ensures empty { (queues : List Bytes) → IsOf [] queues [] }
    ensures known { (log : List Entry) (queues : List Bytes) (ws : List Waiting) (entry : Entry) → IsOf log queues ws → ((q : Bytes) → queue_defined entry ≡ Some q → waiting log q ≡ []) → IsOf log (known_after queues entry) ws }
    ensures operations { (log : List Entry) (queues : List Bytes) (ws : List Waiting) (tx : ℕ) (ops : List Op) → IsOf log queues ws → IsOf (with_ops log tx ops) queues (after ops ws) }
    ensures arrived { (log : List Entry) (e : Entry) → HasNoOperations e → (queues : List Bytes) (ws : List Waiting) → IsOf log queues ws → (item : Item) (q : Bytes) → IsTrue (is_known queues q) → brings log e ≡ Some item → IsTrue (waits_in (log ++ e ∷ []) q item) → IsOf (log ++ e ∷ []) queues (ws ++ placed (log ++ e ∷ []) q item ∷ []) }
    ensures unseen { (log : List Entry) (e : Entry) → HasNoOperations e → (queues : List Bytes) (ws : List Waiting) → IsOf log queues ws → (item : Item) → brings log e ≡ Some item → IsSome (queue_of (log ++ e ∷ []) item.side) → ((q : Bytes) → IsTrue (is_known queues q) → waits_in (log ++ e ∷ []) q item ≡ false) → IsOf (log ++ e ∷ []) queues ws }
    ensures others { (log : List Entry) (e : Entry) → HasNoOperations e → (queues : List Bytes) (ws : List Waiting) → IsOf log queues ws → brings log e ≡ None → IsOf (log ++ e ∷ []) queues ws }
{}
