//! What a log says, computed by going over its entries: one plain function for each
//! definition of `sb_model`, for tests and for questions about one side.
#![tactic(auto)]

mod acceptance;
mod catalog;
mod deadlines;
mod frames;
mod group;
mod item;
mod level;
mod making;
mod opened;
mod picking;
mod queue;
mod received;
mod routing;
mod rows;
mod sent;
mod state;
#[cfg(test)]
mod tests;
mod xml;

pub use acceptance::{Known, ack_verdict, instance_id, makes_side, receiver, verdict, verdict_by};
pub use catalog::{
    SeenContract, SeenType, find_contract, find_message_type, find_queue, find_service, find_table,
    is_default, is_on, may_be_sent_by, queue_is_on, sender_of, service_queue,
};
pub use deadlines::{Deadline, due, timer_of};
pub use frames::{Owed, SentFrame, frames_due};
pub use group::{group_exists, group_of, last_moved};
pub use item::{SeenItem, Source, is_taken, item_in, items, waiting, waits_at};
pub use level::{level_made, level_of};
pub use making::{MadeSide, begun, begun_among, has_side, made, made_in, partner, side_of, sides};
pub use opened::{Key, OpenTransaction, Owner, holder, is_free, view};
pub use picking::{PickedItems, SeenPick, candidates, passes, pick, pick_in};
pub use queue::{header_of, own_end, queue_of};
pub use received::{item_at, receives};
pub use routing::{SeenRoute, destination, far_service, route};
pub use rows::{SeenRow, rows_of};
pub use sent::{
    SeenContent, accepted, acked, final_content, final_sent, is_cleaned, is_closed,
    is_closed_by_ack, is_ended, is_expired, message_at, numbered, outgoing, sends, sent_at,
    sent_by,
};
pub use state::{has_accepted_final, is_done, is_final, may_end, may_send, state_of};
pub use xml::{error_body, lifetime_body, utf16};
