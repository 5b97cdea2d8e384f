//! Mailboxes of running edges: updates from the other edges and requests of the operator, the
//! edges' answers, and the boards with the news for the operator: alerts, links that fail and work
//! again, refused records, and the lines that are written for them.
#![tactic(auto)]

mod alarm;
mod board;
mod boards;
mod channel;
mod control;
mod drop_reason;
mod edge_message;
mod ends;
mod idle_watch;
mod in_turn;
mod inbox;
mod laws;
mod link_counts;
mod notices;
mod outbox;
mod outboxes;
mod peers;
mod posting;
mod posts;
mod receptions;
mod records;
mod request;
mod request_slot;
mod rule;
mod send_watch;
mod sendings;
mod shared_mailbox;
#[cfg(test)]
mod tests;
mod view;
mod waiting;

pub use alarm::{Alarm, alarm_of, alert_of, is_second};
pub use board::{Board, Notice, Posted};
pub use boards::Boards;
pub use control::{Control, Running};
pub use drop_reason::{DropReason, cause_of};
pub use edge_message::{EdgeMessage, Letter};
pub use ends::{Inbox, Post};
pub use idle_watch::IdleWatch;
pub use in_turn::tell_in_turn;
pub use inbox::{NoticeBox, UpdateBox, UpdatesIn};
pub use laws::{received_and_waiting_are_sent, received_was_sent};
pub use link_counts::LinkCounts;
pub use notices::{News, NoticesIn, notice_worker, put_notice};
pub use outbox::Outbox;
pub use outboxes::Joined;
pub use peers::{Mailboxes, Peers};
pub use posting::mailbox;
pub use posts::{EdgePost, Posts};
pub use receptions::{Input, Reception, Receptions};
pub use records::{Refusals, Refused};
pub use request::{EdgeNetworks, OperatorCommand, PortView, Reading, Request, Response};
pub use send_watch::SendWatch;
pub use sendings::{LINKS, Sending, Sendings};
