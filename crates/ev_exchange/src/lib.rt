//! The records between two processes of edges: one process writes them on a connection, and the
//! other one takes them. `evpnd serve` joins processes this way, over sockets.
#![tactic(auto)]

mod announcing;
mod entrance;
mod intake;
mod known;
mod laws;
mod life;
mod receiver;
mod send_loop;
mod sender;
mod sessions;
mod stream_end;

pub use announcing::{Announcing, Due, EdgeTable};
pub use entrance::Entrance;
pub use intake::{Incoming, receive};
pub use known::Known;
pub use laws::{
    both_agree, earlier_lives_end, joined_agrees, marks_are_due, meeting_agrees, newest_arrives,
    overdue_after_hold, own_registers_agree, own_updates_are, processes_agree, said_is_carried,
    stream_carries,
};
pub use life::{Life, has_any_of};
pub use receiver::{KINDS, Receiver};
pub use send_loop::announce;
pub use sender::Sender;
pub use sessions::{Change, Session, Sessions, Turn};
pub use stream_end::StreamEnd;

#[cfg(test)]
mod tests;
