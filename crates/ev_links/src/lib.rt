//! Links of an edge, which receive and send its datagrams over sockets, tap devices or channels.
//! Lines: the queues of frames that wait to be sent over a link.
#![tactic(auto)]

mod backlog;
mod channels;
mod counted_link;
mod device_name;
mod direct_line;
mod failing_link;
mod flow;
mod last_bpdu;
mod laws;
mod line;
mod links;
mod parts;
mod tap;
mod udp;
mod wire;
mod wire_out;

pub use channels::{ChannelIn, ChannelOut, Datagram};
pub use counted_link::CountedLink;
pub use device_name::DeviceName;
pub use direct_line::DirectLine;
pub use failing_link::FailingLink;
pub use flow::{Flow, FlowCell};
pub use laws::{
    each_drop_is_counted, frames_keep_their_order, name_keeps_its_text, only_a_full_part_drops,
};
pub use line::{LONGEST, Line};
pub use links::{LinkIn, LinkOut, PromptOut};
pub use tap::Tap;
pub use udp::socket_address;
pub use wire::Wire;
pub use wire_out::{Destination, WireOut};

#[cfg(test)]
mod tests;
