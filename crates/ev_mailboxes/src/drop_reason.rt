//! The causes for which an edge drops a datagram that came over a link.
ghost use Rattle.std.specs.Prelude.{◌≡◌};
ghost use Rattle.ev_book.specs.declared.refusal.BookRefusal.TheVariants as book;
ghost use Rattle.ev_mailboxes.specs.DropReason.{cause_of};

use ether_wire::FrameRefusal;
use ev_book::BookRefusal;
use ev_edge::{EdgeRefusal, Refusal};

/// The cause for which an edge drops a datagram that came over a link.
#[derive(Clone, Copy, Debug, PartialEq, Eq)]
pub enum DropReason {
    /// The frame has more than 9,018 octets.
    TooLong,
    /// The octets are no frame, no BPDU though addressed as one, or no VXLAN datagram.
    Malformed,
    /// The tunnel's datagram comes from an address that isn't listed, or from the edge's own.
    Unlisted,
    /// The edge doesn't serve the network of the tunnel's datagram.
    OtherNetwork,
    /// It is a group or unknown frame beyond the storm limit of its port.
    Storm,
    /// Memory was refused.
    NoMemory,
}

/// Returns the cause of an edge's refusal, if it drops a datagram.
fn cause_in(refusal: &Refusal) -> Option<DropReason>
    ensures { result ≡ cause_of (book.Edge refusal.now) }
{
    match refusal {
        Refusal::Ether(FrameRefusal::Long) => Some(DropReason::TooLong),
        Refusal::Ether(_) | Refusal::Bpdu(_) | Refusal::Vxlan(_) => Some(DropReason::Malformed),
        Refusal::Edge(EdgeRefusal::UnknownOriginator) => Some(DropReason::Unlisted),
        Refusal::Edge(EdgeRefusal::NoSuchVni) => Some(DropReason::OtherNetwork),
        Refusal::Edge(EdgeRefusal::PortStorm(_)) => Some(DropReason::Storm),
        Refusal::Edge(EdgeRefusal::NoMemory) => Some(DropReason::NoMemory),
        Refusal::Edge(_) => None,
    }
}

/// Returns the cause for which a datagram is dropped whose event the book refused. Returns `None`
/// for a refusal that no datagram gets.
pub fn cause_of(refusal: &BookRefusal) -> Option<DropReason>
    ensures { result ≡ cause_of refusal.now }
{
    match refusal {
        BookRefusal::Edge(refusal) => cause_in(refusal),
        BookRefusal::NoRoom => Some(DropReason::NoMemory),
        BookRefusal::PassStrange | BookRefusal::PassSpent => None,
    }
}
