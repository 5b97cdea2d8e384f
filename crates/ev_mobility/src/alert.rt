//! Alerts about an address that an edge does not learn, or loses.
ghost use Rattle.std.specs.Prelude.{◌≡◌};
ghost use Rattle.ev_mobility.specs.Alert.{number_of, port_of};

use std::fmt::{Display, Error, Formatter, Write};

/// An alert of an edge to its operator about an address that it learns, pins or loses, or about a
/// port that brings too many frames. Except for the last, the edge forwards the frame that brought
/// the address in any case.
#[derive(Clone, Copy, Debug, PartialEq, Eq)]
pub enum Alert {
    /// Another edge advertises the address as static. It is not learnt here.
    StaticElsewhere,
    /// Another edge has used the greatest sequence number. The address is not learnt here.
    SequenceSpent,
    /// The address moved for the fifth time within 180 seconds. It is frozen, and not learnt here.
    Duplicate,
    /// An address that was pinned here now belongs to another edge, and is no longer pinned.
    LostStatic,
    /// The edge has few numbers left and reserves them for withdrawals. The address is not learnt.
    CounterSpent,
    /// The learning table is full: the address isn't learnt.
    TableFull,
    /// This port has as many stations as its configuration allows: the address isn't learnt there.
    PortFull(u8),
    /// This port has brought as many new addresses within 60 seconds as its configuration allows:
    /// the address isn't learnt.
    PortBusy(u8),
    /// This port has brought as many group and unknown frames within a second as its configuration
    /// allows: further ones are dropped, and nothing is learnt from them.
    PortStorm(u8),
    /// There was no memory for the address: it isn't learnt.
    NoMemory,
}

impl Alert {
    /// Returns the alert's number for logs: 1 to 9, or 15.
    pub fn number(self) -> u8
        ensures { result ≡ number_of self }
    {
        match self {
            Alert::StaticElsewhere => 1,
            Alert::SequenceSpent => 2,
            Alert::Duplicate => 3,
            Alert::LostStatic => 4,
            Alert::CounterSpent => 5,
            Alert::TableFull => 6,
            Alert::PortFull(_) => 7,
            Alert::PortBusy(_) => 8,
            Alert::PortStorm(_) => 9,
            Alert::NoMemory => 15,
        }
    }

    /// Returns the port whose limit caused the alert.
    pub fn port(self) -> Option<u8>
        ensures { result ≡ port_of self }
    {
        match self {
            Alert::PortFull(port) => Some(port),
            Alert::PortBusy(port) => Some(port),
            Alert::PortStorm(port) => Some(port),
            _ => None,
        }
    }
}

impl Display for Alert {
    fn fmt<W: Write>(&self, f: &mut Formatter<W>) -> Result<(), Error> {
        let text = match self {
            Alert::PortFull(port) => return write!(f, "too many stations at port {port}"),
            Alert::PortBusy(port) => return write!(f, "too many new stations at port {port}"),
            Alert::PortStorm(port) => return write!(f, "too many frames to flood at port {port}"),
            Alert::StaticElsewhere => "static at another edge",
            Alert::SequenceSpent => "sequence numbers are spent",
            Alert::Duplicate => "duplicate: frozen after five moves",
            Alert::LostStatic => "lost a pinned address",
            Alert::CounterSpent => "counter is spent",
            Alert::TableFull => "learning table is full",
            Alert::NoMemory => "no memory",
        };
        f.write_str(text)
    }
}
