//! The reasons that octets are no BPDU, and the number of each.

/// First test: there are fewer than four octets. Or, after the type is known, fewer than its kind
/// has.
pub const TOO_SHORT: u8 = 1;
/// Second test, with at least four octets: the protocol identifier isn't 0.
pub const BAD_PROTOCOL: u8 = 2;
/// Third test: the type is none of 0x00, 0x02 and 0x80.
pub const BAD_TYPE: u8 = 3;
/// Fourth test: the type is 0x02 and the version below 2. The test of the kind's length follows.
pub const BAD_VERSION: u8 = 4;
/// Last test: the BPDU is a Configuration BPDU, or a designated port's Rapid Spanning Tree BPDU,
/// and its message age isn't below its max age.
pub const OVER_AGE: u8 = 5;

/// The reason that octets are no BPDU. `read` returns the first one that applies, in the order that
/// it names.
#[derive(Clone, Copy, Debug, PartialEq, Eq)]
pub enum BpduRefusal {
    /// There are fewer than four octets or, after the type is known, fewer than its kind has.
    Short,
    /// The protocol identifier isn't 0.
    BadProtocol,
    /// The type is none of 0x00, 0x02 and 0x80.
    BadType,
    /// The type is 0x02 and the version below 2.
    BadVersion,
    /// The message age isn't below the max age.
    Aged,
}

impl BpduRefusal {
    ghost use Rattle.std.specs.Prelude.{◌≡◌};
    ghost use Rattle.bpdu_wire.specs.Refusal.{refusal_number};

    /// Returns the number of the reason.
    pub fn number(self) -> u8
        ensures { result ≡ refusal_number self }
    {
        match self {
            BpduRefusal::Short => TOO_SHORT,
            BpduRefusal::BadProtocol => BAD_PROTOCOL,
            BpduRefusal::BadType => BAD_TYPE,
            BpduRefusal::BadVersion => BAD_VERSION,
            BpduRefusal::Aged => OVER_AGE,
        }
    }
}
