//! A BPDU's octets (IEEE 802.1D-2004, 9.3). All numbers are big-endian.
//!
//! | Place | Octets | Field |
//! |---|---|---|
//! | 0 | 2 | protocol, 0 |
//! | 2 | 1 | version: 0, or 2 of a Rapid Spanning Tree BPDU |
//! | 3 | 1 | type: 0x00 Configuration, 0x02 Rapid Spanning Tree, 0x80 Topology Change Notification, which ends here |
//! | 4 | 1 | flags |
//! | 5 | 8 | root: the bridge that the sender takes for the root |
//! | 13 | 4 | cost of the sender's path to it |
//! | 17 | 8 | bridge: the sender |
//! | 25 | 2 | port: the sender's |
//! | 27 | 2 | message age, in 1/256 second, as the next three |
//! | 29 | 2 | max age |
//! | 31 | 2 | Hello time |
//! | 33 | 2 | forward delay, the last field of a Configuration BPDU |
//! | 35 | 1 | Version 1 Length, 0, of a Rapid Spanning Tree BPDU |

ghost use Rattle.std.specs.Prelude.{◌≡◌, ◌≤◌, true, length};
ghost use Rattle.bpdu_wire.specs.Reading.{protocol_of, type_of, has_old_version, is_known, size_of, message_of, bpdu_of, reading};

use crate::bpdu::{Bpdu, Message};
use crate::id::{BridgeId, PortId};
use crate::refusal::BpduRefusal;
use byteorder::{BigEndian, ByteOrder};

/// The place of the version.
pub(crate) const VERSION_PLACE: usize = 2;
/// The place of the type.
pub(crate) const TYPE_PLACE: usize = 3;
/// The place of the flags.
pub(crate) const FLAGS_PLACE: usize = 4;
/// The place of the root's identifier.
pub(crate) const ROOT_PLACE: usize = 5;
/// The place of the cost.
pub(crate) const COST_PLACE: usize = 13;
/// The place of the sender's identifier.
pub(crate) const BRIDGE_PLACE: usize = 17;
/// The place of the identifier of the sender's port.
pub(crate) const PORT_PLACE: usize = 25;
/// The place of the message age.
pub(crate) const MESSAGE_AGE_PLACE: usize = 27;
/// The place of the max age.
pub(crate) const MAX_AGE_PLACE: usize = 29;
/// The place of the Hello time.
pub(crate) const HELLO_PLACE: usize = 31;
/// The place of the forward delay.
pub(crate) const FORWARD_DELAY_PLACE: usize = 33;

/// The type of a Configuration BPDU.
pub(crate) const CONFIG_TYPE: u8 = 0x00;
/// The type of a Rapid Spanning Tree BPDU.
pub(crate) const RST_TYPE: u8 = 0x02;
/// The type of a Topology Change Notification BPDU.
pub(crate) const TCN_TYPE: u8 = 0x80;

/// The version of the older protocol's BPDUs.
pub(crate) const OLD_VERSION: u8 = 0;
/// The first version with Rapid Spanning Tree BPDUs.
pub(crate) const RAPID_VERSION: u8 = 2;

/// The least number of octets of any BPDU: those up to the type.
pub(crate) const TCN_SIZE: usize = 4;
/// The number of octets of a Configuration BPDU.
pub(crate) const CONFIG_SIZE: usize = 35;
/// The number of octets of a Rapid Spanning Tree BPDU.
pub(crate) const RST_SIZE: usize = 36;

/// Returns `true` if a kind of BPDU has this type.
fn is_known(kind: u8) -> bool
    ensures { result ≡ is_known kind }
{
    matches!(kind, CONFIG_TYPE | RST_TYPE | TCN_TYPE)
}

/// Returns the number of octets of a BPDU of this type.
fn size(kind: u8) -> usize
    ensures { result ≡ size_of kind }
{
    match kind {
        CONFIG_TYPE => CONFIG_SIZE,
        RST_TYPE => RST_SIZE,
        _ => TCN_SIZE,
    }
}

/// Returns `true` if the BPDU has the rapid protocol's type, and a version before that protocol.
fn has_old_version(octets: &[u8]) -> bool
    requires { TCN_SIZE ≤ length octets.now }
    ensures { result ≡ has_old_version octets.now }
{
    octets[TYPE_PLACE] == RST_TYPE && octets[VERSION_PLACE] < RAPID_VERSION
}

/// Returns the fields of a message.
fn message_in(octets: &[u8]) -> Message
    requires { CONFIG_SIZE ≤ length octets.now }
    ensures { result ≡ message_of octets.now }
{
    Message {
        flags: octets[FLAGS_PLACE],
        root: BridgeId::new(BigEndian::read_u64(&octets[ROOT_PLACE..])),
        cost: BigEndian::read_u32(&octets[COST_PLACE..]),
        bridge: BridgeId::new(BigEndian::read_u64(&octets[BRIDGE_PLACE..])),
        port: PortId::new(BigEndian::read_u16(&octets[PORT_PLACE..])),
        message_age: BigEndian::read_u16(&octets[MESSAGE_AGE_PLACE..]),
        max_age: BigEndian::read_u16(&octets[MAX_AGE_PLACE..]),
        hello: BigEndian::read_u16(&octets[HELLO_PLACE..]),
        forward_delay: BigEndian::read_u16(&octets[FORWARD_DELAY_PLACE..]),
    }
}

/// Returns the BPDU of the type, with its fields.
fn bpdu_in(octets: &[u8]) -> Bpdu
    requires head { TCN_SIZE ≤ length octets.now }
    requires whole { size_of (type_of octets.now) ≤ length octets.now }
    ensures { result ≡ bpdu_of octets.now }
{
    match octets[TYPE_PLACE] {
        CONFIG_TYPE => Bpdu::Config(message_in(octets)),
        RST_TYPE => Bpdu::Rst(message_in(octets)),
        _ => Bpdu::Tcn,
    }
}

/// Returns the BPDU that the octets begin with. Ignores octets after it. Ignores the version at
/// types 0x00 and 0x80, and accepts any version above 2 at type 0x02: a later protocol's BPDU is
/// read by the fields that it shares with ours (IEEE 802.1D-2004, 9.3.4).
///
/// The error is the first refusal that applies, in this order: `Short` if there are fewer than four
/// octets, `BadProtocol`, `BadType`, `BadVersion`, `Short` if there are fewer octets than the type
/// has, `Aged`.
#[tactic(auto, unfolding(crate::specs::Reading::reading))]
pub fn read(octets: &[u8]) -> Result<Bpdu, BpduRefusal>
    ensures { result ≡ reading octets.now }
{
    if octets.len() < TCN_SIZE {
        return Err(BpduRefusal::Short);
    }
    if BigEndian::read_u16(octets) != 0 {
        return Err(BpduRefusal::BadProtocol);
    }
    if !is_known(octets[TYPE_PLACE]) {
        return Err(BpduRefusal::BadType);
    }
    if has_old_version(octets) {
        return Err(BpduRefusal::BadVersion);
    }
    if octets.len() < size(octets[TYPE_PLACE]) {
        return Err(BpduRefusal::Short);
    }
    let bpdu = bpdu_in(octets);
    if bpdu.is_aged() {
        return Err(BpduRefusal::Aged);
    }
    Ok(bpdu)
}
