//! The VXLAN header (RFC 7348, section 5), in front of a frame:
//!
//! | Octets | Field |
//! |---|---|
//! | 1 | flags: `08`, the I flag, must be set; all others are written 0 and ignored when read |
//! | 3 | reserved: written 0, ignored when read |
//! | 3 | VXLAN network identifier |
//! | 1 | reserved: written 0, ignored when read |
ghost use Rattle.std.specs.Prelude.{◌≡◌, ◌++◌, Ok};
ghost use Rattle.std.specs.Result.{result_map_both};
ghost use Rattle.vxlan_wire.specs.Vxlan.{header_of, instance_of, refusal_number};

use ether_wire::Vni;

/// The length of the header in octets.
const HEADER_LEN: usize = 8;
/// The place of the identifier, after the flags and the first reserved octets.
const VNI_PLACE: usize = 4;
/// The I flag: the header has an identifier.
const INSTANCE_FLAG: u8 = 0x08;

// ---- the numbers of the refusals: if both apply, the first one is returned

/// There are fewer octets than a header has.
pub const TOO_SHORT: u8 = 1;
/// Checked second: the I flag isn't set.
pub const NO_INSTANCE: u8 = 2;

/// Why octets begin with no VXLAN header.
#[derive(Clone, Copy, Debug, PartialEq, Eq)]
pub enum VxlanRefusal {
    /// Below 8 octets: checked first.
    Short,
    /// The I flag isn't set, so there is no identifier.
    NoInstance,
}

impl VxlanRefusal {
    /// Returns the number of the refusal.
    pub fn number(self) -> u8
        ensures { result ≡ refusal_number self }
    {
        match self {
            VxlanRefusal::Short => TOO_SHORT,
            VxlanRefusal::NoInstance => NO_INSTANCE,
        }
    }
}

/// Returns the identifier in the header, and the octets after it.
#[tactic(auto, unfolding(crate::specs::Vxlan::instance_of))]
pub fn read(octets: &[u8]) -> Result<(Vni, &[u8]), VxlanRefusal>
    ensures { result_map_both (λ p. (p.0, p.1.now)) (λ e. e) result ≡ instance_of octets.now }
{
    if octets.len() < HEADER_LEN {
        return Err(VxlanRefusal::Short);
    }
    if octets[0] / INSTANCE_FLAG % 2 == 0 {
        return Err(VxlanRefusal::NoInstance);
    }
    let (head, frame) = octets.split_at(HEADER_LEN);
    let (_, vni) = head.split_at(VNI_PLACE);
    Ok((Vni::from_octets(vni), frame))
}

/// Returns the header for an identifier.
pub fn header(vni: Vni) -> [u8; 8]
    ensures { result ≡ header_of vni }
{
    let [a, b, c] = vni.octets();
    [INSTANCE_FLAG, 0, 0, 0, a, b, c, 0]
}

/// A law: a written header is read as its identifier, regardless of the octets after it.
pub fn written_header_is_read(vni: Vni, frame: &[u8])
    ensures { instance_of (header_of vni ++ frame.now) ≡ Ok (vni, frame.now) }
{
    let _in_range = vni.number();
}
