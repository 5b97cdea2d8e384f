//! The frame that carries a BPDU (IEEE 802.1D-2004, sections 7.12 and 9):
//!
//! | Octets | Field |
//! |---|---|
//! | 6 | destination 01-80-C2-00-00-00 |
//! | 6 | source |
//! | 2 | length: 3 more than the BPDU's octets |
//! | 3 | LLC `42 42 03` |
//! | at most 43 | the BPDU |
//! | the rest of 60 | zeros |
ghost use Rattle.std.specs.Prelude.{◌≡◌, ◌≤◌, length};
ghost use Rattle.ether_wire.specs.BpduFrame.{bpdu_header, bpdu_frame_of};

use crate::addr::Mac;

/// The LLC header in front of a BPDU (IEEE 802.1D-2004, section 9.2).
pub const BPDU_LLC: [u8; 3] = [0x42, 0x42, 0x03];

/// Returns the octets before a BPDU of this size.
fn header(source: Mac, size: u8) -> [u8; 17]
    requires { size ≤ 43 }
    ensures { result ≡ bpdu_header source size }
{
    let [d1, d2, d3, d4, d5, d6] = Mac::bridge_group().octets();
    let [s1, s2, s3, s4, s5, s6] = source.octets();
    let [l1, l2, l3] = BPDU_LLC;
    [
        d1,
        d2,
        d3,
        d4,
        d5,
        d6,
        s1,
        s2,
        s3,
        s4,
        s5,
        s6,
        0,
        3 + size,
        l1,
        l2,
        l3,
    ]
}

/// Writes the frame that carries a BPDU of at most 43 octets.
#[tactic(auto, unfolding(crate::specs::BpduFrame::bpdu_frame_of))]
pub fn write_bpdu_frame(frame: &mut [u8; 60], source: Mac, bpdu: &[u8])
    requires { length bpdu.now ≤ 43 }
    ensures { frame.new ≡ bpdu_frame_of source bpdu.now }
{
    let size = bpdu.len();
    frame[..17].copy_from_slice(&header(source, size as u8));
    frame[17..17 + size].copy_from_slice(bpdu);
    frame[17 + size..].fill(0);
}
