//! A frame in a datagram between edges: the VXLAN header in front of it.
ghost use Rattle.std.specs.Prelude.{◌≡◌, ◌+◌, ◌≤◌, ◌++◌, length, drop, Ok};
ghost use Rattle.std.specs.Result.{result_map_both};
ghost use Rattle.vxlan_wire.specs.Vxlan.{instance_of};
ghost use Rattle.ev_tunnel.specs.Datagram.{datagram_of};

use ether_wire::Vni;
use vxlan_wire::{VxlanRefusal, header, read, written_header_is_read};

/// Writes the datagram that carries a frame of at most 9,018 octets, and returns its length. The
/// rest of the buffer is unchanged.
pub fn wrap(buffer: &mut [u8; 9026], vni: Vni, frame: &[u8]) -> usize
    requires { length frame.now ≤ 9018 }
    ensures size { result ≡ 8 + length frame.now }
    ensures octets { buffer.new
        ≡ datagram_of vni frame.now ++ drop (8 + length frame.now) buffer.old }
{
    let size = 8 + frame.len();
    buffer[..8].copy_from_slice(&header(vni));
    buffer[8..size].copy_from_slice(frame);
    size
}

/// Returns the VNI of a datagram, and the frame that it carries.
///
/// # Errors
///
/// As for the header: `Short` below 8 octets, `NoInstance` if its I flag is not set.
pub fn unwrap_datagram(datagram: &[u8]) -> Result<(Vni, &[u8]), VxlanRefusal>
    ensures { result_map_both (λ p. (p.0, p.1.now)) (λ e. e) result ≡ instance_of datagram.now }
{
    read(datagram)
}

/// A wrapped frame is unwrapped again.
pub fn wrapped_frame_is_unwrapped(vni: Vni, frame: &[u8])
    ensures { instance_of (datagram_of vni frame.now) ≡ Ok (vni, frame.now) }
{
    written_header_is_read(vni, frame);
}
