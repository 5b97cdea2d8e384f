//! The octets of a BPDU, as `reading.rt` lays them out.

ghost use Rattle.std.specs.Prelude.{◌≡◌, ◌+◌, ◌≤◌, ◌++◌, ℕ, List, length};
ghost use Rattle.arrayvec.specs.ArrayVec.{array_vec_len};
ghost use Rattle.byteorder.specs.Endian.{big_bytes};
ghost use Rattle.bpdu_wire.specs.Reading.{reading};
ghost use Rattle.bpdu_wire.specs.Writing.{vector_octets, times_octets, message_octets, octets_of, read_again};
ghost use Rattle.bpdu_wire.specs.Inner.Writing.{HasVector, HasTimes};

use crate::bpdu::{Bpdu, Message};
use crate::reading::{CONFIG_TYPE, OLD_VERSION, RAPID_VERSION, RST_TYPE, TCN_TYPE};
use arrayvec::ArrayVec;

/// Appends octets for which the list has room.
fn put(out: &mut ArrayVec<u8, 36>, octets: &[u8])
    requires { array_vec_len out.old + length octets.now ≤ 36 }
    ensures items { out.new.items ≡ out.old.items ++ octets.now }
    ensures len { array_vec_len out.new ≡ array_vec_len out.old + length octets.now }
{
    match out.try_extend_from_slice(octets) {
        Ok(()) => {}
        Err(_) => unreachable!(),
    }
}

/// Appends a number of two octets.
fn put_u16(out: &mut ArrayVec<u8, 36>, number: u16)
    requires { array_vec_len out.old + 2 ≤ 36 }
    ensures items { out.new.items ≡ out.old.items ++ big_bytes 2 number }
    ensures len { array_vec_len out.new ≡ array_vec_len out.old + 2 }
{
    put(out, &number.to_be_bytes());
}

/// Appends a number of four octets.
fn put_u32(out: &mut ArrayVec<u8, 36>, number: u32)
    requires { array_vec_len out.old + 4 ≤ 36 }
    ensures items { out.new.items ≡ out.old.items ++ big_bytes 4 number }
    ensures len { array_vec_len out.new ≡ array_vec_len out.old + 4 }
{
    put(out, &number.to_be_bytes());
}

/// Appends a number of eight octets.
fn put_u64(out: &mut ArrayVec<u8, 36>, number: u64)
    requires { array_vec_len out.old + 8 ≤ 36 }
    ensures items { out.new.items ≡ out.old.items ++ big_bytes 8 number }
    ensures len { array_vec_len out.new ≡ array_vec_len out.old + 8 }
{
    put(out, &number.to_be_bytes());
}

/// Appends the message's root, cost of the path to it, bridge and port.
fn put_vector(out: &mut ArrayVec<u8, 36>, message: &Message)
    requires { array_vec_len out.old + 22 ≤ 36 }
    ensures items { out.new.items ≡ out.old.items ++ vector_octets message.now }
    ensures len { array_vec_len out.new ≡ array_vec_len out.old + 22 }
    ensures fits { HasVector message.now }
{
    put_u64(out, message.root.number());
    put_u32(out, message.cost);
    put_u64(out, message.bridge.number());
    put_u16(out, message.port.number());
}

/// Appends the four times.
fn put_times(out: &mut ArrayVec<u8, 36>, message: &Message)
    requires { array_vec_len out.old + 8 ≤ 36 }
    ensures items { out.new.items ≡ out.old.items ++ times_octets message.now }
    ensures len { array_vec_len out.new ≡ array_vec_len out.old + 8 }
    ensures fits { HasTimes message.now }
{
    put_u16(out, message.message_age);
    put_u16(out, message.max_age);
    put_u16(out, message.hello);
    put_u16(out, message.forward_delay);
}

/// Appends a BPDU of this version and type, and then the octets after its fields.
fn put_message(out: &mut ArrayVec<u8, 36>, version: u8, kind: u8, message: &Message, after: &[u8])
    requires { array_vec_len out.old + 35 + length after.now ≤ 36 }
    ensures items { out.new.items
        ≡ out.old.items ++ message_octets version kind message.now after.now }
    ensures vector { HasVector message.now }
    ensures times { HasTimes message.now }
{
    put(out, &[0, 0, version, kind, message.flags]);
    put_vector(out, message);
    put_times(out, message);
    put(out, after);
}

/// Returns the octets of the BPDU: protocol 0, the kind's own version (0, or 2 for a Rapid Spanning
/// Tree BPDU) and type, and then the fields. With any octets after them, `read` reads them as this
/// BPDU, or refuses them as `Aged`.
pub fn write(bpdu: &Bpdu) -> ArrayVec<u8, 36>
    ensures octets { result.items ≡ octets_of bpdu.now }
    ensures again { (rest : List ℕ) → reading (result.items ++ rest) ≡ read_again bpdu.now }
{
    let mut out = ArrayVec::new();
    match bpdu {
        Bpdu::Config(message) => {
            put_message(&mut out, OLD_VERSION, CONFIG_TYPE, message, &[]);
        }
        Bpdu::Rst(message) => {
            put_message(&mut out, RAPID_VERSION, RST_TYPE, message, &[0]);
        }
        Bpdu::Tcn => put(&mut out, &[0, 0, OLD_VERSION, TCN_TYPE]),
    }
    out
}
