//! Prints the results of commands, for a simulation and for a console of running edges. Each line
//! begins with the edge's number, except the lines of a report.
ghost use Rattle.std.specs.Prelude.{◌≡◌, ◌++◌, codes, decimal};
ghost use Rattle.std.specs.List.{flat_map};
ghost use Rattle.bpdu_wire.specs.Writing.{octets_of};
ghost use Rattle.ether_wire.specs.Ends.{Puts};
ghost use Rattle.route_join.specs.Report.{report_of};
ghost use Rattle.ev_script.specs.Printing.{words_text, number_text, hex_digits, hex_text, bpdu_line, bpdu_lines, later_words, addresses_text, decision_line, place_text, taken_text, alert_text, edge_part, part_of, refusal_text, reply_text, role_words, state_words, passing_words, port_text};

use bpdu_wire::{Bpdu, write};
use ether_wire::{Addr, Device, Out, put_addr, put_decimal, put_ports};
use ev_edge::Reply;
use ev_fabric::FabricRefusal;
use ev_mobility::Alert;
use ev_tunnel::Decision;
use route_join::{Table, Taken};
use rstp_state::{PortState, Role};

/// The lower case hexadecimal digits.
const DIGITS: &[u8; 16] = b"0123456789abcdef";

/// Writes the report of a table.
///
/// # Errors
///
/// `Device` exactly if a call of the writer failed; then no further call is made. This holds for
/// the other functions here too.
pub fn put_report<W: Out>(out: &mut W, table: &Table) -> Result<(), Device>
    ensures { Puts (W.end out.old) (W.end out.new) (report_of table.now) result }
{
    table.write_report(out)
}

/// Writes the edge's number and a text after it.
pub fn put_words<W: Out>(out: &mut W, edge: u64, words: &[u8]) -> Result<(), Device>
    ensures { Puts (W.end out.old) (W.end out.new) (words_text edge words.now) result }
{
    put_decimal(out, edge)?;
    out.put(words)
}

/// Writes a line of the edge's number, a word and a number.
pub fn put_number<W: Out>(out: &mut W, edge: u64, word: &[u8], number: u64) -> Result<(), Device>
    ensures { Puts (W.end out.old) (W.end out.new) (number_text edge word.now number) result }
{
    put_words(out, edge, word)?;
    put_decimal(out, number)?;
    out.put(b"\n")
}

/// Returns the two digits of an octet.
fn hex_digits(octet: u8) -> [u8; 2]
    ensures { result ≡ hex_digits octet }
{
    [
        DIGITS[usize::from(octet / 16)],
        DIGITS[usize::from(octet % 16)],
    ]
}

/// Writes an octet in two digits.
fn put_hex_digits<W: Out>(out: &mut W, octet: u8) -> Result<(), Device>
    ensures { Puts (W.end out.old) (W.end out.new) (hex_digits octet) result }
{
    out.put(&hex_digits(octet))
}

/// Writes octets as pairs of digits.
fn put_hex<W: Out>(out: &mut W, octets: &[u8]) -> Result<(), Device>
    ensures { Puts (W.end out.old) (W.end out.new) (hex_text octets.now) result }
{
    for octet in octets {
        put_hex_digits(out, *octet)?;
    }
    Ok(())
}

/// Writes `bpdu P HEX`.
fn put_bpdu<W: Out>(out: &mut W, edge: u64, sent: &(u8, Bpdu)) -> Result<(), Device>
    ensures { Puts (W.end out.old) (W.end out.new) (bpdu_line edge sent.now) result }
{
    let (port, bpdu) = sent;
    put_words(out, edge, b" bpdu ")?;
    put_decimal(out, u64::from(*port))?;
    out.put(b" ")?;
    put_hex(out, write(bpdu).as_slice())?;
    out.put(b"\n")
}

/// Writes a line for each BPDU that is sent.
pub(crate) fn put_bpdus<W: Out>(out: &mut W, edge: u64, bpdus: &[(u8, Bpdu)]) -> Result<(), Device>
    ensures { Puts (W.end out.old) (W.end out.new) (bpdu_lines edge bpdus.now) result }
{
    for sent in bpdus {
        put_bpdu(out, edge, sent)?;
    }
    Ok(())
}

/// Writes a comma and an address.
fn put_later_one<W: Out>(out: &mut W, address: Addr) -> Result<(), Device>
    ensures { Puts (W.end out.old) (W.end out.new) (later_words address) result }
{
    out.put(b",")?;
    put_addr(out, address)
}

/// Writes the second and later addresses, a comma before each.
fn put_later<W: Out>(out: &mut W, addresses: &[Addr]) -> Result<(), Device>
    ensures { Puts (W.end out.old) (W.end out.new) (flat_map later_words addresses.now) result }
{
    for address in addresses {
        put_later_one(out, *address)?;
    }
    Ok(())
}

/// Writes addresses with commas between, or a dash if there is none.
fn put_addresses<W: Out>(out: &mut W, addresses: &[Addr]) -> Result<(), Device>
    ensures { Puts (W.end out.old) (W.end out.new) (addresses_text addresses.now) result }
{
    match addresses {
        [] => out.put(b"-"),
        [first, later @ ..] => {
            put_addr(out, *first)?;
            put_later(out, later)
        }
    }
}

/// Writes `local L remote R`.
fn put_decision<W: Out>(out: &mut W, edge: u64, decision: &Decision) -> Result<(), Device>
    ensures { Puts (W.end out.old) (W.end out.new) (decision_line edge decision.now) result }
{
    put_words(out, edge, b" local ")?;
    put_ports(out, decision.local)?;
    out.put(b" remote ")?;
    put_addresses(out, decision.remote.as_slice())?;
    out.put(b"\n")
}

/// Writes where a frame goes, if the reply has it.
fn put_place<W: Out>(out: &mut W, edge: u64, decision: &Option<Decision>) -> Result<(), Device>
    ensures { Puts (W.end out.old) (W.end out.new) (place_text edge decision.now) result }
{
    match decision {
        None => Ok(()),
        Some(decision) => put_decision(out, edge, decision),
    }
}

/// Writes `newer` or `known`, if an update was taken.
fn put_taken<W: Out>(out: &mut W, edge: u64, taken: Option<Taken>) -> Result<(), Device>
    ensures { Puts (W.end out.old) (W.end out.new) (taken_text edge taken) result }
{
    match taken {
        None => Ok(()),
        Some(Taken::Newer) => put_words(out, edge, b" newer\n"),
        Some(Taken::Known) => put_words(out, edge, b" known\n"),
    }
}

/// Writes `alert N`, if there is one.
fn put_alert<W: Out>(out: &mut W, edge: u64, alert: Option<Alert>) -> Result<(), Device>
    ensures { Puts (W.end out.old) (W.end out.new) (alert_text edge alert) result }
{
    match alert {
        None => Ok(()),
        Some(alert) => put_number(out, edge, b" alert ", u64::from(alert.number())),
    }
}

/// Returns `refused PART` between spaces, for the part of an edge that refuses.
fn edge_part<'a>(refusal: &ev_edge::Refusal) -> &'a [u8]
    ensures { result.now ≡ edge_part refusal.now }
{
    match refusal {
        ev_edge::Refusal::Ether(_) => b" refused ether ",
        ev_edge::Refusal::Bpdu(_) => b" refused bpdu ",
        ev_edge::Refusal::Vxlan(_) => b" refused vxlan ",
        ev_edge::Refusal::Edge(_) => b" refused edge ",
    }
}

/// Returns `refused PART` between spaces, for the part that refuses.
fn part<'a>(refusal: &FabricRefusal) -> &'a [u8]
    ensures { result.now ≡ part_of refusal.now }
{
    match refusal {
        FabricRefusal::NoMemory => b" refused edge ",
        FabricRefusal::NoSuchEdge | FabricRefusal::NoSuchUpdate | FabricRefusal::NoHigher =>
            b" refused fabric ",
        FabricRefusal::Edge(refusal) => edge_part(refusal),
    }
}

/// Writes `refused PART N`.
pub fn put_refusal<W: Out>(out: &mut W, edge: u64, refusal: &FabricRefusal) -> Result<(), Device>
    ensures { Puts (W.end out.old) (W.end out.new) (refusal_text edge refusal.now) result }
{
    put_number(out, edge, part(refusal), u64::from(refusal.number()))
}

/// Writes the results of a step: BPDUs, then where a frame goes, then whether an update was newer
/// or known, then an alert.
pub fn put_reply<W: Out>(out: &mut W, edge: u64, reply: &Reply) -> Result<(), Device>
    ensures { Puts (W.end out.old) (W.end out.new) (reply_text edge reply.now) result }
{
    put_bpdus(out, edge, reply.bpdus.as_slice())?;
    put_place(out, edge, &reply.decision)?;
    put_taken(out, edge, reply.taken)?;
    put_alert(out, edge, reply.alert)
}

/// Returns the port's role in the spanning tree, as text after a space.
fn role<'a>(role: Role) -> &'a [u8]
    ensures { result.now ≡ role_words role }
{
    match role {
        Role::Disabled => b" disabled",
        Role::Root => b" root",
        Role::Designated => b" designated",
        Role::Alternate => b" alternate",
        Role::Backup => b" backup",
    }
}

/// Returns the port's state, as text after a space.
fn state<'a>(port: &PortState) -> &'a [u8]
    ensures { result.now ≡ state_words port.now }
{
    if port.forwarding {
        b" forwarding"
    } else if port.learning {
        b" learning"
    } else {
        b" discarding"
    }
}

/// Returns whether frames pass, as text, and the end of a line.
fn passing<'a>(passes: bool) -> &'a [u8]
    ensures { result.now ≡ passing_words passes }
{
    if passes { b" passes\n" } else { b" blocks\n" }
}

/// Writes `port P ROLE STATE passes`, or `blocks`.
pub fn put_port<W: Out>(
    out: &mut W,
    edge: u64,
    number: u8,
    port: &PortState,
    passes: bool,
) -> Result<(), Device>
    ensures { Puts (W.end out.old) (W.end out.new) (port_text edge number port.now passes) result }
{
    put_words(out, edge, b" port ")?;
    put_decimal(out, u64::from(number))?;
    out.put(role(port.role))?;
    out.put(state(port))?;
    out.put(passing(passes))
}
