//! Parses a line of a script, word by word, without allocating memory.
ghost use Rattle.std.specs.Prelude.{◌≡◌, ℕ, ◌+◌, ◌<◌, ◌≤◌, ◌^◌, ◌-◌, length, option_map, option_and_then, codes, IfSome};
ghost use Rattle.ev_script.specs.Script.{number, seconds, incarnation, station, verbs, later_verbs, verb_in, command_of, command_alone, command_with, command_in, words_of, line_of};

use crate::script::command::{Command, Verb};
use crate::script::hex::Hex;
use ether_wire::{Addr, Mac, Vni, parted, read_decimal};
use mac_arena::Station;

/// The maximum number of octets of a line, without its line feed.
pub const MOST_OCTETS: usize = 20_000;

/// The greatest number of 18 digits.
const MOST_NUMBER: u64 = 999_999_999_999_999_999;

/// The maximum number of seconds in a line.
const MOST_SECONDS: u64 = 100_000;

/// The last incarnation.
const LAST_INCARNATION: u64 = 0xffff_ffff;

/// Reads a decimal number of 1 to 18 digits, without leading zeros.
pub(crate) fn number(word: &[u8]) -> Option<u64>
    ensures { result ≡ number word.now }
{
    read_decimal(word, MOST_NUMBER)
}

/// Reads a number of seconds.
fn seconds(word: &[u8]) -> Option<u64>
    ensures { result ≡ seconds word.now }
{
    let seconds = read_decimal(word, MOST_SECONDS)?;
    if 0 < seconds { Some(seconds) } else { None }
}

/// Reads the number of an incarnation.
fn incarnation(word: &[u8]) -> Option<u32>
    ensures { result ≡ incarnation word.now }
{
    let incarnation = read_decimal(word, LAST_INCARNATION)?;
    Some(incarnation as u32)
}

/// Reads a VNI and a MAC address.
pub(crate) fn station(text: &[u8]) -> Option<Station>
    ensures { result ≡ station text.now }
{
    let (vni, mac) = parted(b' ', text)?;
    let vni = Vni::read_text(vni)?;
    let mac = Mac::read_text(mac)?;
    Some(Station { vni, mac })
}

/// Returns the verb of this name, if it is one of those after the first seven.
fn later_verb(word: &[u8]) -> Option<Verb>
    ensures { result ≡ verb_in later_verbs word.now }
{
    if word == b"unpin".as_slice() {
        return Some(Verb::Unpin);
    }
    if word == b"thaw".as_slice() {
        return Some(Verb::Thaw);
    }
    if word == b"announce".as_slice() {
        return Some(Verb::Announce);
    }
    if word == b"deliver".as_slice() {
        return Some(Verb::Deliver);
    }
    if word == b"port".as_slice() {
        return Some(Verb::Port);
    }
    if word == b"report".as_slice() {
        return Some(Verb::Report);
    }
    if word == b"restart".as_slice() {
        return Some(Verb::Restart);
    }
    if word == b"away".as_slice() {
        return Some(Verb::Away);
    }
    if word == b"back".as_slice() {
        return Some(Verb::Back);
    }
    None
}

/// Returns the verb of this name.
pub(crate) fn verb_of(word: &[u8]) -> Option<Verb>
    ensures { result ≡ verb_in verbs word.now }
{
    if word == b"up".as_slice() {
        return Some(Verb::Up);
    }
    if word == b"down".as_slice() {
        return Some(Verb::Down);
    }
    if word == b"mcheck".as_slice() {
        return Some(Verb::Mcheck);
    }
    if word == b"second".as_slice() {
        return Some(Verb::Second);
    }
    if word == b"frame".as_slice() {
        return Some(Verb::Frame);
    }
    if word == b"tunnel".as_slice() {
        return Some(Verb::Tunnel);
    }
    if word == b"pin".as_slice() {
        return Some(Verb::Pin);
    }
    later_verb(word)
}

/// Reads the arguments of `frame P HEX`.
fn frame(text: &[u8]) -> Option<Command<'_>>
    ensures { option_map command_of result ≡ command_with Verb.Frame text.now }
{
    let (port, octets) = parted(b' ', text)?;
    let port = number(port)?;
    Some(Command::Frame(port, Hex::read_text(octets)?))
}

/// Reads the arguments of `tunnel ADDR HEX`.
fn tunnel(text: &[u8]) -> Option<Command<'_>>
    ensures { option_map command_of result ≡ command_with Verb.Tunnel text.now }
{
    let (from, octets) = parted(b' ', text)?;
    let from = Addr::read_text(from)?;
    Some(Command::Tunnel(from, Hex::read_text(octets)?))
}

/// Reads the arguments of `pin VNI MAC P`.
fn pin(text: &[u8]) -> Option<Command<'_>>
    ensures { option_map command_of result ≡ command_with Verb.Pin text.now }
{
    let (vni, rest) = parted(b' ', text)?;
    let (mac, port) = parted(b' ', rest)?;
    let vni = Vni::read_text(vni)?;
    let mac = Mac::read_text(mac)?;
    let port = number(port)?;
    Some(Command::Pin(Station { vni, mac }, port))
}

/// Returns the command of a verb without arguments.
fn command_alone<'a>(verb: Verb) -> Option<Command<'a>>
    ensures { option_map command_of result ≡ command_alone verb }
{
    match verb {
        Verb::Announce => Some(Command::Announce),
        Verb::Report => Some(Command::Report),
        _ => None,
    }
}

/// Reads a command by its verb and the text after it.
fn command_with(verb: Verb, text: &[u8]) -> Option<Command<'_>>
    ensures { option_map command_of result ≡ command_with verb text.now }
{
    match verb {
        Verb::Up => Some(Command::Up(number(text)?)),
        Verb::Down => Some(Command::Down(number(text)?)),
        Verb::Mcheck => Some(Command::Mcheck(number(text)?)),
        Verb::Second => Some(Command::Second(seconds(text)?)),
        Verb::Frame => frame(text),
        Verb::Tunnel => tunnel(text),
        Verb::Pin => pin(text),
        Verb::Unpin => Some(Command::Unpin(station(text)?)),
        Verb::Thaw => Some(Command::Thaw(station(text)?)),
        Verb::Deliver => Some(Command::Deliver(number(text)?)),
        Verb::Port => Some(Command::Port(number(text)?)),
        Verb::Restart => Some(Command::Restart(incarnation(text)?)),
        Verb::Away => Some(Command::Away(Addr::read_text(text)?)),
        Verb::Back => Some(Command::Back(Addr::read_text(text)?)),
        Verb::Announce | Verb::Report => None,
    }
}

/// Reads a command, from its verb on.
fn command_in(text: &[u8]) -> Option<Command<'_>>
    ensures { option_map command_of result ≡ command_in text.now }
{
    match parted(b' ', text) {
        None => command_alone(verb_of(text)?),
        Some((word, rest)) => command_with(verb_of(word)?, rest),
    }
}

/// Reads the edge and the command of words with one space between them.
fn words_of(line: &[u8]) -> Option<(u64, Command<'_>)>
    ensures { option_map (λ l. (l.0, command_of l.1)) result ≡ words_of line.now }
{
    let (edge, rest) = parted(b' ', line)?;
    let edge = number(edge)?;
    match command_in(rest) {
        Some(command) => Some((edge, command)),
        None => None,
    }
}

/// Returns the edge and the command of a line without its line feed, or `None` if the line is
/// outside the grammar. It allocates no memory: hexadecimal digits stay digits.
pub fn parse(line: &[u8]) -> Option<(u64, Command<'_>)>
    ensures { option_map (λ l. (l.0, command_of l.1)) result ≡ line_of line.now }
{
    if line.len() <= MOST_OCTETS {
        words_of(line)
    } else {
        None
    }
}
