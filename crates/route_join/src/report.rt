//! The text of a report, line by line. A line is built in one array and written by one call; it
//! takes no memory.
ghost use Rattle.std.specs.Prelude.{◌≡◌, ◌+◌, ◌≤◌, ◌++◌, codes, length, take};
ghost use Rattle.ether_wire.specs.Ends.{Puts};
ghost use Rattle.ether_wire.specs.Addr.{hex_group};
ghost use Rattle.route_wire.specs.Order.{label2_of};
ghost use Rattle.route_wire.specs.Text.{groups_text, addr6_text, ip_text, ip_words};
ghost use Rattle.route_join.specs.Table.{entries_of};
ghost use Rattle.route_join.specs.Subject.{subject_of};
ghost use Rattle.route_join.specs.Inner.Lines.{subject_text, register_lines, HaveText};
ghost use Rattle.route_join.specs.Report.{spaced, counter_text, flood_state, mac_state, label2_words, origin_text, mac_words, register_line, owner_name};

use crate::names::Names;
use crate::subject::Subject;
use crate::updates::UpdatesOf;
use ether_wire::{
    Addr, Device, Out, Piece, Vni, addr_at, decimal_at, hex_group_at, mac_characters, word_at,
};
use route_wire::{Addr6, Advert, Content, Ip, Key, Register, Update, Value};

/// More octets than a line has: 8 for its first word, 48 for its subject, 20 for an originator, 49
/// for a counter, 33 for a state, 43 for an IP address, 32 for a second label and 3 between them.
pub(crate) const LINE: usize = 256;

/// The size of the array with a subject's text, which is copied as a whole.
const SUBJECT: usize = 48;

/// Writes two groups of four hexadecimal digits with a colon.
fn two_groups_at(line: &mut [u8], at: usize, high: u16, low: u16) -> usize
    requires { at + 9 ≤ length line.old }
    ensures text { take result line.new
        ≡ take at line.old ++ hex_group high ++ codes ":" ++ hex_group low }
    ensures end { result ≤ at + 9 }
    ensures len { length line.new ≡ length line.old }
{
    let at = hex_group_at(line, at, high);
    let at = word_at(line, at, b":");
    hex_group_at(line, at, low)
}

/// Writes four groups of four hexadecimal digits with colons.
fn groups_at(line: &mut [u8], at: usize, number: u64) -> usize
    requires { at + 19 ≤ length line.old }
    ensures text { take result line.new ≡ take at line.old ++ groups_text number }
    ensures end { result ≤ at + 19 }
    ensures len { length line.new ≡ length line.old }
{
    let (first, second) = (number / 0x1_0000_0000_0000, number / 0x1_0000_0000);
    let at = two_groups_at(
        line,
        at,
        (first % 0x1_0000) as u16,
        (second % 0x1_0000) as u16,
    );
    let at = word_at(line, at, b":");
    let third = number / 0x1_0000 % 0x1_0000;
    two_groups_at(line, at, third as u16, (number % 0x1_0000) as u16)
}

/// Writes eight groups of four hexadecimal digits with colons.
fn addr6_at(line: &mut [u8], at: usize, address: Addr6) -> usize
    requires { at + 39 ≤ length line.old }
    ensures text { take result line.new ≡ take at line.old ++ addr6_text address }
    ensures end { result ≤ at + 39 }
    ensures len { length line.new ≡ length line.old }
{
    let number = address.number();
    let at = groups_at(line, at, (number / 0x1_0000_0000_0000_0000) as u64);
    let at = word_at(line, at, b":");
    groups_at(line, at, (number % 0x1_0000_0000_0000_0000) as u64)
}

/// Writes the text of an IP address.
fn ip_at(line: &mut [u8], at: usize, ip: Ip) -> usize
    requires { at + 39 ≤ length line.old }
    ensures text { take result line.new ≡ take at line.old ++ ip_text ip }
    ensures end { result ≤ at + 39 }
    ensures len { length line.new ≡ length line.old }
{
    match ip {
        Ip::V4(address) => addr_at(line, at, address),
        Ip::V6(address) => addr6_at(line, at, address),
    }
}

/// Writes the IP address of a key that has one.
fn ip_words_at(line: &mut [u8], at: usize, ip: Option<Ip>) -> usize
    requires { at + 43 ≤ length line.old }
    ensures text { take result line.new ≡ take at line.old ++ ip_words ip }
    ensures end { result ≤ at + 43 }
    ensures len { length line.new ≡ length line.old }
{
    match ip {
        None => at,
        Some(ip) => {
            let at = word_at(line, at, b" ip ");
            ip_at(line, at, ip)
        }
    }
}

/// Writes the second label of an advert that has one.
fn label2_words_at(line: &mut [u8], at: usize, label2: Option<Vni>) -> usize
    requires { at + 32 ≤ length line.old }
    ensures text { take result line.new ≡ take at line.old ++ label2_words label2 }
    ensures end { result ≤ at + 32 }
    ensures len { length line.new ≡ length line.old }
{
    match label2 {
        None => at,
        Some(label) => {
            let at = word_at(line, at, b" label2 ");
            decimal_at(line, at, u64::from(label.number()))
        }
    }
}

/// Returns the text of a subject, which each line of its group has.
pub(crate) fn subject_text(subject: &Subject) -> Piece<SUBJECT>
    ensures { result ≡ subject_text subject.now }
{
    let mut text = [0; SUBJECT];
    let mut end = decimal_at(&mut text, 0, u64::from(subject.vni().number()));
    if let Some(mac) = subject.mac() {
        end = word_at(&mut text, end, b" ");
        end = word_at(&mut text, end, &mac_characters(mac));
    }
    Piece::of(text, end)
}

/// Writes a counter, after its incarnation if the incarnation isn't 0.
fn counter_at(line: &mut [u8], at: usize, value: &Value) -> usize
    requires { at + 49 ≤ length line.old }
    ensures text { take result line.new ≡ take at line.old ++ counter_text value.now }
    ensures end { result ≤ at + 49 }
    ensures len { length line.new ≡ length line.old }
{
    let mut at = at;
    if value.incarnation != 0 {
        at = decimal_at(line, at, u64::from(value.incarnation));
        at = word_at(line, at, b".");
    }
    decimal_at(line, at, value.counter)
}

/// Writes an originator and the counter of its value, with a space before them.
fn origin_at(
    line: &mut [u8],
    at: usize,
    names: &mut Names,
    originator: Addr,
    value: &Value,
) -> usize
    requires { at + 71 ≤ length line.old }
    ensures text { take result line.new
        ≡ take at line.old ++ spaced (origin_text originator value.now) }
    ensures end { result ≤ at + 71 }
    ensures len { length line.new ≡ length line.old }
{
    let at = word_at(line, at, b" ");
    let at = names.name_at(line, at, originator);
    let at = word_at(line, at, b" ");
    counter_at(line, at, value)
}

/// Writes the state of a flood list.
fn flood_state_at(line: &mut [u8], at: usize, content: &Content) -> usize
    requires { at + 9 ≤ length line.old }
    ensures text { take result line.new ≡ take at line.old ++ flood_state content.now }
    ensures end { result ≤ at + 9 }
    ensures len { length line.new ≡ length line.old }
{
    match content {
        Content::Withdrawn => word_at(line, at, b"withdrawn"),
        Content::Advert(_) => word_at(line, at, b"up"),
    }
}

/// Writes the state of a MAC address.
fn mac_state_at(line: &mut [u8], at: usize, content: &Content) -> usize
    requires { at + 32 ≤ length line.old }
    ensures text { take result line.new ≡ take at line.old ++ mac_state content.now }
    ensures end { result ≤ at + 32 }
    ensures len { length line.new ≡ length line.old }
{
    match content {
        Content::Withdrawn => word_at(line, at, b"withdrawn"),
        Content::Advert(advert) => {
            let at = if advert.is_static {
                word_at(line, at, b"static ")
            } else {
                word_at(line, at, b"dynamic ")
            };
            decimal_at(line, at, u64::from(advert.sequence))
        }
    }
}

/// Returns the second label of an advert that has one.
fn label2(content: &Content) -> Option<Vni>
    ensures { result ≡ label2_of content.now }
{
    match content {
        Content::Withdrawn => None,
        Content::Advert(advert) => advert.label2,
    }
}

/// Writes the state of a MAC address, with the IP address of its key and the second label.
fn mac_words_at(line: &mut [u8], at: usize, ip: Option<Ip>, content: &Content) -> usize
    requires { at + 108 ≤ length line.old }
    ensures text { take result line.new ≡ take at line.old ++ mac_words ip content.now }
    ensures end { result ≤ at + 108 }
    ensures len { length line.new ≡ length line.old }
{
    let at = word_at(line, at, b" ");
    let at = mac_state_at(line, at, content);
    let at = ip_words_at(line, at, ip);
    label2_words_at(line, at, label2(content))
}

/// Writes the line of a flood list, whose subject has this text.
fn flood_line_at(
    line: &mut [u8; LINE],
    names: &mut Names,
    subject: &Piece<SUBJECT>,
    originator: Addr,
    value: &Value,
) -> usize
    ensures text { take result line.new ≡ codes "flood " ++ subject.now
        ++ spaced (origin_text originator value.now)
        ++ spaced (flood_state value.now.content) ++ codes "\n" }
    ensures end { result ≤ 256 }
{
    let at = word_at(line, 0, b"flood ");
    let at = subject.write_at(line, at);
    let at = origin_at(line, at, names, originator, value);
    let at = word_at(line, at, b" ");
    let at = flood_state_at(line, at, &value.content);
    word_at(line, at, b"\n")
}

/// Writes the line of a MAC address, whose subject has this text.
fn mac_line_at(
    line: &mut [u8; LINE],
    names: &mut Names,
    subject: &Piece<SUBJECT>,
    ip: Option<Ip>,
    originator: Addr,
    value: &Value,
) -> usize
    ensures text { take result line.new ≡ codes "mac " ++ subject.now
        ++ spaced (origin_text originator value.now)
        ++ mac_words ip value.now.content ++ codes "\n" }
    ensures end { result ≤ 256 }
{
    let at = word_at(line, 0, b"mac ");
    let at = subject.write_at(line, at);
    let at = origin_at(line, at, names, originator, value);
    let at = mac_words_at(line, at, ip, &value.content);
    word_at(line, at, b"\n")
}

/// Writes the line of a register, whose subject has this text.
pub(crate) fn put_update<O: Out>(
    out: &mut O,
    line: &mut [u8; LINE],
    names: &mut Names,
    subject: &Piece<SUBJECT>,
    update: &Update,
) -> Result<(), Device>
    requires { subject_text (subject_of update.now.register.key) ≡ subject.now }
    ensures { Puts (O.end out.old) (O.end out.new)
        (register_line update.now.register update.now.value) result }
{
    let Register { originator, key } = update.register();
    let value = update.value();
    let end = match key {
        Key::Flood(_) => flood_line_at(line, names, subject, originator, &value),
        Key::Mac(_, _, ip) => mac_line_at(line, names, subject, ip, originator, &value),
    };
    out.put(&line[..end])
}

/// Writes the address of an owner, or `none`.
fn owner_name_at(line: &mut [u8], at: usize, names: &mut Names, owner: Option<Addr>) -> usize
    requires { at + 20 ≤ length line.old }
    ensures text { take result line.new ≡ take at line.old ++ owner_name owner }
    ensures end { result ≤ at + 20 }
    ensures len { length line.new ≡ length line.old }
{
    match owner {
        None => word_at(line, at, b"none"),
        Some(originator) => names.name_at(line, at, originator),
    }
}

/// Writes the line of the owner of a MAC address, whose subject has this text.
pub(crate) fn put_owner<O: Out>(
    out: &mut O,
    line: &mut [u8; LINE],
    names: &mut Names,
    subject: &Piece<SUBJECT>,
    owner: Option<Addr>,
) -> Result<(), Device>
    ensures { Puts (O.end out.old) (O.end out.new)
        (codes "owner " ++ subject.now ++ spaced (owner_name owner) ++ codes "\n") result }
{
    let at = word_at(line, 0, b"owner ");
    let at = subject.write_at(line, at);
    let at = word_at(line, at, b" ");
    let at = owner_name_at(line, at, names, owner);
    let end = word_at(line, at, b"\n");
    out.put(&line[..end])
}

/// Writes the lines of updates of one subject, which has this text, one after the other.
#[tactic(auto, using(ether_wire::proofs::Appending::with_text_twice, ether_wire::proofs::Appending::with_text_none))]
pub(crate) fn put_updates<O: Out>(
    out: &mut O,
    line: &mut [u8; LINE],
    names: &mut Names,
    subject: &Piece<SUBJECT>,
    updates: UpdatesOf<'_>,
) -> Result<(), Device>
    requires { HaveText subject.now (entries_of updates) }
    ensures { Puts (O.end out.old) (O.end out.new)
        (register_lines (entries_of updates.entry)) result }
{
    for update in updates {
        put_update(out, line, names, subject, &update)?;
    }
    Ok(())
}
