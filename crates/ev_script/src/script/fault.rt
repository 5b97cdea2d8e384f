//! Why a line of a script is no command.
ghost use Rattle.std.specs.Prelude.{◌≡◌};
ghost use Rattle.ev_script.specs.Faults.{first_word, form_of, why_text, misspelt, why_words, why_of, is_good};

use crate::script::command::Verb;
use crate::script::mode::Mode;
use crate::script::parsing::{MOST_OCTETS, number, parse, verb_of};
use ether_wire::parted;

/// Why a line is no command.
#[derive(Clone, Copy, Debug)]
pub(crate) enum LineFault {
    /// It is empty, or a remark.
    Remark,
    /// It has a carriage return (13), as a line that ends with CRLF.
    Return,
    /// It has more than 20,000 octets.
    Long,
    /// It doesn't begin with an edge's number and a space.
    NoEdge,
    /// The word after the edge is no verb.
    NoVerb,
    /// The text after the verb isn't in the form of that verb's commands.
    Misspelt(Verb),
}

impl Verb {
    /// Returns the form of this verb's commands, with a line feed.
    fn form(self) -> &'static [u8]
        ensures { result.now ≡ form_of self }
    {
        match self {
            Verb::Up => b": expected E up P\n",
            Verb::Down => b": expected E down P\n",
            Verb::Mcheck => b": expected E mcheck P\n",
            Verb::Second => b": expected E second N, N from 1 to 100000\n",
            Verb::Frame => b": expected E frame P HEX\n",
            Verb::Tunnel => b": expected E tunnel ADDR HEX\n",
            Verb::Pin => b": expected E pin VNI MAC P\n",
            Verb::Unpin => b": expected E unpin VNI MAC\n",
            Verb::Thaw => b": expected E thaw VNI MAC\n",
            Verb::Announce => b": expected E announce\n",
            Verb::Deliver => b": expected E deliver K\n",
            Verb::Port => b": expected E port P\n",
            Verb::Report => b": expected E report\n",
            Verb::Restart => b": expected E restart N, N from 0 to 4294967295\n",
            Verb::Away => b": expected E away ADDR\n",
            Verb::Back => b": expected E back ADDR\n",
        }
    }
}

impl LineFault {
    /// Returns the reason as text that follows the place: a colon, a space, the reason, and a line
    /// feed.
    pub(crate) fn why(self) -> &'static [u8]
        ensures { result.now ≡ why_text self }
    {
        match self {
            LineFault::Remark => b": an empty line or a remark, which only evpnd play skips\n",
            LineFault::Return => {
                b": a carriage return: a line ends with a line feed alone, not with CRLF\n"
            }
            LineFault::Long => b": longer than 20000 octets\n",
            LineFault::NoEdge => b": expected the number of an edge, a space and a command\n",
            LineFault::NoVerb => {
                b": expected up, down, mcheck, second, frame, tunnel, pin, unpin, thaw, announce, \
deliver, port, report, restart, away or back behind the edge\n"
            }
            LineFault::Misspelt(verb) => verb.form(),
        }
    }
}

/// Returns the first word of a text.
fn first_word(text: &[u8]) -> &[u8]
    ensures { result.now ≡ first_word text.now }
{
    match parted(b' ', text) {
        None => text,
        Some((word, _)) => word,
    }
}

/// Returns why a text that should be a command, from its verb on, is none.
fn misspelt(text: &[u8]) -> LineFault
    ensures { result ≡ misspelt text.now }
{
    match verb_of(first_word(text)) {
        None => LineFault::NoVerb,
        Some(verb) => LineFault::Misspelt(verb),
    }
}

/// Returns why words with one space between them are no command.
fn why_words(line: &[u8]) -> LineFault
    ensures { result ≡ why_words line.now }
{
    match parted(b' ', line) {
        None => LineFault::NoEdge,
        Some((edge, rest)) => match number(edge) {
            None => LineFault::NoEdge,
            Some(_) => misspelt(rest),
        },
    }
}

/// Returns why a line that is no command is none.
pub(crate) fn why_of(line: &[u8]) -> LineFault
    ensures { result ≡ why_of line.now }
{
    if Mode::Play.skips(line) {
        return LineFault::Remark;
    }
    if parted(b'\r', line).is_some() {
        return LineFault::Return;
    }
    if line.len() <= MOST_OCTETS {
        why_words(line)
    } else {
        LineFault::Long
    }
}

/// Returns `true` if a line is a command.
pub(crate) fn is_good(line: &[u8]) -> bool
    ensures { result ≡ is_good line.now }
{
    match parse(line) {
        None => false,
        Some(_) => true,
    }
}

/// Returns the text about a line that is no command: a colon, a space, the reason, and a line feed.
pub fn why_text(line: &[u8]) -> &'static [u8]
    ensures { result.now ≡ why_text (why_of line.now) }
{
    why_of(line).why()
}
