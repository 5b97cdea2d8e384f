//! The originators that a command line lists.
#![tactic(auto, using(ether_wire::proofs::Appending::with_text_twice, ether_wire::proofs::Appending::with_text_none))]

ghost use Rattle.std.specs.Prelude.{◌≡◌, ◌≤◌, ◌<◌, length, IfOk, eqb, [], Result};
ghost use Rattle.std.specs.List.{IsDistinct};
ghost use Rattle.ether_wire.specs.Ends.{Puts};
ghost use Rattle.ether_wire.specs.Parse.{addr_of_text};
ghost use Rattle.route_join.specs.Table.{AreOriginators};
ghost use Rattle.ev_report.specs.Originators.{is_zero_led, has_leading_zero, spelling_fault, with_originator, with_address, with_part, originators_of_text, listed, reason_of, list_text};
ghost use Rattle.ev_report.specs.Inner.Originators.{items_of};

use arrayvec::ArrayVec;
use ether_wire::{Addr, Device, Out, parted};

/// What may be wrong with a part of a list.
#[derive(Clone, Copy, Debug, PartialEq, Eq)]
pub enum ListFault {
    /// It isn't four numbers up to 255 with dots between them.
    NotAnAddress,
    /// It is no address, and one of its numbers has several digits of which the first is 0.
    LeadingZero,
    /// It stands before it too.
    Twice,
    /// There are 64 before it.
    TooMany,
}

/// The first part of a list that is wrong, and why.
#[derive(Clone, Copy, Debug)]
pub struct WrongPart<'a> {
    pub part: &'a [u8],
    pub fault: ListFault,
}

/// Whether a number has several digits, of which the first is 0.
fn is_zero_led(number: &[u8]) -> bool
    ensures { result ≡ is_zero_led number.now }
{
    match number {
        [] => false,
        [digit, digits @ ..] => *digit == b'0' && !digits.is_empty(),
    }
}

/// Whether a number between the dots of a text begins with 0.
fn has_leading_zero(text: &[u8]) -> bool
    ensures { result ≡ has_leading_zero text.now }
{
    let mut rest = text;
    while let Some((number, after)) = parted(b'.', rest) {
        if is_zero_led(number) {
            return true;
        }
        rest = after;
    }
    is_zero_led(rest)
}

/// Why a text is no address.
fn spelling_fault(text: &[u8]) -> ListFault
    ensures { result ≡ spelling_fault text.now }
{
    if has_leading_zero(text) {
        ListFault::LeadingZero
    } else {
        ListFault::NotAnAddress
    }
}

/// One originator more, of at most 64 that all differ.
#[tactic(auto, using(ether_wire::proofs::DistinctNumbers::distinct_more))]
fn with_originator(
    mut originators: ArrayVec<Addr, 64>,
    originator: Addr,
) -> Result<ArrayVec<Addr, 64>, ListFault>
    requires { IsDistinct eqb originators.items }
    ensures value { items_of result ≡ with_originator originators.items originator }
    ensures some { IfOk result (λ o. AreOriginators o.items) }
{
    if originators.contains(&originator) {
        return Err(ListFault::Twice);
    }
    if originators.is_full() {
        return Err(ListFault::TooMany);
    }
    originators.push(originator);
    Ok(originators)
}

/// One originator more, by its text.
fn with_text(originators: ArrayVec<Addr, 64>, text: &[u8]) -> Result<ArrayVec<Addr, 64>, ListFault>
    requires { IsDistinct eqb originators.items }
    ensures value { items_of result ≡ with_address originators.items text.now
        (addr_of_text text.now) }
    ensures some { IfOk result (λ o. AreOriginators o.items) }
{
    match Addr::read_text(text) {
        Some(originator) => with_originator(originators, originator),
        None => Err(spelling_fault(text)),
    }
}

/// One part of the list more.
fn with_part<'a>(
    originators: ArrayVec<Addr, 64>,
    part: &'a [u8],
) -> Result<ArrayVec<Addr, 64>, WrongPart<'a>>
    requires { IsDistinct eqb originators.items }
    ensures value { listed result ≡ with_part originators.items part.now }
    ensures some { IfOk result (λ o. AreOriginators o.items) }
{
    match with_text(originators, part) {
        Ok(originators) => Ok(originators),
        Err(fault) => Err(WrongPart { part, fault }),
    }
}

/// The addresses of a list with commas, 1 to 64 that all differ.
///
/// # Errors
///
/// The first part that isn't one more such address, and why.
pub fn read_originators<'a>(list: &'a [u8]) -> Result<ArrayVec<Addr, 64>, WrongPart<'a>>
    ensures value { listed result ≡ originators_of_text list.now }
    ensures originators { IfOk result (λ o. AreOriginators o.items) }
{
    let mut originators = ArrayVec::new();
    let mut rest = list;
    while let Some((part, after)) = parted(b',', rest) {
        originators = with_part(originators, part)?;
        rest = after;
    }
    with_part(originators, rest)
}

impl ListFault {
    /// The words behind the part.
    fn reason(self) -> &'static [u8]
        ensures { result.now ≡ reason_of self }
    {
        match self {
            ListFault::NotAnAddress => b"' isn't an IPv4 address\n",
            ListFault::LeadingZero => b"' has a number that begins with 0\n",
            ListFault::Twice => b"' stands there twice\n",
            ListFault::TooMany => b"' is one more than the 64 that there may be\n",
        }
    }
}

/// Writes the wrong part of a list, why, and what was expected.
pub fn put_wrong_part<N: Out>(notes: &mut N, wrong: WrongPart<'_>) -> Result<(), Device>
    ensures { Puts (N.end notes.old) (N.end notes.new)
        (list_text (wrong.entry.part.now, wrong.entry.fault)) result }
{
    notes.put(b"error: --originators: '")?;
    notes.put(wrong.part)?;
    notes.put(wrong.fault.reason())?;
    notes.put(EXPECTED)
}

const EXPECTED: &[u8] =
    b"expected 1 to 64 different IPv4 addresses with commas between them, as in 10.0.0.1,10.0.0.2\n";
