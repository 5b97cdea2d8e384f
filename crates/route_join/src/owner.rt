//! The advert of an update, and which of two adverts of an address is better (RFC 7432, section
//! 15).
ghost use Rattle.std.specs.Prelude.{◌≡◌};
ghost use Rattle.route_join.specs.Owner.{advert_in, is_better_by};

use route_wire::{Advert, Content};
use std::cmp::Ordering;

/// Returns the advert, if the content is one.
pub fn advert_in(content: &Content) -> Option<Advert>
    ensures { result ≡ advert_in content.now }
{
    match content {
        Content::Withdrawn => None,
        Content::Advert(advert) => Some(*advert),
    }
}

/// Returns `true` if the first of two adverts of an address is better, given the order of their
/// registers: static first, then the higher sequence number, then the register that comes first in
/// a report, with the lower originator, or else the lower IP address.
pub fn is_better(one: &Advert, other: &Advert, order: Ordering) -> bool
    ensures { result ≡ is_better_by one.now.is_static other.now.is_static
        one.now.sequence other.now.sequence order }
{
    if one.is_static != other.is_static {
        return one.is_static;
    }
    one.sequence > other.sequence || one.sequence == other.sequence && order.is_lt()
}
