//! The owner of a station in an edge's table, and why.
#![tactic(auto, using(ether_wire::proofs::Appending::with_text_twice, ether_wire::proofs::Appending::with_text_none))]

ghost use Rattle.std.specs.Prelude.{◌≡◌, [], None};
ghost use Rattle.route_join.specs.Updates.{updates_of};
ghost use Rattle.ether_wire.specs.Ends.{Puts};
ghost use Rattle.route_join.specs.Owner.{better_of};
ghost use Rattle.ev_view.specs.Owners.{said_by, best_but, ranked, offer_line, offer_lines, owner_line, owner_text};

use arrayvec::ArrayVec;
use ether_wire::{Addr, Device, Mac, Out, Vni, put_addr, put_decimal};
use route_join::{Table, UpdatesOf, advert_in, is_better};
use route_wire::{Advert, Register, Update};

/// The maximum number of originators of a table.
const MOST_ORIGINATORS: usize = 64;

/// An advert, and the register that has it.
type Offer = (Register, Advert);

/// Returns the update's advert, unless its originator is one of these.
fn said_by(told: &[Addr], update: &Update) -> Option<Advert>
    ensures { result ≡ said_by told.now update.now }
{
    if told.contains(&update.register().originator) {
        return None;
    }
    advert_in(&update.value().content)
}

/// Returns the better of the register's advert, if it has one, and the best so far.
fn better_of(register: Register, said: Option<Advert>, best: Option<Offer>) -> Option<Offer>
    ensures { result ≡ better_of register said best }
{
    match (said, best) {
        (None, best) => best,
        (Some(advert), None) => Some((register, advert)),
        (Some(advert), Some(best)) => {
            if is_better(&advert, &best.1, register.cmp(&best.0)) {
                Some((register, advert))
            } else {
                Some(best)
            }
        }
    }
}

/// Returns the best advert of the originators that are not in the list.
fn best_but(told: &[Addr], updates: UpdatesOf<'_>) -> Option<Offer>
    ensures { result ≡ best_but told.now updates.entry None }
{
    let mut best = None;
    for update in updates {
        best = better_of(update.register(), said_by(told, &update), best);
    }
    best
}

/// Writes the line of an advert.
fn put_offer<W: Out>(out: &mut W, number: u64, offer: &Offer) -> Result<(), Device>
    ensures { Puts (W.end out.old) (W.end out.new) (offer_line number offer.now) result }
{
    put_decimal(out, number)?;
    out.put(b" advert ")?;
    put_addr(out, offer.0.originator)?;
    if offer.1.is_static {
        out.put(b" static ")?;
    } else {
        out.put(b" dynamic ")?;
    }
    put_decimal(out, u64::from(offer.1.sequence))?;
    out.put(b"\n")
}

/// Writes the best advert of each originator, the best one first.
fn put_offers<W: Out>(
    out: &mut W,
    number: u64,
    table: &Table,
    vni: Vni,
    mac: Mac,
) -> Result<(), Device>
    ensures { Puts (W.end out.old) (W.end out.new)
        (offer_lines number (ranked 64 [] (updates_of table.now vni mac))) result }
{
    let mut told: ArrayVec<Addr, MOST_ORIGINATORS> = ArrayVec::new();
    for turn in 0..MOST_ORIGINATORS {
        let _ = turn;
        let Some(offer) = best_but(told.as_slice(), table.updates_of(vni, mac)) else {
            return Ok(());
        };
        put_offer(out, number, &offer)?;
        told.push(offer.0.originator);
    }
    Ok(())
}

/// Writes the owner of an address, or `none`.
fn put_owner_line<W: Out>(out: &mut W, number: u64, owner: Option<Addr>) -> Result<(), Device>
    ensures { Puts (W.end out.old) (W.end out.new) (owner_line number owner) result }
{
    put_decimal(out, number)?;
    out.put(b" owner ")?;
    match owner {
        None => out.put(b"none\n"),
        Some(originator) => {
            put_addr(out, originator)?;
            out.put(b"\n")
        }
    }
}

/// Writes the owner of an address and the adverts, the best one first.
pub(crate) fn put_owner<W: Out>(
    out: &mut W,
    number: u64,
    table: &Table,
    vni: Vni,
    mac: Mac,
) -> Result<(), Device>
    ensures { Puts (W.end out.old) (W.end out.new) (owner_text number table.now vni mac) result }
{
    put_owner_line(out, number, table.owner(vni, mac))?;
    put_offers(out, number, table, vni, mac)
}
