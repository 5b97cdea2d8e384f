//! Calls that are refused memory: these tests also run with one allocation refused. A call that is
//! refused memory is counted and changes nothing else, and succeeds when it is repeated.
ghost use Rattle.std.specs.Prelude.{◌≡◌};

use super::{config, journal, report, said};
use crate::{Book, BookRefusal, Pass};
use ether_wire::{Page, Vni};
use ev_edge::{Event, Reply};
use std::alloc::{AllocError, Global};
use std::marker::Brand;
use std::sync::ledger::{Blank, Ledger};
use std::test::Fail;

/// The number of the refusals for memory, of a book and of an edge.
const NO_MEMORY: u8 = 15;

// What can be seen of a book.
#[derive(Drop)]
struct Seen {
    journal: Page<2048>,
    report: Page<2048>,
}

fn look_at<L: Ledger>(book: &Book<L>) -> Seen {
    Seen {
        journal: journal(book),
        report: report(book),
    }
}

// Whether a book looks as it did before.
fn is_as<L: Ledger>(book: &Book<L>, before: &Seen) -> bool {
    let now = look_at(book);
    now.journal.octets() == before.journal.octets() && now.report.octets() == before.report.octets()
}

// Whether memory was refused, by the refusal or by the alert.
fn is_out_of_memory(outcome: &Result<Reply, BookRefusal>) -> bool {
    match outcome {
        Ok(reply) => match reply.alert {
            Some(alert) => alert.number() == NO_MEMORY,
            None => false,
        },
        Err(refusal) => refusal.number() == NO_MEMORY,
    }
}

// Whether an event that makes updates is entered, at the second try where memory for the first was
// refused, which was counted and changed nothing else.
fn is_entered<L: Ledger>(book: &mut Book<L>, pass: &mut Pass<L>, event: &Event<'_>) -> bool {
    let before = look_at(book);
    let count = pass.count();
    if is_out_of_memory(&book.enter(pass, event)) {
        let is_kept = is_as(book, &before) && count.checked_add(1) == Some(pass.count());
        if !is_kept || is_out_of_memory(&book.enter(pass, event)) {
            return false;
        }
    }
    !is_as(book, &before)
}

// Whether the port is brought up, at the second try if need be, and four stations are heard there.
fn hears_four<L: Ledger>(book: &mut Book<L>, pass: &mut Pass<L>) -> bool {
    if is_out_of_memory(&book.enter(pass, &Event::PortUp(1)))
        && book.enter(pass, &Event::PortUp(1)).is_err()
    {
        return false;
    }
    for n in 0..4u8 {
        let frame = [
            0xff, 0xff, 0xff, 0xff, 0xff, 0xff, 0x02, 0x00, 0x00, 0x00, 0x00, n, 0x08, 0x00,
        ];
        if !is_entered(book, pass, &Event::Frame(1, &frame)) {
            return false;
        }
    }
    true
}

// Whether twelve updates of as many registers are taken.
fn takes_twelve<L: Ledger>(book: &mut Book<L>, pass: &mut Pass<L>) -> bool {
    for n in 0..12u32 {
        let update = said(1, Vni::new(5001 + n), u64::from(n) + 1, 0);
        if !is_entered(book, pass, &Event::Take(update)) {
            return false;
        }
    }
    true
}

// Whether all of them are journaled.
fn journals_all<L: Ledger>(alloc: Global, blank: Blank) -> Result<bool, AllocError>
    requires name { blank.name ≡ L.name }
    requires parts { (blank.parts ≡ L.parts) × (blank.parts ≡ 1) }
{
    let (mut book, mut passes) = Book::<L>::open(alloc, blank, config(0), 1)?;
    let Some(mut pass) = passes.pop() else {
        return Ok(false);
    };
    if !hears_four(&mut book, &mut pass) || !takes_twelve(&mut book, &mut pass) {
        return Ok(false);
    }
    Ok(journal(&book).octets().len() == 44 + 16 * 60)
}

// If the opening is refused memory, another book is opened.
#[test]
fn refused_growth_is_made_up_for(rt: HostRuntime) -> Result<(), Fail> {
    let first = journals_all::<Brand>(rt.alloc(), Blank::new(1));
    let is_right = match first {
        Ok(is_right) => is_right,
        Err(_) => journals_all::<Brand>(rt.alloc(), Blank::new(1))?,
    };
    assert!(rt; is_right);
    Ok(())
}
