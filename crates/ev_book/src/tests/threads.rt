//! Threads that share a book.
ghost use Rattle.std.specs.Prelude.{◌≡◌};

use super::{addr, config, host, said, vni};
use crate::{Book, Pass};
use ev_edge::Event;
use std::alloc::{AllocError, Global};
use std::marker::Brand;
use std::sync::ledger::{Blank, Ledger};
use std::sync::{Mutex, Wait};
use std::test::Fail;
use std::thread;
use std::thread::Threads;

/// How many calls each thread makes.
const CALLS: u32 = 250;

// The call of this number: an update, a second, an update of a stranger, or a
// port that isn't there.
fn call<L: Ledger, R: Wait>(rt: &R, book: &Mutex<Book<L>>, pass: &mut Pass<L>, number: u32) {
    let counter = u64::from(number) + 1;
    let event = match number % 4 {
        0 => Event::Take(said(1, vni(), counter, 0)),
        1 => Event::Second,
        2 => Event::Take(said(9, vni(), counter, 0)),
        _ => Event::PortUp(2),
    };
    let _ = book.lock(rt).enter(pass, &event);
}

// All calls of one thread. Gives the pass back.
fn calls<L: Ledger, R: Wait>(rt: &R, book: &Mutex<Book<L>>, pass: Pass<L>) -> Pass<L> {
    let mut pass = pass;
    for number in 0..CALLS {
        call(rt, book, &mut pass, number);
    }
    pass
}

// Whether four threads, each with a pass of its own, are all heard by one book.
fn four_are_heard<L: Ledger + Send + Sync, R: Threads + Wait + Sync>(
    rt: &R,
    alloc: Global,
    blank: Blank,
) -> Result<bool, AllocError>
    requires name { blank.name ≡ L.name }
    requires parts { (blank.parts ≡ L.parts) × (blank.parts ≡ 4) }
{
    let (book, passes) = Book::<L>::open(alloc, blank, config(0), 4)?;
    let shared = Mutex::new(book);
    let passes = thread::map_vec(rt, passes, &|pass| calls(rt, &shared, pass))?;
    let (edge, totals) = shared.into_inner().close(passes);
    for number in 0..4usize {
        if totals.of(number) != Some(u64::from(CALLS)) {
            return Ok(false);
        }
    }
    Ok(totals.of(4).is_none() && edge.table().owner(vni(), host()) == Some(addr(1)))
}

#[test]
fn each_thread_has_its_250_calls_counted(rt: HostRuntime) -> Result<(), Fail> {
    assert!(rt; four_are_heard::<Brand, HostRuntime>(&rt, rt.alloc(), Blank::new(4))?);
    Ok(())
}

// Whether a pass sees the owner of a station that it took from another edge, in a later call.
fn sees_what_it_took<L: Ledger, R: Wait>(rt: &R, book: &Mutex<Book<L>>, pass: Pass<L>) -> bool {
    let mut pass = pass;
    let taken = Event::Take(said(1, vni(), 1, 0));
    if book.lock(rt).enter(&mut pass, &taken).is_err() {
        return false;
    }
    for number in 0..20 {
        call(rt, book, &mut pass, number);
    }
    match book.lock(rt).look_owner(&pass, vni(), host()) {
        Ok(owner) => owner == Some(addr(1)),
        Err(_) => false,
    }
}

fn both_see<L: Ledger + Send + Sync, R: Threads + Wait + Sync>(
    rt: &R,
    alloc: Global,
    blank: Blank,
) -> Result<bool, AllocError>
    requires name { blank.name ≡ L.name }
    requires parts { (blank.parts ≡ L.parts) × (blank.parts ≡ 2) }
{
    let (book, passes) = Book::<L>::open(alloc, blank, config(0), 2)?;
    let shared = Mutex::new(book);
    let seen = thread::map_vec(rt, passes, &|pass| sees_what_it_took(rt, &shared, pass))?;
    Ok(seen.as_slice() == [true, true].as_slice())
}

#[test]
fn threads_see_what_they_took(rt: HostRuntime) -> Result<(), Fail> {
    assert!(rt; both_see::<Brand, HostRuntime>(&rt, rt.alloc(), Blank::new(2))?);
    Ok(())
}
