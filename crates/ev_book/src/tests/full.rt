//! A learning table of the largest size, with ample memory. No clause contains the room, so a
//! contract allows a book to answer "refused memory" at any event that takes memory.
ghost use Rattle.std.specs.Prelude.{◌≡◌};

use super::sized_config;
use crate::{Book, Pass};
use ev_edge::Event;
use std::alloc::{AllocError, Global};
use std::marker::Brand;
use std::sync::ledger::{Blank, Ledger};
use std::test::Fail;

/// The most stations of an edge.
const MOST: u32 = 65_536;

// A broadcast frame of the host 02:00:00:00 and this number.
fn frame(number: u32) -> [u8; 14] {
    let [a, b, c, d] = number.to_be_bytes();
    [
        0xff, 0xff, 0xff, 0xff, 0xff, 0xff, 0x02, 0x00, a, b, c, d, 0x08, 0x00,
    ]
}

// How many of these hosts the edge learns, and how many updates it announces then.
fn counts<L: Ledger>(book: &mut Book<L>, pass: &mut Pass<L>) -> (u32, u32) {
    let _ = book.enter(pass, &Event::PortUp(1));
    let mut learnt = 0u32;
    for number in 0..MOST {
        match book.enter(pass, &Event::Frame(1, &frame(number))) {
            Ok(reply) if reply.alert.is_none() => learnt = learnt.wrapping_add(1),
            _ => {}
        }
    }
    let mut announced = 0u32;
    for _ in 0..MOST + 2 {
        match book.enter(pass, &Event::Announce) {
            Ok(reply) if reply.announced.is_some() => announced = announced.wrapping_add(1),
            _ => {}
        }
    }
    (learnt, announced)
}

// The same by a new book.
fn counted<L: Ledger>(alloc: Global, blank: Blank) -> Result<(u32, u32), AllocError>
    requires name { blank.name ≡ L.name }
    requires parts { (blank.parts ≡ L.parts) × (blank.parts ≡ 1) }
{
    let config = sized_config(0, MOST as usize);
    let (mut book, mut passes) = Book::<L>::open(alloc, blank, config, 1)?;
    let Some(mut pass) = passes.pop() else {
        return Ok((0, 0));
    };
    Ok(counts(&mut book, &mut pass))
}

// The flood list of the one network is announced, too.
#[test]
fn a_full_learning_table_is_announced(rt: HostRuntime) -> Result<(), Fail> {
    assert_eq!(rt;
        counted::<Brand>(rt.alloc(), Blank::new(1))?,
        (MOST, MOST + 1)
    );
    Ok(())
}
