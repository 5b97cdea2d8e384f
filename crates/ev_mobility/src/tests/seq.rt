//! Sequence numbers.
ghost use Rattle.std.specs.Prelude.{◌<◌};

use crate::{Seq, next_seq};
use arrayvec::ArrayVec;
use ether_wire::{Addr, Mac, Vni};
use route_join::Table;
use route_wire::{Advert, Content, Ip, Key, Register, Update, Value};
use std::alloc::Global;
use std::test::Fail;

/// The address 10.0.0.N.
fn addr(n: u8) -> Addr {
    Addr::new(0x0a00_0000 + u32::from(n))
}

fn advert(is_static: bool, sequence: u32) -> Content {
    Content::Advert(Advert {
        is_static,
        sequence,
        label2: None,
    })
}

/// 10.0.0.N sends this update of 02:00:00:00:00:0a in VNI 5001.
fn said(n: u8, ip: Option<Ip>, counter: u64, content: Content) -> Update
    requires { 0 < counter }
{
    Update::new(
        Register {
            originator: addr(n),
            key: Key::Mac(Vni::new(5001), Mac::new(0x0200_0000_000a), ip),
        },
        Value {
            incarnation: 0,
            counter,
            content,
        },
    )
}

/// A table that listens to 10.0.0.1 to 10.0.0.4.
fn new_table(alloc: Global) -> Table {
    let mut originators = ArrayVec::new();
    originators.push(Addr::new(0x0a00_0001));
    originators.push(Addr::new(0x0a00_0002));
    originators.push(Addr::new(0x0a00_0003));
    originators.push(Addr::new(0x0a00_0004));
    Table::new(alloc, originators)
}

/// The number of the next advert at 10.0.0.2.
fn next(table: &Table) -> Seq {
    next_seq(table, addr(2), Vni::new(5001), Mac::new(0x0200_0000_000a))
}

#[test]
fn first_advert_has_number_0(rt: HostRuntime) -> Result<(), Fail> {
    let mut table = new_table(rt.alloc());
    assert_eq!(rt; next(&table), Seq::Next(0));
    table.take(&said(2, None, 1, advert(false, 9)))?;
    table.take(&said(1, None, 1, Content::Withdrawn))?;
    assert_eq!(rt; next(&table), Seq::Next(0));
    Ok(())
}

#[test]
fn next_advert_is_above_all_others_whatever_their_address(rt: HostRuntime) -> Result<(), Fail> {
    let mut table = new_table(rt.alloc());
    table.take(&said(1, None, 1, advert(false, 3)))?;
    table.take(&said(3, Some(Ip::V4(addr(77))), 1, advert(false, 7)))?;
    table.take(&said(3, None, 2, advert(false, 5)))?;
    table.take(&said(2, None, 1, advert(false, 20)))?;
    assert_eq!(rt; next(&table), Seq::Next(8));
    Ok(())
}

#[test]
fn greatest_number_is_spent(rt: HostRuntime) -> Result<(), Fail> {
    let mut table = new_table(rt.alloc());
    table.take(&said(1, None, 1, advert(false, 4_294_967_294)))?;
    assert_eq!(rt; next(&table), Seq::Next(4_294_967_295));
    table.take(&said(1, None, 2, advert(false, 4_294_967_295)))?;
    assert_eq!(rt; next(&table), Seq::Spent);
    Ok(())
}

#[test]
fn static_elsewhere_comes_before_spent(rt: HostRuntime) -> Result<(), Fail> {
    let mut table = new_table(rt.alloc());
    table.take(&said(1, None, 1, advert(false, 4_294_967_295)))?;
    table.take(&said(3, None, 1, advert(true, 0)))?;
    assert_eq!(rt; next(&table), Seq::Static);
    Ok(())
}
