//! Tables of a few updates: newest values, owners, flood lists, reports.
ghost use Rattle.std.specs.Prelude.{◌≡◌, ◌<◌, ◌∷◌, [], None};
ghost use Rattle.route_wire.specs.Fields.{FitsKey};

mod collisions;
mod memory;
mod sequences;
mod sorted_list;

use crate::{Table, TakeError, Taken};
use arrayvec::ArrayVec;
use ether_wire::{Addr, Mac, Out, Page, Vni};
use route_wire::{Advert, Content, Ip, Key, Register, Update, Value};
use std::alloc::Global;
use std::test::Fail;

// The address 10.0.0.N.
fn addr(n: u8) -> Addr {
    Addr::new(0x0a00_0000 + u32::from(n))
}

fn vni() -> Vni {
    Vni::new(5001)
}

fn mac() -> Mac {
    Mac::new(0x0200_0000_000a)
}

// The address's key with no IP address.
fn plain() -> Key {
    Key::Mac(vni(), mac(), None)
}

// A table that listens to 10.0.0.1 to 10.0.0.4 and 10.0.0.9.
fn new_table(alloc: Global) -> Table
    ensures { result.originators ≡ 167772161 ∷ 167772162 ∷ 167772163 ∷ 167772164 ∷ 167772169 ∷ [] }
{
    let mut originators = ArrayVec::new();
    originators.push(Addr::new(0x0a00_0001));
    originators.push(Addr::new(0x0a00_0002));
    originators.push(Addr::new(0x0a00_0003));
    originators.push(Addr::new(0x0a00_0004));
    originators.push(Addr::new(0x0a00_0009));
    Table::new(alloc, originators)
}

fn advert(is_static: bool, sequence: u32) -> Content
    ensures { result ≡ Content.Advert
        (record { is_static = is_static; sequence = sequence; label2 = None }) }
{
    Content::Advert(Advert {
        is_static,
        sequence,
        label2: None,
    })
}

fn valued(counter: u64, content: Content) -> Value
    ensures { result ≡ record { incarnation = 0; counter = counter; content = content } }
{
    Value {
        incarnation: 0,
        counter,
        content,
    }
}

// Returns an update of the address by 10.0.0.N, with no IP address.
fn said(n: u8, value: Value) -> Update
    requires { 0 < value.counter }
{
    Update::new(
        Register {
            originator: addr(n),
            key: Key::Mac(Vni::new(5001), Mac::new(0x0200_0000_000a), None),
        },
        value,
    )
}

// Returns a dynamic advert of 10.0.0.N.
fn dynamic(n: u8, counter: u64, sequence: u32) -> Update
    requires { 0 < counter }
{
    said(n, valued(counter, advert(false, sequence)))
}

fn withdrawn(n: u8, counter: u64) -> Update
    requires { 0 < counter }
{
    said(n, valued(counter, Content::Withdrawn))
}

// Returns an update of the network's flood list by 10.0.0.N.
fn floods(n: u8, counter: u64, content: Content) -> Update
    requires counted { 0 < counter }
    requires fits { FitsKey (Key.Flood 5001) content }
{
    Update::new(
        Register {
            originator: addr(n),
            key: Key::Flood(Vni::new(5001)),
        },
        valued(counter, content),
    )
}

// Returns `true` if the table's value of the address at 10.0.0.N is this one.
fn has(table: &Table, n: u8, value: Value) -> bool {
    match table.register(addr(n), plain()) {
        Some(update) => update.value() == value,
        None => false,
    }
}

fn owner(table: &Table) -> Option<Addr> {
    table.owner(vni(), mac())
}

// Returns `true` if these octets are the table's report.
fn reports(table: &Table, report: &[u8]) -> bool {
    let mut page = Page::<1024>::new();
    page.failures() == 0 && table.write_report(&mut page).is_ok() && page.octets() == report
}

#[test]
fn withdrawal_outlives_old_advert(rt: HostRuntime) -> Result<(), Fail> {
    let mut table = new_table(rt.alloc());
    assert_eq!(rt; table.take(&withdrawn(1, 2))?, Taken::Newer);
    assert_eq!(rt; table.take(&dynamic(1, 1, 0))?, Taken::Known);
    assert!(rt; has(&table, 1, valued(2, Content::Withdrawn)));
    assert_eq!(rt; owner(&table), None);
    Ok(())
}

#[test]
fn lowest_address_breaks_tie(rt: HostRuntime) -> Result<(), Fail> {
    let mut table = new_table(rt.alloc());
    assert_eq!(rt; table.take(&dynamic(2, 1, 7))?, Taken::Newer);
    assert_eq!(rt; owner(&table), Some(addr(2)));
    assert_eq!(rt; table.take(&dynamic(1, 1, 7))?, Taken::Newer);
    assert_eq!(rt; owner(&table), Some(addr(1)));
    Ok(())
}

#[test]
fn static_comes_before_sequence(rt: HostRuntime) -> Result<(), Fail> {
    let mut table = new_table(rt.alloc());
    table.take(&said(9, valued(1, advert(true, 0))))?;
    table.take(&dynamic(1, 1, 4_294_967_295))?;
    assert_eq!(rt; owner(&table), Some(addr(9)));
    Ok(())
}

#[test]
fn equal_counters_in_either_order(rt: HostRuntime) -> Result<(), Fail> {
    let mut rising = new_table(rt.alloc());
    assert_eq!(rt; rising.take(&dynamic(1, 5, 3))?, Taken::Newer);
    assert_eq!(rt; rising.take(&dynamic(1, 5, 4))?, Taken::Newer);
    assert!(rt; has(&rising, 1, valued(5, advert(false, 4))));
    let mut falling = new_table(rt.alloc());
    assert_eq!(rt; falling.take(&dynamic(1, 5, 4))?, Taken::Newer);
    assert_eq!(rt; falling.take(&dynamic(1, 5, 3))?, Taken::Known);
    assert!(rt; has(&falling, 1, valued(5, advert(false, 4))));
    Ok(())
}

#[test]
fn withdrawn_winner_gives_way(rt: HostRuntime) -> Result<(), Fail> {
    let mut table = new_table(rt.alloc());
    table.take(&dynamic(1, 1, 1))?;
    table.take(&dynamic(2, 1, 3))?;
    table.take(&dynamic(3, 1, 2))?;
    assert_eq!(rt; owner(&table), Some(addr(2)));
    table.take(&withdrawn(2, 2))?;
    assert_eq!(rt; owner(&table), Some(addr(3)));
    Ok(())
}

#[test]
fn unlisted_originator_is_refused(rt: HostRuntime) -> Result<(), Fail> {
    let mut table = new_table(rt.alloc());
    assert_eq!(rt;
        table.take(&dynamic(8, 1, 0)),
        Err(TakeError::UnknownOriginator)
    );
    assert_eq!(rt; table.register(addr(8), plain()), None);
    assert_eq!(rt; TakeError::UnknownOriginator.number(), 12);
    assert_eq!(rt; TakeError::NoMemory.number(), 15);
    Ok(())
}

#[test]
fn ip_addresses_have_registers_of_their_own(rt: HostRuntime) -> Result<(), Fail> {
    let ip = Ip::V4(Addr::new(0xc000_020a));
    let with_ip = Update::new(
        Register {
            originator: addr(1),
            key: Key::Mac(Vni::new(5001), Mac::new(0x0200_0000_000a), Some(ip)),
        },
        Value {
            incarnation: 0,
            counter: 1,
            content: advert(false, 0),
        },
    );
    let mut table = new_table(rt.alloc());
    assert_eq!(rt; table.take(&with_ip)?, Taken::Newer);
    assert_eq!(rt; table.take(&dynamic(1, 2, 0))?, Taken::Newer);
    assert_eq!(rt;
        table.register(addr(1), Key::Mac(vni(), mac(), Some(ip))),
        Some(with_ip)
    );
    assert!(rt; has(&table, 1, valued(2, advert(false, 0))));
    assert_eq!(rt; owner(&table), Some(addr(1)));
    Ok(())
}

#[test]
fn later_life_comes_before_counter(rt: HostRuntime) -> Result<(), Fail> {
    let later = Value {
        incarnation: 1,
        counter: 1,
        content: advert(false, 0),
    };
    let mut table = new_table(rt.alloc());
    assert_eq!(rt; table.take(&dynamic(1, 9, 5))?, Taken::Newer);
    assert_eq!(rt; table.take(&said(1, later))?, Taken::Newer);
    assert!(rt; has(&table, 1, later));
    let mut table = new_table(rt.alloc());
    assert_eq!(rt; table.take(&said(1, later))?, Taken::Newer);
    assert_eq!(rt; table.take(&dynamic(1, 9, 5))?, Taken::Known);
    assert!(rt; has(&table, 1, later));
    Ok(())
}

#[test]
fn flood_list_is_ascending_without_the_withdrawn(rt: HostRuntime) -> Result<(), Fail> {
    let mut table = new_table(rt.alloc());
    for n in [3, 1, 4, 2] {
        assert_eq!(rt; table.take(&floods(n, 1, advert(false, 0)))?, Taken::Newer);
    }
    assert_eq!(rt;
        table.take(&floods(4, 2, Content::Withdrawn))?,
        Taken::Newer
    );
    assert_eq!(rt;
        table.flood(vni()).as_slice(),
        [addr(1), addr(2), addr(3)].as_slice()
    );
    assert!(rt; table.flood(Vni::new(5002)).is_empty());
    Ok(())
}

#[test]
fn updates_come_in_the_order_of_a_report(rt: HostRuntime) -> Result<(), Fail> {
    let ip = Ip::V4(Addr::new(0xc000_020a));
    let with_ip = Update::new(
        Register {
            originator: addr(1),
            key: Key::Mac(Vni::new(5001), Mac::new(0x0200_0000_000a), Some(ip)),
        },
        valued(1, advert(false, 0)),
    );
    let mut table = new_table(rt.alloc());
    for update in [
        withdrawn(2, 2),
        with_ip,
        floods(3, 1, advert(false, 0)),
        dynamic(1, 1, 0),
    ] {
        table.take(&update)?;
    }
    let mut updates = table.updates_of(vni(), mac());
    assert_eq!(rt; updates.next(), Some(dynamic(1, 1, 0)));
    assert_eq!(rt; updates.next(), Some(with_ip));
    assert_eq!(rt; updates.next(), Some(withdrawn(2, 2)));
    assert_eq!(rt; updates.next(), None);
    let mut updates = table.updates();
    assert_eq!(rt; updates.next(), Some(floods(3, 1, advert(false, 0))));
    assert_eq!(rt; updates.next(), Some(dynamic(1, 1, 0)));
    assert_eq!(rt; updates.next(), Some(with_ip));
    assert_eq!(rt; updates.next(), Some(withdrawn(2, 2)));
    assert_eq!(rt; updates.next(), None);
    assert_eq!(rt; table.updates_of(Vni::new(5002), mac()).next(), None);
    Ok(())
}

// Run with each growth refused in turn: a refused update leaves the table unchanged, and is newer
// the second time.
#[test]
fn refused_growth_is_made_up_for(rt: HostRuntime) -> Result<(), Fail> {
    let mut table = new_table(rt.alloc());
    for n in [1, 2, 3, 4, 9] {
        let before = owner(&table);
        if table.take(&dynamic(n, 1, u32::from(n))) == Err(TakeError::NoMemory) {
            assert_eq!(rt; table.register(addr(n), plain()), None);
            assert_eq!(rt; owner(&table), before);
            assert_eq!(rt; table.take(&dynamic(n, 1, u32::from(n)))?, Taken::Newer);
        }
        assert_eq!(rt; owner(&table), Some(addr(n)));
    }
    for n in [1, 2, 3, 4, 9] {
        assert_eq!(rt; table.take(&dynamic(n, 2, 0))?, Taken::Newer);
    }
    assert_eq!(rt; owner(&table), Some(addr(1)));
    Ok(())
}

// Returns `true` if an update was taken.
fn is_taken(table: &mut Table, update: &Update) -> bool
    ensures { table.new.originators ≡ table.old.originators }
{
    table.take(update).is_ok()
}

// A table that has taken two updates.
fn holding(alloc: Global, one: &Update, two: &Update) -> Table
    ensures { result.originators ≡ 167772161 ∷ 167772162 ∷ 167772163 ∷ 167772164 ∷ 167772169 ∷ [] }
{
    let mut table = new_table(alloc);
    let _ = is_taken(&mut table, one);
    let _ = is_taken(&mut table, two);
    table
}

fn is_merged(mut table: Table, other: &Table) -> bool
    requires { table.originators ≡ other.now.originators }
{
    table.merge(other).is_ok()
        && reports(
            &table,
            b"mac 5001 02:00:00:00:00:0a 10.0.0.1 2 dynamic 0\nmac 5001 02:00:00:00:00:0a 10.0.0.2 2 withdrawn\nowner 5001 02:00:00:00:00:0a 10.0.0.1\n",
        )
}

#[test]
fn merged_tables_are_the_same_either_way(rt: HostRuntime) {
    let alloc = rt.alloc();
    let right = holding(alloc, &dynamic(2, 1, 3), &dynamic(1, 2, 0));
    let left = holding(alloc, &dynamic(1, 1, 1), &withdrawn(2, 2));
    assert!(rt; is_merged(holding(alloc, &dynamic(1, 1, 1), &withdrawn(2, 2)), &right));
    assert!(rt; is_merged(right, &left));
}
