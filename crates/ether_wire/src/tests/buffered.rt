//! A writer that passes its octets to another writer in large pieces.
ghost use Rattle.std.specs.Prelude.{◌≡◌, ◌++◌, None, false, if◌then◌else◌};
ghost use Rattle.ether_wire.specs.Ends.{Puts, end_of};

use crate::{Buffered, Device, Out, Page};

/// A writer that counts its calls and their octets. Call `fails_at` fails.
#[derive(Drop)]
struct Calls {
    calls: u64,
    octets: usize,
    fails_at: u64,
    has_failed: bool,
}

impl Calls {
    fn failing_at(fails_at: u64) -> Self
        ensures { result.has_failed ≡ false }
    {
        Calls {
            calls: 0,
            octets: 0,
            fails_at,
            has_failed: false,
        }
    }
}

impl Out for Calls {
    ghost end = { λ w. end_of None (if w.has_failed then 1 else 0) };

    fn failures(&self) -> u64 {
        u64::from(self.has_failed)
    }

    fn put(&mut self, octets: &[u8]) -> Result<(), Device> {
        self.calls = self.calls.wrapping_add(1);
        if self.calls == self.fails_at && !self.has_failed {
            self.has_failed = true;
            return Err(Device);
        }
        self.octets = self.octets.wrapping_add(octets.len());
        Ok(())
    }
}

/// Puts the texts one after the other.
fn put_both<O: Out>(out: &mut O, first: &[u8], second: &[u8]) -> Result<(), Device>
    ensures { Puts (O.end out.old) (O.end out.new) (first.now ++ second.now) result }
{
    out.put(first)?;
    out.put(second)
}

#[test]
fn many_puts_make_few_calls(rt: HostRuntime) {
    let mut writer = Buffered::new(Calls::failing_at(0));
    for _turn in 0..1_000u64 {
        assert_eq!(rt; writer.put(&[7; 100]), Ok(()));
    }
    let (calls, result) = writer.finish();
    assert_eq!(rt; result, Ok(()));
    assert_eq!(rt; calls.octets, 100_000);
    assert_eq!(rt; calls.calls, 7);
}

#[test]
fn octets_come_in_their_order(rt: HostRuntime) {
    let mut writer = Buffered::new(Page::<20_000>::new());
    assert_eq!(rt; put_both(&mut writer, b"abc", &[7; 16_384]), Ok(()));
    assert_eq!(rt; writer.put(&[8; 16]), Ok(()));
    let (page, result) = writer.finish();
    assert_eq!(rt; result, Ok(()));
    let octets = page.octets();
    assert_eq!(rt; octets.len(), 16_403);
    assert_eq!(rt; &octets[..4], b"abc\x07".as_slice());
    assert_eq!(rt; &octets[16_385..16_389], b"\x07\x07\x08\x08".as_slice());
}

#[test]
fn longer_than_it_holds(rt: HostRuntime) {
    let mut writer = Buffered::new(Calls::failing_at(0));
    assert_eq!(rt; put_both(&mut writer, b"abc", &[7; 20_000]), Ok(()));
    let (calls, result) = writer.finish();
    assert_eq!(rt; result, Ok(()));
    assert_eq!(rt; calls.octets, 20_003);
    assert_eq!(rt; calls.calls, 2);
}

#[test]
fn failed_call_is_counted_once_and_gives_nothing_twice(rt: HostRuntime) {
    let mut writer = Buffered::new(Calls::failing_at(1));
    let result = put_both(&mut writer, &[7; 16_000], &[7; 1_000]);
    assert_eq!(rt; result, Err(Device));
    assert_eq!(rt; writer.failures(), 1);
    let (calls, result) = writer.finish();
    assert_eq!(rt; result, Ok(()));
    assert_eq!(rt; calls.calls, 1);
    assert_eq!(rt; calls.octets, 0);
}

#[test]
fn failure_at_the_end_is_told(rt: HostRuntime) {
    let mut writer = Buffered::new(Page::<2>::new());
    assert_eq!(rt; writer.put(b"abc"), Ok(()));
    let (page, result) = writer.finish();
    assert_eq!(rt; result, Err(Device));
    assert_eq!(rt; page.failures(), 1);
    assert!(rt; page.octets().is_empty());
}

#[test]
fn abandoned_octets_are_let_go(rt: HostRuntime) {
    let mut writer = Buffered::new(Page::<20>::new());
    assert_eq!(rt; writer.put(b"abc"), Ok(()));
    assert!(rt; writer.abandon().octets().is_empty());
}

#[test]
fn flushed_octets_are_passed_on(rt: HostRuntime) {
    let mut writer = Buffered::new(Page::<20>::new());
    assert_eq!(rt; writer.put(b"abc"), Ok(()));
    assert_eq!(rt; writer.flush(), Ok(()));
    assert_eq!(rt; writer.abandon().octets(), b"abc".as_slice());
}
