//! The octets of the frames that wait on a line, one frame after the other.
ghost use Rattle.std.specs.Prelude.{◌≡◌, ◌+◌, ◌-◌, ◌≤◌, ◌++◌, [], length, take, drop, vec_len, vec_capacity, IfOk};

use crate::parts::HALF_OCTETS;
use std::alloc::{AllocError, Global};
use std::marker::Model;

/// The most octets that may wait: those of both halves of a line.
pub(crate) const OCTETS: usize = 2 * HALF_OCTETS;

/// Octets that wait. Their model is a list, the first octet first.
///
/// There is place for twice the octets that may wait. So the waiting octets are moved to the front
/// at most once per `OCTETS` octets. They are not moved at all if the backlog becomes empty
/// meanwhile: the next octets then begin at the front again, in memory that was used just before.
#[derive(Drop)]
pub(crate) struct Backlog {
    /// Octets of present and former frames. Former ones stay until others overwrite them, so that
    /// each octet is written only once.
    octets: Vec<u8>,
    /// The place of the first waiting octet.
    start: usize,
    /// The place after the last waiting octet.
    end: usize,
}

impl Model for Backlog {
    ghost use Rattle.std.specs.Prelude.{ℕ, List, ◌-◌, ◌≤◌, take, drop, vec_len, vec_capacity};

    ghost Value = { List ℕ };

    ghost view = { λ b. take (b.end - b.start) (drop b.start b.octets.items) };

    ghost invariant = { λ b. ((b.start ≤ b.end) × (b.end ≤ vec_len b.octets))
        × ((b.end - b.start ≤ 524288) × (1048576 ≤ vec_capacity b.octets)) };
}

/// Moves the octets from `start` to `end` to the front and returns their number. The part before
/// `start` is at least as long.
fn moved(octets: &mut Vec<u8>, start: usize, end: usize) -> usize
    requires order { start ≤ end }
    requires within { end ≤ vec_len octets.old }
    requires place { end - start ≤ start }
    ensures same { take result octets.new.items ≡ take (end - start) (drop start octets.old.items) }
    ensures many { result ≡ end - start }
    ensures len { vec_len octets.new ≡ vec_len octets.old }
    ensures capacity { vec_capacity octets.new ≡ vec_capacity octets.old }
{
    let size = end - start;
    let (front, back) = octets.as_mut_slice().split_at_mut(start);
    front[..size].copy_from_slice(&back[..size]);
    size
}

/// Appends octets. The vector has room for them.
fn append(octets: &mut Vec<u8>, more: &[u8])
    requires { vec_len octets.old + length more.now ≤ vec_capacity octets.old }
    ensures items { octets.new.items ≡ octets.old.items ++ more.now }
    ensures capacity { vec_capacity octets.old ≤ vec_capacity octets.new }
{
    match octets.extend_from_slice(more) {
        Ok(()) => {}
        Err(_) => unreachable!(),
    }
}

/// Overwrites the octets from `at` on. The vector is long enough.
fn write(octets: &mut Vec<u8>, at: usize, more: &[u8])
    requires { at + length more.now ≤ vec_len octets.old }
    ensures written { take (at + length more.now) octets.new.items
        ≡ take at octets.old.items ++ more.now }
    ensures len { vec_len octets.new ≡ vec_len octets.old }
    ensures capacity { vec_capacity octets.new ≡ vec_capacity octets.old }
{
    octets[at..at + more.len()].copy_from_slice(more);
}

/// Writes octets after the first `at` ones: over former octets if there are enough, else at the end
/// of the vector, which is cut to `at` octets.
fn put_at(octets: &mut Vec<u8>, at: usize, more: &[u8])
    requires within { at ≤ vec_len octets.old }
    requires room { at + length more.now ≤ vec_capacity octets.old }
    ensures written { take (at + length more.now) octets.new.items
        ≡ take at octets.old.items ++ more.now }
    ensures len { at + length more.now ≤ vec_len octets.new }
    ensures capacity { vec_capacity octets.old ≤ vec_capacity octets.new }
{
    if at + more.len() <= octets.len() {
        write(octets, at, more);
        return;
    }
    octets.truncate(at);
    append(octets, more);
}

/// Copies these octets to the front of the buffer and returns their number.
pub(crate) fn put_front(buffer: &mut [u8], octets: &[u8]) -> usize
    requires { length octets.now ≤ length buffer.old }
    ensures front { take result buffer.new ≡ octets.now }
    ensures size { result ≡ length octets.now }
    ensures fits { result ≤ length buffer.new }
{
    let size = octets.len();
    buffer[..size].copy_from_slice(octets);
    size
}

impl Backlog {
    /// Creates an empty backlog with all the memory that it will use.
    ///
    /// # Errors
    ///
    /// `AllocError` if memory is refused.
    pub(crate) fn new(alloc: Global) -> Result<Self, AllocError>
        ensures { IfOk result (λ backlog. backlog ≡ []) }
    {
        Ok(Backlog {
            octets: Vec::with_capacity(alloc, 2 * OCTETS)?,
            start: 0,
            end: 0,
        })
    }

    /// Returns the number of octets that wait.
    pub(crate) fn len(&self) -> usize
        ensures len { result ≡ length self.now }
        ensures few { result ≤ 524288 }
    {
        self.end - self.start
    }

    /// Removes all octets.
    pub(crate) fn clear(&mut self)
        ensures { self.new ≡ [] }
    {
        self.start = 0;
        self.end = 0;
    }

    /// Appends octets. The backlog has room for them.
    pub(crate) fn append(&mut self, more: &[u8])
        requires { length self.old + length more.now ≤ 524288 }
        ensures { self.new ≡ self.old ++ more.now }
    {
        if self.end + more.len() > 2 * OCTETS {
            self.end = moved(&mut self.octets, self.start, self.end);
            self.start = 0;
        }
        put_at(&mut self.octets, self.end, more);
        self.end += more.len();
    }

    /// Takes the first `size` octets, copies them to the front of the buffer and returns their
    /// number.
    pub(crate) fn take(&mut self, size: usize, buffer: &mut [u8]) -> usize
        requires within { size ≤ length self.old }
        requires room { size ≤ length buffer.old }
        ensures front { take result buffer.new ≡ take size self.old }
        ensures fits { result ≤ length buffer.new }
        ensures rest { self.new ≡ drop size self.old }
    {
        let next = self.start + size;
        let size = put_front(buffer, &self.octets[self.start..next]);
        self.start = next;
        if next == self.end {
            self.start = 0;
            self.end = 0;
        }
        size
    }
}
