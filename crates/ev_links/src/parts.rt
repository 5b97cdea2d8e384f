//! The parts of a line: how many frames and octets of each source wait.
ghost use Rattle.std.specs.Prelude.{◌≡◌, ◌+◌, ◌-◌, ◌≤◌, ◌<◌, ◌^◌, nat_le, replicate, slice_get, IfOk, IfSome, length, vec_len};
ghost use Rattle.ev_links.specs.Inner.Parts.{no_part, fits_in, with_one, without_one};

use std::alloc::{AllocError, Global};

/// The most frames that may wait from all sources in the half of a line that they share, and in all
/// parts of the other half together.
pub(crate) const HALF_FRAMES: usize = 1024;

/// The most octets that may wait in each half: 187 frames of 1,400 octets, which a link of 1 Gbit/s
/// sends in two milliseconds. Frames that wait longer than a burst lasts are late, and take memory
/// at each link.
pub(crate) const HALF_OCTETS: usize = 262_144;

/// The frames of one source that wait, and their octets.
#[derive(Clone, Copy)]
pub(crate) struct SourceQueue {
    /// The frames.
    frames: usize,
    /// Their octets.
    octets: usize,
}

impl SourceQueue {
    /// Returns a part in which nothing waits.
    fn none() -> Self
        ensures { result ≡ no_part }
    {
        SourceQueue {
            frames: 0,
            octets: 0,
        }
    }
}

/// Creates as many parts in which nothing waits.
///
/// # Errors
///
/// `AllocError` if memory is refused.
pub(crate) fn empty_parts(alloc: Global, parts: usize) -> Result<Vec<SourceQueue>, AllocError>
    ensures items { IfOk result (λ v. v.items ≡ replicate parts no_part) }
    ensures many { IfOk result (λ v. vec_len v ≡ parts) }
{
    vec![in alloc; SourceQueue::none(); parts]
}

/// Empties all parts.
pub(crate) fn empty_all(parts: &mut Vec<SourceQueue>)
    ensures items { parts.new.items ≡ replicate (vec_len parts.old) no_part }
    ensures many { vec_len parts.new ≡ vec_len parts.old }
{
    parts.fill(SourceQueue::none());
}

/// Returns `true` if `size` octets more than these are at most `room`.
#[tactic(auto, using(crate::proofs::Lines::le_moved, crate::proofs::Lines::le_past))]
fn fits(octets: usize, size: usize, room: usize) -> bool
    ensures { result ≡ nat_le (octets + size) room }
{
    if size > room {
        return false;
    }
    octets <= room - size
}

/// Returns `true` if the part of a source has room for a frame of `size` octets. A source without a
/// part has none.
pub(crate) fn fits_in(parts: &[SourceQueue], source: usize, size: usize) -> bool
    ensures { result ≡ fits_in (length parts.now) (slice_get parts.now source) size }
{
    let Some(part) = parts.get(source) else {
        return false;
    };
    part.frames < HALF_FRAMES / parts.len() && fits(part.octets, size, HALF_OCTETS / parts.len())
}

/// Counts one more frame of a source, of `size` octets.
pub(crate) fn count(parts: &mut Vec<SourceQueue>, source: usize, size: usize)
    requires { IfSome (slice_get parts.old.items source)
        (λ p. (p.frames + 1 < 2 ^ 64) × (p.octets + size < 2 ^ 64)) }
    ensures items { parts.new.items ≡ with_one source size parts.old.items }
    ensures many { vec_len parts.new ≡ vec_len parts.old }
{
    if source < parts.len() {
        let part = parts[source];
        parts[source] = SourceQueue {
            frames: part.frames + 1,
            octets: part.octets + size,
        };
    }
}

/// Counts one frame of a source less, of `size` octets.
pub(crate) fn discount(parts: &mut Vec<SourceQueue>, source: usize, size: usize)
    requires { IfSome (slice_get parts.old.items source)
        (λ p. (1 ≤ p.frames) × (size ≤ p.octets)) }
    ensures items { parts.new.items ≡ without_one source size parts.old.items }
    ensures many { vec_len parts.new ≡ vec_len parts.old }
{
    if source < parts.len() {
        let part = parts[source];
        parts[source] = SourceQueue {
            frames: part.frames - 1,
            octets: part.octets - size,
        };
    }
}
