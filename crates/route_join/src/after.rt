//! The updates of a list after a register.
ghost use Rattle.std.specs.Prelude.{◌≡◌, ◌<◌, ◌≤◌, ◌+◌, length, drop};
ghost use Rattle.route_join.specs.After.{updates_after};
ghost use Rattle.route_join.specs.Group.{AreAbout};
ghost use Rattle.route_join.specs.Subject.{subject_of};
ghost use Rattle.route_join.specs.Table.{entries_of, IsOrdered};

use crate::packed_update::PackedUpdate;
use crate::place::place;
use route_wire::Register;

/// Returns the updates of a list from this place on.
fn from(updates: &[PackedUpdate], at: usize) -> &[PackedUpdate]
    requires { at ≤ length updates.now }
    ensures { result.now ≡ drop at updates.now }
{
    updates.split_at(at).1
}

/// Returns the updates of a list after this place.
fn behind(updates: &[PackedUpdate], at: usize) -> &[PackedUpdate]
    requires { at < length updates.now }
    ensures { result.now ≡ drop (at + 1) updates.now }
{
    let len = updates.len();
    if at >= len {
        return &[];
    }
    updates.split_at(at + 1).1
}

/// Returns the updates of a list whose registers come after this one of the same subject.
pub(crate) fn rest_after<'a>(updates: &'a [PackedUpdate], register: &Register) -> &'a [PackedUpdate]
    requires about { AreAbout (subject_of register.now.key) (entries_of updates.now) }
    requires ordered { IsOrdered updates.now }
    ensures { result.now ≡ updates_after register.now updates.now }
{
    match place(updates, register) {
        Ok(at) => behind(updates, at),
        Err(at) => from(updates, at),
    }
}
