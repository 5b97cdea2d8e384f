//! The place of a register in a group.
ghost use Rattle.std.specs.Prelude.{◌≡◌};
ghost use Rattle.route_wire.specs.Order.{ip_cmp, ip_order, register_cmp};
ghost use Rattle.route_join.specs.Group.{AreAbout};
ghost use Rattle.route_join.specs.Inner.Place.{place_of};
ghost use Rattle.route_join.specs.Subject.{subject_of};
ghost use Rattle.route_join.specs.Table.{entries_of, IsOrdered};

use crate::packed_update::PackedUpdate;
use route_wire::{Ip, Register};
use std::cmp::Ordering;

/// Returns the order of two IP addresses. Those of one version are compared by their numbers alone.
fn cmp_numbers(one: Ip, other: Ip) -> Ordering
    ensures { result ≡ ip_order one other }
{
    match one {
        Ip::V4(one) => match other {
            Ip::V4(other) => one.cmp(&other),
            Ip::V6(_) => Ordering::Less,
        },
        Ip::V6(one) => match other {
            Ip::V4(_) => Ordering::Greater,
            Ip::V6(other) => one.cmp(&other),
        },
    }
}

/// Returns the order of two IP addresses, none first.
#[tactic(auto, using(crate::proofs::Within::none_first, crate::proofs::Within::none_last))]
fn cmp_ips(one: Option<Ip>, other: Option<Ip>) -> Ordering
    ensures { result ≡ ip_cmp one other }
{
    match (one, other) {
        (None, None) => Ordering::Equal,
        (None, Some(_)) => Ordering::Less,
        (Some(_), None) => Ordering::Greater,
        (Some(one), Some(other)) => cmp_numbers(one, other),
    }
}

/// Returns the order of two registers of one subject. In most cases their originators decide. In a
/// walk to the first register most other registers have lower originators, so this case is checked
/// first.
#[tactic(auto, using(crate::proofs::Within::within, crate::proofs::Within::behind_lower))]
pub(crate) fn cmp_within(one: &Register, other: &Register) -> Ordering
    requires { subject_of one.now.key ≡ subject_of other.now.key }
    ensures { result ≡ register_cmp one.now other.now }
{
    if other.originator.number() < one.originator.number() {
        return Ordering::Greater;
    }
    match one.originator.cmp(&other.originator) {
        Ordering::Equal => cmp_ips(one.key.ip(), other.key.ip()),
        order => order,
    }
}

/// Returns the order of a register and that of an entry about its subject, as `cmp_within` does.
#[inline(always)]
#[tactic(auto, using(crate::proofs::Within::within, crate::proofs::Within::behind_lower))]
fn cmp_entry(one: &Register, other: &PackedUpdate) -> Ordering
    requires { subject_of one.now.key ≡ subject_of other.now.register.key }
    ensures { result ≡ register_cmp one.now other.now.register }
{
    if other.originator().number() < one.originator.number() {
        return Ordering::Greater;
    }
    match one.originator.cmp(&other.originator()) {
        Ordering::Equal => cmp_ips(one.key.ip(), other.ip()),
        order => order,
    }
}

/// Returns the place of a register among updates of its subject in the order of their registers, or
/// as `Err` the place at which it would be inserted.
#[inline(always)]
pub(crate) fn place(updates: &[PackedUpdate], register: &Register) -> Result<usize, usize>
    requires { AreAbout (subject_of register.now.key) (entries_of updates.now) }
    ensures { result ≡ place_of updates.now register.now }
{
    for (i, update) in updates.iter().enumerate() {
        match cmp_entry(register, update) {
            Ordering::Less => return Err(i),
            Ordering::Equal => return Ok(i),
            Ordering::Greater => {}
        }
    }
    Err(updates.len())
}

/// Returns what `place` returns. It compares the update at `guess` first, so a wrong guess costs
/// only time.
#[inline(always)]
#[tactic(auto, using(crate::proofs::Within::found_near))]
pub(crate) fn place_near(
    updates: &[PackedUpdate],
    register: &Register,
    guess: usize,
) -> Result<usize, usize>
    requires about { AreAbout (subject_of register.now.key) (entries_of updates.now) }
    requires ordered { IsOrdered updates.now }
    ensures { result ≡ place_of updates.now register.now }
{
    if guess < updates.len() && cmp_entry(register, &updates[guess]).is_eq() {
        return Ok(guess);
    }
    place(updates, register)
}
