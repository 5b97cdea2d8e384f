//! Laws on migrations, as functions that do nothing: the contract is the law.
ghost use Rattle.ev_report.specs.MigrationLaws.{SameOwners, StaysAway};

/// Each MAC address has the owner after a migration that it had before, none
/// exactly where it had none.
pub fn same_owners()
    ensures { SameOwners }
{}

/// An IP address that was replaced stays away where any of the old records are read again behind
/// those that were written, but for one with the very incarnation and counter of the newest.
pub fn stays_away()
    ensures { StaysAway }
{}
