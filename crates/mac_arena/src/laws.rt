//! Laws of the learning table, each a function that does nothing and whose contract is the law.
ghost use Rattle.std.specs.Prelude.{◌≡◌, ◌+◌, ◌≤◌, ◌&&◌, slice_get, Some, None};
ghost use Rattle.mac_arena.specs.declared.station.Station.{Station as Named};
ghost use Rattle.mac_arena.specs.Learning.{entry_at, learnt_of, after_learn, after_pin, after_removal};
ghost use Rattle.mac_arena.specs.ListsName.{stands, ages, is_on};
ghost use Rattle.mac_arena.specs.Laws.{ChangesEntry, entry_learnt, entry_pinned, known, more_learnt, more_pinned, fewer, AreFew, is_due, due_in, unpinned_on, GoesFirst};

use crate::station::Station;
use crate::table::MacTable;

/// The effect of learning, pinning and removing a station: only this station's entry changes. The
/// law also gives the number of stations afterwards.
pub fn entries_after(table: &MacTable, key: &Station, port: u8, second: u64)
    ensures learnt { let answer = learnt_of table.now key.now port in
        ChangesEntry table.now (after_learn table.now key.now port second answer) key.now
        (entry_learnt (entry_at table.now key.now) port second answer) }
    ensures size_learnt { let answer = learnt_of table.now key.now port in
        known (after_learn table.now key.now port second answer)
        ≡ known table.now + more_learnt answer }
    ensures pinned { ChangesEntry table.now (after_pin table.now key.now port) key.now
        (entry_pinned table.now key.now port) }
    ensures size_pinned { known (after_pin table.now key.now port)
        ≡ known table.now + more_pinned table.now key.now }
    ensures removed { ChangesEntry table.now (after_removal table.now key.now) key.now None }
    ensures size_removed { known (after_removal table.now key.now) + fewer table.now key.now
        ≡ known table.now }
{}

/// No list of a table has more stations than are known.
pub fn lists_are_short(table: &MacTable)
    ensures { AreFew table.now }
{
    let _count = table.len();
}

/// Ageing removes exactly the unpinned stations whose last frame is old enough. Once the first of
/// them is removed, the others are removed as before.
pub fn going_by_age(table: &MacTable, limit: u64)
    ensures exactly { (s : Named)
        → stands (due_in table.now limit) s
        ≡ (ages (entry_at table.now s) && is_due limit (entry_at table.now s)) }
    ensures in_turn { (s : Named) → slice_get (due_in table.now limit) 0 ≡ Some s
        → GoesFirst (λ t. due_in t limit) table.now s }
{
    let _count = table.len();
}

/// The flush of a port removes exactly its unpinned stations. Once the first of them is removed,
/// the others are removed as before.
pub fn going_by_flush(table: &MacTable, port: u8)
    requires { 1 ≤ port }
    ensures exactly { (s : Named)
        → stands (unpinned_on table.now port) s
        ≡ (ages (entry_at table.now s) && is_on (entry_at table.now s) port) }
    ensures in_turn { (s : Named) → slice_get (unpinned_on table.now port) 0 ≡ Some s
        → GoesFirst (λ t. unpinned_on t port) table.now s }
{
    let _count = table.len();
}
