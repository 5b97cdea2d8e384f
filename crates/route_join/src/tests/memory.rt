//! Calls with refused memory: run with each allocation refused in turn, these tests pass too.
ghost use Rattle.std.specs.Prelude.{◌≡◌, ◌<◌, ◌∷◌, [], IfOk};

use crate::tests::sequences::Dice;
use crate::tests::sorted_list::Plain;
use crate::tests::{
    addr, advert, dynamic, floods, is_taken, mac, new_table, owner, plain, reports, valued, vni,
    withdrawn,
};
use crate::{Table, TakeError, Taken, Unmerged};
use ether_wire::Mac;
use route_wire::{Content, Key, Register, Update};
use std::alloc::{AllocError, Global};
use std::test::Fail;

// Returns a table of updates. An update is taken once more if memory for it was refused.
fn table_of(alloc: Global, updates: &[Update]) -> Table
    ensures { result.originators ≡ 167772161 ∷ 167772162 ∷ 167772163 ∷ 167772164 ∷ 167772169 ∷ [] }
{
    let mut table = new_table(alloc);
    for update in updates {
        if !is_taken(&mut table, update) {
            let _ = is_taken(&mut table, update);
        }
    }
    table
}

fn merged(table: &mut Table, other: &Table) -> Result<(), Unmerged>
    requires { table.old.originators ≡ other.now.originators }
    ensures { table.new.originators ≡ table.old.originators }
{
    table.merge(other)
}

// Returns an update of the next address by 10.0.0.N.
fn beside(n: u8, counter: u64, sequence: u32) -> Update
    requires { 0 < counter }
{
    Update::new(
        Register {
            originator: addr(n),
            key: Key::Mac(vni(), Mac::new(0x0200_0000_000b), None),
        },
        valued(counter, advert(false, sequence)),
    )
}

// A plain list of our updates and the first of theirs.
fn expected(
    alloc: Global,
    ours: &[Update],
    theirs: &[Update],
    joined: usize,
) -> Result<Plain, AllocError> {
    let mut plain = Plain::new(alloc);
    for update in ours {
        plain.surely_take(update)?;
    }
    for update in theirs.iter().take(joined) {
        plain.surely_take(update)?;
    }
    Ok(plain)
}

// A merge that is stopped has joined as many registers as it returns, and another one completes it.
#[test]
fn refused_merge_is_completed_by_another(rt: HostRuntime) -> Result<(), Fail> {
    let alloc = rt.alloc();
    let ours = [dynamic(1, 5, 0), dynamic(2, 1, 3)];
    let theirs = [
        floods(1, 1, advert(false, 0)),
        dynamic(1, 1, 7),
        withdrawn(2, 2),
        dynamic(3, 1, 2),
        dynamic(4, 1, 1),
        dynamic(9, 1, 0),
        beside(1, 1, 0),
        beside(2, 1, 1),
    ];
    let other = table_of(alloc, &theirs);
    let mut table = table_of(alloc, &ours);
    if let Err(stopped) = merged(&mut table, &other) {
        assert_eq!(rt; stopped.number(), 15);
        assert!(rt; expected(alloc, &ours, &theirs, stopped.joined)?.agrees_with(&table));
        let first_left = theirs.get(stopped.joined).map(|update| update.register());
        assert!(rt;
            matches!(first_left, Some(left) if table.register(left.originator, left.key).is_none())
        );
        assert_eq!(rt; merged(&mut table, &other), Ok(()));
    }
    assert!(rt; expected(alloc, &ours, &theirs, 8)?.agrees_with(&table));
    assert_eq!(rt; owner(&table), Some(addr(3)));
    Ok(())
}

// A table of random updates, which the plain list takes too.
fn random_table(alloc: Global, seed: u64, plain: &mut Plain) -> Result<Table, AllocError>
    ensures { IfOk result
        (λ t. t.originators ≡ 167772161 ∷ 167772162 ∷ 167772163 ∷ 167772164 ∷ 167772169 ∷ []) }
{
    let mut dice = Dice::new(seed);
    let mut table = new_table(alloc);
    for _step in 0..40 {
        let update = dice.update();
        if is_taken(&mut table, &update) || is_taken(&mut table, &update) {
            plain.surely_take(&update)?;
        }
    }
    Ok(table)
}

// Returns `true` if one table merged into another is the table of the updates of both.
fn merges(alloc: Global, ours: u64, theirs: u64) -> Result<bool, AllocError> {
    let mut plain = Plain::new(alloc);
    let mut table = random_table(alloc, ours, &mut plain)?;
    let other = random_table(alloc, theirs, &mut plain)?;
    if merged(&mut table, &other).is_err() && merged(&mut table, &other).is_err() {
        return Ok(false);
    }
    Ok(plain.agrees_with(&table))
}

#[test]
fn merged_tables_are_those_of_all_updates(rt: HostRuntime) -> Result<(), Fail> {
    for seed in 0..10 {
        assert!(rt; merges(rt.alloc(), seed, seed + 100)?, "seed {seed}");
        assert!(rt;
            merges(rt.alloc(), seed + 100, seed)?,
            "seed {seed}, the other way round"
        );
    }
    Ok(())
}

// After a table is built, none of these calls allocates memory, so none of them can fail for lack
// of memory.
#[test]
fn known_registers_take_no_memory(rt: HostRuntime) {
    let alloc = rt.alloc();
    let updates = [
        floods(1, 1, advert(false, 0)),
        dynamic(1, 1, 1),
        dynamic(2, 1, 2),
        beside(1, 1, 0),
    ];
    let mut table = table_of(alloc, &updates);
    for update in &updates {
        assert_eq!(rt; table.take(update), Ok(Taken::Known));
    }
    assert_eq!(rt; owner(&table), Some(addr(2)));
    assert_eq!(rt; table.take(&withdrawn(2, 2)), Ok(Taken::Newer));
    assert_eq!(rt; table.take(&dynamic(1, 2, 5)), Ok(Taken::Newer));
    assert_eq!(rt;
        table.take(&dynamic(8, 1, 0)),
        Err(TakeError::UnknownOriginator)
    );
    assert_eq!(rt; owner(&table), Some(addr(1)));
    assert_eq!(rt; table.owner(vni(), mac()), Some(addr(1)));
    assert_eq!(rt; table.flood(vni()).as_slice(), [addr(1)].as_slice());
    assert_eq!(rt; table.register(addr(2), plain()), Some(withdrawn(2, 2)));
    let report =
        b"flood 5001 10.0.0.1 1 up\nmac 5001 02:00:00:00:00:0a 10.0.0.1 2 dynamic 5\nmac 5001 02:00:00:00:00:0a 10.0.0.2 2 withdrawn\nowner 5001 02:00:00:00:00:0a 10.0.0.1\nmac 5001 02:00:00:00:00:0b 10.0.0.1 1 dynamic 0\nowner 5001 02:00:00:00:00:0b 10.0.0.1\n";
    assert!(rt; reports(&table, report));
    assert!(rt; new_table(alloc).flood(vni()).is_empty());
}
