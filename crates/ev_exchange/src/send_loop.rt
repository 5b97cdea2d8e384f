//! Sends the updates of this process's edges on a connection: their tables first, and then the
//! updates that they announce. Between these it sends back the registers of each originator that
//! the other side names.
ghost use Rattle.std.specs.Prelude.{◌≡◌, [], None};
ghost use Rattle.ev_exchange.specs.Sending.{HasSaid};
ghost use Rattle.ev_exchange.specs.Inner.SendLoop.{Comes};
ghost use Rattle.ev_exchange.specs.SendLoop.{whose, SaysTables, PassesOn, Announces};

use crate::announcing::{Announcing, Due, EdgeTable};
use crate::sender::Sender;
use ether_wire::{Addr, Flushing};
use std::alloc::Global;
use std::sync::Wait;

/// Returns the originator whose registers are sent from a table: the named one, if there is one,
/// and otherwise the table's edge.
fn whose(named: &Option<Addr>, table: &EdgeTable) -> Addr
    ensures { result ≡ whose named.now table.now }
{
    match named {
        Some(originator) => *originator,
        None => table.address,
    }
}

/// Sends from the tables of all `edges` edges the registers of this originator, or each edge's own
/// registers if none is named. Returns `true` if all of them were sent.
fn say_tables<S: Announcing, W: Flushing>(
    alloc: Global,
    edges: u64,
    named: Option<Addr>,
    from: &mut S,
    sender: &mut Sender<W>,
) -> bool
    ensures { SaysTables edges named (S.told from.old) (S.told from.new) sender.old sender.new
        result }
{
    for place in 0..edges {
        let Some(table) = from.table(alloc, place + 1) else {
            return false;
        };
        sender.originate(whose(&named, &table), table.updates.as_slice());
        if !sender.is_open() {
            return false;
        }
    }
    true
}

/// Returns the next item. If none has come yet, it passes on what the writer holds back, and waits.
/// Returns `None` if no more items come, or if a call of the writer has failed.
fn next_item<S: Announcing, W: Flushing>(from: &mut S, sender: &mut Sender<W>) -> Option<Due>
    ensures comes { Comes (S.told from.old) (S.told from.new) sender.new result }
    ensures said { HasSaid sender.old sender.new [] }
{
    if let Some(due) = from.ready() {
        return Some(due);
    }
    sender.flush();
    if !sender.is_open() {
        return None;
    }
    from.wait(sender)
}

/// Sends each update as it is announced, and sends back the registers of each originator as it is
/// named. Ends if no more items come, if an edge returns no table, or if a call of the writer has
/// failed.
fn pass_on<S: Announcing, W: Flushing, R: Wait>(
    rt: &R,
    alloc: Global,
    edges: u64,
    from: &mut S,
    sender: &mut Sender<W>,
)
    ensures { PassesOn edges (S.told from.old) (S.told from.new) sender.old sender.new }
{
    for _ in rt.forever() {
        if !sender.is_open() {
            return;
        }
        let Some(due) = next_item(from, sender) else {
            return;
        };
        match &due {
            Due::Update(update) => sender.put(update),
            Due::Back(originator) => {
                if !say_tables(alloc, edges, Some(*originator), from, sender) {
                    return;
                }
            }
        }
    }
    unreachable!()
}

/// Sends on a connection the present own registers of each of `edges` edges, from the first edge to
/// the last, and then each update that they announce, in order. If the other side names an
/// originator, sends back the registers of that originator in the table of each edge. It ends if an
/// edge returns no table, if no more items come, or if a call of the writer has failed. Before it
/// waits for an item it flushes the writer.
pub fn announce<S: Announcing, W: Flushing, R: Wait>(
    rt: &R,
    alloc: Global,
    edges: u64,
    from: &mut S,
    sender: &mut Sender<W>,
)
    ensures { Announces edges (S.told from.old) (S.told from.new) sender.old sender.new }
{
    if say_tables(alloc, edges, None, from, sender) {
        pass_on(rt, alloc, edges, from, sender);
    }
}
