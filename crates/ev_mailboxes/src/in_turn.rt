//! The lines of alerts that come one after the other, if each accepted one is taken from the board
//! at once.
#![tactic(auto, using(ether_wire::proofs::Appending::with_text_twice, ether_wire::proofs::Appending::with_text_none))]

ghost use Rattle.std.specs.Prelude.{◌≡◌};
ghost use Rattle.ether_wire.specs.Ends.{Puts};
ghost use Rattle.ev_mailboxes.specs.InTurn.{after_sign, told_by, some_text, told_text};

use crate::alarm::Alarm;
use crate::board::{Board, Notice};
use crate::notices::put_notice;
use ether_wire::{Device, Out};

/// Writes a notice, if there is one.
fn put_some<N: Out>(notes: &mut N, edge: u64, notice: &Option<Notice>) -> Result<(), Device>
    ensures { Puts (N.end notes.old) (N.end notes.new) (some_text edge notice.now) result }
{
    match notice {
        Some(notice) => put_notice(notes, edge, notice),
        None => Ok(()),
    }
}

/// Puts an alert on a board and takes the first notice; `None` means that a second passes.
fn told_by(board: &mut Board, sign: &Option<Alarm>) -> Option<Notice>
    ensures told { result ≡ told_by sign.now board.old }
    ensures after { board.new ≡ after_sign sign.now board.old }
{
    match sign {
        Some(alarm) => {
            board.alarm(*alarm);
            board.take()
        }
        None => {
            board.second();
            None
        }
    }
}

/// Writes the lines of the edge with this number for these alerts, which come one after the other;
/// `None` means that a second passes. Each alert is written or suppressed as it comes. The last
/// line has the number of alerts that were suppressed since, if any.
///
/// # Errors
///
/// `Device` exactly if a call of the writer failed; then no further call is made.
pub fn tell_in_turn<N: Out>(notes: &mut N, edge: u64, signs: &[Option<Alarm>]) -> Result<(), Device>
    ensures { Puts (N.end notes.old) (N.end notes.new) (told_text edge signs.now) result }
{
    let mut board = Board::new();
    for sign in signs {
        let notice = told_by(&mut board, sign);
        match put_some(notes, edge, &notice) {
            Ok(()) => {}
            Err(device) => return Err(device),
        }
    }
    put_some(notes, edge, &board.take_last())
}
