//! The steps of edges elsewhere that are away, or back: each is entered at all edges that run.
ghost use Rattle.std.specs.Prelude.{◌≡◌, ◌&&◌};
ghost use Rattle.ev_console.specs.Turns.{step_of, is_taken, EntersAtEach, TakesTurn, TakesTurnHere};

use crate::edges::Edges;
use crate::operated::{Operated, Unreached};
use crate::reached::LocalEdges;
use crate::system_drops::NoDrops;
use ev_book::{BookRefusal, Naming};
use ev_edge::Reply;
use ev_exchange::{Sessions, Turn};
use ev_mailboxes::{OperatorCommand as Step, Running};
use std::sync::Wait;

/// Returns the step of an edge that runs.
fn step_of(turn: &Turn) -> Step
    ensures { result ≡ step_of turn.now }
{
    if turn.is_away {
        Step::Away(turn.edge)
    } else {
        Step::Back(turn.edge)
    }
}

/// Returns `true` if earlier edges took a step, and this one took it or doesn't run any more.
fn are_taken(are_earlier: bool, answer: &Result<Result<Reply, BookRefusal>, Unreached>) -> bool
    ensures { result ≡ (are_earlier && is_taken answer.now) }
{
    match answer {
        Ok(Ok(_)) => are_earlier,
        Ok(Err(_)) => false,
        Err(_) => are_earlier,
    }
}

/// Enters a step at each edge, at the first one first. Returns `true` unless one of them refused
/// it.
fn enter_at_each<O: Operated>(operated: &mut O, step: &Step) -> bool
    ensures { EntersAtEach (O.count operated.old) step.now
        (O.asked operated.old) (O.asked operated.new) result }
{
    let mut is_taken = true;
    for place in 0..operated.edges() {
        let answer = operated.enter(place + 1, step);
        is_taken = are_taken(is_taken, &answer);
    }
    is_taken
}

/// Enters the first step that is due for an edge elsewhere at each edge, for any edges that can be
/// queried. Notes it if no edge refused it; otherwise it is still due. Returns `true` if it noted a
/// step.
pub fn take_turn_with<O: Operated>(
    operated: &mut O,
    sessions: &mut Sessions,
    now: u64,
    hold: u64,
) -> bool
    ensures { TakesTurn now hold (O.count operated.old) sessions.old sessions.new
        (O.asked operated.old) (O.asked operated.new) result }
{
    match sessions.due(now, hold) {
        None => false,
        Some(turn) => {
            let is_taken = enter_at_each(operated, &step_of(&turn));
            if is_taken {
                sessions.note(&turn);
            }
            is_taken
        }
    }
}

/// Enters the first step that is due for an edge elsewhere at each edge of this process: the edge
/// is away if it has had no session for `hold` seconds, and back once it has one. Notes the step if
/// no edge refused it; otherwise it is still due. Returns `true` if it noted a step.
pub fn take_turn<'x, J: Naming, R: Wait>(
    rt: &'x R,
    running: &Running<'x, J>,
    sessions: &mut Sessions,
    now: u64,
    hold: u64,
) -> bool
    ensures { TakesTurnHere now hold sessions.old sessions.new result }
{
    let mut edges = Edges {
        many: LocalEdges {
            rt,
            running: *running,
            unlisted: None,
            system: &NoDrops,
        },
    };
    take_turn_with(&mut edges, sessions, now, hold)
}
