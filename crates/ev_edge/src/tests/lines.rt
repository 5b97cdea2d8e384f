//! Worked examples as lists of lines: an edge's input, and the expected state.

use super::{import, refusal_of, route, says, seconds, sent, step, told};
use crate::{Edge, Event, Refusal};
use route_join::Taken;
use route_wire::{Content, Update};

/// A line of an example.
#[derive(Clone, Copy)]
pub(super) enum Line<'a> {
    /// An event, and the number of the alert: 0 for none.
    Told(Event<'a>, u8),
    /// An event that is refused.
    Refused(Event<'a>, Refusal),
    /// An event, and where its frame goes: the local ports, and how many edges.
    Sent(Event<'a>, Option<(u64, usize)>),
    /// An update, and the table's answer.
    Taken(Update, Taken),
    /// A broadcast of this station comes at the port: the number of the alert.
    Hear(u8, u64, u8),
    /// A frame for this station comes at the port: its local ports, and how many edges.
    Route(u8, u64, u64, usize),
    /// So many seconds pass.
    Pass(u64),
    /// The edge says this of the station, under this number.
    Says(u64, u64, Content),
    /// The edge has no update of the station.
    Silent(u64),
    /// So many stations are learnt, and this is the last number.
    Keeps(usize, u64),
}

// The table's answer to an update, if it is taken.
fn taken(edge: &mut Edge, update: Update) -> Option<Taken> {
    match step(edge, &Event::Take(update)) {
        Ok(reply) => reply.taken,
        Err(_) => None,
    }
}

// Whether it is as the line says.
fn is_so(edge: &mut Edge, line: &Line<'_>) -> bool {
    match line {
        Line::Told(event, alert) => told(edge, event) == *alert,
        Line::Refused(event, refusal) => refusal_of(step(edge, event)) == Some(*refusal),
        Line::Sent(event, place) => sent(step(edge, event)) == *place,
        Line::Taken(update, answer) => taken(edge, *update) == Some(*answer),
        Line::Hear(port, source, alert) => import(edge, *port, *source) == *alert,
        Line::Route(port, destination, local, edges) => {
            route(edge, *port, *destination) == Some((*local, *edges))
        }
        Line::Pass(count) => {
            seconds(edge, *count);
            true
        }
        Line::Says(mac, counter, content) => says(edge, *mac) == Some((*counter, *content)),
        Line::Silent(mac) => says(edge, *mac).is_none(),
        Line::Keeps(entries, counter) => edge.entries() == *entries && edge.counter() == *counter,
    }
}

/// The place of the first line that isn't as it says.
pub(super) fn first_wrong(edge: &mut Edge, lines: &[Line<'_>]) -> Option<usize> {
    for place in 0..lines.len() {
        if !is_so(edge, &lines[place]) {
            return Some(place);
        }
    }
    None
}
