//! Queries in a script that is played: they print the state of the edges, and no step changes it.
ghost use Rattle.std.specs.Prelude.{◌≡◌};
ghost use Rattle.ev_script.specs.Script.{question_alone, question_with, edge_question_of, of_edge, question_of};

use crate::script::parsing::{number, station};
use ether_wire::{Vni, parted};
use ev_view::EdgeQuestion;

/// A query.
#[derive(Clone, Copy, Debug)]
pub enum Question {
    /// Which kinds of lines exist.
    Help,
    /// Which edges exist.
    Edges,
    /// A query about the edge of this number. The edge may not exist.
    OfEdge(u64, EdgeQuestion),
}

/// Reads a query about one edge that is only a verb.
fn question_alone(text: &[u8]) -> Option<EdgeQuestion>
    ensures { result ≡ question_alone text.now }
{
    if text == b"counts".as_slice() {
        return Some(EdgeQuestion::Counts);
    }
    if text == b"stations".as_slice() {
        return Some(EdgeQuestion::Stations(None));
    }
    if text == b"peers".as_slice() {
        return Some(EdgeQuestion::Peers);
    }
    if text == b"links".as_slice() {
        return Some(EdgeQuestion::Links);
    }
    None
}

/// Reads a query about one edge by its verb and the text after it.
fn question_with(verb: &[u8], text: &[u8]) -> Option<EdgeQuestion>
    ensures { result ≡ question_with verb.now text.now }
{
    if verb == b"owner".as_slice() {
        return Some(EdgeQuestion::Owner(station(text)?));
    }
    if verb == b"stations".as_slice() {
        let vni = Vni::read_text(text)?;
        return Some(EdgeQuestion::Stations(Some(vni)));
    }
    None
}

/// Reads a query about one edge from the part of a line after the edge's number, or returns
/// `None` if it is none. It allocates no memory.
pub fn edge_question_of(text: &[u8]) -> Option<EdgeQuestion>
    ensures { result ≡ edge_question_of text.now }
{
    match parted(b' ', text) {
        None => question_alone(text),
        Some((verb, rest)) => question_with(verb, rest),
    }
}

/// Reads the edge and the query of words with one space between them.
fn of_edge(line: &[u8]) -> Option<Question>
    ensures { result ≡ of_edge line.now }
{
    let (edge, rest) = parted(b' ', line)?;
    let edge = number(edge)?;
    Some(Question::OfEdge(edge, edge_question_of(rest)?))
}

/// Returns the query of a line, if it is one. It allocates no memory.
pub fn question_of(line: &[u8]) -> Option<Question>
    ensures { result ≡ question_of line.now }
{
    if line == b"help".as_slice() {
        return Some(Question::Help);
    }
    if line == b"edges".as_slice() {
        return Some(Question::Edges);
    }
    of_edge(line)
}
