//! The answer to one line: its requests are made once, and answered in the words of a simulation.
#![tactic(auto, using(ether_wire::proofs::Appending::with_text_twice, crate::proofs::Doing::says_put))]

ghost use Rattle.std.specs.Prelude.{◌≡◌, [], true, OnOk};
ghost use Rattle.ev_report.specs.Ends.{Tells};
ghost use Rattle.ev_script.specs.Script.{command_of, line_of};
ghost use Rattle.ev_console.specs.Answers.{Steps, ShowsPort, ShowsView, ShowsEdges, Says, simulated_text, served_seen_text, AnswersCommand, AnswersWords, AnswersQuestion, AnswersLine};
ghost use Rattle.ev_console.specs.Inner.Answers.{Does, Replies};

use crate::operated::{Operated, Unreached};
use crate::printing::{
    put_bad, put_entered, put_help, put_port_seen, put_served, put_simulated, put_view_seen,
};
use crate::table::show_table;
use ether_wire::{Device, Flushing, Out};
use ev_mailboxes::{EdgeNetworks, OperatorCommand as Step};
use ev_script::{Command, Question, parse, port_number, question_of};
use ev_view::EdgeQuestion;
use std::alloc::{AllocError, Global};

/// Enters a step, and writes its result.
fn enter<O: Operated, W: Out>(
    operated: &mut O,
    edge: u64,
    step: &Step,
    out: &mut W,
) -> Result<(), Device>
    ensures does { Does (Steps edge step.now) (O.asked operated.old) (O.asked operated.new)
        (W.end out.old) (W.end out.new) result }
    ensures count { O.count operated.new ≡ O.count operated.old }
{
    let answer = operated.enter(edge, step);
    put_entered(out, edge, &answer)
}

/// Writes the state of a port.
fn show_port<O: Operated, W: Out>(
    operated: &mut O,
    edge: u64,
    port: u8,
    out: &mut W,
) -> Result<(), Device>
    ensures does { Does (ShowsPort edge port) (O.asked operated.old) (O.asked operated.new)
        (W.end out.old) (W.end out.new) result }
    ensures count { O.count operated.new ≡ O.count operated.old }
{
    let answer = operated.port(edge, port);
    put_port_seen(out, edge, port, &answer)
}

/// Writes the answer of an edge to a question.
fn show_view<O: Operated, W: Out>(
    alloc: Global,
    operated: &mut O,
    edge: u64,
    question: &EdgeQuestion,
    out: &mut W,
) -> Result<(), Device>
    ensures does { Does (ShowsView edge question.now) (O.asked operated.old) (O.asked operated.new)
        (W.end out.old) (W.end out.new) result }
    ensures count { O.count operated.new ≡ O.count operated.old }
{
    let answer = operated.view(alloc, edge, question);
    put_view_seen(out, edge, &answer)
}

/// Writes the address, ports and VNIs that an edge serves, if nothing has failed. Returns `true` if
/// nothing has failed then.
fn tell_served<W: Out>(
    is_told: bool,
    out: &mut W,
    edge: u64,
    answer: &Result<Result<EdgeNetworks, AllocError>, Unreached>,
) -> bool
    ensures { Tells (W.end out.old) (W.end out.new) is_told result
        (served_seen_text edge answer.now) }
{
    is_told && put_served(out, edge, answer).is_ok()
}

/// Writes the address, ports and VNIs that each edge serves. Queries all edges, whether or not the
/// writer fails.
fn show_edges<O: Operated, W: Out>(
    alloc: Global,
    operated: &mut O,
    out: &mut W,
) -> Result<(), Device>
    ensures does { Does (ShowsEdges (O.count operated.old)) (O.asked operated.old)
        (O.asked operated.new) (W.end out.old) (W.end out.new) result }
    ensures count { O.count operated.new ≡ O.count operated.old }
{
    let mut is_told = true;
    for place in 0..operated.edges() {
        let answer = operated.served(alloc, place + 1);
        is_told = tell_served(is_told, out, place + 1, &answer);
    }
    if is_told { Ok(()) } else { Err(Device) }
}

/// Writes that a line belongs to a simulation.
fn refuse<O: Operated, W: Out>(operated: &mut O, out: &mut W) -> Result<(), Device>
    ensures does { Does (Says simulated_text) (O.asked operated.old) (O.asked operated.new)
        (W.end out.old) (W.end out.new) result }
    ensures count { O.count operated.new ≡ O.count operated.old }
{
    put_simulated(out)
}

/// Makes the request of a command to its edge, and writes the result.
fn perform<O: Operated, W: Out>(
    alloc: Global,
    operated: &mut O,
    edge: u64,
    command: &Command<'_>,
    out: &mut W,
) -> Result<(), Device>
    ensures does { Does (AnswersCommand edge (command_of command.now)) (O.asked operated.old)
        (O.asked operated.new) (W.end out.old) (W.end out.new) result }
    ensures count { O.count operated.new ≡ O.count operated.old }
{
    match command {
        Command::Up(port) => enter(operated, edge, &Step::PortUp(port_number(*port)), out),
        Command::Down(port) => enter(operated, edge, &Step::PortDown(port_number(*port)), out),
        Command::Mcheck(port) => enter(operated, edge, &Step::Mcheck(port_number(*port)), out),
        Command::Pin(station, port) => {
            enter(
                operated,
                edge,
                &Step::Pin(*station, port_number(*port)),
                out,
            )
        }
        Command::Unpin(station) => enter(operated, edge, &Step::Unpin(*station), out),
        Command::Thaw(station) => enter(operated, edge, &Step::Thaw(*station), out),
        Command::Away(other) => enter(operated, edge, &Step::Away(*other), out),
        Command::Back(other) => enter(operated, edge, &Step::Back(*other), out),
        Command::Port(port) => show_port(operated, edge, port_number(*port), out),
        Command::Report => show_table(alloc, operated, edge, out),
        Command::Second(_) => refuse(operated, out),
        Command::Frame(_, _) => refuse(operated, out),
        Command::Tunnel(_, _) => refuse(operated, out),
        Command::Announce => refuse(operated, out),
        Command::Deliver(_) => refuse(operated, out),
        Command::Restart(_) => refuse(operated, out),
    }
}

/// Answers a line that is no question.
fn answer_words<O: Operated, W: Out>(
    alloc: Global,
    operated: &mut O,
    line: &[u8],
    out: &mut W,
) -> Result<(), Device>
    ensures does { Does (AnswersWords line.now (line_of line.now)) (O.asked operated.old)
        (O.asked operated.new) (W.end out.old) (W.end out.new) result }
    ensures count { O.count operated.new ≡ O.count operated.old }
{
    match parse(line) {
        None => put_bad(out, line),
        Some((edge, command)) => perform(alloc, operated, edge, &command, out),
    }
}

/// Answers a question.
fn answer_question<O: Operated, W: Out>(
    alloc: Global,
    operated: &mut O,
    question: Question,
    out: &mut W,
) -> Result<(), Device>
    ensures does { Does (AnswersQuestion (O.count operated.old) question) (O.asked operated.old)
        (O.asked operated.new) (W.end out.old) (W.end out.new) result }
    ensures count { O.count operated.new ≡ O.count operated.old }
{
    match question {
        Question::Help => put_help(out),
        Question::Edges => show_edges(alloc, operated, out),
        Question::OfEdge(edge, question) => show_view(alloc, operated, edge, &question, out),
    }
}

/// Answers a line.
fn answer<O: Operated, W: Out>(
    alloc: Global,
    operated: &mut O,
    line: &[u8],
    out: &mut W,
) -> Result<(), Device>
    ensures does { Does (AnswersLine (O.count operated.old) line.now) (O.asked operated.old)
        (O.asked operated.new) (W.end out.old) (W.end out.new) result }
    ensures count { O.count operated.new ≡ O.count operated.old }
{
    match question_of(line) {
        None => answer_words(alloc, operated, line, out),
        Some(question) => answer_question(alloc, operated, question, out),
    }
}

/// Answers a line, writes an empty line after the answer, and flushes the writer.
pub(crate) fn reply<O: Operated, W: Flushing>(
    alloc: Global,
    operated: &mut O,
    line: &[u8],
    out: &mut W,
) -> Result<(), Device>
    ensures does { Replies (O.count operated.old) line.now (O.asked operated.old)
        (O.asked operated.new) (W.end out.old) (W.end out.new) result }
    ensures failures { OnOk result ((W.end out.new).failures ≡ (W.end out.old).failures) }
    ensures flushed { OnOk result (W.held out.new ≡ []) }
    ensures count { O.count operated.new ≡ O.count operated.old }
{
    answer(alloc, operated, line, out)?;
    out.put(b"\n")?;
    out.flush_held()
}
