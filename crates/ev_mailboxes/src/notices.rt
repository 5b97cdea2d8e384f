//! The lines for the operator of running edges, and the worker that writes them.
#![tactic(auto, using(ether_wire::proofs::Appending::with_text_twice, ether_wire::proofs::Appending::with_text_none))]

ghost use Rattle.std.specs.Prelude.{◌≡◌, ◌++◌, ◌∷◌, [], Option, List, codes};
ghost use Rattle.std.specs.Fmt.{decimal};
ghost use Rattle.ether_wire.specs.Ends.{Puts};
ghost use Rattle.ev_links.specs.Coming.{behind};
ghost use Rattle.ev_mailboxes.specs.Notices.{Told, alert_words, edge_text, count_text, held_text, station_text, place_text, about_text, alarm_text, notice_text, input_text, state_text, reception_text, sending_state_text, sending_text, untold_text, records_text, number_text, refused_text, news_text, TellsAll};

use crate::alarm::Alarm;
use crate::board::Notice;
use crate::receptions::{Input, Reception};
use crate::records::Refused;
use crate::sendings::Sending;
use ether_wire::{Addr, Device, Out, put_addr, put_decimal, put_mac};
use ev_mobility::Alert;
use mac_arena::Station;
use std::sync::Wait;

/// One piece of news of an edge for an operator.
#[derive(Clone, Copy, Debug, PartialEq, Eq)]
pub enum News {
    /// An alert, or a number of suppressed alerts.
    Alerts(Notice),
    /// Receiving over a link failed, or works again.
    Reception(Reception),
    /// Sends over a link have failed for a second, or work again.
    Sending(Sending),
    /// The number of changes of links that were not reported.
    Untold(u64),
    /// Records of a connection were refused. It belongs to no edge.
    Refused(Refused),
}

/// A source of news for an operator.
pub trait NoticesIn {
    /// The news that came, in order, if the source reports it: `Some` for each piece of news, with
    /// the number of its edge, and `None` for the end.
    ghost came: { Self → Option (List (Option Told)) };

    /// Waits for the next piece of news, with the number of its edge. Returns `None` at the end.
    fn next(&mut self) -> Option<(u64, News)>
        ensures { came self.new ≡ behind (came self.old) (result ∷ []) };
}

/// Returns the text for an alert.
fn alert_words(alert: Alert) -> &'static str
    ensures { result.now ≡ alert_words alert }
{
    match alert {
        Alert::StaticElsewhere => "static at another edge",
        Alert::SequenceSpent => "sequence numbers spent",
        Alert::Duplicate => "duplicate",
        Alert::LostStatic => "lost a pinned station",
        Alert::CounterSpent => "counter spent",
        Alert::TableFull => "learning table full",
        Alert::PortFull(_) => "too many stations",
        Alert::PortBusy(_) => "too many new stations",
        Alert::PortStorm(_) => "too many group or unknown frames",
        Alert::NoMemory => "no memory",
    }
}

/// Writes `edge E: `.
fn put_edge<N: Out>(notes: &mut N, edge: u64) -> Result<(), Device>
    ensures { Puts (N.end notes.old) (N.end notes.new) (edge_text edge) result }
{
    notes.put(b"edge ")?;
    put_decimal(notes, edge)?;
    notes.put(b": ")
}

/// Writes `N more alerts were held back`.
fn put_count<N: Out>(notes: &mut N, held: u64) -> Result<(), Device>
    ensures { Puts (N.end notes.old) (N.end notes.new) (count_text held) result }
{
    put_decimal(notes, held)?;
    notes.put(b" more alerts were held back\n")
}

/// Writes the number of suppressed alerts, if it isn't 0.
fn put_held<N: Out>(notes: &mut N, edge: u64, held: u64) -> Result<(), Device>
    ensures { Puts (N.end notes.old) (N.end notes.new) (held_text edge held) result }
{
    if held == 0 {
        return Ok(());
    }
    put_edge(notes, edge)?;
    put_count(notes, held)
}

/// Writes ` VNI MAC`, if there is a station.
fn put_station<N: Out>(notes: &mut N, station: &Option<Station>) -> Result<(), Device>
    ensures { Puts (N.end notes.old) (N.end notes.new) (station_text station.now) result }
{
    let Some(station) = station else {
        return Ok(());
    };
    notes.put(b" ")?;
    put_decimal(notes, u64::from(station.vni.number()))?;
    notes.put(b" ")?;
    put_mac(notes, station.mac)
}

/// Writes ` on port P`, if there is a port, and the end of the line.
fn put_place<N: Out>(notes: &mut N, port: Option<u8>) -> Result<(), Device>
    ensures { Puts (N.end notes.old) (N.end notes.new) (place_text port) result }
{
    let Some(port) = port else {
        return notes.put(b"\n");
    };
    notes.put(b" on port ")?;
    put_decimal(notes, u64::from(port))?;
    notes.put(b"\n")
}

/// Writes `edge E: WORDS VNI MAC on port P`, without the parts for a station or port that the alert
/// doesn't have.
fn put_alarm<N: Out>(notes: &mut N, edge: u64, alarm: &Alarm) -> Result<(), Device>
    ensures { Puts (N.end notes.old) (N.end notes.new) (alarm_text edge alarm.now) result }
{
    put_edge(notes, edge)?;
    notes.put(alert_words(alarm.alert).as_bytes())?;
    put_station(notes, &alarm.station)?;
    put_place(notes, alarm.port)
}

/// Writes the alert of a notice, if it has one.
fn put_about<N: Out>(notes: &mut N, edge: u64, alarm: &Option<Alarm>) -> Result<(), Device>
    ensures { Puts (N.end notes.old) (N.end notes.new) (about_text edge alarm.now) result }
{
    match alarm {
        Some(alarm) => put_alarm(notes, edge, alarm),
        None => Ok(()),
    }
}

/// Writes a notice of the edge with this number, and flushes the writer.
///
/// # Errors
///
/// `Device` exactly if a call of the writer failed; then no further call is made.
pub fn put_notice<N: Out>(notes: &mut N, edge: u64, notice: &Notice) -> Result<(), Device>
    ensures { Puts (N.end notes.old) (N.end notes.new) (notice_text edge notice.now) result }
{
    put_held(notes, edge, notice.held)?;
    put_about(notes, edge, &notice.alarm)?;
    notes.flush()
}

/// Writes `port P`, `tunnel` or `clock`.
fn put_input<N: Out>(notes: &mut N, input: Input) -> Result<(), Device>
    ensures { Puts (N.end notes.old) (N.end notes.new) (input_text input) result }
{
    match input {
        Input::Port(port) => {
            notes.put(b"port ")?;
            put_decimal(notes, u64::from(port))
        }
        Input::Tunnel => notes.put(b"tunnel"),
        Input::Clock => notes.put(b"clock"),
    }
}

/// Writes that receiving failed, or works again, and the end of the line.
fn put_state<N: Out>(notes: &mut N, works: bool) -> Result<(), Device>
    ensures { Puts (N.end notes.old) (N.end notes.new) (state_text works) result }
{
    if works {
        notes.put(b": receiving again\n")
    } else {
        notes.put(b": receiving failed\n")
    }
}

/// Writes `edge E INPUT: receiving failed`, or that it works again.
fn put_reception<N: Out>(notes: &mut N, edge: u64, reception: Reception) -> Result<(), Device>
    ensures { Puts (N.end notes.old) (N.end notes.new) (reception_text edge reception) result }
{
    notes.put(b"edge ")?;
    put_decimal(notes, edge)?;
    notes.put(b" ")?;
    put_input(notes, reception.input)?;
    put_state(notes, reception.works)
}

/// Writes that sends failed, or work again, and the end of the line.
fn put_sending_state<N: Out>(notes: &mut N, works: bool) -> Result<(), Device>
    ensures { Puts (N.end notes.old) (N.end notes.new) (sending_state_text works) result }
{
    if works {
        notes.put(b": sending again\n")
    } else {
        notes.put(b": sending failed\n")
    }
}

/// Writes `edge E OUTPUT: sending failed`, or that it works again.
fn put_sending<N: Out>(notes: &mut N, edge: u64, sending: Sending) -> Result<(), Device>
    ensures { Puts (N.end notes.old) (N.end notes.new) (sending_text edge sending) result }
{
    notes.put(b"edge ")?;
    put_decimal(notes, edge)?;
    notes.put(b" ")?;
    put_input(notes, sending.output)?;
    put_sending_state(notes, sending.works)
}

/// Writes `edge E: receiving failed or was there again N more times`.
fn put_untold<N: Out>(notes: &mut N, edge: u64, count: u64) -> Result<(), Device>
    ensures { Puts (N.end notes.old) (N.end notes.new) (untold_text edge count) result }
{
    put_edge(notes, edge)?;
    notes.put(b"receiving failed or was there again ")?;
    put_decimal(notes, count)?;
    notes.put(b" more times\n")
}

/// Writes `records of ORIGINATOR: WORDS`.
fn put_records_of<N: Out>(notes: &mut N, originator: Addr, words: &[u8]) -> Result<(), Device>
    ensures { Puts (N.end notes.old) (N.end notes.new) (records_text originator words.now) result }
{
    notes.put(b"records of ")?;
    put_addr(notes, originator)?;
    notes.put(b": ")?;
    notes.put(words)
}

/// Writes `records: refused NUMBER`.
fn put_number<N: Out>(notes: &mut N, number: u64) -> Result<(), Device>
    ensures { Puts (N.end notes.old) (N.end notes.new) (number_text number) result }
{
    notes.put(b"records: refused ")?;
    put_decimal(notes, number)?;
    notes.put(b"\n")
}

/// Writes why records were refused.
fn put_refused<N: Out>(notes: &mut N, refused: Refused) -> Result<(), Device>
    ensures { Puts (N.end notes.old) (N.end notes.new) (refused_text refused) result }
{
    match refused {
        Refused::Record(number) => put_number(notes, u64::from(number)),
        Refused::Unlisted(originator) => put_records_of(
            notes,
            originator,
            b"dropped; no [[edge]] and no [[peer]] has this address\n",
        ),
        Refused::Outlived(originator) => put_records_of(
            notes,
            originator,
            b"older than those of its earlier life; raise its incarnation there\n",
        ),
        Refused::OwnOutlived(originator) => put_records_of(
            notes,
            originator,
            b"a peer holds newer ones of its earlier life; raise its incarnation here\n",
        ),
    }
}

/// Writes a piece of news of the edge with this number, and flushes the writer.
///
/// # Errors
///
/// `Device` exactly if a call of the writer failed; then no further call is made.
fn put_news<N: Out>(notes: &mut N, edge: u64, news: &News) -> Result<(), Device>
    ensures { Puts (N.end notes.old) (N.end notes.new) (news_text edge news.now) result }
{
    match news {
        News::Alerts(notice) => put_notice(notes, edge, notice),
        News::Reception(reception) => {
            put_reception(notes, edge, *reception)?;
            notes.flush()
        }
        News::Sending(sending) => {
            put_sending(notes, edge, *sending)?;
            notes.flush()
        }
        News::Untold(count) => {
            put_untold(notes, edge, *count)?;
            notes.flush()
        }
        News::Refused(refused) => {
            put_refused(notes, *refused)?;
            notes.flush()
        }
    }
}

/// Writes the operator's news, until no more comes or a call of the writer fails.
///
/// # Errors
///
/// `Device` exactly if a call of the writer failed; then no further call is made.
pub fn notice_worker<A: NoticesIn, N: Out, R: Wait>(
    rt: &R,
    notices: &mut A,
    notes: &mut N,
) -> Result<(), Device>
    ensures { TellsAll (A.came notices.old) (N.end notes.old) (A.came notices.new)
        (N.end notes.new) result }
{
    for _ in rt.forever() {
        let Some((edge, news)) = notices.next() else {
            return Ok(());
        };
        match put_news(notes, edge, &news) {
            Ok(()) => {}
            Err(device) => return Err(device),
        }
    }
    unreachable!()
}
