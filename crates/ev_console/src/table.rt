//! The report of an edge's table, page by page: the edge is locked for one page only, and the
//! console keeps one page only.
#![tactic(auto, using(ether_wire::proofs::Appending::with_text_twice, crate::proofs::Doing::says_put))]

ghost use Rattle.std.specs.Prelude.{◌≡◌, ◌++◌, true, Ok, is_ok};
ghost use Rattle.ether_wire.specs.Ends.{Puts};
ghost use Rattle.route_join.specs.After.{IsPage};
ghost use Rattle.route_join.specs.Table.{entries_of};
ghost use Rattle.route_join.specs.RunningReport.{texts_with, begun_by, end_text};
ghost use Rattle.ev_report.specs.Ends.{Tells};
ghost use Rattle.ev_console.specs.Answers.{ShowsTable, last_words, no_memory_text};
ghost use Rattle.ev_console.specs.Table.{last_updates};
ghost use Rattle.ev_console.specs.Inner.Answers.{Does, IsShown, next_after};

use crate::operated::{Operated, Unreached};
use crate::printing::{put_no_memory, put_unreached};
use ether_wire::{Device, Out};
use route_join::{RunningReport, UpdatePage};
use route_wire::Register;
use std::alloc::{AllocError, Global};

/// The most pages of a report, of 256 registers each.
const MOST_PAGES: u64 = 0x100_0000_0000;

/// An edge's answer to the request for a page.
type PageSeen = Result<Result<UpdatePage, AllocError>, Unreached>;

/// Writes the lines of the updates that an edge has shown, if nothing has failed. Returns `true` if
/// nothing has failed then.
fn tell_updates<W: Out>(
    is_told: bool,
    out: &mut W,
    report: &mut RunningReport,
    answer: &PageSeen,
) -> bool
    ensures told { Tells (W.end out.old) (W.end out.new) is_told result
        (texts_with report.old (entries_of (last_updates answer.now))) }
    ensures begun { result ≡ true
        → report.new ≡ begun_by report.old (entries_of (last_updates answer.now)) }
{
    if !is_told {
        return false;
    }
    match answer {
        Ok(Ok(page)) => report.put_all(out, page.updates()).is_ok(),
        Ok(Err(_)) | Err(_) => true,
    }
}

/// Writes why a report ends, unless its last page was shown.
fn put_last<W: Out>(out: &mut W, edge: u64, answer: &PageSeen) -> Result<(), Device>
    ensures { Puts (W.end out.old) (W.end out.new) (last_words edge answer.now) result }
{
    match answer {
        Ok(Ok(_)) => Ok(()),
        Ok(Err(_)) => put_no_memory(out, edge),
        Err(unreached) => put_unreached(out, edge, *unreached),
    }
}

/// Writes the end of a report: the last owner's line, and then why the report ends, unless its last
/// page was shown.
fn put_end<W: Out>(
    out: &mut W,
    report: &mut RunningReport,
    edge: u64,
    answer: &PageSeen,
) -> Result<(), Device>
    ensures { Puts (W.end out.old) (W.end out.new)
        (end_text report.old ++ last_words edge answer.now) result }
{
    report.finish(out)?;
    put_last(out, edge, answer)
}

/// Writes the end of a report, if nothing has failed. Returns `true` if nothing has failed then.
fn tell_end<W: Out>(
    is_told: bool,
    out: &mut W,
    report: &mut RunningReport,
    edge: u64,
    answer: &PageSeen,
) -> bool
    ensures { Tells (W.end out.old) (W.end out.new) is_told result
        (end_text report.old ++ last_words edge answer.now) }
{
    is_told && put_end(out, report, edge, answer).is_ok()
}

/// Returns the result of a report, of which all was written or a call of the writer failed.
fn told(is_told: bool) -> Result<(), Device>
    ensures { is_ok result ≡ is_told }
{
    if is_told { Ok(()) } else { Err(Device) }
}

/// Returns the register after which the page after this one begins, or `None` if this is the last.
fn after_page(page: &UpdatePage) -> Option<Register>
    ensures next { result ≡ next_after (Ok (Ok page.now)) }
    ensures page { IsPage page.now.after page.now.updates }
{
    if page.is_last() { None } else { page.end() }
}

/// Returns the register after which the next page begins, or `None` if no page follows.
fn next_after(answer: &PageSeen) -> Option<Register>
    ensures next { result ≡ next_after answer.now }
    ensures page { IsShown answer.now }
{
    match answer {
        Ok(Ok(page)) => after_page(page),
        Ok(Err(_)) | Err(_) => None,
    }
}

/// Requests the report of an edge's table, page after page, and writes it. Requests all pages,
/// whether or not the writer fails.
pub(crate) fn show_table<O: Operated, W: Out>(
    alloc: Global,
    operated: &mut O,
    edge: u64,
    out: &mut W,
) -> Result<(), Device>
    ensures does { Does (ShowsTable edge) (O.asked operated.old) (O.asked operated.new)
        (W.end out.old) (W.end out.new) result }
    ensures count { O.count operated.new ≡ O.count operated.old }
{
    let mut report = RunningReport::new();
    let mut after = None;
    let mut is_told = true;
    for turn in 0..MOST_PAGES {
        let answer = operated.page(alloc, edge, after);
        is_told = tell_updates(is_told, out, &mut report, &answer);
        after = next_after(&answer);
        if after.is_none() {
            is_told = tell_end(is_told, out, &mut report, edge, &answer);
            return told(is_told);
        }
    }
    is_told = tell_end(is_told, out, &mut report, edge, &Ok(Err(AllocError)));
    told(is_told)
}
