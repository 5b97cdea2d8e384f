//! A run of the program: from its words, over its devices, to its status.
ghost use Rattle.std.specs.Prelude.{map, string_bytes};
ghost use Rattle.ev_report.specs.Ends.{AreOpen};
ghost use Rattle.evpnd_report.specs.Program.{ReportsTelling, ReportsWords, ReportsLine};

use ether_wire::{In, Out};
use ev_report::{Devices, Failures, Status, StreamUse, tell_failed, tell_words, use_records};
use std::alloc::Global;

/// The arguments of the system.
#[derive(Debug, Drop)]
pub(crate) enum Arguments {
    /// The words, of which the first is the program's name.
    Words(Vec<String>),
    /// One of them isn't UTF-8.
    NotText,
    /// There was no memory for them.
    NoMemory,
}

/// Reports the records of the originators of a list, and prints whether reading or writing failed.
fn report_telling<R: In, W: Out, N: Out>(
    alloc: Global,
    list: &str,
    devices: Devices<R, W, N>,
) -> (Status, Devices<R, W, N>)
    requires { AreOpen devices }
    ensures { ReportsTelling list.now devices result.1 result.0 }
{
    let before = Failures::of(&devices);
    let (status, devices) = use_records(alloc, StreamUse::Report, list, devices);
    (status, tell_failed(before, devices))
}

/// A run over these words.
fn run_words<R: In, W: Out, N: Out>(
    alloc: Global,
    words: &[String],
    devices: Devices<R, W, N>,
) -> (Status, Devices<R, W, N>)
    requires { AreOpen devices }
    ensures { ReportsWords (map string_bytes words.now) devices result.1 result.0 }
{
    match words {
        [_name, list] => report_telling(alloc, list.as_str(), devices),
        _ => tell_words(b"usage: evpnd_report LIST\n", devices),
    }
}

/// Runs the program: reports the records of its input, or prints the fault of its arguments on the
/// notes. It takes the devices and returns them. If reading or writing failed, the last line of the
/// notes reports it, unless the notes failed themselves.
///
/// The status is the greatest that applies: 4 if a device failed, 3 if memory was refused, 2 if
/// the words aren't one list of originators, 1 if the input is broken, else 0.
pub(crate) fn run<R: In, W: Out, N: Out>(
    alloc: Global,
    line: &Arguments,
    devices: Devices<R, W, N>,
) -> (Status, Devices<R, W, N>)
    requires { AreOpen devices }
    ensures { ReportsLine line.now devices result.1 result.0 }
{
    match line {
        Arguments::Words(words) => run_words(alloc, words.as_slice(), devices),
        Arguments::NotText => tell_words(b"error: a word isn't UTF-8\n", devices),
        Arguments::NoMemory => (Status::Memory, devices),
    }
}
