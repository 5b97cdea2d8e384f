//! A run of the program: from its arguments, over its devices, to its status.
#![tactic(auto, using(ether_wire::proofs::Appending::with_text_twice, ether_wire::proofs::Appending::with_text_none))]

ghost use Rattle.std.specs.Prelude.{◌≡◌, ◌≢◌, ◌+◌, ◌<◌, ◌^◌, map, string_bytes, [], is_ok, if◌then◌else◌, option_map};
ghost use Rattle.ether_wire.specs.Ends.{IsOpen};
ghost use Rattle.clap.specs.Words.{fault_of};
ghost use Rattle.ev_report.specs.Ends.{AreOpen};
ghost use Rattle.evpnd.specs.Args.{program};
ghost use Rattle.evpnd.specs.Inner.Args.{parts_of};
ghost use Rattle.evpnd.specs.Files.{HasRoom};
ghost use Rattle.evpnd.specs.Checks.{desk};
ghost use Rattle.evpnd.specs.Scripts.{ChecksAll};
ghost use Rattle.evpnd.specs.Streams.{Unclosed, IsClosed};
ghost use Rattle.ev_report.specs.Failures.{failures_of};
ghost use Rattle.evpnd.specs.Program.{world, use_of, policy_of, purpose_of, not_text, RunsOpen, FollowsAs, Follows, FollowsTelling, RunsWords, RunsProgram};
ghost use Rattle.evpnd.specs.Inner.Program.{TellsFault};

use crate::args::{ArgsError, Invocation, Parser, invocation_of};
use crate::check::{CheckTarget, Purpose, check_all};
use crate::files::Files;
use crate::host::{Descriptors, Host};
use crate::records::on_records;
use crate::run_file::run_file;
use crate::serve_file::serve_file;
use crate::simulate::simulate;
use crate::streams::tell_closed;
use crate::subcommand::{Aim, Subcommand};
use crate::version::version;
use clap::Error;
use ether_wire::{In, Out};
use ev_config::Use;
use ev_report::{Devices, Failures, Status, StreamUse, tell, tell_failed, tell_words};
use ev_run::{Runtime, System, ThreadPolicy};
use ev_script::Mode;
use std::alloc::Global;

/// The system's arguments.
#[derive(Debug, Drop)]
pub(crate) enum Argv {
    /// The arguments, the first of which is the program's name.
    Words(Vec<String>),
    /// One of them isn't UTF-8.
    NotText,
    /// There was no memory for them.
    NoMemory,
}

/// Reports the fault of the arguments, with the text of `clap`.
fn tell_fault<P: Parser, N: Out>(parser: &mut P, error: &Error, notes: &mut N) -> Status
    requires parser { P.refusals parser.old + 1 < 2 ^ 64 }
    requires notes { IsOpen (N.end notes.old) }
    ensures { TellsFault (P.refusals parser.old) (P.refusals parser.new)
        (N.end notes.old) (N.end notes.new) result }
{
    match parser.text_of(error) {
        Ok(text) => tell(text.as_str().as_bytes(), notes),
        Err(_) => Status::Memory,
    }
}

/// Checks the configuration in the file at a path, and a script, for any input.
fn check_on<F: Files, R: In, W: Out, N: Out>(
    alloc: Global,
    files: &mut F,
    wanted: CheckTarget<'_>,
    devices: Devices<R, W, N>,
) -> (Status, Devices<R, W, N>)
    requires files { HasRoom (F.shelf files.old) }
    requires devices { AreOpen devices }
    ensures { ChecksAll wanted.entry.purpose wanted.entry.path.now
        (option_map (λ s. s.now) wanted.entry.script)
        (desk (F.shelf files.old) devices) (desk (F.shelf files.new) result.1) result.0 }
{
    let mut devices = devices;
    let status = check_all(alloc, files, wanted, &mut devices.out, &mut devices.notes);
    (status, devices)
}

/// Returns the purpose of a configuration, by the aim of a check.
fn use_of(aim: Aim) -> Use
    ensures { result ≡ use_of aim }
{
    match aim {
        Aim::Any | Aim::Degraded => Use::Any,
        Aim::Run => Use::Run,
        Aim::Serve => Use::Serve,
    }
}

/// Returns what a run does if the system refuses threads, by the aim of its flags.
fn policy_of(aim: Aim) -> ThreadPolicy
    ensures { result ≡ policy_of aim }
{
    match aim {
        Aim::Degraded => ThreadPolicy::RunWithout,
        _ => ThreadPolicy::RequireAll,
    }
}

/// Returns the subject of an invocation's check.
fn wanted_of<'a>(descriptors: Descriptors, invocation: &Invocation<'a>) -> CheckTarget<'a>
    ensures path { result.path ≡ invocation.now.required }
    ensures script { result.script ≡ invocation.now.optional }
    ensures purpose { result.purpose ≡ purpose_of invocation.now.aim descriptors }
{
    CheckTarget {
        path: invocation.required,
        script: invocation.optional,
        purpose: Purpose {
            wanted: use_of(invocation.aim),
            limits: descriptors.limits,
        },
    }
}

/// Runs the edges of the configuration in the file at a path, with or without clients, if no
/// standard stream was closed: a socket would get its number.
fn run_open<H: Runtime, F: Files, R: In, W: Out, N: Out + Send>(
    host: &Host<'_, H>,
    is_asked: bool,
    policy: ThreadPolicy,
    files: &mut F,
    path: &str,
    devices: Devices<R, W, N>,
) -> (Status, Devices<R, W, N>)
    requires files { HasRoom (F.shelf files.old) }
    requires devices { AreOpen devices }
    ensures { RunsOpen is_asked policy host.now.descriptors.closed path.now
        (desk (F.shelf files.old) devices) (desk (F.shelf files.new) result.1) result.0 }
{
    let system = System {
        rt: host.rt,
        alloc: host.alloc,
        policy,
    };
    match host.descriptors.closed {
        None if is_asked => serve_file(&system, files, path, devices),
        None => run_file(&system, files, path, devices),
        Some(stream) => tell_closed(stream, devices),
    }
}

/// Executes an invocation.
fn follow<H: Runtime, F: Files, R: In, W: Out, N: Out + Send>(
    host: &Host<'_, H>,
    invocation: Invocation<'_>,
    files: &mut F,
    devices: Devices<R, W, N>,
) -> (Status, Devices<R, W, N>)
    requires files { HasRoom (F.shelf files.old) }
    requires devices { AreOpen devices }
    ensures { Follows host.now.descriptors (parts_of invocation.entry)
        (desk (F.shelf files.old) devices)
        (desk (F.shelf files.new) result.1) result.0 }
{
    let alloc = host.alloc;
    let policy = policy_of(invocation.aim);
    match invocation.subcommand {
        Subcommand::Report => { on_records(alloc, StreamUse::Report, invocation.required, devices) }
        Subcommand::Migrate => {
            on_records(alloc, StreamUse::Migrate, invocation.required, devices)
        }
        Subcommand::Check => {
            check_on(
                alloc,
                files,
                wanted_of(host.descriptors, &invocation),
                devices,
            )
        }
        Subcommand::Simulate => simulate(
            alloc,
            Mode::Simulate,
            files,
            invocation.required,
            devices,
        ),
        Subcommand::Play => simulate(alloc, Mode::Play, files, invocation.required, devices),
        Subcommand::Run => {
            let is_asked = false;
            run_open(host, is_asked, policy, files, invocation.required, devices)
        }
        Subcommand::Serve => {
            let is_asked = true;
            run_open(host, is_asked, policy, files, invocation.required, devices)
        }
        Subcommand::Version => version(devices),
    }
}

/// Executes an invocation, and reports whether reading or writing failed.
fn follow_telling<H: Runtime, F: Files, R: In, W: Out, N: Out + Send>(
    host: &Host<'_, H>,
    invocation: Invocation<'_>,
    files: &mut F,
    devices: Devices<R, W, N>,
) -> (Status, Devices<R, W, N>)
    requires files { HasRoom (F.shelf files.old) }
    requires devices { AreOpen devices }
    ensures { FollowsTelling host.now.descriptors (parts_of invocation.entry)
        (desk (F.shelf files.old) devices) (desk (F.shelf files.new) result.1) result.0 }
{
    let before = Failures::of(&devices);
    let (status, devices) = follow(host, invocation, files, devices);
    (status, tell_failed(before, devices))
}

/// Runs the program with these arguments.
fn run_words<H: Runtime, P: Parser, F: Files, R: In, W: Out, N: Out + Send>(
    host: &Host<'_, H>,
    parser: &mut P,
    words: &[String],
    files: &mut F,
    devices: Devices<R, W, N>,
) -> (Status, Devices<R, W, N>)
    requires parser { P.refusals parser.old + 1 < 2 ^ 64 }
    requires files { HasRoom (F.shelf files.old) }
    requires devices { AreOpen devices }
    ensures { RunsWords host.now.descriptors (map string_bytes words.now)
        (world (P.refusals parser.old) (F.shelf files.old) devices)
        (world (P.refusals parser.new) (F.shelf files.new) result.1) result.0 }
{
    let mut devices = devices;
    match invocation_of(parser, words) {
        Ok(invocation) => follow_telling(host, invocation, files, devices),
        Err(ArgsError::Usage(error)) => {
            (tell_fault(parser, &error, &mut devices.notes), devices)
        }
        Err(ArgsError::NoMemory) => (Status::Memory, devices),
    }
}

/// Runs the program: executes the invocation of its arguments, or reports their fault on the notes.
/// It takes the devices and returns them. If reading or writing failed, the notes report it at the
/// end, unless they failed themselves.
///
/// The status is the greatest that applies: 4 if a device failed, 3 if memory was refused, 2 if the
/// arguments are invalid or request help, or a configuration is faulty, 1 if the input is broken,
/// else 0. If a standard stream is closed, edges don't start, and the status is 4.
// (its frame is large: in `main`, which names a small stack, it would not fit that stack)
#[inline(never)]
pub(crate) fn run<H: Runtime, P: Parser, F: Files, R: In, W: Out, N: Out + Send>(
    host: &Host<'_, H>,
    parser: &mut P,
    argv: &Argv,
    files: &mut F,
    devices: Devices<R, W, N>,
) -> (Status, Devices<R, W, N>)
    requires parser { P.refusals parser.old + 1 < 2 ^ 64 }
    requires files { HasRoom (F.shelf files.old) }
    requires devices { AreOpen devices }
    ensures { RunsProgram host.now.descriptors argv.now
        (world (P.refusals parser.old) (F.shelf files.old) devices)
        (world (P.refusals parser.new) (F.shelf files.new) result.1) result.0 }
{
    match argv {
        Argv::Words(words) => run_words(host, parser, words.as_slice(), files, devices),
        Argv::NotText => tell_words(b"error: a word isn't UTF-8\n", devices),
        Argv::NoMemory => (Status::Memory, devices),
    }
}
