//! EVPN edge bridges: the program.
#![tactic(auto)]

mod args;
mod check;
mod check_script;
mod configured;
mod files;
mod host;
mod program;
mod records;
mod run_file;
mod seen;
mod serve_file;
mod simulate;
mod streams;
mod subcommand;
mod version;

use crate::args::ClapParser;
use crate::files::SystemFiles;
use crate::host::{Descriptors, Host};
use crate::program::{Argv, run};
use crate::streams::{Stream, first_closed};
use ether_wire::{Device, Out, Reader, Writer, put_decimal};
use ev_report::{Devices, Status};
use ev_run::ProcessLimits;
use std::os::fd::AsFd;
use std::os::unix::fs::MetadataExt;
use std::process::ExitCode;
use std::{fs, io};

/// Collects the system's resources and arguments, and runs the subcommand. If the stack is too
/// small, reports that instead.
fn main(rt: HostRuntime) -> ExitCode {
    if let Some(size) = small_stack(&rt) {
        return tell_small_stack(&rt, size);
    }
    let descriptors = Descriptors {
        closed: closed_stream(&rt),
        limits: limits_of(&rt),
    };
    let argv = argv_of(&rt);
    let mut parser = ClapParser::new(rt.alloc());
    let mut files = SystemFiles::new(&rt);
    let (stdout, stderr) = (rt.stdout(), rt.stderr());
    let devices = Devices {
        reader: Reader::new(rt.stdin()),
        out: Writer::new(io::writer(&stdout)),
        notes: Writer::new(io::writer(&stderr)),
    };
    let host = Host {
        rt: &rt,
        alloc: rt.alloc(),
        descriptors,
    };
    let (status, _) = run(&host, &mut parser, &argv, &mut files, devices);
    ExitCode::from(status.code())
}

/// The system's error for a descriptor that isn't open (EBADF).
const NOT_OPEN: i32 = 9;

/// Returns `true` if a stream's descriptor is closed: duplicating it fails with EBADF.
fn is_closed<S: AsFd>(stream: &S) -> bool {
    match stream.as_fd().try_clone_to_owned() {
        Ok(_) => false,
        Err(error) => error.raw_os_error() == Some(NOT_OPEN),
    }
}

/// Returns the first standard stream that is closed, if one is. A file that is opened later may get
/// its number.
fn closed_stream(rt: &HostRuntime) -> Option<Stream> {
    let is_input_closed = is_closed(&rt.stdin());
    let is_output_closed = is_closed(&rt.stdout());
    first_closed(is_input_closed, is_output_closed, is_closed(&rt.stderr()))
}

/// The octets of stack that suffice for each subcommand. A run needs more than 512 KiB, and less
/// than 560 KiB (2026-11-27).
const ENOUGH_STACK: u64 = 1_048_576;

/// Returns the limit of the stack in octets if it is too low.
fn small_stack(rt: &HostRuntime) -> Option<u64> {
    let limits = fs::read_to_string(rt, "/proc/self/limits").ok()?;
    let size = limit_of(limits.as_str(), "Max stack size")?;
    if size < ENOUGH_STACK {
        Some(size)
    } else {
        None
    }
}

/// Writes that the stack is limited to this number of octets.
fn put_small_stack<N: Out>(notes: &mut N, size: u64) -> Result<(), Device> {
    notes.put(b"error: the stack is limited to ")?;
    put_decimal(notes, size / 1024)?;
    notes.put(b" KiB, and evpnd needs ")?;
    put_decimal(notes, ENOUGH_STACK / 1024)?;
    notes.put(b" KiB: raise ulimit -s\n")
}

/// Reports that the stack is too small, and returns the status.
fn tell_small_stack(rt: &HostRuntime, size: u64) -> ExitCode {
    let stderr = rt.stderr();
    let mut notes = Writer::new(io::writer(&stderr));
    match put_small_stack(&mut notes, size) {
        Ok(()) => ExitCode::from(Status::Memory.code()),
        Err(Device) => ExitCode::from(Status::Device.code()),
    }
}

/// Returns the first of the two numbers of a limit in `/proc/self/limits`.
fn limit_of(limits: &str, name: &str) -> Option<u64> {
    let (_, line) = limits.split_once(name)?;
    line.split_ascii_whitespace().next()?.parse::<u64>().ok()
}

/// Returns `true` if the process belongs to root, for whom Linux ignores the limit of threads.
fn is_root(rt: &HostRuntime) -> bool {
    match fs::metadata(rt, "/proc/self") {
        Ok(found) => found.uid() == 0,
        Err(_) => false,
    }
}

/// Returns the limits of the process, as Linux gives them in `/proc/self/limits`.
fn limits_of(rt: &HostRuntime) -> ProcessLimits {
    let Ok(limits) = fs::read_to_string(rt, "/proc/self/limits") else {
        return ProcessLimits {
            descriptors: None,
            threads: None,
        };
    };
    ProcessLimits {
        descriptors: limit_of(limits.as_str(), "Max open files"),
        threads: if is_root(rt) {
            None
        } else {
            limit_of(limits.as_str(), "Max processes")
        },
    }
}

/// Returns the system's arguments.
fn argv_of(rt: &HostRuntime) -> Argv {
    let words = match std::env::args(rt) {
        Ok(words) => words,
        Err(error) if error.kind() == io::ErrorKind::OutOfMemory => return Argv::NoMemory,
        Err(_) => return Argv::NotText,
    };
    match words.collect::<Vec<String>>(rt.alloc()) {
        Ok(words) => Argv::Words(words),
        Err(_) => Argv::NoMemory,
    }
}

#[cfg(test)]
mod tests;
