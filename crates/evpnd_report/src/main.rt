//! A program with only `evpnd report`, which uses only records and tables: it is proved and built
//! in a small part of the time of the whole program.
//!
//! `evpnd_report LIST < RECORDS`, LIST being the originators with commas.
#![tactic(auto)]

mod program;

use crate::program::{Arguments, run};
use ether_wire::{Reader, Writer};
use ev_report::Devices;
use std::io;
use std::process::ExitCode;

/// Collects the system's devices and arguments, and reports.
fn main(rt: HostRuntime) -> ExitCode {
    let line = line_of(&rt);
    let (stdout, stderr) = (rt.stdout(), rt.stderr());
    let devices = Devices {
        reader: Reader::new(rt.stdin()),
        out: Writer::new(io::writer(&stdout)),
        notes: Writer::new(io::writer(&stderr)),
    };
    let (status, _) = run(rt.alloc(), &line, devices);
    ExitCode::from(status.code())
}

/// The arguments of the system.
fn line_of(rt: &HostRuntime) -> Arguments {
    let words = match std::env::args(rt) {
        Ok(words) => words,
        Err(error) if error.kind() == io::ErrorKind::OutOfMemory => return Arguments::NoMemory,
        Err(_) => return Arguments::NotText,
    };
    match words.collect::<Vec<String>>(rt.alloc()) {
        Ok(words) => Arguments::Words(words),
        Err(_) => Arguments::NoMemory,
    }
}
