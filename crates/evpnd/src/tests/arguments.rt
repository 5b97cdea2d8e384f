//! The content of the help texts: each status, number and example is that of the documents
//! (docs/routes.md, docs/configuration.md, docs/script.md, docs/running.md).

use crate::args::{ArgsError, ClapParser, Parser, invocation_of};
use crate::subcommand::{ParsedOptions, Subcommand};
use std::test::Fail;

// Whether a subcommand's help has a line of this status with these words.
fn has_status(subcommand: Subcommand, status: &str, words: &str) -> bool {
    for line in subcommand.help().lines() {
        if line.starts_with(status) {
            return line.contains(words);
        }
    }
    false
}

// Whether each of these is a status of the subcommand, with the words beside it.
fn has_statuses(subcommand: Subcommand, statuses: &[(&str, &str)]) -> bool {
    for (status, words) in statuses {
        if !has_status(subcommand, status, words) {
            return false;
        }
    }
    true
}

#[test]
fn statuses_are_those_of_the_documents(rt: HostRuntime) -> Result<(), Fail> {
    let streams = [
        ("  0  ", "read to its end"),
        ("  1  ", "fault"),
        ("  2  ", "words are wrong"),
        ("  3  ", "memory"),
        ("  4  ", "failed"),
    ];
    assert!(rt; has_statuses(Subcommand::Report, &streams));
    assert!(rt; has_statuses(Subcommand::Migrate, &streams));
    let scripts = [
        ("  0  ", "all lines were run"),
        ("  1  ", "no command"),
        ("  2  ", "fault"),
        ("  3  ", "memory"),
        ("  4  ", "can't be read"),
    ];
    assert!(rt; has_statuses(Subcommand::Simulate, &scripts));
    assert!(rt; has_statuses(Subcommand::Play, &scripts));
    let checks = [
        ("  0  ", "is right"),
        ("  1  ", "no command"),
        ("  2  ", "fault"),
        ("  3  ", "memory"),
        ("  4  ", "can't be read"),
    ];
    assert!(rt; has_statuses(Subcommand::Check, &checks));
    let runs = [
        ("  0  ", "until standard input ended"),
        ("  2  ", "fault"),
        ("  3  ", "memory or a thread"),
        ("  4  ", "can't be read"),
    ];
    assert!(rt; has_statuses(Subcommand::Run, &runs));
    assert!(rt; has_statuses(Subcommand::Serve, &runs));
    assert!(rt;
        has_statuses(
            Subcommand::Version,
            &[("  0  ", "written"), ("  4  ", "failed")]
        )
    );
    Ok(())
}

// RFC 7348 has the UDP port of VXLAN; docs/running.md has the number of clients.
#[test]
fn numbers_are_those_of_the_documents(rt: HostRuntime) -> Result<(), Fail> {
    assert!(rt; Subcommand::Run.help().contains("UDP port 4789"));
    assert!(rt;
        Subcommand::Serve
            .help()
            .contains("At most 8 are answered at once")
    );
    assert!(rt; Subcommand::Check.help().contains("what 8 clients take"));
    assert!(rt; Subcommand::Migrate.help().contains("of versions 1 and 2"));
    assert!(rt; Subcommand::Migrate.help().contains("of version 3"));
    Ok(())
}

#[test]
fn an_option_has_the_range_of_its_value(rt: HostRuntime) -> Result<(), Fail> {
    let addresses = "1 to 64 different IPv4 addresses";
    assert!(rt; ParsedOptions::Originators.value_help().contains(addresses));
    assert!(rt; ParsedOptions::Config.value_help().contains("configuration"));
    assert!(rt; ParsedOptions::Script.value_help().contains("script"));
    assert!(rt; ParsedOptions::ForRun.value_help().contains("`run`"));
    assert!(rt; ParsedOptions::ForServe.value_help().contains("`serve`"));
    Ok(())
}

#[test]
fn a_line_about_each_subcommand_is_its_own(rt: HostRuntime) -> Result<(), Fail> {
    assert!(rt; Subcommand::Report.about().contains("Report"));
    assert!(rt; Subcommand::Migrate.about().contains("version 3"));
    assert!(rt; Subcommand::Check.about().contains("configuration"));
    assert!(rt; Subcommand::Simulate.about().contains("script"));
    assert!(rt; Subcommand::Run.about().contains("run the edges"));
    Ok(())
}

#[test]
fn help_of_the_program_has_the_statuses(rt: HostRuntime) -> Result<(), Fail> {
    let alloc = rt.alloc();
    let mut words = Vec::new(alloc);
    words.push(String::from_str(alloc, "evpnd")?)?;
    words.push(String::from_str(alloc, "--help")?)?;
    let mut parser = ClapParser::new(alloc);
    let Err(ArgsError::Usage(error)) = invocation_of(&mut parser, words.as_slice()) else {
        return Err("no help".into());
    };
    let text = ClapParser::new(alloc).text_of(&error)?;
    for status in [
        "0 done",
        "1 broken input",
        "2 wrong words",
        "3 no memory",
        "4 a failed device",
    ] {
        assert!(rt; text.as_str().contains(status));
    }
    Ok(())
}
