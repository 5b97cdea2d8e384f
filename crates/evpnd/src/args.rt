//! Reads the program's arguments as an invocation.
ghost use Rattle.std.specs.Prelude.{◌≡◌, ◌≢◌, ◌+◌, ◌<◌, ◌^◌, map, string_bytes, IfOk, OnOk, OnErr, ℕ, Option, option_map, false};
ghost use Rattle.clap.specs.Words.{app_of, found_of, kind_of, rows_of, rule_of, subcommand_rows_of, with_subcommand};
ghost use Rattle.clap.specs.declared.builder.command.Command.TheViews.{out-Command};
ghost use Rattle.evpnd.specs.Args.{option_name, needed_in, given_in, is_flagged, aim_of, aim_in, invocation_in, IsAnswer, Parses, parser_refusals, program, subcommand_app, option_rule, with_option, flag_rule, with_flag};
ghost use Rattle.evpnd.specs.Inner.Args.{parts_of, Invokes};

use crate::subcommand::{Aim, ParsedOptions, Subcommand, named};
use clap::error::ErrorKind;
use clap::{Arg, ArgAction, ArgMatches, Command, Error};
use std::alloc::{AllocError, Global};

/// The invocation of the program.
#[derive(Clone, Copy, Debug, Drop)]
pub struct Invocation<'a> {
    pub subcommand: Subcommand,
    /// The value of the subcommand's required option; empty if it has none.
    pub required: &'a str,
    /// The value of its optional option, if given.
    pub optional: Option<&'a str>,
    /// Its aim, by its flags.
    pub aim: Aim,
}

/// Why the arguments are no invocation.
#[derive(Debug, Drop)]
pub enum ArgsError {
    /// They are invalid, or request help: the message of `clap`.
    Usage(Error),
    /// There was no memory to read them.
    NoMemory,
}

/// Returns an option, required or optional.
fn option_arg<'a>(alloc: Global, option: ParsedOptions, is_required: bool) -> Arg<'a>
    ensures rule { rule_of result ≡ option_rule is_required (option_name option) }
    ensures local { result.global ≡ false }
{
    Arg::new(alloc, option.name())
        .long(option.name())
        .action(ArgAction::Set)
        .value_name(option.value_name())
        .help(option.value_help())
        .required(is_required)
}

/// Adds an option to a command, if there is one.
fn with_option<'a>(
    alloc: Global,
    command: Command<'a>,
    option: Option<ParsedOptions>,
    is_required: bool,
) -> Result<Command<'a>, AllocError>
    requires { (out-Command command).has_globals ≡ false }
    ensures app { IfOk result
        (λ c. app_of c ≡ with_option is_required option (app_of command.entry)) }
    ensures local { IfOk result (λ c. (out-Command c).has_globals ≡ false) }
{
    match option {
        None => Ok(command),
        Some(option) => command.arg(option_arg(alloc, option, is_required)),
    }
}

/// Adds a flag to a command, if there is one.
fn with_flag<'a>(
    alloc: Global,
    command: Command<'a>,
    flag: Option<ParsedOptions>,
) -> Result<Command<'a>, AllocError>
    requires { (out-Command command).has_globals ≡ false }
    ensures app { IfOk result (λ c. app_of c ≡ with_flag flag (app_of command.entry)) }
    ensures local { IfOk result (λ c. (out-Command c).has_globals ≡ false) }
{
    match flag {
        None => Ok(command),
        Some(flag) => command.arg(flag_arg(alloc, flag)),
    }
}

/// Returns a flag.
fn flag_arg<'a>(alloc: Global, flag: ParsedOptions) -> Arg<'a>
    ensures rule { rule_of result ≡ flag_rule (option_name flag) }
    ensures local { result.global ≡ false }
{
    Arg::new(alloc, flag.name())
        .long(flag.name())
        .action(ArgAction::SetTrue)
        .help(flag.value_help())
}

/// Returns a subcommand with its options.
fn subcommand_command<'a>(alloc: Global, subcommand: Subcommand) -> Result<Command<'a>, AllocError>
    ensures app { IfOk result (λ c. app_of c ≡ subcommand_app subcommand) }
    ensures local { IfOk result (λ c. (out-Command c).has_globals ≡ false) }
{
    let command = Command::new(alloc, subcommand.name())
        .about(subcommand.about())
        .after_help(subcommand.help());
    let needing = with_option(alloc, command, subcommand.needs(), true)?;
    let taking = with_option(alloc, needing, subcommand.takes(), false)?;
    let flagged = with_flag(alloc, taking, subcommand.flag())?;
    with_flag(alloc, flagged, subcommand.other_flag())
}

/// Describes the program and the help of all subcommands.
const ABOUT: &str =
    "EVPN edge bridges: the owners that route updates define, and edges that hold them";

const HELP: &str = "\
Each subcommand's --help says what it reads and prints, and its statuses: 0 done, 1 broken input,
2 wrong words or a request for help, 3 no memory, 4 a failed device. Where reading standard input or
writing standard output fails, standard error says so.

Example:
  evpnd report --originators 10.0.0.1,10.0.0.2 < records";

/// Adds a subcommand to a command.
fn add_subcommand<'a>(
    alloc: Global,
    command: Command<'a>,
    subcommand: Subcommand,
) -> Result<Command<'a>, AllocError>
    ensures { IfOk result
        (λ c. app_of c ≡ with_subcommand (app_of command.entry) (subcommand_app subcommand).top) }
{
    command.subcommand(subcommand_command(alloc, subcommand)?)
}

/// Returns the program's command.
fn program<'a>(alloc: Global) -> Result<Command<'a>, AllocError>
    ensures { IfOk result (λ c. app_of c ≡ program) }
{
    let start = Command::new(alloc, "evpnd").about(ABOUT).after_help(HELP);
    let first = add_subcommand(alloc, start, Subcommand::Report)?;
    let second = add_subcommand(alloc, first, Subcommand::Migrate)?;
    let third = add_subcommand(alloc, second, Subcommand::Check)?;
    let fourth = add_subcommand(alloc, third, Subcommand::Simulate)?;
    let fifth = add_subcommand(alloc, fourth, Subcommand::Play)?;
    let sixth = add_subcommand(alloc, fifth, Subcommand::Run)?;
    let seventh = add_subcommand(alloc, sixth, Subcommand::Serve)?;
    let command = add_subcommand(alloc, seventh, Subcommand::Version)?;
    Ok(command.subcommand_required(true))
}

/// A parser of the program's arguments, which reports their faults. It may be refused memory.
pub trait Parser {
    /// How often it was refused memory.
    ghost refusals: { Self → ℕ };

    /// Reads the arguments: the first is the program's name. An error is of the kind `OutOfMemory`
    /// exactly if memory was refused once more.
    fn parse<'a>(&mut self, words: &'a [String]) -> Result<ArgMatches<'a>, Error>
        requires { refusals self.old + 1 < 2 ^ 64 }
        ensures { Parses (map string_bytes words.entry.now)
            (refusals self.old) (refusals self.new) result };

    /// Returns the text of an error for the user. It fails exactly if memory was refused once more.
    fn text_of(&mut self, error: &Error) -> Result<String, AllocError>
        requires { refusals self.old + 1 < 2 ^ 64 }
        ensures kept { OnOk result (refusals self.new ≡ refusals self.old) }
        ensures refused { OnErr result (refusals self.new ≡ refusals self.old + 1) };
}

/// `clap`, over the program's memory.
#[derive(Debug, Drop)]
pub struct ClapParser {
    alloc: Global,
    refusals: u64,
}

impl ClapParser {
    /// Returns a parser that hasn't been refused memory yet.
    pub fn new(alloc: Global) -> ClapParser
        ensures { parser_refusals result ≡ 0 }
    {
        ClapParser { alloc, refusals: 0 }
    }
}

/// Returns the result of `clap` for the arguments.
fn matches_of<'a>(alloc: Global, words: &'a [String]) -> Result<ArgMatches<'a>, Error>
    ensures { IsAnswer (map string_bytes words.entry.now) result }
{
    program(alloc)?.try_get_matches_from(words)
}

impl Parser for ClapParser {
    ghost refusals = { parser_refusals };

    fn parse<'a>(&mut self, words: &'a [String]) -> Result<ArgMatches<'a>, Error> {
        match matches_of(self.alloc, words) {
            Ok(matches) => Ok(matches),
            Err(error) => {
                if error.kind() == ErrorKind::OutOfMemory {
                    self.refusals += 1;
                }
                Err(error)
            }
        }
    }

    fn text_of(&mut self, error: &Error) -> Result<String, AllocError> {
        match error.to_string(self.alloc) {
            Ok(text) => Ok(text),
            Err(error) => {
                self.refusals += 1;
                Err(error)
            }
        }
    }
}

/// Returns the invocation that the arguments give: the first is the program's name.
pub fn invocation_of<'a, P: Parser>(
    parser: &mut P,
    words: &'a [String],
) -> Result<Invocation<'a>, ArgsError>
    requires { P.refusals parser.old + 1 < 2 ^ 64 }
    ensures { Invokes (map string_bytes words.entry.now)
        (P.refusals parser.old) (P.refusals parser.new) result }
{
    match parser.parse(words) {
        Ok(matches) => match invocation_in(&matches) {
            Some(invocation) => Ok(invocation),
            None => unreachable!(),
        },
        Err(error) => Err(args_error_of(error)),
    }
}

/// Returns whether an error of `clap` means invalid arguments or refused memory.
fn args_error_of(error: Error) -> ArgsError
    ensures memory { kind_of error ≡ ErrorKind.OutOfMemory → result ≡ ArgsError.NoMemory }
    ensures usage { kind_of error ≢ ErrorKind.OutOfMemory → result ≡ ArgsError.Usage error }
{
    if error.kind() == ErrorKind::OutOfMemory {
        ArgsError::NoMemory
    } else {
        ArgsError::Usage(error)
    }
}

/// Returns the value of the required option, or an empty text if there is none.
fn needed_in<'a>(option: Option<ParsedOptions>, matches: &ArgMatches<'a>) -> Option<&'a str>
    ensures { option_map (λ s. s.now) result
        ≡ needed_in option (rows_of (found_of matches.now)) }
{
    match option {
        None => Some(""),
        Some(option) => matches.get_str(option.name()),
    }
}

/// Returns the value of the optional option, if it was given.
fn given_in<'a>(option: Option<ParsedOptions>, matches: &ArgMatches<'a>) -> Option<&'a str>
    ensures { option_map (λ s. s.now) result
        ≡ given_in option (rows_of (found_of matches.now)) }
{
    match option {
        None => None,
        Some(option) => matches.get_str(option.name()),
    }
}

/// Returns `true` if the optional flag was given.
fn is_flagged<'a>(flag: Option<ParsedOptions>, matches: &ArgMatches<'a>) -> bool
    ensures { result ≡ is_flagged flag (rows_of (found_of matches.now)) }
{
    match given_in(flag, matches) {
        Some(text) => text == "true",
        None => false,
    }
}

/// Returns the aim of a flag.
fn aim_of(flag: Option<ParsedOptions>) -> Aim
    ensures { result ≡ aim_of flag }
{
    match flag {
        Some(ParsedOptions::ForRun) => Aim::Run,
        Some(ParsedOptions::ForServe) => Aim::Serve,
        Some(ParsedOptions::Degraded) => Aim::Degraded,
        _ => Aim::Any,
    }
}

/// Returns the aim of a subcommand, by its flags. The other flag includes the first.
fn aim_in<'a>(subcommand: Subcommand, matches: &ArgMatches<'a>) -> Aim
    ensures { result ≡ aim_in subcommand (rows_of (found_of matches.now)) }
{
    if is_flagged(subcommand.other_flag(), matches) {
        aim_of(subcommand.other_flag())
    } else if is_flagged(subcommand.flag(), matches) {
        aim_of(subcommand.flag())
    } else {
        Aim::Any
    }
}

/// Returns the invocation at the subcommand that was used.
fn invocation_in<'a>(matches: &ArgMatches<'a>) -> Option<Invocation<'a>>
    ensures { option_map parts_of result ≡ invocation_in (subcommand_rows_of matches.now) }
{
    let (name, inner) = matches.subcommand()?;
    let subcommand = named(name)?;
    let required = needed_in(subcommand.needs(), inner)?;
    let optional = given_in(subcommand.takes(), inner);
    let aim = aim_in(subcommand, inner);
    Some(Invocation {
        subcommand,
        required,
        optional,
        aim,
    })
}
