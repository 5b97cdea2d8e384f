//! The program's subcommands: their options, and their help texts.
ghost use Rattle.std.specs.Prelude.{◌≡◌};
ghost use Rattle.evpnd.specs.Args.{name_of, option_name, needs_of, takes_of, flag_of, other_flag_of, named};

/// A subcommand of the program.
#[derive(Clone, Copy, Debug, PartialEq, Eq)]
pub enum Subcommand {
    /// `evpnd report --originators LIST`
    Report,
    /// `evpnd migrate --originators LIST`
    Migrate,
    /// `evpnd check --config FILE`, perhaps with `--script FILE`, with `--run` or `--serve`
    Check,
    /// `evpnd simulate --config FILE`
    Simulate,
    /// `evpnd play --config FILE`
    Play,
    /// `evpnd run --config FILE`, perhaps with `--degraded`
    Run,
    /// `evpnd serve --config FILE`, perhaps with `--degraded`
    Serve,
    /// `evpnd version`
    Version,
}

/// The options of a subcommand.
#[derive(Clone, Copy, Debug, PartialEq, Eq)]
pub(crate) enum ParsedOptions {
    /// `--originators LIST`
    Originators,
    /// `--config FILE`
    Config,
    /// `--script FILE`
    Script,
    /// `--run`
    ForRun,
    /// `--serve`
    ForServe,
    /// `--degraded`
    Degraded,
}

/// The aim of a subcommand, by its flags.
#[derive(Clone, Copy, Debug, PartialEq, Eq)]
pub enum Aim {
    /// Nothing besides.
    Any,
    /// A check for a run: `--run`.
    Run,
    /// A check for a run whose edges answer queries meanwhile: `--serve`.
    Serve,
    /// A run that begins even if the system refuses threads: `--degraded`.
    Degraded,
}

impl Subcommand {
    /// Returns its name.
    pub(crate) fn name<'a>(self) -> &'a str
        ensures { result.now ≡ name_of self }
    {
        match self {
            Subcommand::Report => "report",
            Subcommand::Migrate => "migrate",
            Subcommand::Check => "check",
            Subcommand::Simulate => "simulate",
            Subcommand::Play => "play",
            Subcommand::Run => "run",
            Subcommand::Serve => "serve",
            Subcommand::Version => "version",
        }
    }

    /// Returns the option that it requires, if there is one.
    pub(crate) fn needs(self) -> Option<ParsedOptions>
        ensures { result ≡ needs_of self }
    {
        match self {
            Subcommand::Report | Subcommand::Migrate => Some(ParsedOptions::Originators),
            Subcommand::Check
            | Subcommand::Simulate
            | Subcommand::Play
            | Subcommand::Run
            | Subcommand::Serve => Some(ParsedOptions::Config),
            Subcommand::Version => None,
        }
    }

    /// Returns the option that it allows besides, if there is one.
    pub(crate) fn takes(self) -> Option<ParsedOptions>
        ensures { result ≡ takes_of self }
    {
        match self {
            Subcommand::Check => Some(ParsedOptions::Script),
            _ => None,
        }
    }

    /// Returns the flag that it allows, if there is one.
    pub(crate) fn flag(self) -> Option<ParsedOptions>
        ensures { result ≡ flag_of self }
    {
        match self {
            Subcommand::Check => Some(ParsedOptions::ForRun),
            Subcommand::Run | Subcommand::Serve => Some(ParsedOptions::Degraded),
            _ => None,
        }
    }

    /// Returns the other flag that it allows, if there is one.
    pub(crate) fn other_flag(self) -> Option<ParsedOptions>
        ensures { result ≡ other_flag_of self }
    {
        match self {
            Subcommand::Check => Some(ParsedOptions::ForServe),
            _ => None,
        }
    }

    /// Returns its effect, in a line.
    pub(crate) fn about<'a>(self) -> &'a str {
        match self {
            Subcommand::Report => "Report the table that a stream of route updates defines",
            Subcommand::Migrate => "Write records of versions 1 and 2 anew in version 3",
            Subcommand::Check => "Tell whether a configuration is right, or where it is wrong",
            Subcommand::Simulate => "Run a script of events on the edges of a configuration",
            Subcommand::Play => "Simulate, and print each command before what becomes of it",
            Subcommand::Run => "Carry frames: run the edges of a configuration over UDP sockets",
            Subcommand::Serve => "Run edges, and answer who asks them at a control socket",
            Subcommand::Version => "Print the version, and whether this program is proved",
        }
    }

    /// Returns its input and output, its statuses, and an example.
    pub(crate) fn help<'a>(self) -> &'a str {
        match self {
            Subcommand::Report => {
                "\
Reads update records on standard input, up to its end or to the first fault. Then standard output
has the report of the records that were taken: a line for each register, and each MAC's owner.
Standard error has a line for each record that wasn't taken, and one for what broke the stream off.

Status, the greatest that applies:
  0  the input was read to its end
  1  it shows a fault, or ends within a record
  2  the words are wrong, or ask for help: nothing is read
  3  memory was refused
  4  reading or writing failed

Example:
  evpnd report --originators 10.0.0.1,10.0.0.2 < records"
            }
            Subcommand::Migrate => {
                "\
Reads update records of versions 1 and 2 on standard input, up to its end or to the first fault.
Then standard output has records of version 3, in which the IP address is a part of the key: what each
edge said last of each MAC, and a withdrawal for each address that it replaced; none where reading
failed or memory was refused. Standard error has a line for each record that wasn't taken, and one
for what broke the stream off.

Status, the greatest that applies:
  0  the input was read to its end
  1  it shows a fault, or ends within a record
  2  the words are wrong, or ask for help: nothing is read
  3  memory was refused
  4  reading or writing failed

Example:
  evpnd migrate --originators 10.0.0.1,10.0.0.2 < old > new"
            }
            Subcommand::Check => {
                "\
Reads the configuration in FILE, as docs/configuration.md describes it; standard input isn't read.
If it is right, standard output has how many edges, ports and VNIs it has. Else standard error has
a line for each fault: where it is, what was found and what is allowed.

With --run it is checked whether it can be run: each port needs `local` and `remote`, and no two
sockets may hinder each other. Standard error has what hinders a run. If nothing does, standard
output has how many threads and sockets it takes, and about how much memory.

With --serve it is checked so whether it can be served: `control` has to be there, and `peer` may
be. Standard output has besides what 8 clients take at most.

Where it is right and --script names a script, that is read too, and nothing of it is run. Standard
error has a line for each of its lines that `simulate` would refuse: FILE:LINE: and why. If there is
none, standard output has how many lines it has.

Status, the greatest that applies:
  0  the configuration is right, or right for a run, and so is the script
  1  a line of the script is no command
  2  the configuration has a fault, or can't be run; or the words are wrong, or ask for help
  3  memory was refused
  4  a FILE can't be read, or writing failed

Example:
  evpnd check --config fabric.toml
  evpnd check --config fabric.toml --run
  evpnd check --config examples/run/served.toml --serve
  evpnd check --config fabric.toml --script story"
            }
            Subcommand::Simulate => {
                "\
Opens the edges that FILE configures, as docs/configuration.md describes it, reads a script on standard
input up to its end, and runs it line by line; docs/script.md has its commands. Standard output has
what became of each. Standard error has the number of the first line that is none, which ends the run.

Status, the greatest that applies:
  0  all lines were run
  1  a line is no command
  2  the configuration has a fault; or the words are wrong, or ask for help
  3  memory was refused
  4  FILE can't be read, or reading or writing failed

Example:
  evpnd simulate --config fabric.toml < script"
            }
            Subcommand::Play => {
                "\
Does what `simulate` does, for people: standard output has each command's line, behind `> `, before
what becomes of it. Empty lines are skipped, and those that begin with `#`. The line `help` prints
which lines there are. Standard error has the number of the first line that is none, which ends the
run.

Status, the greatest that applies:
  0  all lines were run
  1  a line is no command
  2  the configuration has a fault; or the words are wrong, or ask for help
  3  memory was refused
  4  FILE can't be read, or reading or writing failed

Example:
  evpnd play --config fabric.toml < script"
            }
            Subcommand::Run => {
                "\
Runs the edges that FILE configures, as docs/configuration.md describes it; each port needs `local`
and `remote`. Each edge takes and sends VXLAN datagrams at its address, UDP port 4789; each port takes
frames at `local`, one a datagram, and sends them to `remote`. It ends when standard input ends, whose
content is ignored. Then standard output has for each edge the line `edge E` and its report.
Standard error has `lost N` where N sends failed; or which address can't be bound, and why, which
standard stream is closed, or how many threads the system refuses: then no edge has begun.

With --degraded the edges begin even if the system starts too few threads. Standard error says so
at once, ports or edges without their threads carry nothing, and the status at the end is 3.

Status, the greatest that applies:
  0  the edges ran until standard input ended
  2  the configuration has a fault; or the words are wrong, or ask for help
  3  memory or a thread was refused
  4  FILE can't be read, an address can't be bound, a standard stream is closed, or a socket,
     reading or writing failed

Example:
  evpnd run --config fabric.toml"
            }
            Subcommand::Serve => {
                "\
Runs the edges that FILE configures as `run` does, until standard input ends, and lets them be asked
meanwhile. FILE needs the key `control` besides: the path of a Unix socket, which is made for its
user alone, and removed at the end. Who connects there writes `console` and a line feed, and then
lines as docs/running.md describes them; tools/evpndctl does so. At most 8 are answered at once.
Standard output has at the end what that of `run` has. Standard error has what that of `run` has; or
why nothing can listen at the path: then no edge has begun.

Status, the greatest that applies:
  0  the edges ran until standard input ended
  2  the configuration has a fault; or the words are wrong, or ask for help
  3  memory or a thread was refused
  4  FILE can't be read, nothing can listen at the path, an address can't be bound, a standard
     stream is closed, or a socket, reading or writing failed

Example:
  evpnd serve --config examples/run/served.toml"
            }
            Subcommand::Version => {
                "\
Standard output has `evpnd` and the version, and a second line: `proved` if the program was built by
`rt run`, which builds only what its checker has proved, or `unproved` if tools/try built it without
a proof. Nothing is read.

Status, the greatest that applies:
  0  it was written
  2  the words are wrong, or ask for help
  4  writing failed

Example:
  evpnd version"
            }
        }
    }
}

impl ParsedOptions {
    /// Returns the option's name.
    pub(crate) fn name<'a>(self) -> &'a str
        ensures { result.now ≡ option_name self }
    {
        match self {
            ParsedOptions::Originators => "originators",
            ParsedOptions::Config => "config",
            ParsedOptions::Script => "script",
            ParsedOptions::ForRun => "run",
            ParsedOptions::ForServe => "serve",
            ParsedOptions::Degraded => "degraded",
        }
    }

    /// Returns the name of its value in the help text.
    pub(crate) fn value_name<'a>(self) -> &'a str {
        match self {
            ParsedOptions::Originators => "LIST",
            ParsedOptions::Config | ParsedOptions::Script => "FILE",
            ParsedOptions::ForRun | ParsedOptions::ForServe | ParsedOptions::Degraded => "",
        }
    }

    /// Returns the description of its value.
    pub(crate) fn value_help<'a>(self) -> &'a str {
        match self {
            ParsedOptions::Originators =>
                "1 to 64 different IPv4 addresses with commas between them",
            ParsedOptions::Config => "The path of a configuration, a TOML document",
            ParsedOptions::Script => "The path of a script, whose lines are checked too",
            ParsedOptions::ForRun =>
                "Check what `run` needs too, and tell what it takes at its beginning",
            ParsedOptions::ForServe => "So of `serve`, with its keys `control` and `peer`",
            ParsedOptions::Degraded => "Begin even if the system starts too few threads",
        }
    }
}

/// Returns the subcommand of this name.
pub(crate) fn named(name: &str) -> Option<Subcommand>
    ensures { result ≡ named name.now }
{
    if name == Subcommand::Report.name() {
        return Some(Subcommand::Report);
    }
    if name == Subcommand::Migrate.name() {
        return Some(Subcommand::Migrate);
    }
    if name == Subcommand::Check.name() {
        return Some(Subcommand::Check);
    }
    if name == Subcommand::Simulate.name() {
        return Some(Subcommand::Simulate);
    }
    if name == Subcommand::Play.name() {
        return Some(Subcommand::Play);
    }
    if name == Subcommand::Run.name() {
        return Some(Subcommand::Run);
    }
    if name == Subcommand::Serve.name() {
        return Some(Subcommand::Serve);
    }
    if name == Subcommand::Version.name() {
        return Some(Subcommand::Version);
    }
    None
}
