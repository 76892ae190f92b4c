// The commands and arguments of `eros`, as clap knows them.
ghost use Rattle.std.specs.Prelude.{◌≡◌, ◌≢◌, IfOk, MatchOption, false, map};
ghost use Rattle.std.specs.List.{All};
ghost use Rattle.clap.specs.Words.{new_app, rule_of};
ghost use Rattle.command_line.specs.Commands.{IsCommand, argument_rule, bare_app, eros_app, names_rule, numbers_rule};
ghost use Rattle.command_line.specs.Commands.{option_rule};
ghost use Rattle.command_line.specs.Commands.{processes_rule, rules_of, subcommand_app, subcommand_name, subcommands};
ghost use Rattle.command_line.specs.Commands.{with_rules, with_subcommands};

use clap::builder::ValueParser;
use clap::{Arg, ArgAction, Command};
use collections::{GREATEST_CAPACITY, LEAST_CAPACITY};
use std::alloc::{AllocError, Global};

pub(crate) const DESCRIPTION: &str = "DESCRIPTION";

pub(crate) const IMAGE: &str = "IMAGE";

pub(crate) const SCRIPT: &str = "SCRIPT";

pub(crate) const OLD: &str = "OLD";

pub(crate) const NEW: &str = "NEW";

pub(crate) const NEW_ONLY: &str = "new";

pub(crate) const VERBOSE: &str = "verbose";

pub(crate) const CACHE: &str = "cache";

pub(crate) const PROCESS: &str = "P";

pub(crate) const SHOWS: &str = "shows";

pub(crate) const FILE: &str = "FILE";

pub(crate) const TRACE: &str = "trace";

pub(crate) const STRICT: &str = "strict";

pub(crate) const SAVE: &str = "save";

pub(crate) const NODES: &str = "nodes";

pub(crate) const PAGES: &str = "pages";

pub(crate) const LOG: &str = "log";

pub(crate) const FROM: &str = "from";

pub(crate) const TO: &str = "to";

pub(crate) const READS: &str = "reads";

pub(crate) const TRUST: &str = "trust";

pub(crate) const JSON: &str = "json";

pub(crate) const NAMES: &str = "names";

pub(crate) const STOP_AFTER: &str = "stop-after";

/// What `eros --version` prints after the name.
const VERSION: &str = "1.0.0\nlayouts 1 to 3\nproved with rattle-kit-13f logic dac8208d650f15bf";

/// An argument or an option of a subcommand.
#[derive(Clone, Copy)]
enum Argument<'a> {
    /// A required file: its name and its help.
    File(&'a str, &'a str),
    /// The option `--cache`, the capacity of the cache.
    Cache,
    /// The optional processes of `reach`.
    Processes,
    /// An option with a number: its name, the name of the number, and its help.
    Number(&'a str, &'a str, &'a str),
    /// An option with a number that may be repeated: its name, the name of the number, and its help.
    Numbers(&'a str, &'a str, &'a str),
    /// An option without a value: its name and its help.
    Flag(&'a str, &'a str),
    /// The option `--names`, the file with the names of objects.
    Names,
}

// Returns an option with a number from `least` to `most`.
fn number_arg<'a>(
    alloc: Global,
    name: &'a str,
    value: &'a str,
    help: &'a str,
    least: u64,
    most: u64,
) -> Arg<'a>
    ensures rule { rule_of result ≡ option_rule name.now least most }
    ensures local { result.global ≡ false }
{
    let numbers = ValueParser::unsigned(least, most);
    Arg::new(alloc, name)
        .long(name)
        .value_name(value)
        .value_parser(numbers)
        .help(help)
}

// Returns an option with a number that may be repeated.
fn numbers_arg<'a>(alloc: Global, name: &'a str, value: &'a str, help: &'a str) -> Arg<'a>
    ensures rule { rule_of result ≡ numbers_rule name.now }
    ensures local { result.global ≡ false }
{
    number_arg(alloc, name, value, help, 0, u64::MAX).action(ArgAction::Append)
}

// Returns the option `--names`, the file with the names of objects.
fn names_arg<'a>(alloc: Global) -> Arg<'a>
    ensures rule { rule_of result ≡ names_rule }
    ensures local { result.global ≡ false }
{
    Arg::new(alloc, NAMES).long(NAMES).value_name(FILE).help(
        "Gives names to objects: a file in TOML, with lines like viewer = 14",
    )
}

// Returns the optional processes of `reach`.
fn processes_arg<'a>(alloc: Global) -> Arg<'a>
    ensures rule { rule_of result ≡ processes_rule }
    ensures local { result.global ≡ false }
{
    let numbers = ValueParser::unsigned(0, u64::MAX);
    Arg::new(alloc, PROCESS)
        .num_args(1..)
        .value_parser(numbers)
        .help("The numbers of the processes; without them, all processes")
}

impl<'a> Argument<'a> {
    fn arg(self, alloc: Global) -> Arg<'a>
        ensures rule { rule_of result ≡ argument_rule self.entry }
        ensures local { result.global ≡ false }
    {
        match self {
            Argument::File(name, help) => Arg::new(alloc, name).help(help).required(true),
            Argument::Cache => {
                let help =
                    "Keeps at most C objects in memory, 8 to 8192, as --cache 100; without it, all objects";
                number_arg(alloc, CACHE, "C", help, LEAST_CAPACITY, GREATEST_CAPACITY)
            }
            Argument::Processes => processes_arg(alloc),
            Argument::Number(name, value, help) => {
                number_arg(alloc, name, value, help, 0, u64::MAX)
            }
            Argument::Numbers(name, value, help) => numbers_arg(alloc, name, value, help),
            Argument::Flag(name, help) => Arg::new(alloc, name)
                .long(name)
                .action(ArgAction::SetTrue)
                .help(help),
            Argument::Names => names_arg(alloc),
        }
    }
}

// The image of a command that only reads.
const READ: Argument<'static> = Argument::File(IMAGE, "The image, which isn't changed");

// The flag for answers in JSON.
const AS_JSON: Argument<'static> = Argument::Flag(
    JSON,
    "Prints JSON, an object a line; a fault too, as {\"fault\": ..}",
);

// The flag `--verbose`, which writes the cause of a fault.
const CAUSE: Argument<'static> = Argument::Flag(
    VERBOSE,
    "Also writes the file and the cause of a fault, as is done on a terminal",
);

const BUILD: &[Argument<'static>] = &[
    Argument::File(DESCRIPTION, "What the image is to hold, in TOML"),
    Argument::File(
        IMAGE,
        "The image file; without --new an old one is lost, also if the description is bad",
    ),
    Argument::Flag(
        NEW_ONLY,
        "Refuses to build if there is a file, and leaves none after a fault",
    ),
    CAUSE,
];

const RUN: &[Argument<'static>] = &[
    Argument::File(
        IMAGE,
        "The image, which is changed by what the script commits",
    ),
    Argument::File(SCRIPT, "The script, a command a line; - is standard input"),
    Argument::Cache,
    Argument::Flag(TRACE, "Writes the result of each line to standard error"),
    Argument::Flag(
        STRICT,
        "Stops at the first line that is bad or refused, or whose order fails",
    ),
    Argument::Flag(
        SAVE,
        "Saves after the last line: a checkpoint, its commit and its migration",
    ),
    Argument::Number(
        STOP_AFTER,
        "K",
        "Lets the image's device fail after K reads, writes and syncs, as --stop-after 40",
    ),
    Argument::Names,
    CAUSE,
];

const SHELL: &[Argument<'static>] = &[
    Argument::File(IMAGE, "The image, which is changed by what is committed"),
    Argument::Cache,
    Argument::Names,
    CAUSE,
];

// The arguments of `check` and `info`.
const TOLD: &[Argument<'static>] = &[READ, AS_JSON, CAUSE];

const EXPLAIN: &[Argument<'static>] = &[
    Argument::File(FILE, "The description or the image, which isn't changed"),
    AS_JSON,
    Argument::Names,
    CAUSE,
];

const REACH: &[Argument<'static>] = &[
    READ,
    Argument::Processes,
    Argument::Flag(
        READS,
        "Says what the processes can ever read, instead of change: follows weak capabilities too",
    ),
    Argument::Number(
        SHOWS,
        "O",
        "Prints a shortest chain of capabilities from the processes to object O, as --shows 7",
    ),
    Argument::Number(
        TO,
        "O",
        "Prints which of the processes can ever change object O, or read it, as --to 7",
    ),
    Argument::Numbers(
        TRUST,
        "S",
        "Trusts process S: leaves out what is reached only by starting it, as --trust 5; repeatable",
    ),
    AS_JSON,
    Argument::Names,
    CAUSE,
];

const UPGRADE: &[Argument<'static>] = &[
    Argument::File(OLD, "The image, which isn't changed"),
    Argument::File(NEW, "The new image file; an old one is replaced"),
    CAUSE,
];

const COPY: &[Argument<'static>] = &[
    READ,
    Argument::File(NEW, "The new image file; an old one is replaced"),
    CAUSE,
];

const DESCRIBE: &[Argument<'static>] = &[
    READ,
    Argument::Number(
        NODES,
        "N",
        "Renumbers the description for an image of N nodes, as --nodes 64",
    ),
    Argument::Number(
        PAGES,
        "P",
        "Renumbers the description for an image of P pages",
    ),
    Argument::Number(
        LOG,
        "R",
        "Describes an image with R slots in each half of the log",
    ),
    Argument::Names,
    CAUSE,
];

const DRAW: &[Argument<'static>] = &[
    READ,
    Argument::Number(
        FROM,
        "P",
        "Draws only what eros reach IMAGE P lists, as --from 3",
    ),
    Argument::Flag(
        READS,
        "With --from, draws what eros reach IMAGE P --reads lists",
    ),
    Argument::Number(
        TO,
        "O",
        "Draws only object O and what holds a capability to it, as --to 7",
    ),
    Argument::Names,
    CAUSE,
];

/// A subcommand of `eros`.
#[derive(Clone, Copy)]
pub(crate) enum Subcommand {
    Build,
    Run,
    Shell,
    Check,
    Explain,
    Info,
    Reach,
    Upgrade,
    Copy,
    Describe,
    Draw,
}

impl Subcommand {
    /// Returns the subcommand with this name, or `None`.
    pub(crate) fn of(name: &str) -> Option<Subcommand>
        ensures { MatchOption result (All (λ s. name.now ≢ subcommand_name s) subcommands)
            (λ s. name.now ≡ subcommand_name s) }
    {
        for candidate in SUBCOMMANDS {
            if name == candidate.name() {
                return Some(*candidate);
            }
        }
        None
    }

    fn name<'a>(self) -> &'a str
        ensures { result.now ≡ subcommand_name self }
    {
        match self {
            Subcommand::Build => "build",
            Subcommand::Run => "run",
            Subcommand::Shell => "shell",
            Subcommand::Check => "check",
            Subcommand::Explain => "explain",
            Subcommand::Info => "info",
            Subcommand::Reach => "reach",
            Subcommand::Upgrade => "upgrade",
            Subcommand::Copy => "copy",
            Subcommand::Describe => "describe",
            Subcommand::Draw => "draw",
        }
    }

    fn about<'a>(self) -> &'a str {
        match self {
            Subcommand::Build => "Builds an image from its description",
            Subcommand::Run => {
                "Runs a script over an image, and prints an answer to each command"
            }
            Subcommand::Shell => {
                "Reads commands and runs each at once over an image; help lists them"
            }
            Subcommand::Check => {
                "Checks an image, and prints the generation, age and entries of its checkpoint"
            }
            Subcommand::Explain => {
                "Says why a description or an image is refused, and where, or prints ok"
            }
            Subcommand::Info => {
                "Prints the layout and sizes of an image, its checkpoint and how many objects it has"
            }
            Subcommand::Reach => {
                "Prints what processes can ever change: the smallest closed set with them; closed 4: it has 4 objects"
            }
            Subcommand::Upgrade => {
                "Writes what an image saves to a new image of layout version 2, where nodes take less space"
            }
            Subcommand::Copy => {
                "Writes what an image saves to a new image of the same layout version, as a backup"
            }
            Subcommand::Describe => "Prints the description of what an image saves, in TOML",
            Subcommand::Draw => {
                "Prints what an image saves as a graph, in DOT: who owns what, and who holds which capability"
            }
        }
    }

    // Returns the arguments and options of the subcommand, in order.
    fn arguments<'a>(self) -> &'a [Argument<'a>]
        ensures { map argument_rule result.now ≡ rules_of self }
    {
        match self {
            Subcommand::Build => BUILD,
            Subcommand::Run => RUN,
            Subcommand::Shell => SHELL,
            Subcommand::Check | Subcommand::Info => TOLD,
            Subcommand::Explain => EXPLAIN,
            Subcommand::Reach => REACH,
            Subcommand::Upgrade => UPGRADE,
            Subcommand::Copy => COPY,
            Subcommand::Describe => DESCRIBE,
            Subcommand::Draw => DRAW,
        }
    }

    fn command<'a>(self, alloc: Global) -> Result<Command<'a>, AllocError>
        ensures { IfOk result (IsCommand (subcommand_app self)) }
    {
        let arguments = self.arguments();
        let mut command = Command::new(alloc, self.name()).about(self.about());
        for argument in arguments {
            command = command.arg(argument.arg(alloc))?;
        }
        Ok(command)
    }
}

// All subcommands, in the order in which the help lists them.
const SUBCOMMANDS: &[Subcommand] = &[
    Subcommand::Build,
    Subcommand::Run,
    Subcommand::Shell,
    Subcommand::Check,
    Subcommand::Explain,
    Subcommand::Info,
    Subcommand::Reach,
    Subcommand::Upgrade,
    Subcommand::Copy,
    Subcommand::Describe,
    Subcommand::Draw,
];

// Returns clap's command for the program, without its subcommands.
fn bare<'a>(alloc: Global) -> Result<Command<'a>, AllocError>
    ensures { IfOk result (IsCommand bare_app) }
{
    Command::new(alloc, "eros")
        .version(VERSION)
        .about("The core of a persistent capability system")
        .after_help(
            "Example:\n  eros build --new examples/first-steps.toml first.image   prints: built 399 sectors\n  \
             eros run first.image examples/first-steps.eros      prints the answers, a line or more each\n  \
             eros check first.image                              prints: ok generation 1 age 3 entries 0\n  \
             eros reach first.image 1                            prints what process 1 can ever change\n  \
             eros explain examples/first-steps.toml              prints: ok, or what is wrong and where\n  \
             eros info first.image                               prints its sizes and its checkpoint\n  \
             eros info --json first.image                        prints the same as JSON, an object a line\n  \
             eros run --trace first.image examples/journal.eros  also writes the result of each line\n  \
             eros shell first.image                              reads commands from the terminal\n  \
             eros upgrade first.image second.image               prints: upgraded 399 sectors\n  \
             eros copy first.image backup.image                  prints: copied 399 sectors\n  \
             eros describe first.image                           prints the description of what it saves\n  \
             eros describe --nodes 64 first.image                prints it for an image of 64 nodes\n  \
             eros draw first.image                               prints a graph of what it saves\n  \
             eros draw --from 1 first.image                      prints a graph of what process 1 reaches\n\n\
             Status 0: success, whatever the answers are. Status 1: a fault, with a line on standard error, or a\n\
             file that explain found bad. Status 2: the command line isn't understood. On a terminal, or with\n\
             --verbose, a second line says the file and the cause of a fault.",
        )
        .subcommand_required(true)
        .bin_name("eros")
}

/// Returns clap's command for `eros`. Fails if memory runs out.
pub(crate) fn command<'a>(alloc: Global) -> Result<Command<'a>, AllocError>
    ensures { IfOk result (IsCommand eros_app) }
{
    let mut command = bare(alloc)?;
    for subcommand in SUBCOMMANDS {
        command = command.subcommand(subcommand.command(alloc)?)?;
    }
    Ok(command)
}
