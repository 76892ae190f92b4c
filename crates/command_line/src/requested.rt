// The jobs of `eros`, and how they are read from clap's matches.
ghost use Rattle.std.specs.Prelude.{◌≡◌, ◌⊎◌, IfErr, IfOk, IfSome, IsNone, codes, map};
ghost use Rattle.clap.specs.Words.{found_of, kind_of, rows_of, subcommand_of, subcommand_rows_of};
ghost use Rattle.clap.specs.declared.error.kind.ErrorKind.TheVariants.{OutOfMemory};
ghost use Rattle.command_line.specs.Arguments.{AreNumbersIfAny, GivesNoNumber, IsNumberOption};
ghost use Rattle.command_line.specs.Commands.{IsCommand, eros_app, greatest_number, subcommand_name};
ghost use Rattle.command_line.specs.Jobs.{AreSizes, IsCache, IsJob, IsLine, IsNames, IsNoJob, IsScript, NamesLine, NamesNone};
ghost use Rattle.command_line.specs.Refusals.{Explains};

use crate::arguments::{flag_of, numbers_of, option_of};
use crate::subcommands::{
    CACHE, DESCRIPTION, FILE, FROM, IMAGE, JSON, LOG, NAMES, NEW, NEW_ONLY, NODES, OLD, PAGES,
    PROCESS, READS, SAVE, SCRIPT, SHOWS, STOP_AFTER, STRICT, Subcommand, TO, TRACE, TRUST, VERBOSE,
};
use clap::error::ErrorKind;
use clap::{ArgMatches, Command, Error};
use collections::{Capacity, GREATEST_CAPACITY, LEAST_CAPACITY};
use std::alloc::{AllocError, Global};
use std::convert::AsStr;

/// Where a script comes from.
#[derive(Drop)]
pub enum Script<'a> {
    /// From standard input.
    Input,
    /// From the file of this name.
    File(&'a str),
}

/// The sizes of an image. `None` keeps the image's own.
#[derive(Drop)]
pub struct Sizes {
    /// The number of nodes.
    pub nodes: Option<u64>,
    /// The number of pages.
    pub pages: Option<u64>,
    /// The number of slots in each half of the log.
    pub log: Option<u64>,
}

/// Running a script over an image.
#[derive(Drop)]
pub struct Run<'a> {
    pub image: &'a str,
    pub script: Script<'a>,
    /// The most objects kept in memory; all if `None`.
    pub cache: Option<Capacity>,
    /// Whether to write a line about each line of the script to standard error.
    pub trace: bool,
    /// Whether to stop at the first line that is bad or refused, or whose invocation of a kernel object fails.
    pub strict: bool,
    /// Whether to save the present state after the last line.
    pub saves: bool,
    /// The number of reads, writes and syncs after which the device fails every call; if `None`, it never
    /// does.
    pub stop_after: Option<u64>,
}

/// What processes of an image can ever change.
#[derive(Drop)]
pub struct Reach<'a> {
    pub image: &'a str,
    /// The numbers of the processes, in the order of the words; all processes if there are none.
    pub processes: Vec<u64>,
    /// Whether to print what they can ever read, instead of change.
    pub reads: bool,
    /// If there is one, print a shortest chain of capabilities to this object.
    pub shows: Option<u64>,
    /// If there is one, print all processes that can change this object.
    pub to: Option<u64>,
    /// The numbers of the trusted processes, in the order of the words.
    pub trusted: Vec<u64>,
    /// Whether the answer is JSON.
    pub json: bool,
}

/// A job of `eros`, with its files and options.
#[derive(Drop)]
pub enum Job<'a> {
    /// Builds an image.
    Build {
        description: &'a str,
        image: &'a str,
        /// Whether to refuse an existing file. Then a fault leaves no file.
        is_new: bool,
    },
    /// Runs a script over an image.
    Run(Run<'a>),
    /// Reads commands from a terminal and runs them over an image.
    Shell {
        image: &'a str,
        /// The most objects kept in memory; all if `None`.
        cache: Option<Capacity>,
    },
    /// Checks an image.
    Check {
        image: &'a str,
        /// Whether the answer is JSON.
        json: bool,
    },
    /// Prints why a description or an image is refused.
    Explain {
        file: &'a str,
        /// Whether the answer is JSON.
        json: bool,
    },
    /// Prints the sizes of an image and the state of its checkpoint.
    Info {
        image: &'a str,
        /// Whether the answer is JSON.
        json: bool,
    },
    /// Prints what processes of an image can ever change, or read.
    Reach(Reach<'a>),
    /// Writes the saved state of an image to a new image, in version 2 of the layout. The two words differ.
    Upgrade {
        old: &'a str,
        new: &'a str,
    },
    /// Writes the saved state of an image to a new image, in the same version of the layout. The two words differ.
    Copy {
        image: &'a str,
        new: &'a str,
    },
    /// Prints a description of the saved state of an image.
    Describe {
        image: &'a str,
        sizes: Sizes,
    },
    /// Prints a graph of the saved state of an image.
    Draw {
        image: &'a str,
        /// If there is one, draw only the least closed set that contains this process.
        from: Option<u64>,
        /// Whether that set is the one closed for reading.
        reads: bool,
        /// If there is one, draw only this object and the holders of capabilities to it.
        to: Option<u64>,
    },
}

/// What a command line asks for.
#[derive(Drop)]
pub struct CommandLine<'a> {
    /// The job.
    pub job: Job<'a>,
    /// Whether the cause of a fault is always written to standard error.
    pub is_verbose: bool,
    /// The file with the names of objects.
    pub names: Option<&'a str>,
}

// Returns the script that a word names. A single hyphen is standard input.
fn script_of<'a>(word: &'a str) -> Script<'a>
    ensures { IsScript word.entry.now result }
{
    if word == "-" {
        Script::Input
    } else {
        Script::File(word)
    }
}

// Returns the capacity that `--cache` gives, `Some(None)` if it is missing, or `None` if its word isn't a number
// from 8 to 8192.
fn cache_of(inner: &ArgMatches<'_>) -> Option<Option<Capacity>>
    ensures named { IfSome result (IsCache (rows_of (found_of inner.now))) }
    ensures none { IsNone result → GivesNoNumber (rows_of (found_of inner.now)) (codes "cache") 8 8192 }
{
    let Some(count) = option_of(inner, CACHE, LEAST_CAPACITY, GREATEST_CAPACITY)? else {
        return Some(None);
    };
    match Capacity::new(count) {
        Some(capacity) => Some(Some(capacity)),
        None => unreachable!(),
    }
}

// Returns the number that an option gives, `Some(None)` if it is missing, or `None` if its word isn't a
// number.
fn number_of(inner: &ArgMatches<'_>, name: &str) -> Option<Option<u64>>
    ensures named { IfSome result (IsNumberOption (rows_of (found_of inner.now)) name.now) }
    ensures none { IsNone result → GivesNoNumber (rows_of (found_of inner.now)) name.now 0 greatest_number }
{
    option_of(inner, name, 0, u64::MAX)
}

// Returns the `build` job for these matches, or `None` if a word is missing.
fn build_of<'a>(inner: &ArgMatches<'a>) -> Option<Job<'a>>
    ensures named { IfSome result (IsJob (codes "build") (rows_of (found_of inner.now))) }
    ensures none { IsNone result → IsNoJob (codes "build") (rows_of (found_of inner.now)) }
{
    let description = inner.get_str(DESCRIPTION)?;
    let image = inner.get_str(IMAGE)?;
    let is_new = flag_of(inner, NEW_ONLY);
    Some(Job::Build {
        description,
        image,
        is_new,
    })
}

// Returns the `run` job for these matches, or `None` if a word is missing or an option has no valid
// number.
fn run_of<'a>(inner: &ArgMatches<'a>) -> Option<Job<'a>>
    ensures named { IfSome result (IsJob (codes "run") (rows_of (found_of inner.now))) }
    ensures none { IsNone result → IsNoJob (codes "run") (rows_of (found_of inner.now)) }
{
    let image = inner.get_str(IMAGE)?;
    let word = inner.get_str(SCRIPT)?;
    let script = script_of(word);
    let cache = cache_of(inner)?;
    let trace = flag_of(inner, TRACE);
    let strict = flag_of(inner, STRICT);
    let saves = flag_of(inner, SAVE);
    let stop_after = number_of(inner, STOP_AFTER)?;
    Some(Job::Run(Run {
        image,
        script,
        cache,
        trace,
        strict,
        saves,
        stop_after,
    }))
}

// Returns the `shell` job for these matches, or `None` if there is no image argument or no valid
// capacity.
fn shell_of<'a>(inner: &ArgMatches<'a>) -> Option<Job<'a>>
    ensures named { IfSome result (IsJob (codes "shell") (rows_of (found_of inner.now))) }
    ensures none { IsNone result → IsNoJob (codes "shell") (rows_of (found_of inner.now)) }
{
    let image = inner.get_str(IMAGE)?;
    let cache = cache_of(inner)?;
    Some(Job::Shell { image, cache })
}

// Returns the `check` job for these matches, or `None` if there is no image argument.
fn check_of<'a>(inner: &ArgMatches<'a>) -> Option<Job<'a>>
    ensures named { IfSome result (IsJob (codes "check") (rows_of (found_of inner.now))) }
    ensures none { IsNone result → IsNoJob (codes "check") (rows_of (found_of inner.now)) }
{
    let image = inner.get_str(IMAGE)?;
    let json = flag_of(inner, JSON);
    Some(Job::Check { image, json })
}

// Returns the `explain` job for these matches, or `None` if there is no file argument.
fn explain_of<'a>(inner: &ArgMatches<'a>) -> Option<Job<'a>>
    ensures named { IfSome result (IsJob (codes "explain") (rows_of (found_of inner.now))) }
    ensures none { IsNone result → IsNoJob (codes "explain") (rows_of (found_of inner.now)) }
{
    let file = inner.get_str(FILE)?;
    let json = flag_of(inner, JSON);
    Some(Job::Explain { file, json })
}

// Returns the `info` job for these matches, or `None` if there is no image argument.
fn info_of<'a>(inner: &ArgMatches<'a>) -> Option<Job<'a>>
    ensures named { IfSome result (IsJob (codes "info") (rows_of (found_of inner.now))) }
    ensures none { IsNone result → IsNoJob (codes "info") (rows_of (found_of inner.now)) }
{
    let image = inner.get_str(IMAGE)?;
    let json = flag_of(inner, JSON);
    Some(Job::Info { image, json })
}

// Returns the `reach` job for these matches, processes and trusted processes. Returns `None` if there is no image
// argument, or if an option has no valid number.
fn reach_from<'a>(inner: &ArgMatches<'a>, processes: Vec<u64>, trusted: Vec<u64>) -> Option<Job<'a>>
    ensures named { AreNumbersIfAny (rows_of (found_of inner.now)) (codes "P") processes.items
        → AreNumbersIfAny (rows_of (found_of inner.now)) (codes "trust") trusted.items → IfSome result (IsJob (codes "reach") (rows_of (found_of inner.now))) }
    ensures none { IsNone result → IsNoJob (codes "reach") (rows_of (found_of inner.now)) }
{
    let image = inner.get_str(IMAGE)?;
    let reads = flag_of(inner, READS);
    let shows = number_of(inner, SHOWS)?;
    let to = number_of(inner, TO)?;
    Some(Job::Reach(Reach {
        image,
        processes,
        reads,
        shows,
        to,
        trusted,
        json: flag_of(inner, JSON),
    }))
}

// Returns the `reach` job for these matches and processes, or `None` if there is no image argument or a word isn't a
// number. Fails if memory runs out.
fn reach_with<'a>(
    alloc: Global,
    inner: &ArgMatches<'a>,
    processes: Vec<u64>,
) -> Result<Option<Job<'a>>, AllocError>
    ensures named { AreNumbersIfAny (rows_of (found_of inner.now)) (codes "P") processes.items
        → IfOk result (λ o. IfSome o (IsJob (codes "reach") (rows_of (found_of inner.now)))) }
    ensures none { IfOk result (λ o. IsNone o → IsNoJob (codes "reach") (rows_of (found_of inner.now))) }
{
    match numbers_of(alloc, inner, TRUST)? {
        Some(trusted) => Ok(reach_from(inner, processes, trusted)),
        None => Ok(None),
    }
}

// Returns the `reach` job for these matches, or `None` if there is no image argument or a word isn't a number.
// Fails if memory runs out.
fn reach_of<'a>(alloc: Global, inner: &ArgMatches<'a>) -> Result<Option<Job<'a>>, AllocError>
    ensures named { IfOk result (λ o. IfSome o (IsJob (codes "reach") (rows_of (found_of inner.now)))) }
    ensures none { IfOk result (λ o. IsNone o → IsNoJob (codes "reach") (rows_of (found_of inner.now))) }
{
    match numbers_of(alloc, inner, PROCESS)? {
        Some(processes) => reach_with(alloc, inner, processes),
        None => Ok(None),
    }
}

// Returns the `upgrade` job for these matches, or `None` if a word is missing or both are the same.
fn upgrade_of<'a>(inner: &ArgMatches<'a>) -> Option<Job<'a>>
    ensures named { IfSome result (IsJob (codes "upgrade") (rows_of (found_of inner.now))) }
    ensures none { IsNone result → IsNoJob (codes "upgrade") (rows_of (found_of inner.now)) }
{
    let old = inner.get_str(OLD)?;
    let new = inner.get_str(NEW)?;
    if old == new {
        return None;
    }
    Some(Job::Upgrade { old, new })
}

// Returns the `copy` job for these matches, or `None` if a word is missing or both are the same.
fn copy_of<'a>(inner: &ArgMatches<'a>) -> Option<Job<'a>>
    ensures named { IfSome result (IsJob (codes "copy") (rows_of (found_of inner.now))) }
    ensures none { IsNone result → IsNoJob (codes "copy") (rows_of (found_of inner.now)) }
{
    let image = inner.get_str(IMAGE)?;
    let new = inner.get_str(NEW)?;
    if image == new {
        return None;
    }
    Some(Job::Copy { image, new })
}

// Returns the sizes in these matches, or `None` if a word isn't a number.
fn sizes_of(inner: &ArgMatches<'_>) -> Option<Sizes>
    ensures named { IfSome result (AreSizes (rows_of (found_of inner.now))) }
    ensures none { IsNone result → IsNoJob (codes "describe") (rows_of (found_of inner.now)) }
{
    Some(Sizes {
        nodes: number_of(inner, NODES)?,
        pages: number_of(inner, PAGES)?,
        log: number_of(inner, LOG)?,
    })
}

// Returns the `describe` job for these matches, or `None` if there is no image argument or a size isn't a
// number.
fn describe_of<'a>(inner: &ArgMatches<'a>) -> Option<Job<'a>>
    ensures named { IfSome result (IsJob (codes "describe") (rows_of (found_of inner.now))) }
    ensures none { IsNone result → IsNoJob (codes "describe") (rows_of (found_of inner.now)) }
{
    let image = inner.get_str(IMAGE)?;
    let sizes = sizes_of(inner)?;
    Some(Job::Describe { image, sizes })
}

// Returns the `draw` job for these matches, or `None` if there is no image argument or an option has no valid
// number.
fn draw_of<'a>(inner: &ArgMatches<'a>) -> Option<Job<'a>>
    ensures named { IfSome result (IsJob (codes "draw") (rows_of (found_of inner.now))) }
    ensures none { IsNone result → IsNoJob (codes "draw") (rows_of (found_of inner.now)) }
{
    let image = inner.get_str(IMAGE)?;
    let from = number_of(inner, FROM)?;
    let to = number_of(inner, TO)?;
    Some(Job::Draw {
        image,
        from,
        reads: flag_of(inner, READS),
        to,
    })
}

// Returns the job of a subcommand with these matches, or `None`. Fails if memory runs out.
fn job_of<'a>(
    alloc: Global,
    subcommand: Subcommand,
    inner: &ArgMatches<'a>,
) -> Result<Option<Job<'a>>, AllocError>
    ensures named { IfOk result (λ o. IfSome o (IsJob (subcommand_name subcommand) (rows_of (found_of inner.now)))) }
    ensures none { IfOk result (λ o. IsNone o → IsNoJob (subcommand_name subcommand) (rows_of (found_of inner.now))) }
{
    match subcommand {
        Subcommand::Build => Ok(build_of(inner)),
        Subcommand::Run => Ok(run_of(inner)),
        Subcommand::Shell => Ok(shell_of(inner)),
        Subcommand::Check => Ok(check_of(inner)),
        Subcommand::Explain => Ok(explain_of(inner)),
        Subcommand::Info => Ok(info_of(inner)),
        Subcommand::Reach => reach_of(alloc, inner),
        Subcommand::Upgrade => Ok(upgrade_of(inner)),
        Subcommand::Copy => Ok(copy_of(inner)),
        Subcommand::Describe => Ok(describe_of(inner)),
        Subcommand::Draw => Ok(draw_of(inner)),
    }
}

// Returns the job of the subcommand with this name, or `None`. Fails if memory runs out.
fn job_named<'a>(
    alloc: Global,
    name: &str,
    inner: &ArgMatches<'a>,
) -> Result<Option<Job<'a>>, AllocError>
    ensures named { IfOk result (λ o. IfSome o (IsJob name.now (rows_of (found_of inner.now)))) }
    ensures none { IfOk result (λ o. IsNone o → IsNoJob name.now (rows_of (found_of inner.now))) }
{
    match Subcommand::of(name) {
        Some(subcommand) => job_of(alloc, subcommand, inner),
        None => Ok(None),
    }
}

// Returns the file with the names of objects, if one is given.
#[tactic(auto, using(crate::proofs::Getters::given_or_not))]
fn names_of<'a>(inner: &ArgMatches<'a>) -> Option<&'a str>
    ensures { IsNames (rows_of (found_of inner.now)) result }
{
    inner.get_str(NAMES)
}

// Returns what the subcommand with this name asks for, or `None`. Fails if memory runs out.
fn line_named<'a>(
    alloc: Global,
    name: &str,
    inner: &ArgMatches<'a>,
) -> Result<Option<CommandLine<'a>>, AllocError>
    ensures named { IfOk result (λ o. IfSome o (IsLine name.now (rows_of (found_of inner.now)))) }
    ensures none { IfOk result (λ o. IsNone o → IsNoJob name.now (rows_of (found_of inner.now))) }
{
    match job_named(alloc, name, inner)? {
        Some(job) => {
            let is_verbose = flag_of(inner, VERBOSE);
            let names = names_of(inner);
            Ok(Some(CommandLine {
                job,
                is_verbose,
                names,
            }))
        }
        None => Ok(None),
    }
}

// Returns what these matches ask for, or `None`. Fails if memory runs out.
fn requested<'a>(
    alloc: Global,
    matches: ArgMatches<'a>,
) -> Result<Option<CommandLine<'a>>, AllocError>
    ensures named { IfOk result (λ o. IfSome o (NamesLine (subcommand_rows_of matches.entry))) }
    ensures none { IfOk result (λ o. IsNone o → NamesNone (subcommand_rows_of matches.entry)) }
{
    match matches.subcommand() {
        Some((name, inner)) => line_named(alloc, name, inner),
        None => Ok(None),
    }
}

// Reads a command line from its words. Fails with clap's error if the words are wrong for the command or ask for
// help. Fails with `ValueValidation` if both files of an upgrade or a copy are the same, and with `OutOfMemory` if
// memory runs out.
pub(crate) fn read_line<'a, S: AsStr>(
    alloc: Global,
    command: &mut Command<'a>,
    words: &'a [S],
) -> Result<CommandLine<'a>, Error>
    requires { IsCommand eros_app command.old }
    ensures named { IfOk result (NamesLine (subcommand_of eros_app (map S.text words.entry.now))) }
    ensures refused { IfErr result (λ e. (kind_of e ≡ OutOfMemory)
        ⊎ Explains (map S.text words.entry.now) e) }
{
    let matches = command.try_get_matches_from_mut(words)?;
    match requested(alloc, matches)? {
        Some(line) => Ok(line),
        // If clap accepts words that name no job, both files of an upgrade or a copy are the same.
        None => Err(command.error(ErrorKind::ValueValidation, "both files are the same")?),
    }
}
