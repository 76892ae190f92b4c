// Reading a command line.
ghost use Rattle.std.specs.Prelude.{IfErr, IfOk, map};
ghost use Rattle.clap.specs.Words.{subcommand_of};
ghost use Rattle.command_line.specs.Commands.{eros_app};
ghost use Rattle.command_line.specs.Jobs.{NamesLine};
ghost use Rattle.command_line.specs.Refusals.{IsRefused};

use crate::fault::JobFault;
use crate::requested::{CommandLine, read_line};
use crate::subcommands::command;
use std::alloc::Global;
use std::convert::AsStr;

/// Reads a command line from its words. The first word is the name of the program.
///
/// Returns:
/// - `BadWords` with clap's error: the words are wrong for the command, or ask for help;
/// - `BadWords` with a `ValueValidation`: both files of an upgrade or a copy are the same;
/// - `NoMemory`: memory ran out.
#[tactic(auto, using(crate::proofs::Refused::refused))]
pub fn command_line<'a, S: AsStr>(
    alloc: Global,
    words: &'a [S],
) -> Result<CommandLine<'a>, JobFault>
    ensures named { IfOk result (NamesLine (subcommand_of eros_app (map S.text words.entry.now))) }
    ensures refused { IfErr result (IsRefused (map S.text words.entry.now)) }
{
    let mut command = command(alloc)?;
    let read = read_line(alloc, &mut command, words);
    drop(command);
    match read {
        Ok(line) => Ok(line),
        Err(error) => Err(JobFault::of(error)),
    }
}
