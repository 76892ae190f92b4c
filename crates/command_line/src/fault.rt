// Why a command line names no job.
ghost use Rattle.std.specs.Prelude.{◌≡◌, IfOk};
ghost use Rattle.clap.specs.Words.{kind_of};
ghost use Rattle.clap.specs.declared.error.kind.ErrorKind.TheVariants.{InvalidValue};
ghost use Rattle.command_line.specs.declared.fault.JobFault.TheVariants.{NoMemory};

use crate::subcommands::command;
use clap::Error;
use clap::error::ErrorKind;
use std::alloc::{AllocError, Global};

/// Why a command line names no job.
#[derive(Drop)]
pub enum JobFault {
    /// The words are wrong for the command, they ask for help, or both files of an upgrade or a copy are the same.
    /// This is clap's message.
    BadWords(Error),
    /// Memory ran out.
    NoMemory,
}

impl From<AllocError> for JobFault {
    ghost from_gives = { λ _ e. e ≡ NoMemory };

    fn from(_error: AllocError) -> JobFault {
        JobFault::NoMemory
    }
}

impl JobFault {
    ghost use Rattle.command_line.specs.Refusals.{IsFaultOf};

    // Returns the fault for an error from clap.
    pub(crate) fn of(error: Error) -> JobFault
        ensures { IsFaultOf error result }
    {
        if error.kind() == ErrorKind::OutOfMemory {
            JobFault::NoMemory
        } else {
            JobFault::BadWords(error)
        }
    }
}

// Returns clap's message for a word that isn't text.
fn text_error(alloc: Global) -> Result<Error, AllocError>
    ensures { IfOk result (λ e. kind_of e ≡ InvalidValue) }
{
    command(alloc)?.error(
        ErrorKind::InvalidValue,
        "invalid UTF-8 was detected in one or more arguments",
    )
}

impl JobFault {
    ghost use Rattle.command_line.specs.Refusals.{IsReportedAs};

    /// Returns the fault of a command line with a word that isn't text: `BadWords`, or `NoMemory` if memory ran out.
    pub fn not_text(alloc: Global) -> JobFault
        ensures { IsReportedAs InvalidValue result }
    {
        match text_error(alloc) {
            Ok(error) => JobFault::BadWords(error),
            Err(AllocError) => JobFault::NoMemory,
        }
    }
}
