//! Worked examples of the definitions, by subject: each is the contract of a function that does nothing.
ghost use Rattle.std.specs.Prelude.{All};
ghost use Rattle.model_laws.specs.Worked.{IsRow};
ghost use Rattle.model_laws.specs.WorkedMemory.{references};
ghost use Rattle.model_laws.specs.WorkedObjects.{objects};
ghost use Rattle.model_laws.specs.WorkedProcesses.{processes};
ghost use Rattle.model_laws.specs.WorkedRefusals.{refusals};
ghost use Rattle.model_laws.specs.WorkedSaves.{saving};
ghost use Rattle.model_laws.specs.WorkedSteps.{AnswersBySteps, ChainsBanks, FailsBetween, OpensAgain, RescindsProcess};
ghost use Rattle.model_laws.specs.WorkedSteps.{RevokesOnly, WantsMemory};
ghost use Rattle.model_laws.specs.WorkedTexts.{CutsLines, PrintsRefusals, RunsScript, SaysBad, SaysCommands};
ghost use Rattle.model_laws.specs.WorkedTexts.{SaysNothing};

/// The answers of pages, nodes and banks, also through weak capabilities.
#[tactic(auto, using(crate::proofs::WorkedRows::objects_hold))]
pub fn objects_are_answered()
    ensures { All IsRow objects }
{}

/// Processes that start, answer and wait, and the orders about processes.
#[tactic(auto, using(crate::proofs::WorkedRows::processes_hold))]
pub fn processes_are_answered()
    ensures { All IsRow processes }
{}

/// Loads and stores through address spaces.
#[tactic(auto, using(crate::proofs::WorkedRows::references_hold))]
pub fn references_are_answered()
    ensures { All IsRow references }
{}

/// Checkpoints and journals.
#[tactic(auto, using(crate::proofs::WorkedRows::saving_hold))]
pub fn saving_is_answered()
    ensures { All IsRow saving }
{}

/// Refusals, the greatest age, and a full log.
#[tactic(auto, using(crate::proofs::WorkedRows::refusals_hold))]
pub fn refusals_are_answered()
    ensures { All IsRow refusals }
{}

/// The answers in the rows are steps of the machine. If the device fails, one of two saved states is
/// possible. A machine that is down opens at a saved state. Memory may run out in place of some answers.
#[tactic(auto, using(crate::proofs::WorkedRows::steps))]
pub fn steps_are_taken()
    ensures answers { AnswersBySteps }
    ensures fails { FailsBetween }
    ensures opens { OpensAgain }
    ensures wants_memory { WantsMemory }
{}

/// What is left of capabilities after a consume or a rescind, and the chain of a bank.
#[tactic(auto, using(crate::proofs::WorkedRows::revoking))]
pub fn objects_are_revoked()
    ensures rescinds { RescindsProcess }
    ensures only { RevokesOnly }
    ensures chains { ChainsBanks }
{}

/// What lines mean, how a text is cut into lines, and what a run and each refusal print.
#[tactic(auto, using(crate::proofs::WorkedRows::lines))]
pub fn lines_are_read()
    ensures commands { SaysCommands }
    ensures nothing { SaysNothing }
    ensures bad { SaysBad }
    ensures lines { CutsLines }
    ensures run { RunsScript }
    ensures refusals { PrintsRefusals }
{}
