//! Laws of the definitions. Each is the contract of a function that does nothing.

ghost use Rattle.model_laws.specs.Laws.{DiminishesOnce, FetchesWeak, RescindsAll, ConsumesAll, GivesUpRescinded};
ghost use Rattle.model_laws.specs.Laws.{GivesUpNothing, TouchesWritten, LogFullIsExact, StoreLogFullIsExact, SpellsOne};
ghost use Rattle.model_laws.specs.Laws.{SaysOne, BeginsSound, StepsAllowed, WantsMemoryToShow};

/// To diminish a capability twice is to diminish it once.
pub fn diminishes_once()
    ensures { DiminishesOnce }
{}

/// What is fetched through a weak capability is weak, or names nothing.
pub fn fetches_weak()
    ensures { FetchesWeak }
{}

/// After a rescind of some numbers these are free, nothing names them, and all else is unchanged, except that
/// capabilities that named them are void.
pub fn rescinds_all()
    ensures { RescindsAll }
{}

/// A consume makes capabilities void and changes nothing else; after it no capability resumes the process.
pub fn consumes_all()
    ensures { ConsumesAll }
{}

/// An order of a bank frees exactly the objects that it rescinds, and none if it isn't done.
#[tactic(auto, using(crate::proofs::GivenUp::gives_up_rescinded))]
pub fn gives_up_rescinded()
    ensures { GivesUpRescinded }
{}

/// An invocation that is not an order of a bank, through a gate or not, frees no object.
#[tactic(auto, using(crate::proofs::GivenUp::gives_up_nothing))]
pub fn gives_up_nothing()
    ensures { GivesUpNothing }
{}

/// The numbers touched after a step are those touched before and those that it wrote.
#[tactic(auto, using(crate::proofs::Touching::touches_written))]
pub fn touches_written()
    ensures { TouchesWritten }
{}

/// An invocation that nothing else refuses is refused as log full exactly if the numbers touched before it
/// and those that it writes are together more than the slots of a log half.
#[tactic(auto, using(crate::proofs::Touching::log_full_is_exact))]
pub fn log_full_is_exact()
    ensures { LogFullIsExact }
{}

/// A store to a page that its process may write is refused as log full exactly if the numbers touched before
/// it and that page are together more than the slots of a log half. A store with a memory fault isn't
/// refused: its answer is the fault.
pub fn store_log_full_is_exact()
    ensures { StoreLogFullIsExact }
{}

/// The machine takes only steps that the specification allows. It allows `no memory` in place of any answer
/// to an invocation, load, store or `show`, except `no process` and `bad number`.
#[tactic(auto, using(crate::proofs::Stepping::steps_allowed))]
pub fn steps_are_allowed()
    ensures { StepsAllowed }
{}

/// Only `show`, `restart` and `cut` may be answered `no memory`.
#[tactic(auto, using(crate::proofs::Stepping::wants_memory_to_show))]
pub fn wants_memory_to_show()
    ensures { WantsMemoryToShow }
{}

/// No two commands share a spelling.
#[tactic(auto, using(crate::proofs::Spelling::spells_one))]
pub fn spells_one()
    ensures { SpellsOne }
{}

/// A line has at most one meaning.
#[tactic(auto, using(crate::proofs::Spelling::says_one))]
pub fn says_one()
    ensures { SaysOne }
{}

/// The worlds in which scripts begin are sound.
#[tactic(auto, using(crate::proofs::SoundWorlds::f0_sound, crate::proofs::SoundWorlds::i0_sound))]
pub fn worlds_are_sound()
    ensures { BeginsSound }
{}
