// What answers the questions of a shell.
ghost use Rattle.std.specs.Prelude.{◌≡◌};
ghost use Rattle.shell_questions.specs.Here.{AnswersHere};

use crate::answering::answer_line;
use device::Device;
use devices::{ReadOnly, SharedDevice};
use object_cache::PlainStore;
use script::{Output, RunFault};
use shell::Inspector;
use std::alloc::Global;

/// Answers questions about what is saved, each with all objects in memory of its own.
#[derive(Clone, Copy)]
pub struct Questions {
    alloc: Global,
}

impl Questions {
    /// Takes memory there.
    pub fn new(alloc: Global) -> Questions
        ensures { result.alloc ≡ alloc }
    {
        Questions { alloc }
    }
}

impl<D: SharedDevice, W: Output> Inspector<D, W> for Questions {
    ghost use Rattle.shell_questions.specs.Here.{AnswersHere};

    ghost inspects = { λ _. AnswersHere D.disk };

    fn inspect<V: Output>(
        &self,
        line: &[u8],
        device: &D,
        writer: &mut W,
        notes: &mut V,
    ) -> Result<(), RunFault> {
        answer_line::<_, PlainStore<_>, _, _>(
            self.alloc,
            line,
            ReadOnly::new(device),
            (),
            writer,
            notes,
        )
    }
}
