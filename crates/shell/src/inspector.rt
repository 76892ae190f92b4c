// Questions about what is saved.
ghost use Rattle.std.specs.Prelude.{◌≡◌, ℕ, List, Result, IfErr};
ghost use Rattle.script.specs.Writing.{Written};
ghost use Rattle.script.specs.declared.fault.RunFault.{RunFault};

use device::Device;
use script::{Output, RunFault};

/// Answers questions about what is saved on a device.
pub trait Inspector<D: Device, W: Output> {
    /// How a line about a device changes the output and the notes, and whether the output took all.
    ghost inspects: { Self → D → List ℕ → Written → Written → Written → Written → Result (Unit {0}) RunFault → Type 0 };

    /// Answers a line on the output, and says on the notes what is wrong with it. `RunFault::Write` if a call of the
    /// output failed.
    fn inspect<V: Output>(
        &self,
        line: &[u8],
        device: &D,
        writer: &mut W,
        notes: &mut V,
    ) -> Result<(), RunFault>
        ensures inspects { inspects self.now device.now line.now (W.written writer.old) (W.written writer.new)
            (V.written notes.old) (V.written notes.new) result }
        ensures fault { IfErr result (λ e. e ≡ RunFault.Write) };
}
