// Running a script over a device that stops.
use crate::task::Task;
use checkpoint::{Checkpoint, ObjectStore, OpenFault};
use device::Device;
use kernel::Kernel;
use runs::{ScriptReader, run};
use script::{CountedWriter, RunFault};
use std::io::Write;

const FAULT: &[u8] = b"fault\n";

// Writes the generation, age and entries of a kernel's saved state, or that the kernel is down.
fn tell_saved(saved: Option<Checkpoint>, reported: &mut Vec<u8>) -> Result<(), RunFault> {
    let Some(saved) = saved else {
        return writeln!(reported, "= down").or(Err(RunFault::Write));
    };
    let (generation, age, entries) = (saved.generation, saved.age, saved.entries);
    writeln!(reported, "= left {generation} {age} {entries}").or(Err(RunFault::Write))
}

// Writes the line of a script that was answered `fault`, or that none was.
fn tell_stop(stop: Option<usize>, reported: &mut Vec<u8>) -> Result<(), RunFault> {
    let Some(line) = stop else {
        return writeln!(reported, "= whole").or(Err(RunFault::Write));
    };
    writeln!(reported, "= stopped {line}").or(Err(RunFault::Write))
}

// Runs some lines and writes the answers. Returns whether these are a single `fault`.
fn tell_run<D: Device, S: ObjectStore<D>>(
    kernel: &mut Kernel<D, S>,
    lines: &[u8],
    reported: &mut Vec<u8>,
) -> Result<bool, RunFault> {
    let before = reported.len();
    let mut reader = ScriptReader::new(lines);
    let mut writer = CountedWriter::new(&mut *reported);
    run(kernel, &mut reader, &mut writer)?;
    Ok(reported.get(before..) == Some(FAULT))
}

// Writes a kernel's saved state, and its answers to some lines.
fn tell_standing<D: Device, S: ObjectStore<D>>(
    kernel: &mut Kernel<D, S>,
    lines: &[u8],
    reported: &mut Vec<u8>,
) -> Result<(), RunFault> {
    tell_saved(kernel.saved(), reported)?;
    tell_run(kernel, lines, reported)?;
    Ok(())
}

impl Task<'_> {
    // Runs the script up to the first line that is answered `fault`, and writes the answers. Returns the
    // number of that line, or `None`.
    fn tell_to_fault<D: Device, S: ObjectStore<D>>(
        &self,
        kernel: &mut Kernel<D, S>,
        reported: &mut Vec<u8>,
    ) -> Result<Option<usize>, RunFault> {
        for (number, line) in self
            .script
            .split_inclusive(|byte| *byte == b'\n')
            .enumerate()
        {
            if tell_run(kernel, line, reported)? {
                return Ok(Some(number));
            }
        }
        Ok(None)
    }

    // Opens a device with a kernel. Writes whether that succeeded, the saved state, and the kernel's answers to
    // the last lines.
    fn tell_opened<D: Device, S: ObjectStore<D>>(
        &self,
        device: D,
        setting: S::Setting,
        reported: &mut Vec<u8>,
    ) -> Result<(), RunFault> {
        match Kernel::<D, S>::open(self.alloc, device, setting) {
            Ok(kernel) => {
                let mut kernel = kernel;
                tell_standing(&mut kernel, self.last, reported)
            }
            Err(refused) => {
                let fault = refused.fault;
                writeln!(reported, "= refused {fault}").or(Err(RunFault::Write))
            }
        }
    }

    /// Cuts the power of a device, opens it with a kernel, and writes what that answers.
    pub(crate) fn tell_left<D: Device, P: ObjectStore<D>>(
        &self,
        device: D,
        setting: P::Setting,
        reported: &mut Vec<u8>,
    ) -> Result<(), RunFault> {
        let mut device = device;
        device.power_cut();
        self.tell_opened::<D, P>(device, setting, reported)
    }

    // Runs the script over a kernel. Writes the answers, and what its device holds after a power cut. Returns
    // whether the device stopped.
    fn tell_all<D: Device, S: ObjectStore<D>, P: ObjectStore<D>>(
        &self,
        kernel: Kernel<D, S>,
        last: P::Setting,
        reported: &mut Vec<u8>,
    ) -> Result<bool, RunFault> {
        let mut kernel = kernel;
        let stop = self.tell_to_fault(&mut kernel, reported)?;
        tell_stop(stop, reported)?;
        tell_standing(&mut kernel, self.tail, reported)?;
        self.tell_left::<D, P>(kernel.into_device(), last, reported)?;
        Ok(stop.is_some())
    }

    /// Runs the script over a device that stops after some calls, and returns whether it stopped. If it stopped
    /// while it was being opened, writes nothing. The last kernel has a store of type `P`.
    pub(crate) fn run_script<D: Device, S: ObjectStore<D>, P: ObjectStore<D>>(
        &self,
        device: D,
        setting: S::Setting,
        last: P::Setting,
        calls: u64,
        reported: &mut Vec<u8>,
    ) -> anyhow::Result<bool> {
        match Kernel::<D, S>::open(self.alloc, device, setting) {
            Ok(kernel) => {
                writeln!(reported, "= calls {calls}")?;
                Ok(self.tell_all::<D, S, P>(kernel, last, reported)?)
            }
            Err(refused) => match refused.fault {
                OpenFault::Failed => Ok(true),
                fault => anyhow::bail!("not opened: {fault}"),
            },
        }
    }
}
