// Doing a deed again and again, with a device that stops one call later each time.
use crate::task::{Deed, Task, outcome_of};
use device::Device;
use devices::Outcome;
use image_builder::NewLayout;
use object_cache::{BoundedCache, PlainStore};
use std::io::Write;

impl Task<'_> {
    // Upgrades or copies the image of a device to a new device that holds the sectors in `script` and stops after
    // `calls` calls.
    fn upgrade_to<D: Device>(
        &self,
        old: D,
        layout: NewLayout,
        calls: u64,
        outcome: Outcome,
        reported: &mut Vec<u8>,
    ) -> anyhow::Result<bool> {
        let new = self.device_with(self.script, outcome, calls)?;
        Ok(self.run_upgrade::<_, _, PlainStore<_>, PlainStore<_>>(
            old,
            layout,
            new,
            (),
            (),
            reported,
        )?)
    }

    // Does a deed once, over a device with the image, and returns whether a device stopped. If the deed stops its
    // new device, that one stops after `calls` calls.
    fn do_over<D: Device>(
        &self,
        deed: &Deed,
        device: D,
        calls: u64,
        outcome: Outcome,
        reported: &mut Vec<u8>,
    ) -> anyhow::Result<bool> {
        match deed {
            Deed::Run(None) => self.run_script::<_, PlainStore<_>, PlainStore<_>>(
                device,
                (),
                (),
                calls,
                reported,
            ),
            Deed::Run(Some(capacity)) => self.run_script::<_, BoundedCache<_>, PlainStore<_>>(
                device,
                *capacity,
                (),
                calls,
                reported,
            ),
            Deed::StopOld(layout) => {
                self.upgrade_to(device, *layout, u64::MAX, outcome, reported)
            }
            Deed::StopNew(layout) => self.upgrade_to(device, *layout, calls, outcome, reported),
        }
    }

    // Does a deed once, over devices that stop after `calls` calls, and returns whether one stopped.
    fn do_once(
        &self,
        deed: &Deed,
        calls: u64,
        outcome: Outcome,
        reported: &mut Vec<u8>,
    ) -> anyhow::Result<bool> {
        let (first_calls, first_outcome) = match deed {
            Deed::Run(_) => (calls, outcome),
            Deed::StopOld(_) => (calls, Outcome::Drop),
            Deed::StopNew(_) => (u64::MAX, Outcome::Drop),
        };
        let device = self.device_with(self.image, first_outcome, first_calls)?;
        self.do_over(deed, device, calls, outcome, reported)
    }

    // Does a deed once, writes its result, and returns whether a device stopped.
    fn write_once<W: Write>(
        &self,
        deed: &Deed,
        calls: u64,
        outcome: Outcome,
        writer: &mut W,
    ) -> anyhow::Result<bool> {
        let mut reported = Vec::new(self.alloc);
        let is_stopped = self.do_once(deed, calls, outcome, &mut reported)?;
        writer.write_all(&reported)?;
        Ok(is_stopped)
    }

    /// Does a deed again and again, with a stop at each call of a device in turn, until it ends
    /// without a stop.
    pub(crate) fn stop_at_each<W: Write>(
        &self,
        deed: &Deed,
        outcome: Outcome,
        writer: &mut W,
    ) -> anyhow::Result<()> {
        for calls in 0..u64::MAX {
            if !self.write_once(deed, calls, outcome, writer)? {
                break;
            }
        }
        Ok(())
    }

    /// Calls `stop_at_each` for each of these outcomes of a power cut.
    pub(crate) fn try_outcomes<W: Write>(
        &self,
        deed: &Deed,
        outcomes: &[String],
        writer: &mut W,
    ) -> anyhow::Result<()> {
        for word in outcomes {
            writeln!(writer, "= outcome {word}")?;
            match outcome_of(word.as_str()) {
                Some(outcome) => self.stop_at_each(deed, outcome, writer)?,
                None => anyhow::bail!("no outcome"),
            }
        }
        Ok(())
    }

    /// Does a deed once, over devices that don't stop.
    pub(crate) fn do_whole<W: Write>(&self, deed: &Deed, writer: &mut W) -> anyhow::Result<()> {
        self.write_once(deed, u64::MAX, Outcome::Drop, writer)?;
        Ok(())
    }
}
