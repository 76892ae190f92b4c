// The commands that only read an image.
use crate::End;
use crate::cause::Refusal;
use crate::making::create;
use device::Device;
use image_builder::{NewLayout, OldImage};
use jobs::{Fault, upgrade_opened};
use migrator::WholeStore;
use queries::{Query, answer, explain_image};
use script::Output;

/// What a command does with an image that it only reads.
#[derive(Clone, Copy)]
pub(crate) enum Reading<'w> {
    /// Answers a question about what it saves.
    Answer(Query<'w>),
    /// Says why a run refuses it.
    Explain,
    /// Writes what it saves to a new image.
    Upgrade {
        old: &'w str,
        new: &'w str,
        layout: NewLayout,
    },
}

/// What `upgrade` and `copy` do.
pub(crate) fn writing<'a>(old: &'a str, new: &'a str, layout: NewLayout) -> Reading<'a> {
    Reading::Upgrade { old, new, layout }
}

// Writes what the image on a device saves to a new one, and returns its end. The new file is made only once the old
// image was opened and read whole.
fn upgrade<D: Device, S: WholeStore<D>, W: Output, V: Output>(
    rt: &HostRuntime,
    device: D,
    setting: S::Setting,
    old: &str,
    new: &str,
    layout: NewLayout,
    output: &mut W,
    errors: &mut V,
) -> Result<End, Refusal> {
    let image = match OldImage::<_, S>::open(rt.alloc(), device, setting) {
        Ok(image) => image,
        Err(fault) => return Err(Refusal::from(Fault::Upgrade(fault))),
    };
    let mut upgraded = create(rt, image.sectors(layout), old, new)?;
    let outcome = upgrade_opened(rt.alloc(), image, layout, &mut upgraded, output, errors);
    Ok(End::of_outcome(outcome))
}

impl<'w> Reading<'w> {
    /// Reads the image on a device, opened by a store of this kind, and returns the end of the command.
    pub(crate) fn read<D: Device, S: WholeStore<D>, W: Output, V: Output>(
        self,
        rt: &HostRuntime,
        device: D,
        setting: S::Setting,
        output: &mut W,
        errors: &mut V,
    ) -> Result<End, Refusal> {
        let alloc = rt.alloc();
        let done = match self {
            Reading::Answer(query) => answer::<_, S, _, _>(
                alloc, device, setting, query, output, errors,
            ),
            Reading::Explain => explain_image::<_, S, _, _>(alloc, device, setting, output, errors),
            Reading::Upgrade { old, new, layout } => {
                return upgrade::<_, S, _, _>(rt, device, setting, old, new, layout, output, errors);
            }
        };
        Ok(End::of_done(done))
    }
}
