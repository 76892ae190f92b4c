// Finding the place of what is wrong with the sectors of an image, if the reason is known.
ghost use Rattle.std.specs.Prelude.{◌≡◌, ◌≤◌, length, IfErr, IfOk, List};
ghost use Rattle.image_explainer.specs.SectorFinding.{IsNoReason};
ghost use Rattle.layout.specs.Calls.{ReadsOnly};
ghost use Rattle.layout.specs.Denoted.{HasBadFrame, HasDirectory, HasHeader, HasPlan, IsBadBy};
ghost use Rattle.layout.specs.Fault.{CountsOpen};
ghost use Rattle.layout.specs.declared.directory.Entry.{Entry};
ghost use Rattle.layout.specs.declared.sealed.header.SealedHeader.{SealedHeader};
ghost use Rattle.image_explainer.specs.SectorBreaking.{IsFault};
ghost use Rattle.image_explainer.specs.SectorFinding.{IsBehindFront};

use crate::sectors::directory::find_directory;
use crate::sectors::fault::SectorFault;
use crate::sectors::frame::find_frame;
use crate::sectors::header::{find_header, find_uncounted};
use crate::sectors::reading::{read_directory, read_plan};
use crate::sectors::slots::{find_sealed_header, find_unpaired};
use crate::sectors::superblock::{find_geometry, find_mark, find_size};
use crate::sectors::unit::{are_right, find_unit};
use device::Device;
use layout::{BadImage, Entry, OpenFault, Scratch, Superblock};

// Returns the first place with a malformed frame, or in version 3 with a unit that isn't right.
fn find_saved<D: Device>(
    device: &mut D,
    plan: &Superblock,
    entries: &mut [Entry],
    scratch: &mut Scratch,
) -> Result<SectorFault, OpenFault>
    requires plan { HasPlan (D.disk device.old).seen (D.disk device.old).sectors plan.now }
    requires room { 4096 ≤ length entries.old }
    requires bad { (h : SealedHeader) × (es : List Entry) × HasHeader (D.disk device.old).seen plan.now h
        × HasDirectory (D.disk device.old).seen plan.now h es × HasBadFrame (D.disk device.old).seen plan.now h es }
    ensures found { IfOk result (IsFault (D.disk device.old).sectors (D.disk device.old).seen) }
    ensures refused { IfErr result IsNoReason }
    ensures reads { ReadsOnly (D.disk device.old) (D.disk device.new) }
    ensures cause { CountsOpen (D.disk device.old) (D.disk device.new) result }
{
    let header = read_directory(device, plan, entries)?;
    let named = &entries[..header.header.entries as usize];
    let right = are_right(device, plan, header, named)?;
    if right {
        find_frame(device, plan, header.header, named, scratch)
    } else {
        find_unit(device, plan, header, named)
    }
}

// Returns the place of reasons 4 to 7.
fn find_behind<D: Device>(
    device: &mut D,
    plan: &Superblock,
    reason: BadImage,
    entries: &mut [Entry],
    scratch: &mut Scratch,
) -> Result<SectorFault, OpenFault>
    requires plan { HasPlan (D.disk device.old).seen (D.disk device.old).sectors plan.now }
    requires room { 4096 ≤ length entries.old }
    requires behind { IsBehindFront reason }
    requires bad { IsBadBy (D.disk device.old).seen (D.disk device.old).sectors reason }
    ensures found { IfOk result (IsFault (D.disk device.old).sectors (D.disk device.old).seen) }
    ensures refused { IfErr result IsNoReason }
    ensures reads { ReadsOnly (D.disk device.old) (D.disk device.new) }
    ensures cause { CountsOpen (D.disk device.old) (D.disk device.new) result }
{
    let sealed = plan.version().row().sealed;
    match reason {
        BadImage::NoHeader => {
            if sealed {
                find_unpaired(device, plan)
            } else {
                find_uncounted(device, plan)
            }
        }
        BadImage::BadHeader => {
            if sealed {
                find_sealed_header(device, plan)
            } else {
                find_header(device, plan)
            }
        }
        BadImage::BadDirectory => find_directory(device, plan, entries),
        BadImage::BadFrame => find_saved(device, plan, entries, scratch),
        _ => unreachable!(),
    }
}

/// Returns the first place where one of the reasons 1 to 7 applies, which is the least that applies. `entries` has space
/// for the largest directory.
pub(crate) fn find_place<D: Device>(
    device: &mut D,
    reason: BadImage,
    entries: &mut [Entry],
    scratch: &mut Scratch,
) -> Result<SectorFault, OpenFault>
    requires room { 4096 ≤ length entries.old }
    requires bad { IsBadBy (D.disk device.old).seen (D.disk device.old).sectors reason }
    ensures found { IfOk result (IsFault (D.disk device.old).sectors (D.disk device.old).seen) }
    ensures refused { IfErr result IsNoReason }
    ensures reads { ReadsOnly (D.disk device.old) (D.disk device.new) }
    ensures cause { CountsOpen (D.disk device.old) (D.disk device.new) result }
{
    match reason {
        BadImage::Small => find_size(device),
        BadImage::NotASuperblock => find_mark(device),
        BadImage::BadGeometry => find_geometry(device),
        _ => {
            let plan = read_plan(device)?;
            find_behind(device, &plan, reason, entries, scratch)
        }
    }
}
