// Writes the homes of all objects.
ghost use Rattle.std.specs.Prelude.{◌≡◌, ◌-◌, ◌≤◌, length, true, IfOk, OnOk};
ghost use Rattle.device.specs.Calls.{Counts, Elsewhere};
ghost use Rattle.device.specs.Moments.{LeavesOnly};
ghost use Rattle.layout.specs.Superblock.{IsPlan};
ghost use Rattle.layout.specs.Version.{row};
ghost use Rattle.layout.specs.sealed.Root.{root_of};
ghost use Rattle.model.specs.Frame.{frames_in};
ghost use Rattle.model.specs.Sound.{object_count};
ghost use Rattle.image_writer.specs.Parts.{AreHomes, IsShut, LeavesShut, home_units};

use crate::blocks::write_shared;
use ckpt_log::sealed::{add_last, empty_root};
use device::{Device, Failed};
use home_ranges::Home;
use model::{Cap, Content, ObjectHeader};
use seal::Sums;

/// Writes the homes of all `count` objects, each home once. Each frame has the header and the content of its object,
/// and the rest of a block is zeros. Returns the root of the units at home, in a version with seals. All gates must be
/// closed, and a crash at any moment leaves them closed. Returns `Failed` exactly if the device failed.
pub(crate) fn write_homes<D: Device>(
    device: &mut D,
    home: &Home,
    count: u64,
    headers: &[ObjectHeader],
    contents: &[Content<Cap>],
) -> Result<Sums, Failed>
    requires plan { IsPlan home.now }
    requires count { count ≡ object_count home.now.geometry }
    requires headers { length headers.now ≡ count }
    requires contents { length contents.now ≡ count }
    requires inside { home.now.total ≤ (D.disk device.old).sectors }
    requires shut { LeavesShut home.now (D.disk device.old) }
    ensures home { OnOk result (AreHomes home.now (frames_in headers.now contents.now) count
        (D.disk device.new).seen) }
    ensures root { IfOk result (λ root. (row home.now.version).sealed ≡ true
        → root ≡ root_of (home_units (D.disk device.new).seen home.now count)) }
    ensures shut { LeavesShut home.now (D.disk device.new) }
    ensures elsewhere { Elsewhere (row home.now.version).first_home (home.now.total - (row home.now.version).first_home)
        (D.disk device.old).seen (D.disk device.new).seen }
    ensures size { (D.disk device.new).sectors ≡ (D.disk device.old).sectors }
    ensures any_moment { LeavesOnly (D.disk device.old) (D.disk device.new) (λ c. IsShut home.now c) }
    ensures cause { Counts (D.disk device.old) (D.disk device.new) result }
{
    let mut root = empty_root();
    for number in 0..count {
        if home.first(number) == number {
            let at = home.place(number);
            let seal = write_shared(device, home, at, number, headers, contents)?;
            root = add_last(root, number, seal);
        }
    }
    Ok(root)
}
