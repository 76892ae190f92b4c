// Frames that fill their blocks.
ghost use Rattle.std.specs.Prelude.{◌≡◌, ◌*◌, ◌≤◌, ◌↔◌, IsTrue};

use device::SECTOR_SIZE;
use layout::Shape;

/// Whether a frame of this shape fills its block, as a page's does.
pub(crate) fn is_whole(shape: Shape) -> bool
    requires { shape.sectors ≤ 9 }
    ensures { IsTrue result ↔ (shape.bytes ≡ 512 * shape.sectors) }
{
    shape.bytes == SECTOR_SIZE as u64 * shape.sectors
}
