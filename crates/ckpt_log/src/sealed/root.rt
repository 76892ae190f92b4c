// The root of an image, computed unit by unit.
ghost use Rattle.std.specs.Prelude.{◌≡◌, ◌<◌, ◌^◌, []};
ghost use Rattle.seal.specs.declared.sums.Sums.{Sums};
ghost use Rattle.layout.specs.sealed.Root.{root_of};
ghost use Rattle.ckpt_log.specs.sealed.Units.{IsRootAfter, IsRootWith};

use layout::{add_unit, remove_unit};
use seal::Sums;

/// Returns the root of no units.
pub fn empty_root() -> Sums
    ensures { result ≡ root_of [] }
{
    Sums { a: 0, b: 0, c: 0 }
}

/// Returns the root with one more unit after the others: page `number`, or the cluster whose least node is
/// `number`, with this seal.
pub fn add_last(root: Sums, number: u64, seal: Sums) -> Sums
    requires { number < 2 ^ 63 }
    ensures { IsRootAfter number seal root result }
{
    add_unit(root, number, seal)
}

/// Returns the root after the unit of this number got the seal `new` instead of `old`.
pub fn replace_seal(root: Sums, number: u64, old: Sums, new: Sums) -> Sums
    requires { number < 2 ^ 63 }
    ensures { IsRootWith number old new root result }
{
    add_unit(remove_unit(root, number, old), number, new)
}
