// The first entry of a cluster. When its turn comes, the whole cluster is completed or copied home.
ghost use Rattle.std.specs.Prelude.{◌≡◌, ◌<◌, ◌-◌, true, false, length};
ghost use Rattle.layout.specs.Directory.{IsDirectory, entry_at};
ghost use Rattle.layout.specs.Homes.{home_place};
ghost use Rattle.migrator.specs.Gathered.{IsFirst};

use home_ranges::Home;
use layout::{Entry, Superblock};

/// Whether this is the first entry of its cluster.
pub(crate) fn is_first(plan: &Superblock, entries: &[Entry], index: usize) -> bool
    requires directory { IsDirectory plan.now.geometry entries.now }
    requires within { index < length entries.now }
    ensures yes { result ≡ true → IsFirst plan.now entries.now index }
    ensures no { result ≡ false → (0 < index)
        × (home_place plan.now (entry_at entries.now (index - 1)).object
        ≡ home_place plan.now (entry_at entries.now index).object) }
{
    if index == 0 {
        return true;
    }
    let home = Home::new(plan);
    home.place(entries[index - 1].object) != home.place(entries[index].object)
}
