// Sealed clusters of nodes.
ghost use Rattle.std.specs.Prelude.{◌≡◌, ◌*◌, ◌≤◌, ◌↔◌, length, take, IsTrue};
ghost use Rattle.layout.specs.sealed.Cluster.{IsCluster};

use crate::bytes::{are_zeros, blank_from};
use seal::{is_sealed, seal};

// How many bytes the frame of a node takes.
const PLACE_BYTES: usize = 800;

// Where the seal of a cluster begins.
const CLUSTER_SEAL_AT: usize = 4072;

/// Seals the 4096 bytes of a cluster with the frames of `nodes` nodes, at most 5. The frames stay; the bytes between
/// them and the seal are set to 0.
pub fn seal_cluster(cluster: &mut [u8], nodes: u64)
    requires nodes { nodes ≤ 5 }
    requires cluster { length cluster.old ≡ 4096 }
    ensures sealed { IsCluster nodes cluster.new }
    ensures frames { take (800 * nodes) cluster.new ≡ take (800 * nodes) cluster.old }
    ensures size { length cluster.new ≡ 4096 }
{
    blank_from(cluster, PLACE_BYTES * nodes as usize);
    seal(cluster);
}

/// Whether the 4096 bytes of a cluster are sealed, and 0 between the frames of `nodes` nodes, at most 5, and the seal.
pub fn is_cluster(cluster: &[u8], nodes: u64) -> bool
    requires nodes { nodes ≤ 5 }
    requires cluster { length cluster.now ≡ 4096 }
    ensures { IsTrue result ↔ IsCluster nodes cluster.now }
{
    let end = PLACE_BYTES * nodes as usize;
    is_sealed(cluster) && are_zeros(&cluster[end..CLUSTER_SEAL_AT])
}
