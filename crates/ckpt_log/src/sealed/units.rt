// The units of an image: frames of pages, and clusters of nodes.
ghost use Rattle.std.specs.Prelude.{◌≡◌, ◌+◌, ◌*◌, ◌≤◌, length, take, drop, IfErr, IfOk, OnOk};
ghost use Rattle.device.specs.Calls.{Counts};
ghost use Rattle.layout.specs.Calls.{ReadsOnly, WritesAt};
ghost use Rattle.layout.specs.Fault.{CountsOpen};
ghost use Rattle.layout.specs.Image.{sectors_from};
ghost use Rattle.layout.specs.sealed.Cluster.{IsCluster};
ghost use Rattle.layout.specs.sealed.Sector.{seal_in};
ghost use Rattle.layout.specs.sealed.Summed.{IsSummed};
ghost use Rattle.ckpt_log.specs.sealed.Units.{IsBadBlock, IsBadCluster, IsBadPage, IsPageRead, page_seal};
ghost use Rattle.layout.specs.sealed.Page.{page_bytes};

use device::{Device, Failed, SECTOR_SIZE};
use layout::{
    BadImage, OpenFault, PageHeader, decode_page, is_cluster, is_summed, read_sectors,
    seal_cluster, seal_page, write_sectors,
};
use model::ObjectHeader;
use seal::{SUMS_BYTES, Sums, sums_of};

// How many sectors the frame of a page takes, and how many a cluster.
const PAGE_SECTORS: usize = 9;

const CLUSTER_SECTORS: usize = 8;

// Returns the sums in the seal of a sealed cluster.
fn cluster_seal(cluster: &[u8]) -> Sums
    requires { length cluster.now ≡ 4096 }
    ensures { result ≡ seal_in cluster.now }
{
    sums_of(&cluster[..CLUSTER_SECTORS * SECTOR_SIZE - SUMS_BYTES])
}

// Returns the sums in the seal of the header sector of a page's frame.
fn page_seal(frame: &[u8]) -> Sums
    requires { length frame.now ≡ 4608 }
    ensures { result ≡ page_seal frame.now }
{
    sums_of(&frame[..SECTOR_SIZE - SUMS_BYTES])
}

/// Writes a page's frame into the 9 sectors from `at` on, and returns its seal: that of its header sector. The words
/// lie in `frame` from byte 512 on; the header sector is written into its first 512 bytes.
///
/// All other sectors keep their bytes, and what a crash may leave in them doesn't change. It allocates
/// nothing. Returns `Failed` exactly if the device failed; then the 9 sectors may hold any bytes.
pub fn write_page<D: Device>(
    device: &mut D,
    at: u64,
    object: ObjectHeader,
    frame: &mut [u8],
) -> Result<Sums, Failed>
    requires frame { length frame.old ≡ 4608 }
    requires inside { at + 9 ≤ (D.disk device.old).sectors }
    ensures written { OnOk result (sectors_from (D.disk device.new).seen at 9
        ≡ page_bytes object (drop 512 frame.old)) }
    ensures frame { frame.new ≡ page_bytes object (drop 512 frame.old) }
    ensures seal { IfOk result (λ seal. seal ≡ page_seal frame.new) }
    ensures writes { WritesAt at 9 (D.disk device.old) (D.disk device.new) }
    ensures cause { Counts (D.disk device.old) (D.disk device.new) result }
{
    seal_page(object, frame);
    write_sectors(device, at, PAGE_SECTORS, frame)?;
    Ok(page_seal(frame))
}

/// Reads a page's frame from the 9 sectors from `at` on into `frame`, and returns its header and its seal. It allocates
/// nothing.
///
/// Returns `Failed` exactly if the device failed. Returns `BadFrame` exactly if the sectors are no frame that an image
/// of this age may have at the number of a page: the header sector isn't sealed or spells no such header, or the words
/// have other sums than it says. After `Failed`, `frame` may hold any bytes.
#[tactic(auto, using(crate::proofs::SealedWritten::page_refused))]
pub fn read_page<D: Device>(
    device: &mut D,
    at: u64,
    age: u64,
    frame: &mut [u8],
) -> Result<(PageHeader, Sums), OpenFault>
    requires frame { length frame.old ≡ 4608 }
    requires inside { at + 9 ≤ (D.disk device.old).sectors }
    ensures bytes { OnOk result (sectors_from (D.disk device.new).seen at 9 ≡ frame.new) }
    ensures found { IfOk result (λ read. IsPageRead age frame.new read) }
    ensures refused { IfErr result (λ e. IsBadPage age (sectors_from (D.disk device.new).seen at 9) e) }
    ensures reads { ReadsOnly (D.disk device.old) (D.disk device.new) }
    ensures cause { CountsOpen (D.disk device.old) (D.disk device.new) result }
{
    read_sectors(device, at, PAGE_SECTORS, frame)?;
    match decode_page(frame, age) {
        Some(header) => Ok((header, page_seal(frame))),
        None => Err(OpenFault::Bad(BadImage::BadFrame)),
    }
}

/// Reads a page's block from the 9 sectors from `at` on into `block`, and returns the seal of its header sector. It
/// allocates nothing, and doesn't check the frame's header.
///
/// Returns `Failed` exactly if the device failed. Returns `BadFrame` exactly if the first sector isn't a sealed header
/// sector with the sums of the words. After `Failed`, `block` may hold any bytes.
#[tactic(auto, using(crate::proofs::SealedWritten::block_refused))]
pub fn read_summed<D: Device>(device: &mut D, at: u64, block: &mut [u8]) -> Result<Sums, OpenFault>
    requires block { length block.old ≡ 4608 }
    requires inside { at + 9 ≤ (D.disk device.old).sectors }
    ensures bytes { OnOk result (sectors_from (D.disk device.new).seen at 9 ≡ block.new) }
    ensures found { IfOk result (λ seal. IsSummed block.new × (seal ≡ page_seal block.new)) }
    ensures refused { IfErr result (λ e. IsBadBlock (sectors_from (D.disk device.new).seen at 9) e) }
    ensures reads { ReadsOnly (D.disk device.old) (D.disk device.new) }
    ensures cause { CountsOpen (D.disk device.old) (D.disk device.new) result }
{
    read_sectors(device, at, PAGE_SECTORS, block)?;
    if is_summed(block) {
        Ok(page_seal(block))
    } else {
        Err(OpenFault::Bad(BadImage::BadFrame))
    }
}

/// Seals a cluster, writes it into the 8 sectors from `at` on, and returns its seal. The frames of its
/// `nodes` nodes, at most 5, lie in `cluster`, 800 bytes each; the bytes after them are written by this
/// function.
///
/// All other sectors keep their bytes, and what a crash may leave in them doesn't change. It allocates
/// nothing. Returns `Failed` exactly if the device failed; then the 8 sectors may hold any bytes.
pub fn write_cluster<D: Device>(
    device: &mut D,
    at: u64,
    nodes: u64,
    cluster: &mut [u8],
) -> Result<Sums, Failed>
    requires nodes { nodes ≤ 5 }
    requires cluster { length cluster.old ≡ 4096 }
    requires inside { at + 8 ≤ (D.disk device.old).sectors }
    ensures written { OnOk result (sectors_from (D.disk device.new).seen at 8 ≡ cluster.new) }
    ensures sealed { IsCluster nodes cluster.new }
    ensures frames { take (800 * nodes) cluster.new ≡ take (800 * nodes) cluster.old }
    ensures seal { IfOk result (λ seal. seal ≡ seal_in cluster.new) }
    ensures writes { WritesAt at 8 (D.disk device.old) (D.disk device.new) }
    ensures cause { Counts (D.disk device.old) (D.disk device.new) result }
{
    seal_cluster(cluster, nodes);
    write_sectors(device, at, CLUSTER_SECTORS, cluster)?;
    Ok(cluster_seal(cluster))
}

/// Reads a cluster of `nodes` nodes, at most 5, from the 8 sectors from `at` on into `cluster`, and returns its seal.
/// It allocates nothing, and checks no frame.
///
/// Returns `Failed` exactly if the device failed. Returns `BadFrame` exactly if the sectors are no such cluster: they
/// aren't sealed, or a byte between the frames and the seal isn't 0. After `Failed`, `cluster` may hold any bytes.
#[tactic(auto, using(crate::proofs::SealedWritten::cluster_refused))]
pub fn read_cluster<D: Device>(
    device: &mut D,
    at: u64,
    nodes: u64,
    cluster: &mut [u8],
) -> Result<Sums, OpenFault>
    requires nodes { nodes ≤ 5 }
    requires cluster { length cluster.old ≡ 4096 }
    requires inside { at + 8 ≤ (D.disk device.old).sectors }
    ensures bytes { OnOk result (sectors_from (D.disk device.new).seen at 8 ≡ cluster.new) }
    ensures found { IfOk result (λ seal. IsCluster nodes cluster.new × (seal ≡ seal_in cluster.new)) }
    ensures refused { IfErr result (λ e. IsBadCluster nodes (sectors_from (D.disk device.new).seen at 8) e) }
    ensures reads { ReadsOnly (D.disk device.old) (D.disk device.new) }
    ensures cause { CountsOpen (D.disk device.old) (D.disk device.new) result }
{
    read_sectors(device, at, CLUSTER_SECTORS, cluster)?;
    if is_cluster(cluster, nodes) {
        Ok(cluster_seal(cluster))
    } else {
        Err(OpenFault::Bad(BadImage::BadFrame))
    }
}
