// Writes all frames that share a home, to any sectors.
ghost use Rattle.std.specs.Prelude.{◌≡◌, ◌+◌, ◌*◌, ◌≤◌, ℕ, length, take, true, IfOk, OnOk};
ghost use Rattle.device.specs.Calls.{Counts};
ghost use Rattle.layout.specs.Frame.{front_bytes};
ghost use Rattle.layout.specs.Homes.{home_place, place_length, shape_of};
ghost use Rattle.layout.specs.Image.{sectors_from};
ghost use Rattle.layout.specs.Superblock.{IsPlan};
ghost use Rattle.layout.specs.Calls.{WritesAt};
ghost use Rattle.layout.specs.Frames.{IsObject};
ghost use Rattle.layout.specs.Shape.{IsBlankFrom, IsPageShape, shape_bytes};
ghost use Rattle.layout.specs.Version.{row};
ghost use Rattle.layout.specs.sealed.Cluster.{IsCluster};
ghost use Rattle.layout.specs.sealed.Sector.{seal_in};
ghost use Rattle.layout.specs.sealed.Summed.{IsSummed};
ghost use Rattle.model.specs.Frame.{frames_in};
ghost use Rattle.model.specs.Sound.{object_count};
ghost use Rattle.home_ranges.specs.Home.{EndsInZeros};
ghost use Rattle.image_writer.specs.Homes.{AreFramesOf, Ends, LieAt, unit_of};

use device::{Device, Failed, SECTOR_SIZE};
use home_ranges::Home;
use layout::{BLOCK_BYTES, Shape, put_frame, put_sums, seal_cluster, write_sectors};
use model::{Cap, Content, ObjectHeader};
use seal::{SUMS_BYTES, Sums, sums_of};

// How many bytes a cluster takes in a version with seals.
const CLUSTER_BYTES: usize = 4096;

// Fills a block of zeros with the frames of all objects that share the home of `number`. Each frame has the header
// and the content of its object in `headers` and `contents`.
fn fill_block(
    home: &Home,
    number: u64,
    headers: &[ObjectHeader],
    contents: &[Content<Cap>],
    block: &mut [u8],
)
    requires object { IsObject home.now.geometry number }
    requires headers { length headers.now ≡ object_count home.now.geometry }
    requires contents { length contents.now ≡ object_count home.now.geometry }
    requires block { length block.old ≡ 4608 }
    requires blank { IsBlankFrom 0 block.old }
    ensures frames { AreFramesOf home.now (frames_in headers.now contents.now) number block.new }
    ensures zeros { EndsInZeros home.now number block.new }
    ensures size { length block.new ≡ 4608 }
{
    let geometry = home.geometry();
    let first = home.first(number);
    for k in 0..home.sharers(first) {
        let n = first + k;
        let content = contents[n as usize].as_ref();
        put_frame(
            geometry,
            n,
            headers[n as usize],
            content,
            home.shape(n),
            block,
        );
    }
}

// Writes the sums of the words and a seal into a page's block, and returns the seal.
fn seal_page(header: ObjectHeader, shape: Shape, block: &mut [u8; BLOCK_BYTES]) -> Sums
    requires sums { shape.has_sums ≡ true }
    requires page { IsPageShape shape }
    requires front { take 32 block.old ≡ front_bytes header }
    ensures frame { shape_bytes shape block.new ≡ shape_bytes shape block.old }
    ensures summed { IsSummed block.new }
    ensures seal { result ≡ seal_in (take 512 block.new) }
{
    put_sums(header, shape, block);
    sums_of(&block[..SECTOR_SIZE - SUMS_BYTES])
}

// Writes zeros and a seal after the frames of a cluster's nodes, and returns the seal.
fn seal_nodes(cluster: &mut [u8], nodes: u64) -> Sums
    requires nodes { nodes ≤ 5 }
    requires cluster { length cluster.old ≡ 4096 }
    ensures sealed { IsCluster nodes cluster.new }
    ensures frames { take (800 * nodes) cluster.new ≡ take (800 * nodes) cluster.old }
    ensures seal { result ≡ seal_in cluster.new }
    ensures size { length cluster.new ≡ 4096 }
{
    seal_cluster(cluster, nodes);
    sums_of(&cluster[..CLUSTER_BYTES - SUMS_BYTES])
}

// Seals a block that has the frames of all objects that share the home of `number`, if the version has seals. Returns
// the seal, or zeros. All frames stay.
fn seal_block(home: &Home, number: u64, header: ObjectHeader, block: &mut [u8; BLOCK_BYTES]) -> Sums
    requires object { IsObject home.now.geometry number }
    requires front { (shape_of home.now number).has_sums ≡ true → take 32 block.old ≡ front_bytes header }
    requires zeros { EndsInZeros home.now number block.old }
    ensures frames { (a : ℕ) → IsObject home.now.geometry a → home_place home.now a ≡ home_place home.now number →
        shape_bytes (shape_of home.now a) block.new ≡ shape_bytes (shape_of home.now a) block.old }
    ensures ends { Ends home.now number (take (512 * place_length home.now number) block.new) }
    ensures seal { (row home.now.version).sealed ≡ true →
        result ≡ seal_in (unit_of home.now number (take (512 * place_length home.now number) block.new)) }
{
    let shape = home.shape(number);
    let sealed = home.is_sealed();
    if shape.has_sums {
        seal_page(header, shape, block)
    } else if sealed {
        let nodes = home.cluster_count(home.first(number));
        seal_nodes(&mut block[..CLUSTER_BYTES], nodes)
    } else {
        Sums { a: 0, b: 0, c: 0 }
    }
}

/// Writes the block of a home to the sectors from `at` on: the frames of all objects that share the home of
/// `number`, and zeros after them. In a version with seals it writes a seal into the block and returns it, else zeros.
/// Returns `Failed` exactly if the device failed.
pub(crate) fn write_shared<D: Device>(
    device: &mut D,
    home: &Home,
    at: u64,
    number: u64,
    headers: &[ObjectHeader],
    contents: &[Content<Cap>],
) -> Result<Sums, Failed>
    requires plan { IsPlan home.now }
    requires object { IsObject home.now.geometry number }
    requires headers { length headers.now ≡ object_count home.now.geometry }
    requires contents { length contents.now ≡ object_count home.now.geometry }
    requires inside { at + place_length home.now number ≤ (D.disk device.old).sectors }
    ensures written { OnOk result (LieAt home.now (frames_in headers.now contents.now) number at
        (D.disk device.new).seen) }
    ensures seal { IfOk result (λ seal. (row home.now.version).sealed ≡ true → seal ≡ seal_in
        (unit_of home.now number (sectors_from (D.disk device.new).seen at (place_length home.now number)))) }
    ensures writes { WritesAt at (place_length home.now number) (D.disk device.old) (D.disk device.new) }
    ensures cause { Counts (D.disk device.old) (D.disk device.new) result }
{
    let mut block = [0; BLOCK_BYTES];
    fill_block(home, number, headers, contents, &mut block);
    let seal = seal_block(home, number, headers[number as usize], &mut block);
    let sectors = home.shape(number).sectors as usize;
    write_sectors(device, at, sectors, &block[..SECTOR_SIZE * sectors])?;
    Ok(seal)
}
