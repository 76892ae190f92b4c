// Reading the parts of an image that has them.
ghost use Rattle.std.specs.Prelude.{◌≡◌, ◌+◌, ◌++◌, ◌≤◌, drop, length, take, IfErr, IfOk, List};
ghost use Rattle.image_explainer.specs.SectorFinding.{IsNoReason};
ghost use Rattle.layout.specs.Bytes.{number, number_from};
ghost use Rattle.layout.specs.Calls.{ReadsOnly};
ghost use Rattle.layout.specs.Denoted.{HasDirectory, HasHeader, HasPlan};
ghost use Rattle.layout.specs.Fault.{CountsOpen};
ghost use Rattle.layout.specs.Superblock.{Plan};
ghost use Rattle.layout.specs.declared.directory.Entry.{Entry};
ghost use Rattle.layout.specs.declared.sealed.header.SealedHeader.{SealedHeader};

use byteorder::{ByteOrder, LittleEndian};
use ckpt_log::Log;
use device::Device;
use layout::{Entry, OpenFault, SealedHeader, Superblock};
use migrator::read_superblock;

/// Returns the little-endian number in the eight bytes from `at` on.
#[tactic(auto, unfolding(layout::specs::Bytes::number_from))]
pub(crate) fn number_at(bytes: &[u8], at: usize) -> u64
    requires { at + 8 ≤ length bytes.now }
    ensures value { result ≡ number_from (drop at bytes.now) }
    ensures rest { drop at bytes.now ≡ number result ++ drop (at + 8) bytes.now }
{
    LittleEndian::read_u64(&bytes[at..])
}

/// Reads the superblock of an image that has one.
pub(crate) fn read_plan<D: Device>(device: &mut D) -> Result<Superblock, OpenFault>
    requires { (p : Plan) × HasPlan (D.disk device.old).seen (D.disk device.old).sectors p }
    ensures found { IfOk result (HasPlan (D.disk device.old).seen (D.disk device.old).sectors) }
    ensures refused { IfErr result IsNoReason }
    ensures reads { ReadsOnly (D.disk device.old) (D.disk device.new) }
    ensures cause { CountsOpen (D.disk device.old) (D.disk device.new) result }
{
    read_superblock(device)
}

/// Reads the committed header of an image that has one.
pub(crate) fn read_header<D: Device>(
    device: &mut D,
    plan: &Superblock,
) -> Result<SealedHeader, OpenFault>
    requires inside { plan.now.total ≤ (D.disk device.old).sectors }
    requires header { (h : SealedHeader) × HasHeader (D.disk device.old).seen plan.now h }
    ensures found { IfOk result (HasHeader (D.disk device.old).seen plan.now) }
    ensures refused { IfErr result IsNoReason }
    ensures reads { ReadsOnly (D.disk device.old) (D.disk device.new) }
    ensures cause { CountsOpen (D.disk device.old) (D.disk device.new) result }
{
    Log::new(plan).read_header(device)
}

/// Reads the committed header and the directory of an image that has both. Puts the directory into the first entries of
/// `directory`.
pub(crate) fn read_directory<D: Device>(
    device: &mut D,
    plan: &Superblock,
    directory: &mut [Entry],
) -> Result<SealedHeader, OpenFault>
    requires inside { plan.now.total ≤ (D.disk device.old).sectors }
    requires room { plan.now.geometry.log ≤ length directory.old }
    requires there { (h : SealedHeader) × (es : List Entry) × HasHeader (D.disk device.old).seen plan.now h
        × HasDirectory (D.disk device.old).seen plan.now h es }
    ensures header { IfOk result (HasHeader (D.disk device.old).seen plan.now) }
    ensures directory { IfOk result (λ h.
        HasDirectory (D.disk device.old).seen plan.now h (take h.header.entries directory.new)) }
    ensures length { length directory.new ≡ length directory.old }
    ensures refused { IfErr result IsNoReason }
    ensures reads { ReadsOnly (D.disk device.old) (D.disk device.new) }
    ensures cause { CountsOpen (D.disk device.old) (D.disk device.new) result }
{
    Log::new(plan).read_committed(device, directory)
}
