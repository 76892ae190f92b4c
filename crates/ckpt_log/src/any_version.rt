// The log in any version of the layout.
ghost use Rattle.std.specs.Prelude.{◌≡◌, ◌-◌, ◌*◌, ◌≤◌, length, true, false, drop, replicate, IfOk, IfErr, OnOk};
ghost use Rattle.device.specs.Calls.{Counts, Only};
ghost use Rattle.device.specs.Moments.{Elapses, LeavesOnly};
ghost use Rattle.layout.specs.Calls.{ReadsOnly};
ghost use Rattle.layout.specs.Committed.{HasNoSums};
ghost use Rattle.layout.specs.Denoted.{AreEntriesOf, HasDirectory, HasHeader, sums_if};
ghost use Rattle.layout.specs.Fault.{CountsOpen};
ghost use Rattle.layout.specs.Image.{directory_sector, sectors_from};
ghost use Rattle.layout.specs.Version.{directory_length, row};
ghost use Rattle.layout.specs.sealed.Header.{header_numbers};
ghost use Rattle.layout.specs.sealed.Sector.{AreWords};
ghost use Rattle.ckpt_log.specs.AnyVersion.{CommitsNone, CommitsOne, HasCommitted, HasNew, HasNoCommitted, HasNoDirectory};
ghost use Rattle.ckpt_log.specs.AnyVersion.{HasNone, IsHeader, IsOldOrNew, KeepsOrHasNone, Precedes, SparesRest};
ghost use Rattle.ckpt_log.specs.AnyVersion.{WasKeptOrHasNone, gate_at, gate_row};
ghost use Rattle.ckpt_log.specs.Closing.{AreClosed, KeepsOrHasNone as KeepsPlain, WasKeptOrHasNone as WasKeptPlain};
ghost use Rattle.ckpt_log.specs.Commit.{IsInOrderAfter};
ghost use Rattle.ckpt_log.specs.sealed.Closing.{AreClosed as AreClosedSealed};
ghost use Rattle.ckpt_log.specs.sealed.Directory.{TouchesAt};
ghost use Rattle.ckpt_log.specs.sealed.Publish.{IsInOrder};

use crate::closing::close_gates;
use crate::log::Log;
use crate::sealed;
use crate::sealed::slot_of;
use device::{Device, Failed};
use layout::{CheckpointHeader, Entry, OpenFault, SealedHeader, Version};
use seal::Sums;

// Sums of a version without seals.
const NO_SUMS: Sums = Sums { a: 0, b: 0, c: 0 };

// A lemma as a function, which does nothing: the numbers of a header fit 8 bytes each.
fn header_fits(header: SealedHeader)
    ensures { AreWords (header_numbers header) }
{
    let _slot = slot_of(header);
}

// Returns a header of a version without seals.
fn unsealed(header: CheckpointHeader) -> SealedHeader
    ensures header { result.header ≡ header }
    ensures sums { HasNoSums result }
    ensures fits { AreWords (header_numbers result) }
{
    let header = SealedHeader {
        header,
        root: NO_SUMS,
        directory: NO_SUMS,
    };
    header_fits(header);
    header
}

impl<'a> Log<'a> {
    /// Commits a header. After `Ok` each crash leaves it committed, and all earlier writes are durable. Returns
    /// `Failed` exactly if the device failed; then the old header is committed, or the new one.
    ///
    /// The new sequence number must follow that of the committed header, and each crash before the call must leave
    /// the old header committed. In versions 1 and 2 root and directory sums must be zeros.
    ///
    /// It writes only the slot of the new header. In versions 1 and 2 that is first the gate with 0 and zeros, if it is
    /// open; then the header; then the gate with 1 and zeros. In version 3 it is the header, then the gate with its
    /// number. Each write is durable before the next.
    pub fn commit<D: Device>(&self, device: &mut D, header: SealedHeader) -> Result<(), Failed>
        requires fits { IsHeader self.now.version self.now.geometry.log header }
        requires inside { (row self.now.version).first_home ≤ (D.disk device.old).sectors }
        requires one { CommitsOne self.now.version (D.disk device.old) }
        requires next { Precedes self.now.version (D.disk device.old).seen header }

        ensures committed { OnOk result
            (HasNew self.now.version header (D.disk device.old).seen (D.disk device.new).seen) }
        ensures opened { OnOk result ((D.disk device.new).seen (gate_at self.now.version header)
            ≡ gate_row (row self.now.version).sealed header) }
        ensures durable { OnOk result (Only (D.disk device.new).seen (D.disk device.new)) }
        ensures size { (D.disk device.new).sectors ≡ (D.disk device.old).sectors }
        ensures elsewhere { SparesRest self.now.version header (D.disk device.old).seen (D.disk device.new).seen }

        // A crash at any moment leaves the old header committed, or this one. If it leaves this one, it also leaves
        // all that was written before the call.
        ensures any_moment { LeavesOnly (D.disk device.old) (D.disk device.new)
            (λ c. IsOldOrNew self.now.version header (D.disk device.old) c) }

        // Without seals: at each moment the slot has the old header, or a gate that was closed first, or the new header.
        ensures in_order { (row self.now.version).sealed ≡ false → LeavesOnly (D.disk device.old) (D.disk device.new)
            (λ c. IsInOrderAfter header.header (D.disk device.old) c) }

        // With seals: the gate is written after the header and all earlier writes are durable.
        ensures sealed_order { (row self.now.version).sealed ≡ true → LeavesOnly (D.disk device.old) (D.disk device.new)
            (λ c. IsInOrder header (D.disk device.old) c) }
        ensures cause { Counts (D.disk device.old) (D.disk device.new) result }
    {
        if self.is_sealed() {
            return sealed::publish(device, header);
        }
        header_fits(header);
        self.publish(device, header.header)
    }

    /// Writes the directory of the half of a generation, and returns its sums: zeros in versions 1 and 2. For all other
    /// sectors it keeps their bytes and adds nothing to what a crash may leave in them.
    ///
    /// It allocates nothing. If there are no entries it doesn't call the device. Returns `Failed` exactly if the device
    /// failed; then the sectors of the directory may hold any bytes. After the last entry, the rest of the last sector
    /// is 0, but for a seal.
    pub fn store_directory<D: Device>(
        &self,
        device: &mut D,
        generation: u64,
        entries: &[Entry],
    ) -> Result<Sums, Failed>
        requires few { length entries.now ≤ self.now.geometry.log }
        requires inside { self.now.total ≤ (D.disk device.old).sectors }
        ensures written { OnOk result (AreEntriesOf (D.disk device.new).seen self.now generation entries.now) }
        ensures sums { IfOk result (λ sums. sums ≡ sums_if (row self.now.version).sealed entries.now) }
        ensures touches { TouchesAt (directory_sector self.now generation)
            (directory_length self.now.version (length entries.now)) (D.disk device.old) (D.disk device.new) }
        ensures rest { (row self.now.version).sealed ≡ false → OnOk result (drop (16 * length entries.now)
            (sectors_from (D.disk device.new).seen (directory_sector self.now generation)
            (directory_length self.now.version (length entries.now)))
            ≡ replicate (512 * directory_length self.now.version (length entries.now) - 16 * length entries.now) 0) }
        ensures time { (row self.now.version).sealed ≡ false → Elapses (D.disk device.old) (D.disk device.new) }
        ensures untouched { length entries.now ≡ 0 → device.new ≡ device.old }
        ensures cause { Counts (D.disk device.old) (D.disk device.new) result }
    {
        if self.is_sealed() {
            let at = self.directory_sector(generation);
            return sealed::write_directory(device, at, entries);
        }
        self.write_directory(device, generation, entries)?;
        Ok(NO_SUMS)
    }

    /// Returns the committed header. It has the errors of `read_committed`, but for the directory's.
    pub fn read_header<D: Device>(&self, device: &mut D) -> Result<SealedHeader, OpenFault>
        requires inside { self.now.total ≤ (D.disk device.old).sectors }
        ensures found { IfOk result (λ h. HasHeader (D.disk device.old).seen self.now h) }
        ensures refused { IfErr result (λ e. HasNoCommitted (D.disk device.old).seen self.now e) }
        ensures reads { ReadsOnly (D.disk device.old) (D.disk device.new) }
        ensures cause { CountsOpen (D.disk device.old) (D.disk device.new) result }
    {
        if self.is_sealed() {
            return sealed::read_committed(device, self.geometry().log);
        }
        let header = self.find_header(device)?;
        Ok(unsealed(header))
    }

    // Reads the directory that a header names.
    fn read_named<D: Device>(
        &self,
        device: &mut D,
        header: SealedHeader,
        into: &mut [Entry],
    ) -> Result<(), OpenFault>
        requires header { HasHeader (D.disk device.old).seen self.now header }
        requires count { length into.old ≡ header.header.entries }
        requires inside { self.now.total ≤ (D.disk device.old).sectors }
        ensures found { OnOk result (HasDirectory (D.disk device.old).seen self.now header into.new) }
        ensures refused { IfErr result (λ e. HasNoDirectory (D.disk device.old).seen self.now header e) }
        ensures reads { ReadsOnly (D.disk device.old) (D.disk device.new) }
        ensures cause { CountsOpen (D.disk device.old) (D.disk device.new) result }
    {
        if self.is_sealed() {
            let at = self.directory_sector(header.header.generation);
            return sealed::read_directory(device, at, self.geometry(), header.directory, into);
        }
        self.read_directory(device, header.header.generation, into)
    }

    /// Returns the committed header, and puts its directory into the first entries of `directory`. It allocates and
    /// writes nothing.
    ///
    /// Returns `Failed` exactly if the device failed, else:
    ///
    /// - `NoHeader` if no header counts, or in version 3 no two with neighbouring numbers
    /// - `BadHeader` if the committed header is malformed, or in version 3 the next gate has its number
    /// - `BadDirectory` if its directory is malformed, or in version 3 its sums aren't the header's
    ///
    /// After an error `directory` may hold any entries.
    pub fn read_committed<D: Device>(
        &self,
        device: &mut D,
        directory: &mut [Entry],
    ) -> Result<SealedHeader, OpenFault>
        requires room { self.now.geometry.log ≤ length directory.old }
        requires inside { self.now.total ≤ (D.disk device.old).sectors }
        ensures found { IfOk result (λ h. HasCommitted (D.disk device.old).seen self.now h directory.new) }
        ensures refused { IfErr result (λ e. HasNone (D.disk device.old).seen self.now e) }
        ensures length { length directory.new ≡ length directory.old }
        ensures reads { ReadsOnly (D.disk device.old) (D.disk device.new) }
        ensures cause { CountsOpen (D.disk device.old) (D.disk device.new) result }
    {
        let header = self.read_header(device)?;
        let named = &mut directory[..header.header.entries as usize];
        self.read_named(device, header, named)?;
        Ok(header)
    }
}

/// Closes the gates of all headers of a version, so that none is committed. Then this and all earlier writes are
/// durable.
///
/// A crash at any moment leaves the image that it could have left before, with the same committed header, or none.
///
/// To ensure this, the gates are closed one after another. In versions 1 and 2 a closed gate isn't written, and the gate of
/// the committed header is the last. In version 3 the gates of headers that count are the first, the least number first.
///
/// It allocates nothing. Returns `Failed` exactly if the device failed.
pub fn close_gates_of<D: Device>(version: Version, device: &mut D) -> Result<(), Failed>
    requires inside { (row version).first_home ≤ (D.disk device.old).sectors }
    ensures none { OnOk result (CommitsNone version (D.disk device.new).seen) }
    ensures closed { (row version).sealed ≡ false → OnOk result (AreClosed (D.disk device.new).seen) }
    ensures sealed_closed { (row version).sealed ≡ true → OnOk result (AreClosedSealed (D.disk device.new).seen) }
    ensures durable { OnOk result (Only (D.disk device.new).seen (D.disk device.new)) }
    ensures size { (D.disk device.new).sectors ≡ (D.disk device.old).sectors }
    ensures seen { KeepsOrHasNone version (D.disk device.old).seen (D.disk device.new).seen }
    ensures any_moment { LeavesOnly (D.disk device.old) (D.disk device.new)
        (λ c. WasKeptOrHasNone version (D.disk device.old) c) }

    // Without seals the committed header's bytes stay, even if they are no valid header.
    ensures plain_seen { (row version).sealed ≡ false → KeepsPlain (D.disk device.old).seen (D.disk device.new).seen }
    ensures plain_moment { (row version).sealed ≡ false → LeavesOnly (D.disk device.old) (D.disk device.new)
        (λ c. WasKeptPlain (D.disk device.old) c) }
    ensures cause { Counts (D.disk device.old) (D.disk device.new) result }
{
    if version.row().sealed {
        return sealed::close_gates(device);
    }
    close_gates(device)
}
