// Home frames over a device.
ghost use Rattle.std.specs.Prelude.{◌≡◌, ◌*◌, ◌≤◌, length, IfOk, IfErr, OnOk};
ghost use Rattle.device.specs.Calls.{Counts};
ghost use Rattle.layout.specs.Frame.{IsFrameOf, frame_of};
ghost use Rattle.layout.specs.Homes.{home_place, place_length};
ghost use Rattle.layout.specs.Image.{bytes_at, sectors_from};
ghost use Rattle.layout.specs.Calls.{ReadsOnly, WritesAt};
ghost use Rattle.layout.specs.Fault.{CountsOpen};
ghost use Rattle.layout.specs.Frames.{IsObject, IsRefused};
ghost use Rattle.home_ranges.specs.Home.{HoldsHome};

use crate::home::Home;
use device::{Device, Failed};
use layout::{Body, OpenFault, Scratch, read_frame, write_sectors};
use model::ObjectHeader;

impl<'a> Home<'a> {
    /// Reads the home frame of an object. It puts the slots of a node or an annex and the words of a
    /// page into `scratch`, and allocates nothing.
    ///
    /// Returns `Failed` exactly if the device failed. Returns `BadFrame` exactly if the home sectors encode no frame
    /// that an image of this age may hold. After either, `scratch` may hold any slots and words.
    pub fn read_frame<D: Device>(
        &self,
        device: &mut D,
        number: u64,
        age: u64,
        scratch: &mut Scratch,
    ) -> Result<(ObjectHeader, Body), OpenFault>
        requires object { IsObject self.now.geometry number }
        requires inside { self.now.total ≤ (D.disk device.old).sectors }
        ensures found { IfOk result (λ read. IsFrameOf self.now.geometry age number
            (bytes_at (D.disk device.new).seen (home_place self.now number) self.now number)
            (frame_of read scratch.new)) }
        ensures refused { IfErr result (λ e. IsRefused self.now.geometry age number
            (bytes_at (D.disk device.new).seen (home_place self.now number) self.now number)
            e) }
        ensures reads { ReadsOnly (D.disk device.old) (D.disk device.new) }
        ensures cause { CountsOpen (D.disk device.old) (D.disk device.new) result }
    {
        let at = self.place(number);
        let shape = self.shape(number);
        read_frame(device, at, shape, self.geometry(), number, age, scratch)
    }

    /// Writes all sectors of the home of an object: for a node, these also hold the frames of the other nodes
    /// of its cluster. All other sectors keep their bytes, and what a crash may leave in them doesn't change.
    ///
    /// Returns `Failed` exactly if the device failed; then the sectors of the home may hold any bytes.
    #[tactic(auto, using(crate::proofs::Places::bytes_home))]
    pub fn write_frame<D: Device>(
        &self,
        device: &mut D,
        number: u64,
        bytes: &[u8],
    ) -> Result<(), Failed>
        requires object { IsObject self.now.geometry number }
        requires size { length bytes.now ≡ 512 * place_length self.now number }
        requires inside { self.now.total ≤ (D.disk device.old).sectors }
        ensures written { OnOk result
            (HoldsHome self.now number bytes.now (D.disk device.new).seen) }
        ensures bytes { OnOk result (sectors_from (D.disk device.new).seen (home_place self.now number)
            (place_length self.now number) ≡ bytes.now) }
        ensures writes { WritesAt (home_place self.now number)
            (place_length self.now number) (D.disk device.old) (D.disk device.new) }
        ensures cause { Counts (D.disk device.old) (D.disk device.new) result }
    {
        let at = self.place(number);
        let shape = self.shape(number);
        write_sectors(device, at, shape.sectors as usize, bytes)
    }
}
