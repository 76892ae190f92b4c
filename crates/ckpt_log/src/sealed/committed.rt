// The committed header.
ghost use Rattle.std.specs.Prelude.{◌≡◌, ◌≤◌, ◌%◌, length, map, IfOk, IfErr};
ghost use Rattle.header_slots.specs.Committed.{IsRefused};
ghost use Rattle.header_slots.specs.Slots.{IsCommitted};
ghost use Rattle.layout.specs.Calls.{ReadsOnly};
ghost use Rattle.layout.specs.Fault.{CountsOpen};
ghost use Rattle.layout.specs.Header.{IsHeader};
ghost use Rattle.ckpt_log.specs.sealed.Committed.{HasHeader, HasNone};
ghost use Rattle.ckpt_log.specs.sealed.Reading.{HasNoneBy, IsChosen, number_of, numbered, numbers_of, reason_of};

use crate::sealed::opening::{HeaderSlot, read_slots};
use device::Device;
use header_slots::{NotCommitted, SlotNumbers, committed};
use layout::{BadImage, OpenFault, SealedHeader, is_header};

// The number of the first header of an image.
const FIRST_SEQUENCE: u64 = 2;

// Returns the sequence number of a header.
fn number_of(header: Option<SealedHeader>) -> Option<u64>
    ensures { result ≡ number_of header }
{
    match header {
        Some(header) => Some(header.header.sequence),
        None => None,
    }
}

/// Returns the numbers in three slots.
pub(crate) fn numbers_of(slots: &[HeaderSlot]) -> [SlotNumbers; 3]
    requires { length slots.now ≡ 3 }
    ensures { result ≡ map numbers_of slots.now }
{
    [
        SlotNumbers {
            header: number_of(slots[0].header),
            gate: slots[0].gate,
        },
        SlotNumbers {
            header: number_of(slots[1].header),
            gate: slots[1].gate,
        },
        SlotNumbers {
            header: number_of(slots[2].header),
            gate: slots[2].gate,
        },
    ]
}

/// Returns the committed header, which has this sequence number.
pub fn header_of(slots: &[HeaderSlot], sequence: u64) -> SealedHeader
    requires slots { length slots.now ≡ 3 }
    requires committed { IsCommitted (numbered slots.now) sequence }
    ensures number { result.header.sequence ≡ sequence }
    ensures chosen { IsChosen slots.now result }
{
    match slots[(sequence % 3) as usize].header {
        Some(header) => header,
        None => unreachable!(),
    }
}

/// Returns the sequence number of the committed header.
pub fn decide(slots: &[HeaderSlot]) -> Result<u64, NotCommitted>
    requires { length slots.now ≡ 3 }
    ensures ok { IfOk result (λ s. IsCommitted (numbered slots.now) s) }
    ensures err { IfErr result (λ why. IsRefused (numbered slots.now) why) }
{
    committed(&numbers_of(slots))
}

// Returns the reason to refuse an image without a committed header.
fn reason_of(why: NotCommitted) -> BadImage
    ensures { result ≡ reason_of why }
{
    match why {
        NotCommitted::NoPair => BadImage::NoHeader,
        NotCommitted::NextGate => BadImage::BadHeader,
    }
}

// Returns the committed header of three slots, if its fields are within their limits.
#[tactic(auto, using(crate::proofs::SealedReading::refused_by, crate::proofs::SealedReading::beyond_by))]
fn choose(slots: &[HeaderSlot], room: u64) -> Result<SealedHeader, BadImage>
    requires { length slots.now ≡ 3 }
    ensures found { IfOk result (λ h. IsChosen slots.now h) }
    ensures limits { IfOk result (λ h. IsHeader 2 room h.header) }
    ensures refused { IfErr result (λ why. HasNoneBy slots.now room why) }
{
    match decide(slots) {
        Err(why) => Err(reason_of(why)),
        Ok(sequence) => {
            let header = header_of(slots, sequence);
            if is_header(FIRST_SEQUENCE, room, header.header) {
                Ok(header)
            } else {
                Err(BadImage::BadHeader)
            }
        }
    }
}

/// Returns the committed header of an image whose log half has `room` slots. It allocates and writes nothing.
///
/// Returns `Failed` exactly if the device failed, else:
///
/// - `NoHeader` if no two headers with consecutive numbers count
/// - `BadHeader` if the gate of the next header has its number, or the committed header is beyond its limits
#[tactic(auto, using(crate::proofs::SealedReading::has_none))]
pub(crate) fn read_committed<D: Device>(
    device: &mut D,
    room: u64,
) -> Result<SealedHeader, OpenFault>
    requires inside { 56 ≤ (D.disk device.old).sectors }
    ensures found { IfOk result (λ h. HasHeader (D.disk device.old).seen room h) }
    ensures refused { IfErr result (λ e. HasNone (D.disk device.old).seen room e) }
    ensures reads { ReadsOnly (D.disk device.old) (D.disk device.new) }
    ensures cause { CountsOpen (D.disk device.old) (D.disk device.new) result }
{
    let slots = read_slots(device)?;
    Ok(choose(&slots, room)?)
}
