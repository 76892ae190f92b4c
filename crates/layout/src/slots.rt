// Capabilities one after the other.
ghost use Rattle.std.specs.Prelude.{◌≡◌, ◌*◌, ◌-◌, ◌++◌, ◌<◌, ◌≤◌, ◌↔◌, List, length, replicate, IsTrue, OnOk, IfErr};
ghost use Rattle.std.specs.List.{All};
ghost use Rattle.model.specs.declared.capability.Cap.{Cap};
ghost use Rattle.model.specs.Frame.{void_held};
ghost use Rattle.model.specs.Keepable.{AreKeptSlots};
ghost use Rattle.layout.specs.Frame.{slots_bytes};

use crate::bad_image::BadImage;
use crate::capability::{CAPABILITY_BYTES, decode_capability, encode_capability};
use model::{Cap, Geometry, Slots};

// Whether all capabilities are void.
fn are_void(caps: &[Cap]) -> bool
    ensures { IsTrue result ↔ All (λ c. c ≡ void_held) caps.now }
{
    let void = Cap::void();
    caps.iter().all(|cap| *cap == void)
}

// Whether both slices hold the same capabilities.
fn are_same(caps: &[Cap], others: &[Cap]) -> bool
    ensures { IsTrue result ↔ (caps.now ≡ others.now) }
{
    caps == others
}

/// Whether 32 slots hold `caps` first, and void capabilities after them.
pub fn are_held(caps: &[Cap], slots: &[Cap]) -> bool
    requires size { length slots.now ≡ 32 }
    requires few { length caps.now ≤ 32 }
    ensures { IsTrue result ↔ (slots.now ≡ caps.now ++ replicate (32 - length caps.now) void_held) }
{
    are_same(&slots[..caps.len()], caps) && are_void(&slots[caps.len()..])
}

/// Writes capabilities one after the other, 24 bytes each.
#[tactic(auto, using(crate::proofs::SlotLists::slot_written))]
pub fn encode_slots(caps: &[Cap], into: &mut [u8])
    requires { length into.old ≡ 24 * length caps.now }
    ensures { into.new ≡ slots_bytes caps.now }
{
    for (i, cap) in caps.iter().enumerate() {
        let at = CAPABILITY_BYTES * i;
        encode_capability(*cap, &mut into[at..at + CAPABILITY_BYTES]);
    }
}

/// Reads 32 capabilities from 768 bytes. Returns `BadFrame` if some 24 bytes encode no capability that an image of
/// this geometry and age may hold. Then `into` may hold any capabilities.
pub fn decode_slots(
    bytes: &[u8],
    geometry: Geometry,
    age: u64,
    into: &mut Slots<Cap>,
) -> Result<(), BadImage>
    requires { length bytes.now ≡ 768 }
    ensures found { OnOk result (AreKeptSlots geometry age into.new
        × (bytes.now ≡ slots_bytes into.new)) }
    ensures refused { IfErr result (λ e. (e ≡ BadImage.BadFrame)
        × ((slots : List Cap) → AreKeptSlots geometry age slots
        → bytes.now ≡ slots_bytes slots → ⊥)) }
{
    for i in 0..into.as_slice().len() {
        let at = CAPABILITY_BYTES * i;
        let cap = decode_capability(&bytes[at..at + CAPABILITY_BYTES], geometry, age)?;
        into.set(i, cap);
    }
    Ok(())
}
