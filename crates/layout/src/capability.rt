// Capabilities as bytes.
ghost use Rattle.std.specs.Prelude.{◌≡◌, ◌+◌, ◌*◌, ◌%◌, ◌<◌, ◌↔◌, length, IsTrue, IfOk, IfErr};
ghost use Rattle.model.specs.declared.access.Access.{Access};
ghost use Rattle.model.specs.declared.capability.Cap.{Cap};
ghost use Rattle.model.specs.Keepable.{Follows, IsKeptCap};
ghost use Rattle.layout.specs.Capability.{capability_bytes, head_number, HeadFits, number_of, assembled};

use crate::bad_image::BadImage;
use crate::bytes::{number_at, put_number};
use bitflags::Flags;
use model::{Access, Cap, Capability, Geometry};

/// How many bytes a capability takes.
pub const CAPABILITY_BYTES: usize = 24;

// The three numbers in a capability's bytes.
#[derive(Clone, Copy)]
struct Numbers {
    // The tag in bits 0 to 7, the access in bits 8 to 15, the key in bits 16 to 31, and the height in bits 32 to 39.
    head: u64,
    // The number of the object that the capability names, or the data of a number capability.
    object: u64,
    count: u64,
}

// Returns the numbers in the bytes of a capability.
fn numbers_of(cap: Cap) -> Numbers
    ensures head { result.head ≡ head_number cap.what }
    ensures object { result.object ≡ number_of cap.what }
    ensures count { result.count ≡ cap.count }
    ensures fits { HeadFits cap.what }
{
    let (head, object) = match cap.what {
        Capability::Void => (0, 0),
        Capability::Number(number) => (1, number),
        Capability::Page { object, access } => (2 + 256 * access.bits() as u64, object),
        Capability::Node { object, access } => (3 + 256 * access.bits() as u64, object),
        Capability::Space {
            object,
            height,
            access,
        } => (
            4 + 256 * access.bits() as u64 + 4294967296 * height as u64,
            object,
        ),
        Capability::Process(process) => (5, process),
        Capability::Start { process, key } => (6 + 65536 * key as u64, process),
        Capability::Resume(process) => (7, process),
        Capability::Bank(bank) => (8, bank),
        Capability::Discrim => (9, 0),
    };
    let count = cap.count;
    Numbers {
        head,
        object,
        count,
    }
}

// Whether an image of this geometry and age may hold a capability: its number is one for its kind of object,
// and its count is at most the age. A capability that names no object must have count 0.
fn is_capability(geometry: Geometry, age: u64, cap: Cap) -> bool
    ensures { IsTrue result ↔ IsKeptCap geometry age cap }
{
    match cap.what {
        Capability::Void | Capability::Number(_) | Capability::Discrim => cap.count == 0,
        Capability::Page { .. }
        | Capability::Node { .. }
        | Capability::Space { .. }
        | Capability::Process(_)
        | Capability::Start { .. }
        | Capability::Resume(_)
        | Capability::Bank(_) => {
            cap.what.is_well_formed() && geometry.has_target(cap.what) && cap.count <= age
        }
    }
}

// A decoded capability, and whether the bytes are its valid encoding.
#[derive(Drop)]
struct Reading {
    what: Capability,
    is_spelt: bool,
}

// Returns `what`, and whether it has these numbers and an image of this geometry and age may hold it.
#[inline(always)]
fn read_as(what: Capability, numbers: Numbers, geometry: Geometry, age: u64) -> Reading
    ensures what { result.what ≡ what }
    ensures spelt { IsTrue result.is_spelt ↔ ((head_number what ≡ numbers.head)
        × (number_of what ≡ numbers.object) × Follows geometry age numbers.count what) }
    ensures fits { HeadFits what }
{
    let count = numbers.count;
    let cap = Cap { what, count };
    let same = numbers_of(cap);
    let is_same = same.head == numbers.head && same.object == numbers.object;
    let is_spelt = is_same && is_capability(geometry, age, cap);
    Reading { what, is_spelt }
}

// Returns the capability with the tag in `numbers`, made from the fields that its kind has. Also returns
// whether `numbers` are its valid encoding.
#[inline(always)]
fn assembled(
    access: Access,
    key: u16,
    height: u8,
    numbers: Numbers,
    geometry: Geometry,
    age: u64,
) -> Reading
    ensures what { result.what ≡ assembled (numbers.head % 256) access key height numbers.object }
    ensures spelt { IsTrue result.is_spelt ↔ ((head_number result.what ≡ numbers.head)
        × (number_of result.what ≡ numbers.object)
        × Follows geometry age numbers.count result.what) }
    ensures fits { HeadFits result.what }
{
    let object = numbers.object;
    match numbers.head % 256 {
        0 => read_as(Capability::Void, numbers, geometry, age),
        1 => read_as(Capability::Number(object), numbers, geometry, age),
        2 => read_as(Capability::Page { object, access }, numbers, geometry, age),
        3 => read_as(Capability::Node { object, access }, numbers, geometry, age),
        4 => {
            let space = Capability::Space {
                object,
                height,
                access,
            };
            read_as(space, numbers, geometry, age)
        }
        5 => read_as(Capability::Process(object), numbers, geometry, age),
        6 => {
            let process = object;
            read_as(Capability::Start { process, key }, numbers, geometry, age)
        }
        7 => read_as(Capability::Resume(object), numbers, geometry, age),
        8 => read_as(Capability::Bank(object), numbers, geometry, age),
        _ => read_as(Capability::Discrim, numbers, geometry, age),
    }
}

/// Writes the 24 bytes of a capability into `into`.
pub fn encode_capability(cap: Cap, into: &mut [u8])
    requires { length into.old ≡ 24 }
    ensures { into.new ≡ capability_bytes cap }
{
    let numbers = numbers_of(cap);
    put_number(into, 0, numbers.head);
    put_number(into, 8, numbers.object);
    put_number(into, 16, numbers.count);
}

/// Reads a capability from its 24 bytes. Its number must be one for its kind of object on a device of this
/// geometry, and its count at most the age.
///
/// Returns `BadFrame` if the bytes encode no such capability.
#[inline(always)]
pub fn decode_capability(bytes: &[u8], geometry: Geometry, age: u64) -> Result<Cap, BadImage>
    requires { length bytes.now ≡ 24 }
    ensures found { IfOk result (λ c. IsKeptCap geometry age c
        × (bytes.now ≡ capability_bytes c)) }
    ensures refused { IfErr result (λ e. (e ≡ BadImage.BadFrame)
        × ((c : Cap) → IsKeptCap geometry age c → bytes.now ≡ capability_bytes c → ⊥)) }
{
    let head = number_at(bytes, 0);
    let object = number_at(bytes, 8);
    let count = number_at(bytes, 16);
    let access = Access::from_bits_retain((head / 256 % 256) as u8);
    let key = (head / 65536 % 65536) as u16;
    let height = (head / 4294967296 % 256) as u8;
    let numbers = Numbers {
        head,
        object,
        count,
    };
    let read = assembled(access, key, height, numbers, geometry, age);
    if read.is_spelt {
        Ok(Cap {
            what: read.what,
            count,
        })
    } else {
        Err(BadImage::BadFrame)
    }
}
