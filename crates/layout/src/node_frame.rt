// Frames with the number of a node.
ghost use Rattle.std.specs.Prelude.{◌-◌, ◌≡◌, ◌*◌, ◌<◌, ◌≤◌, ◌++◌, ◌↔◌, ◌^◌, [], length, take, drop, IsTrue, IfOk};
ghost use Rattle.std.specs.Prelude.{IfErr};
ghost use Rattle.model.specs.declared.frame.Frame.{Frame};
ghost use Rattle.model.specs.declared.object.Content.TheVariants as content;
ghost use Rattle.model.specs.Keepable.{IsCount};
ghost use Rattle.layout.specs.Bytes.{zeros};
ghost use Rattle.layout.specs.Frame.{number_held, number_cap, state_in, root_from, body_in, root_slots, slots_of};
ghost use Rattle.layout.specs.Frame.{slots_bytes, content_of, frame_of, node_frame_bytes, FollowsRole, IsBody};
ghost use Rattle.layout.specs.Frame.{IsNodeFrame};
ghost use Rattle.model.specs.Frame.{content_behind};

use crate::bad_image::BadImage;
use crate::body::{Body, Scratch};
use crate::bytes::{blank_from, is_blank_from};
use crate::capability::CAPABILITY_BYTES;
use crate::front::{decode_front, encode_front, has_counts};
use crate::slots::{are_held, decode_slots, encode_slots};
use model::{Cap, Capability, ContentRef, Geometry, ObjectHeader, Root, State};

/// How many bytes a frame with the number of a node takes.
pub const NODE_FRAME_BYTES: usize = 1024;

// Where the slots end in a frame with the number of a node. The bytes from here on are zeros.
const SLOTS_END: usize = 800;

// Returns the number of a `Number` capability, or 0 for any other.
fn number_held(cap: Cap) -> u64
    ensures { result ≡ number_held cap }
{
    match cap.what {
        Capability::Number(number) => number,
        _ => 0,
    }
}

// Returns the number capability with this number.
fn number_cap(number: u64) -> Cap
    ensures { result ≡ number_cap number }
{
    Cap {
        what: Capability::Number(number),
        count: 0,
    }
}

// Returns the state with a number, or `Waiting` if no other state has it.
fn state_in(number: u64) -> State
    ensures { result ≡ state_in number }
{
    match number {
        0 => State::Available,
        1 => State::Running,
        _ => State::Waiting,
    }
}

// Returns the root of a process from 32 slots, and doesn't check them.
fn root_from(slots: &[Cap]) -> Root<Cap>
    requires { length slots.now ≡ 32 }
    ensures { result ≡ root_from slots.now }
{
    Root {
        annex: number_held(slots[0]),
        state: state_in(number_held(slots[1])),
        words: [
            number_held(slots[2]),
            number_held(slots[3]),
            number_held(slots[4]),
            number_held(slots[5]),
        ],
        key: (number_held(slots[6]) % 65536) as u16,
        space: slots[7],
    }
}

// Returns the first 8 of a root's 32 slots. The others are void.
fn root_slots(root: &Root<Cap>) -> [Cap; 8]
    ensures slots { result ≡ root_slots root.now }
    ensures words { length root.now.words ≡ 4 }
    ensures key { root.now.key < 2 ^ 16 }
{
    [
        number_cap(root.annex),
        number_cap(root.state.number()),
        number_cap(root.words[0]),
        number_cap(root.words[1]),
        number_cap(root.words[2]),
        number_cap(root.words[3]),
        number_cap(root.key as u64),
        root.space,
    ]
}

// Returns the body with a role's number from 32 slots, and doesn't check them. If no role has the number, it is free.
fn body_in(role: u64, slots: &[Cap]) -> Body
    requires { length slots.now ≡ 32 }
    ensures { result ≡ body_in role slots.now }
{
    match role {
        2 => Body::Node,
        3 => Body::Root(root_from(slots)),
        4 => Body::Annex,
        5 => Body::Bank {
            limit: number_held(slots[0]),
        },
        _ => Body::Free,
    }
}

// Whether 32 slots are those of this root, and its space is void, a page or a space.
#[tactic(auto, using(crate::proofs::Frames::root_tail))]
fn is_root(root: &Root<Cap>, slots: &[Cap]) -> bool
    requires { length slots.now ≡ 32 }
    ensures { IsTrue result ↔ ((slots.now ≡ slots_of (content.Root root.now))
        × FollowsRole (content.Root root.now)) }
{
    let held = root_slots(root);
    root.space.what.may_be_space() && are_held(&held, slots)
}

// Whether a frame with this role's number, owner and 32 slots has this body.
fn is_body(body: &Body, role: u64, owner: u64, slots: &[Cap]) -> bool
    requires { length slots.now ≡ 32 }
    ensures { IsTrue result ↔ IsBody role owner slots.now (content_of body.now slots.now []) }
{
    match body {
        Body::Free => role == 0 && owner == 0 && are_held(&[], slots),
        Body::Page => false,
        Body::Node => role == 2,
        Body::Root(root) => role == 3 && is_root(root, slots),
        Body::Annex => role == 4 && slots[0] == Cap::void(),
        Body::Bank { limit } => role == 5 && are_held(&[number_cap(*limit)], slots),
    }
}

// Whether 1024 bytes with this header, which has no role, are the frame of a free node.
fn is_free_node(header: ObjectHeader, age: u64, bytes: &[u8]) -> bool
    requires { length bytes.now ≡ 1024 }
    ensures { IsTrue result ↔ (IsCount age header.allocations × IsCount age header.calls)
        × (header.owner ≡ 0) × (drop 32 bytes.now ≡ zeros 992) }
{
    has_counts(header, age) && header.owner == 0 && is_blank_from(bytes, 32)
}

/// Reads the 1024 bytes of a frame with the number of a node. It puts the slots of a node or an annex
/// into `scratch`.
///
/// Returns `BadFrame` if the bytes encode no such frame that an image of this geometry and age may hold. Then
/// `scratch` may hold any slots.
pub fn decode_node_frame(
    bytes: &[u8],
    geometry: Geometry,
    age: u64,
    scratch: &mut Scratch,
) -> Result<(ObjectHeader, Body), BadImage>
    requires { length bytes.now ≡ 1024 }
    ensures found { IfOk result (λ read. IsNodeFrame geometry age (frame_of read scratch.new)
        × (bytes.now ≡ node_frame_bytes (frame_of read scratch.new))) }
    ensures refused { IfErr result (λ e. (e ≡ BadImage.BadFrame)
        × ((f : Frame) → IsNodeFrame geometry age f → bytes.now ≡ node_frame_bytes f → ⊥)) }
{
    let (role, header) = decode_front(bytes);
    if role == 0 {
        return if is_free_node(header, age, bytes) {
            Ok((header, Body::Free))
        } else {
            Err(BadImage::BadFrame)
        };
    }
    decode_slots(&bytes[32..SLOTS_END], geometry, age, &mut scratch.slots)?;
    let slots = scratch.slots.as_slice();
    let body = body_in(role, slots);
    let has_counts = has_counts(header, age);
    let is_blank = is_blank_from(bytes, SLOTS_END);
    if has_counts && is_blank && is_body(&body, role, header.owner, slots) {
        Ok((header, body))
    } else {
        Err(BadImage::BadFrame)
    }
}

// Writes capabilities into a frame from byte 32 on, 24 bytes each, and zeros after them.
fn put_slots(caps: &[Cap], into: &mut [u8])
    requires few { length caps.now ≤ 32 }
    requires size { length into.old ≡ 1024 }
    ensures { into.new ≡ take 32 into.old ++ slots_bytes caps.now
        ++ zeros (992 - 24 * length caps.now) }
{
    let end = 32 + CAPABILITY_BYTES * caps.len();
    encode_slots(caps, &mut into[32..end]);
    blank_from(into, end);
}

/// Writes the 1024 bytes of a frame with the number of a node. For a page, which can't be at a node's number, it
/// writes void slots.
pub fn encode_node_frame(header: ObjectHeader, content: ContentRef<'_>, into: &mut [u8])
    requires { length into.old ≡ 1024 }
    ensures { into.new ≡ node_frame_bytes (record { header = header; content = content_behind content.entry }) }
{
    encode_front(header, into);
    match content {
        ContentRef::Free => put_slots(&[], into),
        ContentRef::Page(_) => put_slots(&[], into),
        ContentRef::Node(slots) => put_slots(slots, into),
        ContentRef::Annex(registers) => put_slots(registers, into),
        ContentRef::Root(root) => put_slots(&root_slots(root), into),
        ContentRef::Bank { limit } => put_slots(&[number_cap(limit)], into),
    }
}
