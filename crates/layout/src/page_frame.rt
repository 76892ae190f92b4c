// Frames with the number of a page.
ghost use Rattle.std.specs.Prelude.{◌≡◌, ◌*◌, ◌++◌, ◌↔◌, length, take, drop, IsTrue, IfOk, IfErr};
ghost use Rattle.model.specs.declared.frame.Frame.{Frame};
ghost use Rattle.model.specs.declared.object.Content.TheVariants as content;
ghost use Rattle.model.specs.Keepable.{AreKeptWords};
ghost use Rattle.layout.specs.Bytes.{zeros};
ghost use Rattle.layout.specs.Frame.{front_bytes, words_bytes, frame_of, page_frame_bytes, IsPageFrame};
ghost use Rattle.model.specs.Frame.{content_behind};

use crate::bad_image::BadImage;
use crate::body::{Body, Scratch};
use crate::bytes::{blank_from, blank_front, is_blank_between, is_blank_from};
use crate::front::{decode_front, encode_front, has_counts};
use byteorder::{ByteOrder, LittleEndian};
use model::{Cap, ContentRef, ObjectHeader, Words};

/// How many bytes a frame with the number of a page takes.
pub const PAGE_FRAME_BYTES: usize = 4608;

// Where the words of a page begin.
const FRONT_BYTES: usize = 512;

// Fills `into` with the 512 words in 4096 bytes.
#[tactic(auto, using(crate::proofs::Pages::words_read))]
fn read_words(bytes: &[u8], into: &mut [u64])
    requires bytes { length bytes.now ≡ 4096 }
    requires words { length into.old ≡ 512 }
    ensures words { AreKeptWords 512 into.new }
    ensures bytes { bytes.now ≡ words_bytes into.new }
{
    LittleEndian::read_u64_into(bytes, into);
}

// Sets all words of a page to those in 4096 bytes.
fn decode_words(bytes: &[u8], into: &mut Words)
    requires { length bytes.now ≡ 4096 }
    ensures words { AreKeptWords 512 into.new }
    ensures bytes { bytes.now ≡ words_bytes into.new }
{
    read_words(bytes, into.as_mut_slice());
}

// Writes words one after the other, 8 bytes each.
fn encode_words(words: &[u64], into: &mut [u8])
    requires { length into.old ≡ 8 * length words.now }
    ensures { into.new ≡ words_bytes words.now }
{
    LittleEndian::write_u64_into(words, into);
}

// Whether 4608 bytes with this role's number and owner are the frame of a free page.
fn is_free_page(role: u64, owner: u64, bytes: &[u8]) -> bool
    requires { length bytes.now ≡ 4608 }
    ensures { IsTrue result ↔ (role ≡ 0) × (owner ≡ 0) × (drop 512 bytes.now ≡ zeros 4096) }
{
    role == 0 && owner == 0 && is_blank_from(bytes, FRONT_BYTES)
}

/// Reads the 4608 bytes of a frame with the number of a page. It puts the words of a page into
/// `scratch`.
///
/// Returns `BadFrame` if the bytes encode no such frame that an image of this age may hold. Then `scratch` may hold
/// any words.
pub fn decode_page_frame(
    bytes: &[u8],
    age: u64,
    scratch: &mut Scratch,
) -> Result<(ObjectHeader, Body), BadImage>
    requires { length bytes.now ≡ 4608 }
    ensures found { IfOk result (λ read. IsPageFrame age (frame_of read scratch.new)
        × (bytes.now ≡ page_frame_bytes (frame_of read scratch.new))) }
    ensures refused { IfErr result (λ e. (e ≡ BadImage.BadFrame)
        × ((f : Frame) → IsPageFrame age f → bytes.now ≡ page_frame_bytes f → ⊥)) }
{
    let (role, header) = decode_front(bytes);
    if !has_counts(header, age) || !is_blank_between(bytes, 32, FRONT_BYTES) {
        return Err(BadImage::BadFrame);
    }
    if role == 1 {
        decode_words(&bytes[FRONT_BYTES..], &mut scratch.words);
        return Ok((header, Body::Page));
    }
    if is_free_page(role, header.owner, bytes) {
        return Ok((header, Body::Free));
    }
    Err(BadImage::BadFrame)
}

// Writes the front of a frame, and zeros from there to byte 512, where the words begin.
fn put_front(header: ObjectHeader, into: &mut [u8])
    requires { length into.old ≡ 4608 }
    ensures before { take 512 into.new ≡ front_bytes header ++ zeros 480 }
    ensures size { length into.new ≡ 4608 }
{
    blank_front(into, FRONT_BYTES);
    encode_front(header, into);
}

/// Writes the 4608 bytes of the frame of a page with these 512 words.
pub fn encode_page(header: ObjectHeader, words: &[u64], into: &mut [u8])
    requires size { length into.old ≡ 4608 }
    requires words { length words.now ≡ 512 }
    ensures { into.new
        ≡ page_frame_bytes (record { header = header; content = content.Page words.now }) }
{
    put_front(header, into);
    encode_words(words, &mut into[FRONT_BYTES..]);
}

/// Writes the 4608 bytes of a frame with the number of a page. For anything but a page it writes words of 0: besides
/// a page, only a free object may have that number.
pub fn encode_page_frame(header: ObjectHeader, content: ContentRef<'_>, into: &mut [u8])
    requires { length into.old ≡ 4608 }
    ensures { into.new ≡ page_frame_bytes (record { header = header; content = content_behind content.entry }) }
{
    match content {
        ContentRef::Page(words) => encode_page(header, words, into),
        _ => {
            put_front(header, into);
            blank_from(into, FRONT_BYTES);
        }
    }
}
