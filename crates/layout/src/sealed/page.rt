// The frame of a page: its header sector, and its words.
ghost use Rattle.std.specs.Prelude.{◌≡◌, ◌↔◌, ◌++◌, length, take, drop, IsTrue, IfSome, IfNone, Some};
ghost use Rattle.model.specs.Object.{role_number};
ghost use Rattle.seal.specs.Sums.{Fit, sums_of};
ghost use Rattle.layout.specs.declared.sealed.page.PageHeader.{PageHeader};
ghost use Rattle.layout.specs.sealed.Page.{HasWords, IsPage, IsPageHeader, page_header_bytes, page_header_from};
ghost use Rattle.layout.specs.sealed.Page.{page_header_numbers};
ghost use Rattle.layout.specs.sealed.Sector.{AreWords};
ghost use Rattle.layout.specs.sealed.Summed.{HasSums, IsSummed};

use crate::bytes::are_zeros;
use crate::sealed::sector::{decode_sector, encode_sector};
use model::{ObjectHeader, Role};
use seal::{Sums, sums_of};

// Where the words of a page begin.
const WORDS_AT: usize = 512;

// The greatest number of a role.
const LAST_ROLE: u64 = 5;

/// The content of the header sector of a page's frame.
#[derive(Clone, Copy)]
pub struct PageHeader {
    pub object: ObjectHeader,
    /// The sums of the words after the sector.
    pub words: Sums,
}

// Whether an image of this age may have this header at the number of a page.
fn is_page_header(header: PageHeader, age: u64) -> bool
    ensures { IsTrue result ↔ IsPageHeader age header }
{
    let object = header.object;
    let has_role = object.role == Role::Page || (object.role == Role::Free && object.owner == 0);
    has_role && object.allocations <= age && object.calls <= age
}

/// Writes the 512 bytes of the header sector of a page's frame.
pub fn encode_page_header(header: PageHeader, into: &mut [u8])
    requires { length into.old ≡ 512 }
    ensures { into.new ≡ page_header_bytes header }
{
    let numbers = [
        header.object.role.number(),
        header.object.allocations,
        header.object.calls,
        header.object.owner,
        header.words.a,
        header.words.b,
        header.words.c,
    ];
    encode_sector(&numbers, into);
}

// Returns the header that is encoded in 7 numbers. Its role is `Free` unless the first number is 1.
fn page_header_from(numbers: &[u64]) -> PageHeader
    requires { length numbers.now ≡ 7 }
    ensures { result ≡ page_header_from numbers.now }
{
    PageHeader {
        object: ObjectHeader {
            role: if numbers[0] == 1 {
                Role::Page
            } else {
                Role::Free
            },
            allocations: numbers[1],
            calls: numbers[2],
            owner: numbers[3],
        },
        words: Sums {
            a: numbers[4],
            b: numbers[5],
            c: numbers[6],
        },
    }
}

/// Reads the 512 bytes of the header sector of a page's frame. Returns `None` if the bytes encode no header that an
/// image of this age may have at the number of a page. The words aren't checked.
pub fn decode_page_header(bytes: &[u8], age: u64) -> Option<PageHeader>
    requires { length bytes.now ≡ 512 }
    ensures some { IfSome result (λ h. IsPageHeader age h × (bytes.now ≡ page_header_bytes h)) }
    ensures none { IfNone result ((h : PageHeader) → IsPageHeader age h → AreWords (page_header_numbers h) →
        bytes.now ≡ page_header_bytes h → ⊥) }
{
    let mut numbers = [0; 7];
    let is_sector = decode_sector(bytes, &mut numbers);
    let header = page_header_from(&numbers);
    if is_sector && header.object.role.number() == numbers[0] && is_page_header(header, age) {
        Some(header)
    } else {
        None
    }
}

/// Writes the header sector of a page's frame of 4608 bytes, in which the words lie already. The words stay.
#[tactic(auto, using(crate::proofs::SealedHeaders::front_long))]
pub fn seal_page(object: ObjectHeader, frame: &mut [u8])
    requires { length frame.old ≡ 4608 }
    ensures header { take 512 frame.new
        ≡ page_header_bytes (record { object = object; words = sums_of (drop 512 frame.old) }) }
    ensures words { drop 512 frame.new ≡ drop 512 frame.old }
{
    let words = sums_of(&frame[WORDS_AT..]);
    encode_page_header(PageHeader { object, words }, &mut frame[..WORDS_AT]);
}

// Whether these 4096 bytes may be the words of a page's frame with this header.
fn has_words(header: PageHeader, words: &[u8]) -> bool
    requires { length words.now ≡ 4096 }
    ensures { IsTrue result ↔ HasWords words.now header }
{
    let is_free = header.object.role == Role::Free;
    sums_of(words) == header.words && (!is_free || are_zeros(words))
}

/// Reads the header sector of a page's frame of 4608 bytes, and checks the words against it. Returns `None` if the
/// bytes are no frame that an image of this age may have at the number of a page.
#[tactic(auto, using(crate::proofs::SealedHeaders::front_long))]
pub fn decode_page(frame: &[u8], age: u64) -> Option<PageHeader>
    requires { length frame.now ≡ 4608 }
    ensures some { IfSome result (λ h. IsPage age frame.now h) }
    ensures none { IfNone result ((h : PageHeader) → AreWords (page_header_numbers h) → IsPage age frame.now h → ⊥) }
{
    let header = decode_page_header(&frame[..WORDS_AT], age)?;
    if has_words(header, &frame[WORDS_AT..]) {
        Some(header)
    } else {
        None
    }
}

// Returns the sums of the words according to the 512 bytes of a page's header sector. Returns `None` if the bytes are
// no sealed header sector. The header may be one that no image has at the number of a page.
fn named_sums(first: &[u8]) -> Option<Sums>
    requires { length first.now ≡ 512 }
    ensures some { IfSome result (λ words. HasSums first.now words) }
    ensures only { (h : PageHeader) → Fit h.words → first.now ≡ page_header_bytes h → result ≡ Some h.words }
{
    let mut numbers = [0; 7];
    let is_sector = decode_sector(first, &mut numbers);
    if is_sector && numbers[0] <= LAST_ROLE {
        Some(page_header_from(&numbers).words)
    } else {
        None
    }
}

/// Whether the 4608 bytes of a page's block begin with a sealed header sector that has the sums of the words. The
/// frame's header isn't checked.
#[tactic(auto, using(crate::proofs::SealedHeaders::front_long))]
pub fn is_summed(block: &[u8]) -> bool
    requires { length block.now ≡ 4608 }
    ensures { IsTrue result ↔ IsSummed block.now }
{
    let words = sums_of(&block[WORDS_AT..]);
    match named_sums(&block[..WORDS_AT]) {
        Some(named) => named == words,
        None => false,
    }
}
