// The line that explains a fault.
ghost use Rattle.std.specs.Prelude.{◌≡◌, ◌+◌, ◌++◌, ◌∷◌, ◌≤◌, codes, decimal, length};
ghost use Rattle.image_explainer.specs.Text.{fault_text, holder_text, kind_text, misnamed_text};
ghost use Rattle.image_explainer.specs.Text.{place_text, sectors_text, unbanked_text, unmatched_text};
ghost use Rattle.image_explainer.specs.Text.{directory_part_text, directory_text, frame_part_text, frame_text};
ghost use Rattle.image_explainer.specs.Text.{geometry_text, header_part_text, header_text, no_header_text};
ghost use Rattle.image_explainer.specs.Text.{no_pair_text, not_counted_text, not_paired_text, numbered};
ghost use Rattle.image_explainer.specs.Text.{superblock_text, unit_text};
ghost use Rattle.image_explainer.specs.Breaking.{reason_of};
ghost use Rattle.image_explainer.specs.SectorBreaking.{sector_reason};

use crate::fault::{ImageFault, Misnamed, Unmatched};
use crate::{
    DirectoryPart, FramePart, GeometryPart, HeaderPart, NotCounted, NotPaired, SectorFault,
    SuperblockPart, UnitPart,
};
use layout::BadImage;
use model::{Capability, Role};
use recovery::Unbanked;
use script::LineText;

// Returns the line that says why sector 0 isn't a superblock.
fn superblock_line(part: SuperblockPart) -> LineText
    ensures text { result ≡ superblock_text part }
    ensures short { length result ≤ 60 }
{
    match part {
        SuperblockPart::Magic => LineText::new(b"superblock: the magic is not EROSCKPT"),
        SuperblockPart::Version => LineText::new(b"superblock: the version is not 1, 2 or 3"),
        SuperblockPart::Tail => LineText::new(b"superblock: a byte from 256 on is not 0"),
        SuperblockPart::Seal => LineText::new(b"superblock: the seal is wrong"),
    }
}

// Returns a line that says that a number of the superblock is outside its limits.
fn outside(word: &[u8], number: u64, limits: &[u8]) -> LineText
    requires word { length word.now ≤ 20 }
    requires limits { length limits.now ≤ 30 }
    ensures text { result ≡ numbered word.now number ++ limits.now }
    ensures short { length result ≤ 90 }
{
    let mut line = LineText::numbered(word, number);
    line.push(limits);
    line
}

// Returns the line about a superblock's field that is outside its limits.
fn geometry_line(part: GeometryPart) -> LineText
    ensures text { result ≡ geometry_text part }
    ensures short { length result ≤ 90 }
{
    match part {
        GeometryPart::Nodes(n) => outside(b"superblock: nodes", n, b" is not from 16 to 4096"),
        GeometryPart::Pages(n) => outside(b"superblock: pages", n, b" is not from 1 to 4096"),
        GeometryPart::Log(n) => outside(b"superblock: log", n, b" is not from 16 to 4096"),
        GeometryPart::Total(n) => outside(b"superblock: sectors", n, b" is not from 0 to 131072"),
        GeometryPart::Places => {
            LineText::new(b"superblock: a home range or a half of the log is wrong")
        }
    }
}

// Appends why the header of a slot doesn't count.
fn add_not_counted(line: &mut LineText, why: NotCounted)
    requires { length line.old ≤ 100 }
    ensures text { line.new ≡ line.old ++ not_counted_text why }
    ensures short { length line.new ≤ length line.old + 70 }
{
    match why {
        NotCounted::Closed => line.push(b" has a closed gate"),
        NotCounted::Misplaced(sequence) => {
            line.push(b" has the sequence number");
            line.number(sequence);
            line.push(b" of the other slot");
        }
    }
}

// Returns the line that says why no header counts.
fn no_header_line(first: NotCounted, second: NotCounted) -> LineText
    ensures text { result ≡ no_header_text first second }
    ensures short { length result ≤ 200 }
{
    let mut line = LineText::new(b"header 0");
    add_not_counted(&mut line, first);
    line.push(b", and header 1");
    add_not_counted(&mut line, second);
    line
}

// Appends why the header of a slot is in no pair.
fn add_not_paired(line: &mut LineText, why: NotPaired)
    requires { length line.old ≤ 170 }
    ensures text { line.new ≡ line.old ++ not_paired_text why }
    ensures short { length line.new ≤ length line.old + 62 }
{
    match why {
        NotPaired::Unnumbered => line.push(b" has a gate without a number"),
        NotPaired::Unsound => line.push(b" is not a sealed header"),
        NotPaired::Misplaced(sequence) => {
            line.push(b" has the number");
            line.number(sequence);
            line.push(b" of another slot");
        }
        NotPaired::Renumbered { sequence, gate } => {
            line.push(b" has number");
            line.number(sequence);
            line.push(b" and gate");
            line.number(gate);
        }
        NotPaired::Alone(sequence) => {
            line.push(b" has the number");
            line.number(sequence);
            line.push(b" and no neighbour");
        }
    }
}

// Returns the line that says why no two headers are a pair.
fn no_pair_line(first: NotPaired, second: NotPaired, third: NotPaired) -> LineText
    ensures text { result ≡ no_pair_text first second third }
    ensures short { length result ≤ 220 }
{
    let mut line = LineText::new(b"header 0");
    add_not_paired(&mut line, first);
    line.push(b", header 1");
    add_not_paired(&mut line, second);
    line.push(b", and header 2");
    add_not_paired(&mut line, third);
    line
}

// Appends what is wrong with a header.
fn add_header_part(line: &mut LineText, part: HeaderPart)
    requires { length line.old ≤ 40 }
    ensures text { line.new ≡ line.old ++ header_part_text part }
    ensures short { length line.new ≤ 150 }
{
    match part {
        HeaderPart::Entries { entries, slots } => {
            line.push(b": entries");
            line.number(entries);
            line.push(b" is above the slots");
            line.number(slots);
        }
        HeaderPart::Age(age) => {
            line.push(b": age");
            line.number(age);
            line.push(b" is above 4611686018427387904");
        }
        HeaderPart::Generation { generation, age } => {
            line.push(b": generation");
            line.number(generation);
            line.push(b" is above twice the age");
            line.number(age);
        }
        HeaderPart::Sequence { sequence, age } => {
            line.push(b": sequence number");
            line.number(sequence);
            line.push(b" is too great for the age");
            line.number(age);
        }
        HeaderPart::Bytes => line.push(b": the magic is not EROSHEAD, or a byte is not 0"),
        HeaderPart::Lost(number) => {
            line.push(b": it is damaged, but its gate has the number");
            line.number(number);
        }
    }
}

// Returns the line about the committed header.
fn header_line(sector: u64, part: HeaderPart) -> LineText
    ensures text { result ≡ header_text sector part }
    ensures short { length result ≤ 150 }
{
    let mut line = LineText::numbered(b"header in sector", sector);
    add_header_part(&mut line, part);
    line
}

// Appends that an entry's object number isn't above that of the entry before it.
fn add_order(line: &mut LineText, entry: u64, object: u64, before: u64)
    requires { length line.old ≤ 70 }
    ensures text { line.new ≡ line.old ++ 32 ∷ decimal entry ++ codes ": object" ++ 32 ∷ decimal object
        ++ codes " is not above the object" ++ 32 ∷ decimal before ++ codes " of the entry before" }
    ensures short { length line.new ≤ length line.old + 130 }
{
    line.number(entry);
    line.push(b": object");
    line.number(object);
    line.push(b" is not above the object");
    line.number(before);
    line.push(b" of the entry before");
}

// Appends what is wrong with a directory or with an entry of it.
fn add_entry(line: &mut LineText, part: DirectoryPart)
    requires { length line.old ≤ 60 }
    ensures text { line.new ≡ line.old ++ directory_part_text part }
    ensures short { length line.new ≤ 200 }
{
    match part {
        DirectoryPart::Unsealed => line.push(b": the seal is wrong"),
        DirectoryPart::Rest => line.push(b": a byte after its entries is not 0"),
        DirectoryPart::Sums => line.push(b": its seals do not add up to the sums in the header"),
        DirectoryPart::Object { entry, object } => {
            line.push(b", entry");
            line.number(entry);
            line.push(b": there is no object");
            line.number(object);
        }
        DirectoryPart::Slot { entry, slot } => {
            line.push(b", entry");
            line.number(entry);
            line.push(b": there is no slot");
            line.number(slot);
        }
        DirectoryPart::Order {
            entry,
            object,
            before,
        } => {
            line.push(b", entry");
            add_order(line, entry, object, before);
        }
        DirectoryPart::Shared {
            first,
            second,
            slot,
        } => {
            line.push(b", entry");
            line.number(second);
            line.push(b": slot");
            line.number(slot);
            line.push(b" is also that of entry");
            line.number(first);
        }
    }
}

// Returns the line about a directory.
fn directory_line(sector: u64, part: DirectoryPart) -> LineText
    ensures text { result ≡ directory_text sector part }
    ensures short { length result ≤ 220 }
{
    let mut line = LineText::numbered(b"directory in sector", sector);
    add_entry(&mut line, part);
    line
}

// Returns the line about a cluster or a page frame.
fn unit_line(number: u64, is_page: bool, part: UnitPart) -> LineText
    ensures text { result ≡ unit_text number is_page part }
    ensures short { length result ≤ 150 }
{
    let kind: &[u8] = if is_page { b"page" } else { b"cluster of node" };
    let mut line = LineText::numbered(kind, number);
    match part {
        UnitPart::Unsealed => line.push(b": the seal is wrong"),
        UnitPart::Rest if is_page => {
            line.push(b": its header sector does not have the sums of its words")
        }
        UnitPart::Rest => line.push(b": a byte after its frames is not 0"),
    }
    line
}

// Appends what is wrong with a frame.
fn add_part(line: &mut LineText, part: FramePart)
    requires { length line.old ≤ 40 }
    ensures text { line.new ≡ line.old ++ frame_part_text part }
    ensures short { length line.new ≤ 150 }
{
    match part {
        FramePart::Allocations { count, age } => {
            line.push(b": allocation count");
            line.number(count);
            line.push(b" is above the age");
            line.number(age);
        }
        FramePart::Calls { count, age } => {
            line.push(b": call count");
            line.number(count);
            line.push(b" is above the age");
            line.number(age);
        }
        FramePart::Count { slot, count, age } => {
            line.push(b", slot");
            line.number(slot);
            line.push(b": count");
            line.number(count);
            line.push(b" is above the age");
            line.number(age);
        }
        FramePart::Slot(slot) => {
            line.push(b", slot");
            line.number(slot);
            line.push(b": not a capability that this image can hold");
        }
        FramePart::Body => line.push(b": its role, owner and content do not fit together"),
    }
}

// Returns the line about a frame.
fn frame_line(number: u64, is_page: bool, part: FramePart) -> LineText
    ensures text { result ≡ frame_text number is_page part }
    ensures short { length result ≤ 150 }
{
    let kind: &[u8] = if is_page { b"page" } else { b"node" };
    let mut line = LineText::numbered(kind, number);
    add_part(&mut line, part);
    line
}

// Returns a line that begins with the place of a capability.
fn holder_line(misnamed: Misnamed) -> LineText
    ensures text { result ≡ holder_text misnamed.role misnamed.holder misnamed.index }
    ensures short { length result ≤ 80 }
{
    match misnamed.role {
        Role::Root => {
            let mut line = LineText::numbered(b"process", misnamed.holder);
            line.push(b", space");
            line
        }
        Role::Annex => {
            let mut line = LineText::numbered(b"annex", misnamed.holder);
            line.push(b", register");
            line.number(misnamed.index);
            line
        }
        _ => {
            let mut line = LineText::numbered(b"node", misnamed.holder);
            line.push(b", slot");
            line.number(misnamed.index);
            line
        }
    }
}

// Returns the word for the kind of object that a capability must name.
fn kind_of(what: Capability) -> &'static [u8]
    ensures text { result.now ≡ kind_text what }
    ensures short { length result.now ≤ 15 }
{
    match what {
        Capability::Page { .. } => b"page",
        Capability::Node { .. } => b"node",
        Capability::Space { .. } => b"node",
        Capability::Process(_) => b"process",
        Capability::Start { .. } => b"process",
        Capability::Resume(_) => b"waiting process",
        Capability::Bank(_) => b"bank",
        _ => b"object",
    }
}

// Appends what is wrong with a capability.
fn add_misnamed(line: &mut LineText, misnamed: Misnamed)
    requires { length line.old ≤ 80 }
    ensures text { line.new ≡ line.old ++ misnamed_text misnamed }
    ensures short { length line.new ≤ 220 }
{
    if misnamed.held.count > misnamed.current {
        line.push(b": count");
        line.number(misnamed.held.count);
        line.push(b" is above the count");
        line.number(misnamed.current);
        line.push(b" of its object");
    } else {
        line.push(b":");
        line.capability(misnamed.held.what);
        line.push(b" names no ");
        line.push(kind_of(misnamed.held.what));
    }
}

// Returns the line about a process.
fn process_line(unmatched: Unmatched) -> LineText
    ensures text { result ≡ unmatched_text unmatched }
    ensures short { length result ≤ 150 }
{
    match unmatched {
        Unmatched::Annex { root, annex } => {
            let mut line = LineText::numbered(b"process", root);
            line.push(b": number");
            line.number(annex);
            line.push(b" is not an annex with its owner");
            line
        }
        Unmatched::Shared {
            first,
            second,
            annex,
        } => {
            let mut line = LineText::numbered(b"process", first);
            line.push(b": annex");
            line.number(annex);
            line.push(b" is also that of process");
            line.number(second);
            line
        }
        Unmatched::Rootless { annex } => {
            let mut line = LineText::numbered(b"annex", annex);
            line.push(b": no process names it");
            line
        }
    }
}

// Returns the line about a bank.
fn bank_line(unbanked: Unbanked) -> LineText
    ensures text { result ≡ unbanked_text unbanked }
    ensures short { length result ≤ 150 }
{
    match unbanked {
        Unbanked::Prime => LineText::new(b"number 0: not a bank that owns itself"),
        Unbanked::Owner { object, owner } => {
            let mut line = LineText::numbered(b"number", object);
            line.push(b": its owner");
            line.number(owner);
            line.push(b" is not a bank");
            line
        }
        Unbanked::Chain(bank) => {
            let mut line = LineText::numbered(b"bank", bank);
            line.push(b": its owners do not reach bank 0 within 16 banks");
            line
        }
        Unbanked::Limit { bank, used, limit } => {
            let mut line = LineText::numbered(b"bank", bank);
            line.push(b": usage");
            line.number(used);
            line.push(b" is above the limit");
            line.number(limit);
            line
        }
    }
}

// Returns the line about a fault in the sectors.
fn sectors_line(fault: SectorFault) -> LineText
    ensures text { result ≡ sectors_text fault }
    ensures short { length result ≤ 220 }
{
    match fault {
        SectorFault::Small { sectors, needed } => {
            let mut line = LineText::numbered(b"there are", sectors);
            line.push(b" sectors, and the image needs");
            line.number(needed);
            line
        }
        SectorFault::Superblock(part) => superblock_line(part),
        SectorFault::Geometry(part) => geometry_line(part),
        SectorFault::NoHeader(first, second) => no_header_line(first, second),
        SectorFault::NoPair(first, second, third) => no_pair_line(first, second, third),
        SectorFault::Header { sector, part } => header_line(sector, part),
        SectorFault::Directory { sector, part } => directory_line(sector, part),
        SectorFault::Unit {
            number,
            is_page,
            part,
        } => unit_line(number, is_page, part),
        SectorFault::Root => {
            LineText::new(b"the clusters and pages do not add up to the root in the header")
        }
        SectorFault::Frame {
            number,
            is_page,
            part,
        } => frame_line(number, is_page, part),
    }
}

// Returns the reason to refuse an image that has this fault in its sectors.
fn sector_reason_of(fault: SectorFault) -> BadImage
    ensures { result ≡ sector_reason fault }
{
    match fault {
        SectorFault::Small { .. } => BadImage::Small,
        SectorFault::Superblock(_) => BadImage::NotASuperblock,
        SectorFault::Geometry(_) => BadImage::BadGeometry,
        SectorFault::NoHeader(..) | SectorFault::NoPair(..) => BadImage::NoHeader,
        SectorFault::Header { .. } => BadImage::BadHeader,
        SectorFault::Directory { .. } => BadImage::BadDirectory,
        SectorFault::Unit { .. } | SectorFault::Root => BadImage::BadFrame,
        SectorFault::Frame { .. } => BadImage::BadFrame,
    }
}

impl ImageFault {
    /// Returns the reason to refuse an image that has this fault.
    pub fn reason(self) -> BadImage
        ensures { result ≡ reason_of self }
    {
        match self {
            ImageFault::Sectors(fault) => sector_reason_of(fault),
            ImageFault::Capability(_) => BadImage::BadCapability,
            ImageFault::Process(_) => BadImage::BadProcess,
            ImageFault::Bank(_) => BadImage::BadBank,
        }
    }

    // Returns the line with the place of the fault, and what is wrong there.
    fn place(self) -> LineText
        ensures text { result ≡ place_text self }
        ensures short { length result ≤ 220 }
    {
        match self {
            ImageFault::Sectors(fault) => sectors_line(fault),
            ImageFault::Capability(misnamed) => {
                let mut line = holder_line(misnamed);
                add_misnamed(&mut line, misnamed);
                line
            }
            ImageFault::Process(unmatched) => process_line(unmatched),
            ImageFault::Bank(unbanked) => bank_line(unbanked),
        }
    }

    /// Returns the whole line about the fault: the place, what is wrong there, and the number of the reason.
    pub fn line(self) -> LineText
        ensures text { result ≡ fault_text self }
        ensures short { length result ≤ 260 }
    {
        let mut line = self.place();
        line.push(b" (bad image");
        line.number(self.reason().number());
        line.push(b")");
        line
    }
}
