// Objects given as numbers.
ghost use Rattle.std.specs.Prelude.{◌≡◌, length, map, option_map, Some};
ghost use Rattle.vezhnake.specs.RawObjects.{object_of, plain_object, raw_capability, raw_registers, shown_object};
ghost use Rattle.vezhnake.specs.RawObjects.{shown_words};

use bitflags::Flags;
use model::{Answer, Capability, Content, Description, SLOTS, Slots, WORDS};

/// A capability given as numbers. Fields that its kind doesn't have are 0.
#[repr(C)]
#[derive(Clone, Copy)]
pub struct RawCapability {
    /// The kind, from 0 on: void, number, page, node, space, process, start, resume, bank, discrim.
    pub kind: u8,
    /// 0 for full access, 1 for read-only, 3 for weak.
    pub access: u8,
    /// How many levels of nodes an address space has.
    pub height: u8,
    /// The key that a process receives when this capability starts it.
    pub key: u16,
    /// The number of the object that the capability names, or the data of a number capability.
    pub object: u64,
}

/// The words of a page.
#[repr(C)]
pub struct RawPage {
    pub words: [u64; WORDS],
}

/// An object given as numbers. Numbers that its kind doesn't have are 0, and capabilities void.
#[repr(C)]
#[derive(Clone, Copy)]
pub struct RawObject {
    /// The kind, from 0 on: free, page, node, process, annex, bank.
    pub kind: u32,
    /// The state of a process: 0 available, 1 running, 2 waiting.
    pub state: u16,
    /// The key of the last message that the process was sent.
    pub key: u16,
    /// The number of the bank that owns the object.
    pub owner: u64,
    /// The number of a process's annex.
    pub annex: u64,
    /// The words of the last message that the process was sent.
    pub words: [u64; 4],
    /// The limit of a bank.
    pub limit: u64,
    /// The usage of a bank: how many objects it and the banks below it own.
    pub used: u64,
    /// The address space of a process.
    pub space: RawCapability,
    /// The slots of a node; the registers of a process or of an annex.
    pub slots: [RawCapability; SLOTS],
}

impl RawCapability {
    // Returns a capability with these fields, and 0 in the others.
    fn new(kind: u8, object: u64) -> RawCapability
        ensures { result ≡ record { kind = kind; access = 0; height = 0; key = 0; object = object } }
    {
        RawCapability {
            kind,
            access: 0,
            height: 0,
            key: 0,
            object,
        }
    }

    /// Returns a capability as numbers.
    pub fn of(capability: Capability) -> RawCapability
        ensures { result ≡ raw_capability capability }
    {
        match capability {
            Capability::Void => RawCapability::new(0, 0),
            Capability::Number(number) => RawCapability::new(1, number),
            Capability::Page { object, access } => RawCapability {
                access: access.bits(),
                ..RawCapability::new(2, object)
            },
            Capability::Node { object, access } => RawCapability {
                access: access.bits(),
                ..RawCapability::new(3, object)
            },
            Capability::Space {
                object,
                height,
                access,
            } => RawCapability {
                access: access.bits(),
                height,
                ..RawCapability::new(4, object)
            },
            Capability::Process(process) => RawCapability::new(5, process),
            Capability::Start { process, key } => RawCapability {
                key,
                ..RawCapability::new(6, process)
            },
            Capability::Resume(process) => RawCapability::new(7, process),
            Capability::Bank(bank) => RawCapability::new(8, bank),
            Capability::Discrim => RawCapability::new(9, 0),
        }
    }
}

// Returns 32 capabilities as numbers.
fn raw_slots(slots: &[Capability]) -> [RawCapability; SLOTS]
    requires { length slots.now ≡ 32 }
    ensures { result ≡ map raw_capability slots.now }
{
    let mut raw = [RawCapability::new(0, 0); SLOTS];
    for index in 0..slots.len() {
        raw[index] = RawCapability::of(slots[index]);
    }
    raw
}

// Returns the registers of a process as numbers; void if they are unknown.
fn raw_registers(registers: &Option<Slots<Capability>>) -> [RawCapability; SLOTS]
    ensures { result ≡ raw_registers registers.now }
{
    match registers {
        Some(registers) => raw_slots(registers.as_slice()),
        None => [RawCapability::new(0, 0); SLOTS],
    }
}

// Returns the numbers of an object that has only a kind and an owner.
fn plain_object(kind: u32, owner: u64) -> RawObject
    ensures { result ≡ plain_object kind owner }
{
    RawObject {
        kind,
        state: 0,
        key: 0,
        owner,
        annex: 0,
        words: [0; 4],
        limit: 0,
        used: 0,
        space: RawCapability::new(0, 0),
        slots: [RawCapability::new(0, 0); SLOTS],
    }
}

impl RawObject {
    /// Returns an object as numbers.
    pub fn of(shown: &Description) -> RawObject
        ensures { result ≡ object_of shown.now }
    {
        let owner = shown.object.owner;
        match &shown.object.content {
            Content::Free => plain_object(0, owner),
            Content::Page(_) => plain_object(1, owner),
            Content::Node(slots) => {
                let mut raw = plain_object(2, owner);
                let slots = raw_slots(slots.as_slice());
                raw.slots = slots;
                raw
            }
            Content::Root(root) => {
                let mut raw = plain_object(3, owner);
                raw.state = root.state as u16;
                raw.key = root.key;
                raw.annex = root.annex;
                let words = root.words;
                raw.words = words;
                raw.space = RawCapability::of(root.space);
                let slots = raw_registers(&shown.registers);
                raw.slots = slots;
                raw
            }
            Content::Annex(slots) => {
                let mut raw = plain_object(4, owner);
                let slots = raw_slots(slots.as_slice());
                raw.slots = slots;
                raw
            }
            Content::Bank { limit } => {
                let mut raw = plain_object(5, owner);
                raw.limit = *limit;
                raw.used = shown.used;
                raw
            }
        }
    }
}

/// Copies the words of the page in an answer to `show`. Any other answer changes nothing.
pub fn copy_words(answer: &Answer, page: &mut RawPage)
    ensures { page.new.words ≡ shown_words answer.now page.old.words }
{
    if let Answer::Shown(shown) = answer {
        if let Content::Page(words) = &shown.get().object.content {
            let words = *words.as_array();
            page.words = words;
        }
    }
}

/// Copies the object in an answer to `show`, as numbers. Any other answer changes nothing.
pub fn copy_object(answer: &Answer, object: &mut RawObject)
    ensures { object.new ≡ shown_object answer.now object.old }
{
    if let Answer::Shown(shown) = answer {
        *object = RawObject::of(shown.get());
    }
}
