// Where a table differs from the form of a description.
ghost use Rattle.std.specs.Prelude.{◌≡◌, codes};
ghost use Rattle.description.specs.Shapes.{key_name, misfit};
ghost use Rattle.description.specs.declared.place.Misread.TheVariants.{Misshapen};

use std::alloc::{AllocError, AllocFailed};

/// A key of one of the tables of a description.
#[derive(Clone, Copy)]
pub enum Key {
    Nodes,
    Pages,
    Log,
    Layout,
    Age,
    Ranges,
    Banks,
    Processes,
    NodeList,
    PageList,
    ObjectNumber,
    ObjectOwner,
    BankLimit,
    ProcessRoot,
    ProcessAnnex,
    ProcessState,
    ProcessKey,
    ProcessWords,
    ProcessSpace,
    ProcessRegisters,
    NodeSlots,
    PageWords,
}

impl Key {
    /// Returns the key's text.
    pub fn name(self) -> &'static str
        ensures { result.now ≡ key_name self }
    {
        match self {
            Key::Nodes => "nodes",
            Key::Pages => "pages",
            Key::Log => "log",
            Key::Layout => "layout",
            Key::Age => "age",
            Key::Ranges => "ranges",
            Key::Banks => "bank",
            Key::Processes => "process",
            Key::NodeList => "node",
            Key::PageList => "page",
            Key::ObjectNumber => "number",
            Key::ObjectOwner => "owner",
            Key::BankLimit => "limit",
            Key::ProcessRoot => "root",
            Key::ProcessAnnex => "annex",
            Key::ProcessState => "state",
            Key::ProcessKey => "key",
            Key::ProcessWords => "words",
            Key::ProcessSpace => "space",
            Key::ProcessRegisters => "registers",
            Key::NodeSlots => "slots",
            Key::PageWords => "words",
        }
    }
}

/// A table in a description: the whole, or one at an index of a list.
#[derive(Clone, Copy)]
pub enum TableName {
    Whole,
    Bank(usize),
    Process(usize),
    Node(usize),
    Page(usize),
}

/// A flaw in a table.
#[derive(Clone, Copy)]
pub enum Flaw<'a> {
    /// This key is unknown.
    Unknown(&'a str),
    /// This key is missing, or its value has the wrong type.
    Misfit(Key),
    /// The item at this index of the list at this key is malformed.
    Item(Key, usize),
}

/// A table, with a flaw in it.
#[derive(Clone, Copy)]
pub struct ShapePlace<'a> {
    pub table: TableName,
    pub flaw: Flaw<'a>,
}

/// Why a table can't be read as a description.
#[derive(Clone, Copy)]
pub enum Misread<'a> {
    /// This is the first place where the table differs from the form of a description.
    Misshapen(ShapePlace<'a>),
    /// Memory ran out.
    NoMemory,
}

// Returns the fault for a key whose value is missing or has the wrong type.
pub(crate) fn misfit<'a>(table: TableName, key: Key) -> Misread<'a>
    ensures { result ≡ Misshapen (misfit table key) }
{
    Misread::Misshapen(ShapePlace {
        table,
        flaw: Flaw::Misfit(key),
    })
}

impl From<AllocError> for Misread<'_> {
    ghost use Rattle.description.specs.declared.place.Misread.TheVariants as misread;

    ghost from_gives = { λ _ why. why ≡ misread.NoMemory };

    fn from(_error: AllocError) -> Self {
        Misread::NoMemory
    }
}

impl<T: Drop> From<AllocFailed<T>> for Misread<'_> {
    ghost use Rattle.description.specs.declared.place.Misread.TheVariants as misread;

    ghost from_gives = { λ _ why. why ≡ misread.NoMemory };

    fn from(_failed: AllocFailed<T>) -> Self {
        Misread::NoMemory
    }
}
