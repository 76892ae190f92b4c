// Writing the values of a description. Each function that writes fails only if memory runs out.
ghost use Rattle.std.specs.Prelude.{◌≡◌, ℕ, ◌++◌, List, OnOk, codes, string_bytes};
ghost use Rattle.std.specs.List.{All, flat_map, join_by};
ghost use Rattle.model.specs.Capability.{IsAccess, IsWellFormed};
ghost use Rattle.model.specs.Text.{access_text, capability_text, state_text};
ghost use Rattle.description.specs.Described.{IsSomeCapability};
ghost use Rattle.image_describer.specs.Text.{list_text, quoted, range_text, slot_text, wide_text, word_text};

use description::{SlotEntry, WordEntry};
use home_ranges::NumberRange;
use model::{Access, Capability, State};
use std::alloc::AllocError;

// Returns ` ro` or ` weak` for a restricted access, else an empty text.
fn access_word(access: Access) -> &'static str
    requires { IsAccess access }
    ensures { result.now ≡ access_text access }
{
    if access == Access::full() {
        ""
    } else if access == Access::READ_ONLY {
        " ro"
    } else {
        " weak"
    }
}

// Writes the capability to an address space.
#[tactic(auto, using(std::proofs::Common::append_assoc), unfolding(model::specs::Text::capability_text))]
fn put_space_text(
    text: &mut String,
    object: u64,
    height: u8,
    access: Access,
) -> Result<(), AllocError>
    requires { IsAccess access }
    ensures { OnOk result (string_bytes text.new
        ≡ string_bytes text.old ++ capability_text (Capability.Space object height access)) }
{
    let word = access_word(access);
    write!(text, "space {object} {height}{word}")
}

/// Writes a capability.
#[tactic(auto, unfolding(model::specs::Text::capability_text))]
pub(crate) fn put_capability(text: &mut String, capability: Capability) -> Result<(), AllocError>
    requires { IsWellFormed capability }
    ensures { OnOk result
        (string_bytes text.new ≡ string_bytes text.old ++ capability_text capability) }
{
    match capability {
        Capability::Void => text.push_str("void"),
        Capability::Number(number) => write!(text, "number {number}"),
        Capability::Page { object, access } => {
            let word = access_word(access);
            write!(text, "page {object}{word}")
        }
        Capability::Node { object, access } => {
            let word = access_word(access);
            write!(text, "node {object}{word}")
        }
        Capability::Space {
            object,
            height,
            access,
        } => put_space_text(text, object, height, access),
        Capability::Process(process) => write!(text, "process {process}"),
        Capability::Start { process, key } => write!(text, "start {process} {key}"),
        Capability::Resume(process) => write!(text, "resume {process}"),
        Capability::Bank(bank) => write!(text, "bank {bank}"),
        Capability::Discrim => text.push_str("discrim"),
    }
}

/// Returns the word for a state.
pub(crate) fn state_word(state: State) -> &'static str
    ensures { result.now ≡ state_text state }
{
    match state {
        State::Available => "available",
        State::Running => "running",
        State::Waiting => "waiting",
    }
}

/// Writes a number: an integer below 2^63; from there on, where TOML has no integers, the text of its
/// number capability.
#[tactic(auto, unfolding(model::specs::Text::capability_text))]
pub(crate) fn put_wide(text: &mut String, number: u64) -> Result<(), AllocError>
    ensures { OnOk result (string_bytes text.new ≡ string_bytes text.old ++ wide_text number) }
{
    if number < 1 << 63 {
        write!(text, "{number}")
    } else {
        write!(text, "\"number {number}\"")
    }
}

/// A value in a list.
pub(crate) trait Item {
    /// The text of the value.
    ghost text_of: { Self → List ℕ };

    /// The value can be written.
    ghost MayBePut: { Self → Type 0 };

    /// Writes the value.
    fn put(&self, text: &mut String) -> Result<(), AllocError>
        requires { MayBePut self.now }
        ensures { OnOk result (string_bytes text.new ≡ string_bytes text.old ++ text_of self.now) };
}

// Writes values of a list, each after a comma.
fn put_others<T: Item>(text: &mut String, items: &[T]) -> Result<(), AllocError>
    requires { All T.MayBePut items.now }
    ensures { OnOk result (string_bytes text.new
        ≡ string_bytes text.old ++ flat_map (λ x. codes ", " ++ T.text_of x) items.now) }
{
    for item in items {
        text.push_str(", ")?;
        item.put(text)?;
    }
    Ok(())
}

// Writes the items of a list.
fn put_joined<T: Item>(text: &mut String, items: &[T]) -> Result<(), AllocError>
    requires { All T.MayBePut items.now }
    ensures { OnOk result (string_bytes text.new
        ≡ string_bytes text.old ++ join_by T.text_of (codes ", ") items.now) }
{
    match items.split_first() {
        None => Ok(()),
        Some((first, others)) => {
            first.put(text)?;
            put_others(text, others)
        }
    }
}

/// Writes a list.
pub(crate) fn put_items<T: Item>(text: &mut String, items: &[T]) -> Result<(), AllocError>
    requires { All T.MayBePut items.now }
    ensures { OnOk result
        (string_bytes text.new ≡ string_bytes text.old ++ list_text T.text_of items.now) }
{
    text.push_str("[")?;
    put_joined(text, items)?;
    text.push_str("]")
}

impl Item for u64 {
    ghost text_of = { wide_text };

    ghost MayBePut = { λ _. Unit {0} };

    fn put(&self, text: &mut String) -> Result<(), AllocError> {
        put_wide(text, *self)
    }
}

impl Item for SlotEntry {
    ghost text_of = { slot_text };

    ghost MayBePut = { λ slot. IsSomeCapability slot.capability };

    fn put(&self, text: &mut String) -> Result<(), AllocError> {
        let Some(capability) = self.capability else {
            unreachable!()
        };
        let index = self.index;
        write!(text, "[{index}, \"")?;
        put_capability(text, capability)?;
        text.push_str("\"]")
    }
}

impl Item for WordEntry {
    ghost text_of = { word_text };

    ghost MayBePut = { λ _. Unit {0} };

    fn put(&self, text: &mut String) -> Result<(), AllocError> {
        let index = self.index;
        write!(text, "[{index}, ")?;
        put_wide(text, self.word)?;
        text.push_str("]")
    }
}

impl Item for NumberRange {
    ghost text_of = { range_text };

    ghost MayBePut = { λ _. Unit {0} };

    fn put(&self, text: &mut String) -> Result<(), AllocError> {
        let NumberRange { first, count } = *self;
        write!(text, "[{first}, {count}]")
    }
}
