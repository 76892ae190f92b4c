// Reading the texts of capabilities and states.
ghost use Rattle.std.specs.Prelude.{◌≡◌, ◌≢◌, ◌<◌, ◌^◌, IfSome, IfNone};
ghost use Rattle.model.specs.declared.capability.Capability.{Capability};
ghost use Rattle.model.specs.declared.object.State.{State};
ghost use Rattle.model.specs.Capability.{IsWellFormed, named};
ghost use Rattle.model.specs.Text.{capability_text, state_text};
ghost use Rattle.script.specs.declared.named.Kind.{Kind};
ghost use Rattle.script.specs.Named.{kind_name, access_in, access_at, height_at, key_at, capability_at};
ghost use Rattle.script.specs.Reading.{Gives};

use crate::shown::state_word;
use crate::words::Words;
use model::{Access, Capability, MAX_HEIGHT, State};

// The kind of a capability, from the first word of its text.
#[derive(Clone, Copy)]
enum Kind {
    Void,
    Number,
    Page,
    Node,
    Space,
    Process,
    Start,
    Resume,
    Bank,
    Discrim,
}

impl Kind {
    const ALL: [Kind; 10] = [
        Kind::Void,
        Kind::Number,
        Kind::Page,
        Kind::Node,
        Kind::Space,
        Kind::Process,
        Kind::Start,
        Kind::Resume,
        Kind::Bank,
        Kind::Discrim,
    ];

    // Returns the word for the kind.
    fn name(self) -> &'static [u8]
        ensures { result.now ≡ kind_name self }
    {
        match self {
            Kind::Void => b"void",
            Kind::Number => b"number",
            Kind::Page => b"page",
            Kind::Node => b"node",
            Kind::Space => b"space",
            Kind::Process => b"process",
            Kind::Start => b"start",
            Kind::Resume => b"resume",
            Kind::Bank => b"bank",
            Kind::Discrim => b"discrim",
        }
    }
}

// Returns the kind for a word, or `None`.
fn kind_of(word: &[u8]) -> Option<Kind>
    ensures found { IfSome result (λ k. word.now ≡ kind_name k) }
    ensures none { IfNone result ((k : Kind) → word.now ≢ kind_name k) }
{
    for kind in Kind::ALL {
        if kind.name() == word {
            return Some(kind);
        }
    }
    None
}

// Returns the access for a word, `ro` or `weak`, or `None`.
#[tactic(auto, unfolding(crate::specs::Named::access_in))]
fn access_of(word: &[u8]) -> Option<Access>
    ensures { result ≡ access_in word.now }
{
    if word == b"ro".as_slice() {
        Some(Access::READ_ONLY)
    } else if word == b"weak".as_slice() {
        Some(Access::weak())
    } else {
        None
    }
}

// Takes the next word as an access. If no word is left, the access is full.
#[tactic(auto, unfolding(crate::specs::Named::access_at))]
fn access(words: &mut Words<'_>) -> Option<Access>
    ensures { Gives result words.new (access_at words.old) }
{
    match words.next() {
        Some(word) => access_of(word),
        None => Some(Access::full()),
    }
}

// Takes the next word as the height of a space.
#[tactic(auto, unfolding(crate::specs::Named::height_at))]
fn height(words: &mut Words<'_>) -> Option<u8>
    ensures { Gives result words.new (height_at words.old) }
{
    let height = words.number()?;
    if 1 <= height && height <= MAX_HEIGHT as u64 {
        Some(height as u8)
    } else {
        None
    }
}

// Takes the next word as the key of a start capability.
#[tactic(auto, unfolding(crate::specs::Named::key_at))]
fn key(words: &mut Words<'_>) -> Option<u16>
    ensures { Gives result words.new (key_at words.old) }
{
    match u16::try_from(words.number()?) {
        Ok(key) => Some(key),
        Err(_) => None,
    }
}

// Takes the words that follow the kind, and returns the capability.
#[tactic(auto, unfolding(crate::specs::Named::capability_at))]
fn arguments(kind: Kind, words: &mut Words<'_>) -> Option<Capability>
    ensures { Gives result words.new (capability_at kind words.old) }
{
    match kind {
        Kind::Void => Some(Capability::Void),
        Kind::Number => Some(Capability::Number(words.number()?)),
        Kind::Page => Some(Capability::Page {
            object: words.number()?,
            access: access(words)?,
        }),
        Kind::Node => Some(Capability::Node {
            object: words.number()?,
            access: access(words)?,
        }),
        Kind::Space => Some(Capability::Space {
            object: words.number()?,
            height: height(words)?,
            access: access(words)?,
        }),
        Kind::Process => Some(Capability::Process(words.number()?)),
        Kind::Start => Some(Capability::Start {
            process: words.number()?,
            key: key(words)?,
        }),
        Kind::Resume => Some(Capability::Resume(words.number()?)),
        Kind::Bank => Some(Capability::Bank(words.number()?)),
        Kind::Discrim => Some(Capability::Discrim),
    }
}

/// Returns the capability with this text, in the form that `show` prints, or `None`. It takes no memory.
///
/// The forms are `void`, `number N`, `page OBJECT`, `node OBJECT`, `space OBJECT HEIGHT`, `process PROCESS`, `start
/// PROCESS KEY`, `resume PROCESS`, `bank BANK` and `discrim`. A page, a node and a space may end with `ro` or
/// `weak`. One space separates words. Numbers are decimal, below 2^64 and without leading zeros; heights are 1 to
/// 4, keys below 65536.
#[tactic(auto, using(crate::proofs::CapabilityTexts::no_text, crate::proofs::CapabilityWords::no_words))]
pub fn capability_of(text: &[u8]) -> Option<Capability>
    ensures some { IfSome result (λ c. IsWellFormed c
        × IfSome (named c) (λ o. o < 2 ^ 64) × (capability_text c ≡ text.now)) }
    ensures none { IfNone result ((c : Capability) → IsWellFormed c
        → IfSome (named c) (λ o. o < 2 ^ 64) → capability_text c ≢ text.now) }
{
    let mut words = Words::new(text);
    let kind = kind_of(words.next()?)?;
    let capability = arguments(kind, &mut words)?;
    if words.is_empty() {
        Some(capability)
    } else {
        None
    }
}

/// Returns the state of a process with this text: `available`, `running` or `waiting`. Returns
/// `None` for any other text. It takes no memory.
#[tactic(auto, using(crate::proofs::Tables::no_state_left))]
pub fn state_of(text: &[u8]) -> Option<State>
    ensures some { IfSome result (λ s. state_text s ≡ text.now) }
    ensures none { IfNone result ((s : State) → state_text s ≢ text.now) }
{
    for state in [State::Available, State::Running, State::Waiting] {
        if state_word(state) == text {
            return Some(state);
        }
    }
    None
}
