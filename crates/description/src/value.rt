// Reading values of each type.
ghost use Rattle.std.specs.Prelude.{◌≡◌, ◌≢◌, ℕ, ◌^◌, ◌≤◌, None, Some, IfNone, IfSome, MatchOption};
ghost use Rattle.toml.specs.Data.{Data, Items, Members, array, as_integer, table, item, no_items};
ghost use Rattle.toml.specs.View.{array_view, table_view, view};
ghost use Rattle.description.specs.Outcomes.{Finds};
ghost use Rattle.description.specs.Reading.{IsCapability, IsNumber, IsState, IsWideNumber};

use model::{Capability, State};
use script::{capability_of, state_of};
use toml::value::Array;
use toml::{Table, Value};

// Returns the number of a number capability if it is 2^63 or above, else `None`. TOML has no integers as large as
// that.
fn large_number(capability: Option<Capability>) -> Option<u64>
    ensures found { IfSome result (λ n. (2 ^ 63 ≤ n) × (capability ≡ Some (Capability.Number n))) }
    ensures none { IfNone result
        ((n : ℕ) → 2 ^ 63 ≤ n → capability ≢ Some (Capability.Number n)) }
{
    match capability {
        Some(Capability::Number(number)) => { if number < 1 << 63 { None } else { Some(number) } }
        _ => None,
    }
}

// Returns the number if a value is the text of a number of 2^63 or above, else `None`.
#[tactic(auto, using(crate::proofs::Types::text_said))]
fn number_in_text(value: &Value) -> Option<u64>
    requires { as_integer (view value.now) ≡ None }
    ensures { Finds (IsWideNumber (view value.now)) result }
{
    let capability = capability_at(value)?;
    large_number(capability)
}

// Returns a value as a number, or `None` if it isn't an integer or is negative.
#[tactic(auto, using(crate::proofs::Types::natural))]
pub(crate) fn number_of(value: &Value) -> Option<u64>
    ensures { Finds (IsNumber (view value.now)) result }
{
    match value.as_integer() {
        Some(number) => {
            if number.is_negative() {
                return None;
            }
            Some(number.unsigned_abs())
        }
        None => None,
    }
}

// Returns a value as a number of 64 bits, or `None`. A number of 2^63 or above is a text.
#[tactic(auto, using(crate::proofs::Types::wide_read))]
pub(crate) fn wide_number_of(value: &Value) -> Option<u64>
    ensures { Finds (IsWideNumber (view value.now)) result }
{
    if value.is_integer() {
        number_of(value)
    } else {
        number_in_text(value)
    }
}

// Returns the capability in a text, `Some(None)` if the text is no capability's, or `None` if the value isn't a text.
#[tactic(auto, using(crate::proofs::Types::capability_reported))]
pub(crate) fn capability_at(value: &Value) -> Option<Option<Capability>>
    ensures { Finds (IsCapability (view value.now)) result }
{
    match value.as_str() {
        Some(text) => Some(capability_of(text.as_bytes())),
        None => None,
    }
}

// Returns the state in a text, `Some(None)` if the text is no state's, or `None` if the value isn't a text.
#[tactic(auto, using(crate::proofs::Types::state_reported))]
pub(crate) fn state_at(value: &Value) -> Option<Option<State>>
    ensures { Finds (IsState (view value.now)) result }
{
    match value.as_str() {
        Some(text) => Some(state_of(text.as_bytes())),
        None => None,
    }
}

// Returns the items of a list, or `None` if the value isn't a list.
pub(crate) fn array_of(value: &Value) -> Option<&Array>
    ensures { MatchOption result
        ((ds : Items) → view value.now ≡ array ds → ⊥)
        (λ items. view value.now ≡ array (array_view items.now)) }
{
    value.as_array()
}

// Returns the members of a table, or `None` if the value isn't a table.
pub(crate) fn table_of(value: &Value) -> Option<&Table>
    ensures { MatchOption result
        ((ms : Members) → view value.now ≡ table ms → ⊥)
        (λ members. view value.now ≡ table (table_view members.now)) }
{
    value.as_table()
}

// Returns the two values of a list, or `None` if the value isn't a list of two.
pub(crate) fn pair_of(value: &Value) -> Option<(&Value, &Value)>
    ensures { MatchOption result
        ((a b : Data) → view value.now ≡ array (item a (item b no_items)) → ⊥)
        (λ p. view value.now ≡ array (item (view p.0.now) (item (view p.1.now) no_items))) }
{
    let items = array_of(value)?;
    match items.as_slice() {
        [first, second] => Some((first, second)),
        _ => None,
    }
}
