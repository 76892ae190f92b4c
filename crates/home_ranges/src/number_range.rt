// Ranges of numbers, before the layout gives them sectors.

/// Consecutive numbers of objects whose frames will lie one after the other.
#[derive(Clone, Copy)]
pub struct NumberRange {
    /// The first number.
    pub first: u64,
    /// How many numbers the range has.
    pub count: u64,
}
