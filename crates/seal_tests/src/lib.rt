//! Tests of sums and seals against values that a Python program computed from their definition.
#![tactic(auto)]

#[cfg(test)]
mod rows;
