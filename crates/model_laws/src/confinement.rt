// Confinement: what processes can change if they have authority only over a set of numbers.
pub mod laws;
pub mod worked;
