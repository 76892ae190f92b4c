//! Theorems about the abstract machine: laws that the definitions must satisfy; an invocation keeps a sound
//! world sound; what processes with authority over a set can change; what the machine answers to worked
//! scripts.
#![tactic(auto)]

pub mod confinement;
pub mod laws;
pub mod soundness;
pub mod worked;
