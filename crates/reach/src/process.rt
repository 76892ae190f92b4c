// Finding the numbers of processes.
ghost use Rattle.std.specs.Prelude.{◌≡◌, ◌↔◌, ℕ, IfOk, IsNone, IsTrue, not};
ghost use Rattle.std.specs.List.{All, Contains, find};
ghost use Rattle.model.specs.World.{is_process};

use model::{Content, Object};
use std::alloc::{AllocError, Global};

// Whether a number is that of a process.
fn is_process(objects: &[Object], number: u64) -> bool
    ensures { result ≡ is_process objects.now number }
{
    match objects.get(number as usize) {
        Some(object) => matches!(object.content, Content::Root(_)),
        None => false,
    }
}

/// Returns the first of these numbers that isn't a process's, or `None` if each is one.
pub fn missing_process(objects: &[Object], numbers: &[u64]) -> Option<u64>
    ensures first { result ≡ find (λ n. not (is_process objects.now n)) numbers.now }
    ensures none { IsNone result → All (λ n. IsTrue (is_process objects.now n)) numbers.now }
{
    for number in numbers {
        if !is_process(objects, *number) {
            return Some(*number);
        }
    }
    None
}

/// Returns the numbers of all processes. Fails only if memory runs out.
pub fn all_processes(alloc: Global, objects: &[Object]) -> Result<Vec<u64>, AllocError>
    ensures { IfOk result (λ all. (n : ℕ) → Contains all.items n ↔ IsTrue (is_process objects.now n)) }
{
    let mut all = Vec::new(alloc);
    for number in 0..objects.len() as u64 {
        if is_process(objects, number) {
            all.push(number)?;
        }
    }
    Ok(all)
}
