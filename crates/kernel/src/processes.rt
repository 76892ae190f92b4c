// The steps of processes, over any present frames.
mod early;
mod invocation;
mod memory;
mod served;
mod showing;

pub use invocation::invoke;
pub use memory::{load, store};
pub use served::Served;
pub use showing::show;
