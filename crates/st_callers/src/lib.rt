//! The crates as a library: callers to copy from. Each has a file of its own, and says in its contract what the calls below it
//! promise. `answered` runs a command over memory; the others stand on lower crates alone.
#![tactic(auto)]

mod accepted;
mod building;
mod built;
mod over_memory;
mod reaching;
mod read_back;
#[cfg(test)]
mod tests;

pub use accepted::{Upload, received};
pub use building::triangle;
pub use built::{text_length, triangle_length};
pub use over_memory::{Unanswered, answered};
pub use reaching::reached;
pub use read_back::{Drawn, looked_at};
