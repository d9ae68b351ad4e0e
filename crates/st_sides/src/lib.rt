//! The sides of a planar st-graph: what lies left and right of each edge and vertex, and the two paths of each face, as laws
//! and as a value that is computed in linear time.
#![tactic(auto)]

mod beside;
pub mod laws;
mod nodes;
mod order;
mod parts;
mod paths;
mod runs;
mod sides;
#[cfg(test)]
mod sides_tests;
mod stars;
mod starts;
mod sweeping;

pub use order::Sweep;
pub use sides::Sides;
pub use sweeping::sweep;
