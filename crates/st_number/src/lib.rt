//! Weights of edges, and the greatest weights of walks: heights of vertices and columns of faces.
#![tactic(auto)]

mod dual_pass;
pub mod laws;
mod multiple;
#[cfg(test)]
mod number_tests;
mod passes;
mod spreading;
mod weights;

pub use dual_pass::columns;
pub use multiple::parallel;
pub use passes::{heights, pass, signed};
pub use spreading::spread;
pub use weights::Weights;
