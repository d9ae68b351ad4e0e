//! The reduced graph of a planar st-graph: each transitive edge gets a new vertex in its middle.
//!
//! Which edges are transitive is read off the sides: an edge is so exactly where it alone is one of the two paths of an
//! inner face. `reduce` splits each in place in the map and tests the result anew, in linear time. `find_dummies` numbers the
//! new vertices alone.
#![tactic(auto)]

mod dummies;
pub mod laws;
mod marks;
#[cfg(test)]
mod reduce_tests;
mod reducing;

pub use dummies::{Dummies, find_dummies};
pub use reducing::{Reduced, reduce};
