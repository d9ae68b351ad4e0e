//! Plane graphs of undirected edges made planar st-graphs, in linear time.
//!
//! `orient` turns edges of a map so that it is a planar st-graph between two poles, or names the first fault that
//! forbids it: a vertex that is apart, Euler's formula, the outer face, or a vertex that cuts off another one
//! (`specs/OrientFault.antt`). What an orientation is stands in `specs/Orientation.antt`.
//!
//! The route: `searching` goes through the graph once, depth first, and finds each vertex's low point; by these
//! `faults` names a vertex that is apart or cuts off others; where none is, `ordering` puts each vertex beside its
//! parent in one list, and `numbering` numbers the vertices by it; `turning` turns the edges that lead to the smaller
//! number, and makes the map anew; `orienting` has the whole calls, `orient`, and `direct` for who needs no map.
#![tactic(auto)]

mod faults;
pub mod laws;
mod numbering;
mod ordering;
mod orienting;
#[cfg(test)]
mod orienting_tests;
mod searching;
mod turning;

pub use orienting::{OrientFault, Oriented, direct, orient};
pub use turning::Directed;
