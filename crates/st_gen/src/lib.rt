//! Test inputs from a number: a planar st-graph that grows by ears along its right boundary.
//!
//! The graph begins as one edge from the source to the sink. An ear is a path through new vertices, from a vertex of the
//! right boundary to one at most four places nearer to the sink, and lies to the right of all that is there. Where an ear
//! begins, where it ends and how long it is are drawn from a PCG generator with the given seed, so that a number of vertices
//! and a seed make the same graph everywhere. What a contract says of the edges stands in `specs/Made.antt`.
#![tactic(auto)]

mod chunk;
pub mod laws;
mod making;
#[cfg(test)]
mod making_tests;
mod row;

pub use making::make;
