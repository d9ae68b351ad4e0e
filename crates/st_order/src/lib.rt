//! Two numbers for each vertex of a planar st-graph that decide reaching: a vertex reaches another exactly where both its
//! numbers are at most the other's.
//!
//! The vertices have two orders: 'reaches or is left of' and 'reaches or is right of'. Both are total, and a vertex's numbers
//! are how many others stand before it in the one and in the other. After Di Battista, Tamassia and Tollis, Area requirement
//! and symmetry display of planar upward drawings (1992).
#![tactic(auto)]

#[cfg(test)]
mod labels_tests;
pub mod laws;
mod table;
mod traversal;

pub use table::Labels;
pub use traversal::{degrees, labels, put};
