//! Dominance pictures of planar st-graphs: vertices as dots that show what they reach, and edges as straight lines.
//!
//! Each vertex has two numbers that decide reaching. Its compact point counts, in the order of each number, the steps that
//! are needed to tell vertices apart. Transitive edges are split first, and drawn by the point of their new vertex; the graph
//! with the split edges is never made, since its numbers are read off the sides of the graph itself. After Di Battista,
//! Tamassia and Tollis, Area requirement and symmetry display of planar upward drawings (1992).
#![tactic(auto)]

mod compaction;
mod drawing;
mod items;
pub mod laws;
mod shown;
mod splitting;
mod table;

pub use compaction::compact;
pub use drawing::{dominance, dominance_points};
pub use shown::{Dominance, reaches_by};
pub use table::Compact;
