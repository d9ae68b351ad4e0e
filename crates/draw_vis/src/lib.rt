//! Pictures of planar st-graphs by visibility: vertices as level bars, and edges as upright lines or as boxes.
#![tactic(auto)]

mod grid;
pub mod laws;
mod tiles;
mod visible;

pub use tiles::tessellation;
pub use visible::visibility;
