//! Polyline pictures of planar st-graphs: vertices as dots, and edges as lines with at most two bends.
#![tactic(auto)]

mod drawing;
mod grid;
mod items;
pub mod laws;
mod placer;
mod places;

pub use drawing::polyline;
pub use placer::Placer;
