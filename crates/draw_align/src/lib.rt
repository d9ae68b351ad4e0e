//! Pictures of planar st-graphs by visibility in which the edges of each listed path stand in one column.
#![tactic(auto)]

mod alignment;
mod apart;
mod crossing;
mod faults;
mod homes;
pub mod laws;
mod path_fault;
mod picture;
mod steps;
mod walking;

pub use path_fault::PathFault;
pub use picture::constrained;
