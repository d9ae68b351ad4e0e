//! The rotation map: a digraph with the clockwise list of the edge ends at each vertex.
//!
//! A contract sees a `Map` as the record `MapValue`: its graph (`Embedded`: vertices, ends of edges, and each vertex's
//! list of ends from its first end on) and `spare`. The definitions of `specs/Embedded.antt` say what the clockwise next
//! of an end is, and what the faces are.
#![tactic(auto)]

mod digraph;
pub mod laws;
mod links;
mod listing;
mod map;
mod orders;
mod room;
#[cfg(test)]
mod tests;

pub use map::Map;
pub use orders::MapFault;
