//! Whether a picture is right: clean, or tiled by its boxes; and what is wrong with it.
//!
//! `certify` is a quick test whose yes is proved right. Each item is cut into strips: what lies between two straight lines
//! over a range of heights. The strips are put into an order from left to right, and one after the other is placed right of
//! all that was placed at its heights. Where each finds its place, no two items have a point in common, but for the ends of
//! lines, which are part of no strip: they lie on the vertices of their names.
//!
//! ```text
//!   height 2        ----v2----         a bar or a dot: one strip, at one height
//!                    |      \
//!          1         |       +         a bend: one strip, at its height; a segment: one strip, without its ends
//!                    |      /
//!          0        ----v1----
//! ```
//!
//! `examine` names the first fault after a no. It compares items that have a height or the name of a vertex in common, and
//! no others: the two of a faulty pair always have. Boxes alone are compared each with each.
//!
//! Not trusted, and only tested: the orders from left to right (`order`, `slabs`) and the places that are looked up by names
//! (`names`). A wrong order gives a no, never a wrong yes, and a wrong place costs time alone.
#![tactic(auto)]

mod certificate;
mod first;
mod front;
pub mod laws;
mod names;
mod order;
mod pairs;
mod shapes;
mod slabs;
mod spans;
mod strip;
mod sweep;
#[cfg(test)]
mod tests;
mod tiles;

pub use certificate::{certify, examine};
