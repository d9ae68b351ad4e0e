//! Pictures of planar st-graphs: which items they have, what is right in one, and the steps that every drawing shares.
#![tactic(auto)]

mod bars;
mod composing;
mod labels;
pub mod laws;
mod pushing;
#[cfg(test)]
mod tests;

pub use bars::{bars_and_lines, number_in};
pub use composing::{compose, dot, line};
pub use labels::push_labels;
pub use pushing::push_each;
