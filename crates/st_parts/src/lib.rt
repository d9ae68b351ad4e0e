//! What the used pairs of a text say: which keys are used, of which kind, once or each, and where they stand.
//!
//! `parts::scan_graph` goes once over the list of a pair `graph`, and once over each list in it that is used. No name is
//! looked up here.
#![tactic(auto)]

mod edges;
mod firsts;
mod keys;
mod kinds;
mod labels;
pub mod laws;
mod mentions;
mod nodes;
mod outer;
pub mod parts;
pub mod used;
