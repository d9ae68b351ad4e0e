//! Edit sessions: a planar st-graph with names that edits change in place, and questions that are answered as if
//! the graph had been read anew.
//!
//! A contract sees a `Session` as the record `SessionValue`: its state (`SessionState`: the graph with its lists,
//! the names of its vertices and edges, and an outer end), and two limits. What each edit does to the state and
//! which fault is its first stands in `specs/Edits.antt`, the reply to a question in `specs/Replies.antt`, and what
//! holds of every list of calls in `specs/Runs.antt`.
#![tactic(auto)]

mod corners;
mod faults;
mod insertion;
pub mod laws;
mod names;
mod numbers;
mod reply;
mod room;
mod session;
#[cfg(test)]
mod session_tests;

pub use faults::{AskFault, EditFault};
pub use reply::Reply;
pub use session::Session;
