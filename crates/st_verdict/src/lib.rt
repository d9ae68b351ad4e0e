//! From the bytes of a file to its planar st-graph, or to the first reason why it has none, in the names of the file.
//!
//! A caller goes from stage to stage: `tree_of`, `graph_of` (both as one: `graph_in`), `accept`. Bytes that come in pieces are
//! fed to a reader of trees, by the caller or by `feed` from a source, and `tree_from` and `graph_from` take the reader. Each
//! call answers a `Stop` with the refusal that `specs/File.antt` and `specs/Verdict.antt` define, so that every fault can be
//! matched.
#![tactic(auto)]

mod feeding;
mod file;
pub mod laws;
mod verdict;

pub use feeding::{feed, graph_from, tree_from};
pub use file::{graph_in, graph_of, tree_of};
pub use verdict::{accept, map_of, name_of_edge, name_of_vertex};
