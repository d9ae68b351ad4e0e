//! The words of a command line, and what they ask for.
//!
//! Words are a fixed form by position; there are no options. `specs/Words.antt` says which words ask for which task
//! (`IsTask`), and words that ask for none are told exactly.
#![tactic(auto)]

pub mod laws;
mod words;

pub use words::{Command, DrawForm, Operation, Pairs, Recipe, Spot, Task, command_of, task_of};
