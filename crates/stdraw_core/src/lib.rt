//! The top call: words and the bytes of a file in, an output and at most one diagnostic line out.
//!
//! `specs/Answer.antt` says what the one answer to words and bytes is, stage by stage; `specs/Run.antt` says, ending by
//! ending, what `run` does with it over any source and sinks.
#![tactic(auto)]

mod bench;
mod checked;
mod drawing;
mod generated;
mod lattice;
pub mod laws;
mod number;
mod oriented;
mod output;
mod paths;
mod query;
mod session;
mod tested;
mod top;

pub use st_report::{BadEdit, BadPath, NameList, NoOrientation, NotSt, Refusal, Status, Stop};
pub use st_words::{Command, DrawForm, Operation, Pairs, Spot};
pub use top::run;
