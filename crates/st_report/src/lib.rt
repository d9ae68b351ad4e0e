//! How a run ends: its status, why there is no output, and the one line that says so.
//!
//! A refusal has its evidence in the names of the file. `specs/Lines.antt` has the status and the line of each; a line is
//! written in pieces and without memory, whatever the sink does with it.
#![tactic(auto)]

mod stop;
mod telling;

pub use stop::{BadEdit, BadPath, NameList, NoOrientation, NotSt, Refusal, Status, Stop};
pub use telling::report;
