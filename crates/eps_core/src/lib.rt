//! Pictures as EPS text: written, and read back.
//!
//! `specs/Text.antt` says what the text of a picture is, line by line, and `specs/Meaning.antt` what bytes tell of a
//! picture, or which line of them is the first bad one. Each line is built in a buffer of 256 bytes on the stack, so
//! writing takes no memory.
#![tactic(auto)]

mod cutting;
mod decoding;
mod fault;
pub mod laws;
mod line;
mod lines;
mod reading;
#[cfg(test)]
mod reading_tests;
#[cfg(test)]
mod tests;
mod words;
mod writing;

pub use fault::EpsFault;
pub use reading::read_eps;
pub use writing::write_eps;
