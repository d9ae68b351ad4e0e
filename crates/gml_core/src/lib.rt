//! Text in a profile of GML: lists of keys and values.
//!
//! `lex` cuts bytes into tokens, `parse` reads their tree or names the first fault at its place, `print` writes a tree,
//! and a `Tree` is also built pair by pair. What a text, a tree, its first fault and its printed form are stands in
//! `specs/`; `laws` has what these definitions say together.
#![tactic(auto)]

mod fault;
pub mod laws;
mod lexing;
mod number;
mod parsing;
mod pieces;
mod printing;
mod quick;
mod readers;
mod text;
mod token;
mod tree;
mod within;

pub use fault::GmlFault;
pub use lexing::Tokens;
pub use parsing::parse;
pub use printing::print;
pub use readers::{TokenReader, TreeReader, lex};
pub use token::{Token, TokenKind};
pub use tree::{Pair, Tree, Value};

#[cfg(test)]
mod tests;
