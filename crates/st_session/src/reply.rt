//! The reply to a question.

/// Whether the first vertex reaches the second, and the two numbers of each: how many other vertices reach it or
/// are left of it, and how many reach it or are right of it.
#[derive(Clone, Copy, Debug, PartialEq, Eq)]
pub struct Reply {
    pub reaches: bool,
    pub from_x: u32,
    pub from_y: u32,
    pub to_x: u32,
    pub to_y: u32,
}
