//! Pictures on a grid: points, segments, where they meet, and what is wrong with a picture.
//!
//! The axes go right and up, and coordinates are whole numbers from 0 to `GREATEST`. Nothing here rounds: `turn` and `meet`
//! decide by the signs of products of whole numbers.
#![tactic(auto)]

mod alone;
mod boxes;
mod crossing;
mod item;
mod meeting;
mod names;
mod pairs;
mod picture;
mod point;
mod search;
#[cfg(test)]
mod tests;
mod touching;
mod verdict;

pub use alone::{is_faulty_alone, is_rising};
pub use item::Item;
pub use meeting::{meet, turn};
pub use pairs::is_faulty_pair;
pub use picture::{Fault, Form, Picture};
pub use point::{GREATEST, Point, Points, Segment, Turn};
pub use verdict::{areas_fill, clean};
