//! The limits of the program, which its words, its reader, its lines and its drawings share.
//!
//! A limit stands here alone: code and clauses cite it, and the diagnostic lines are built from it.

/// The most bytes of a file.
pub const MOST_BYTES: usize = 67_108_864;

/// The most vertices of a graph.
pub const MOST_VERTICES: u32 = 100_000;

/// The most edges of a graph.
pub const MOST_EDGES: u32 = 300_000;

/// The most pairs of a query.
pub const MOST_PAIRS: usize = 1_000;

/// The most records of a session.
pub const MOST_RECORDS: u32 = 1_000;

/// The greatest least length of an edge; the least is 1.
pub const MOST_LENGTH: u32 = 500;

/// How deep the lists of a file nest at most.
pub const MOST_DEPTH: usize = 32;

/// The greatest coordinate of a picture.
pub const MOST_COORDINATE: u32 = 50_000_000;

/// The most bytes of a drawing that is checked. Each drawing of a graph within the limits is shorter.
pub const MOST_DRAWING_BYTES: usize = 268_435_456;
