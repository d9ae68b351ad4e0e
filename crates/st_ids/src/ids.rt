//! Numbers with a type of their own, and the trait of what may index a list.
ghost use Rattle.std.specs.Prelude.{◌≡◌, ℕ};

use std::alloc::{AllocError, AllocFailed};
use thiserror::Error;

/// Memory ran out.
#[derive(Clone, Copy, Debug, PartialEq, Eq, Error)]
#[error("no memory")]
pub struct NoMemory;

impl From<AllocError> for NoMemory {
    fn from(_e: AllocError) -> NoMemory {
        NoMemory
    }
}

impl<T: Drop> From<AllocFailed<T>> for NoMemory {
    fn from(_e: AllocFailed<T>) -> NoMemory {
        NoMemory
    }
}

/// A type that stands for the numbers of `u32`, so that a list can be indexed by it.
pub trait Id: Copy {
    /// The number of an id.
    ghost index: { Self → ℕ };

    /// The id with a number.
    ghost at: { ℕ → Self };

    /// The id with the number n.
    fn of(n: u32) -> Self
        ensures { result ≡ at n };

    /// The number of the id.
    fn number(self) -> u32
        ensures { result ≡ index self };

    /// The number of the id with a number is that number.
    ghost index_at: { (n : ℕ) → index (at n) ≡ n };

    /// The id with the number of an id is that id.
    ghost at_index: { (k : Self) → at (index k) ≡ k };
}

/// A vertex, by its place in the file.
#[derive(Clone, Copy, Debug, PartialEq, Eq, PartialOrd, Ord)]
pub struct VertexId(pub u32);

impl Id for VertexId {
    ghost use Rattle.std.specs.Prelude.{refl};

    ghost index = { λ k. k.0 };

    ghost at = { λ n. record { 0 = n } };

    ghost index_at = { λ n. refl };

    ghost at_index = { λ k. refl };

    fn of(n: u32) -> Self {
        VertexId(n)
    }

    fn number(self) -> u32 {
        self.0
    }
}

/// An edge, by its place in the file.
#[derive(Clone, Copy, Debug, PartialEq, Eq, PartialOrd, Ord)]
pub struct EdgeId(pub u32);

impl Id for EdgeId {
    ghost use Rattle.std.specs.Prelude.{refl};

    ghost index = { λ k. k.0 };

    ghost at = { λ n. record { 0 = n } };

    ghost index_at = { λ n. refl };

    ghost at_index = { λ k. refl };

    fn of(n: u32) -> Self {
        EdgeId(n)
    }

    fn number(self) -> u32 {
        self.0
    }
}

/// A face as an orbit of edge ends: the orbits are numbered by their least end.
#[derive(Clone, Copy, Debug, PartialEq, Eq, PartialOrd, Ord)]
pub struct OrbitId(pub u32);

impl Id for OrbitId {
    ghost use Rattle.std.specs.Prelude.{refl};

    ghost index = { λ k. k.0 };

    ghost at = { λ n. record { 0 = n } };

    ghost index_at = { λ n. refl };

    ghost at_index = { λ k. refl };

    fn of(n: u32) -> Self {
        OrbitId(n)
    }

    fn number(self) -> u32 {
        self.0
    }
}

/// A node of the dual: 0 is the left half of the outer face, the greatest number its right half.
#[derive(Clone, Copy, Debug, PartialEq, Eq, PartialOrd, Ord)]
pub struct FaceId(pub u32);

impl Id for FaceId {
    ghost use Rattle.std.specs.Prelude.{refl};

    ghost index = { λ k. k.0 };

    ghost at = { λ n. record { 0 = n } };

    ghost index_at = { λ n. refl };

    ghost at_index = { λ k. refl };

    fn of(n: u32) -> Self {
        FaceId(n)
    }

    fn number(self) -> u32 {
        self.0
    }
}
