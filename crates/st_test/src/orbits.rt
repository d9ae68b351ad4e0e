//! The faces of a map, by number in the order of their least ends.
ghost use Rattle.std.specs.Prelude.{◌≡◌, ◌<◌, length, slice_index};

use st_ids::{Dart, IdVec, OrbitId};
use std::marker::Model;

/// The faces of a map. A contract sees the record `FaceNumbers`.
#[derive(Drop)]
pub struct Faces {
    orbit: IdVec<Dart, u32>,
    count: u32,
}

impl Model for Faces {
    ghost use Rattle.st_test.specs.FaceNumbers.{FaceNumbers};

    ghost Value = { FaceNumbers };

    ghost view = { λ a. record { orbit = a.orbit; count = a.count } };
}

impl Faces {
    /// The faces with these numbers.
    pub(crate) fn of(orbit: IdVec<Dart, u32>, count: u32) -> Faces
        ensures { result ≡ record { orbit = orbit; count = count } }
    {
        Faces { orbit, count }
    }

    /// The number of faces.
    pub fn count(&self) -> u32
        ensures { result ≡ self.now.count }
    {
        self.count
    }

    /// The face that holds the end. Faces are numbered from 0 in the order of their least ends.
    pub fn orbit(&self, d: Dart) -> OrbitId
        requires { d.0 < length self.now.orbit }
        ensures { result.0 ≡ slice_index self.now.orbit d.0 }
    {
        OrbitId(*self.orbit.get(d))
    }
}
