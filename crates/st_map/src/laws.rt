//! Laws: functions that do nothing, whose contracts are theorems.
ghost use Rattle.st_map.specs.Embedded.{IsRotation};
ghost use Rattle.st_map.specs.Insert.{InsertLaw};
ghost use Rattle.st_map.specs.Laws.{FacesLaw};
ghost use Rattle.st_map.specs.Remove.{RemoveLaw};
ghost use Rattle.st_map.specs.Split.{SplitLaw};

use crate::Map;

/// The number of a face is the least of the ends that steps along the face reach, and two ends are of one face exactly
/// where steps lead from the one to the other: in every embedded graph, planar or not.
pub fn faces()
    ensures { FacesLaw }
{}

/// An edge split by a new vertex, seen by the clockwise next of each end: the new vertex has the two parts alone, the new
/// edge has the place of the old one at the old head, and all else stays. Afterwards each list has each end at the vertex
/// once and no other.
pub fn split()
    ensures { SplitLaw }
{}

/// An edge put in after two ends, seen by the clockwise next of each end: the new ends are next after the given ones and
/// lead to what these led to, and all else stays. Afterwards each list has each end at the vertex once and no other.
pub fn insert()
    ensures { InsertLaw }
{}

/// An edge left out, seen by the clockwise next of each end: each other end leads to the first end behind it that is none
/// of the edge's. Afterwards each list has each end at the vertex once and no other.
pub fn remove()
    ensures { RemoveLaw }
{}

/// The edges of every map join its vertices, and each of its lists has each end at the vertex once and no other.
pub fn rotation(map: &Map)
    ensures { IsRotation map.now.graph }
{
    let _ = map.edges();
}
