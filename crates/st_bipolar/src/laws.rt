//! Laws on orientations: empty functions, whose contracts are theorems.
ghost use Rattle.std.specs.Prelude.{◌≢◌, ℕ, Bool, List};
ghost use Rattle.st_ids.specs.Graph.{Graph};
ghost use Rattle.st_map.specs.Embedded.{Embedded};
ghost use Rattle.st_bipolar.specs.Cuts.{IsVisited};
ghost use Rattle.st_bipolar.specs.Kept.{OrientationKeepsLists};
ghost use Rattle.st_bipolar.specs.Laws.{VisitedLaw};
ghost use Rattle.st_bipolar.specs.Orientation.{IsOrientation, IsPlane, OrientLaw};
ghost use Rattle.st_bipolar.specs.OrientFault.{IsOrientFault};

use crate::OrientFault;

/// What a depth-first search delivers decides which vertices cut off which, and where none does, the list that puts
/// each vertex beside its parent and away from its low point numbers the vertices.
pub fn visited()
    ensures { (g : Graph) (s t : ℕ) (vs parent low : List ℕ)
        → IsVisited g s t vs parent low → VisitedLaw g s t vs parent low }
{}

/// Numbers of the vertices of a plane graph, each but the poles between neighbours with smaller and greater ones, make
/// it a planar st-graph by turning the edges that lead to the smaller number. Where turning some edges does so, the
/// graph is connected, no vertex cuts off another one from both poles, Euler's formula holds, and both poles are on
/// the outer face.
pub fn orientation()
    ensures { (g : Embedded) (s t outer : ℕ) → IsPlane g s t outer → OrientLaw g s t outer }
{}

/// A fault that `orient` answers, want of memory aside, forbids every orientation.
pub fn fault_forbids()
    ensures { (g : Embedded) (s t outer : ℕ) → IsPlane g s t outer
        → (f : OrientFault) → f ≢ OrientFault.NoMemory → IsOrientFault g s t outer f
        → (b : ℕ → Bool) (h : Embedded) → IsOrientation g s t outer b h → ⊥ }
{}

/// An orientation keeps each vertex's list of edges. The turned digraph with the lists that the map was made from
/// passes each test of a planar st-graph, and is that orientation too. So a file with both is accepted, and read as an
/// orientation.
pub fn lists_kept()
    ensures { OrientationKeepsLists }
{}
