//! Laws of aligned paths: empty functions, whose contracts are theorems about the definitions of specs/.
ghost use Rattle.draw_align.specs.Alignment.{AlignmentLaw, AreValid, Paths};
ghost use Rattle.draw_align.specs.Constrained.{ConstrainedLaw};
ghost use Rattle.draw_align.specs.Faults.{AreThere};
ghost use Rattle.draw_align.specs.Heights.{ConstrainedHeights};
ghost use Rattle.draw_align.specs.Laws.{OneFaultLaw, OnePictureLaw};
ghost use Rattle.draw_align.specs.Listed.{AreSound};
ghost use Rattle.std.specs.Prelude.{List, ℕ, length};
ghost use Rattle.st_sides.specs.Sides.{IsSides, SidesValue};

/// The alignment graph of paths of which no two cross. Its nodes are those of the dual and the paths. For each edge an arc of
/// weight 0 leads from the node on its left to its path, and one of weight 1 from its path to the node on its right. It has
/// no cycle, and each node has one greatest weight of walks from the left half of the outer face.
pub fn alignment()
    ensures { (g : SidesValue) → IsSides g → (P : Paths) → AreValid g P → AlignmentLaw g P }
{}

/// Each constrained picture of sound paths is drawn right, and the edges of each path stand in one column, for all weights
/// from 1.
pub fn constrained()
    ensures { (g : SidesValue) → IsSides g → (ps : List (List ℕ)) → AreThere g ps → AreSound g ps (length ps) → ConstrainedLaw g ps }
{}

/// For all weights and names there is a constrained picture of sound paths, and one alone.
pub fn one_picture()
    ensures { (g : SidesValue) → IsSides g → (ps : List (List ℕ)) → AreThere g ps → OnePictureLaw g ps }
{}

/// Two first faults of the same paths are the same, and sound paths have none. Want of memory is none of them.
pub fn one_fault()
    ensures { (g : SidesValue) → IsSides g → (ps : List (List ℕ)) → AreThere g ps → OneFaultLaw g ps }
{}

/// In each constrained picture each vertex stands at its height: the greatest weight of a walk from the source.
pub fn constrained_heights()
    ensures { (g : SidesValue) → IsSides g → ConstrainedHeights g }
{}
