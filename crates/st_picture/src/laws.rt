//! Laws of pictures of planar st-graphs: empty functions, whose contracts are theorems about the definitions of specs/.
ghost use Rattle.st_picture.specs.Drawn.{BarsLaw};
ghost use Rattle.st_picture.specs.Growing.{FiguresLaw};
ghost use Rattle.st_sides.specs.Sides.{SidesValue, IsSides};

/// For all heights that grow along the edges, and all columns that grow along the arcs of the dual: where a vertex keeps to
/// its height, an edge to the heights from its tail to its head, and both to columns between their left and their right, two
/// that share a point are such that one ends where the other begins. And each cell of the frame lies between the sides and
/// the ends of exactly one edge.
pub fn figures()
    ensures { (g : SidesValue) → IsSides g → FiguresLaw g }
{}

/// Every picture of bars and lines is clean, shows the order at each vertex and fits its frame, for any heights that grow
/// along the edges, any columns that grow along the arcs of the dual, and any columns of the lines between those of their
/// sides. The form is any but Tessellation and Dominance.
pub fn bars_and_lines()
    ensures { (g : SidesValue) → IsSides g → BarsLaw g }
{}
