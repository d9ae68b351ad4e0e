//! Laws of edges that are split, and of transitive edges: empty functions, whose contracts are theorems about the
//! definitions of specs/.
ghost use Rattle.st_reduce.specs.Reduced.{OneReducedLaw, ReducedLaw, PlanarSplitLaw};
ghost use Rattle.st_reduce.specs.ReducedSides.{ReducedSidesLaw};
ghost use Rattle.st_reduce.specs.Transitive.{TransitiveLaw};

/// An edge of a planar st-graph that is split leaves a planar st-graph with the same poles and the same outer end, and the
/// old vertices reach each other as before.
pub fn split()
    ensures { PlanarSplitLaw }
{}

/// In the sides of a planar st-graph an edge is transitive exactly where it alone is the left or the right path of an inner
/// face.
pub fn transitive()
    ensures { TransitiveLaw }
{}

/// Each planar st-graph has a reduced graph, with its transitive edges split one after the other in file order. It is a
/// planar st-graph with the same poles and the same outer end, has no transitive edge, and the old vertices reach each
/// other as before.
pub fn reduced()
    ensures { ReducedLaw }
{}

/// The sides of the reduced graph are those of the graph, with the new vertices and edges: each old vertex has the same
/// edges out from left to right, and the edges in are the same but that a split edge comes by its second part. A split edge
/// leads to its new vertex, and its second part from there to the old head.
pub fn reduced_sides()
    ensures { ReducedSidesLaw }
{}

/// A graph has one reduced graph, with one list of dummies.
pub fn one_reduced()
    ensures { OneReducedLaw }
{}
