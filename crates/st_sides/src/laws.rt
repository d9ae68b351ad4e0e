//! Laws of planar st-graphs: empty functions, whose contracts are theorems about the definitions of specs/.
ghost use Rattle.st_sides.specs.Example.{two_edges};
ghost use Rattle.st_sides.specs.Held.{OneValueLaw};
ghost use Rattle.st_sides.specs.Laws.{CornersLaw, EulerBoundLaw, LocalLaw, SidesLaw};
ghost use Rattle.st_sides.specs.Normal.{NormalLaw};
ghost use Rattle.st_sides.specs.Rotation.{OrderLaw};
ghost use Rattle.st_sides.specs.SidesOf.{ExistLaw, MeaningLaw, OwnLaw, SweptLaw, TrichotomyLaw};
ghost use Rattle.st_sides.specs.Sides.{IsSides};
ghost use Rattle.st_sides.specs.Sweep.{BoundaryLaw, SweepLaw};
ghost use Rattle.st_sides.specs.Objects.{Trichotomy};
ghost use Rattle.st_test.specs.Planar.{IsPlanarSt};

use crate::Sides;

/// There is a planar st-graph: two edges from one vertex to another, where the tail end of the first names the outer face.
pub fn example()
    ensures { IsPlanarSt two_edges 0 1 0 }
{}

/// Round each vertex but the poles the ends out are consecutive and so are the ends in. The source has ends out alone, and
/// the sink ends in alone. Each face is one walk up on its left and one on its right, from its lowest vertex to its
/// highest; for the outer face these are the source and the sink.
pub fn corners()
    ensures { CornersLaw }
{}

/// Each planar st-graph has sides: at each vertex the edges out and the edges in from left to right, and for each face its
/// two paths with their lowest and highest vertex. The outer face is cut in a left and a right half, with one path each.
pub fn sides_exist()
    ensures { SidesLaw }
{}

/// All sides of a planar st-graph fit together. One inner face lies between two neighbouring edges out of a vertex, and
/// the vertex is its lowest; likewise with two neighbouring edges in and its highest. The leftmost edge out of a vertex
/// but the poles has the same face on its left as the leftmost edge in, and the rightmost ones have the same on their
/// right. The left path of a face passes each vertex on its way by the rightmost edge in and the rightmost edge out, and
/// the right path by the leftmost ones.
pub fn sides_fit()
    ensures { LocalLaw }
{}

/// A graph without a cycle, with one source, one sink and lawful lists, has at most E - V + 2 faces. So only the other half
/// of Euler's formula, that there are enough faces, is left to show of such a graph.
pub fn euler_bound()
    ensures { EulerBoundLaw }
{}

/// Let each clockwise list begin with the leftmost edge out, and the first edge out of the source name the outer face.
/// Then the graph is a planar st-graph still, with the same sides, as many faces, and the same faces left and right of
/// each edge.
pub fn normal_form()
    ensures { NormalLaw }
{}

/// Each planar st-graph has a value of sides, whose lists are the sides of that graph.
pub fn value_exists()
    ensures { ExistLaw }
{}

/// The sides of a planar st-graph, as a value, have all that is listed as holding near each vertex and each face
/// (`IsSides`).
pub fn meaning()
    ensures { MeaningLaw }
{}

/// The sides of a planar st-graph, as a value, tell a graph, with the edges out and then the edges in at each vertex. This
/// is a planar st-graph, and the value has its sides.
pub fn own()
    ensures { OwnLaw }
{}

/// Two values of sides of one planar st-graph, whose lists have an entry for each vertex, edge and node, are the same. So
/// what is computed from the sides of a graph is a function of the graph with its lists and its outer face.
pub fn one_value()
    ensures { OneValueLaw }
{}

/// Boundaries and the sweep. Take a list of faces without repeats that begins with the left half of the outer face, lacks
/// the right half, and has the left of each edge before a right that is in it. Then the edges with their left in the list
/// and their right outside are a walk from source to sink. While an inner face is outside, some inner face outside has
/// its whole left path on that walk. So all faces can be listed with the left of each edge before its right, and the dual
/// has no cycle.
pub fn swept()
    ensures { SweptLaw }
{}

/// Of two different objects, vertices or edges, exactly one of four holds: a walk leads up from the one to the other, or
/// from the other to the one, or a walk of the dual leads from the right of the one to the left of the other, or from the
/// right of the other to the left of the one.
pub fn one_of_four()
    ensures { TrichotomyLaw }
{}

/// At each vertex the edges out from left to right, and then the edges in from right to left, are the clockwise list of the
/// graph, read on from one of its places.
pub fn orders_stay()
    ensures { OrderLaw }
{}

/// All that holds near each vertex and each face, for every value of `Sides`.
pub fn local(sides: &Sides)
    ensures { IsSides sides.now }
{
    sides.facts();
}

/// Boundaries and the sweep, for every value of `Sides`. A list of nodes without repeats begins with the left half of the
/// outer face, lacks the right half, and has the left of each edge before a right that is in it. Then the edges with their
/// left in the list and their right outside are a walk from source to sink, each once. While an inner face is outside,
/// some inner face outside has its whole left path on that walk. There is a sweep, and the dual has no cycle.
pub fn boundary(sides: &Sides)
    ensures boundary { BoundaryLaw sides.now }
    ensures sweep { SweepLaw sides.now }
{
    sides.facts();
}

/// Of two different objects, vertices or edges, exactly one of four holds, for every value of `Sides`: one is below the
/// other, or above it, or left of it, or right of it.
pub fn trichotomy(sides: &Sides)
    ensures { Trichotomy sides.now }
{
    sides.facts();
}
