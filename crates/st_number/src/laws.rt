//! Laws of heights and columns: empty functions, whose contracts are theorems about the definitions of specs/.
ghost use Rattle.st_number.specs.Bounds.{BoundsLaw, ToSidesLaw};
ghost use Rattle.st_number.specs.Greatest.{FiniteLaw, HeightsLaw};
ghost use Rattle.st_number.specs.Least.{LeastLaw};
ghost use Rattle.st_number.specs.Numbers.{NumbersLaw};
ghost use Rattle.st_sides.specs.Sides.{IsSides, SidesValue};

use st_sides::{Sides, laws};

/// Greatest weights. Take a finite digraph without a cycle, in which an arc leads to each node but one. Then each node has
/// one greatest weight of walks from that node. It grows along each arc by the arc's weight at least, and a pass along the
/// arcs finds it.
pub fn greatest()
    ensures { FiniteLaw }
{}

/// The greatest weight of a walk from the source of an embedded graph is the height of its sides.
pub fn to_sides()
    ensures { ToSidesLaw }
{}

/// Heights exist under any weights, and columns exist, for every value of `Sides`; they grow along the edges, and along the
/// edges' crossings from left to right.
pub fn heights(sides: &Sides)
    ensures { HeightsLaw sides.now }
{
    laws::local(sides);
}

/// Heights and columns as functions, for every value of `Sides`: under any weights there are some, for the same weights they
/// are the same, and they begin at 0; columns grow along the arcs of the dual, and heights along the edges where each edge
/// weighs 1 or more.
pub fn numbers(sides: &Sides)
    ensures { NumbersLaw sides.now }
{
    laws::local(sides);
}

/// A height is at most the greatest weight of an edge times one less than the number of vertices, and a column at most the
/// number of edges, for every value of `Sides`.
pub fn bounds(sides: &Sides)
    ensures { BoundsLaw sides.now }
{
    laws::local(sides);
}

/// Heights are the least: they rise along each edge by its weight, and whatever numbers of the vertices do so too, each
/// vertex stands at least as high above the source by these as by the heights.
pub fn least_heights()
    ensures { (g : SidesValue) → IsSides g → LeastLaw g }
{}
