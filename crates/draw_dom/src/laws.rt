//! Laws of compact points and of dominance pictures: empty functions, whose contracts are theorems about the definitions of
//! specs/.
ghost use Rattle.draw_dom.specs.Laws.{CompactsLaw, DominancePicturesLaw, PointsLaw};

/// For every two numberings of vertices: different vertices have different compact points, and the point of one is at most
/// that of another exactly where both its numbers are at most the other's.
pub fn compacts()
    ensures { CompactsLaw }
{}

/// The compact points of the two numbers of a planar st-graph show reaching. Where no edge is transitive the straight lines
/// between them rise, meet one another and the vertices only at their ends, and stand in order at each vertex.
pub fn points()
    ensures { PointsLaw }
{}

/// A graph with the sides of its reduced graph has one dominance picture for given names; it is clean, shows the order at each
/// vertex and fits its frame, and one vertex reaches another exactly where its dot is at most the other's.
pub fn pictures()
    ensures { DominancePicturesLaw }
{}
