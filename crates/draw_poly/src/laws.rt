//! Laws of polyline pictures: empty functions, whose contracts are theorems about the definitions of specs/.
ghost use Rattle.draw_poly.specs.Heights.{PolylineHeights};
ghost use Rattle.draw_poly.specs.Laws.{PolylinePicturesLaw, PolylineLaw};
ghost use Rattle.draw_poly.specs.Tracks.{TracksLaw};
ghost use Rattle.st_sides.specs.Sides.{SidesValue, IsSides};

/// Lines that go straight up in the columns of their left faces, and slant only in the rows next to their ends, keep apart,
/// for all heights that grow along the edges, all columns that grow along the arcs of the dual, and all places of the
/// vertices between their left and their right, where parallel edges are two rows high. Two lines that share a place in a
/// row have a common vertex there; between two rows no two lines meet; and a line passes no vertex but its ends.
pub fn tracks()
    ensures { (g : SidesValue) → IsSides g → TracksLaw g }
{}

/// The polyline picture is clean, shows the order at each vertex and fits its frame, for all weights from 1 that are from 2
/// where an edge has a parallel, and wherever each vertex stands between the ends of its bar.
pub fn polyline()
    ensures { (g : SidesValue) → IsSides g → PolylineLaw g }
{}

/// For all weights, names and placements there is a picture, and one alone for given places of the vertices.
pub fn one_picture()
    ensures { (g : SidesValue) → IsSides g → PolylinePicturesLaw g }
{}

/// In each polyline picture each vertex stands at its height: the greatest weight of a walk from the source.
pub fn polyline_heights()
    ensures { (g : SidesValue) → IsSides g → PolylineHeights g }
{}
