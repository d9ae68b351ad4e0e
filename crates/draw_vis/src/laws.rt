//! Laws of the two pictures: empty functions, whose contracts are theorems about the definitions of specs/.
ghost use Rattle.draw_vis.specs.Heights.{TessellationHeights, VisibilityHeights};
ghost use Rattle.draw_vis.specs.Laws.{PicturesLaw, TessellationLaw, VisibilityLaw};
ghost use Rattle.st_sides.specs.Sides.{SidesValue, IsSides};

/// The visibility picture is clean, shows the order at each vertex and fits its frame, for all weights from 1.
pub fn visibility()
    ensures { (g : SidesValue) → IsSides g → VisibilityLaw g }
{}

/// The boxes of the tessellation picture tile its frame, those of the edges out of a vertex stand on its bar from end to end,
/// those of the edges into it hang under it, and all items fit the frame, for all weights from 1.
pub fn tessellation()
    ensures { (g : SidesValue) → IsSides g → TessellationLaw g }
{}

/// For all weights and names there is a picture of each of the two forms, and one alone.
pub fn one_picture()
    ensures { (g : SidesValue) → IsSides g → PicturesLaw g }
{}

/// In each visibility picture each vertex stands at its height: the greatest weight of a walk from the source.
pub fn visibility_heights()
    ensures { (g : SidesValue) → IsSides g → VisibilityHeights g }
{}

/// In each tessellation picture each vertex stands at its height.
pub fn tessellation_heights()
    ensures { (g : SidesValue) → IsSides g → TessellationHeights g }
{}
