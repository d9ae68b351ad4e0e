//! Laws of pictures.
ghost use Rattle.eps_check.specs.Verdicts.{HasOneVerdict};

/// A picture has at most one first fault, and none where it is right.
pub fn one_verdict()
    ensures { HasOneVerdict }
{}
