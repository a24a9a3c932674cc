//! Laws about the fits of a description.
ghost use Rattle.ground_rules.specs.Laws.{OneFit};

/// An acyclic description has exactly one fit for each state and joint move.
pub fn one_fit()
    ensures { OneFit }
{}
