//! The marks of exact analyses have the shadows that they use.

ghost use Rattle.law_analysed.specs.Lending.{ExactHaveShadows};

/// By the adjoints and shadows of an exact activity, the shadows that are used are there.
pub fn shadows_law()
    ensures shadows { ExactHaveShadows }
{}
