//! The marks that flags tell are those of analyses.

ghost use Rattle.adj_weave.specs.Analyses.{PlansAreAnalyses};

/// The marks by which a program's adjoint is emitted, where flags tell them, are those of the analyses that these flags tell.
pub fn told_law()
    ensures { PlansAreAnalyses }
{}
