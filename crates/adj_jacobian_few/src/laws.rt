//! The law of runs over few columns.

ghost use Rattle.adj_jacobian_few.specs.Few.{FewRunIsPattern};

/// A run over words with few columns ends as the pattern run, and where a cell has a list at the end it has the columns of the pattern run.
pub fn few_law()
    ensures tells { FewRunIsPattern }
{}
