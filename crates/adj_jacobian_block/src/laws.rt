//! The law of runs over blocks of columns.

ghost use Rattle.adj_jacobian_block.specs.Blocks.{BlockRunIsPattern};

/// A run over the words of a block of columns is the pattern run, restricted to the columns of the block.
pub fn block_law()
    ensures tells { BlockRunIsPattern }
{}
