//! Laws about the definitions.

ghost use Rattle.adj_data.specs.Fitting.{CheckDataFit, DataFit};

/// Data without a fault are an input that fits the unit, so that it may be run on it.
pub fn data_fit()
    ensures run { DataFit }
    ensures check { CheckDataFit }
{}
