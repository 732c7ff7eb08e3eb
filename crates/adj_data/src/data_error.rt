//! Why data give no values.

ghost use Rattle.std.specs.Prelude.{◌≡◌};
ghost use Rattle.adj_data.specs.declared.data_error.DataError.TheVariants as error;

use crate::data_code::DataCode;
use adj_tree::Memory;
use std::alloc::{AllocError, AllocFailed};
use thiserror::Error;

/// A fault of the data, by its code and line (docs/DATA.md, "Faults"), or out of memory.
#[derive(Clone, Copy, Debug, PartialEq, Eq, Error)]
pub enum DataError {
    /// The code, and the line: 0 where something isn't there.
    #[error("fault {code} of the data at line {1}", code = .0.number())]
    Data(DataCode, u32),
    /// Memory ran out.
    #[error("out of memory")]
    Memory,
}

impl From<AllocError> for DataError {
    ghost from_gives = { λ _ e. e ≡ error.Memory };

    fn from(_error: AllocError) -> DataError {
        DataError::Memory
    }
}

impl<T: Drop> From<AllocFailed<T>> for DataError {
    ghost from_gives = { λ _ e. e ≡ error.Memory };

    fn from(_error: AllocFailed<T>) -> DataError {
        DataError::Memory
    }
}

impl From<Memory> for DataError {
    ghost from_gives = { λ _ e. e ≡ error.Memory };

    fn from(_error: Memory) -> DataError {
        DataError::Memory
    }
}
