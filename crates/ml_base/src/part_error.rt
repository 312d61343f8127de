// Why a part of the list gave no answer: the error type that the parts share.
ghost use Rattle.std.specs.Prelude.{◌≡◌};
ghost use Rattle.ml_base.specs.PartErrors.{part_error};
ghost use Rattle.ml_base.specs.declared.part_error.PartError.TheVariants.{Memory};

use crate::{FilesError, Name};
use std::alloc::AllocError;
use thiserror::Error;

/// Why a part of the list gave no answer.
#[derive(Clone, Copy, Debug, PartialEq, Eq, Error)]
pub enum PartError {
    /// A read failed. The files' count of faults rose in this call.
    #[error("the disk failed")]
    Fault,
    /// There was no memory for the call.
    #[error("out of memory")]
    Memory,
    /// The file of this name, which was read in this call, is not in its grammar.
    #[error("the file of kind {} at {} is damaged", .0.kind, .0.at)]
    Damaged(Name),
}

impl From<FilesError> for PartError {
    ghost from_gives = { λ error e. e ≡ part_error error };

    fn from(error: FilesError) -> Self {
        match error {
            FilesError::Fault => PartError::Fault,
            FilesError::Memory => PartError::Memory,
        }
    }
}

impl From<AllocError> for PartError {
    ghost from_gives = { λ _ e. e ≡ Memory };

    fn from(_: AllocError) -> Self {
        PartError::Memory
    }
}
