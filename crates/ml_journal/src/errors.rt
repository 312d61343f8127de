// Why a call of a store failed: the errors of opening and of committing.
ghost use Rattle.std.specs.Prelude.{◌≡◌};
ghost use Rattle.ml_journal.specs.Errors.{open_error, commit_error};
ghost use Rattle.ml_journal.specs.declared.errors.OpenError.TheVariants.{Memory as OpenMemory};
ghost use Rattle.ml_journal.specs.declared.errors.CommitError.TheVariants.{Memory as CommitMemory};

use ml_site::SiteError;
use std::alloc::AllocError;
use thiserror::Error;

/// Why a site was not opened.
#[derive(Clone, Copy, Debug, PartialEq, Eq, Error)]
pub enum OpenError {
    /// A call on the disk failed. The disk's count of faults rose in this call.
    #[error("the disk failed")]
    Fault,
    /// The log was read, and no record follows an open gate that isn't its last byte. Log and files are as they were.
    #[error("the log is damaged")]
    Damaged,
    /// There was no memory for the call.
    #[error("out of memory")]
    Memory,
}

/// Why a commit or a closing was not done, or isn't known to be done.
#[derive(Clone, Copy, Debug, PartialEq, Eq, Error)]
pub enum CommitError {
    /// A call on the disk failed. The disk's count of faults rose in this call.
    #[error("the disk failed")]
    Fault,
    /// There was no memory for the call.
    #[error("out of memory")]
    Memory,
}

impl From<SiteError> for OpenError {
    ghost from_gives = { λ error e. e ≡ open_error error };

    fn from(error: SiteError) -> Self {
        match error {
            SiteError::Failed => OpenError::Fault,
            SiteError::Memory => OpenError::Memory,
        }
    }
}

impl From<AllocError> for OpenError {
    ghost from_gives = { λ _ e. e ≡ OpenMemory };

    fn from(_: AllocError) -> Self {
        OpenError::Memory
    }
}

impl From<SiteError> for CommitError {
    ghost from_gives = { λ error e. e ≡ commit_error error };

    fn from(error: SiteError) -> Self {
        match error {
            SiteError::Failed => CommitError::Fault,
            SiteError::Memory => CommitError::Memory,
        }
    }
}

impl From<AllocError> for CommitError {
    ghost from_gives = { λ _ e. e ≡ CommitMemory };

    fn from(_: AllocError) -> Self {
        CommitError::Memory
    }
}
