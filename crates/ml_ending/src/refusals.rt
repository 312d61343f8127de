// Why a call ends that the store or a part of the list refused.
ghost use Rattle.std.specs.Prelude.{◌≡◌};
ghost use Rattle.ml_ending.specs.Stops.{why_of_commit, why_of_open, why_of_part};

use crate::lines::Why;
use ml_base::{Name, PartError};
use ml_journal::{CommitError, OpenError};

/// Why a call ends if its commit or its close was refused.
pub fn why_refused(error: CommitError) -> Why
    ensures { result ≡ why_of_commit error }
{
    match error {
        CommitError::Fault => Why::Disk,
        CommitError::Memory => Why::Memory,
    }
}

/// Why a call ends if its store wasn't opened.
pub fn not_opened(error: OpenError) -> Why
    ensures { result ≡ why_of_open error }
{
    match error {
        OpenError::Fault => Why::Disk,
        OpenError::Damaged => Why::At(Name::LOG),
        OpenError::Memory => Why::Memory,
    }
}

/// Why a call ends if a part of the list gave no answer.
pub fn why_of(error: PartError) -> Why
    ensures { result ≡ why_of_part error }
{
    match error {
        PartError::Fault => Why::Disk,
        PartError::Memory => Why::Memory,
        PartError::Damaged(name) => Why::At(name),
    }
}
