// The errors of an import.
use std::alloc::AllocError;
use thiserror::Error;

/// Why no stream is made of a mailbox.
#[derive(Clone, Copy, Debug, PartialEq, Eq, Error)]
pub enum ImportError {
    /// A message has more than 33,554,432 bytes.
    #[error("a message is too long")]
    Long,
    #[error("out of memory")]
    Memory,
}

impl From<AllocError> for ImportError {
    ghost use Rattle.std.specs.Prelude.{◌≡◌};
    ghost use Rattle.ml_mbox_questions.specs.declared.error.ImportError.TheVariants.{Memory};

    ghost from_gives = { λ _ e. e ≡ Memory };

    fn from(_: AllocError) -> Self {
        ImportError::Memory
    }
}
