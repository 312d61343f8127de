// Why reading a stream ended.
use ml_site::Failed;
use std::alloc::AllocError;
use thiserror::Error;

/// Why no further item is read. Places count the bytes of the stream from 0.
#[derive(Clone, Copy, Debug, PartialEq, Eq, Error)]
pub enum StreamError {
    /// An element that is not allowed begins at this place.
    #[error("bad element at byte {at}")]
    Bad { at: u64 },
    /// The stream ends within the element that begins at this place, or before it.
    #[error("the stream ends within the element at byte {at}")]
    Short { at: u64 },
    /// The source failed.
    #[error("the source failed")]
    Fault,
    #[error("out of memory")]
    Memory,
}

impl From<AllocError> for StreamError {
    ghost use Rattle.std.specs.Prelude.{◌≡◌};
    ghost use Rattle.ml_stream.specs.declared.stream_error.StreamError.TheVariants.{Memory};

    ghost from_gives = { λ _ e. e ≡ Memory };

    fn from(_: AllocError) -> Self {
        StreamError::Memory
    }
}

impl From<Failed> for StreamError {
    ghost use Rattle.std.specs.Prelude.{◌≡◌};
    ghost use Rattle.ml_stream.specs.declared.stream_error.StreamError.TheVariants.{Fault};

    ghost from_gives = { λ _ e. e ≡ Fault };

    fn from(_: Failed) -> Self {
        StreamError::Fault
    }
}
