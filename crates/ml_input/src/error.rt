// The error of an input that makes no question.
use std::alloc::AllocError;
use thiserror::Error;

/// Why an input makes no question.
#[derive(Clone, Copy, Debug, Error)]
pub enum InputError {
    /// The input isn't as it must be: the place of the first byte of what is wrong, from 0.
    #[error("bad at {at}")]
    Bad { at: u64 },
    #[error("out of memory")]
    Memory,
}

impl From<AllocError> for InputError {
    ghost use Rattle.std.specs.Prelude.{◌≡◌};
    ghost use Rattle.ml_input.specs.declared.error.InputError.TheVariants.{Memory};

    ghost from_gives = { λ _ e. e ≡ Memory };

    fn from(_: AllocError) -> Self {
        InputError::Memory
    }
}
