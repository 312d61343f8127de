// One call of a table: its verb, words, moment and input.
use ml_base::{Address, Bytes, PartError, read_number};
use std::alloc::{AllocError, Global};

/// A call: its verb and the words after it, the moment that the clock shows, and its input.
#[derive(Drop)]
pub(crate) struct Asked<'a> {
    pub(crate) verb: &'a str,
    pub(crate) words: &'a [String],
    pub(crate) moment: u64,
    pub(crate) input: Bytes,
}

/// Why a call gave no answer: there is no call of these words, or it may not be made, or a part gave an error.
#[derive(Drop)]
pub(crate) enum NoAnswer {
    NoCall,
    Part(PartError),
}

impl From<PartError> for NoAnswer {
    fn from(error: PartError) -> Self {
        NoAnswer::Part(error)
    }
}

impl From<AllocError> for NoAnswer {
    fn from(_: AllocError) -> Self {
        NoAnswer::Part(PartError::Memory)
    }
}

impl Asked<'_> {
    /// The word at a place after the verb. If there are fewer it is empty.
    pub(crate) fn word(&self, at: usize) -> &[u8] {
        match self.words.get(at) {
            Some(word) => word.as_bytes(),
            None => &[],
        }
    }

    /// The number at a place after the verb.
    pub(crate) fn number(&self, at: usize) -> Result<u64, NoAnswer> {
        read_number(self.word(at)).ok_or(NoAnswer::NoCall)
    }

    /// The address at a place after the verb.
    pub(crate) fn address(&self, alloc: Global, at: usize) -> Result<Address, NoAnswer> {
        match Address::parse(alloc, self.word(at)) {
            Ok(address) => Ok(address),
            Err(_) => Err(NoAnswer::NoCall),
        }
    }
}
