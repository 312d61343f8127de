// What a run remembers from one item to the next.
use ml_subs::Checked;
use std::alloc::Global;

/// What was read and checked for earlier items, so that what reads the same isn't checked again. No answer depends on it.
#[derive(Drop)]
pub struct Memo {
    // The members of the set list, as mail last went to them.
    pub(crate) mail: ml_acts::MailMemo,
    // The buckets of sets, as changes left them.
    pub(crate) sets: Checked,
}

impl Memo {
    /// Nothing yet. It takes no memory.
    pub fn new(alloc: Global) -> Memo {
        Memo {
            mail: ml_acts::MailMemo::new(),
            sets: Checked::new(alloc),
        }
    }
}
