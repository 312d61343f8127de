// What adding an address answers, and the two puts that a change of a set makes.
ghost use Rattle.std.specs.Prelude.{◌≡◌, IfOk, Some};
ghost use Rattle.std.specs.Option.{option_map};
ghost use Rattle.ml_subs.specs.Answers as answers;

use crate::counts::write_count;
use ml_base::{Bytes, Name, Put, Set, Txn};
use std::alloc::{AllocError, Global};

/// What adding an address to a set answers.
#[derive(Drop)]
pub enum AddAnswer {
    /// The set doesn't have it, and these puts add it.
    Added(Txn),
    /// The set already has it, maybe in another spelling.
    Already,
    /// The set doesn't have it, and has 100,000 members.
    Full,
}

// The puts that give a bucket's file and the count of its set these contents.
pub(crate) fn changes(
    alloc: Global,
    set: Set,
    n: u8,
    bytes: Option<Bytes>,
    count: u64,
) -> Result<Txn, AllocError>
    ensures { IfOk result (λ txn. txn ≡ answers.changes set n bytes count) }
{
    let mut txn = Txn::new(alloc);
    txn.push(Put {
        name: Name::bucket(set, n),
        bytes,
    })?;
    txn.push(Put {
        name: Name::count(set),
        bytes: Some(write_count(alloc, count)?),
    })?;
    Ok(txn)
}
