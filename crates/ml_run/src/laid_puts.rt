// Laying puts over others: a put replaces the newest one of its file.
ghost use Rattle.std.specs.Prelude.{◌≡◌, ◌≤◌, ◌<◌, ◌+◌, false, Some, MatchOption, length, take, drop, slice_get};
ghost use Rattle.ml_base.specs.Dir.{touches};
ghost use Rattle.ml_base.specs.Laying.{laid_in, IsNewestAt};
ghost use Rattle.ml_base.specs.declared.puts.Put.{Put as ThePut};
ghost use Rattle.ml_run.specs.Batches.{laid_all};

use ml_base::{Put, Txn, newest_place};

// Lays the puts of a row from a place on over those before them: each replaces the newest one of its file, or goes after them if there is none.
// It takes no memory.
pub(crate) fn laid(txn: Txn, front: usize) -> Txn
    requires { front ≤ length txn }
    ensures { result ≡ laid_all (take front txn) (drop front txn) }
{
    let mut puts = txn.into_vec();
    let mut kept = front;
    for at in front..puts.len() {
        let place = newest_place(&puts[..kept], puts[at].name);
        kept = lay_one(&mut puts, kept, at, place);
    }
    puts.truncate(kept);
    Txn::from_vec(puts)
}

// Lays the put at a place over the first `kept`: it replaces the newest one of its file, or goes after them. Answers how many these are then.
// What is between them and the place is left in any order.
fn lay_one(puts: &mut [Put], kept: usize, at: usize, place: Option<usize>) -> usize
    requires kept { kept ≤ at }
    requires at { at < length puts.old }
    requires place { (put : ThePut) → slice_get puts.old at ≡ Some put → MatchOption place (touches (take kept puts.old) put.name ≡ false) (IsNewestAt (take kept puts.old) put.name) }
    ensures laid { (put : ThePut) → slice_get puts.old at ≡ Some put → take result puts.new ≡ laid_in put (take kept puts.old) }
    ensures rest { drop (at + 1) puts.new ≡ drop (at + 1) puts.old }
    ensures size { length puts.new ≡ length puts.old }
    ensures within { result ≤ at + 1 }
{
    match place {
        Some(place) => {
            puts.swap(place, at);
            kept
        }
        None => {
            puts.swap(kept, at);
            kept + 1
        }
    }
}
