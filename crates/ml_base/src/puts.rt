// What is to be done to files: a put gives one file new bytes or removes it, and a Txn is a row of puts.
ghost use Rattle.std.specs.Prelude.{◌≡◌, ◌<◌, ◌+◌, ◌++◌, ◌∷◌, [], true, false, IfSome, IfNone, OnOk, OnErr, MatchOption, drop, length, slice_get};
ghost use Rattle.ml_base.specs.Dir.{Dir, with_puts, touches, same_name};
ghost use Rattle.ml_base.specs.Laying.{laid_in, IsNewestAt, are_distinct};
ghost use Rattle.ml_base.specs.declared.names.Name.{Name as NameOf};

use crate::{Address, Bytes, Name, Row};
use std::alloc::AllocError;

/// The bytes of a file from now on. None removes it.
#[derive(Drop)]
pub struct Put {
    pub name: Name,
    pub bytes: Option<Bytes>,
}

/// A row of puts. A later put of a name wins.
pub type Txn = Row<Put>;

/// A list of addresses.
pub type AddressList = Row<Address>;

impl Row<Put> {
    /// Lays a put over the others: in the place of the newest one of its name, or last if there is none. Laid over any
    /// files it does the same to them as `push`, and no name comes twice if none did before. An error changes nothing.
    pub fn lay(&mut self, put: Put) -> Result<(), AllocError>
        ensures ok { OnOk result (self.new ≡ laid_in put self.old) }
        ensures as_pushed { OnOk result ((dir : Dir) (name : NameOf) → with_puts dir self.new name ≡ with_puts dir (self.old ++ put ∷ []) name) }
        ensures distinct { are_distinct self.old ≡ true → OnOk result (are_distinct self.new ≡ true) }
        ensures err { OnErr result (self.new ≡ self.old) }
    {
        match newest_place(self.as_slice(), put.name) {
            Some(at) => {
                self.replace(at, put);
                Ok(())
            }
            None => self.push(put),
        }
    }
}

/// The place of the newest put of a file, or None if no put is of it.
pub fn newest_place(puts: &[Put], name: Name) -> Option<usize>
    ensures { MatchOption result (touches puts.now name ≡ false) (IsNewestAt puts.now name) }
{
    let mut at = puts.len();
    while at > 0 {
        at -= 1;
        if puts[at].name == name {
            return Some(at);
        }
    }
    None
}
