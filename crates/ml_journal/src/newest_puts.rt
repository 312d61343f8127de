// A table of the newest put of every file that a log names.
ghost use Rattle.std.specs.Prelude.{◌≡◌, ◌≤◌, IsSome, IsTrue, OnOk, OnErr, option_map};
ghost use Rattle.std.specs.Option.{option_copied};
ghost use Rattle.ml_base.specs.Absent.{NoEntryOf};
ghost use Rattle.ml_base.specs.Dir.{Dir, are_files, with_file, with_puts};
ghost use Rattle.ml_base.specs.Name.{is_file};
ghost use Rattle.ml_base.specs.declared.names.Name.{Name as TheName};
ghost use Rattle.ml_journal.specs.Newest.{newest_of, with_newest, Sets};

use ml_base::{Bytes, Name, Txn, next_place};
use std::alloc::{AllocError, Global};
use std::collections::BTreeMap;

/// The newest put of every file that a log names: the bytes that it gives the file, or None if it removes it.
#[derive(Drop)]
pub(crate) struct Newest {
    pub puts: BTreeMap<Name, Option<Bytes>>,
    ghost files: { (name : TheName) → IsSome (newest_of puts name) → IsTrue (is_file name) },
}

impl Newest {
    /// No puts. It takes no memory.
    pub(crate) fn new(alloc: Global) -> Newest
        ensures { (dir : Dir) → with_newest result.puts dir ≡ dir }
    {
        Newest {
            puts: BTreeMap::new(alloc),
        }
    }

    /// Puts bytes into a file from now on, or removes it. The name is one of the table other than the log's.
    /// An error changes nothing.
    #[tactic(auto, using(crate::proofs::Tables::still_files, crate::proofs::Tables::laid_set, crate::proofs::Tables::laid_unset))]
    pub(crate) fn set(&mut self, name: Name, bytes: Option<Bytes>) -> Result<(), AllocError>
        requires { IsTrue (is_file name) }
        ensures ok { OnOk result ((dir : Dir) → with_newest self.new.puts dir ≡ with_file (with_newest self.old.puts dir) name bytes) }
        ensures err { OnErr result ((dir : Dir) → with_newest self.new.puts dir ≡ with_newest self.old.puts dir) }
    {
        if set_put(&mut self.puts, name, bytes) {
            Ok(())
        } else {
            Err(AllocError)
        }
    }

    /// Sets the puts of a txn one after another. Their bytes are moved. After an error some of them are set.
    pub(crate) fn set_all(&mut self, txn: Txn) -> Result<(), AllocError>
        requires { IsTrue (are_files txn) }
        ensures { OnOk result ((dir : Dir) → with_newest self.new.puts dir ≡ with_puts (with_newest self.old.puts dir) txn) }
    {
        for put in txn.into_vec() {
            self.set(put.name, put.bytes)?;
        }
        Ok(())
    }

    /// The bytes that the newest put gives a file, with an inner None if it removes it; or None if no put is of it.
    pub(crate) fn get(&self, name: Name) -> Option<Option<&Bytes>>
        ensures { option_map (λ bytes. option_copied bytes) result ≡ newest_of self.now.puts name }
    {
        match self.puts.get(&name) {
            Some(bytes) => Some(bytes.as_ref()),
            None => None,
        }
    }

    /// The next place of a kind, from `from` on, that a put is of, or `end` if no put is of a place before `end`.
    pub(crate) fn next_place(&self, kind: u8, from: u64, end: u64) -> u64
        requires { from ≤ end }
        ensures range { (from ≤ result) × (result ≤ end) }
        ensures none { NoEntryOf self.now.puts kind from result }
    {
        next_place(&self.puts, kind, from, end)
    }
}

// Sets the newest put of a file and answers true, or changes nothing if memory is lacking.
fn set_put(puts: &mut BTreeMap<Name, Option<Bytes>>, name: Name, bytes: Option<Bytes>) -> bool
    ensures { Sets result puts.old puts.new name bytes }
{
    puts.insert(name, bytes).is_ok()
}
