// Files that are read once each: while an item is applied, small ones are remembered.
ghost use Rattle.std.specs.Prelude.{◌≡◌, ◌≤◌, IsTrue, IfOk, IsErrOf};
ghost use Rattle.std.specs.Option.{option_copied};
ghost use Rattle.ml_base.specs.Dir.{Dir};
ghost use Rattle.ml_base.specs.Faults.{Rose};
ghost use Rattle.ml_base.specs.Name.{is_file};
ghost use Rattle.ml_base.specs.declared.files.FilesError.TheVariants.{Fault};
ghost use Rattle.ml_list.specs.Once.{Tells};

use crate::item_effects::newest;
use ml_base::{Bytes, Files, FilesError, Name, Put, Txn, copied};
use std::alloc::{AllocError, Global};

// A file of more bytes isn't remembered: what an item reads again is smaller, and no large bytes are copied for nothing.
const LARGEST: usize = 16_384;

// How many files are remembered at most. What an item reads again is among the first that it reads.
const MOST: usize = 16;

// Files that remember the small ones that were read, and don't read them again when they are asked for.
#[derive(Drop)]
pub(crate) struct Once<F: Files> {
    files: F,
    // What was read: laid over the files, it changes nothing.
    read: Txn,
    ghost same: { IsTrue F.tells → Tells (F.map files) read },
}

impl<F: Files> Once<F> {
    // These files, none of which is remembered yet. It takes no memory.
    pub(crate) fn new(alloc: Global, files: F) -> Once<F>
        ensures { result.files ≡ files }
    {
        Once {
            files,
            read: Txn::new(alloc),
        }
    }

    // The files themselves.
    pub(crate) fn into_files(self) -> F
        ensures { result ≡ self.files }
    {
        self.files
    }
}

#[tactic(auto, using(crate::proofs::Told::told_newest))]
impl<F: Files> Files for Once<F> {
    ghost tells = { F.tells };

    ghost map = { λ o. F.map o.files };

    ghost faults = { λ o. F.faults o.files };

    ghost kept = { λ a b. F.kept a.files b.files };

    // The bytes of a file, or None if it is absent. The file is read if it isn't remembered.
    fn get(&mut self, alloc: Global, name: Name) -> Result<Option<Bytes>, FilesError> {
        if let Some(put) = newest(self.read.as_slice(), name) {
            return Ok(copied(alloc, put.bytes.as_ref())?);
        }
        let found = self.files.get(alloc, name)?;
        // If there is no memory for it, the file is read again.
        let _ = remember(alloc, &mut self.read, name, found.as_ref());
        Ok(found)
    }

    // Whether a file is there. The files are asked if it isn't remembered.
    fn has(&mut self, alloc: Global, name: Name) -> Result<bool, FilesError> {
        match newest(self.read.as_slice(), name) {
            Some(put) => Ok(put.bytes.is_some()),
            None => self.files.has(alloc, name),
        }
    }

    // A place at which a walk over the files of a kind may go on, as the files say.
    fn skip_absent(
        &mut self,
        alloc: Global,
        kind: u8,
        from: u64,
        end: u64,
    ) -> Result<u64, FilesError> {
        self.files.skip_absent(alloc, kind, from, end)
    }

    ghost kept_self = { λ o. F.kept_self o.files };

    ghost kept_then = { λ a b c first then. F.kept_then a.files b.files c.files first then };

    ghost kept_map = { λ a b told kept. F.kept_map a.files b.files told kept };

    ghost kept_faults = { λ a b kept. F.kept_faults a.files b.files kept };
}

// Whether a file is absent, or not large.
fn is_small(file: Option<&Bytes>) -> bool {
    match file {
        Some(bytes) => bytes.len() <= LARGEST,
        None => true,
    }
}

// Adds what was read of a file, unless it is large or enough files are remembered. An error changes nothing.
#[tactic(auto, using(crate::proofs::Told::told_more))]
fn remember(
    alloc: Global,
    read: &mut Txn,
    name: Name,
    file: Option<&Bytes>,
) -> Result<(), AllocError>
    ensures { (dir : Dir) → Tells dir read.old → option_copied file.entry ≡ dir name → Tells dir read.new }
{
    if read.as_slice().len() >= MOST || !is_small(file) {
        return Ok(());
    }
    let bytes = copied(alloc, file)?;
    read.push(Put { name, bytes })?;
    Ok(())
}
