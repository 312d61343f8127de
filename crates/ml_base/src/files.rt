// How the files of a list are read: the trait `Files`, and the errors of its calls.
ghost use Rattle.std.specs.Prelude.{◌≡◌, ◌≤◌, ℕ, Bool, IsTrue, IfOk, IsErrOf, is_some};
ghost use Rattle.ml_base.specs.Absent.{NoneOf};
ghost use Rattle.ml_base.specs.Dir.{Dir};
ghost use Rattle.ml_base.specs.Faults.{Rose};
ghost use Rattle.ml_base.specs.Name.{is_file};
ghost use Rattle.ml_base.specs.declared.files.FilesError.TheVariants.{Fault, Memory};

use crate::{Bytes, Name};
use std::alloc::{AllocError, Global};
use thiserror::Error;

/// Why a file was not read.
#[derive(Clone, Copy, Debug, PartialEq, Eq, Error)]
pub enum FilesError {
    /// The disk failed. The count of faults rose in this call.
    #[error("the disk failed")]
    Fault,
    /// There was no memory for the call.
    #[error("out of memory")]
    Memory,
}

impl From<AllocError> for FilesError {
    ghost from_gives = { λ _ e. e ≡ Memory };

    fn from(_: AllocError) -> Self {
        FilesError::Memory
    }
}

/// The files of a list, as they are read: a map from names to bytes.
///
/// A type tells its map, or it doesn't, and then it promises nothing of it. Every type tells its count of faults.
/// Reading changes nothing but that count: a later value is kept from an earlier one.
pub trait Files {
    /// Whether it tells its map.
    ghost tells: { Bool };

    /// The bytes of each file.
    ghost map: { Self → Dir };

    /// How often a read has failed, as far as that can be counted in 64 bits.
    ghost faults: { Self → ℕ };

    /// The second value is the first, with at most reads in between.
    ghost kept: { Self → Self → Type 0 };

    /// The bytes of a file, or None if it is absent. The name is one of the table other than the log's.
    /// `Fault` comes only if the count of faults rose in this call.
    fn get(&mut self, alloc: Global, name: Name) -> Result<Option<Bytes>, FilesError>
        requires { IsTrue (is_file name) }
        ensures value { IsTrue tells → IfOk result (λ found. found ≡ map self.old name) }
        ensures kept { kept self.old self.new }
        ensures later { faults self.old ≤ faults self.new }
        ensures cause { IsErrOf result Fault → Rose (faults self.old) (faults self.new) };

    /// Whether a file is there. The name is one of the table other than the log's.
    /// A type that knows this without the file's bytes has a body of its own. `Fault` comes only if the count of faults rose
    /// in this call.
    fn has(&mut self, alloc: Global, name: Name) -> Result<bool, FilesError>
        requires { IsTrue (is_file name) }
        ensures value { IsTrue tells → IfOk result (λ there. there ≡ is_some (map self.old name)) }
        ensures kept { kept self.old self.new }
        ensures later { faults self.old ≤ faults self.new }
        ensures cause { IsErrOf result Fault → Rose (faults self.old) (faults self.new) }
    {
        match self.get(alloc, name) {
            Ok(found) => Ok(found.is_some()),
            Err(error) => Err(error),
        }
    }

    /// A place from `from` to `end` at which a walk over the files of a kind may go on: no file of the kind is at a place from
    /// `from` on and before it. A type that knows more without a look at every place has a body of its own; `from` itself says nothing.
    /// `Fault` comes only if the count of faults rose in this call.
    fn skip_absent(
        &mut self,
        alloc: Global,
        kind: u8,
        from: u64,
        end: u64,
    ) -> Result<u64, FilesError>
        requires { from ≤ end }
        ensures range { IfOk result (λ at. (from ≤ at) × (at ≤ end)) }
        ensures value { IsTrue tells → IfOk result (NoneOf (map self.old) kind from) }
        ensures kept { kept self.old self.new }
        ensures later { faults self.old ≤ faults self.new }
        ensures cause { IsErrOf result Fault → Rose (faults self.old) (faults self.new) }
    {
        Ok(from)
    }

    /// A value is kept from itself.
    ghost kept_self: { (files : Self) → kept files files };

    /// If a second value is kept from a first, and a third from the second, then the third is kept from the first.
    ghost kept_then: { (first second third : Self) → kept first second → kept second third → kept first third };

    /// A kept value has the same map.
    ghost kept_map: { (old new : Self) → IsTrue tells → kept old new → map new ≡ map old };

    /// The count of a kept value hasn't fallen.
    ghost kept_faults: { (old new : Self) → kept old new → faults old ≤ faults new };
}
