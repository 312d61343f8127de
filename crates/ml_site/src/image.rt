// What a disk holds: a log and files.
ghost use Rattle.std.specs.Prelude.{◌≡◌, ◌≤◌, ◌+◌, ◌++◌, length, take, drop, if◌then◌else◌, IfOk, Some, None};
ghost use Rattle.ml_base.specs.declared.names.Name.{Name as TheName};
ghost use Rattle.ml_base.specs.Dir.{with_file};
ghost use Rattle.ml_site.specs.Recorded.{lookup};

use ml_base::{Bytes, Name};
use std::alloc::{AllocError, Global};
use std::collections::BTreeMap;

/// What a disk holds: the bytes of its log, and the bytes of every file under its name.
/// A log that is absent is an empty log.
#[derive(Drop)]
pub struct Image {
    /// The bytes of the log.
    pub log: Bytes,
    /// The bytes of the files that are there.
    pub files: BTreeMap<Name, Bytes>,
}

/// A copy of all files.
pub fn all_copied(files: &BTreeMap<Name, Bytes>) -> Result<BTreeMap<Name, Bytes>, AllocError>
    ensures { IfOk result (λ copy. (name : TheName) → lookup copy name ≡ lookup files.now name) }
{
    Ok(files.clone()?)
}

/// A copy of a file, or None if it isn't there.
pub fn copied(
    alloc: Global,
    files: &BTreeMap<Name, Bytes>,
    name: Name,
) -> Result<Option<Bytes>, AllocError>
    ensures { IfOk result (λ o. o ≡ lookup files.now name) }
{
    match files.get(&name) {
        Some(bytes) => Ok(Some(Bytes::from_slice(alloc, bytes.as_slice())?)),
        None => Ok(None),
    }
}

/// Sets a file and answers true, or changes nothing if memory is lacking.
pub fn set_file(files: &mut BTreeMap<Name, Bytes>, name: Name, bytes: Bytes) -> bool
    ensures { (other : TheName) → lookup files.new other
        ≡ (if result then with_file (lookup files.old) name (Some bytes) other else lookup files.old other) }
{
    files.insert(name, bytes).is_ok()
}

/// Removes a file, if it is there.
pub fn drop_file(files: &mut BTreeMap<Name, Bytes>, name: Name)
    ensures { (other : TheName) → lookup files.new other ≡ with_file (lookup files.old) name None other }
{
    let _was = files.remove(&name);
}

/// A log after these bytes were written to it at a place.
pub fn spliced(alloc: Global, log: &[u8], at: usize, bytes: &[u8]) -> Result<Bytes, AllocError>
    requires { at ≤ length log.now }
    ensures { IfOk result (λ longer.
        longer ≡ take at log.now ++ bytes.now ++ drop (at + length bytes.now) log.now) }
{
    let mut next = Bytes::from_slice(alloc, &log[..at])?;
    next.extend(bytes)?;
    if bytes.len() < log.len() - at {
        next.extend(&log[at + bytes.len()..])?;
    }
    Ok(next)
}
