// What reads give after a record of calls, and how many of these calls are settled.
ghost use Rattle.std.specs.Prelude.{◌≡◌, ◌≤◌, ◌+◌, ◌++◌, length, take, drop, [], if◌then◌else◌, nat_le, Some, IfOk, OnOk};
ghost use Rattle.ml_base.specs.declared.names.Name.{Name as TheName};
ghost use Rattle.ml_site.specs.Disk.{Contents};
ghost use Rattle.ml_base.specs.Dir.{with_file};
ghost use Rattle.ml_site.specs.Recorded.{contents, lookup, at_rest, step, after, settles};

use crate::Image;
use crate::call::Call;
use crate::image::{all_copied, drop_file, spliced};
use ml_base::{Bytes, Name};
use std::alloc::{AllocError, Global};
use std::collections::BTreeMap;

/// Sets a file.
pub fn put_in(files: &mut BTreeMap<Name, Bytes>, name: Name, bytes: Bytes) -> Result<(), AllocError>
    ensures { OnOk result ((other : TheName) → lookup files.new other ≡ with_file (lookup files.old) name (Some bytes) other) }
{
    files.insert(name, bytes)?;
    Ok(())
}

/// Writes bytes to a log, if they begin at or before its end.
fn write_at(alloc: Global, log: &mut Bytes, at: u64, bytes: &[u8]) -> Result<(), AllocError>
    ensures { OnOk result (log.new
        ≡ (if nat_le at (length log.old) then take at log.old ++ bytes.now ++ drop (at + length bytes.now) log.old else log.old)) }
{
    if at <= log.len() as u64 {
        *log = spliced(alloc, log.as_slice(), at as usize, bytes)?;
    }
    Ok(())
}

/// Makes the change that one call made to what reads give.
fn redo(alloc: Global, image: &mut Image, call: &Call) -> Result<(), AllocError>
    ensures { OnOk result (contents image.new.log image.new.files
        ≡ (step (at_rest (contents image.old.log image.old.files)) call.now).reads) }
{
    match call {
        Call::WriteLog(at, bytes) => write_at(alloc, &mut image.log, *at, bytes.as_slice()),
        Call::CutLog(size) => {
            image.log.truncate(*size as usize);
            Ok(())
        }
        Call::WriteFile(name, bytes) => {
            let copy = Bytes::from_slice(alloc, bytes.as_slice())?;
            put_in(&mut image.files, *name, copy)
        }
        Call::RemoveFile(name) => {
            drop_file(&mut image.files, *name);
            Ok(())
        }
        _ => Ok(()),
    }
}

/// What reads give after these calls.
pub fn replay(
    alloc: Global,
    log: &[u8],
    files: &BTreeMap<Name, Bytes>,
    calls: &[Call],
) -> Result<Image, AllocError>
    ensures { IfOk result (λ image. contents image.log image.files
        ≡ (after (at_rest (contents log.now files.now)) calls.now).reads) }
{
    let mut image = Image {
        log: Bytes::from_slice(alloc, log)?,
        files: all_copied(files)?,
    };
    for call in calls {
        redo(alloc, &mut image, call)?;
    }
    Ok(image)
}

/// How many of these calls were made up to the last sync that succeeded.
pub fn settled_calls(calls: &[Call]) -> usize
    ensures within { result ≤ length calls.now }
    ensures settled { (start : Contents) → (after (at_rest start) (take result calls.now)).reads
        ≡ (after (at_rest start) calls.now).settled }
{
    let mut left = calls.len();
    while left > 0 {
        if is_sync(&calls[left - 1]) {
            return left;
        }
        left -= 1;
    }
    0
}

/// Whether a call is a sync that succeeded.
pub fn is_sync(call: &Call) -> bool
    ensures { result ≡ settles call.now }
{
    match call {
        Call::Sync => true,
        _ => false,
    }
}
