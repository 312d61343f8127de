// Which numbers of a series have a file.
ghost use Rattle.std.specs.Prelude.{◌≡◌, ◌≤◌, ◌<◌, ◌+◌, ℕ, Some, None, true, is_some, IsTrue, IfOk, IfSome, IsErrOf, if◌then◌else◌};
ghost use Rattle.ml_base.specs.Faults.{Rose};
ghost use Rattle.ml_base.specs.ReadFiles.{AreKept};
ghost use Rattle.ml_base.specs.Ranges as ranges;
ghost use Rattle.ml_base.specs.declared.files.FilesError.TheVariants.{Fault};
ghost use Rattle.ml_drawn.specs.Names.{thing_name};
ghost use Rattle.ml_drawn.specs.Answers.{IsNextNumber, IsNextThere, NoneThere};

use crate::Series;
use ml_base::{Bytes, Files, FilesError, LAST_DRAWN, is_drawn};
use std::alloc::Global;

// How many numbers are looked at one by one before the files are asked up to which number nothing is there.
const STRIDE: u64 = 16;

/// A file of a series.
#[derive(Drop)]
pub struct Found {
    pub number: u64,
    pub bytes: Bytes,
}

/// The bytes under a number, or None if nothing is there. Nothing is under a number that is never drawn.
pub fn file_of<F: Files>(
    alloc: Global,
    files: &mut F,
    series: Series,
    n: u64,
) -> Result<Option<Bytes>, FilesError>
    ensures value { IsTrue F.tells → IfOk result (λ found. found ≡ (if ranges.is_drawn n then F.map files.old (thing_name series n) else None)) }
    ensures drawn { IfOk result (λ found. IfSome found (λ _. IsTrue (ranges.is_drawn n))) }
    ensures are_kept { AreKept ⟦<F as Files>⟧ files.old files.new }
    ensures cause { IsErrOf result Fault → Rose (F.faults files.old) (F.faults files.new) }
{
    if !is_drawn(n) {
        return Ok(None);
    }
    files.get(alloc, series.name(n))
}

/// Whether something is there under a number. Nothing is under a number that is never drawn. If the files know without its bytes, none of
/// them are read.
pub fn is_there<F: Files>(
    alloc: Global,
    files: &mut F,
    series: Series,
    n: u64,
) -> Result<bool, FilesError>
    ensures value { IsTrue F.tells → IfOk result (λ there. there ≡ is_some (if ranges.is_drawn n then F.map files.old (thing_name series n) else None)) }
    ensures drawn { IfOk result (λ there. there ≡ true → IsTrue (ranges.is_drawn n)) }
    ensures are_kept { AreKept ⟦<F as Files>⟧ files.old files.new }
    ensures cause { IsErrOf result Fault → Rose (F.faults files.old) (F.faults files.new) }
{
    if !is_drawn(n) {
        return Ok(false);
    }
    files.has(alloc, series.name(n))
}

// The number to look at after one under which nothing is, in a walk that began at `from`: the next one, but at every 16th number one up
// to which the files know that nothing is there. So a small gap doesn't search a whole folder, and a wide one takes few looks.
fn number_after<F: Files>(
    alloc: Global,
    files: &mut F,
    series: Series,
    from: u64,
    number: u64,
    end: u64,
) -> Result<u64, FilesError>
    requires { (from ≤ number) × (number < end) }
    ensures range { IfOk result (λ n. (number < n) × (n ≤ end)) }
    ensures value { IsTrue F.tells → IfOk result (NoneThere (F.map files.old) series (number + 1)) }
    ensures are_kept { AreKept ⟦<F as Files>⟧ files.old files.new }
    ensures cause { IsErrOf result Fault → Rose (F.faults files.old) (F.faults files.new) }
{
    let next = number + 1;
    if (next - from) % STRIDE != 0 {
        return Ok(next);
    }
    files.skip_absent(alloc, series.name(next).kind, next, end)
}

/// The first number from `from` on, below `next`, under which a file is there, or None if there is none. It looks at one number after
/// another, and skips those under which the files know that nothing is there. It reads no file if the files know without its bytes
/// that it is there.
pub fn next_number<F: Files>(
    alloc: Global,
    files: &mut F,
    series: Series,
    from: u64,
    next: u64,
) -> Result<Option<u64>, FilesError>
    requires { 1 ≤ from }
    ensures value { IsTrue F.tells → IfOk result (IsNextNumber (F.map files.old) series from next) }
    ensures ranges { IfOk result (λ found. IfSome found (λ n. (from ≤ n) × (n < next) × IsTrue (ranges.is_drawn n))) }
    ensures are_kept { AreKept ⟦<F as Files>⟧ files.old files.new }
    ensures cause { IsErrOf result Fault → Rose (F.faults files.old) (F.faults files.new) }
{
    let end = next.min(LAST_DRAWN + 1);
    let mut number = from;
    while number < end {
        if is_there(alloc, files, series, number)? {
            return Ok(Some(number));
        }
        number = number_after(alloc, files, series, from, number, end)?;
    }
    Ok(None)
}

/// The first number from `from` on, below `next`, under which a file is there, with its bytes; or None if there is none.
/// It looks at one number after another, skips those under which the files know that nothing is there, and stops at the first file.
pub fn next_there<F: Files>(
    alloc: Global,
    files: &mut F,
    series: Series,
    from: u64,
    next: u64,
) -> Result<Option<Found>, FilesError>
    requires { 1 ≤ from }
    ensures value { IsTrue F.tells → IfOk result (IsNextThere (F.map files.old) series from next) }
    ensures ranges { IfOk result (λ found. IfSome found (λ f. (from ≤ f.number) × (f.number < next) × IsTrue (ranges.is_drawn f.number))) }
    ensures are_kept { AreKept ⟦<F as Files>⟧ files.old files.new }
    ensures cause { IsErrOf result Fault → Rose (F.faults files.old) (F.faults files.new) }
{
    let end = next.min(LAST_DRAWN + 1);
    let mut number = from;
    while number < end {
        if let Some(bytes) = file_of(alloc, files, series, number)? {
            return Ok(Some(Found { number, bytes }));
        }
        number = number_after(alloc, files, series, from, number, end)?;
    }
    Ok(None)
}
