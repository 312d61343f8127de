// A disk with a log and files, and an output, as the program sees them: the trait `Site`.
ghost use Rattle.std.specs.Prelude.{◌≡◌, ◌≤◌, ◌+◌, ◌++◌, ℕ, Bool, List, Option, Some, None, IsTrue, length, take, IfOk, OnOk, OnErr, IsErrOf, is_some};
ghost use Rattle.ml_base.specs.Absent.{NoneOf};
ghost use Rattle.ml_base.specs.Name.{is_file};
ghost use Rattle.ml_base.specs.declared.names.Name.{Name};
ghost use Rattle.ml_site.specs.Errors.{files_error};
ghost use Rattle.ml_site.specs.declared.site.SiteError.TheVariants.{Memory, Failed as FailedCall};
ghost use Rattle.ml_site.specs.Clauses.{SameDisk, ChangesPart, OnDisk, LooksOnce, SameNumbers};
ghost use Rattle.ml_site.specs.Disk.{Contents, Disk, Range, Cut, File, IsImage, Now, Giving, Elapses, IsAtRest, log_with, log_cut, file_with};
ghost use Rattle.ml_base.specs.Faults.{Rose};

use ml_base::{Bytes, FilesError, Name};
use std::alloc::{AllocError, AllocFailed, Global};
use thiserror::Error;

/// Why a call on the disk that takes memory failed.
#[derive(Clone, Copy, Debug, PartialEq, Eq, Error)]
pub enum SiteError {
    /// The disk failed. Its count of faults rose in this call.
    #[error("the disk failed")]
    Failed,
    /// There was no memory for the call.
    #[error("out of memory")]
    Memory,
}

/// A call failed. A count of faults rose in this call.
#[derive(Clone, Copy, Debug, PartialEq, Eq, Error)]
#[error("the call failed")]
pub struct Failed;

impl From<AllocError> for SiteError {
    ghost from_gives = { λ _ e. e ≡ Memory };

    fn from(_: AllocError) -> Self {
        SiteError::Memory
    }
}

impl<T: Drop> From<AllocFailed<T>> for SiteError {
    ghost from_gives = { λ _ e. e ≡ Memory };

    fn from(_: AllocFailed<T>) -> Self {
        SiteError::Memory
    }
}

impl From<Failed> for SiteError {
    ghost from_gives = { λ _ e. e ≡ FailedCall };

    fn from(_: Failed) -> Self {
        SiteError::Failed
    }
}

impl From<SiteError> for FilesError {
    ghost from_gives = { λ error e. e ≡ files_error error };

    fn from(error: SiteError) -> Self {
        match error {
            SiteError::Failed => FilesError::Fault,
            SiteError::Memory => FilesError::Memory,
        }
    }
}

/// A disk with a log and files, and an output.
///
/// A type that doesn't tell what reads give tells nothing of the rest either. The rest it tells as a whole or not at all.
/// It promises nothing of what it doesn't tell. Every type tells its counts of calls and of faults, and they never fall.
/// `Failed` comes only if the count of the disk's faults rose in that call, or for `give` the count of the output's.
pub trait Site {
    /// Whether it tells what reads give.
    ghost tells_reads: { Bool };

    /// Whether it also tells its images, output, instants and numbers.
    ghost tells_all: { Bool };

    /// What reads give, what is settled and what is pending.
    ghost disk: { Self → Disk };

    /// The output so far.
    ghost output: { Self → List ℕ };

    /// The time, as a number that doesn't fall.
    ghost instant: { Self → ℕ };

    /// What a crash at some instant from that time on may have left, with the output so far.
    ghost left_since: { Self → ℕ → Contents → List ℕ → Type 0 };

    /// How many syncs succeeded.
    ghost syncs: { Self → ℕ };

    /// How many bytes were handed to the log.
    ghost log_bytes: { Self → ℕ };

    /// How often a call on the disk has failed, as far as that can be counted in 64 bits.
    ghost disk_faults: { Self → ℕ };

    /// How many calls on the disk were made, without those of `give`, as far as that can be counted in 64 bits.
    ghost disk_calls: { Self → ℕ };

    /// How often the output has failed, as far as that can be counted in 64 bits.
    ghost output_faults: { Self → ℕ };

    /// The bytes of the log. A log that is absent is empty.
    fn read_log(&mut self, alloc: Global) -> Result<Bytes, SiteError>
        ensures bytes { IsTrue tells_reads → IfOk result (λ v. v ≡ (disk self.old).reads.log) }
        ensures same { SameDisk tells_reads tells_all disk self.old self.new }
        ensures keeps { OnDisk tells_all disk output instant left_since disk_faults output_faults disk_calls self.old self.new }
        ensures numbers { SameNumbers tells_all syncs log_bytes self.old self.new }
        ensures cause { IsErrOf result FailedCall → Rose (disk_faults self.old) (disk_faults self.new) };

    /// Writes bytes to the log from the byte `at` on, which is at or before its end as it reads.
    /// They are then pending, even if the call failed, and what reads give changes only there.
    fn write_log(&mut self, alloc: Global, at: u64, bytes: &[u8]) -> Result<(), SiteError>
        requires { IsTrue tells_reads → at ≤ length (disk self.old).reads.log }
        ensures change { ChangesPart tells_reads tells_all disk result (Range at (length bytes.now))
            (log_with (disk self.old).reads at bytes.now) self.old self.new }
        ensures keeps { OnDisk tells_all disk output instant left_since disk_faults output_faults disk_calls self.old self.new }
        ensures syncs { IsTrue tells_all → syncs self.new ≡ syncs self.old }
        ensures log_bytes { IsTrue tells_all → OnOk result (log_bytes self.new ≡ log_bytes self.old + length bytes.now) }
        ensures log_bytes_stay { IsTrue tells_all → log_bytes self.old ≤ log_bytes self.new }
        ensures cause { IsErrOf result FailedCall → Rose (disk_faults self.old) (disk_faults self.new) };

    /// Cuts the log to its first `len` bytes, which is at most as many as reads give.
    /// What stood after them is then pending, even if the call failed.
    fn cut_log(&mut self, len: u64) -> Result<(), Failed>
        requires { IsTrue tells_reads → len ≤ length (disk self.old).reads.log }
        ensures change { ChangesPart tells_reads tells_all disk result (Cut len)
            (log_cut (disk self.old).reads len) self.old self.new }
        ensures keeps { OnDisk tells_all disk output instant left_since disk_faults output_faults disk_calls self.old self.new }
        ensures numbers { SameNumbers tells_all syncs log_bytes self.old self.new }
        ensures cause { OnErr result (Rose (disk_faults self.old) (disk_faults self.new)) };

    /// The bytes of a file other than the log, or None if it is absent.
    fn read_file(&mut self, alloc: Global, name: Name) -> Result<Option<Bytes>, SiteError>
        requires { IsTrue (is_file name) }
        ensures bytes { IsTrue tells_reads → IfOk result (λ o. o ≡ (disk self.old).reads.files name) }
        ensures same { SameDisk tells_reads tells_all disk self.old self.new }
        ensures keeps { OnDisk tells_all disk output instant left_since disk_faults output_faults disk_calls self.old self.new }
        ensures numbers { SameNumbers tells_all syncs log_bytes self.old self.new }
        ensures cause { IsErrOf result FailedCall → Rose (disk_faults self.old) (disk_faults self.new) };

    /// Whether a file other than the log is there. A type that knows this without the file's bytes has a body of its own.
    fn has_file(&mut self, alloc: Global, name: Name) -> Result<bool, SiteError>
        requires { IsTrue (is_file name) }
        ensures there { IsTrue tells_reads → IfOk result (λ there. there ≡ is_some ((disk self.old).reads.files name)) }
        ensures same { SameDisk tells_reads tells_all disk self.old self.new }
        ensures keeps { OnDisk tells_all disk output instant left_since disk_faults output_faults disk_calls self.old self.new }
        ensures numbers { SameNumbers tells_all syncs log_bytes self.old self.new }
        ensures cause { IsErrOf result FailedCall → Rose (disk_faults self.old) (disk_faults self.new) }
    {
        match self.read_file(alloc, name) {
            Ok(found) => Ok(found.is_some()),
            Err(error) => Err(error),
        }
    }

    /// A place from `from` to `end` at which a walk over the files of a kind may go on: no file of the kind is at a place from
    /// `from` on and before it. A type that knows more without a look at every place has a body of its own; `from` itself says nothing.
    fn skip_files(&mut self, alloc: Global, kind: u8, from: u64, end: u64) -> Result<u64, SiteError>
        requires { from ≤ end }
        ensures range { IfOk result (λ at. (from ≤ at) × (at ≤ end)) }
        ensures none { IsTrue tells_reads → IfOk result (NoneOf (disk self.old).reads.files kind from) }
        ensures same { SameDisk tells_reads tells_all disk self.old self.new }
        ensures keeps { LooksOnce tells_all disk output instant left_since disk_faults output_faults disk_calls self.old self.new }
        ensures numbers { SameNumbers tells_all syncs log_bytes self.old self.new }
        ensures cause { IsErrOf result FailedCall → Rose (disk_faults self.old) (disk_faults self.new) }
    {
        Ok(from)
    }

    /// Gives a file other than the log these bytes, in place of any that it had.
    /// The file is then pending, even if the call failed, and what reads give changes only there.
    fn write_file(&mut self, alloc: Global, name: Name, bytes: &[u8]) -> Result<(), SiteError>
        requires { IsTrue (is_file name) }
        ensures change { ChangesPart tells_reads tells_all disk result (File name)
            (file_with (disk self.old).reads name (Some bytes.now)) self.old self.new }
        ensures keeps { OnDisk tells_all disk output instant left_since disk_faults output_faults disk_calls self.old self.new }
        ensures numbers { SameNumbers tells_all syncs log_bytes self.old self.new }
        ensures cause { IsErrOf result FailedCall → Rose (disk_faults self.old) (disk_faults self.new) };

    /// Removes a file other than the log, if it is there.
    /// The file is then pending, even if the call failed, and what reads give changes only there.
    fn remove_file(&mut self, alloc: Global, name: Name) -> Result<(), SiteError>
        requires { IsTrue (is_file name) }
        ensures change { ChangesPart tells_reads tells_all disk result (File name)
            (file_with (disk self.old).reads name None) self.old self.new }
        ensures keeps { OnDisk tells_all disk output instant left_since disk_faults output_faults disk_calls self.old self.new }
        ensures numbers { SameNumbers tells_all syncs log_bytes self.old self.new }
        ensures cause { IsErrOf result FailedCall → Rose (disk_faults self.old) (disk_faults self.new) };

    /// Settles all that is pending: after Ok a crash leaves exactly what reads give. An error settles nothing.
    /// It takes no memory.
    fn sync(&mut self) -> Result<(), Failed>
        ensures reads { IsTrue tells_reads → (disk self.new).reads ≡ (disk self.old).reads }
        ensures ok { IsTrue tells_all → OnOk result (IsAtRest (disk self.new)) }
        ensures err { IsTrue tells_all → OnErr result (disk self.new ≡ disk self.old) }
        ensures crash { IsTrue tells_all → (left : Contents)
            → IsImage (disk self.new) left → IsImage (disk self.old) left }
        ensures keeps { OnDisk tells_all disk output instant left_since disk_faults output_faults disk_calls self.old self.new }
        ensures syncs { IsTrue tells_all → syncs self.new ≤ syncs self.old + 1 }
        ensures syncs_ok { IsTrue tells_all → OnOk result (syncs self.new ≡ syncs self.old + 1) }
        ensures syncs_err { IsTrue tells_all → OnErr result (syncs self.new ≡ syncs self.old) }
        ensures syncs_stay { IsTrue tells_all → syncs self.old ≤ syncs self.new }
        ensures log_bytes { IsTrue tells_all → log_bytes self.new ≡ log_bytes self.old }
        ensures cause { OnErr result (Rose (disk_faults self.old) (disk_faults self.new)) };

    /// Puts bytes out after those that were put out before. If it fails, some first part of them may be out.
    /// It takes no memory.
    fn give(&mut self, bytes: &[u8]) -> Result<(), Failed>
        ensures same { SameDisk tells_reads tells_all disk self.old self.new }
        ensures ok { IsTrue tells_all → OnOk result (output self.new ≡ output self.old ++ bytes.now) }
        ensures err { IsTrue tells_all
            → OnErr result ((n : ℕ) × (output self.new ≡ output self.old ++ take n bytes.now)) }
        ensures time { IsTrue tells_all → Elapses (instant self.old) (instant self.new)
            (left_since self.old) (left_since self.new) (Giving (disk self.old) (output self.old) bytes.now) }
        ensures numbers { SameNumbers tells_all syncs log_bytes self.old self.new }
        ensures faults { output_faults self.old ≤ output_faults self.new }
        ensures cause { OnErr result (Rose (output_faults self.old) (output_faults self.new)) }
        ensures others { disk_faults self.new ≡ disk_faults self.old }
        ensures calls { disk_calls self.new ≡ disk_calls self.old };

    /// A type that tells all tells what reads give.
    ghost all_has_reads: { IsTrue tells_all → IsTrue tells_reads };

    /// A disk as it reads is one of its images.
    ghost reads_as_image: { (site : Self) → IsTrue tells_all → IsImage (disk site) (disk site).reads };

    /// What reads give, with the output so far, is an instant now.
    ghost is_an_instant: { (site : Self) (t : ℕ) → IsTrue tells_all → t ≤ instant site
        → left_since site t (disk site).reads (output site) };

    /// The instants of right now are the disk's images with the output so far, and no others.
    ghost only_now: { (site : Self) (left : Contents) (out : List ℕ) → IsTrue tells_all
        → left_since site (instant site) left out → Now (disk site) (output site) left out };
}
