// A disk and an output in memory, for tests: it records its calls, fails when told to, and shows what a crash may leave.
ghost use Rattle.std.specs.Prelude.{◌≡◌, ℕ, ◌<◌, ◌≤◌, ◌+◌, ◌-◌, ◌^◌, nat_lt, nat_le, min, true, false, IsTrue, ◌↔◌, length, take, [], ◌∷◌, ◌++◌, if◌then◌else◌, IfOk, OnOk, OnErr, IsErrOf, Some, None, vec_len};
ghost use Rattle.std.specs.Vec.{vec_capacity};
ghost use Rattle.ml_base.specs.declared.names.Name.{Name as TheName};
ghost use Rattle.ml_base.specs.Faults.{next_call};
ghost use Rattle.ml_base.specs.Faults.{Rose};
ghost use Rattle.ml_base.specs.Name.{is_file};
ghost use Rattle.ml_site.specs.Clauses.{SameDisk, ChangesPart};
ghost use Rattle.ml_site.specs.declared.site.SiteError.TheVariants.{Failed as FailedCall};
ghost use Rattle.ml_site.specs.Disk.{Contents, Range, Cut, File, IsImage, IsAtRest, Giving, Elapses, log_with, log_cut, file_with};
ghost use Rattle.ml_site.specs.Filled.{filled};
ghost use Rattle.ml_site.specs.Recorded.{contents, lookup, at_rest, after, given, Left, total, size_synced, size_logged};
ghost use Rattle.ml_site.specs.Failing.{FailsAsPlanned};
ghost use Rattle.ml_site.specs.Replay.{after-is_image, left_now, left_only};

use crate::call::Call;
use crate::fill::image_left;
use crate::image::{all_copied, copied, drop_file, set_file, spliced};
use crate::{Failed, Fill, Image, Site, SiteError};
use ml_base::{Bytes, FaultPlan, Name, Numbers};
use std::alloc::{AllocError, Global};
use std::collections::BTreeMap;

/// A site in memory, with a record of its calls. It tells all that a site may tell.
/// A call fails if its number is named, or if the record or the output has no room for it.
/// A call that fails changes nothing that reads give and puts nothing out.
#[derive(Drop)]
pub struct MemSite {
    // What the disk held at first, and the calls since then. Its capacity is the room for calls.
    start_log: Bytes,
    start_files: BTreeMap<Name, Bytes>,
    calls: Vec<Call>,
    // What reads give.
    log: Bytes,
    files: BTreeMap<Name, Bytes>,
    // What was put out, and the room for it in bytes.
    output: Vec<u8>,
    output_room: usize,
    plan: FaultPlan,
    // The number of the last call that may succeed.
    last_call: u64,
    disk_calls: u64,
    disk_faults: u64,
    output_faults: u64,
    ghost log_is: { log ≡ (after (at_rest (contents start_log start_files)) calls.items).reads.log },
    ghost files_are: { (name : TheName) → lookup files name
        ≡ (after (at_rest (contents start_log start_files)) calls.items).reads.files name },
    ghost output_is: { length output.items ≡ given calls.items },
    ghost within: { length output.items ≤ output_room },
    ghost room: { output_room ≤ vec_capacity output },
}

impl MemSite {
    ghost use Rattle.ml_site.specs.MemSites.{IsNew, ChangesPlan, mem_disk_at, mem_output, mem_output_at, mem_left_since, mem_calls, site_failing, site_last};

    /// A site over an image, with room for `calls` calls and `output` bytes of output, all reserved at once.
    /// No call is to fail, and nothing is pending.
    pub fn new(
        alloc: Global,
        image: Image,
        calls: usize,
        output: usize,
    ) -> Result<MemSite, AllocError>
        ensures { IfOk result (IsNew (contents image.log image.files) calls output) }
    {
        let log = Bytes::from_slice(alloc, image.log.as_slice())?;
        let files = all_copied(&image.files)?;
        Ok(MemSite {
            start_log: image.log,
            start_files: image.files,
            calls: Vec::with_capacity(alloc, calls)?,
            log,
            files,
            output: Vec::with_capacity(alloc, output)?,
            output_room: output,
            plan: FaultPlan::new(Numbers::new(alloc)),
            last_call: u64::MAX,
            disk_calls: 0,
            disk_faults: 0,
            output_faults: 0,
        })
    }

    /// Names the calls that are to fail, counted from 1 since the site was made. They replace those named before.
    /// An error changes nothing.
    pub fn fail(&mut self, alloc: Global, calls: &[u64]) -> Result<(), AllocError>
        ensures ok { OnOk result (site_failing self.new ≡ calls.now) }
        ensures err { OnErr result (site_failing self.new ≡ site_failing self.old) }
        ensures last { site_last self.new ≡ site_last self.old }
        ensures plan { ChangesPlan self.old self.new }
    {
        self.plan.failing = Numbers::from_vec(Vec::from_slice(alloc, calls)?);
        Ok(())
    }

    /// Makes every call after the `k`-th fail, counted since the site was made, besides those that are named.
    pub fn stop_after(&mut self, k: u64)
        ensures last { site_last self.new ≡ k }
        ensures failing { site_failing self.new ≡ site_failing self.old }
        ensures plan { ChangesPlan self.old self.new }
    {
        self.last_call = k;
    }

    /// One image that a crash after the first `instant` calls may leave, or after all calls if there are fewer:
    /// what no sync has settled is old, new or one byte throughout, as `fill` says.
    pub fn crash(&self, alloc: Global, instant: u64, fill: Fill) -> Result<Image, AllocError>
        ensures image { IfOk result (λ image. IsImage (mem_disk_at self.now instant) (contents image.log image.files)) }
        ensures bytes { IfOk result (λ image. contents image.log image.files ≡ filled fill (mem_disk_at self.now instant)) }
        ensures instant { IfOk result (λ image. (t : ℕ) → t ≤ min instant (mem_calls self.now)
            → mem_left_since self.now t (contents image.log image.files) (mem_output_at self.now instant)) }
    {
        let made = self.calls.len().min(instant as usize);
        let calls = &self.calls.as_slice()[..made];
        image_left(
            alloc,
            self.start_log.as_slice(),
            &self.start_files,
            calls,
            fill,
        )
    }

    /// Lends what was put out.
    pub fn output(&self) -> &[u8]
        ensures { result.now ≡ mem_output self.now }
    {
        self.output.as_slice()
    }
}

/// Counts a call, and answers whether it fails: its number is named or above `last`, the record has no room for
/// it, or something else has none, as `short` says.
fn fails(plan: &mut FaultPlan, last: u64, calls: &Vec<Call>, short: bool) -> bool
    ensures planned { FailsAsPlanned plan.old plan.new last (nat_le (vec_capacity calls.now) (length calls.now.items)) short result }
    ensures room { result ≡ false → vec_len calls.now < vec_capacity calls.now }
    ensures enough { result ≡ false → short ≡ false }
{
    let full = calls.capacity() <= calls.as_slice().len();
    plan.fails() || last < plan.made || full || short
}

/// Counts a fault, and adds the call that failed to the record, if there is room for it. It takes no memory.
fn note_failure(calls: &mut Vec<Call>, faults: &mut u64, call: Call)
    ensures calls { calls.new.items
        ≡ (if nat_lt (length calls.old.items) (vec_capacity calls.old) then calls.old.items ++ call ∷ [] else calls.old.items) }
    ensures room { vec_capacity calls.new ≡ vec_capacity calls.old }
    ensures faults { faults.new ≡ next_call faults.old }
    ensures later { faults.old ≤ faults.new }
{
    *faults = faults.saturating_add(1);
    if calls.as_slice().len() < calls.capacity() {
        calls.push_reserved(call);
    }
}

/// Whether these bytes no longer fit an output that has this room and holds no more than that.
fn is_short(output: &Vec<u8>, room: usize, bytes: &[u8]) -> bool
    requires { length output.now.items ≤ room }
    ensures short { IsTrue result ↔ room < length output.now.items + length bytes.now }
    ensures enough { result ≡ false → vec_len output.now + length bytes.now ≤ room }
    ensures fits { result ≡ false → length output.now.items + length bytes.now ≤ room }
{
    room - output.as_slice().len() < bytes.len()
}

/// Puts bytes out, for which there is room. It takes no memory.
fn put_out(output: &mut Vec<u8>, bytes: &[u8])
    requires { vec_len output.old + length bytes.now ≤ vec_capacity output.old }
    ensures items { output.new.items ≡ output.old.items ++ bytes.now }
    ensures room { vec_capacity output.old ≤ vec_capacity output.new }
{
    let _put = output.extend_from_slice(bytes);
}

impl Site for MemSite {
    ghost use Rattle.ml_site.specs.MemSites.{mem_disk, mem_output, mem_calls, mem_left_since, mem_syncs, mem_log_bytes, MemOnDisk, MemSameNumbers};
    ghost use Rattle.ml_site.specs.MemSites.{site_disk_calls, site_disk_faults, site_output_faults};
    ghost use Rattle.ml_site.specs.Planned.{DiskEnds, PlainEnds, GiveEnds};

    ghost tells_reads = { true };

    ghost tells_all = { true };

    ghost disk = { λ s. after (at_rest (contents s.start_log s.start_files)) s.calls.items };

    ghost output = { λ s. s.output.items };

    ghost instant = { λ s. length s.calls.items };

    ghost left_since = { λ s. Left (at_rest (contents s.start_log s.start_files)) s.calls.items s.output.items };

    ghost syncs = { λ s. total size_synced s.calls.items };

    ghost log_bytes = { λ s. total size_logged s.calls.items };

    ghost disk_faults = { λ s. s.disk_faults };

    ghost disk_calls = { λ s. s.disk_calls };

    ghost output_faults = { λ s. s.output_faults };

    fn read_log(&mut self, alloc: Global) -> Result<Bytes, SiteError>
        ensures bytes { IfOk result (λ v. v ≡ (mem_disk self.old).reads.log) }
        ensures same { SameDisk true true mem_disk self.old self.new }
        ensures keeps { MemOnDisk self.old self.new }
        ensures numbers { MemSameNumbers self.old self.new }
        ensures cause { IsErrOf result FailedCall → Rose (site_disk_faults self.old) (site_disk_faults self.new) }
        ensures ends { DiskEnds result [] self.old self.new }
    {
        self.disk_calls = self.disk_calls.saturating_add(1);
        if fails(&mut self.plan, self.last_call, &self.calls, false) {
            note_failure(&mut self.calls, &mut self.disk_faults, Call::Read);
            return Err(SiteError::Failed);
        }
        let bytes = Bytes::from_slice(alloc, self.log.as_slice())?;
        self.calls.push_reserved(Call::Read);
        Ok(bytes)
    }

    fn write_log(&mut self, alloc: Global, at: u64, bytes: &[u8]) -> Result<(), SiteError>
        requires { at ≤ length (mem_disk self.old).reads.log }
        ensures change { ChangesPart true true mem_disk result (Range at (length bytes.now))
            (log_with (mem_disk self.old).reads at bytes.now) self.old self.new }
        ensures keeps { MemOnDisk self.old self.new }
        ensures syncs { mem_syncs self.new ≡ mem_syncs self.old }
        ensures log_bytes { OnOk result (mem_log_bytes self.new ≡ mem_log_bytes self.old + length bytes.now) }
        ensures log_bytes_stay { mem_log_bytes self.old ≤ mem_log_bytes self.new }
        ensures cause { IsErrOf result FailedCall → Rose (site_disk_faults self.old) (site_disk_faults self.new) }
        ensures ends { DiskEnds result (Range at (length bytes.now) ∷ []) self.old self.new }
    {
        self.disk_calls = self.disk_calls.saturating_add(1);
        if fails(&mut self.plan, self.last_call, &self.calls, false) {
            let failed = Call::FailedLog(at, bytes.len() as u64);
            note_failure(&mut self.calls, &mut self.disk_faults, failed);
            return Err(SiteError::Failed);
        }
        let piece = Bytes::from_slice(alloc, bytes)?;
        let next = spliced(alloc, self.log.as_slice(), at as usize, bytes)?;
        self.calls.push_reserved(Call::WriteLog(at, piece));
        self.log = next;
        Ok(())
    }

    fn cut_log(&mut self, len: u64) -> Result<(), Failed>
        requires { len ≤ length (mem_disk self.old).reads.log }
        ensures change { ChangesPart true true mem_disk result (Cut len)
            (log_cut (mem_disk self.old).reads len) self.old self.new }
        ensures keeps { MemOnDisk self.old self.new }
        ensures numbers { MemSameNumbers self.old self.new }
        ensures cause { OnErr result (Rose (site_disk_faults self.old) (site_disk_faults self.new)) }
        ensures ends { PlainEnds result (Cut len ∷ []) self.old self.new }
    {
        self.disk_calls = self.disk_calls.saturating_add(1);
        if fails(&mut self.plan, self.last_call, &self.calls, false) {
            note_failure(&mut self.calls, &mut self.disk_faults, Call::FailedCut(len));
            return Err(Failed);
        }
        self.calls.push_reserved(Call::CutLog(len));
        self.log.truncate(len as usize);
        Ok(())
    }

    fn read_file(&mut self, alloc: Global, name: Name) -> Result<Option<Bytes>, SiteError>
        requires { IsTrue (is_file name) }
        ensures bytes { IfOk result (λ o. o ≡ (mem_disk self.old).reads.files name) }
        ensures same { SameDisk true true mem_disk self.old self.new }
        ensures keeps { MemOnDisk self.old self.new }
        ensures numbers { MemSameNumbers self.old self.new }
        ensures cause { IsErrOf result FailedCall → Rose (site_disk_faults self.old) (site_disk_faults self.new) }
        ensures ends { DiskEnds result [] self.old self.new }
    {
        self.disk_calls = self.disk_calls.saturating_add(1);
        if fails(&mut self.plan, self.last_call, &self.calls, false) {
            note_failure(&mut self.calls, &mut self.disk_faults, Call::Read);
            return Err(SiteError::Failed);
        }
        let bytes = copied(alloc, &self.files, name)?;
        self.calls.push_reserved(Call::Read);
        Ok(bytes)
    }

    fn write_file(&mut self, alloc: Global, name: Name, bytes: &[u8]) -> Result<(), SiteError>
        requires { IsTrue (is_file name) }
        ensures change { ChangesPart true true mem_disk result (File name)
            (file_with (mem_disk self.old).reads name (Some bytes.now)) self.old self.new }
        ensures keeps { MemOnDisk self.old self.new }
        ensures numbers { MemSameNumbers self.old self.new }
        ensures cause { IsErrOf result FailedCall → Rose (site_disk_faults self.old) (site_disk_faults self.new) }
        ensures ends { DiskEnds result (File name ∷ []) self.old self.new }
    {
        self.disk_calls = self.disk_calls.saturating_add(1);
        if fails(&mut self.plan, self.last_call, &self.calls, false) {
            note_failure(
                &mut self.calls,
                &mut self.disk_faults,
                Call::FailedFile(name),
            );
            return Err(SiteError::Failed);
        }
        let piece = Bytes::from_slice(alloc, bytes)?;
        let copy = Bytes::from_slice(alloc, bytes)?;
        if !set_file(&mut self.files, name, copy) {
            return Err(SiteError::Memory);
        }
        self.calls.push_reserved(Call::WriteFile(name, piece));
        Ok(())
    }

    fn remove_file(&mut self, _alloc: Global, name: Name) -> Result<(), SiteError>
        requires { IsTrue (is_file name) }
        ensures change { ChangesPart true true mem_disk result (File name)
            (file_with (mem_disk self.old).reads name None) self.old self.new }
        ensures keeps { MemOnDisk self.old self.new }
        ensures numbers { MemSameNumbers self.old self.new }
        ensures cause { IsErrOf result FailedCall → Rose (site_disk_faults self.old) (site_disk_faults self.new) }
        ensures ends { DiskEnds result (File name ∷ []) self.old self.new }
    {
        self.disk_calls = self.disk_calls.saturating_add(1);
        if fails(&mut self.plan, self.last_call, &self.calls, false) {
            note_failure(
                &mut self.calls,
                &mut self.disk_faults,
                Call::FailedFile(name),
            );
            return Err(SiteError::Failed);
        }
        drop_file(&mut self.files, name);
        self.calls.push_reserved(Call::RemoveFile(name));
        Ok(())
    }

    fn sync(&mut self) -> Result<(), Failed>
        ensures reads { (mem_disk self.new).reads ≡ (mem_disk self.old).reads }
        ensures ok { OnOk result (IsAtRest (mem_disk self.new)) }
        ensures err { OnErr result (mem_disk self.new ≡ mem_disk self.old) }
        ensures crash { (left : Contents) → IsImage (mem_disk self.new) left → IsImage (mem_disk self.old) left }
        ensures keeps { MemOnDisk self.old self.new }
        ensures syncs { mem_syncs self.new ≤ mem_syncs self.old + 1 }
        ensures syncs_ok { OnOk result (mem_syncs self.new ≡ mem_syncs self.old + 1) }
        ensures syncs_err { OnErr result (mem_syncs self.new ≡ mem_syncs self.old) }
        ensures syncs_stay { mem_syncs self.old ≤ mem_syncs self.new }
        ensures log_bytes { mem_log_bytes self.new ≡ mem_log_bytes self.old }
        ensures cause { OnErr result (Rose (site_disk_faults self.old) (site_disk_faults self.new)) }
        ensures ends { PlainEnds result [] self.old self.new }
    {
        self.disk_calls = self.disk_calls.saturating_add(1);
        if fails(&mut self.plan, self.last_call, &self.calls, false) {
            note_failure(&mut self.calls, &mut self.disk_faults, Call::FailedSync);
            return Err(Failed);
        }
        self.calls.push_reserved(Call::Sync);
        Ok(())
    }

    fn give(&mut self, bytes: &[u8]) -> Result<(), Failed>
        ensures same { SameDisk true true mem_disk self.old self.new }
        ensures ok { OnOk result (mem_output self.new ≡ mem_output self.old ++ bytes.now) }
        ensures err { OnErr result ((n : ℕ) × (mem_output self.new ≡ mem_output self.old ++ take n bytes.now)) }
        ensures time { Elapses (mem_calls self.old) (mem_calls self.new) (mem_left_since self.old) (mem_left_since self.new)
            (Giving (mem_disk self.old) (mem_output self.old) bytes.now) }
        ensures numbers { MemSameNumbers self.old self.new }
        ensures faults { site_output_faults self.old ≤ site_output_faults self.new }
        ensures cause { OnErr result (Rose (site_output_faults self.old) (site_output_faults self.new)) }
        ensures others { site_disk_faults self.new ≡ site_disk_faults self.old }
        ensures calls { site_disk_calls self.new ≡ site_disk_calls self.old }
        ensures ends { GiveEnds result bytes.now self.old self.new }
    {
        let short = is_short(&self.output, self.output_room, bytes);
        if fails(&mut self.plan, self.last_call, &self.calls, short) {
            note_failure(&mut self.calls, &mut self.output_faults, Call::Give(0));
            return Err(Failed);
        }
        put_out(&mut self.output, bytes);
        self.calls.push_reserved(Call::Give(bytes.len() as u64));
        Ok(())
    }

    ghost all_has_reads = { λ t. t };

    ghost reads_as_image = { λ s t. after-is_image (contents s.start_log s.start_files) s.calls.items };

    ghost is_an_instant = { λ s t told le.
        left_now (contents s.start_log s.start_files) s.calls.items s.output.items t s.output_is le };

    ghost only_now = { λ s c o told left.
        left_only (at_rest (contents s.start_log s.start_files)) s.calls.items s.output.items s.output_is c o left };
}
