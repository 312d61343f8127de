// The folder of a list and the standard output, as a site.
ghost use Rattle.std.specs.Prelude.{◌≡◌, ◌≤◌, ◌+◌, [], false};
ghost use Rattle.ml_site.specs.Disk.{nothing, untold};
ghost use Rattle.ml_base.specs.Faults.{Rose, next_call};
ghost use Rattle.ml_site.specs.declared.site.SiteError.TheVariants.{Failed as FailedCall};

use crate::folder::Folder;
use ml_base::{Bytes, Name};
use ml_site::{Failed, Site, SiteError};
use std::alloc::{AllocError, Global};
use std::io;
use std::io::ErrorKind;

/// The folder of a list, and the standard output.
#[derive(Drop)]
pub struct RealSite<'a> {
    folder: Folder<'a>,
    disk_calls: u64,
    disk_faults: u64,
    output_faults: u64,
}

impl<'a> RealSite<'a> {
    /// The site of the list in this folder. Its first call on the disk makes the folder, with those above it, and takes
    /// the lock; if it can't, that call fails, and the next one tries again. Nothing is done yet, and no memory taken.
    pub fn new(rt: &'a HostRuntime, dir: &'a str) -> Self
        ensures calls { result.disk_calls ≡ 0 }
        ensures disk { result.disk_faults ≡ 0 }
        ensures output { result.output_faults ≡ 0 }
    {
        RealSite {
            folder: Folder::new(rt, dir),
            disk_calls: 0,
            disk_faults: 0,
            output_faults: 0,
        }
    }

    /// Takes the memory that the first call on the disk needs to begin: if that is a sync, it has no way to say that memory ran out.
    pub fn take_room(&mut self, alloc: Global) -> Result<(), AllocError>
        ensures calls { self.new.disk_calls ≡ self.old.disk_calls }
        ensures disk { self.new.disk_faults ≡ self.old.disk_faults }
        ensures output { self.new.output_faults ≡ self.old.output_faults }
    {
        self.folder.take_room(alloc)
    }

    /// How many calls on the disk have failed, as far as that can be counted in 64 bits.
    pub fn failures(&self) -> u64
        ensures { result ≡ self.now.disk_faults }
    {
        self.disk_faults
    }
}

// Counts a call on the disk.
fn count_call(calls: &mut u64)
    ensures counted { calls.new ≡ next_call calls.old }
    ensures later { calls.old ≤ calls.new }
    ensures once { calls.new ≤ calls.old + 1 }
{
    *calls = calls.saturating_add(1);
}

// Counts a fault, and gives the error that stands for it.
fn count_failure(faults: &mut u64) -> Failed
    ensures later { faults.old ≤ faults.new }
    ensures counted { Rose faults.old faults.new }
{
    *faults = faults.saturating_add(1);
    Failed
}

// The error of a failed call on the disk. It counts a fault, unless the call failed only for lack of memory.
fn site_error(error: io::Error, faults: &mut u64) -> SiteError
    ensures later { faults.old ≤ faults.new }
    ensures cause { result ≡ FailedCall → Rose faults.old faults.new }
{
    if error.kind() == ErrorKind::OutOfMemory {
        return SiteError::Memory;
    }
    count_failure(faults);
    SiteError::Failed
}

impl<'a> Site for RealSite<'a> {
    ghost tells_reads = { false };

    ghost tells_all = { false };

    ghost disk = { λ _. nothing };

    ghost output = { λ _. [] };

    ghost instant = { λ _. 0 };

    ghost left_since = { λ _ _ _ _. Unit {0} };

    ghost syncs = { λ _. 0 };

    ghost log_bytes = { λ _. 0 };

    ghost disk_calls = { λ s. s.disk_calls };

    ghost disk_faults = { λ s. s.disk_faults };

    ghost output_faults = { λ s. s.output_faults };

    fn read_log(&mut self, alloc: Global) -> Result<Bytes, SiteError> {
        count_call(&mut self.disk_calls);
        match self.folder.read_log(alloc) {
            Ok(bytes) => Ok(bytes),
            Err(error) => Err(site_error(error, &mut self.disk_faults)),
        }
    }

    fn write_log(&mut self, _alloc: Global, at: u64, bytes: &[u8]) -> Result<(), SiteError> {
        count_call(&mut self.disk_calls);
        match self.folder.write_log(at, bytes) {
            Ok(()) => Ok(()),
            Err(error) => Err(site_error(error, &mut self.disk_faults)),
        }
    }

    fn cut_log(&mut self, len: u64) -> Result<(), Failed> {
        count_call(&mut self.disk_calls);
        match self.folder.cut_log(len) {
            Ok(()) => Ok(()),
            Err(_) => Err(count_failure(&mut self.disk_faults)),
        }
    }

    fn read_file(&mut self, alloc: Global, name: Name) -> Result<Option<Bytes>, SiteError> {
        count_call(&mut self.disk_calls);
        match self.folder.read(alloc, name) {
            Ok(found) => Ok(found),
            Err(error) => Err(site_error(error, &mut self.disk_faults)),
        }
    }

    fn has_file(&mut self, _alloc: Global, name: Name) -> Result<bool, SiteError> {
        count_call(&mut self.disk_calls);
        match self.folder.has(name) {
            Ok(there) => Ok(there),
            Err(error) => Err(site_error(error, &mut self.disk_faults)),
        }
    }

    fn skip_files(
        &mut self,
        _alloc: Global,
        kind: u8,
        from: u64,
        end: u64,
    ) -> Result<u64, SiteError> {
        count_call(&mut self.disk_calls);
        match self.folder.skip(kind, from, end) {
            Ok(at) => Ok(at),
            Err(error) => Err(site_error(error, &mut self.disk_faults)),
        }
    }

    fn write_file(&mut self, _alloc: Global, name: Name, bytes: &[u8]) -> Result<(), SiteError> {
        count_call(&mut self.disk_calls);
        match self.folder.write(name, bytes) {
            Ok(()) => Ok(()),
            Err(error) => Err(site_error(error, &mut self.disk_faults)),
        }
    }

    fn remove_file(&mut self, _alloc: Global, name: Name) -> Result<(), SiteError> {
        count_call(&mut self.disk_calls);
        match self.folder.remove(name) {
            Ok(()) => Ok(()),
            Err(error) => Err(site_error(error, &mut self.disk_faults)),
        }
    }

    fn sync(&mut self) -> Result<(), Failed> {
        count_call(&mut self.disk_calls);
        match self.folder.sync() {
            Ok(()) => Ok(()),
            Err(_) => Err(count_failure(&mut self.disk_faults)),
        }
    }

    fn give(&mut self, bytes: &[u8]) -> Result<(), Failed> {
        match self.folder.give(bytes) {
            Ok(()) => Ok(()),
            Err(_) => Err(count_failure(&mut self.output_faults)),
        }
    }

    ghost all_has_reads = { λ t. t };

    ghost reads_as_image = { λ s t. untold t };

    ghost is_an_instant = { λ s t told le. untold told };

    ghost only_now = { λ s c o told left. untold told };
}
