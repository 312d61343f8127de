// A disk in memory that never fails and keeps no record.
ghost use Rattle.std.specs.Prelude.{◌≡◌, true, false, [], ⊤};
ghost use Rattle.ml_site.specs.Recorded.{contents, at_rest};
ghost use Rattle.ml_site.specs.Disk.{untold};

use crate::image::{copied, drop_file, set_file, spliced};
use crate::{Failed, Image, Site, SiteError};
use ml_base::{Bytes, Name};
use std::alloc::Global;
use std::collections::BTreeMap;

/// A site in memory whose calls never fail, except that memory may run out. It tells what reads give and nothing else.
/// It counts its calls on the disk but keeps no record of them, and drops what is put out.
#[derive(Drop)]
pub struct Unfailing {
    log: Bytes,
    files: BTreeMap<Name, Bytes>,
    disk_calls: u64,
}

impl Unfailing {
    ghost use Rattle.ml_site.specs.Unfailed.{unfailing_disk, unfailing_calls};

    /// A site over an image. It takes no memory.
    pub fn new(image: Image) -> Unfailing
        ensures disk { unfailing_disk result ≡ at_rest (contents image.log image.files) }
        ensures calls { unfailing_calls result ≡ 0 }
    {
        Unfailing {
            log: image.log,
            files: image.files,
            disk_calls: 0,
        }
    }
}

impl Site for Unfailing {
    ghost tells_reads = { true };

    ghost tells_all = { false };

    ghost disk = { λ s. at_rest (contents s.log s.files) };

    ghost output = { λ _. [] };

    ghost instant = { λ _. 0 };

    ghost left_since = { λ _ _ _ _. ⊤ };

    ghost syncs = { λ _. 0 };

    ghost log_bytes = { λ _. 0 };

    ghost disk_faults = { λ _. 0 };

    ghost disk_calls = { λ s. s.disk_calls };

    ghost output_faults = { λ _. 0 };

    fn read_log(&mut self, alloc: Global) -> Result<Bytes, SiteError> {
        self.disk_calls = self.disk_calls.saturating_add(1);
        Ok(Bytes::from_slice(alloc, self.log.as_slice())?)
    }

    fn write_log(&mut self, alloc: Global, at: u64, bytes: &[u8]) -> Result<(), SiteError> {
        self.disk_calls = self.disk_calls.saturating_add(1);
        self.log = spliced(alloc, self.log.as_slice(), at as usize, bytes)?;
        Ok(())
    }

    fn cut_log(&mut self, len: u64) -> Result<(), Failed> {
        self.disk_calls = self.disk_calls.saturating_add(1);
        self.log.truncate(len as usize);
        Ok(())
    }

    fn read_file(&mut self, alloc: Global, name: Name) -> Result<Option<Bytes>, SiteError> {
        self.disk_calls = self.disk_calls.saturating_add(1);
        Ok(copied(alloc, &self.files, name)?)
    }

    fn write_file(&mut self, alloc: Global, name: Name, bytes: &[u8]) -> Result<(), SiteError> {
        self.disk_calls = self.disk_calls.saturating_add(1);
        let copy = Bytes::from_slice(alloc, bytes)?;
        if !set_file(&mut self.files, name, copy) {
            return Err(SiteError::Memory);
        }
        Ok(())
    }

    fn remove_file(&mut self, _alloc: Global, name: Name) -> Result<(), SiteError> {
        self.disk_calls = self.disk_calls.saturating_add(1);
        drop_file(&mut self.files, name);
        Ok(())
    }

    fn sync(&mut self) -> Result<(), Failed> {
        self.disk_calls = self.disk_calls.saturating_add(1);
        Ok(())
    }

    fn give(&mut self, _bytes: &[u8]) -> Result<(), Failed> {
        Ok(())
    }

    ghost all_has_reads = { λ t. untold t };

    ghost reads_as_image = { λ s t. untold t };

    ghost is_an_instant = { λ s t told le. untold told };

    ghost only_now = { λ s c o told left. untold told };
}
