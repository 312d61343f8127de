// The files that calls go over.
ghost use Rattle.std.specs.Prelude.{◌≤◌, false};
ghost use Rattle.std.proofs.Math.Nat.{le_refl, le_trans};
ghost use Rattle.ml_base.specs.FilesInMemory.{dir_of};
ghost use Rattle.ml_site.specs.MemSites.{site_disk_faults};

use ml_base::{Bytes, Files, FilesError, Name, next_place};
use ml_site::{MemSite, Site, SiteError};
use std::alloc::Global;
use trials_lists::Texts;

/// The files of a site in memory. They don't tell what they hold, as those of the real disk don't. Each read is a call of the site.
#[derive(Drop)]
pub struct OnSite {
    pub site: MemSite,
    pub files: Texts,
}

impl Files for OnSite {
    ghost tells = { false };

    ghost map = { λ s. dir_of s.files };

    ghost faults = { λ s. site_disk_faults s.site };

    ghost kept = { λ a b. site_disk_faults a.site ≤ site_disk_faults b.site };

    fn get(&mut self, alloc: Global, name: Name) -> Result<Option<Bytes>, FilesError> {
        match self.site.read_file(alloc, name) {
            Ok(found) => Ok(found),
            Err(SiteError::Failed) => Err(FilesError::Fault),
            Err(SiteError::Memory) => Err(FilesError::Memory),
        }
    }

    fn skip_absent(
        &mut self,
        _alloc: Global,
        kind: u8,
        from: u64,
        end: u64,
    ) -> Result<u64, FilesError> {
        Ok(next_place(&self.files, kind, from, end))
    }

    ghost kept_self = { λ s. le_refl (site_disk_faults s.site) };

    ghost kept_then = { λ a b c one two. le_trans one two };

    ghost kept_map = { λ old new told kept. absurd (cc told) };

    ghost kept_faults = { λ old new kept. kept };
}
