// Files in memory that tell nothing.
ghost use Rattle.std.specs.Prelude.{false};
ghost use Rattle.ml_base.specs.FilesInMemory.{map_dir, map_faults, IsMapKept};
ghost use Rattle.ml_base.specs.KeptMaps.{map_kept_self, map_kept_then};

use ml_base::{Bytes, Files, FilesError, MapFiles, Name};
use std::alloc::Global;

/// Files in memory that don't tell what they hold, as the real disk doesn't.
#[derive(Drop)]
pub struct Silent {
    pub files: MapFiles,
}

impl Files for Silent {
    ghost tells = { false };

    ghost map = { λ s. map_dir s.files };

    ghost faults = { λ s. map_faults s.files };

    ghost kept = { λ a b. IsMapKept a.files b.files };

    fn get(&mut self, alloc: Global, name: Name) -> Result<Option<Bytes>, FilesError> {
        self.files.get(alloc, name)
    }

    fn skip_absent(
        &mut self,
        alloc: Global,
        kind: u8,
        from: u64,
        end: u64,
    ) -> Result<u64, FilesError> {
        self.files.skip_absent(alloc, kind, from, end)
    }

    ghost kept_self = { λ s. map_kept_self s.files };

    ghost kept_then = { λ a b c one two. map_kept_then a.files b.files c.files one two };

    ghost kept_map = { λ old new told kept. kept.dir };

    ghost kept_faults = { λ old new kept. kept.faults };
}
