// Files in memory for tests, whose calls fail when they are told to.
ghost use Rattle.std.specs.Prelude.{◌≡◌, ◌≤◌, ◌↔◌, true, IsTrue, IfOk, IsErrOf, Contains};
ghost use Rattle.ml_base.specs.Faults.{Rose, next_call};
ghost use Rattle.ml_base.specs.FilesInMemory.{dir_of, map_dir, map_faults, map_failing, map_made, faults_after, IsMapKept};
ghost use Rattle.ml_base.specs.Name.{is_file};
ghost use Rattle.ml_base.specs.declared.files.FilesError.TheVariants.{Fault};
ghost use Rattle.ml_base.specs.KeptMaps.{map_kept_self, map_kept_then};

use crate::{Bytes, FaultPlan, Files, FilesError, Name, Numbers, copied, next_place};
use std::alloc::Global;
use std::collections::BTreeMap;

/// Files in memory. They tell their map.
#[derive(Drop)]
pub struct MapFiles {
    files: BTreeMap<Name, Bytes>,
    plan: FaultPlan,
    faults: u64,
}

impl MapFiles {
    /// Files of these bytes. `fail` names the calls of `get`, counted from 1, that are to fail. It takes no memory.
    pub fn new(files: BTreeMap<Name, Bytes>, fail: Numbers) -> MapFiles
        ensures map { map_dir result ≡ dir_of files }
        ensures faults { map_faults result ≡ 0 }
        ensures failing { map_failing result ≡ fail }
        ensures made { map_made result ≡ 0 }
    {
        MapFiles {
            files,
            plan: FaultPlan::new(fail),
            faults: 0,
        }
    }
}

impl Files for MapFiles {
    ghost tells = { true };

    ghost map = { map_dir };

    ghost faults = { map_faults };

    ghost kept = { IsMapKept };

    /// The bytes of a file, or None if it is absent. It fails exactly if the number of this call is among those that are to fail.
    fn get(&mut self, alloc: Global, name: Name) -> Result<Option<Bytes>, FilesError>
        requires { IsTrue (is_file name) }
        ensures value { IfOk result (λ found. found ≡ map_dir self.old name) }
        ensures kept { IsMapKept self.old self.new }
        ensures later { map_faults self.old ≤ map_faults self.new }
        ensures cause { IsErrOf result Fault → Rose (map_faults self.old) (map_faults self.new) }
        ensures named { IsErrOf result Fault ↔ Contains (map_failing self.old) (map_made self.new) }
        ensures made { map_made self.new ≡ next_call (map_made self.old) }
        ensures counted { map_faults self.new ≡ faults_after (map_faults self.old) result }
    {
        if self.plan.fails() {
            self.faults = self.faults.saturating_add(1);
            return Err(FilesError::Fault);
        }
        Ok(copied(alloc, self.files.get(&name))?)
    }

    /// The first place of a kind that has a file. It never fails, and isn't counted as a call.
    fn skip_absent(
        &mut self,
        _alloc: Global,
        kind: u8,
        from: u64,
        end: u64,
    ) -> Result<u64, FilesError> {
        Ok(next_place(&self.files, kind, from, end))
    }

    ghost kept_self = { map_kept_self };

    ghost kept_then = { map_kept_then };

    ghost kept_map = { λ old new told kept. kept.dir };

    ghost kept_faults = { λ old new kept. kept.faults };
}
