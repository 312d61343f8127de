// Files as they read under a configuration: with this configuration in place of the one that they have.
ghost use Rattle.std.specs.Prelude.{◌≡◌, ◌≤◌, IsTrue, IfOk, IsErrOf, is_some};
ghost use Rattle.ml_base.specs.Absent.{NoneOf};
ghost use Rattle.ml_base.specs.Faults.{Rose};
ghost use Rattle.ml_base.specs.Name.{is_file};
ghost use Rattle.ml_base.specs.declared.files.FilesError.TheVariants.{Fault};
ghost use Rattle.ml_acts.specs.Configured.{with_config};
ghost use Rattle.std.proofs.Common.{refl, ap, ◌∙◌};

use ml_base::{Bytes, Files, FilesError, Name};
use ml_config::{Config, write_config};
use std::alloc::Global;

/// Files with a configuration in place of theirs, whatever that is. What an act does under a configuration is said of these files.
#[derive(Drop)]
pub struct Configured<'a, F: Files> {
    pub files: &'a mut F,
    pub config: &'a Config,
}

impl<F: Files> Files for Configured<'_, F> {
    ghost tells = { F.tells };

    ghost map = { λ c. with_config c.config.now (F.map c.files.now) };

    ghost faults = { λ c. F.faults c.files.now };

    ghost kept = { λ a b. F.kept a.files.now b.files.now × (b.config.now ≡ a.config.now) × (b.files.ghost_name ≡ a.files.ghost_name) };

    /// The bytes of a file, or None if it is absent. The configuration isn't read: its file has the bytes that spell the one at hand.
    fn get(&mut self, alloc: Global, name: Name) -> Result<Option<Bytes>, FilesError>
        requires { IsTrue (is_file name) }
        ensures value { IsTrue F.tells → IfOk result (λ found. found ≡ with_config self.old.config.now (F.map self.old.files.now) name) }
        ensures kept { F.kept self.old.files.now self.new.files.now × (self.new.config.now ≡ self.old.config.now) × (self.new.files.ghost_name ≡ self.old.files.ghost_name) }
        ensures later { F.faults self.old.files.now ≤ F.faults self.new.files.now }
        ensures cause { IsErrOf result Fault → Rose (F.faults self.old.files.now) (F.faults self.new.files.now) }
    {
        if name == Name::CONFIG {
            return Ok(Some(write_config(alloc, self.config)?));
        }
        self.files.get(alloc, name)
    }

    /// Whether a file is there. The configuration's always is.
    fn has(&mut self, alloc: Global, name: Name) -> Result<bool, FilesError>
        requires { IsTrue (is_file name) }
        ensures value { IsTrue F.tells → IfOk result (λ there. there ≡ is_some (with_config self.old.config.now (F.map self.old.files.now) name)) }
        ensures kept { F.kept self.old.files.now self.new.files.now × (self.new.config.now ≡ self.old.config.now) × (self.new.files.ghost_name ≡ self.old.files.ghost_name) }
        ensures later { F.faults self.old.files.now ≤ F.faults self.new.files.now }
        ensures cause { IsErrOf result Fault → Rose (F.faults self.old.files.now) (F.faults self.new.files.now) }
    {
        if name == Name::CONFIG {
            return Ok(true);
        }
        self.files.has(alloc, name)
    }

    /// A place at which a walk over the files of a kind may go on. Nothing of the configuration's kind is skipped.
    fn skip_absent(
        &mut self,
        alloc: Global,
        kind: u8,
        from: u64,
        end: u64,
    ) -> Result<u64, FilesError>
        requires { from ≤ end }
        ensures range { IfOk result (λ at. (from ≤ at) × (at ≤ end)) }
        ensures value { IsTrue F.tells → IfOk result (NoneOf (with_config self.old.config.now (F.map self.old.files.now)) kind from) }
        ensures kept { F.kept self.old.files.now self.new.files.now × (self.new.config.now ≡ self.old.config.now) × (self.new.files.ghost_name ≡ self.old.files.ghost_name) }
        ensures later { F.faults self.old.files.now ≤ F.faults self.new.files.now }
        ensures cause { IsErrOf result Fault → Rose (F.faults self.old.files.now) (F.faults self.new.files.now) }
    {
        if kind == Name::CONFIG.kind {
            return Ok(from);
        }
        self.files.skip_absent(alloc, kind, from, end)
    }

    ghost kept_self = { λ c. (F.kept_self c.files.now, refl, refl) };

    ghost kept_then = { λ a b c first then. (F.kept_then a.files.now b.files.now c.files.now first.0 then.0, then.1 ∙ first.1, then.2 ∙ first.2) };

    ghost kept_map = { λ a b told kept. ap (λ c. with_config c (F.map b.files.now)) kept.1 ∙ ap (with_config a.config.now) (F.kept_map a.files.now b.files.now told kept.0) };

    ghost kept_faults = { λ a b kept. F.kept_faults a.files.now b.files.now kept.0 };
}
