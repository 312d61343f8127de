// Whether files are those of a list: whether the configuration is there.
ghost use Rattle.std.specs.Prelude.{◌≡◌, IsTrue, IfOk, IfErr};
ghost use Rattle.ml_base.specs.PartErrors.{OnDamaged};
ghost use Rattle.ml_base.specs.ReadFiles.{IsReading, NamesDamaged};
ghost use Rattle.ml_config.specs.ConfigFile.{config_name};
ghost use Rattle.ml_plain.specs.Histories.{State};
ghost use Rattle.ml_plain.specs.Directory.{IsState};
ghost use Rattle.ml_list.specs.Damage.{IsNoConfig};
ghost use Rattle.ml_list.specs.Loading.{IsLoaded};

use ml_base::{Files, PartError};
use std::alloc::Global;

/// Whether the list's configuration is there. `Damaged` names its file, and comes only if that is there and holds no
/// configuration. `Fault` comes only if a read failed.
pub fn load<F: Files>(alloc: Global, files: &mut F) -> Result<Option<()>, PartError>
    ensures value { IsTrue F.tells → IfOk result (λ found. IsLoaded found (F.map files.old)) }
    ensures names { NamesDamaged ⟦<F as Files>⟧ (λ name. name ≡ config_name) (λ _. IsNoConfig (F.map files.old)) result }
    ensures sound { IsTrue F.tells → (q : State) → IsState (F.map files.old) q → IfErr result (λ e. OnDamaged e (λ _. ⊥)) }
    ensures reads { IsReading ⟦<F as Files>⟧ files.old files.new result }
{
    match ml_config::load(alloc, files) {
        Ok(Some(_)) => Ok(Some(())),
        Ok(None) => Ok(None),
        Err(error) => Err(error),
    }
}
