// How the configuration is read from the list's files.
ghost use Rattle.std.specs.Prelude.{◌≡◌, ◌≤◌, IsTrue, IfOk, IfErr, IfSome, IsErrOf, Some, Option};
ghost use Rattle.ml_base.specs.declared.part_error.PartError.TheVariants.{Fault};
ghost use Rattle.ml_base.specs.PartErrors.{OnDamaged};
ghost use Rattle.ml_base.specs.ReadFiles.{IsReading, NamesDamaged};
ghost use Rattle.ml_config.specs.ConfigFile.{IsConfigFile, IsDamagedConfig, IsLoaded, config_name};
ghost use Rattle.ml_config.specs.Configuration.{IsConfig};
ghost use Rattle.ml_config.specs.declared.configuration.Config.{Config};

use crate::{Config, read_config};
use ml_base::{Bytes, Files, Name, PartError};
use std::alloc::Global;

/// The configuration that the list's files hold, or None exactly if its file is absent. `Damaged` names that file, and
/// comes only if it is there and holds no configuration. `Fault` comes only if a read failed.
pub fn load<F: Files>(alloc: Global, files: &mut F) -> Result<Option<Config>, PartError>
    ensures read { IsTrue F.tells → (c : Config) → IsConfigFile (F.map files.old config_name) c → IfOk result (λ found. found ≡ Some c) }
    ensures value { IsTrue F.tells → IfOk result (IsLoaded (F.map files.old config_name)) }
    ensures range { IfOk result (λ found. IfSome found IsConfig) }
    ensures names { NamesDamaged ⟦<F as Files>⟧ (λ name. name ≡ config_name) (λ _. IsDamagedConfig (F.map files.old config_name)) result }
    ensures sound { IsTrue F.tells → (c : Config) → IsConfigFile (F.map files.old config_name) c → IfErr result (λ e. OnDamaged e (λ _. ⊥)) }
    ensures reads { IsReading ⟦<F as Files>⟧ files.old files.new result }
{
    let file = files.get(alloc, Name::CONFIG)?;
    loaded(alloc, file)
}

// The configuration of its file, or None if the file is absent.
fn loaded(alloc: Global, file: Option<Bytes>) -> Result<Option<Config>, PartError>
    ensures read { (c : Config) → IsConfigFile file c → IfOk result (λ found. found ≡ Some c) }
    ensures value { IfOk result (IsLoaded file) }
    ensures range { IfOk result (λ found. IfSome found IsConfig) }
    ensures named { IfErr result (λ e. OnDamaged e (λ name. name ≡ config_name)) }
    ensures damaged { IfErr result (λ e. OnDamaged e (λ _. IsDamagedConfig file)) }
    ensures sound { (c : Config) → IsConfigFile file c → IfErr result (λ e. OnDamaged e (λ _. ⊥)) }
    ensures no_fault { ¬ IsErrOf result Fault }
{
    let Some(bytes) = file else {
        return Ok(None);
    };
    match read_config(alloc, bytes.as_slice())? {
        Some(config) => Ok(Some(config)),
        None => Err(PartError::Damaged(Name::CONFIG)),
    }
}
