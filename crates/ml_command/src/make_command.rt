// The command `make`.
ghost use Rattle.ml_config.specs.Configuration.{IsConfig};
ghost use Rattle.ml_command.specs.Making.{MakesList};

use ml_config::Config;
use ml_run::make;
use ml_site::Site;
use std::alloc::Global;

/// Makes a list of a configuration and a key.
pub(crate) fn make_list<S: Site>(alloc: Global, config: &Config, key: &[u8; 32], site: S) -> (u8, S)
    requires { IsConfig config.now }
    ensures { MakesList ⟦<S as Site>⟧ config.now key.now site result.1 result.0 }
{
    make(alloc, config, key, site)
}
