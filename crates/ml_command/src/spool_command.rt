// The command `spool`.
ghost use Rattle.std.specs.Prelude.{◌≡◌};
ghost use Rattle.ml_command.specs.Spooling.{spool_status, Spools};

use ml_run::run;
use ml_site::{Site, Source};
use std::alloc::Global;

/// Answers the items of the input, at most this many.
pub(crate) fn spool<I: Source, S: Site>(
    alloc: Global,
    limit: u64,
    input: &mut I,
    site: S,
) -> (u8, S)
    ensures { Spools ⟦<I as Source>⟧ ⟦<S as Site>⟧ limit input.old input.new site result.1 result.0 }
{
    let (ending, site) = run(alloc, limit, input, site);
    (exit_status(ending.status), site)
}

// The status of `spool`: only the line of an item says that it was refused.
fn exit_status(status: u8) -> u8
    ensures { result ≡ spool_status status }
{
    if status == 100 { 0 } else { status }
}
