// A timed run of a list: it is refused if ids or tickets are worn out.
ghost use Rattle.ml_list.specs.Found.{FoundByCounters, FoundToRun};
ghost use Rattle.ml_timed.specs.Found.{FoundInRun};
ghost use Rattle.std.specs.Prelude.{◌≡◌, [], true, IsTrue, IfErr, IfOk};
ghost use Rattle.ml_base.specs.Dir.{Dir};
ghost use Rattle.ml_base.specs.PartErrors.{OnDamaged};
ghost use Rattle.ml_base.specs.Ranges.{IsMoment};
ghost use Rattle.ml_config.specs.ConfigFile.{IsConfigFile, config_name};
ghost use Rattle.ml_config.specs.Configuration.{IsConfig};
ghost use Rattle.ml_plain.specs.Directory.{IsList};
ghost use Rattle.ml_plain.specs.Plain.{Plain};
ghost use Rattle.ml_plain.specs.Timing as spec;
ghost use Rattle.ml_acts.specs.Asked.{IsDamagedOf, Undigested};
ghost use Rattle.ml_acts.specs.Doing.{Alike, DoesList};
ghost use Rattle.ml_timed.specs.Reads.{is_of_timed, is_seen_in_timed};
ghost use Rattle.ml_acts.specs.Acting.{AnswersTimed as AnswersAct};
ghost use Rattle.ml_list.specs.Asked.{IsTimed};
ghost use Rattle.ml_list.specs.Looked.{AlikeForRun};

use crate::deliveries::configuration;
use ml_acts::{Moment, is_worn};
use ml_base::{Files, PartError, Txn};
use ml_config::Config;
use ml_plain::Reply;
use ml_timed::timed;
use std::alloc::Global;

// What a timed run does: the puts, and the reply. If ids or tickets are worn out it is `full`.
//
// `Damaged` names a file that was read and is outside its grammar, or names what isn't there, in the files as the run found them: what it
// writes itself is in its grammar. In the archive it is the number of posts, or is damaged for a post that is in no digest yet. On a list
// without digests it isn't one that is read only for a digest. `Fault` comes only if a read failed. The caller has seen that the
// configuration is there; if it isn't, the error is `Memory`. `now` is in seconds since 1970. The files come back, whatever it answers.
pub(crate) fn run_timed<F: Files>(
    alloc: Global,
    files: F,
    now: u64,
) -> (F, Result<(Txn, Reply), PartError>)
    requires { IsMoment now }
    ensures value { IsTrue F.tells → IfOk result.1 (λ done. (dir : Dir) (p : Plain) → AlikeForRun (F.map files) dir → IsList dir p → DoesList dir done (spec.timed now p)) }
    ensures sound { IsTrue F.tells → (dir : Dir) (p : Plain) → AlikeForRun (F.map files) dir → IsList dir p → IfErr result.1 (λ e. OnDamaged e (λ _. ⊥)) }
    ensures found { IsTrue F.tells → IfOk result.1 (FoundToRun (F.map files)) }
    ensures act { AnswersAct ⟦<F as Files>⟧ (λ name. is_of_timed true name ≡ true) (IsTimed (F.map files)) files result.0 result.1 }
{
    let mut files = files;
    match configuration(alloc, &mut files) {
        Ok(config) => run_unless_worn(alloc, files, &config, Moment { seconds: now }),
        Err(error) => (files, Err(error)),
    }
}

// Sees whether ids and tickets are left, and goes on if they are.
fn run_unless_worn<F: Files>(
    alloc: Global,
    files: F,
    config: &Config,
    now: Moment,
) -> (F, Result<(Txn, Reply), PartError>)
    requires config { IsConfig config.now }
    ensures value { IsTrue F.tells → IfOk result.1 (λ done. (dir : Dir) (p : Plain) → Alike (is_seen_in_timed config.now.flags.d) (F.map files) dir → IsList dir p → p.config ≡ config.now → DoesList dir done (spec.timed now.seconds p)) }
    ensures sound { IsTrue F.tells → (dir : Dir) (p : Plain) → Alike (is_seen_in_timed config.now.flags.d) (F.map files) dir → IsList dir p → IfErr result.1 (λ e. OnDamaged e (λ _. ⊥)) }
    ensures found { IsTrue F.tells → IfOk result.1 (FoundByCounters (F.map files) (λ d. FoundInRun (F.map files) [] d.0)) }
    ensures act { AnswersAct ⟦<F as Files>⟧ (λ name. is_of_timed config.now.flags.d name ≡ true) (IsDamagedOf (F.map files) Undigested) files result.0 result.1 }
{
    let mut files = files;
    match is_worn(alloc, &mut files) {
        Ok(true) => (files, Ok((Txn::new(alloc), Reply::plain(Reply::FULL)))),
        Ok(false) => timed(alloc, files, config, now.seconds),
        Err(error) => (files, Err(error)),
    }
}
