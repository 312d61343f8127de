// A timed run: its three parts, one after another, and its reply.
ghost use Rattle.std.specs.Prelude.{◌≡◌, ◌<◌, ◌-◌, [], true, IsTrue, IfOk, IfErr};
ghost use Rattle.ml_base.specs.Dir.{Dir, with_puts};
ghost use Rattle.ml_base.specs.Layers.{files_below, puts_over};
ghost use Rattle.ml_base.specs.declared.part_error.PartError.TheVariants.{Damaged};
ghost use Rattle.ml_base.specs.PartErrors.{OnDamaged};
ghost use Rattle.ml_base.specs.Ranges.{IsMoment};
ghost use Rattle.ml_config.specs.Configuration.{IsConfig};
ghost use Rattle.ml_plain.specs.Answers as answers;
ghost use Rattle.ml_plain.specs.Directory.{IsList};
ghost use Rattle.ml_plain.specs.KeptFiles.{may_be_kept};
ghost use Rattle.ml_plain.specs.Plain.{Plain};
ghost use Rattle.ml_plain.specs.Timing as spec;
ghost use Rattle.ml_queue.specs.Answers.{ids_name};
ghost use Rattle.ml_acts.specs.Acting.{AnswersTimed as AnswersAct};
ghost use Rattle.ml_acts.specs.Asked.{IsDamagedOf, Undigested};
ghost use Rattle.ml_acts.specs.Doing.{Alike, DoesList, HasIdsUpTo, HasRoom};
ghost use Rattle.ml_acts.specs.Growing.{is_of_time};
ghost use Rattle.ml_timed.specs.Found.{FoundInRun};
ghost use Rattle.ml_timed.specs.Digesting.{AgreesIfRead, IsDamagedInRun};
ghost use Rattle.ml_timed.specs.Reads.{is_of_timed, is_seen_in_timed};
ghost use Rattle.ml_timed.specs.Parts.{AnswersPart};

use crate::digests::make_digest;
use crate::follow_ups::follow_all_up;
use crate::returned_posts::give_old_back;
use ml_acts::Moment;
use ml_base::{Files, Layer, Name, PartError, Txn};
use ml_config::Config;
use ml_plain::Reply;
use ml_queue::next_id;
use std::alloc::Global;

// The largest number in a reply.
const LAST_NUMBER: u64 = 1_000_000_000_000_000;

/// A timed run: posts that were held for long go back to their senders, a digest is made if one is due and the list has digests, and bounces
/// are followed up, in this order. The reply is `timed` with the number of queue entries made. `now` is in seconds since 1970. The files
/// come back, whatever it answers.
pub fn timed<F: Files>(
    alloc: Global,
    files: F,
    config: &Config,
    now: u64,
) -> (F, Result<(Txn, Reply), PartError>)
    requires moment { IsMoment now }
    requires config { IsConfig config.now }
    requires room { IsTrue F.tells → HasRoom (F.map files) }
    ensures value { IsTrue F.tells → IfOk result.1 (λ done. (p : Plain) → IsList (F.map files) p → p.config ≡ config.now → DoesList (F.map files) done (spec.timed now p)) }
    ensures apart { IsTrue F.tells → IfOk result.1 (λ done. (dir : Dir) (p : Plain) → Alike (is_seen_in_timed config.now.flags.d) (F.map files) dir → IsList dir p → p.config ≡ config.now → DoesList dir done (spec.timed now p)) }
    ensures spared { IsTrue F.tells → (dir : Dir) (p : Plain) → Alike (is_seen_in_timed config.now.flags.d) (F.map files) dir → IsList dir p → IfErr result.1 (λ e. OnDamaged e (λ _. ⊥)) }
    ensures agrees { IsTrue F.tells → IfOk result.1 (λ _. config.now.flags.d ≡ true → AgreesIfRead (F.map files)) }
    ensures found { IsTrue F.tells → IfOk result.1 (λ done. FoundInRun (F.map files) [] done.0) }
    ensures act { AnswersAct ⟦<F as Files>⟧ (λ name. is_of_timed config.now.flags.d name ≡ true) (IsDamagedOf (F.map files) Undigested) files result.0 result.1 }
{
    let mut layer = Layer::new(files, Txn::new(alloc));
    let answer = run(alloc, &mut layer, config, Moment { seconds: now });
    let (files, txn) = layer.parts();
    match answer {
        Ok(reply) => (files, Ok((txn, reply))),
        Err(error) => (files, Err(error)),
    }
}

// Does the run and answers its reply. Afterwards its puts are laid over the files.
fn run<F: Files>(
    alloc: Global,
    files: &mut Layer<F>,
    config: &Config,
    now: Moment,
) -> Result<Reply, PartError>
    requires room { IsTrue F.tells → HasIdsUpTo (with_puts (F.map (files_below files.now)) (puts_over files.now)) 999_999_999_997_000 }
    ensures list { IsTrue F.tells → IfOk result (λ _. (dir : Dir) (p : Plain) → Alike (is_seen_in_timed config.now.flags.d) (F.map (files_below files.old)) dir → IsList (with_puts dir (puts_over files.old)) p → p.config ≡ config.now → IsList (with_puts dir (puts_over files.new)) (spec.after_timed now.seconds p)) }
    ensures reply { IsTrue F.tells → IfOk result (λ reply. (dir : Dir) (p : Plain) → Alike (is_seen_in_timed config.now.flags.d) (F.map (files_below files.old)) dir → IsList (with_puts dir (puts_over files.old)) p → p.config ≡ config.now → reply ≡ answers.timed ((spec.after_timed now.seconds p).queue.next - p.queue.next)) }
    ensures kept { IfOk result (λ reply. may_be_kept reply ≡ true) }
    ensures agrees { IsTrue F.tells → IfOk result (λ _. config.now.flags.d ≡ true → AgreesIfRead (with_puts (F.map (files_below files.old)) (puts_over files.old))) }
    ensures found { IsTrue F.tells → IfOk result (λ _. FoundInRun (F.map (files_below files.old)) (puts_over files.old) (puts_over files.new)) }
    ensures part { AnswersPart is_of_time ⟦<F as Files>⟧ (λ name. is_of_timed config.now.flags.d name ≡ true) IsDamagedInRun files.old files.new result }
{
    let before = next_id(alloc, files)?;
    all_parts(alloc, files, config, now)?;
    let after = next_id(alloc, files)?;
    reply_of_run(before, after)
}

// Does the three parts, in their order.
fn all_parts<F: Files>(
    alloc: Global,
    files: &mut Layer<F>,
    config: &Config,
    now: Moment,
) -> Result<(), PartError>
    requires room { IsTrue F.tells → HasIdsUpTo (with_puts (F.map (files_below files.now)) (puts_over files.now)) 999_999_999_997_000 }
    ensures apart { IsTrue F.tells → IfOk result (λ _. (dir : Dir) (p : Plain) → Alike (is_seen_in_timed config.now.flags.d) (F.map (files_below files.old)) dir → IsList (with_puts dir (puts_over files.old)) p → p.config ≡ config.now → IsList (with_puts dir (puts_over files.new)) (spec.after_timed now.seconds p)) }
    ensures agrees { IsTrue F.tells → IfOk result (λ _. config.now.flags.d ≡ true → AgreesIfRead (with_puts (F.map (files_below files.old)) (puts_over files.old))) }
    ensures room { IsTrue F.tells → IfOk result (λ _. HasIdsUpTo (with_puts (F.map (files_below files.old)) (puts_over files.new)) 1_000_000_000_000_001) }
    ensures found { IsTrue F.tells → IfOk result (λ _. FoundInRun (F.map (files_below files.old)) (puts_over files.old) (puts_over files.new)) }
    ensures part { AnswersPart is_of_time ⟦<F as Files>⟧ (λ name. is_of_timed config.now.flags.d name ≡ true) IsDamagedInRun files.old files.new result }
{
    give_old_back(alloc, files, config, now)?;
    make_digest(alloc, files, config, now)?;
    follow_all_up(alloc, files, config, now)
}

// The reply of a run, by the next ids before it and after it. No run makes more entries than a reply can count, so a counter of ids that
// says so was changed by something else.
fn reply_of_run(before: u64, after: u64) -> Result<Reply, PartError>
    ensures kept { IfOk result (λ reply. may_be_kept reply ≡ true) }
    ensures value { IfOk result (λ reply. reply ≡ answers.timed (after - before)) }
    ensures error { IfErr result (λ e. (e ≡ Damaged ids_name) × (1_000_000_000_000_000 < after - before)) }
{
    let number = after.saturating_sub(before);
    if number > LAST_NUMBER {
        return Err(PartError::Damaged(Name::IDS));
    }
    Ok(Reply::timed(number))
}
