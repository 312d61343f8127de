// Answers about a set that rules divide.
ghost use Rattle.std.specs.Prelude.{◌≡◌, ◌≤◌, List, IsTrue, IfOk, IfErr};
ghost use Rattle.std.specs.Option.{option_map};
ghost use Rattle.ml_base.specs.PartErrors.{OnDamaged};
ghost use Rattle.ml_base.specs.ReadFiles.{IsReading, NamesDamaged};
ghost use Rattle.ml_subs.specs.Subscribers.{AreJoined, AreSubscribers, IsBucketName, IsBadBucket};
ghost use Rattle.ml_subs.specs.declared.member_list.Member.{Member};
ghost use Rattle.ml_split_questions.specs.Texts.{IsMoved, division_text, moving_text};
ghost use Rattle.ml_split_questions.specs.Texts as spec;

use crate::write_moves;
use ml_base::{Bytes, Files, PartError, Set};
use ml_split::{Part, Parts, Rules, split, write_parts};
use ml_subs::all;
use std::alloc::Global;

/// The lines of the parts into which rules divide a set: for every part its name and how many members it has, and then every member. It reads
/// the set's 53 files.
pub fn division<F: Files>(
    alloc: Global,
    files: &mut F,
    set: Set,
    rules: &Rules,
) -> Result<Bytes, PartError>
    ensures value { IsTrue F.tells → IfOk result (λ text. (ms : List Member) → AreSubscribers (F.map files.old) set ms → text ≡ division_text rules.now ms) }
    ensures union { IsTrue F.tells → IfOk result (λ text. (ms : List Member) × AreJoined (F.map files.old) set ms × (text ≡ division_text rules.now ms)) }
    ensures names { NamesDamaged ⟦<F as Files>⟧ (IsBucketName set) (IsBadBucket (F.map files.old) set) result }
    ensures sound { IsTrue F.tells → (ms : List Member) → AreSubscribers (F.map files.old) set ms → IfErr result (λ e. OnDamaged e (λ _. ⊥)) }
    ensures reads { IsReading ⟦<F as Files>⟧ files.old files.new result }
{
    let members = all(alloc, files, set)?;
    let parts = split(alloc, rules, &members)?;
    Ok(write_parts(alloc, &parts)?)
}

// The part of a name, if there is one.
fn part_under<'a>(parts: &'a Parts, name: &[u8]) -> Option<&'a Part>
    ensures { option_map (λ part. part.now) result ≡ spec.part_under name.now parts.entry.now }
{
    parts
        .as_slice()
        .iter()
        .find(|part| part.name.as_slice() == name)
}

/// The stream that moves the part of a name into the set (`into`) or out of it, numbered from `first` on, or None if no part has the name. `now`
/// is in seconds since 1970. It reads the set's 53 files.
pub fn moving<F: Files>(
    alloc: Global,
    files: &mut F,
    set: Set,
    rules: &Rules,
    name: &[u8],
    into: bool,
    first: u64,
    now: u64,
) -> Result<Option<Bytes>, PartError>
    requires { first ≤ 999_999_900_000 }
    ensures value { IsTrue F.tells → IfOk result (λ text. (ms : List Member) → AreSubscribers (F.map files.old) set ms → text ≡ moving_text rules.now ms name.now set into first now) }
    ensures union { IsTrue F.tells → IfOk result (λ text. (ms : List Member) × AreJoined (F.map files.old) set ms × IsMoved rules.now ms name.now set into first now text) }
    ensures names { NamesDamaged ⟦<F as Files>⟧ (IsBucketName set) (IsBadBucket (F.map files.old) set) result }
    ensures sound { IsTrue F.tells → (ms : List Member) → AreSubscribers (F.map files.old) set ms → IfErr result (λ e. OnDamaged e (λ _. ⊥)) }
    ensures reads { IsReading ⟦<F as Files>⟧ files.old files.new result }
{
    let members = all(alloc, files, set)?;
    let parts = split(alloc, rules, &members)?;
    let Some(part) = part_under(&parts, name) else {
        return Ok(None);
    };
    Ok(Some(write_moves(alloc, part, set, into, first, now)?))
}
