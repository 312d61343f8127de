// Which posts of a range one answer has.
ghost use Rattle.std.specs.Prelude.{◌≡◌, ◌<◌, ◌≤◌, ◌+◌, ◌^◌, List, IsTrue, IfOk, IfErr};
ghost use Rattle.std.specs.List.{AllByRecursion, range_with_len};
ghost use Rattle.ml_base.specs.PartErrors.{OnDamaged};
ghost use Rattle.ml_base.specs.ReadFiles.{IsReading, NamesDamaged};
ghost use Rattle.ml_filing.specs.Answers.{IsBadForRange, IsRangeByFiles, first_numbers};
ghost use Rattle.ml_filing.specs.Archive.{ArePosts};
ghost use Rattle.ml_filing.specs.Posts.{cut, in_range, numbers};
ghost use Rattle.ml_filing.specs.Reads.{IsOfRange, IsWithin};
ghost use Rattle.ml_filing.specs.declared.posts.Post.{Post as ThePost};

use crate::files::read_count;
use crate::lookups::{Indexes, cut_by, sizes_of};
use ml_base::{Files, MAX_POSTS, Name, Numbers, PartError};
use std::alloc::{AllocError, Global};

// Numbers from the first on, as many as `count`.
fn numbers_from(alloc: Global, first: u64, count: u64) -> Result<Numbers, AllocError>
    requires { first + count < 2 ^ 64 }
    ensures { IfOk result (λ ns. ns ≡ range_with_len first count) }
{
    let mut out = Numbers::new(alloc);
    let mut left = count;
    while left > 0 {
        out.push(first + (count - left))?;
        left -= 1;
    }
    Ok(out)
}

// The numbers from a to b of posts that are there, at most a hundred of them.
fn asked_for(alloc: Global, a: u64, b: u64, count: u64) -> Result<Numbers, AllocError>
    requires { count ≤ 99_999_999 }
    ensures { IfOk result (λ ns. ns ≡ first_numbers a b count) }
{
    let first = a.max(1);
    let last = b.min(count);
    let size = (last + 1).saturating_sub(first).min(MAX_POSTS as u64);
    numbers_from(alloc, first, size)
}

/// The numbers of the posts from a to b that are there, in order, as many as one answer has: at most 100, and at most
/// 4,194,304 bytes of posts together, but always the first one. It reads the number of posts and at most two indexes,
/// of the groups from a's to b's, each of them once.
pub fn range<F: Files>(alloc: Global, files: &mut F, a: u64, b: u64) -> Result<Numbers, PartError>
    ensures value { IsTrue F.tells → (posts : List ThePost) → ArePosts (F.map files.old) posts → IfOk result (λ answer. answer ≡ numbers (cut (in_range a b posts))) }
    ensures read { IsTrue F.tells → IfOk result (IsRangeByFiles (F.map files.old) a b) }
    ensures within { IfOk result (AllByRecursion (IsWithin a b)) }
    ensures names { NamesDamaged ⟦<F as Files>⟧ (IsOfRange a b) (IsBadForRange (F.map files.old) a b) result }
    ensures sound { IsTrue F.tells → (posts : List ThePost) → ArePosts (F.map files.old) posts → IfErr result (λ e. OnDamaged e (λ _. ⊥)) }
    ensures reads { IsReading ⟦<F as Files>⟧ files.old files.new result }
{
    let count = read_count(alloc, files)?;
    let row = asked_for(alloc, a, b, count)?;
    let mut indexes = Indexes::new(alloc);
    let sizes = sizes_of(alloc, files, &mut indexes, row.as_slice(), Name::NUMBER)?;
    Ok(cut_by(alloc, row.as_slice(), sizes.as_slice())?)
}
