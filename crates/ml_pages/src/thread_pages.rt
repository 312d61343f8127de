// Makes the pages of threads.
ghost use Rattle.std.specs.Prelude.{◌≡◌, ◌≤◌, List, Option, IsTrue, IfOk, IfErr};
ghost use Rattle.std.specs.List.{AllByRecursion, flat_map};
ghost use Rattle.ml_base.specs.PartErrors.{OnDamaged};
ghost use Rattle.ml_base.specs.ReadFiles.{IsReading, NamesDamaged};
ghost use Rattle.ml_filing.specs.Answers.{AreIndexes, IsBadForRow, IsBadForThread, IsRowName, IsThreadName, IsWholeAnswer};
ghost use Rattle.ml_filing.specs.Archive.{ArePosts};
ghost use Rattle.ml_filing.specs.Threads.{IsArchive};
ghost use Rattle.ml_filing.specs.declared.posts.Post.{Post as ThePost};
ghost use Rattle.ml_filing.specs.declared.posts.Thread.{Thread as TheThread};
ghost use Rattle.ml_pages.specs.Counting as counting;
ghost use Rattle.ml_pages.specs.Pages as spec;
ghost use Rattle.ml_pages.specs.Parts.{IsPageFound, line_at, page_around};

use crate::month_pages::PAGE_LEN;
use crate::texts::{page_text, push_post, thread_title};
use ml_base::{Bytes, Files, Name, PartError};
use ml_config::Config;
use ml_filing::{Indexes, entry_among, read_alone, thread_place_of, whole_thread};
use std::alloc::{AllocError, Global};

// Whether a number is the first of these.
fn is_first(number: u64, numbers: &[u64]) -> bool
    ensures { result ≡ counting.is_first number numbers.now }
{
    match numbers {
        [] => false,
        [first, ..] => *first == number,
    }
}

// Those of these numbers that are on a page.
fn on_page(page: u64, numbers: &[u64]) -> &[u64]
    ensures { result.now ≡ spec.on_page page numbers.now }
{
    if page == 0 {
        return &[];
    }
    let before = PAGE_LEN.saturating_mul(page - 1).min(numbers.len() as u64);
    let rest = &numbers[before as usize..];
    &rest[..rest.len().min(PAGE_LEN as usize)]
}

// The lines of the posts with these numbers. `missing` is the file that is damaged if an index has no entry for one of them. For
// neighbours in one group an index is read once, and not at all if it was read before.
fn thread_lines<F: Files>(
    alloc: Global,
    files: &mut F,
    indexes: &mut Indexes,
    numbers: &[u64],
    missing: Name,
) -> Result<Bytes, PartError>
    requires few { AllByRecursion (λ m. m ≤ 99_999_999) numbers.now }
    requires known { IsTrue F.tells → AreIndexes (F.map files.old) indexes.old }
    ensures value { IsTrue F.tells → (posts : List ThePost) → ArePosts (F.map files.old) posts → IfOk result (λ lines. lines ≡ flat_map (line_at posts) numbers.now) }
    ensures names { NamesDamaged ⟦<F as Files>⟧ (IsRowName missing) (IsBadForRow (F.map files.old) missing numbers.now) result }
    ensures reads { IsReading ⟦<F as Files>⟧ files.old files.new result }
{
    let mut out = Bytes::new(alloc);
    for number in numbers {
        read_alone(alloc, files, indexes, *number / 100)?;
        let Some(entry) = entry_among(indexes.as_slice(), *number) else {
            return Err(PartError::Damaged(missing));
        };
        push_post(&mut out, entry)?;
    }
    Ok(out)
}

// The page of a thread around the lines of its posts.
fn thread_text(
    alloc: Global,
    config: &Config,
    first: u64,
    lines: &[u8],
) -> Result<Bytes, AllocError>
    ensures { IfOk result (λ text. text ≡ page_around (spec.title config.now (spec.thread_title first)) lines.now) }
{
    let name = thread_title(alloc, first)?;
    page_text(alloc, config, name.as_slice(), lines)
}

/// Page `page`, from 1 on, of the posts of the thread whose first post is `first`, on a list of this configuration, as HTML. None
/// exactly if `first` isn't the first post of its thread, or that page would have no post. It reads the number of posts, a thread
/// file and the indexes of the first post and of the page's posts, but no post. Whatever the files hold, the thread that they have
/// for `first` decides whether there is such a page.
pub fn thread_page<F: Files>(
    alloc: Global,
    files: &mut F,
    config: &Config,
    first: u64,
    page: u64,
) -> Result<Option<Bytes>, PartError>
    ensures value { IsTrue F.tells → (posts : List ThePost) → IsArchive (F.map files.old) config.now.prefix posts → IfOk result (λ text. text ≡ spec.thread_page config.now first page posts) }
    ensures read { IsTrue F.tells → IfOk result (λ text. (found : Option TheThread) × IsWholeAnswer (F.map files.old) config.now.prefix first found × IsPageFound first page found text) }
    ensures names { NamesDamaged ⟦<F as Files>⟧ IsThreadName (IsBadForThread (F.map files.old) config.now.prefix first) result }
    ensures sound { IsTrue F.tells → (posts : List ThePost) → IsArchive (F.map files.old) config.now.prefix posts → IfErr result (λ e. OnDamaged e (λ _. ⊥)) }
    ensures reads { IsReading ⟦<F as Files>⟧ files.old files.new result }
{
    let mut indexes = Indexes::new(alloc);
    let Some(thread) = whole_thread(alloc, files, &mut indexes, config.prefix.as_slice(), first)?
    else {
        return Ok(None);
    };
    if !is_first(first, thread.numbers.as_slice()) {
        return Ok(None);
    }
    let numbers = on_page(page, thread.numbers.as_slice());
    if numbers.is_empty() {
        return Ok(None);
    }
    let missing = Name::threads(thread_place_of(thread.key.as_slice()));
    let lines = thread_lines(alloc, files, &mut indexes, numbers, missing)?;
    Ok(Some(thread_text(alloc, config, first, lines.as_slice())?))
}
