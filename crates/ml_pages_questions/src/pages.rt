// The pages of a list's archive, as questions of a list.
ghost use Rattle.std.specs.Prelude.{◌≡◌, List, IsTrue, IfOk, IfErr};
ghost use Rattle.ml_filing.specs.Threads.{IsArchive};
ghost use Rattle.ml_filing.specs.declared.posts.Post.{Post as ThePost};
ghost use Rattle.ml_base.specs.PartErrors.{OnDamaged};
ghost use Rattle.ml_base.specs.ReadFiles.{IsReading, NamesDamaged};
ghost use Rattle.ml_pages.specs.Counting.{months_of, threads_of};
ghost use Rattle.ml_pages.specs.Pages as spec;
ghost use Rattle.ml_pages.specs.Reads.{AreIndexesRead, AreThreadsRead};
ghost use Rattle.ml_reading.specs.Meanings.{IsKnown};
ghost use Rattle.ml_reading.specs.Queries.{text_or_absent};
ghost use Rattle.ml_pages_questions.specs.Questions.{IsAnswer, IsBadFile, IsListName, IsBadForList, MayRead, page_meaning};

use ml_base::{Bytes, Files, PartError};
use ml_config::Config;
use ml_pages::{list_text, month_page, months, thread_page, threads};
use ml_reading::{Answer, Question};
use std::alloc::Global;

/// A page of a list's archive as HTML, or the list of all its pages.
#[derive(Clone, Copy, Debug, PartialEq, Eq)]
pub enum PageQuery {
    /// The months and the threads, a line each, with the number of their posts.
    List,
    /// A page, from 1 on, of the posts of a month in UTC.
    Month { year: u16, month: u8, page: u64 },
    /// A page, from 1 on, of the thread whose first post has this number.
    Thread { first: u64, page: u64 },
}

impl Question for PageQuery {
    ghost meaning = { page_meaning };

    fn answer<F: Files>(
        &self,
        alloc: Global,
        config: &Config,
        files: &mut F,
    ) -> Result<Answer, PartError> {
        page_of(alloc, *self, config, files)
    }
}

// What answers a page query, by the files.
fn page_of<F: Files>(
    alloc: Global,
    query: PageQuery,
    config: &Config,
    files: &mut F,
) -> Result<Answer, PartError>
    ensures value { IsTrue F.tells → IfOk result (IsAnswer query config.now (F.map files.old)) }
    ensures known { IfOk result (IsKnown (page_meaning query)) }
    ensures names { NamesDamaged ⟦<F as Files>⟧ (MayRead query) (IsBadFile query config.now (F.map files.old)) result }
    ensures sound { IsTrue F.tells → (posts : List ThePost) → IsArchive (F.map files.old) config.now.prefix posts → IfErr result (λ e. OnDamaged e (λ _. ⊥)) }
    ensures reads { IsReading ⟦<F as Files>⟧ files.old files.new result }
{
    match query {
        PageQuery::List => Ok(Answer::Text(pages_list(alloc, config, files)?)),
        PageQuery::Month { year, month, page } => {
            Ok(one(month_page(alloc, files, config, year, month, page)?))
        }
        PageQuery::Thread { first, page } => {
            Ok(one(thread_page(alloc, files, config, first, page)?))
        }
    }
}

// The lines of the months and of the threads.
fn pages_list<F: Files>(alloc: Global, config: &Config, files: &mut F) -> Result<Bytes, PartError>
    ensures value { IsTrue F.tells → IfOk result (λ text. (posts : List ThePost) → IsArchive (F.map files.old) config.now.prefix posts → text ≡ spec.list_text (months_of posts) (threads_of config.now.prefix posts)) }
    ensures read { IsTrue F.tells → IfOk result (λ _. AreIndexesRead (F.map files.old) × AreThreadsRead (F.map files.old)) }
    ensures names { NamesDamaged ⟦<F as Files>⟧ IsListName (IsBadForList (F.map files.old)) result }
    ensures sound { IsTrue F.tells → (posts : List ThePost) → IsArchive (F.map files.old) config.now.prefix posts → IfErr result (λ e. OnDamaged e (λ _. ⊥)) }
    ensures reads { IsReading ⟦<F as Files>⟧ files.old files.new result }
{
    let months = months(alloc, files)?;
    let threads = threads(alloc, files, config.prefix.as_slice())?;
    Ok(list_text(alloc, months.as_slice(), threads.as_slice())?)
}

// A page, which may be absent.
fn one(found: Option<Bytes>) -> Answer
    ensures { result ≡ text_or_absent found }
{
    match found {
        Some(text) => Answer::Text(text),
        None => Answer::Absent,
    }
}
