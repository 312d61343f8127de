// Making the digest that is due: it goes to the digest set, and the mark moves.
ghost use Rattle.std.specs.Prelude.{◌≡◌, ◌&&◌, ◌<◌, ◌≤◌, ◌+◌, ◌-◌, ◌/◌, ℕ, true, Some, None, map, min, take, length, IsTrue, IfOk, IfSome};
ghost use Rattle.ml_base.specs.Dir.{Dir, are_files, touches_only, with_puts};
ghost use Rattle.ml_base.specs.Layers.{files_below, puts_over};
ghost use Rattle.ml_base.specs.ReadFiles.{IsReading, NamesDamaged};
ghost use Rattle.ml_base.specs.declared.names.Set.TheVariants as sets;
ghost use Rattle.ml_filing.specs.Archive.{IsNumberFile, number_name};
ghost use Rattle.ml_filing.specs.Posts.{post_at};
ghost use Rattle.ml_filing.specs.declared.posts.Post.{Post};
ghost use Rattle.ml_digest.specs.Due.{IsMark};
ghost use Rattle.ml_digest.specs.Digest.{digest_text as digest_text_of};
ghost use Rattle.ml_plain.specs.Directory.{IsList};
ghost use Rattle.ml_plain.specs.Mailing as mailing;
ghost use Rattle.ml_plain.specs.Plain.{Plain, addresses};
ghost use Rattle.ml_plain.specs.Timing as spec;
ghost use Rattle.ml_reply.specs.Dates.{date_text as date_of};
ghost use Rattle.ml_acts.specs.Asked.{IsDamagedOf, IsTooSmall, Undigested};
ghost use Rattle.ml_acts.specs.Damaged.{IsDamaged};
ghost use Rattle.ml_acts.specs.Doing.{Alike, DrawsId, HasIds, HasIdsUpTo, is_of_queue};
ghost use Rattle.ml_acts.specs.Growing.{is_of_time};
ghost use Rattle.ml_acts.specs.Found.{QueuesToSet};
ghost use Rattle.ml_timed.specs.Found.{FoundInLayer, FoundToDigest, FoundToIssue};
ghost use Rattle.ml_acts.specs.Spelled.{AreSpelled};
ghost use Rattle.ml_timed.specs.Digesting.{AgreesIfRead, IsDamagedAfter, IsDamagedInRun, IsDamagedWithin};
ghost use Rattle.ml_timed.specs.Reads.{is_of_digesting, is_of_issue, is_of_posts_seen, is_of_posts_told, is_of_progress, is_seen_in_digesting};
ghost use Rattle.ml_timed.specs.Parts.{AnswersPart};

use crate::undigested_posts::posts_after;
use ml_acts::{Moment, digest_path, recipients, send};
use ml_base::{Bytes, Files, Layer, MAX_POSTS, Name, PartError, Row, Set, Txn};
use ml_config::Config;
use ml_digest::{DigestPost, Mark, Range, digest_text, due, mark, set_mark};
use ml_filing::{count, post};
use ml_reply::date_text;
use std::alloc::Global;

// On a list with digests, queues the one that is due for the digest set as it is, and moves the mark to its last post. `now` is in
// seconds since 1970. It lays what it does over the files in the layer.
pub(crate) fn make_digest<F: Files>(
    alloc: Global,
    files: &mut Layer<F>,
    config: &Config,
    now: Moment,
) -> Result<(), PartError>
    requires room { IsTrue F.tells → HasIdsUpTo (with_puts (F.map (files_below files.now)) (puts_over files.now)) 999_999_999_998_000 }
    ensures apart { IsTrue F.tells → IfOk result (λ _. (dir : Dir) (p : Plain) → Alike (λ name. config.now.flags.d && is_seen_in_digesting name) (F.map (files_below files.old)) dir → IsList (with_puts dir (puts_over files.old)) p → p.config ≡ config.now → IsList (with_puts dir (puts_over files.new)) (spec.make_digest now.seconds p)) }
    ensures agrees { IsTrue F.tells → IfOk result (λ _. config.now.flags.d ≡ true → AgreesIfRead (with_puts (F.map (files_below files.old)) (puts_over files.old))) }
    ensures room { IsTrue F.tells → IfOk result (λ _. HasIdsUpTo (with_puts (F.map (files_below files.old)) (puts_over files.new)) 999_999_999_998_001) }
    ensures found { IsTrue F.tells → IfOk result (λ _. FoundInLayer (F.map (files_below files.old)) (puts_over files.old) (puts_over files.new)) }
    ensures part { AnswersPart is_of_time ⟦<F as Files>⟧ (λ name. (config.now.flags.d && is_of_digesting name) ≡ true) IsDamagedInRun files.old files.new result }
{
    if !config.flags.d {
        return Ok(());
    }
    let txn = digest_due(alloc, files, config, now)?;
    Ok(files.lay(txn)?)
}

// The puts that make the digest that is due; none if no digest is due.
fn digest_due<F: Files>(
    alloc: Global,
    files: &mut F,
    config: &Config,
    now: Moment,
) -> Result<Txn, PartError>
    requires room { IsTrue F.tells → HasIds (F.map files.now) }
    ensures apart { IsTrue F.tells → IfOk result (λ txn. (dir : Dir) (p : Plain) → Alike is_seen_in_digesting (F.map files.old) dir → IsList dir p → p.config ≡ config.now → IsList (with_puts dir txn) (spec.issue now.seconds p (spec.digest_due now.seconds p))) }
    ensures agrees { IsTrue F.tells → IfOk result (λ _. AgreesIfRead (F.map files.old)) }
    ensures own { IfOk result (λ txn. touches_only is_of_time txn ≡ true) }
    ensures files { IfOk result (λ txn. IsTrue (are_files txn)) }
    ensures drawn { IsTrue F.tells → IfOk result (λ txn. (most : ℕ) → HasIdsUpTo (F.map files.old) most → HasIdsUpTo (with_puts (F.map files.old) txn) (most + 1)) }
    ensures spelled { IsTrue F.tells → IfOk result (AreSpelled (F.map files.old)) }
    ensures found { IsTrue F.tells → IfOk result (FoundToDigest (F.map files.old)) }
    ensures names { NamesDamaged ⟦<F as Files>⟧ (λ name. is_of_digesting name ≡ true) (IsDamagedOf (F.map files.old) Undigested) result }
    ensures reads { IsReading ⟦<F as Files>⟧ files.old files.new result }
{
    let (mark, count) = progress(alloc, files)?;
    if mark.last == count {
        return Ok(Txn::new(alloc));
    }
    match range_due(alloc, files, &mark, count, now.seconds)? {
        Some(range) => issue(alloc, files, config, now, &mark, range),
        None => Ok(Txn::new(alloc)),
    }
}

// How far the digests have come, and how many posts there are. The mark isn't after the last post.
fn progress<F: Files>(alloc: Global, files: &mut F) -> Result<(Mark, u64), PartError>
    ensures read { IsTrue F.tells → IfOk result (λ r. IsNumberFile (F.map files.old number_name) r.1) }
    ensures marked { IsTrue F.tells → IfOk result (λ r. IsMark (F.map files.old) r.0) }
    ensures agree { IfOk result (λ r. (r.0.issue ≤ r.0.last) × (r.0.last ≤ r.1) × (r.1 ≤ 99_999_999)) }
    ensures names { NamesDamaged ⟦<F as Files>⟧ (λ name. is_of_progress name ≡ true) (IsDamagedOf (F.map files.old) Undigested) result }
    ensures reads { IsReading ⟦<F as Files>⟧ files.old files.new result }
{
    let mark = mark(alloc, files)?;
    let count = count(alloc, files)?;
    if mark.last > count || mark.issue > mark.last {
        return Err(PartError::Damaged(Name::MARK));
    }
    Ok((mark, count))
}

// The posts of the digest that is due, from the one after the mark on. `count` is the number of posts.
fn range_due<F: Files>(
    alloc: Global,
    files: &mut F,
    mark: &Mark,
    count: u64,
    now: u64,
) -> Result<Option<Range>, PartError>
    requires some { mark.now.last < count }
    requires few { count ≤ 99_999_999 }
    requires counted { IsTrue F.tells → IsNumberFile (F.map files.now number_name) count }
    ensures apart { IsTrue F.tells → IfOk result (λ range. (dir : Dir) (p : Plain) → Alike is_of_posts_seen (F.map files.old) dir → IsList dir p → p.mark ≡ mark.now → count ≡ length p.posts → range ≡ spec.digest_due now p) }
    ensures range { IfOk result (λ found. IfSome found (λ range. (range.first ≡ mark.now.last + 1) × (range.first ≤ range.last) × (range.last ≤ count))) }
    ensures agrees { IsTrue F.tells → IfOk result (λ _. count / 100 ≤ (mark.now.last + 1) / 100 + 1 → ¬ IsTooSmall (F.map files.old)) }
    ensures names { NamesDamaged ⟦<F as Files>⟧ (λ name. is_of_posts_told name ≡ true) (IsDamagedAfter (F.map files.old) mark.now.last count) result }
    ensures reads { IsReading ⟦<F as Files>⟧ files.old files.new result }
{
    let found = posts_after(alloc, files, mark.last, count)?;
    let sizes = front(found.sizes.as_slice(), count - mark.last);
    Ok(due(mark, sizes, found.oldest, now))
}

// The sizes of the first `count` posts, but of no more than a digest has. An index may have entries after the last post; these don't count.
fn front(sizes: &[u64], count: u64) -> &[u64]
    ensures cut { result.now ≡ take (min count 100) sizes.now }
    ensures within { length result.now ≤ count }
    ensures few { length result.now ≤ 100 }
{
    let most = count.min(MAX_POSTS as u64) as usize;
    &sizes[..sizes.len().min(most)]
}

// The puts by which an issue of these posts goes to the digest set, and the mark moves to its last post.
fn issue<F: Files>(
    alloc: Global,
    files: &mut F,
    config: &Config,
    now: Moment,
    mark: &Mark,
    range: Range,
) -> Result<Txn, PartError>
    requires room { IsTrue F.tells → HasIds (F.map files.now) }
    requires agree { mark.now.issue ≤ mark.now.last }
    requires from { range.first ≡ mark.now.last + 1 }
    requires some { range.first ≤ range.last }
    requires few { range.last ≤ 99_999_999 }
    requires counted { IsTrue F.tells → (count : ℕ) × IsNumberFile (F.map files.now number_name) count × (range.last ≤ count) }
    ensures apart { IsTrue F.tells → IfOk result (λ txn. (dir : Dir) (p : Plain) → Alike is_seen_in_digesting (F.map files.old) dir → IsList dir p → p.config ≡ config.now → p.mark ≡ mark.now → range.last ≤ length p.posts → IsList (with_puts dir txn) (spec.issue now.seconds p (Some range))) }
    ensures own { IfOk result (λ txn. touches_only is_of_time txn ≡ true) }
    ensures files { IfOk result (λ txn. IsTrue (are_files txn)) }
    ensures drawn { IsTrue F.tells → IfOk result (λ txn. (most : ℕ) → HasIdsUpTo (F.map files.old) most → HasIdsUpTo (with_puts (F.map files.old) txn) (most + 1)) }
    ensures spelled { IsTrue F.tells → IfOk result (AreSpelled (F.map files.old)) }
    ensures found { IsTrue F.tells → IfOk result (FoundToIssue (F.map files.old)) }
    ensures names { NamesDamaged ⟦<F as Files>⟧ (λ name. is_of_digesting name ≡ true) (IsDamagedWithin (F.map files.old) range.first range.last) result }
    ensures reads { IsReading ⟦<F as Files>⟧ files.old files.new result }
{
    let issue = mark.issue + 1;
    let body = issue_text(alloc, files, config, now, issue, range)?;
    let more = mail_issue(alloc, files, config, issue, body)?;
    let mut txn = set_mark(
        alloc,
        &Mark {
            last: range.last,
            issue,
        },
    )?;
    txn.join(more)?;
    Ok(txn)
}

// The text of an issue of these posts that is made at this moment.
fn issue_text<F: Files>(
    alloc: Global,
    files: &mut F,
    config: &Config,
    now: Moment,
    issue: u64,
    range: Range,
) -> Result<Bytes, PartError>
    requires from_one { 1 ≤ range.first }
    requires some { range.first ≤ range.last }
    requires few { range.last ≤ 99_999_999 }
    requires counted { IsTrue F.tells → (count : ℕ) × IsNumberFile (F.map files.now number_name) count × (range.last ≤ count) }
    ensures apart { IsTrue F.tells → IfOk result (λ text. (dir : Dir) (p : Plain) → Alike is_of_posts_seen (F.map files.old) dir → IsList dir p → p.config ≡ config.now → text ≡ digest_text_of p.config issue range.first (map spec.digest_post (spec.posts_in range p.posts)) (date_of now.seconds)) }
    ensures names { NamesDamaged ⟦<F as Files>⟧ (λ name. is_of_posts_told name ≡ true) (IsDamagedWithin (F.map files.old) range.first range.last) result }
    ensures reads { IsReading ⟦<F as Files>⟧ files.old files.new result }
{
    let posts = posts_in(alloc, files, range)?;
    let date = date_text(now.seconds);
    Ok(digest_text(alloc, config, issue, range.first, posts.as_slice(), &date)?)
}

// The posts of a range.
fn posts_in<F: Files>(
    alloc: Global,
    files: &mut F,
    range: Range,
) -> Result<Row<DigestPost>, PartError>
    requires from_one { 1 ≤ range.first }
    requires some { range.first ≤ range.last }
    requires few { range.last ≤ 99_999_999 }
    requires counted { IsTrue F.tells → (count : ℕ) × IsNumberFile (F.map files.now number_name) count × (range.last ≤ count) }
    ensures apart { IsTrue F.tells → IfOk result (λ posts. (dir : Dir) (p : Plain) → Alike is_of_posts_seen (F.map files.old) dir → IsList dir p → posts ≡ map spec.digest_post (spec.posts_in range p.posts)) }
    ensures all { IfOk result (λ posts. length posts ≡ range.last + 1 - range.first) }
    ensures names { NamesDamaged ⟦<F as Files>⟧ (λ name. is_of_posts_told name ≡ true) (IsDamagedWithin (F.map files.old) range.first range.last) result }
    ensures reads { IsReading ⟦<F as Files>⟧ files.old files.new result }
{
    let mut posts = Row::new(alloc);
    let mut number = range.first;
    while number <= range.last {
        posts.push(post_of(alloc, files, number)?)?;
        number += 1;
    }
    Ok(posts)
}

// The post of a number, as a digest has it. By the number of posts it is known to be there.
fn post_of<F: Files>(alloc: Global, files: &mut F, number: u64) -> Result<DigestPost, PartError>
    requires from_one { 1 ≤ number }
    requires counted { IsTrue F.tells → (count : ℕ) × IsNumberFile (F.map files.now number_name) count × (number ≤ count) }
    ensures apart { IsTrue F.tells → IfOk result (λ found. (dir : Dir) (p : Plain) → Alike is_of_posts_seen (F.map files.old) dir → IsList dir p → (post : Post) × (post_at p.posts number ≡ Some post) × (found ≡ spec.digest_post post)) }
    ensures names { NamesDamaged ⟦<F as Files>⟧ (λ name. is_of_posts_told name ≡ true) (IsDamagedWithin (F.map files.old) number number) result }
    ensures reads { IsReading ⟦<F as Files>⟧ files.old files.new result }
{
    match post(alloc, files, number)? {
        Some(post) => Ok(DigestPost {
            subject: post.subject,
            bytes: post.bytes,
        }),
        None => Err(PartError::Damaged(Name::NUMBER)),
    }
}

// The puts by which a text goes to the digest set as an issue.
fn mail_issue<F: Files>(
    alloc: Global,
    files: &mut F,
    config: &Config,
    issue: u64,
    body: Bytes,
) -> Result<Txn, PartError>
    requires room { IsTrue F.tells → HasIds (F.map files.now) }
    ensures apart { IsTrue F.tells → IfOk result (λ txn. (dir : Dir) (p : Plain) → Alike is_of_issue (F.map files.old) dir → IsList dir p → p.config ≡ config.now → IsList (with_puts dir txn) (mailing.send (mailing.digest_path p.config issue) body (addresses p sets.Digest) p)) }
    ensures own { IfOk result (λ txn. touches_only is_of_queue txn ≡ true) }
    ensures files { IfOk result (λ txn. IsTrue (are_files txn)) }
    ensures drawn { IsTrue F.tells → IfOk result (λ txn. DrawsId (F.map files.old) txn) }
    ensures found { IsTrue F.tells → IfOk result (QueuesToSet (F.map files.old) sets.Digest) }
    ensures names { NamesDamaged ⟦<F as Files>⟧ (λ name. is_of_issue name ≡ true) (IsDamaged (F.map files.old)) result }
    ensures reads { IsReading ⟦<F as Files>⟧ files.old files.new result }
{
    let way = digest_path(alloc, config, issue)?;
    let to = recipients(alloc, files, Set::Digest)?;
    send(alloc, files, way, body, to)
}
