// Reads the text of a bucket, and writes it anew, in layout 2, after a change of one member.
ghost use Rattle.std.specs.Prelude.{◌≡◌, ℕ, List, IfOk, IfSome, IfNone};
ghost use Rattle.std.specs.Option.{option_map};
ghost use Rattle.ml_base.specs.Address.{IsAddress, key};
ghost use Rattle.ml_base.specs.Ranges.{IsMoment};
ghost use Rattle.ml_subs.specs.declared.member_list.Member.{Member};
ghost use Rattle.ml_subs.specs.declared.records.Layout.TheVariants.{Dated};
ghost use Rattle.ml_subs.specs.Buckets.{IsBucket, IsBucketFile, bucket_file, bucket_text, record_text};
ghost use Rattle.ml_subs.specs.Members.{member_of, with_member, without_member};
ghost use Rattle.ml_subs.specs.Reading.{IsFront, IsLayoutOf, member_by};

use crate::records::{BucketForm, Layout, Record};
use ml_base::{Address, Bytes, Row};
use ml_keyed::{find, push_with, push_without, read_file};
use std::alloc::{AllocError, Global};

// The line that a bucket of layout 2 begins with.
const DATED_LINE: &[u8] = b"layout 2\n";

// The layout of a text, and what comes after its line.
fn split_line(text: &[u8]) -> (Layout, &[u8])
    ensures { IsFront text.now result.0 result.1.now }
{
    match text.strip_prefix(DATED_LINE) {
        Some(body) => (Layout::Dated, body),
        None => (Layout::Undated, text),
    }
}

// The layout of a bucket's text, and its records. None if there are no records.
pub(crate) fn split_layout(text: &[u8]) -> Option<(Layout, &[u8])>
    ensures some { IfSome result (λ r. IsLayoutOf text.now r.0 r.1.now) }
    ensures none { IfNone result ((n : ℕ) (ms : List Member) → ¬ IsBucket n text.now ms) }
{
    let (layout, body) = split_line(text);
    if body.is_empty() {
        return None;
    }
    Some((layout, body))
}

// The members of the bucket with a number, or None if its file is outside its grammar.
pub(crate) fn read_bucket(
    alloc: Global,
    n: u8,
    file: &Option<Bytes>,
) -> Result<Option<Row<Record<'_>>>, AllocError>
    ensures some { IfOk result (λ r. IfSome r (IsBucketFile n file.now)) }
    ensures none { IfOk result (λ r. IfNone r ((ms : List Member) → ¬ IsBucketFile n file.now ms)) }
{
    let Some(text) = file else {
        return Ok(Some(Row::new(alloc)));
    };
    let Some((layout, body)) = split_layout(text.as_slice()) else {
        return Ok(None);
    };
    let Some(members) = read_file(alloc, BucketForm { n, layout }, body)? else {
        return Ok(None);
    };
    Ok(Some(members))
}

// The member of an address among those of a bucket, or None if there is none. It takes no memory.
pub(crate) fn lookup<'r, 'a>(members: &'r Row<Record<'a>>, who: &Address) -> Option<&'r Record<'a>>
    ensures { option_map (λ r. r.now) result ≡ member_of (key who.now) members.now }
{
    find(members.as_slice(), who.bytes())
}

// The record of an address and a moment, as a text.
pub(crate) fn text_of_member(alloc: Global, who: &Address, since: u64) -> Result<Bytes, AllocError>
    ensures { IfOk result (λ bytes. bytes ≡ record_text Dated (member_by who.now since)) }
{
    let mut out = Bytes::new(alloc);
    out.push(b'T')?;
    out.extend(who.bytes())?;
    out.push(0)?;
    out.push_number(since)?;
    out.push(0)?;
    Ok(out)
}

// The text of a bucket of members with one more, in place of the one with his key.
pub(crate) fn text_with(
    alloc: Global,
    members: &Row<Record<'_>>,
    who: &Address,
    since: u64,
) -> Result<Bytes, AllocError>
    requires { IsMoment since }
    ensures address { IsAddress who.now }
    ensures text { IfOk result (λ bytes. bytes ≡ bucket_text Dated (with_member (member_by who.now since) members.now)) }
{
    let address = who.bytes();
    let own = text_of_member(alloc, who, since)?;
    let added = Record::new(Layout::Dated, own.as_slice(), address, since);
    let mut out = Bytes::from_slice(alloc, DATED_LINE)?;
    push_with(alloc, &mut out, members.as_slice(), &added)?;
    Ok(out)
}

// The file of a bucket of members without that of an address: no file if nobody is left.
pub(crate) fn file_without(
    alloc: Global,
    members: &Row<Record<'_>>,
    who: &Address,
) -> Result<Option<Bytes>, AllocError>
    ensures { IfOk result (λ file. file ≡ bucket_file (without_member (key who.now) members.now)) }
{
    let mut out = Bytes::from_slice(alloc, DATED_LINE)?;
    if push_without(alloc, &mut out, members.as_slice(), who.bytes())? {
        Ok(Some(out))
    } else {
        Ok(None)
    }
}
