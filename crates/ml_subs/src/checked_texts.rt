// Remembers texts of buckets that are known to be in their grammar, so that they aren't checked again.
ghost use Rattle.std.specs.Prelude.{◌≡◌, ◌<◌, ℕ, length, Some, IsTrue, List, IfOk, IfSome, IfNone};
ghost use Rattle.ml_base.specs.Bytes.{Text};
ghost use Rattle.ml_subs.specs.declared.member_list.Member.{Member};
ghost use Rattle.ml_subs.specs.Buckets.{IsBucket, IsBucketFile};
ghost use Rattle.ml_subs.specs.Reading.{AreRead, moment_at, record_at};

use crate::bucket_texts::{read_bucket, split_layout};
use crate::records::{Layout, Record};
use ml_base::{Bytes, LAST_MOMENT, Row, number_within, split_first};
use std::alloc::{AllocError, Global};
use std::marker::Model;

// The longest text that is remembered, in bytes. All 53 together take 1.7 MiB at most.
const LONGEST: usize = 32_768;

// A text that is known to be right for the bucket with this number.
#[derive(Drop)]
struct Known {
    n: u8,
    text: Bytes,
}

impl Model for Known {
    ghost use Rattle.std.specs.Prelude.{List};
    ghost use Rattle.ml_subs.specs.declared.member_list.Member.{Member};
    ghost use Rattle.ml_subs.specs.Buckets.{IsBucket};

    ghost Value = { Unit {0} };

    ghost view = { λ _. tt {0} };

    ghost invariant = { λ known. (ms : List Member) × IsBucket known.n known.text ms };
}

impl Known {
    // A text of the bucket with a number, or None if it is too long or memory is lacking.
    fn new(alloc: Global, n: u8, text: &[u8]) -> Option<Known>
        requires { (ms : List Member) × IsBucket n text.now ms }
    {
        if text.len() > LONGEST {
            return None;
        }
        let text = Bytes::from_slice(alloc, text).ok()?;
        Some(Known { n, text })
    }

    // Whether a text is this one, and so is right for the bucket with this number.
    fn is(&self, n: u8, text: &[u8]) -> bool
        ensures { IsTrue result → (ms : List Member) × IsBucket n text.now ms }
    {
        self.n == n && self.text.as_slice() == text
    }
}

/// For every bucket the text that was last found to be in its grammar, or that a change made: a file with the same
/// bytes isn't checked again. A text of more than 32 KiB isn't remembered. No answer depends on what it holds.
#[derive(Drop)]
pub struct Checked {
    last: Row<Option<Known>>,
}

impl Checked {
    /// Remembers nothing yet. It takes no memory.
    pub fn new(alloc: Global) -> Checked {
        Checked {
            last: Row::new(alloc),
        }
    }

    // Whether a text is remembered as that of the bucket with a number.
    pub(crate) fn has(&self, n: u8, text: &[u8]) -> bool
        ensures { IsTrue result → (ms : List Member) × IsBucket n text.now ms }
    {
        match self.last.as_slice().get(n as usize) {
            Some(Some(known)) => known.is(n, text),
            _ => false,
        }
    }

    // Remembers a text of the bucket with a number instead of the earlier one, if it is short and there is memory for
    // it.
    pub(crate) fn note(&mut self, alloc: Global, n: u8, text: &[u8])
        requires { (ms : List Member) × IsBucket n text.now ms }
    {
        while self.last.as_slice().len() <= n as usize {
            if self.last.push(None).is_err() {
                return;
            }
        }
        self.last.replace(n as usize, Known::new(alloc, n, text));
    }

    // Remembers the file that a change leaves of a bucket.
    pub(crate) fn note_left(&mut self, alloc: Global, n: u8, file: &Option<Bytes>)
        requires { (ms : List Member) × IsBucketFile n file.now ms }
    {
        if let Some(text) = file {
            self.note(alloc, n, text.as_slice());
        }
    }
}

// The moment that bytes are known to begin with in a layout, and what comes after it.
fn known_moment(layout: Layout, text: &[u8]) -> (u64, &[u8])
    requires { (since : ℕ) × ((more : Text) × (moment_at layout text.now ≡ Some (since, more))) }
    ensures { moment_at layout text.now ≡ Some (result.0, result.1.now) }
{
    let Layout::Dated = layout else {
        return (0, text);
    };
    let Some((digits, more)) = split_first(0, text) else {
        unreachable!()
    };
    let Some(since) = number_within(LAST_MOMENT, digits) else {
        unreachable!()
    };
    (since, more)
}

// The record that bytes are known to begin with, and what comes after it.
fn known_record(layout: Layout, text: &[u8]) -> (Record<'_>, &[u8])
    requires { (m : Member) × ((more : Text) × (record_at layout text.now ≡ Some (m, more))) }
    ensures value { record_at layout text.now ≡ Some (result.0, result.1.now) }
    ensures shorter { length result.1.now < length text.now }
{
    let [_, rest @ ..] = text else { unreachable!() };
    let Some((who, rest)) = split_first(0, rest) else {
        unreachable!()
    };
    let (since, more) = known_moment(layout, rest);
    let own = &text[..text.len() - more.len()];
    (Record::new(layout, own, who, since), more)
}

// The members of a bucket, of which its records are known to spell some.
fn known_members<'a>(
    alloc: Global,
    n: u8,
    layout: Layout,
    body: &'a [u8],
) -> Result<Row<Record<'a>>, AllocError>
    requires { (ms : List Member) × AreRead layout n body.now ms }
    ensures { IfOk result (AreRead layout n body.now) }
{
    let mut out = Row::new(alloc);
    let mut rest = body;
    while !rest.is_empty() {
        let (record, more) = known_record(layout, rest);
        out.push(record)?;
        rest = more;
    }
    Ok(out)
}

// The members of the bucket with a number, or None if its file is outside its grammar. A text that is remembered isn't
// checked again; another one is checked and then remembered.
pub(crate) fn read_again<'a>(
    alloc: Global,
    checked: &mut Checked,
    n: u8,
    file: &'a Option<Bytes>,
) -> Result<Option<Row<Record<'a>>>, AllocError>
    ensures some { IfOk result (λ r. IfSome r (IsBucketFile n file.now)) }
    ensures none { IfOk result (λ r. IfNone r ((ms : List Member) → ¬ IsBucketFile n file.now ms)) }
{
    let Some(text) = file else {
        return Ok(Some(Row::new(alloc)));
    };
    if checked.has(n, text.as_slice()) {
        let Some((layout, body)) = split_layout(text.as_slice()) else {
            return Ok(None);
        };
        return Ok(Some(known_members(alloc, n, layout, body)?));
    }
    let Some(members) = read_bucket(alloc, n, file)? else {
        return Ok(None);
    };
    checked.note(alloc, n, text.as_slice());
    Ok(Some(members))
}
