// Members as the records of a bucket's text: an address, and in layout 2 a moment.
ghost use Rattle.std.specs.Prelude.{◌≡◌, ◌<◌, length, IfOk, IfSome};
ghost use Rattle.std.specs.Char.{is_ascii_uppercase};
ghost use Rattle.std.specs.List.{list_any};
ghost use Rattle.std.specs.Option.{option_map};
ghost use Rattle.ml_base.specs.Address.{IsAddress, key};
ghost use Rattle.ml_base.specs.Sorted.{byte_cmp};
ghost use Rattle.ml_subs.specs.declared.records.Layout.TheVariants.{Dated};
ghost use Rattle.ml_subs.specs.Buckets.{IsMomentIn, record_text};
ghost use Rattle.ml_subs.specs.Members.{member_key};
ghost use Rattle.ml_subs.specs.Reading.{member_at, member_by, moment_at, record_at};

use crate::Member;
use ml_base::{
    Address, Bytes, LAST_MOMENT, compare_keys, is_canonical, number_within, split_first,
};
use ml_keyed::{Keyed, bucket_of_lower};
use std::alloc::{AllocError, Global};
use std::cmp::Ordering;
use std::marker::Model;

// How a bucket's records are spelled: in layout 1 only addresses, in layout 2 their moments too.
#[derive(Clone, Copy)]
pub(crate) enum Layout {
    Undated,
    Dated,
}

// What has to be known of a bucket's file to read it: its number, and how its records are spelled.
#[derive(Clone, Copy)]
pub(crate) struct BucketForm {
    pub n: u8,
    pub layout: Layout,
}

// A member's record, which points into a text, and whether his address is its own key. In contracts it stands for the
// member.
#[derive(Drop)]
pub(crate) struct Record<'a> {
    layout: Layout,
    text: &'a [u8],
    who: &'a [u8],
    since: u64,
    is_key: bool,
}

impl<'a> Model for Record<'a> {
    ghost use Rattle.ml_subs.specs.declared.member_list.Member.{Member};
    ghost use Rattle.ml_subs.specs.Reading.{IsOwn, member_by};

    ghost Value = { Member };

    ghost view = { λ r. member_by r.who.now r.since };

    ghost invariant = { λ r. IsOwn r.layout r.text.now r.who.now r.since r.is_key };
}

// Whether a text has a capital letter.
fn has_capital(text: &[u8]) -> bool
    ensures { result ≡ list_any is_ascii_uppercase text.now }
{
    text.iter().any(|byte| byte.is_ascii_uppercase())
}

impl<'a> Record<'a> {
    // The record of an address and a moment, which has this text.
    pub(crate) fn new(layout: Layout, text: &'a [u8], who: &'a [u8], since: u64) -> Record<'a>
        requires address { IsAddress who.now }
        requires moment { IsMomentIn layout since }
        requires text { text.now ≡ record_text layout (member_by who.now since) }
        ensures { result ≡ member_by who.now since }
    {
        Record {
            layout,
            text,
            who,
            since,
            is_key: !has_capital(who),
        }
    }

    // The member, with a copy of his address.
    pub(crate) fn member(&self, alloc: Global) -> Result<Member, AllocError>
        ensures { IfOk result (λ m. m ≡ self.now) }
    {
        Ok(Member {
            who: Address::from_canonical(alloc, self.who)?,
            since: self.since,
        })
    }

    // The order of the keys of two members. Addresses that are their own keys are compared without folding.
    pub(crate) fn compare_to(&self, other: &Record<'_>) -> Ordering
        ensures { result ≡ byte_cmp (member_key self.now) (member_key other.now) }
    {
        if self.is_key && other.is_key {
            self.who.cmp(other.who)
        } else {
            compare_keys(self.who, other.who)
        }
    }
}

// The moment that bytes begin with in a layout, and what comes after it.
fn next_moment(layout: Layout, text: &[u8]) -> Option<(u64, &[u8])>
    ensures { option_map (λ r. (r.0, r.1.now)) result ≡ moment_at layout text.now }
{
    match layout {
        Layout::Undated => Some((0, text)),
        Layout::Dated => {
            let (digits, more) = split_first(0, text)?;
            Some((number_within(LAST_MOMENT, digits)?, more))
        }
    }
}

// The record that bytes begin with, and what comes after it, or None if they begin with none.
pub(crate) fn next_record(layout: Layout, text: &[u8]) -> Option<(Record<'_>, &[u8])>
    ensures value { option_map (λ r. (r.0, r.1.now)) result ≡ record_at layout text.now }
    ensures shorter { IfSome result (λ r. length r.1.now < length text.now) }
{
    let [first, rest @ ..] = text else {
        return None;
    };
    if *first != b'T' {
        return None;
    }
    let (who, rest) = split_first(0, rest)?;
    if !is_canonical(who) {
        return None;
    }
    let (since, more) = next_moment(layout, rest)?;
    let own = &text[..text.len() - more.len()];
    Some((Record::new(layout, own, who, since), more))
}

impl<'a> Keyed<'a> for Record<'a> {
    type File = BucketForm;

    ghost key_of = { member_key };

    ghost asked = { key };

    ghost spelling = { record_text Dated };

    ghost record_at = { member_at };

    fn compare(&self, other: &Record<'a>) -> Ordering {
        self.compare_to(other)
    }

    fn has_key(&self, text: &[u8]) -> bool {
        self.who.eq_ignore_ascii_case(text)
    }

    fn push(&self, _alloc: Global, out: &mut Bytes) -> Result<(), AllocError> {
        out.extend(self.text)?;
        if let Layout::Undated = self.layout {
            out.extend(b"0\x00")?;
        }
        Ok(())
    }

    fn read(
        _alloc: Global,
        form: BucketForm,
        text: &'a [u8],
    ) -> Result<Option<(Record<'a>, &'a [u8])>, AllocError> {
        let Some((record, more)) = next_record(form.layout, text) else {
            return Ok(None);
        };
        if bucket_of_lower(record.who) != form.n {
            return Ok(None);
        }
        Ok(Some((record, more)))
    }
}
