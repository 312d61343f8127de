// Issues: their text, written by hand, and what an issue has of every post.
use crate::digest_reader::told;
use crate::table_call::{Asked, NoAnswer};
use ml_base::Bytes;
use ml_config::read_config;
use ml_digest::{DigestPost, digest_text};
use std::alloc::{AllocError, Global};

/// What a call answers: `write ISSUE FIRST` the text of an issue with the number of its first post, of an input that has each post after its
/// subject, with a NUL between two texts; `burst ISSUE FIRST COUNT SHORT` what is read of an issue whose posts are COUNT times the input, SHORT
/// bytes short of its end.
pub(crate) fn answer(alloc: Global, asked: &Asked<'_>) -> Result<Bytes, NoAnswer> {
    let (issue, first) = (asked.number(0)?, asked.number(1)?);
    if asked.verb == "write" {
        let posts = posts_of(alloc, asked.input.as_slice())?;
        return written(alloc, issue, first, posts.as_slice());
    }
    let posts = alike(alloc, asked.input.as_slice(), asked.number(2)?)?;
    let mut text = written(alloc, issue, first, posts.as_slice())?;
    text.truncate(text.len().saturating_sub(asked.number(3)? as usize));
    told(alloc, text.as_slice())
}

fn post(alloc: Global, subject: &[u8], bytes: &[u8]) -> Result<DigestPost, AllocError> {
    Ok(DigestPost {
        subject: Bytes::from_slice(alloc, subject)?,
        bytes: Bytes::from_slice(alloc, bytes)?,
    })
}

fn posts_of(alloc: Global, text: &[u8]) -> Result<Vec<DigestPost>, AllocError> {
    let mut posts = Vec::new(alloc);
    let mut subject = None;
    for piece in text.split(|byte| *byte == 0) {
        match subject {
            Some(before) => {
                posts.push(post(alloc, before, piece)?)?;
                subject = None;
            }
            None => subject = Some(piece),
        }
    }
    Ok(posts)
}

fn alike(alloc: Global, text: &[u8], count: u64) -> Result<Vec<DigestPost>, AllocError> {
    let mut posts = Vec::new(alloc);
    for _ in 0..count {
        posts.push(post(alloc, b"s", text)?)?;
    }
    Ok(posts)
}

fn written(alloc: Global, issue: u64, first: u64, posts: &[DigestPost]) -> Result<Bytes, NoAnswer> {
    let Some(config) = read_config(alloc, CONFIG)? else {
        return Err(NoAnswer::NoCall);
    };
    if posts.is_empty() || posts.len() > 1000 {
        return Err(NoAnswer::NoCall);
    }
    if first == 0 || first > 100_000_000 - posts.len() as u64 {
        return Err(NoAnswer::NoCall);
    }
    Ok(digest_text(alloc, &config, issue, first, posts, DATE)?)
}

const CONFIG: &[u8] =
    b"flags BdFGHJKLMpRSTU\nlocal list\nhost ex.org\nowner o@own.org\nprefix \nmax 1048576\n";

const DATE: &[u8] = b"Sun, 09 Sep 2001 01:50:00 -0000";

pub(crate) const TABLE: &str = r"
# The fields of the first post are in another order, some twice, some folded, some that are not kept.
let first Return-Path: <a@b>\nSUMMARY: s\nKeywords: k\nmessage-id: <1@b>\nSubject: a Digest\n Issue 7\nCc: c@d\nX-Other: x\nTo: list@ex.org\ncc: e@f\nFrom: a@b\ndate: today\n\none\n------------------------------\ntwo\n
let second From: c@d\nSubject: End of list Digest Issue 3\n\nEnd of list Digest Issue 3\n***************************
let issue Mailing-List: contact list-help@ex.org; run by ezmlm\nPrecedence: bulk\nFrom: list-help@ex.org\nTo: list@ex.org\nDate: Sun, 09 Sep 2001 01:50:00 -0000\nSubject: list Digest Issue 3\n\nlist Digest Issue 3, posts 41 to 42\n\nTopics:\n41: a Digest Issue 7\n42: End of list Digest Issue 3\n\n----------------------------------------------------------------------\n\ndate: today\nFrom: a@b\nTo: list@ex.org\nCc: c@d\ncc: e@f\nSubject: a Digest\n Issue 7\nmessage-id: <1@b>\nKeywords: k\nSUMMARY: s\n\none\n -----------------------------\ntwo\n\n------------------------------\n\n{second}\n\n------------------------------\n\nEnd of list Digest Issue 3\n**************************\n
# An issue of two posts.
input a Digest Issue 7\0{first}\0End of list Digest Issue 3\0{second} | run digests write 3 41 => 0 {issue}
# Posts, and what an issue has of them.
run digests burst 99999999 99999999 1 0 => 0 99999999\n|\n
input \n | run digests burst 99999999 99999999 1 0 => 0 99999999\n|\n
input \n\n | run digests burst 99999999 99999999 1 0 => 0 99999999\n|\n\n
input To: d | run digests burst 99999999 99999999 1 0 => 0 99999999\n|To: d\n\n
input To: d\n | run digests burst 99999999 99999999 1 0 => 0 99999999\n|To: d\n\n
input To: d\n\n | run digests burst 99999999 99999999 1 0 => 0 99999999\n|To: d\n\n
input To: d\n\nhi | run digests burst 99999999 99999999 1 0 => 0 99999999\n|To: d\n\nhi\n
input To: d\n\nhi\n\n\n | run digests burst 99999999 99999999 1 0 => 0 99999999\n|To: d\n\nhi\n\n\n
input X: y\n\nhi\n | run digests burst 99999999 99999999 1 0 => 0 99999999\n|\nhi\n
input To: d\x0D\n\x0D\nhi\x0D\n | run digests burst 99999999 99999999 1 0 => 0 99999999\n|To: d\x0D\n\nhi\x0D\n
input To: d\n e\n\x09f\nX: y\n g\n\nhi\n | run digests burst 99999999 99999999 1 0 => 0 99999999\n|To: d\n e\n\x09f\n\nhi\n
input X: y\nTo: d | run digests burst 99999999 99999999 1 0 => 0 99999999\n|To: d\n\n
input no header\n\nhi\n | run digests burst 99999999 99999999 1 0 => 0 99999999\n|\nno header\n\nhi\n
input \x20To: d\n\nhi\n | run digests burst 99999999 99999999 1 0 => 0 99999999\n|\n To: d\n\nhi\n
input \n-----------------------------\n | run digests burst 99999999 99999999 1 0 => 0 99999999\n|\n-----------------------------\n
input \n------------------------------\n | run digests burst 99999999 99999999 1 0 => 0 99999999\n|\n -----------------------------\n
input \n------------------------------ | run digests burst 99999999 99999999 1 0 => 0 99999999\n|\n -----------------------------\n
input \n-------------------------------\n | run digests burst 99999999 99999999 1 0 => 0 99999999\n|\n-------------------------------\n
input \n----------------------------------------------------------------------\n | run digests burst 99999999 99999999 1 0 => 0 99999999\n|\n----------------------------------------------------------------------\n
input \n------------------------------\x0D\n | run digests burst 99999999 99999999 1 0 => 0 99999999\n|\n------------------------------\x0D\n
input \n ------------------------------\n | run digests burst 99999999 99999999 1 0 => 0 99999999\n|\n ------------------------------\n
input \n\n------------------------------\n\n------------------------------\n\nx | run digests burst 99999999 99999999 1 0 => 0 99999999\n|\n\n -----------------------------\n\n -----------------------------\n\nx\n
input \nEnd of list Digest Issue 99999999\n*********************************\n | run digests burst 99999999 99999999 1 0 => 0 99999999\n|\nEnd of list Digest Issue 99999999\n*********************************\n
input End of list: x\n\nhi\n | run digests burst 99999999 99999999 1 0 => 0 99999999\n|\nEnd of list: x\n\nhi\n
input To: a\nTO: b\ntO: c\n\n | run digests burst 99999999 99999999 1 0 => 0 99999999\n|To: a\nTO: b\ntO: c\n\n
input To: a\nFrom: b\nDate: c\n\n | run digests burst 99999999 99999999 1 0 => 0 99999999\n|Date: c\nFrom: b\nTo: a\n\n
# A post as it was sent, of 321 bytes.
let post Mailing-List: contact list-help@ex.org; run by ezmlm\nPrecedence: bulk\nList-Post: <mailto:list@ex.org>\nList-Help: <mailto:list-help@ex.org>\nList-Unsubscribe: <mailto:list-unsubscribe@ex.org>\nList-Subscribe: <mailto:list-subscribe@ex.org>\nDelivered-To: mailing list list@ex.org\nFrom: a@b\nTo: list@ex.org\nSubject: hello\n\nhi\n
put ids 1:1\n | input {post} | run queue put reply => 0 1\n17/1 12:list-return-,6:ex.org,1:p,321:{post},\n18/0 1:2\n\n
# Issues of it, and the same without their last byte.
input {post} | run digests burst 1 1 100 0 => 0 1\n{1..100:|From: a@b\nTo: list@ex.org\nSubject: hello\n\nhi\n}
input {post} | run digests burst 1 1 100 1 => 0 none
input {post} | run digests burst 2 101 1 0 => 0 2\n|From: a@b\nTo: list@ex.org\nSubject: hello\n\nhi\n
input {post} | run digests burst 2 101 1 1 => 0 none
input {post} | run digests burst 1 1 101 0 => 0 1\n{1..101:|From: a@b\nTo: list@ex.org\nSubject: hello\n\nhi\n}
input {post} | run digests burst 1 1 101 1 => 0 none
";
