// Writes the text of a digest.
ghost use Rattle.std.specs.Prelude.{◌≡◌, ◌≤◌, ◌<◌, ◌+◌, ◌++◌, ℕ, false, length, map, OnOk, IfOk};
ghost use Rattle.std.specs.List.{flat_map};
ghost use Rattle.ml_base.specs.Splits.{has_byte};
ghost use Rattle.ml_config.specs.Configuration.{IsConfig};
ghost use Rattle.ml_digest.specs.Burst.{IsDigest};
ghost use Rattle.ml_digest.specs.Digest as words;
ghost use Rattle.ml_digest.specs.Digest.{with_rule, message_text, AreDigested};
ghost use Rattle.ml_digest.specs.Steps.{topics_text, preface_text};

use crate::DigestPost;
use crate::digest_phrases::{add_end, add_header, add_title};
use crate::messages::add_message;
use ml_base::Bytes;
use ml_config::Config;
use std::alloc::{AllocError, Global};

// The most bytes that a digest has for a post besides its subject and its text: its number, and what is around both.
const ROUND_POST: usize = 64;

// The most bytes of the lines around topics and messages, except for the list's names and the date.
const ROUND_POSTS: usize = 512;

/// The text of a digest (RFC 1153), from its number, the number of its first post, its posts and its date. The posts
/// have consecutive numbers, up to 99,999,999. The only error is lack of memory.
pub fn digest_text(
    alloc: Global,
    config: &Config,
    issue: u64,
    first: u64,
    posts: &[DigestPost],
    date: &[u8],
) -> Result<Bytes, AllocError>
    requires some { 0 < length posts.now }
    requires from_one { 1 ≤ first }
    requires fit { first + length posts.now ≤ 100_000_000 }
    ensures text { IfOk result (λ text. text ≡ words.digest_text config.now issue first posts.now date.now) }
    ensures taken_apart { IsConfig config.now → AreDigested issue first posts.now → has_byte 10 date.now ≡ false →
        IfOk result (λ text. IsDigest text issue (map (λ p. message_text p.bytes) posts.now)) }
{
    let mut out = Bytes::with_capacity(alloc, room(config, posts, date))?;
    add_header(&mut out, config, issue, date)?;
    add_preface(&mut out, config.local.as_slice(), issue, first, posts)?;
    add_messages(&mut out, posts)?;
    add_end(&mut out, config.local.as_slice(), issue)?;
    Ok(out)
}

// The preface, with a line for every post, and the rule after it.
fn add_preface(
    out: &mut Bytes,
    name: &[u8],
    issue: u64,
    first: u64,
    posts: &[DigestPost],
) -> Result<(), AllocError>
    requires some { 0 < length posts.now }
    requires fit { first + length posts.now ≤ 100_000_000 }
    ensures { OnOk result (out.new ≡ out.old ++ preface_text name.now issue first posts.now) }
{
    add_title(out, name, issue)?;
    out.extend(b", posts ")?;
    out.push_number(first)?;
    out.extend(b" to ")?;
    out.push_number(first + posts.len() as u64 - 1)?;
    out.extend(b"\n\nTopics:\n")?;
    add_topics(out, first, posts)?;
    out.extend(b"\n----------------------------------------------------------------------\n\n")?;
    Ok(())
}

// A line for every post: its number and its subject.
fn add_topics(out: &mut Bytes, first: u64, posts: &[DigestPost]) -> Result<(), AllocError>
    requires { first + length posts.now ≤ 100_000_000 }
    ensures { OnOk result (out.new ≡ out.old ++ topics_text first posts.now) }
{
    for (i, post) in posts.iter().enumerate() {
        out.push_number(first + i as u64)?;
        out.extend(b": ")?;
        out.extend(post.subject.as_slice())?;
        out.push(b'\n')?;
    }
    Ok(())
}

// Every post's message, and after it an empty line, 30 hyphens and an empty line.
fn add_messages(out: &mut Bytes, posts: &[DigestPost]) -> Result<(), AllocError>
    ensures { OnOk result (out.new ≡ out.old ++ flat_map with_rule posts.now) }
{
    for post in posts {
        add_message(out, post.bytes.as_slice())?;
        out.extend(b"\n------------------------------\n\n")?;
    }
    Ok(())
}

// About as many bytes as the digest has, and not fewer, so that the buffer never grows.
fn room(config: &Config, posts: &[DigestPost], date: &[u8]) -> usize {
    let mut room = ROUND_POSTS.saturating_add(date.len());
    for name in [&config.local, &config.host] {
        room = room.saturating_add(name.len().saturating_mul(8));
    }
    for post in posts {
        room = room
            .saturating_add(ROUND_POST)
            .saturating_add(post.subject.len())
            .saturating_add(post.bytes.len());
    }
    room
}
