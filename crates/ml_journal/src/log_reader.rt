// How the records of a log are read.
ghost use Rattle.std.specs.Prelude.{◌≡◌, ◌<◌, ◌++◌, [], ◌∷◌, length, MatchOption, IfOk, IfSome, IsTrue, OnOk, Some, None, option_map, map, if◌then◌else◌};
ghost use Rattle.std.specs.Option.{option_copied};
ghost use Rattle.ml_base.specs.Dir.{Dir, are_files, with_put, with_puts};
ghost use Rattle.ml_base.specs.Name.{is_file};
ghost use Rattle.ml_journal.specs.Found.{put_of, puts_found};
ghost use Rattle.ml_journal.specs.Table.{newest_over};
ghost use Rattle.ml_journal.specs.Log.{log_puts, laid_over};
ghost use Rattle.ml_journal.specs.Records.{number_at, name_at, write_at, removal_at, put_at, puts_of};

use crate::newest_puts::Newest;
use ml_base::{Bytes, Name, read_number, split_netstring};
use std::alloc::{AllocError, Global};

/// The newest put of every file that the records of a log name, or None if no record follows an open gate that isn't the
/// log's last byte. The log is gone through once, and only the bytes of the newest puts are copied.
#[tactic(auto, using(crate::proofs::Logs::log_files))]
pub(crate) fn read_log(alloc: Global, log: &[u8]) -> Result<Option<Newest>, AllocError>
    ensures { IfOk result (λ found. (files : Dir) → option_map (λ newest. newest_over newest files) found ≡ laid_over files (log_puts log.now)) }
{
    match puts_in(alloc, log)? {
        Some(found) => Ok(Some(newest_of(alloc, found.as_slice())?)),
        None => Ok(None),
    }
}

// The newest put of every file that the puts name.
fn newest_of(alloc: Global, found: &[FoundPut<'_>]) -> Result<Newest, AllocError>
    requires { IsTrue (are_files (puts_found found.now)) }
    ensures { IfOk result (λ newest. (files : Dir) → newest_over newest files ≡ with_puts files (puts_found found.now)) }
{
    let mut newest = Newest::new(alloc);
    let mut left = found.len();
    while left > 0 {
        left -= 1;
        add_older(alloc, &mut newest, found[left])?;
    }
    Ok(newest)
}

// Adds a put that is older than those that the table has.
fn add_older(alloc: Global, newest: &mut Newest, put: FoundPut<'_>) -> Result<(), AllocError>
    requires { IsTrue (is_file put.name) }
    ensures { OnOk result ((files : Dir) → newest_over newest.new files ≡ newest_over newest.old (with_put files (put_of put.entry))) }
{
    if newest.get(put.name).is_some() {
        return Ok(());
    }
    newest.set(put.name, copied(alloc, put.bytes)?)
}

fn copied(alloc: Global, bytes: Option<&[u8]>) -> Result<Option<Bytes>, AllocError>
    ensures { IfOk result (λ copy. copy ≡ option_copied bytes.entry) }
{
    match bytes {
        Some(bytes) => Ok(Some(Bytes::from_slice(alloc, bytes)?)),
        None => Ok(None),
    }
}

/// A put as it stands in a log.
#[derive(Clone, Copy)]
pub(crate) struct FoundPut<'a> {
    pub name: Name,
    pub bytes: Option<&'a [u8]>,
}

/// The puts of the open records of a log, up to its first closed gate or its last byte, or None if no record follows an open
/// gate that isn't the last byte. The log is gone through once, and none of its bytes are copied.
pub(crate) fn puts_in<'a>(
    alloc: Global,
    log: &'a [u8],
) -> Result<Option<Vec<FoundPut<'a>>>, AllocError>
    ensures { IfOk result (λ found. option_map (λ v. puts_found v.items) found ≡ log_puts log.now) }
{
    let mut found = Vec::new(alloc);
    let mut rest = log;
    while let Some(text) = after_open_gate(rest) {
        let Some((puts, after)) = split_netstring(text) else {
            return Ok(None);
        };
        if !add_puts_of(&mut found, puts)? {
            return Ok(None);
        }
        rest = after;
    }
    Ok(Some(found))
}

// What follows the gate of a log, if the gate is open and not the last byte.
#[tactic(auto, using(crate::proofs::ReadSoFar::shut))]
fn after_open_gate(log: &[u8]) -> Option<&[u8]>
    ensures { MatchOption result (log_puts log.now ≡ Some []) (λ text. (log.now ≡ 1 ∷ text.now) × (0 < length text.now)) }
{
    let [gate, text @ ..] = log else {
        return None;
    };
    if *gate == 1 && !text.is_empty() {
        Some(text)
    } else {
        None
    }
}

// Adds the puts of a row and answers true, or answers false if the text is no row of puts.
fn add_puts_of<'a>(found: &mut Vec<FoundPut<'a>>, text: &'a [u8]) -> Result<bool, AllocError>
    ensures { IfOk result (λ whole. option_map (λ puts. puts_found found.old.items ++ puts) (puts_of text.now)
        ≡ (if whole then Some (puts_found found.new.items) else None)) }
{
    let mut rest = text;
    while !rest.is_empty() {
        let Some((put, after)) = first_put(rest) else {
            return Ok(false);
        };
        found.push(put)?;
        rest = after;
    }
    Ok(true)
}

// The put that a text begins with, and what follows it.
fn first_put(text: &[u8]) -> Option<(FoundPut<'_>, &[u8])>
    ensures { option_map (λ r. (put_of r.0, r.1.now)) result ≡ put_at text.now }
{
    let [letter, rest @ ..] = text else {
        return None;
    };
    match *letter {
        b'W' => first_write(rest),
        b'X' => first_removal(rest),
        _ => None,
    }
}

fn first_write(text: &[u8]) -> Option<(FoundPut<'_>, &[u8])>
    ensures { option_map (λ r. (put_of r.0, r.1.now)) result ≡ write_at text.now }
{
    let (name, rest) = first_name(text)?;
    let (bytes, after) = split_netstring(rest)?;
    let put = FoundPut {
        name,
        bytes: Some(bytes),
    };
    Some((put, after))
}

fn first_removal(text: &[u8]) -> Option<(FoundPut<'_>, &[u8])>
    ensures { option_map (λ r. (put_of r.0, r.1.now)) result ≡ removal_at text.now }
{
    let (name, after) = first_name(text)?;
    Some((FoundPut { name, bytes: None }, after))
}

// The name that a text begins with, and what follows it.
fn first_name(text: &[u8]) -> Option<(Name, &[u8])>
    ensures { option_map (λ r. (r.0, r.1.now)) result ≡ name_at text.now }
{
    let (kind, rest) = first_number(text)?;
    let (at, after) = first_number(rest)?;
    let name = Name::file(kind, at)?;
    Some((name, after))
}

// The number whose netstring a text begins with, and what follows it.
fn first_number(text: &[u8]) -> Option<(u64, &[u8])>
    ensures { option_map (λ r. (r.0, r.1.now)) result ≡ number_at text.now }
{
    let (digits, after) = split_netstring(text)?;
    let number = read_number(digits)?;
    Some((number, after))
}
