// How records are written.
ghost use Rattle.std.specs.Prelude.{◌≡◌, ◌≤◌, ◌<◌, ◌+◌, ◌^◌, ◌++◌, [], ◌∷◌, IsTrue, IfOk, IfSome, OnOk, length};
ghost use Rattle.std.specs.Fmt.{decimal};
ghost use Rattle.ml_base.specs.Netstrings.{ns};
ghost use Rattle.ml_journal.specs.Buffering.{Buffers};
ghost use Rattle.ml_journal.specs.Handing.{Hands};
ghost use Rattle.ml_journal.specs.Records.{spelled_head, spelled_name, spelled_put, spelled_puts, spelled_record};

use crate::log_writer::LogWriter;
use ml_base::{Bytes, LARGEST_READ, Name, Put, push_number_netstring, write_number};
use ml_site::{Site, SiteError};
use std::alloc::{AllocError, Global};

// So many bytes suffice for the length of a record with its colon, and for what comes before a put's content.
const HEAD: usize = 72;

/// Hands to the log, from this place on, the record of puts that take so many bytes, and a closed gate after it.
pub(crate) fn write_record<S: Site>(
    alloc: Global,
    site: &mut S,
    at: u64,
    puts: &[Put],
    size: usize,
) -> Result<(), SiteError>
    requires size { size ≡ length (spelled_puts puts.now) }
    requires small { size < 10 ^ 18 }
    requires low { at < 2 ^ 63 }
    requires place { IsTrue S.tells_reads → at ≤ length (S.disk site.old).reads.log }
    ensures { Hands ⟦<S as Site>⟧ result at (spelled_record puts.now ++ 0 ∷ []) site.old site.new }
{
    let mut writer = LogWriter::new(alloc, at, size + HEAD)?;
    let head = record_head(alloc, size as u64)?;
    writer.add(alloc, site, head.as_slice())?;
    add_puts(alloc, site, &mut writer, puts)?;
    writer.finish(alloc, site)
}

fn add_puts<S: Site>(
    alloc: Global,
    site: &mut S,
    writer: &mut LogWriter,
    puts: &[Put],
) -> Result<(), SiteError>
    requires place { IsTrue S.tells_reads → writer.old.at ≤ length (S.disk site.old).reads.log }
    requires fits { writer.old.at + length writer.old.buffered + length (spelled_puts puts.now) < 2 ^ 64 }
    ensures { Buffers ⟦<S as Site>⟧ result (spelled_puts puts.now) writer.old writer.new site.old site.new }
{
    for put in puts {
        add_put(alloc, site, writer, put)?;
    }
    Ok(())
}

fn add_put<S: Site>(
    alloc: Global,
    site: &mut S,
    writer: &mut LogWriter,
    put: &Put,
) -> Result<(), SiteError>
    requires place { IsTrue S.tells_reads → writer.old.at ≤ length (S.disk site.old).reads.log }
    requires fits { writer.old.at + length writer.old.buffered + length (spelled_put put.now) < 2 ^ 64 }
    ensures { Buffers ⟦<S as Site>⟧ result (spelled_put put.now) writer.old writer.new site.old site.new }
{
    let head = put_head(alloc, put)?;
    writer.add(alloc, site, head.as_slice())?;
    match &put.bytes {
        Some(bytes) => {
            writer.add(alloc, site, bytes.as_slice())?;
            writer.add(alloc, site, b",")
        }
        None => Ok(()),
    }
}

// What comes before the puts of a record.
fn record_head(alloc: Global, size: u64) -> Result<Bytes, AllocError>
    ensures { IfOk result (λ head. head ≡ decimal size ++ 58 ∷ []) }
{
    let mut head = Bytes::with_capacity(alloc, HEAD)?;
    head.push_number(size)?;
    head.push(b':')?;
    Ok(head)
}

// What comes before a put's content, or all of a put that removes.
fn put_head(alloc: Global, put: &Put) -> Result<Bytes, AllocError>
    ensures { IfOk result (λ head. head ≡ spelled_head put.now.name put.now.bytes) }
{
    let mut head = Bytes::with_capacity(alloc, HEAD)?;
    match &put.bytes {
        Some(bytes) => {
            head.push(b'W')?;
            add_name(&mut head, put.name)?;
            head.push_number(bytes.len() as u64)?;
            head.push(b':')?;
        }
        None => {
            head.push(b'X')?;
            add_name(&mut head, put.name)?;
        }
    }
    Ok(head)
}

fn add_name(out: &mut Bytes, name: Name) -> Result<(), AllocError>
    ensures { OnOk result (out.new ≡ out.old ++ spelled_name name) }
{
    push_number_netstring(out, name.kind as u64)?;
    push_number_netstring(out, name.at)
}

/// How many bytes the puts take in a record, or None if they are more than a netstring may have.
#[tactic(auto, using(crate::proofs::Spelled::size_next))]
pub(crate) fn puts_size(puts: &[Put]) -> Option<usize>
    ensures { IfSome result (λ size. (size ≡ length (spelled_puts puts.now)) × (size < 10 ^ 18)) }
{
    let mut size = 0;
    for put in puts {
        size += put_size(put)?;
        if size > LARGEST_READ as usize {
            return None;
        }
    }
    Some(size)
}

// How many bytes a put takes in a record, or None if its content is more than a netstring may have.
fn put_size(put: &Put) -> Option<usize>
    ensures { IfSome result (λ size. (size ≡ length (spelled_put put.now)) × (size < 10 ^ 18 + 100)) }
{
    let name = 1 + number_size(put.name.kind as u64) + number_size(put.name.at);
    match &put.bytes {
        Some(bytes) => {
            let size = bytes.len();
            if size > LARGEST_READ as usize {
                return None;
            }
            Some(name + digits_size(size as u64) + size + 2)
        }
        None => Some(name),
    }
}

// How many bytes the netstring of a number takes.
#[tactic(auto, using(crate::proofs::Spelled::ns_size))]
fn number_size(number: u64) -> usize
    ensures size { result ≡ length (ns (decimal number)) }
    ensures small { result ≤ 24 }
{
    let digits = digits_size(number);
    digits_size(digits as u64) + digits + 2
}

/// How many digits a number has.
pub(crate) fn digits_size(number: u64) -> usize
    ensures size { result ≡ length (decimal number) }
    ensures small { result ≤ 20 }
{
    let mut digits = [0u8; 20];
    write_number(number, &mut digits)
}
