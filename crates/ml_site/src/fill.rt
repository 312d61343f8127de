// Images that a crash may leave: what is pending is filled with the old bytes, the new ones or one byte throughout.
ghost use Rattle.std.specs.Prelude.{◌≡◌, ◌≤◌, ◌-◌, ◌++◌, take, drop, replicate, vec_len, if◌then◌else◌, IfOk, OnOk};
ghost use Rattle.ml_base.specs.declared.names.Name.{Name as TheName};
ghost use Rattle.ml_site.specs.Disk.{Contents};
ghost use Rattle.ml_base.specs.Dir.{same_name};
ghost use Rattle.ml_site.specs.Recorded.{contents, lookup, at_rest, after};
ghost use Rattle.ml_site.specs.Filled.{filled, bytes_filled, file_filled, parts_of};

use crate::Image;
use crate::call::Call;
use crate::replay::{is_sync, put_in, replay, settled_calls};
use ml_base::{Bytes, Name};
use std::alloc::{AllocError, Global};
use std::collections::BTreeMap;

/// What a crash leaves in the parts that no sync has settled.
#[derive(Clone, Copy, Debug, PartialEq, Eq)]
pub enum Fill {
    /// What the last sync settled.
    Old,
    /// What reads give.
    New,
    /// This byte at every place, in as many places as reads give.
    Byte(u8),
}

/// Puts a byte at the places from `from` on and before `end`.
fn overwrite(log: &mut Vec<u8>, from: usize, end: usize, byte: u8)
    requires start { from ≤ end }
    requires within { end ≤ vec_len log.old }
    ensures { log.new.items ≡ take from log.old.items ++ replicate (end - from) byte ++ drop end log.old.items }
{
    log[from..end].fill(byte);
}

/// Puts a byte in place of every byte of a file, if it is there.
fn fill_file(
    alloc: Global,
    files: &mut BTreeMap<Name, Bytes>,
    name: Name,
    byte: u8,
) -> Result<(), AllocError>
    ensures { OnOk result ((other : TheName) → lookup files.new other
        ≡ (if same_name other name then file_filled byte (lookup files.old other) else lookup files.old other)) }
{
    let size = match files.get(&name) {
        Some(bytes) => bytes.len(),
        None => return Ok(()),
    };
    let bytes = Bytes::from_vec(vec![in alloc; byte; size]?);
    put_in(files, name, bytes)
}

/// Puts a byte at every place that a call left pending.
fn fill_part(
    alloc: Global,
    log: &mut Vec<u8>,
    files: &mut BTreeMap<Name, Bytes>,
    call: &Call,
    byte: u8,
) -> Result<(), AllocError>
    ensures { OnOk result (contents log.new.items files.new
        ≡ bytes_filled byte (parts_of call.now) (contents log.old.items files.old)) }
{
    let end = log.len();
    match call {
        Call::WriteLog(at, bytes) => {
            let from = end.min(*at as usize);
            overwrite(log, from, from + bytes.len().min(end - from), byte);
        }
        Call::FailedLog(at, size) => {
            let from = end.min(*at as usize);
            overwrite(log, from, from + (end - from).min(*size as usize), byte);
        }
        Call::CutLog(size) | Call::FailedCut(size) => {
            overwrite(log, end.min(*size as usize), end, byte);
        }
        Call::WriteFile(name, _) | Call::RemoveFile(name) | Call::FailedFile(name) => {
            fill_file(alloc, files, *name, byte)?;
        }
        _ => {}
    }
    Ok(())
}

/// An image with a byte at every place that these calls left pending.
fn fill_pending(alloc: Global, image: Image, calls: &[Call], byte: u8) -> Result<Image, AllocError>
    ensures { (start : Contents) → IfOk result (λ filled. contents filled.log filled.files
        ≡ bytes_filled byte (after (at_rest start) calls.now).pending (contents image.log image.files)) }
{
    let mut log = image.log.into_vec();
    let mut files = image.files;
    let mut left = calls.len();
    while left > 0 {
        left -= 1;
        let call = &calls[left];
        if is_sync(call) {
            break;
        }
        fill_part(alloc, &mut log, &mut files, call, byte)?;
    }
    Ok(Image {
        log: Bytes::from_vec(log),
        files,
    })
}

/// What a crash after these calls leaves, as `fill` says. At first the disk held this log and these files, and was at rest.
pub fn image_left(
    alloc: Global,
    log: &[u8],
    files: &BTreeMap<Name, Bytes>,
    calls: &[Call],
    fill: Fill,
) -> Result<Image, AllocError>
    ensures { IfOk result (λ image. contents image.log image.files
        ≡ filled fill (after (at_rest (contents log.now files.now)) calls.now)) }
{
    match fill {
        Fill::Old => replay(alloc, log, files, &calls[..settled_calls(calls)]),
        Fill::New => replay(alloc, log, files, calls),
        Fill::Byte(byte) => {
            let image = replay(alloc, log, files, calls)?;
            fill_pending(alloc, image, calls, byte)
        }
    }
}
