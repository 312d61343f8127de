// The steps on a site. Each answers a line: `done`, `failed`, or the bytes that it reads, with `-` for a file that is absent. A step is a verb
// and what it is given, with `=` between them. A file is named by its kind and its place, as `3.29`.
use ml_base::{Bytes, Name, read_number, split_first};
use ml_site::{Failed, Fill, Image, MemSite, Site, SiteError, Unfailing};
use std::alloc::{AllocError, Global};
use trials_lists::text_of;

// The key and a bucket.
const SHOWN: [Name; 2] = [Name { kind: 2, at: 0 }, Name { kind: 3, at: 1 }];

// The parts of a step before and after the first `=`.
pub(crate) fn parts(step: &[u8]) -> (&[u8], &[u8]) {
    split_first(b'=', step).unwrap_or((step, &[]))
}

// The number of these digits, or 0.
pub(crate) fn number(text: &[u8]) -> u64 {
    read_number(text).unwrap_or(0)
}

// The file of a kind and a place. A text that names no file gives the log.
pub(crate) fn name(text: &[u8]) -> Name {
    let (kind, at) = split_first(b'.', text).unwrap_or((&[], &[]));
    Name {
        kind: number(kind).min(255) as u8,
        at: number(at),
    }
}

// Adds that a call failed.
fn push_error(error: SiteError, out: &mut Bytes) -> Result<(), AllocError> {
    match error {
        SiteError::Failed => out.extend(b"failed"),
        SiteError::Memory => Err(AllocError),
    }
}

// Adds the answer of a call that changes something and takes memory.
fn push_changed(changed: Result<(), SiteError>, out: &mut Bytes) -> Result<(), AllocError> {
    match changed {
        Ok(()) => out.extend(b"done"),
        Err(error) => push_error(error, out),
    }
}

// Adds the answer of a call that takes no memory.
pub(crate) fn push_done(done: Result<(), Failed>, out: &mut Bytes) -> Result<(), AllocError> {
    match done {
        Ok(()) => out.extend(b"done"),
        Err(_) => out.extend(b"failed"),
    }
}

// Adds what a call reads, with `-` for a file that is absent.
fn push_read(found: Result<Option<Bytes>, SiteError>, out: &mut Bytes) -> Result<(), AllocError> {
    match found {
        Ok(Some(bytes)) => out.extend(bytes.as_slice()),
        Ok(None) => out.push(b'-'),
        Err(error) => push_error(error, out),
    }
}

// Adds what a call on a file answers, if there is a file of this name.
fn on_file<S: Site>(
    alloc: Global,
    site: &mut S,
    verb: &[u8],
    rest: &[u8],
    out: &mut Bytes,
) -> Result<(), AllocError> {
    let (name_text, bytes) = parts(rest);
    let name = name(name_text);
    if name.kind == 0 || !name.is_in_table() {
        out.extend(b"no file")
    } else if verb == b"read".as_slice() {
        push_read(site.read_file(alloc, name), out)
    } else if verb == b"write".as_slice() {
        push_changed(site.write_file(alloc, name, bytes), out)
    } else {
        push_changed(site.remove_file(alloc, name), out)
    }
}

// Writes to the log at this place, or at its end if it is shorter.
fn write_at<S: Site>(alloc: Global, site: &mut S, at: u64, bytes: &[u8]) -> Result<(), SiteError> {
    let size = site.read_log(alloc)?.len() as u64;
    site.write_log(alloc, size.min(at), bytes)
}

// Cuts the log to this size, if it is longer.
fn cut_to<S: Site>(alloc: Global, site: &mut S, size: u64) -> Result<(), SiteError> {
    let len = site.read_log(alloc)?.len() as u64;
    match site.cut_log(len.min(size)) {
        Ok(()) => Ok(()),
        Err(_) => Err(SiteError::Failed),
    }
}

fn read_log<S: Site>(alloc: Global, site: &mut S) -> Result<Option<Bytes>, SiteError> {
    match site.read_log(alloc) {
        Ok(log) => Ok(Some(log)),
        Err(error) => Err(error),
    }
}

// Adds what a call on the log answers.
fn on_log<S: Site>(
    alloc: Global,
    site: &mut S,
    verb: &[u8],
    rest: &[u8],
    out: &mut Bytes,
) -> Result<(), AllocError> {
    if verb == b"read_log".as_slice() {
        push_read(read_log(alloc, site), out)
    } else if verb == b"write_log".as_slice() {
        push_changed(site.write_log(alloc, 0, rest), out)
    } else if verb == b"byte".as_slice() {
        let byte = number(rest).min(255) as u8;
        push_changed(site.write_log(alloc, 0, &[byte]), out)
    } else if verb == b"write_at".as_slice() {
        let (at, bytes) = parts(rest);
        push_changed(write_at(alloc, site, number(at), bytes), out)
    } else if verb == b"cut_log".as_slice() {
        push_done(site.cut_log(0), out)
    } else if verb == b"cut_to".as_slice() {
        push_changed(cut_to(alloc, site, number(rest)), out)
    } else {
        out.extend(b"no step")
    }
}

// Adds what a call answers, or that it failed.
pub(crate) fn push_answer<S: Site>(
    alloc: Global,
    site: &mut S,
    verb: &[u8],
    rest: &[u8],
    out: &mut Bytes,
) -> Result<(), AllocError> {
    if verb == b"read".as_slice() || verb == b"write".as_slice() || verb == b"remove".as_slice() {
        on_file(alloc, site, verb, rest, out)
    } else if verb == b"sync".as_slice() {
        push_done(site.sync(), out)
    } else if verb == b"give".as_slice() {
        push_done(site.give(rest), out)
    } else {
        on_log(alloc, site, verb, rest, out)
    }
}

// What a crash leaves in place of what no sync has settled: `old`, `new`, or the byte of this number.
pub(crate) fn fill(text: &[u8]) -> Fill {
    if text == b"old".as_slice() {
        Fill::Old
    } else if text == b"new".as_slice() {
        Fill::New
    } else {
        Fill::Byte(number(text).min(255) as u8)
    }
}

// Adds the log and these files, with bars between them, and `-` for a file that is absent.
pub(crate) fn push_image(image: &Image, names: &[Name], out: &mut Bytes) -> Result<(), AllocError> {
    out.extend(image.log.as_slice())?;
    for name in names {
        out.push(b'|')?;
        out.extend(text_of(&image.files, *name))?;
    }
    Ok(())
}

// Adds the log, the key and a bucket, as a crash leaves them: the text is `MOMENT=FILL`.
fn push_crash(
    alloc: Global,
    site: &MemSite,
    text: &[u8],
    out: &mut Bytes,
) -> Result<(), AllocError> {
    let (moment, left) = parts(text);
    let image = site.crash(alloc, number(moment), fill(left))?;
    push_image(&image, &SHOWN, out)
}

// Adds the answer of a step that only a site in memory has, or of a call.
fn push_step(
    alloc: Global,
    site: &mut MemSite,
    step: &[u8],
    out: &mut Bytes,
) -> Result<(), AllocError> {
    let (verb, rest) = parts(step);
    if verb == b"stop_after".as_slice() {
        site.stop_after(number(rest));
        out.extend(b"done")
    } else if verb == b"output".as_slice() {
        out.extend(site.output())
    } else if verb == b"crash".as_slice() {
        push_crash(alloc, site, rest, out)
    } else {
        push_answer(alloc, site, verb, rest, out)
    }
}

// Adds the answers of steps on a site in memory, a line each.
pub(crate) fn on_mem_site(
    alloc: Global,
    site: &mut MemSite,
    steps: &[u8],
    out: &mut Bytes,
) -> Result<(), AllocError> {
    for step in steps.split(|byte| *byte == b'\n') {
        push_step(alloc, site, step, out)?;
        out.push(b'\n')?;
    }
    Ok(())
}

// The same on a site that doesn't fail.
pub(crate) fn on_unfailing(
    alloc: Global,
    site: &mut Unfailing,
    steps: &[u8],
    out: &mut Bytes,
) -> Result<(), AllocError> {
    for step in steps.split(|byte| *byte == b'\n') {
        let (verb, rest) = parts(step);
        push_answer(alloc, site, verb, rest, out)?;
        out.push(b'\n')?;
    }
    Ok(())
}
