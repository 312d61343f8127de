// Runs over a list on a site in memory.
use ml_base::{Bytes, Name, Numbers, Set, read_number};
use ml_run::{make, run};
use ml_site::{Fill, MemSite, MemSource, Site};
use std::alloc::{AllocError, Global};
use std::test::Fail;
use trials_lists::{KEY, add_member, config};
use trials_scripts::{ended_with, read_whole};

// The list is made.
pub(crate) fn made(alloc: Global, site: MemSite) -> Result<(u8, MemSite), Fail> {
    let config = config(alloc, b"", b"", 1_048_576)?;
    Ok(make(alloc, &config, &KEY, site))
}

// A run of at most this many items. After its output the site has put out how many were answered.
pub(crate) fn spool(
    alloc: Global,
    site: MemSite,
    limit: u64,
    input: &mut MemSource,
) -> Result<(u8, MemSite), Fail> {
    let (ending, mut site) = run(alloc, limit, input, site);
    site.fail(alloc, &[])?;
    let answered = format!(in alloc; "{} answered", ending.answered)?;
    site.give(answered.as_bytes())?;
    Ok((ending.status, site))
}

// The same for a stream that ends after this many bytes.
pub(crate) fn cut(
    alloc: Global,
    site: MemSite,
    size: u64,
    input: &mut MemSource,
) -> Result<(u8, MemSite), Fail> {
    let mut stream = read_whole(alloc, input)?;
    stream.truncate(size as usize);
    let mut input = MemSource::new(stream, Numbers::new(alloc));
    spool(alloc, site, 1_000_000, &mut input)
}

// Gives the set list this many members, from `100000@b` on, and their count.
pub(crate) fn with_members(
    alloc: Global,
    site: MemSite,
    count: u64,
) -> Result<(u8, MemSite), Fail> {
    let mut image = site.crash(alloc, 0, Fill::Old)?;
    for member in 0..count.min(900_000) {
        let address = format!(in alloc; "{}@b", 100_000 + member)?;
        add_member(alloc, &mut image.files, Set::List, address.as_bytes())?;
    }
    let mut size = Bytes::new(alloc);
    size.push_number(count)?;
    size.push(b'\n')?;
    image.files.insert(Name { kind: 8, at: 0 }, size)?;
    ended_with(alloc, 0, image, b"")
}

// The gate of a log with a record after it, more than 4,608 bytes in all; or `-`.
pub(crate) fn gate(alloc: Global, site: &MemSite) -> Result<Bytes, AllocError> {
    let image = site.crash(alloc, 0, Fill::Old)?;
    match image.log.as_slice() {
        [gate, ..] if 4608 < image.log.len() => Bytes::from_slice(alloc, &[*gate]),
        _ => Bytes::from_slice(alloc, b"-"),
    }
}

// Whether the longest log that a run has at any instant is longer than the first of these numbers and shorter than the second; otherwise its
// length.
pub(crate) fn longest(
    alloc: Global,
    site: &MemSite,
    words: &[String],
    input: &mut MemSource,
) -> Result<Bytes, AllocError> {
    let (least, most) = match words {
        [least, most] => (read_number(least.as_bytes()), read_number(most.as_bytes())),
        _ => (None, None),
    };
    let image = site.crash(alloc, 0, Fill::Old)?;
    let (_, site) = run(
        alloc,
        1_000_000,
        input,
        MemSite::new(alloc, image, 3000, 10_000)?,
    );
    let mut longest = 0;
    for moment in 0..150 {
        longest = longest.max(site.crash(alloc, moment, Fill::New)?.log.len());
    }
    let longest = longest as u64;
    let mut out = Bytes::new(alloc);
    if least < Some(longest) && Some(longest) < most {
        out.extend(b"between")?;
    } else {
        out.push_number(longest)?;
    }
    Ok(out)
}
