// The steps on a store over a site. Each answers a line: `done`, an error in its words, or what it shows. A step on a store answers `no store`
// if none is open.
ghost use Rattle.std.specs.Prelude.{IsTrue, IfOk};
ghost use Rattle.ml_base.specs.Dir.{are_files};

use crate::site_steps::{fill, name, number, parts, push_answer, push_done, push_image};
use ml_base::{Bytes, Files, Name, Put, Txn};
use ml_journal::{CommitError, OpenError, Store};
use ml_site::MemSite;
use std::alloc::{AllocError, Global};
use std::fmt::Display;
use std::test::Fail;

const POSTS: [Name; 3] = [
    Name { kind: 9, at: 1 },
    Name { kind: 9, at: 2 },
    Name { kind: 9, at: 3 },
];

// A store, or a site without one.
#[derive(Drop)]
enum Held {
    Store(Store<MemSite>),
    Site(MemSite),
}

// Adds that something was done, or an error in its words.
fn push_ended<E: Display>(
    alloc: Global,
    ended: &Result<(), E>,
    out: &mut Bytes,
) -> Result<(), AllocError> {
    match ended {
        Ok(()) => out.extend(b"done"),
        Err(error) => {
            let text = format!(in alloc; "{error}")?;
            out.extend(text.as_bytes())
        }
    }
}

// What there is after opening a store over a site, and how that ended.
fn opened(alloc: Global, site: MemSite) -> (Held, Result<(), OpenError>) {
    match Store::open(alloc, site) {
        Ok(store) => (Held::Store(store), Ok(())),
        Err((error, site)) => (Held::Site(site), Err(error)),
    }
}

// Opens a store over the site, or over the site of the store that was open.
fn open(alloc: Global, held: Held, out: &mut Bytes) -> Result<Held, AllocError> {
    let site = match held {
        Held::Store(store) => store.leave(),
        Held::Site(site) => site,
    };
    let (held, ended) = opened(alloc, site);
    push_ended(alloc, &ended, out)?;
    Ok(held)
}

// A txn with one more put after the others, if its name is a file's: a text, or a removal by `-`.
fn with_put(alloc: Global, txn: Txn, name: Name, text: &[u8]) -> Result<Txn, AllocError>
    requires { IsTrue (are_files txn) }
    ensures { IfOk result (λ txn. IsTrue (are_files txn)) }
{
    let mut txn = txn;
    if name.kind == 0 || !name.is_in_table() {
        return Ok(txn);
    }
    let bytes = if text == b"-".as_slice() {
        None
    } else {
        Some(Bytes::from_slice(alloc, text)?)
    };
    txn.push(Put { name, bytes })?;
    Ok(txn)
}

// A txn of at most two puts: `NAME=TEXT=NAME=TEXT`.
fn txn_of(alloc: Global, puts: &[u8]) -> Result<Txn, AllocError>
    ensures { IfOk result (λ txn. IsTrue (are_files txn)) }
{
    let (first, rest) = parts(puts);
    let (text, rest) = parts(rest);
    let (second, last) = parts(rest);
    let txn = with_put(alloc, Txn::new(alloc), name(first), text)?;
    with_put(alloc, txn, name(second), last)
}

// What there is after a commit, and how that ended.
fn settled(
    done: Result<Store<MemSite>, (CommitError, MemSite)>,
) -> (Held, Result<(), CommitError>) {
    match done {
        Ok(store) => (Held::Store(store), Ok(())),
        Err((error, site)) => (Held::Site(site), Err(error)),
    }
}

// Commits puts in a txn that is given away.
fn commit(
    alloc: Global,
    store: Store<MemSite>,
    puts: &[u8],
    out: &mut Bytes,
) -> Result<Held, AllocError> {
    let txn = txn_of(alloc, puts)?;
    let (held, ended) = settled(store.commit_owned(alloc, txn));
    push_ended(alloc, &ended, out)?;
    Ok(held)
}

// Commits puts in a txn that is lent.
fn lend(
    alloc: Global,
    store: Store<MemSite>,
    puts: &[u8],
    out: &mut Bytes,
) -> Result<Held, AllocError> {
    let txn = txn_of(alloc, puts)?;
    let (held, ended) = settled(store.commit(alloc, &txn));
    push_ended(alloc, &ended, out)?;
    Ok(held)
}

fn close(alloc: Global, store: Store<MemSite>, out: &mut Bytes) -> Result<Held, AllocError> {
    let (closed, site) = store.close(alloc);
    push_ended(alloc, &closed, out)?;
    Ok(Held::Site(site))
}

// Adds the bytes of files of a store, each with a bar after it, and `-` for one that is absent: `NAME,NAME`.
fn show(
    alloc: Global,
    store: &mut Store<MemSite>,
    names: &[u8],
    out: &mut Bytes,
) -> Result<(), Fail> {
    for text in names.split(|byte| *byte == b',') {
        let name = name(text);
        if name.kind != 0 && name.is_in_table() {
            match store.get(alloc, name)? {
                Some(bytes) => out.extend(bytes.as_slice())?,
                None => out.push(b'-')?,
            }
        }
        out.push(b'|')?;
    }
    Ok(())
}

// Whether a step is one on a store.
fn is_of_store(verb: &[u8]) -> bool {
    verb == b"commit".as_slice()
        || verb == b"lend".as_slice()
        || verb == b"close".as_slice()
        || verb == b"show".as_slice()
        || verb == b"give".as_slice()
}

// Shows files of a store, or gives bytes.
fn show_or_give(
    alloc: Global,
    store: &mut Store<MemSite>,
    verb: &[u8],
    rest: &[u8],
    out: &mut Bytes,
) -> Result<(), Fail> {
    if verb == b"show".as_slice() {
        show(alloc, store, rest, out)
    } else {
        Ok(push_done(store.give(rest), out)?)
    }
}

// What there is after a step on a store: `commit` of puts in a txn that is given away, `lend` of puts in one that is lent, `close`, `show`
// of files, or `give`.
fn on_store(
    alloc: Global,
    store: Store<MemSite>,
    verb: &[u8],
    rest: &[u8],
    out: &mut Bytes,
) -> Result<Held, Fail> {
    if verb == b"commit".as_slice() {
        Ok(commit(alloc, store, rest, out)?)
    } else if verb == b"lend".as_slice() {
        Ok(lend(alloc, store, rest, out)?)
    } else if verb == b"close".as_slice() {
        Ok(close(alloc, store, out)?)
    } else {
        let mut store = store;
        show_or_give(alloc, &mut store, verb, rest, out)?;
        Ok(Held::Store(store))
    }
}

// Adds what a crash leaves of a site: the log, the posts, and how many files there are.
fn push_left(
    alloc: Global,
    site: &MemSite,
    moment: u64,
    left: &[u8],
    out: &mut Bytes,
) -> Result<(), AllocError> {
    let image = site.crash(alloc, moment, fill(left))?;
    push_image(&image, &POSTS, out)?;
    out.push(b'|')?;
    out.push_number(image.files.len() as u64)
}

// What a crash leaves of a site, as a site.
fn crashed(alloc: Global, site: &MemSite, moment: u64, left: &[u8]) -> Result<MemSite, AllocError> {
    let image = site.crash(alloc, moment, fill(left))?;
    MemSite::new(alloc, image, 60, 0)
}

// Does a step on a site: `left` shows what a crash leaves, and `crash` replaces the site by one with that. Both take the number of calls
// after which the crash comes, and what it leaves in place of what no sync has settled.
fn step_on_site(
    alloc: Global,
    site: &mut MemSite,
    verb: &[u8],
    rest: &[u8],
    out: &mut Bytes,
) -> Result<(), AllocError> {
    let (moment, left) = parts(rest);
    if is_of_store(verb) {
        out.extend(b"no store")
    } else if verb == b"output".as_slice() {
        out.extend(site.output())
    } else if verb == b"left".as_slice() {
        push_left(alloc, site, number(moment), left, out)
    } else if verb == b"crash".as_slice() {
        *site = crashed(alloc, site, number(moment), left)?;
        Ok(())
    } else {
        push_answer(alloc, site, verb, rest, out)
    }
}

// The site after a step on it.
fn on_site(
    alloc: Global,
    site: MemSite,
    verb: &[u8],
    rest: &[u8],
    out: &mut Bytes,
) -> Result<Held, AllocError> {
    let mut site = site;
    step_on_site(alloc, &mut site, verb, rest, out)?;
    Ok(Held::Site(site))
}

// What there is after a step.
fn stepped(alloc: Global, held: Held, step: &[u8], out: &mut Bytes) -> Result<Held, Fail> {
    let (verb, rest) = parts(step);
    if verb == b"open".as_slice() {
        return Ok(open(alloc, held, out)?);
    }
    match held {
        Held::Store(store) => {
            if is_of_store(verb) {
                on_store(alloc, store, verb, rest, out)
            } else {
                Ok(on_site(alloc, store.leave(), verb, rest, out)?)
            }
        }
        Held::Site(site) => Ok(on_site(alloc, site, verb, rest, out)?),
    }
}

// Adds the answers of steps over a site, a line each.
pub(crate) fn on_stores(
    alloc: Global,
    site: MemSite,
    steps: &[u8],
    out: &mut Bytes,
) -> Result<(), Fail> {
    let mut held = Held::Site(site);
    for step in steps.split(|byte| *byte == b'\n') {
        held = stepped(alloc, held, step, out)?;
        out.push(b'\n')?;
    }
    Ok(())
}
