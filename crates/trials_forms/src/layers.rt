// Puts laid over files, and a failing read passed on.
ghost use Rattle.std.specs.Prelude.{◌≡◌, ◌≤◌, ◌&&◌, IsTrue, IfOk, IsErrOf, is_some};
ghost use Rattle.ml_base.specs.Name.{is_file};
ghost use Rattle.ml_base.specs.Dir.{with_puts};
ghost use Rattle.ml_base.specs.ReadFiles.{IsReading};
ghost use Rattle.ml_base.specs.Faults.{Rose};
ghost use Rattle.ml_base.specs.declared.part_error.PartError.TheVariants.{Fault};

use crate::answer_text::push_debug;
use ml_base::{Bytes, Files, Layer, MapFiles, Name, Numbers, PartError, Put, Txn};
use std::alloc::{AllocError, Global};
use std::test::Fail;
use trials_lists::{memory, texts};

const KEY: Name = Name { kind: 2, at: 0 };

const LIST: Name = Name { kind: 3, at: 1 };

const COUNT: Name = Name { kind: 11, at: 0 };

// A file and its text from now on, or None if it is removed.
type Change = (Name, Option<&'static [u8]>);

// The bucket is written twice.
const TWICE: [Change; 2] = [(LIST, Some(b"one")), (LIST, Some(b"two"))];

const REMOVED: [Change; 1] = [(KEY, None)];

const WRITTEN: [Change; 1] = [(KEY, Some(b"new"))];

const IN_PLACE: [Change; 3] = [
    (LIST, Some(b"one")),
    (KEY, Some(b"new")),
    (LIST, Some(b"two")),
];

// Files with a key and a count. Their reads with these numbers fail.
fn files(alloc: Global, failing: &[u64]) -> Result<MapFiles, AllocError> {
    let files = [(2, 0, b"key".as_slice()), (11, 0, b"7".as_slice())];
    memory(alloc, &texts(alloc, &files)?, failing)
}

fn put(alloc: Global, change: Change) -> Result<Put, AllocError> {
    let bytes = match change.1 {
        Some(text) => Some(Bytes::from_slice(alloc, text)?),
        None => None,
    };
    Ok(Put {
        name: change.0,
        bytes,
    })
}

// The changes, each pushed after those before it or laid over them.
fn txn(alloc: Global, changes: &[Change], lays: bool) -> Result<Txn, AllocError> {
    let mut txn = Txn::new(alloc);
    for change in changes {
        let put = put(alloc, *change)?;
        if lays {
            txn.lay(put)?;
        } else {
            txn.push(put)?;
        }
    }
    Ok(txn)
}

// The bucket is written twice, and then the key is removed.
fn changes(alloc: Global) -> Result<Txn, AllocError> {
    let mut changes = txn(alloc, &TWICE, false)?;
    changes.join(txn(alloc, &REMOVED, false)?)?;
    Ok(changes)
}

// Adds the text of a file, with `-` for an absent one, and a space.
fn push_file<F: Files>(
    alloc: Global,
    files: &mut F,
    name: Name,
    out: &mut Bytes,
) -> Result<(), Fail>
    requires { IsTrue (is_file name) }
{
    match files.get(alloc, name)? {
        Some(bytes) => out.extend(bytes.as_slice())?,
        None => out.push(b'-')?,
    }
    Ok(out.push(b' ')?)
}

// Adds the texts of the bucket, the key and the count.
fn show<F: Files>(alloc: Global, files: &mut F, out: &mut Bytes) -> Result<(), Fail> {
    push_file(alloc, files, LIST, out)?;
    push_file(alloc, files, KEY, out)?;
    push_file(alloc, files, COUNT, out)
}

// Whether both of two files are there.
fn both_there<F: Files>(alloc: Global, files: &mut F, a: Name, b: Name) -> Result<bool, PartError>
    requires a { IsTrue (is_file a) }
    requires b { IsTrue (is_file b) }
    ensures value { IsTrue F.tells → IfOk result (λ both. both ≡ (is_some (F.map files.old a) && is_some (F.map files.old b))) }
    ensures reads { IsReading ⟦<F as Files>⟧ files.old files.new result }
{
    let first = files.get(alloc, a)?;
    let second = files.get(alloc, b)?;
    Ok(first.is_some() && second.is_some())
}

// Whether both of two files are there once a Txn is laid, and the files and the Txn again.
fn both_there_laid<F: Files>(
    alloc: Global,
    files: F,
    txn: Txn,
    a: Name,
    b: Name,
) -> (F, Txn, Result<bool, PartError>)
    requires a { IsTrue (is_file a) }
    requires b { IsTrue (is_file b) }
    ensures files { F.kept files result.0 }
    ensures txn { result.1 ≡ txn }
    ensures value { IsTrue F.tells → IfOk result.2 (λ both. both ≡ (is_some (with_puts (F.map files) txn a) && is_some (with_puts (F.map files) txn b))) }
    ensures cause { IsErrOf result.2 Fault → Rose (F.faults files) (F.faults result.0) }
{
    let mut layer = Layer::new(files, txn);
    let found = both_there(alloc, &mut layer, a, b);
    let (files, txn) = layer.parts();
    (files, txn, found)
}

// The files with the changes laid over them. Reads of the files with these numbers fail.
fn changed(alloc: Global, failing: &[u64]) -> Result<Layer<MapFiles>, AllocError> {
    let changes = changes(alloc)?;
    Ok(Layer::new(files(alloc, failing)?, changes))
}

// Adds what a layer shows, how many puts it has, and what the one below it shows.
fn show_both(alloc: Global, above: Layer<Layer<MapFiles>>, out: &mut Bytes) -> Result<(), Fail> {
    let mut above = above;
    show(alloc, &mut above, out)?;
    let (mut below, puts) = above.parts();
    out.extend(b"; ")?;
    out.push_number(puts.as_slice().len() as u64)?;
    out.extend(b"; ")?;
    show(alloc, &mut below, out)
}

// Adds what a layer shows, one above it, how many puts that one had, and what the first shows again.
pub(crate) fn layered(alloc: Global, out: &mut Bytes) -> Result<(), Fail> {
    let written = txn(alloc, &WRITTEN, false)?;
    let mut below = changed(alloc, &[])?;
    show(alloc, &mut below, out)?;
    out.extend(b"; ")?;
    show_both(alloc, Layer::new(below, written), out)
}

// Adds what was found of two files, and a `; `.
fn push_found(
    alloc: Global,
    out: &mut Bytes,
    found: &Result<bool, PartError>,
) -> Result<(), AllocError> {
    push_debug(alloc, out, found)?;
    out.extend(b"; ")
}

// Adds whether the count and the bucket are there, the same when the second read fails, whether the count and the key are
// there, and how many puts there are then.
pub(crate) fn failing(alloc: Global, out: &mut Bytes) -> Result<(), AllocError> {
    let mut layer = changed(alloc, &[2])?;
    let first = both_there(alloc, &mut layer, COUNT, LIST);
    let second = both_there(alloc, &mut layer, LIST, COUNT);
    let (files, puts) = layer.parts();
    let (_, puts, third) = both_there_laid(alloc, files, puts, COUNT, KEY);
    let count = puts.as_slice().len() as u64;
    for found in [first, second, third] {
        push_found(alloc, out, &found)?;
    }
    out.push_number(count)
}

// Adds how many puts are left of those that are laid over one another, and what they show.
pub(crate) fn in_place(alloc: Global, out: &mut Bytes) -> Result<(), Fail> {
    let puts = txn(alloc, &IN_PLACE, true)?;
    out.push_number(puts.as_slice().len() as u64)?;
    out.extend(b"; ")?;
    show(alloc, &mut Layer::new(files(alloc, &[])?, puts), out)
}
