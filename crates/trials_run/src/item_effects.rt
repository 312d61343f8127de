// Items over the files of a list: how they are answered, and what is found afterwards.
ghost use Rattle.ml_plain.specs.Items.{IsItem};

use ml_base::{Bytes, Layer, Name, PartError, Txn, read_number};
use ml_list::{apply, floor, load};
use ml_plain::{Item, Reply};
use ml_site::{Fill, Image, MemSite, MemSource};
use ml_stream::Items;
use std::alloc::{AllocError, Global};
use std::test::Fail;
use trials_lists::{copy, error_text, lay, reply_text, text_of};
use trials_scripts::{OnSite, ended_with};

// The files, with the puts of the items so far over them.
type List = Layer<OnSite>;

// The code and the number of a reply, whose puts are laid over the list, or an error.
fn told(
    alloc: Global,
    list: &mut List,
    answer: Result<(Txn, Reply), PartError>,
) -> Result<Bytes, AllocError> {
    match answer {
        Ok((txn, reply)) => {
            list.lay(txn)?;
            reply_text(alloc, reply.code, reply.number)
        }
        Err(error) => error_text(alloc, error),
    }
}

fn push_line(out: &mut Bytes, text: &[u8]) -> Result<(), AllocError> {
    out.extend(text)?;
    out.push(b'\n')
}

// The list after an item. The item's answer is added as a line: the code and the number of its reply, or an error.
fn applied(alloc: Global, list: List, item: &Item, out: &mut Bytes) -> Result<List, Fail>
    requires { IsItem item.now }
{
    let (mut list, answer) = apply(alloc, list, item);
    let text = told(alloc, &mut list, answer)?;
    push_line(out, text.as_slice())?;
    Ok(list)
}

// The list after the items of a stream, one after another.
fn all_applied(
    alloc: Global,
    list: List,
    input: &mut MemSource,
    out: &mut Bytes,
) -> Result<List, Fail> {
    let mut list = list;
    let mut items = Items::new();
    for _ in 0..u64::MAX {
        match items.next(alloc, input)? {
            Some(item) => list = applied(alloc, list, &item, out)?,
            None => break,
        }
    }
    Ok(list)
}

// The floor, or an error.
fn floor_text(alloc: Global, list: &mut List) -> Result<Bytes, AllocError> {
    match floor(alloc, list) {
        Ok(at) => Bytes::from_slice(alloc, format!(in alloc; "{at}")?.as_bytes()),
        Err(error) => error_text(alloc, error),
    }
}

// Whether there is a list, `list` or `none`, or an error.
fn load_text(alloc: Global, list: &mut List) -> Result<Bytes, AllocError> {
    match load(alloc, list) {
        Ok(Some(())) => Bytes::from_slice(alloc, b"list"),
        Ok(None) => Bytes::from_slice(alloc, b"none"),
        Err(error) => error_text(alloc, error),
    }
}

// The nine bytes of each number in the file of the kept replies of 512 numbers, or `-` if the file isn't as long as it should be.
fn kept(alloc: Global, image: &Image, words: &[String]) -> Result<Bytes, AllocError> {
    let mut out = Bytes::new(alloc);
    for word in words {
        let number = read_number(word.as_bytes()).unwrap_or(0);
        let at = number / 512;
        let file = text_of(&image.files, Name { kind: 19, at });
        let from = 9 * (number % 512) as usize;
        if file.len() == 4608 {
            out.extend(&file[from..from + 9])?;
        } else {
            out.push(b'-')?;
        }
    }
    Ok(out)
}

// How many of the first files of the kept replies are there. A word says how many files are the first.
fn blocks(alloc: Global, image: &Image, words: &[String]) -> Result<Bytes, AllocError> {
    let count = match words.first() {
        Some(word) => read_number(word.as_bytes()).unwrap_or(0),
        None => 0,
    };
    let mut there: u64 = 0;
    for at in 0..count {
        if image.files.contains_key(&Name { kind: 19, at }) {
            there = there.saturating_add(1);
        }
    }
    let mut out = Bytes::new(alloc);
    out.push_number(there)?;
    Ok(out)
}

// The files of a site that has this image, under no puts.
fn list_of(alloc: Global, site: MemSite, image: &Image) -> Result<List, AllocError> {
    let files = copy(alloc, &image.files)?;
    Ok(Layer::new(OnSite { site, files }, Txn::new(alloc)))
}

// The image with the puts laid over its files.
fn laid(alloc: Global, list: List, image: Image) -> Result<Image, AllocError> {
    let (_, puts) = list.parts();
    let mut image = image;
    lay(alloc, &mut image.files, &puts)?;
    Ok(image)
}

// What is read from a list.
fn looked_at(alloc: Global, list: &mut List, verb: &str) -> Result<Bytes, Fail> {
    if verb == "floor" {
        Ok(floor_text(alloc, list)?)
    } else if verb == "load" {
        Ok(load_text(alloc, list)?)
    } else {
        Err(Fail::new(format_args!("no call: {verb}")))
    }
}

// The list after a call, and what the call answers.
fn called(
    alloc: Global,
    list: List,
    verb: &str,
    input: &mut MemSource,
) -> Result<(List, Bytes), Fail> {
    let mut list = list;
    if verb == "apply" {
        let mut out = Bytes::new(alloc);
        let list = all_applied(alloc, list, input, &mut out)?;
        return Ok((list, out));
    }
    let out = looked_at(alloc, &mut list, verb)?;
    Ok((list, out))
}

// How a call ends that looks at the kept replies.
fn seen(alloc: Global, image: Image, verb: &str, words: &[String]) -> Result<(u8, MemSite), Fail> {
    let text = if verb == "kept" {
        kept(alloc, &image, words)?
    } else {
        blocks(alloc, &image, words)?
    };
    ended_with(alloc, 0, image, text.as_slice())
}

// How a call on the files of a site ends.
pub(crate) fn ended(
    alloc: Global,
    site: MemSite,
    verb: &str,
    words: &[String],
    input: &mut MemSource,
) -> Result<(u8, MemSite), Fail> {
    let image = site.crash(alloc, 0, Fill::Old)?;
    if verb == "kept" || verb == "blocks" {
        return seen(alloc, image, verb, words);
    }
    let list = list_of(alloc, site, &image)?;
    let (list, out) = called(alloc, list, verb, input)?;
    let image = laid(alloc, list, image)?;
    ended_with(alloc, 0, image, out.as_slice())
}
