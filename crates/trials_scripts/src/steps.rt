// Does the steps of a row.
use crate::paths::name_of;
use crate::stage::{Program, Stage, run};
use crate::texts::{Named, number_of, spelled_with};
use ml_base::{Bytes, Name, Numbers, Set, split_first};
use ml_site::{Fill, Image};
use std::alloc::Global;
use std::test::Fail;
use trials_lists::{Left, add_members, check_left, same, text_of};

// The number that a step gives, or that of the row's loop.
fn number_or(text: &str, turn: u64) -> Result<u64, Fail> {
    if text.is_empty() {
        Ok(turn)
    } else {
        number_of(text)
    }
}

// The numbers that a step gives, with single spaces between them, or that of the row's loop.
fn numbers_or(alloc: Global, text: &str, turn: u64) -> Result<Numbers, Fail> {
    let mut numbers = Numbers::new(alloc);
    for number in text.split(' ') {
        numbers.push(number_or(number, turn)?)?;
    }
    Ok(numbers)
}

// What is left in place of what no sync has settled: `old`, `new`, or the byte of this number.
fn fill_of(text: &str) -> Result<Fill, Fail> {
    if text == "old" {
        Ok(Fill::Old)
    } else if text == "new" {
        Ok(Fill::New)
    } else {
        Ok(Fill::Byte(number_of(text)?.min(255) as u8))
    }
}

// Does a step, if it says what the next command meets: `at`, `input`, `read`, `fail`, `calls`, `room`, `stop` or `fill`.
fn prepare(
    alloc: Global,
    named: &Named,
    stage: &mut Stage,
    verb: &str,
    rest: &str,
    turn: u64,
) -> Result<bool, Fail> {
    if verb == "at" && rest == "never" {
        stage.next.moment = None;
    } else if verb == "at" {
        stage.next.moment = Some(number_of(rest)?);
    } else if verb == "input" {
        stage.next.input = spelled_with(alloc, named, rest)?;
    } else if verb == "read" {
        stage.next.reads = numbers_or(alloc, rest, turn)?;
    } else if verb == "fail" {
        stage.next.failing = numbers_or(alloc, rest, turn)?;
    } else if verb == "stop" {
        stage.next.stop = number_or(rest, turn)?;
    } else if verb == "fill" {
        stage.next.fill = fill_of(rest)?;
    } else if verb == "calls" {
        stage.next.calls = number_of(rest)? as usize;
    } else if verb == "room" {
        stage.next.room = number_of(rest)? as usize;
    } else {
        return Ok(false);
    }
    Ok(true)
}

fn file_of(image: &Image, name: Name) -> &[u8] {
    if name == Name::LOG {
        image.log.as_slice()
    } else {
        text_of(&image.files, name)
    }
}

fn put(image: &mut Image, name: Name, text: Bytes) -> Result<(), Fail> {
    if name == Name::LOG {
        image.log = text;
    } else {
        image.files.insert(name, text)?;
    }
    Ok(())
}

// All bytes except the last.
fn without_last(bytes: &[u8]) -> &[u8] {
    match bytes {
        [rest @ .., _] => rest,
        [] => bytes,
    }
}

// One text after another.
fn joined(alloc: Global, first: &[u8], second: &[u8]) -> Result<Bytes, Fail> {
    let mut bytes = Bytes::from_slice(alloc, first)?;
    bytes.extend(second)?;
    Ok(bytes)
}

// The new text of a file: `put` gives it a text, `cut` takes its last byte away, `grow` adds a text at its end, and `take` gives it the text of
// another file.
fn changed(
    alloc: Global,
    named: &Named,
    image: &Image,
    verb: &str,
    name: Name,
    text: &str,
) -> Result<Option<Bytes>, Fail> {
    if verb == "put" {
        Ok(Some(spelled_with(alloc, named, text)?))
    } else if verb == "cut" {
        let rest = without_last(file_of(image, name));
        Ok(Some(Bytes::from_slice(alloc, rest)?))
    } else if verb == "grow" {
        let more = spelled_with(alloc, named, text)?;
        Ok(Some(joined(alloc, file_of(image, name), more.as_slice())?))
    } else if verb == "take" {
        let other = name_of(text)?;
        Ok(Some(Bytes::from_slice(alloc, file_of(image, other))?))
    } else {
        Ok(None)
    }
}

// Fails if a file doesn't have this text (`has`, `gets`), or isn't absent (`lacks`, `loses`).
fn compare(
    alloc: Global,
    named: &Named,
    place: &str,
    image: &Image,
    verb: &str,
    name: Name,
    text: &str,
) -> Result<(), Fail> {
    let wanted = if verb == "has" || verb == "gets" {
        spelled_with(alloc, named, text)?
    } else if verb == "lacks" || verb == "loses" {
        Bytes::from_slice(alloc, b"-")?
    } else {
        return Err(Fail::new(format_args!("{place}: no step: {verb}")));
    };
    same(alloc, place, 0, file_of(image, name), wanted.as_slice())
}

// Counts a file that the last command had to change, `gets` or `loses`, as one that was already so before it.
fn allow(alloc: Global, stage: &mut Stage, verb: &str, name: Name) -> Result<(), Fail> {
    if verb == "loses" {
        let _ = stage.before.files.remove(&name);
    } else if verb == "gets" {
        let text = Bytes::from_slice(alloc, file_of(&stage.image, name))?;
        put(&mut stage.before, name, text)?;
    }
    Ok(())
}

// Gives a text to the file with this number in a folder.
fn put_numbered(
    alloc: Global,
    named: &Named,
    image: &mut Image,
    folder: &str,
    number: u64,
    text: &str,
) -> Result<(), Fail> {
    let text = spelled_with(alloc, named, text)?;
    let path = format!(in alloc; "{folder}/{number}")?;
    put(image, name_of(path.as_str())?, text)
}

// Gives a text to the files with these numbers in a folder: `each FIRST LAST FOLDER TEXT`.
fn put_each(alloc: Global, named: &Named, image: &mut Image, rest: &str) -> Result<(), Fail> {
    let (first, rest) = rest.split_once(' ').unwrap_or((rest, ""));
    let (last, rest) = rest.split_once(' ').unwrap_or((rest, ""));
    let (folder, text) = rest.split_once(' ').unwrap_or((rest, ""));
    for number in number_of(first)?..=number_of(last)? {
        put_numbered(alloc, named, image, folder, number, text)?;
    }
    Ok(())
}

// Does a step on a file: one of the changes above, `drop`, or a comparison.
fn of_file(
    alloc: Global,
    named: &Named,
    place: &str,
    stage: &mut Stage,
    verb: &str,
    rest: &str,
) -> Result<(), Fail> {
    let (path, text) = rest.split_once(' ').unwrap_or((rest, ""));
    let name = name_of(path)?;
    if verb == "drop" {
        let _ = stage.image.files.remove(&name);
        return Ok(());
    }
    match changed(alloc, named, &stage.image, verb, name, text)? {
        Some(bytes) => put(&mut stage.image, name, bytes),
        None => {
            compare(alloc, named, place, &stage.image, verb, name, text)?;
            allow(alloc, stage, verb, name)
        }
    }
}

// A status, and after a space the output if there is any.
fn told(alloc: Global, status: u8, output: &[u8]) -> Result<Bytes, Fail> {
    let head = format!(in alloc; "{status}")?;
    let mut text = Bytes::from_slice(alloc, head.as_bytes())?;
    if !output.is_empty() {
        text.push(b' ')?;
        text.extend(output)?;
    }
    Ok(text)
}

// Whether an output is some first lines of an answer and then ends as for a command of which a call failed: with 73 and nothing more, or
// with a stop line of 111, alone or under the number of the line that it replaces.
fn says_so(status: u8, output: &[u8], answer: &[u8]) -> bool {
    let mut rest = output;
    for line in answer.split(|byte| *byte == b'\n') {
        match rest.strip_prefix(line) {
            Some([b'\n', more @ ..]) => rest = more,
            _ => return is_stop(status, rest, line),
        }
    }
    false
}

fn is_stop(status: u8, rest: &[u8], line: &[u8]) -> bool {
    let (number, _) = split_first(b' ', line).unwrap_or((line, line));
    (status == 73 && rest.is_empty())
        || (status == 111
            && (rest == b"- 111 disk\n".as_slice()
                || rest.strip_prefix(number) == Some(b" 111 disk\n".as_slice())))
}

// Whether a text is these pieces in order; each `*` between two of them stands for any bytes.
fn is_like(text: &[u8], pattern: &[u8]) -> bool {
    let Some((first, after)) = split_first(b'*', pattern) else {
        return text == pattern;
    };
    let Some(mut rest) = text.strip_prefix(first) else {
        return false;
    };
    let mut last: &[u8] = &[];
    for piece in after.split(|byte| *byte == b'*') {
        match after_piece(rest, piece) {
            Some(more) => rest = more,
            None => return false,
        }
        last = piece;
    }
    rest.is_empty() || text.ends_with(last)
}

// What comes after the first place at which a text has this piece.
fn after_piece<'a>(text: &'a [u8], piece: &[u8]) -> Option<&'a [u8]> {
    for from in 0..=text.len() {
        if let Some(rest) = text[from..].strip_prefix(piece) {
            return Some(rest);
        }
    }
    None
}

// Whether a command ended as a text says. With the verb `run` the text has to be the same, with `like` each `*` stands for any bytes, and with
// `may` the command may also end as if a call failed. `came` is its status with its output.
fn is_ending(verb: &str, status: u8, output: &[u8], came: &[u8], wanted: &[u8]) -> bool {
    let answer = match split_first(b' ', wanted) {
        Some((_, answer)) => answer,
        None => &[],
    };
    came == wanted
        || (verb == "like" && is_like(came, wanted))
        || (verb == "may" && says_so(status, output, answer))
}

// Whether a command ended as one of these endings says. They have `||` between them.
fn is_one_of(
    alloc: Global,
    named: &Named,
    verb: &str,
    endings: &str,
    status: u8,
    output: &[u8],
    came: &[u8],
) -> Result<bool, Fail> {
    for ending in endings.split(" || ") {
        let wanted = spelled_with(alloc, named, ending)?;
        if is_ending(verb, status, output, came, wanted.as_slice()) {
            return Ok(true);
        }
    }
    Ok(false)
}

// Fails with what came and the last of these endings.
fn differs(
    alloc: Global,
    named: &Named,
    place: &str,
    endings: &str,
    came: &[u8],
) -> Result<(), Fail> {
    let mut wanted = Bytes::new(alloc);
    for ending in endings.split(" || ") {
        wanted = spelled_with(alloc, named, ending)?;
    }
    same(alloc, place, 0, came, wanted.as_slice())?;
    Err(Fail::new(format_args!("{place}: no such ending")))
}

// Fails if a command didn't end as one of these endings says.
fn ends_so(
    alloc: Global,
    named: &Named,
    place: &str,
    verb: &str,
    endings: &str,
    status: u8,
    output: &[u8],
) -> Result<(), Fail> {
    let came = told(alloc, status, output)?;
    if is_one_of(alloc, named, verb, endings, status, output, came.as_slice())? {
        return Ok(());
    }
    differs(alloc, named, place, endings, came.as_slice())
}

// Fails if a command doesn't end as it should: `run WORDS => STATUS OUTPUT`, with further endings after `||`; `like` and `may` allow other
// endings too.
fn command<P: Program>(
    alloc: Global,
    named: &Named,
    place: &str,
    stage: &mut Stage,
    verb: &str,
    rest: &str,
) -> Result<(), Fail> {
    let Some((words, endings)) = rest.split_once("=> ") else {
        return Err(Fail::new(format_args!("{place}: no ending")));
    };
    let (status, output) = run::<P>(alloc, named, stage, words)?;
    ends_so(
        alloc,
        named,
        place,
        verb,
        endings,
        status,
        output.as_slice(),
    )
}

// Fails if the last command left a list that isn't as it was before.
fn is_as_before(alloc: Global, place: &str, stage: &Stage) -> Result<(), Fail> {
    let (before, image) = (&stage.before, &stage.image);
    same(alloc, place, 0, image.log.as_slice(), before.log.as_slice())?;
    check_left(
        alloc,
        place,
        0,
        &before.files,
        &image.files,
        &Left::Only(&[]),
    )
}

// Fails unless this number is right: for `unread` the bytes that the last command left of its input, and for `files` the files that are there.
fn is_count(alloc: Global, place: &str, count: usize, rest: &str) -> Result<(), Fail> {
    let count = format!(in alloc; "{count}")?;
    same(alloc, place, 0, count.as_bytes(), rest.as_bytes())
}

/// Does a step, in this turn of its row's loop, and fails if it doesn't end as it says.
pub(crate) fn step<P: Program>(
    alloc: Global,
    named: &Named,
    place: &str,
    stage: &mut Stage,
    text: &str,
    turn: u64,
) -> Result<(), Fail> {
    let (verb, rest) = text.split_once(' ').unwrap_or((text, ""));
    if verb == "run" || verb == "like" || verb == "may" {
        command::<P>(alloc, named, place, stage, verb, rest)
    } else if verb == "members" {
        add_members(alloc, &mut stage.image.files, Set::List, number_of(rest)?)?;
        Ok(())
    } else if verb == "each" {
        put_each(alloc, named, &mut stage.image, rest)
    } else if verb == "same" {
        is_as_before(alloc, place, stage)
    } else if verb == "unread" {
        is_count(alloc, place, stage.unread, rest)
    } else if verb == "files" {
        is_count(alloc, place, stage.image.files.len(), rest)
    } else if prepare(alloc, named, stage, verb, rest, turn)? {
        Ok(())
    } else {
        of_file(alloc, named, place, stage, verb, rest)
    }
}
