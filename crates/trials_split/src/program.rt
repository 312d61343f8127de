// The calls of the tables, as words, with rules in the input. Addresses are in one word, with a comma between two. The calls are `rules`,
// `assign A`, `split A,..`, `join A,.. A,..` and `move NAME SET WAY A,..`; and over the files of the set list `division` and
// `moving NAME WAY`, where WAY is `in` or another word.
use ml_base::{Address, AddressList, Bytes, PartError, Set};
use ml_site::{Fill, MemClock, MemSite, MemSource};
use ml_split::{
    Part, Parts, Rules, RulesError, assign, join, moves, read_rules, split, write_parts,
};
use ml_split_questions::{division, moving, write_moves};
use std::alloc::{AllocError, Global};
use std::test::Fail;
use trials_lists::{copy, error_text};
use trials_scripts::{OnSite, Program, ended_with, read_whole};

pub(crate) struct Divisions;

// The moment at which a part is moved.
const MOMENT: u64 = 1_000_000_600;

// The word at a place. If there are fewer it is empty.
fn word(words: &[String], at: usize) -> &[u8] {
    match words.get(at) {
        Some(word) => word.as_bytes(),
        None => &[],
    }
}

// The addresses in a word.
fn people(alloc: Global, word: &[u8]) -> Result<AddressList, Fail> {
    let mut list = AddressList::new(alloc);
    for text in word.split(|byte| *byte == b',') {
        if !text.is_empty() {
            list.push(Address::parse(alloc, text)?)?;
        }
    }
    Ok(list)
}

// How many rules there are, or the place of the first line that isn't a rule.
fn spelled(alloc: Global, rules: Result<Rules, RulesError>) -> Result<String, Fail> {
    match rules {
        Ok(rules) => Ok(format!(in alloc; "{}", rules.as_slice().len())?),
        Err(RulesError::Bad { at }) => Ok(format!(in alloc; "bad {at}")?),
        Err(e) => Err(e)?,
    }
}

// The place of the first rule that takes an address.
fn assigned(alloc: Global, rules: &Rules, address: &[u8]) -> Result<String, Fail> {
    match assign(rules, &Address::parse(alloc, address)?) {
        Some(at) => Ok(format!(in alloc; "{at}")?),
        None => Ok(String::from_str(alloc, "none")?),
    }
}

// Adds the addresses that joining the parts gives, each followed by a space.
fn add_joined(alloc: Global, out: &mut Bytes, parts: &Parts) -> Result<(), AllocError> {
    for address in join(alloc, parts)?.as_slice() {
        out.extend(address.bytes())?;
        out.push(b' ')?;
    }
    Ok(())
}

// The text of a division, `=`, and the addresses that joining its parts gives.
fn divided(alloc: Global, rules: &Rules, set: &AddressList) -> Result<Bytes, AllocError> {
    let parts = split(alloc, rules, set)?;
    let mut out = write_parts(alloc, &parts)?;
    out.push(b'=')?;
    add_joined(alloc, &mut out, &parts)?;
    Ok(out)
}

// The addresses that joining parts gives, here parts that no rules made. All have the same name.
fn joined(alloc: Global, words: &[String]) -> Result<Bytes, Fail> {
    let mut parts = Parts::new(alloc);
    for word in words {
        parts.push(Part {
            name: Bytes::from_slice(alloc, b"x")?,
            members: people(alloc, word.as_bytes())?,
        })?;
    }
    let mut out = Bytes::new(alloc);
    add_joined(alloc, &mut out, &parts)?;
    Ok(out)
}

// Divides addresses: how many acts move the part with this name, and their stream from item 500 on.
fn moved(alloc: Global, rules: &Rules, words: &[String]) -> Result<Bytes, Fail> {
    let parts = split(alloc, rules, &people(alloc, word(words, 3))?)?;
    let set = Set::of_word(word(words, 1)).ok_or("no set")?;
    let into = word(words, 2) == b"in".as_slice();
    for part in parts.as_slice() {
        if part.name.as_slice() == word(words, 0) {
            let count = moves(alloc, part, set, into)?.as_slice().len();
            let text = format!(in alloc; "{count} ")?;
            let mut out = Bytes::from_slice(alloc, text.as_bytes())?;
            out.extend(write_moves(alloc, part, set, into, 500, MOMENT)?.as_slice())?;
            return Ok(out);
        }
    }
    Ok(Bytes::from_slice(alloc, b"-")?)
}

// The text of an answer, or `-` if there is none.
fn answered(alloc: Global, answer: Result<Option<Bytes>, PartError>) -> Result<Bytes, AllocError> {
    match answer {
        Ok(Some(text)) => Ok(text),
        Ok(None) => Bytes::from_slice(alloc, b"-"),
        Err(error) => error_text(alloc, error),
    }
}

// What a call with rules answers.
fn told(
    alloc: Global,
    verb: &str,
    words: &[String],
    rules: &Rules,
    files: &mut OnSite,
) -> Result<Bytes, Fail> {
    let first = word(words, 0);
    if verb == "assign" {
        let text = assigned(alloc, rules, first)?;
        Ok(Bytes::from_slice(alloc, text.as_bytes())?)
    } else if verb == "split" {
        Ok(divided(alloc, rules, &people(alloc, first)?)?)
    } else if verb == "join" {
        joined(alloc, words)
    } else if verb == "move" {
        moved(alloc, rules, words)
    } else if verb == "division" {
        let answer = division(alloc, files, Set::List, rules).map(Some);
        Ok(answered(alloc, answer)?)
    } else if verb == "moving" {
        let into = word(words, 1) == b"in".as_slice();
        let answer = moving(alloc, files, Set::List, rules, first, into, 500, MOMENT);
        Ok(answered(alloc, answer)?)
    } else {
        Err(Fail::new(format_args!("no call: {verb}")))
    }
}

impl Program for Divisions {
    fn ended(
        alloc: Global,
        words: &[String],
        input: &mut MemSource,
        site: MemSite,
        _clock: &mut MemClock,
    ) -> Result<(u8, MemSite), Fail> {
        let [verb, words @ ..] = words else {
            return Err(Fail::new("no call"));
        };
        let input = read_whole(alloc, input)?;
        let rules = read_rules(alloc, input.as_slice());
        let image = site.crash(alloc, 0, Fill::Old)?;
        if verb.as_str() == "rules" {
            let text = spelled(alloc, rules)?;
            return ended_with(alloc, 0, image, text.as_bytes());
        }
        let files = copy(alloc, &image.files)?;
        let mut files = OnSite { site, files };
        let text = told(alloc, verb.as_str(), words, &rules?, &mut files)?;
        ended_with(alloc, 0, image, text.as_slice())
    }
}
