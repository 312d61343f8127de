// The program stopped after each of its calls, and with each call failing in turn: the next run over the same items makes it good.
use crate::scripts::{BOUNCES, EXERCISE, MAKE, MAKE_MODERATED, REQUESTS, SETTINGS};
use ml_base::{Bytes, Name, Numbers, read_number, split_first};
use ml_command::ezmlm_main;
use ml_site::{Fill, Image, MemClock, MemSite, MemSource};
use std::alloc::{AllocError, Global};
use std::collections::BTreeMap;
use std::test::Fail;
use trials_scripts::spelled;

// The room for calls and for output.
const CALLS: u64 = 2000;

const OUTPUT: usize = 4000;

// A log of one closed gate.
const CLOSED: &[u8] = &[0];

// The answers to items, each with its LF.
type Answers = Vec<Bytes>;

// A site that begins with an image.
fn site(alloc: Global, image: Image) -> Result<MemSite, AllocError> {
    MemSite::new(alloc, image, CALLS as usize, OUTPUT)
}

// What reads find on a site.
fn held(alloc: Global, site: &MemSite) -> Result<Image, AllocError> {
    site.crash(alloc, CALLS, Fill::New)
}

// The words of a command, with single spaces between them.
fn words_of(alloc: Global, command: &str) -> Result<Vec<String>, AllocError> {
    let mut words = Vec::new(alloc);
    for word in command.split(' ') {
        words.push(String::from_str(alloc, word)?)?;
    }
    Ok(words)
}

fn source(alloc: Global, stream: &[u8]) -> Result<MemSource, AllocError> {
    let bytes = Bytes::from_slice(alloc, stream)?;
    Ok(MemSource::new(bytes, Numbers::new(alloc)))
}

// Runs the program with these words over a site.
fn run_words(
    alloc: Global,
    words: &str,
    stream: &[u8],
    site: MemSite,
) -> Result<(u8, MemSite), AllocError> {
    let words = words_of(alloc, words)?;
    let mut input = source(alloc, stream)?;
    let mut clock = MemClock::new(1_000_000_000, Numbers::new(alloc));
    Ok(ezmlm_main(alloc, &words, &mut input, site, &mut clock))
}

// What comes after the answer to an item in an output, if the output has it; for a number below the floor the answer is `stale`.
fn after_answer<'a>(output: &'a [u8], answer: &[u8], floor: u64) -> Option<&'a [u8]> {
    let (number, _) = split_first(b' ', answer)?;
    if read_number(number)? < floor {
        output
            .strip_prefix(number)?
            .strip_prefix(b" 100 stale\n".as_slice())
    } else {
        output.strip_prefix(answer)
    }
}

// Whether an output is all of these answers, over a list with this floor.
fn answers_all(answers: &Answers, output: &[u8], floor: u64) -> bool {
    let mut rest = output;
    for answer in answers.iter() {
        match after_answer(rest, answer.as_slice(), floor) {
            Some(more) => rest = more,
            None => return false,
        }
    }
    rest.is_empty()
}

// Whether what is left of an output is some first bytes of an answer, or a stop line instead of it.
fn is_cut_off(rest: &[u8], answer: &[u8]) -> bool {
    let deferral = match split_first(b' ', answer) {
        Some((number, _)) => rest.strip_prefix(number),
        None => None,
    };
    answer.starts_with(rest)
        || rest == b"- 111 disk\n".as_slice()
        || deferral == Some(b" 111 disk\n".as_slice())
}

// Whether an output is the first answers, and after them some first bytes of the next one or a stop line.
fn is_front(answers: &Answers, output: &[u8]) -> bool {
    let mut rest = output;
    for answer in answers.iter() {
        match rest.strip_prefix(answer.as_slice()) {
            Some(more) => rest = more,
            None => return is_cut_off(rest, answer.as_slice()),
        }
    }
    rest.is_empty() || rest == b"- 111 disk\n".as_slice()
}

// The floor in the files of an image, or 0.
fn floor_in(image: &Image) -> u64 {
    match image.files.get(&Name { kind: 21, at: 0 }) {
        Some(bytes) => split_first(b'\n', bytes.as_slice())
            .and_then(|(digits, _)| read_number(digits))
            .unwrap_or(0),
        None => 0,
    }
}

// A site that holds the same as another.
fn copy_of(alloc: Global, found: &MemSite) -> Result<MemSite, AllocError> {
    site(alloc, held(alloc, found)?)
}

// The floor of the list on a site, as a run of no items leaves its files.
fn floor_of(alloc: Global, found: &MemSite) -> Result<u64, AllocError> {
    let (_, opened) = run_words(alloc, "spool", b"", copy_of(alloc, found)?)?;
    let left = held(alloc, &opened)?;
    Ok(floor_in(&left))
}

// Whether two images have the same bytes.
fn is_same(image: &Image, other: &Image) -> bool {
    let mut same = image.files.len() == other.files.len();
    for (name, bytes) in &image.files {
        let there = match other.files.get(name) {
            Some(found) => found.as_slice() == bytes.as_slice(),
            None => false,
        };
        same = same && there;
    }
    same && image.log.as_slice() == other.log.as_slice()
}

// A stream with its answers, the list on which it is run, and what a run leaves if nothing stops it.
#[derive(Drop)]
struct Trial {
    stream: Bytes,
    answers: Answers,
    start: MemSite,
    end: Image,
}

// Adds the bytes of an item to a stream.
fn push_item(alloc: Global, item: &str, stream: &mut Bytes) -> Result<(), Fail> {
    let bytes = spelled(alloc, item)?;
    Ok(stream.extend(bytes.as_slice())?)
}

// Adds an answer, with its LF.
fn push_answer(alloc: Global, answer: &str, answers: &mut Answers) -> Result<(), AllocError> {
    let mut line = Bytes::from_slice(alloc, answer.as_bytes())?;
    line.push(b'\n')?;
    answers.push(line)?;
    Ok(())
}

// Adds the first items of a script to a stream, and their answers.
fn read_script(
    alloc: Global,
    script: &str,
    most: usize,
    stream: &mut Bytes,
    answers: &mut Answers,
) -> Result<(), Fail> {
    for line in script.lines() {
        if let Some((item, answer)) = line.split_once(" => ")
            && answers.len() < most
        {
            push_item(alloc, item, stream)?;
            push_answer(alloc, answer, answers)?;
        }
    }
    Ok(())
}

// A run over a list that stops after this many calls.
fn stopped_run(
    alloc: Global,
    stream: &[u8],
    start: &MemSite,
    calls: u64,
) -> Result<(u8, MemSite), AllocError> {
    let mut stopping = copy_of(alloc, start)?;
    stopping.stop_after(calls);
    run_words(alloc, "spool", stream, stopping)
}

// A new list, made by these words.
fn made_by(alloc: Global, make: &str) -> Result<MemSite, AllocError> {
    let nothing = Image {
        log: Bytes::new(alloc),
        files: BTreeMap::new(alloc),
    };
    let (_, start) = run_words(alloc, make, b"", site(alloc, nothing)?)?;
    Ok(start)
}

// What a run leaves if nothing stops it. It has to give all answers.
fn end_of(alloc: Global, stream: &[u8], answers: &Answers, start: &MemSite) -> Result<Image, Fail> {
    let (_, plain) = stopped_run(alloc, stream, start, u64::MAX)?;
    if !answers_all(answers, plain.output(), 0) {
        return Err(Fail::new("the plain run has other answers"));
    }
    Ok(held(alloc, &plain)?)
}

// The trial of the first items of a script on a list.
fn trial_of(alloc: Global, start: MemSite, script: &str, most: usize) -> Result<Trial, Fail> {
    let mut stream = Bytes::new(alloc);
    let mut answers = Vec::new(alloc);
    read_script(alloc, script, most, &mut stream, &mut answers)?;
    let end = end_of(alloc, stream.as_slice(), &answers, &start)?;
    Ok(Trial {
        stream,
        answers,
        start,
        end,
    })
}

// The floor of the list on a site, if the plain run leaves one.
fn floor_before(alloc: Global, trial: &Trial, found: &MemSite) -> Result<u64, AllocError> {
    if floor_in(&trial.end) == 0 {
        Ok(0)
    } else {
        floor_of(alloc, found)
    }
}

// Whether a run's output has all answers after what the site had put out before it.
fn tells_all(trial: &Trial, output: &[u8], before: &[u8], floor: u64) -> bool {
    match output.strip_prefix(before) {
        Some(told) => answers_all(&trial.answers, told, floor),
        None => false,
    }
}

// Whether a run left the files of the plain run, and a log of one closed gate.
fn leaves_all(alloc: Global, trial: &Trial, again: &MemSite) -> Result<bool, AllocError> {
    let left = held(alloc, again)?;
    Ok(is_same(&left, &trial.end) && left.log.as_slice() == CLOSED)
}

// Whether the next run over a site, after a first one that put this out, answers everything and leaves the files of the plain run. Numbers below a
// floor are refused exactly if the floor is there by then, and it is if its answer is out. What the site had put out before that run comes before
// its answers.
fn is_made_good(
    alloc: Global,
    trial: &Trial,
    first: &[u8],
    before: &[u8],
    found: MemSite,
) -> Result<bool, AllocError> {
    let floor = floor_before(alloc, trial, &found)?;
    if answers_all(&trial.answers, first, 0) && floor != floor_in(&trial.end) {
        return Ok(false);
    }
    let (status, again) = run_words(alloc, "spool", trial.stream.as_slice(), found)?;
    if status != 0 || !tells_all(trial, again.output(), before, floor) {
        return Ok(false);
    }
    leaves_all(alloc, trial, &again)
}

// What is left, when the program stops, in place of what no sync has settled: what was there before, or what was written, or these bytes.
const FILLS: [Fill; 5] = [
    Fill::Old,
    Fill::New,
    Fill::Byte(0),
    Fill::Byte(1),
    Fill::Byte(7),
];

// What a stop left with one of these fills, and what the stopped run had put out. The next run follows from these.
#[derive(Drop)]
struct Left {
    image: Image,
    first: Bytes,
}

// What a stop after this many calls left with a fill.
fn left_by(alloc: Global, stopped: &MemSite, calls: u64, fill: Fill) -> Result<Left, AllocError> {
    let image = stopped.crash(alloc, calls, fill)?;
    let first = Bytes::from_slice(alloc, stopped.output())?;
    Ok(Left { image, first })
}

fn is_again(before: Option<&Left>, left: &Left) -> bool {
    match before {
        Some(before) => {
            is_same(&before.image, &left.image) && before.first.as_slice() == left.first.as_slice()
        }
        None => false,
    }
}

// Whether the stopped run put out the first of the answers, and the next run over what it left with a fill makes it good.
fn is_good_stop(
    alloc: Global,
    trial: &Trial,
    stopped: &MemSite,
    calls: u64,
    fill: Fill,
) -> Result<bool, AllocError> {
    let first = stopped.output();
    if !is_front(&trial.answers, first) {
        return Ok(false);
    }
    let next = site(alloc, stopped.crash(alloc, calls, fill)?)?;
    is_made_good(alloc, trial, first, b"", next)
}

// Fails if the next run doesn't make good a stop after this many calls with a fill, and says so. If the stop before it left the same, it isn't
// tried.
fn hold_fill(
    alloc: Global,
    trial: &Trial,
    stopped: &MemSite,
    calls: u64,
    fill: Fill,
    before: Option<&Left>,
) -> Result<Left, Fail> {
    let left = left_by(alloc, stopped, calls, fill)?;
    if !is_again(before, &left) && !is_good_stop(alloc, trial, stopped, calls, fill)? {
        return Err(Fail::new(format_args!("a stop after call {calls}, left {fill:?}")));
    }
    Ok(left)
}

// Fails if the next run doesn't make good a stop after this many calls. Answers whether the run was at its end by then. What a fill left after the
// call before, in BEFORE, isn't tried again.
fn hold_stop(
    alloc: Global,
    trial: &Trial,
    calls: u64,
    before: &mut Vec<Left>,
) -> Result<bool, Fail> {
    let (status, stopped) = stopped_run(alloc, trial.stream.as_slice(), &trial.start, calls)?;
    let mut tried = Vec::new(alloc);
    for (at, fill) in FILLS.iter().enumerate() {
        let left = hold_fill(alloc, trial, &stopped, calls, *fill, before.get(at))?;
        tried.push(left)?;
    }
    *before = tried;
    Ok(status == 0)
}

// A run in which only this call fails.
fn failed_run(alloc: Global, trial: &Trial, call: u64) -> Result<(u8, MemSite), AllocError> {
    let mut failing = copy_of(alloc, &trial.start)?;
    failing.fail(alloc, &[call])?;
    run_words(alloc, "spool", trial.stream.as_slice(), failing)
}

// Whether a run put out the first of the answers, and the next one over the same site makes it good.
fn is_recovered(alloc: Global, trial: &Trial, found: MemSite) -> Result<bool, AllocError> {
    let first = Bytes::from_slice(alloc, found.output())?;
    let first = first.as_slice();
    if !is_front(&trial.answers, first) {
        return Ok(false);
    }
    is_made_good(alloc, trial, first, first, found)
}

// Fails if one failing call doesn't end the run, or the next run over the same site doesn't make it good, and names the call.
fn hold_failure(alloc: Global, trial: &Trial, call: u64) -> Result<(), Fail> {
    let (status, found) = failed_run(alloc, trial, call)?;
    if status == 0 || !is_recovered(alloc, trial, found)? {
        return Err(Fail::new(format_args!("a failure of call {call}")));
    }
    Ok(())
}

// Fails if the next run doesn't make good a stop after this many calls, from FIRST on and before LAST or the end of the run, or a failure of the
// call after it. It is an error if the run doesn't end before the room for calls is used up.
fn hold_calls(alloc: Global, trial: Trial, first: u64, last: u64) -> Result<(), Fail> {
    let mut left = Vec::new(alloc);
    for calls in first..last {
        if hold_stop(alloc, &trial, calls, &mut left)? {
            return Ok(());
        }
        hold_failure(alloc, &trial, calls + 1)?;
    }
    if last == CALLS {
        return Err(Fail::new("a run has no end"));
    }
    Ok(())
}

// The same for the first items of an exercise and the floor after it.
fn hold_exercise(alloc: Global, most: usize, first: u64, last: u64) -> Result<(), Fail> {
    let trial = trial_of(alloc, made_by(alloc, MAKE)?, EXERCISE, most)?;
    hold_calls(alloc, trial, first, last)
}

// The same for all items of a script, on a list that these words make.
fn hold_script(alloc: Global, make: &str, script: &str) -> Result<(), Fail> {
    let trial = trial_of(alloc, made_by(alloc, make)?, script, 100)?;
    hold_calls(alloc, trial, 0, CALLS)
}

// Files that no item of SETTINGS reads: an index, the number of posts, the mark of the digests, a held post, the counter of tickets, a file
// of the digests' ledger, the counter of ids and a thread file.
const UNREAD: [Name; 8] = [
    Name { kind: 10, at: 0 },
    Name { kind: 11, at: 0 },
    Name { kind: 12, at: 0 },
    Name { kind: 13, at: 1 },
    Name { kind: 14, at: 0 },
    Name { kind: 16, at: 5 },
    Name { kind: 18, at: 0 },
    Name { kind: 20, at: 161 },
];

// What these files hold on a damaged list: none of them is spelled in this way.
const DAMAGE: &[u8] = b"x";

// The list with these files damaged.
fn damaged(alloc: Global, start: &MemSite) -> Result<MemSite, AllocError> {
    let mut image = held(alloc, start)?;
    for name in UNREAD {
        image.files.insert(name, Bytes::from_slice(alloc, DAMAGE)?)?;
    }
    site(alloc, image)
}

// Whether these files are as they were damaged.
fn is_still_damaged(image: &Image) -> bool {
    let mut same = true;
    for name in UNREAD {
        let there = match image.files.get(&name) {
            Some(found) => found.as_slice() == DAMAGE,
            None => false,
        };
        same = same && there;
    }
    same
}

#[test]
fn an_exercise_is_made_good_from_call_0_on(rt: HostRuntime) -> Result<(), Fail> {
    hold_exercise(rt.alloc(), 30, 0, 100)
}

#[test]
fn an_exercise_is_made_good_from_call_100_on(rt: HostRuntime) -> Result<(), Fail> {
    hold_exercise(rt.alloc(), 30, 100, 200)
}

#[test]
fn an_exercise_is_made_good_from_call_200_on(rt: HostRuntime) -> Result<(), Fail> {
    hold_exercise(rt.alloc(), 30, 200, 300)
}

#[test]
fn an_exercise_is_made_good_from_call_300_on(rt: HostRuntime) -> Result<(), Fail> {
    hold_exercise(rt.alloc(), 30, 300, 400)
}

#[test]
fn an_exercise_is_made_good_from_call_400_on(rt: HostRuntime) -> Result<(), Fail> {
    hold_exercise(rt.alloc(), 30, 400, 500)
}

#[test]
fn an_exercise_is_made_good_from_call_500_on(rt: HostRuntime) -> Result<(), Fail> {
    hold_exercise(rt.alloc(), 30, 500, CALLS)
}

#[test]
fn an_exercise_and_a_floor_are_made_good_from_call_0_on(rt: HostRuntime) -> Result<(), Fail> {
    hold_exercise(rt.alloc(), 31, 0, 100)
}

#[test]
fn an_exercise_and_a_floor_are_made_good_from_call_100_on(rt: HostRuntime) -> Result<(), Fail> {
    hold_exercise(rt.alloc(), 31, 100, 200)
}

#[test]
fn an_exercise_and_a_floor_are_made_good_from_call_200_on(rt: HostRuntime) -> Result<(), Fail> {
    hold_exercise(rt.alloc(), 31, 200, 300)
}

#[test]
fn an_exercise_and_a_floor_are_made_good_from_call_300_on(rt: HostRuntime) -> Result<(), Fail> {
    hold_exercise(rt.alloc(), 31, 300, 400)
}

#[test]
fn an_exercise_and_a_floor_are_made_good_from_call_400_on(rt: HostRuntime) -> Result<(), Fail> {
    hold_exercise(rt.alloc(), 31, 400, 500)
}

#[test]
fn an_exercise_and_a_floor_are_made_good_from_call_500_on(rt: HostRuntime) -> Result<(), Fail> {
    hold_exercise(rt.alloc(), 31, 500, CALLS)
}

#[test]
fn settings_are_made_good(rt: HostRuntime) -> Result<(), Fail> {
    hold_script(rt.alloc(), MAKE, SETTINGS)
}

#[test]
fn settings_of_a_damaged_list_are_made_good(rt: HostRuntime) -> Result<(), Fail> {
    let alloc = rt.alloc();
    let start = damaged(alloc, &made_by(alloc, MAKE)?)?;
    let trial = trial_of(alloc, start, SETTINGS, 100)?;
    if !is_still_damaged(&trial.end) {
        return Err(Fail::new("a file that no item reads is another"));
    }
    hold_calls(alloc, trial, 0, CALLS)
}

#[test]
fn requests_are_made_good(rt: HostRuntime) -> Result<(), Fail> {
    hold_script(rt.alloc(), MAKE_MODERATED, REQUESTS)
}

#[test]
fn bounces_are_made_good(rt: HostRuntime) -> Result<(), Fail> {
    hold_script(rt.alloc(), MAKE, BOUNCES)
}
