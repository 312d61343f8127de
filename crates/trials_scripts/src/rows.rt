// Reads a table line by line, and tries its rows.
use crate::stage::{Program, Stage, beginning, empty, run};
use crate::steps::step;
use crate::texts::{Named, keep, number_of, push_named};
use ml_base::Bytes;
use std::alloc::Global;
use std::test::Fail;

// What the lines so far have made: the texts that have names, the list with which rows begin, and how the last row ended.
#[derive(Drop)]
struct Known {
    named: Named,
    list: Stage,
    last: Stage,
}

// Does the step of this number, from 0, of a row.
fn numbered_step<P: Program>(
    alloc: Global,
    named: &Named,
    name: &str,
    at: usize,
    stage: &mut Stage,
    text: &str,
    turn: u64,
) -> Result<(), Fail> {
    let place = format!(in alloc; "{name}, step {at}")?;
    step::<P>(alloc, named, place.as_str(), stage, text, turn)
}

// Does the steps of a row, one after another.
fn row<P: Program>(
    alloc: Global,
    named: &Named,
    name: &str,
    stage: &mut Stage,
    steps: &str,
    turn: u64,
) -> Result<(), Fail> {
    for (at, text) in steps.split(" | ").enumerate() {
        numbered_step::<P>(alloc, named, name, at, stage, text, turn)?;
    }
    Ok(())
}

// Does the steps of a row over a copy of a list. What they leave isn't kept.
fn row_apart<P: Program>(
    alloc: Global,
    named: &Named,
    name: &str,
    list: &Stage,
    steps: &str,
    turn: u64,
) -> Result<(), Fail> {
    let mut stage = beginning(alloc, list)?;
    row::<P>(alloc, named, name, &mut stage, steps, turn)
}

// Does a row in one turn of its loop. In the row the text `turn` is the digits of the turn.
fn in_turn<P: Program>(
    alloc: Global,
    known: &mut Known,
    name: &str,
    steps: &str,
    turn: u64,
) -> Result<(), Fail> {
    let text = format!(in alloc; "turn {turn}")?;
    keep(alloc, &mut known.named, text.as_str())?;
    let name = format!(in alloc; "{name}, {text}")?;
    row_apart::<P>(alloc, &known.named, name.as_str(), &known.list, steps, turn)?;
    let _ = known.named.pop();
    Ok(())
}

// Does a row once for every number of its loop: `FIRST LAST | STEPS`.
fn turns<P: Program>(alloc: Global, known: &mut Known, name: &str, text: &str) -> Result<(), Fail> {
    let Some((range, steps)) = text.split_once(" | ") else {
        return Err(Fail::new(format_args!("{name}: no steps")));
    };
    let Some((first, last)) = range.split_once(' ') else {
        return Err(Fail::new(format_args!("{name}: no range")));
    };
    for turn in number_of(first)?..=number_of(last)? {
        in_turn::<P>(alloc, known, name, steps, turn)?;
    }
    Ok(())
}

// What a command puts out over a list.
fn output<P: Program>(
    alloc: Global,
    named: &Named,
    list: &Stage,
    words: &str,
) -> Result<Bytes, Fail> {
    let mut stage = beginning(alloc, list)?;
    let (_, output) = run::<P>(alloc, named, &mut stage, words)?;
    Ok(output)
}

// Keeps under a name what a command puts out over the list: `NAME WORDS`.
fn keep_output<P: Program>(alloc: Global, known: &mut Known, text: &str) -> Result<(), Fail> {
    let (name, words) = text.split_once(' ').unwrap_or((text, ""));
    let output = output::<P>(alloc, &known.named, &known.list, words)?;
    push_named(alloc, &mut known.named, name, output)
}

// Makes the list with which the rows after it begin.
fn make_list<P: Program>(
    alloc: Global,
    known: &mut Known,
    name: &str,
    steps: &str,
) -> Result<(), Fail> {
    known.list = empty(alloc);
    row::<P>(alloc, &known.named, name, &mut known.list, steps, 0)
}

// Does a row over the list.
fn row_anew<P: Program>(
    alloc: Global,
    known: &mut Known,
    name: &str,
    steps: &str,
) -> Result<(), Fail> {
    known.last = beginning(alloc, &known.list)?;
    row::<P>(alloc, &known.named, name, &mut known.last, steps, 0)
}

// Does what a line says, if it isn't empty and no comment.
fn said<P: Program>(alloc: Global, known: &mut Known, name: &str, line: &str) -> Result<(), Fail> {
    if let Some(text) = line.strip_prefix("let ") {
        keep(alloc, &mut known.named, text)
    } else if let Some(text) = line.strip_prefix("told ") {
        keep_output::<P>(alloc, known, text)
    } else if let Some(steps) = line.strip_prefix("list ") {
        make_list::<P>(alloc, known, name, steps)
    } else if let Some(steps) = line.strip_prefix("then ") {
        row::<P>(alloc, &known.named, name, &mut known.last, steps, 0)
    } else if let Some(text) = line.strip_prefix("turns ") {
        turns::<P>(alloc, known, name, text)
    } else {
        row_anew::<P>(alloc, known, name, line)
    }
}

// Does what the line of this number, from 0, says.
fn hold_line<P: Program>(
    alloc: Global,
    known: &mut Known,
    table: &str,
    at: usize,
    line: &str,
) -> Result<(), Fail> {
    if line.is_empty() || line.starts_with('#') {
        return Ok(());
    }
    let name = format!(in alloc; "{table}, line {at}")?;
    said::<P>(alloc, known, name.as_str(), line)
}

/// Tries the rows of a table, and fails at the first that doesn't end as it says, with the number of its line from 0, of its step and
/// of its turn.
///
/// Every line is a row, except for empty ones and those that begin with `#`. `let NAME TEXT` keeps a text, and `list STEPS` makes the list with
/// which the rows after it begin. `told NAME WORDS` keeps what a command puts out over that list. `then STEPS` goes on where the row before
/// ended, and `turns FIRST LAST | STEPS` is tried once for each of these numbers.
pub fn hold<P: Program>(alloc: Global, table: &str, text: &str) -> Result<(), Fail> {
    let mut known = Known {
        named: Vec::new(alloc),
        list: empty(alloc),
        last: empty(alloc),
    };
    for (at, line) in text.lines().enumerate() {
        hold_line::<P>(alloc, &mut known, table, at, line)?;
    }
    Ok(())
}
