// The reader of digests: a digest with each line in turn left out or spoiled, and texts at the limits of the grammar.
use crate::parts::{push_number, word};
use crate::table_call::{Asked, NoAnswer};
use ml_base::Bytes;
use ml_digest::read_digest;
use std::alloc::{AllocError, Global};

/// What a call answers: `read` what the input is as a digest, `without N` what it is without its line N, counted from 0, and `spoiled N` what
/// it is with one more byte at the end of that line.
pub(crate) fn answer(alloc: Global, asked: &Asked<'_>) -> Result<Bytes, NoAnswer> {
    let text = asked.input.as_slice();
    if asked.verb == "read" {
        told(alloc, text)
    } else if asked.verb == "without" {
        let text = with_line(alloc, text, asked.number(0)?, None)?;
        told(alloc, text.as_slice())
    } else if asked.verb == "spoiled" {
        let text = with_line(alloc, text, asked.number(0)?, Some(b'x'))?;
        told(alloc, text.as_slice())
    } else {
        Err(NoAnswer::NoCall)
    }
}

/// What a text is as a digest: its number, and each message after a `|`; or `none`.
pub(crate) fn told(alloc: Global, text: &[u8]) -> Result<Bytes, NoAnswer> {
    let Some(burst) = read_digest(alloc, text)? else {
        return word(alloc, b"none");
    };
    let mut out = Bytes::new(alloc);
    push_number(&mut out, burst.issue, b'\n')?;
    for message in burst.messages.as_slice() {
        out.push(b'|')?;
        out.extend(message.as_slice())?;
    }
    Ok(out)
}

// A text without one of its lines, or with one more byte at the end of that line. The last line is what comes after the last LF.
fn with_line(
    alloc: Global,
    text: &[u8],
    number: u64,
    more: Option<u8>,
) -> Result<Bytes, AllocError> {
    let mut out = Bytes::new(alloc);
    let mut left_out = false;
    for (at, line) in text.split(|byte| *byte == b'\n').enumerate() {
        if at > 0 && !left_out {
            out.push(b'\n')?;
        }
        left_out = at as u64 == number && more.is_none();
        if left_out {
            continue;
        }
        out.extend(line)?;
        if let (Some(byte), true) = (more, at as u64 == number) {
            out.push(byte)?;
        }
    }
    Ok(out)
}

pub(crate) const LINES: &str = r"
let digest Precedence: bulk\nDate: today\nSubject: list Digest Issue 1\n\nlist Digest Issue 1, posts 1 to 2\n\nTopics:\n1: a\n2: b\n\n----------------------------------------------------------------------\n\nFrom: a@b\n\none\n\n------------------------------\n\nFrom: c@d\n\ntwo\n\n------------------------------\n\nEnd of list Digest Issue 1\n**************************\n
let both 1\n|From: a@b\n\none\n|From: c@d\n\ntwo\n
list input {digest}
# The digest, and the digest without each of its lines in turn.
run digests read => 0 {both}
run digests without 0 => 0 {both}
run digests without 1 => 0 {both}
run digests without 2 => 0 none
run digests without 3 => 0 none
run digests without 4 => 0 {both}
run digests without 5 => 0 {both}
run digests without 6 => 0 {both}
run digests without 7 => 0 {both}
run digests without 8 => 0 {both}
run digests without 9 => 0 {both}
run digests without 10 => 0 none
run digests without 11 => 0 none
run digests without 12 => 0 1\n|\none\n|From: c@d\n\ntwo\n
run digests without 13 => 0 none
run digests without 14 => 0 1\n|From: a@b\n\n|From: c@d\n\ntwo\n
run digests without 15 => 0 none
run digests without 16 => 0 1\n|From: a@b\n\none\n\n\nFrom: c@d\n\ntwo\n
run digests without 17 => 0 none
run digests without 18 => 0 1\n|From: a@b\n\none\n|\ntwo\n
run digests without 19 => 0 none
run digests without 20 => 0 1\n|From: a@b\n\none\n|From: c@d\n\n
run digests without 21 => 0 none
run digests without 22 => 0 none
run digests without 23 => 0 none
run digests without 24 => 0 none
run digests without 25 => 0 none
# The digest with a byte more in each of its lines in turn, and after its end.
run digests spoiled 0 => 0 {both}
run digests spoiled 1 => 0 {both}
run digests spoiled 2 => 0 none
run digests spoiled 3 => 0 none
run digests spoiled 4 => 0 {both}
run digests spoiled 5 => 0 {both}
run digests spoiled 6 => 0 {both}
run digests spoiled 7 => 0 {both}
run digests spoiled 8 => 0 {both}
run digests spoiled 9 => 0 {both}
run digests spoiled 10 => 0 none
run digests spoiled 11 => 0 none
run digests spoiled 12 => 0 1\n|From: a@bx\n\none\n|From: c@d\n\ntwo\n
run digests spoiled 13 => 0 none
run digests spoiled 14 => 0 1\n|From: a@b\n\nonex\n|From: c@d\n\ntwo\n
run digests spoiled 15 => 0 none
run digests spoiled 16 => 0 1\n|From: a@b\n\none\n\n------------------------------x\n\nFrom: c@d\n\ntwo\n
run digests spoiled 17 => 0 none
run digests spoiled 18 => 0 1\n|From: a@b\n\none\n|From: c@dx\n\ntwo\n
run digests spoiled 19 => 0 none
run digests spoiled 20 => 0 1\n|From: a@b\n\none\n|From: c@d\n\ntwox\n
run digests spoiled 21 => 0 none
run digests spoiled 22 => 0 none
run digests spoiled 23 => 0 none
run digests spoiled 24 => 0 none
run digests spoiled 25 => 0 none
run digests spoiled 26 => 0 none
";

pub(crate) const TABLE: &str = r"
let rule ----------------------------------------------------------------------
let one \none\n\n------------------------------\n\n
let subject Subject: a Digest Issue 1
let end End of a Digest Issue 1\n***********************\n
# Subjects and ends.
input {subject}\n\n{rule}\n\n{one}{end} | run digests read => 0 1\n|\none\n
input Subject: a Digest Issue 999999999999999999\n\n{rule}\n\n{one}End of a Digest Issue 999999999999999999\n****************************************\n | run digests read => 0 999999999999999999\n|\none\n
input Subject: a Digest Issue 1000000000000000000\n\n{rule}\n\n{one}End of a Digest Issue 1000000000000000000\n*****************************************\n | run digests read => 0 none
input Subject: a Digest Issue 0\n\n{rule}\n\n{one}End of a Digest Issue 0\n***********************\n | run digests read => 0 none
input Subject: a Digest Issue 01\n\n{rule}\n\n{one}End of a Digest Issue 01\n************************\n | run digests read => 0 none
input Subject: a Digest Issue \n\n{rule}\n\n{one}End of a Digest Issue \n**********************\n | run digests read => 0 none
input Subject:  Digest Issue 1\n\n{rule}\n\n{one}End of  Digest Issue 1\n**********************\n | run digests read => 0 none
input subject: a Digest Issue 1\n\n{rule}\n\n{one}{end} | run digests read => 0 none
input Subject:a Digest Issue 1\n\n{rule}\n\n{one}{end} | run digests read => 0 none
input Subject: a Digest Issue 5 Digest Issue 7\n\n{rule}\n\n{one}End of a Digest Issue 5 Digest Issue 7\n**************************************\n | run digests read => 0 7\n|\none\n
input Subject:  Digest Issue  Digest Issue 7\n\n{rule}\n\n{one}End of  Digest Issue  Digest Issue 7\n************************************\n | run digests read => 0 7\n|\none\n
input {subject}\n\n{rule}\n\n{one}End of a Digest Issue 2\n***********************\n | run digests read => 0 none
input {subject}\n\n{rule}\n\n{one}End of b Digest Issue 1\n***********************\n | run digests read => 0 none
input {subject}\n\n{rule}\n\n{one}End of a Digest Issue 1\n**********************\n | run digests read => 0 none
input {subject}\n\n{rule}\n\n{one}End of a Digest Issue 1\n************************\n | run digests read => 0 none
input {subject}\n\n{rule}\n\n{one}End of a Digest Issue 1\n*********************** | run digests read => 0 none
input {subject}\n\n{rule}\n\n{one}End of a Digest Issue 1\n***********************\n\n | run digests read => 0 none
input Subject: a Digest Issue 1\x0D\n\n{rule}\n\n{one}{end} | run digests read => 0 none
# Rules after the preface, and messages.
input {subject}\n\n{rule}\n\n{end} | run digests read => 0 none
input {subject}\n\n{rule}\n\n{one}{end} | run digests read => 0 1\n|\none\n
input {subject}\n\n---------------------------------------------------------------------\n\n{one}{end} | run digests read => 0 none
input {subject}\n\n-----------------------------------------------------------------------\n\n{one}{end} | run digests read => 0 none
input {subject}\n\n{rule}\n\n\n\n------------------------------\n\n{end} | run digests read => 0 1\n|\n
input {subject}\n\n{rule}\n\n\n------------------------------\n\n{end} | run digests read => 0 none
input {subject}\n\n{rule}\n\n------------------------------\n\n{end} | run digests read => 0 none
input {subject}\n\n{rule}\n\none\n\n------------------------------\n\n{end} | run digests read => 0 none
input {subject}\n\n{rule}\n\none\n\n\n------------------------------\n\n{end} | run digests read => 0 1\n|one\n\n
input {subject}\n\n{rule}\n\n\none\n------------------------------\n\n{end} | run digests read => 0 none
input {subject}\n\n{rule}\n\n\none\n\n------------------------------\n{end} | run digests read => 0 none
input {subject}\n\n{rule}\n\n\none\n\n-----------------------------\n\n{end} | run digests read => 0 none
input {subject}\n\n{rule}\n\n\none\n\n-------------------------------\n\n{end} | run digests read => 0 none
input {subject}\n\n{rule}\n\n\none\n\n------------------------------\x0D\n\n{end} | run digests read => 0 none
input {subject}\n\n{rule}\n\nEnd of x\n\none\n\n------------------------------\n\n{end} | run digests read => 0 none
input {subject}\n\n{rule}\n\nEnd of\n\none\n\n------------------------------\n\n{end} | run digests read => 0 1\n|End of\n\none\n
input {subject}\n\n{rule}\n\nend of x\n\none\n\n------------------------------\n\n{end} | run digests read => 0 1\n|end of x\n\none\n
input {subject}\n\n{rule}\n\n\nEnd of x\n\n------------------------------\n\n{end} | run digests read => 0 1\n|\nEnd of x\n
input {subject}\n\n{rule}\n\na\n------------------------------\n\nb\n\n------------------------------\n\n{end} | run digests read => 0 none
input {subject}\n\n{rule}\n\n\na\n\n------------------------------\n\n\nb\n\n------------------------------\n\n{end} | run digests read => 0 1\n|\na\n|\nb\n
run digests read => 0 none
";
