// Reads and writes the mark, which says how far the digests have come.
ghost use Rattle.std.specs.Prelude.{◌≡◌, ◌≤◌, [], ◌∷◌, true, IsTrue, IfOk, IfErr, Some};
ghost use Rattle.std.specs.Option.{option_and_then};
ghost use Rattle.ml_base.specs.Dir.{Dir, with_puts, are_files, touches_only, same_name};
ghost use Rattle.ml_base.specs.PartErrors.{OnDamaged};
ghost use Rattle.ml_base.specs.ReadFiles.{IsReading, NamesDamaged};
ghost use Rattle.ml_digest.specs.Due.{IsMark, IsNoMark, mark_name, mark_text, mark_in, mark_put};
ghost use Rattle.ml_digest.specs.declared.posts.Mark.{Mark};
ghost use Rattle.ml_rows.specs.Values.{line_number};

use crate::Mark;
use ml_base::{
    Bytes, Files, LAST_POST_NUMBER, Name, PartError, Put, Txn, number_within, split_first,
};
use std::alloc::{AllocError, Global};

/// How far the digests have come. `Damaged` names the mark's file, and comes only if that is absent or spells no mark.
/// `Fault` comes only if a read failed.
pub fn mark<F: Files>(alloc: Global, files: &mut F) -> Result<Mark, PartError>
    ensures value { IsTrue F.tells → IfOk result (IsMark (F.map files.old)) }
    ensures read { IsTrue F.tells → (mark : Mark) → IsMark (F.map files.old) mark → IfOk result (λ found. found ≡ mark) }
    ensures ranges { IfOk result (λ mark. (mark.last ≤ 99_999_999) × (mark.issue ≤ 99_999_999)) }
    ensures names { NamesDamaged ⟦<F as Files>⟧ (λ name. name ≡ mark_name) (λ _. IsNoMark (F.map files.old)) result }
    ensures sound { IsTrue F.tells → (mark : Mark) → IsMark (F.map files.old) mark → IfErr result (λ e. OnDamaged e (λ _. ⊥)) }
    ensures reads { IsReading ⟦<F as Files>⟧ files.old files.new result }
{
    let file = files.get(alloc, Name::MARK)?;
    match read_mark(&file) {
        Some(mark) => Ok(mark),
        None => Err(PartError::Damaged(Name::MARK)),
    }
}

// The mark that a file spells, or None if it spells none.
fn read_mark(file: &Option<Bytes>) -> Option<Mark>
    ensures { result ≡ option_and_then mark_in file.now }
{
    let Some(text) = file else {
        return None;
    };
    let (front, back) = split_first(b':', text.as_slice())?;
    let last = number_within(LAST_POST_NUMBER, front)?;
    let issue = read_line(back)?;
    Some(Mark { last, issue })
}

// The number that a text of one line spells, or None if the text is no such line.
fn read_line(text: &[u8]) -> Option<u64>
    ensures { result ≡ line_number 99_999_999 text.now }
{
    let (line, rest) = split_first(b'\n', text)?;
    if rest.is_empty() {
        number_within(LAST_POST_NUMBER, line)
    } else {
        None
    }
}

/// The puts that write this mark. The number of its last digest is at most that of its last post, and that is at most
/// 99,999,999.
pub fn set_mark(alloc: Global, mark: &Mark) -> Result<Txn, AllocError>
    requires issue { mark.now.issue ≤ mark.now.last }
    requires last { mark.now.last ≤ 99_999_999 }
    ensures puts { IfOk result (λ txn. txn ≡ mark_put mark.now ∷ []) }
    ensures holds { IfOk result (λ txn. (dir : Dir) → IsMark (with_puts dir txn) mark.now) }
    ensures others { IfOk result (λ txn. touches_only (same_name mark_name) txn ≡ true) }
    ensures files { IfOk result (λ txn. are_files txn ≡ true) }
{
    let mut txn = Txn::new(alloc);
    txn.push(Put {
        name: Name::MARK,
        bytes: Some(write_mark(alloc, mark)?),
    })?;
    Ok(txn)
}

// The text of a mark.
fn write_mark(alloc: Global, mark: &Mark) -> Result<Bytes, AllocError>
    ensures { IfOk result (λ bytes. bytes ≡ mark_text mark.now) }
{
    let mut out = Bytes::with_capacity(alloc, 18)?;
    out.push_number(mark.last)?;
    out.push(b':')?;
    out.push_number(mark.issue)?;
    out.push(b'\n')?;
    Ok(out)
}
