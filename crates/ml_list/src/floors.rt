// The file of the floor: how it is read and written.
ghost use Rattle.std.specs.Prelude.{◌≡◌, ◌≤◌, ◌++◌, ◌∷◌, [], ℕ, IsTrue, IfOk, IfErr, IfSome, IfNone, IsErrOf};
ghost use Rattle.std.specs.Fmt.{decimal};
ghost use Rattle.ml_base.specs.ReadFiles.{IsReading, NamesDamaged};
ghost use Rattle.ml_base.specs.PartErrors.{OnDamaged};
ghost use Rattle.ml_plain.specs.KeptFiles.{IsFloorFile, floor_name};
ghost use Rattle.ml_list.specs.Damage.{IsNoFloor};
ghost use Rattle.ml_list.specs.Lookups.{IsInRange};

use ml_base::{Bytes, Files, LAST_ITEM, Name, PartError, number_within, write_number};
use std::alloc::{AllocError, Global};

/// The floor: the number in its file, or 1 if that is absent. It reads only that file.
pub fn floor<F: Files>(alloc: Global, files: &mut F) -> Result<u64, PartError>
    ensures value { IsTrue F.tells → IfOk result (IsFloorFile (F.map files.old floor_name)) }
    ensures least { IfOk result (λ floor. 1 ≤ floor) }
    ensures most { IfOk result (λ floor. floor ≤ 999_999_999_999) }
    ensures names { NamesDamaged ⟦<F as Files>⟧ (λ name. name ≡ floor_name) (λ _. IsNoFloor (F.map files.old)) result }
    ensures sound { IsTrue F.tells → (n : ℕ) → IsFloorFile (F.map files.old floor_name) n → IfErr result (λ e. OnDamaged e (λ _. ⊥)) }
    ensures reads { IsReading ⟦<F as Files>⟧ files.old files.new result }
{
    let file = files.get(alloc, Name::FLOOR)?;
    match read_floor(&file) {
        Some(floor) => Ok(floor),
        None => Err(PartError::Damaged(Name::FLOOR)),
    }
}

// The floor: one that was read before, otherwise that of its file.
pub(crate) fn floor_of<F: Files>(
    alloc: Global,
    files: &mut F,
    known: Option<u64>,
) -> Result<u64, PartError>
    requires known { IsTrue F.tells → IfSome known (IsFloorFile (F.map files.old floor_name)) }
    requires range { IsInRange known }
    ensures value { IsTrue F.tells → IfOk result (IsFloorFile (F.map files.old floor_name)) }
    ensures least { IfOk result (λ floor. 1 ≤ floor) }
    ensures most { IfOk result (λ floor. floor ≤ 999_999_999_999) }
    ensures names { NamesDamaged ⟦<F as Files>⟧ (λ name. name ≡ floor_name) (λ _. IsNoFloor (F.map files.old)) result }
    ensures reads { IsReading ⟦<F as Files>⟧ files.old files.new result }
{
    match known {
        Some(floor) => Ok(floor),
        None => floor(alloc, files),
    }
}

// The floor that a file holds, or None if it holds none.
fn read_floor(file: &Option<Bytes>) -> Option<u64>
    ensures some { IfSome result (IsFloorFile file.now) }
    ensures none { IfNone result ((floor : ℕ) → ¬ IsFloorFile file.now floor) }
{
    let Some(text) = file else {
        return Some(1);
    };
    let Some(digits) = text.as_slice().strip_suffix(b"\n") else {
        return None;
    };
    let Some(floor) = number_within(LAST_ITEM, digits) else {
        return None;
    };
    if floor < 2 {
        return None;
    }
    Some(floor)
}

// The text of a floor.
pub(crate) fn floor_text(alloc: Global, floor: u64) -> Result<Bytes, AllocError>
    ensures { IfOk result (λ text. text ≡ decimal floor ++ 10 ∷ []) }
{
    let mut digits = [0u8; 20];
    let len = write_number(floor, &mut digits);
    let mut out = Bytes::from_slice(alloc, &digits[..len])?;
    out.push(b'\n')?;
    Ok(out)
}
