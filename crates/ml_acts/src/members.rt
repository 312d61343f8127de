// The members of a set as the recipients of a mail.
ghost use Rattle.std.specs.Prelude.{◌≡◌, true, IsTrue, IfOk};
ghost use Rattle.ml_base.specs.Address.{key};
ghost use Rattle.ml_base.specs.Dir.{Dir};
ghost use Rattle.ml_base.specs.ReadFiles.{IsReading, NamesDamaged};
ghost use Rattle.ml_base.specs.Sorted.{byte_cmp, is_sorted};
ghost use Rattle.ml_plain.specs.Directory.{IsList};
ghost use Rattle.ml_plain.specs.Plain.{Plain, addresses};
ghost use Rattle.ml_subs.specs.Subscribers.{is_of_set};
ghost use Rattle.ml_acts.specs.Doing.{Alike, is_bucket};
ghost use Rattle.ml_acts.specs.Damaged.{IsDamaged};
ghost use Rattle.ml_acts.specs.Found.{SpellsAddresses};

use ml_base::{AddressList, Files, PartError, Set};
use ml_subs::all;
use std::alloc::Global;

/// The addresses of a set's members as the recipients of a mail: in ascending order of key, none twice. It reads the set's files
/// without its count.
pub fn recipients<F: Files>(
    alloc: Global,
    files: &mut F,
    set: Set,
) -> Result<AddressList, PartError>
    ensures value { IsTrue F.tells → IfOk result (λ to. (dir : Dir) (p : Plain) → Alike (is_of_set set) (F.map files.old) dir → IsList dir p → to ≡ addresses p set) }
    ensures apart { IsTrue F.tells → IfOk result (λ to. (dir : Dir) (p : Plain) → Alike (is_bucket set) (F.map files.old) dir → IsList dir p → to ≡ addresses p set) }
    ensures sorted { IfOk result (λ to. is_sorted byte_cmp key to ≡ true) }
    ensures found { IsTrue F.tells → IfOk result (SpellsAddresses (F.map files.old) set) }
    ensures names { NamesDamaged ⟦<F as Files>⟧ (λ name. is_bucket set name ≡ true) (IsDamaged (F.map files.old)) result }
    ensures reads { IsReading ⟦<F as Files>⟧ files.old files.new result }
{
    all(alloc, files, set)
}
