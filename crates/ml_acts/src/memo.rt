// Mail to the members of the set list, who seldom change between mails: what a run remembers of them.
ghost use Rattle.std.specs.Prelude.{◌≡◌, true, IsTrue, IfOk, IfSome};
ghost use Rattle.ml_base.specs.Address.{key};
ghost use Rattle.ml_base.specs.Dir.{Dir, are_files, touches_only, with_puts};
ghost use Rattle.ml_base.specs.ReadFiles.{IsReading, NamesDamaged};
ghost use Rattle.ml_base.specs.Sorted.{byte_cmp, is_sorted};
ghost use Rattle.ml_base.specs.declared.names.Set.TheVariants as sets;
ghost use Rattle.ml_plain.specs.Directory.{IsList};
ghost use Rattle.ml_plain.specs.Mailing as spec;
ghost use Rattle.ml_plain.specs.Plain.{Plain, addresses};
ghost use Rattle.ml_subs.specs.Subscribers.{IsSpelled, is_of_set};
ghost use Rattle.ml_acts.specs.Damaged.{IsDamaged};
ghost use Rattle.ml_acts.specs.Doing.{Alike, HasIds, is_bucket, is_mailed_by, is_of_queue, is_with_queue};
ghost use Rattle.ml_acts.specs.Found.{QueuesToSet, SpellsAddresses};

use crate::mails::send_out;
use ml_address::Path;
use ml_base::{Bytes, Files, PartError, Set, Txn};
use ml_queue::Out;
use ml_subs::{Spelling, all_with_memo};
use std::alloc::Global;
use std::marker::Model;

/// The files of the set list as they read when a mail last went to its members, and the addresses that they spell. As long as the files read
/// the same, the addresses aren't checked or sorted again. No answer depends on it.
#[derive(Drop)]
pub struct MailMemo {
    last: Option<Spelling>,
}

impl Model for MailMemo {
    ghost use Rattle.std.specs.Prelude.{IfSome};
    ghost use Rattle.ml_base.specs.declared.names.Set.TheVariants as sets;
    ghost use Rattle.ml_subs.specs.Subscribers.{IsSpelled};

    ghost Value = { Unit {0} };

    ghost view = { λ _. tt {0} };

    ghost invariant = { λ m. IfSome m.last (IsSpelled sets.List) };
}

impl MailMemo {
    /// Nothing yet. It takes no memory.
    pub fn new() -> MailMemo {
        MailMemo { last: None }
    }
}

// The members of the set list: read now, or those of before if the files read the same.
fn members_with_memo<F: Files>(
    alloc: Global,
    files: &mut F,
    before: Option<Spelling>,
) -> Result<Spelling, PartError>
    requires before { IfSome before (IsSpelled sets.List) }
    ensures spelled { IfOk result (IsSpelled sets.List) }
    ensures value { IsTrue F.tells → IfOk result (λ now. (dir : Dir) (p : Plain) → Alike (is_of_set sets.List) (F.map files.old) dir → IsList dir p → now.addresses ≡ addresses p sets.List) }
    ensures apart { IsTrue F.tells → IfOk result (λ now. (dir : Dir) (p : Plain) → Alike (is_bucket sets.List) (F.map files.old) dir → IsList dir p → now.addresses ≡ addresses p sets.List) }
    ensures sorted { IfOk result (λ now. is_sorted byte_cmp key now.addresses ≡ true) }
    ensures found { IsTrue F.tells → IfOk result (λ now. SpellsAddresses (F.map files.old) sets.List now.addresses) }
    ensures names { NamesDamaged ⟦<F as Files>⟧ (λ name. is_bucket sets.List name ≡ true) (IsDamaged (F.map files.old)) result }
    ensures reads { IsReading ⟦<F as Files>⟧ files.old files.new result }
{
    all_with_memo(alloc, files, Set::List, before)
}

/// Puts a body into the queue, for the members of the set list and under a path: the puts that do it. It reads the set's files without its
/// count, and the counter of ids.
pub fn send_to_list<F: Files>(
    alloc: Global,
    files: &mut F,
    memo: &mut MailMemo,
    way: Path,
    body: Bytes,
) -> Result<Txn, PartError>
    requires room { IsTrue F.tells → HasIds (F.map files.now) }
    ensures value { IsTrue F.tells → IfOk result (λ txn. (dir : Dir) (p : Plain) → Alike (is_with_queue sets.List) (F.map files.old) dir → IsList dir p → IsList (with_puts dir txn) (spec.send way body (addresses p sets.List) p)) }
    ensures apart { IsTrue F.tells → IfOk result (λ txn. (dir : Dir) (p : Plain) → Alike (is_mailed_by sets.List) (F.map files.old) dir → IsList dir p → IsList (with_puts dir txn) (spec.send way body (addresses p sets.List) p)) }
    ensures own { IfOk result (λ txn. touches_only is_of_queue txn ≡ true) }
    ensures files { IfOk result (λ txn. IsTrue (are_files txn)) }
    ensures found { IsTrue F.tells → IfOk result (QueuesToSet (F.map files.old) sets.List) }
    ensures names { NamesDamaged ⟦<F as Files>⟧ (λ name. is_mailed_by sets.List name ≡ true) (IsDamaged (F.map files.old)) result }
    ensures reads { IsReading ⟦<F as Files>⟧ files.old files.new result }
{
    let Spelling { texts, addresses } = members_with_memo(alloc, files, memo.last.take())?;
    let out = Out {
        path: way,
        body,
        to: addresses,
    };
    let sent = send_out(alloc, files, &out);
    memo.last = Some(Spelling {
        texts,
        addresses: out.to,
    });
    sent
}
