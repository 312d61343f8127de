// Laws of ledgers: what their files stand for, and when an entry is taken out.
ghost use Rattle.std.specs.Prelude.{◌≡◌, ◌≢◌, ◌↔◌, ◌<◌, ℕ, true, List, [], ◌∷◌, Option, Some, None, unwrap_or};
ghost use Rattle.ml_base.specs.Bytes.{Text};
ghost use Rattle.ml_base.specs.Dir.{Dir, with_put};
ghost use Rattle.ml_base.specs.declared.names.Name.{Name};
ghost use Rattle.ml_bounce.specs.Files.{IsLedger, IsLedgerFile, IsEntry, ledger_name, bucket_of, ledger_put, is_of_ledger};
ghost use Rattle.ml_bounce.specs.Changes.{is_old, probe_failed};
ghost use Rattle.ml_bounce.specs.Course.{Change, Bounced, Served, WarningBounced, after_all, IsCourse};
ghost use Rattle.ml_bounce.specs.Ledger.{Ledger, LedgerEntry, find_entry, with_ledger, forget};
ghost use Rattle.ml_bounce.specs.Reading.{ledger_of};

/// A ledger's file is read as exactly the entries that it spells, and an absent one has no entries. So a file spells at
/// most one row of entries.
pub fn law_ledger_files()
    ensures read { (n : ℕ) (file : Option Text) (entries : Ledger) → (ledger_of n (unwrap_or file []) ≡ Some entries) ↔ IsLedgerFile n file entries }
    ensures one { (n : ℕ) (file : Option Text) (entries others : Ledger) → IsLedgerFile n file entries → IsLedgerFile n file others → entries ≡ others }
{}

/// The files of a kind stand for at most one ledger, which depends on the files of that kind alone. If one of them is
/// outside its grammar, there is none. If all are absent, the ledger is empty.
pub fn law_ledger()
    ensures one { (dir : Dir) (kind : ℕ) (ledger other : Ledger) → IsLedger dir kind ledger → IsLedger dir kind other → ledger ≡ other }
    ensures own { (dir other : Dir) (kind : ℕ) (ledger : Ledger) → ((name : Name) → is_of_ledger kind name ≡ true → other name ≡ dir name) → IsLedger dir kind ledger → IsLedger other kind ledger }
    ensures broken { (dir : Dir) (kind n : ℕ) (ledger : Ledger) → n < 53 → ledger_of n (unwrap_or (dir (ledger_name kind n)) []) ≡ None → ¬ IsLedger dir kind ledger }
    ensures nothing { (dir : Dir) (kind : ℕ) → ((n : ℕ) → n < 53 → dir (ledger_name kind n) ≡ None) → IsLedger dir kind [] }
{}

/// What a ledger knows of a key is in the file of the key's hash. To put an entry into a ledger, in place of the one
/// with its key, put it into that file; to forget a key, take its entry out of that file, which goes when it has no
/// entries left. Both leave every other file as it is.
pub fn law_ledger_changes()
    ensures found { (dir : Dir) (kind : ℕ) (ledger bucket : Ledger) (k : Text) → IsLedger dir kind ledger → IsLedgerFile (bucket_of k) (dir (ledger_name kind (bucket_of k))) bucket → find_entry k ledger ≡ find_entry k bucket }
    ensures put { (dir : Dir) (kind : ℕ) (ledger bucket : Ledger) (e : LedgerEntry) → IsLedger dir kind ledger → IsEntry (bucket_of e.key) e → IsLedgerFile (bucket_of e.key) (dir (ledger_name kind (bucket_of e.key))) bucket →
        IsLedger (with_put dir (ledger_put kind (bucket_of e.key) (with_ledger e bucket))) kind (with_ledger e ledger) }
    ensures forgotten { (dir : Dir) (kind : ℕ) (ledger bucket : Ledger) (k : Text) → IsLedger dir kind ledger → IsLedgerFile (bucket_of k) (dir (ledger_name kind (bucket_of k))) bucket →
        IsLedger (with_put dir (ledger_put kind (bucket_of k) (forget k bucket))) kind (forget k ledger) }
    ensures elsewhere { (dir : Dir) (kind n : ℕ) (entries : Ledger) (name : Name) → name ≢ ledger_name kind n → with_put dir (ledger_put kind n entries) name ≡ dir name }
{}

/// A bounced probe takes an entry out of a ledger only after the whole course. From a ledger without the key on,
/// whatever else happened: mail to the key bounced; at least 1,000,000 seconds later it was warned; that very warning
/// bounced; at least 1,000,000 seconds later it was probed, at the moment that the bounce names; and all this time it
/// wasn't forgotten.
pub fn law_course()
    ensures { (k : Text) (probed : ℕ) (changes : List Change) (ledger left : Ledger) → find_entry k ledger ≡ None → probe_failed k probed (after_all changes ledger) ≡ Some left → IsCourse k probed changes }
{}

/// The whole course leads to a removal. Mail to a key that has no entry bounces. At least 1,000,000 seconds later what
/// is due is done: the warning. That very warning bounces. At least 1,000,000 seconds later what is due is done: the
/// probe. When that very probe bounces, the entry is taken out.
pub fn law_removal()
    ensures { (k : Text) (number first warned failed probed : ℕ) (ledger : Ledger) → find_entry k ledger ≡ None → is_old warned first ≡ true → is_old probed failed ≡ true →
        (left : Ledger) × (probe_failed k probed (after_all (Bounced k number first ∷ Served k warned ∷ WarningBounced k warned failed ∷ Served k probed ∷ []) ledger) ≡ Some left) × (find_entry k left ≡ None) }
{}
