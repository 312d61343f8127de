// What holds of every record, of every log and of every store.
ghost use Rattle.std.specs.Prelude.{◌≡◌, ◌≢◌, ◌<◌, ◌≤◌, ◌^◌, ◌++◌, [], ◌∷◌, ℕ, List, IsTrue, IsSome, Some, None, length};
ghost use Rattle.std.specs.List.{AllByRecursion};
ghost use Rattle.ml_base.specs.Bytes.{Text};
ghost use Rattle.ml_base.specs.Dir.{are_files};
ghost use Rattle.ml_base.specs.declared.puts.Put.{Put};
ghost use Rattle.ml_journal.specs.Records.{record_at, spelled_record};
ghost use Rattle.ml_site.specs.Disk.{IsAtRest};
ghost use Rattle.ml_journal.specs.declared.store.Store.{Store};
ghost use Rattle.ml_journal.specs.Stores.{site_of};
ghost use Rattle.ml_journal.specs.Log.{directory, log_puts, record_and_more, all_puts, open_records, IsWritable, HoldsNone, IsBroken, IsSplit};

use ml_site::Site;

/// A record is read as it is written, whatever follows it, and whatever is read as a record is written the same. Its puts are of files
/// of the table, and together short enough for a netstring.
#[tactic(auto, using(crate::proofs::Records::record_written, crate::proofs::Records::record_found))]
pub fn law_records()
    ensures written { (puts : List Put) (rest : Text) → IsWritable puts → record_at (spelled_record puts ++ rest) ≡ Some (puts, rest) }
    ensures read { (text : Text) (puts : List Put) (rest : Text) → record_at text ≡ Some (puts, rest) → IsWritable puts × (text ≡ spelled_record puts ++ rest) }
{}

/// What counts of a log, byte by byte: nothing of an empty log, of a last gate, or of what follows a closed one. Of what follows
/// an open gate, the record counts, if there is one, and the records that count after it.
#[tactic(auto, using(crate::proofs::Logs::log_closed, crate::proofs::Logs::log_opened))]
pub fn law_gates()
    ensures none { log_puts [] ≡ Some [] }
    ensures last { (gate : ℕ) → log_puts (gate ∷ []) ≡ Some [] }
    ensures closed { (gate b : ℕ) (rest : Text) → gate ≢ 1 → log_puts (gate ∷ b ∷ rest) ≡ Some [] }
    ensures opened { (b : ℕ) (rest : Text) → log_puts (1 ∷ b ∷ rest) ≡ record_and_more log_puts (record_at (b ∷ rest)) }
{}

/// Every row of bytes is open records and then an end. If the end is no byte, a last gate or a closed gate, the puts of these
/// records count, in their order. If it is an open gate followed by something that begins with no record, the log has no
/// value.
#[tactic(auto, using(crate::proofs::Logs::log_split, crate::proofs::Logs::log_written, crate::proofs::Logs::log_damaged, crate::proofs::Logs::log_files))]
pub fn law_logs()
    ensures each { (log : Text) → (rows : List (List Put)) × (end : Text) × IsSplit log rows end }
    ensures written { (rows : List (List Put)) (end : Text) → AllByRecursion IsWritable rows → HoldsNone end → log_puts (open_records rows ++ end) ≡ Some (all_puts rows) }
    ensures damaged { (rows : List (List Put)) (end : Text) → AllByRecursion IsWritable rows → IsBroken end → log_puts (open_records rows ++ end) ≡ None }
    ensures files { (log : Text) (puts : List Put) → log_puts log ≡ Some puts → IsTrue (are_files puts) }
{}

/// Of every store that is held: nothing is pending, its log has a directory, and the log is at most `LAY` bytes long.
#[tactic(auto, using(crate::proofs::Held::held_rest, crate::proofs::Held::held_whole, crate::proofs::Held::held_short))]
pub fn law_stores<S: Site>()
    ensures rest { (store : Store S ⟦<S as Site>⟧) → IsTrue S.tells_all → IsAtRest (S.disk (site_of store)) }
    ensures whole { (store : Store S ⟦<S as Site>⟧) → IsTrue S.tells_reads → IsSome (directory (S.disk (site_of store)).reads) }
    ensures short { (store : Store S ⟦<S as Site>⟧) → IsTrue S.tells_reads → length (S.disk (site_of store)).reads.log ≤ 8_388_608 }
{}
