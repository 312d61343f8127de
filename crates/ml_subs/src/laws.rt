// Laws of the files of a set: what they stand for, and how a change of them changes it.
ghost use Rattle.std.specs.Prelude.{◌≡◌, ◌≢◌, ◌↔◌, ◌<◌, ◌≤◌, ◌+◌, Bool, true, false, [], List, ℕ, Option, Some, None, length};
ghost use Rattle.std.specs.List.{AllByRecursion};
ghost use Rattle.ml_base.specs.Bytes.{Text};
ghost use Rattle.std.specs.declared.cmp.Ordering.TheVariants.{Equal};
ghost use Rattle.ml_base.specs.Address.{IsAddress, key};
ghost use Rattle.ml_base.specs.Ranges.{IsMoment};
ghost use Rattle.ml_base.specs.Sorted.{byte_cmp};
ghost use Rattle.ml_base.specs.Dir.{Dir, with_puts, touches_only};
ghost use Rattle.ml_base.specs.Name.{is_file};
ghost use Rattle.ml_base.specs.declared.names.Name.{Name};
ghost use Rattle.ml_base.specs.declared.names.Set.{Set};
ghost use Rattle.ml_base.specs.declared.puts.Put.{Put};
ghost use Rattle.ml_subs.specs.declared.member_list.Member.{Member};
ghost use Rattle.ml_subs.specs.Members.{member_key, has_key, with_member, without_member};
ghost use Rattle.ml_subs.specs.Buckets.{bucket_of, bucket_file, IsBucketFile};
ghost use Rattle.ml_subs.specs.Subscribers.{AreJoined, AreSubscribers, IsBucketOf, Breaks, IsUnread, bucket_name, count_name, count_text, is_of_set, is_touched};
ghost use Rattle.ml_subs.specs.Answers.{changes};

/// Neither of two addresses comes before the other exactly if their keys are equal, that is, if `Address::same` holds
/// of them. So the order of members tells addresses apart just as the list does.
pub fn law_order()
    ensures { (a b : Text) → (byte_cmp (key a) (key b) ≡ Equal) ↔ (key a ≡ key b) }
{}

/// A bucket's file has at most one list of members, and so have the files of a set. The list depends on the set's own
/// files alone. If one of them breaks the set, or can't be read for a change, there is no list. All of them are names
/// of the table. If all buckets are absent and the count is 0, the set is empty. Every member has an address and a
/// moment.
pub fn law_sets()
    ensures bucket { (n : ℕ) (file : Option Text) (ms others : List Member) → IsBucketFile n file ms → IsBucketFile n file others → ms ≡ others }
    ensures union { (dir : Dir) (set : Set) (ms others : List Member) → AreJoined dir set ms → AreJoined dir set others → ms ≡ others }
    ensures one { (dir : Dir) (set : Set) (ms others : List Member) → AreSubscribers dir set ms → AreSubscribers dir set others → ms ≡ others }
    ensures own { (dir other : Dir) (set : Set) (ms : List Member) → ((name : Name) → is_of_set set name ≡ true → other name ≡ dir name) → AreSubscribers dir set ms → AreSubscribers other set ms }
    ensures broken { (dir : Dir) (set : Set) (name : Name) (ms : List Member) → Breaks dir set name → ¬ AreSubscribers dir set ms }
    ensures unread { (dir : Dir) (set : Set) (k : Text) (has : Bool) (name : Name) (ms : List Member) → IsUnread dir set k has name → ¬ AreSubscribers dir set ms }
    ensures files { (set : Set) (name : Name) → is_of_set set name ≡ true → is_file name ≡ true }
    ensures nobody { (dir : Dir) (set : Set) → ((n : ℕ) → n < 53 → dir (bucket_name set n) ≡ None) → dir (count_name set) ≡ Some (count_text 0) → AreSubscribers dir set [] }
    ensures each { (dir : Dir) (set : Set) (ms : List Member) → AreSubscribers dir set ms → AllByRecursion (λ m. IsAddress m.who × IsMoment m.since) ms }
{}

/// To add a member to a set, add him to his bucket and one to the count; to remove a key, remove it from its bucket
/// and one from the count. Both leave every file that isn't the set's as it is, and so the other sets.
pub fn law_changes()
    ensures added { (dir : Dir) (set : Set) (ms bucket : List Member) (m : Member) → AreSubscribers dir set ms → IsAddress m.who → IsMoment m.since → has_key (member_key m) ms ≡ false → length ms < 100_000 →
        IsBucketOf dir set (member_key m) bucket →
        AreSubscribers (with_puts dir (changes set (bucket_of (member_key m)) (bucket_file (with_member m bucket)) (length ms + 1))) set (with_member m ms) }
    ensures removed { (dir : Dir) (set : Set) (ms bucket : List Member) (k : Text) (n : ℕ) → AreSubscribers dir set ms → has_key k ms ≡ true → length ms ≡ n + 1 →
        IsBucketOf dir set k bucket →
        AreSubscribers (with_puts dir (changes set (bucket_of k) (bucket_file (without_member k bucket)) n)) set (without_member k ms) }
    ensures elsewhere { (dir : Dir) (set : Set) (k : Text) (puts : List Put) (name : Name) → touches_only (is_touched set k) puts ≡ true → is_of_set set name ≡ false → with_puts dir puts name ≡ dir name }
    ensures others { (dir : Dir) (set other : Set) (k : Text) (puts : List Put) (ms : List Member) → other ≢ set → touches_only (is_touched set k) puts ≡ true → AreSubscribers dir other ms → AreSubscribers (with_puts dir puts) other ms }
{}
