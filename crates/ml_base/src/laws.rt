// What holds of the values of this crate, whatever text they are read from.
ghost use Rattle.std.specs.Prelude.{◌≡◌, true, false, ◌≤◌, ◌<◌, ◌+◌, ◌^◌, List, [], ◌++◌, ◌∷◌, ℕ, Bool, IsTrue, Some, None, is_some, length, if◌then◌else◌};
ghost use Rattle.std.specs.List.{concat, list_any, AllByRecursion};
ghost use Rattle.std.specs.Fmt.{decimal};
ghost use Rattle.std.specs.Ordering.{nat_cmp, eq_by_cmp};
ghost use Rattle.ml_base.specs.declared.names.Name.{Name};
ghost use Rattle.ml_base.specs.declared.puts.Put.{Put};
ghost use Rattle.ml_base.specs.Dir.{Dir, same_name, with_puts, touches, touches_only};
ghost use Rattle.ml_base.specs.Splits.{has_byte, split_first, lines, nul_row, ns_row, HaveNoNul, AreShort};
ghost use Rattle.ml_base.specs.Sorted.{byte_cmp, entry_of, is_sorted, with_entry, without_key};
ghost use Rattle.ml_base.specs.Bytes.{Text, lower, is_nul, split_last};
ghost use Rattle.ml_base.specs.Name.{is_in_table, path_of};
ghost use Rattle.ml_base.specs.Numbers.{number_within};
ghost use Rattle.ml_base.specs.Netstrings.{netstring_at, ns};
ghost use Rattle.ml_base.specs.Address.{address_of, local_of, host_of, key, IsAddress};

/// A number is read from its own digits and from no other text.
pub fn law_numbers()
    ensures read { (limit : ℕ) (text : Text) (n : ℕ) → limit < 2 ^ 64 → number_within limit text ≡ Some n → (n ≤ limit) × (text ≡ decimal n) }
    ensures written { (limit n : ℕ) → limit < 2 ^ 64 → n ≤ limit → number_within limit (decimal n) ≡ Some n }
{}

/// A netstring is read as it is written, whatever follows it, and nothing else is read.
pub fn law_netstrings()
    ensures read { (bytes content rest : Text) → netstring_at bytes ≡ Some (content, rest) → (length content < 10 ^ 18) × (bytes ≡ ns content ++ rest) }
    ensures written { (content rest : Text) → length content < 10 ^ 18 → netstring_at (ns content ++ rest) ≡ Some (content, rest) }
{}

/// An address that is read from a text is spelled as it is kept. An address is read as itself and is its parts joined by the `@`,
/// its key is an address, no address has a NUL, and none has more than 400 bytes.
pub fn law_addresses()
    ensures read { (text address : Text) → address_of text ≡ Some address → IsAddress address }
    ensures kept { (address : Text) → IsAddress address → address_of address ≡ Some address }
    ensures parts { (address : Text) → IsAddress address → (address ≡ local_of address ++ 64 ∷ host_of address) × (lower (host_of address) ≡ host_of address) }
    ensures keys { (address : Text) → IsAddress address → IsAddress (key address) }
    ensures no_nul { (address : Text) → IsAddress address → list_any is_nul address ≡ false }
    ensures short { (address : Text) → IsAddress address → length address ≤ 400 }
{}

/// Laying one row of puts and then another is the same as laying both joined. The last put of a file decides. A row leaves every
/// file alone that it doesn't touch.
pub fn law_puts()
    ensures appended { (dir : Dir) (first second : List Put) → with_puts dir (first ++ second) ≡ with_puts (with_puts dir first) second }
    ensures last { (dir : Dir) (puts : List Put) (put : Put) (name : Name) → with_puts dir (puts ++ put ∷ []) name ≡ (if same_name name put.name then put.bytes else with_puts dir puts name) }
    ensures untouched { (dir : Dir) (puts : List Put) (name : Name) → touches puts name ≡ false → with_puts dir puts name ≡ dir name }
    ensures others { (test : Name → Bool) (dir : Dir) (puts : List Put) (name : Name) → touches_only test puts ≡ true → test name ≡ false → with_puts dir puts name ≡ dir name }
{}

/// Of a list in the order of keys that are bytes: what is found in it after an entry was put in or a key taken out, that it stays in
/// order, how long it is, and that two lists in order are equal if the same is found in both.
pub fn law_sorted_by_text<E>()
    ensures found_with { (key : E → Text) (k : Text) (e : E) (es : List E) →
        entry_of byte_cmp key k (with_entry byte_cmp key e es) ≡ (if eq_by_cmp byte_cmp k (key e) then Some e else entry_of byte_cmp key k es) }
    ensures found_without { (key : E → Text) (k removed : Text) (es : List E) →
        entry_of byte_cmp key k (without_key byte_cmp key removed es) ≡ (if eq_by_cmp byte_cmp k removed then None else entry_of byte_cmp key k es) }
    ensures sorted_with { (key : E → Text) (e : E) (es : List E) → IsTrue (is_sorted byte_cmp key es) → IsTrue (is_sorted byte_cmp key (with_entry byte_cmp key e es)) }
    ensures sorted_without { (key : E → Text) (removed : Text) (es : List E) → IsTrue (is_sorted byte_cmp key es) → IsTrue (is_sorted byte_cmp key (without_key byte_cmp key removed es)) }
    ensures length_with { (key : E → Text) (e : E) (es : List E) → IsTrue (is_sorted byte_cmp key es) →
        length (with_entry byte_cmp key e es) ≡ (if is_some (entry_of byte_cmp key (key e) es) then length es else length es + 1) }
    ensures length_without { (key : E → Text) (removed : Text) (es : List E) → IsTrue (is_sorted byte_cmp key es) →
        (if is_some (entry_of byte_cmp key removed es) then 1 else 0) + length (without_key byte_cmp key removed es) ≡ length es }
    ensures one { (key : E → Text) (es fs : List E) → IsTrue (is_sorted byte_cmp key es) → IsTrue (is_sorted byte_cmp key fs) →
        ((k : Text) → entry_of byte_cmp key k es ≡ entry_of byte_cmp key k fs) → es ≡ fs }
{}

/// The same for a list in the order of keys that are numbers.
pub fn law_sorted_by_number<E>()
    ensures found_with { (key : E → ℕ) (k : ℕ) (e : E) (es : List E) →
        entry_of nat_cmp key k (with_entry nat_cmp key e es) ≡ (if eq_by_cmp nat_cmp k (key e) then Some e else entry_of nat_cmp key k es) }
    ensures found_without { (key : E → ℕ) (k removed : ℕ) (es : List E) →
        entry_of nat_cmp key k (without_key nat_cmp key removed es) ≡ (if eq_by_cmp nat_cmp k removed then None else entry_of nat_cmp key k es) }
    ensures sorted_with { (key : E → ℕ) (e : E) (es : List E) → IsTrue (is_sorted nat_cmp key es) → IsTrue (is_sorted nat_cmp key (with_entry nat_cmp key e es)) }
    ensures sorted_without { (key : E → ℕ) (removed : ℕ) (es : List E) → IsTrue (is_sorted nat_cmp key es) → IsTrue (is_sorted nat_cmp key (without_key nat_cmp key removed es)) }
    ensures length_with { (key : E → ℕ) (e : E) (es : List E) → IsTrue (is_sorted nat_cmp key es) →
        length (with_entry nat_cmp key e es) ≡ (if is_some (entry_of nat_cmp key (key e) es) then length es else length es + 1) }
    ensures length_without { (key : E → ℕ) (removed : ℕ) (es : List E) → IsTrue (is_sorted nat_cmp key es) →
        (if is_some (entry_of nat_cmp key removed es) then 1 else 0) + length (without_key nat_cmp key removed es) ≡ length es }
    ensures one { (key : E → ℕ) (es fs : List E) → IsTrue (is_sorted nat_cmp key es) → IsTrue (is_sorted nat_cmp key fs) →
        ((k : ℕ) → entry_of nat_cmp key k es ≡ entry_of nat_cmp key k fs) → es ≡ fs }
{}

/// A text that is split at a byte is its two parts with the byte between them. The first part, or the last, doesn't have the byte. What is
/// put together like this is split there again, and a text without the byte isn't split.
pub fn law_splits()
    ensures first_read { (byte : ℕ) (text before after : Text) → split_first byte text ≡ Some (before, after) → (text ≡ before ++ byte ∷ after) × (has_byte byte before ≡ false) }
    ensures first_written { (byte : ℕ) (before after : Text) → has_byte byte before ≡ false → split_first byte (before ++ byte ∷ after) ≡ Some (before, after) }
    ensures first_absent { (byte : ℕ) (text : Text) → has_byte byte text ≡ false → split_first byte text ≡ None }
    ensures last_read { (byte : ℕ) (text before after : Text) → split_last byte text ≡ Some (before, after) → (text ≡ before ++ byte ∷ after) × (has_byte byte after ≡ false) }
    ensures last_written { (byte : ℕ) (before after : Text) → has_byte byte after ≡ false → split_last byte (before ++ byte ∷ after) ≡ Some (before, after) }
    ensures last_absent { (byte : ℕ) (text : Text) → has_byte byte text ≡ false → split_last byte text ≡ None }
{}

/// The lines of a text make up the text. Each ends after its first LF, and the last one where the text ends.
pub fn law_lines()
    ensures whole { (text : Text) → concat (lines text) ≡ text }
    ensures ended { (line rest : Text) → has_byte 10 line ≡ false → lines (line ++ 10 ∷ rest) ≡ (line ++ 10 ∷ []) ∷ lines rest }
    ensures last { (line : Text) → has_byte 10 line ≡ false → 0 < length line → lines line ≡ line ∷ [] }
{}

/// A text is at most one row of records, each followed by a NUL, and at most one row of netstrings. Addresses can make either.
pub fn law_rows()
    ensures nul { (xs ys : List Text) → HaveNoNul xs → HaveNoNul ys → nul_row xs ≡ nul_row ys → xs ≡ ys }
    ensures netstrings { (xs ys : List Text) → AreShort xs → AreShort ys → ns_row xs ≡ ns_row ys → xs ≡ ys }
    ensures no_nul { (addresses : List Text) → AllByRecursion IsAddress addresses → HaveNoNul addresses }
    ensures short { (addresses : List Text) → AllByRecursion IsAddress addresses → AreShort addresses }
{}

/// No two names of the table have the same path.
pub fn law_paths()
    ensures { (a b : Name) → IsTrue (is_in_table a) → IsTrue (is_in_table b) → path_of a ≡ path_of b → a ≡ b }
{}
