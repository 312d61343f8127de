// What holds of the texts of this crate.
ghost use Rattle.std.specs.Prelude.{◌≡◌, ◌↔◌, ◌<◌, ◌≤◌, ◌^◌, ◌++◌, ℕ, List, Some, length};
ghost use Rattle.std.specs.List.{AllByRecursion};
ghost use Rattle.std.specs.Fmt.{decimal};
ghost use Rattle.ml_base.specs.Address.{IsAddress};
ghost use Rattle.ml_base.specs.Bytes.{Text};
ghost use Rattle.ml_base.specs.Numbers.{moment_in};
ghost use Rattle.ml_base.specs.Splits.{ns_row, AreShort};
ghost use Rattle.ml_rows.specs.Rows.{netstrings_at};
ghost use Rattle.ml_rows.specs.Values.{address_in, line_number, number_line, comma_numbers, comma_text};

/// A text is read as exactly the value that it spells: a moment, an address, a number on a line of its own, numbers joined by
/// commas, and netstrings in a row with whatever follows them.
pub fn law_values()
    ensures moment { (t : ℕ) (text : Text) → (moment_in text ≡ Some t) ↔ ((t < 253_402_300_800) × (text ≡ decimal t)) }
    ensures address { (a text : Text) → (address_in text ≡ Some a) ↔ (IsAddress a × (text ≡ a)) }
    ensures line { (limit n : ℕ) (text : Text) → limit < 2 ^ 64 → (line_number limit text ≡ Some n) ↔ ((n ≤ limit) × (text ≡ number_line n)) }
    ensures commas { (limit : ℕ) (numbers : List ℕ) (text : Text) → limit < 2 ^ 64 → (comma_numbers limit text ≡ Some numbers) ↔ (AllByRecursion (λ n. n ≤ limit) numbers × (text ≡ comma_text numbers)) }
    ensures netstrings { (n : ℕ) (texts : List Text) (rest text : Text) → (netstrings_at n text ≡ Some (texts, rest)) ↔ ((length texts ≡ n) × AreShort texts × (text ≡ ns_row texts ++ rest)) }
{}
