// What holds of messages and of what is sent of them, whatever message it is.
ghost use Rattle.std.specs.Prelude.{◌≡◌, true, false, ◌++◌, List, Option, IfSome, map};
ghost use Rattle.std.specs.List.{AllByRecursion};
ghost use Rattle.ml_base.specs.Bytes.{Text};
ghost use Rattle.ml_base.specs.Splits.{has_byte};
ghost use Rattle.ml_base.specs.Texts.{lines_text};
ghost use Rattle.ml_header.specs.Fields.{FieldText, fields, body};
ghost use Rattle.ml_header.specs.Forms.{IsMadeOf, IsRow, ended_field, kept_fields};
ghost use Rattle.ml_header.specs.Rewriting.{has_part, names_of, trailed, rewritten};
ghost use Rattle.ml_header.specs.Unfolding.{trim_front, trim_end, unfolded_value};

/// Every row of bytes is, in exactly one way, a row of fields followed by nothing, by an empty line and a body, or by a body
/// that begins with a line that is no field. What is put together like this has these fields and this body.
pub fn law_messages()
    ensures read { (m : Text) → IsMadeOf m (fields m) (body m) }
    ensures one { (m : Text) (fs : List FieldText) (b : Text) → IsMadeOf m fs b → (fields m ≡ fs) × (body m ≡ b) }
{}

/// A row of names, each ended by an LF, has these names, whatever bytes without an LF follow them.
pub fn law_names()
    ensures { (names : List Text) (rest : Text) → AllByRecursion (λ name. has_byte 10 name ≡ false) names → has_byte 10 rest ≡ false → names_of (lines_text names ++ rest) ≡ names }
{}

/// A text has a part exactly if it is that part with bytes before and after it.
pub fn law_parts()
    ensures read { (part text : Text) → has_part part text ≡ true → (before after : Text) × (text ≡ before ++ (part ++ after)) }
    ensures written { (before part after : Text) → has_part part (before ++ (part ++ after)) ≡ true }
{}

/// An unfolded value has no LF, and no space or tab at its ends.
pub fn law_unfolded()
    ensures one_line { (value : Text) → has_byte 10 (unfolded_value value) ≡ false }
    ensures front { (value : Text) → trim_front (unfolded_value value) ≡ unfolded_value value }
    ensures end_trimmed { (value : Text) → trim_end (unfolded_value value) ≡ unfolded_value value }
{}

/// The text that is sent of a message is read again like this: its fields are those of the lines in front and then the message's own,
/// without those that are left out and with the prefix if it is due, each ended by an LF; its body is the message's, with the
/// trailer if it is due. The prefix has no LF.
pub fn law_sent()
    ensures { (m remove add : Text) (fs : List FieldText) (prefix trailer : Option Text) → IsRow add fs → IfSome prefix (λ p. has_byte 10 p ≡ false) →
        (fields (rewritten m remove add prefix trailer) ≡ fs ++ map ended_field (kept_fields remove prefix m)) × (body (rewritten m remove add prefix trailer) ≡ trailed trailer m) }
{}
