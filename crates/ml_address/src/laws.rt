// Laws of requests and envelope senders: what is written is read back, and what is read is spelled so.
ghost use Rattle.std.specs.Prelude.{◌≡◌, ◌≢◌, ◌↔◌, ◌++◌, true, false, Some, ℕ, length, codes, IsTrue};
ghost use Rattle.std.specs.Fmt.{decimal};
ghost use Rattle.ml_base.specs.Bytes.{Text};
ghost use Rattle.ml_base.specs.Splits.{has_byte};
ghost use Rattle.ml_base.specs.Address.{local_of, IsAddress};
ghost use Rattle.ml_base.specs.Ranges.{is_moment, is_post_number};
ghost use Rattle.ml_base.specs.declared.names.Set.{Set};
ghost use Rattle.ml_base.specs.declared.names.Set.TheVariants as sets;
ghost use Rattle.ml_address.specs.Requests.{PlainRequest, Bounce, WarnBounce, ProbeBounce, ReplyBounce, Other, set_front, is_mailed, is_cookie, is_in_range};
ghost use Rattle.ml_address.specs.Reading.{request_of};
ghost use Rattle.ml_address.specs.Spelling.{IsSpelling};
ghost use Rattle.ml_address.specs.Writing.{ticket_text, request_text};
ghost use Rattle.ml_address.specs.Paths.{with_equals, unverp, verp, who_at, naming_path, answer_path, IsNamedAt};

/// A text is read as a request exactly if it spells it: with its words, LOCAL and HOST in any case of letters, and its
/// numbers, letters and addresses exactly. So a request that is written is read back as the same. HOST has no `@`, and
/// what no row of the grammar has is read as Other.
pub fn law_requests()
    ensures read { (local host text : Text) (request : PlainRequest) → request ≢ Other → request_of local host text ≡ Some request → IsTrue (is_in_range request) × IsSpelling local host request text }
    ensures spelled { (local host text : Text) (request : PlainRequest) → has_byte 64 host ≡ false → IsTrue (is_in_range request) → IsSpelling local host request text → request_of local host text ≡ Some request }
    ensures written { (local host : Text) (request : PlainRequest) → has_byte 64 host ≡ false → IsTrue (is_in_range request) → request_of local host (request_text local host request) ≡ Some request }
{}

/// The `=` that stands for an `@` is found exactly if it makes an address there and no other `=` comes after it. So the
/// one that a sender was written with is found, even if the local part has others.
pub fn law_senders()
    ensures read { (text : Text) (at : ℕ) → (unverp text ≡ Some at) ↔ IsNamedAt text at }
    ensures written { (address : Text) → IsAddress address → unverp (with_equals address) ≡ Some (length (local_of address)) }
{}

/// A mail that can't be delivered is sent back to its envelope sender. The sender that is written for a copy is read as
/// a bounce of this copy's recipient: of a post or a digest with its number, of a warning or a probe with its moment
/// and letters. The sender of an answer names nobody. HOST has no `@`.
pub fn law_bounces()
    ensures numbered { (local host address : Text) (set : Set) (number : ℕ) → has_byte 64 host ≡ false → IsAddress address → IsTrue (is_mailed set) → IsTrue (is_post_number number) →
        request_of local host (verp (naming_path local host (set_front set ++ codes "return-" ++ decimal number ++ codes "-")) address) ≡ Some (Bounce set number (who_at address)) }
    ensures warned { (local host address cookie : Text) (set : Set) (time : ℕ) → has_byte 64 host ≡ false → IsAddress address → IsTrue (is_mailed set) → IsTrue (is_moment time) → IsTrue (is_cookie cookie) →
        request_of local host (verp (naming_path local host (set_front set ++ codes "return-warn-" ++ ticket_text time cookie ++ codes "-")) address) ≡ Some (WarnBounce set (record { time = time; cookie = cookie; who = who_at address })) }
    ensures probed { (local host address cookie : Text) (set : Set) (time : ℕ) → has_byte 64 host ≡ false → IsAddress address → IsTrue (is_mailed set) → IsTrue (is_moment time) → IsTrue (is_cookie cookie) →
        request_of local host (verp (naming_path local host (set_front set ++ codes "return-probe-" ++ ticket_text time cookie ++ codes "-")) address) ≡ Some (ProbeBounce set (record { time = time; cookie = cookie; who = who_at address })) }
    ensures answered { (local host address : Text) → has_byte 64 host ≡ false → request_of local host (verp (answer_path local host) address) ≡ Some (ReplyBounce sets.List) }
{}
