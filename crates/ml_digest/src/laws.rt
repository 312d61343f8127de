// Laws of the mark's file and of digests: what they spell, and that a digest can be taken apart.
ghost use Rattle.std.specs.Prelude.{◌≡◌, ◌≢◌, ◌↔◌, ◌≤◌, false, ℕ, List, Some, map};
ghost use Rattle.ml_base.specs.Bytes.{Text};
ghost use Rattle.ml_base.specs.Dir.{Dir, with_put};
ghost use Rattle.ml_base.specs.Splits.{has_byte};
ghost use Rattle.ml_base.specs.declared.names.Name.{Name};
ghost use Rattle.ml_config.specs.Configuration.{IsConfig};
ghost use Rattle.ml_config.specs.declared.configuration.Config.{Config};
ghost use Rattle.ml_digest.specs.Burst.{IsDigest};
ghost use Rattle.ml_digest.specs.Digest.{digest_text, message_text, AreDigested};
ghost use Rattle.ml_digest.specs.Due.{due, IsNextRange, IsMark, mark_name, mark_in, mark_put};
ghost use Rattle.ml_digest.specs.declared.posts.DigestPost.{DigestPost};
ghost use Rattle.ml_digest.specs.declared.posts.Mark.{Mark};
ghost use Rattle.ml_digest.specs.declared.posts.Range.{Range};

/// The mark's file is read as exactly the mark that it spells. So it has at most one mark, which depends on that file
/// alone. Writing a mark makes the file spell that mark, and leaves every other file as it is.
pub fn law_mark()
    ensures read { (dir : Dir) (mark : Mark) (text : Text) → dir mark_name ≡ Some text → (mark_in text ≡ Some mark) ↔ IsMark dir mark }
    ensures one { (dir : Dir) (mark other : Mark) → IsMark dir mark → IsMark dir other → mark ≡ other }
    ensures own { (dir other : Dir) (mark : Mark) → other mark_name ≡ dir mark_name → IsMark dir mark → IsMark other mark }
    ensures put { (dir : Dir) (mark : Mark) → mark.last ≤ 99_999_999 → mark.issue ≤ 99_999_999 → IsMark (with_put dir (mark_put mark)) mark }
    ensures elsewhere { (dir : Dir) (mark : Mark) (name : Name) → name ≢ mark_name → with_put dir (mark_put mark) name ≡ dir name }
{}

/// A digest that is due begins after the last one, and has the longest row of posts that one digest may have.
pub fn law_due()
    ensures { (last oldest now : ℕ) (sizes : List ℕ) (range : Range) → due last sizes oldest now ≡ Some range → IsNextRange last sizes range }
{}

/// A text is a digest of at most one number and one row of messages.
pub fn law_burst()
    ensures { (text : Text) (issue other : ℕ) (messages others : List Text) → IsDigest text issue messages → IsDigest text other others → (issue ≡ other) × (messages ≡ others) }
{}

/// A digest is taken apart into its number and the messages that were put into it, in order, whatever the messages are.
/// The configuration is one that a list can be made with, and neither the date nor a subject has an LF.
pub fn law_digest_text()
    ensures { (c : Config) (issue first : ℕ) (posts : List DigestPost) (date : Text) → IsConfig c → AreDigested issue first posts → has_byte 10 date ≡ false →
        IsDigest (digest_text c issue first posts date) issue (map (λ p. message_text p.bytes) posts) }
{}
