// The laws of a list: theorems about every history of it, and about the files that stand for its state. The functions do nothing; their
// clauses are the laws.
ghost use Rattle.std.specs.Prelude.{◌≡◌, ◌↔◌, ◌≢◌, ◌<◌, ◌≤◌, ◌+◌, ◌*◌, ◌/◌, ◌%◌, max, true, ◌∷◌, [], ℕ, List, Option, Some, length};
ghost use Rattle.std.specs.List.{AllByRecursion};
ghost use Rattle.ml_base.specs.Bytes.{Text};
ghost use Rattle.ml_base.specs.Dir.{Dir, with_file, with_puts, touches_only};
ghost use Rattle.ml_base.specs.declared.names.Name.{Name};
ghost use Rattle.ml_base.specs.declared.names.Set.{Set};
ghost use Rattle.ml_base.specs.declared.puts.Put.{Put};
ghost use Rattle.ml_base.specs.Kinds.{bounces_kind, digest_bounces_kind};
ghost use Rattle.ml_filing.specs.Threads.{IsArchive};
ghost use Rattle.ml_filing.specs.declared.posts.Post.{Post};
ghost use Rattle.ml_bounce.specs.Files.{IsLedger};
ghost use Rattle.ml_bounce.specs.Ledger.{Ledger};
ghost use Rattle.ml_config.specs.KeyFile.{IsKeyFile, key_name};
ghost use Rattle.ml_config.specs.declared.key_file.Keys.{Keys};
ghost use Rattle.ml_digest.specs.Due.{IsMark};
ghost use Rattle.ml_digest.specs.declared.posts.Mark.{Mark};
ghost use Rattle.ml_hold.specs.Held.{Pending, IsPending};
ghost use Rattle.ml_queue.specs.Queue.{Queue, IsQueue};
ghost use Rattle.ml_subs.specs.declared.member_list.Member.{Member};
ghost use Rattle.ml_subs.specs.Subscribers.{AreSubscribers, is_touched};
ghost use Rattle.ml_plain.specs.Directory.{LawLaidNew, LawNewList, IsList, IsState, is_of_list, is_of_state, archive_kinds, held_kinds, queue_kinds, list_ledger_kinds, digest_ledger_kinds, mark_kinds, keys_kinds};
ghost use Rattle.ml_plain.specs.Histories.{State, Kept, keep, from_floor};
ghost use Rattle.ml_plain.specs.KeptFiles.{AreReplies, IsFloorFile, IsRepliesFile, IsSlot, IsWritten, IsRisen, slots_of, slot_text, may_be_kept, replies_name, is_of_replies};
ghost use Rattle.ml_plain.specs.KeptRead.{floor_in, reply_in};
ghost use Rattle.ml_plain.specs.MailFields.{LawMails};
ghost use Rattle.ml_plain.specs.SentMails.{LawSentMails};
ghost use Rattle.ml_plain.specs.OnceLaws.{Once, Joined};
ghost use Rattle.ml_plain.specs.Plain.{Plain, with_members};
ghost use Rattle.ml_plain.specs.Runs.{Run};
ghost use Rattle.ml_plain.specs.declared.Reply.{Reply};
ghost use Rattle.ml_plain.specs.Lasting.{LawLasting};
ghost use Rattle.ml_plain.specs.Laws.{HasIssues, LawChain, LawLeaving, LawPosts, MakesDigests};

/// Every step of a list's history posts or doesn't. A step that posts is answered `posted` and the number of the new post. It adds the
/// post at the end of the archive, and puts one entry into the queue: the post, for those who are members then. Any other step leaves the
/// posts as they are, has another reply, and puts no entry with the path of a post into the queue.
///
/// Every step, of any list, leaves what was there as it was and in its order: every post; every entry of the queue, a digest's too, except
/// for one whose id is reported sent, and that one is gone; and every held post, except for those that a moderator answers with their
/// cookies, which are posted or rejected, and those that a timed run gives back as old. What is new comes after these, under numbers that
/// weren't drawn before.
pub fn law_posts()
    ensures steps { LawPosts }
    ensures lasting { LawLasting }
{}

/// An address leaves a set in one of four ways: the operator removes it; it asks for that itself, on a list that asks for no
/// confirmation; its leaving is confirmed with a good cookie; or its probe bounces, with a good cookie, in the set list or digest. The
/// moderators' set is left only in the first way.
pub fn law_leaving()
    ensures { LawLeaving }
{}

/// An address leaves a set in one of the four ways of `law_leaving`. If a probe drops it, which happens only in list or digest, its
/// history has the whole course: a bounce of a post or of an issue that existed, which was answered `bounce`; at least 1,000,000 seconds
/// later a warning, to that member alone, which names the number of that bounce; the bounce of that warning, with a good cookie; at least
/// 1,000,000 seconds later a probe, to that member alone; and then the bounce of that probe, with a good cookie. The address was a member
/// all the while.
pub fn law_chain()
    ensures { LawChain }
{}

/// A directory that has the files of a new list, and no other file of the table except perhaps the log, stands for the list without
/// members, posts and mail, and without any kept reply. So does what the puts of `ml_config::initial` make of a directory that has no file
/// of the table except perhaps the log. Files outside the table may be there; they aren't looked at.
pub fn law_new_list()
    ensures files { LawNewList }
    ensures laid { LawLaidNew }
{}

/// Every step makes the next digest or none: a digest begins with the post after the last one of the digest before it, has at least one
/// post, and goes to the digest set as it then is. So the issues of a history are 1, 2, 3 and so on. The first begins with post 1, every
/// other one with the post after the last of the one before it. No post is in two of them, none is left out up to the last that is in one,
/// and no other entry has the path of an issue.
pub fn law_digests()
    ensures steps { MakesDigests }
    ensures issues { HasIssues }
{}

/// Every item with a number counts once, when it first comes; or never, if its number is below the floor by then.
pub fn law_once()
    ensures { Once }
{}

/// The same for any runs, each of which begins with the state that the one before it left. Runs may have items in common.
pub fn law_joined()
    ensures { (p : Plain) (runs : List Run) → Joined p runs }
{}

/// A directory stands for at most one state. Which one depends only on the files of its parts.
pub fn law_states()
    ensures one { (dir : Dir) (q r : State) → IsState dir q → IsState dir r → q ≡ r }
    ensures own { (dir other : Dir) (q : State) → ((name : Name) → is_of_state name ≡ true → other name ≡ dir name) → IsState dir q → IsState other q }
    ensures list { (dir other : Dir) (p : Plain) → ((name : Name) → is_of_list name ≡ true → other name ≡ dir name) → IsList dir p → IsList other p }
    ensures replies { (dir other : Dir) (floor : ℕ) (kept : Kept) → ((name : Name) → is_of_replies name ≡ true → other name ≡ dir name) → AreReplies dir floor kept → AreReplies other floor kept }
{}

/// Puts that touch only the files of one part, and make them stand for another value of it, leave the other parts as they were.
pub fn law_parts()
    ensures members { (dir : Dir) (p : Plain) (set : Set) (k : Text) (puts : List Put) (ms : List Member) → IsList dir p → touches_only (is_touched set k) puts ≡ true →
        AreSubscribers (with_puts dir puts) set ms → IsList (with_puts dir puts) (record p { sets = with_members set ms p.sets }) }
    ensures keys { (dir : Dir) (p : Plain) (puts : List Put) (keys : Keys) → IsList dir p → touches_only (λ name. keys_kinds name.kind) puts ≡ true →
        IsKeyFile (with_puts dir puts key_name) keys → IsList (with_puts dir puts) (record p { keys = keys }) }
    ensures posts { (dir : Dir) (p : Plain) (puts : List Put) (posts : List Post) → IsList dir p → touches_only (λ name. archive_kinds name.kind) puts ≡ true →
        IsArchive (with_puts dir puts) p.config.prefix posts → p.mark.last ≤ length posts → IsList (with_puts dir puts) (record p { posts = posts }) }
    ensures held { (dir : Dir) (p : Plain) (puts : List Put) (held : Pending) → IsList dir p → touches_only (λ name. held_kinds name.kind) puts ≡ true →
        IsPending (with_puts dir puts) held → IsList (with_puts dir puts) (record p { held = held }) }
    ensures list_ledger { (dir : Dir) (p : Plain) (puts : List Put) (ledger : Ledger) → IsList dir p → touches_only (λ name. list_ledger_kinds name.kind) puts ≡ true →
        IsLedger (with_puts dir puts) bounces_kind ledger → IsList (with_puts dir puts) (record p { list_ledger = ledger }) }
    ensures digest_ledger { (dir : Dir) (p : Plain) (puts : List Put) (ledger : Ledger) → IsList dir p → touches_only (λ name. digest_ledger_kinds name.kind) puts ≡ true →
        IsLedger (with_puts dir puts) digest_bounces_kind ledger → IsList (with_puts dir puts) (record p { digest_ledger = ledger }) }
    ensures queue { (dir : Dir) (p : Plain) (puts : List Put) (queue : Queue) → IsList dir p → touches_only (λ name. queue_kinds name.kind) puts ≡ true →
        IsQueue (with_puts dir puts) queue → IsList (with_puts dir puts) (record p { queue = queue }) }
    ensures mark { (dir : Dir) (p : Plain) (puts : List Put) (mark : Mark) → IsList dir p → touches_only (λ name. mark_kinds name.kind) puts ≡ true →
        IsMark (with_puts dir puts) mark → mark.last ≤ length p.posts → mark.issue ≤ mark.last → IsList (with_puts dir puts) (record p { mark = mark }) }
{}

/// What the kept replies are after a change of their files: with one reply more, with a floor that stays, and with one that rises.
pub fn law_changes()
    ensures reply { (dir : Dir) (floor : ℕ) (kept : Kept) (n : ℕ) (r : Reply) (new : Text) → AreReplies dir floor kept → n ≢ 0 → floor ≤ n → n ≤ 999_999_999_999 → may_be_kept r ≡ true →
        IsWritten (slots_of (dir (replies_name (n / 512)))) (n % 512) (Some r) new → AreReplies (with_file dir (replies_name (n / 512)) (Some new)) floor (keep n r kept) }
    ensures floor_kept { (dir : Dir) (f at : ℕ) (kept : Kept) → AreReplies dir f kept → at ≤ f → AreReplies dir (max f at) (from_floor (max f at) kept) }
    ensures floor_risen { (dir other : Dir) (f at : ℕ) (kept : Kept) → AreReplies dir f kept → f < at → at ≤ 999_999_999_999 → IsRisen dir other f at →
        IsRepliesFile (512 * (at / 512)) (other (replies_name (at / 512))) (from_floor at kept) → AreReplies other (max f at) (from_floor (max f at) kept) }
{}

/// A file holds a floor exactly if it is read as that floor: 1 if the file is absent, otherwise the number from 2 to 999,999,999,999 that
/// stands in it in decimal, with an LF after it. A slot's nine bytes are read as a reply, or as none, exactly if they spell it: zeros are
/// none; otherwise the first byte is the code, and the other eight are the number, most significant byte first. An item without a number
/// has no slot.
pub fn law_kept_files()
    ensures floor { (file : Option Text) (floor : ℕ) → IsFloorFile file floor ↔ (floor_in file ≡ Some floor) }
    ensures slot { (n : ℕ) (o : Option Reply) → IsSlot n o → reply_in n (slot_text o) ≡ Some o }
    ensures only { (n : ℕ) (text : Text) (o : Option Reply) → AllByRecursion (λ b. b < 256) text → reply_in n text ≡ Some o → IsSlot n o × (text ≡ slot_text o) }
{}

/// The header of every mail of the list is read as the fields `Mailing-List`, `Precedence`, `From`, `To`, `Reply-To` if the mail has an
/// address for answers, `Date` and `Subject`, in this order and no others. The value of each is what was put there, with a space before
/// it and an LF after it, and the body is all that was put after the header. This holds whatever the mail says, as long as the list's
/// address, the recipient and the address for answers have no LF.
///
/// After any history of a list whose own address has no LF, in which only addresses are added, every entry of the queue is a post with
/// the text that the list sends of a message, or has the path of an issue, or goes only to the owner, or is a mail that is read as above.
/// So nobody can add a field to a mail of the list or end its header, whatever he sends to it.
pub fn law_mails()
    ensures read { LawMails }
    ensures sent { LawSentMails }
{}
