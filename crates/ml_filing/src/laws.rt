// Laws of the archive: what its files stand for, and what an append changes.
ghost use Rattle.std.specs.Prelude.{◌≡◌, ◌≢◌, ◌↔◌, ◌<◌, ◌≤◌, ◌/◌, ◌==◌, ◌&&◌, nat_le, ℕ, true, IsTrue, List, [], ◌∷◌, ◌++◌, length, Option, Some, None, unwrap_or, if◌then◌else◌};
ghost use Rattle.ml_base.specs.Bytes.{Text};
ghost use Rattle.std.specs.Str.{bytes_eq};
ghost use Rattle.ml_base.specs.Dir.{Dir, with_puts};
ghost use Rattle.ml_base.specs.Name.{is_in_table};
ghost use Rattle.ml_base.specs.declared.names.Name.{Name};
ghost use Rattle.ml_filing.specs.Appending.{append, next_number, next_post, CanAppend, append_puts};
ghost use Rattle.ml_filing.specs.Posts.{Numbered, size_of, post_at, in_range, in_thread, cut, numbers, group, of_key, key_of};
ghost use Rattle.ml_filing.specs.Archive.{ArePosts, IsIndexFile, IsNumberFile, index_name, number_name, number_text, is_of_posts};
ghost use Rattle.ml_filing.specs.Reading.{count_in, index_in, threads_in};
ghost use Rattle.ml_filing.specs.Threads.{IsArchive, IsThreadByFiles, IsThreadFile, thread_name, thread_place, is_of_archive};
ghost use Rattle.ml_rows.specs.Longest.{IsLongest};
ghost use Rattle.ml_filing.specs.declared.posts.Entry.{Entry};
ghost use Rattle.ml_filing.specs.declared.posts.Post.{Post};
ghost use Rattle.ml_filing.specs.declared.posts.Thread.{Thread};

/// An index, a thread file and the number of posts are each read as exactly what they spell; an absent index or thread
/// file is read as empty. So each of them spells at most one value.
pub fn law_archive_files()
    ensures index { (g : ℕ) (file : Option Text) (entries : List Entry) → (index_in g (unwrap_or file []) ≡ Some entries) ↔ IsIndexFile g file entries }
    ensures threads { (n : ℕ) (file : Option Text) (threads : List Thread) → (threads_in n (unwrap_or file []) ≡ Some threads) ↔ IsThreadFile n file threads }
    ensures count { (count : ℕ) (text : Text) → (count_in text ≡ Some count) ↔ IsNumberFile (Some text) count }
    ensures one_index { (g : ℕ) (file : Option Text) (entries others : List Entry) → IsIndexFile g file entries → IsIndexFile g file others → entries ≡ others }
    ensures one_row { (n : ℕ) (file : Option Text) (threads others : List Thread) → IsThreadFile n file threads → IsThreadFile n file others → threads ≡ others }
    ensures one_count { (file : Option Text) (count other : ℕ) → IsNumberFile file count → IsNumberFile file other → count ≡ other }
{}

/// The files stand for at most one list of posts, even without the thread files. That list depends on the archive's own
/// files alone. If one of them is outside its grammar, there is none. A number of 0 and no other file is an empty
/// archive.
pub fn law_archive()
    ensures one_list { (dir : Dir) (posts others : List Post) → ArePosts dir posts → ArePosts dir others → posts ≡ others }
    ensures one { (dir : Dir) (prefix : Text) (posts others : List Post) → IsArchive dir prefix posts → IsArchive dir prefix others → posts ≡ others }
    ensures own_posts { (dir other : Dir) (posts : List Post) → ((name : Name) → is_of_posts name ≡ true → other name ≡ dir name) → ArePosts dir posts → ArePosts other posts }
    ensures own { (dir other : Dir) (prefix : Text) (posts : List Post) → ((name : Name) → is_of_archive name ≡ true → other name ≡ dir name) → IsArchive dir prefix posts → IsArchive other prefix posts }
    ensures broken_index { (dir : Dir) (g : ℕ) (posts : List Post) → IsTrue (is_in_table (index_name g)) → index_in g (unwrap_or (dir (index_name g)) []) ≡ None → ¬ ArePosts dir posts }
    ensures broken_threads { (dir : Dir) (prefix : Text) (n : ℕ) (posts : List Post) → n < 256 → threads_in n (unwrap_or (dir (thread_name n)) []) ≡ None → ¬ IsArchive dir prefix posts }
    ensures broken_count { (dir : Dir) (posts : List Post) → count_in (unwrap_or (dir number_name) []) ≡ None → ¬ ArePosts dir posts }
    ensures nothing { (dir : Dir) (prefix : Text) → ((name : Name) → is_of_archive name ≡ true → name.kind ≢ 11 → dir name ≡ None) → dir number_name ≡ Some (number_text 0) → IsArchive dir prefix [] }
{}

/// An appended post gets the number after the last one's, and every post keeps its number for good. After an append a
/// range, a group and the posts of a subject key are what they were before, with the new post at the end if it is one
/// of them. And with the four files that appending writes, the archive stands for the longer list.
pub fn law_append()
    ensures new { (posts : List Post) (post : Post) → post_at (append post posts) (next_number posts) ≡ Some post }
    ensures kept { (posts : List Post) (post : Post) (n : ℕ) → n ≤ length posts → post_at (append post posts) n ≡ post_at posts n }
    ensures range { (a b : ℕ) (posts : List Post) (post : Post) → in_range a b (append post posts) ≡ in_range a b posts ++ (if nat_le a (next_number posts) && nat_le (next_number posts) b then next_post posts post ∷ [] else []) }
    ensures group { (g : ℕ) (posts : List Post) (post : Post) → group g (append post posts) ≡ group g posts ++ (if (next_number posts / 100) == g then next_post posts post ∷ [] else []) }
    ensures thread { (prefix k : Text) (posts : List Post) (post : Post) → of_key prefix k (append post posts) ≡ of_key prefix k posts ++ (if bytes_eq (key_of prefix post) k then next_post posts post ∷ [] else []) }
    ensures files { (dir : Dir) (prefix : Text) (posts : List Post) (post : Post) (threads : List Thread) → IsArchive dir prefix posts → CanAppend posts post →
        IsThreadFile (thread_place (key_of prefix post)) (dir (thread_name (thread_place (key_of prefix post)))) threads →
        IsArchive (with_puts dir (append_puts prefix (next_number posts) post (unwrap_or (dir (index_name (next_number posts / 100))) []) threads)) prefix (append post posts) }
{}

/// If the files stand for a list of posts, the thread of a post that is read from the files is there, and is the same
/// as if all posts were filtered and the result cut as an answer is. So reading a thread file and a few indexes is
/// enough.
pub fn law_threads()
    ensures same { (dir : Dir) (prefix : Text) (posts : List Post) (n : ℕ) (answer : List ℕ) → IsArchive dir prefix posts → 1 ≤ n → n ≤ length posts → IsThreadByFiles dir prefix n answer → answer ≡ numbers (cut (in_thread prefix n posts)) }
    ensures there { (dir : Dir) (prefix : Text) (posts : List Post) (n : ℕ) → IsArchive dir prefix posts → 1 ≤ n → n ≤ length posts → IsThreadByFiles dir prefix n (numbers (cut (in_thread prefix n posts))) }
{}

/// Of a row of posts, one answer has as many as fit, from the first on: at most 100 posts, and at most 4,194,304 bytes
/// together, but always the first post.
pub fn law_cut()
    ensures longest { (row : List Numbered) → IsLongest size_of 100 4_194_304 row (cut row) }
    ensures some { (row : List Numbered) → 0 < length row → 0 < length (cut row) }
{}
