// Paths of files below the list's folder.
ghost use Rattle.std.specs.Prelude.{◌≡◌, ◌≤◌, ◌<◌, ◌+◌, ◌++◌, IsTrue, take, drop, length};
ghost use Rattle.ml_base.specs.Name.{is_in_table, path_of, folder_of, leaf_of, single_path, count_word, two_digits, three_digits};

use crate::names::is_bucket_kind;
use crate::{Name, put_number, put_piece};

/// Writes the path of a file below the list's folder at the beginning of `out`, and answers its length: at most 38 bytes.
/// It takes no memory.
pub fn path(name: Name, out: &mut [u8; 48]) -> usize
    requires { IsTrue (is_in_table name) }
    ensures fits { result ≤ 38 }
    ensures text { take result out.new ≡ path_of name }
    ensures rest { drop result out.new ≡ drop result out.old }
{
    put_path(name, out)
}

fn put_path(name: Name, out: &mut [u8; 48]) -> usize
    requires { IsTrue (is_in_table name) }
    ensures place { result ≤ 48 }
    ensures text { take result out.new ≡ path_of name }
    ensures rest { drop result out.new ≡ drop result out.old }
{
    let front = put_piece(out, 0, folder(name.kind));
    if is_bucket_kind(name.kind) {
        put_piece(out, front, &[64 + name.at as u8])
    } else if name.kind == 8 {
        put_piece(out, front, count(name.at))
    } else if name.kind == 9 {
        put_post(out, front, name.at)
    } else if name.kind == 10 {
        let group = put_number(out, front, name.at);
        put_piece(out, group, b"/index")
    } else if name.kind == 13 || name.kind == 17 || name.kind == 19 {
        put_number(out, front, name.at)
    } else if name.kind == 20 {
        put_thread(out, front, name.at)
    } else {
        put_piece(out, front, single(name.kind))
    }
}

// The file of a post below `archive/`: its group of a hundred, and two digits.
fn put_post(out: &mut [u8; 48], at: usize, post: u64) -> usize
    requires { at ≤ 20 }
    ensures place { result ≤ at + 23 }
    ensures after { at ≤ result }
    ensures text { take result out.new ≡ take at out.old ++ leaf_of 9 post }
    ensures rest { drop result out.new ≡ drop result out.old }
{
    let group = put_number(out, at, post / 100);
    let slash = put_piece(out, group, b"/");
    put_two(out, slash, (post % 100) as u8)
}

fn put_thread(out: &mut [u8; 48], at: usize, place: u64) -> usize
    requires at { at ≤ 40 }
    requires place { place < 1000 }
    ensures place { result ≡ at + 3 }
    ensures text { take result out.new ≡ take at out.old ++ three_digits place }
    ensures rest { drop result out.new ≡ drop result out.old }
{
    let first = put_piece(out, at, &[b'0' + (place / 100) as u8]);
    put_two(out, first, (place % 100) as u8)
}

fn put_two(out: &mut [u8; 48], at: usize, n: u8) -> usize
    requires at { at ≤ 46 }
    requires n { n < 100 }
    ensures place { result ≡ at + 2 }
    ensures text { take result out.new ≡ take at out.old ++ two_digits n }
    ensures rest { drop result out.new ≡ drop result out.old }
{
    put_piece(out, at, &[b'0' + n / 10, b'0' + n % 10])
}

// The folder of a kind, with its slash.
fn folder(kind: u8) -> &'static [u8]
    ensures text { result.now ≡ folder_of kind }
    ensures len { length result.now ≤ 19 }
{
    match kind {
        3 => b"subscribers/",
        4 => b"digest/subscribers/",
        5 => b"allow/subscribers/",
        6 => b"deny/subscribers/",
        7 => b"mod/subscribers/",
        8 => b"counts/",
        9 | 10 => b"archive/",
        13 => b"pending/",
        15 => b"bounce/",
        16 => b"digest/bounce/",
        17 => b"queue/",
        19 => b"done/",
        20 => b"archive/threads/",
        _ => b"",
    }
}

// The path of a kind whose one file has a name of its own.
fn single(kind: u8) -> &'static [u8]
    ensures text { result.now ≡ single_path kind }
    ensures len { length result.now ≤ 7 }
{
    match kind {
        0 => b"log",
        1 => b"config",
        2 => b"key",
        11 => b"num",
        12 => b"dig",
        14 => b"tickets",
        18 => b"ids",
        _ => b"floor",
    }
}

// The word of the set that has this number.
fn count(at: u64) -> &'static [u8]
    ensures text { result.now ≡ count_word at }
    ensures len { length result.now ≤ 6 }
{
    match at {
        0 => b"list",
        1 => b"digest",
        2 => b"allow",
        3 => b"deny",
        _ => b"mod",
    }
}
