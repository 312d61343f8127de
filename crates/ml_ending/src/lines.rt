// Writes the line that ends a call early. It takes no memory.
ghost use Rattle.std.specs.Prelude.{◌≡◌, ◌≤◌, ◌+◌, ◌++◌, IsTrue, length, take};
ghost use Rattle.std.specs.Fmt.{decimal};
ghost use Rattle.ml_base.specs.Name.{is_in_table, path_of};
ghost use Rattle.ml_ending.specs.Lines.{HasPath, number_text, stop_text, why_text};

use ml_base::{Name, path, put_number, put_piece};

/// Why a run ends early, or gives only one line.
#[derive(Clone, Copy, Debug, PartialEq, Eq)]
pub enum Why {
    /// The words are no command.
    Usage,
    /// The stream has a wrong byte. This is the place, counted from 0, where the element with that byte begins.
    Bad(u64),
    /// The input ends too early. This is the place, counted from 0, where the element begins that is cut off.
    Short(u64),
    /// A word of the command isn't the number, set or address that it has to be.
    Words,
    /// The input is longer than it may be.
    Long,
    /// The clock can't be read.
    Clock,
    /// Memory ran out.
    Memory,
    /// There are more items than were asked for.
    More,
    /// The input can't be read.
    Input,
    /// There is no list in the folder.
    NoList,
    /// A file is damaged.
    At(Name),
    /// There is a list in the folder already.
    There,
    /// What was asked for isn't there.
    Absent,
    /// The disk refuses.
    Disk,
}

/// Writes an exit status, of at most three digits, after the first `at` bytes of a line, and answers where it ends.
pub fn put_status(out: &mut [u8; 64], at: usize, status: u8) -> usize
    requires { at ≤ 44 }
    ensures place { result ≤ at + 3 }
    ensures text { take result out.new ≡ take at out.old ++ decimal status }
{
    put_number(out, at, status as u64)
}

/// Writes the line that ends a run early at the beginning of `out`, and answers its length: the number of the item
/// in hand, if there is one, the exit status, and why. The name of `At` is in the table of files.
pub fn stop_line(number: Option<u64>, status: u8, why: Why, out: &mut [u8; 64]) -> usize
    requires { HasPath why }
    ensures fits { result ≤ 64 }
    ensures text { take result out.new ≡ stop_text number status why }
{
    let first = put_item_number(out, number);
    let second = put_piece(out, first, b" ");
    let third = put_status(out, second, status);
    let fourth = put_piece(out, third, b" ");
    let fifth = put_why(out, fourth, why);
    put_piece(out, fifth, b"\n")
}

// The number of an item, or `-`.
fn put_item_number(out: &mut [u8; 64], number: Option<u64>) -> usize
    ensures place { result ≤ 20 }
    ensures text { take result out.new ≡ number_text number }
{
    match number {
        Some(number) => put_number(out, 0, number),
        None => put_piece(out, 0, b"-"),
    }
}

// The words for why a run ends.
fn put_why(out: &mut [u8; 64], at: usize, why: Why) -> usize
    requires at { at ≤ 25 }
    requires path { HasPath why }
    ensures place { result ≤ 63 }
    ensures text { take result out.new ≡ take at out.old ++ why_text why }
{
    match why {
        Why::Usage => put_piece(out, at, b"usage"),
        Why::Bad(place) => put_place(out, at, b"bad ", place),
        Why::Short(place) => put_place(out, at, b"short ", place),
        Why::Words => put_piece(out, at, b"words"),
        Why::Long => put_piece(out, at, b"long"),
        Why::Clock => put_piece(out, at, b"clock"),
        Why::Memory => put_piece(out, at, b"memory"),
        Why::More => put_piece(out, at, b"more"),
        Why::Input => put_piece(out, at, b"input"),
        Why::NoList => put_piece(out, at, b"nolist"),
        Why::At(name) => put_path(out, at, name),
        Why::There => put_piece(out, at, b"there"),
        Why::Absent => put_piece(out, at, b"absent"),
        Why::Disk => put_piece(out, at, b"disk"),
    }
}

// A word, and the place in the stream that it is about.
fn put_place(out: &mut [u8; 64], at: usize, fault: &[u8], place: u64) -> usize
    requires at { at ≤ 25 }
    requires fault { length fault.now ≤ 6 }
    ensures place { result ≤ 63 }
    ensures text { take result out.new ≡ take at out.old ++ fault.now ++ decimal place }
{
    let digits = put_piece(out, at, fault);
    put_number(out, digits, place)
}

// The path of a file: at most 38 bytes.
fn put_path(out: &mut [u8; 64], at: usize, name: Name) -> usize
    requires at { at ≤ 25 }
    requires name { IsTrue (is_in_table name) }
    ensures place { result ≤ 63 }
    ensures text { take result out.new ≡ take at out.old ++ path_of name }
{
    let mut text = [0u8; 48];
    let len = path(name, &mut text);
    put_piece(out, at, &text[..len])
}
