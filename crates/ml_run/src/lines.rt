// The line that answers an item. It takes no memory.
ghost use Rattle.std.specs.Prelude.{◌≡◌, ◌≤◌, ◌+◌, ◌++◌, IsTrue, take};
ghost use Rattle.ml_plain.specs.Replies.{is_code, line, number_part};

use ml_base::{put_number, put_piece};
use ml_ending::put_status;
use ml_plain::{Reply, has_number, status, word};

/// Writes the line that answers an item at the front of `out`, and answers its length.
pub fn answer_line(number: u64, reply: Reply, out: &mut [u8; 64]) -> usize
    requires { IsTrue (is_code reply.code) }
    ensures fits { result ≤ 64 }
    ensures text { take result out.new ≡ line number reply }
{
    let first = put_number(out, 0, number);
    let second = put_piece(out, first, b" ");
    let third = put_status(out, second, status(reply.code));
    let fourth = put_piece(out, third, b" ");
    let fifth = put_piece(out, fourth, word(reply.code));
    let sixth = put_reply_number(out, fifth, reply);
    put_piece(out, sixth, b"\n")
}

// A space and the reply's number, if its code has one.
fn put_reply_number(out: &mut [u8; 64], at: usize, reply: Reply) -> usize
    requires at { at ≤ 42 }
    requires code { IsTrue (is_code reply.code) }
    ensures place { result ≤ at + 21 }
    ensures text { take result out.new ≡ take at out.old ++ number_part reply }
{
    if has_number(reply.code) {
        let digits = put_piece(out, at, b" ");
        put_number(out, digits, reply.number)
    } else {
        at
    }
}
