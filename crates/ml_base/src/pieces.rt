// Text put together in a buffer, piece by piece.
ghost use Rattle.std.specs.Prelude.{◌≡◌, ◌≤◌, ◌+◌, ◌++◌, length, take, drop};
ghost use Rattle.std.specs.Fmt.{decimal};

use crate::write_number;

/// Puts a piece into the buffer at a place, and answers the place after it.
pub fn put_piece(out: &mut [u8], at: usize, piece: &[u8]) -> usize
    requires { at + length piece.now ≤ length out.old }
    ensures place { result ≡ at + length piece.now }
    ensures text { take result out.new ≡ take at out.old ++ piece.now }
    ensures rest { drop result out.new ≡ drop result out.old }
{
    out[at..at + piece.len()].copy_from_slice(piece);
    at + piece.len()
}

/// Puts the digits of a number into the buffer at a place, and answers the place after them: at most 20 bytes further.
pub fn put_number(out: &mut [u8], at: usize, number: u64) -> usize
    requires { at + 20 ≤ length out.old }
    ensures place { result ≤ at + 20 }
    ensures size { result ≡ at + length (decimal number) }
    ensures text { take result out.new ≡ take at out.old ++ decimal number }
    ensures rest { drop result out.new ≡ drop result out.old }
{
    let mut digits = [0u8; 20];
    let len = write_number(number, &mut digits);
    put_piece(out, at, &digits[..len])
}
