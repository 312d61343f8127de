// A buffer of fixed size, for the bytes of one item.
ghost use Rattle.std.specs.Prelude.{◌≡◌, ◌≤◌, ◌+◌, List, ℕ, [], ◌++◌, length, take};
ghost use Rattle.std.specs.Fmt.{decimal};
ghost use Rattle.ml_base.specs.Netstrings.{ns};

use ml_base::{put_number, put_piece};
use std::marker::Model;

/// A row of at most 1,024 bytes. It takes no memory.
#[derive(Drop)]
pub(crate) struct Buffer {
    bytes: [u8; 1024],
    len: usize,
}

impl Model for Buffer {
    ghost Value = { List ℕ };

    ghost view = { λ b. take b.len b.bytes };

    ghost invariant = { λ b. b.len ≤ 1024 };
}

impl Buffer {
    /// An empty buffer.
    pub fn new() -> Self
        ensures { result ≡ [] }
    {
        Buffer {
            bytes: [0; 1024],
            len: 0,
        }
    }

    /// The bytes that were added.
    pub fn as_slice(&self) -> &[u8]
        ensures { result.now ≡ self.now }
    {
        &self.bytes[..self.len]
    }

    /// How many bytes were added.
    pub fn len(&self) -> usize
        ensures { result ≡ length self.now }
    {
        self.len
    }

    /// Adds a piece at the end.
    pub fn put(&mut self, piece: &[u8])
        requires { length self.old + length piece.now ≤ 1024 }
        ensures text { self.new ≡ self.old ++ piece.now }
        ensures size { length self.new ≡ length self.old + length piece.now }
    {
        self.len = put_piece(&mut self.bytes, self.len, piece);
    }

    /// Adds the digits of a number at the end, at most 20.
    pub fn put_number(&mut self, number: u64)
        requires { length self.old + 20 ≤ 1024 }
        ensures text { self.new ≡ self.old ++ decimal number }
        ensures size { length self.new ≤ length self.old + 20 }
    {
        self.len = put_number(&mut self.bytes, self.len, number);
    }

    /// Adds the netstring of a content at the end.
    pub fn put_netstring(&mut self, content: &[u8])
        requires { length self.old + length content.now + 22 ≤ 1024 }
        ensures text { self.new ≡ self.old ++ ns content.now }
        ensures size { length self.new ≤ length self.old + length content.now + 22 }
    {
        self.put_number(content.len() as u64);
        self.put(b":");
        self.put(content);
        self.put(b",");
    }

    /// Adds the netstring of a number's digits at the end.
    pub fn put_number_netstring(&mut self, number: u64)
        requires { length self.old + 42 ≤ 1024 }
        ensures text { self.new ≡ self.old ++ ns (decimal number) }
        ensures size { length self.new ≤ length self.old + 42 }
    {
        let mut digits = Buffer::new();
        digits.put_number(number);
        self.put_netstring(digits.as_slice());
    }
}
