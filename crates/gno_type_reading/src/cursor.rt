// The bytes that are left of a text.
ghost use Rattle.std.specs.Prelude.{◌≡◌, drop};
ghost use Rattle.gno_type_reading.specs.Turns.{begins_with, behind_word, word_at};

use crate::words::word_length;
use std::marker::Model;

/// The bytes that are left of a text.
#[derive(Drop)]
pub(crate) struct Cursor<'a> {
    left: &'a [u8],
}

impl<'a> Model for Cursor<'a> {
    ghost use Rattle.std.specs.Prelude.{List, ℕ};

    ghost Value = { List ℕ };

    ghost view = { λ cursor. cursor.left.now };
}

impl<'a> Cursor<'a> {
    pub(crate) fn new(left: &'a [u8]) -> Cursor<'a>
        ensures { result ≡ left.now }
    {
        Cursor { left }
    }

    /// Whether this byte comes next.
    pub(crate) fn begins(&self, byte: u8) -> bool
        ensures { result ≡ begins_with byte self.now }
    {
        match self.left {
            [first, ..] => *first == byte,
            [] => false,
        }
    }

    /// Passes over so many bytes, or all that are left.
    pub(crate) fn skip(&mut self, count: usize)
        ensures { self.new ≡ drop count self.old }
    {
        let count = count.min(self.left.len());
        self.left = &self.left[count..];
    }

    /// Passes over the word that comes next.
    pub(crate) fn word(&mut self) -> &'a [u8]
        ensures word { result.now ≡ word_at self.old }
        ensures behind { self.new ≡ behind_word self.old }
    {
        let length = word_length(self.left);
        let word = &self.left[..length];
        self.left = &self.left[length..];
        word
    }
}
