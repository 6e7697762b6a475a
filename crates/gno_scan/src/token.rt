// Tokens, and where they stand.
ghost use Rattle.std.specs.Prelude.{◌≡◌, ◌<◌, ◌+◌, ◌^◌, length};
ghost use Rattle.gno_scan.specs.Places.{behind, behind_byte, first_of};

use crate::TokenKind;

/// A place in a source file.
#[derive(Clone, Copy, Debug, PartialEq, Eq)]
pub struct Pos {
    /// The file's number.
    pub file: u64,
    /// From 1.
    pub line: u32,
    /// In bytes, from 1.
    pub column: u32,
}

impl Pos {
    /// The place of the first byte of a file.
    pub fn first_of(file: u64) -> Pos
        ensures { result ≡ first_of file }
    {
        Pos {
            file,
            line: 1,
            column: 1,
        }
    }

    /// The place behind some bytes that begin here.
    pub fn behind(self, bytes: &[u8]) -> Pos
        requires line { self.line + length bytes.now < 2 ^ 32 }
        requires column { self.column + length bytes.now < 2 ^ 32 }
        ensures { result ≡ behind self bytes.now }
    {
        let mut pos = self;
        for byte in bytes {
            pos = pos.behind_byte(*byte);
        }
        pos
    }

    fn behind_byte(self, byte: u8) -> Pos
        requires line { self.line + 1 < 2 ^ 32 }
        requires column { self.column + 1 < 2 ^ 32 }
        ensures { result ≡ behind_byte self byte }
    {
        let Pos { file, line, column } = self;
        if byte == b'\n' {
            Pos {
                file,
                line: line + 1,
                column: 1,
            }
        } else {
            Pos {
                file,
                line,
                column: column + 1,
            }
        }
    }
}

/// A token: the bytes of its text from `start` up to `end`, and the place of the first. An inserted semicolon has none.
#[derive(Clone, Copy, Debug, PartialEq, Eq)]
pub struct Token {
    pub kind: TokenKind,
    pub start: usize,
    pub end: usize,
    pub pos: Pos,
}

/// Why a text has no tokens.
#[derive(Clone, Copy, Debug, PartialEq, Eq)]
pub enum ScanFault {
    /// The first fault of the text, with its refusal code:
    /// 1 a byte that is no UTF-8, 2 a stray character, 3 an open literal or comment, 4 a bad escape, 5 a number too wide,
    /// 6 a floating-point or imaginary literal, 7 a text of more than 1,048,576 bytes.
    At { code: u8, pos: Pos },
    NoMemory,
}
