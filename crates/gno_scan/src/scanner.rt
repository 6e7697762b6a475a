// The scanner: a place in a text, and the tokens before it.
ghost use Rattle.std.specs.Prelude.{◌≡◌, ◌&&◌, true, ◌<◌, ◌≤◌, ◌+◌, length, take, drop, None, OnOk, IfOk, IfSome};
ghost use Rattle.gno_scan.specs.declared.piece.Piece.TheVariants.{Token as Written};
ghost use Rattle.gno_scan.specs.Pieces.{BeginsWith};
ghost use Rattle.gno_scan.specs.Places.{behind};
ghost use Rattle.gno_scan.specs.Scan.{AreTokensOf, EndsAt, IsFound, IsNear, Stands};
ghost use Rattle.gno_scan.specs.Tokens.{IsBetween, IsRight, closes_line, ends_line, first_place, to_line_feed};

use crate::beginning::beginning;
use crate::judge::{Wrong, wrong_in};
use crate::piece::{Beginning, Piece};
use crate::{Pos, Token, TokenKind};
use gno_base::List;
use std::alloc::{AllocError, Global};

const BYTE_ORDER_MARK: [u8; 3] = [0xef, 0xbb, 0xbf];

/// A fault of a text: its code, the byte at which it stands, and the place of that.
#[derive(Clone, Copy, Debug, PartialEq, Eq)]
pub(crate) struct Fault {
    pub code: u8,
    pub at: usize,
    pub pos: Pos,
}

/// A place in a text, and the tokens before it.
#[derive(Drop)]
pub(crate) struct Scanner<'a> {
    file: u64,
    text: &'a [u8],
    /// How many bytes were read.
    at: usize,
    pos: Pos,
    /// Whether a line's end here inserts a semicolon.
    is_closed: bool,
    tokens: List<Token>,
}

impl<'a> Scanner<'a> {
    /// Begins behind the byte order mark that the text may begin with.
    pub(crate) fn start(alloc: Global, file: u64, text: &'a [u8]) -> Scanner<'a>
        ensures stands { Stands result }
        ensures same { (result.file ≡ file) × (result.text.now ≡ text.entry.now) }
    {
        let at = first_place(text);
        Scanner {
            file,
            text,
            at,
            pos: Pos::first_of(file).behind(&text[..at]),
            is_closed: false,
            tokens: List::new(alloc),
        }
    }

    /// Reads to the end of the text, or to its first fault.
    pub(crate) fn read_all(&mut self) -> Result<Option<Fault>, AllocError>
        requires size { length self.old.text.now ≤ 1048576 }
        requires stands { Stands self.old }
        ensures stands { IfOk result (λ found. found ≡ None → Stands self.new) }
        ensures over { IfOk result (λ found. found ≡ None → length self.old.text.now ≤ self.new.at) }
        ensures found { IfOk result (λ found. IsFound self.old.file self.old.text.now found) }
        ensures same { (self.new.file ≡ self.old.file) × (self.new.text.now ≡ self.old.text.now) }
    {
        while self.at < self.text.len() {
            let found = self.read()?;
            if found.is_some() {
                return Ok(found);
            }
        }
        Ok(None)
    }

    /// The tokens of a text that was read to its end.
    pub(crate) fn end(self) -> Result<List<Token>, AllocError>
        requires stands { Stands self }
        requires over { length self.text.now ≤ self.at }
        ensures { IfOk result (λ tokens. AreTokensOf self.entry.file self.entry.text.now tokens) }
    {
        let Scanner {
            at,
            pos,
            is_closed,
            mut tokens,
            ..
        } = self;
        if !is_closed {
            return Ok(tokens);
        }
        tokens.push(Token {
            kind: TokenKind::Semicolon,
            start: at,
            end: at,
            pos,
        })?;
        Ok(tokens)
    }

    /// Reads what stands at the place. Gives the fault, if one stands there.
    fn read(&mut self) -> Result<Option<Fault>, AllocError>
        requires more { self.old.at < length self.old.text.now }
        requires size { length self.old.text.now ≤ 1048576 }
        requires stands { Stands self.old }
        ensures stands { IfOk result (λ found. found ≡ None → Stands self.new) }
        ensures further { IfOk result (λ found. found ≡ None → self.old.at < self.new.at) }
        ensures fault { IfOk result (λ found. IfSome found (λ fault. EndsAt self.old.file self.old.text.now fault.code fault.at fault.pos)) }
        ensures same { (self.new.file ≡ self.old.file) × (self.new.text.now ≡ self.old.text.now) }
    {
        let text = self.text;
        let rest = &text[self.at..];
        match beginning(rest) {
            Beginning::Begun(piece, length) => self.read_piece(piece, &rest[..length]),
            Beginning::Open => Ok(Some(self.fault(3))),
            Beginning::Stray => Ok(Some(self.fault(2))),
        }
    }

    /// Reads the piece that stands at the place.
    fn read_piece(&mut self, piece: Piece, word: &[u8]) -> Result<Option<Fault>, AllocError>
        requires word { word.now ≡ take (length word.now) (drop self.old.at self.old.text.now) }
        requires begins { BeginsWith (drop self.old.at self.old.text.now) piece word.now }
        requires some { 0 < length word.now }
        requires size { length self.old.text.now ≤ 1048576 }
        requires near { IsNear self.old.pos self.old.at }
        requires stands { Stands self.old }
        ensures stands { IfOk result (λ found. found ≡ None → Stands self.new) }
        ensures further { IfOk result (λ found. found ≡ None → self.old.at < self.new.at) }
        ensures fault { IfOk result (λ found. IfSome found (λ fault. EndsAt self.old.file self.old.text.now fault.code fault.at fault.pos)) }
        ensures same { (self.new.file ≡ self.old.file) × (self.new.text.now ≡ self.old.text.now) }
    {
        if let Some(wrong) = wrong_in(piece, word) {
            return Ok(Some(self.fault_in(word, wrong)));
        }
        match piece {
            Piece::Token(kind) => self.read_token(kind, word)?,
            _ => self.pass(piece, word)?,
        }
        Ok(None)
    }

    /// Reads the token that stands at the place.
    fn read_token(&mut self, kind: TokenKind, word: &[u8]) -> Result<(), AllocError>
        requires word { word.now ≡ take (length word.now) (drop self.old.at self.old.text.now) }
        requires begins { BeginsWith (drop self.old.at self.old.text.now) (Written kind) word.now }
        requires right { IsRight (Written kind) word.now }
        requires size { length self.old.text.now ≤ 1048576 }
        requires near { IsNear self.old.pos self.old.at }
        requires stands { Stands self.old }
        ensures stands { OnOk result (Stands self.new) }
        ensures at { OnOk result (self.new.at ≡ self.old.at + length word.now) }
        ensures same { (self.new.file ≡ self.old.file) × (self.new.text.now ≡ self.old.text.now) }
    {
        self.tokens.push(Token {
            kind,
            start: self.at,
            end: self.at + word.len(),
            pos: self.pos,
        })?;
        self.is_closed = closes_line(kind);
        self.move_behind(word);
        Ok(())
    }

    /// Passes the piece that stands at the place, and inserts a semicolon where a line ends in it.
    fn pass(&mut self, piece: Piece, word: &[u8]) -> Result<(), AllocError>
        requires word { word.now ≡ take (length word.now) (drop self.old.at self.old.text.now) }
        requires begins { BeginsWith (drop self.old.at self.old.text.now) piece word.now }
        requires between { IsBetween piece }
        requires size { length self.old.text.now ≤ 1048576 }
        requires near { IsNear self.old.pos self.old.at }
        requires stands { Stands self.old }
        ensures stands { OnOk result (Stands self.new) }
        ensures at { OnOk result (self.new.at ≡ self.old.at + length word.now) }
        ensures same { (self.new.file ≡ self.old.file) × (self.new.text.now ≡ self.old.text.now) }
    {
        if is_line_over(self.is_closed, piece, word) {
            return self.end_line(piece, word);
        }
        self.move_behind(word);
        Ok(())
    }

    /// Passes a piece in which a line ends, and inserts a semicolon.
    fn end_line(&mut self, piece: Piece, word: &[u8]) -> Result<(), AllocError>
        requires word { word.now ≡ take (length word.now) (drop self.old.at self.old.text.now) }
        requires begins { BeginsWith (drop self.old.at self.old.text.now) piece word.now }
        requires between { IsBetween piece }
        requires closed { self.old.is_closed ≡ true }
        requires ends { ends_line piece word.now ≡ true }
        requires size { length self.old.text.now ≤ 1048576 }
        requires near { IsNear self.old.pos self.old.at }
        requires stands { Stands self.old }
        ensures stands { OnOk result (Stands self.new) }
        ensures at { OnOk result (self.new.at ≡ self.old.at + length word.now) }
        ensures same { (self.new.file ≡ self.old.file) × (self.new.text.now ≡ self.old.text.now) }
    {
        let feed = to_line_feed(word);
        self.tokens.push(Token {
            kind: TokenKind::Semicolon,
            start: self.at + feed,
            end: self.at + feed,
            pos: self.pos.behind(&word[..feed]),
        })?;
        self.is_closed = false;
        self.move_behind(word);
        Ok(())
    }

    fn move_behind(&mut self, word: &[u8])
        requires word { self.old.at + length word.now ≤ length self.old.text.now }
        requires size { length self.old.text.now ≤ 1048576 }
        requires near { IsNear self.old.pos self.old.at }
        ensures at { self.new.at ≡ self.old.at + length word.now }
        ensures pos { self.new.pos ≡ behind self.old.pos word.now }
        ensures tokens { (self.new.tokens ≡ self.old.tokens) × (self.new.is_closed ≡ self.old.is_closed) }
        ensures same { (self.new.file ≡ self.old.file) × (self.new.text.now ≡ self.old.text.now) }
    {
        self.pos = self.pos.behind(word);
        self.at += word.len();
    }

    fn fault(&self, code: u8) -> Fault
        ensures { result ≡ record { code = code; at = self.now.at; pos = self.now.pos } }
    {
        Fault {
            code,
            at: self.at,
            pos: self.pos,
        }
    }

    fn fault_in(&self, word: &[u8], wrong: Wrong) -> Fault
        requires within { wrong.offset ≤ length word.now }
        requires word { self.now.at + length word.now ≤ length self.now.text.now }
        requires size { length self.now.text.now ≤ 1048576 }
        requires near { IsNear self.now.pos self.now.at }
        ensures { result ≡ record { code = wrong.code; at = self.now.at + wrong.offset; pos = behind self.now.pos (take wrong.offset word.now) } }
    {
        Fault {
            code: wrong.code,
            at: self.at + wrong.offset,
            pos: self.pos.behind(&word[..wrong.offset]),
        }
    }
}

// The place behind the byte order mark that a text may begin with.
fn first_place(text: &[u8]) -> usize
    ensures place { result ≡ first_place text.now }
    ensures within { result ≤ length text.now }
{
    if text.starts_with(BYTE_ORDER_MARK.as_slice()) {
        BYTE_ORDER_MARK.len()
    } else {
        0
    }
}

// Behind such a token a line's end inserts a semicolon.
fn closes_line(kind: TokenKind) -> bool
    ensures { result ≡ closes_line kind }
{
    matches!(
        kind,
        TokenKind::Name
            | TokenKind::Integer
            | TokenKind::Rune
            | TokenKind::String
            | TokenKind::Break
            | TokenKind::Continue
            | TokenKind::Fallthrough
            | TokenKind::Return
            | TokenKind::Increment
            | TokenKind::Decrement
            | TokenKind::RightParen
            | TokenKind::RightBracket
            | TokenKind::RightBrace
    )
}

fn is_line_over(is_closed: bool, piece: Piece, word: &[u8]) -> bool
    ensures { result ≡ is_closed && ends_line piece word.now }
{
    is_closed && ends_line(piece, word)
}

fn ends_line(piece: Piece, word: &[u8]) -> bool
    ensures { result ≡ ends_line piece word.now }
{
    match piece {
        Piece::LineEnd => true,
        Piece::GeneralComment => word.contains(&b'\n'),
        _ => false,
    }
}

// How many bytes stand before the first line feed.
fn to_line_feed(word: &[u8]) -> usize
    ensures count { result ≡ to_line_feed word.now }
    ensures within { result ≤ length word.now }
{
    for (at, byte) in word.iter().enumerate() {
        if *byte == b'\n' {
            return at;
        }
    }
    word.len()
}
