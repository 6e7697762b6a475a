// What is wrong with a piece.
ghost use Rattle.std.specs.Prelude.{◌≡◌, ◌↔◌, ◌∷◌, ◌++◌, ◌⊎◌, ◌≤◌, [], ℕ, None, IfSome, IsTrue, length};
ghost use Rattle.gno_scan.specs.Escapes.{IsEscape, IsOneCharacter};
ghost use Rattle.gno_scan.specs.Longest.{BeginsWithNone};
ghost use Rattle.gno_scan.specs.Pieces.{IsPiece};
ghost use Rattle.gno_scan.specs.Quoted.{IsQuoted, IsRaw};
ghost use Rattle.gno_scan.specs.Tokens.{IsRight, IsWrong};
ghost use Rattle.gno_scan.specs.declared.piece.Piece.TheVariants.{Token};
ghost use Rattle.gno_scan.specs.declared.kind.TokenKind.TheVariants.{Integer, Rune, String};

use crate::TokenKind;
use crate::character::character_at;
use crate::escape::{bad_escape, escape_length};
use crate::number::integer_value;
use crate::piece::Piece;

/// What is wrong with a piece, and where.
#[derive(Clone, Copy, Debug, PartialEq, Eq)]
pub(crate) struct Wrong {
    /// 4, 5 or 6.
    pub code: u8,
    /// How many bytes into the piece.
    pub offset: usize,
}

/// What is wrong with a piece, if anything is: a bad escape or a rune literal of other than one character (4), an integer
/// that is too wide or has digits outside its base (5), a floating-point or an imaginary literal (6).
pub(crate) fn wrong_in(piece: Piece, word: &[u8]) -> Option<Wrong>
    requires { IsPiece piece word.now }
    ensures wrong { IfSome result (λ wrong. IsWrong piece word.now wrong.code wrong.offset) }
    ensures right { result ≡ None → IsRight piece word.now }
{
    match piece {
        Piece::Token(kind) => wrong_in_token(kind, word),
        Piece::OtherNumber => Some(Wrong { code: 6, offset: 0 }),
        _ => None,
    }
}

/// What is wrong with a token of such a kind.
fn wrong_in_token(kind: TokenKind, word: &[u8]) -> Option<Wrong>
    requires { IsPiece (Token kind) word.now }
    ensures wrong { IfSome result (λ wrong. IsWrong (Token kind) word.now wrong.code wrong.offset) }
    ensures right { result ≡ None → IsRight (Token kind) word.now }
{
    match kind {
        TokenKind::Integer => wrong_in_integer(word),
        TokenKind::Rune => wrong_in_rune(word),
        TokenKind::String => wrong_in_string(word),
        _ => None,
    }
}

/// What is wrong with an integer.
fn wrong_in_integer(word: &[u8]) -> Option<Wrong>
    ensures wrong { IfSome result (λ wrong. IsWrong (Token Integer) word.now wrong.code wrong.offset) }
    ensures right { result ≡ None → IsRight (Token Integer) word.now }
{
    match integer_value(word) {
        Some(_) => None,
        None => Some(Wrong { code: 5, offset: 0 }),
    }
}

/// What is wrong with a rune literal: a bad escape, or other than one character.
fn wrong_in_rune(word: &[u8]) -> Option<Wrong>
    requires { IsQuoted 39 word.now }
    ensures wrong { IfSome result (λ wrong. IsWrong (Token Rune) word.now wrong.code wrong.offset) }
    ensures right { result ≡ None → IsRight (Token Rune) word.now }
{
    let inside = inside_of(word);
    match bad_escape(inside, b'\'') {
        Some(at) => Some(Wrong {
            code: 4,
            offset: at + 1,
        }),
        None => if is_one_character(inside) {
            None
        } else {
            Some(Wrong { code: 4, offset: 0 })
        },
    }
}

/// What is wrong with a string: a raw one has no escapes.
fn wrong_in_string(word: &[u8]) -> Option<Wrong>
    requires { IsQuoted 34 word.now ⊎ IsRaw word.now }
    ensures wrong { IfSome result (λ wrong. IsWrong (Token String) word.now wrong.code wrong.offset) }
    ensures right { result ≡ None → IsRight (Token String) word.now }
{
    if word[0] == b'`' {
        None
    } else {
        wrong_between(word)
    }
}

/// What is wrong with an interpreted string.
fn wrong_between(word: &[u8]) -> Option<Wrong>
    requires { IsQuoted 34 word.now }
    ensures wrong { IfSome result (λ wrong. IsWrong (Token String) word.now wrong.code wrong.offset) }
    ensures right { result ≡ None → IsRight (Token String) word.now }
{
    match bad_escape(inside_of(word), b'"') {
        Some(at) => Some(Wrong {
            code: 4,
            offset: at + 1,
        }),
        None => None,
    }
}

/// What stands between the quotes of a literal.
fn inside_of(word: &[u8]) -> &[u8]
    requires { 2 ≤ length word.now }
    ensures { (quote : ℕ) → IsQuoted quote word.now → word.now ≡ quote ∷ (result.now ++ quote ∷ []) }
{
    &word[1..word.len() - 1]
}

/// Whether a rune literal has one character, or one escape, or one byte of no character.
fn is_one_character(inside: &[u8]) -> bool
    ensures { IsTrue result ↔ IsOneCharacter 39 inside.now }
{
    match escape_length(inside, b'\'') {
        Some(size) => size == inside.len(),
        None => is_one_plain(inside),
    }
}

/// The same, where no escape begins.
fn is_one_plain(inside: &[u8]) -> bool
    requires { BeginsWithNone (IsEscape 39) inside.now }
    ensures { IsTrue result ↔ IsOneCharacter 39 inside.now }
{
    match character_at(inside) {
        Some(c) => c != '\\' && c.len_utf8() == inside.len(),
        None => inside.len() == 1 && inside[0] >= 0x80,
    }
}

#[cfg(test)]
mod tests;
