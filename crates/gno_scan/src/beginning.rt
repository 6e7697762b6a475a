// The piece that a text begins with.
ghost use Rattle.std.specs.Prelude.{◌≡◌, ◌<◌, ◌≤◌, ◌↔◌, ℕ, List, IsTrue, length, take};
ghost use Rattle.gno_scan.specs.Classes.{class_at};
ghost use Rattle.gno_scan.specs.Fixed.{IsOperator};
ghost use Rattle.gno_scan.specs.Longest.{Begins};
ghost use Rattle.gno_scan.specs.Names.{IsIdentifier};
ghost use Rattle.gno_scan.specs.Numbers.{IsInteger, IsNumber};
ghost use Rattle.gno_scan.specs.Pieces.{BeginsOpen, IsAnyPiece, IsBeginning, IsPiece, IsSpelled};

use crate::TokenKind;
use crate::class::{Class, class_of};
use crate::closed::{general_comment_length, line_comment_length, raw_length};
use crate::name::{identifier_length, keyword_of};
use crate::number::number_at;
use crate::operator::operator_at;
use crate::piece::{Beginning, Piece};
use crate::quoted::quoted_length;

#[cfg(test)]
mod tests;

/// The piece that a text begins with: the longest one. Or that it begins one that does not end, or none.
pub(crate) fn beginning(text: &[u8]) -> Beginning
    requires { 0 < length text.now }
    ensures { IsBeginning text.now result }
{
    match class_of(text[0]) {
        Class::Space => blank(text),
        Class::LineFeed => line_end(text),
        Class::Quote => rune(text),
        Class::DoubleQuote => string(text),
        Class::BackQuote => raw_string(text),
        Class::Digit => number(text),
        Class::Point => at_point(text),
        Class::Solidus => at_solidus(text),
        Class::Mark => at_mark(text),
        Class::Other => name_or_keyword(text),
    }
}

/// A space, a tab or a carriage return.
fn blank(text: &[u8]) -> Beginning
    requires { class_at text.now ≡ Class.Space }
    ensures { IsBeginning text.now result }
{
    Beginning::Begun(Piece::Blank, 1)
}

/// A line feed.
fn line_end(text: &[u8]) -> Beginning
    requires { class_at text.now ≡ Class.LineFeed }
    ensures { IsBeginning text.now result }
{
    Beginning::Begun(Piece::LineEnd, 1)
}

/// A rune literal, unless it does not end on its line.
fn rune(text: &[u8]) -> Beginning
    requires { class_at text.now ≡ Class.Quote }
    ensures { IsBeginning text.now result }
{
    match quoted_length(text, b'\'') {
        Some(length) => Beginning::Begun(Piece::Token(TokenKind::Rune), length),
        None => Beginning::Open,
    }
}

/// An interpreted string, unless it does not end on its line.
fn string(text: &[u8]) -> Beginning
    requires { class_at text.now ≡ Class.DoubleQuote }
    ensures { IsBeginning text.now result }
{
    match quoted_length(text, b'"') {
        Some(length) => Beginning::Begun(Piece::Token(TokenKind::String), length),
        None => Beginning::Open,
    }
}

/// A raw string, unless it does not end.
fn raw_string(text: &[u8]) -> Beginning
    requires { class_at text.now ≡ Class.BackQuote }
    ensures { IsBeginning text.now result }
{
    match raw_length(text) {
        Some(length) => Beginning::Begun(Piece::Token(TokenKind::String), length),
        None => Beginning::Open,
    }
}

/// A number.
fn number(text: &[u8]) -> Beginning
    requires { class_at text.now ≡ Class.Digit }
    ensures { IsBeginning text.now result }
{
    match number_at(text) {
        Some(number) => Beginning::Begun(number_piece(number.is_integer), number.length),
        None => Beginning::Stray,
    }
}

/// What a number is: Gno has integers alone.
fn number_piece(is_integer: bool) -> Piece
    ensures { (word : List ℕ) → IsNumber word → (IsTrue is_integer ↔ IsInteger word) → IsPiece result word }
{
    if is_integer {
        Piece::Token(TokenKind::Integer)
    } else {
        Piece::OtherNumber
    }
}

/// A number, if a digit stands behind the point, and else an operator.
fn at_point(text: &[u8]) -> Beginning
    requires { class_at text.now ≡ Class.Point }
    ensures { IsBeginning text.now result }
{
    match number_at(text) {
        Some(number) => Beginning::Begun(number_piece(number.is_integer), number.length),
        None => operator(text),
    }
}

/// A comment, which may stay open, or an operator.
fn at_solidus(text: &[u8]) -> Beginning
    requires { class_at text.now ≡ Class.Solidus }
    ensures { IsBeginning text.now result }
{
    if let Some(length) = line_comment_length(text) {
        Beginning::Begun(Piece::LineComment, length)
    } else if let Some(length) = general_comment_length(text) {
        Beginning::Begun(Piece::GeneralComment, length)
    } else if text.len() >= 2 && text[1] == b'*' {
        Beginning::Open
    } else {
        operator(text)
    }
}

/// An operator or a mark.
fn at_mark(text: &[u8]) -> Beginning
    requires { class_at text.now ≡ Class.Mark }
    ensures { IsBeginning text.now result }
{
    operator(text)
}

/// An operator or a mark, where no other piece begins.
fn operator(text: &[u8]) -> Beginning
    requires closed { BeginsOpen text.now → ⊥ }
    requires only { (word : List ℕ) → IsAnyPiece word → Begins word text.now → IsOperator word }
    ensures { IsBeginning text.now result }
{
    match operator_at(text) {
        Some(operator) => Beginning::Begun(Piece::Token(operator.kind), operator.length),
        None => Beginning::Stray,
    }
}

/// A name or a keyword, if a letter stands at the front.
fn name_or_keyword(text: &[u8]) -> Beginning
    requires { class_at text.now ≡ Class.Other }
    ensures { IsBeginning text.now result }
{
    let length = identifier_length(text);
    if length == 0 {
        return Beginning::Stray;
    }
    Beginning::Begun(Piece::Token(kind_of(&text[..length])), length)
}

/// What an identifier is: a keyword or a name.
fn kind_of(word: &[u8]) -> TokenKind
    requires { IsIdentifier word.now }
    ensures { IsSpelled result word.now }
{
    match keyword_of(word) {
        Some(kind) => kind,
        None => TokenKind::Name,
    }
}
