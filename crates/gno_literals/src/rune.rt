// The number of a rune literal.
ghost use Rattle.std.specs.Prelude.{ℕ, ◌≡◌, ◌≢◌, ◌<◌, ◌^◌, None, IfSome};
ghost use Rattle.std.specs.Char.{encode_utf8, IsScalar};
ghost use Rattle.gno_scan.specs.Escapes.{IsEscape};
ghost use Rattle.gno_scan.specs.Longest.{BeginsWithNone};
ghost use Rattle.gno_scan.specs.Quoted.{IsInside};
ghost use Rattle.gno_literals.specs.Literals.{RuneValue};
ghost use Rattle.gno_literals.specs.Parts.{CharacterValue};

use crate::escape::escape_at;
use crate::quotes::between;
use std::str::from_utf8;

/// The number of a rune literal: of the one character between its quotes, or of the one escape.
pub(crate) fn rune_value(word: &[u8]) -> Option<u32>
    ensures value { IfSome result (λ value. RuneValue word.now value) }
    ensures none { result ≡ None → (value : ℕ) → RuneValue word.now value → ⊥ }
{
    match between(word, b'\'') {
        Some(inside) => character_value(inside),
        None => None,
    }
}

/// The number of the one character or escape that stands between two quotes.
fn character_value(inside: &[u8]) -> Option<u32>
    ensures line { IfSome result (λ value. IsInside 39 inside.now) }
    ensures value { IfSome result (λ value. CharacterValue 39 inside.now value) }
    ensures none { result ≡ None → IsInside 39 inside.now → (value : ℕ) → CharacterValue 39 inside.now value → ⊥ }
{
    match escape_at(inside, b'\'') {
        Some(part) => if part.length == inside.len() {
            Some(part.value.number())
        } else {
            None
        },
        None => plain_value(inside),
    }
}

/// The same, where no escape begins.
fn plain_value(inside: &[u8]) -> Option<u32>
    requires { BeginsWithNone (IsEscape 39) inside.now }
    ensures line { IfSome result (λ value. IsInside 39 inside.now) }
    ensures value { IfSome result (λ value. CharacterValue 39 inside.now value) }
    ensures none { result ≡ None → IsInside 39 inside.now → (value : ℕ) → CharacterValue 39 inside.now value → ⊥ }
{
    match only_character(inside) {
        Some('\'' | '\\' | '\n') => None,
        Some(c) => Some(u32::from(c)),
        None => None,
    }
}

/// The character whose encoding the bytes are.
fn only_character(bytes: &[u8]) -> Option<char>
    ensures scalar { IfSome result (λ c. IsScalar c) }
    ensures all { IfSome result (λ c. bytes.now ≡ encode_utf8 c) }
    ensures none { result ≡ None → (c : ℕ) → IsScalar c → bytes.now ≢ encode_utf8 c }
{
    let Ok(text) = from_utf8(bytes) else {
        return None;
    };
    let first = text.chars().next()?;
    if first.len_utf8() == bytes.len() {
        Some(first)
    } else {
        None
    }
}
