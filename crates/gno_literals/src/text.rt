// The bytes of a string literal.
ghost use Rattle.std.specs.Prelude.{ℕ, List as list, ◌≡◌, ◌≢◌, ◌<◌, ◌≤◌, ◌==◌, ◌||◌, All, None, IfOk, IfSome, length, take};
ghost use Rattle.gno_scan.specs.Quoted.{IsInside};
ghost use Rattle.gno_literals.specs.Literals.{TextValue, without_returns};
ghost use Rattle.gno_literals.specs.Parts.{IsPart, PartsValue};

use crate::escape::{Escaped, Part, escape_at};
use crate::quotes::between;
use gno_base::Bytes;
use std::alloc::{AllocError, Global};

/// The bytes of a string literal, if the word is one.
pub(crate) fn text_value(alloc: Global, word: &[u8]) -> Result<Option<Bytes>, AllocError>
    ensures value { IfOk result (λ it. IfSome it (λ bytes. TextValue word.now bytes)) }
    ensures none { IfOk result (λ it. it ≡ None → (bytes : list ℕ) → TextValue word.now bytes → ⊥) }
{
    match between(word, b'"') {
        Some(inside) => interpreted_value(alloc, inside),
        None => match between(word, b'`') {
            Some(inside) => raw_value(alloc, inside),
            None => Ok(None),
        },
    }
}

/// The bytes of a raw string that has such bytes between its quotes: all but the carriage returns.
fn raw_value(alloc: Global, inside: &[u8]) -> Result<Option<Bytes>, AllocError>
    ensures no_quote { IfOk result (λ it. IfSome it (λ bytes. All (λ b. b ≢ 96) inside.now)) }
    ensures value { IfOk result (λ it. IfSome it (λ bytes. bytes ≡ without_returns inside.now)) }
    ensures none { IfOk result (λ it. it ≡ None → All (λ b. b ≢ 96) inside.now → ⊥) }
{
    if inside.contains(&b'`') {
        return Ok(None);
    }
    let bytes = inside
        .iter()
        .copied()
        .filter(|b| *b != b'\r')
        .collect(alloc)?;
    Ok(Some(Bytes::from_vec(bytes)))
}

/// The bytes of the parts that stand between the quotes of an interpreted string.
fn interpreted_value(alloc: Global, inside: &[u8]) -> Result<Option<Bytes>, AllocError>
    ensures line { IfOk result (λ it. IfSome it (λ bytes. IsInside 34 inside.now)) }
    ensures value { IfOk result (λ it. IfSome it (λ bytes. PartsValue 34 inside.now bytes)) }
    ensures none { IfOk result (λ it. it ≡ None → IsInside 34 inside.now → (bytes : list ℕ) → PartsValue 34 inside.now bytes → ⊥) }
{
    let mut bytes = Bytes::new(alloc);
    let mut at = 0;
    while at < inside.len() {
        let Some(part) = part_at(&inside[at..]) else {
            return Ok(None);
        };
        part.value.push_to(&mut bytes)?;
        at += part.length;
    }
    Ok(Some(bytes))
}

/// The part of an interpreted string that a text begins with.
fn part_at(text: &[u8]) -> Option<Part>
    requires { 0 < length text.now }
    ensures found { IfSome result (λ part. IsPart 34 (take part.length text.now) part.value) }
    ensures within { IfSome result (λ part. (0 < part.length) × (part.length ≤ length text.now)) }
    ensures none { result ≡ None → IsInside 34 text.now → (bytes : list ℕ) → PartsValue 34 text.now bytes → ⊥ }
{
    let first = text[0];
    if first == b'\\' {
        escape_at(text, b'"')
    } else if is_end(first) {
        None
    } else {
        Some(Part {
            length: 1,
            value: Escaped::Byte(first),
        })
    }
}

/// Whether a byte ends an interpreted string or its line, where no backslash stands before it.
fn is_end(byte: u8) -> bool
    ensures { result ≡ (byte == 34 || byte == 10) }
{
    byte == b'"' || byte == b'\n'
}
