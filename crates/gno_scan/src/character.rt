// Characters at the front of bytes.
ghost use Rattle.std.specs.Prelude.{◌≡◌, None, IfSome, length};
ghost use Rattle.std.specs.Char.{encode_utf8, IsScalar};
ghost use Rattle.std.specs.Str.{continuation_len, IsUtf8, StartsWithNoChar};
ghost use Rattle.gno_scan.specs.Longest.{Begins};

use std::str::from_utf8;

/// The character whose encoding the text begins with, if it begins with one. Reads no byte behind it.
pub(crate) fn character_at(text: &[u8]) -> Option<char>
    ensures scalar { IfSome result (λ c. IsScalar c) }
    ensures found { IfSome result (λ c. Begins (encode_utf8 c) text.now) }
    ensures none { result ≡ None → StartsWithNoChar text.now }
{
    if text.is_empty() {
        None
    } else if text[0] < 0x80 {
        Some(text[0] as char)
    } else {
        let announced = 1 + continuation_len(text[0]);
        first_of(&text[..announced.min(text.len())])
    }
}

// What ends within a character is no UTF-8.
fn first_of(front: &[u8]) -> Option<char>
    ensures scalar { IfSome result (λ c. IsScalar c) }
    ensures found { IfSome result (λ c. Begins (encode_utf8 c) front.now) }
    ensures none { result ≡ None → IsUtf8 front.now → length front.now ≡ 0 }
{
    match from_utf8(front) {
        Ok(text) => text.chars().next(),
        Err(_) => None,
    }
}

// How many bytes stand behind the first one of a character.
fn continuation_len(first: u8) -> usize
    ensures { result ≡ continuation_len first }
{
    match first {
        0..0x80 => 0,
        0x80..0xE0 => 1,
        0xE0..0xF0 => 2,
        _ => 3,
    }
}
