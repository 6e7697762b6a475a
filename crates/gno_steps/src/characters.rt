// The strings of characters. Go specification, "Conversions to and from a string type".
ghost use Rattle.std.specs.Prelude.{◌≡◌, IfOk, encode_utf8};
ghost use Rattle.gno_typing.specs.Conversions.{character_of};

use gno_base::{Bytes, List};
use std::alloc::{AllocError, Global};

// The character of a number; U+FFFD where it has none.
fn character_of(n: i128) -> char
    ensures { result ≡ character_of n }
{
    match u32::try_from(n) {
        Ok(code) => match char::from_u32(code) {
            Some(character) => character,
            None => char::REPLACEMENT_CHARACTER,
        },
        Err(_) => char::REPLACEMENT_CHARACTER,
    }
}

/// The string of a character, by its number.
pub(crate) fn text_of(alloc: Global, n: i128) -> Result<Bytes, AllocError>
    ensures { IfOk result (λ text. text ≡ encode_utf8 (character_of n)) }
{
    let character = character_of(n);
    let mut room = [0; 4];
    List::from_slice(alloc, character.encode_utf8(&mut room).as_bytes())
}
