// Words, and what they are made of.
ghost use Rattle.std.specs.Prelude.{◌≡◌, ◌+◌, ◌-◌, ◌*◌, ◌≤◌, Some, None, drop, take, length, ◌<◌, IfOk, IfSome, if◌then◌else◌};
ghost use Rattle.std.specs.List.{list_all, prefix_len};
ghost use Rattle.std.specs.Option.{option_map};
ghost use Rattle.gno_type_reading.specs.Turns as turns;

use crate::frame::Member;
use gno_base::{Bytes, is_digit};
use std::alloc::{AllocError, Global};

pub(crate) fn in_name(b: u8) -> bool
    ensures { result ≡ turns.in_name b }
{
    b >= 128 || (b.is_ascii_alphabetic() || (b.is_ascii_digit() || b == b'_'))
}

fn in_word(b: u8) -> bool
    ensures { result ≡ turns.in_word b }
{
    in_name(b) || (b == b'.' || b == b'/') || b == b'#'
}

/// How many bytes the word at the front of a text has.
pub(crate) fn word_length(text: &[u8]) -> usize
    ensures length { result ≡ prefix_len turns.in_word text.now }
    ensures within { result ≤ length text.now }
{
    text.iter().take_while(|b| in_word(**b)).count()
}

/// Whether the word may be a name.
pub(crate) fn all_in_name(word: &[u8]) -> bool
    ensures { result ≡ list_all turns.in_name word.now }
{
    word.iter().all(|b| in_name(*b))
}

/// The number that the digits spell.
pub(crate) fn number(digits: &[u8]) -> Option<u64>
    ensures { result ≡ turns.number_after 0 digits.now }
{
    let mut number = 0;
    for digit in digits {
        number = with_digit(number, *digit)?;
    }
    Some(number)
}

fn with_digit(number: u64, digit: u8) -> Option<u64>
    ensures { result ≡ if turns.digit_fits number digit then Some (10 * number + (digit - 48)) else None }
{
    if !is_digit(digit) {
        return None;
    }
    let next = 10 * number as u128 + (digit - b'0') as u128;
    if next < 1 << 64 {
        Some(next as u64)
    } else {
        None
    }
}

/// Where this byte stands last.
pub(crate) fn last_of(byte: u8, text: &[u8]) -> Option<usize>
    ensures cut { turns.cut byte text.now ≡ option_map (λ at. turns.halves_at text.now at) result }
    ensures within { IfSome result (λ at. at < length text.now) }
{
    let mut end = text.len();
    while end > 0 {
        end -= 1;
        if text[end] == byte {
            return Some(end);
        }
    }
    None
}

/// The name of a field or a method, and the path before it.
pub(crate) fn member(alloc: Global, word: &[u8]) -> Result<Member, AllocError>
    ensures { IfOk result (λ member. member ≡ turns.member word.now) }
{
    match last_of(b'.', word) {
        Some(at) => Ok(Member {
            name: Bytes::from_slice(alloc, &word[at + 1..])?,
            package: Bytes::from_slice(alloc, &word[..at])?,
        }),
        None => Ok(Member {
            name: Bytes::from_slice(alloc, word)?,
            package: Bytes::new(alloc),
        }),
    }
}
