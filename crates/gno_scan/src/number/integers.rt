// Integers: decimal digits, or digits behind `0x`, `0b` or `0o`.
ghost use Rattle.std.specs.Prelude.{◌≡◌, ◌≤◌, ◌<◌, ◌+◌, ◌^◌, length};
ghost use Rattle.gno_scan.specs.Longest.{Measures};
ghost use Rattle.gno_scan.specs.Numbers.{IsInteger, is_hex_letter, is_other_base_letter};
ghost use Rattle.gno_scan.specs.NumberLengths.{has_prefix, hex_length, integer_length, other_base_length};

use crate::number::digits::{Radix, behind, behind_prefix_length, digits_length};

/// How long the integer is that the text begins with.
#[tactic(auto, unfolding(crate::specs::NumberLengths::integer_length))]
pub(crate) fn integer_length(text: &[u8]) -> usize
    ensures count { result ≡ integer_length text.now }
    ensures longest { Measures IsInteger text.now result }
{
    digits_length(Radix::Decimal, text).max(hex_length(text).max(other_base_length(text)))
}

#[tactic(auto, unfolding(crate::specs::NumberLengths::hex_length))]
fn hex_length(text: &[u8]) -> usize
    ensures { result ≡ hex_length text.now }
{
    if has_hex_prefix(text) {
        behind(2, behind_prefix_length(Radix::Hex, &text[2..]))
    } else {
        0
    }
}

#[tactic(auto, unfolding(crate::specs::NumberLengths::other_base_length))]
fn other_base_length(text: &[u8]) -> usize
    ensures { result ≡ other_base_length text.now }
{
    if has_other_prefix(text) {
        behind(2, behind_prefix_length(Radix::Decimal, &text[2..]))
    } else {
        0
    }
}

pub(crate) fn has_hex_prefix(text: &[u8]) -> bool
    ensures { result ≡ has_prefix is_hex_letter text.now }
{
    match text {
        [first, letter, ..] => *first == b'0' && is_hex_letter(*letter),
        _ => false,
    }
}

fn has_other_prefix(text: &[u8]) -> bool
    ensures { result ≡ has_prefix is_other_base_letter text.now }
{
    match text {
        [first, letter, ..] => *first == b'0' && is_other_base_letter(*letter),
        _ => false,
    }
}

pub(crate) fn is_hex_letter(b: u8) -> bool
    ensures { result ≡ is_hex_letter b }
{
    b == b'x' || b == b'X'
}

pub(crate) fn is_other_base_letter(b: u8) -> bool
    ensures { result ≡ is_other_base_letter b }
{
    (b == b'b' || b == b'B') || (b == b'o' || b == b'O')
}
