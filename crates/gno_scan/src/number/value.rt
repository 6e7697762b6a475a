// What an integer's spelling stands for.
ghost use Rattle.std.specs.Prelude.{◌≡◌, ◌≤◌, ◌<◌, ◌^◌, ◌||◌, if◌then◌else◌, ℕ, length, IfSome, None};
ghost use Rattle.std.specs.List.{list_any};
ghost use Rattle.gno_scan.specs.Numbers.{IsValue, base_behind_zero, is_hex_letter, is_other_base_letter};
ghost use Rattle.gno_scan.specs.NumberValues.{base_of, is_no_bar, prefix_length, value_from, with_byte, with_digit};

use crate::number::integers::{is_hex_letter, is_other_base_letter};

/// Below which number each integer is: 2^127.
const LIMIT: u128 = 170_141_183_460_469_231_731_687_303_715_884_105_728;

/// The number that an integer's spelling stands for, if its digits are digits of its base and it is at most 2^127 - 1.
pub(crate) fn integer_value(word: &[u8]) -> Option<u128>
    ensures value { IfSome result (λ value. IsValue word.now value) }
    ensures none { result ≡ None → (value : ℕ) → IsValue word.now value → ⊥ }
{
    let digits = &word[prefix_length(word)..];
    if !has_digit(digits) {
        return None;
    }
    digits_value(base_of(word), digits)
}

fn base_of(word: &[u8]) -> u32
    ensures base { result ≡ base_of word.now }
    ensures least { 2 ≤ result }
    ensures most { result ≤ 16 }
{
    match word {
        [first, letter, ..] => if *first == b'0' {
            base_behind_zero(*letter)
        } else {
            10
        },
        _ => 10,
    }
}

fn base_behind_zero(letter: u8) -> u32
    ensures base { result ≡ base_behind_zero letter }
    ensures least { 2 ≤ result }
    ensures most { result ≤ 16 }
{
    if is_hex_letter(letter) {
        16
    } else if letter == b'b' || letter == b'B' {
        2
    } else {
        8
    }
}

/// How many bytes stand before the digits.
fn prefix_length(word: &[u8]) -> usize
    ensures count { result ≡ prefix_length word.now }
    ensures within { result ≤ length word.now }
{
    match word {
        [first, letter, ..] => if *first == b'0' {
            length_behind_zero(*letter)
        } else {
            0
        },
        _ => 0,
    }
}

fn length_behind_zero(letter: u8) -> usize
    ensures { result ≡ (if is_hex_letter letter || is_other_base_letter letter then 2 else 1) }
{
    if is_hex_letter(letter) || is_other_base_letter(letter) {
        2
    } else {
        1
    }
}

fn has_digit(digits: &[u8]) -> bool
    ensures { result ≡ list_any is_no_bar digits.now }
{
    digits.iter().any(|b| *b != b'_')
}

fn digits_value(base: u32, digits: &[u8]) -> Option<u128>
    requires least { 2 ≤ base }
    requires most { base ≤ 16 }
    ensures { result ≡ value_from base 0 digits.now }
{
    let mut value = 0;
    for b in digits {
        value = with_byte(base, value, *b)?;
    }
    Some(value)
}

/// The number with one more byte of its spelling, which may be a `_`.
#[tactic(auto, unfolding(crate::specs::NumberValues::with_byte))]
fn with_byte(base: u32, value: u128, b: u8) -> Option<u128>
    requires least { 2 ≤ base }
    requires most { base ≤ 16 }
    ensures { result ≡ with_byte base value b }
{
    if b != b'_' {
        with_digit(base, value, b)
    } else {
        Some(value)
    }
}

/// The number with one more digit.
#[tactic(auto, unfolding(crate::specs::NumberValues::with_digit))]
fn with_digit(base: u32, value: u128, b: u8) -> Option<u128>
    requires least { 2 ≤ base }
    requires most { base ≤ 16 }
    ensures { result ≡ with_digit base value b }
{
    let digit = char::from(b).to_digit(base)?;
    let next = value
        .checked_mul(u128::from(base))?
        .checked_add(u128::from(digit))?;
    if next < LIMIT { Some(next) } else { None }
}
