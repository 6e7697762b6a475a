// Floats: a mantissa, with a point or an exponent or both.
ghost use Rattle.std.specs.Prelude.{◌≡◌, ◌≤◌, ◌<◌, ◌+◌, ◌^◌, length};
ghost use Rattle.gno_scan.specs.Longest.{Measures};
ghost use Rattle.gno_scan.specs.Numbers.{IsExponent, IsFloat, is_hex_letter, is_sign};
ghost use Rattle.gno_scan.specs.NumberLengths.{decimal_float_length, digits_length, exponent_length, float_length, has_prefix, hex_float_length, is_digit_of, is_mark_of, is_point, led_length, mantissa_length, part_length, pointed_length, scaled_length, signed_length, whole_length_of};

use crate::number::digits::{Radix, behind, behind_prefix_length, digits_length, joined};
use crate::number::integers::has_hex_prefix;

fn is_mark_of(radix: Radix, b: u8) -> bool
    ensures { result ≡ is_mark_of radix b }
{
    match radix {
        Radix::Decimal => b == b'e' || b == b'E',
        Radix::Hex => b == b'p' || b == b'P',
    }
}

/// How long the exponent is that the text begins with.
#[tactic(auto, unfolding(crate::specs::NumberLengths::exponent_length))]
fn exponent_length(radix: Radix, text: &[u8]) -> usize
    ensures count { result ≡ exponent_length (is_mark_of radix) text.now }
    ensures longest { Measures (IsExponent (is_mark_of radix)) text.now result }
{
    match text {
        [] => 0,
        [first, rest @ ..] => {
            if is_mark_of(radix, *first) {
                behind(1, signed_length(rest))
            } else {
                0
            }
        }
    }
}

/// Decimal digits, with maybe a sign before them.
#[tactic(auto, unfolding(crate::specs::NumberLengths::signed_length))]
fn signed_length(text: &[u8]) -> usize
    ensures count { result ≡ signed_length text.now }
    ensures within { result ≤ length text.now }
{
    digits_length(Radix::Decimal, text).max(behind_sign_length(text))
}

fn behind_sign_length(text: &[u8]) -> usize
    ensures count { result ≡ led_length is_sign (digits_length (is_digit_of Radix.Decimal)) text.now }
    ensures within { result ≤ length text.now }
{
    match text {
        [] => 0,
        [first, rest @ ..] => {
            if *first == b'+' || *first == b'-' {
                behind(1, digits_length(Radix::Decimal, rest))
            } else {
                0
            }
        }
    }
}

/// A point, and maybe digits behind it.
#[tactic(auto, unfolding(crate::specs::NumberLengths::part_length))]
fn part_length(radix: Radix, text: &[u8]) -> usize
    ensures count { result ≡ part_length (is_digit_of radix) text.now }
    ensures within { result ≤ length text.now }
{
    match text {
        [] => 0,
        [first, rest @ ..] => {
            if *first == b'.' {
                1 + digits_length(radix, rest)
            } else {
                0
            }
        }
    }
}

/// A point and digits behind it.
fn only_part_length(radix: Radix, text: &[u8]) -> usize
    ensures count { result ≡ led_length is_point (digits_length (is_digit_of radix)) text.now }
    ensures within { result ≤ length text.now }
{
    match text {
        [] => 0,
        [first, rest @ ..] => {
            if *first == b'.' {
                behind(1, digits_length(radix, rest))
            } else {
                0
            }
        }
    }
}

/// What stands before the point: digits, behind a hexadecimal float's prefix also with a `_` before them.
fn whole_length(radix: Radix, text: &[u8]) -> usize
    ensures count { result ≡ whole_length_of radix text.now }
    ensures within { result ≤ length text.now }
{
    match radix {
        Radix::Decimal => digits_length(Radix::Decimal, text),
        Radix::Hex => behind_prefix_length(Radix::Hex, text),
    }
}

/// How long the mantissa with a point is that the text begins with, where `whole` bytes may stand before the point.
#[tactic(auto, unfolding(crate::specs::NumberLengths::pointed_length))]
fn pointed_length(radix: Radix, whole: usize, text: &[u8]) -> usize
    requires whole { whole ≡ whole_length_of radix text.now }
    requires within { whole ≤ length text.now }
    ensures count { result ≡ pointed_length (is_digit_of radix) (whole_length_of radix) text.now }
    ensures within { result ≤ length text.now }
{
    let part = part_length(radix, &text[whole..]);
    joined(whole, part).max(only_part_length(radix, text))
}

/// How long the mantissa with an exponent is, where the mantissa is this long.
#[tactic(auto, unfolding(crate::specs::NumberLengths::scaled_length))]
fn scaled_length(radix: Radix, mantissa: usize, text: &[u8]) -> usize
    requires mantissa { mantissa ≡ mantissa_length (is_digit_of radix) (whole_length_of radix) text.now }
    requires within { mantissa ≤ length text.now }
    ensures count { result ≡ scaled_length (is_digit_of radix) (is_mark_of radix) (whole_length_of radix) text.now }
    ensures within { result ≤ length text.now }
{
    let exponent = exponent_length(radix, &text[mantissa..]);
    joined(mantissa, exponent)
}

#[tactic(auto, unfolding(crate::specs::NumberLengths::decimal_float_length, crate::specs::NumberLengths::mantissa_length))]
fn decimal_float_length(text: &[u8]) -> usize
    ensures count { result ≡ decimal_float_length text.now }
    ensures within { result ≤ length text.now }
{
    let whole = whole_length(Radix::Decimal, text);
    let pointed = pointed_length(Radix::Decimal, whole, text);
    scaled_length(Radix::Decimal, whole.max(pointed), text).max(pointed)
}

#[tactic(auto, unfolding(crate::specs::NumberLengths::hex_float_length))]
fn hex_float_length(text: &[u8]) -> usize
    ensures count { result ≡ hex_float_length text.now }
    ensures within { result ≤ length text.now }
{
    if has_hex_prefix(text) {
        behind(2, behind_hex_prefix(&text[2..]))
    } else {
        0
    }
}

/// A hexadecimal mantissa and its exponent.
#[tactic(auto, unfolding(crate::specs::NumberLengths::mantissa_length))]
fn behind_hex_prefix(text: &[u8]) -> usize
    ensures count { result ≡ scaled_length (is_digit_of Radix.Hex) (is_mark_of Radix.Hex) (whole_length_of Radix.Hex) text.now }
    ensures within { result ≤ length text.now }
{
    let whole = whole_length(Radix::Hex, text);
    let pointed = pointed_length(Radix::Hex, whole, text);
    scaled_length(Radix::Hex, whole.max(pointed), text)
}

/// How long the float is that the text begins with.
#[tactic(auto, unfolding(crate::specs::NumberLengths::float_length))]
pub(crate) fn float_length(text: &[u8]) -> usize
    ensures count { result ≡ float_length text.now }
    ensures longest { Measures IsFloat text.now result }
{
    decimal_float_length(text).max(hex_float_length(text))
}
