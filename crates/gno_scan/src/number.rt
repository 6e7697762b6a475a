// Numbers: how far the one at a text's front goes.
ghost use Rattle.std.specs.Prelude.{◌≡◌, ◌≤◌, ◌<◌, ◌+◌, ◌^◌, ◌↔◌, length, take, IfSome, IsTrue, None};
ghost use Rattle.gno_scan.specs.Longest.{BeginsWithNone, IsLongest, Measures};
ghost use Rattle.gno_scan.specs.Numbers.{IsInteger, IsNumber};
ghost use Rattle.gno_scan.specs.NumberLengths.{last_letter_length, number_length, real_length};

mod digits;
mod floats;
mod integers;
#[cfg(test)]
mod tests;
mod value;

use digits::joined;
use floats::float_length;
use integers::integer_length;
pub(crate) use value::integer_value;

/// A number at the front of a text.
#[derive(Clone, Copy, Debug, PartialEq, Eq)]
pub(crate) struct Number {
    /// How many bytes it has.
    pub length: usize,
    /// Whether it is an integer, and no float and not imaginary.
    pub is_integer: bool,
}

/// The longest number that the text begins with, if it begins with one.
#[tactic(auto, unfolding(crate::specs::NumberLengths::number_length, crate::specs::NumberLengths::real_length))]
pub(crate) fn number_at(text: &[u8]) -> Option<Number>
    ensures longest { IfSome result (λ number. IsLongest IsNumber text.now (take number.length text.now)) }
    ensures integer { IfSome result (λ number. IsTrue number.is_integer ↔ IsInteger (take number.length text.now)) }
    ensures within { IfSome result (λ number. number.length ≤ length text.now) }
    ensures none { result ≡ None → BeginsWithNone IsNumber text.now }
{
    let integer = integer_length(text);
    let length = with_letter(integer.max(float_length(text)), text);
    if length == 0 {
        return None;
    }
    Some(Number {
        length,
        is_integer: length == integer,
    })
}

/// How long the number is, where the integer or the float is this long that it begins with: an `i` makes it imaginary.
#[tactic(auto, unfolding(crate::specs::NumberLengths::number_length))]
fn with_letter(real: usize, text: &[u8]) -> usize
    requires real { real ≡ real_length text.now }
    requires within { real ≤ length text.now }
    ensures count { result ≡ number_length text.now }
    ensures longest { Measures IsNumber text.now result }
{
    real.max(joined(real, last_letter_length(&text[real..])))
}

/// 1 for the `i` at the front of a text, or 0.
#[tactic(auto, unfolding(crate::specs::NumberLengths::last_letter_length))]
fn last_letter_length(text: &[u8]) -> usize
    ensures count { result ≡ last_letter_length text.now }
    ensures within { result ≤ length text.now }
{
    match text {
        [] => 0,
        [first, ..] => if *first == b'i' { 1 } else { 0 },
    }
}
