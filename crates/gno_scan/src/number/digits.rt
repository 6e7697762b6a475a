// Digits with a `_` between some of them, and how parts of a number are put together.
ghost use Rattle.std.specs.Prelude.{◌≡◌, ◌≤◌, ◌<◌, ◌+◌, ◌^◌, length};
ghost use Rattle.gno_scan.specs.Longest.{Measures};
ghost use Rattle.gno_scan.specs.Numbers.{AreBehindPrefix, AreDigits, is_decimal_digit, is_hex_digit};
ghost use Rattle.gno_scan.specs.NumberLengths.{begins_with, behind, behind_prefix_length, digits_length, goes_on, is_bar, is_digit_of, joined, led_length, run_length};

/// Which digits a part of a number is spelled with, and by which letter its exponent begins.
#[derive(Clone, Copy)]
pub(crate) enum Radix {
    Decimal,
    Hex,
}

fn is_decimal_digit(b: u8) -> bool
    ensures { result ≡ is_decimal_digit b }
{
    b.is_ascii_digit()
}

fn is_hex_digit(b: u8) -> bool
    ensures { result ≡ is_hex_digit b }
{
    is_decimal_digit(b) || ((b'A' <= b && b <= b'F') || (b'a' <= b && b <= b'f'))
}

fn is_digit_of(radix: Radix, b: u8) -> bool
    ensures { result ≡ is_digit_of radix b }
{
    match radix {
        Radix::Decimal => is_decimal_digit(b),
        Radix::Hex => is_hex_digit(b),
    }
}

fn begins_with_digit(radix: Radix, text: &[u8]) -> bool
    ensures { result ≡ begins_with (is_digit_of radix) text.now }
{
    match text {
        [] => false,
        [first, ..] => is_digit_of(radix, *first),
    }
}

/// Whether digits go on: with a digit, or with a `_` and a digit.
fn goes_on(radix: Radix, text: &[u8]) -> bool
    ensures { result ≡ goes_on (is_digit_of radix) text.now }
{
    match text {
        [] => false,
        [first, rest @ ..] => is_digit_of(radix, *first)
            || (*first == b'_' && begins_with_digit(radix, rest)),
    }
}

/// How far digits go on from a text's front.
#[tactic(auto, using(crate::proofs::Digits::run_steps))]
fn run_length(radix: Radix, text: &[u8]) -> usize
    ensures { result ≡ run_length (is_digit_of radix) text.now }
{
    let mut end = 0;
    while end < text.len() && goes_on(radix, &text[end..]) {
        end += 1;
    }
    end
}

/// How long the digits are that the text begins with, with a `_` between some of them.
#[tactic(auto, unfolding(crate::specs::NumberLengths::digits_length))]
pub(crate) fn digits_length(radix: Radix, text: &[u8]) -> usize
    ensures count { result ≡ digits_length (is_digit_of radix) text.now }
    ensures longest { Measures (AreDigits (is_digit_of radix)) text.now result }
{
    if begins_with_digit(radix, text) {
        run_length(radix, text)
    } else {
        0
    }
}

/// The same with a `_` that may stand before the digits.
#[tactic(auto, unfolding(crate::specs::NumberLengths::behind_prefix_length))]
pub(crate) fn behind_prefix_length(radix: Radix, text: &[u8]) -> usize
    ensures count { result ≡ behind_prefix_length (is_digit_of radix) text.now }
    ensures longest { Measures (AreBehindPrefix (is_digit_of radix)) text.now result }
{
    digits_length(radix, text).max(barred_length(radix, text))
}

fn barred_length(radix: Radix, text: &[u8]) -> usize
    ensures { result ≡ led_length is_bar (digits_length (is_digit_of radix)) text.now }
{
    match text {
        [] => 0,
        [first, rest @ ..] => {
            if *first == b'_' {
                behind(1, digits_length(radix, rest))
            } else {
                0
            }
        }
    }
}

/// Something of `count` bytes behind `front` others, or nothing.
pub(crate) fn behind(front: usize, count: usize) -> usize
    requires { front + count < 2 ^ 64 }
    ensures { result ≡ behind front count }
{
    if count == 0 { 0 } else { front + count }
}

/// Two parts, of which neither may be missing.
pub(crate) fn joined(first: usize, second: usize) -> usize
    requires { first + second < 2 ^ 64 }
    ensures { result ≡ joined first second }
{
    if first == 0 { 0 } else { behind(first, second) }
}
