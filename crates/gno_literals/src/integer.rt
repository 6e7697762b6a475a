// The number of an integer literal.
ghost use Rattle.std.specs.Prelude.{ℕ, ◌≡◌, ◌≤◌, ◌<◌, ◌^◌, ◌||◌, if◌then◌else◌, None, IfSome, length, option_and_then};
ghost use Rattle.gno_scan.specs.Numbers.{base_behind_zero, is_hex_letter, is_other_base_letter};
ghost use Rattle.gno_scan.specs.NumberValues.{base_of, is_no_bar, prefix_length, with_digit};
ghost use Rattle.gno_literals.specs.Digits.{read_all, read_byte, whole_reading};
ghost use Rattle.gno_literals.specs.Literals.{IntegerValue};

/// Below which number each integer is: 2^127.
const LIMIT: u128 = 170_141_183_460_469_231_731_687_303_715_884_105_728;

/// What stands before the digits of an integer.
#[derive(Clone, Copy, Debug, PartialEq, Eq)]
pub(crate) struct Prefix {
    /// How many bytes it has.
    pub length: usize,
    pub base: u32,
}

/// The digits that were read.
#[derive(Clone, Copy, Debug, PartialEq, Eq)]
pub(crate) struct Reading {
    /// The number that they write.
    pub value: u128,
    /// Whether a `_` may stand next: it stands behind a digit or a prefix.
    pub may_bar: bool,
}

/// The number of an integer literal, if the word is one whose digits are digits of its base, and the number is at most 2^127 - 1.
pub(crate) fn integer_value(word: &[u8]) -> Option<u128>
    ensures value { IfSome result (λ value. IntegerValue word.now value) }
    ensures none { result ≡ None → (value : ℕ) → IntegerValue word.now value → ⊥ }
{
    let prefix = prefix_of(word);
    let digits = &word[prefix.length..];
    if digits.is_empty() {
        return None;
    }
    digits_value(prefix.base, prefix.length > 0, digits)
}

/// What stands before the digits.
fn prefix_of(word: &[u8]) -> Prefix
    ensures base { result.base ≡ base_of word.now }
    ensures count { result.length ≡ prefix_length word.now }
    ensures within { result.length ≤ length word.now }
    ensures least { 2 ≤ result.base }
    ensures most { result.base ≤ 16 }
{
    match word {
        [first, letter, ..] => if *first == b'0' {
            prefix_with(*letter)
        } else {
            Prefix {
                length: 0,
                base: 10,
            }
        },
        _ => Prefix {
            length: 0,
            base: 10,
        },
    }
}

/// The prefix of a `0` and such a byte behind it, which is a letter or the first digit of an octal number.
fn prefix_with(letter: u8) -> Prefix
    ensures base { result.base ≡ base_behind_zero letter }
    ensures count { result.length ≡ (if is_hex_letter letter || is_other_base_letter letter then 2 else 1) }
    ensures least { 2 ≤ result.base }
    ensures most { result.base ≤ 16 }
{
    match letter {
        b'x' | b'X' => Prefix {
            length: 2,
            base: 16,
        },
        b'o' | b'O' => Prefix { length: 2, base: 8 },
        b'b' | b'B' => Prefix { length: 2, base: 2 },
        _ => Prefix { length: 1, base: 8 },
    }
}

/// The number that digits write, between which one `_` may stand, and before them if it may there.
fn digits_value(base: u32, may_bar: bool, digits: &[u8]) -> Option<u128>
    requires least { 2 ≤ base }
    requires most { base ≤ 16 }
    ensures { result ≡ option_and_then whole_reading (read_all base (record { value = 0; may_bar = may_bar }) digits.now) }
{
    let mut reading = Reading { value: 0, may_bar };
    for b in digits {
        reading = read_byte(base, reading, *b)?;
    }
    if reading.may_bar {
        Some(reading.value)
    } else {
        None
    }
}

/// What is read with one more byte.
#[tactic(auto, unfolding(crate::specs::Digits::read_byte))]
fn read_byte(base: u32, reading: Reading, b: u8) -> Option<Reading>
    requires least { 2 ≤ base }
    requires most { base ≤ 16 }
    ensures { result ≡ read_byte base reading b }
{
    if b != b'_' {
        Some(Reading {
            value: with_digit(base, reading.value, b)?,
            may_bar: true,
        })
    } else if reading.may_bar {
        Some(Reading {
            value: reading.value,
            may_bar: false,
        })
    } else {
        None
    }
}

/// The number with one more digit.
#[tactic(auto, unfolding(gno_scan::specs::NumberValues::with_digit))]
fn with_digit(base: u32, value: u128, b: u8) -> Option<u128>
    requires least { 2 ≤ base }
    requires most { base ≤ 16 }
    ensures { result ≡ with_digit base value b }
{
    let digit = char::from(b).to_digit(base)?;
    let next = value
        .checked_mul(u128::from(base))?
        .checked_add(u128::from(digit))?;
    if next < LIMIT { Some(next) } else { None }
}
