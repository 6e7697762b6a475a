// The escape at the front of a text.
ghost use Rattle.std.specs.Prelude.{ℕ, ◌≡◌, ◌<◌, ◌≤◌, ◌⊎◌, ◌++◌, None, IfSome, OnOk, length, take, drop};
ghost use Rattle.std.specs.Char.{IsScalar};
ghost use Rattle.std.specs.Str.Parse.{digits_value};
ghost use Rattle.gno_scan.specs.EscapeForms.{BeginsHex, BeginsOctal, BeginsScalar, IsShort};
ghost use Rattle.gno_scan.specs.Escapes.{AreDigitsIn, IsEscape};
ghost use Rattle.gno_scan.specs.Longest.{BeginsWithNone};
ghost use Rattle.gno_literals.specs.EscapeValues.{EscapeValue, escaped_bytes, escaped_number, letter_value, ShortValue};

use gno_base::Bytes;
use std::alloc::AllocError;

/// What an escape stands for.
#[derive(Clone, Copy, Debug, PartialEq, Eq)]
pub(crate) enum Escaped {
    Byte(u8),
    Character(char),
}

/// A part of a literal: an escape, or a byte that stands for itself.
#[derive(Clone, Copy, Debug, PartialEq, Eq)]
pub(crate) struct Part {
    /// How many bytes it has.
    pub length: usize,
    pub value: Escaped,
}

impl Escaped {
    /// The number of it in a rune literal.
    pub fn number(self) -> u32
        ensures { result ≡ escaped_number self }
    {
        match self {
            Escaped::Byte(b) => u32::from(b),
            Escaped::Character(c) => u32::from(c),
        }
    }

    /// Appends the bytes of it in a string.
    pub fn push_to(self, bytes: &mut Bytes) -> Result<(), AllocError>
        ensures { OnOk result (bytes.new ≡ bytes.old ++ escaped_bytes self) }
    {
        match self {
            Escaped::Byte(b) => bytes.push(b),
            Escaped::Character(c) => {
                let mut room = [0; 4];
                bytes.extend_from_slice(c.encode_utf8(&mut room).as_bytes())
            }
        }
    }
}

/// The escape that a text begins with, in a literal between such quotes.
pub(crate) fn escape_at(text: &[u8], quote: u8) -> Option<Part>
    ensures found { IfSome result (λ part. EscapeValue quote (take part.length text.now) part.value) }
    ensures within { IfSome result (λ part. (2 ≤ part.length) × (part.length ≤ length text.now)) }
    ensures none { result ≡ None → BeginsWithNone (IsEscape quote) text.now }
{
    if text.len() < 2 || text[0] != b'\\' {
        return None;
    }
    let behind = &text[1..];
    if let Some(byte) = short_value(behind[0], quote) {
        return Some(byte_part(2, byte));
    }
    if let Some(byte) = octal_at(behind) {
        return Some(byte_part(4, byte));
    }
    if let Some(byte) = hex_byte_at(behind) {
        return Some(byte_part(4, byte));
    }
    if let Some(c) = scalar_at(behind, b'u', 4) {
        return Some(character_part(6, c));
    }
    match scalar_at(behind, b'U', 8) {
        Some(c) => Some(character_part(10, c)),
        None => None,
    }
}

fn byte_part(length: usize, byte: u8) -> Part
    ensures { result ≡ record { length = length; value = Escaped.Byte byte } }
{
    Part {
        length,
        value: Escaped::Byte(byte),
    }
}

fn character_part(length: usize, c: char) -> Part
    ensures { result ≡ record { length = length; value = Escaped.Character c } }
{
    Part {
        length,
        value: Escaped::Character(c),
    }
}

/// What a letter, a backslash or the quote stands for behind a backslash.
fn short_value(byte: u8, quote: u8) -> Option<u8>
    ensures found { IfSome result (λ value. ShortValue quote byte value) }
    ensures none { result ≡ None → IsShort quote byte → ⊥ }
{
    if byte == quote {
        Some(quote)
    } else {
        letter_value(byte)
    }
}

fn letter_value(byte: u8) -> Option<u8>
    ensures { result ≡ letter_value byte }
{
    match byte {
        b'a' => Some(0x07),
        b'b' => Some(0x08),
        b'f' => Some(0x0C),
        b'n' => Some(b'\n'),
        b'r' => Some(b'\r'),
        b't' => Some(b'\t'),
        b'v' => Some(0x0B),
        b'\\' => Some(b'\\'),
        _ => None,
    }
}

/// The byte that three octal digits write.
fn octal_at(text: &[u8]) -> Option<u8>
    ensures found { IfSome result (λ byte. BeginsOctal text.now × (byte ≡ digits_value 8 (take 3 text.now))) }
    ensures within { IfSome result (λ byte. 3 ≤ length text.now) }
    ensures none { result ≡ None → BeginsOctal text.now → ⊥ }
{
    match number_at(text, 8, 3) {
        Some(number) => if number < 256 {
            Some(number as u8)
        } else {
            None
        },
        None => None,
    }
}

/// The byte that two hexadecimal digits write behind an `x`.
fn hex_byte_at(text: &[u8]) -> Option<u8>
    ensures found { IfSome result (λ byte. BeginsHex 120 2 text.now × (byte ≡ digits_value 16 (take 2 (drop 1 text.now)))) }
    ensures within { IfSome result (λ byte. 3 ≤ length text.now) }
    ensures none { result ≡ None → BeginsHex 120 2 text.now → ⊥ }
{
    match hex_at(text, b'x', 2) {
        Some(number) => Some(number as u8),
        None => None,
    }
}

/// The character whose number so many hexadecimal digits write behind such a letter.
fn scalar_at(text: &[u8], letter: u8, count: usize) -> Option<char>
    requires { count ≤ 8 }
    ensures found { IfSome result (λ c. BeginsScalar letter count text.now × (c ≡ digits_value 16 (take count (drop 1 text.now)))) }
    ensures within { IfSome result (λ c. count < length text.now) }
    ensures none { result ≡ None → BeginsScalar letter count text.now → ⊥ }
{
    match hex_at(text, letter, count) {
        Some(number) => char::from_u32(number),
        None => None,
    }
}

/// The number that so many hexadecimal digits write behind such a letter.
fn hex_at(text: &[u8], letter: u8, count: usize) -> Option<u32>
    requires { count ≤ 8 }
    ensures found { IfSome result (λ number. BeginsHex letter count text.now × (number ≡ digits_value 16 (take count (drop 1 text.now)))) }
    ensures within { IfSome result (λ number. count < length text.now) }
    ensures none { result ≡ None → BeginsHex letter count text.now → ⊥ }
{
    if text.is_empty() || text[0] != letter {
        None
    } else {
        number_at(&text[1..], 16, count)
    }
}

/// The number that the first digits of a text write in a base, where so many stand there.
fn number_at(text: &[u8], base: u32, count: usize) -> Option<u32>
    requires least { 2 ≤ base }
    requires most { base ≤ 16 }
    requires count { count ≤ 8 }
    ensures digits { IfSome result (λ number. AreDigitsIn base count (take count text.now)) }
    ensures value { IfSome result (λ number. number ≡ digits_value base (take count text.now)) }
    ensures within { IfSome result (λ number. count ≤ length text.now) }
    ensures none { result ≡ None → AreDigitsIn base count (take count text.now) → ⊥ }
{
    if text.len() < count {
        return None;
    }
    let mut number = 0;
    for at in 0..count {
        let digit = char::from(text[at]).to_digit(base)?;
        number = number * base + digit;
    }
    Some(number)
}
