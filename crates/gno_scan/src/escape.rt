// Escapes in rune literals and interpreted strings.
ghost use Rattle.std.specs.Prelude.{◌≡◌, ◌<◌, ◌≤◌, ◌↔◌, ◌⊎◌, None, IfSome, IsTrue, length, take};
ghost use Rattle.std.specs.Char.{IsScalar};
ghost use Rattle.std.specs.Str.Parse.{digits_value};
ghost use Rattle.gno_scan.specs.EscapeForms.{BeginsHex, BeginsOctal, BeginsScalar, IsShort};
ghost use Rattle.gno_scan.specs.Escapes.{AreDigitsIn, AreParts, IsBadEscape, IsEscape, is_escape_letter};
ghost use Rattle.gno_scan.specs.Longest.{BeginsWithNone};

/// How many bytes the escape has that a text begins with, in a literal between such quotes.
pub(crate) fn escape_length(text: &[u8], quote: u8) -> Option<usize>
    ensures found { IfSome result (λ size. IsEscape quote (take size text.now)) }
    ensures within { IfSome result (λ size. (2 ≤ size) × (size ≤ length text.now)) }
    ensures none { result ≡ None → BeginsWithNone (IsEscape quote) text.now }
{
    if text.len() < 2 || text[0] != b'\\' {
        return None;
    }
    let behind = &text[1..];
    if is_short(behind[0], quote) {
        Some(2)
    } else if is_byte_number(behind) {
        Some(4)
    } else if is_scalar(behind, b'u', 4) {
        Some(6)
    } else if is_scalar(behind, b'U', 8) {
        Some(10)
    } else {
        None
    }
}

fn is_short(byte: u8, quote: u8) -> bool
    ensures { IsTrue result ↔ IsShort quote byte }
{
    byte == quote || is_escape_letter(byte)
}

fn is_escape_letter(byte: u8) -> bool
    ensures { result ≡ is_escape_letter byte }
{
    matches!(byte, b'a' | b'b' | b'f' | b'n' | b'r' | b't' | b'v' | b'\\')
}

fn is_byte_number(text: &[u8]) -> bool
    ensures { IsTrue result ↔ (BeginsOctal text.now ⊎ BeginsHex 120 2 text.now) }
{
    is_octal(text) || is_hex(text, b'x', 2)
}

fn is_octal(text: &[u8]) -> bool
    ensures { IsTrue result ↔ BeginsOctal text.now }
{
    match number_at(text, 8, 3) {
        Some(number) => number < 256,
        None => false,
    }
}

fn is_hex(text: &[u8], letter: u8, count: usize) -> bool
    requires { count ≤ 8 }
    ensures { IsTrue result ↔ BeginsHex letter count text.now }
{
    !text.is_empty() && text[0] == letter && number_at(&text[1..], 16, count).is_some()
}

fn is_scalar(text: &[u8], letter: u8, count: usize) -> bool
    requires { count ≤ 8 }
    ensures { IsTrue result ↔ BeginsScalar letter count text.now }
{
    if text.is_empty() || text[0] != letter {
        return false;
    }
    match number_at(&text[1..], 16, count) {
        Some(number) => char::from_u32(number).is_some(),
        None => false,
    }
}

// The number that the first digits of a text write in a base, where so many stand there.
fn number_at(text: &[u8], base: u32, count: usize) -> Option<u32>
    requires least { 2 ≤ base }
    requires most { base ≤ 16 }
    requires count { count ≤ 8 }
    ensures digits { IfSome result (λ number. AreDigitsIn base count (take count text.now)) }
    ensures value { IfSome result (λ number. number ≡ digits_value base (take count text.now)) }
    ensures none { result ≡ None → AreDigitsIn base count (take count text.now) → ⊥ }
{
    if text.len() < count {
        return None;
    }
    let mut number = 0;
    for at in 0..count {
        let digit = char::from(text[at]).to_digit(base)?;
        number = number * base + digit;
    }
    Some(number)
}

/// How many bytes stand before the first backslash with which no escape begins, if there is one.
pub(crate) fn bad_escape(inside: &[u8], quote: u8) -> Option<usize>
    ensures bad { IfSome result (λ at. IsBadEscape quote inside.now at) }
    ensures none { result ≡ None → AreParts quote inside.now }
{
    let mut at = 0;
    while at < inside.len() {
        match part_length(&inside[at..], quote) {
            Some(length) => at += length,
            None => return Some(at),
        }
    }
    None
}

// How many bytes the escape has that a text begins with, or the byte that is no backslash.
fn part_length(text: &[u8], quote: u8) -> Option<usize>
    requires { 0 < length text.now }
    ensures part { IfSome result (λ size. AreParts quote (take size text.now)) }
    ensures within { IfSome result (λ size. (0 < size) × (size ≤ length text.now)) }
    ensures bad { result ≡ None → IsBadEscape quote text.now 0 }
{
    if text[0] == b'\\' {
        escape_length(text, quote)
    } else {
        Some(1)
    }
}
