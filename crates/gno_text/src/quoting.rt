// The quoting of texts.
ghost use Rattle.std.specs.Prelude.{◌≡◌, ◌<◌, ◌++◌, length, drop, IfOk, OnOk};
ghost use Rattle.std.specs.Str.{continuation_len};
ghost use Rattle.gno_text.specs.Quoting as spec;
ghost use Rattle.gno_text.specs.Quoting.Part.{Inside, Outside};

use gno_base::Bytes;
use std::alloc::{AllocError, Global};
use std::str::from_utf8;

/// The text between quotes, on one line. A quote and a backslash have a backslash before them; a line feed, a tab and
/// a carriage return are `\n`, `\t` and `\r`; other control bytes, and bytes outside of valid UTF-8, are `\x` and two
/// digits. Fails where there is no memory.
pub fn quoted(alloc: Global, text: &[u8]) -> Result<Bytes, AllocError>
    ensures { IfOk result (λ line. line ≡ spec.quoted text.now) }
{
    let mut line = Bytes::new(alloc);
    line.push(b'"')?;
    push_spellings(&mut line, text)?;
    line.push(b'"')?;
    Ok(line)
}

/// Where a character begins, its bytes are inside of it; else one byte is outside; and reading goes on behind.
/// This states a law and does nothing.
pub fn text_is_read_from_front(text: &[u8])
    ensures { spec.IsReadFromFront text.now }
{}

/// A quotation has no byte below 0x20 and no 0x7f. This states a law and does nothing.
pub fn quotation_stands_on_one_line(text: &[u8])
    ensures { spec.IsPlain (spec.quoted text.now) }
{}

/// Different texts have different quotations. This states a law and does nothing.
pub fn quotations_differ(first: &[u8], second: &[u8])
    ensures { spec.quoted first.now ≡ spec.quoted second.now → first.now ≡ second.now }
{}

fn push_spellings(line: &mut Bytes, text: &[u8]) -> Result<(), AllocError>
    ensures { OnOk result (line.new ≡ line.old ++ spec.spellings (spec.parts_of text.now)) }
{
    let mut more = 0;
    for at in 0..text.len() {
        more = push_first(line, &text[at..], more)?;
    }
    Ok(())
}

// Spells the first byte, and gives how many bytes behind it end its character.
fn push_first(line: &mut Bytes, rest: &[u8], more: usize) -> Result<usize, AllocError>
    requires { 0 < length rest.now }
    ensures { IfOk result (λ left. line.new ++ spec.spellings (spec.parts_after left (drop 1 rest.now)) ≡ line.old ++ spec.spellings (spec.parts_after more rest.now)) }
{
    let first = rest[0];
    if more > 0 {
        push_inside(line, first)?;
        Ok(more - 1)
    } else if begins_character(rest) {
        push_inside(line, first)?;
        Ok(continuation_len(first))
    } else {
        push_outside(line, first)?;
        Ok(0)
    }
}

// What ends within a character is no UTF-8.
fn begins_character(rest: &[u8]) -> bool
    requires { 0 < length rest.now }
    ensures { result ≡ spec.begins_character rest.now }
{
    let len = 1 + continuation_len(rest[0]);
    let front = &rest[..len.min(rest.len())];
    from_utf8(front).is_ok()
}

fn continuation_len(first: u8) -> usize
    ensures { result ≡ continuation_len first }
{
    match first {
        0..0x80 => 0,
        0x80..0xE0 => 1,
        0xE0..0xF0 => 2,
        _ => 3,
    }
}

#[tactic(auto, unfolding(crate::specs::Quoting::spelling))]
fn push_inside(line: &mut Bytes, byte: u8) -> Result<(), AllocError>
    ensures { OnOk result (line.new ≡ line.old ++ spec.spelling (Inside byte)) }
{
    if let Some(letter) = letter_of(byte) {
        line.push(b'\\')?;
        line.push(letter)
    } else if is_control(byte) {
        push_hex_escape(line, byte)
    } else {
        line.push(byte)
    }
}

#[tactic(auto, unfolding(crate::specs::Quoting::spelling))]
fn push_outside(line: &mut Bytes, byte: u8) -> Result<(), AllocError>
    ensures { OnOk result (line.new ≡ line.old ++ spec.spelling (Outside byte)) }
{
    push_hex_escape(line, byte)
}

#[tactic(auto, unfolding(crate::specs::Quoting::letter_of))]
fn letter_of(byte: u8) -> Option<u8>
    ensures { result ≡ spec.letter_of byte }
{
    match byte {
        b'"' | b'\\' => Some(byte),
        b'\n' => Some(b'n'),
        b'\t' => Some(b't'),
        b'\r' => Some(b'r'),
        _ => None,
    }
}

#[tactic(auto, unfolding(crate::specs::Quoting::is_control))]
fn is_control(byte: u8) -> bool
    ensures { result ≡ spec.is_control byte }
{
    byte < 0x20 || byte == 0x7F
}

#[tactic(auto, unfolding(crate::specs::Quoting::hex_escape))]
fn push_hex_escape(line: &mut Bytes, byte: u8) -> Result<(), AllocError>
    ensures { OnOk result (line.new ≡ line.old ++ spec.hex_escape byte) }
{
    line.extend_from_slice(b"\\x".as_slice())?;
    line.push(hex_digit(byte / 16))?;
    line.push(hex_digit(byte % 16))
}

fn hex_digit(value: u8) -> u8
    requires { value < 16 }
    ensures { result ≡ spec.hex_digit value }
{
    b"0123456789abcdef"[value as usize]
}
