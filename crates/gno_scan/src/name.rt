// Identifiers and keywords.
ghost use Rattle.std.specs.Prelude.{◌≡◌, ◌≢◌, ◌≤◌, ◌↔◌, Some, length, take};
ghost use Rattle.gno_scan.specs.declared.kind.TokenKind.{TokenKind};
ghost use Rattle.gno_scan.specs.Characters.{HasFront, HasNoFront, IsRun};
ghost use Rattle.gno_scan.specs.Fixed.{keyword_spelling};
ghost use Rattle.gno_scan.specs.Kinds as kinds;
ghost use Rattle.gno_scan.specs.Longest.{BeginsWithNone, IsLongest};
ghost use Rattle.gno_scan.specs.Names as names;

#[cfg(test)]
mod tests;

use crate::TokenKind;
use crate::character::character_at;
use ucd_category::{GeneralCategory, GeneralCategoryGroup};

/// How many bytes the longest identifier at the front of a text has: 0 where none begins there.
pub(crate) fn identifier_length(text: &[u8]) -> usize
    ensures longest { result ≢ 0 → IsLongest names.IsIdentifier text.now (take result text.now) }
    ensures within { result ≤ length text.now }
    ensures none { result ≡ 0 → BeginsWithNone names.IsIdentifier text.now }
{
    let first = letter_length(text);
    if first == 0 {
        return 0;
    }
    first + run_length(&text[first..])
}

// How many bytes the letters and digits at the front of a text have.
fn run_length(text: &[u8]) -> usize
    ensures within { result ≤ length text.now }
    ensures longest { IsLongest (IsRun names.is_letter_or_digit) text.now (take result text.now) }
{
    let mut end = 0;
    let mut step = letter_or_digit_length(text);
    while step > 0 {
        end += step;
        step = letter_or_digit_length(&text[end..]);
    }
    end
}

// How many bytes the letter at the front of a text has: 0 where none is there.
fn letter_length(text: &[u8]) -> usize
    ensures some { result ≢ 0 → HasFront names.is_letter text.now result }
    ensures none { result ≡ 0 → HasNoFront names.is_letter text.now }
{
    match character_at(text) {
        Some(c) => { if is_letter(c) { c.len_utf8() } else { 0 } }
        None => 0,
    }
}

// How many bytes the letter or digit at the front of a text has: 0 where none is there.
fn letter_or_digit_length(text: &[u8]) -> usize
    ensures some { result ≢ 0 → HasFront names.is_letter_or_digit text.now result }
    ensures none { result ≡ 0 → HasNoFront names.is_letter_or_digit text.now }
{
    match character_at(text) {
        Some(c) => {
            if is_letter(c) || is_digit(c) {
                c.len_utf8()
            } else {
                0
            }
        }
        None => 0,
    }
}

fn is_letter(c: char) -> bool
    ensures { result ≡ names.is_letter c }
{
    if c.is_ascii() {
        c.is_ascii_alphabetic() || c == '_'
    } else {
        GeneralCategoryGroup::Letter.contains(GeneralCategory::for_char(c))
    }
}

fn is_digit(c: char) -> bool
    ensures { result ≡ names.is_digit c }
{
    if c.is_ascii() {
        c.is_ascii_digit()
    } else {
        matches!(GeneralCategory::for_char(c), GeneralCategory::DecimalNumber)
    }
}

/// The keyword that a word is, if it is one.
pub(crate) fn keyword_of(word: &[u8]) -> Option<TokenKind>
    ensures { (kind : TokenKind) → (result ≡ Some kind) ↔ (keyword_spelling kind ≡ Some word.now) }
{
    match word.len() {
        0..=3 => keyword_up_to_three(word),
        4 => keyword_of_four(word),
        5 => keyword_of_five(word),
        6 => keyword_of_six(word),
        _ => keyword_from_seven(word),
    }
}

#[tactic(auto, unfolding(crate::specs::Kinds::keywords_up_to_three))]
fn keyword_up_to_three(word: &[u8]) -> Option<TokenKind>
    ensures { result ≡ kinds.kind_of kinds.keywords_up_to_three word.now }
{
    if word == b"for".as_slice() {
        Some(TokenKind::For)
    } else if word == b"go".as_slice() {
        Some(TokenKind::Go)
    } else if word == b"if".as_slice() {
        Some(TokenKind::If)
    } else if word == b"map".as_slice() {
        Some(TokenKind::Map)
    } else if word == b"var".as_slice() {
        Some(TokenKind::Var)
    } else {
        None
    }
}

#[tactic(auto, unfolding(crate::specs::Kinds::keywords_of_four))]
fn keyword_of_four(word: &[u8]) -> Option<TokenKind>
    ensures { result ≡ kinds.kind_of kinds.keywords_of_four word.now }
{
    if word == b"case".as_slice() {
        Some(TokenKind::Case)
    } else if word == b"chan".as_slice() {
        Some(TokenKind::Chan)
    } else if word == b"else".as_slice() {
        Some(TokenKind::Else)
    } else if word == b"func".as_slice() {
        Some(TokenKind::Func)
    } else if word == b"goto".as_slice() {
        Some(TokenKind::Goto)
    } else if word == b"type".as_slice() {
        Some(TokenKind::Type)
    } else {
        None
    }
}

#[tactic(auto, unfolding(crate::specs::Kinds::keywords_of_five))]
fn keyword_of_five(word: &[u8]) -> Option<TokenKind>
    ensures { result ≡ kinds.kind_of kinds.keywords_of_five word.now }
{
    if word == b"break".as_slice() {
        Some(TokenKind::Break)
    } else if word == b"const".as_slice() {
        Some(TokenKind::Const)
    } else if word == b"defer".as_slice() {
        Some(TokenKind::Defer)
    } else if word == b"range".as_slice() {
        Some(TokenKind::Range)
    } else {
        None
    }
}

#[tactic(auto, unfolding(crate::specs::Kinds::keywords_of_six))]
fn keyword_of_six(word: &[u8]) -> Option<TokenKind>
    ensures { result ≡ kinds.kind_of kinds.keywords_of_six word.now }
{
    if word == b"import".as_slice() {
        Some(TokenKind::Import)
    } else if word == b"return".as_slice() {
        Some(TokenKind::Return)
    } else if word == b"select".as_slice() {
        Some(TokenKind::Select)
    } else if word == b"struct".as_slice() {
        Some(TokenKind::Struct)
    } else if word == b"switch".as_slice() {
        Some(TokenKind::Switch)
    } else {
        None
    }
}

#[tactic(auto, unfolding(crate::specs::Kinds::keywords_from_seven))]
fn keyword_from_seven(word: &[u8]) -> Option<TokenKind>
    ensures { result ≡ kinds.kind_of kinds.keywords_from_seven word.now }
{
    if word == b"continue".as_slice() {
        Some(TokenKind::Continue)
    } else if word == b"default".as_slice() {
        Some(TokenKind::Default)
    } else if word == b"fallthrough".as_slice() {
        Some(TokenKind::Fallthrough)
    } else if word == b"interface".as_slice() {
        Some(TokenKind::Interface)
    } else if word == b"package".as_slice() {
        Some(TokenKind::Package)
    } else {
        None
    }
}
