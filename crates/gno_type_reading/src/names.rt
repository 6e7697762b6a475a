// Names and paths.
ghost use Rattle.std.specs.Prelude.{◌≡◌, ◌↔◌, IfOk, IsTrue};
ghost use Rattle.std.specs.List.{list_all};
ghost use Rattle.std.specs.Str.{chars};
ghost use Rattle.gno_scan.specs.Kinds as kinds;
ghost use Rattle.gno_scan.specs.Names.{IsIdentifier, IsKeyword, IsName, begins_with_letter, is_digit, is_letter, is_letter_or_digit};
ghost use Rattle.gno_terms.specs.Lawful.{IsPath};
ghost use Rattle.gno_type_reading.specs.Spellings.{are_letters, is_in, is_keyword};

use gno_base::{Path, PathFault};
use std::alloc::{AllocError, Global};
use std::str::from_utf8;
use ucd_category::{GeneralCategory, GeneralCategoryGroup};

/// Whether the text is a name. Go specification, "Identifiers".
pub fn is_name(text: &[u8]) -> bool
    ensures { IsTrue result ↔ IsName text.now }
{
    is_identifier(text) && !is_keyword(text)
}

fn is_identifier(text: &[u8]) -> bool
    ensures { IsTrue result ↔ IsIdentifier text.now }
{
    match from_utf8(text) {
        Ok(text) => are_letters(text),
        Err(_) => false,
    }
}

fn are_letters(text: &str) -> bool
    ensures { result ≡ are_letters (chars text.now) }
{
    begins_with_letter(text) && all_letters_or_digits(text)
}

fn all_letters_or_digits(text: &str) -> bool
    ensures { result ≡ list_all is_letter_or_digit (chars text.now) }
{
    text.chars().all(|c| is_letter_or_digit(c))
}

fn begins_with_letter(text: &str) -> bool
    ensures { result ≡ begins_with_letter (chars text.now) }
{
    match text.chars().next() {
        Some(c) => is_letter(c),
        None => false,
    }
}

fn is_letter_or_digit(c: char) -> bool
    ensures { result ≡ is_letter_or_digit c }
{
    is_letter(c) || is_digit(c)
}

#[tactic(auto, unfolding(gno_scan::specs::Names::is_letter))]
fn is_letter(c: char) -> bool
    ensures { result ≡ is_letter c }
{
    c == '_' || GeneralCategoryGroup::Letter.contains(GeneralCategory::for_char(c))
}

#[tactic(auto, unfolding(gno_scan::specs::Names::is_digit))]
fn is_digit(c: char) -> bool
    ensures { result ≡ is_digit c }
{
    GeneralCategory::for_char(c) == GeneralCategory::DecimalNumber
}

fn is_keyword(word: &[u8]) -> bool
    ensures { result ≡ is_keyword word.now }
{
    match word.len() {
        0..=3 => is_up_to_three(word),
        4 => is_of_four(word),
        5 => is_of_five(word),
        6 => is_of_six(word),
        _ => is_from_seven(word),
    }
}

#[tactic(auto, unfolding(gno_scan::specs::Kinds::keywords_up_to_three))]
fn is_up_to_three(word: &[u8]) -> bool
    ensures { result ≡ is_in kinds.keywords_up_to_three word.now }
{
    word == b"for".as_slice()
        || (word == b"go".as_slice()
            || (word == b"if".as_slice()
                || (word == b"map".as_slice() || word == b"var".as_slice())))
}

#[tactic(auto, unfolding(gno_scan::specs::Kinds::keywords_of_four))]
fn is_of_four(word: &[u8]) -> bool
    ensures { result ≡ is_in kinds.keywords_of_four word.now }
{
    word == b"case".as_slice()
        || (word == b"chan".as_slice()
            || (word == b"else".as_slice()
                || (word == b"func".as_slice()
                    || (word == b"goto".as_slice() || word == b"type".as_slice()))))
}

#[tactic(auto, unfolding(gno_scan::specs::Kinds::keywords_of_five))]
fn is_of_five(word: &[u8]) -> bool
    ensures { result ≡ is_in kinds.keywords_of_five word.now }
{
    word == b"break".as_slice()
        || (word == b"const".as_slice()
            || (word == b"defer".as_slice() || word == b"range".as_slice()))
}

#[tactic(auto, unfolding(gno_scan::specs::Kinds::keywords_of_six))]
fn is_of_six(word: &[u8]) -> bool
    ensures { result ≡ is_in kinds.keywords_of_six word.now }
{
    word == b"import".as_slice()
        || (word == b"return".as_slice()
            || (word == b"select".as_slice()
                || (word == b"struct".as_slice() || word == b"switch".as_slice())))
}

#[tactic(auto, unfolding(gno_scan::specs::Kinds::keywords_from_seven))]
fn is_from_seven(word: &[u8]) -> bool
    ensures { result ≡ is_in kinds.keywords_from_seven word.now }
{
    word == b"continue".as_slice()
        || (word == b"default".as_slice()
            || (word == b"fallthrough".as_slice()
                || (word == b"interface".as_slice() || word == b"package".as_slice())))
}

/// Whether the text is the path of a package.
pub(crate) fn is_path(alloc: Global, text: &[u8]) -> Result<bool, AllocError>
    ensures { IfOk result (λ yes. IsTrue yes ↔ IsPath text.now) }
{
    match Path::read(alloc, text) {
        Ok(_) => Ok(true),
        Err(PathFault::BadPath) => Ok(false),
        Err(PathFault::NoMemory) => Err(AllocError),
    }
}
