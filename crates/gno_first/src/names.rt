// Names, and the words that no file may declare.
ghost use Rattle.std.specs.Prelude.{◌≡◌, ◌||◌};
ghost use Rattle.std.specs.List.{list_all};
ghost use Rattle.gno_first.specs.Names as names;

use crate::words::{is_among, is_keyword};

/// The predeclared names of Gno.
const PREDECLARED: [&str; 33] = [
    "any", "append", "bool", "byte", "cap", "copy", "cross", "delete", "error", "false", "int",
    "int16", "int32", "int64", "int8", "iota", "len", "make", "new", "nil", "panic", "print",
    "println", "realm", "recover", "rune", "string", "true", "uint", "uint16", "uint32", "uint64",
    "uint8",
];

/// Further names that a file of the first form does not declare.
const KEPT_BACK: [&str; 6] = ["clear", "cur", "init", "main", "max", "min"];

fn is_letter(b: u8) -> bool
    ensures { result ≡ names.is_letter b }
{
    b.is_ascii_uppercase() || b.is_ascii_lowercase()
}

fn is_digit(b: u8) -> bool
    ensures { result ≡ names.is_digit b }
{
    b.is_ascii_digit()
}

fn begins_with_letter(word: &[u8]) -> bool
    ensures { result ≡ names.begins_with_letter word.now }
{
    match word {
        [b, ..] => is_letter(*b),
        [] => false,
    }
}

fn has_name_bytes(word: &[u8]) -> bool
    ensures { result ≡ list_all (λ b. names.is_letter b || names.is_digit b) word.now }
{
    word.iter().all(|b| is_letter(*b) || is_digit(*b))
}

fn is_predeclared(word: &[u8]) -> bool
    ensures { result ≡ names.is_among names.predeclared word.now }
{
    is_among(PREDECLARED.as_slice(), word)
}

fn is_kept_back(word: &[u8]) -> bool
    ensures { result ≡ names.is_among names.kept_back word.now }
{
    is_among(KEPT_BACK.as_slice(), word)
}

fn is_reserved(word: &[u8]) -> bool
    ensures { result ≡ names.is_reserved word.now }
{
    is_keyword(word) || is_predeclared(word) || is_kept_back(word)
}

/// Whether the word is a name that a file may declare.
#[tactic(auto, unfolding(crate::specs::Names::is_name))]
pub fn is_name(word: &[u8]) -> bool
    ensures { result ≡ names.is_name word.now }
{
    begins_with_letter(word) && has_name_bytes(word) && !is_reserved(word)
}
