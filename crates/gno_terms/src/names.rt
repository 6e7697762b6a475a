// Names that other packages may use.
ghost use Rattle.std.specs.Prelude.{◌≡◌};
ghost use Rattle.gno_terms.specs.Exported.{begins_with_capital, is_exported};

use std::str::from_utf8;
use ucd_category::GeneralCategory;

/// Whether the name begins with a capital letter. Go specification, "Exported identifiers".
pub fn is_exported(name: &[u8]) -> bool
    ensures { result ≡ is_exported name.now }
{
    match from_utf8(name) {
        Ok(text) => begins_with_capital(text),
        Err(_) => false,
    }
}

fn begins_with_capital(text: &str) -> bool
    ensures { result ≡ begins_with_capital text.now }
{
    match text.chars().next() {
        Some(c) => GeneralCategory::for_char(c) == GeneralCategory::UppercaseLetter,
        None => false,
    }
}
