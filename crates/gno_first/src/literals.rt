// Numbers.
ghost use Rattle.std.specs.Prelude.{◌≡◌, ◌<◌, ◌^◌, ℕ, Some, IfOk, bytes_eq};
ghost use Rattle.std.specs.Fmt.{decimal};
ghost use Rattle.gno_first.specs.Literals.{literal_of};

use std::alloc::{AllocError, Global};

/// Below which number each literal is.
const LITERAL_LIMIT: u64 = 1_000_000_000_000_000_000;

/// The number of which the word is the decimal spelling.
pub fn literal_of(alloc: Global, word: &[u8]) -> Result<Option<u64>, AllocError>
    ensures { IfOk result (λ found. found ≡ literal_of word.now) }
{
    let Some(number) = parsed(word) else {
        return Ok(None);
    };
    if number >= LITERAL_LIMIT {
        return Ok(None);
    }
    if !is_spelling(alloc, number, word)? {
        return Ok(None);
    }
    Ok(Some(number))
}

// A number, which is the right one where the word is the spelling of any.
fn parsed(word: &[u8]) -> Option<u64>
    ensures { (n : ℕ) → n < 10 ^ 18 → word.now ≡ decimal n → result ≡ Some n }
{
    let Ok(text) = std::str::from_utf8(word) else {
        return None;
    };
    text.parse::<u64>().ok()
}

fn is_spelling(alloc: Global, number: u64, word: &[u8]) -> Result<bool, AllocError>
    ensures { IfOk result (λ yes. yes ≡ bytes_eq (decimal number) word.now) }
{
    let spelled = number.to_string(alloc)?;
    Ok(spelled.as_bytes() == word)
}
