// The names of callers.
ghost use Rattle.std.specs.Prelude.{◌≡◌};
ghost use Rattle.std.specs.List.{list_all};
ghost use Rattle.gno_base.specs.Callers.{is_small_letter, is_digit, is_caller, is_caller_byte};

/// Whether it names a caller: 1 to 64 small letters and digits.
pub fn is_caller(text: &[u8]) -> bool
    ensures { result ≡ is_caller text.now }
{
    1 <= text.len() && (text.len() <= 64 && all_in_callers(text))
}

fn all_in_callers(text: &[u8]) -> bool
    ensures { result ≡ list_all is_caller_byte text.now }
{
    text.iter().all(|b| is_caller_byte(*b))
}

fn is_caller_byte(b: u8) -> bool
    ensures { result ≡ is_caller_byte b }
{
    is_small_letter(b) || is_digit(b)
}

/// Whether it is one of `a` to `z`.
pub fn is_small_letter(b: u8) -> bool
    ensures { result ≡ is_small_letter b }
{
    b'a' <= b && b <= b'z'
}

/// Whether it is one of `0` to `9`.
pub fn is_digit(b: u8) -> bool
    ensures { result ≡ is_digit b }
{
    b'0' <= b && b <= b'9'
}
