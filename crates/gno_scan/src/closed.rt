// Raw strings and comments, as far as where they end.
ghost use Rattle.std.specs.Prelude.{◌≡◌, ◌≢◌, ◌+◌, ◌<◌, ◌≤◌, ℕ, ◌↔◌, None, IfSome, IsTrue, All, length, take};
ghost use Rattle.gno_scan.specs.Closing.{EndsFirst, StandsFirst};
ghost use Rattle.gno_scan.specs.Longest.{BeginsWithNone, IsLongest};
ghost use Rattle.gno_scan.specs.Quoted.{HasNoEnd, IsGeneralComment, IsLineComment, IsRaw};

/// How many bytes the raw string has that a text begins with, if one is closed.
pub(crate) fn raw_length(text: &[u8]) -> Option<usize>
    ensures longest { IfSome result (λ length. IsLongest IsRaw text.now (take length text.now)) }
    ensures within { IfSome result (λ size. size ≤ length text.now) }
    ensures none { result ≡ None → BeginsWithNone IsRaw text.now }
{
    if text.is_empty() || text[0] != b'`' {
        return None;
    }
    match bytes_before(&text[1..], b'`') {
        Some(count) => Some(count + 2),
        None => None,
    }
}

/// How many bytes the comment has that a text begins with and that ends with its line, if one does.
pub(crate) fn line_comment_length(text: &[u8]) -> Option<usize>
    ensures longest { IfSome result (λ length. IsLongest IsLineComment text.now (take length text.now)) }
    ensures within { IfSome result (λ size. size ≤ length text.now) }
    ensures none { result ≡ None → BeginsWithNone IsLineComment text.now }
{
    if text.len() < 2 || text[0] != b'/' || text[1] != b'/' {
        return None;
    }
    match bytes_before(&text[2..], b'\n') {
        Some(count) => Some(count + 2),
        None => Some(text.len()),
    }
}

/// How many bytes the comment has that a text begins with and that ends with `*/`, if one does.
pub(crate) fn general_comment_length(text: &[u8]) -> Option<usize>
    ensures longest { IfSome result (λ length. IsLongest IsGeneralComment text.now (take length text.now)) }
    ensures within { IfSome result (λ size. size ≤ length text.now) }
    ensures none { result ≡ None → BeginsWithNone IsGeneralComment text.now }
{
    if text.len() < 2 || text[0] != b'/' || text[1] != b'*' {
        return None;
    }
    match bytes_before_end(&text[2..]) {
        Some(count) => Some(count + 4),
        None => None,
    }
}

// How many bytes stand before the first byte of a value.
fn bytes_before(text: &[u8], byte: u8) -> Option<usize>
    ensures found { IfSome result (λ at. StandsFirst byte text.now at) }
    ensures none { result ≡ None → All (λ b. b ≢ byte) text.now }
{
    for (at, one) in text.iter().enumerate() {
        if *one == byte {
            return Some(at);
        }
    }
    None
}

// How many bytes stand before the first `*/`.
fn bytes_before_end(text: &[u8]) -> Option<usize>
    ensures found { IfSome result (λ at. EndsFirst text.now at) }
    ensures none { result ≡ None → HasNoEnd text.now }
{
    for at in 1..text.len() {
        if is_end(text[at - 1], text[at]) {
            return Some(at - 1);
        }
    }
    None
}

fn is_end(first: u8, second: u8) -> bool
    ensures { IsTrue result ↔ ((first ≡ 42) × (second ≡ 47)) }
{
    first == b'*' && second == b'/'
}
