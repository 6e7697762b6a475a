// Literals between quotes, as far as where they end.
ghost use Rattle.std.specs.Prelude.{◌≡◌, ◌≢◌, ◌+◌, ◌<◌, ◌≤◌, ℕ, List, None, IfSome, false, length, take};
ghost use Rattle.gno_scan.specs.Longest.{BeginsWithNone, IsLongest};
ghost use Rattle.gno_scan.specs.Quoted.{IsQuoted};
ghost use Rattle.gno_scan.specs.Closing.{closing};

/// How many bytes the literal between such quotes has that a text begins with, if one is closed on its line.
pub(crate) fn quoted_length(text: &[u8], quote: u8) -> Option<usize>
    requires no_backslash { quote ≢ 92 }
    requires no_line_feed { quote ≢ 10 }
    ensures longest { IfSome result (λ length. IsLongest (IsQuoted quote) text.now (take length text.now)) }
    ensures within { IfSome result (λ size. size ≤ length text.now) }
    ensures none { result ≡ None → BeginsWithNone (IsQuoted quote) text.now }
{
    if text.is_empty() || text[0] != quote {
        return None;
    }
    match bytes_inside(&text[1..], quote) {
        Some(count) => Some(count + 2),
        None => None,
    }
}

// How many bytes stand before the quote that closes a literal, if it comes on this line.
fn bytes_inside(text: &[u8], quote: u8) -> Option<usize>
    ensures closing { result ≡ closing quote 0 false text.now }
    ensures within { IfSome result (λ at. at < length text.now) }
{
    let mut is_escaped = false;
    for (at, byte) in text.iter().enumerate() {
        if *byte == b'\n' {
            return None;
        }
        if is_escaped {
            is_escaped = false;
        } else if *byte == quote {
            return Some(at);
        } else {
            is_escaped = *byte == b'\\';
        }
    }
    None
}
