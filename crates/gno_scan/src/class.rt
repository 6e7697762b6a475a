// Which pieces can begin with a byte.
ghost use Rattle.std.specs.Prelude.{◌≡◌};
ghost use Rattle.gno_scan.specs.Classes.{class_of, is_mark, mark_or_other};

/// Which pieces can begin with a byte.
#[derive(Clone, Copy, Debug, PartialEq, Eq)]
pub(crate) enum Class {
    /// A space, a tab or a carriage return: a blank.
    Space,
    LineFeed,
    /// A rune literal.
    Quote,
    /// An interpreted string.
    DoubleQuote,
    /// A raw string.
    BackQuote,
    /// A number.
    Digit,
    /// A number or an operator.
    Point,
    /// A comment or an operator.
    Solidus,
    /// An operator or a mark.
    Mark,
    /// An identifier, if anything.
    Other,
}

/// Which pieces can begin with the byte.
#[tactic(auto, unfolding(crate::specs::Classes::class_of))]
pub(crate) fn class_of(byte: u8) -> Class
    ensures { result ≡ class_of byte }
{
    match byte {
        b' ' | b'\t' | b'\r' => Class::Space,
        b'\n' => Class::LineFeed,
        b'\'' => Class::Quote,
        b'"' => Class::DoubleQuote,
        b'`' => Class::BackQuote,
        b'0'..=b'9' => Class::Digit,
        b'.' => Class::Point,
        b'/' => Class::Solidus,
        _ => mark_or_other(byte),
    }
}

/// The class of a byte that begins no blank, no literal, no number and no comment.
fn mark_or_other(byte: u8) -> Class
    ensures { result ≡ mark_or_other byte }
{
    if is_mark(byte) {
        Class::Mark
    } else {
        Class::Other
    }
}

/// Whether operators and marks begin with the byte, and no other piece.
#[tactic(auto, unfolding(crate::specs::Classes::is_mark))]
fn is_mark(byte: u8) -> bool
    ensures { result ≡ is_mark byte }
{
    matches!(
        byte,
        b'+' | b'-'
            | b'*'
            | b'%'
            | b'&'
            | b'|'
            | b'^'
            | b'<'
            | b'>'
            | b'='
            | b'!'
            | b'~'
            | b'('
            | b')'
            | b'['
            | b']'
            | b'{'
            | b'}'
            | b','
            | b':'
            | b';'
    )
}
