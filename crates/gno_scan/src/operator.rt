// Operators and marks.
ghost use Rattle.std.specs.Prelude.{◌≡◌, ◌≤◌, Some, None, IfSome, length, take};
ghost use Rattle.gno_scan.specs.Fixed.{operator_spelling, IsOperator};
ghost use Rattle.gno_scan.specs.Longest.{BeginsWithNone, IsLongest};
ghost use Rattle.gno_scan.specs.Kinds as kinds;

#[cfg(test)]
mod tests;

use crate::TokenKind;

/// An operator or a mark at the front of a text.
#[derive(Clone, Copy, Debug)]
pub(crate) struct Operator {
    pub kind: TokenKind,
    pub length: usize,
}

/// The longest operator or mark that the text begins with, if it begins with one.
pub(crate) fn operator_at(text: &[u8]) -> Option<Operator>
    ensures spelled { IfSome result (λ operator. operator_spelling operator.kind ≡ Some (take operator.length text.now)) }
    ensures longest { IfSome result (λ operator. IsLongest IsOperator text.now (take operator.length text.now)) }
    ensures within { IfSome result (λ operator. operator.length ≤ length text.now) }
    ensures none { result ≡ None → BeginsWithNone IsOperator text.now }
{
    if let Some(kind) = at_three(text) {
        Some(Operator { kind, length: 3 })
    } else if let Some(kind) = at_two(text) {
        Some(Operator { kind, length: 2 })
    } else if let Some(kind) = at_one(text) {
        Some(Operator { kind, length: 1 })
    } else {
        None
    }
}

// The operator that the first three bytes are.
fn at_three(text: &[u8]) -> Option<TokenKind>
    ensures { result ≡ kinds.at_three text.now }
{
    match text {
        [first, second, third, ..] => three_bytes(*first, *second, *third),
        _ => None,
    }
}

// The operator that the first two bytes are.
fn at_two(text: &[u8]) -> Option<TokenKind>
    ensures { result ≡ kinds.at_two text.now }
{
    match text {
        [first, second, ..] => two_bytes(*first, *second),
        _ => None,
    }
}

// The operator or mark that the first byte is.
fn at_one(text: &[u8]) -> Option<TokenKind>
    ensures { result ≡ kinds.at_one text.now }
{
    match text {
        [first, ..] => one_byte(*first),
        [] => None,
    }
}

#[tactic(auto, unfolding(crate::specs::Kinds::operators_of_three))]
fn three_bytes(first: u8, second: u8, third: u8) -> Option<TokenKind>
    ensures { result ≡ kinds.three_bytes first second third }
{
    match (first, second, third) {
        (b'<', b'<', b'=') => Some(TokenKind::ShiftLeftAssign),
        (b'>', b'>', b'=') => Some(TokenKind::ShiftRightAssign),
        (b'&', b'^', b'=') => Some(TokenKind::AndNotAssign),
        (b'.', b'.', b'.') => Some(TokenKind::Ellipsis),
        _ => None,
    }
}

// Those that end with `=` stand apart, so that theirs is a match on one byte.
#[tactic(auto, unfolding(crate::specs::Kinds::other_operators_of_two))]
fn two_bytes(first: u8, second: u8) -> Option<TokenKind>
    ensures { result ≡ kinds.two_bytes first second }
{
    if second == b'=' {
        return before_equals(first);
    }
    match (first, second) {
        (b'<', b'<') => Some(TokenKind::ShiftLeft),
        (b'>', b'>') => Some(TokenKind::ShiftRight),
        (b'&', b'^') => Some(TokenKind::AndNot),
        (b'&', b'&') => Some(TokenKind::BothTrue),
        (b'|', b'|') => Some(TokenKind::OneTrue),
        (b'<', b'-') => Some(TokenKind::Arrow),
        (b'+', b'+') => Some(TokenKind::Increment),
        (b'-', b'-') => Some(TokenKind::Decrement),
        _ => None,
    }
}

#[tactic(auto, unfolding(crate::specs::Kinds::operators_with_equals))]
fn before_equals(first: u8) -> Option<TokenKind>
    ensures { result ≡ kinds.before_equals first }
{
    match first {
        b'+' => Some(TokenKind::PlusAssign),
        b'-' => Some(TokenKind::MinusAssign),
        b'*' => Some(TokenKind::StarAssign),
        b'/' => Some(TokenKind::SlashAssign),
        b'%' => Some(TokenKind::PercentAssign),
        b'&' => Some(TokenKind::AndAssign),
        b'|' => Some(TokenKind::OrAssign),
        b'^' => Some(TokenKind::CaretAssign),
        b'=' => Some(TokenKind::Equal),
        b'!' => Some(TokenKind::NotEqual),
        b'<' => Some(TokenKind::LessEqual),
        b'>' => Some(TokenKind::GreaterEqual),
        b':' => Some(TokenKind::Define),
        _ => None,
    }
}

#[tactic(auto, unfolding(crate::specs::Kinds::operators_of_one))]
fn one_byte(first: u8) -> Option<TokenKind>
    ensures { result ≡ kinds.one_byte first }
{
    match first {
        b'+' => Some(TokenKind::Plus),
        b'-' => Some(TokenKind::Minus),
        b'*' => Some(TokenKind::Star),
        b'/' => Some(TokenKind::Slash),
        b'%' => Some(TokenKind::Percent),
        b'&' => Some(TokenKind::And),
        b'|' => Some(TokenKind::Or),
        b'^' => Some(TokenKind::Caret),
        b'<' => Some(TokenKind::Less),
        b'>' => Some(TokenKind::Greater),
        b'=' => Some(TokenKind::Assign),
        b'!' => Some(TokenKind::Not),
        b'~' => Some(TokenKind::Tilde),
        b'(' => Some(TokenKind::LeftParen),
        b')' => Some(TokenKind::RightParen),
        b'[' => Some(TokenKind::LeftBracket),
        b']' => Some(TokenKind::RightBracket),
        b'{' => Some(TokenKind::LeftBrace),
        b'}' => Some(TokenKind::RightBrace),
        b',' => Some(TokenKind::Comma),
        b'.' => Some(TokenKind::Period),
        b':' => Some(TokenKind::Colon),
        b';' => Some(TokenKind::Semicolon),
        _ => None,
    }
}
