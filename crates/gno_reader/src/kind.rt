// The kinds of tokens by number, and the forms that are left out.
ghost use Rattle.std.specs.Prelude.{◌≡◌, [], ◌∷◌, Some};
ghost use Rattle.gno_grammar.specs.Readers.{why_form};
ghost use Rattle.gno_grammar.specs.Sets.{member};
ghost use Rattle.gno_rules.specs.Kinds as spec;

use gno_grammar::{LeftOut, Refusal};
use gno_scan::TokenKind;

/// The number of a kind.
fn number(kind: TokenKind) -> u8
    ensures { result ≡ spec.number kind }
{
    match kind {
        TokenKind::Name => 0,
        TokenKind::Integer => 1,
        TokenKind::Rune => 2,
        TokenKind::String => 3,
        TokenKind::Break => 4,
        TokenKind::Case => 5,
        TokenKind::Chan => 6,
        TokenKind::Const => 7,
        TokenKind::Continue => 8,
        TokenKind::Default => 9,
        TokenKind::Defer => 10,
        TokenKind::Else => 11,
        TokenKind::Fallthrough => 12,
        TokenKind::For => 13,
        TokenKind::Func => 14,
        TokenKind::Go => 15,
        TokenKind::Goto => 16,
        TokenKind::If => 17,
        TokenKind::Import => 18,
        TokenKind::Interface => 19,
        TokenKind::Map => 20,
        TokenKind::Package => 21,
        TokenKind::Range => 22,
        TokenKind::Return => 23,
        TokenKind::Select => 24,
        TokenKind::Struct => 25,
        TokenKind::Switch => 26,
        TokenKind::Type => 27,
        TokenKind::Var => 28,
        TokenKind::Plus => 29,
        TokenKind::Minus => 30,
        TokenKind::Star => 31,
        TokenKind::Slash => 32,
        TokenKind::Percent => 33,
        TokenKind::And => 34,
        TokenKind::Or => 35,
        TokenKind::Caret => 36,
        TokenKind::ShiftLeft => 37,
        TokenKind::ShiftRight => 38,
        TokenKind::AndNot => 39,
        TokenKind::PlusAssign => 40,
        TokenKind::MinusAssign => 41,
        TokenKind::StarAssign => 42,
        TokenKind::SlashAssign => 43,
        TokenKind::PercentAssign => 44,
        TokenKind::AndAssign => 45,
        TokenKind::OrAssign => 46,
        TokenKind::CaretAssign => 47,
        TokenKind::ShiftLeftAssign => 48,
        TokenKind::ShiftRightAssign => 49,
        TokenKind::AndNotAssign => 50,
        TokenKind::BothTrue => 51,
        TokenKind::OneTrue => 52,
        TokenKind::Arrow => 53,
        TokenKind::Increment => 54,
        TokenKind::Decrement => 55,
        TokenKind::Equal => 56,
        TokenKind::NotEqual => 57,
        TokenKind::Less => 58,
        TokenKind::LessEqual => 59,
        TokenKind::Greater => 60,
        TokenKind::GreaterEqual => 61,
        TokenKind::Assign => 62,
        TokenKind::Define => 63,
        TokenKind::Not => 64,
        TokenKind::Tilde => 65,
        TokenKind::Ellipsis => 66,
        TokenKind::LeftParen => 67,
        TokenKind::RightParen => 68,
        TokenKind::LeftBracket => 69,
        TokenKind::RightBracket => 70,
        TokenKind::LeftBrace => 71,
        TokenKind::RightBrace => 72,
        TokenKind::Comma => 73,
        TokenKind::Period => 74,
        TokenKind::Colon => 75,
        TokenKind::Semicolon => 76,
    }
}

/// Whether two kinds are one.
#[tactic(auto, unfolding(gno_grammar::specs::Sets::member))]
pub fn is_kind(kind: TokenKind, other: TokenKind) -> bool
    ensures { result ≡ member (spec.number kind) (spec.numbers (other ∷ [])) }
{
    number(kind) == number(other)
}

/// Whether a kind is one of these.
#[tactic(auto, unfolding(gno_grammar::specs::Sets::member))]
pub fn is_any(kind: TokenKind, kinds: &[TokenKind]) -> bool
    ensures { result ≡ member (spec.number kind) (spec.numbers kinds.now) }
{
    match kinds {
        [other, rest @ ..] => number(kind) == number(*other) || is_any(kind, rest),
        [] => false,
    }
}

/// Why a token of this kind is refused that begins nothing.
pub fn why(kind: TokenKind) -> Refusal
    ensures { result ≡ why_form (spec.form_of kind) }
{
    match kind {
        TokenKind::Go => left_out(LeftOut::Goroutine),
        TokenKind::Chan | TokenKind::Arrow => left_out(LeftOut::Channel),
        TokenKind::Select => left_out(LeftOut::Select),
        TokenKind::Goto => left_out(LeftOut::Goto),
        _ => Refusal::Unexpected,
    }
}

fn left_out(form: LeftOut) -> Refusal
    ensures { result ≡ why_form (Some form) }
{
    Refusal::LeftOut { form, begun: 0 }
}
