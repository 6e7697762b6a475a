// What begins an expression, and what begins a type.
ghost use Rattle.std.specs.Prelude.{◌≡◌, []};
ghost use Rattle.gno_grammar.specs.Readers.{begins, first};
ghost use Rattle.gno_rules.specs.Expressions as expressions;
ghost use Rattle.gno_rules.specs.Kinds.{code, numbers};
ghost use Rattle.gno_rules.specs.Shapes.{EXPRESSION};
ghost use Rattle.gno_rules.specs.Signatures.{RESULT};
ghost use Rattle.gno_rules.specs.Table.{first_of, grammar};
ghost use Rattle.gno_rules.specs.declared.rule.Rule.TheVariants as r;

use crate::Cursor;
use gno_scan::TokenKind;

static PLAIN_EXPR: [TokenKind; 16] = [
    TokenKind::Plus,
    TokenKind::Minus,
    TokenKind::Not,
    TokenKind::Caret,
    TokenKind::Star,
    TokenKind::And,
    TokenKind::Integer,
    TokenKind::Rune,
    TokenKind::String,
    TokenKind::Name,
    TokenKind::LeftParen,
    TokenKind::Func,
    TokenKind::LeftBracket,
    TokenKind::Map,
    TokenKind::Struct,
    TokenKind::Interface,
];

/// Whether an expression begins here.
#[tactic(auto, unfolding(crate::proofs::Shown::reading))]
pub fn begins_expr(tokens: &Cursor<'_>) -> bool
    ensures { result ≡ begins code EXPRESSION tokens.now }
{
    tokens.sees_any(&[
        TokenKind::Plus,
        TokenKind::Minus,
        TokenKind::Not,
        TokenKind::Caret,
        TokenKind::Star,
        TokenKind::And,
        TokenKind::Integer,
        TokenKind::Rune,
        TokenKind::String,
        TokenKind::Name,
        TokenKind::LeftParen,
        TokenKind::LeftBracket,
        TokenKind::Map,
        TokenKind::Func,
        TokenKind::Struct,
        TokenKind::Interface,
    ])
}

/// The kinds that begin an expression in no header, in the order of what it is read as.
#[tactic(auto, unfolding(crate::proofs::Shown::reading, crate::proofs::Shown::beginnings))]
pub fn plain_expr_kinds() -> &'static [TokenKind]
    ensures { numbers result.now ≡ first (grammar []) (expressions.plain_expr []) }
{
    &PLAIN_EXPR
}

/// Whether an expression begins here that stands in no header.
#[tactic(auto, unfolding(crate::proofs::Shown::reading))]
pub fn begins_plain_expr(tokens: &Cursor<'_>) -> bool
    ensures { result ≡ begins code (first (grammar []) (expressions.plain_expr [])) tokens.now }
{
    tokens.sees_any(plain_expr_kinds())
}

/// Whether a type comes next.
#[tactic(auto, unfolding(crate::proofs::Shown::reading))]
pub fn begins_type(tokens: &Cursor<'_>) -> bool
    ensures { result ≡ begins code RESULT tokens.now }
{
    tokens.sees_any(&[
        TokenKind::Name,
        TokenKind::LeftParen,
        TokenKind::Star,
        TokenKind::LeftBracket,
        TokenKind::Map,
        TokenKind::Func,
        TokenKind::Struct,
        TokenKind::Interface,
    ])
}

/// Whether a type comes next that does not begin with a name.
#[tactic(auto, unfolding(crate::proofs::Shown::reading))]
pub fn begins_other_type(tokens: &Cursor<'_>) -> bool
    ensures { result ≡ begins code (first_of r.OtherType) tokens.now }
{
    tokens.sees_any(&[
        TokenKind::LeftParen,
        TokenKind::Star,
        TokenKind::LeftBracket,
        TokenKind::Map,
        TokenKind::Func,
        TokenKind::Struct,
        TokenKind::Interface,
    ])
}
