// What begins a step.
ghost use Rattle.std.specs.Prelude.{◌≡◌, []};
ghost use Rattle.gno_grammar.specs.Readers.{begins, first};
ghost use Rattle.gno_rules.specs.Expressions as spec;
ghost use Rattle.gno_rules.specs.Kinds.{code};
ghost use Rattle.gno_rules.specs.Shapes.{SUFFIX};
ghost use Rattle.gno_rules.specs.Table.{grammar};

use crate::Cursor;
use gno_rules::{Place, Shape, TypeEnd};
use gno_scan::TokenKind;

/// Whether one of the kinds comes next that begin a step behind some operand there.
#[tactic(auto, unfolding(crate::proofs::Shown::reading))]
fn begins_suffix(tokens: &Cursor<'_>, place: Place) -> bool
    ensures { result ≡ begins code (SUFFIX place) tokens.now }
{
    match place {
        Place::Plain => tokens.sees_any(&[
            TokenKind::Period,
            TokenKind::LeftBracket,
            TokenKind::LeftParen,
            TokenKind::LeftBrace,
        ]),
        Place::Header | Place::Guard => tokens.sees_any(&[
            TokenKind::Period,
            TokenKind::LeftBracket,
            TokenKind::LeftParen,
        ]),
    }
}

/// Whether a step begins here, behind a type that ends so.
#[tactic(auto, unfolding(crate::proofs::Shown::reading, crate::proofs::Shown::steps))]
fn begins_type_suffix(tokens: &Cursor<'_>, end: TypeEnd) -> bool
    ensures { result ≡ begins code (first (grammar []) (spec.type_suffix [] end)) tokens.now }
{
    match end {
        TypeEnd::Name => tokens.sees_any(&[
            TokenKind::LeftBracket,
            TokenKind::LeftParen,
            TokenKind::LeftBrace,
        ]),
        TypeEnd::Closed => tokens.sees_any(&[
            TokenKind::Period,
            TokenKind::LeftBracket,
            TokenKind::LeftParen,
            TokenKind::LeftBrace,
        ]),
        TypeEnd::Open => tokens.sees_any(&[TokenKind::Period, TokenKind::LeftBrace]),
    }
}

/// Whether a step begins here, behind a function's type that ends so.
#[tactic(auto, unfolding(crate::proofs::Shown::reading, crate::proofs::Shown::steps))]
fn begins_function_suffix(tokens: &Cursor<'_>, end: TypeEnd) -> bool
    ensures { result ≡ begins code (first (grammar []) (spec.function_suffix [] end)) tokens.now }
{
    match end {
        TypeEnd::Name => tokens.sees_any(&[TokenKind::LeftBracket, TokenKind::LeftParen]),
        TypeEnd::Closed => tokens.sees_any(&[
            TokenKind::Period,
            TokenKind::LeftBracket,
            TokenKind::LeftParen,
        ]),
        TypeEnd::Open => tokens.sees(TokenKind::Period),
    }
}

/// Whether a step begins here, behind an operand of that shape in no header.
#[tactic(auto, unfolding(crate::proofs::Shown::reading, crate::proofs::Shown::steps))]
fn begins_plain_suffix(tokens: &Cursor<'_>, shape: Shape) -> bool
    ensures { result ≡ begins code (first (grammar []) (spec.plain_suffix [] shape)) tokens.now }
{
    match shape {
        Shape::Name | Shape::Qualified | Shape::Paren => begins_suffix(tokens, Place::Plain),
        Shape::Type(end) => begins_type_suffix(tokens, end),
        Shape::Function(end) => begins_function_suffix(tokens, end),
        Shape::Pointer(_) | Shape::Other(_) | Shape::Guard => tokens.sees_any(&[
            TokenKind::Period,
            TokenKind::LeftBracket,
            TokenKind::LeftParen,
        ]),
    }
}

/// Whether a step begins here, behind an operand of that shape.
#[tactic(auto, unfolding(crate::proofs::Shown::reading, crate::proofs::Shown::steps))]
pub fn begins_suffix_of(tokens: &Cursor<'_>, place: Place, shape: Shape) -> bool
    ensures { result ≡ begins code (first (grammar []) (spec.suffix [] place shape)) tokens.now }
{
    match place {
        Place::Plain => begins_plain_suffix(tokens, shape),
        Place::Header | Place::Guard => begins_suffix(tokens, place),
    }
}
