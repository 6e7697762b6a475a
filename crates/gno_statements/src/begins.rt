// Whether a token comes next that begins a statement.
ghost use Rattle.std.specs.Prelude.{◌≡◌};
ghost use Rattle.gno_grammar.specs.Readers.{begins};
ghost use Rattle.gno_rules.specs.Kinds.{code};
ghost use Rattle.gno_statements.specs.Beginnings.{KEYWORD, STATEMENT};

use gno_reader::{Cursor, begins_expr};
use gno_scan::TokenKind;

/// A statement that begins with a keyword, or with `{`.
#[tactic(auto, unfolding(gno_reader::proofs::Shown::reading))]
pub fn begins_keyword_statement(tokens: &Cursor<'_>) -> bool
    ensures { result ≡ begins code KEYWORD tokens.now }
{
    tokens.sees_any(&[
        TokenKind::Const,
        TokenKind::Type,
        TokenKind::Var,
        TokenKind::LeftBrace,
        TokenKind::If,
        TokenKind::Switch,
        TokenKind::For,
        TokenKind::Return,
        TokenKind::Break,
        TokenKind::Continue,
        TokenKind::Fallthrough,
        TokenKind::Defer,
    ])
}

/// A statement.
#[tactic(auto, unfolding(gno_reader::proofs::Shown::reading), using(crate::proofs::Firsts::any_statement_begins))]
pub fn begins_statement(tokens: &Cursor<'_>) -> bool
    ensures { result ≡ begins code STATEMENT tokens.now }
{
    begins_keyword_statement(tokens) || begins_expr(tokens)
}
