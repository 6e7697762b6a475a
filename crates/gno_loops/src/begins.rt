// Whether a token comes next that begins the header of a `for`.
ghost use Rattle.std.specs.Prelude.{◌≡◌};
ghost use Rattle.gno_grammar.specs.Readers.{begins};
ghost use Rattle.gno_rules.specs.Kinds.{code};
ghost use Rattle.gno_loops.specs.Beginnings.{FOR_HEADER};

use gno_reader::{Cursor, begins_expr};
use gno_scan::TokenKind;

/// The header of a `for`.
#[tactic(auto, unfolding(gno_reader::proofs::Shown::reading), using(crate::proofs::Firsts::loop_header_begins))]
pub fn begins_for_header(tokens: &Cursor<'_>) -> bool
    ensures { result ≡ begins code FOR_HEADER tokens.now }
{
    tokens.sees_any(&[TokenKind::Range, TokenKind::Semicolon]) || begins_expr(tokens)
}
