// Whether a token comes next that begins the header of a `switch`.
ghost use Rattle.std.specs.Prelude.{◌≡◌};
ghost use Rattle.gno_grammar.specs.Readers.{begins};
ghost use Rattle.gno_rules.specs.Kinds.{code};
ghost use Rattle.gno_switches.specs.Beginnings.{SWITCH_HEADER};

use gno_reader::{Cursor, begins_expr};
use gno_scan::TokenKind;

/// The header of a `switch`.
#[tactic(auto, unfolding(gno_reader::proofs::Shown::reading), using(crate::proofs::Firsts::switch_header_begins))]
pub fn begins_switch_header(tokens: &Cursor<'_>) -> bool
    ensures { result ≡ begins code SWITCH_HEADER tokens.now }
{
    tokens.sees(TokenKind::Semicolon) || begins_expr(tokens)
}
