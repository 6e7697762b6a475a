// Phrases that are one expression.
ghost use Rattle.std.specs.Prelude.{◌≡◌};
ghost use Rattle.gno_reader.specs.Answers.{Gives};
ghost use Rattle.gno_reader.specs.Scope.{reads};
ghost use Rattle.gno_rules.specs.Expressions as expressions;
ghost use Rattle.gno_rules.specs.Statements as spec;

use crate::{Cursor, ExprReader, Failure};
use gno_rules::Place;
use gno_scan::TokenKind;
use gno_tree::Expr;

/// An expression that stands in no header.
#[tactic(auto, unfolding(crate::proofs::Shown::reading, gno_rules::specs::Expressions::plain_expr))]
pub fn plain_expr<R: ExprReader>(reader: &R, tokens: &mut Cursor<'_>) -> Result<Expr, Failure>
    requires { R.nests reader.now }
    ensures { Gives (reads (R.scope reader.now) expressions.plain_expr tokens.old) result tokens.new }
{
    let found = reader.expr(tokens, Place::Plain)?;
    Ok(found.into_expr())
}

/// A condition.
#[tactic(auto, unfolding(crate::proofs::Shown::reading, gno_rules::specs::Statements::condition))]
pub fn condition<R: ExprReader>(reader: &R, tokens: &mut Cursor<'_>) -> Result<Expr, Failure>
    requires { R.nests reader.now }
    ensures { Gives (reads (R.scope reader.now) spec.condition tokens.old) result tokens.new }
{
    let found = reader.expr(tokens, Place::Header)?;
    Ok(found.into_expr())
}

/// `range expression`
#[tactic(auto, unfolding(crate::proofs::Shown::reading, gno_rules::specs::Statements::range_of))]
pub fn range_of<R: ExprReader>(reader: &R, tokens: &mut Cursor<'_>) -> Result<Expr, Failure>
    requires { R.nests reader.now }
    ensures { Gives (reads (R.scope reader.now) spec.range_of tokens.old) result tokens.new }
{
    tokens.expect(TokenKind::Range)?;
    let found = reader.expr(tokens, Place::Header)?;
    Ok(found.into_expr())
}
