// Lists of expressions.
ghost use Rattle.std.specs.Prelude.{◌≡◌, ◌&&◌, [], ◌∷◌, not};
ghost use Rattle.gno_grammar.specs.Readers.{map};
ghost use Rattle.gno_reader.specs.Answers.{Gives, sees};
ghost use Rattle.gno_reader.specs.Scope.{reads};
ghost use Rattle.gno_rules.specs.Expressions as spec;
ghost use Rattle.gno_rules.specs.Parts.{a, to, past};
ghost use Rattle.gno_rules.specs.Shapes.{expr_of, with_expr, within_place};
ghost use Rattle.gno_scan.specs.declared.kind.TokenKind.TheVariants as k;

use gno_base::List;
use gno_reader::{Cursor, ExprReader, Failure};
use gno_rules::{Exprs, Found, Place};
use gno_scan::TokenKind;
use gno_tree::Expr;

/// Whether a further expression follows.
fn goes_on(tokens: &Cursor<'_>, exprs: &Exprs) -> bool
    ensures { result ≡ (not (spec.is_guarded exprs.now) && sees (k.Comma ∷ []) tokens.now) }
{
    !exprs.first.shape().is_guard() && tokens.sees(TokenKind::Comma)
}

/// `, expression`
#[tactic(auto, unfolding(gno_reader::proofs::Shown::reading))]
fn further_expr<R: ExprReader>(
    reader: &R,
    tokens: &mut Cursor<'_>,
    place: Place,
) -> Result<Found, Failure>
    requires { R.nests reader.now }
    ensures { Gives (reads (R.scope reader.now) (λ text. past (a k.Comma) (spec.expr text (within_place place))) tokens.old) result tokens.new }
{
    tokens.expect(TokenKind::Comma)?;
    let found = reader.expr(tokens, place.within())?;
    Ok(found)
}

/// The expressions with the one that follows.
fn with_further<R: ExprReader>(
    reader: &R,
    tokens: &mut Cursor<'_>,
    place: Place,
    exprs: Exprs,
) -> Result<Exprs, Failure>
    requires { R.nests reader.now }
    ensures { Gives (map (with_expr exprs) (reads (R.scope reader.now) (λ text. past (a k.Comma) (spec.expr text (within_place place)))) tokens.old) result tokens.new }
{
    let found = further_expr(reader, tokens, place)?;
    let exprs = exprs.with(found)?;
    Ok(exprs)
}

/// One expression or more, with commas between them.
#[tactic(auto, unfolding(gno_reader::proofs::Shown::reading, gno_rules::specs::Expressions::exprs))]
pub fn exprs<R: ExprReader>(
    reader: &R,
    tokens: &mut Cursor<'_>,
    place: Place,
) -> Result<Exprs, Failure>
    requires { R.nests reader.now }
    ensures { Gives (reads (R.scope reader.now) (λ text. spec.exprs text place) tokens.old) result tokens.new }
{
    let first = reader.expr(tokens, place)?;
    let mut exprs = Exprs::new(reader.alloc(), first);
    while goes_on(tokens, &exprs) {
        exprs = with_further(reader, tokens, place, exprs)?;
    }
    Ok(exprs)
}

/// A value: an expression behind which no guard stands.
#[tactic(auto, unfolding(gno_reader::proofs::Shown::reading))]
fn value<R: ExprReader>(reader: &R, tokens: &mut Cursor<'_>, place: Place) -> Result<Expr, Failure>
    requires { R.nests reader.now }
    ensures { Gives (reads (R.scope reader.now) (λ text. to expr_of (spec.expr text (within_place place))) tokens.old) result tokens.new }
{
    let found = reader.expr(tokens, place.within())?;
    Ok(found.into_expr())
}

/// `, value`
#[tactic(auto, unfolding(gno_reader::proofs::Shown::reading))]
fn further_value<R: ExprReader>(
    reader: &R,
    tokens: &mut Cursor<'_>,
    place: Place,
) -> Result<Expr, Failure>
    requires { R.nests reader.now }
    ensures { Gives (reads (R.scope reader.now) (λ text. past (a k.Comma) (to expr_of (spec.expr text (within_place place)))) tokens.old) result tokens.new }
{
    tokens.expect(TokenKind::Comma)?;
    let expr = value(reader, tokens, place)?;
    Ok(expr)
}

/// One value or more, with commas between them.
#[tactic(auto, unfolding(gno_reader::proofs::Shown::reading, gno_rules::specs::Expressions::values))]
pub fn values<R: ExprReader>(
    reader: &R,
    tokens: &mut Cursor<'_>,
    place: Place,
) -> Result<List<Expr>, Failure>
    requires { R.nests reader.now }
    ensures { Gives (reads (R.scope reader.now) (λ text. spec.values text place) tokens.old) result tokens.new }
{
    let mut values = List::new(reader.alloc());
    values.push(value(reader, tokens, place)?)?;
    while tokens.sees(TokenKind::Comma) {
        values.push(further_value(reader, tokens, place)?)?;
    }
    Ok(values)
}
