// What parentheses and brackets hold.
ghost use Rattle.std.specs.Prelude.{◌≡◌, IfOk, Option, Some, None};
ghost use Rattle.gno_grammar.specs.Phrases.{both, optional};
ghost use Rattle.gno_reader.specs.Placed.{placed};
ghost use Rattle.gno_grammar.specs.Readers.{map};
ghost use Rattle.gno_reader.specs.Answers.{Gives};
ghost use Rattle.gno_reader.specs.Scope.{reads};
ghost use Rattle.gno_rules.specs.Expressions as spec;
ghost use Rattle.gno_rules.specs.Parts.{a, to, past, up_to};
ghost use Rattle.gno_scan.specs.declared.kind.TokenKind.TheVariants as k;

use gno_base::Boxed;
use gno_reader::phrase::plain_expr;
use gno_reader::{Cursor, ExprReader, Failure, begins_plain_expr};
use gno_rules::{Found, Place, Shape, TypeEnd};
use gno_scan::{Pos, Token, TokenKind};
use gno_tree::{Expr, Step};
use std::alloc::{AllocError, Global};

/// An expression in parentheses, of which that is the first.
fn paren_found(alloc: Global, token: Token, found: Found) -> Result<Found, AllocError>
    ensures { IfOk result (λ paren. paren ≡ spec.paren_found token found) }
{
    let shape = if found.shape().may_be_type() {
        Shape::Paren
    } else {
        Shape::Other(TypeEnd::Closed)
    };
    Ok(Found::Expr {
        expr: Expr::Paren {
            pos: token.pos,
            inner: Boxed::new(alloc, found.into_expr())?,
        },
        shape,
    })
}

/// `(expression)`
#[tactic(auto, unfolding(gno_reader::proofs::Shown::reading, gno_rules::specs::Expressions::paren))]
pub fn paren<R: ExprReader>(reader: &R, tokens: &mut Cursor<'_>) -> Result<Found, Failure>
    requires { R.nests reader.now }
    ensures { Gives (reads (R.scope reader.now) spec.paren tokens.old) result tokens.new }
{
    let token = tokens.expect(TokenKind::LeftParen)?;
    let found = reader.expr(tokens, Place::Plain)?;
    let paren = paren_found(reader.alloc(), token, found)?;
    tokens.expect(TokenKind::RightParen)?;
    Ok(paren)
}

/// An expression on the heap.
#[tactic(auto, unfolding(gno_reader::proofs::Shown::reading))]
fn boxed_expr<R: ExprReader>(reader: &R, tokens: &mut Cursor<'_>) -> Result<Boxed<Expr>, Failure>
    requires { R.nests reader.now }
    ensures { Gives (reads (R.scope reader.now) spec.plain_expr tokens.old) result tokens.new }
{
    let expr = plain_expr(reader, tokens)?;
    Ok(Boxed::new(reader.alloc(), expr)?)
}

/// `high`, `high:max`
#[tactic(auto, unfolding(gno_reader::proofs::Shown::reading))]
fn high_and_max<R: ExprReader>(
    reader: &R,
    tokens: &mut Cursor<'_>,
) -> Result<(Boxed<Expr>, Option<Boxed<Expr>>), Failure>
    requires { R.nests reader.now }
    ensures { Gives (reads (R.scope reader.now) (λ text. both (λ high max. (high, max)) (spec.plain_expr text) (optional (past (a k.Colon) (spec.plain_expr text)))) tokens.old) result tokens.new }
{
    let high = boxed_expr(reader, tokens)?;
    if tokens.sees(TokenKind::Colon) {
        tokens.expect(TokenKind::Colon)?;
        let max = boxed_expr(reader, tokens)?;
        return Ok((high, Some(max)));
    }
    Ok((high, None))
}

/// `:`, `:high`, `:high:max`
#[tactic(auto, unfolding(gno_reader::proofs::Shown::reading, gno_reader::proofs::Shown::beginnings, gno_rules::specs::Expressions::slice_bounds))]
fn slice_bounds<R: ExprReader>(
    reader: &R,
    tokens: &mut Cursor<'_>,
) -> Result<(Option<Boxed<Expr>>, Option<Boxed<Expr>>), Failure>
    requires { R.nests reader.now }
    ensures { Gives (reads (R.scope reader.now) spec.slice_bounds tokens.old) result tokens.new }
{
    tokens.expect(TokenKind::Colon)?;
    if begins_plain_expr(tokens) {
        let (high, max) = high_and_max(reader, tokens)?;
        return Ok((Some(high), max));
    }
    Ok((None, None))
}

/// A slice from the beginning, behind its `[`: `:high]`, `:high:max]`
#[tactic(auto, unfolding(gno_reader::proofs::Shown::reading))]
fn slice_from_start<R: ExprReader>(
    reader: &R,
    tokens: &mut Cursor<'_>,
    pos: Pos,
) -> Result<Step, Failure>
    requires { R.nests reader.now }
    ensures { Gives (map (placed pos) (reads (R.scope reader.now) (λ text. up_to (to (λ bounds pos. spec.slice None pos bounds) (spec.slice_bounds text)) (a k.RightBracket))) tokens.old) result tokens.new }
{
    let (high, max) = slice_bounds(reader, tokens)?;
    tokens.expect(TokenKind::RightBracket)?;
    Ok(Step::Slice {
        pos,
        low: None,
        high,
        max,
    })
}

/// An index, or a slice from `low`, behind its `[`: `low]`, `low:high]`, `low:high:max]`
#[tactic(auto, unfolding(gno_reader::proofs::Shown::reading, gno_rules::specs::Expressions::low_step, gno_rules::specs::Expressions::slice_bounds))]
fn index_or_slice<R: ExprReader>(
    reader: &R,
    tokens: &mut Cursor<'_>,
    pos: Pos,
) -> Result<Step, Failure>
    requires { R.nests reader.now }
    ensures { Gives (map (placed pos) (reads (R.scope reader.now) (λ text. up_to (spec.low_step text) (a k.RightBracket))) tokens.old) result tokens.new }
{
    let low = boxed_expr(reader, tokens)?;
    if tokens.sees(TokenKind::Colon) {
        let (high, max) = slice_bounds(reader, tokens)?;
        tokens.expect(TokenKind::RightBracket)?;
        return Ok(Step::Slice {
            pos,
            low: Some(low),
            high,
            max,
        });
    }
    tokens.expect(TokenKind::RightBracket)?;
    Ok(Step::Index { pos, index: low })
}

/// `[index]`, `[low:high]`, `[low:high:max]`
#[tactic(auto, unfolding(gno_reader::proofs::Shown::reading, gno_rules::specs::Expressions::index, gno_rules::specs::Expressions::slice_bounds))]
pub fn index<R: ExprReader>(reader: &R, tokens: &mut Cursor<'_>) -> Result<Step, Failure>
    requires { R.nests reader.now }
    ensures { Gives (reads (R.scope reader.now) spec.index tokens.old) result tokens.new }
{
    let pos = tokens.expect(TokenKind::LeftBracket)?.pos;
    if tokens.sees(TokenKind::Colon) {
        return slice_from_start(reader, tokens, pos);
    }
    index_or_slice(reader, tokens, pos)
}
