// The arguments of a call.
ghost use Rattle.gno_reader.specs.Answers.{Gives};
ghost use Rattle.gno_reader.specs.Scope.{reads};
ghost use Rattle.gno_rules.specs.Expressions as spec;
ghost use Rattle.gno_rules.specs.Parts.{listed as listed_by};
ghost use Rattle.gno_scan.specs.declared.kind.TokenKind.TheVariants as k;

use gno_base::List;
use gno_reader::list::listed;
use gno_reader::phrase::plain_expr;
use gno_reader::{Cursor, ExprReader, Failure, Reader, plain_expr_kinds};
use gno_scan::TokenKind;
use gno_tree::{Expr, Step};

/// One argument or more; the flag says that a comma stands behind the last one.
fn listed_arguments<R: ExprReader>(
    reader: &R,
    tokens: &mut Cursor<'_>,
) -> Result<(List<Expr>, bool), Failure>
    requires { R.nests reader.now }
    ensures { Gives (reads (R.scope reader.now) (λ text. listed_by k.Comma (spec.plain_expr text)) tokens.old) result tokens.new }
{
    let begin = plain_expr_kinds();
    let argument = |tokens: &mut Cursor<'_>| plain_expr(reader, tokens);
    listed(reader.alloc(), tokens, TokenKind::Comma, begin, &argument)
}

/// `...`, `...,`, or nothing; none where a comma stands last.
#[tactic(auto, unfolding(gno_reader::proofs::Shown::reading, gno_rules::specs::Expressions::spread))]
fn spread<R: Reader>(_reader: &R, tokens: &mut Cursor<'_>, is_ended: bool) -> Result<bool, Failure>
    ensures { Gives (reads (R.scope _reader.now) (λ text. spec.spread text is_ended) tokens.old) result tokens.new }
{
    if is_ended {
        return Ok(false);
    }
    if !tokens.sees(TokenKind::Ellipsis) {
        return Ok(false);
    }
    tokens.expect(TokenKind::Ellipsis)?;
    if tokens.sees(TokenKind::Comma) {
        tokens.expect(TokenKind::Comma)?;
    }
    Ok(true)
}

/// One argument or more, and whether `...` stands behind the last one.
#[tactic(auto, unfolding(gno_reader::proofs::Shown::reading, gno_rules::specs::Expressions::argument_list))]
fn argument_list<R: ExprReader>(
    reader: &R,
    tokens: &mut Cursor<'_>,
) -> Result<(List<Expr>, bool), Failure>
    requires { R.nests reader.now }
    ensures { Gives (reads (R.scope reader.now) spec.argument_list tokens.old) result tokens.new }
{
    let (arguments, is_ended) = listed_arguments(reader, tokens)?;
    let is_spread = spread(reader, tokens, is_ended)?;
    Ok((arguments, is_spread))
}

/// `(arguments)`
#[tactic(auto, unfolding(gno_reader::proofs::Shown::reading, gno_rules::specs::Expressions::arguments))]
pub fn arguments<R: ExprReader>(reader: &R, tokens: &mut Cursor<'_>) -> Result<Step, Failure>
    requires { R.nests reader.now }
    ensures { Gives (reads (R.scope reader.now) spec.arguments tokens.old) result tokens.new }
{
    let pos = tokens.expect(TokenKind::LeftParen)?.pos;
    if tokens.sees(TokenKind::RightParen) {
        tokens.expect(TokenKind::RightParen)?;
        return Ok(Step::Call {
            pos,
            arguments: List::new(reader.alloc()),
            spread: false,
        });
    }
    let (arguments, spread) = argument_list(reader, tokens)?;
    tokens.expect(TokenKind::RightParen)?;
    Ok(Step::Call {
        pos,
        arguments,
        spread,
    })
}
