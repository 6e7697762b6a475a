// Functions that are operands.
ghost use Rattle.std.specs.Prelude.{◌≡◌};
ghost use Rattle.gno_reader.specs.Answers.{Gives};
ghost use Rattle.gno_reader.specs.Scope.{reads};
ghost use Rattle.gno_rules.specs.Expressions as spec;

use gno_reader::{Cursor, ExprReader, Failure, construct};
use gno_rules::{Found, Shape, SignatureRead};
use gno_scan::{Pos, TokenKind};
use gno_tree::{Expr, TypeExpr};

/// `func` and a signature.
#[tactic(auto, unfolding(gno_reader::proofs::Shown::reading, gno_rules::specs::Expressions::function_head))]
fn function_head<R: ExprReader>(
    reader: &R,
    tokens: &mut Cursor<'_>,
) -> Result<(Pos, SignatureRead), Failure>
    requires { R.nests reader.now }
    ensures { Gives (reads (R.scope reader.now) spec.function_head tokens.old) result tokens.new }
{
    let pos = tokens.expect(TokenKind::Func)?.pos;
    let read = reader.signature(tokens)?;
    Ok((pos, read))
}

/// A function, or the type of one.
#[tactic(auto, unfolding(gno_reader::proofs::Shown::reading, gno_rules::specs::Expressions::function))]
pub fn function<R: ExprReader>(reader: &R, tokens: &mut Cursor<'_>) -> Result<Found, Failure>
    requires { R.nests reader.now }
    ensures { Gives (reads (R.scope reader.now) spec.function tokens.old) result tokens.new }
{
    let (pos, read) = function_head(reader, tokens)?;
    let SignatureRead { signature, end } = read;
    if tokens.sees(TokenKind::LeftBrace) {
        let body = construct::block(reader, tokens)?;
        return Ok(Found::other(Expr::Function {
            pos,
            signature,
            body,
        }));
    }
    Ok(Found::Expr {
        expr: Expr::Type(TypeExpr::Function { pos, signature }),
        shape: Shape::Function(end),
    })
}

/// A function in a header.
#[tactic(auto, unfolding(gno_reader::proofs::Shown::reading, gno_rules::specs::Expressions::header_function))]
pub fn header_function<R: ExprReader>(reader: &R, tokens: &mut Cursor<'_>) -> Result<Found, Failure>
    requires { R.nests reader.now }
    ensures { Gives (reads (R.scope reader.now) spec.header_function tokens.old) result tokens.new }
{
    let (pos, read) = function_head(reader, tokens)?;
    let body = construct::block(reader, tokens)?;
    Ok(Found::other(Expr::Function {
        pos,
        signature: read.signature,
        body,
    }))
}
