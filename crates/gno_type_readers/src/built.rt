// Types that begin with neither a name nor a parenthesis.
ghost use Rattle.std.specs.Prelude.{◌≡◌, IfOk};
ghost use Rattle.gno_reader.specs.Answers.{Gives};
ghost use Rattle.gno_reader.specs.Scope.{reads};
ghost use Rattle.gno_rules.specs.Types as spec;

use crate::field::structure;
use crate::member::interface;
use gno_base::Boxed;
use gno_reader::{Cursor, ExprReader, Failure, Reader, construct};
use gno_rules::{Length, Place, SignatureRead, TypeRead};
use gno_scan::{Pos, TokenKind};
use gno_tree::{ArrayLength, TypeExpr};
use std::alloc::{AllocError, Global};

/// `*type`
#[tactic(auto, unfolding(gno_reader::proofs::Shown::reading, gno_rules::specs::Types::pointer))]
pub fn pointer<R: Reader>(reader: &R, tokens: &mut Cursor<'_>) -> Result<TypeRead, Failure>
    requires { R.nests reader.now }
    ensures { Gives (reads (R.scope reader.now) spec.pointer tokens.old) result tokens.new }
{
    let token = tokens.expect(TokenKind::Star)?;
    let TypeRead { of, end } = construct::type_read(reader, tokens)?;
    let to = Boxed::new(reader.alloc(), of)?;
    let of = TypeExpr::Pointer { pos: token.pos, to };
    Ok(TypeRead { of, end })
}

// ---- slices and arrays

/// `]`, `length]`
#[tactic(auto, unfolding(gno_reader::proofs::Shown::reading, gno_rules::specs::Types::length))]
pub fn length<R: ExprReader>(reader: &R, tokens: &mut Cursor<'_>) -> Result<Length, Failure>
    requires { R.nests reader.now }
    ensures { Gives (reads (R.scope reader.now) spec.length tokens.old) result tokens.new }
{
    if tokens.sees(TokenKind::RightBracket) {
        tokens.expect(TokenKind::RightBracket)?;
        return Ok(Length::Nothing);
    }
    let found = reader.expr(tokens, Place::Plain)?;
    tokens.expect(TokenKind::RightBracket)?;
    Ok(Length::Expr(found.into_expr()))
}

/// `[]`, `[length]`, with the place of its `[`
#[tactic(auto, unfolding(gno_reader::proofs::Shown::reading, gno_rules::specs::Types::bracket))]
fn bracket<R: ExprReader>(reader: &R, tokens: &mut Cursor<'_>) -> Result<(Pos, Length), Failure>
    requires { R.nests reader.now }
    ensures { Gives (reads (R.scope reader.now) spec.bracket tokens.old) result tokens.new }
{
    let token = tokens.expect(TokenKind::LeftBracket)?;
    let length = length(reader, tokens)?;
    Ok((token.pos, length))
}

/// A slice or an array.
pub fn of_length(
    alloc: Global,
    pos: Pos,
    length: Length,
    element: TypeExpr,
) -> Result<TypeExpr, AllocError>
    ensures { IfOk result (λ of. of ≡ spec.of_length pos length element) }
{
    let element = Boxed::new(alloc, element)?;
    match length {
        Length::Nothing => Ok(TypeExpr::Slice { pos, element }),
        Length::Expr(expr) => {
            let length = ArrayLength::Expr(Boxed::new(alloc, expr)?);
            Ok(TypeExpr::Array {
                pos,
                length,
                element,
            })
        }
        Length::Elements => Ok(TypeExpr::Array {
            pos,
            length: ArrayLength::Elements,
            element,
        }),
    }
}

/// `[]type`, `[length]type`
#[tactic(auto, unfolding(gno_reader::proofs::Shown::reading, gno_rules::specs::Types::array))]
fn array<R: ExprReader>(reader: &R, tokens: &mut Cursor<'_>) -> Result<TypeRead, Failure>
    requires { R.nests reader.now }
    ensures { Gives (reads (R.scope reader.now) spec.array tokens.old) result tokens.new }
{
    let (pos, length) = bracket(reader, tokens)?;
    let TypeRead { of, end } = construct::type_read(reader, tokens)?;
    let of = of_length(reader.alloc(), pos, length, of)?;
    Ok(TypeRead { of, end })
}

// ---- maps and functions

/// `map[key]`, with the place of its `map`
#[tactic(auto, unfolding(gno_reader::proofs::Shown::reading, gno_rules::specs::Types::map_key))]
fn map_key<R: Reader>(
    reader: &R,
    tokens: &mut Cursor<'_>,
) -> Result<(Pos, Boxed<TypeExpr>), Failure>
    requires { R.nests reader.now }
    ensures { Gives (reads (R.scope reader.now) spec.map_key tokens.old) result tokens.new }
{
    let token = tokens.expect(TokenKind::Map)?;
    tokens.expect(TokenKind::LeftBracket)?;
    let TypeRead { of, .. } = construct::type_read(reader, tokens)?;
    let key = Boxed::new(reader.alloc(), of)?;
    tokens.expect(TokenKind::RightBracket)?;
    Ok((token.pos, key))
}

/// `map[key]value`
#[tactic(auto, unfolding(gno_reader::proofs::Shown::reading, gno_rules::specs::Types::map))]
pub fn map<R: Reader>(reader: &R, tokens: &mut Cursor<'_>) -> Result<TypeRead, Failure>
    requires { R.nests reader.now }
    ensures { Gives (reads (R.scope reader.now) spec.map tokens.old) result tokens.new }
{
    let (pos, key) = map_key(reader, tokens)?;
    let TypeRead { of, end } = construct::type_read(reader, tokens)?;
    let value = Boxed::new(reader.alloc(), of)?;
    let of = TypeExpr::Map { pos, key, value };
    Ok(TypeRead { of, end })
}

/// `func(parameters) results`
#[tactic(auto, unfolding(gno_reader::proofs::Shown::reading, gno_rules::specs::Types::function))]
pub fn function<R: ExprReader>(reader: &R, tokens: &mut Cursor<'_>) -> Result<TypeRead, Failure>
    requires { R.nests reader.now }
    ensures { Gives (reads (R.scope reader.now) spec.function tokens.old) result tokens.new }
{
    let token = tokens.expect(TokenKind::Func)?;
    let SignatureRead { signature, end } = reader.signature(tokens)?;
    let of = TypeExpr::Function {
        pos: token.pos,
        signature,
    };
    Ok(TypeRead { of, end })
}

// ---- all of them

/// A type that begins with neither a name nor a parenthesis.
#[tactic(auto, unfolding(gno_reader::proofs::Shown::reading, gno_rules::specs::Types::built, gno_rules::specs::Types::pointer, gno_rules::specs::Types::array, gno_rules::specs::Types::bracket, gno_rules::specs::Types::map, gno_rules::specs::Types::map_key, gno_rules::specs::Types::function, crate::proofs::Shown::structure))]
pub fn built<R: ExprReader>(reader: &R, tokens: &mut Cursor<'_>) -> Result<TypeRead, Failure>
    requires { R.nests reader.now }
    ensures { Gives (reads (R.scope reader.now) spec.built tokens.old) result tokens.new }
{
    if tokens.sees(TokenKind::Star) {
        return pointer(reader, tokens);
    }
    if tokens.sees(TokenKind::LeftBracket) {
        return array(reader, tokens);
    }
    if tokens.sees(TokenKind::Map) {
        return map(reader, tokens);
    }
    if tokens.sees(TokenKind::Func) {
        return function(reader, tokens);
    }
    if tokens.sees(TokenKind::Struct) {
        return structure(reader, tokens);
    }
    interface(reader, tokens)
}
