// Types.
ghost use Rattle.std.specs.Prelude.{◌≡◌};
ghost use Rattle.gno_grammar.specs.Phrases.{both};
ghost use Rattle.gno_reader.specs.Answers.{Gives};
ghost use Rattle.gno_reader.specs.Scope.{reads};
ghost use Rattle.gno_rules.specs.Parts.{a};
ghost use Rattle.gno_rules.specs.Types as spec;
ghost use Rattle.gno_scan.specs.declared.kind.TokenKind.TheVariants as k;

use crate::built::{built, function, map, of_length, pointer};
use crate::field::structure;
use crate::left_out::left_out;
use crate::member::interface;
use gno_base::Boxed;
use gno_grammar::LeftOut;
use gno_reader::type_name::type_by_name;
use gno_reader::{Cursor, ExprReader, Failure, Reader, construct};
use gno_rules::{Found, Length, Place, TypeEnd, TypeRead};
use gno_scan::{Pos, Token, TokenKind};
use gno_tree::TypeExpr;

/// `(type)`
#[tactic(auto, unfolding(gno_reader::proofs::Shown::reading, gno_rules::specs::Types::paren_type))]
fn paren_type<R: Reader>(reader: &R, tokens: &mut Cursor<'_>) -> Result<TypeRead, Failure>
    requires { R.nests reader.now }
    ensures { Gives (reads (R.scope reader.now) spec.paren_type tokens.old) result tokens.new }
{
    let token = tokens.expect(TokenKind::LeftParen)?;
    let TypeRead { of, .. } = construct::type_read(reader, tokens)?;
    let inner = Boxed::new(reader.alloc(), of)?;
    tokens.expect(TokenKind::RightParen)?;
    Ok(TypeRead {
        of: TypeExpr::Paren {
            pos: token.pos,
            inner,
        },
        end: TypeEnd::Closed,
    })
}

/// A type that does not begin with a parenthesis.
#[tactic(auto, unfolding(gno_reader::proofs::Shown::reading, gno_rules::specs::Parts::name, gno_rules::specs::Signatures::type_by_name, gno_rules::specs::Types::result_type))]
pub fn result_type<R: ExprReader>(reader: &R, tokens: &mut Cursor<'_>) -> Result<TypeRead, Failure>
    requires { R.nests reader.now }
    ensures { Gives (reads (R.scope reader.now) spec.result_type tokens.old) result tokens.new }
{
    if tokens.sees(TokenKind::Name) {
        return type_by_name(reader, tokens);
    }
    built(reader, tokens)
}

/// A type that does not begin with a name.
#[tactic(auto, unfolding(gno_reader::proofs::Shown::reading, gno_rules::specs::Types::other_type, gno_rules::specs::Types::paren_type))]
pub fn other_type<R: ExprReader>(reader: &R, tokens: &mut Cursor<'_>) -> Result<TypeRead, Failure>
    requires { R.nests reader.now }
    ensures { Gives (reads (R.scope reader.now) spec.other_type tokens.old) result tokens.new }
{
    if tokens.sees(TokenKind::LeftParen) {
        return paren_type(reader, tokens);
    }
    built(reader, tokens)
}

/// A type.
#[tactic(auto, unfolding(gno_reader::proofs::Shown::reading, gno_rules::specs::Parts::name, gno_rules::specs::Signatures::type_by_name, crate::proofs::Shown::any_type))]
pub fn type_read<R: ExprReader>(reader: &R, tokens: &mut Cursor<'_>) -> Result<TypeRead, Failure>
    requires { R.nests reader.now }
    ensures { Gives (reads (R.scope reader.now) spec.type tokens.old) result tokens.new }
{
    if tokens.sees(TokenKind::Name) {
        return type_by_name(reader, tokens);
    }
    other_type(reader, tokens)
}

// ---- the type of a declaration

/// `]` behind the length of the type of a declaration. Behind a name the parameters of a generic type may go on.
#[tactic(auto, unfolding(gno_reader::proofs::Shown::reading, gno_rules::specs::Types::length_end, gno_rules::specs::Types::no_parameter))]
fn length_end<R: Reader>(
    reader: &R,
    tokens: &mut Cursor<'_>,
    length: &Found,
) -> Result<Token, Failure>
    ensures { Gives (reads (R.scope reader.now) (λ text. spec.length_end text length.now) tokens.old) result tokens.new }
{
    match length {
        Found::Name(_) => {
            if tokens.sees_any(&[TokenKind::Name, TokenKind::Comma, TokenKind::Interface]) {
                return Err(left_out(LeftOut::Generics, 2));
            }
            tokens.expect(TokenKind::RightBracket)
        }
        Found::Expr { .. } | Found::Guard { .. } => tokens.expect(TokenKind::RightBracket),
    }
}

/// `]`, `length]`
#[tactic(auto, unfolding(gno_reader::proofs::Shown::reading, gno_rules::specs::Types::declared_length))]
fn declared_length<R: ExprReader>(reader: &R, tokens: &mut Cursor<'_>) -> Result<Length, Failure>
    requires { R.nests reader.now }
    ensures { Gives (reads (R.scope reader.now) spec.declared_length tokens.old) result tokens.new }
{
    if tokens.sees(TokenKind::RightBracket) {
        tokens.expect(TokenKind::RightBracket)?;
        return Ok(Length::Nothing);
    }
    let length = reader.expr(tokens, Place::Plain)?;
    length_end(reader, tokens, &length)?;
    Ok(Length::Expr(length.into_expr()))
}

/// `[]`, `[length]`, with the place of its `[`
#[tactic(auto, unfolding(gno_reader::proofs::Shown::reading))]
fn declared_bracket<R: ExprReader>(
    reader: &R,
    tokens: &mut Cursor<'_>,
) -> Result<(Pos, Length), Failure>
    requires { R.nests reader.now }
    ensures { Gives (reads (R.scope reader.now) (λ text. both (λ t length. (t.pos, length)) (a k.LeftBracket) (spec.declared_length text)) tokens.old) result tokens.new }
{
    let token = tokens.expect(TokenKind::LeftBracket)?;
    let length = declared_length(reader, tokens)?;
    Ok((token.pos, length))
}

/// `[]type`, `[length]type`
#[tactic(auto, unfolding(gno_reader::proofs::Shown::reading, gno_rules::specs::Types::declared_array))]
fn declared_array<R: ExprReader>(reader: &R, tokens: &mut Cursor<'_>) -> Result<TypeRead, Failure>
    requires { R.nests reader.now }
    ensures { Gives (reads (R.scope reader.now) spec.declared_array tokens.old) result tokens.new }
{
    let (pos, length) = declared_bracket(reader, tokens)?;
    let TypeRead { of, end } = construct::type_read(reader, tokens)?;
    let of = of_length(reader.alloc(), pos, length, of)?;
    Ok(TypeRead { of, end })
}

/// The type of a declaration.
#[tactic(auto, unfolding(gno_reader::proofs::Shown::reading, gno_rules::specs::Parts::name, gno_rules::specs::Signatures::type_by_name, gno_rules::specs::Types::declared_type, gno_rules::specs::Types::paren_type, gno_rules::specs::Types::pointer, gno_rules::specs::Types::declared_array, gno_rules::specs::Types::map, gno_rules::specs::Types::map_key, gno_rules::specs::Types::function, crate::proofs::Shown::structure))]
pub fn declared_type<R: ExprReader>(
    reader: &R,
    tokens: &mut Cursor<'_>,
) -> Result<TypeRead, Failure>
    requires { R.nests reader.now }
    ensures { Gives (reads (R.scope reader.now) spec.declared_type tokens.old) result tokens.new }
{
    if tokens.sees(TokenKind::Name) {
        return type_by_name(reader, tokens);
    }
    if tokens.sees(TokenKind::LeftParen) {
        return paren_type(reader, tokens);
    }
    if tokens.sees(TokenKind::Star) {
        return pointer(reader, tokens);
    }
    if tokens.sees(TokenKind::LeftBracket) {
        return declared_array(reader, tokens);
    }
    if tokens.sees(TokenKind::Map) {
        return map(reader, tokens);
    }
    if tokens.sees(TokenKind::Func) {
        return function(reader, tokens);
    }
    if tokens.sees(TokenKind::Struct) {
        return structure(reader, tokens);
    }
    interface(reader, tokens)
}
