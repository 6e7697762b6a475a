// Operands: what stands before the first step.
ghost use Rattle.std.specs.Prelude.{◌≡◌, false, IfOk};
ghost use Rattle.gno_grammar.specs.Phrases.{either};
ghost use Rattle.gno_reader.specs.Answers.{Gives};
ghost use Rattle.gno_reader.specs.Scope.{reads};
ghost use Rattle.gno_rules.specs.Expressions as spec;
ghost use Rattle.gno_rules.specs.declared.expression.Place.TheVariants.{Plain, Header};

use gno_base::{Boxed, List};
use gno_reader::{Cursor, Failure, Reader, construct, name};
use gno_rules::{Elements, Found, Operand, OperandType, Place, Shape, TypeEnd};
use gno_scan::TokenKind;
use gno_tree::Expr;
use std::alloc::{AllocError, Global};

/// A literal.
#[tactic(auto, unfolding(gno_reader::proofs::Shown::reading, gno_rules::specs::Expressions::literal))]
fn literal<R: Reader>(reader: &R, tokens: &mut Cursor<'_>) -> Result<Found, Failure>
    ensures { Gives (reads (R.scope reader.now) spec.literal tokens.old) result tokens.new }
{
    let token = tokens.expect_any(&[TokenKind::Integer, TokenKind::Rune, TokenKind::String])?;
    Ok(Found::other(Expr::Literal(name::literal_of(reader, token)?)))
}

/// A name.
#[tactic(auto, unfolding(gno_reader::proofs::Shown::reading, gno_rules::specs::Expressions::name_operand))]
fn name_operand<R: Reader>(reader: &R, tokens: &mut Cursor<'_>) -> Result<Found, Failure>
    ensures { Gives (reads (R.scope reader.now) spec.name_operand tokens.old) result tokens.new }
{
    Ok(Found::Name(name::name(reader, tokens)?))
}

/// A type with the elements that follow it.
fn composite(alloc: Global, of: OperandType, elements: Elements) -> Result<Found, AllocError>
    ensures { IfOk result (λ found. found ≡ spec.composite of elements) }
{
    let OperandType { of, .. } = of;
    let Elements { pos, elements } = elements;
    Ok(Found::other(Expr::Composite {
        of: Boxed::new(alloc, Expr::Type(of))?,
        pos,
        elements,
    }))
}

/// The elements behind a type.
#[tactic(auto, unfolding(gno_reader::proofs::Shown::reading, gno_rules::specs::Expressions::header_elements))]
fn header_elements<R: Reader>(
    reader: &R,
    tokens: &mut Cursor<'_>,
    of: OperandType,
) -> Result<Found, Failure>
    requires { R.nests reader.now }
    ensures { Gives (reads (R.scope reader.now) (λ text. spec.header_elements text of) tokens.old) result tokens.new }
{
    let elements = construct::elements(reader, tokens)?;
    Ok(composite(reader.alloc(), of, elements)?)
}

/// A type, with its elements where they follow or must follow.
#[tactic(auto, unfolding(gno_reader::proofs::Shown::reading, gno_rules::specs::Expressions::type_operand))]
fn type_operand<R: Reader>(reader: &R, tokens: &mut Cursor<'_>) -> Result<Found, Failure>
    requires { R.nests reader.now }
    ensures { Gives (reads (R.scope reader.now) spec.type_operand tokens.old) result tokens.new }
{
    let of = construct::operand_type(reader, tokens)?;
    if of.is_counted {
        let elements = construct::elements(reader, tokens)?;
        return Ok(composite(reader.alloc(), of, elements)?);
    }
    Ok(Found::Expr {
        expr: Expr::Type(of.of),
        shape: Shape::Type(of.end),
    })
}

/// What is converted to a type.
#[tactic(auto, unfolding(gno_reader::proofs::Shown::reading, gno_rules::specs::Expressions::conversion))]
fn conversion<R: Reader>(
    reader: &R,
    tokens: &mut Cursor<'_>,
    of: OperandType,
) -> Result<Found, Failure>
    requires { R.nests reader.now }
    ensures { Gives (reads (R.scope reader.now) (λ text. spec.conversion text of) tokens.old) result tokens.new }
{
    let mut steps = List::new(reader.alloc());
    steps.push(construct::arguments(reader, tokens)?)?;
    Ok(Found::Expr {
        expr: Expr::Primary {
            operand: Boxed::new(reader.alloc(), Expr::Type(of.of))?,
            steps,
        },
        shape: Shape::Other(TypeEnd::Closed),
    })
}

/// The elements of a type, or what is converted to it.
#[tactic(auto, unfolding(gno_reader::proofs::Shown::reading, gno_rules::specs::Expressions::header_elements))]
fn elements_or_conversion<R: Reader>(
    reader: &R,
    tokens: &mut Cursor<'_>,
    of: OperandType,
) -> Result<Found, Failure>
    requires { R.nests reader.now }
    ensures { Gives (reads (R.scope reader.now) (λ text. either (spec.header_elements text of) (spec.conversion text of)) tokens.old) result tokens.new }
{
    if tokens.sees(TokenKind::LeftBrace) {
        return header_elements(reader, tokens, of);
    }
    conversion(reader, tokens, of)
}

/// What stands behind a type in a header.
#[tactic(auto, unfolding(gno_reader::proofs::Shown::reading, gno_rules::specs::Expressions::behind_header_type))]
fn behind_header_type<R: Reader>(
    reader: &R,
    tokens: &mut Cursor<'_>,
    of: OperandType,
) -> Result<Found, Failure>
    requires { R.nests reader.now }
    ensures { Gives (reads (R.scope reader.now) (λ text. spec.behind_header_type text of.is_counted of.end of) tokens.old) result tokens.new }
{
    if of.is_counted {
        return header_elements(reader, tokens, of);
    }
    match of.end {
        TypeEnd::Open => header_elements(reader, tokens, of),
        TypeEnd::Closed | TypeEnd::Name => elements_or_conversion(reader, tokens, of),
    }
}

/// A type in a header.
#[tactic(auto, unfolding(gno_reader::proofs::Shown::reading, gno_rules::specs::Expressions::header_type))]
fn header_type<R: Reader>(reader: &R, tokens: &mut Cursor<'_>) -> Result<Found, Failure>
    requires { R.nests reader.now }
    ensures { Gives (reads (R.scope reader.now) spec.header_type tokens.old) result tokens.new }
{
    let of = construct::operand_type(reader, tokens)?;
    let found = behind_header_type(reader, tokens, of)?;
    Ok(found)
}

/// An operand in no header.
#[tactic(auto, unfolding(gno_reader::proofs::Shown::reading, gno_rules::specs::Parts::name, gno_rules::specs::Expressions::operand, gno_rules::specs::Expressions::literal, gno_rules::specs::Expressions::name_operand))]
fn plain_operand<R: Reader>(reader: &R, tokens: &mut Cursor<'_>) -> Result<Found, Failure>
    requires { R.nests reader.now }
    ensures { Gives (reads (R.scope reader.now) (λ text. spec.operand text Plain) tokens.old) result tokens.new }
{
    if tokens.sees_any(&[TokenKind::Integer, TokenKind::Rune, TokenKind::String]) {
        return literal(reader, tokens);
    }
    if tokens.sees(TokenKind::Name) {
        return name_operand(reader, tokens);
    }
    if tokens.sees(TokenKind::LeftParen) {
        return construct::paren(reader, tokens);
    }
    if tokens.sees(TokenKind::Func) {
        return construct::function(reader, tokens);
    }
    type_operand(reader, tokens)
}

/// An operand in a header.
#[tactic(auto, unfolding(gno_reader::proofs::Shown::reading, gno_rules::specs::Parts::name, gno_rules::specs::Expressions::operand, gno_rules::specs::Expressions::literal, gno_rules::specs::Expressions::name_operand))]
fn header_operand<R: Reader>(reader: &R, tokens: &mut Cursor<'_>) -> Result<Found, Failure>
    requires { R.nests reader.now }
    ensures { Gives (reads (R.scope reader.now) (λ text. spec.operand text Header) tokens.old) result tokens.new }
{
    if tokens.sees_any(&[TokenKind::Integer, TokenKind::Rune, TokenKind::String]) {
        return literal(reader, tokens);
    }
    if tokens.sees(TokenKind::Name) {
        return name_operand(reader, tokens);
    }
    if tokens.sees(TokenKind::LeftParen) {
        return construct::paren(reader, tokens);
    }
    if tokens.sees(TokenKind::Func) {
        return construct::header_function(reader, tokens);
    }
    header_type(reader, tokens)
}

/// An operand.
#[tactic(auto, unfolding(gno_rules::specs::Expressions::operand))]
fn operand<R: Reader>(reader: &R, tokens: &mut Cursor<'_>, place: Place) -> Result<Found, Failure>
    requires { R.nests reader.now }
    ensures { Gives (reads (R.scope reader.now) (λ text. spec.operand text place) tokens.old) result tokens.new }
{
    match place {
        Place::Plain => plain_operand(reader, tokens),
        Place::Header | Place::Guard => header_operand(reader, tokens),
    }
}

/// An operand, before any step.
#[tactic(auto, unfolding(gno_reader::proofs::Shown::reading, gno_rules::specs::Expressions::operand_alone))]
pub fn operand_alone<R: Reader>(
    reader: &R,
    tokens: &mut Cursor<'_>,
    place: Place,
) -> Result<Operand, Failure>
    requires { R.nests reader.now }
    ensures { Gives (reads (R.scope reader.now) (λ text. spec.operand_alone text place) tokens.old) result tokens.new }
{
    Ok(Operand::Alone(operand(reader, tokens, place)?))
}
