// The steps behind an operand.
ghost use Rattle.std.specs.Prelude.{◌≡◌};
ghost use Rattle.gno_reader.specs.Placed.{placed};
ghost use Rattle.gno_grammar.specs.Readers.{map};
ghost use Rattle.gno_reader.specs.Answers.{Gives};
ghost use Rattle.gno_reader.specs.Scope.{reads};
ghost use Rattle.gno_rules.specs.Expressions as spec;
ghost use Rattle.gno_rules.specs.Parts.{a, past, up_to};
ghost use Rattle.gno_rules.specs.declared.expression.Place.TheVariants.{Plain, Guard};
ghost use Rattle.gno_rules.specs.declared.types.TypeEnd.TheVariants.{Name as Named, Open};
ghost use Rattle.gno_scan.specs.declared.kind.TokenKind.TheVariants as k;

use gno_reader::{Cursor, Failure, Reader, construct, name};
use gno_rules::{Place, Shape, Suffix, TypeEnd};
use gno_scan::{Pos, TokenKind};
use gno_tree::Step;

/// `(type)`, behind a `.` at this place.
#[tactic(auto, unfolding(gno_reader::proofs::Shown::reading, gno_rules::specs::Expressions::asserted))]
fn assertion<R: Reader>(reader: &R, tokens: &mut Cursor<'_>, pos: Pos) -> Result<Suffix, Failure>
    requires { R.nests reader.now }
    ensures { Gives (map (placed pos) (reads (R.scope reader.now) (λ text. past (a k.LeftParen) (up_to (spec.asserted text Plain) (a k.RightParen)))) tokens.old) result tokens.new }
{
    tokens.expect(TokenKind::LeftParen)?;
    let read = construct::type_read(reader, tokens)?;
    tokens.expect(TokenKind::RightParen)?;
    Ok(Suffix::Step(Step::Assertion { pos, of: read.of }))
}

/// The same where `type` may stand in place of the type.
#[tactic(auto, unfolding(gno_reader::proofs::Shown::reading, gno_rules::specs::Expressions::asserted))]
fn guard_or_assertion<R: Reader>(
    reader: &R,
    tokens: &mut Cursor<'_>,
    pos: Pos,
) -> Result<Suffix, Failure>
    requires { R.nests reader.now }
    ensures { Gives (map (placed pos) (reads (R.scope reader.now) (λ text. past (a k.LeftParen) (up_to (spec.asserted text Guard) (a k.RightParen)))) tokens.old) result tokens.new }
{
    tokens.expect(TokenKind::LeftParen)?;
    if tokens.sees(TokenKind::Type) {
        tokens.expect(TokenKind::Type)?;
        tokens.expect(TokenKind::RightParen)?;
        return Ok(Suffix::Guard { pos });
    }
    let read = construct::type_read(reader, tokens)?;
    tokens.expect(TokenKind::RightParen)?;
    Ok(Suffix::Step(Step::Assertion { pos, of: read.of }))
}

/// What stands in parentheses behind a `.` at this place.
#[tactic(auto, unfolding(gno_rules::specs::Expressions::asserted))]
fn asserted<R: Reader>(
    reader: &R,
    tokens: &mut Cursor<'_>,
    place: Place,
    pos: Pos,
) -> Result<Suffix, Failure>
    requires { R.nests reader.now }
    ensures { Gives (map (placed pos) (reads (R.scope reader.now) (λ text. past (a k.LeftParen) (up_to (spec.asserted text place) (a k.RightParen)))) tokens.old) result tokens.new }
{
    match place {
        Place::Guard => guard_or_assertion(reader, tokens, pos),
        Place::Plain | Place::Header => assertion(reader, tokens, pos),
    }
}

/// `.name`, `.(type)`
#[tactic(auto, unfolding(gno_reader::proofs::Shown::reading, gno_rules::specs::Expressions::selector))]
fn selector<R: Reader>(reader: &R, tokens: &mut Cursor<'_>, place: Place) -> Result<Suffix, Failure>
    requires { R.nests reader.now }
    ensures { Gives (reads (R.scope reader.now) (λ text. spec.selector text place) tokens.old) result tokens.new }
{
    let pos = tokens.expect(TokenKind::Period)?.pos;
    if tokens.sees(TokenKind::LeftParen) {
        return asserted(reader, tokens, place, pos);
    }
    Ok(Suffix::Selector {
        pos,
        name: name::name(reader, tokens)?,
    })
}

/// `[index]`, `(arguments)`
#[tactic(auto, unfolding(gno_reader::proofs::Shown::reading, gno_rules::specs::Expressions::bracketed))]
fn bracketed<R: Reader>(reader: &R, tokens: &mut Cursor<'_>) -> Result<Suffix, Failure>
    requires { R.nests reader.now }
    ensures { Gives (reads (R.scope reader.now) spec.bracketed tokens.old) result tokens.new }
{
    if tokens.sees(TokenKind::LeftBracket) {
        return Ok(Suffix::Step(construct::index(reader, tokens)?));
    }
    Ok(Suffix::Step(construct::arguments(reader, tokens)?))
}

/// `{elements}`
#[tactic(auto, unfolding(gno_reader::proofs::Shown::reading, gno_rules::specs::Expressions::elements_suffix))]
fn elements_suffix<R: Reader>(reader: &R, tokens: &mut Cursor<'_>) -> Result<Suffix, Failure>
    requires { R.nests reader.now }
    ensures { Gives (reads (R.scope reader.now) spec.elements_suffix tokens.old) result tokens.new }
{
    Ok(Suffix::Elements(construct::elements(reader, tokens)?))
}

/// What may stand behind a value.
#[tactic(auto, unfolding(gno_reader::proofs::Shown::reading, gno_rules::specs::Expressions::value_suffix, gno_rules::specs::Expressions::selector))]
fn value_suffix<R: Reader>(
    reader: &R,
    tokens: &mut Cursor<'_>,
    place: Place,
) -> Result<Suffix, Failure>
    requires { R.nests reader.now }
    ensures { Gives (reads (R.scope reader.now) (λ text. spec.value_suffix text place) tokens.old) result tokens.new }
{
    if tokens.sees(TokenKind::Period) {
        return selector(reader, tokens, place);
    }
    bracketed(reader, tokens)
}

/// What may stand behind a value that may be a type.
#[tactic(auto, unfolding(gno_reader::proofs::Shown::reading, gno_rules::specs::Expressions::named_suffix, gno_rules::specs::Expressions::value_suffix, gno_rules::specs::Expressions::selector, gno_rules::specs::Expressions::bracketed))]
fn named_suffix<R: Reader>(reader: &R, tokens: &mut Cursor<'_>) -> Result<Suffix, Failure>
    requires { R.nests reader.now }
    ensures { Gives (reads (R.scope reader.now) spec.named_suffix tokens.old) result tokens.new }
{
    if tokens.sees_any(&[
        TokenKind::Period,
        TokenKind::LeftBracket,
        TokenKind::LeftParen,
    ]) {
        return value_suffix(reader, tokens, Place::Plain);
    }
    elements_suffix(reader, tokens)
}

/// What may stand behind a type that ends in a name.
#[tactic(auto, unfolding(gno_reader::proofs::Shown::reading, gno_rules::specs::Expressions::type_suffix, gno_rules::specs::Expressions::bracketed))]
fn named_type_suffix<R: Reader>(reader: &R, tokens: &mut Cursor<'_>) -> Result<Suffix, Failure>
    requires { R.nests reader.now }
    ensures { Gives (reads (R.scope reader.now) (λ text. spec.type_suffix text Named) tokens.old) result tokens.new }
{
    if tokens.sees_any(&[TokenKind::LeftBracket, TokenKind::LeftParen]) {
        return bracketed(reader, tokens);
    }
    elements_suffix(reader, tokens)
}

/// What may stand behind a type that ends in a signature without results.
#[tactic(auto, unfolding(gno_reader::proofs::Shown::reading, gno_rules::specs::Expressions::type_suffix, gno_rules::specs::Expressions::selector))]
fn open_type_suffix<R: Reader>(reader: &R, tokens: &mut Cursor<'_>) -> Result<Suffix, Failure>
    requires { R.nests reader.now }
    ensures { Gives (reads (R.scope reader.now) (λ text. spec.type_suffix text Open) tokens.old) result tokens.new }
{
    if tokens.sees(TokenKind::Period) {
        return selector(reader, tokens, Place::Plain);
    }
    elements_suffix(reader, tokens)
}

/// What may stand behind a type that ends so.
#[tactic(auto, unfolding(gno_rules::specs::Expressions::type_suffix))]
fn type_suffix<R: Reader>(
    reader: &R,
    tokens: &mut Cursor<'_>,
    end: TypeEnd,
) -> Result<Suffix, Failure>
    requires { R.nests reader.now }
    ensures { Gives (reads (R.scope reader.now) (λ text. spec.type_suffix text end) tokens.old) result tokens.new }
{
    match end {
        TypeEnd::Name => named_type_suffix(reader, tokens),
        TypeEnd::Closed => named_suffix(reader, tokens),
        TypeEnd::Open => open_type_suffix(reader, tokens),
    }
}

/// What may stand behind a function's type that ends so.
#[tactic(auto, unfolding(gno_rules::specs::Expressions::function_suffix))]
fn function_suffix<R: Reader>(
    reader: &R,
    tokens: &mut Cursor<'_>,
    end: TypeEnd,
) -> Result<Suffix, Failure>
    requires { R.nests reader.now }
    ensures { Gives (reads (R.scope reader.now) (λ text. spec.function_suffix text end) tokens.old) result tokens.new }
{
    match end {
        TypeEnd::Name => bracketed(reader, tokens),
        TypeEnd::Closed => value_suffix(reader, tokens, Place::Plain),
        TypeEnd::Open => selector(reader, tokens, Place::Plain),
    }
}

/// What may stand behind an operand of that shape in no header.
#[tactic(auto, unfolding(gno_rules::specs::Expressions::plain_suffix))]
fn plain_suffix<R: Reader>(
    reader: &R,
    tokens: &mut Cursor<'_>,
    shape: Shape,
) -> Result<Suffix, Failure>
    requires { R.nests reader.now }
    ensures { Gives (reads (R.scope reader.now) (λ text. spec.plain_suffix text shape) tokens.old) result tokens.new }
{
    match shape {
        Shape::Name | Shape::Qualified | Shape::Paren => named_suffix(reader, tokens),
        Shape::Type(end) => type_suffix(reader, tokens, end),
        Shape::Function(end) => function_suffix(reader, tokens, end),
        Shape::Pointer(_) | Shape::Other(_) | Shape::Guard => {
            value_suffix(reader, tokens, Place::Plain)
        }
    }
}

/// What may stand behind an operand of that shape.
#[tactic(auto, unfolding(gno_rules::specs::Expressions::suffix))]
pub fn suffix<R: Reader>(
    reader: &R,
    tokens: &mut Cursor<'_>,
    place: Place,
    shape: Shape,
) -> Result<Suffix, Failure>
    requires { R.nests reader.now }
    ensures { Gives (reads (R.scope reader.now) (λ text. spec.suffix text place shape) tokens.old) result tokens.new }
{
    match place {
        Place::Plain => plain_suffix(reader, tokens, shape),
        Place::Header | Place::Guard => value_suffix(reader, tokens, place),
    }
}
