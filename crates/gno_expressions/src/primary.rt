// An operand with its steps, and with the operators before it.
ghost use Rattle.std.specs.Prelude.{◌≡◌, [], ◌&&◌, not};
ghost use Rattle.gno_grammar.specs.Phrases.{follow};
ghost use Rattle.gno_grammar.specs.Readers.{begins, first, map};
ghost use Rattle.gno_reader.specs.Answers.{Gives};
ghost use Rattle.gno_reader.specs.Scope.{reads};
ghost use Rattle.gno_rules.specs.Expressions as spec;
ghost use Rattle.gno_rules.specs.Kinds.{code};
ghost use Rattle.gno_rules.specs.Parts.{any};
ghost use Rattle.gno_rules.specs.Shapes.{UNARY, EXPRESSION, MOST, is_guard, prefixed, shape_of_operand, with_suffix};
ghost use Rattle.gno_rules.specs.Table.{grammar};

use gno_operands::{operand_alone, suffix};
use gno_reader::{Cursor, Failure, Reader, begins_suffix_of, construct};
use gno_rules::{Found, Operand, Place, prefixed};
use gno_scan::TokenKind;

/// Whether a step follows.
fn goes_on(tokens: &Cursor<'_>, place: Place, operand: &Operand) -> bool
    ensures { result ≡ (not (is_guard (shape_of_operand operand.now)) && begins code (first (grammar []) (spec.suffix [] place (shape_of_operand operand.now))) tokens.now) }
{
    let shape = operand.shape();
    !shape.is_guard() && begins_suffix_of(tokens, place, shape)
}

/// The operand with the step that follows.
fn step<R: Reader>(
    reader: &R,
    tokens: &mut Cursor<'_>,
    place: Place,
    operand: Operand,
) -> Result<Operand, Failure>
    requires { R.nests reader.now }
    ensures { Gives (map (with_suffix operand) (reads (R.scope reader.now) (λ text. spec.suffix text place (shape_of_operand operand))) tokens.old) result tokens.new }
{
    let shape = operand.shape();
    let suffix = suffix(reader, tokens, place, shape)?;
    let operand = operand.with_suffix(reader.alloc(), suffix)?;
    Ok(operand)
}

/// An operand with its steps.
#[tactic(auto, unfolding(gno_reader::proofs::Shown::reading, gno_rules::specs::Expressions::stepped))]
fn stepped<R: Reader>(reader: &R, tokens: &mut Cursor<'_>, place: Place) -> Result<Operand, Failure>
    requires { R.nests reader.now }
    ensures { Gives (reads (R.scope reader.now) (λ text. spec.stepped text place) tokens.old) result tokens.new }
{
    let mut operand = operand_alone(reader, tokens, place)?;
    while goes_on(tokens, place, &operand) {
        operand = step(reader, tokens, place, operand)?;
    }
    Ok(operand)
}

/// An operand with its steps, as an expression.
#[tactic(auto, unfolding(gno_reader::proofs::Shown::reading, gno_rules::specs::Expressions::primary))]
fn primary<R: Reader>(reader: &R, tokens: &mut Cursor<'_>, place: Place) -> Result<Found, Failure>
    requires { R.nests reader.now }
    ensures { Gives (reads (R.scope reader.now) (λ text. spec.primary text place) tokens.old) result tokens.new }
{
    let operand = stepped(reader, tokens, place)?;
    Ok(operand.into_found(reader.alloc())?)
}

/// The operand of an operator before it.
#[tactic(auto, unfolding(gno_reader::proofs::Shown::reading))]
fn unary_operand<R: Reader>(
    reader: &R,
    tokens: &mut Cursor<'_>,
    place: Place,
) -> Result<Found, Failure>
    requires { R.nests reader.now }
    ensures { Gives (reads (R.scope reader.now) (λ text. spec.unary_operand text place) tokens.old) result tokens.new }
{
    match place {
        Place::Plain => construct::unary(reader, tokens),
        Place::Header | Place::Guard => construct::header_unary(reader, tokens),
    }
}

/// An operator and its operand.
#[tactic(auto, unfolding(gno_reader::proofs::Shown::reading))]
fn prefixed_operand<R: Reader>(
    reader: &R,
    tokens: &mut Cursor<'_>,
    place: Place,
) -> Result<Found, Failure>
    requires { R.nests reader.now }
    ensures { Gives (reads (R.scope reader.now) (λ text. follow (spec.found_more place 0) (MOST place 0) EXPRESSION prefixed (any UNARY) (λ _. spec.unary_operand text place)) tokens.old) result tokens.new }
{
    let operator = tokens.expect_any(&[
        TokenKind::Plus,
        TokenKind::Minus,
        TokenKind::Not,
        TokenKind::Caret,
        TokenKind::Star,
        TokenKind::And,
    ])?;
    let operand = unary_operand(reader, tokens, place)?;
    Ok(prefixed(reader.alloc(), operator, operand)?)
}

/// An operand with its steps and the operators before it.
#[tactic(auto, unfolding(gno_reader::proofs::Shown::reading, gno_rules::specs::Expressions::unary))]
pub fn unary<R: Reader>(reader: &R, tokens: &mut Cursor<'_>, place: Place) -> Result<Found, Failure>
    requires { R.nests reader.now }
    ensures { Gives (reads (R.scope reader.now) (λ text. spec.unary text place) tokens.old) result tokens.new }
{
    if tokens.sees_any(&[
        TokenKind::Plus,
        TokenKind::Minus,
        TokenKind::Not,
        TokenKind::Caret,
        TokenKind::Star,
        TokenKind::And,
    ]) {
        return prefixed_operand(reader, tokens, place);
    }
    primary(reader, tokens, place)
}
