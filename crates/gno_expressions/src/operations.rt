// Operands with operators between them.
ghost use Rattle.std.specs.Prelude.{◌≡◌, ◌≤◌, ◌<◌};
ghost use Rattle.gno_reader.specs.Answers.{Gives};
ghost use Rattle.gno_reader.specs.Scope.{reads};
ghost use Rattle.gno_rules.specs.Expressions as spec;
ghost use Rattle.gno_grammar.specs.Readers.{map};
ghost use Rattle.gno_rules.specs.Shapes.{end_of, shape_of_operands, with_operation as with_one};
ghost use Rattle.gno_expressions.specs.Turn.{turn, level as level_of};

use crate::operators::{goes_on, operator};
use crate::primary::unary;
use gno_reader::{Cursor, Failure, Reader};
use gno_rules::{Found, Operands, Place};

/// The operands with an operator of that level and one more operand.
#[cycle(operations)]
#[tactic(auto, unfolding(gno_reader::proofs::Shown::reading))]
fn with_operation<R: Reader>(
    reader: &R,
    tokens: &mut Cursor<'_>,
    place: Place,
    level: u8,
    operands: Operands,
) -> Result<Operands, Failure>
    requires nests { R.nests reader.now }
    requires bounded { level < 5 }
    ensures { Gives (map (with_one operands) (reads (R.scope reader.now) (λ text. turn text place level (end_of (shape_of_operands operands)))) tokens.old) result tokens.new }
{
    let end = operands.shape().end();
    let token = operator(tokens, end, level)?;
    let operand = operations(reader, tokens, place.within(), level)?;
    let operands = operands.with_operation(token, operand)?;
    Ok(operands)
}

/// Operands with operators of that level between them.
#[cycle(operations)]
#[tactic(auto, unfolding(gno_reader::proofs::Shown::reading))]
fn operands<R: Reader>(
    reader: &R,
    tokens: &mut Cursor<'_>,
    place: Place,
    level: u8,
) -> Result<Operands, Failure>
    requires nests { R.nests reader.now }
    requires bounded { level < 5 }
    ensures { Gives (reads (R.scope reader.now) (λ text. level_of text place level) tokens.old) result tokens.new }
{
    let first = operations(reader, tokens, place, level)?;
    let mut operands = Operands::new(reader.alloc(), first);
    while goes_on(tokens, &operands, level) {
        operands = with_operation(reader, tokens, place, level, operands)?;
    }
    Ok(operands)
}

/// Operands with operators of so many levels between them.
#[cycle(operations)]
#[tactic(auto, unfolding(gno_reader::proofs::Shown::reading, gno_rules::specs::Expressions::operations))]
fn operations<R: Reader>(
    reader: &R,
    tokens: &mut Cursor<'_>,
    place: Place,
    levels: u8,
) -> Result<Found, Failure>
    requires nests { R.nests reader.now }
    requires bounded { levels ≤ 5 }
    ensures { Gives (reads (R.scope reader.now) (λ text. spec.operations text place levels) tokens.old) result tokens.new }
{
    if levels == 0 {
        return unary(reader, tokens, place);
    }
    let operands = operands(reader, tokens, place, levels - 1)?;
    let found = operands.into_found(reader.alloc())?;
    Ok(found)
}

/// An expression.
#[tactic(auto, unfolding(gno_rules::specs::Expressions::expr))]
pub fn expr<R: Reader>(reader: &R, tokens: &mut Cursor<'_>, place: Place) -> Result<Found, Failure>
    requires { R.nests reader.now }
    ensures { Gives (reads (R.scope reader.now) (λ text. spec.expr text place) tokens.old) result tokens.new }
{
    operations(reader, tokens, place, 5)
}
