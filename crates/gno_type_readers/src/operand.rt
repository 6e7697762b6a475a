// Types that are operands.
ghost use Rattle.std.specs.Prelude.{◌≡◌};
ghost use Rattle.gno_grammar.specs.Phrases.{both, either};
ghost use Rattle.gno_reader.specs.Answers.{Gives};
ghost use Rattle.gno_reader.specs.Scope.{reads};
ghost use Rattle.gno_rules.specs.Parts.{a};
ghost use Rattle.gno_rules.specs.Types as spec;
ghost use Rattle.gno_scan.specs.declared.kind.TokenKind.TheVariants as k;

use crate::built::{length, map, of_length};
use crate::field::structure;
use crate::member::interface;
use gno_reader::{Cursor, ExprReader, Failure, construct};
use gno_rules::{Length, OperandType, TypeRead};
use gno_scan::{Pos, TokenKind};

/// `]`, `length]`, `...]`
#[tactic(auto, unfolding(gno_reader::proofs::Shown::reading, gno_rules::specs::Types::operand_length))]
fn operand_length<R: ExprReader>(reader: &R, tokens: &mut Cursor<'_>) -> Result<Length, Failure>
    requires { R.nests reader.now }
    ensures { Gives (reads (R.scope reader.now) spec.operand_length tokens.old) result tokens.new }
{
    if tokens.sees(TokenKind::Ellipsis) {
        tokens.expect(TokenKind::Ellipsis)?;
        tokens.expect(TokenKind::RightBracket)?;
        return Ok(Length::Elements);
    }
    length(reader, tokens)
}

/// `[]`, `[length]`, `[...]`, with the place of its `[`
#[tactic(auto, unfolding(gno_reader::proofs::Shown::reading))]
fn operand_bracket<R: ExprReader>(
    reader: &R,
    tokens: &mut Cursor<'_>,
) -> Result<(Pos, Length), Failure>
    requires { R.nests reader.now }
    ensures { Gives (reads (R.scope reader.now) (λ text. both (λ t length. (t.pos, length)) (a k.LeftBracket) (spec.operand_length text)) tokens.old) result tokens.new }
{
    let token = tokens.expect(TokenKind::LeftBracket)?;
    let length = operand_length(reader, tokens)?;
    Ok((token.pos, length))
}

/// Whether the elements give the length.
fn is_counted(length: &Length) -> bool
    ensures { result ≡ spec.is_counted length.now }
{
    matches!(length, Length::Elements)
}

/// `[]type`, `[length]type`, `[...]type`
#[tactic(auto, unfolding(gno_reader::proofs::Shown::reading, gno_rules::specs::Types::array_operand))]
fn array_operand<R: ExprReader>(reader: &R, tokens: &mut Cursor<'_>) -> Result<OperandType, Failure>
    requires { R.nests reader.now }
    ensures { Gives (reads (R.scope reader.now) spec.array_operand tokens.old) result tokens.new }
{
    let (pos, length) = operand_bracket(reader, tokens)?;
    let is_counted = is_counted(&length);
    let TypeRead { of, end } = construct::type_read(reader, tokens)?;
    let of = of_length(reader.alloc(), pos, length, of)?;
    Ok(OperandType {
        of,
        end,
        is_counted,
    })
}

/// A map, a struct or an interface.
#[tactic(auto, unfolding(gno_reader::proofs::Shown::reading, gno_rules::specs::Types::map, gno_rules::specs::Types::map_key, crate::proofs::Shown::structure))]
fn built_operand<R: ExprReader>(reader: &R, tokens: &mut Cursor<'_>) -> Result<TypeRead, Failure>
    requires { R.nests reader.now }
    ensures { Gives (reads (R.scope reader.now) (λ text. either (spec.map text) (either (spec.struct text) (spec.interface text))) tokens.old) result tokens.new }
{
    if tokens.sees(TokenKind::Map) {
        return map(reader, tokens);
    }
    if tokens.sees(TokenKind::Struct) {
        return structure(reader, tokens);
    }
    interface(reader, tokens)
}

/// A type that is an operand.
#[tactic(auto, unfolding(gno_reader::proofs::Shown::reading, gno_rules::specs::Types::type_operand, gno_rules::specs::Types::array_operand))]
pub fn type_operand<R: ExprReader>(
    reader: &R,
    tokens: &mut Cursor<'_>,
) -> Result<OperandType, Failure>
    requires { R.nests reader.now }
    ensures { Gives (reads (R.scope reader.now) spec.type_operand tokens.old) result tokens.new }
{
    if tokens.sees(TokenKind::LeftBracket) {
        return array_operand(reader, tokens);
    }
    let TypeRead { of, end } = built_operand(reader, tokens)?;
    Ok(OperandType {
        of,
        end,
        is_counted: false,
    })
}
