// Simple statements.
ghost use Rattle.std.specs.Prelude.{◌≡◌};
ghost use Rattle.gno_reader.specs.Answers.{Gives};
ghost use Rattle.gno_reader.specs.Scope.{reads};
ghost use Rattle.gno_rules.specs.Statements as spec;

use crate::left::left_of;
use crate::operator::place_of;
use crate::simple_value::simple_read;
use crate::tail::simple_tail;
use gno_reader::{Cursor, Failure, ListReader};
use gno_rules::{Kind, SimpleRead};

/// A simple statement, or what else may stand at its place.
#[tactic(auto, unfolding(gno_reader::proofs::Shown::reading, gno_rules::specs::Statements::simple_statements))]
pub fn simple_statements<R: ListReader>(
    reader: &R,
    tokens: &mut Cursor<'_>,
    place: Kind,
) -> Result<SimpleRead, Failure>
    requires { R.nests reader.now }
    ensures { Gives (reads (R.scope reader.now) (λ text. spec.simple_statements text place) tokens.old) result tokens.new }
{
    let left = reader.exprs(tokens, place_of(place))?;
    let behind = left_of(&left);
    let tail = simple_tail(reader, tokens, place, behind)?;
    Ok(simple_read(reader.alloc(), left, tail)?)
}
