// Names of types.
ghost use Rattle.std.specs.Prelude.{◌≡◌};
ghost use Rattle.gno_grammar.specs.Phrases.{optional};
ghost use Rattle.gno_reader.specs.Answers.{Gives};
ghost use Rattle.gno_reader.specs.Scope.{reads};
ghost use Rattle.gno_rules.specs.Parts as part;
ghost use Rattle.gno_rules.specs.Signatures as spec;

use crate::name::{dotted, name};
use crate::{Cursor, Failure, Reader};
use gno_rules::{TypeEnd, TypeRead, qualified};
use gno_scan::TokenKind;
use gno_tree::{Name, TypeExpr, TypeName};

/// `.name`, or nothing
#[tactic(auto, unfolding(crate::proofs::Shown::reading, gno_rules::specs::Parts::dotted))]
fn member<R: Reader>(reader: &R, tokens: &mut Cursor<'_>) -> Result<Option<Name>, Failure>
    ensures { Gives (reads (R.scope reader.now) (λ text. optional (part.dotted text)) tokens.old) result tokens.new }
{
    if tokens.sees(TokenKind::Period) {
        return Ok(Some(dotted(reader, tokens)?));
    }
    Ok(None)
}

/// `name`, `package.name`
#[tactic(auto, unfolding(crate::proofs::Shown::reading, gno_rules::specs::Signatures::type_name))]
pub fn type_name<R: Reader>(reader: &R, tokens: &mut Cursor<'_>) -> Result<TypeName, Failure>
    ensures { Gives (reads (R.scope reader.now) spec.type_name tokens.old) result tokens.new }
{
    let first = name(reader, tokens)?;
    let member = member(reader, tokens)?;
    Ok(qualified(first, member))
}

fn end_of_name(member: &Option<Name>) -> TypeEnd
    ensures { result ≡ spec.end_of_name member.now }
{
    match member {
        Some(_) => TypeEnd::Closed,
        None => TypeEnd::Name,
    }
}

/// The same as a type.
#[tactic(auto, unfolding(crate::proofs::Shown::reading, gno_rules::specs::Signatures::type_by_name))]
pub fn type_by_name<R: Reader>(reader: &R, tokens: &mut Cursor<'_>) -> Result<TypeRead, Failure>
    ensures { Gives (reads (R.scope reader.now) spec.type_by_name tokens.old) result tokens.new }
{
    let first = name(reader, tokens)?;
    let member = member(reader, tokens)?;
    let end = end_of_name(&member);
    Ok(TypeRead {
        of: TypeExpr::Name(qualified(first, member)),
        end,
    })
}
