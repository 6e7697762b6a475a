// The type that has a text.
ghost use Rattle.std.specs.Prelude.{◌≡◌, ◌↔◌, None, IfOk, IfSome, IsTrue};
ghost use Rattle.gno_terms.specs.declared.term.GoType.{GoType};
ghost use Rattle.gno_terms.specs.Tables.{Grows, Is};
ghost use Rattle.gno_type_reading.specs.TypeTexts.{IsTypeText};

use crate::guess::guess;
use gno_base::Bytes;
use gno_terms::TypeRef;
use gno_type_table::TypeTable;
use gno_type_texts::type_text;
use std::alloc::{AllocError, Global};

/// The type that has this text, over types that are defined; `None` where no type has it. The type is read in one pass, and its text
/// compared with this one. Types nest without limit. Takes about linear time.
pub fn read_text(
    alloc: Global,
    types: &mut TypeTable,
    text: &[u8],
) -> Result<Option<TypeRef>, AllocError>
    ensures some { IfOk result (λ it. IfSome it (λ t. (s : GoType) × Is types.new t s × IsTypeText types.old text.now s)) }
    ensures none { IfOk result (λ it. it ≡ None → (s : GoType) → IsTypeText types.old text.now s → ⊥) }
    ensures grows { Grows types.old types.new }
    ensures definitions { types.new.definitions ≡ types.old.definitions }
{
    let Some(t) = guess(alloc, types, text)? else {
        return Ok(None);
    };
    types.types_are_lawful();
    let own = type_text(alloc, types, t)?;
    if is_text(&own, text) {
        Ok(Some(t))
    } else {
        Ok(None)
    }
}

// Whether a type's own text is this one.
fn is_text(own: &Bytes, text: &[u8]) -> bool
    ensures { IsTrue result ↔ (own.now ≡ text.now) }
{
    own.as_slice() == text
}
