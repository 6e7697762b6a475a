// The search for a member.
ghost use Rattle.std.specs.Prelude.{ℕ, ◌≡◌, ◌↔◌, IfOk, IsTrue, Some, length, slice_get};
ghost use Rattle.gno_embedding.specs.Embedding.{IsComplete, fields_in};
ghost use Rattle.gno_selectors.specs.Selectors.{IsSelection, IsSelectionBelow};
ghost use Rattle.gno_terms.specs.declared.term.FieldOf.{FieldOf};
ghost use Rattle.gno_terms.specs.declared.term.GoType.{GoType};
ghost use Rattle.gno_terms.specs.Lawful.{IsTyped};
ghost use Rattle.gno_terms.specs.Tables.{Below, Is, Underlying};
ghost use Rattle.gno_terms.specs.Terms.{term_of};
ghost use Rattle.gno_type_classes.specs.Unnumbered.{unnumbered};
ghost use Rattle.gno_typing.specs.Selectors.{asked};

use gno_selectors::Selection;
use gno_terms::{TypeRef, is_exported};
use gno_type_classes::underlying;
use gno_type_table::TypeTable;
use std::alloc::{AllocError, Global};

/// Whether each type is defined to which the embedded fields of a type lead, and the type itself.
pub(crate) fn is_complete(types: &TypeTable, t: TypeRef) -> bool
    ensures below { IsTrue result → Below (length types.now.types) t }
    ensures is { (s : GoType) → Is types.now t s → IsTrue result ↔ IsComplete types.now s }
{
    if types.contains(t) {
        types.is_complete(t)
    } else {
        false
    }
}

/// What a name selects in a type where the package of a path asks for it.
pub(crate) fn find(
    alloc: Global,
    types: &TypeTable,
    t: TypeRef,
    path: &[u8],
    name: &[u8],
) -> Result<Selection, AllocError>
    requires below { Below (length types.now.types) t }
    requires complete { (s : GoType) → Is types.now t s → IsComplete types.now s }
    ensures selection { IfOk result (λ it. (s : GoType) → Is types.now t s → IsSelection types.now s name.now (asked path.now name.now) it) }
    ensures below { IfOk result (λ it. IsSelectionBelow (length types.now.types) it) }
{
    if is_exported(name) {
        types.select(alloc, t, name, b"".as_slice())
    } else {
        types.select(alloc, t, name, path)
    }
}

/// The fields of each type in the table have types that values may have. This states a law and does nothing.
pub(crate) fn fields_are_typed(types: &TypeTable, t: TypeRef)
    ensures { (s u : GoType) (k : ℕ) (f : FieldOf GoType) → Is types.now t s → Underlying types.now s u → slice_get (fields_in (term_of u)) k ≡ Some f → IsTyped f.of }
{
    types.types_are_lawful();
    types.have_one_definition();
    let _under = underlying(types, t);
}
