// What is under a type. Go specification, "Underlying types".
ghost use Rattle.std.specs.Prelude.{◌↔◌, IfSome, IsNone, IsTrue, length};
ghost use Rattle.gno_embedding.specs.Embedding.{IsKnown};
ghost use Rattle.gno_terms.specs.Lawful.{IsLawful};
ghost use Rattle.gno_terms.specs.Tables.{Below, Is, PartsBelow, Underlying, type_at};
ghost use Rattle.gno_terms.specs.Terms.{term_with};
ghost use Rattle.gno_terms.specs.declared.term.GoType.{GoType};
ghost use Rattle.gno_type_classes.specs.Rows.{IsUnder};
ghost use Rattle.gno_type_classes.specs.Unnumbered.{unnumbered};

use gno_terms::{Term, TypeRef};
use gno_type_table::TypeTable;

/// Whether a type has an underlying type: it is no defined type, or a declaration defines it; false where the number stands for no
/// type. Takes constant time.
pub fn is_known(types: &TypeTable, t: TypeRef) -> bool
    ensures { (s : GoType) → Is types.now t s → IsTrue result ↔ IsKnown (unnumbered types.now) s }
{
    if !types.contains(t) {
        return false;
    }
    match types.term(t) {
        Term::Defined { .. } => types.is_defined(t),
        _ => true,
    }
}

/// The underlying type of a type; `None` where it has none, and where the number stands for no type. Takes constant time.
pub fn underlying(types: &TypeTable, t: TypeRef) -> Option<TypeRef>
    ensures some { IfSome result (λ r. (s : GoType) → Is types.now t s → (u : GoType) × Underlying (unnumbered types.now) s u × Is types.now r u) }
    ensures below { IfSome result (λ r. Below (length types.now.types) r) }
    ensures none { IsNone result → (s : GoType) → Is types.now t s → IsKnown (unnumbered types.now) s → ⊥ }
{
    if !types.contains(t) {
        return None;
    }
    if is_known(types, t) {
        Some(types.underlying(t))
    } else {
        None
    }
}

/// The row of the underlying type.
pub(crate) fn term_under(types: &TypeTable, t: TypeRef) -> Option<&Term>
    ensures some { IfSome result (λ row. (s : GoType) → Is types.now t s → IsUnder types.now s row.now) }
    ensures parts { IfSome result (λ row. PartsBelow (length types.now.types) row.now) }
    ensures lawful { IfSome result (λ row. IsLawful (term_with (type_at types.now.types) row.now)) }
    ensures none { IsNone result → (s : GoType) → Is types.now t s → IsKnown (unnumbered types.now) s → ⊥ }
{
    types.have_one_definition();
    types.types_are_lawful();
    match underlying(types, t) {
        Some(under) => Some(types.term(under)),
        None => None,
    }
}
