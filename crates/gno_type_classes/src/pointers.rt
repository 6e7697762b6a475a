// What pointers without a name point at.
ghost use Rattle.std.specs.Prelude.{◌≡◌, ◌↔◌, IfSome, IsNone, IsTrue};
ghost use Rattle.gno_terms.specs.Tables.{Is, Underlying};
ghost use Rattle.gno_terms.specs.Terms.{term_of};
ghost use Rattle.gno_terms.specs.declared.term.GoType.{GoType};
ghost use Rattle.gno_terms.specs.declared.term.TermOf.TheVariants as form;
ghost use Rattle.gno_type_classes.specs.Unnumbered.{unnumbered};
ghost use Rattle.gno_typing.specs.Conversions.{ArePointers};

use crate::parts::pointed;
use crate::under::underlying;
use gno_terms::TypeRef;
use gno_type_table::TypeTable;

/// Whether both types are pointers without a name, to types whose underlying types are identical. Go specification, "Conversions".
pub(crate) fn are_pointers(types: &TypeTable, from: TypeRef, to: TypeRef) -> bool
    ensures { (s u : GoType) → Is types.now from s → Is types.now to u → IsTrue result ↔ ArePointers (unnumbered types.now) s u }
{
    types.have_one_definition();
    match under_pointer(types, from) {
        Some(a) => match under_pointer(types, to) {
            Some(b) => types.identical(a, b),
            None => false,
        },
        None => false,
    }
}

// The underlying type of what a pointer without a name points at.
fn under_pointer(types: &TypeTable, t: TypeRef) -> Option<TypeRef>
    ensures some { IfSome result (λ it. (s : GoType) → Is types.now t s → (a : GoType) × (b : GoType) × (term_of s ≡ form.Pointer a) × Underlying (unnumbered types.now) a b × Is types.now it b) }
    ensures none { IsNone result → (s a b : GoType) → Is types.now t s → term_of s ≡ form.Pointer a → Underlying (unnumbered types.now) a b → ⊥ }
{
    if !types.contains(t) {
        return None;
    }
    match pointed(types.term(t)) {
        Some(of) => underlying(types, of),
        None => None,
    }
}
