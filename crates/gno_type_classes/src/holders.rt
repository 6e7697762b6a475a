// The types whose fields and methods a selector looks at. Go specification, "Selectors".
ghost use Rattle.std.specs.Prelude.{◌≡◌, ◌↔◌, IfSome, IsNone, IsTrue, false, not};
ghost use Rattle.gno_terms.specs.Lawful.{IsTyped};
ghost use Rattle.gno_terms.specs.Tables.{Is, Underlying};
ghost use Rattle.gno_terms.specs.Terms.{term_of};
ghost use Rattle.gno_terms.specs.declared.term.GoType.{GoType};
ghost use Rattle.gno_type_classes.specs.Unnumbered.{unnumbered};
ghost use Rattle.gno_typing.specs.Classes.{IsOf};
ghost use Rattle.gno_typing.specs.Selectors as selectors;
ghost use Rattle.gno_typing.specs.Selectors.{Follows, HasHolder, is_pointer_or_interface, is_pointer_term};

use crate::forms;
use crate::parts::pointed;
use crate::under::term_under;
use gno_terms::TypeRef;
use gno_type_table::TypeTable;

/// The type whose fields and methods count, whether a pointer leads to it, and whether fields alone count: a defined pointer type has
/// no methods.
#[derive(Clone, Copy, Debug)]
pub struct Holder {
    pub of: TypeRef,
    pub pointer: bool,
    pub fields_alone: bool,
}

/// The type whose fields and methods a selector looks at: what a pointer points at, or the type itself. `None` for a pointer to a
/// pointer, to an interface, or to a type that has no underlying type. Takes constant time.
pub fn holder_of(types: &TypeTable, t: TypeRef) -> Option<Holder>
    ensures some { IfSome result (λ it. (s : GoType) → Is types.now t s → (of : GoType) × Is types.now it.of of × HasHolder (unnumbered types.now) s (record { of = of; pointer = it.pointer; fields_alone = it.fields_alone })) }
    ensures none { IsNone result → (s : GoType) (h : selectors.Holder) → Is types.now t s → HasHolder (unnumbered types.now) s h → ⊥ }
{
    types.have_one_definition();
    if !types.contains(t) {
        return None;
    }
    match follows(types, t) {
        Some(of) => holder_at(types, t, of),
        None => Some(Holder {
            of: t,
            pointer: false,
            fields_alone: false,
        }),
    }
}

/// What a pointer points at, where the underlying type is a pointer.
pub fn follows(types: &TypeTable, t: TypeRef) -> Option<TypeRef>
    ensures some { IfSome result (λ it. (s : GoType) → Is types.now t s → (u : GoType) × Follows (unnumbered types.now) s u × Is types.now it u) }
    ensures typed { IfSome result (λ it. (u : GoType) → Is types.now it u → IsTyped u) }
    ensures none { IsNone result → (s u : GoType) → Is types.now t s → Follows (unnumbered types.now) s u → ⊥ }
{
    match term_under(types, t) {
        Some(row) => pointed(row),
        None => None,
    }
}

// What a pointer points at, where that is no pointer and no interface.
fn holder_at(types: &TypeTable, t: TypeRef, of: TypeRef) -> Option<Holder>
    ensures some { IfSome result (λ it. (s u : GoType) → Is types.now t s → Follows (unnumbered types.now) s u → Is types.now of u → Is types.now it.of u × HasHolder (unnumbered types.now) s (record { of = u; pointer = it.pointer; fields_alone = it.fields_alone })) }
    ensures none { IsNone result → (u b : GoType) → Is types.now of u → Underlying (unnumbered types.now) u b → is_pointer_or_interface (term_of b) ≡ false → ⊥ }
{
    if has_members(types, of) {
        Some(Holder {
            of,
            pointer: true,
            fields_alone: is_no_pointer(types, t),
        })
    } else {
        None
    }
}

fn has_members(types: &TypeTable, t: TypeRef) -> bool
    ensures { (s : GoType) → Is types.now t s → IsTrue result ↔ IsOf (λ x. not (is_pointer_or_interface x)) (unnumbered types.now) s }
{
    match term_under(types, t) {
        Some(row) => forms::has_members(row),
        None => false,
    }
}

fn is_no_pointer(types: &TypeTable, t: TypeRef) -> bool
    ensures { (s : GoType) → Is types.now t s → result ≡ not (is_pointer_term (term_of s)) }
{
    if types.contains(t) {
        forms::is_no_pointer(types.term(t))
    } else {
        false
    }
}
