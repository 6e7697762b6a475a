// What a type's methods are declared on.
ghost use Rattle.std.specs.Prelude.{◌≡◌, ◌↔◌, length, true, false, IfSome, IsNone, IsTrue};
ghost use Rattle.gno_embedding.specs.Embedding.{IsComplete, IsKnown, base};
ghost use Rattle.gno_method_sets.specs.Receiving.{IsPointerToInterface, IsReceiver};
ghost use Rattle.gno_promotion.specs.MethodSets.{is_interface};
ghost use Rattle.gno_terms.specs.Tables.{Below, Is, Underlying};
ghost use Rattle.gno_terms.specs.Terms.{term_of};
ghost use Rattle.gno_terms.specs.declared.term.GoType.{GoType};

use gno_terms::{Term, TypeRef};
use gno_type_table::TypeTable;

/// A type, or a pointer to it.
#[derive(Clone, Copy)]
pub(crate) struct Receiver {
    pub(crate) base: TypeRef,
    pub(crate) pointer: bool,
}

/// Whether each type is defined to which the embedded fields of the type lead, or those of the type that it points at. Takes constant
/// time.
pub fn is_complete(types: &TypeTable, t: TypeRef) -> bool
    requires { Below (length types.now.types) t }
    ensures { (s : GoType) → Is types.now t s → IsTrue result ↔ IsComplete types.now (base s) }
{
    match types.term(t) {
        Term::Pointer(of) => types.is_complete(*of),
        _ => types.is_complete(t),
    }
}

/// What the methods of a type are declared on, and whether the type is a pointer to it. A pointer to an interface has no methods.
pub(crate) fn receiver_of(types: &TypeTable, t: TypeRef) -> Option<Receiver>
    requires below { Below (length types.now.types) t }
    requires complete { (s : GoType) → Is types.now t s → IsComplete types.now (base s) }
    ensures below { IfSome result (λ it. Below (length types.now.types) it.base) }
    ensures some { IfSome result (λ it. (s : GoType) → Is types.now t s → IsReceiver types.now s it.base it.pointer) }
    ensures none { IsNone result → (s : GoType) → Is types.now t s → IsPointerToInterface types.now s }
{
    match types.term(t) {
        Term::Pointer(of) => pointed(types, *of),
        _ => Some(Receiver {
            base: t,
            pointer: false,
        }),
    }
}

fn pointed(types: &TypeTable, of: TypeRef) -> Option<Receiver>
    requires below { Below (length types.now.types) of }
    requires known { (s : GoType) → Is types.now of s → IsKnown types.now s }
    ensures some { IfSome result (λ it. (it ≡ record { base = of; pointer = true }) × ((s u : GoType) → Is types.now of s → Underlying types.now s u → is_interface (term_of u) ≡ false)) }
    ensures none { IsNone result → (s : GoType) → Is types.now of s → (u : GoType) × Underlying types.now s u × (is_interface (term_of u) ≡ true) }
{
    types.have_one_definition();
    if is_interface(types, of) {
        None
    } else {
        Some(Receiver {
            base: of,
            pointer: true,
        })
    }
}

/// Whether the underlying type is an interface.
fn is_interface(types: &TypeTable, t: TypeRef) -> bool
    requires below { Below (length types.now.types) t }
    requires known { (s : GoType) → Is types.now t s → IsKnown types.now s }
    ensures { (s : GoType) → Is types.now t s → (u : GoType) × Underlying types.now s u × (result ≡ is_interface (term_of u)) }
{
    matches!(types.term(types.underlying(t)), Term::Interface(_))
}
