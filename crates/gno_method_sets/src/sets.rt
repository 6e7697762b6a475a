// The methods of a type.
ghost use Rattle.std.specs.Prelude.{◌≡◌, ◌↔◌, IfOk, IsTrue, length, map, ℕ, List, Bool};
ghost use Rattle.gno_embedding.specs.Embedding.{IsComplete, IsKnown, base};
ghost use Rattle.gno_method_sets.specs.Implementing.{HasMethod, Implements};
ghost use Rattle.gno_promotion.specs.MethodSets.{IsMethodSet};
ghost use Rattle.gno_terms.specs.Lawful.{Each};
ghost use Rattle.gno_terms.specs.Tables.{Below, Is, type_at};
ghost use Rattle.gno_terms.specs.Terms.{method_of, method_with};
ghost use Rattle.gno_terms.specs.declared.term.GoType.{GoType};

use crate::received::{has_like, received};
use crate::receiver::receiver_of;
use gno_base::List;
use gno_terms::{Method, Term, TypeRef};
use gno_type_table::TypeTable;
use std::alloc::{AllocError, Global};

/// The method set of a type, in byte order, with the methods that embedded fields promote. Go specification, "Method sets".
pub fn method_set(alloc: Global, types: &TypeTable, t: TypeRef) -> Result<List<Method>, AllocError>
    requires below { Below (length types.now.types) t }
    requires complete { (s : GoType) → Is types.now t s → IsComplete types.now (base s) }
    ensures methods { IfOk result (λ ms. (s : GoType) → Is types.now t s → IsMethodSet types.now s (map (method_with (type_at types.now.types)) ms)) }
    ensures below { IfOk result (λ ms. Each (Below (length types.now.types)) (map method_of ms)) }
{
    match receiver_of(types, t) {
        Some(receiver) => received(alloc, receiver.pointer, types.promoted(receiver.base)),
        None => Ok(List::new(alloc)),
    }
}

/// Whether the method set of a type has a method of this name and of an identical type.
fn has_method(types: &TypeTable, t: TypeRef, wanted: &Method) -> bool
    requires below { Below (length types.now.types) t }
    requires complete { (s : GoType) → Is types.now t s → IsComplete types.now (base s) }
    requires wanted { Below (length types.now.types) wanted.now.of }
    ensures { (s : GoType) → Is types.now t s → IsTrue result ↔ HasMethod types.now s (method_with (type_at types.now.types) wanted.now) }
{
    types.have_one_number();
    types.types_are_lawful();
    match receiver_of(types, t) {
        Some(receiver) => has_like(receiver.pointer, types.promoted(receiver.base), wanted),
        None => false,
    }
}

fn has_methods(types: &TypeTable, t: TypeRef, methods: &[Method]) -> bool
    requires below { Below (length types.now.types) t }
    requires complete { (s : GoType) → Is types.now t s → IsComplete types.now (base s) }
    requires methods { Each (Below (length types.now.types)) (map method_of methods.now) }
    ensures { (s : GoType) → Is types.now t s → IsTrue result ↔ Each (HasMethod types.now s) (map (method_with (type_at types.now.types)) methods.now) }
{
    for wanted in methods {
        if !has_method(types, t, wanted) {
            return false;
        }
    }
    true
}

/// Whether a type implements an interface type. Takes no memory, and time by the number of the interface's methods and the logarithm
/// of the type's. Go specification, "Implementing an interface".
pub fn implements(types: &TypeTable, t: TypeRef, interface: TypeRef) -> bool
    requires below { Below (length types.now.types) t }
    requires complete { (s : GoType) → Is types.now t s → IsComplete types.now (base s) }
    requires interface { Below (length types.now.types) interface }
    requires known { (s : GoType) → Is types.now interface s → IsKnown types.now s }
    ensures { (s i : GoType) → Is types.now t s → Is types.now interface i → IsTrue result ↔ Implements types.now s i }
{
    types.have_one_definition();
    match types.term(types.underlying(interface)) {
        Term::Interface(methods) => has_methods(types, t, methods.as_slice()),
        _ => false,
    }
}
