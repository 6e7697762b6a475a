// What types have to do with one another.
ghost use Rattle.std.specs.Prelude.{◌≡◌, ◌↔◌, IsTrue, false, length};
ghost use Rattle.gno_embedding.specs.Embedding.{IsComplete, IsKnown, base};
ghost use Rattle.gno_terms.specs.Tables.{Below, Is};
ghost use Rattle.gno_terms.specs.declared.term.GoType.{GoType};
ghost use Rattle.gno_type_classes.specs.Unnumbered.{unnumbered};
ghost use Rattle.gno_typing.specs.Classes.{Compares, Has, IsBoxed, Takes};

use crate::classes::is_interface;
use crate::under::is_known;
use gno_assignability::assignable;
use gno_method_sets::{implements, is_complete};
use gno_terms::TypeRef;
use gno_type_table::TypeTable;

// Whether each type is defined to which the embedded fields of the first type lead, and the second is.
fn are_found(types: &TypeTable, from: TypeRef, to: TypeRef) -> bool
    ensures from { IsTrue result → Below (length types.now.types) from }
    ensures to { IsTrue result → Below (length types.now.types) to }
    ensures both { (s u : GoType) → Is types.now from s → Is types.now to u → IsTrue result ↔ (IsComplete types.now (base s) × IsKnown types.now u) }
{
    if !types.contains(from) {
        return false;
    }
    if !types.contains(to) {
        return false;
    }
    is_complete(types, from) && is_known(types, to)
}

/// Whether a value of a type that is no constant may be assigned to a variable of another. Go specification, "Assignability". Takes
/// no memory.
pub fn takes(types: &TypeTable, to: TypeRef, from: TypeRef) -> bool
    ensures { (u s : GoType) → Is types.now to u → Is types.now from s → IsTrue result ↔ Takes (unnumbered types.now) u s }
{
    if are_found(types, from, to) {
        assignable(types, from, None, to)
    } else {
        false
    }
}

/// Whether a type has the methods of an interface type. Go specification, "Implementing an interface". Takes no memory.
pub fn has(types: &TypeTable, t: TypeRef, interface: TypeRef) -> bool
    ensures { (s u : GoType) → Is types.now t s → Is types.now interface u → IsTrue result ↔ Has (unnumbered types.now) s u }
{
    if are_found(types, t, interface) {
        implements(types, t, interface)
    } else {
        false
    }
}

/// Whether values of a type compare. Go specification, "Comparison operators". Takes constant time.
pub fn compares(types: &TypeTable, t: TypeRef) -> bool
    ensures { (s : GoType) → Is types.now t s → IsTrue result ↔ Compares (unnumbered types.now) s }
{
    if !types.contains(t) {
        return false;
    }
    if types.is_sized(t) {
        types.comparable(t)
    } else {
        false
    }
}

/// Whether a value of the first type, which is no interface type, becomes one of the second, which is.
pub fn is_boxed(types: &TypeTable, from: TypeRef, to: TypeRef) -> bool
    ensures { (s u : GoType) → Is types.now from s → Is types.now to u → IsTrue result ↔ IsBoxed (unnumbered types.now) s u }
{
    if is_interface(types, from) {
        return false;
    }
    is_interface(types, to)
}
