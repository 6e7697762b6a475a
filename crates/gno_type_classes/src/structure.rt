// What types are made of.
ghost use Rattle.std.specs.Prelude.{IfSome, IsNone, length, map};
ghost use Rattle.gno_terms.specs.Lawful.{Each, IsTyped};
ghost use Rattle.gno_terms.specs.Tables.{Below, Is, type_at};
ghost use Rattle.gno_terms.specs.declared.term.GoType.{GoType};
ghost use Rattle.gno_type_classes.specs.Unnumbered.{unnumbered};
ghost use Rattle.gno_typing.specs.Calls.{Function, IsFunction};
ghost use Rattle.gno_typing.specs.Indexes.{HasKeys};

use crate::parts::{Signature, mapped, passed};
use crate::under::term_under;
use gno_terms::TypeRef;
use gno_type_table::TypeTable;

/// The key type and the element type of a map type; `None` where the underlying type is no map. Go specification, "Map types".
pub fn keys(types: &TypeTable, t: TypeRef) -> Option<(TypeRef, TypeRef)>
    ensures some { IfSome result (λ it. (s : GoType) → Is types.now t s → (key : GoType) × (value : GoType) × HasKeys (unnumbered types.now) s key value × Is types.now it.0 key × Is types.now it.1 value) }
    ensures typed { IfSome result (λ it. (key value : GoType) → Is types.now it.0 key → Is types.now it.1 value → IsTyped key × IsTyped value) }
    ensures none { IsNone result → (s key value : GoType) → Is types.now t s → HasKeys (unnumbered types.now) s key value → ⊥ }
{
    match term_under(types, t) {
        Some(row) => mapped(row),
        None => None,
    }
}

/// The parameters and the results of a function type; `None` where the underlying type is no function. Go specification, "Function
/// types".
pub fn function(types: &TypeTable, t: TypeRef) -> Option<Signature<'_>>
    ensures some { IfSome result (λ it. (s : GoType) → Is types.now t s → IsFunction (unnumbered types.now) s (record { params = map (type_at types.now.types) it.params.now; variadic = it.variadic; results = map (type_at types.now.types) it.results.now })) }
    ensures params { IfSome result (λ it. Each (Below (length types.now.types)) it.params.now) }
    ensures results { IfSome result (λ it. Each (Below (length types.now.types)) it.results.now) }
    ensures typed_params { IfSome result (λ it. Each IsTyped (map (type_at types.now.types) it.params.now)) }
    ensures typed_results { IfSome result (λ it. Each IsTyped (map (type_at types.now.types) it.results.now)) }
    ensures none { IsNone result → (s : GoType) (g : Function) → Is types.now t s → IsFunction (unnumbered types.now) s g → ⊥ }
{
    match term_under(types, t) {
        Some(row) => passed(row),
        None => None,
    }
}
