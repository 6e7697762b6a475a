// What is assignable to a type.
ghost use Rattle.std.specs.Prelude.{◌≡◌, ◌↔◌, IsTrue, length, option_map};
ghost use Rattle.gno_assignability.specs.Assignability.{IsAssignable};
ghost use Rattle.gno_embedding.specs.Embedding.{IsComplete, IsKnown, base};
ghost use Rattle.gno_terms.specs.Normal.{Identical};
ghost use Rattle.gno_terms.specs.Tables.{Below, Is};
ghost use Rattle.gno_terms.specs.Terms.{term_of};
ghost use Rattle.gno_terms.specs.declared.term.GoType.{GoType};
ghost use Rattle.gno_terms.specs.declared.term.TermOf.TheVariants.{UntypedNil};

use crate::forms::default_kind;
use crate::untyped::{takes_nil, takes_untyped};
use crate::values::takes_values;
use gno_constants::Constant;
use gno_terms::{Term, TypeRef};
use gno_type_table::TypeTable;

/// Whether a value of a type may be assigned to a variable of another type: a constant where one is given. Takes no memory. Go
/// specification, "Assignability".
pub fn assignable(
    types: &TypeTable,
    from: TypeRef,
    constant: Option<&Constant>,
    to: TypeRef,
) -> bool
    requires from { Below (length types.now.types) from }
    requires to { Below (length types.now.types) to }
    requires complete { (s : GoType) → Is types.now from s → IsComplete types.now (base s) }
    requires known { (s : GoType) → Is types.now to s → IsKnown types.now s }
    ensures { (s u : GoType) → Is types.now from s → Is types.now to u → IsTrue result ↔ IsAssignable types.now s (option_map (λ it. it.now) constant.entry) u }
{
    if types.identical(from, to) {
        return true;
    }
    match types.term(from) {
        Term::UntypedNil => takes_nil(types, to),
        _ => takes(types, from, constant, to),
    }
}

// Of different types, of which the first is not that of `nil`.
fn takes(types: &TypeTable, from: TypeRef, constant: Option<&Constant>, to: TypeRef) -> bool
    requires from { Below (length types.now.types) from }
    requires to { Below (length types.now.types) to }
    requires complete { (s : GoType) → Is types.now from s → IsComplete types.now (base s) }
    requires known { (s : GoType) → Is types.now to s → IsKnown types.now s }
    requires different { (s u : GoType) → Is types.now from s → Is types.now to u → Identical s u → ⊥ }
    requires not_nil { (s : GoType) → Is types.now from s → term_of s ≡ UntypedNil → ⊥ }
    ensures { (s u : GoType) → Is types.now from s → Is types.now to u → IsTrue result ↔ IsAssignable types.now s (option_map (λ it. it.now) constant.entry) u }
{
    match default_kind(types.term(from)) {
        Some(default) => takes_untyped(types, default, constant, to),
        None => takes_values(types, from, to),
    }
}
