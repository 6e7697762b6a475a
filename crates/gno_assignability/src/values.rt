// What values of a type are assignable to.
ghost use Rattle.std.specs.Prelude.{◌≡◌, ◌↔◌, ◌⊎◌, ◌&&◌, IsTrue, false, length};
ghost use Rattle.gno_assignability.specs.Assignability.{HaveOneUnderlying, is_named};
ghost use Rattle.gno_embedding.specs.Embedding.{IsComplete, IsKnown, base};
ghost use Rattle.gno_method_sets.specs.Implementing.{Implements};
ghost use Rattle.gno_terms.specs.Tables.{Below, Is};
ghost use Rattle.gno_terms.specs.Terms.{term_of};
ghost use Rattle.gno_terms.specs.declared.term.GoType.{GoType};

use crate::forms::is_named;
use gno_method_sets::implements;
use gno_terms::TypeRef;
use gno_type_table::TypeTable;

/// Whether values of a type are assignable to another: it is an interface that their type implements, or the underlying types are
/// identical and one of both types is not named.
pub(crate) fn takes_values(types: &TypeTable, from: TypeRef, to: TypeRef) -> bool
    requires from { Below (length types.now.types) from }
    requires to { Below (length types.now.types) to }
    requires complete { (s : GoType) → Is types.now from s → IsComplete types.now (base s) }
    requires known { (s : GoType) → Is types.now to s → IsKnown types.now s }
    ensures { (s u : GoType) → Is types.now from s → Is types.now to u → IsTrue result ↔ (Implements types.now s u ⊎ HaveOneUnderlying types.now s u) }
{
    implements(types, from, to) || have_one_underlying(types, from, to)
}

fn have_one_underlying(types: &TypeTable, from: TypeRef, to: TypeRef) -> bool
    requires from { Below (length types.now.types) from }
    requires to { Below (length types.now.types) to }
    requires complete { (s : GoType) → Is types.now from s → IsComplete types.now (base s) }
    requires known { (s : GoType) → Is types.now to s → IsKnown types.now s }
    ensures { (s u : GoType) → Is types.now from s → Is types.now to u → IsTrue result ↔ HaveOneUnderlying types.now s u }
{
    types.have_one_definition();
    if are_named(types, from, to) {
        return false;
    }
    types.identical(types.underlying(from), types.underlying(to))
}

fn are_named(types: &TypeTable, from: TypeRef, to: TypeRef) -> bool
    requires from { Below (length types.now.types) from }
    requires to { Below (length types.now.types) to }
    ensures { (s u : GoType) → Is types.now from s → Is types.now to u → result ≡ (is_named (term_of s) && is_named (term_of u)) }
{
    is_named(types.term(from)) && is_named(types.term(to))
}
