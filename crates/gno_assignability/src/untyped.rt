// What untyped values are assignable to.
ghost use Rattle.std.specs.Prelude.{◌≡◌, ◌↔◌, [], IsTrue, length, option_map, true};
ghost use Rattle.gno_assignability.specs.Assignability.{Becomes, TakesUntyped, has_nil};
ghost use Rattle.gno_embedding.specs.Embedding.{IsKnown};
ghost use Rattle.gno_terms.specs.Tables.{Below, Is, Underlying};
ghost use Rattle.gno_terms.specs.Terms.{term_of};
ghost use Rattle.gno_terms.specs.declared.term.GoType.{GoType};

use crate::constants::becomes;
use crate::forms::has_nil;
use gno_base::Kind;
use gno_constants::Constant;
use gno_terms::{Method, Term, TypeRef};
use gno_type_table::TypeTable;

/// Whether `nil` is a value of a type.
pub(crate) fn takes_nil(types: &TypeTable, to: TypeRef) -> bool
    requires below { Below (length types.now.types) to }
    requires known { (s : GoType) → Is types.now to s → IsKnown types.now s }
    ensures { (s : GoType) → Is types.now to s → IsTrue result ↔ ((u : GoType) × Underlying types.now s u × (has_nil (term_of u) ≡ true)) }
{
    types.have_one_definition();
    has_nil(types.term(types.underlying(to)))
}

/// Whether an untyped constant, or an untyped value that is none, is assignable to a type, by its default kind.
pub(crate) fn takes_untyped(
    types: &TypeTable,
    default: Kind,
    constant: Option<&Constant>,
    to: TypeRef,
) -> bool
    requires below { Below (length types.now.types) to }
    requires known { (s : GoType) → Is types.now to s → IsKnown types.now s }
    ensures { (s : GoType) → Is types.now to s → IsTrue result ↔ TakesUntyped types.now default (option_map (λ it. it.now) constant.entry) s }
{
    types.have_one_definition();
    match types.term(types.underlying(to)) {
        Term::Basic(kind) => becomes(constant, default, *kind),
        Term::Interface(methods) => is_held(methods.as_slice(), default, constant),
        _ => false,
    }
}

// In an interface: values of a default type have no methods.
fn is_held(methods: &[Method], default: Kind, constant: Option<&Constant>) -> bool
    ensures { IsTrue result ↔ ((methods.now ≡ []) × Becomes (option_map (λ it. it.now) constant.entry) default default) }
{
    methods.is_empty() && becomes(constant, default, default)
}
