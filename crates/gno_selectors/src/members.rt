// The members of one type.
ghost use Rattle.std.specs.Prelude.{◌≡◌, length, map};
ghost use Rattle.gno_embedding.specs.Embedding.{IsKnown};
ghost use Rattle.gno_promotion.specs.MethodSets.{DeclaresBy};
ghost use Rattle.gno_selectors.specs.Standings.{own};
ghost use Rattle.gno_terms.specs.Lawful.{Each};
ghost use Rattle.gno_terms.specs.Tables.{Below, Is, PartsBelow, Underlying, deep, error_interface, type_at};
ghost use Rattle.gno_terms.specs.Terms.{method_of, method_with, term_of};
ghost use Rattle.gno_terms.specs.declared.term.GoType.{GoType};

use gno_terms::{Method, Term, TypeRef};
use gno_type_rows::Rows;

/// The methods that a declaration gives a type.
pub(crate) fn declared(rows: &Rows, t: TypeRef) -> &[Method]
    requires { Below (length rows.now.types) t }
    ensures declares { (s : GoType) → Is rows.now t s → IsKnown rows.now s → DeclaresBy rows.now s (map (method_with (type_at rows.now.types)) result.now) (term_of s) }
    ensures below { Each (Below (length rows.now.types)) (map method_of result.now) }
{
    match rows.term(t) {
        Term::Defined { .. } => match rows.definition(t) {
            Some(definition) => definition.methods.as_slice(),
            None => &[],
        },
        _ => &[],
    }
}

/// The underlying type of a type.
pub(crate) fn underlying(rows: &Rows, error: TypeRef, t: TypeRef) -> &Term
    requires error { Is rows.now error error_interface }
    requires below { Below (length rows.now.types) t }
    requires known { (s : GoType) → Is rows.now t s → IsKnown rows.now s }
    ensures underlying { (s : GoType) → Is rows.now t s → Underlying rows.now s (deep rows.now.types result.now) }
    ensures parts { PartsBelow (length rows.now.types) result.now }
{
    let term = rows.term(t);
    match term {
        Term::Defined { .. } => match rows.definition(t) {
            Some(definition) => rows.term(definition.underlying),
            None => term,
        },
        Term::Error => rows.term(error),
        _ => term,
    }
}

/// The methods that are declared on a type, by its underlying type: a defined pointer type has none.
pub(crate) fn own<'a>(declared: &'a [Method], underlying: &Term) -> &'a [Method]
    ensures { result.now ≡ own declared.now underlying.now }
{
    match underlying {
        Term::Pointer(_) => &[],
        _ => declared,
    }
}
