// The fields of types.
ghost use Rattle.std.specs.Prelude.{◌≡◌, ◌↔◌, IfSome, IsNone, IsTrue, length, true};
ghost use Rattle.gno_embedding.specs.Embedding.{IsKnown, base, fields_in, is_pointer};
ghost use Rattle.gno_embedding.specs.Nodes.{AreFields};
ghost use Rattle.gno_embedding.specs.Same.{is_same, may_embed};
ghost use Rattle.gno_terms.specs.declared.term.TermOf.TheVariants.{Struct};
ghost use Rattle.gno_terms.specs.declared.term.TypeRef.{TypeRef};
ghost use Rattle.gno_terms.specs.Tables.{Below, Is, PartsBelow, deep, type_at};
ghost use Rattle.gno_terms.specs.Terms.{term_of};
ghost use Rattle.gno_type_rows.specs.RowTypes.{is_defined};

use gno_terms::{Field, Term, TypeRef};
use gno_type_rows::Rows;

/// The fields of a term.
fn fields_of(term: &Term) -> &[Field]
    ensures { result.now ≡ fields_in term.now }
{
    match term {
        Term::Struct(fields) => fields.as_slice(),
        _ => &[],
    }
}

/// The fields of the underlying type of a type, where that is known.
pub(crate) fn opened<'a>(rows: &'a Rows, number: TypeRef, term: &'a Term) -> Option<&'a [Field]>
    requires parts { PartsBelow (length rows.now.types) term.now }
    requires defined { is_defined term.now ≡ true → Is rows.now number (deep rows.now.types term.now) }
    ensures some { IfSome result (λ fields. AreFields rows.now (deep rows.now.types term.now) fields.now) }
    ensures none { IsNone result → IsKnown rows.now (deep rows.now.types term.now) → ⊥ }
{
    match term {
        Term::Defined { .. } => defined(rows, number),
        _ => Some(fields_of(term)),
    }
}

/// The type that an embedded field leads to, and whether by a pointer.
pub(crate) fn pointed(rows: &Rows, of: TypeRef) -> (TypeRef, bool)
    requires { Below (length rows.now.types) of }
    ensures below { Below (length rows.now.types) result.0 }
    ensures base { type_at rows.now.types result.0 ≡ base (type_at rows.now.types of) }
    ensures pointer { result.1 ≡ is_pointer (term_of (type_at rows.now.types of)) }
{
    match rows.term(of) {
        Term::Pointer(base) => (*base, true),
        _ => (of, false),
    }
}

/// Whether a type of this term may have embedded fields.
pub(crate) fn may_embed(term: &Term) -> bool
    ensures { result ≡ may_embed term.now }
{
    matches!(term, Term::Defined { .. } | Term::Struct(_))
}

/// Whether a number stands for the type of this term.
pub(crate) fn is_of(rows: &Rows, number: TypeRef, term: &Term, of: TypeRef) -> bool
    requires parts { PartsBelow (length rows.now.types) term.now }
    requires number { (t : TypeRef) → Is rows.now t (deep rows.now.types term.now) → t ≡ number }
    requires defined { is_defined term.now ≡ true → Is rows.now number (deep rows.now.types term.now) }
    requires embeds { may_embed term.now ≡ true }
    requires below { Below (length rows.now.types) of }
    ensures { IsTrue result ↔ Is rows.now of (deep rows.now.types term.now) }
{
    rows.have_one_number();
    if of != number {
        return false;
    }
    match term {
        Term::Struct(fields) => is_struct_of(fields.as_slice(), rows.term(of)),
        _ => true,
    }
}

// Whether a term is that of a struct with these fields.
fn is_struct_of(fields: &[Field], term: &Term) -> bool
    ensures { IsTrue result ↔ (term.now ≡ Struct fields.now) }
{
    match term {
        Term::Struct(others) => are_same(others.as_slice(), fields),
        _ => false,
    }
}

// Whether two lists of fields are the same.
fn are_same(a: &[Field], b: &[Field]) -> bool
    ensures { IsTrue result ↔ (a.now ≡ b.now) }
{
    if a.len() != b.len() {
        return false;
    }
    for place in 0..a.len() {
        if !is_same(&a[place], &b[place]) {
            return false;
        }
    }
    true
}

// Whether two fields are the same.
fn is_same(a: &Field, b: &Field) -> bool
    ensures { result ≡ is_same a.now b.now }
{
    a.name.as_slice() == b.name.as_slice()
        && a.package.as_slice() == b.package.as_slice()
        && a.embedded == b.embedded
        && a.of == b.of
}

// The fields of what a declaration gives a defined type.
fn defined(rows: &Rows, number: TypeRef) -> Option<&[Field]>
    requires below { Below (length rows.now.types) number }
    requires defined { is_defined (term_of (type_at rows.now.types number)) ≡ true }
    ensures some { IfSome result (λ fields. AreFields rows.now (type_at rows.now.types number) fields.now) }
    ensures none { IsNone result → IsKnown rows.now (type_at rows.now.types number) → ⊥ }
{
    match rows.definition(number) {
        Some(definition) => Some(fields_of(rows.term(definition.underlying))),
        None => None,
    }
}
