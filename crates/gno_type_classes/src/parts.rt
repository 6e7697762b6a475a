// The parts of a type, by its row.
ghost use Rattle.std.specs.Prelude.{◌≡◌, Bool, IfSome, IsNone, List};
ghost use Rattle.gno_terms.specs.declared.term.TermOf.TheVariants as t;
ghost use Rattle.gno_terms.specs.declared.term.TypeRef.{TypeRef};

use gno_terms::{Term, TypeRef};

/// The parameters and the results of a function type. The last parameter of a variadic function is a slice.
#[derive(Clone, Copy)]
pub struct Signature<'a> {
    pub params: &'a [TypeRef],
    pub variadic: bool,
    pub results: &'a [TypeRef],
}

/// What a pointer type points at.
pub(crate) fn pointed(row: &Term) -> Option<TypeRef>
    ensures some { IfSome result (λ a. row.now ≡ t.Pointer a) }
    ensures none { IsNone result → (a : TypeRef) → row.now ≡ t.Pointer a → ⊥ }
{
    match row {
        Term::Pointer(of) => Some(*of),
        _ => None,
    }
}

/// The element type of a slice type.
pub(crate) fn sliced(row: &Term) -> Option<TypeRef>
    ensures some { IfSome result (λ a. row.now ≡ t.Slice a) }
    ensures none { IsNone result → (a : TypeRef) → row.now ≡ t.Slice a → ⊥ }
{
    match row {
        Term::Slice(of) => Some(*of),
        _ => None,
    }
}

/// The key type and the element type of a map type.
pub(crate) fn mapped(row: &Term) -> Option<(TypeRef, TypeRef)>
    ensures some { IfSome result (λ it. row.now ≡ t.Map it.0 it.1) }
    ensures none { IsNone result → (a b : TypeRef) → row.now ≡ t.Map a b → ⊥ }
{
    match row {
        Term::Map(key, value) => Some((*key, *value)),
        _ => None,
    }
}

/// The parameters and the results of a function type.
pub(crate) fn passed(row: &Term) -> Option<Signature<'_>>
    ensures some { IfSome result (λ it. row.now ≡ t.Function it.params.now it.variadic it.results.now) }
    ensures none { IsNone result → (ps : List TypeRef) (variadic : Bool) (rs : List TypeRef) → row.now ≡ t.Function ps variadic rs → ⊥ }
{
    match row {
        Term::Function {
            params,
            variadic,
            results,
        } => Some(Signature {
            params: params.as_slice(),
            variadic: *variadic,
            results: results.as_slice(),
        }),
        _ => None,
    }
}
