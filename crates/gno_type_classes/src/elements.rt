// What integers index. Go specification, "Index expressions".
ghost use Rattle.std.specs.Prelude.{◌≡◌, ℕ, IfSome, IsNone, length};
ghost use Rattle.gno_base.specs.declared.kind.Kind.TheVariants.{Text, Uint8};
ghost use Rattle.gno_terms.specs.Lawful.{IsLawful, IsTyped};
ghost use Rattle.gno_terms.specs.Tables.{Is, PartsBelow, Underlying, type_at};
ghost use Rattle.gno_terms.specs.Terms.{term_of, term_with};
ghost use Rattle.gno_terms.specs.declared.term.GoType.{GoType};
ghost use Rattle.gno_terms.specs.declared.term.TermOf.TheVariants as t;
ghost use Rattle.gno_terms.specs.declared.term.TypeRef.{TypeRef};
ghost use Rattle.gno_type_classes.specs.Rows.{IsUnder};
ghost use Rattle.gno_type_classes.specs.Unnumbered.{unnumbered};
ghost use Rattle.gno_typing.specs.Classes.{basic};
ghost use Rattle.gno_typing.specs.Indexes as i;
ghost use Rattle.gno_typing.specs.Indexes.{HasElements};

use crate::under::term_under;
use gno_base::Kind;
use gno_terms::{Term, TypeRef};
use gno_type_table::TypeTable;
use gno_typed::IndexKind;

/// How the elements of a type are reached, of which type they are, and how many there are where the type tells.
#[derive(Clone, Copy, Debug)]
pub struct Elements {
    pub kind: IndexKind,
    pub of: TypeRef,
    pub count: Option<u64>,
}

/// The elements that integers index in a string, a slice, an array, or the array that a pointer points at; `None` for other types.
/// `byte` is the number of the type `uint8`: elements of strings are of it. Takes constant time.
pub fn elements_of(types: &TypeTable, t: TypeRef, byte: TypeRef) -> Option<Elements>
    ensures some { IfSome result (λ it. (s : GoType) → Is types.now t s → Is types.now byte (basic Uint8) → (of : GoType) × Is types.now it.of of × HasElements (unnumbered types.now) s (record { kind = it.kind; of = of; count = it.count })) }
    ensures typed { IfSome result (λ it. (of : GoType) → Is types.now it.of of → Is types.now byte (basic Uint8) → IsTyped of) }
    ensures none { IsNone result → (s : GoType) (e : i.Elements) → Is types.now t s → HasElements (unnumbered types.now) s e → ⊥ }
{
    match term_under(types, t) {
        Some(row) => elements_in(types, row, byte),
        None => None,
    }
}

// By the row of the underlying type.
fn elements_in(types: &TypeTable, row: &Term, byte: TypeRef) -> Option<Elements>
    requires parts { PartsBelow (length types.now.types) row.now }
    requires lawful { IsLawful (term_with (type_at types.now.types) row.now) }
    ensures some { IfSome result (λ it. (s : GoType) → IsUnder types.now s row.now → Is types.now byte (basic Uint8) → (of : GoType) × Is types.now it.of of × HasElements (unnumbered types.now) s (record { kind = it.kind; of = of; count = it.count })) }
    ensures typed { IfSome result (λ it. (of : GoType) → Is types.now it.of of → Is types.now byte (basic Uint8) → IsTyped of) }
    ensures none { IsNone result → (s : GoType) (e : i.Elements) → IsUnder types.now s row.now → HasElements (unnumbered types.now) s e → ⊥ }
{
    match row {
        Term::Basic(kind) => elements_of_kind(types, *kind, byte),
        Term::Slice(of) => Some(Elements {
            kind: IndexKind::Slice,
            of: *of,
            count: None,
        }),
        Term::Array(count, of) => Some(Elements {
            kind: IndexKind::Array,
            of: *of,
            count: Some(*count),
        }),
        Term::Pointer(of) => elements_at(types, *of),
        _ => None,
    }
}

fn elements_of_kind(types: &TypeTable, kind: Kind, byte: TypeRef) -> Option<Elements>
    ensures some { IfSome result (λ it. (s u : GoType) → Underlying (unnumbered types.now) s u → term_of u ≡ t.Basic kind → Is types.now byte (basic Uint8) → (of : GoType) × Is types.now it.of of × HasElements (unnumbered types.now) s (record { kind = it.kind; of = of; count = it.count })) }
    ensures typed { IfSome result (λ it. (of : GoType) → Is types.now it.of of → Is types.now byte (basic Uint8) → IsTyped of) }
    ensures none { IsNone result → kind ≡ Text → ⊥ }
{
    match kind {
        Kind::Text => Some(Elements {
            kind: IndexKind::String,
            of: byte,
            count: None,
        }),
        _ => None,
    }
}

// Of the array that a pointer points at.
fn elements_at(types: &TypeTable, of: TypeRef) -> Option<Elements>
    ensures some { IfSome result (λ it. (s u a : GoType) → Underlying (unnumbered types.now) s u → term_of u ≡ t.Pointer a → Is types.now of a → (of : GoType) × Is types.now it.of of × HasElements (unnumbered types.now) s (record { kind = it.kind; of = of; count = it.count })) }
    ensures typed { IfSome result (λ it. (of : GoType) → Is types.now it.of of → IsTyped of) }
    ensures none { IsNone result → (a b element : GoType) (n : ℕ) → Is types.now of a → Underlying (unnumbered types.now) a b → term_of b ≡ t.Array n element → ⊥ }
{
    match term_under(types, of) {
        Some(row) => elements_of_array(types, row),
        None => None,
    }
}

fn elements_of_array(types: &TypeTable, row: &Term) -> Option<Elements>
    requires parts { PartsBelow (length types.now.types) row.now }
    requires lawful { IsLawful (term_with (type_at types.now.types) row.now) }
    ensures some { IfSome result (λ it. (s u a b : GoType) → Underlying (unnumbered types.now) s u → term_of u ≡ t.Pointer a → Underlying (unnumbered types.now) a b → term_of b ≡ term_with (type_at types.now.types) row.now → (of : GoType) × Is types.now it.of of × HasElements (unnumbered types.now) s (record { kind = it.kind; of = of; count = it.count })) }
    ensures typed { IfSome result (λ it. (of : GoType) → Is types.now it.of of → IsTyped of) }
    ensures none { IsNone result → (n : ℕ) (a : TypeRef) → row.now ≡ t.Array n a → ⊥ }
{
    match row {
        Term::Array(count, of) => Some(Elements {
            kind: IndexKind::Pointer,
            of: *of,
            count: Some(*count),
        }),
        _ => None,
    }
}
