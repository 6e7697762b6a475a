// How values convert from type to type. Go specification, "Conversions".
ghost use Rattle.std.specs.Prelude.{◌≡◌, IfSome, IsNone, false, length, true};
ghost use Rattle.gno_base.specs.declared.kind.Kind.TheVariants as k;
ghost use Rattle.gno_promotion.specs.MethodSets.{is_interface};
ghost use Rattle.gno_terms.specs.Normal.{Identical};
ghost use Rattle.gno_terms.specs.Tables.{Below, Is, PartsBelow, Underlying, type_at};
ghost use Rattle.gno_terms.specs.Terms.{term_of, term_with};
ghost use Rattle.gno_terms.specs.declared.term.GoType.{GoType};
ghost use Rattle.gno_terms.specs.declared.term.TermOf.TheVariants as t;
ghost use Rattle.gno_type_classes.specs.Converting.{AreApart};
ghost use Rattle.gno_typed.specs.declared.expr.ConversionKind.{ConversionKind};
ghost use Rattle.gno_type_classes.specs.Unnumbered.{unnumbered};
ghost use Rattle.gno_typing.specs.Classes.{Has, is_integer};
ghost use Rattle.gno_typing.specs.Conversions.{Converts, ConvertsBy};

use crate::forms;
use crate::kinds::{has_elements, is_of_kind};
use crate::pointers::are_pointers;
use crate::relations::has;
use crate::under::underlying;
use gno_base::Kind;
use gno_terms::{Term, TypeRef};
use gno_type_table::TypeTable;
use gno_typed::ConversionKind;

/// How a value that is no constant is converted from a type to another; `None` where it is not. Takes no memory.
pub fn converts(types: &TypeTable, from: TypeRef, to: TypeRef) -> Option<ConversionKind>
    ensures some { IfSome result (λ how. (s u : GoType) → Is types.now from s → Is types.now to u → ConvertsBy (unnumbered types.now) s u how) }
    ensures none { IsNone result → (s u : GoType) (how : ConversionKind) → Is types.now from s → Is types.now to u → ConvertsBy (unnumbered types.now) s u how → ⊥ }
{
    types.have_one_definition();
    match underlying(types, from) {
        Some(a) => match underlying(types, to) {
            Some(b) => by_underlying(types, from, to, a, b),
            None => None,
        },
        None => None,
    }
}

// By both underlying types, a and b.
fn by_underlying(
    types: &TypeTable,
    from: TypeRef,
    to: TypeRef,
    a: TypeRef,
    b: TypeRef,
) -> Option<ConversionKind>
    requires a { Below (length types.now.types) a }
    requires b { Below (length types.now.types) b }
    ensures some { IfSome result (λ how. (s u v w : GoType) → Is types.now from s → Is types.now to u → Is types.now a v → Is types.now b w → Converts (unnumbered types.now) s u v w how) }
    ensures none { IsNone result → (s u v w : GoType) (how : ConversionKind) → Is types.now from s → Is types.now to u → Is types.now a v → Is types.now b w → Underlying (unnumbered types.now) u w → Converts (unnumbered types.now) s u v w how → ⊥ }
{
    let x = types.term(a);
    let y = types.term(b);
    if forms::is_interface(y) {
        return to_interface(types, from, to, x);
    }
    if types.identical(a, b) {
        return Some(ConversionKind::Same);
    }
    if are_pointers(types, from, to) {
        return Some(ConversionKind::Same);
    }
    by_forms(types, x, y)
}

// To an interface type.
fn to_interface(types: &TypeTable, from: TypeRef, to: TypeRef, x: &Term) -> Option<ConversionKind>
    ensures some { IfSome result (λ how. (s u v w : GoType) → Is types.now from s → Is types.now to u → term_of v ≡ term_with (type_at types.now.types) x.now → is_interface (term_of w) ≡ true → Converts (unnumbered types.now) s u v w how) }
    ensures none { IsNone result → (s u : GoType) → Is types.now from s → Is types.now to u → Has (unnumbered types.now) s u → ⊥ }
{
    if !has(types, from, to) {
        return None;
    }
    if forms::is_interface(x) {
        Some(ConversionKind::Same)
    } else {
        Some(ConversionKind::Interface)
    }
}

// By the forms of both underlying types, which are not identical, and of which the second is no interface.
fn by_forms(types: &TypeTable, x: &Term, y: &Term) -> Option<ConversionKind>
    requires x { PartsBelow (length types.now.types) x.now }
    requires y { PartsBelow (length types.now.types) y.now }
    ensures some { IfSome result (λ how. (s u v w : GoType) → term_of v ≡ term_with (type_at types.now.types) x.now → term_of w ≡ term_with (type_at types.now.types) y.now → (Identical v w → ⊥) → Converts (unnumbered types.now) s u v w how) }
    ensures none { IsNone result → (v w : GoType) → term_of v ≡ term_with (type_at types.now.types) x.now → term_of w ≡ term_with (type_at types.now.types) y.now → AreApart (unnumbered types.now) v w }
{
    if forms::is_integer(x) {
        return from_integer(types, x, y);
    }
    if is_of_kind(y, Kind::Text) {
        return from_elements(types, x, y);
    }
    if is_of_kind(x, Kind::Text) {
        return to_elements(types, x, y);
    }
    None
}

fn from_integer(types: &TypeTable, x: &Term, y: &Term) -> Option<ConversionKind>
    requires integer { is_integer x.now ≡ true }
    ensures some { IfSome result (λ how. (s u v w : GoType) → term_of v ≡ term_with (type_at types.now.types) x.now → term_of w ≡ term_with (type_at types.now.types) y.now → (Identical v w → ⊥) → Converts (unnumbered types.now) s u v w how) }
    ensures none { IsNone result → (v w : GoType) → term_of v ≡ term_with (type_at types.now.types) x.now → term_of w ≡ term_with (type_at types.now.types) y.now → AreApart (unnumbered types.now) v w }
{
    if forms::is_integer(y) {
        return Some(ConversionKind::Integer);
    }
    if is_of_kind(y, Kind::Text) {
        return Some(ConversionKind::Character);
    }
    None
}

// To a string.
fn from_elements(types: &TypeTable, x: &Term, y: &Term) -> Option<ConversionKind>
    requires x { PartsBelow (length types.now.types) x.now }
    requires no_integer { is_integer x.now ≡ false }
    requires text { term_with (type_at types.now.types) y.now ≡ t.Basic k.Text }
    ensures some { IfSome result (λ how. (s u v w : GoType) → term_of v ≡ term_with (type_at types.now.types) x.now → term_of w ≡ term_with (type_at types.now.types) y.now → Converts (unnumbered types.now) s u v w how) }
    ensures none { IsNone result → (v w : GoType) → term_of v ≡ term_with (type_at types.now.types) x.now → term_of w ≡ term_with (type_at types.now.types) y.now → AreApart (unnumbered types.now) v w }
{
    if has_elements(types, x, Kind::Uint8) {
        return Some(ConversionKind::FromBytes);
    }
    if has_elements(types, x, Kind::Int32) {
        return Some(ConversionKind::FromCharacters);
    }
    None
}

// From a string.
fn to_elements(types: &TypeTable, x: &Term, y: &Term) -> Option<ConversionKind>
    requires y { PartsBelow (length types.now.types) y.now }
    requires text { term_with (type_at types.now.types) x.now ≡ t.Basic k.Text }
    requires no_text { term_with (type_at types.now.types) y.now ≡ t.Basic k.Text → ⊥ }
    ensures some { IfSome result (λ how. (s u v w : GoType) → term_of v ≡ term_with (type_at types.now.types) x.now → term_of w ≡ term_with (type_at types.now.types) y.now → Converts (unnumbered types.now) s u v w how) }
    ensures none { IsNone result → (v w : GoType) → term_of v ≡ term_with (type_at types.now.types) x.now → term_of w ≡ term_with (type_at types.now.types) y.now → AreApart (unnumbered types.now) v w }
{
    if has_elements(types, y, Kind::Uint8) {
        return Some(ConversionKind::Bytes);
    }
    if has_elements(types, y, Kind::Int32) {
        return Some(ConversionKind::Characters);
    }
    None
}
