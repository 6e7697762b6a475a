// The classes of types.
ghost use Rattle.std.specs.Prelude.{◌≡◌, ◌↔◌, IsTrue};
ghost use Rattle.gno_assignability.specs.Assignability.{default_kind, has_nil};
ghost use Rattle.gno_promotion.specs.MethodSets.{is_interface};
ghost use Rattle.gno_terms.specs.Lawful.{is_untyped};
ghost use Rattle.gno_terms.specs.Tables.{Is};
ghost use Rattle.gno_terms.specs.Terms.{term_of};
ghost use Rattle.gno_terms.specs.declared.term.GoType.{GoType};
ghost use Rattle.gno_type_classes.specs.Unnumbered.{unnumbered};
ghost use Rattle.gno_typing.specs.Classes.{IsOf, is_boolean, is_integer, is_ordered, is_text};
ghost use Rattle.gno_typing.specs.Conversions.{is_basic};

use crate::forms;
use crate::under::term_under;
use gno_base::Kind;
use gno_terms::TypeRef;
use gno_type_table::TypeTable;

/// Whether the underlying type has integers. Go specification, "Numeric types".
pub fn is_integer(types: &TypeTable, t: TypeRef) -> bool
    ensures { (s : GoType) → Is types.now t s → IsTrue result ↔ IsOf is_integer (unnumbered types.now) s }
{
    match term_under(types, t) {
        Some(row) => forms::is_integer(row),
        None => false,
    }
}

/// Whether the underlying type has strings. Go specification, "String types".
pub fn is_text(types: &TypeTable, t: TypeRef) -> bool
    ensures { (s : GoType) → Is types.now t s → IsTrue result ↔ IsOf is_text (unnumbered types.now) s }
{
    match term_under(types, t) {
        Some(row) => forms::is_text(row),
        None => false,
    }
}

/// Whether the underlying type has truth values. Go specification, "Boolean types".
pub fn is_boolean(types: &TypeTable, t: TypeRef) -> bool
    ensures { (s : GoType) → Is types.now t s → IsTrue result ↔ IsOf is_boolean (unnumbered types.now) s }
{
    match term_under(types, t) {
        Some(row) => forms::is_boolean(row),
        None => false,
    }
}

/// Whether values of the underlying type are ordered. Go specification, "Comparison operators".
pub fn is_ordered(types: &TypeTable, t: TypeRef) -> bool
    ensures { (s : GoType) → Is types.now t s → IsTrue result ↔ IsOf is_ordered (unnumbered types.now) s }
{
    match term_under(types, t) {
        Some(row) => forms::is_ordered(row),
        None => false,
    }
}

/// Whether the underlying type is a basic one.
pub fn is_basic(types: &TypeTable, t: TypeRef) -> bool
    ensures { (s : GoType) → Is types.now t s → IsTrue result ↔ IsOf is_basic (unnumbered types.now) s }
{
    match term_under(types, t) {
        Some(row) => forms::is_basic(row),
        None => false,
    }
}

/// Whether the underlying type is an interface. Go specification, "Interface types".
pub fn is_interface(types: &TypeTable, t: TypeRef) -> bool
    ensures { (s : GoType) → Is types.now t s → IsTrue result ↔ IsOf is_interface (unnumbered types.now) s }
{
    match term_under(types, t) {
        Some(row) => forms::is_interface(row),
        None => false,
    }
}

/// Whether `nil` is a value of the underlying type.
pub fn has_nil(types: &TypeTable, t: TypeRef) -> bool
    ensures { (s : GoType) → Is types.now t s → IsTrue result ↔ IsOf has_nil (unnumbered types.now) s }
{
    match term_under(types, t) {
        Some(row) => forms::has_nil(row),
        None => false,
    }
}

/// Whether the type is that of an untyped constant, or of `nil`. Go specification, "Constants".
pub fn is_untyped(types: &TypeTable, t: TypeRef) -> bool
    ensures { (s : GoType) → Is types.now t s → result ≡ is_untyped (term_of s) }
{
    types.contains(t) && forms::is_untyped(types.term(t))
}

/// The kind of an untyped constant's default type. Go specification, "Constants".
pub fn default_kind(types: &TypeTable, t: TypeRef) -> Option<Kind>
    ensures { (s : GoType) → Is types.now t s → result ≡ default_kind (term_of s) }
{
    if types.contains(t) {
        forms::default_kind(types.term(t))
    } else {
        None
    }
}
