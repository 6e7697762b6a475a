// Constants of types. Go specification, "Constants" and "Representability".
ghost use Rattle.std.specs.Prelude.{◌≡◌, ◌↔◌, IsTrue};
ghost use Rattle.gno_terms.specs.Tables.{Is};
ghost use Rattle.gno_terms.specs.Terms.{term_with};
ghost use Rattle.gno_terms.specs.declared.term.GoType.{GoType};
ghost use Rattle.gno_terms.specs.declared.term.TypeRef.{TypeRef};
ghost use Rattle.gno_type_classes.specs.Unnumbered.{unnumbered};
ghost use Rattle.gno_typing.specs.Classes.{IsOf, IsRepresentable, IsValueBy, MayBe, fits, fits_kind};

use crate::classes::is_untyped;
use crate::forms::is_whole;
use crate::under::term_under;
use gno_assignability::is_value;
use gno_base::Kind;
use gno_constants::Constant;
use gno_terms::{Term, TypeRef};
use gno_type_table::TypeTable;

fn fits_kind(constant: &Constant, kind: Kind) -> bool
    ensures { result ≡ fits_kind constant.now kind }
{
    match constant {
        Constant::Bool(_) => matches!(kind, Kind::Bool),
        Constant::Text(_) => matches!(kind, Kind::Text),
        Constant::Whole(_) => is_whole(kind),
    }
}

fn fits_row(constant: &Constant, row: &Term) -> bool
    ensures { result ≡ fits constant.now row.now }
{
    match row {
        Term::Basic(kind) => fits_kind(constant, *kind),
        _ => false,
    }
}

/// Whether a constant is of the class of a type: a truth value, a string or a whole number.
pub fn fits(types: &TypeTable, constant: &Constant, t: TypeRef) -> bool
    ensures { (s : GoType) → Is types.now t s → IsTrue result ↔ IsOf (fits constant.now) (unnumbered types.now) s }
{
    match term_under(types, t) {
        Some(row) => fits_row(constant, row),
        None => false,
    }
}

fn is_value_by(constant: &Constant, row: &Term) -> bool
    ensures { (f : TypeRef → GoType) → IsTrue result ↔ IsValueBy constant.now (term_with f row.now) }
{
    match row {
        Term::Basic(kind) => is_value(constant, *kind),
        _ => false,
    }
}

/// Whether a constant is a value of a type. Go specification, "Representability".
pub fn is_representable(types: &TypeTable, constant: &Constant, t: TypeRef) -> bool
    ensures { (s : GoType) → Is types.now t s → IsTrue result ↔ IsRepresentable (unnumbered types.now) constant.now s }
{
    match term_under(types, t) {
        Some(row) => is_value_by(constant, row),
        None => false,
    }
}

/// Whether a type has the constant: an untyped type has any.
pub fn may_be(types: &TypeTable, constant: &Constant, t: TypeRef) -> bool
    ensures { (s : GoType) → Is types.now t s → IsTrue result ↔ MayBe (unnumbered types.now) constant.now s }
{
    is_untyped(types, t) || is_representable(types, constant, t)
}
