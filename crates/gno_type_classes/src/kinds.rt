// The kinds of basic types.
ghost use Rattle.std.specs.Prelude.{◌≡◌, ◌↔◌, IsTrue, length};
ghost use Rattle.gno_terms.specs.Tables.{Is, PartsBelow, Underlying, type_at};
ghost use Rattle.gno_terms.specs.Terms.{term_of, term_with};
ghost use Rattle.gno_terms.specs.declared.term.GoType.{GoType};
ghost use Rattle.gno_terms.specs.declared.term.TermOf.TheVariants as form;
ghost use Rattle.gno_terms.specs.declared.term.TypeRef.{TypeRef};
ghost use Rattle.gno_type_classes.specs.Unnumbered.{unnumbered};
ghost use Rattle.gno_typing.specs.Conversions.{ElementsAre};

use crate::parts::sliced;
use crate::under::term_under;
use gno_base::Kind;
use gno_terms::{Term, TypeRef};
use gno_type_table::TypeTable;

/// Whether a row is the basic type of a kind.
pub(crate) fn is_of_kind(row: &Term, kind: Kind) -> bool
    ensures { (f : TypeRef → GoType) → IsTrue result ↔ (term_with f row.now ≡ form.Basic kind) }
{
    match row {
        Term::Basic(own) => *own == kind,
        _ => false,
    }
}

// Whether the underlying type is the basic type of a kind.
fn has_kind(types: &TypeTable, t: TypeRef, kind: Kind) -> bool
    ensures { (s : GoType) → Is types.now t s → IsTrue result ↔ ((u : GoType) × Underlying (unnumbered types.now) s u × (term_of u ≡ form.Basic kind)) }
{
    match term_under(types, t) {
        Some(row) => is_of_kind(row, kind),
        None => false,
    }
}

/// Whether a row is a slice whose elements have the basic type of a kind as their underlying type.
pub(crate) fn has_elements(types: &TypeTable, row: &Term, kind: Kind) -> bool
    requires { PartsBelow (length types.now.types) row.now }
    ensures { (u : GoType) → term_of u ≡ term_with (type_at types.now.types) row.now → IsTrue result ↔ ElementsAre kind (unnumbered types.now) u }
{
    match sliced(row) {
        Some(of) => has_kind(types, of, kind),
        None => false,
    }
}
