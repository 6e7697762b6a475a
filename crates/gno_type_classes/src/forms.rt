// The classes of types, by one row.
ghost use Rattle.std.specs.Prelude.{◌≡◌, not};
ghost use Rattle.gno_assignability.specs.Assignability.{default_kind, has_nil, is_whole};
ghost use Rattle.gno_promotion.specs.MethodSets.{is_interface};
ghost use Rattle.gno_terms.specs.Lawful.{is_untyped};
ghost use Rattle.gno_typing.specs.Classes.{is_boolean, is_integer, is_ordered, is_text};
ghost use Rattle.gno_typing.specs.Conversions.{is_basic};
ghost use Rattle.gno_typing.specs.Selectors.{is_pointer_or_interface, is_pointer_term};

use gno_base::Kind;
use gno_terms::Term;

pub(crate) fn is_whole(kind: Kind) -> bool
    ensures { result ≡ is_whole kind }
{
    !matches!(kind, Kind::Bool | Kind::Text)
}

/// Whether values are integers. Go specification, "Numeric types".
pub(crate) fn is_integer(term: &Term) -> bool
    ensures { result ≡ is_integer term.now }
{
    match term {
        Term::Basic(kind) => is_whole(*kind),
        Term::UntypedWhole | Term::UntypedRune => true,
        _ => false,
    }
}

/// Whether values are strings. Go specification, "String types".
pub(crate) fn is_text(term: &Term) -> bool
    ensures { result ≡ is_text term.now }
{
    matches!(term, Term::Basic(Kind::Text) | Term::UntypedText)
}

/// Whether values are truth values. Go specification, "Boolean types".
pub(crate) fn is_boolean(term: &Term) -> bool
    ensures { result ≡ is_boolean term.now }
{
    matches!(term, Term::Basic(Kind::Bool) | Term::UntypedBool)
}

/// Whether values are ordered. Go specification, "Comparison operators".
pub(crate) fn is_ordered(term: &Term) -> bool
    ensures { result ≡ is_ordered term.now }
{
    is_integer(term) || is_text(term)
}

/// Whether the type is a basic one.
pub(crate) fn is_basic(term: &Term) -> bool
    ensures { result ≡ is_basic term.now }
{
    matches!(term, Term::Basic(_))
}

/// Whether the type is an interface. Go specification, "Interface types".
pub(crate) fn is_interface(term: &Term) -> bool
    ensures { result ≡ is_interface term.now }
{
    matches!(term, Term::Interface(_))
}

/// Whether `nil` is a value.
pub(crate) fn has_nil(term: &Term) -> bool
    ensures { result ≡ has_nil term.now }
{
    matches!(
        term,
        Term::Pointer(_)
            | Term::Function { .. }
            | Term::Slice(_)
            | Term::Map(_, _)
            | Term::Interface(_)
    )
}

/// Whether the type is that of an untyped constant, or of `nil`. Go specification, "Constants".
pub(crate) fn is_untyped(term: &Term) -> bool
    ensures { result ≡ is_untyped term.now }
{
    matches!(
        term,
        Term::UntypedBool
            | Term::UntypedWhole
            | Term::UntypedRune
            | Term::UntypedText
            | Term::UntypedNil
    )
}

/// The kind of an untyped constant's default type. Go specification, "Constants".
pub(crate) fn default_kind(term: &Term) -> Option<Kind>
    ensures { result ≡ default_kind term.now }
{
    match term {
        Term::UntypedBool => Some(Kind::Bool),
        Term::UntypedWhole => Some(Kind::Int),
        Term::UntypedRune => Some(Kind::Int32),
        Term::UntypedText => Some(Kind::Text),
        _ => None,
    }
}

/// Whether the type may have fields or methods that a pointer to it has too: it is no pointer and no interface.
pub(crate) fn has_members(term: &Term) -> bool
    ensures { result ≡ not (is_pointer_or_interface term.now) }
{
    !matches!(term, Term::Pointer(_) | Term::Interface(_))
}

/// Whether the type is no pointer type, or a defined one.
pub(crate) fn is_no_pointer(term: &Term) -> bool
    ensures { result ≡ not (is_pointer_term term.now) }
{
    !matches!(term, Term::Pointer(_))
}
