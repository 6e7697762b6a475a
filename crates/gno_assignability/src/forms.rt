// The forms of types that matter to assignability.
ghost use Rattle.std.specs.Prelude.{◌≡◌};
ghost use Rattle.gno_assignability.specs.Assignability.{default_kind, has_nil, is_named};

use gno_base::Kind;
use gno_terms::Term;

/// Whether `nil` is a value of an underlying type.
pub(crate) fn has_nil(term: &Term) -> bool
    ensures { result ≡ has_nil term.now }
{
    matches!(
        term,
        Term::Pointer(_)
            | Term::Function { .. }
            | Term::Slice(_)
            | Term::Map(_, _)
            | Term::Interface(_)
    )
}

/// Whether a type is named. Go specification, "Types".
pub(crate) fn is_named(term: &Term) -> bool
    ensures { result ≡ is_named term.now }
{
    matches!(
        term,
        Term::Basic(_) | Term::Error | Term::Realm | Term::Defined { .. }
    )
}

/// The kind of an untyped constant's default type. Go specification, "Constants".
pub(crate) fn default_kind(term: &Term) -> Option<Kind>
    ensures { result ≡ default_kind term.now }
{
    match term {
        Term::UntypedBool => Some(Kind::Bool),
        Term::UntypedWhole => Some(Kind::Int),
        Term::UntypedRune => Some(Kind::Int32),
        Term::UntypedText => Some(Kind::Text),
        _ => None,
    }
}
