// Which of the types that embedded fields lead to have a name.
ghost use Rattle.std.specs.Prelude.{◌≡◌, ◌+◌, ◌<◌, ◌↔◌, IfSome, IsNone, IsTrue, length};
ghost use Rattle.gno_embedding.specs.Reaching.{Rises};
ghost use Rattle.gno_promotion.specs.Candidates.{IsKnownAt};
ghost use Rattle.gno_selectors.specs.Standings.{Has, HasRival, IsFirst, LackFrom, called};
ghost use Rattle.gno_terms.specs.Lawful.{Each};
ghost use Rattle.gno_terms.specs.Tables.{Below, Is, error_interface};
ghost use Rattle.gno_embedding.specs.Embedding.{IsKnown};
ghost use Rattle.gno_terms.specs.declared.term.GoType.{GoType};

use crate::standing::{Standing, standing_in};
use gno_embedding::Reached;
use gno_terms::TypeRef;
use gno_type_rows::Rows;

/// The place of the first of these types, from a place on, that has a member of the name.
pub(crate) fn first_from(
    rows: &Rows,
    error: TypeRef,
    reached: &[Reached],
    from: usize,
    name: &[u8],
    package: &[u8],
) -> Option<usize>
    requires error { Is rows.now error error_interface }
    requires known { Each (IsKnownAt rows.now) reached.now }
    ensures some { IfSome result (λ place. IsFirst rows.now (called name.now «package».now) reached.now from place) }
    ensures none { IsNone result → LackFrom rows.now (called name.now «package».now) reached.now from }
{
    for place in from..reached.len() {
        if has(rows, error, reached[place].of, name, package) {
            return Some(place);
        }
    }
    None
}

// Whether a type has a member of the name.
fn has(rows: &Rows, error: TypeRef, of: TypeRef, name: &[u8], package: &[u8]) -> bool
    requires error { Is rows.now error error_interface }
    requires below { Below (length rows.now.types) of }
    requires known { (s : GoType) → Is rows.now of s → IsKnown rows.now s }
    ensures { IsTrue result ↔ Has rows.now (called name.now «package».now) of }
{
    rows.have_one_definition();
    match standing_in(rows, error, of, name, package) {
        Standing::Nowhere => false,
        _ => true,
    }
}

/// Whether another of these types that has a member of the name stands behind the one at a place, and is not deeper.
pub(crate) fn has_rival(
    rows: &Rows,
    error: TypeRef,
    reached: &[Reached],
    place: usize,
    name: &[u8],
    package: &[u8],
) -> bool
    requires error { Is rows.now error error_interface }
    requires known { Each (IsKnownAt rows.now) reached.now }
    requires place { place < length reached.now }
    requires rises { Rises reached.now }
    ensures { IsTrue result ↔ HasRival rows.now (called name.now «package».now) reached.now place }
{
    match first_from(rows, error, reached, place + 1, name, package) {
        Some(next) => reached[next].depth == reached[place].depth,
        None => false,
    }
}
