// Searches where definitions were taken back.
ghost use Rattle.std.specs.Prelude.{◌≡◌, ◌<◌, ℕ, IfSome, IsNone, Some, false, length, slice_get, true};
ghost use Rattle.gno_embedding.specs.Embedding.{IsKnown};
ghost use Rattle.gno_terms.specs.declared.term.GoType.{GoType};
ghost use Rattle.gno_terms.specs.declared.term.TypeRef.{TypeRef};
ghost use Rattle.gno_terms.specs.Tables.{Below, Is};
ghost use Rattle.gno_type_table.specs.Kept.{AreKept, IsAt, IsFirstUnknown, IsFlagged, IsKept, KnownBefore, Was};

use crate::keeping::{first_reached, flag, reached_in};
use gno_base::List;
use gno_promotion::Search;
use gno_terms::{Term, TypeRef};
use gno_type_rows::Rows;
use std::alloc::Global;

/// Cuts each search back to what is still defined. Takes no memory.
pub(crate) fn forget(alloc: Global, rows: &Rows, searches: &mut [Search], awaited: &mut [bool])
    requires { AreKept (Was rows.now) (length rows.now.types) searches.old awaited.old }
    ensures { IsKept rows.now searches.new awaited.new }
{
    rows.have_one_definition();
    for number in 0..searches.len() {
        let own = TypeRef(number as u64);
        forget_one(alloc, rows, own, &mut searches[number], awaited);
    }
}

fn forget_one(alloc: Global, rows: &Rows, own: TypeRef, search: &mut Search, awaited: &mut [bool])
    requires own { Below (length rows.now.types) own }
    requires was { Was rows.now own.0 search.old }
    requires flags { length awaited.old ≡ length rows.now.types }
    ensures at { IsAt rows.now own.0 search.new }
    ensures rise { (k : ℕ) → slice_get awaited.old k ≡ Some true → slice_get awaited.new k ≡ Some true }
    ensures flagged { IsFlagged search.new awaited.new }
{
    let old = std::mem::replace(search, Search::Blocked(List::new(alloc)));
    let new = cut_back(alloc, rows, own, old);
    flag(awaited, &new);
    *search = new;
}

/// A search without what was found behind a type that is undefined.
fn cut_back(alloc: Global, rows: &Rows, own: TypeRef, search: Search) -> Search
    requires own { Below (length rows.now.types) own }
    requires was { Was rows.now own.0 search }
    ensures { IsAt rows.now own.0 result }
{
    if is_undefined(rows, own) {
        return Search::Blocked(List::new(alloc));
    }
    match first_undefined(rows, reached_in(&search)) {
        Some(place) => Search::Blocked(first_reached(search, place + 1)),
        None => search,
    }
}

/// The place of the first of some types that is undefined.
fn first_undefined(rows: &Rows, types: &[TypeRef]) -> Option<usize>
    requires { (i : ℕ) (t : TypeRef) → slice_get types.now i ≡ Some t → Below (length rows.now.types) t }
    ensures some { IfSome result (λ place. IsFirstUnknown rows.now types.now place) }
    ensures none { IsNone result → KnownBefore rows.now types.now (length types.now) }
{
    for place in 0..types.len() {
        if is_undefined(rows, types[place]) {
            return Some(place);
        }
    }
    None
}

/// Whether the type is a defined one that no declaration defines.
fn is_undefined(rows: &Rows, t: TypeRef) -> bool
    requires { Below (length rows.now.types) t }
    ensures unknown { result ≡ true → (s : GoType) → Is rows.now t s → IsKnown rows.now s → ⊥ }
    ensures known { result ≡ false → (s : GoType) → Is rows.now t s → IsKnown rows.now s }
{
    match rows.term(t) {
        Term::Defined { .. } => match rows.definition(t) {
            Some(_definition) => false,
            None => true,
        },
        _ => false,
    }
}
