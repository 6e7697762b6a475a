// A search and a flag beside each row.
ghost use Rattle.std.specs.Prelude.{◌≡◌, ◌<◌, ◌↔◌, [], ℕ, IfOk, IsTrue, Some, length, slice_get, take, true};
ghost use Rattle.gno_promotion.specs.declared.found.Search.{Search};
ghost use Rattle.gno_promotion.specs.declared.found.Search.TheVariants.{Blocked};
ghost use Rattle.gno_terms.specs.declared.term.TypeRef.{TypeRef};
ghost use Rattle.gno_type_table.specs.Kept.{IsFlagged, IsPut, awaited_by, reached_in};

use gno_base::List;
use gno_promotion::Search;
use gno_terms::TypeRef;
use std::alloc::{AllocError, Global};

/// The type whose definition a search waits for, where that is another than its own.
fn awaited_by(search: &Search) -> Option<TypeRef>
    ensures { result ≡ awaited_by search.now }
{
    match search {
        Search::Blocked(reached) => reached.as_slice().last().copied(),
        Search::Found { .. } => None,
    }
}

/// Whether a search waits for the definition of a type that is another than its own.
pub(crate) fn waits_for(search: &Search, t: TypeRef) -> bool
    ensures { IsTrue result ↔ (awaited_by search.now ≡ Some t) }
{
    match awaited_by(search) {
        Some(other) => other == t,
        None => false,
    }
}

/// Sets the flag of the type that a search waits for.
pub(crate) fn flag(awaited: &mut [bool], search: &Search)
    requires { (t : TypeRef) → awaited_by search.now ≡ Some t → t.0 < length awaited.old }
    ensures rise { (k : ℕ) → slice_get awaited.old k ≡ Some true → slice_get awaited.new k ≡ Some true }
    ensures flagged { IsFlagged search.now awaited.new }
{
    let Some(t) = awaited_by(search) else {
        return;
    };
    awaited[t.0 as usize] = true;
}

/// Puts a search in the place of another, and sets the flag of the type that it waits for.
pub(crate) fn put(searches: &mut [Search], awaited: &mut [bool], number: usize, search: Search)
    requires number { number < length searches.old }
    requires below { (t : TypeRef) → awaited_by search ≡ Some t → t.0 < length awaited.old }
    ensures { IsPut number search searches.old searches.new awaited.old awaited.new }
{
    flag(awaited, &search);
    searches[number] = search;
}

/// The types that a search reached.
pub(crate) fn reached_in(search: &Search) -> &[TypeRef]
    ensures { result.now ≡ reached_in search.now }
{
    match search {
        Search::Blocked(reached) => reached.as_slice(),
        Search::Found { reached, .. } => reached.as_slice(),
    }
}

/// The first types that a search reached.
pub(crate) fn first_reached(search: Search, count: usize) -> List<TypeRef>
    ensures { result ≡ take count (reached_in search) }
{
    match search {
        Search::Blocked(reached) => first(reached, count),
        Search::Found { reached, .. } => first(reached, count),
    }
}

fn first(types: List<TypeRef>, count: usize) -> List<TypeRef>
    ensures { result ≡ take count types }
{
    let mut types = types.into_vec();
    types.truncate(count);
    List::from_vec(types)
}

/// Searches that found nothing yet.
pub(crate) fn blank(alloc: Global, count: usize) -> Result<Vec<Search>, AllocError>
    ensures size { IfOk result (λ it. length it.items ≡ count) }
    ensures each { IfOk result (λ it. (n : ℕ) (search : Search) → slice_get it.items n ≡ Some search → search ≡ Blocked []) }
{
    let mut searches = Vec::new(alloc);
    for _number in 0..count {
        searches.push(Search::Blocked(List::new(alloc)))?;
    }
    Ok(searches)
}
