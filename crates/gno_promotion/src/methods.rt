// The methods of a type, with those that its embedded fields promote.
ghost use Rattle.std.specs.Prelude.{◌≡◌, IfOk, false, length, map, true};
ghost use Rattle.gno_embedding.specs.Reaching.{AreReached, number_of};
ghost use Rattle.gno_promotion.specs.Candidates.{by_names, picked};
ghost use Rattle.gno_promotion.specs.Searches.{IsSearch};
ghost use Rattle.gno_terms.specs.Tables.{Is, PartsBelow, deep, error_interface};
ghost use Rattle.gno_terms.specs.declared.term.TypeRef.{TypeRef};
ghost use Rattle.gno_type_rows.specs.RowTypes.{is_defined};

use crate::candidate::Candidate;
use crate::found::{Promoted, Search};
use crate::gather::gather;
use crate::pick::{by_member, pick};
use gno_base::List;
use gno_embedding::{Reach, Reached, follow_embedded};
use gno_terms::{Term, TypeRef};
use gno_type_rows::Rows;
use std::alloc::{AllocError, Global};

/// Searches for the methods of a type. The type is given by its term, and by its number if it stands among the rows. Takes time by
/// the number of types and members that are met, and its logarithm. Go specification, "Selectors".
pub fn find_methods(
    alloc: Global,
    rows: &Rows,
    error: TypeRef,
    number: TypeRef,
    term: &Term,
) -> Result<Search, AllocError>
    requires error { Is rows.now error error_interface }
    requires parts { PartsBelow (length rows.now.types) term.now }
    requires number { (t : TypeRef) → Is rows.now t (deep rows.now.types term.now) → t ≡ number }
    requires defined { is_defined term.now ≡ true → Is rows.now number (deep rows.now.types term.now) }
    ensures { IfOk result (λ it. IsSearch rows.now (deep rows.now.types term.now) it) }
{
    match follow_embedded(alloc, rows, number, term)? {
        Reach::Blocked(types) => Ok(Search::Blocked(types)),
        Reach::All(reached) => find_among(alloc, rows, error, number, term, reached.as_slice()),
    }
}

// The methods, where embedded fields lead to these types.
fn find_among(
    alloc: Global,
    rows: &Rows,
    error: TypeRef,
    number: TypeRef,
    term: &Term,
    reached: &[Reached],
) -> Result<Search, AllocError>
    requires error { Is rows.now error error_interface }
    requires parts { PartsBelow (length rows.now.types) term.now }
    requires defined { is_defined term.now ≡ true → Is rows.now number (deep rows.now.types term.now) }
    requires reached { AreReached rows.now (deep rows.now.types term.now) reached.now }
    ensures { IfOk result (λ it. IsSearch rows.now (deep rows.now.types term.now) it) }
{
    rows.have_one_number();
    rows.have_one_definition();
    let candidates = gather(alloc, rows, error, number, term, reached)?;
    let methods = selected(alloc, candidates)?;
    let reached = numbers_of(alloc, reached)?;
    Ok(Search::Found { reached, methods })
}

// The methods that are selected among the members, of which the nearest are the first.
fn selected(alloc: Global, candidates: Vec<Candidate>) -> Result<List<Promoted>, AllocError>
    ensures { IfOk result (λ it. it ≡ picked false (by_names candidates.items)) }
{
    let mut candidates = candidates;
    candidates.sort_by(by_member)?;
    pick(alloc, candidates.as_slice())
}

fn numbers_of(alloc: Global, reached: &[Reached]) -> Result<List<TypeRef>, AllocError>
    ensures { IfOk result (λ it. it ≡ map number_of reached.now) }
{
    let mut numbers = List::new(alloc);
    for it in reached {
        numbers.push(it.of)?;
    }
    Ok(numbers)
}
