// Searches for the methods of the types that stand among rows.
ghost use Rattle.std.specs.Prelude.{◌≡◌, ◌<◌, ◌+◌, ◌⊎◌, ℕ, IfOk, OnErr, OnOk, Some, length};
ghost use Rattle.gno_promotion.specs.Searches.{IsSearch};
ghost use Rattle.gno_promotion.specs.declared.found.Search.{Search};
ghost use Rattle.gno_terms.specs.declared.term.TypeRef.{TypeRef};
ghost use Rattle.gno_terms.specs.Tables.{Below, Is, PartsBelow, deep, error_interface};
ghost use Rattle.gno_type_table.specs.Kept.{AreKept, IsAt, IsKept, IsSearched, MayWait, StayPast, WaitsFrom, awaited_by};

use crate::keeping::{put, waits_for};
use gno_base::List;
use gno_promotion::{Search, find_methods};
use gno_terms::{Term, TypeRef};
use gno_type_rows::Rows;
use std::alloc::{AllocError, Global};

/// Searches for the methods of a type that does not stand among the rows yet.
pub(crate) fn search_new(
    alloc: Global,
    rows: &Rows,
    error: TypeRef,
    term: &Term,
) -> Result<Search, AllocError>
    requires error { Is rows.now error error_interface }
    requires parts { PartsBelow (length rows.now.types) term.now }
    requires new { (t : TypeRef) → Is rows.now t (deep rows.now.types term.now) → ⊥ }
    ensures { IfOk result (λ it. IsSearch rows.now (deep rows.now.types term.now) it) }
{
    rows.has_each_defined();
    match term {
        Term::Defined { .. } => Ok(Search::Blocked(List::new(alloc))),
        _ => find_methods(alloc, rows, error, TypeRef(rows.len() as u64), term),
    }
}

/// Searches anew for the methods of a type. An `Err` changes nothing.
pub(crate) fn search_at(
    alloc: Global,
    rows: &Rows,
    error: TypeRef,
    number: usize,
    searches: &mut [Search],
    awaited: &mut [bool],
) -> Result<(), AllocError>
    requires error { Is rows.now error error_interface }
    requires number { number < length rows.now.types }
    requires size { length searches.old ≡ length rows.now.types }
    requires flags { length awaited.old ≡ length rows.now.types }
    ensures ok { OnOk result (IsSearched rows.now number searches.old searches.new awaited.old awaited.new) }
    ensures err { OnErr result ((searches.new ≡ searches.old) × (awaited.new ≡ awaited.old)) }
{
    rows.have_one_number();
    let own = TypeRef(number as u64);
    let search = find_methods(alloc, rows, error, own, rows.term(own))?;
    put(searches, awaited, number, search);
    Ok(())
}

/// Searches for the methods of all types.
pub(crate) fn search_all(
    alloc: Global,
    rows: &Rows,
    error: TypeRef,
    searches: &mut [Search],
    awaited: &mut [bool],
) -> Result<(), AllocError>
    requires error { Is rows.now error error_interface }
    requires kept { AreKept (λ _ _. Unit {0}) (length rows.now.types) searches.old awaited.old }
    ensures { OnOk result (IsKept rows.now searches.new awaited.new) }
{
    for number in 0..rows.len() {
        search_at(alloc, rows, error, number, searches, awaited)?;
    }
    Ok(())
}

/// Searches anew for the methods of a type that was defined, and of those whose searches wait for it. After an `Err` each search
/// is right for the rows with the definition or without it.
pub(crate) fn wake(
    alloc: Global,
    rows: &Rows,
    error: TypeRef,
    defined: TypeRef,
    searches: &mut [Search],
    awaited: &mut [bool],
) -> Result<(), AllocError>
    requires error { Is rows.now error error_interface }
    requires defined { Below (length rows.now.types) defined }
    requires kept { AreKept (MayWait rows.now defined) (length rows.now.types) searches.old awaited.old }
    ensures ok { OnOk result (IsKept rows.now searches.new awaited.new) }
    ensures past { StayPast rows.now searches.old searches.new awaited.old awaited.new }
{
    let number = defined.0 as usize;
    search_at(alloc, rows, error, number, searches, awaited)?;
    if awaited[number] {
        wake_all(alloc, rows, error, defined, searches, awaited)
    } else {
        Ok(())
    }
}

fn wake_all(
    alloc: Global,
    rows: &Rows,
    error: TypeRef,
    defined: TypeRef,
    searches: &mut [Search],
    awaited: &mut [bool],
) -> Result<(), AllocError>
    requires error { Is rows.now error error_interface }
    requires kept { AreKept (WaitsFrom rows.now defined 0) (length rows.now.types) searches.old awaited.old }
    ensures ok { OnOk result (IsKept rows.now searches.new awaited.new) }
    ensures past { StayPast rows.now searches.old searches.new awaited.old awaited.new }
{
    for number in 0..rows.len() {
        wake_one(alloc, rows, error, defined, number, searches, awaited)?;
    }
    Ok(())
}

fn wake_one(
    alloc: Global,
    rows: &Rows,
    error: TypeRef,
    defined: TypeRef,
    number: usize,
    searches: &mut [Search],
    awaited: &mut [bool],
) -> Result<(), AllocError>
    requires error { Is rows.now error error_interface }
    requires number { number < length rows.now.types }
    requires kept { AreKept (WaitsFrom rows.now defined number) (length rows.now.types) searches.old awaited.old }
    ensures ok { OnOk result (AreKept (WaitsFrom rows.now defined (number + 1)) (length rows.now.types) searches.new awaited.new) }
    ensures past { StayPast rows.now searches.old searches.new awaited.old awaited.new }
{
    if waits_for(&searches[number], defined) {
        search_at(alloc, rows, error, number, searches, awaited)
    } else {
        Ok(())
    }
}
