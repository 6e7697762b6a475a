// Types that are made of one other type or of two, and function types.
ghost use Rattle.std.specs.Prelude.{◌≡◌, Bool, IfOk, List, Some, true};
ghost use Rattle.gno_judging.specs.Answers.{Answers};
ghost use Rattle.gno_judging.specs.Found.{TypeStands};
ghost use Rattle.gno_judging.specs.Stands.{BothStand, EachStands};
ghost use Rattle.gno_terms.specs.Lawful.{Last, is_slice};
ghost use Rattle.gno_terms.specs.Tables.{Grows};
ghost use Rattle.gno_terms.specs.Terms.{term_of};
ghost use Rattle.gno_terms.specs.declared.term.GoType.{GoType};
ghost use Rattle.gno_tree_typing.specs.Judging.{function_type};
ghost use Rattle.gno_tree_typing.specs.WrittenTypes.{array_type, map_type};
ghost use Rattle.gno_type_classes.specs.Unnumbered.{unnumbered};
ghost use Rattle.gno_typing.specs.Pointers.{pointer_to};
ghost use Rattle.gno_typing.specs.Slices.{slice_of};

use crate::parts::{are_parts, ends_in_slice, is_part};
use crate::sizes::small;
use gno_base::List;
use gno_judging::Faults;
use gno_scan::Pos;
use gno_terms::{Term, TypeRef};
use gno_type_classes::is_basic;
use gno_type_table::TypeTable;
use std::alloc::AllocError;

/// The type of pointers to a type that values may have. Go specification, "Pointer types". An `Err` comes where there is no memory.
pub fn pointer_to(types: &mut TypeTable, of: TypeRef) -> Result<TypeRef, AllocError>
    ensures stands { (s : GoType) → TypeStands types.old of s → IfOk result (λ r. TypeStands types.new r (pointer_to s)) }
    ensures grows { Grows types.old types.new }
    ensures definitions { types.new.definitions ≡ types.old.definitions }
{
    types.types_are_lawful();
    if is_part(types, of) {
        types.intern(Term::Pointer(of))
    } else {
        Ok(of)
    }
}

/// The type of slices of a type that values may have. Go specification, "Slice types". An `Err` comes where there is no memory.
pub fn slice_of(types: &mut TypeTable, of: TypeRef) -> Result<TypeRef, AllocError>
    ensures stands { (s : GoType) → TypeStands types.old of s → IfOk result (λ r. TypeStands types.new r (slice_of s)) }
    ensures grows { Grows types.old types.new }
    ensures definitions { types.new.definitions ≡ types.old.definitions }
{
    types.types_are_lawful();
    if is_part(types, of) {
        types.intern(Term::Slice(of))
    } else {
        Ok(of)
    }
}

/// The type of arrays of a length; `None` where its values would have too many slots, which is noted. Go specification, "Array types".
/// An `Err` comes where there is no memory.
pub fn array_type(
    types: &mut TypeTable,
    faults: &mut Faults,
    place: Pos,
    length: u64,
    element: TypeRef,
) -> Result<Option<TypeRef>, AllocError>
    ensures answers { (s : GoType) → TypeStands types.old element s → IfOk result (λ r. Answers (array_type (unnumbered types.old) place length s) (TypeStands types.new) faults.old faults.new r) }
    ensures grows { Grows types.old types.new }
    ensures definitions { types.new.definitions ≡ types.old.definitions }
{
    types.types_are_lawful();
    if is_part(types, element) {
        let made = types.intern(Term::Array(length, element))?;
        Ok(small(types, faults, place, made))
    } else {
        Ok(None)
    }
}

/// The type of maps of a key type and an element type; `None` where keys may not be of that type, which is noted. Go specification, "Map
/// types". An `Err` comes where there is no memory.
pub fn map_type(
    types: &mut TypeTable,
    faults: &mut Faults,
    place: Pos,
    key: TypeRef,
    value: TypeRef,
) -> Result<Option<TypeRef>, AllocError>
    ensures answers { (s u : GoType) → TypeStands types.old key s → TypeStands types.old value u → IfOk result (λ r. Answers (map_type (unnumbered types.old) place s u) (TypeStands types.new) faults.old faults.new r) }
    ensures grows { Grows types.old types.new }
    ensures definitions { types.new.definitions ≡ types.old.definitions }
{
    types.types_are_lawful();
    if !is_basic(types, key) {
        faults.note(62, place);
        return Ok(None);
    }
    if is_part(types, key) && is_part(types, value) {
        let made = types.intern(Term::Map(key, value))?;
        Ok(Some(made))
    } else {
        Ok(None)
    }
}

/// The type of functions of some parameters, of which the last one is a slice where it is variadic, and of some results. Go
/// specification, "Function types". An `Err` comes where there is no memory.
pub fn function_type(
    types: &mut TypeTable,
    params: List<TypeRef>,
    variadic: bool,
    results: List<TypeRef>,
) -> Result<Option<TypeRef>, AllocError>
    ensures stands { (ps rs : List GoType) → EachStands (TypeStands types.old) params ps → EachStands (TypeStands types.old) results rs → (variadic ≡ true → Last (λ s. is_slice (term_of s) ≡ true) ps)
        → IfOk result (λ r. BothStand (TypeStands types.new) r (Some (function_type variadic ps rs))) }
    ensures grows { Grows types.old types.new }
    ensures definitions { types.new.definitions ≡ types.old.definitions }
{
    types.types_are_lawful();
    if !are_parts(types, params.as_slice()) || !are_parts(types, results.as_slice()) {
        return Ok(None);
    }
    if variadic && !ends_in_slice(types, params.as_slice()) {
        return Ok(None);
    }
    let made = types.intern(Term::Function {
        params,
        variadic,
        results,
    })?;
    Ok(Some(made))
}
