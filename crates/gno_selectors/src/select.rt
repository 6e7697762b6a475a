// Which field or method a selector names.
ghost use Rattle.std.specs.Prelude.{◌≡◌, ◌<◌, ◌↔◌, IfOk, IsTrue, Some, length, slice_get};
ghost use Rattle.gno_embedding.specs.Embedding.{IsComplete, IsKnown};
ghost use Rattle.gno_embedding.specs.Reaching.{AreReached};
ghost use Rattle.gno_promotion.specs.MethodSets.{Member};
ghost use Rattle.gno_selectors.specs.Selectors.{IsBlank, IsSelection, IsSelectionBelow};
ghost use Rattle.gno_selectors.specs.Standings.{Holds, IsMember, StandsIn, called};
ghost use Rattle.gno_selectors.specs.declared.selection.Selection.TheVariants as selection;
ghost use Rattle.gno_selectors.specs.declared.standing.Standing.TheVariants.{Nowhere};
ghost use Rattle.gno_terms.specs.Tables.{Below, Is, error_interface};
ghost use Rattle.gno_terms.specs.declared.term.FieldOf.{FieldOf};
ghost use Rattle.gno_terms.specs.declared.term.GoType.{GoType};
ghost use Rattle.gno_terms.specs.declared.term.MethodOf.{MethodOf};
ghost use Rattle.gno_terms.specs.declared.term.TypeRef.{TypeRef};

use crate::members::{declared, own, underlying};
use crate::nearest::{first_from, has_rival};
use crate::selection::{Passed, Selection};
use crate::standing::{Standing, standing_in};
use crate::way::way_to;
use gno_base::{Bytes, List};
use gno_embedding::{Reach, Reached, follow_embedded};
use gno_terms::{Field, FieldOf, Method, MethodOf, Term, TypeRef};
use gno_type_rows::Rows;
use std::alloc::{AllocError, Global};

/// What a name selects in a type of which each type is defined that its embedded fields lead to. The package is empty where the
/// name is exported, and else the path of the package that asks. Takes time by the number of the members of the type, and where none
/// of these has the name by the number of types and members that embedded fields lead to, and its logarithm. Go specification,
/// "Selectors".
pub fn find_selected(
    alloc: Global,
    rows: &Rows,
    error: TypeRef,
    number: TypeRef,
    name: &[u8],
    package: &[u8],
) -> Result<Selection, AllocError>
    requires error { Is rows.now error error_interface }
    requires below { Below (length rows.now.types) number }
    requires complete { (s : GoType) → Is rows.now number s → IsComplete rows.now s }
    ensures selection { IfOk result (λ it. (s : GoType) → Is rows.now number s → IsSelection rows.now s name.now «package».now it) }
    ensures below { IfOk result (λ it. IsSelectionBelow (length rows.now.types) it) }
{
    rows.have_one_definition();
    if is_blank(name) {
        return Ok(Selection::Missing);
    }
    match standing_in(rows, error, number, name, package) {
        Standing::Nowhere => find_embedded(alloc, rows, error, number, name, package),
        Standing::At(place) => selected(alloc, rows, error, List::new(alloc), number, place),
        Standing::Twice => Ok(Selection::Ambiguous),
    }
}

// Among the types that embedded fields lead to.
fn find_embedded(
    alloc: Global,
    rows: &Rows,
    error: TypeRef,
    number: TypeRef,
    name: &[u8],
    package: &[u8],
) -> Result<Selection, AllocError>
    requires error { Is rows.now error error_interface }
    requires below { Below (length rows.now.types) number }
    requires complete { (s : GoType) → Is rows.now number s → IsComplete rows.now s }
    requires named { IsBlank name.now → ⊥ }
    requires nowhere { StandsIn rows.now number (called name.now «package».now) Nowhere }
    ensures selection { IfOk result (λ it. (s : GoType) → Is rows.now number s → IsSelection rows.now s name.now «package».now it) }
    ensures below { IfOk result (λ it. IsSelectionBelow (length rows.now.types) it) }
{
    rows.have_one_number();
    let term = rows.term(number);
    match follow_embedded(alloc, rows, number, term)? {
        Reach::All(reached) => {
            find_among(
                alloc,
                rows,
                error,
                number,
                reached.as_slice(),
                name,
                package,
            )
        }
        Reach::Blocked(_) => unreachable!(),
    }
}

// Among these types.
fn find_among(
    alloc: Global,
    rows: &Rows,
    error: TypeRef,
    number: TypeRef,
    reached: &[Reached],
    name: &[u8],
    package: &[u8],
) -> Result<Selection, AllocError>
    requires error { Is rows.now error error_interface }
    requires reached { (s : GoType) → Is rows.now number s → AreReached rows.now s reached.now }
    requires named { IsBlank name.now → ⊥ }
    requires nowhere { StandsIn rows.now number (called name.now «package».now) Nowhere }
    ensures selection { IfOk result (λ it. (s : GoType) → Is rows.now number s → IsSelection rows.now s name.now «package».now it) }
    ensures below { IfOk result (λ it. IsSelectionBelow (length rows.now.types) it) }
{
    rows.have_one_number();
    rows.have_one_definition();
    let Some(first) = first_from(rows, error, reached, 0, name, package) else {
        return Ok(Selection::Missing);
    };
    let nearest = reached[first];
    if nearest.twice {
        return Ok(Selection::Ambiguous);
    }
    if has_rival(rows, error, reached, first, name, package) {
        return Ok(Selection::Ambiguous);
    }
    match standing_in(rows, error, nearest.of, name, package) {
        Standing::Nowhere => unreachable!(),
        Standing::At(place) => {
            let way = way_to(alloc, reached, first)?;
            selected(alloc, rows, error, way, nearest.of, place)
        }
        Standing::Twice => Ok(Selection::Ambiguous),
    }
}

// The member at a place of a type, with the way to it.
fn selected(
    alloc: Global,
    rows: &Rows,
    error: TypeRef,
    way: List<Passed>,
    of: TypeRef,
    place: usize,
) -> Result<Selection, AllocError>
    requires error { Is rows.now error error_interface }
    requires known { (s : GoType) → Is rows.now of s → IsKnown rows.now s }
    requires member { (m : Member) × IsMember rows.now of place m }
    ensures holds { IfOk result (λ it. (m : Member) → IsMember rows.now of place m → Holds rows.now way of m it) }
    ensures below { IfOk result (λ it. IsSelectionBelow (length rows.now.types) it) }
{
    rows.have_one_definition();
    let underlying = underlying(rows, error, of);
    let methods = own(declared(rows, of), underlying);
    if place < methods.len() {
        return method_at(alloc, way, of, methods, place);
    }
    let place = place - methods.len();
    match underlying {
        Term::Struct(fields) => field_at(alloc, way, of, fields.as_slice(), place),
        Term::Interface(methods) => method_at(alloc, way, of, methods.as_slice(), place),
        _ => unreachable!(),
    }
}

fn field_at(
    alloc: Global,
    way: List<Passed>,
    of: TypeRef,
    fields: &[Field],
    place: usize,
) -> Result<Selection, AllocError>
    requires { place < length fields.now }
    ensures { IfOk result (λ it. (f : FieldOf TypeRef) × (slice_get fields.now place ≡ Some f) × (it ≡ selection.Field way of place f)) }
{
    let field = copy_field(alloc, &fields[place])?;
    Ok(Selection::Field {
        way,
        of,
        place,
        field,
    })
}

fn method_at(
    alloc: Global,
    way: List<Passed>,
    of: TypeRef,
    methods: &[Method],
    place: usize,
) -> Result<Selection, AllocError>
    requires { place < length methods.now }
    ensures { IfOk result (λ it. (m : MethodOf TypeRef) × (slice_get methods.now place ≡ Some m) × (it ≡ selection.Method way of m)) }
{
    let method = copy_method(alloc, &methods[place])?;
    Ok(Selection::Method { way, of, method })
}

// Whether it is the blank identifier.
fn is_blank(name: &[u8]) -> bool
    ensures { IsTrue result ↔ IsBlank name.now }
{
    name == b"_".as_slice()
}

fn copy_field(alloc: Global, field: &Field) -> Result<Field, AllocError>
    ensures { IfOk result (λ it. it ≡ field.now) }
{
    Ok(FieldOf {
        name: Bytes::from_slice(alloc, field.name.as_slice())?,
        package: Bytes::from_slice(alloc, field.package.as_slice())?,
        embedded: field.embedded,
        of: field.of,
    })
}

fn copy_method(alloc: Global, method: &Method) -> Result<Method, AllocError>
    ensures { IfOk result (λ it. it ≡ method.now) }
{
    Ok(MethodOf {
        name: Bytes::from_slice(alloc, method.name.as_slice())?,
        package: Bytes::from_slice(alloc, method.package.as_slice())?,
        of: method.of,
        pointer: method.pointer,
    })
}
