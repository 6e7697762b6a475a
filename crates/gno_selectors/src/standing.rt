// Where a name stands among the members of one type.
ghost use Rattle.std.specs.Prelude.{◌≡◌, ◌+◌, ◌↔◌, IsTrue, Some, length, map, slice_get};
ghost use Rattle.gno_embedding.specs.Embedding.{IsKnown};
ghost use Rattle.gno_selectors.specs.Standings.{IsStanding, StandsIn, called, field_name, is_called, method_name, names, names_in, with_one};
ghost use Rattle.gno_terms.specs.Tables.{Below, Is, error_interface};
ghost use Rattle.gno_terms.specs.declared.term.GoType.{GoType};

use crate::members::{declared, own, underlying};
use gno_terms::{Field, Method, Term, TypeRef};
use gno_type_rows::Rows;

/// At which places among the members of a type a name stands.
#[derive(Clone, Copy, Debug)]
pub enum Standing {
    Nowhere,
    /// At this one alone.
    At(usize),
    /// At two or more.
    Twice,
}

/// Where a name stands among the members of a type.
pub(crate) fn standing_in(
    rows: &Rows,
    error: TypeRef,
    t: TypeRef,
    name: &[u8],
    package: &[u8],
) -> Standing
    requires error { Is rows.now error error_interface }
    requires below { Below (length rows.now.types) t }
    requires known { (s : GoType) → Is rows.now t s → IsKnown rows.now s }
    ensures { StandsIn rows.now t (called name.now «package».now) result }
{
    let underlying = underlying(rows, error, t);
    let methods = own(declared(rows, t), underlying);
    standing_among(methods, underlying, name, package)
}

// Where a name stands among methods, and behind them the fields or methods of an underlying type.
fn standing_among(methods: &[Method], underlying: &Term, name: &[u8], package: &[u8]) -> Standing
    ensures { IsStanding (called name.now «package».now) (names methods.now underlying.now) result }
{
    let mut standing = Standing::Nowhere;
    for place in 0..count(methods, underlying) {
        if is_named(methods, underlying, place, name, package) {
            standing = with_one(standing, place);
        }
    }
    standing
}

// Where a name stands that is met at one place more.
fn with_one(standing: Standing, place: usize) -> Standing
    ensures { result ≡ with_one place standing }
{
    match standing {
        Standing::Nowhere => Standing::At(place),
        _ => Standing::Twice,
    }
}

// How many there are.
fn count(methods: &[Method], underlying: &Term) -> usize
    ensures { result ≡ length (names methods.now underlying.now) }
{
    match underlying {
        Term::Struct(fields) => count_with_fields(methods, fields.as_slice()),
        Term::Interface(more) => count_with_methods(methods, more.as_slice()),
        _ => methods.len(),
    }
}

fn count_with_fields(methods: &[Method], fields: &[Field]) -> usize
    ensures { result ≡ length methods.now + length fields.now }
{
    methods.len() + fields.len()
}

fn count_with_methods(methods: &[Method], more: &[Method]) -> usize
    ensures { result ≡ length methods.now + length more.now }
{
    methods.len() + more.len()
}

// Whether the one at a place has the name.
fn is_named(
    methods: &[Method],
    underlying: &Term,
    place: usize,
    name: &[u8],
    package: &[u8],
) -> bool
    ensures { IsTrue result ↔ (slice_get (names methods.now underlying.now) place ≡ Some (called name.now «package».now)) }
{
    if place < methods.len() {
        is_method_named(methods, place, name, package)
    } else {
        is_part_named(underlying, place - methods.len(), name, package)
    }
}

fn is_part_named(underlying: &Term, place: usize, name: &[u8], package: &[u8]) -> bool
    ensures { IsTrue result ↔ (slice_get (names_in underlying.now) place ≡ Some (called name.now «package».now)) }
{
    match underlying {
        Term::Struct(fields) => is_field_named(fields.as_slice(), place, name, package),
        Term::Interface(methods) => is_method_named(methods.as_slice(), place, name, package),
        _ => false,
    }
}

fn is_field_named(fields: &[Field], place: usize, name: &[u8], package: &[u8]) -> bool
    ensures { IsTrue result ↔ (slice_get (map field_name fields.now) place ≡ Some (called name.now «package».now)) }
{
    if place >= fields.len() {
        return false;
    }
    let field = &fields[place];
    is_called(
        field.name.as_slice(),
        field.package.as_slice(),
        name,
        package,
    )
}

fn is_method_named(methods: &[Method], place: usize, name: &[u8], package: &[u8]) -> bool
    ensures { IsTrue result ↔ (slice_get (map method_name methods.now) place ≡ Some (called name.now «package».now)) }
{
    if place >= methods.len() {
        return false;
    }
    let method = &methods[place];
    is_called(
        method.name.as_slice(),
        method.package.as_slice(),
        name,
        package,
    )
}

// Whether a name and its package are these.
fn is_called(own: &[u8], own_package: &[u8], name: &[u8], package: &[u8]) -> bool
    ensures { result ≡ is_called (called own.now own_package.now) (called name.now «package».now) }
{
    own == name && own_package == package
}
