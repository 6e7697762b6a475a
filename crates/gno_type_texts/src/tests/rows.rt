// Rows that add types.
ghost use Rattle.std.specs.Prelude.{IfOk};
ghost use Rattle.gno_type_texts.specs.Shelves.{AreFields, AreMethods, IsField, IsMethod};

use super::shelf::Shelf;
use super::words::{name, path};
use gno_base::List;
use gno_terms::{Field, Method, Term};
use std::alloc::{AllocError, Global};

/// The name of a field, its package, whether it is embedded, and the place of its type.
pub(super) type FieldRow<'a> = (&'a [u8], &'a [u8], bool, usize);

/// The name of a method, its package and the place of its type.
pub(super) type MethodRow<'a> = (&'a [u8], &'a [u8], usize);

/// Adds the type that a declaration defines.
pub(super) fn defined(
    alloc: Global,
    shelf: &mut Shelf,
    package: &[u8],
    word: &[u8],
    local: u64,
) -> Result<(), AllocError> {
    let path = path(alloc, package)?;
    let name = name(alloc, word)?;
    shelf.add(Term::Defined { path, name, local })
}

pub(super) fn pointer(shelf: &mut Shelf, of: usize) -> Result<(), AllocError> {
    let of = shelf.part(of)?;
    shelf.add(Term::Pointer(of))
}

pub(super) fn slice(shelf: &mut Shelf, of: usize) -> Result<(), AllocError> {
    let of = shelf.part(of)?;
    shelf.add(Term::Slice(of))
}

pub(super) fn array(shelf: &mut Shelf, count: u64, of: usize) -> Result<(), AllocError> {
    let of = shelf.part(of)?;
    shelf.add(Term::Array(count, of))
}

pub(super) fn map(shelf: &mut Shelf, key: usize, of: usize) -> Result<(), AllocError> {
    let key = shelf.part(key)?;
    let of = shelf.part(of)?;
    shelf.add(Term::Map(key, of))
}

pub(super) fn function(
    alloc: Global,
    shelf: &mut Shelf,
    params: &[usize],
    results: &[usize],
) -> Result<(), AllocError> {
    let params = shelf.parts(alloc, params)?;
    let results = shelf.parts(alloc, results)?;
    shelf.add(Term::Function {
        params,
        variadic: false,
        results,
    })
}

/// Adds a function of a parameter and a variadic one, whose type is the slice at a place.
pub(super) fn variadic(
    alloc: Global,
    shelf: &mut Shelf,
    first: usize,
    rest: usize,
    results: &[usize],
) -> Result<(), AllocError> {
    let first = shelf.part(first)?;
    let rest = shelf.part(rest)?;
    let results = shelf.parts(alloc, results)?;
    let params = List::from_slice(alloc, &[first, rest])?;
    if shelf.is_slice(rest) {
        shelf.add(Term::Function {
            params,
            variadic: true,
            results,
        })
    } else {
        Err(AllocError)
    }
}

fn field(alloc: Global, shelf: &Shelf, row: &FieldRow) -> Result<Field, AllocError>
    ensures { IfOk result (IsField shelf.now) }
{
    let of = shelf.part(row.3)?;
    let name = name(alloc, row.0)?;
    let package = path(alloc, row.1)?;
    Ok(Field {
        name,
        package,
        embedded: row.2,
        of,
    })
}

fn fields(alloc: Global, shelf: &Shelf, rows: &[FieldRow]) -> Result<List<Field>, AllocError>
    ensures { IfOk result (AreFields shelf.now) }
{
    let mut fields = List::new(alloc);
    for row in rows {
        fields.push(field(alloc, shelf, row)?)?;
    }
    Ok(fields)
}

pub(super) fn structure(
    alloc: Global,
    shelf: &mut Shelf,
    rows: &[FieldRow],
) -> Result<(), AllocError> {
    let fields = fields(alloc, shelf, rows)?;
    shelf.add(Term::Struct(fields))
}

fn method(alloc: Global, shelf: &Shelf, row: &MethodRow) -> Result<Method, AllocError>
    ensures { IfOk result (IsMethod shelf.now) }
{
    let of = shelf.part(row.2)?;
    if !shelf.is_function(of) {
        return Err(AllocError);
    }
    let name = name(alloc, row.0)?;
    let package = path(alloc, row.1)?;
    Ok(Method {
        name,
        package,
        of,
        pointer: false,
    })
}

fn methods(alloc: Global, shelf: &Shelf, rows: &[MethodRow]) -> Result<List<Method>, AllocError>
    ensures { IfOk result (AreMethods shelf.now) }
{
    let mut methods = List::new(alloc);
    for row in rows {
        methods.push(method(alloc, shelf, row)?)?;
    }
    Ok(methods)
}

pub(super) fn interface(
    alloc: Global,
    shelf: &mut Shelf,
    rows: &[MethodRow],
) -> Result<(), AllocError> {
    let methods = methods(alloc, shelf, rows)?;
    shelf.add(Term::Interface(methods))
}
