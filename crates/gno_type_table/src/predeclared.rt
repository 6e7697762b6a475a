// What `error` is.
ghost use Rattle.std.specs.Prelude.{◌≡◌, IfOk};
ghost use Rattle.gno_terms.specs.Tables.{Grows, Is, error_interface};
ghost use Rattle.gno_type_table.specs.ErrorParts.{error_function, text_type};

use gno_base::{Bytes, Kind, List};
use gno_terms::{Method, Term, TypeRef};
use gno_type_rows::Rows;
use std::alloc::{AllocError, Global};

/// Adds the interface type that the predeclared type `error` has. Go specification, "Errors".
pub(crate) fn error_interface(alloc: Global, rows: &mut Rows) -> Result<TypeRef, AllocError>
    ensures is { IfOk result (λ t. Is rows.new t error_interface) }
    ensures definitions { rows.new.definitions ≡ rows.old.definitions }
{
    let text = text_type(rows)?;
    let function = error_function(alloc, rows, text)?;
    interface_of(alloc, rows, function)
}

fn text_type(rows: &mut Rows) -> Result<TypeRef, AllocError>
    ensures is { IfOk result (λ t. Is rows.new t text_type) }
    ensures definitions { rows.new.definitions ≡ rows.old.definitions }
{
    rows.intern(Term::Basic(Kind::Text))
}

// `func() string`
fn error_function(alloc: Global, rows: &mut Rows, text: TypeRef) -> Result<TypeRef, AllocError>
    requires { Is rows.old text text_type }
    ensures is { IfOk result (λ t. Is rows.new t error_function) }
    ensures definitions { rows.new.definitions ≡ rows.old.definitions }
{
    let results = List::from_slice(alloc, &[text])?;
    rows.intern(Term::Function {
        params: List::new(alloc),
        variadic: false,
        results,
    })
}

// `interface { Error() string }`
fn interface_of(alloc: Global, rows: &mut Rows, function: TypeRef) -> Result<TypeRef, AllocError>
    requires { Is rows.old function error_function }
    ensures is { IfOk result (λ t. Is rows.new t error_interface) }
    ensures definitions { rows.new.definitions ≡ rows.old.definitions }
{
    let mut methods = List::new(alloc);
    methods.push(Method {
        name: Bytes::from_slice(alloc, b"Error")?,
        package: Bytes::new(alloc),
        of: function,
        pointer: false,
    })?;
    rows.intern(Term::Interface(methods))
}
