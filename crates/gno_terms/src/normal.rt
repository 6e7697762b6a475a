// The normal form of a term.
ghost use Rattle.std.specs.Prelude.{◌≡◌, IfOk, map};
ghost use Rattle.gno_terms.specs.Normal.{by_name, in_byte_order, normal_field, normal_method, normal_term};

use crate::{Field, Method, Term, TermOf, is_exported};
use gno_base::{Bytes, List};
use std::alloc::{AllocError, Global};
use std::cmp::Ordering;

/// The term in its normal form: the methods of an interface in byte order, and no package beside an exported name.
/// Go specification, "Type identity".
pub fn normal_term(alloc: Global, term: Term) -> Result<Term, AllocError>
    ensures { IfOk result (λ it. it ≡ normal_term term) }
{
    match term {
        TermOf::Struct(fields) => Ok(TermOf::Struct(normal_fields(alloc, fields))),
        TermOf::Interface(methods) => Ok(TermOf::Interface(normal_methods(alloc, methods)?)),
        term => Ok(term),
    }
}

/// The fields with no package beside an exported name.
fn normal_fields(alloc: Global, fields: List<Field>) -> List<Field>
    ensures { result ≡ map normal_field fields }
{
    let mut fields = fields.into_vec();
    normalize_fields(alloc, &mut fields);
    List::from_vec(fields)
}

fn normalize_fields(alloc: Global, fields: &mut [Field])
    ensures { fields.new ≡ map normal_field fields.old }
{
    for field in fields.iter_mut() {
        normalize_field(alloc, field);
    }
}

fn normalize_field(alloc: Global, field: &mut Field)
    ensures { field.new ≡ normal_field field.old }
{
    if is_exported(field.name.as_slice()) {
        field.package = Bytes::new(alloc);
    }
}

/// The methods in byte order, with no package beside an exported name.
fn normal_methods(alloc: Global, methods: List<Method>) -> Result<List<Method>, AllocError>
    ensures { IfOk result (λ it. it ≡ in_byte_order (map normal_method methods)) }
{
    in_byte_order(normal_packages(alloc, methods))
}

/// The methods with no package beside an exported name.
pub fn normal_packages(alloc: Global, methods: List<Method>) -> List<Method>
    ensures { result ≡ map normal_method methods }
{
    let mut methods = methods.into_vec();
    normalize_methods(alloc, &mut methods);
    List::from_vec(methods)
}

fn normalize_methods(alloc: Global, methods: &mut [Method])
    ensures { methods.new ≡ map normal_method methods.old }
{
    for method in methods.iter_mut() {
        normalize_method(alloc, method);
    }
}

fn normalize_method(alloc: Global, method: &mut Method)
    ensures { method.new ≡ normal_method method.old }
{
    if is_exported(method.name.as_slice()) {
        method.package = Bytes::new(alloc);
    }
}

/// The methods in byte order; those of one name and package stay in their order.
fn in_byte_order(methods: List<Method>) -> Result<List<Method>, AllocError>
    ensures { IfOk result (λ it. it ≡ in_byte_order methods) }
{
    let mut methods = methods.into_vec();
    methods.sort_by(by_name)?;
    Ok(List::from_vec(methods))
}

/// The byte order of the names, then of the packages.
fn by_name(a: &Method, b: &Method) -> Ordering
    ensures { result ≡ by_name a.now b.now }
{
    a.name.cmp(&b.name).then_with(|| a.package.cmp(&b.package))
}
