// What types are made of.
ghost use Rattle.std.specs.Prelude.{◌≡◌, ◌↔◌, IfOk, IsTrue, map, true};
ghost use Rattle.gno_made_types.specs.Parts.{IsPart, IsPartField, IsPartMethod};
ghost use Rattle.gno_terms.specs.Lawful.{Each, Last, is_function, is_slice};
ghost use Rattle.gno_terms.specs.Tables.{type_at};
ghost use Rattle.gno_terms.specs.Terms.{term_of};
ghost use Rattle.gno_typing.specs.Names.{is_blank};

use gno_terms::{Field, Method, Term, TypeRef};
use gno_type_classes::is_untyped;
use gno_type_reading::is_owned_name;
use gno_type_table::TypeTable;
use std::alloc::{AllocError, Global};

/// Whether a name is the blank one. Go specification, "Blank identifier".
pub(crate) fn is_blank(name: &[u8]) -> bool
    ensures { result ≡ is_blank name.now }
{
    name == b"_".as_slice()
}

/// Whether the number stands for a type that may be a part of another one.
pub(crate) fn is_part(types: &TypeTable, of: TypeRef) -> bool
    ensures { IsTrue result ↔ IsPart types.now of }
{
    types.contains(of) && !is_untyped(types, of)
}

pub(crate) fn are_parts(types: &TypeTable, parts: &[TypeRef]) -> bool
    ensures { IsTrue result ↔ Each (IsPart types.now) parts.now }
{
    for part in parts {
        if !is_part(types, *part) {
            return false;
        }
    }
    true
}

/// Whether the last of some types is a slice type.
pub(crate) fn ends_in_slice(types: &TypeTable, parts: &[TypeRef]) -> bool
    requires { Each (IsPart types.now) parts.now }
    ensures { IsTrue result ↔ Last (λ s. is_slice (term_of s) ≡ true) (map (type_at types.now.types) parts.now) }
{
    match parts {
        [] => false,
        [.., last] => is_slice(types, *last),
    }
}

fn is_slice(types: &TypeTable, t: TypeRef) -> bool
    requires { IsPart types.now t }
    ensures { result ≡ is_slice (term_of (type_at types.now.types t)) }
{
    matches!(types.term(t), Term::Slice(_))
}

fn is_function(types: &TypeTable, t: TypeRef) -> bool
    requires { IsPart types.now t }
    ensures { result ≡ is_function (term_of (type_at types.now.types t)) }
{
    matches!(types.term(t), Term::Function { .. })
}

fn is_field(alloc: Global, types: &TypeTable, field: &Field) -> Result<bool, AllocError>
    ensures { IfOk result (λ yes. IsTrue yes ↔ IsPartField types.now field.now) }
{
    if is_part(types, field.of) {
        is_owned_name(alloc, &field.name, &field.package)
    } else {
        Ok(false)
    }
}

/// Whether a struct may have these fields.
pub(crate) fn are_fields(
    alloc: Global,
    types: &TypeTable,
    fields: &[Field],
) -> Result<bool, AllocError>
    ensures { IfOk result (λ yes. IsTrue yes ↔ Each (IsPartField types.now) fields.now) }
{
    for field in fields {
        if !is_field(alloc, types, field)? {
            return Ok(false);
        }
    }
    Ok(true)
}

fn is_method(alloc: Global, types: &TypeTable, method: &Method) -> Result<bool, AllocError>
    ensures { IfOk result (λ yes. IsTrue yes ↔ IsPartMethod types.now method.now) }
{
    if !is_part(types, method.of) {
        return Ok(false);
    }
    if method.pointer || !is_function(types, method.of) {
        return Ok(false);
    }
    is_owned_name(alloc, &method.name, &method.package)
}

/// Whether an interface may have these methods.
pub(crate) fn are_methods(
    alloc: Global,
    types: &TypeTable,
    methods: &[Method],
) -> Result<bool, AllocError>
    ensures { IfOk result (λ yes. IsTrue yes ↔ Each (IsPartMethod types.now) methods.now) }
{
    for method in methods {
        if !is_method(alloc, types, method)? {
            return Ok(false);
        }
    }
    Ok(true)
}
