// Terms that a table may take.
ghost use Rattle.std.specs.Prelude.{◌≡◌, ◌↔◌, ◌<◌, ◌^◌, IfOk, IsTrue, map, false, true};
ghost use Rattle.gno_scan.specs.Names.{IsName};
ghost use Rattle.gno_terms.specs.Lawful.{Each, IsLawful, IsPath, Last, is_function, is_slice, is_untyped};
ghost use Rattle.gno_terms.specs.Tables.{type_at};
ghost use Rattle.gno_terms.specs.Terms.{method_of, parts, term_of, term_with};
ghost use Rattle.gno_type_reading.specs.Known.{IsOwnedName, IsOwnedMethod, Known};

use crate::names::{is_name, is_path};
use gno_base::Bytes;
use gno_terms::{Field, Method, Term, TypeRef, is_exported};
use gno_type_table::TypeTable;
use std::alloc::{AllocError, Global};

/// Whether the term is lawful and not untyped.
pub(crate) fn is_lawful(alloc: Global, types: &TypeTable, term: &Term) -> Result<bool, AllocError>
    requires { Each (Known types.now) (parts term.now) }
    ensures { IfOk result (λ yes. IsTrue yes ↔ (IsLawful (term_with (type_at types.now.types) term.now) × (is_untyped term.now ≡ false))) }
{
    match term {
        Term::Basic(_) => Ok(true),
        Term::UntypedBool => Ok(false),
        Term::UntypedWhole => Ok(false),
        Term::UntypedRune => Ok(false),
        Term::UntypedText => Ok(false),
        Term::UntypedNil => Ok(false),
        Term::Error => Ok(true),
        Term::Realm => Ok(true),
        Term::Defined { path, name, local } => is_lawful_name(alloc, path, name, *local),
        Term::Pointer(_) => Ok(true),
        Term::Slice(_) => Ok(true),
        Term::Array(length, _) => {
            let _length = *length;
            Ok(true)
        }
        Term::Map(_, _) => Ok(true),
        Term::Function {
            params,
            variadic,
            ..
        } => Ok(!*variadic || ends_in_slice(types, params.as_slice())),
        Term::Struct(fields) => are_fields(alloc, fields.as_slice()),
        Term::Interface(methods) => are_methods(alloc, types, methods.as_slice()),
    }
}

/// Whether a defined type may have this name: its package a path, and its name an identifier.
pub fn is_lawful_name(
    alloc: Global,
    path: &Bytes,
    name: &Bytes,
    local: u64,
) -> Result<bool, AllocError>
    ensures { IfOk result (λ yes. IsTrue yes ↔ (IsPath path.now × IsName name.now × (local < 2 ^ 64))) }
{
    if is_name(name.as_slice()) {
        is_path(alloc, path.as_slice())
    } else {
        Ok(false)
    }
}

/// Whether the text is a name, and what it belongs to the path of a package unless it is exported.
pub fn is_owned_name(alloc: Global, name: &Bytes, path: &Bytes) -> Result<bool, AllocError>
    ensures { IfOk result (λ yes. IsTrue yes ↔ IsOwnedName name.now path.now) }
{
    if !is_name(name.as_slice()) {
        return Ok(false);
    }
    if is_exported(name.as_slice()) {
        return Ok(true);
    }
    is_path(alloc, path.as_slice())
}

fn are_fields(alloc: Global, fields: &[Field]) -> Result<bool, AllocError>
    ensures { IfOk result (λ yes. IsTrue yes ↔ Each (λ f. IsOwnedName f.name f.«package») fields.now) }
{
    for field in fields {
        if !is_owned_name(alloc, &field.name, &field.package)? {
            return Ok(false);
        }
    }
    Ok(true)
}

fn are_methods(alloc: Global, types: &TypeTable, methods: &[Method]) -> Result<bool, AllocError>
    requires { Each (Known types.now) (map method_of methods.now) }
    ensures { IfOk result (λ yes. IsTrue yes ↔ Each (IsOwnedMethod types.now.types) methods.now) }
{
    for method in methods {
        if !is_method(alloc, types, method)? {
            return Ok(false);
        }
    }
    Ok(true)
}

fn is_method(alloc: Global, types: &TypeTable, method: &Method) -> Result<bool, AllocError>
    requires { Known types.now method.now.of }
    ensures { IfOk result (λ yes. IsTrue yes ↔ IsOwnedMethod types.now.types method.now) }
{
    if method.pointer || !is_function(types, method.of) {
        return Ok(false);
    }
    is_owned_name(alloc, &method.name, &method.package)
}

fn is_function(types: &TypeTable, t: TypeRef) -> bool
    requires { Known types.now t }
    ensures { result ≡ is_function (term_of (type_at types.now.types t)) }
{
    matches!(types.term(t), Term::Function { .. })
}

fn is_slice(types: &TypeTable, t: TypeRef) -> bool
    requires { Known types.now t }
    ensures { result ≡ is_slice (term_of (type_at types.now.types t)) }
{
    matches!(types.term(t), Term::Slice(_))
}

fn ends_in_slice(types: &TypeTable, params: &[TypeRef]) -> bool
    requires { Each (Known types.now) params.now }
    ensures { IsTrue result ↔ Last (λ s. is_slice (term_of s) ≡ true) (map (type_at types.now.types) params.now) }
{
    match params {
        [] => false,
        [.., last] => is_slice(types, *last),
    }
}
