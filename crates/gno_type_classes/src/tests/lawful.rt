// Types that a table takes.
ghost use Rattle.std.specs.Prelude.{◌≡◌, ◌≢◌, IfOk, IsTrue, length, map, true};
ghost use Rattle.gno_scan.specs.Names.{IsName};
ghost use Rattle.gno_terms.specs.Lawful.{Each, IsPath, IsTyped, is_slice};
ghost use Rattle.gno_terms.specs.Tables.{Below, Defines, type_at};
ghost use Rattle.gno_terms.specs.Terms.{method_of, term_of};
ghost use Rattle.gno_terms.specs.declared.term.DefinitionOf.{DefinitionOf};
ghost use Rattle.gno_terms.specs.declared.term.GoType.{GoType};
ghost use Rattle.gno_type_rows.specs.RowTypes.{is_defined};

use crate::is_untyped;
use gno_base::{Bytes, List, Path, PathFault};
use gno_terms::{Method, Term, TypeRef};
use gno_type_table::TypeTable;
use std::alloc::{AllocError, Global};
use std::test::Fail;

const PATH: &str = "gno.land/p/demo/t";

// Whether the type may be a part of another.
fn is_part(types: &TypeTable, t: TypeRef) -> bool
    ensures below { IsTrue result → Below (length types.now.types) t }
    ensures typed { IsTrue result → IsTyped (type_at types.now.types t) }
{
    if !types.contains(t) {
        return false;
    }
    !is_untyped(types, t)
}

fn is_slice(types: &TypeTable, t: TypeRef) -> bool
    requires { Below (length types.now.types) t }
    ensures { IsTrue result → is_slice (term_of (type_at types.now.types t)) ≡ true }
{
    matches!(types.term(t), Term::Slice(_))
}

pub(super) fn pointer(types: &mut TypeTable, of: TypeRef) -> Result<TypeRef, Fail> {
    if !is_part(types, of) {
        return Err(Fail::from("no part"));
    }
    Ok(types.intern(Term::Pointer(of))?)
}

pub(super) fn slice(types: &mut TypeTable, of: TypeRef) -> Result<TypeRef, Fail> {
    if !is_part(types, of) {
        return Err(Fail::from("no part"));
    }
    Ok(types.intern(Term::Slice(of))?)
}

pub(super) fn array(types: &mut TypeTable, count: u64, of: TypeRef) -> Result<TypeRef, Fail> {
    if !is_part(types, of) {
        return Err(Fail::from("no part"));
    }
    Ok(types.intern(Term::Array(count, of))?)
}

pub(super) fn map(types: &mut TypeTable, key: TypeRef, of: TypeRef) -> Result<TypeRef, Fail> {
    if !is_part(types, key) {
        return Err(Fail::from("no part"));
    }
    if !is_part(types, of) {
        return Err(Fail::from("no part"));
    }
    Ok(types.intern(Term::Map(key, of))?)
}

/// A function with a variadic parameter of this slice type.
pub(super) fn function(alloc: Global, types: &mut TypeTable, of: TypeRef) -> Result<TypeRef, Fail> {
    if !is_part(types, of) {
        return Err(Fail::from("no part"));
    }
    if !is_slice(types, of) {
        return Err(Fail::from("no slice"));
    }
    let params = List::from_slice(alloc, &[of])?;
    Ok(types.intern(Term::Function {
        params,
        variadic: true,
        results: List::new(alloc),
    })?)
}

fn is_path(alloc: Global, text: &[u8]) -> Result<bool, AllocError>
    ensures { IfOk result (λ yes. IsTrue yes → IsPath text.now) }
{
    match Path::read(alloc, text) {
        Ok(_) => Ok(true),
        Err(PathFault::BadPath) => Ok(false),
        Err(PathFault::NoMemory) => Err(AllocError),
    }
}

fn name(alloc: Global) -> Result<Bytes, AllocError>
    ensures { IfOk result (λ name. IsName name) }
{
    Bytes::from_slice(alloc, b"T")
}

/// A defined type, by the number of its declaration.
pub(super) fn defined(alloc: Global, types: &mut TypeTable, local: u64) -> Result<TypeRef, Fail> {
    let path = Bytes::from_slice(alloc, PATH.as_bytes())?;
    let name = name(alloc)?;
    if !is_path(alloc, path.as_slice())? {
        return Err(Fail::from("no path"));
    }
    Ok(types.intern(Term::Defined { path, name, local })?)
}

// Whether it is a defined type that no declaration defines yet.
fn is_open(types: &TypeTable, t: TypeRef) -> bool
    ensures below { IsTrue result → Below (length types.now.types) t }
    ensures defined { IsTrue result → is_defined (term_of (type_at types.now.types t)) ≡ true }
    ensures new { IsTrue result → (d : DefinitionOf GoType) → Defines types.now d → d.of ≢ type_at types.now.types t }
{
    if !types.contains(t) {
        return false;
    }
    match types.term(t) {
        Term::Defined { .. } => !types.is_defined(t),
        _ => false,
    }
}

fn contains_all(types: &TypeTable, methods: &[Method]) -> bool
    ensures { IsTrue result → Each (Below (length types.now.types)) (map method_of methods.now) }
{
    for method in methods {
        if !types.contains(method.of) {
            return false;
        }
    }
    true
}

/// The type, which is now defined.
pub(super) fn declared(
    types: &mut TypeTable,
    t: TypeRef,
    underlying: TypeRef,
    methods: List<Method>,
) -> Result<TypeRef, Fail> {
    if !is_open(types, t) {
        return Err(Fail::from("no open type"));
    }
    if !types.contains(underlying) {
        return Err(Fail::from("no underlying type"));
    }
    if !contains_all(types, methods.as_slice()) {
        return Err(Fail::from("no methods"));
    }
    types.define(t, underlying, methods)?;
    Ok(t)
}
