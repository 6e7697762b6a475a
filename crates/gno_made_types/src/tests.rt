// Types that are made of others, with ample memory. A type may have 16,777,216 slots, of which an array is one and each element at
// least one.
use crate::{
    array_type, embedded_field, embedded_methods, field, function_type, interface_method,
    interface_type, map_type, pointer_to, slice_of, struct_type,
};
use gno_base::{Bytes, Kind, List};
use gno_judging::Faults;
use gno_scan::Pos;
use gno_terms::{Term, TypeRef};
use gno_tree::Name;
use gno_type_table::TypeTable;
use std::alloc::{AllocError, Global};
use std::test::Fail;

const AT: Pos = Pos {
    file: 0,
    line: 3,
    column: 5,
};

const PATH: &str = "gno.land/p/demo/t";

// The code of the fault that is told, or 0.
fn told(faults: &Faults) -> u8 {
    match faults.least() {
        Some(fault) => fault.code,
        None => 0,
    }
}

fn array_code(types: &mut TypeTable, length: u64, element: TypeRef) -> Result<u8, AllocError> {
    let mut faults = Faults::new();
    let made = array_type(types, &mut faults, AT, length, element)?;
    code_of(made, &faults)
}

// The code of the fault, or 0; 255 where a type is there beside a fault, or neither.
fn code_of(made: Option<TypeRef>, faults: &Faults) -> Result<u8, AllocError> {
    let code = told(faults);
    if made.is_some() == (code == 0) {
        Ok(code)
    } else {
        Ok(255)
    }
}

fn map_code(types: &mut TypeTable, key: TypeRef, value: TypeRef) -> Result<u8, AllocError> {
    let mut faults = Faults::new();
    let made = map_type(types, &mut faults, AT, key, value)?;
    code_of(made, &faults)
}

// Whether there is a type of functions of one parameter.
fn is_function(
    alloc: Global,
    types: &mut TypeTable,
    param: TypeRef,
    variadic: bool,
) -> Result<bool, AllocError> {
    let mut params = List::new(alloc);
    params.push(param)?;
    let made = function_type(types, params, variadic, List::new(alloc))?;
    Ok(made.is_some())
}

#[test]
fn types_are_made_or_have_a_fault(rt: HostRuntime) -> Result<(), Fail> {
    let alloc = rt.alloc();
    let mut types = TypeTable::new(alloc)?;
    let int = types.intern(Term::Basic(Kind::Int))?;
    let pointer = pointer_to(&mut types, int)?;
    assert!(rt; pointer_to(&mut types, int)? == pointer);
    let slice = slice_of(&mut types, int)?;
    assert!(rt; slice != pointer);
    assert!(rt; array_code(&mut types, 16_777_215, int)? == 0);
    assert!(rt; array_code(&mut types, 16_777_216, int)? == 78);
    assert!(rt; map_code(&mut types, int, slice)? == 0);
    assert!(rt; map_code(&mut types, slice, int)? == 62);
    assert!(rt; is_function(alloc, &mut types, slice, true)?);
    assert!(rt; is_function(alloc, &mut types, int, false)?);
    Ok(())
}

// The code of the fault of a struct type of one field of a name.
fn struct_code(
    alloc: Global,
    types: &mut TypeTable,
    name: &str,
    of: TypeRef,
) -> Result<u8, AllocError> {
    let mut faults = Faults::new();
    let mut fields = List::new(alloc);
    fields.push(field(alloc, PATH.as_bytes(), name.as_bytes(), false, of)?)?;
    let made = struct_type(alloc, types, &mut faults, AT, fields)?;
    code_of(made, &faults)
}

// The code of the fault of an embedded field.
fn embedded_code(
    alloc: Global,
    types: &mut TypeTable,
    star: bool,
    of: TypeRef,
) -> Result<u8, AllocError> {
    let mut faults = Faults::new();
    let path = PATH.as_bytes();
    let name = b"T".as_slice();
    let found = embedded_field(alloc, types, &mut faults, path, AT, star, name, of)?;
    drop(found);
    Ok(told(&faults))
}

#[test]
fn structs_are_made_or_have_a_fault(rt: HostRuntime) -> Result<(), Fail> {
    let alloc = rt.alloc();
    let mut types = TypeTable::new(alloc)?;
    let int = types.intern(Term::Basic(Kind::Int))?;
    let error = types.intern(Term::Error)?;
    let pointer = pointer_to(&mut types, int)?;
    assert!(rt; struct_code(alloc, &mut types, "x", int)? == 0);
    assert!(rt; struct_code(alloc, &mut types, "2", int)? == 78);
    assert!(rt; embedded_code(alloc, &mut types, true, int)? == 0);
    assert!(rt; embedded_code(alloc, &mut types, false, pointer)? == 78);
    assert!(rt; embedded_code(alloc, &mut types, false, error)? == 0);
    assert!(rt; embedded_code(alloc, &mut types, true, error)? == 78);
    Ok(())
}

// The code of the fault of a method of a name.
fn method_code(alloc: Global, name: &str, of: TypeRef) -> Result<u8, AllocError> {
    let mut faults = Faults::new();
    let name = Name {
        text: Bytes::from_slice(alloc, name.as_bytes())?,
        pos: AT,
    };
    let found = interface_method(alloc, &mut faults, PATH.as_bytes(), &name, of)?;
    drop(found);
    Ok(told(&faults))
}

// How many methods an embedded type has, and the type of interfaces of these.
fn embedded(
    alloc: Global,
    types: &mut TypeTable,
    of: TypeRef,
) -> Result<(usize, Option<TypeRef>, u8), AllocError> {
    let mut faults = Faults::new();
    match embedded_methods(types, &mut faults, AT, of)? {
        Some(methods) => {
            let count = methods.len();
            let made = interface_type(alloc, types, methods)?;
            Ok((count, made, told(&faults)))
        }
        None => Ok((0, None, told(&faults))),
    }
}

#[test]
fn interfaces_are_made_or_have_a_fault(rt: HostRuntime) -> Result<(), Fail> {
    let alloc = rt.alloc();
    let mut types = TypeTable::new(alloc)?;
    let int = types.intern(Term::Basic(Kind::Int))?;
    let error = types.intern(Term::Error)?;
    assert!(rt; method_code(alloc, "Error", int)? == 0);
    assert!(rt; method_code(alloc, "_", int)? == 80);
    assert!(rt; method_code(alloc, "2", int)? == 78);
    let (count, made, code) = embedded(alloc, &mut types, error)?;
    assert!(rt; count == 1);
    assert!(rt; made.is_some());
    assert!(rt; code == 0);
    assert!(rt; embedded(alloc, &mut types, int)? == (0, None, 78));
    Ok(())
}
