// Index expressions, with ample memory. Go specification, "Index expressions".
use crate::index;
use gno_base::Bytes;
use gno_constants::Constant;
use gno_giving::Basics;
use gno_judging::Faults;
use gno_made_types::{array_type, map_type, pointer_to, slice_of};
use gno_scan::Pos;
use gno_terms::{Term, TypeRef};
use gno_type_table::TypeTable;
use gno_typed::TypedExprOf;
use gno_typing::{FormOf, OperandOf, Standing, ValueOf};
use std::alloc::{AllocError, Global};
use std::test::Fail;

const AT: Pos = Pos {
    file: 0,
    line: 3,
    column: 5,
};

fn typed(of: TypeRef, standing: Standing) -> OperandOf<TypeRef> {
    OperandOf::Value(ValueOf::Typed {
        pos: AT,
        of,
        standing,
        calls: false,
        form: FormOf::Whole(TypedExprOf::Recover { pos: AT, of }),
    })
}

fn whole(of: TypeRef, value: i128) -> OperandOf<TypeRef> {
    OperandOf::Value(ValueOf::Constant {
        pos: AT,
        of,
        value: Constant::Whole(value),
    })
}

// The code of the fault that is told, or 0.
fn told(faults: &Faults) -> u8 {
    match faults.least() {
        Some(fault) => fault.code,
        None => 0,
    }
}

// Of which type a value is, if it is one of a type.
fn type_of(x: Option<OperandOf<TypeRef>>) -> Option<TypeRef> {
    match x {
        Some(OperandOf::Value(ValueOf::Typed { of, .. })) => Some(of),
        _ => None,
    }
}

// The type of `x[i]` and the code of its fault.
fn indexed(
    alloc: Global,
    types: &TypeTable,
    basics: Basics,
    x: OperandOf<TypeRef>,
    i: OperandOf<TypeRef>,
) -> Result<(Option<TypeRef>, u8), AllocError> {
    let mut faults = Faults::new();
    let found = index(alloc, types, basics, &mut faults, AT, x, i)?;
    Ok((type_of(found), told(&faults)))
}

// Of a value of the type `of`, by a constant of the type `as_type`.
fn at(
    alloc: Global,
    types: &TypeTable,
    basics: Basics,
    of: TypeRef,
    as_type: TypeRef,
    value: i128,
) -> Result<(Option<TypeRef>, u8), AllocError> {
    let x = typed(of, Standing::Result);
    indexed(alloc, types, basics, x, whole(as_type, value))
}

// An array of three elements.
fn array_of(types: &mut TypeTable, of: TypeRef) -> Result<TypeRef, AllocError> {
    let mut faults = Faults::new();
    let array = array_type(types, &mut faults, AT, 3, of)?;
    Ok(array.unwrap_or(of))
}

fn map_of(types: &mut TypeTable, key: TypeRef, of: TypeRef) -> Result<TypeRef, AllocError> {
    let mut faults = Faults::new();
    let map = map_type(types, &mut faults, AT, key, of)?;
    Ok(map.unwrap_or(of))
}

#[test]
fn constant_indexes_are_in_range(rt: HostRuntime) -> Result<(), Fail> {
    let alloc = rt.alloc();
    let mut types = TypeTable::new(alloc)?;
    let basics = Basics::new(&mut types)?;
    let int = basics.int;
    let untyped = types.intern(Term::UntypedWhole)?;
    let array = array_of(&mut types, int)?;
    let pointer = pointer_to(&mut types, array)?;
    let slice = slice_of(&mut types, int)?;
    let cases = [
        (array, untyped, 2, Some(int), 0),
        (array, basics.byte, 2, Some(int), 0),
        (array, untyped, 3, None, 55),
        (array, int, -1, None, 55),
        (array, untyped, 1 << 63, None, 43),
        (array, basics.bool, 0, None, 54),
        (pointer, untyped, 2, Some(int), 0),
        (pointer, untyped, 3, None, 55),
        (slice, untyped, 3, Some(int), 0),
        (slice, untyped, -1, None, 55),
        (basics.text, untyped, 3, Some(basics.byte), 0),
        (int, untyped, 0, None, 54),
    ];
    for (of, as_type, value, wanted, code) in cases {
        assert!(rt; at(alloc, &types, basics, of, as_type, value)? == (wanted, code));
    }
    Ok(())
}

// Of the constant string "abc".
fn text_at(
    alloc: Global,
    types: &TypeTable,
    basics: Basics,
    value: i128,
) -> Result<(Option<TypeRef>, u8), AllocError> {
    let text = Bytes::from_slice(alloc, b"abc")?;
    let x = OperandOf::Value(ValueOf::Constant {
        pos: AT,
        of: basics.text,
        value: Constant::Text(text),
    });
    indexed(alloc, types, basics, x, whole(basics.int, value))
}

// Of a value of the type `of`, by one of the type `key`.
fn by(
    alloc: Global,
    types: &TypeTable,
    basics: Basics,
    of: TypeRef,
    key: TypeRef,
) -> Result<(Option<TypeRef>, u8), AllocError> {
    let x = typed(of, Standing::Result);
    indexed(alloc, types, basics, x, typed(key, Standing::Result))
}

#[test]
fn strings_and_maps_have_indexes(rt: HostRuntime) -> Result<(), Fail> {
    let alloc = rt.alloc();
    let mut types = TypeTable::new(alloc)?;
    let basics = Basics::new(&mut types)?;
    let (int, text) = (basics.int, basics.text);
    let map = map_of(&mut types, text, int)?;
    assert!(rt; text_at(alloc, &types, basics, 2)? == (Some(basics.byte), 0));
    assert!(rt; text_at(alloc, &types, basics, 3)? == (None, 55));
    assert!(rt; by(alloc, &types, basics, map, text)? == (Some(int), 0));
    assert!(rt; by(alloc, &types, basics, map, int)? == (None, 49));
    assert!(rt; at(alloc, &types, basics, map, int, 0)? == (None, 49));
    assert!(rt; by(alloc, &types, basics, text, basics.uint)? == (Some(basics.byte), 0));
    assert!(rt; by(alloc, &types, basics, text, text)? == (None, 54));
    Ok(())
}
