// Operands with something before or behind them, with ample memory. Go specification, "Address operators", "Type assertions" and
// "Conversions".
use crate::{address, assertion, conversion, dereference};
use gno_base::List;
use gno_constants::Constant;
use gno_giving::Basics;
use gno_judging::Faults;
use gno_made_types::{pointer_to, slice_of};
use gno_scan::Pos;
use gno_terms::{Term, TypeRef};
use gno_type_table::TypeTable;
use gno_typed::TypedExprOf;
use gno_typing::{FormOf, OperandOf, Standing, ValueOf};
use std::alloc::{AllocError, Global};
use std::test::Fail;

const AT: Pos = Pos {
    file: 0,
    line: 3,
    column: 5,
};

fn typed(of: TypeRef, standing: Standing) -> OperandOf<TypeRef> {
    OperandOf::Value(ValueOf::Typed {
        pos: AT,
        of,
        standing,
        calls: false,
        form: FormOf::Whole(TypedExprOf::Recover { pos: AT, of }),
    })
}

// The code of the fault that is told, or 0.
fn told(faults: &Faults) -> u8 {
    match faults.least() {
        Some(fault) => fault.code,
        None => 0,
    }
}

// Of which type a value is, if it is one.
fn type_of(x: Option<OperandOf<TypeRef>>) -> Option<TypeRef> {
    match x {
        Some(OperandOf::Value(ValueOf::Typed { of, .. })) => Some(of),
        Some(OperandOf::Value(ValueOf::Constant { of, .. })) => Some(of),
        _ => None,
    }
}

// The type of `x.(to)` and the code of its fault.
fn asserted(
    alloc: Global,
    types: &TypeTable,
    from: TypeRef,
    to: TypeRef,
) -> Result<(Option<TypeRef>, u8), AllocError> {
    let mut faults = Faults::new();
    let x = typed(from, Standing::Result);
    let found = assertion(alloc, types, &mut faults, AT, x, to)?;
    Ok((type_of(found), told(&faults)))
}

#[test]
fn assertions_are_on_interfaces(rt: HostRuntime) -> Result<(), Fail> {
    let alloc = rt.alloc();
    let mut types = TypeTable::new(alloc)?;
    let basics = Basics::new(&mut types)?;
    let any = types.intern(Term::Interface(List::new(alloc)))?;
    assert!(rt; asserted(alloc, &types, any, basics.int)? == (Some(basics.int), 0));
    assert!(rt; asserted(alloc, &types, any, any)? == (Some(any), 0));
    assert!(rt; asserted(alloc, &types, basics.int, any)? == (None, 59));
    Ok(())
}

// The type of `&x` and the code of its fault.
fn addressed(
    alloc: Global,
    types: &mut TypeTable,
    of: TypeRef,
    standing: Standing,
) -> Result<(Option<TypeRef>, u8), AllocError> {
    let mut faults = Faults::new();
    let found = address(alloc, types, &mut faults, AT, typed(of, standing))?;
    Ok((type_of(found), told(&faults)))
}

// The type of `*x` and the code of its fault.
fn followed(
    alloc: Global,
    types: &mut TypeTable,
    of: TypeRef,
) -> Result<(Option<TypeRef>, u8), AllocError> {
    let mut faults = Faults::new();
    let x = typed(of, Standing::Result);
    let found = dereference(alloc, types, &mut faults, AT, x)?;
    Ok((type_of(found), told(&faults)))
}

#[test]
fn places_have_addresses(rt: HostRuntime) -> Result<(), Fail> {
    let alloc = rt.alloc();
    let mut types = TypeTable::new(alloc)?;
    let basics = Basics::new(&mut types)?;
    let int = basics.int;
    let pointer = pointer_to(&mut types, int)?;
    assert!(rt; addressed(alloc, &mut types, int, Standing::Place)? == (Some(pointer), 0));
    assert!(rt; addressed(alloc, &mut types, int, Standing::Literal)? == (Some(pointer), 0));
    assert!(rt; addressed(alloc, &mut types, int, Standing::Element)? == (None, 56));
    assert!(rt; addressed(alloc, &mut types, int, Standing::Result)? == (None, 56));
    assert!(rt; followed(alloc, &mut types, pointer)? == (Some(int), 0));
    assert!(rt; followed(alloc, &mut types, int)? == (None, 57));
    Ok(())
}

// The type of `of(x)` and the code of its fault.
fn converted(
    alloc: Global,
    types: &TypeTable,
    basics: Basics,
    of: TypeRef,
    x: OperandOf<TypeRef>,
) -> Result<(Option<TypeRef>, u8), AllocError> {
    let mut faults = Faults::new();
    let found = conversion(alloc, types, basics, &mut faults, AT, of, x)?;
    Ok((type_of(found), told(&faults)))
}

fn whole(of: TypeRef, value: i128) -> OperandOf<TypeRef> {
    OperandOf::Value(ValueOf::Constant {
        pos: AT,
        of,
        value: Constant::Whole(value),
    })
}

// How long the string is that a whole number converts to.
fn text_of(
    alloc: Global,
    types: &TypeTable,
    basics: Basics,
    value: i128,
) -> Result<Option<usize>, AllocError> {
    let mut faults = Faults::new();
    let x = whole(basics.int, value);
    match conversion(alloc, types, basics, &mut faults, AT, basics.text, x)? {
        Some(
            OperandOf::Value(
                ValueOf::Constant {
                    value: Constant::Text(text),
                    ..
                },
            ),
        ) => Ok(Some(text.len())),
        _ => Ok(None),
    }
}

#[test]
fn values_convert_by_their_types(rt: HostRuntime) -> Result<(), Fail> {
    let alloc = rt.alloc();
    let mut types = TypeTable::new(alloc)?;
    let basics = Basics::new(&mut types)?;
    let bytes = slice_of(&mut types, basics.byte)?;
    let text = typed(basics.text, Standing::Result);
    assert!(rt; converted(alloc, &types, basics, bytes, text)? == (Some(bytes), 0));
    let number = typed(basics.int, Standing::Result);
    assert!(rt; converted(alloc, &types, basics, basics.bool, number)? == (None, 58));
    let small = whole(basics.int, 255);
    assert!(rt; converted(alloc, &types, basics, basics.byte, small)? == (Some(basics.byte), 0));
    let wide = whole(basics.int, 256);
    assert!(rt; converted(alloc, &types, basics, basics.byte, wide)? == (None, 43));
    assert!(rt; text_of(alloc, &types, basics, 97)? == Some(1));
    assert!(rt; text_of(alloc, &types, basics, -1)? == Some(3));
    assert!(rt; text_of(alloc, &types, basics, 1114112)? == Some(3));
    Ok(())
}
