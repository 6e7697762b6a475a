// Values that wait, with ample memory. The shifts and the constants are those of the Go specification, "Operators" and
// "Representability".
use crate::{Defaults, both_defaulted, defaulted, given_type};
use gno_base::{Boxed, List};
use gno_constants::Constant;
use gno_giving::{Basics, InType};
use gno_judging::Faults;
use gno_scan::Pos;
use gno_terms::TypeRef;
use gno_tree::BinaryOperator;
use gno_type_table::TypeTable;
use gno_typed::TypedExprOf;
use gno_typing::{FormOf, PendingOf, PendingOperationOf};
use std::alloc::{AllocError, Global};
use std::test::Fail;

const AT: Pos = Pos {
    file: 0,
    line: 3,
    column: 5,
};

// What became of a value: its type, where it has one, and the code of its fault, or 0.
type Found = (Option<TypeRef>, u8);

fn constant(value: i128, rune: bool) -> PendingOf<TypeRef> {
    let value = Constant::Whole(value);
    PendingOf::Constant {
        pos: AT,
        value,
        rune,
    }
}

// `value << s`
fn shift(
    alloc: Global,
    basics: Basics,
    value: i128,
    rune: bool,
) -> Result<PendingOf<TypeRef>, AllocError> {
    let first = Boxed::new(alloc, constant(value, rune))?;
    let count = TypedExprOf::Constant {
        pos: AT,
        of: basics.uint,
        value: Constant::Whole(33),
    };
    let mut rest = List::new(alloc);
    rest.push(PendingOperationOf::Count {
        pos: AT,
        operator: BinaryOperator::ShiftLeft,
        count,
    })?;
    Ok(PendingOf::Chain { first, rest })
}

// The code of the fault that is told, or 0.
fn told(faults: &Faults) -> u8 {
    match faults.least() {
        Some(fault) => fault.code,
        None => 0,
    }
}

fn type_of(x: Option<InType>) -> Option<TypeRef> {
    let x = x?;
    let of = x.of;
    drop(x);
    Some(of)
}

// The type of the constant that a form shifts.
fn shifted_type(form: Option<FormOf<TypeRef>>) -> Option<TypeRef> {
    let form = form?;
    let of = match &form {
        FormOf::Binary {
            first: TypedExprOf::Constant { of, .. },
            ..
        } => Some(*of),
        _ => None,
    };
    drop(form);
    of
}

// What `value << s` becomes in a type.
fn shift_given(
    alloc: Global,
    types: &TypeTable,
    basics: Basics,
    of: TypeRef,
    value: i128,
) -> Result<Found, AllocError> {
    let mut faults = Faults::new();
    let x = shift(alloc, basics, value, false)?;
    let form = given_type(alloc, types, &mut faults, of, x)?;
    Ok((shifted_type(form), told(&faults)))
}

#[test]
fn shifts_take_the_types_of_their_places(rt: HostRuntime) -> Result<(), Fail> {
    let alloc = rt.alloc();
    let mut types = TypeTable::new(alloc)?;
    let basics = Basics::new(&mut types)?;
    // var j int32 = 1<<s
    let found = shift_given(alloc, &types, basics, basics.rune, 1)?;
    assert!(rt; found == (Some(basics.rune), 0));
    // 97 is in the set of byte values, 1024 is not
    let found = shift_given(alloc, &types, basics, basics.byte, 97)?;
    assert!(rt; found == (Some(basics.byte), 0));
    let found = shift_given(alloc, &types, basics, basics.byte, 1024)?;
    assert!(rt; found == (None, 43));
    Ok(())
}

// What `value << s` becomes where no place names a type.
fn shift_defaulted(
    alloc: Global,
    types: &TypeTable,
    basics: Basics,
    value: i128,
    rune: bool,
) -> Result<Found, AllocError> {
    let mut faults = Faults::new();
    let x = shift(alloc, basics, value, rune)?;
    let x = defaulted(alloc, types, basics, &mut faults, x)?;
    Ok((type_of(x), told(&faults)))
}

// What `'a' << s` or `1 << s` and a constant on its right, or on its left, become: their types, and the code of the fault, or 0.
fn beside_shift(
    alloc: Global,
    types: &TypeTable,
    basics: Basics,
    rune: bool,
    on_right: bool,
    value: i128,
) -> Result<(Option<TypeRef>, Option<TypeRef>, u8), AllocError> {
    let mut faults = Faults::new();
    let x = shift(alloc, basics, if rune { 97 } else { 1 }, rune)?;
    let y = constant(value, !rune);
    let both = if on_right {
        both_defaulted(alloc, types, basics, &mut faults, x, y)?
    } else {
        both_defaulted(alloc, types, basics, &mut faults, y, x)?
    };
    let Defaults { left, right } = both;
    Ok((type_of(left), type_of(right), told(&faults)))
}

#[test]
fn constants_take_the_types_beside_them(rt: HostRuntime) -> Result<(), Fail> {
    let alloc = rt.alloc();
    let mut types = TypeTable::new(alloc)?;
    let basics = Basics::new(&mut types)?;
    let (int, rune) = (Some(basics.int), Some(basics.rune));
    // var i = 1<<s
    assert!(rt; shift_defaulted(alloc, &types, basics, 1, false)? == (int, 0));
    assert!(rt; shift_defaulted(alloc, &types, basics, 97, true)? == (rune, 0));
    // 1<<33 is an int, and no int32
    let wide: i128 = 8589934592;
    let found = beside_shift(alloc, &types, basics, false, true, wide)?;
    assert!(rt; found == (int, int, 0));
    let found = beside_shift(alloc, &types, basics, false, false, wide)?;
    assert!(rt; found == (int, int, 0));
    let found = beside_shift(alloc, &types, basics, true, true, wide)?;
    assert!(rt; found == (rune, None, 43));
    let found = beside_shift(alloc, &types, basics, true, false, wide)?;
    assert!(rt; found == (None, rune, 43));
    Ok(())
}
