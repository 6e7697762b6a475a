// What operators do, with ample memory. The numbers and the types are those of the Go specification, "Integer operators", "Arithmetic
// operators", "Comparison operators" and "Logical operators".
use crate::{
    Untyped, comparison, divides, divides_by_zero, fold_exactly, fold_of, is_comparing,
    is_defined_for, is_defined_on, is_equality, is_rune, is_same, is_shifting, joined_by, needs_of,
    result_of, untyped_in, with_operand, with_pending, worked_out,
};
use gno_constants::Constant;
use gno_giving::Basics;
use gno_judging::Faults;
use gno_scan::Pos;
use gno_terms::{Term, TypeRef};
use gno_tree::BinaryOperator;
use gno_type_table::TypeTable;
use gno_typed::{TypedExpr, TypedExprOf};
use gno_typing::{FormOf, PendingOf, PendingOperationOf, Standing, ValueOf, Waits};
use std::alloc::{AllocError, Global};
use std::test::Fail;

const AT: Pos = Pos {
    file: 0,
    line: 3,
    column: 5,
};

#[test]
fn operators_are_sorted(rt: HostRuntime) -> Result<(), Fail> {
    // whether the operator shifts, compares, compares for equality, divides
    let cases: [(BinaryOperator, (bool, bool, bool, bool)); 5] = [
        (BinaryOperator::Add, (false, false, false, false)),
        (BinaryOperator::ShiftRight, (true, false, false, false)),
        (BinaryOperator::NotEqual, (false, true, true, false)),
        (BinaryOperator::Less, (false, true, false, false)),
        (BinaryOperator::Rem, (false, false, false, true)),
    ];
    for (operator, wanted) in cases {
        let found = (
            is_shifting(operator),
            is_comparing(operator),
            is_equality(operator),
            divides(operator),
        );
        assert!(rt; found == wanted);
    }
    Ok(())
}

#[test]
fn operators_are_defined_on_types(rt: HostRuntime) -> Result<(), Fail> {
    let mut types = TypeTable::new(rt.alloc())?;
    let basics = Basics::new(&mut types)?;
    let cases: [(BinaryOperator, TypeRef, bool); 6] = [
        (BinaryOperator::Add, basics.text, true),
        (BinaryOperator::Sub, basics.text, false),
        (BinaryOperator::Less, basics.rune, true),
        (BinaryOperator::Less, basics.bool, false),
        (BinaryOperator::BothTrue, basics.bool, true),
        (BinaryOperator::OneTrue, basics.int, false),
    ];
    for (operator, of, wanted) in cases {
        assert!(rt; is_defined_on(&types, operator, of) == wanted);
    }
    Ok(())
}

// What is seen of a whole constant: its class, whether `/` may not have it on its right, and what it waits for beside `other`.
fn seen(types: &TypeTable, of: TypeRef, n: i128, other: Waits) -> (Untyped, bool, Waits) {
    let x = ValueOf::Constant {
        pos: AT,
        of,
        value: Constant::Whole(n),
    };
    let class = untyped_in(types, &x);
    let by_zero = divides_by_zero(BinaryOperator::Quo, &x);
    let needs = needs_of(&x, other);
    drop(x);
    (class, by_zero, needs)
}

#[test]
fn untyped_values_have_classes(rt: HostRuntime) -> Result<(), Fail> {
    let mut types = TypeTable::new(rt.alloc())?;
    let basics = Basics::new(&mut types)?;
    let rune = types.intern(Term::UntypedRune)?;
    assert!(rt; is_rune(&types, rune) && !is_rune(&types, basics.rune));
    let (class, by_zero, needs) = seen(&types, rune, 0, Waits::Boolean);
    assert!(rt; is_same(class, Untyped::Whole) && by_zero && needs == Waits::Boolean);
    assert!(rt; is_defined_for(class, BinaryOperator::Less));
    assert!(rt; !is_defined_for(class, BinaryOperator::BothTrue));
    let (class, by_zero, _needs) = seen(&types, basics.int, 1, Waits::Boolean);
    assert!(rt; is_same(class, Untyped::Nothing) && !by_zero);
    Ok(())
}

// The whole constant that was found.
fn whole(x: &Option<ValueOf<TypeRef>>) -> Option<i128> {
    match x {
        Some(
            ValueOf::Constant {
                value: Constant::Whole(n),
                ..
            },
        ) => Some(*n),
        _ => None,
    }
}

// The code of the fault that is told, or 0.
fn told(faults: &Faults) -> u8 {
    match faults.least() {
        Some(fault) => fault.code,
        None => 0,
    }
}

// What an operator gives between two whole constants of a type, and the code of the fault, or 0.
fn worked(
    alloc: Global,
    types: &TypeTable,
    of: TypeRef,
    operator: BinaryOperator,
    x: i128,
    y: i128,
) -> Result<(Option<i128>, u8), AllocError> {
    let mut faults = Faults::new();
    let left = Constant::Whole(x);
    let right = Constant::Whole(y);
    let folded = fold_exactly(alloc, fold_of(operator), &left, &right)?;
    let found = worked_out(types, &mut faults, AT, of, folded);
    let number = whole(&found);
    drop(found);
    Ok((number, told(&faults)))
}

#[test]
fn constants_are_worked_out(rt: HostRuntime) -> Result<(), Fail> {
    let mut types = TypeTable::new(rt.alloc())?;
    let basics = Basics::new(&mut types)?;
    let (int, byte) = (basics.int, basics.byte);
    let cases: [(TypeRef, BinaryOperator, i128, i128, (Option<i128>, u8)); 6] = [
        (int, BinaryOperator::Quo, -5, 3, (Some(-1), 0)),
        (int, BinaryOperator::Rem, -5, 3, (Some(-2), 0)),
        (int, BinaryOperator::Quo, 5, 0, (None, 44)),
        (byte, BinaryOperator::Add, 200, 100, (None, 43)),
        (int, BinaryOperator::ShiftLeft, 1, -1, (None, 45)),
        (int, BinaryOperator::BothTrue, 1, 1, (None, 46)),
    ];
    for (of, operator, x, y, wanted) in cases {
        let found = worked(rt.alloc(), &types, of, operator, x, y)?;
        assert!(rt; found == wanted);
    }
    Ok(())
}

fn number(of: TypeRef, n: i128) -> TypedExpr {
    TypedExprOf::Constant {
        pos: AT,
        of,
        value: Constant::Whole(n),
    }
}

fn is_binary(x: &FormOf<TypeRef>) -> bool {
    match x {
        FormOf::Binary { .. } => true,
        _ => false,
    }
}

// Whether an operator between two forms takes both its operands.
fn takes_both(alloc: Global, of: TypeRef, operator: BinaryOperator) -> Result<bool, AllocError> {
    let left = FormOf::Whole(number(of, 1));
    let right = FormOf::Whole(number(of, 2));
    let form = joined_by(alloc, of, AT, operator, left, right)?;
    let is = is_binary(&form);
    drop(form);
    Ok(is)
}

// Whether a shift takes both its operands.
fn shift_takes_both(alloc: Global, of: TypeRef) -> Result<bool, AllocError> {
    let left = FormOf::Whole(number(of, 1));
    let count = number(of, 2);
    let form = with_operand(alloc, of, AT, BinaryOperator::ShiftLeft, left, count)?;
    let is = is_binary(&form);
    drop(form);
    Ok(is)
}

// How many operators stand behind a constant that is shifted twice.
fn shifted_twice(alloc: Global, of: TypeRef) -> Result<usize, AllocError> {
    let x = PendingOf::Constant {
        pos: AT,
        value: Constant::Whole(1),
        rune: false,
    };
    let x = with_pending(alloc, x, shift_by(of, 2))?;
    let x = with_pending(alloc, x, shift_by(of, 3))?;
    let many = operators_in(&x);
    drop(x);
    Ok(many)
}

fn shift_by(of: TypeRef, n: i128) -> PendingOperationOf<TypeRef> {
    PendingOperationOf::Count {
        pos: AT,
        operator: BinaryOperator::ShiftLeft,
        count: number(of, n),
    }
}

fn operators_in(x: &PendingOf<TypeRef>) -> usize {
    match x {
        PendingOf::Chain { rest, .. } => rest.len(),
        _ => 0,
    }
}

// What a comparison waits for.
fn comparison_waits(of: TypeRef) -> Waits {
    let left = FormOf::Whole(number(of, 1));
    let right = number(of, 2);
    let x = comparison(AT, BinaryOperator::Less, of, None, false, left, right);
    let needs = needs_of(&x, Waits::Integer(AT));
    drop(x);
    needs
}

// Where a result stands, and whether it holds a call.
fn result_stands(of: TypeRef) -> Option<(Standing, bool)> {
    let x = result_of(AT, of, true, FormOf::Whole(number(of, 1)));
    let found = match &x {
        ValueOf::Typed {
            standing,
            calls,
            ..
        } => Some((*standing, *calls)),
        _ => None,
    };
    drop(x);
    found
}

#[test]
fn forms_grow(rt: HostRuntime) -> Result<(), Fail> {
    let alloc = rt.alloc();
    let mut types = TypeTable::new(alloc)?;
    let basics = Basics::new(&mut types)?;
    let int = basics.int;
    assert!(rt; takes_both(alloc, int, BinaryOperator::Add)?);
    assert!(rt; !takes_both(alloc, basics.bool, BinaryOperator::OneTrue)?);
    assert!(rt; shift_takes_both(alloc, int)?);
    assert!(rt; shifted_twice(alloc, int)? == 2);
    assert!(rt; comparison_waits(int) == Waits::Boolean);
    assert!(rt; result_stands(int) == Some((Standing::Result, true)));
    Ok(())
}
