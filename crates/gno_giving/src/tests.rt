// Forms and places, with ample memory.
use crate::{
    Basics, closed, constant_given, default_constant, held, settled_constant, typed_given,
    with_logic, with_operation, with_step,
};
use gno_base::{Kind, List, Shared};
use gno_constants::Constant;
use gno_judging::Faults;
use gno_scan::Pos;
use gno_terms::{Term, TypeRef};
use gno_tree::BinaryOperator;
use gno_type_table::TypeTable;
use gno_typed::{
    LogicOperationOf, LogicOperator, OperationOf, TypedExpr, TypedExprOf, TypedStepOf,
};
use gno_typing::FormOf;
use std::alloc::{AllocError, Global};
use std::test::Fail;

const AT: Pos = Pos {
    file: 0,
    line: 3,
    column: 5,
};

fn constant(of: TypeRef) -> TypedExpr {
    TypedExprOf::Constant {
        pos: AT,
        of,
        value: Constant::Whole(7),
    }
}

fn sum(alloc: Global, of: TypeRef) -> Result<OperationOf<TypeRef>, AllocError> {
    Ok(OperationOf {
        pos: AT,
        of,
        operator: BinaryOperator::Add,
        operands: of,
        boxed: None,
        operand: Shared::new(alloc, constant(of))?,
    })
}

// The code of the fault that is told, or 0.
fn told(faults: &Faults) -> u8 {
    match faults.least() {
        Some(fault) => fault.code,
        None => 0,
    }
}

#[test]
fn forms_grow_to_the_right(rt: HostRuntime) -> Result<(), Fail> {
    let alloc = rt.alloc();
    let of = TypeRef(1);
    let form = with_operation(alloc, FormOf::Whole(constant(of)), sum(alloc, of)?)?;
    let form = with_operation(alloc, form, sum(alloc, of)?)?;
    let expr = closed(alloc, form)?;
    assert!(rt; matches!(&expr, TypedExprOf::Binary { rest, .. } if rest.len() == 2));
    let and = LogicOperationOf {
        pos: AT,
        operator: LogicOperator::BothTrue,
        operand: Shared::new(alloc, constant(of))?,
    };
    let logic = closed(alloc, with_logic(alloc, of, FormOf::Whole(expr), and)?)?;
    assert!(rt; matches!(&logic, TypedExprOf::Logic { rest, .. } if rest.len() == 1));
    let step = TypedStepOf::Assertion { pos: AT, of };
    let primary = closed(alloc, with_step(alloc, FormOf::Whole(logic), step)?)?;
    assert!(rt; matches!(&primary, TypedExprOf::Primary { steps, .. } if steps.len() == 1));
    Ok(())
}

#[test]
fn values_take_the_types_of_their_places(rt: HostRuntime) -> Result<(), Fail> {
    let alloc = rt.alloc();
    let mut types = TypeTable::new(alloc)?;
    let basics = Basics::new(&mut types)?;
    let any = types.intern(Term::Interface(List::new(alloc)))?;
    assert!(rt; matches!(types.contains(basics.uint), true));
    // the place, the value's type, what it becomes, and the code of the fault
    let cases: [(TypeRef, TypeRef, u8); 4] = [
        (basics.int, basics.int, 0),
        (any, basics.text, 0),
        (basics.bool, basics.rune, 49),
        (basics.byte, any, 49),
    ];
    for (to, from, code) in cases {
        let mut faults = Faults::new();
        let form = FormOf::Whole(constant(from));
        let found = typed_given(alloc, &types, &mut faults, 49, AT, to, from, form)?;
        let boxed = matches!(&found, Some(FormOf::Whole(TypedExprOf::Interface { .. })));
        assert!(rt; boxed == types.identical(to, any));
        assert!(rt; told(&faults) == code);
    }
    Ok(())
}

// Whether an untyped whole number takes the type of a place, and the code of its fault, or 0.
fn whole_given(
    alloc: Global,
    types: &TypeTable,
    basics: Basics,
    to: TypeRef,
    value: i128,
) -> Result<(bool, u8), AllocError> {
    let mut faults = Faults::new();
    let kind = Kind::Int;
    let value = Constant::Whole(value);
    let found = constant_given(
        alloc,
        types,
        basics,
        &mut faults,
        49,
        AT,
        to,
        AT,
        kind,
        value,
    )?;
    let given = found.is_some();
    drop(found);
    Ok((given, told(&faults)))
}

#[test]
fn constants_take_the_types_of_their_places(rt: HostRuntime) -> Result<(), Fail> {
    let alloc = rt.alloc();
    let mut types = TypeTable::new(alloc)?;
    let basics = Basics::new(&mut types)?;
    let any = types.intern(Term::Interface(List::new(alloc)))?;
    // the place, the untyped constant, and the code of the fault
    let cases: [(TypeRef, i128, u8); 5] = [
        (basics.byte, 255, 0),
        (basics.byte, 256, 43),
        (any, 9223372036854775807, 0),
        (any, 9223372036854775808, 43),
        (basics.text, 7, 49),
    ];
    for (to, value, code) in cases {
        let found = whole_given(alloc, &types, basics, to, value)?;
        assert!(rt; found == (code == 0, code));
    }
    Ok(())
}

// The type that a rune constant has where its place names none.
fn settled_type(types: &TypeTable, basics: Basics, from: TypeRef) -> Option<TypeRef> {
    let mut faults = Faults::new();
    let value = Constant::Whole(97);
    let x = settled_constant(types, basics, &mut faults, AT, from, value)?;
    let of = x.of;
    drop(x);
    Some(of)
}

// Whether a boolean constant becomes a value of an interface type.
fn is_held(
    alloc: Global,
    types: &TypeTable,
    basics: Basics,
    to: TypeRef,
) -> Result<bool, AllocError> {
    let mut faults = Faults::new();
    let value = Constant::Bool(true);
    match default_constant(basics, &mut faults, AT, Kind::Bool, value) {
        Some(x) => {
            let found = held(alloc, types, &mut faults, 49, AT, to, x)?;
            let kept = found.is_some();
            drop(found);
            Ok(kept)
        }
        None => Ok(false),
    }
}

#[test]
fn constants_have_default_types(rt: HostRuntime) -> Result<(), Fail> {
    let alloc = rt.alloc();
    let mut types = TypeTable::new(alloc)?;
    let basics = Basics::new(&mut types)?;
    let any = types.intern(Term::Interface(List::new(alloc)))?;
    let rune = types.intern(Term::UntypedRune)?;
    assert!(rt; settled_type(&types, basics, rune) == Some(basics.rune));
    assert!(rt; settled_type(&types, basics, basics.byte) == Some(basics.byte));
    assert!(rt; is_held(alloc, &types, basics, any)?);
    assert!(rt; !is_held(alloc, &types, basics, basics.int)?);
    Ok(())
}
