// Operators before values, with ample memory.
use crate::unary;
use gno_constants::Constant;
use gno_giving::Basics;
use gno_judging::Faults;
use gno_scan::Pos;
use gno_terms::{Term, TypeRef};
use gno_tree::UnaryOperator;
use gno_type_table::TypeTable;
use gno_typed::TypedExprOf;
use gno_typing::{FormOf, Standing, ValueOf};
use std::alloc::{AllocError, Global};
use std::test::Fail;

const PLACE: Pos = Pos {
    file: 0,
    line: 3,
    column: 7,
};

const BEHIND: Pos = Pos {
    file: 0,
    line: 3,
    column: 9,
};

// An operand: a whole constant, or a variable.
#[derive(Clone, Copy)]
enum Operand {
    Whole(TypeRef, i128),
    Variable(TypeRef),
    Nil,
}

fn value(x: Operand) -> ValueOf<TypeRef> {
    match x {
        Operand::Whole(of, n) => ValueOf::Constant {
            pos: BEHIND,
            of,
            value: Constant::Whole(n),
        },
        Operand::Variable(of) => ValueOf::Typed {
            pos: BEHIND,
            of,
            standing: Standing::Place,
            calls: false,
            form: FormOf::Whole(TypedExprOf::Nil { pos: BEHIND, of }),
        },
        Operand::Nil => ValueOf::Nil { pos: BEHIND },
    }
}

// What a value is.
#[derive(Clone, Copy, PartialEq, Eq)]
enum Sort {
    Nothing,
    Whole(i128),
    Value,
}

fn sort_of(x: &Option<ValueOf<TypeRef>>) -> Sort {
    match x {
        Some(
            ValueOf::Constant {
                value: Constant::Whole(n),
                ..
            },
        ) => Sort::Whole(*n),
        Some(ValueOf::Typed { .. }) => Sort::Value,
        _ => Sort::Nothing,
    }
}

// The code of the fault that is told, or 0.
fn told(faults: &Faults) -> u8 {
    match faults.least() {
        Some(fault) => fault.code,
        None => 0,
    }
}

fn before(
    alloc: Global,
    types: &TypeTable,
    operator: UnaryOperator,
    x: Operand,
) -> Result<(Sort, u8), AllocError> {
    let mut faults = Faults::new();
    let found = unary(alloc, types, &mut faults, PLACE, operator, value(x))?;
    let is = sort_of(&found);
    drop(found);
    Ok((is, told(&faults)))
}

#[test]
fn operators_before_values(rt: HostRuntime) -> Result<(), Fail> {
    let alloc = rt.alloc();
    let mut types = TypeTable::new(alloc)?;
    let basics = Basics::new(&mut types)?;
    let whole = types.intern(Term::UntypedWhole)?;
    // the operator, its operand, what it gives, and the code of the fault
    let cases: [(UnaryOperator, Operand, Sort, u8); 7] = [
        (
            UnaryOperator::Minus,
            Operand::Whole(whole, 7),
            Sort::Whole(-7),
            0,
        ),
        (
            UnaryOperator::Minus,
            Operand::Whole(basics.byte, 1),
            Sort::Nothing,
            43,
        ),
        (
            UnaryOperator::Complement,
            Operand::Whole(whole, 1),
            Sort::Whole(-2),
            0,
        ),
        (
            UnaryOperator::Complement,
            Operand::Whole(basics.byte, 1),
            Sort::Whole(254),
            0,
        ),
        (
            UnaryOperator::Not,
            Operand::Whole(whole, 1),
            Sort::Nothing,
            46,
        ),
        (
            UnaryOperator::Not,
            Operand::Variable(basics.bool),
            Sort::Value,
            0,
        ),
        (UnaryOperator::Minus, Operand::Nil, Sort::Nothing, 46),
    ];
    for (operator, x, is, code) in cases {
        let found = before(alloc, &types, operator, x)?;
        assert!(rt; found == (is, code));
    }
    Ok(())
}
