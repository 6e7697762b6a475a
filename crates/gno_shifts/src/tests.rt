// Shifts, with ample memory. The cases are those of the Go specification, "Operators", "Integer operators" and "Constant expressions".
use crate::shift;
use gno_constants::Constant;
use gno_giving::Basics;
use gno_judging::Faults;
use gno_scan::Pos;
use gno_terms::{Term, TypeRef};
use gno_tree::BinaryOperator;
use gno_type_table::TypeTable;
use gno_typed::{TypedExprOf, VariableId};
use gno_typing::{FormOf, Standing, ValueOf, Waits};
use std::alloc::{AllocError, Global};
use std::test::Fail;

const LEFT: u32 = 5;

const PLACE: u32 = 7;

const RIGHT: u32 = 9;

fn at(column: u32) -> Pos {
    Pos {
        file: 0,
        line: 3,
        column,
    }
}

// An operand of a type: a whole constant, or a variable.
#[derive(Clone, Copy)]
enum Operand {
    Whole(TypeRef, i128),
    Variable(TypeRef),
    Nil,
}

fn value(column: u32, x: Operand) -> ValueOf<TypeRef> {
    let pos = at(column);
    match x {
        Operand::Whole(of, n) => ValueOf::Constant {
            pos,
            of,
            value: Constant::Whole(n),
        },
        Operand::Variable(of) => ValueOf::Typed {
            pos,
            of,
            standing: Standing::Place,
            calls: false,
            form: FormOf::Whole(TypedExprOf::Variable {
                pos,
                of,
                variable: VariableId::Local(0),
            }),
        },
        Operand::Nil => ValueOf::Nil { pos },
    }
}

// What a value is.
#[derive(Clone, Copy, PartialEq, Eq)]
enum Sort {
    Nothing,
    Whole(TypeRef, i128),
    Value(TypeRef),
    WaitingWhole,
}

fn sort_of(x: &Option<ValueOf<TypeRef>>) -> Sort {
    match x {
        Some(
            ValueOf::Constant {
                of,
                value: Constant::Whole(n),
                ..
            },
        ) => Sort::Whole(*of, *n),
        Some(ValueOf::Typed { of, .. }) => Sort::Value(*of),
        Some(
            ValueOf::Pending {
                waits: Waits::Integer(_),
                ..
            },
        ) => Sort::WaitingWhole,
        _ => Sort::Nothing,
    }
}

// The code and the column of the fault that is told, or zeros.
fn told(faults: &Faults) -> (u8, u32) {
    match faults.least() {
        Some(fault) => (fault.code, fault.pos.column),
        None => (0, 0),
    }
}

fn shifted(
    alloc: Global,
    types: &TypeTable,
    basics: Basics,
    operator: BinaryOperator,
    left: Operand,
    right: Operand,
) -> Result<(Sort, (u8, u32)), AllocError> {
    let mut faults = Faults::new();
    let found = shift(
        alloc,
        types,
        basics,
        &mut faults,
        at(PLACE),
        operator,
        value(LEFT, left),
        value(RIGHT, right),
    )?;
    let is = sort_of(&found);
    drop(found);
    Ok((is, told(&faults)))
}

#[test]
fn constants_by_constants(rt: HostRuntime) -> Result<(), Fail> {
    let alloc = rt.alloc();
    let mut types = TypeTable::new(alloc)?;
    let basics = Basics::new(&mut types)?;
    let whole = types.intern(Term::UntypedWhole)?;
    let (int, byte) = (basics.int, basics.byte);
    let huge: i128 = 1267650600228229401496703205376;
    let left = BinaryOperator::ShiftLeft;
    let right = BinaryOperator::ShiftRight;
    // the operator, each operand's type and number, what it gives, and the fault
    let cases: [(
        BinaryOperator,
        (TypeRef, i128),
        (TypeRef, i128),
        Sort,
        (u8, u32),
    ); 8] = [
        // const Huge = 1 << 100
        (
            left,
            (whole, 1),
            (whole, 100),
            Sort::Whole(whole, huge),
            (0, 0),
        ),
        // const Four = Huge >> 98
        (
            right,
            (whole, huge),
            (whole, 98),
            Sort::Whole(whole, 4),
            (0, 0),
        ),
        // x >> 1 is x/2, but truncated towards negative infinity
        (right, (int, -7), (byte, 1), Sort::Whole(int, -4), (0, 0)),
        (left, (byte, 1), (whole, 8), Sort::Nothing, (43, PLACE)),
        (left, (whole, 1), (whole, 127), Sort::Nothing, (42, PLACE)),
        (left, (int, 1), (int, -1), Sort::Nothing, (45, PLACE)),
        (left, (whole, 1), (whole, -1), Sort::Nothing, (45, PLACE)),
        // the count is no value of the type uint
        (left, (int, 1), (whole, huge), Sort::Nothing, (43, RIGHT)),
    ];
    for (operator, x, y, is, fault) in cases {
        let x = Operand::Whole(x.0, x.1);
        let y = Operand::Whole(y.0, y.1);
        let found = shifted(alloc, &types, basics, operator, x, y)?;
        assert!(rt; found == (is, fault));
    }
    Ok(())
}

#[test]
fn values_by_values(rt: HostRuntime) -> Result<(), Fail> {
    let alloc = rt.alloc();
    let mut types = TypeTable::new(alloc)?;
    let basics = Basics::new(&mut types)?;
    let whole = types.intern(Term::UntypedWhole)?;
    let one = Operand::Whole(whole, 1);
    let s = Operand::Variable(basics.uint);
    let text = Operand::Variable(basics.text);
    let (int, byte) = (basics.int, basics.byte);
    // the operands, what `<<` gives, and the code of the fault
    let cases: [(Operand, Operand, Sort, u8); 8] = [
        // 1 has the type of the place
        (one, s, Sort::WaitingWhole, 0),
        (Operand::Whole(int, 1), s, Sort::Value(int), 0),
        (Operand::Variable(byte), one, Sort::Value(byte), 0),
        (Operand::Variable(byte), s, Sort::Value(byte), 0),
        (text, s, Sort::Nothing, 46),
        (s, text, Sort::Nothing, 46),
        (Operand::Nil, one, Sort::Nothing, 46),
        (one, Operand::Nil, Sort::Nothing, 46),
    ];
    for (x, y, is, code) in cases {
        let found = shifted(alloc, &types, basics, BinaryOperator::ShiftLeft, x, y)?;
        assert!(rt; found.0 == is);
        assert!(rt; found.1.0 == code);
    }
    Ok(())
}

// What `1<<s` is.
fn waiting(
    alloc: Global,
    types: &TypeTable,
    basics: Basics,
    whole: TypeRef,
) -> Result<Option<ValueOf<TypeRef>>, AllocError> {
    let mut faults = Faults::new();
    shift(
        alloc,
        types,
        basics,
        &mut faults,
        at(LEFT),
        BinaryOperator::ShiftLeft,
        value(LEFT, Operand::Whole(whole, 1)),
        value(RIGHT, Operand::Variable(basics.uint)),
    )
}

// What `1<<s>>n` is, for a number `n`.
fn behind_waiting(
    alloc: Global,
    types: &TypeTable,
    basics: Basics,
    whole: TypeRef,
    n: i128,
) -> Result<Sort, AllocError> {
    let mut faults = Faults::new();
    let first = waiting(alloc, types, basics, whole)?;
    match first {
        Some(first) => {
            let found = shift(
                alloc,
                types,
                basics,
                &mut faults,
                at(PLACE),
                BinaryOperator::ShiftRight,
                first,
                value(RIGHT, Operand::Whole(whole, n)),
            )?;
            let is = sort_of(&found);
            drop(found);
            Ok(is)
        }
        None => Ok(Sort::Nothing),
    }
}

// What `x<<(1<<s)` is, for an integer variable `x`.
fn by_waiting(
    alloc: Global,
    types: &TypeTable,
    basics: Basics,
    whole: TypeRef,
) -> Result<Sort, AllocError> {
    let mut faults = Faults::new();
    let count = waiting(alloc, types, basics, whole)?;
    match count {
        Some(count) => {
            let found = shift(
                alloc,
                types,
                basics,
                &mut faults,
                at(PLACE),
                BinaryOperator::ShiftLeft,
                value(LEFT, Operand::Variable(basics.int)),
                count,
            )?;
            let is = sort_of(&found);
            drop(found);
            Ok(is)
        }
        None => Ok(Sort::Nothing),
    }
}

#[test]
fn shifts_of_shifts(rt: HostRuntime) -> Result<(), Fail> {
    let alloc = rt.alloc();
    let mut types = TypeTable::new(alloc)?;
    let basics = Basics::new(&mut types)?;
    let whole = types.intern(Term::UntypedWhole)?;
    assert!(rt; behind_waiting(alloc, &types, basics, whole, 2)? == Sort::WaitingWhole);
    assert!(rt; behind_waiting(alloc, &types, basics, whole, -2)? == Sort::Nothing);
    assert!(rt; by_waiting(alloc, &types, basics, whole)? == Sort::Value(basics.int));
    Ok(())
}
