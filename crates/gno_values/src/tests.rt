// Operands and values, with ample memory.
use crate::{as_value, given, settled};
use gno_base::{Bytes, List};
use gno_constants::Constant;
use gno_giving::Basics;
use gno_judging::Faults;
use gno_scan::Pos;
use gno_terms::{Term, TypeRef};
use gno_type_table::TypeTable;
use gno_typed::TypedExprOf;
use gno_typing::{FormOf, OperandOf, Standing, ValueOf};
use std::alloc::{AllocError, Global};
use std::test::Fail;

const AT: Pos = Pos {
    file: 0,
    line: 3,
    column: 5,
};

// The place of what a value is given to.
const TO: Pos = Pos {
    file: 0,
    line: 2,
    column: 1,
};

// The code of the fault that an operand has where a value is wanted, or 0.
fn code_of(alloc: Global, x: OperandOf<TypeRef>) -> Result<u8, AllocError> {
    let mut faults = Faults::new();
    let found = as_value(alloc, &mut faults, x)?;
    drop(found);
    match faults.least() {
        Some(fault) => Ok(fault.code),
        None => Ok(0),
    }
}

fn results(alloc: Global) -> OperandOf<TypeRef> {
    let form = FormOf::Whole(TypedExprOf::Recover {
        pos: AT,
        of: TypeRef(0),
    });
    OperandOf::Results {
        pos: AT,
        of: List::new(alloc),
        form,
    }
}

#[test]
fn operands_are_values_or_have_a_fault(rt: HostRuntime) -> Result<(), Fail> {
    let alloc = rt.alloc();
    let of = TypeRef(0);
    assert!(rt; code_of(alloc, OperandOf::Value(ValueOf::Nil { pos: AT }))? == 0);
    assert!(rt; code_of(alloc, OperandOf::Type { pos: AT, of })? == 41);
    let name = Bytes::from_slice(alloc, b"len")?;
    assert!(rt; code_of(alloc, OperandOf::Builtin { pos: AT, name })? == 41);
    assert!(rt; code_of(alloc, results(alloc))? == 50);
    assert!(rt; code_of(alloc, OperandOf::Cross { pos: AT })? == 63);
    Ok(())
}

// The code and the line of the fault that is told, or 0 and 0.
fn told(faults: &Faults) -> (u8, u32) {
    match faults.least() {
        Some(fault) => (fault.code, fault.pos.line),
        None => (0, 0),
    }
}

// The code and the line of the fault that a value has in a place of a type, or 0 and 0.
fn fault_in(
    alloc: Global,
    types: &TypeTable,
    basics: Basics,
    of: TypeRef,
    x: ValueOf<TypeRef>,
) -> Result<(u8, u32), AllocError> {
    let mut faults = Faults::new();
    let form = given(alloc, types, basics, &mut faults, 49, TO, of, x)?;
    drop(form);
    Ok(told(&faults))
}

fn whole(of: TypeRef, value: i128) -> ValueOf<TypeRef> {
    let value = Constant::Whole(value);
    ValueOf::Constant { pos: AT, of, value }
}

fn typed(of: TypeRef) -> ValueOf<TypeRef> {
    ValueOf::Typed {
        pos: AT,
        of,
        standing: Standing::Result,
        calls: false,
        form: FormOf::Whole(TypedExprOf::Recover { pos: AT, of }),
    }
}

// The code and the line of the fault that `nil` has where its place names no type.
fn nil_settled(alloc: Global, types: &TypeTable, basics: Basics) -> Result<(u8, u32), AllocError> {
    let mut faults = Faults::new();
    let nil = ValueOf::Nil { pos: AT };
    let x = settled(alloc, types, basics, &mut faults, 48, TO, nil)?;
    drop(x);
    Ok(told(&faults))
}

#[test]
fn values_are_assignable_or_have_a_fault(rt: HostRuntime) -> Result<(), Fail> {
    let alloc = rt.alloc();
    let mut types = TypeTable::new(alloc)?;
    let basics = Basics::new(&mut types)?;
    let any = types.intern(Term::Interface(List::new(alloc)))?;
    let rune = types.intern(Term::UntypedRune)?;
    let nil = ValueOf::Nil { pos: AT };
    assert!(rt; fault_in(alloc, &types, basics, any, nil)? == (0, 0));
    let nil = ValueOf::Nil { pos: AT };
    assert!(rt; fault_in(alloc, &types, basics, basics.int, nil)? == (49, 2));
    // 97 is in the set of byte values, 1024 is not
    let byte = basics.byte;
    assert!(rt; fault_in(alloc, &types, basics, byte, whole(rune, 97))? == (0, 0));
    assert!(rt; fault_in(alloc, &types, basics, byte, whole(rune, 1024))? == (43, 3));
    assert!(rt; fault_in(alloc, &types, basics, byte, typed(byte))? == (0, 0));
    assert!(rt; fault_in(alloc, &types, basics, byte, typed(basics.int))? == (49, 2));
    assert!(rt; nil_settled(alloc, &types, basics)? == (48, 2));
    Ok(())
}
