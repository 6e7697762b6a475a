// What names stand for, with ample memory.
use crate::{exported, meaning_of, named, qualified_type, type_named};
use gno_base::{Bytes, Kind, List};
use gno_constants::Constant;
use gno_judging::Faults;
use gno_scan::Pos;
use gno_terms::{Term, TypeRef};
use gno_tree::Name;
use gno_type_table::TypeTable;
use gno_typed::{CodeId, Named, NamedOf, ScopeName, VariableId};
use gno_typing::{OperandOf, ValueOf};
use std::alloc::{AllocError, Global};
use std::test::Fail;

const AT: Pos = Pos {
    file: 0,
    line: 3,
    column: 5,
};

fn bytes(alloc: Global, text: &[u8]) -> Result<Bytes, AllocError> {
    List::from_slice(alloc, text)
}

fn name(alloc: Global, text: &[u8]) -> Result<Name, AllocError> {
    Ok(Name {
        text: bytes(alloc, text)?,
        pos: AT,
    })
}

fn code(alloc: Global, number: u64) -> Result<CodeId, AllocError> {
    Ok(CodeId {
        package: bytes(alloc, b"gno.land/p/demo/t")?,
        number,
    })
}

// What is declared, the innermost last.
fn scope(alloc: Global, int: TypeRef, realm: TypeRef) -> Result<Vec<ScopeName>, AllocError> {
    let declared: [(&[u8], Named); 13] = [
        (b"X", NamedOf::Constant(int, Constant::Whole(7))),
        (b"X", NamedOf::Variable(VariableId::Local(1), int)),
        (b"cur", NamedOf::Variable(VariableId::Local(0), realm)),
        (b"K", NamedOf::Constant(int, Constant::Whole(7))),
        (b"T", NamedOf::TypeName(int)),
        (b"realm", NamedOf::TypeName(realm)),
        (b"F", NamedOf::Function(code(alloc, 2)?, int, false)),
        (b"Cross", NamedOf::Function(code(alloc, 3)?, int, true)),
        (b"m", NamedOf::Package(bytes(alloc, b"gno.land/p/demo/m")?)),
        (b"nil", NamedOf::Builtin(bytes(alloc, b"nil")?)),
        (b"cross", NamedOf::Builtin(bytes(alloc, b"cross")?)),
        (b"len", NamedOf::Builtin(bytes(alloc, b"len")?)),
        (b"odd", NamedOf::Builtin(bytes(alloc, b"odd")?)),
    ];
    let mut names = Vec::new(alloc);
    for (text, is) in declared {
        names.push(ScopeName {
            name: bytes(alloc, text)?,
            is,
        })?;
    }
    Ok(names)
}

// What an operand is.
fn sort(x: &Option<OperandOf<TypeRef>>) -> &'static str {
    match x {
        None => "none",
        Some(OperandOf::Value(ValueOf::Constant { .. })) => "constant",
        Some(OperandOf::Value(ValueOf::Nil { .. })) => "nil",
        Some(OperandOf::Value(_)) => "value",
        Some(OperandOf::Crossing { .. }) => "crossing",
        Some(OperandOf::Type { .. }) => "type",
        Some(OperandOf::Package { .. }) => "package",
        Some(OperandOf::Builtin { .. }) => "function",
        Some(OperandOf::Cross { .. }) => "cross",
        Some(OperandOf::Realm { .. }) => "realm",
        Some(_) => "other",
    }
}

// The code that is told, or 0.
fn told(faults: &Faults) -> u8 {
    match faults.least() {
        Some(fault) => fault.code,
        None => 0,
    }
}

#[test]
fn names_stand_for_operands(rt: HostRuntime) -> Result<(), Fail> {
    let alloc = rt.alloc();
    let mut types = TypeTable::new(alloc)?;
    let int = types.intern(Term::Basic(Kind::Int))?;
    let realm = types.intern(Term::Realm)?;
    let names = scope(alloc, int, realm)?;
    // a name, what it is as an operand, and as the export of a package, with the codes of the faults
    let cases: [(&[u8], &str, u8, &str, u8); 14] = [
        (b"X", "value", 0, "value", 0),
        (b"cur", "realm", 0, "none", 40),
        (b"K", "constant", 0, "constant", 0),
        (b"T", "type", 0, "type", 0),
        (b"realm", "none", 82, "none", 40),
        (b"F", "value", 0, "value", 0),
        (b"Cross", "crossing", 0, "crossing", 0),
        (b"m", "package", 0, "none", 40),
        (b"nil", "nil", 0, "none", 40),
        (b"cross", "cross", 0, "none", 40),
        (b"len", "function", 0, "none", 40),
        (b"odd", "none", 40, "none", 40),
        (b"_", "none", 41, "none", 40),
        (b"Unknown", "none", 40, "none", 40),
    ];
    for (text, operand, code, export, other) in cases {
        let mut faults = Faults::new();
        let found = named(&types, &mut faults, names.as_slice(), &name(alloc, text)?)?;
        assert!(rt; sort(&found) == operand);
        assert!(rt; told(&faults) == code);
        let mut faults = Faults::new();
        let found = exported(&types, &mut faults, names.as_slice(), AT, text)?;
        assert!(rt; sort(&found) == export);
        assert!(rt; told(&faults) == other);
    }
    assert!(rt;
        matches!(
            meaning_of(names.as_slice(), b"X"),
            Some(NamedOf::Variable(_, _))
        )
    );
    assert!(rt; meaning_of(names.as_slice(), b"Y").is_none());
    Ok(())
}

#[test]
fn names_stand_for_types(rt: HostRuntime) -> Result<(), Fail> {
    let alloc = rt.alloc();
    let mut types = TypeTable::new(alloc)?;
    let int = types.intern(Term::Basic(Kind::Int))?;
    let realm = types.intern(Term::Realm)?;
    let names = scope(alloc, int, realm)?;
    // a qualifier or none, a name, whether it is a type, and the code of the fault
    let cases: [(&[u8], &[u8], bool, u8); 10] = [
        (b"", b"T", true, 0),
        (b"", b"K", false, 41),
        (b"", b"_", false, 41),
        (b"", b"Unknown", false, 40),
        (b"", b"realm", false, 82),
        (b"m", b"T", true, 0),
        (b"m", b"F", false, 41),
        (b"m", b"t", false, 40),
        (b"K", b"T", false, 41),
        (b"unknown", b"T", false, 40),
    ];
    for (qualifier, text, is_type, code) in cases {
        let mut faults = Faults::new();
        let of = name(alloc, text)?;
        let found = if qualifier.is_empty() {
            type_named(&types, &mut faults, names.as_slice(), &of)?
        } else {
            let package = name(alloc, qualifier)?;
            let names = names.as_slice();
            qualified_type(&types, &mut faults, names, names, &package, &of)?
        };
        assert!(rt; found.is_some() == is_type);
        assert!(rt; told(&faults) == code);
    }
    Ok(())
}
