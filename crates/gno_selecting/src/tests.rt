// The declarations and selectors of the example in the Go specification, "Selectors", under other names, with ample
// memory.
ghost use Rattle.std.specs.Prelude.{◌≡◌, ◌≢◌, IfOk, IsTrue, length, map, true};
ghost use Rattle.gno_terms.specs.Lawful.{Each};
ghost use Rattle.gno_terms.specs.Tables.{Below, Defines, type_at};
ghost use Rattle.gno_terms.specs.Terms.{method_of, term_of};
ghost use Rattle.gno_terms.specs.declared.term.DefinitionOf.{DefinitionOf};
ghost use Rattle.gno_terms.specs.declared.term.GoType.{GoType};
ghost use Rattle.gno_type_rows.specs.RowTypes.{is_defined};

use crate::selector;
use gno_base::{Bytes, List};
use gno_giving::Basics;
use gno_judging::Faults;
use gno_scan::Pos;
use gno_terms::{Method, Term, TypeRef};
use gno_type_reading::{is_lawful_name, read_text};
use gno_type_table::TypeTable;
use gno_typed::TypedExprOf;
use gno_typing::{FormOf, OperandOf, Standing, ValueOf};
use std::alloc::{AllocError, Global};
use std::test::Fail;

const AT: Pos = Pos {
    file: 0,
    line: 3,
    column: 5,
};

const PATH: &str = "gno.land/p/demo/t";

/// The declared types: the name, the underlying type, a method, and whether its receiver is a pointer.
const DECLARED: [(&str, &str, &str, bool); 4] = [
    ("TA", "struct{gno.land/p/demo/t.x int}", "M0", true),
    ("TB", "struct{gno.land/p/demo/t.y int}", "M1", false),
    (
        "TC",
        "struct{gno.land/p/demo/t.z int; !TB gno.land/p/demo/t.TB; !TA *gno.land/p/demo/t.TA}",
        "M2",
        true,
    ),
    ("Q", "*gno.land/p/demo/t.TC", "M3", false),
];

const T: &str = "gno.land/p/demo/t.TC";

const P: &str = "*gno.land/p/demo/t.TC";

const Q: &str = "gno.land/p/demo/t.Q";

// Whether it is a defined type that no declaration defines yet.
fn is_open(types: &TypeTable, t: TypeRef) -> bool
    ensures below { IsTrue result → Below (length types.now.types) t }
    ensures defined { IsTrue result → is_defined (term_of (type_at types.now.types t)) ≡ true }
    ensures new { IsTrue result → (d : DefinitionOf GoType) → Defines types.now d → d.of ≢ type_at types.now.types t }
{
    if !types.contains(t) {
        return false;
    }
    match types.term(t) {
        Term::Defined { .. } => !types.is_defined(t),
        _ => false,
    }
}

// One method of a function type that stands in the table.
fn one_method(
    alloc: Global,
    types: &TypeTable,
    of: TypeRef,
    name: &str,
    pointer: bool,
) -> Result<List<Method>, AllocError>
    requires { Below (length types.now.types) of }
    ensures { IfOk result (λ ms. Each (Below (length types.now.types)) (map method_of ms)) }
{
    let mut methods = List::new(alloc);
    methods.push(Method {
        name: Bytes::from_slice(alloc, name.as_bytes())?,
        package: Bytes::new(alloc),
        of,
        pointer,
    })?;
    Ok(methods)
}

// Whether a type was declared.
fn declare(
    alloc: Global,
    types: &mut TypeTable,
    name: &str,
    text: &str,
    method: &str,
    pointer: bool,
) -> Result<bool, AllocError> {
    let Some(underlying) = read_text(alloc, types, text.as_bytes())? else {
        return Ok(false);
    };
    let Some(function) = read_text(alloc, types, b"func()".as_slice())? else {
        return Ok(false);
    };
    let path = Bytes::from_slice(alloc, PATH.as_bytes())?;
    let name = Bytes::from_slice(alloc, name.as_bytes())?;
    if !is_lawful_name(alloc, &path, &name, 0)? {
        return Ok(false);
    }
    let t = types.intern(Term::Defined {
        path,
        name,
        local: 0,
    })?;
    if !types.contains(underlying) {
        return Ok(false);
    }
    if !types.contains(function) {
        return Ok(false);
    }
    if !is_open(types, t) {
        return Ok(false);
    }
    let methods = one_method(alloc, types, function, method, pointer)?;
    types.define(t, underlying, methods)?;
    Ok(true)
}

// What a selector is, and the code that is told, or 0.
fn selected(
    alloc: Global,
    types: &TypeTable,
    basics: Basics,
    of: TypeRef,
    standing: Standing,
    path: &str,
    name: &str,
) -> Result<(&'static str, u8), AllocError> {
    let mut faults = Faults::new();
    let x = OperandOf::Value(ValueOf::Typed {
        pos: AT,
        of,
        standing,
        calls: false,
        form: FormOf::Whole(TypedExprOf::Recover { pos: AT, of }),
    });
    let path = path.as_bytes();
    let name = name.as_bytes();
    let found = selector(alloc, types, basics, &mut faults, path, &[], AT, name, x)?;
    let sort = match &found {
        Some(OperandOf::Value(ValueOf::Typed { .. })) => "field",
        Some(OperandOf::Method { .. }) => "method",
        Some(_) => "other",
        None => "none",
    };
    drop(found);
    match faults.least() {
        Some(fault) => Ok((sort, fault.code)),
        None => Ok((sort, 0)),
    }
}

fn selected_by_text(
    alloc: Global,
    types: &mut TypeTable,
    basics: Basics,
    text: &str,
    standing: Standing,
    path: &str,
    name: &str,
) -> Result<(&'static str, u8), AllocError> {
    match read_text(alloc, types, text.as_bytes())? {
        Some(of) => selected(alloc, types, basics, of, standing, path, name),
        None => Ok(("unread", 0)),
    }
}

#[test]
fn selectors_are_those_of_the_example(rt: HostRuntime) -> Result<(), Fail> {
    let alloc = rt.alloc();
    let mut types = TypeTable::new(alloc)?;
    let basics = Basics::new(&mut types)?;
    for (name, text, method, pointer) in DECLARED {
        assert!(rt; declare(alloc, &mut types, name, text, method, pointer)?);
    }
    // the type of the operand, where it stands, the package, the name, what is selected, and the code of the fault
    let cases: [(&str, Standing, &str, &str, &str, u8); 17] = [
        (T, Standing::Place, PATH, "z", "field", 0),
        (T, Standing::Place, PATH, "y", "field", 0),
        (T, Standing::Place, PATH, "x", "field", 0),
        (P, Standing::Result, PATH, "z", "field", 0),
        (P, Standing::Result, PATH, "y", "field", 0),
        (Q, Standing::Place, PATH, "x", "field", 0),
        (P, Standing::Result, PATH, "M0", "method", 0),
        (P, Standing::Result, PATH, "M1", "method", 0),
        (P, Standing::Result, PATH, "M2", "method", 0),
        (T, Standing::Place, PATH, "M2", "method", 0),
        (T, Standing::Result, PATH, "M2", "none", 56),
        (T, Standing::Element, PATH, "M2", "none", 56),
        (T, Standing::Result, PATH, "M0", "method", 0),
        (Q, Standing::Place, PATH, "M0", "none", 52),
        (T, Standing::Place, "gno.land/p/demo/u", "z", "none", 52),
        (T, Standing::Place, "gno.land/p/demo/u", "TB", "field", 0),
        ("int", Standing::Place, PATH, "z", "none", 52),
    ];
    for (text, standing, path, name, sort, code) in cases {
        let found = selected_by_text(alloc, &mut types, basics, text, standing, path, name)?;
        assert!(rt; found.0 == sort);
        assert!(rt; found.1 == code);
    }
    Ok(())
}
