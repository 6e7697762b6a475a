use crate::{Reading, read_text};
use gno_base::Bytes;
use gno_first::{FirstExpr, FirstFile, FirstOp, FirstStmt};
use gno_grammar::LeftOut;
use std::alloc::Global;
use std::test::Fail;

#[test]
fn a_text_is_read_as_its_first_fault(rt: HostRuntime) -> Result<(), Fail> {
    let cases: [(&[u8], u8, u32, u32, Option<LeftOut>); 8] = [
        (b"package f\nvar x = 1.5\n", 6, 2, 9, None),
        (b"package f\n\xff\n", 1, 2, 1, None),
        (b"package f\nvar s = \"a\nvar x = 1.5\n", 3, 2, 9, None),
        (b"package f\n\xe2\x82\xac #", 2, 2, 1, None),
        (b"package", 20, 1, 8, None),
        (
            b"package p\nfunc f() { go g() }",
            22,
            2,
            12,
            Some(LeftOut::Goroutine),
        ),
        (
            b"package p\ntype T[P any] int\n",
            22,
            2,
            7,
            Some(LeftOut::Generics),
        ),
        (b"package p\nvar n = ) go", 20, 2, 9, None),
    ];
    for (text, wanted, line, column, left_out) in cases {
        match read_text(rt.alloc(), text)? {
            Reading::Faulty { code, pos, form } => {
                assert_eq!(rt; code, wanted);
                assert!(rt; pos.line == line && pos.column == column, "{wanted}");
                assert!(rt; form == left_out, "{wanted}");
            }
            Reading::NotFirst | Reading::First(_) => return Err(Fail::new("no fault was found")),
        }
    }
    Ok(())
}

#[test]
fn a_text_without_a_fault_is_judged(rt: HostRuntime) -> Result<(), Fail> {
    let first = read_text(
        rt.alloc(),
        b"package p // counts\nvar n /* at first 0 */ int\n",
    )?;
    assert!(rt; matches!(first, Reading::First(_)));
    let other = read_text(rt.alloc(), b"package p\nvar s string\n")?;
    assert!(rt; matches!(other, Reading::NotFirst));
    Ok(())
}

// The file with two variables and a function with these statements, if it is in the first form.
fn function_of(alloc: Global, statements: &str) -> Result<Option<FirstFile>, Fail> {
    let mut text = Bytes::from_slice(alloc, b"package p\nvar (\na int\nb int\n)\n")?;
    text.extend_from_slice(b"func f(cur realm) int {\n")?;
    text.extend_from_slice(statements.as_bytes())?;
    text.extend_from_slice(b"\n}\n")?;
    match read_text(alloc, text.as_slice())? {
        Reading::First(file) => Ok(Some(file)),
        Reading::NotFirst => Ok(None),
        Reading::Faulty { .. } => Err(Fail::new("a fault was found")),
    }
}

// The one statement of the function, if the file is in the first form.
fn statement_of(alloc: Global, statement: &str) -> Result<Option<FirstStmt>, Fail> {
    match function_of(alloc, statement)? {
        None => Ok(None),
        Some(file) => match file.functions.as_slice() {
            [function] => Ok(function.body.as_slice().first().copied()),
            _ => Err(Fail::new("not one function")),
        },
    }
}

#[test]
fn what_is_returned_has_its_tree(rt: HostRuntime) -> Result<(), Fail> {
    let cases: [(&str, Option<FirstExpr>); 14] = [
        ("return a", Some(FirstExpr::Name(0))),
        ("return b", Some(FirstExpr::Name(1))),
        ("return 0", Some(FirstExpr::Number(0))),
        (
            "return 999999999999999999",
            Some(FirstExpr::Number(999_999_999_999_999_999)),
        ),
        ("return 1000000000000000000", None),
        ("return 07", None),
        ("return c", None),
        ("return f", None),
        (
            "return a + b",
            Some(FirstExpr::NameName(0, FirstOp::Add, 1)),
        ),
        (
            "return b - 10",
            Some(FirstExpr::NameNumber(1, FirstOp::Sub, 10)),
        ),
        (
            "return 3 * a",
            Some(FirstExpr::NumberName(3, FirstOp::Mul, 0)),
        ),
        ("return 1 + 2", None),
        ("return a / b", None),
        ("return a + c", None),
    ];
    for (text, wanted) in cases {
        let found = statement_of(rt.alloc(), text)?;
        assert!(rt; found == wanted.map(FirstStmt::Return), "at {text}");
    }
    Ok(())
}

#[test]
fn statements_have_their_trees(rt: HostRuntime) -> Result<(), Fail> {
    let Some(file) = function_of(rt.alloc(), "b++\na = b\nprintln(7)\nreturn a")? else {
        return Err(Fail::new("not in the first form"));
    };
    assert_eq!(rt; file.name.as_slice(), b"p".as_slice());
    assert_eq!(rt; file.variables.len(), 2);
    let [function] = file.functions.as_slice() else {
        return Err(Fail::new("not one function"));
    };
    assert_eq!(rt; function.name.as_slice(), b"f".as_slice());
    assert!(rt; function.has_int);
    let body = [
        FirstStmt::Increment(1),
        FirstStmt::Assign(0, FirstExpr::Name(1)),
        FirstStmt::Print(FirstExpr::Number(7)),
        FirstStmt::Return(FirstExpr::Name(0)),
    ];
    assert_eq!(rt; function.body.as_slice(), body.as_slice());
    assert!(rt; function_of(rt.alloc(), "b++")?.is_none(), "no return");
    Ok(())
}
