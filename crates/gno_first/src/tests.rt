use crate::{FirstFault, first_form};
use gno_base::{Bytes, List};
use gno_scan::Pos;
use gno_tree::{Declaration, FileTree, Name, TopLevel, TypeExpr, TypeName, VarSpec};
use std::alloc::{AllocError, Global};
use std::test::Fail;

const POS: Pos = Pos {
    file: 0,
    line: 1,
    column: 1,
};

fn name(alloc: Global, text: &str) -> Result<Name, AllocError> {
    let text = Bytes::from_slice(alloc, text.as_bytes())?;
    Ok(Name { text, pos: POS })
}

// package p; var variable type
fn file(alloc: Global, variable: &str, of: &str) -> Result<FileTree, AllocError> {
    let mut names = List::new(alloc);
    names.push(name(alloc, variable)?)?;
    let of = TypeExpr::Name(TypeName {
        qualifier: None,
        name: name(alloc, of)?,
    });
    let mut specs = List::new(alloc);
    specs.push(VarSpec {
        names,
        of: Some(of),
        values: List::new(alloc),
    })?;
    let mut declarations = List::new(alloc);
    declarations.push(TopLevel::Declaration(Declaration::Var { pos: POS, specs }))?;
    Ok(FileTree {
        pos: POS,
        package_name: name(alloc, "p")?,
        imports: List::new(alloc),
        declarations,
    })
}

#[test]
fn a_variable_is_an_int(rt: HostRuntime) -> Result<(), Fail> {
    let found = first_form(rt.alloc(), &file(rt.alloc(), "n", "int")?)?;
    assert_eq!(rt; found.name.as_slice(), b"p".as_slice());
    assert!(rt; found.variables.len() == 1 && found.functions.len() == 0);
    let other = file(rt.alloc(), "n", "string")?;
    assert!(rt; matches!(first_form(rt.alloc(), &other), Err(FirstFault::NotFirst)));
    Ok(())
}
