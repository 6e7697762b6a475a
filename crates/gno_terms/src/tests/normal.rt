use crate::{Field, Method, Term, TermOf, TypeRef, normal_term};
use gno_base::{Bytes, List};
use std::alloc::{AllocError, Global};
use std::test::Fail;

// An interface of methods by their names, their packages and the numbers of their types.
fn interface(alloc: Global, rows: &[(&[u8], &[u8], u64)]) -> Result<Term, AllocError> {
    let mut methods = List::new(alloc);
    for (name, package, number) in rows {
        methods.push(Method {
            name: Bytes::from_slice(alloc, name)?,
            package: Bytes::from_slice(alloc, package)?,
            of: TypeRef(*number),
            pointer: false,
        })?;
    }
    Ok(TermOf::Interface(methods))
}

// A struct of fields by their names and packages.
fn structure(alloc: Global, rows: &[(&[u8], &[u8])]) -> Result<Term, AllocError> {
    let mut fields = List::new(alloc);
    for (name, package) in rows {
        fields.push(Field {
            name: Bytes::from_slice(alloc, name)?,
            package: Bytes::from_slice(alloc, package)?,
            embedded: false,
            of: TypeRef(0),
        })?;
    }
    Ok(TermOf::Struct(fields))
}

#[test]
fn methods_stand_in_byte_order(rt: HostRuntime) -> Result<(), Fail> {
    let given = interface(
        rt.alloc(),
        &[
            (b"write", b"gno.land/r/demo/b", 1),
            (b"Read", b"gno.land/r/demo/b", 2),
            (b"close", b"gno.land/r/demo/a", 3),
            (b"write", b"gno.land/r/demo/a", 4),
            (b"Close", b"", 5),
            (b"ReadAll", b"", 6),
            (b"write", b"gno.land/r/demo/a", 7),
        ],
    )?;
    let wanted = interface(
        rt.alloc(),
        &[
            (b"Close", b"", 5),
            (b"Read", b"", 2),
            (b"ReadAll", b"", 6),
            (b"close", b"gno.land/r/demo/a", 3),
            (b"write", b"gno.land/r/demo/a", 4),
            (b"write", b"gno.land/r/demo/a", 7),
            (b"write", b"gno.land/r/demo/b", 1),
        ],
    )?;
    assert!(rt; normal_term(rt.alloc(), given)? == wanted);
    Ok(())
}

#[test]
fn exported_fields_have_no_package(rt: HostRuntime) -> Result<(), Fail> {
    let path = b"gno.land/p/demo/avl";
    let given = structure(
        rt.alloc(),
        &[
            (b"size", path),
            (b"Left", path),
            ("Überlauf".as_bytes(), path),
            ("ärger".as_bytes(), path),
            (b"_", path),
            (b"Key", b""),
        ],
    )?;
    let wanted = structure(
        rt.alloc(),
        &[
            (b"size", path),
            (b"Left", b""),
            ("Überlauf".as_bytes(), b""),
            ("ärger".as_bytes(), path),
            (b"_", path),
            (b"Key", b""),
        ],
    )?;
    assert!(rt; normal_term(rt.alloc(), given)? == wanted);
    Ok(())
}

#[test]
fn other_terms_stay(rt: HostRuntime) -> Result<(), Fail> {
    assert!(rt;
        normal_term(rt.alloc(), TermOf::Map(TypeRef(1), TypeRef(2)))?
            == TermOf::Map(TypeRef(1), TypeRef(2))
    );
    Ok(())
}
