use super::rows::{array, defined, function, interface, map, pointer, slice, structure, variadic};
use super::shelf::Shelf;
use gno_base::Kind;
use gno_terms::Term;
use std::alloc::{AllocError, Global};
use std::test::Fail;

const BOARDS: &[u8] = b"gno.land/r/demo/boards";

// The types at places 0 to 9.
fn simple_types(alloc: Global, shelf: &mut Shelf) -> Result<(), AllocError> {
    shelf.add(Term::Basic(Kind::Int))?;
    shelf.add(Term::Basic(Kind::Text))?;
    shelf.add(Term::Error)?;
    shelf.add(Term::Realm)?;
    defined(alloc, shelf, b"gno.land/p/demo/avl", b"Tree", 0)?;
    defined(alloc, shelf, BOARDS, b"rowCount", 2)?;
    pointer(shelf, 4)?;
    slice(shelf, 1)?;
    array(shelf, 3, 0)?;
    map(shelf, 1, 6)
}

// The types at places 10 to 16.
fn compound_types(alloc: Global, shelf: &mut Shelf) -> Result<(), AllocError> {
    function(alloc, shelf, &[], &[])?;
    function(alloc, shelf, &[0, 1], &[2])?;
    variadic(alloc, shelf, 1, 7, &[0, 2])?;
    structure(alloc, shelf, &[])?;
    structure(
        alloc,
        shelf,
        &[
            (b"Tree", BOARDS, true, 6),
            (b"rowCount", BOARDS, false, 0),
            (b"rowKind", BOARDS, true, 2),
            (b"Size", BOARDS, false, 8),
        ],
    )?;
    interface(alloc, shelf, &[])?;
    interface(
        alloc,
        shelf,
        &[
            (b"Write", BOARDS, 12),
            (b"readAll", BOARDS, 11),
            (b"Close", BOARDS, 10),
        ],
    )
}

#[test]
fn types_have_texts(rt: HostRuntime) -> Result<(), Fail> {
    let mut shelf = Shelf::new(rt.alloc())?;
    simple_types(rt.alloc(), &mut shelf)?;
    compound_types(rt.alloc(), &mut shelf)?;
    let texts: [&[u8]; 17] = [
        b"int",
        b"string",
        b"error",
        b"realm",
        b"gno.land/p/demo/avl.Tree",
        b"gno.land/r/demo/boards.rowCount#2",
        b"*gno.land/p/demo/avl.Tree",
        b"[]string",
        b"[3]int",
        b"map[string]*gno.land/p/demo/avl.Tree",
        b"func()",
        b"func(int, string) error",
        b"func(string, ...string) (int, error)",
        b"struct{}",
        b"struct{!Tree *gno.land/p/demo/avl.Tree; gno.land/r/demo/boards.rowCount int; !gno.land/r/demo/boards.rowKind error; Size [3]int}",
        b"interface{}",
        b"interface{Close(); Write(string, ...string) (int, error); gno.land/r/demo/boards.readAll(int, string) error}",
    ];
    for (place, text) in texts.iter().enumerate() {
        assert!(rt; shelf.text(rt.alloc(), place)?.as_slice() == *text);
    }
    Ok(())
}
