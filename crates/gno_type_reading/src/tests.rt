// Texts and the forms of their types, worked out by hand from the definition of the texts.
ghost use Rattle.std.specs.Prelude.{length};
ghost use Rattle.gno_terms.specs.Tables.{Below};

use crate::lawful::is_lawful;
use crate::read_text;
use gno_base::{Bytes, List};
use gno_terms::{Term, TypeRef};
use gno_type_table::TypeTable;
use std::alloc::{AllocError, Global};
use std::test::Fail;

/// Texts, and the form of the type that each has.
const TEXTS: [(&str, &str); 37] = [
    ("bool", "basic"),
    ("string", "basic"),
    ("int", "basic"),
    ("int16", "basic"),
    ("uint64", "basic"),
    ("error", "error"),
    ("realm", "realm"),
    ("gno.land/p/demo/avl.Tree", "defined"),
    ("gno.land/r/demo/x.node#3", "defined"),
    ("*int", "pointer"),
    ("**gno.land/p/demo/avl.Tree", "pointer"),
    ("[]string", "slice"),
    ("[][]*int", "slice"),
    ("[0]bool", "array"),
    ("[18446744073709551615]int", "array"),
    ("map[string]int", "map"),
    ("map[[2]int]map[gno.land/r/demo/x.node#3]bool", "map"),
    ("func()", "function"),
    ("func(int)", "function"),
    ("func(int, string) bool", "function"),
    ("func() (int, error)", "function"),
    ("func(...int)", "function"),
    ("func([]int, ...[]string) [2]int", "function"),
    ("func() func()", "function"),
    (
        "func(func(int) int, map[int]func()) (*int, func(...int) error)",
        "function",
    ),
    ("struct{}", "struct"),
    ("struct{Name string}", "struct"),
    (
        "struct{Name string; gno.land/p/demo/avl.size int; !Tree *gno.land/p/demo/avl.Tree}",
        "struct",
    ),
    ("struct{\u{c9}t\u{e9} int}", "struct"),
    (
        "struct{Of struct{Of struct{}}; F func(struct{}) int}",
        "struct",
    ),
    ("interface{}", "interface"),
    ("interface{Error() string}", "interface"),
    (
        "interface{Len() int; Less(int, int) bool; gno.land/r/demo/x.swap(int, int)}",
        "interface",
    ),
    (
        "interface{Each(func(int) bool); Of(...interface{}) (int, error)}",
        "interface",
    ),
    ("[]interface{}", "slice"),
    ("map[interface{}]struct{}", "map"),
    ("*func(*int) *int", "pointer"),
];

/// Texts that no type has.
const OTHERS: [&str; 50] = [
    "",
    " ",
    "int8x",
    "int ",
    " int",
    "int]",
    "int, int",
    "any",
    "byte",
    "nil",
    "untyped int",
    "*",
    "[]",
    "[",
    "[01]int",
    "[]int8x",
    "[-1]int",
    "[n]int",
    "[18446744073709551616]int",
    "map[int]",
    "map[]int",
    "map[int",
    "map",
    "...int",
    "(int)",
    "func",
    "func(",
    "func(int",
    "func(...int) ",
    "func(int,int)",
    "func(int, )",
    "func(...int, int)",
    "func(a int)",
    "func() (int)",
    "func() ()",
    "struct{a int}",
    "struct{gno.land/p/demo/avl.Name string}",
    "struct{Name string;}",
    "struct{Name  string}",
    "struct{Name string, Of int}",
    "struct{gno.land/p/demo/avl.if int}",
    "struct{Name}",
    "interface{Less() bool; Len() int}",
    "interface{Len int}",
    "interface{len()}",
    "gno.land/p/demo/avl.Node",
    "gno.land/p/demo/avl.Tree#0",
    "gno.land/p/demo/avl.Tree#1",
    "gno.land/r/demo/x.node",
    "avl.Tree",
];

// Declares a type. What its underlying type is says nothing here.
fn declare(
    alloc: Global,
    types: &mut TypeTable,
    path: &str,
    name: &str,
    local: u64,
) -> Result<bool, AllocError> {
    let term = Term::Defined {
        path: Bytes::from_slice(alloc, path.as_bytes())?,
        name: Bytes::from_slice(alloc, name.as_bytes())?,
        local,
    };
    if !is_lawful(alloc, types, &term)? {
        return Ok(false);
    }
    let t = types.intern(term)?;
    if types.is_defined(t) {
        return Ok(false);
    }
    types.define(t, t, List::new(alloc))?;
    Ok(true)
}

// A table in which the types of the texts are defined.
fn table(alloc: Global) -> Result<Option<TypeTable>, AllocError> {
    let mut types = TypeTable::new(alloc)?;
    if declare(alloc, &mut types, "gno.land/p/demo/avl", "Tree", 0)?
        && declare(alloc, &mut types, "gno.land/r/demo/x", "node", 3)?
    {
        Ok(Some(types))
    } else {
        Ok(None)
    }
}

fn form(types: &TypeTable, t: TypeRef) -> &'static str
    requires { Below (length types.now.types) t }
{
    match types.term(t) {
        Term::Basic(_) => "basic",
        Term::Error => "error",
        Term::Realm => "realm",
        Term::Defined { .. } => "defined",
        Term::Pointer(_) => "pointer",
        Term::Slice(_) => "slice",
        Term::Array(_, _) => "array",
        Term::Map(_, _) => "map",
        Term::Function { .. } => "function",
        Term::Struct(_) => "struct",
        Term::Interface(_) => "interface",
        _ => "untyped",
    }
}

fn form_of(alloc: Global, types: &mut TypeTable, text: &[u8]) -> Result<&'static str, AllocError> {
    match read_text(alloc, types, text)? {
        Some(t) => Ok(form(types, t)),
        None => Ok("none"),
    }
}

// The first text whose type has another form.
fn misread(
    alloc: Global,
    types: &mut TypeTable,
    cases: &[(&'static str, &'static str)],
) -> Result<Option<&'static str>, AllocError> {
    for (text, wanted) in cases {
        if form_of(alloc, types, text.as_bytes())? != *wanted {
            return Ok(Some(*text));
        }
    }
    Ok(None)
}

// The first text that a type has.
fn first_read(
    alloc: Global,
    types: &mut TypeTable,
    texts: &[&'static str],
) -> Result<Option<&'static str>, AllocError> {
    for text in texts {
        if form_of(alloc, types, text.as_bytes())? != "none" {
            return Ok(Some(*text));
        }
    }
    Ok(None)
}

#[test]
fn texts_are_read(rt: HostRuntime) -> Result<(), Fail> {
    let mut types = table(rt.alloc())?.ok_or("no table")?;
    assert_eq!(rt; misread(rt.alloc(), &mut types, TEXTS.as_slice())?, None);
    assert_eq!(rt;
        first_read(rt.alloc(), &mut types, OTHERS.as_slice())?,
        None
    );
    Ok(())
}

#[test]
fn types_nest_without_limit(rt: HostRuntime) -> Result<(), Fail> {
    let mut types = TypeTable::new(rt.alloc())?;
    let mut text = Bytes::new(rt.alloc());
    for _ in 0..20000 {
        text.extend_from_slice(b"[]*")?;
    }
    text.extend_from_slice(b"int")?;
    assert_eq!(rt; form_of(rt.alloc(), &mut types, text.as_slice())?, "slice");
    Ok(())
}
