// Texts, and what the parser answers on each.
use crate::{LeftOut, SyntaxFault, parse_file};
use gno_scan::scan;
use std::alloc::{AllocError, Global};
use std::process::Abort;
use std::test::Fail;

mod nesting;
mod trees;

/// A text without a fault of its tokens, and what `told` says of it.
type Case = (&'static str, &'static str);

/// Files: the package clause and imports.
const FILES: [Case; 19] = [
    ("package p", "reads"),
    ("package p;", "reads"),
    ("package p // a comment at the end", "reads"),
    ("package p;import \"a\"", "reads"),
    ("package p;import b \"a\";import (\"c\";_ \"d\")", "reads"),
    ("package p;import ()", "reads"),
    ("", "20 1:1"),
    ("package", "20 1:8"),
    ("package\n", "20 2:1"),
    ("package p; ;", "20 1:12"),
    ("package p;import", "20 1:17"),
    ("package p;import a", "20 1:19"),
    ("package p;import a.b", "20 1:19"),
    ("package p;import (\"a\" \"b\")", "20 1:23"),
    ("package p;import (;)", "20 1:19"),
    ("package p;import \"a\";var b int;import \"c\"", "20 1:32"),
    ("package p;x", "20 1:11"),
    ("package 1", "20 1:9"),
    ("package p package", "20 1:11"),
];

/// Declarations, signatures and types.
const DECLARATIONS: [Case; 53] = [
    ("package p;const a = 1", "reads"),
    (
        "package p;const a, b int = 1, 2;const (c = 1;d;e, f)",
        "reads",
    ),
    ("package p;const ()", "reads"),
    ("package p;type T int;type (A = B;C struct{})", "reads"),
    (
        "package p;type T [n]int;type U [2 * n]int;type V [](int);type W [f(P, Q)]int",
        "reads",
    ),
    ("package p;type T [P * Q]X", "reads"),
    ("package p;type T [n + 1]struct{}", "reads"),
    (
        "package p;var a int;var b, c = 1, 2;var d T = e;var (f int;g = 1)",
        "reads",
    ),
    ("package p;func f()", "reads"),
    (
        "package p;func (T) m() {};func (t *T) n() {};func (q.T) o() {}",
        "reads",
    ),
    (
        "package p;func f(a, b int, c ...string) (d int, e error) { return 1, nil }",
        "reads",
    ),
    (
        "package p;func f(int, ...string) (int, error) { return }",
        "reads",
    ),
    ("package p;func f(a, b.c, d) (T) {}", "reads"),
    ("package p;func f(a, b,) T {}", "reads"),
    ("package p;func f(a.b, ...T) {}", "reads"),
    (
        "package p;func f(a []int, b map[string]int, c func(int) int, d interface{ m() }) {}",
        "reads",
    ),
    (
        "package p;func f(struct{ a int }, [3]T, *T, (T)) {}",
        "reads",
    ),
    (
        "package p;type T struct{ a, b int;c.D;*e.F;G;*H;i func() (int);}",
        "reads",
    ),
    (
        "package p;type I interface{ a();b.C;D;e(int) (f int);}",
        "reads",
    ),
    ("package p;var a [3][]map[int](func(int) T)", "reads"),
    ("package p;var a func(int)", "reads"),
    ("package p;type T struct { a int\nb int }", "reads"),
    ("package p;const a int;", "20 1:22"),
    ("package p;const (a;) b", "20 1:22"),
    ("package p;const a.", "20 1:18"),
    ("package p;type T", "20 1:17"),
    ("package p;type T = [P any] int", "20 1:23"),
    ("package p;type T [P.Q any] int", "20 1:23"),
    ("package p;var a", "20 1:16"),
    ("package p;var a;", "20 1:16"),
    ("package p;var a [...]int", "20 1:18"),
    ("package p;func (r T[P]) m()", "20 1:20"),
    ("package p;func () m()", "20 1:17"),
    ("package p;func (a, b T) m()", "20 1:18"),
    ("package p;func (a ...T) m()", "20 1:19"),
    ("package p;func", "20 1:15"),
    ("package p;func f", "20 1:17"),
    ("package p;func f(a, b int, c)", "20 1:29"),
    ("package p;func f(a, b int, c.d)", "20 1:29"),
    ("package p;func f(a, b int, *T)", "20 1:28"),
    ("package p;func f(a.b, c int)", "20 1:25"),
    ("package p;func f(a, b ...int)", "20 1:23"),
    ("package p;func f(a ...int, b)", "20 1:28"),
    ("package p;func f(a int,,)", "20 1:24"),
    ("package p;func f() (a ...int)", "20 1:23"),
    ("package p;func f() (...int)", "20 1:21"),
    ("package p;type T struct { a, b \"t\" }", "20 1:32"),
    ("package p;type T struct { \"t\" }", "20 1:27"),
    ("package p;type T struct { ; }", "20 1:27"),
    ("package p;type I interface { a() | b }", "20 1:34"),
    ("package p;type I interface { *a }", "20 1:30"),
    ("package p;var x f[int]", "20 1:18"),
    ("package p;func f() int", "reads"),
];

/// Expressions.
const EXPRESSIONS: [Case; 51] = [
    ("package p;var a = func() {}", "reads"),
    ("package p;var a = func() int { return 1 }()", "reads"),
    ("package p;var a = (b)", "reads"),
    ("package p;var a = 1 + 2 * 3 == 4 && b || !c", "reads"),
    ("package p;var a = -b ^ +c &^ *d & &e", "reads"),
    (
        "package p;var a = b.c[1](2)[3:4][:5][6:7:8][:9:10][:].(T)",
        "reads",
    ),
    ("package p;var a = f(1, 2, b...)", "reads"),
    ("package p;var a = f(b..., )", "reads"),
    ("package p;var a = f(1, 2,)", "reads"),
    (
        "package p;var a = f([]int, map[int]T, func(), struct{}, interface{})",
        "reads",
    ),
    ("package p;var a = T{}", "reads"),
    ("package p;var a = T{1, 2,}", "reads"),
    ("package p;var a = b.T{c: 1, d: {2, {3}}, {4}: 5}", "reads"),
    ("package p;var a = []int{1, 2: 3}", "reads"),
    ("package p;var a = [...]int{1}", "reads"),
    ("package p;var a = [...][]int{{1}}", "reads"),
    ("package p;var a = map[string]T{\"b\": {}}", "reads"),
    ("package p;var a = struct{ b int }{1}", "reads"),
    ("package p;var a = (T){1}", "reads"),
    ("package p;var a = (*T){1}", "reads"),
    ("package p;var a = *T{1}", "reads"),
    ("package p;var a = []int(b)", "reads"),
    ("package p;var a = []int(b)[0].c", "reads"),
    ("package p;var a = (*T)(b)", "reads"),
    ("package p;var a = func() * x", "reads"),
    ("package p;var a = []b.c{}", "reads"),
    ("package p;var a = 'b' + \"c\" + `d`", "reads"),
    ("package p;var a = f(b..., c)", "20 1:27"),
    ("package p;var a = f(...)", "20 1:21"),
    ("package p;var a = f(,)", "20 1:21"),
    ("package p;var a = b[]", "20 1:21"),
    ("package p;var a = b[::1]", "20 1:22"),
    ("package p;var a = b[1:2:]", "20 1:25"),
    ("package p;var a = b[1,2]", "20 1:22"),
    ("package p;var a = T{,}", "20 1:21"),
    ("package p;var a = T{b:c:d}", "20 1:24"),
    ("package p;var a = [...]int;", "20 1:27"),
    ("package p;var a = [...]int(b)", "20 1:27"),
    ("package p;var a = [...][...]int{}", "20 1:25"),
    ("package p;var a = b[int]{}", "20 1:25"),
    ("package p;var a = func() { 1, 2 }", "20 1:33"),
    ("package p;var a = func() (b + c)", "20 1:29"),
    ("package p;var a = func() [3]", "20 1:29"),
    ("package p;var a = (b){};", "reads"),
    ("package p;var a = (b + c){}", "20 1:26"),
    ("package p;var a = b c", "20 1:21"),
    ("package p;var a = (b", "20 1:21"),
    ("package p;var a = 1 + +", "20 1:24"),
    ("package p;var a = b.+", "20 1:21"),
    ("package p;var a = b.(c", "20 1:23"),
    ("package p;var a = .", "20 1:19"),
];

/// Statements.
const STATEMENTS: [Case; 36] = [
    ("package p;func f() {}", "reads"),
    ("package p;func f() { ; }", "reads"),
    ("package p;func f() { a; }", "reads"),
    ("package p;func f() { ;; a ;; }", "reads"),
    (
        "package p;func f() { const a = 1; type B int; var c int }",
        "reads",
    ),
    ("package p;func f() { a: b: c() }", "reads"),
    ("package p;func f() { a: }", "reads"),
    (
        "package p;func f() { a++; b--; c = 1; d, e = 2, 3; g := 4; h, i := 5, 6 }",
        "reads",
    ),
    (
        "package p;func f() { a += 1; a -= 1; a *= 1; a /= 1; a %= 1; a &= 1; a |= 1; a ^= 1; a <<= 1; a >>= 1; a &^= 1 }",
        "reads",
    ),
    (
        "package p;func f() { a.b[1]++; *a = b; (a).b, c[1] = 1, 2 }",
        "reads",
    ),
    ("package p;func f() { {}; { a } }", "reads"),
    (
        "package p;func f() { return; return 1; return 1, T{} }",
        "reads",
    ),
    (
        "package p;func f() { break; break a; continue; continue a; fallthrough }",
        "reads",
    ),
    ("package p;func f() { defer a(); defer b }", "reads"),
    ("package p;func f() { a.b.c() }", "reads"),
    ("package p;func f() { a[T] (b) }", "reads"),
    ("package p;func f() { x.(T).y() }", "reads"),
    ("package p;func f() { var a int\nb = 1\n}", "reads"),
    ("package p;func f() { a(\n1,\n2,\n) }", "reads"),
    ("package p;func f() { return\na }", "reads"),
    ("package p;func f() { a, b := range x }", "20 1:30"),
    ("package p;func f() { a.b := 1 }", "20 1:26"),
    ("package p;func f() { a.b, c := 1 }", "20 1:29"),
    ("package p;func f() { x.(type) }", "20 1:25"),
    ("package p;func f() { a.b: c }", "20 1:25"),
    ("package p;func f() { (a): c }", "20 1:25"),
    ("package p;func f() { a, b: c }", "20 1:26"),
    ("package p;func f() { a b }", "20 1:24"),
    ("package p;func f() { a, b }", "20 1:27"),
    ("package p;func f() { break 1 }", "20 1:28"),
    ("package p;func f() { return , }", "20 1:29"),
    ("package p;func f() { defer }", "20 1:28"),
    ("package p;func f() { else }", "20 1:22"),
    ("package p;func f() { a", "20 1:23"),
    ("package p;func f() {} func g() {}", "20 1:23"),
    ("package p;func f() { a = b; c = }", "20 1:33"),
];

/// `if`, `for` and `switch`.
const HEADERS: [Case; 57] = [
    ("package p;func f() { if a {} }", "reads"),
    ("package p;func f() { if a {} else {} }", "reads"),
    (
        "package p;func f() { if a := b(); a {} else if c {} else if d := 1; e {} else {} }",
        "reads",
    ),
    ("package p;func f() { if ; a {} }", "reads"),
    ("package p;func f() { if x == T {} }", "reads"),
    (
        "package p;func f() { if (x == T{}) {}; if g(T{}) {}; if a[T{}] {}; if x == []T{1} {} }",
        "reads",
    ),
    ("package p;func f() { if x := func() {}; y {} }", "reads"),
    (
        "package p;func f() { if x == map[int]T{} {}; if x == struct{}{} {} }",
        "reads",
    ),
    ("package p;func f() { if []T(x) {} }", "reads"),
    (
        "package p;func f() { if func() bool { return T{} == x }() {} }",
        "reads",
    ),
    (
        "package p;func f() { switch {}; switch a {}; switch a := 1; a {}; switch a; {} }",
        "reads",
    ),
    (
        "package p;func f() { switch a { case 1, 2: b; c; case 3: default: } }",
        "reads",
    ),
    (
        "package p;func f() { switch a { case []T, func(), map[int]T: } }",
        "reads",
    ),
    ("package p;func f() { switch a { case T{}: } }", "reads"),
    ("package p;func f() { switch a.(type) {} }", "reads"),
    (
        "package p;func f() { switch b := a.c[1](2).(type) { case int, *T: } }",
        "reads",
    ),
    (
        "package p;func f() { switch a := 1; b := a.(type) {} }",
        "reads",
    ),
    ("package p;func f() { switch a++; b.(type) {} }", "reads"),
    (
        "package p;func f() { for {}; for a {}; for ;; {}; for a := 1; a < 2; a++ {}; for ; a; {} }",
        "reads",
    ),
    (
        "package p;func f() { for range x {}; for a := range x {}; for a, b := range x {}; for a.b = range x {}; for a, b[1] = range x {} }",
        "reads",
    ),
    ("package p;func f() { for a := 1; ; {} }", "reads"),
    ("package p;func f() { if x == T {} {} }", "20 1:35"),
    ("package p;func f() { if x == T { 1, 2 } }", "20 1:39"),
    ("package p;func f() { if x == T { \"a\": } }", "20 1:37"),
    ("package p;func f() { if x == T { a: 1 } {} }", "20 1:41"),
    ("package p;func f() { if T{} == x {} }", "20 1:29"),
    ("package p;func f() { if a {}; else {} }", "20 1:31"),
    ("package p;func f() { if {} }", "20 1:25"),
    ("package p;func f() { if a; {} }", "20 1:28"),
    ("package p;func f() { if a := range x {} }", "20 1:30"),
    ("package p;func f() { if []T { a } ; }", "20 1:37"),
    ("package p;func f() { if (T) { a } }", "reads"),
    ("package p;func f() { for a.b := range x {} }", "20 1:30"),
    ("package p;func f() { for a, b {} }", "20 1:31"),
    ("package p;func f() { for range {} }", "20 1:32"),
    ("package p;func f() { for x; {} }", "20 1:29"),
    ("package p;func f() { for x {} ; ; {} }", "reads"),
    ("package p;func f() { for ;;;", "20 1:28"),
    ("package p;func f() { for a := range x;", "20 1:38"),
    ("package p;func f() { for x := 1 {} }", "20 1:33"),
    ("package p;func f() { for a += range x {} }", "20 1:31"),
    ("package p;func f() { for a := 1, range x {} }", "20 1:34"),
    ("package p;func f() { switch -y.(type) {} }", "20 1:33"),
    ("package p;func f() { switch (y.(type)) {} }", "20 1:33"),
    ("package p;func f() { switch g(y.(type)) {} }", "20 1:34"),
    ("package p;func f() { switch a, y.(type) {} }", "20 1:35"),
    ("package p;func f() { switch x = y.(type) {} }", "20 1:36"),
    (
        "package p;func f() { switch a, b := y.(type) {} }",
        "20 1:40",
    ),
    ("package p;func f() { switch y.(type); {} }", "20 1:37"),
    ("package p;func f() { switch y.(type).a {} }", "20 1:37"),
    ("package p;func f() { switch y.(type) + 1 {} }", "20 1:38"),
    ("package p;func f() { switch a { b } }", "20 1:33"),
    ("package p;func f() { switch a { case: } }", "20 1:37"),
    (
        "package p;func f() { switch a { case b.(type): } }",
        "20 1:41",
    ),
    (
        "package p;func f() { switch a { case 1: L: case 2: } }",
        "20 1:44",
    ),
    (
        "package p;func f() { switch a { case 1: b case 2: } }",
        "20 1:43",
    ),
    ("package p;func f() { if a {}\nelse {} }", "20 2:1"),
];

/// Forms that are left out.
const LEFT_OUT: [Case; 25] = [
    ("package p;import . \"a\"", "22 1:18 dot import"),
    ("package p;import (a \"b\";. \"c\")", "22 1:25 dot import"),
    ("package p;type T [P any] int", "22 1:18 generics"),
    ("package p;type T [P, Q any] int", "22 1:18 generics"),
    ("package p;type T [P interface{}] int", "22 1:18 generics"),
    ("package p;type (T [P any] int)", "22 1:19 generics"),
    (
        "package p;func f() { type T[P any] int }",
        "22 1:28 generics",
    ),
    ("package p;var a chan int", "22 1:17 channel"),
    ("package p;var a <-chan int", "22 1:17 channel"),
    ("package p;var a = <-b", "22 1:19 channel"),
    ("package p;var a = make(chan int)", "22 1:24 channel"),
    ("package p;func f() { a <- b }", "22 1:24 channel"),
    ("package p;func f[T any]()", "22 1:17 generics"),
    ("package p;type T struct { a \"t\" }", "22 1:29 struct tag"),
    (
        "package p;type T struct { a int \"t\" }",
        "22 1:33 struct tag",
    ),
    (
        "package p;type T struct { a.b \"t\" }",
        "22 1:31 struct tag",
    ),
    ("package p;type T struct { *a \"t\" }", "22 1:30 struct tag"),
    ("package p;type I interface { ~a }", "22 1:30 type union"),
    ("package p;type I interface { a | b }", "22 1:32 type union"),
    (
        "package p;type I interface { a.b | c }",
        "22 1:34 type union",
    ),
    ("package p;var a = 1 + go", "22 1:23 goroutine"),
    ("package p;func f() { go g() }", "22 1:22 goroutine"),
    ("package p\nfunc f() { go g() }", "22 2:12 goroutine"),
    ("package p;func f() { select {} }", "22 1:22 select"),
    ("package p;func f() { goto a }", "22 1:22 goto"),
];

// That the text reads, or its fault: the code, the line and the column, and the form that is left out.
fn told(alloc: Global, text: &str) -> Result<String, Fail> {
    let Ok(tokens) = scan(alloc, 1, text.as_bytes()) else {
        return Err(Fail::new("the text has no tokens"));
    };
    match parse_file(alloc, 1, text.as_bytes(), &tokens) {
        Ok(_) => Ok(format!(in alloc; "reads")?),
        Err(SyntaxFault::At { code, pos, form }) => {
            let form = form.map_or("", name_of);
            Ok(format!(in alloc; "{code} {}:{}{form}", pos.line, pos.column)?)
        }
        Err(SyntaxFault::NoMemory) => Err(Fail::new("no memory")),
    }
}

fn name_of(form: LeftOut) -> &'static str {
    match form {
        LeftOut::Goroutine => " goroutine",
        LeftOut::Channel => " channel",
        LeftOut::Select => " select",
        LeftOut::Goto => " goto",
        LeftOut::Generics => " generics",
        LeftOut::StructTag => " struct tag",
        LeftOut::DotImport => " dot import",
        LeftOut::TypeUnion => " type union",
    }
}

// Each text answers what its case says.
fn all_answer(rt: &impl Abort, alloc: Global, cases: &[Case]) -> Result<(), Fail> {
    for (text, answer) in cases {
        let answered = told(alloc, text)?;
        assert_eq!(rt; answered.as_str(), *answer, "at {text}");
    }
    Ok(())
}

#[test]
fn files(rt: HostRuntime) -> Result<(), Fail> {
    all_answer(&rt, rt.alloc(), FILES.as_slice())
}

#[test]
fn declarations(rt: HostRuntime) -> Result<(), Fail> {
    all_answer(&rt, rt.alloc(), DECLARATIONS.as_slice())
}

#[test]
fn expressions(rt: HostRuntime) -> Result<(), Fail> {
    all_answer(&rt, rt.alloc(), EXPRESSIONS.as_slice())
}

#[test]
fn statements(rt: HostRuntime) -> Result<(), Fail> {
    all_answer(&rt, rt.alloc(), STATEMENTS.as_slice())
}

#[test]
fn headers(rt: HostRuntime) -> Result<(), Fail> {
    all_answer(&rt, rt.alloc(), HEADERS.as_slice())
}

#[test]
fn forms_left_out(rt: HostRuntime) -> Result<(), Fail> {
    all_answer(&rt, rt.alloc(), LEFT_OUT.as_slice())
}
