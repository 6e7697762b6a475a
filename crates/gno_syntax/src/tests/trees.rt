// The trees of some texts.
use crate::{FileTree, SyntaxFault, parse_file};
use gno_scan::scan;
use gno_tree::{
    BinaryOperator, Declaration, Expr, Statement, Step, TopLevel, TypeExpr, UnaryOperator,
};
use std::alloc::Global;
use std::test::Fail;

fn tree(alloc: Global, text: &str) -> Result<FileTree, Fail> {
    let Ok(tokens) = scan(alloc, 1, text.as_bytes()) else {
        return Err(Fail::new("the text has no tokens"));
    };
    match parse_file(alloc, 1, text.as_bytes(), &tokens) {
        Ok(tree) => Ok(tree),
        Err(SyntaxFault::At { .. }) => Err(Fail::new("the text is no file")),
        Err(SyntaxFault::NoMemory) => Err(Fail::new("no memory")),
    }
}

// The value of the variable that a file declares.
fn value(file: &FileTree) -> Option<&Expr> {
    let [TopLevel::Declaration(Declaration::Var { specs, .. })] = file.declarations.as_slice()
    else {
        return None;
    };
    let [spec] = specs.as_slice() else {
        return None;
    };
    spec.values.as_slice().first()
}

// The statements of the function that a file declares.
fn statements(file: &FileTree) -> &[Statement] {
    let [TopLevel::Function(function)] = file.declarations.as_slice() else {
        return &[];
    };
    match &function.body {
        Some(body) => body.statements.as_slice(),
        None => &[],
    }
}

fn is_name(expr: &Expr, text: &str) -> bool {
    match expr {
        Expr::Name(name) => name.text.as_slice() == text.as_bytes(),
        _ => false,
    }
}

#[test]
fn operators_of_one_level_stand_in_one_list(rt: HostRuntime) -> Result<(), Fail> {
    let file = tree(rt.alloc(), "package p;var a = b - c + d * e")?;
    let Some(Expr::Binary { first, rest }) = value(&file) else {
        return Err(Fail::new("no operation"));
    };
    assert!(rt; is_name(first.get(), "b"));
    let [difference, sum] = rest.as_slice() else {
        return Err(Fail::new("not two operators"));
    };
    assert!(rt; difference.operator == BinaryOperator::Sub && is_name(&difference.operand, "c"));
    assert!(rt; sum.operator == BinaryOperator::Add && sum.pos.column == 25);
    let Expr::Binary { first, rest } = &sum.operand else {
        return Err(Fail::new("no product"));
    };
    assert!(rt; is_name(first.get(), "d"));
    assert!(rt; matches!(rest.as_slice(), [product] if product.operator == BinaryOperator::Mul));
    Ok(())
}

#[test]
fn steps_stand_behind_their_operand(rt: HostRuntime) -> Result<(), Fail> {
    let file = tree(rt.alloc(), "package p;var a = -b.c[0](d, e...)")?;
    let Some(
        Expr::Unary {
            operator,
            operand,
            ..
        },
    ) = value(&file)
    else {
        return Err(Fail::new("no operator before an operand"));
    };
    assert!(rt; *operator == UnaryOperator::Minus);
    let Expr::Primary { operand, steps } = operand.get() else {
        return Err(Fail::new("no steps"));
    };
    assert!(rt; is_name(operand.get(), "b"));
    let [
        Step::Selector { name, .. },
        Step::Index { .. },
        Step::Call {
            arguments,
            spread,
            ..
        },
    ] = steps.as_slice()
    else {
        return Err(Fail::new("other steps"));
    };
    assert!(rt; name.text.as_slice() == b"c".as_slice());
    assert!(rt; *spread && arguments.len() == 2);
    Ok(())
}

#[test]
fn a_literal_holds_its_type_as_an_operand(rt: HostRuntime) -> Result<(), Fail> {
    let file = tree(rt.alloc(), "package p;var a = T{b: {}, c}")?;
    let Some(Expr::Composite { of, elements, .. }) = value(&file) else {
        return Err(Fail::new("no literal"));
    };
    assert!(rt; is_name(of.get(), "T"));
    let [keyed, plain] = elements.as_slice() else {
        return Err(Fail::new("not two elements"));
    };
    assert!(rt; keyed.key.is_some() && plain.key.is_none());
    let file = tree(rt.alloc(), "package p;var a = []T{}")?;
    let Some(Expr::Composite { of, .. }) = value(&file) else {
        return Err(Fail::new("no literal"));
    };
    assert!(rt; matches!(of.get(), Expr::Type(TypeExpr::Slice { .. })));
    Ok(())
}

#[test]
fn labels_and_arms_stand_in_lists(rt: HostRuntime) -> Result<(), Fail> {
    let text = "package p;func f() { a: b: c(); if d {} else if e == T {} else {} ; }";
    let file = tree(rt.alloc(), text)?;
    let [
        Statement::Labeled { labels, statement },
        Statement::If(chosen),
    ] = statements(&file)
    else {
        return Err(Fail::new("other statements"));
    };
    assert!(rt; labels.len() == 2 && statement.is_some());
    let [first, second] = chosen.arms.as_slice() else {
        return Err(Fail::new("not two arms"));
    };
    assert!(rt; is_name(&first.condition, "d") && chosen.otherwise.is_some());
    assert!(rt; matches!(second.condition, Expr::Binary { .. }));
    assert!(rt; second.body.statements.is_empty());
    Ok(())
}
