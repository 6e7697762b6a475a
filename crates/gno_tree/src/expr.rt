// Expressions.
use crate::{BinaryOperator, Block, Literal, Name, Signature, TypeExpr, UnaryOperator};
use gno_base::{Boxed, List};
use gno_scan::Pos;

/// An expression.
#[cycle(tree)]
#[derive(Drop)]
pub enum Expr {
    Literal(Literal),
    Name(Name),
    /// `(expression)`
    Paren {
        pos: Pos,
        inner: Boxed<Expr>,
    },
    /// `type{elements}`, with the place of its `{`. The type is held as the operand that it reads as: a name, a name of a
    /// package, a type that is no name, or one of these in parentheses or behind a `*` in them.
    Composite {
        of: Boxed<Expr>,
        pos: Pos,
        elements: List<Element>,
    },
    /// `func(parameters) results { statements }`
    Function {
        pos: Pos,
        signature: Signature,
        body: Block,
    },
    /// A type that is no name.
    Type(TypeExpr),
    /// An operand and the steps behind it, one at least.
    Primary {
        operand: Boxed<Expr>,
        steps: List<Step>,
    },
    /// An operator before its operand.
    Unary {
        pos: Pos,
        operator: UnaryOperator,
        operand: Boxed<Expr>,
    },
    /// Operands with operators of one level between them, one at least. They group to the left.
    Binary {
        first: Boxed<Expr>,
        rest: List<Operation>,
    },
}

/// An operator, its place, and the operand on its right.
#[cycle(tree)]
#[derive(Drop)]
pub struct Operation {
    pub pos: Pos,
    pub operator: BinaryOperator,
    pub operand: Expr,
}

/// What stands behind an operand. Its place is that of its first token.
#[cycle(tree)]
#[derive(Drop)]
pub enum Step {
    /// `.name`
    Selector {
        pos: Pos,
        name: Name,
    },
    /// `[index]`
    Index {
        pos: Pos,
        index: Boxed<Expr>,
    },
    /// `[low:high]`, `[low:high:max]`
    Slice {
        pos: Pos,
        low: Option<Boxed<Expr>>,
        high: Option<Boxed<Expr>>,
        max: Option<Boxed<Expr>>,
    },
    /// `.(type)`
    Assertion {
        pos: Pos,
        of: TypeExpr,
    },
    /// `(arguments)`; `spread` where `...` stands behind the last one
    Call {
        pos: Pos,
        arguments: List<Expr>,
        spread: bool,
    },
}

/// An element of a composite literal, with its key where it has one.
#[cycle(tree)]
#[derive(Drop)]
pub struct Element {
    pub key: Option<Part>,
    pub value: Part,
}

/// A key or a value of an element.
#[cycle(tree)]
#[derive(Drop)]
pub enum Part {
    Expr(Expr),
    /// `{elements}`, a literal of the element's type
    Elements { pos: Pos, elements: List<Element> },
}
