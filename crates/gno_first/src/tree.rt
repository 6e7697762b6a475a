// The tree of a file in the first form. A `usize` is the number of a variable, in order of declaration.
use gno_base::{Bytes, List};

/// A file: its package's name, its variables of type `int`, and its functions.
#[derive(Drop)]
pub struct FirstFile {
    pub name: Bytes,
    pub variables: List<Bytes>,
    pub functions: List<FirstFunc>,
}

/// A function, and whether it has an `int` as its result.
#[derive(Drop)]
pub struct FirstFunc {
    pub name: Bytes,
    pub has_int: bool,
    pub body: List<FirstStmt>,
}

/// A statement.
#[derive(Clone, Copy, Debug, PartialEq, Eq)]
pub enum FirstStmt {
    /// `name++`
    Increment(usize),
    /// `name = expression`
    Assign(usize, FirstExpr),
    /// `println(expression)`
    Print(FirstExpr),
    /// `return expression`
    Return(FirstExpr),
}

/// An expression: operands, each a variable or a number below 10^18, and the operator between two of them.
#[derive(Clone, Copy, Debug, PartialEq, Eq)]
pub enum FirstExpr {
    /// The value of a variable.
    Name(usize),
    Number(u64),
    NameName(usize, FirstOp, usize),
    NameNumber(usize, FirstOp, u64),
    NumberName(u64, FirstOp, usize),
}

/// An operator.
#[derive(Clone, Copy, Debug, PartialEq, Eq)]
pub enum FirstOp {
    /// `+`
    Add,
    /// `-`
    Sub,
    /// `*`
    Mul,
}
