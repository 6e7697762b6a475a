// Types that were read, and what may still belong to them.
use gno_tree::{Expr, Signature, TypeExpr};

/// How a type ends. A type extends as far as the next token lets it.
#[derive(Clone, Copy, Debug, PartialEq, Eq)]
pub enum TypeEnd {
    /// Nothing more belongs to it.
    Closed,
    /// In a name alone: `.` and a name may follow.
    Name,
    /// In a signature without results: results may follow.
    Open,
}

/// A type, and how it ends.
#[derive(Drop)]
pub struct TypeRead {
    pub of: TypeExpr,
    pub end: TypeEnd,
}

/// A type that is an operand.
#[derive(Drop)]
pub struct OperandType {
    pub of: TypeExpr,
    pub end: TypeEnd,
    /// Whether it is an array whose length is `...`: its elements must follow.
    pub is_counted: bool,
}

/// What stands between the brackets of a slice or an array.
#[derive(Drop)]
pub enum Length {
    Nothing,
    Expr(Expr),
    /// `...`
    Elements,
}

/// A signature, and how it ends.
#[derive(Drop)]
pub struct SignatureRead {
    pub signature: Signature,
    pub end: TypeEnd,
}
