// Statements.
use crate::{AssignOperator, Declaration, Expr, Name, StepOperator};
use gno_base::{Boxed, List};
use gno_scan::Pos;

/// `{ statements }`, with the place of its `{`.
#[cycle(tree)]
#[derive(Drop)]
pub struct Block {
    pub pos: Pos,
    pub statements: List<Statement>,
}

/// A statement. Its place is that of its first token.
#[cycle(tree)]
#[derive(Drop)]
pub enum Statement {
    /// Nothing, before a `;` that stands there.
    Empty {
        pos: Pos,
    },
    Declaration(Declaration),
    /// Labels, one at least, and what they stand before. Nothing may stand there.
    Labeled {
        labels: List<Name>,
        statement: Option<Boxed<Statement>>,
    },
    Simple(Simple),
    Block(Block),
    If(If),
    Switch(Switch),
    For(For),
    /// `return values`
    Return {
        pos: Pos,
        values: List<Expr>,
    },
    /// `break label`
    Break {
        pos: Pos,
        label: Option<Name>,
    },
    /// `continue label`
    Continue {
        pos: Pos,
        label: Option<Name>,
    },
    /// `fallthrough`
    Fallthrough {
        pos: Pos,
    },
    /// `defer call`
    Defer {
        pos: Pos,
        call: Expr,
    },
}

/// A statement that may stand in a header too.
#[cycle(tree)]
#[derive(Drop)]
pub enum Simple {
    Expr(Expr),
    /// `operand++`, `operand--`
    Step {
        operand: Expr,
        pos: Pos,
        operator: StepOperator,
    },
    /// `left = right`, with the place of its operator
    Assign {
        left: List<Expr>,
        pos: Pos,
        operator: AssignOperator,
        right: List<Expr>,
    },
    /// `names := values`, with the place of its `:=`
    Define {
        names: List<Name>,
        pos: Pos,
        values: List<Expr>,
    },
}

/// `if .. else if .. else ..`
#[cycle(tree)]
#[derive(Drop)]
pub struct If {
    /// One at least.
    pub arms: List<Arm>,
    pub otherwise: Option<Block>,
}

/// `if before; condition body`
#[cycle(tree)]
#[derive(Drop)]
pub struct Arm {
    pub pos: Pos,
    pub before: Option<Simple>,
    pub condition: Expr,
    pub body: Block,
}

/// `switch before; subject { cases }`
#[cycle(tree)]
#[derive(Drop)]
pub struct Switch {
    pub pos: Pos,
    pub before: Option<Simple>,
    pub subject: Subject,
    pub cases: List<Case>,
}

/// What a `switch` chooses by.
#[cycle(tree)]
#[derive(Drop)]
pub enum Subject {
    Nothing,
    Expr(Expr),
    /// `name := operand.(type)`, with the place of its first token
    Guard(Guard),
}

/// `name := operand.(type)`, with the place of its `.`.
#[cycle(tree)]
#[derive(Drop)]
pub struct Guard {
    pub name: Option<Name>,
    pub of: Expr,
    pub pos: Pos,
}

/// A case of a `switch`, with the place of its `case` or `default`.
#[cycle(tree)]
#[derive(Drop)]
pub struct Case {
    pub pos: Pos,
    pub labels: Labels,
    pub statements: List<Statement>,
}

/// What a case stands for. A type is an expression here.
#[cycle(tree)]
#[derive(Drop)]
pub enum Labels {
    Exprs(List<Expr>),
    Default,
}

/// `for header body`
#[cycle(tree)]
#[derive(Drop)]
pub struct For {
    pub pos: Pos,
    pub header: ForHeader,
    pub body: Block,
}

/// How often a `for` runs.
#[cycle(tree)]
#[derive(Drop)]
pub enum ForHeader {
    /// without end
    Forever,
    /// `condition`
    While(Expr),
    /// `before; condition; after`
    Clauses {
        before: Option<Simple>,
        condition: Option<Expr>,
        after: Option<Simple>,
    },
    /// `left range of`
    Range {
        left: RangeLeft,
        of: Expr,
    },
}

/// What a `range` gives its values to.
#[cycle(tree)]
#[derive(Drop)]
pub enum RangeLeft {
    Nothing,
    /// `places =`
    Assign(List<Expr>),
    /// `names :=`
    Define(List<Name>),
}
