// Statements that were read, and what may still follow them.
use gno_base::List;
use gno_scan::Pos;
use gno_tree::{
    AssignOperator, Case, Expr, Guard, Name, RangeLeft, Simple, Statement, StepOperator, Subject,
};

/// Where a simple statement stands.
#[derive(Clone, Copy, Debug, PartialEq, Eq)]
pub enum Kind {
    /// Among the statements of a body.
    Body,
    /// In a header.
    Header,
    /// First in the header of a `switch`.
    Switch,
    /// First in the header of a `for`.
    For,
}

/// What stands behind the expressions that a simple statement begins with.
#[derive(Drop)]
pub enum Tail {
    Nothing,
    Step {
        pos: Pos,
        operator: StepOperator,
    },
    Assign {
        pos: Pos,
        operator: AssignOperator,
        right: List<Expr>,
    },
    Define {
        pos: Pos,
        values: List<Expr>,
    },
    /// `:= operand.(type)`
    Guard {
        of: Expr,
        pos: Pos,
    },
    /// `= range of`
    RangeAssign {
        of: Expr,
    },
    /// `:= range of`
    RangeDefine {
        of: Expr,
    },
}

/// What is read where a simple statement may stand.
#[derive(Drop)]
pub enum SimpleRead {
    /// An expression that is a name alone.
    Name(Name),
    /// Another expression.
    Expr(Expr),
    /// Another statement.
    Simple(Simple),
    Guard(Guard),
    Range { left: RangeLeft, of: Expr },
}

/// `before; condition`
#[derive(Drop)]
pub struct Header {
    pub before: Option<Simple>,
    pub condition: Expr,
}

/// `before; subject`
#[derive(Drop)]
pub struct SwitchHeader {
    pub before: Option<Simple>,
    pub subject: Subject,
}

/// What a `switch` chooses by, behind a `;`.
#[derive(Drop)]
pub enum Tag {
    Expr(Expr),
    Guard(Guard),
}

/// A statement that was read.
#[derive(Drop)]
pub enum Read {
    /// An expression statement that is a name alone, or a label.
    Name(Name),
    Statement(Statement),
}

/// Labels so far, and what stands behind them.
#[derive(Drop)]
pub struct Labeled {
    pub labels: List<Name>,
    pub last: Option<Read>,
}

/// Statements so far: those behind which a `;` stands, and what stands behind the last `;`.
#[derive(Drop)]
pub struct Statements {
    pub done: List<Statement>,
    pub last: Option<Statement>,
}

/// Cases so far, and whether a `;` may be owed behind the last one.
#[derive(Drop)]
pub struct Cases {
    pub cases: List<Case>,
    pub is_open: bool,
}
