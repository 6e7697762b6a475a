// Statements.
use crate::TypedExprOf;
use gno_base::{List, Shared};
use gno_scan::Pos;
use gno_terms::TypeRef;
use gno_tree::{AssignOperator, StepOperator};

/// A statement as it runs. What costs nothing and does nothing has none: empty statements, labels, declarations of constants and types.
#[cycle(typed_statement)]
#[derive(Drop)]
pub enum TypedStmtOf<T> {
    /// `lefts = values`; `None` stands for `_`
    Assign {
        pos: Pos,
        lefts: List<Option<Shared<TypedExprOf<T>>>>,
        values: ValuesOf<T>,
    },
    /// `left op= value`
    Update {
        pos: Pos,
        operator: AssignOperator,
        left: Shared<TypedExprOf<T>>,
        value: Shared<TypedExprOf<T>>,
    },
    /// `left++`, `left--`
    Step {
        pos: Pos,
        operator: StepOperator,
        left: Shared<TypedExprOf<T>>,
    },
    /// `names := values`, `var names = values`
    Define {
        pos: Pos,
        targets: List<TargetOf<T>>,
        values: ValuesOf<T>,
    },
    /// `var names type`: new variables, with zero values
    Zero {
        pos: Pos,
        targets: List<TargetOf<T>>,
    },
    /// A call that stands as a statement.
    Expr {
        pos: Pos,
        call: Shared<TypedExprOf<T>>,
    },
    /// `return values`. Without values the results stay as they are.
    Return {
        pos: Pos,
        values: ValuesOf<T>,
    },
    /// `break`, out of so many of the loops and switches around it but one
    Break {
        pos: Pos,
        out_of: u64,
    },
    /// `continue`, of the loop that so many loops and switches stand in
    Continue {
        pos: Pos,
        out_of: u64,
    },
    /// `fallthrough`
    Fallthrough {
        pos: Pos,
    },
    /// `{ statements }`
    Block {
        pos: Pos,
        body: Shared<BlockOf<T>>,
    },
    /// `defer call`
    Defer {
        pos: Pos,
        call: Shared<TypedExprOf<T>>,
    },
    /// `if .. else if .. else ..`, one arm at least
    If {
        arms: List<ArmOf<T>>,
        otherwise: Option<Shared<BlockOf<T>>>,
    },
    /// `switch before; tag { cases }`
    Switch(SwitchOf<T>),
    /// `switch before; name := operand.(type) { cases }`
    TypeSwitch(TypeSwitchOf<T>),
    /// `for before; condition; after { body }`
    For(ForOf<T>),
    /// `for targets = range operand { body }`
    Range(RangeOf<T>),
}

/// A statement that names types by their numbers in a table.
pub type TypedStmt = TypedStmtOf<TypeRef>;

/// The values that are given to places.
#[derive(Drop)]
pub enum ValuesOf<T> {
    /// One expression each, of the type of its place.
    Each(List<Shared<TypedExprOf<T>>>),
    /// The results of one call, or the value and the truth of one index of a map or assertion. `given` are the types that they take.
    Several {
        value: Shared<TypedExprOf<T>>,
        given: List<T>,
    },
}

/// What a definition gives a value to.
#[derive(Drop)]
pub enum TargetOf<T> {
    /// `_`
    Blank,
    /// A new variable of the function, by its number, and its type.
    New(u64, T),
    /// A variable that was there before.
    Old(Shared<TypedExprOf<T>>),
}

/// `if before; condition { body }`
#[cycle(typed_statement)]
#[derive(Drop)]
pub struct ArmOf<T> {
    pub pos: Pos,
    pub before: Option<Shared<TypedStmtOf<T>>>,
    pub condition: Shared<TypedExprOf<T>>,
    pub body: Shared<BlockOf<T>>,
}

/// A case of a `switch`.
#[cycle(typed_statement)]
#[derive(Drop)]
pub struct CaseOf<T> {
    pub pos: Pos,
    pub is_default: bool,
    /// What the tag is compared with, or without a tag conditions.
    pub labels: List<CaseLabelOf<T>>,
    pub body: Shared<BlockOf<T>>,
}

/// What a case of a `switch` stands for.
#[derive(Drop)]
pub struct CaseLabelOf<T> {
    /// The type of both the tag and the expression, where they are compared.
    pub operands: T,
    /// The type of the tag, where it is taken as one of the interface type `operands`.
    pub boxed: Option<T>,
    pub expr: Shared<TypedExprOf<T>>,
}

/// A case of a `switch` on a type.
#[cycle(typed_statement)]
#[derive(Drop)]
pub struct TypeCaseOf<T> {
    pub pos: Pos,
    pub is_default: bool,
    /// `None` stands for `nil`.
    pub types: List<Option<T>>,
    /// The variable that holds the operand in this case, by its number.
    pub local: Option<u64>,
    pub body: Shared<BlockOf<T>>,
}

/// Statements that run one after another.
#[cycle(typed_statement)]
#[derive(Drop)]
pub struct BlockOf<T> {
    pub statements: List<Shared<TypedStmtOf<T>>>,
}

/// `switch before; tag { cases }`
#[cycle(typed_statement)]
#[derive(Drop)]
pub struct SwitchOf<T> {
    pub pos: Pos,
    pub before: Option<Shared<TypedStmtOf<T>>>,
    pub tag: Option<Shared<TypedExprOf<T>>>,
    pub cases: List<CaseOf<T>>,
}

/// `switch before; name := operand.(type) { cases }`
#[cycle(typed_statement)]
#[derive(Drop)]
pub struct TypeSwitchOf<T> {
    pub pos: Pos,
    pub before: Option<Shared<TypedStmtOf<T>>>,
    pub operand: Shared<TypedExprOf<T>>,
    pub cases: List<TypeCaseOf<T>>,
}

/// `for before; condition; after { body }`
#[cycle(typed_statement)]
#[derive(Drop)]
pub struct ForOf<T> {
    pub pos: Pos,
    pub before: Option<Shared<TypedStmtOf<T>>>,
    pub condition: Option<Shared<TypedExprOf<T>>>,
    pub after: Option<Shared<TypedStmtOf<T>>>,
    /// The variables that `before` declares, by their numbers. Each iteration has its own.
    pub variables: List<u64>,
    pub body: Shared<BlockOf<T>>,
}

/// `for targets = range operand { body }`
#[cycle(typed_statement)]
#[derive(Drop)]
pub struct RangeOf<T> {
    pub pos: Pos,
    pub kind: RangeKind,
    /// `None` where the operand is not evaluated: its length is a constant, and no element is taken.
    pub operand: Option<Shared<TypedExprOf<T>>>,
    /// The length of an array, or of one that a pointer points at.
    pub length: Option<u64>,
    pub key: RangeTargetOf<T>,
    pub value: RangeTargetOf<T>,
    pub body: Shared<BlockOf<T>>,
}

/// What a `range` goes over.
#[derive(Clone, Copy, Debug, PartialEq, Eq)]
pub enum RangeKind {
    Array,
    /// A pointer to an array.
    Pointer,
    Slice,
    String,
    Map,
}

/// What takes a key or an element of a `range`.
#[derive(Drop)]
pub enum RangeTargetOf<T> {
    /// Nothing, or `_`.
    Nothing,
    /// A new variable of the function, by its number, and its type.
    New(u64, T),
    /// A place, and its type.
    Place(Shared<TypedExprOf<T>>, T),
}
