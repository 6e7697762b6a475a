// Expressions.
use crate::{CodeId, ElementsOf, LogicOperationOf, OperationOf, TypedStepOf, VariableId};
use gno_base::{List, Shared};
use gno_constants::Constant;
use gno_scan::Pos;
use gno_terms::TypeRef;
use gno_tree::UnaryOperator;

/// An expression as it runs. `T` says how types are named: by their numbers in a table, or in definitions as types.
///
/// An operand is read as a value, but where what stands around it takes it as a place.
#[cycle(typed)]
#[derive(Drop)]
pub enum TypedExprOf<T> {
    /// A constant expression, taken whole.
    Constant {
        pos: Pos,
        of: T,
        value: Constant,
    },
    /// `nil`, of a pointer, slice, map, function or interface type.
    Nil {
        pos: Pos,
        of: T,
    },
    /// The name of a variable, with its package's name or without.
    Variable {
        pos: Pos,
        of: T,
        variable: VariableId,
    },
    /// The name of a declared function, with its package's name or without.
    Function {
        pos: Pos,
        of: T,
        code: CodeId,
    },
    /// An operand and the steps behind it, one at least.
    Primary {
        operand: Shared<TypedExprOf<T>>,
        steps: List<TypedStepOf<T>>,
    },
    /// `*operand`
    Dereference {
        pos: Pos,
        of: T,
        operand: Shared<TypedExprOf<T>>,
    },
    /// `&operand`
    Address {
        pos: Pos,
        of: T,
        operand: Shared<TypedExprOf<T>>,
        addressed: Addressed,
    },
    /// `+operand`, `-operand`, `!operand`, `^operand`
    Unary {
        pos: Pos,
        of: T,
        operator: UnaryOperator,
        operand: Shared<TypedExprOf<T>>,
    },
    /// Operands with operators between them that take both their operands. They group to the left.
    Binary {
        first: Shared<TypedExprOf<T>>,
        rest: List<OperationOf<T>>,
    },
    /// Operands of one boolean type with `&&` and `||` between them. They group to the left.
    Logic {
        of: T,
        first: Shared<TypedExprOf<T>>,
        rest: List<LogicOperationOf<T>>,
    },
    /// `type(operand)`
    Conversion {
        pos: Pos,
        of: T,
        kind: ConversionKind,
        from: T,
        operand: Shared<TypedExprOf<T>>,
    },
    /// A value that a place takes as one of an interface type. It has no token of its own.
    Interface {
        of: T,
        from: T,
        operand: Shared<TypedExprOf<T>>,
    },
    /// `type{elements}`, or an inner literal without a type.
    Composite {
        pos: Pos,
        of: T,
        elements: ElementsOf<T>,
    },
    /// `func(parameters) results { statements }`
    Literal {
        pos: Pos,
        of: T,
        code: CodeId,
    },
    /// `append(slice, elements)`; where `spread`, the last argument is a slice of elements, or a string
    Append {
        pos: Pos,
        of: T,
        arguments: ArgumentsOf<T>,
        spread: bool,
    },
    /// `copy(to, from)`
    Copy {
        pos: Pos,
        of: T,
        arguments: ArgumentsOf<T>,
    },
    /// `make(type, sizes)`
    Make {
        pos: Pos,
        of: T,
        sizes: List<Shared<TypedExprOf<T>>>,
    },
    /// `new(type)`: a pointer to a variable of the type `variable`
    New {
        pos: Pos,
        of: T,
        variable: T,
    },
    /// `delete(map, key)`
    Delete {
        pos: Pos,
        arguments: ArgumentsOf<T>,
    },
    /// `print(arguments)`, `println(arguments)`
    Print {
        pos: Pos,
        line: bool,
        arguments: ArgumentsOf<T>,
    },
    /// `len(operand)`, where it is no constant
    Len {
        pos: Pos,
        of: T,
        operand: Shared<TypedExprOf<T>>,
    },
    /// `cap(operand)`, where it is no constant
    Cap {
        pos: Pos,
        of: T,
        operand: Shared<TypedExprOf<T>>,
    },
    /// `panic(operand)`
    Panic {
        pos: Pos,
        operand: Shared<TypedExprOf<T>>,
    },
    /// `recover()`
    Recover {
        pos: Pos,
        of: T,
    },
}

/// An expression that names types by their numbers in a table.
pub type TypedExpr = TypedExprOf<TypeRef>;

/// What `&` takes.
#[derive(Clone, Copy, Debug, PartialEq, Eq)]
pub enum Addressed {
    /// A place.
    Place,
    /// A composite literal, from which a new variable is made.
    Literal,
    /// A composite literal whose `&` is left out.
    Elided,
}

/// How a conversion makes a value of its type.
#[derive(Clone, Copy, Debug, PartialEq, Eq)]
pub enum ConversionKind {
    /// The value stays as it is.
    Same,
    /// From one integer type to another.
    Integer,
    /// From an integer to the string of its character.
    Character,
    /// From a string to a slice of its bytes.
    Bytes,
    /// From a string to a slice of its characters.
    Characters,
    /// From a slice of bytes to a string.
    FromBytes,
    /// From a slice of characters to a string.
    FromCharacters,
    /// From a type that is no interface type to one.
    Interface,
}

/// The arguments of a call.
#[cycle(typed)]
#[derive(Drop)]
pub enum ArgumentsOf<T> {
    /// One expression each, of the type of its parameter.
    Each(List<Shared<TypedExprOf<T>>>),
    /// The results of one call. `given` are the types that they take.
    Results {
        call: Shared<TypedExprOf<T>>,
        given: List<T>,
    },
}
