// Types as they are written.
use crate::{Expr, Name};
use gno_base::{Boxed, List};
use gno_scan::Pos;

/// A type. Its place is that of its first token.
#[cycle(tree)]
#[derive(Drop)]
pub enum TypeExpr {
    /// `name`, `package.name`
    Name(TypeName),
    /// `(type)`
    Paren {
        pos: Pos,
        inner: Boxed<TypeExpr>,
    },
    /// `*type`
    Pointer {
        pos: Pos,
        to: Boxed<TypeExpr>,
    },
    /// `[]type`
    Slice {
        pos: Pos,
        element: Boxed<TypeExpr>,
    },
    /// `[length]type`
    Array {
        pos: Pos,
        length: ArrayLength,
        element: Boxed<TypeExpr>,
    },
    /// `map[key]value`
    Map {
        pos: Pos,
        key: Boxed<TypeExpr>,
        value: Boxed<TypeExpr>,
    },
    /// `func(parameters) results`
    Function {
        pos: Pos,
        signature: Signature,
    },
    /// `struct { fields }`
    Struct {
        pos: Pos,
        fields: List<Field>,
    },
    /// `interface { members }`
    Interface {
        pos: Pos,
        members: List<Member>,
    },
}

/// A type's name, with its package's where it has one.
#[derive(Drop)]
pub struct TypeName {
    pub qualifier: Option<Name>,
    pub name: Name,
}

/// How long an array is.
#[cycle(tree)]
#[derive(Drop)]
pub enum ArrayLength {
    Expr(Boxed<Expr>),
    /// `...`, as many as the literal has elements
    Elements,
}

/// The parameters and results of a function. Its place is that of its first `(`.
#[cycle(tree)]
#[derive(Drop)]
pub struct Signature {
    pub pos: Pos,
    pub parameters: List<Parameter>,
    /// A result that stands without parentheses is one without a name.
    pub results: List<Parameter>,
}

/// Parameters, or results, of one type.
#[cycle(tree)]
#[derive(Drop)]
pub struct Parameter {
    /// None where it is not named.
    pub names: List<Name>,
    /// Whether `...` stands before the type.
    pub variadic: bool,
    pub of: TypeExpr,
}

/// Fields of a struct.
#[cycle(tree)]
#[derive(Drop)]
pub enum Field {
    /// `names type`
    Named { names: List<Name>, of: TypeExpr },
    /// `type`, `*type`; where a `*` stands, its place
    Embedded { star: Option<Pos>, of: TypeName },
}

/// What an interface asks for.
#[cycle(tree)]
#[derive(Drop)]
pub enum Member {
    /// `name(parameters) results`
    Method { name: Name, signature: Signature },
    /// An interface whose methods belong to it.
    Embedded(TypeName),
}
