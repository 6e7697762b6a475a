// Packages.
use crate::{CodeId, TypedExpr, TypedStmt, VariableId};
use gno_base::{Bytes, List, Shared};
use gno_constants::Constant;
use gno_terms::TypeRef;

/// A package as it runs.
#[derive(Drop)]
pub struct TypedPackage {
    pub path: Bytes,
    pub name: Bytes,
    /// The paths of the packages that it imports, each once.
    pub imports: List<Bytes>,
    pub types: List<TypedName>,
    pub constants: List<TypedConstant>,
    /// Its variables, in the order of their declarations.
    pub variables: List<TypedName>,
    /// How the variables with values get them, in this order.
    pub order: List<TypedInit>,
    /// Its functions, methods and function literals, by their numbers.
    pub functions: List<TypedFunction>,
    /// Its functions of the name `init`, in the order of their declarations.
    pub inits: List<CodeId>,
}

/// A name and a type: that which it means, or that of the variable which it means.
#[derive(Drop)]
pub struct TypedName {
    pub name: Bytes,
    pub of: TypeRef,
}

/// A constant that has a name.
#[derive(Drop)]
pub struct TypedConstant {
    pub name: Bytes,
    /// Its type, which may be an untyped one.
    pub of: TypeRef,
    pub value: Constant,
}

/// A value that variables of a package get, by their numbers: several where one expression gives several values. `None` stands for
/// `_`.
#[derive(Drop)]
pub struct TypedInit {
    pub variables: List<Option<u64>>,
    pub value: TypedExpr,
}

/// A function, a method or a function literal.
#[derive(Drop)]
pub struct TypedFunction {
    pub id: CodeId,
    /// Empty for a function literal.
    pub name: Bytes,
    pub receiver: Option<TypeRef>,
    /// Its type, without the receiver.
    pub of: TypeRef,
    pub crossing: bool,
    /// The types of its own variables by their numbers: the receiver, the parameters, the results, then those of its body.
    pub locals: List<TypeRef>,
    /// The variables of the function around it that a function literal captures.
    pub captured: List<VariableId>,
    /// `None` where the function is not written in the language.
    pub body: Option<List<Shared<TypedStmt>>>,
}
