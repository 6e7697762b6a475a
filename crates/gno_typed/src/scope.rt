// What names mean where an expression stands.
use crate::{CodeId, TypedPackage, VariableId};
use gno_base::{Bytes, List, Path, Shared};
use gno_constants::Constant;
use gno_terms::TypeRef;

/// The typed packages that may be imported.
#[derive(Drop)]
pub struct Known {
    pub packages: List<Shared<TypedPackage>>,
}

/// What names mean where an expression stands.
#[derive(Drop)]
pub struct Scope {
    /// The path of the package.
    pub path: Path,
    /// The names in scope, the innermost declaration last.
    pub names: List<ScopeName>,
    /// Whether the expression stands in the body of a crossing function, outside function literals.
    pub direct: bool,
    /// The number of the first function literal of the expression.
    pub next_code: u64,
}

/// A name, and what it means.
#[derive(Drop)]
pub struct ScopeName {
    pub name: Bytes,
    pub is: Named,
}

/// What a name means. `T` says how types are named.
#[derive(Drop)]
pub enum NamedOf<T> {
    Variable(VariableId, T),
    Constant(T, Constant),
    TypeName(T),
    /// A function, its type, and whether it is a crossing one.
    Function(CodeId, T, bool),
    /// An imported package, by its path.
    Package(Bytes),
    /// A predeclared function, `nil` or `cross`, by its name.
    Builtin(Bytes),
}

/// What a name means, where types are named by their numbers in a table.
pub type Named = NamedOf<TypeRef>;
