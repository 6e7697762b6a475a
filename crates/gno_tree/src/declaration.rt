// Declarations.
use crate::{Expr, Name, TypeExpr};
use gno_base::List;
use gno_scan::Pos;

/// A declaration, of one or in parentheses of any number. Its place is that of its first token.
#[cycle(tree)]
#[derive(Drop)]
pub enum Declaration {
    Const { pos: Pos, specs: List<ConstSpec> },
    Type { pos: Pos, specs: List<TypeSpec> },
    Var { pos: Pos, specs: List<VarSpec> },
}

/// `names type = values`. Where no values stand, the list is empty.
#[cycle(tree)]
#[derive(Drop)]
pub struct ConstSpec {
    pub names: List<Name>,
    pub of: Option<TypeExpr>,
    pub values: List<Expr>,
}

/// `name type`, `name = type`
#[cycle(tree)]
#[derive(Drop)]
pub struct TypeSpec {
    pub name: Name,
    /// Whether `=` stands before the type.
    pub alias: bool,
    pub of: TypeExpr,
}

/// `names type = values`. Where no values stand, the list is empty.
#[cycle(tree)]
#[derive(Drop)]
pub struct VarSpec {
    pub names: List<Name>,
    pub of: Option<TypeExpr>,
    pub values: List<Expr>,
}
