// Files.
use crate::{Block, Declaration, Literal, Name, Signature, TypeExpr};
use gno_base::List;
use gno_scan::Pos;

/// A source file, with the place of its `package`.
#[derive(Drop)]
pub struct FileTree {
    pub pos: Pos,
    pub package_name: Name,
    pub imports: List<Import>,
    pub declarations: List<TopLevel>,
}

/// `name "path"`
#[derive(Drop)]
pub struct Import {
    pub name: Option<Name>,
    pub path: Literal,
}

/// What a file declares.
#[derive(Drop)]
pub enum TopLevel {
    Declaration(Declaration),
    Function(Function),
}

/// `func (receiver) name(parameters) results body`, with the place of its `func`.
#[derive(Drop)]
pub struct Function {
    pub pos: Pos,
    pub receiver: Option<Receiver>,
    pub name: Name,
    pub signature: Signature,
    pub body: Option<Block>,
}

/// `name type`
#[derive(Drop)]
pub struct Receiver {
    pub name: Option<Name>,
    pub of: TypeExpr,
}
