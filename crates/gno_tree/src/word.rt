// What a tree takes from its text: names and literals.
use gno_base::Bytes;
use gno_scan::Pos;

/// A name, and where it stands.
#[derive(Drop)]
pub struct Name {
    pub text: Bytes,
    pub pos: Pos,
}

/// A literal as it is spelled, and where it stands.
#[derive(Drop)]
pub struct Literal {
    pub kind: LiteralKind,
    pub spelling: Bytes,
    pub pos: Pos,
}

/// Which literal.
#[derive(Clone, Copy, Debug, PartialEq, Eq)]
pub enum LiteralKind {
    Integer,
    Rune,
    /// An interpreted or a raw string.
    String,
}
