// The pieces of a text: tokens, and what stands between them.
use crate::TokenKind;

/// What a piece of a text is.
#[derive(Clone, Copy, Debug, PartialEq, Eq)]
pub(crate) enum Piece {
    Token(TokenKind),
    /// A floating-point or an imaginary literal, which Gno does not have.
    OtherNumber,
    LineComment,
    GeneralComment,
    /// A space, a tab or a carriage return.
    Blank,
    LineEnd,
}

/// What a text begins with.
#[derive(Clone, Copy, Debug, PartialEq, Eq)]
pub(crate) enum Beginning {
    /// A piece, and how many bytes it has.
    Begun(Piece, usize),
    /// A comment or a literal that does not end, or not on its line.
    Open,
    /// Nothing that Go has.
    Stray,
}
