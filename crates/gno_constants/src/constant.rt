// The values of constants.
use gno_base::Bytes;

/// A constant. Whole numbers are those of 128 bits in two's complement: from -2^127 to 2^127-1.
#[derive(Clone, Debug, Drop, PartialEq, Eq)]
pub enum Constant {
    /// A boolean constant.
    Bool(bool),
    /// A string constant, as its bytes.
    Text(Bytes),
    /// A rune or integer constant.
    Whole(i128),
}
