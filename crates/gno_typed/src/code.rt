// Names of pieces of code and of variables.
use gno_base::Bytes;

/// A function, a method or a function literal, by its number among those of its package, in source order from 0.
#[derive(Clone, Debug, Drop, PartialEq, Eq)]
pub struct CodeId {
    pub package: Bytes,
    pub number: u64,
}

/// A variable, as the function that is running names it.
#[derive(Clone, Debug, Drop, PartialEq, Eq)]
pub enum VariableId {
    /// A variable of a package, by the package's path and its number among the package's variables.
    Package(Bytes, u64),
    /// A variable of the function, by its number among the function's own.
    Local(u64),
    /// A variable of a function around the function literal, by its number among those that the literal captures.
    Captured(u64),
}
