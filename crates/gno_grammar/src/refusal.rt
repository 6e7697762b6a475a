//! Why a token is refused.

/// A form of Go that the language leaves out.
#[derive(Clone, Copy, Debug, PartialEq, Eq)]
pub enum LeftOut {
    Goroutine,
    Channel,
    Select,
    Goto,
    Generics,
    StructTag,
    DotImport,
    TypeUnion,
}

/// Why a token is refused.
#[derive(Clone, Copy, Debug, PartialEq, Eq)]
pub enum Refusal {
    Unexpected,
    TooDeep,
    /// The form began so many tokens before the one that is refused.
    LeftOut { form: LeftOut, begun: usize },
}
