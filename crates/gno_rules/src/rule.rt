// The constructs that nest.

/// A construct that counts to the depth of a text: each is one level deeper than what it stands in.
#[derive(Clone, Copy, Debug, PartialEq, Eq)]
pub enum Rule {
    /// A type.
    Type,
    /// A type that does not begin with a name.
    OtherType,
    /// A type that stands as a result without parentheses.
    ResultType,
    /// The type of a type declaration, where an alias has a `=`.
    DeclaredType,
    /// A type that is an operand.
    OperandType,
    /// A function literal, or the type of a function, that is an operand.
    Function,
    /// The same in a header, where a body must follow.
    HeaderFunction,
    /// `(expression)`
    Paren,
    /// `[index]`, `[low:high]`, `[low:high:max]`
    Index,
    /// `(arguments)`
    Arguments,
    /// `{elements}`
    Elements,
    /// The operand of an operator before it.
    Unary,
    /// The same in a header.
    HeaderUnary,
    /// `{ statements }`
    Block,
    /// `{ cases }`
    SwitchBody,
}
