// Parts of the text of a type.
use gno_terms::{Field, Method, TypeRef};

/// A part of a text that is still to be written.
#[derive(Drop)]
pub(crate) enum Piece<'a> {
    Text(&'a [u8]),
    Type(TypeRef),
    /// The text of a function's type without `func`.
    Signature(TypeRef),
    /// The last parameter of a variadic function.
    Variadic(TypeRef),
    /// What stands behind the first parameter, and whether the last is variadic.
    MoreParams(&'a [TypeRef], bool),
    Results(&'a [TypeRef]),
    /// What stands behind the first field.
    MoreFields(&'a [Field]),
    /// What stands behind the first method.
    MoreMethods(&'a [Method]),
}
