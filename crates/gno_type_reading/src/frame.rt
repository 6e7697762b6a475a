// Types that are read, and what to do next.
use gno_base::{Bytes, List};
use gno_terms::{FieldOf, MethodOf, TermOf, TypeRef};

/// The name of a field or a method, with the path of its package where one stands before it.
#[derive(Drop)]
pub(crate) struct Member {
    pub name: Bytes,
    pub package: Bytes,
}

/// A type of which a part is read next: its form, and what was read of it.
#[derive(Drop)]
pub(crate) enum FrameOf<T> {
    Pointer,
    Slice,
    Array(u64),
    Key,
    /// The value behind this key.
    Value(T),
    /// The next parameter, which is the variadic one or is not.
    Params(List<T>, bool),
    /// The one result of a function.
    Result(List<T>, bool),
    /// The next of several results.
    Results(List<T>, bool, List<T>),
    /// The type of the next field, which is embedded or is not.
    Field(List<FieldOf<T>>, Member, bool),
    /// The function of the next method.
    Method(List<MethodOf<T>>, Member),
}

/// What the bytes at hand say.
#[derive(Drop)]
pub(crate) enum ActionOf<T> {
    /// A part of this is read next.
    Opened(FrameOf<T>),
    /// All of this was read.
    Made(TermOf<T>),
    /// No type has such a text.
    Refused,
}

/// A type by its number in a table, of which a part is read next.
pub(crate) type Frame = FrameOf<TypeRef>;

/// What the bytes at hand say, over a table.
pub(crate) type Action = ActionOf<TypeRef>;
