// What stands behind an operand.
use crate::{ArgumentsOf, TypedExprOf};
use gno_base::{Bytes, List, Shared};
use gno_scan::Pos;
use gno_selectors::Passed;

/// What stands behind an operand, and takes what stands before it.
#[cycle(typed)]
#[derive(Drop)]
pub enum TypedStepOf<T> {
    /// `.name` of a field: the embedded fields that are passed, and the field's place in its struct.
    Field {
        pos: Pos,
        of: T,
        /// Whether the operand is taken as a place.
        place: bool,
        /// Whether the operand is a pointer, which is followed.
        pointer: bool,
        way: List<Passed>,
        index: usize,
    },
    /// `.name` of a method that is not called at once: a bound method.
    Bound {
        pos: Pos,
        of: T,
        bound: BoundOf<T>,
    },
    /// `[index]`
    Index {
        pos: Pos,
        of: T,
        kind: IndexKind,
        /// Whether the operand is taken as a place: an array that is one.
        place: bool,
        index: Shared<TypedExprOf<T>>,
    },
    /// `[low:high]`, `[low:high:max]`
    Slice {
        pos: Pos,
        of: T,
        kind: SliceKind,
        low: Option<Shared<TypedExprOf<T>>>,
        high: Option<Shared<TypedExprOf<T>>>,
        max: Option<Shared<TypedExprOf<T>>>,
    },
    /// `.(type)`
    Assertion {
        pos: Pos,
        of: T,
    },
    /// `(arguments)`, with the types of the results.
    Call {
        pos: Pos,
        results: List<T>,
        callee: CalleeOf<T>,
        crossing: Option<Crossing>,
        arguments: ArgumentsOf<T>,
        variadic: Option<VariadicOf<T>>,
    },
}

/// A method and what it is selected of.
#[derive(Drop)]
pub struct BoundOf<T> {
    /// Whether the operand is taken as a place.
    pub place: bool,
    /// Whether the operand is a pointer, which is followed where embedded fields are passed.
    pub pointer: bool,
    pub way: List<Passed>,
    pub name: Bytes,
    /// The path of the package that names the method, where the name is not exported.
    pub package: Bytes,
    pub receiver: ReceiverOf<T>,
}

/// What a method is declared on.
#[derive(Drop)]
pub enum ReceiverOf<T> {
    /// A defined type, or a pointer to it where `pointer`.
    Declared {
        of: T,
        pointer: bool,
        adjustment: Adjustment,
    },
    /// The method is found in what the value holds, which is of an interface type.
    Held,
}

/// How the receiver is made from what the way leads to.
#[derive(Clone, Copy, Debug, PartialEq, Eq)]
pub enum Adjustment {
    /// It is a pointer, as the receiver is.
    Pointer,
    /// It is a value, which is copied.
    Copied,
    /// It is a pointer, and what it points at is copied.
    Followed,
    /// It is a place, and its address is taken.
    Address,
}

/// What an index is taken of.
#[derive(Clone, Copy, Debug, PartialEq, Eq)]
pub enum IndexKind {
    Array,
    /// A pointer to an array.
    Pointer,
    Slice,
    String,
    Map,
}

/// What is sliced.
#[derive(Clone, Copy, Debug, PartialEq, Eq)]
pub enum SliceKind {
    /// An array that is taken as a place.
    Array,
    /// A pointer to an array.
    Pointer,
    Slice,
    String,
}

/// What is called.
#[derive(Drop)]
pub enum CalleeOf<T> {
    /// What stands before the arguments, a value of a function type.
    Value,
    /// A method of what stands before it, with the place of its `.`.
    Method { pos: Pos, of: T, bound: BoundOf<T> },
}

/// How a crossing function is called: its first argument, which no value is passed for.
#[derive(Clone, Copy, Debug, PartialEq, Eq)]
pub enum Crossing {
    /// `cross`
    Cross,
    /// The enclosing crossing function's own first parameter.
    Own,
}

/// The arguments from number `from` on become a list of type `of`.
#[derive(Drop)]
pub struct VariadicOf<T> {
    pub from: u64,
    pub of: T,
}
