// One value.
use crate::{FormOf, PendingOf};
use gno_constants::Constant;
use gno_scan::Pos;

/// What is found about an expression that stands for one value. Its place is that of its node.
#[derive(Drop)]
pub enum ValueOf<T> {
    /// A constant, whose type may be an untyped one.
    Constant {
        pos: Pos,
        of: T,
        value: Constant,
    },
    /// `nil`
    Nil {
        pos: Pos,
    },
    /// A value of a type.
    Typed {
        pos: Pos,
        of: T,
        standing: Standing,
        /// Whether it holds, outside the bodies of function literals, a call that is neither a conversion nor constant.
        calls: bool,
        form: FormOf<T>,
    },
    /// An untyped value that is no constant.
    Pending {
        pos: Pos,
        waits: Waits,
        calls: bool,
        form: PendingOf<T>,
    },
}

/// Where a value stands.
#[derive(Clone, Copy, Debug, PartialEq, Eq)]
pub enum Standing {
    /// Nowhere: it is a result.
    Result,
    /// In a place, whose address may be taken.
    Place,
    /// In a map, under a key.
    Element,
    /// It is a composite literal, from which `&` makes a new variable.
    Literal,
}

/// What an untyped value that is no constant waits for.
#[derive(Clone, Copy, Debug, PartialEq, Eq)]
pub enum Waits {
    /// A boolean type.
    Boolean,
    /// An integer type. Any other is a fault of the first shift in it, which stands at this place.
    Integer(Pos),
}
