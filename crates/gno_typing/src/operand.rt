// What an expression stands for.
use crate::{FormOf, ValueOf};
use gno_base::{Bytes, List};
use gno_scan::Pos;
use gno_typed::{BoundOf, CodeId};

/// What is found about an expression. Its place is that of its node.
#[derive(Drop)]
pub enum OperandOf<T> {
    Value(ValueOf<T>),
    /// A method of a value, which is neither called nor bound yet.
    Method {
        pos: Pos,
        of: T,
        calls: bool,
        form: FormOf<T>,
        bound: BoundOf<T>,
    },
    /// A crossing function, which may only be called.
    Crossing {
        pos: Pos,
        of: T,
        code: CodeId,
    },
    /// A call that gives no value, or several.
    Results {
        pos: Pos,
        of: List<T>,
        form: FormOf<T>,
    },
    Type {
        pos: Pos,
        of: T,
    },
    /// `[...]element`, an array as long as its literal.
    OpenArray {
        pos: Pos,
        element: T,
    },
    /// An imported package, by its path.
    Package {
        pos: Pos,
        path: Bytes,
    },
    /// A predeclared function, by its name.
    Builtin {
        pos: Pos,
        name: Bytes,
    },
    /// `cross`
    Cross {
        pos: Pos,
    },
    /// The first parameter of a crossing function.
    Realm {
        pos: Pos,
    },
}
