// Whole numbers that count elements.
use gno_typed::TypedExpr;

/// An index, a bound of a slice or a size of `make` in its typed form, and its value where it is a constant.
#[derive(Drop)]
pub struct Counted {
    pub form: TypedExpr,
    pub value: Option<i128>,
}
