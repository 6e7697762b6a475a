// What operators between two operands do with them.
ghost use Rattle.std.specs.Prelude.{◌≡◌, ◌↔◌, IsTrue};
ghost use Rattle.gno_terms.specs.Tables.{Is};
ghost use Rattle.gno_terms.specs.declared.term.GoType.{GoType};
ghost use Rattle.gno_type_classes.specs.Unnumbered.{unnumbered};
ghost use Rattle.gno_typing.specs.Binary.{divides, fold_of, is_comparing, is_defined_on, is_equality, sort_of};
ghost use Rattle.gno_typing.specs.Binary.Sort.{Shifting};
ghost use Rattle.gno_typing.specs.Classes.{IsOf};

use gno_constants::FoldOp;
use gno_terms::TypeRef;
use gno_tree::BinaryOperator;
use gno_type_classes::{is_boolean, is_integer, is_ordered};
use gno_type_table::TypeTable;

/// Whether the operator shifts. Go specification, "Operators".
pub fn is_shifting(operator: BinaryOperator) -> bool
    ensures { IsTrue result ↔ (sort_of operator ≡ Shifting) }
{
    matches!(
        operator,
        BinaryOperator::ShiftLeft | BinaryOperator::ShiftRight
    )
}

/// Whether the operator compares. Go specification, "Comparison operators".
pub fn is_comparing(operator: BinaryOperator) -> bool
    ensures { result ≡ is_comparing operator }
{
    matches!(
        operator,
        BinaryOperator::Equal
            | BinaryOperator::NotEqual
            | BinaryOperator::Less
            | BinaryOperator::LessEqual
            | BinaryOperator::Greater
            | BinaryOperator::GreaterEqual
    )
}

/// Whether the operator compares for equality. Go specification, "Comparison operators".
pub fn is_equality(operator: BinaryOperator) -> bool
    ensures { result ≡ is_equality operator }
{
    matches!(operator, BinaryOperator::Equal | BinaryOperator::NotEqual)
}

/// Whether the operator divides. Go specification, "Integer operators".
pub fn divides(operator: BinaryOperator) -> bool
    ensures { result ≡ divides operator }
{
    matches!(operator, BinaryOperator::Quo | BinaryOperator::Rem)
}

/// The operator on constants.
pub fn fold_of(operator: BinaryOperator) -> FoldOp
    ensures { result ≡ fold_of operator }
{
    match operator {
        BinaryOperator::Mul => FoldOp::Mul,
        BinaryOperator::Quo => FoldOp::Quo,
        BinaryOperator::Rem => FoldOp::Rem,
        BinaryOperator::ShiftLeft => FoldOp::Shl,
        BinaryOperator::ShiftRight => FoldOp::Shr,
        BinaryOperator::And => FoldOp::And,
        BinaryOperator::AndNot => FoldOp::AndNot,
        BinaryOperator::Add => FoldOp::Add,
        BinaryOperator::Sub => FoldOp::Sub,
        BinaryOperator::Or => FoldOp::Or,
        BinaryOperator::Xor => FoldOp::Xor,
        BinaryOperator::Equal => FoldOp::Equal,
        BinaryOperator::NotEqual => FoldOp::NotEqual,
        BinaryOperator::Less => FoldOp::Less,
        BinaryOperator::LessEqual => FoldOp::LessEqual,
        BinaryOperator::Greater => FoldOp::Greater,
        BinaryOperator::GreaterEqual => FoldOp::GreaterEqual,
        BinaryOperator::BothTrue => FoldOp::BothTrue,
        BinaryOperator::OneTrue => FoldOp::OneTrue,
    }
}

/// Whether the operator is defined on a type, but for shifts and equality. Go specification, "Arithmetic operators", "Comparison
/// operators" and "Logical operators".
pub fn is_defined_on(types: &TypeTable, operator: BinaryOperator, of: TypeRef) -> bool
    ensures { (s : GoType) → Is types.now of s → IsTrue result ↔ IsOf (is_defined_on operator) (unnumbered types.now) s }
{
    match operator {
        BinaryOperator::Add
        | BinaryOperator::Less
        | BinaryOperator::LessEqual
        | BinaryOperator::Greater
        | BinaryOperator::GreaterEqual => is_ordered(types, of),
        BinaryOperator::BothTrue | BinaryOperator::OneTrue => is_boolean(types, of),
        _ => is_integer(types, of),
    }
}
