// The classes of untyped values.
ghost use Rattle.std.specs.Prelude.{◌≡◌, ◌↔◌, IsTrue, not};
ghost use Rattle.gno_base.specs.declared.kind.Kind.TheVariants as k;
ghost use Rattle.gno_judging.specs.Found.{ValueStands};
ghost use Rattle.gno_operations.specs.Classes.{class_by_kind, class_by_needs, class_of};
ghost use Rattle.gno_terms.specs.Tables.{Is};
ghost use Rattle.gno_terms.specs.Terms.{term_of};
ghost use Rattle.gno_terms.specs.declared.term.GoType.{GoType};
ghost use Rattle.gno_typing.specs.Binary.{is_defined_for, is_defined_on, is_rune, untyped_by_term, untyped_in};
ghost use Rattle.gno_typing.specs.Classes.{basic};
ghost use Rattle.gno_typing.specs.declared.value.ValueOf.{ValueOf};

use crate::sorts::is_equality;
use gno_base::Kind;
use gno_terms::TypeRef;
use gno_tree::BinaryOperator;
use gno_type_classes::default_kind;
use gno_type_table::TypeTable;
use gno_typing::{ValueOf, Waits};

/// Whether the type is that of untyped rune constants. Go specification, "Constants".
pub fn is_rune(types: &TypeTable, of: TypeRef) -> bool
    ensures { (s : GoType) → Is types.now of s → result ≡ is_rune s }
{
    matches!(default_kind(types, of), Some(Kind::Int32))
}

/// What an untyped value is. Go specification, "Constants".
#[derive(Clone, Copy, Debug, PartialEq, Eq)]
pub enum Untyped {
    Boolean,
    Whole,
    Text,
    /// `nil`, or a value of a type.
    Nothing,
}

/// What the value is, where it is an untyped one. Go specification, "Constants".
pub fn untyped_in(types: &TypeTable, x: &ValueOf<TypeRef>) -> Untyped
    ensures { (y : ValueOf GoType) → ValueStands types.now x.now y → class_of result ≡ untyped_in y }
{
    match x {
        ValueOf::Constant { of, .. } => untyped_of(types, *of),
        ValueOf::Pending { waits, .. } => untyped_waits(*waits),
        _ => Untyped::Nothing,
    }
}

fn untyped_of(types: &TypeTable, of: TypeRef) -> Untyped
    ensures { (s : GoType) → Is types.now of s → class_of result ≡ untyped_by_term (term_of s) }
{
    match default_kind(types, of) {
        Some(kind) => untyped_kind(kind),
        None => Untyped::Nothing,
    }
}

// By the kind of the default type.
fn untyped_kind(kind: Kind) -> Untyped
    ensures { class_of result ≡ class_by_kind kind }
{
    match kind {
        Kind::Bool => Untyped::Boolean,
        Kind::Text => Untyped::Text,
        _ => Untyped::Whole,
    }
}

fn untyped_waits(waits: Waits) -> Untyped
    ensures { class_of result ≡ class_by_needs waits }
{
    match waits {
        Waits::Boolean => Untyped::Boolean,
        Waits::Integer(_) => Untyped::Whole,
    }
}

/// Whether two values are of one class.
pub fn is_same(a: Untyped, b: Untyped) -> bool
    ensures { IsTrue result ↔ (class_of a ≡ class_of b) }
{
    a == b
}

/// Whether the operator is defined on untyped values. Go specification, "Arithmetic operators", "Comparison operators" and "Logical
/// operators".
pub fn is_defined_for(class: Untyped, operator: BinaryOperator) -> bool
    ensures { result ≡ is_defined_for (class_of class) operator }
{
    match class {
        Untyped::Boolean => is_equality(operator) || is_logical(operator),
        Untyped::Whole => is_equality(operator) || !is_logical(operator),
        Untyped::Text => is_equality(operator) || is_ordering(operator),
        Untyped::Nothing => false,
    }
}

fn is_logical(operator: BinaryOperator) -> bool
    ensures on_booleans { result ≡ is_defined_on operator (term_of (basic k.Bool)) }
    ensures on_integers { not result ≡ is_defined_on operator (term_of (basic k.Int)) }
{
    matches!(operator, BinaryOperator::BothTrue | BinaryOperator::OneTrue)
}

// `+`, and the comparisons of order.
fn is_ordering(operator: BinaryOperator) -> bool
    ensures { result ≡ is_defined_on operator (term_of (basic k.Text)) }
{
    matches!(
        operator,
        BinaryOperator::Add
            | BinaryOperator::Less
            | BinaryOperator::LessEqual
            | BinaryOperator::Greater
            | BinaryOperator::GreaterEqual
    )
}
