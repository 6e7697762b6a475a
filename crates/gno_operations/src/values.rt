// What is seen of a value without its type.
ghost use Rattle.std.specs.Prelude.{◌≡◌};
ghost use Rattle.gno_judging.specs.Found.{ValueStands};
ghost use Rattle.gno_terms.specs.Tables.{Table};
ghost use Rattle.gno_terms.specs.declared.term.GoType.{GoType};
ghost use Rattle.gno_typing.specs.Binary.{divides_by_zero, is_zero, needs_of};
ghost use Rattle.gno_typing.specs.declared.value.ValueOf.{ValueOf};

use crate::sorts::divides;
use gno_constants::Constant;
use gno_terms::TypeRef;
use gno_tree::BinaryOperator;
use gno_typing::{ValueOf, Waits};

/// Whether the operator divides by a constant that is 0.
pub fn divides_by_zero(operator: BinaryOperator, x: &ValueOf<TypeRef>) -> bool
    ensures { (table : Table) (y : ValueOf GoType) → ValueStands table x.now y → result ≡ divides_by_zero operator y }
{
    match x {
        ValueOf::Constant { value, .. } => divides(operator) && is_zero(value),
        _ => false,
    }
}

fn is_zero(value: &Constant) -> bool
    ensures { result ≡ is_zero value.now }
{
    match value {
        Constant::Whole(n) => *n == 0,
        _ => false,
    }
}

/// What the value waits for, or `other` where it does not wait.
pub fn needs_of(x: &ValueOf<TypeRef>, other: Waits) -> Waits
    ensures { (table : Table) (y : ValueOf GoType) → ValueStands table x.now y → result ≡ needs_of y other }
{
    match x {
        ValueOf::Pending { waits, .. } => *waits,
        _ => other,
    }
}
