// Constants that were worked out, in a type.
ghost use Rattle.gno_constants.specs.Exact.{Exact, IsTooWide};
ghost use Rattle.gno_constants.specs.Exact.Exact.{Value};
ghost use Rattle.gno_judging.specs.Answers.{Answers};
ghost use Rattle.gno_judging.specs.Found.{ConstantTypeStands, ValueStands};
ghost use Rattle.gno_operations.specs.Folding.{WorksOut};
ghost use Rattle.gno_terms.specs.declared.term.GoType.{GoType};
ghost use Rattle.gno_type_classes.specs.Unnumbered.{unnumbered};
ghost use Rattle.gno_typing.specs.Unary.{worked_out};

use crate::folding::Folded;
use gno_constants::Constant;
use gno_judging::Faults;
use gno_scan::Pos;
use gno_terms::TypeRef;
use gno_type_classes::may_be;
use gno_type_table::TypeTable;
use gno_typing::ValueOf;

/// What an operator gave, as a constant of a type; `None` where it is none of the type, or where the operator gave nothing, which is
/// noted. Go specification, "Constant expressions", "Integer operators" and "Representability".
pub fn worked_out(
    types: &TypeTable,
    faults: &mut Faults,
    place: Pos,
    of: TypeRef,
    x: Folded,
) -> Option<ValueOf<TypeRef>>
    ensures { (s : GoType) (e : Exact) → ConstantTypeStands types.now of s → WorksOut x e → Answers (worked_out (unnumbered types.now) place s e) (ValueStands types.now) faults.old faults.new result }
{
    match x {
        Folded::Value(value) => value_worked_out(types, faults, place, of, value),
        Folded::TooWide => {
            faults.note(42, place);
            None
        }
        Folded::NoQuotient => {
            faults.note(44, place);
            None
        }
        Folded::NoShift => {
            faults.note(45, place);
            None
        }
        Folded::NotDefined => {
            faults.note(46, place);
            None
        }
    }
}

fn value_worked_out(
    types: &TypeTable,
    faults: &mut Faults,
    place: Pos,
    of: TypeRef,
    value: Constant,
) -> Option<ValueOf<TypeRef>>
    ensures { (s : GoType) → ConstantTypeStands types.now of s → Answers (worked_out (unnumbered types.now) place s (Value value)) (ValueStands types.now) faults.old faults.new result }
{
    is_narrow(&value);
    if may_be(types, &value, of) {
        Some(ValueOf::Constant {
            pos: place,
            of,
            value,
        })
    } else {
        faults.note(43, place);
        None
    }
}

// A constant that code has is not too wide.
fn is_narrow(value: &Constant)
    ensures { IsTooWide (Value value.now) → ⊥ }
{
    match value {
        Constant::Whole(n) => {
            let _n = *n;
        }
        _ => {}
    }
}
