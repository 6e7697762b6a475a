// Forms in the types that they took.
ghost use Rattle.std.specs.Prelude.{◌≡◌, Bool, Option, Some, option_map, IfOk};
ghost use Rattle.gno_giving.specs.InTypes.{InTypeStands};
ghost use Rattle.gno_judging.specs.Answers.{Answers};
ghost use Rattle.gno_judging.specs.Found.{TypeStands};
ghost use Rattle.gno_judging.specs.Noting.{noted};
ghost use Rattle.gno_judging.specs.Stands.{BothStand, Stands};
ghost use Rattle.gno_terms.specs.Tables.{Table};
ghost use Rattle.gno_terms.specs.declared.term.GoType.{GoType};
ghost use Rattle.gno_type_classes.specs.Unnumbered.{unnumbered};
ghost use Rattle.gno_typed.specs.declared.expr.TypedExprOf.{TypedExprOf};
ghost use Rattle.gno_typed.specs.declared.expr.TypedExprOf.TheVariants as w;
ghost use Rattle.gno_typing.specs.Forms.{closed};
ghost use Rattle.gno_typing.specs.Giving as giving;
ghost use Rattle.gno_typing.specs.Giving.{IsBeside, combined, in_one_type, in_type, joined_by, shifted_by};
ghost use Rattle.gno_typing.specs.Verdicts.{AfterBoth, Verdict};
ghost use Rattle.gno_typing.specs.declared.fault.Fault.{Fault};
ghost use Rattle.gno_typing.specs.declared.form.FormOf.TheVariants as f;
ghost use Rattle.gno_typing.specs.declared.pending.PendingOf.TheVariants as p;

use crate::forms::{constant, joined, unary, with_operand};
use gno_constants::Constant;
use gno_giving::InType;
use gno_judging::Faults;
use gno_scan::Pos;
use gno_terms::TypeRef;
use gno_tree::{BinaryOperator, UnaryOperator};
use gno_type_table::TypeTable;
use gno_typed::TypedExpr;
use std::alloc::{AllocError, Global};

/// An operator before a form.
pub(crate) fn unary_in_type(
    alloc: Global,
    pos: Pos,
    operator: UnaryOperator,
    x: Option<InType>,
) -> Result<Option<InType>, AllocError>
    ensures { (table : Table) (y : Option giving.InType) → BothStand (InTypeStands table) x y → IfOk result (λ r. BothStand (InTypeStands table) r (option_map (λ a. in_type a.of (f.Whole (w.Unary pos a.of operator (closed a.form)))) y)) }
{
    match x {
        Some(x) => {
            let of = x.of;
            let form = unary(alloc, of, pos, operator, x.form)?;
            Ok(Some(InType { of, form }))
        }
        None => Ok(None),
    }
}

/// A form that is shifted by a count.
pub(crate) fn shifted_in_type(
    alloc: Global,
    pos: Pos,
    operator: BinaryOperator,
    x: Option<InType>,
    count: TypedExpr,
) -> Result<Option<InType>, AllocError>
    ensures { (table : Table) (y : Option giving.InType) (c : TypedExprOf GoType) → BothStand (InTypeStands table) x y → Stands table count c → IfOk result (λ r. BothStand (InTypeStands table) r (option_map (λ a. in_type a.of (shifted_by a.of pos operator a.form c)) y)) }
{
    match x {
        Some(x) => {
            let of = x.of;
            let form = with_operand(alloc, of, pos, operator, x.form, count)?;
            Ok(Some(InType { of, form }))
        }
        None => {
            drop(count);
            Ok(None)
        }
    }
}

/// An operator between two forms, in a type that is that of both.
fn joined_in_type(
    alloc: Global,
    of: TypeRef,
    pos: Pos,
    operator: BinaryOperator,
    left: InType,
    right: InType,
) -> Result<InType, AllocError>
    ensures { (table : Table) (u : GoType) (x y : giving.InType) → TypeStands table of u → InTypeStands table left x → InTypeStands table right y → IfOk result (λ r. InTypeStands table r (in_type u (joined_by u pos operator x.form y.form))) }
{
    let form = joined(alloc, of, pos, operator, left.form, right.form)?;
    Ok(InType { of, form })
}

/// An operator between two forms, in the type of the left one.
pub(crate) fn joined_as_left(
    alloc: Global,
    pos: Pos,
    operator: BinaryOperator,
    left: Option<InType>,
    right: Option<InType>,
) -> Result<Option<InType>, AllocError>
    ensures { (table : Table) (x y : Option giving.InType) → BothStand (InTypeStands table) left x → BothStand (InTypeStands table) right y → IfOk result (λ r. BothStand (InTypeStands table) r (combined (λ a c. in_type a.of (joined_by a.of pos operator a.form c.form)) x y)) }
{
    match left {
        Some(left) => match right {
            Some(right) => {
                let both = joined_in_type(alloc, left.of, pos, operator, left, right)?;
                Ok(Some(both))
            }
            None => {
                drop(left);
                Ok(None)
            }
        },
        None => {
            drop(right);
            Ok(None)
        }
    }
}

/// An operator between two forms, in the type of the right one.
pub(crate) fn joined_as_right(
    alloc: Global,
    pos: Pos,
    operator: BinaryOperator,
    left: Option<InType>,
    right: Option<InType>,
) -> Result<Option<InType>, AllocError>
    ensures { (table : Table) (x y : Option giving.InType) → BothStand (InTypeStands table) left x → BothStand (InTypeStands table) right y → IfOk result (λ r. BothStand (InTypeStands table) r (combined (λ a c. in_type c.of (joined_by c.of pos operator a.form c.form)) x y)) }
{
    match left {
        Some(left) => match right {
            Some(right) => {
                let both = joined_in_type(alloc, right.of, pos, operator, left, right)?;
                Ok(Some(both))
            }
            None => {
                drop(left);
                Ok(None)
            }
        },
        None => {
            drop(right);
            Ok(None)
        }
    }
}

/// An operator between two forms, which are to have one type.
fn in_one_type(
    alloc: Global,
    types: &TypeTable,
    faults: &mut Faults,
    pos: Pos,
    operator: BinaryOperator,
    left: InType,
    right: InType,
) -> Result<Option<InType>, AllocError>
    ensures { (x y : giving.InType) → InTypeStands types.now left x → InTypeStands types.now right y → IfOk result (λ r. Answers (in_one_type pos operator x y) (InTypeStands types.now) faults.old faults.new r) }
{
    if types.identical(left.of, right.of) {
        let both = joined_in_type(alloc, left.of, pos, operator, left, right)?;
        Ok(Some(both))
    } else {
        drop(left);
        drop(right);
        faults.note(47, pos);
        Ok(None)
    }
}

/// An operator between what two operands became, which are to have one type; `None` where they have not, which is noted.
pub(crate) fn joined_in_one_type(
    alloc: Global,
    types: &TypeTable,
    faults: &mut Faults,
    pos: Pos,
    operator: BinaryOperator,
    left: Option<InType>,
    right: Option<InType>,
) -> Result<Option<InType>, AllocError>
    ensures { (first mid : Option Fault) (x y : Verdict giving.InType) → BothStand (InTypeStands types.now) left x.form → mid ≡ noted first x.faults → BothStand (InTypeStands types.now) right y.form → faults.old ≡ noted mid y.faults → IfOk result (λ r. Answers (AfterBoth (λ a. a ≡ x) (λ a. a ≡ y) (in_one_type pos operator)) (InTypeStands types.now) first faults.new r) }
{
    match left {
        Some(left) => match right {
            Some(right) => in_one_type(alloc, types, faults, pos, operator, left, right),
            None => {
                drop(left);
                Ok(None)
            }
        },
        None => {
            drop(right);
            Ok(None)
        }
    }
}

/// A constant in a type.
fn constant_in_type(
    types: &TypeTable,
    faults: &mut Faults,
    of: TypeRef,
    pos: Pos,
    value: Constant,
) -> Option<InType>
    ensures { (rune : Bool) (y : giving.InType) → TypeStands types.now of y.of → Answers (IsBeside (unnumbered types.now) (p.Constant pos value rune) (Some y)) (InTypeStands types.now) faults.old faults.new result }
{
    match constant(types, faults, of, pos, value) {
        Some(form) => Some(InType { of, form }),
        None => None,
    }
}

/// A constant in the type of the operand beside it, where that took one; `None` where it is no value of that type, which is noted.
pub(crate) fn beside(
    types: &TypeTable,
    faults: &mut Faults,
    other: &Option<InType>,
    pos: Pos,
    value: Constant,
) -> Option<InType>
    ensures { (rune : Bool) (y : Option giving.InType) → BothStand (InTypeStands types.now) other.now y → Answers (IsBeside (unnumbered types.now) (p.Constant pos value rune) y) (InTypeStands types.now) faults.old faults.new result }
{
    match other {
        Some(other) => constant_in_type(types, faults, other.of, pos, value),
        None => None,
    }
}
