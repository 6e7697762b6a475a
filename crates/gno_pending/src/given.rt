// A value that waits, in a type that is given.
ghost use Rattle.std.specs.Prelude.{◌∷◌, List, Option, option_map, IfOk};
ghost use Rattle.gno_judging.specs.Answers.{Answers};
ghost use Rattle.gno_judging.specs.Found.{FormStands, PendingStands};
ghost use Rattle.gno_judging.specs.Stands.{BothStand, Stands};
ghost use Rattle.gno_pending.specs.Chains.{GivenSoFar};
ghost use Rattle.gno_terms.specs.Tables.{Is, Table};
ghost use Rattle.gno_terms.specs.declared.term.GoType.{GoType};
ghost use Rattle.gno_type_classes.specs.Unnumbered.{unnumbered};
ghost use Rattle.gno_typed.specs.declared.expr.TypedExprOf.{TypedExprOf};
ghost use Rattle.gno_typed.specs.declared.expr.TypedExprOf.TheVariants as w;
ghost use Rattle.gno_typing.specs.Forms.{closed};
ghost use Rattle.gno_typing.specs.Giving.{IsGiven, combined, joined_by, shifted_by};
ghost use Rattle.gno_typing.specs.declared.fault.Fault.{Fault};
ghost use Rattle.gno_typing.specs.declared.form.FormOf.{FormOf};
ghost use Rattle.gno_typing.specs.declared.form.FormOf.TheVariants as f;
ghost use Rattle.gno_typing.specs.declared.pending.PendingOf.{PendingOf};
ghost use Rattle.gno_typing.specs.declared.pending.PendingOperationOf.{PendingOperationOf};

use crate::forms::{compared, constant, joined, unary, with_operand};
use gno_base::List;
use gno_judging::Faults;
use gno_scan::Pos;
use gno_terms::TypeRef;
use gno_tree::{BinaryOperator, UnaryOperator};
use gno_type_table::TypeTable;
use gno_typed::TypedExpr;
use gno_typing::{FormOf, PendingOf, PendingOperationOf};
use std::alloc::{AllocError, Global};

// An operator before what was given.
fn unary_given(
    alloc: Global,
    of: TypeRef,
    pos: Pos,
    operator: UnaryOperator,
    x: Option<FormOf<TypeRef>>,
) -> Result<Option<FormOf<TypeRef>>, AllocError>
    ensures { (table : Table) (u : GoType) (y : Option (FormOf GoType)) → Is table of u → BothStand (FormStands table) x y → IfOk result (λ r. BothStand (FormStands table) r (option_map (λ a. f.Whole (w.Unary pos u operator (closed a))) y)) }
{
    match x {
        Some(x) => {
            let form = unary(alloc, of, pos, operator, x)?;
            Ok(Some(form))
        }
        None => Ok(None),
    }
}

// An operator between what was given.
fn joined_given(
    alloc: Global,
    of: TypeRef,
    pos: Pos,
    operator: BinaryOperator,
    left: Option<FormOf<TypeRef>>,
    right: Option<FormOf<TypeRef>>,
) -> Result<Option<FormOf<TypeRef>>, AllocError>
    ensures { (table : Table) (u : GoType) (x y : Option (FormOf GoType)) → Is table of u → BothStand (FormStands table) left x → BothStand (FormStands table) right y → IfOk result (λ r. BothStand (FormStands table) r (combined (joined_by u pos operator) x y)) }
{
    match left {
        Some(left) => match right {
            Some(right) => {
                let form = joined(alloc, of, pos, operator, left, right)?;
                Ok(Some(form))
            }
            None => {
                drop(left);
                Ok(None)
            }
        },
        None => {
            drop(right);
            Ok(None)
        }
    }
}

// What was given, shifted by a count.
fn shifted_given(
    alloc: Global,
    of: TypeRef,
    pos: Pos,
    operator: BinaryOperator,
    x: Option<FormOf<TypeRef>>,
    count: TypedExpr,
) -> Result<Option<FormOf<TypeRef>>, AllocError>
    ensures { (table : Table) (u : GoType) (y : Option (FormOf GoType)) (c : TypedExprOf GoType) → Is table of u → BothStand (FormStands table) x y → Stands table count c → IfOk result (λ r. BothStand (FormStands table) r (option_map (λ a. shifted_by u pos operator a c) y)) }
{
    match x {
        Some(x) => {
            let form = with_operand(alloc, of, pos, operator, x, count)?;
            Ok(Some(form))
        }
        None => {
            drop(count);
            Ok(None)
        }
    }
}

// A chain with one more of its operations.
#[cycle(given)]
fn one_given(
    alloc: Global,
    types: &TypeTable,
    faults: &mut Faults,
    of: TypeRef,
    form: Option<FormOf<TypeRef>>,
    operation: PendingOperationOf<TypeRef>,
) -> Result<Option<FormOf<TypeRef>>, AllocError>
    ensures { (u : GoType) (y : PendingOf GoType) (first : Option Fault) (left : List (PendingOperationOf TypeRef)) → Is types.now of u → GivenSoFar types.now u y first (operation ∷ left) form faults.old → IfOk result (λ r. GivenSoFar types.now u y first left r faults.new) }
{
    match operation {
        PendingOperationOf::Operand {
            pos,
            operator,
            operand,
        } => match given_type(alloc, types, faults, of, operand) {
            Ok(right) => joined_given(alloc, of, pos, operator, form, right),
            Err(error) => {
                drop(form);
                Err(error)
            }
        },
        PendingOperationOf::Count {
            pos,
            operator,
            count,
        } => shifted_given(alloc, of, pos, operator, form, count),
    }
}

// A chain with the operations that are left.
#[cycle(given)]
fn all_given(
    alloc: Global,
    types: &TypeTable,
    faults: &mut Faults,
    of: TypeRef,
    form: Option<FormOf<TypeRef>>,
    rest: List<PendingOperationOf<TypeRef>>,
) -> Result<Option<FormOf<TypeRef>>, AllocError>
    ensures { (u : GoType) (y : PendingOf GoType) (first : Option Fault) → Is types.now of u → GivenSoFar types.now u y first rest form faults.old → IfOk result (λ r. Answers (IsGiven (unnumbered types.now) u y) (FormStands types.now) first faults.new r) }
{
    let mut form = form;
    for operation in rest.into_vec() {
        form = one_given(alloc, types, faults, of, form, operation)?;
    }
    Ok(form)
}

/// A value that waits, in a type that is given; `None` where a constant in it is no value of the type, which is noted.
#[cycle(given)]
pub fn given_type(
    alloc: Global,
    types: &TypeTable,
    faults: &mut Faults,
    of: TypeRef,
    x: PendingOf<TypeRef>,
) -> Result<Option<FormOf<TypeRef>>, AllocError>
    ensures { (u : GoType) (y : PendingOf GoType) → Is types.now of u → PendingStands types.now x y → IfOk result (λ r. Answers (IsGiven (unnumbered types.now) u y) (FormStands types.now) faults.old faults.new r) }
{
    match x {
        PendingOf::Comparison {
            pos,
            operator,
            operands,
            boxed,
            left,
            right,
        } => {
            let form = compared(alloc, of, pos, operator, operands, boxed, left, right)?;
            Ok(Some(form))
        }
        PendingOf::Constant {
            pos,
            value,
            rune: _,
        } => Ok(constant(types, faults, of, pos, value)),
        PendingOf::Unary {
            pos,
            operator,
            operand,
        } => {
            let form = given_type(alloc, types, faults, of, operand.into_inner())?;
            unary_given(alloc, of, pos, operator, form)
        }
        PendingOf::Chain { first, rest } => {
            let form = given_type(alloc, types, faults, of, first.into_inner())?;
            all_given(alloc, types, faults, of, form, rest)
        }
    }
}
