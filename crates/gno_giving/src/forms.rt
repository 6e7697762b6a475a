// Typed forms that grow to the right.
ghost use Rattle.std.specs.Prelude.{◌≡◌, [], ◌∷◌, IfOk};
ghost use Rattle.gno_judging.specs.Found.{FormStands};
ghost use Rattle.gno_judging.specs.Stands.{LogicStands, OperationsStand, StepStands, Stands};
ghost use Rattle.gno_terms.specs.Tables.{Is, Table};
ghost use Rattle.gno_terms.specs.declared.term.GoType.{GoType};
ghost use Rattle.gno_typed.specs.declared.operation.LogicOperationOf.{LogicOperationOf};
ghost use Rattle.gno_typed.specs.declared.operation.OperationOf.{OperationOf};
ghost use Rattle.gno_typed.specs.declared.step.TypedStepOf.{TypedStepOf};
ghost use Rattle.gno_typing.specs.Forms.{closed, with_logic, with_operation, with_step};
ghost use Rattle.gno_typing.specs.declared.form.FormOf.{FormOf};

use gno_base::{List, Shared};
use gno_terms::TypeRef;
use gno_typed::{LogicOperationOf, OperationOf, TypedExpr, TypedExprOf, TypedStepOf};
use gno_typing::FormOf;
use std::alloc::{AllocError, Global};

/// The form as an expression that nothing more is put behind.
pub fn closed(alloc: Global, form: FormOf<TypeRef>) -> Result<TypedExpr, AllocError>
    ensures is { IfOk result (λ r. r ≡ closed form) }
    ensures stands { (table : Table) (y : FormOf GoType) → FormStands table form y → IfOk result (λ r. Stands table r (closed y)) }
{
    match form {
        FormOf::Whole(expr) => Ok(expr),
        FormOf::Primary { operand, steps } => {
            let operand = Shared::new(alloc, operand)?;
            Ok(TypedExprOf::Primary { operand, steps })
        }
        FormOf::Binary { first, rest } => {
            let first = Shared::new(alloc, first)?;
            Ok(TypedExprOf::Binary { first, rest })
        }
        FormOf::Logic { of, first, rest } => {
            let first = Shared::new(alloc, first)?;
            Ok(TypedExprOf::Logic { of, first, rest })
        }
    }
}

/// An operator that takes both its operands, and its right operand, behind a form. Takes constant time where the form ends in such
/// an operator already.
pub fn with_operation(
    alloc: Global,
    form: FormOf<TypeRef>,
    operation: OperationOf<TypeRef>,
) -> Result<FormOf<TypeRef>, AllocError>
    ensures is { IfOk result (λ r. r ≡ with_operation form operation) }
    ensures stands { (table : Table) (y : FormOf GoType) (o : OperationOf GoType) → FormStands table form y → OperationsStand table (operation ∷ []) (o ∷ []) → IfOk result (λ r. FormStands table r (with_operation y o)) }
{
    match form {
        FormOf::Binary { first, mut rest } => {
            rest.push(operation)?;
            Ok(FormOf::Binary { first, rest })
        }
        other => {
            let first = closed(alloc, other)?;
            let mut rest = List::new(alloc);
            rest.push(operation)?;
            Ok(FormOf::Binary { first, rest })
        }
    }
}

/// `&&` or `||`, and its right operand, behind a form of a boolean type. Takes constant time where the form ends in such an operator
/// already.
pub fn with_logic(
    alloc: Global,
    of: TypeRef,
    form: FormOf<TypeRef>,
    operation: LogicOperationOf<TypeRef>,
) -> Result<FormOf<TypeRef>, AllocError>
    ensures is { IfOk result (λ r. r ≡ with_logic of form operation) }
    ensures stands { (table : Table) (s : GoType) (y : FormOf GoType) (o : LogicOperationOf GoType) → Is table of s → FormStands table form y → LogicStands table (operation ∷ []) (o ∷ []) → IfOk result (λ r. FormStands table r (with_logic s y o)) }
{
    match form {
        FormOf::Logic {
            of,
            first,
            mut rest,
        } => {
            rest.push(operation)?;
            Ok(FormOf::Logic { of, first, rest })
        }
        other => {
            let first = closed(alloc, other)?;
            let mut rest = List::new(alloc);
            rest.push(operation)?;
            Ok(FormOf::Logic { of, first, rest })
        }
    }
}

/// A step behind a form. Takes constant time where the form ends in a step already.
pub fn with_step(
    alloc: Global,
    form: FormOf<TypeRef>,
    step: TypedStepOf<TypeRef>,
) -> Result<FormOf<TypeRef>, AllocError>
    ensures is { IfOk result (λ r. r ≡ with_step form step) }
    ensures stands { (table : Table) (y : FormOf GoType) (s : TypedStepOf GoType) → FormStands table form y → StepStands table step s → IfOk result (λ r. FormStands table r (with_step y s)) }
{
    match form {
        FormOf::Primary { operand, mut steps } => {
            steps.push(step)?;
            Ok(FormOf::Primary { operand, steps })
        }
        other => {
            let operand = closed(alloc, other)?;
            let mut steps = List::new(alloc);
            steps.push(step)?;
            Ok(FormOf::Primary { operand, steps })
        }
    }
}
