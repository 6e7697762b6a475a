// Forms that operators make longer.
ghost use Rattle.std.specs.Prelude.{◌≡◌, [], ◌∷◌, ◌++◌, IfOk, Option};
ghost use Rattle.gno_judging.specs.Found.{FormStands, PendingStands, PendingsStand, TypeStands, ValueStands};
ghost use Rattle.gno_judging.specs.Stands.{BothStand, Stands};
ghost use Rattle.gno_terms.specs.Tables.{Is, Table};
ghost use Rattle.gno_terms.specs.declared.term.GoType.{GoType};
ghost use Rattle.gno_typed.specs.declared.expr.TypedExprOf.{TypedExprOf};
ghost use Rattle.gno_typing.specs.Forms.{closed, with_logic, with_pending};
ghost use Rattle.gno_typing.specs.Giving.{joined_by, shifted_by};
ghost use Rattle.gno_typing.specs.declared.form.FormOf.{FormOf};
ghost use Rattle.gno_typing.specs.declared.pending.PendingOf.{PendingOf};
ghost use Rattle.gno_typing.specs.declared.pending.PendingOf.TheVariants as p;
ghost use Rattle.gno_typing.specs.declared.pending.PendingOperationOf.{PendingOperationOf};
ghost use Rattle.gno_typing.specs.declared.value.Standing.TheVariants as standing;
ghost use Rattle.gno_typing.specs.declared.value.ValueOf.TheVariants as v;
ghost use Rattle.gno_typing.specs.declared.value.Waits.TheVariants as waits;

use gno_base::{Boxed, List, Shared};
use gno_giving::{closed, with_logic, with_operation};
use gno_scan::Pos;
use gno_terms::TypeRef;
use gno_tree::BinaryOperator;
use gno_typed::{LogicOperationOf, LogicOperator, OperationOf, TypedExpr};
use gno_typing::{FormOf, PendingOf, PendingOperationOf, Standing, ValueOf, Waits};
use std::alloc::{AllocError, Global};

/// A value of a type that is a result: it is no variable, and has no address. Go specification, "Address operators".
pub fn result_of(pos: Pos, of: TypeRef, calls: bool, form: FormOf<TypeRef>) -> ValueOf<TypeRef>
    ensures { (table : Table) (u : GoType) (x : FormOf GoType) → TypeStands table of u → FormStands table form x → ValueStands table result (v.Typed pos u standing.Result calls x) }
{
    ValueOf::Typed {
        pos,
        of,
        standing: Standing::Result,
        calls,
        form,
    }
}

/// A comparison, which waits for its type. Go specification, "Comparison operators".
pub fn comparison(
    pos: Pos,
    operator: BinaryOperator,
    of: TypeRef,
    boxed: Option<TypeRef>,
    calls: bool,
    left: FormOf<TypeRef>,
    right: TypedExpr,
) -> ValueOf<TypeRef>
    ensures { (table : Table) (u : GoType) (b : Option GoType) (x : FormOf GoType) (y : TypedExprOf GoType) → Is table of u → BothStand (Is table) boxed b → FormStands table left x → Stands table right y → ValueStands table result (v.Pending pos waits.Boolean calls (p.Comparison pos operator u b x y)) }
{
    ValueOf::Pending {
        pos,
        waits: Waits::Boolean,
        calls,
        form: PendingOf::Comparison {
            pos,
            operator,
            operands: of,
            boxed,
            left,
            right,
        },
    }
}

/// An operator between two forms of one type. Takes constant time where the left form ends in such an operator already. An `Err`
/// comes where there is no memory. Go specification, "Operators".
pub fn joined_by(
    alloc: Global,
    of: TypeRef,
    pos: Pos,
    operator: BinaryOperator,
    left: FormOf<TypeRef>,
    right: FormOf<TypeRef>,
) -> Result<FormOf<TypeRef>, AllocError>
    ensures { (table : Table) (u : GoType) (x y : FormOf GoType) → Is table of u → FormStands table left x → FormStands table right y → IfOk result (λ r. FormStands table r (joined_by u pos operator x y)) }
{
    match closed(alloc, right) {
        Ok(right) => with_right(alloc, of, pos, operator, left, right),
        Err(error) => {
            drop(left);
            Err(error)
        }
    }
}

// An operator, and the operand on its right, behind a form of the same type.
fn with_right(
    alloc: Global,
    of: TypeRef,
    pos: Pos,
    operator: BinaryOperator,
    left: FormOf<TypeRef>,
    right: TypedExpr,
) -> Result<FormOf<TypeRef>, AllocError>
    ensures { (table : Table) (u : GoType) (x y : FormOf GoType) → Is table of u → FormStands table left x → Stands table right (closed y) → IfOk result (λ r. FormStands table r (joined_by u pos operator x y)) }
{
    match operator {
        BinaryOperator::BothTrue => {
            with_truth(alloc, of, pos, LogicOperator::BothTrue, left, right)
        }
        BinaryOperator::OneTrue => with_truth(alloc, of, pos, LogicOperator::OneTrue, left, right),
        operator => with_operand(alloc, of, pos, operator, left, right),
    }
}

// `&&` or `||`, and the operand on its right, behind a form.
fn with_truth(
    alloc: Global,
    of: TypeRef,
    pos: Pos,
    operator: LogicOperator,
    left: FormOf<TypeRef>,
    right: TypedExpr,
) -> Result<FormOf<TypeRef>, AllocError>
    ensures { (table : Table) (u : GoType) (x : FormOf GoType) (y : TypedExprOf GoType) → Is table of u → FormStands table left x → Stands table right y → IfOk result (λ r. FormStands table r (with_logic u x (record { pos = pos; operator = operator; operand = y }))) }
{
    match Shared::new(alloc, right) {
        Ok(operand) => {
            let operation = LogicOperationOf {
                pos,
                operator,
                operand,
            };
            with_logic(alloc, of, left, operation)
        }
        Err(error) => {
            drop(left);
            Err(error)
        }
    }
}

/// An operator that takes both its operands, of a type that is also that of what it gives, or a shift by a count. Takes constant time
/// where the form ends in such an operator already. An `Err` comes where there is no memory. Go specification, "Operators".
pub fn with_operand(
    alloc: Global,
    of: TypeRef,
    pos: Pos,
    operator: BinaryOperator,
    left: FormOf<TypeRef>,
    right: TypedExpr,
) -> Result<FormOf<TypeRef>, AllocError>
    ensures { (table : Table) (u : GoType) (x : FormOf GoType) (y : TypedExprOf GoType) → Is table of u → FormStands table left x → Stands table right y → IfOk result (λ r. FormStands table r (shifted_by u pos operator x y)) }
{
    match Shared::new(alloc, right) {
        Ok(operand) => {
            let operation = OperationOf {
                pos,
                of,
                operator,
                operands: of,
                boxed: None,
                operand,
            };
            with_operation(alloc, left, operation)
        }
        Err(error) => {
            drop(left);
            Err(error)
        }
    }
}

/// An operator behind a value that waits. Takes constant time where the value ends in such an operator already. An `Err` comes where
/// there is no memory.
pub fn with_pending(
    alloc: Global,
    form: PendingOf<TypeRef>,
    operation: PendingOperationOf<TypeRef>,
) -> Result<PendingOf<TypeRef>, AllocError>
    ensures { (table : Table) (x : PendingOf GoType) (o : PendingOperationOf GoType) → PendingStands table form x → PendingsStand table (operation ∷ []) (o ∷ []) → IfOk result (λ r. PendingStands table r (with_pending x o)) }
{
    match form {
        PendingOf::Chain { first, rest } => longer_chain(first, rest, operation),
        other => new_chain(alloc, other, operation),
    }
}

// One more operator at the end of a chain.
fn longer_chain(
    first: Boxed<PendingOf<TypeRef>>,
    rest: List<PendingOperationOf<TypeRef>>,
    operation: PendingOperationOf<TypeRef>,
) -> Result<PendingOf<TypeRef>, AllocError>
    ensures { IfOk result (λ r. r ≡ p.Chain first (rest ++ operation ∷ [])) }
{
    let mut rest = rest;
    rest.push(operation)?;
    Ok(PendingOf::Chain { first, rest })
}

// A chain of one operator.
fn new_chain(
    alloc: Global,
    form: PendingOf<TypeRef>,
    operation: PendingOperationOf<TypeRef>,
) -> Result<PendingOf<TypeRef>, AllocError>
    ensures { IfOk result (λ r. r ≡ p.Chain form (operation ∷ [])) }
{
    match Boxed::new(alloc, form) {
        Ok(first) => {
            let rest = List::new(alloc);
            longer_chain(first, rest, operation)
        }
        Err(error) => {
            drop(operation);
            Err(error)
        }
    }
}
