// The typed forms of what a value that waits is made of.
ghost use Rattle.std.specs.Prelude.{IfOk, Option};
ghost use Rattle.gno_judging.specs.Answers.{Answers};
ghost use Rattle.gno_judging.specs.Found.{FormStands};
ghost use Rattle.gno_judging.specs.Stands.{BothStand, Stands};
ghost use Rattle.gno_terms.specs.Tables.{Is, Table};
ghost use Rattle.gno_terms.specs.declared.term.GoType.{GoType};
ghost use Rattle.gno_type_classes.specs.Unnumbered.{unnumbered};
ghost use Rattle.gno_typed.specs.declared.expr.TypedExprOf.{TypedExprOf};
ghost use Rattle.gno_typed.specs.declared.expr.TypedExprOf.TheVariants as w;
ghost use Rattle.gno_typing.specs.Forms.{closed, with_logic, with_operation};
ghost use Rattle.gno_typing.specs.Giving.{IsGiven, joined_by, shifted_by};
ghost use Rattle.gno_typing.specs.declared.form.FormOf.{FormOf};
ghost use Rattle.gno_typing.specs.declared.form.FormOf.TheVariants as f;
ghost use Rattle.gno_typing.specs.declared.pending.PendingOf.TheVariants as p;

use gno_base::Shared;
use gno_constants::Constant;
use gno_giving::{closed, with_logic, with_operation};
use gno_judging::Faults;
use gno_scan::Pos;
use gno_terms::TypeRef;
use gno_tree::{BinaryOperator, UnaryOperator};
use gno_type_classes::is_representable;
use gno_type_table::TypeTable;
use gno_typed::{LogicOperationOf, LogicOperator, OperationOf, TypedExpr, TypedExprOf};
use gno_typing::FormOf;
use std::alloc::{AllocError, Global};

/// An untyped constant in a type; `None` where it is no value of the type, which is noted.
pub(crate) fn constant(
    types: &TypeTable,
    faults: &mut Faults,
    of: TypeRef,
    pos: Pos,
    value: Constant,
) -> Option<FormOf<TypeRef>>
    ensures { (u : GoType) (rune : _) → Is types.now of u → Answers (IsGiven (unnumbered types.now) u (p.Constant pos value rune)) (FormStands types.now) faults.old faults.new result }
{
    if is_representable(types, &value, of) {
        Some(FormOf::Whole(TypedExprOf::Constant { pos, of, value }))
    } else {
        faults.note(43, pos);
        None
    }
}

/// A comparison in a boolean type.
pub(crate) fn compared(
    alloc: Global,
    of: TypeRef,
    pos: Pos,
    operator: BinaryOperator,
    operands: TypeRef,
    boxed: Option<TypeRef>,
    left: FormOf<TypeRef>,
    right: TypedExpr,
) -> Result<FormOf<TypeRef>, AllocError>
    ensures { (table : Table) (u s : GoType) (b : Option GoType) (x : FormOf GoType) (y : TypedExprOf GoType) → Is table of u → Is table operands s → BothStand (Is table) boxed b → FormStands table left x → Stands table right y → IfOk result (λ r. FormStands table r (with_operation x (record { pos = pos; of = u; operator = operator; operands = s; boxed = b; operand = y }))) }
{
    match Shared::new(alloc, right) {
        Ok(operand) => {
            let operation = OperationOf {
                pos,
                of,
                operator,
                operands,
                boxed,
                operand,
            };
            with_operation(alloc, left, operation)
        }
        Err(error) => {
            drop(left);
            Err(error)
        }
    }
}

/// An operator before a form.
pub(crate) fn unary(
    alloc: Global,
    of: TypeRef,
    pos: Pos,
    operator: UnaryOperator,
    x: FormOf<TypeRef>,
) -> Result<FormOf<TypeRef>, AllocError>
    ensures { (table : Table) (u : GoType) (y : FormOf GoType) → Is table of u → FormStands table x y → IfOk result (λ r. FormStands table r (f.Whole (w.Unary pos u operator (closed y)))) }
{
    let operand = closed(alloc, x)?;
    let operand = Shared::new(alloc, operand)?;
    Ok(FormOf::Whole(TypedExprOf::Unary {
        pos,
        of,
        operator,
        operand,
    }))
}

/// An operator that takes both its operands, and the operand on its right, behind a form. The operand has the form's type, or it is
/// the count of a shift.
pub(crate) fn with_operand(
    alloc: Global,
    of: TypeRef,
    pos: Pos,
    operator: BinaryOperator,
    x: FormOf<TypeRef>,
    right: TypedExpr,
) -> Result<FormOf<TypeRef>, AllocError>
    ensures { (table : Table) (u : GoType) (a : FormOf GoType) (b : TypedExprOf GoType) → Is table of u → FormStands table x a → Stands table right b → IfOk result (λ r. FormStands table r (shifted_by u pos operator a b)) }
{
    match Shared::new(alloc, right) {
        Ok(operand) => {
            let operation = OperationOf {
                pos,
                of,
                operator,
                operands: of,
                boxed: None,
                operand,
            };
            with_operation(alloc, x, operation)
        }
        Err(error) => {
            drop(x);
            Err(error)
        }
    }
}

// `&&` or `||`, and the operand on its right, behind a form.
fn with_truth(
    alloc: Global,
    of: TypeRef,
    pos: Pos,
    operator: LogicOperator,
    x: FormOf<TypeRef>,
    right: TypedExpr,
) -> Result<FormOf<TypeRef>, AllocError>
    ensures { (table : Table) (u : GoType) (a : FormOf GoType) (b : TypedExprOf GoType) → Is table of u → FormStands table x a → Stands table right b → IfOk result (λ r. FormStands table r (with_logic u a (record { pos = pos; operator = operator; operand = b }))) }
{
    match Shared::new(alloc, right) {
        Ok(operand) => {
            let operation = LogicOperationOf {
                pos,
                operator,
                operand,
            };
            with_logic(alloc, of, x, operation)
        }
        Err(error) => {
            drop(x);
            Err(error)
        }
    }
}

// An operator, and the operand on its right, behind a form of the same type.
fn with_right(
    alloc: Global,
    of: TypeRef,
    pos: Pos,
    operator: BinaryOperator,
    x: FormOf<TypeRef>,
    right: TypedExpr,
) -> Result<FormOf<TypeRef>, AllocError>
    ensures { (table : Table) (u : GoType) (a b : FormOf GoType) → Is table of u → FormStands table x a → Stands table right (closed b) → IfOk result (λ r. FormStands table r (joined_by u pos operator a b)) }
{
    match operator {
        BinaryOperator::BothTrue => with_truth(alloc, of, pos, LogicOperator::BothTrue, x, right),
        BinaryOperator::OneTrue => with_truth(alloc, of, pos, LogicOperator::OneTrue, x, right),
        operator => with_operand(alloc, of, pos, operator, x, right),
    }
}

/// An operator between two forms of one type.
pub(crate) fn joined(
    alloc: Global,
    of: TypeRef,
    pos: Pos,
    operator: BinaryOperator,
    x: FormOf<TypeRef>,
    y: FormOf<TypeRef>,
) -> Result<FormOf<TypeRef>, AllocError>
    ensures { (table : Table) (u : GoType) (a b : FormOf GoType) → Is table of u → FormStands table x a → FormStands table y b → IfOk result (λ r. FormStands table r (joined_by u pos operator a b)) }
{
    match closed(alloc, y) {
        Ok(right) => with_right(alloc, of, pos, operator, x, right),
        Err(error) => {
            drop(x);
            Err(error)
        }
    }
}
