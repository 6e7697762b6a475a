// What an operand is where one value is wanted.
ghost use Rattle.std.specs.Prelude.{IfOk, None};
ghost use Rattle.gno_judging.specs.Answers.{Answers};
ghost use Rattle.gno_judging.specs.Found.{FormStands, OperandStands, TypeStands, ValueStands};
ghost use Rattle.gno_judging.specs.Stands.{BoundStands};
ghost use Rattle.gno_terms.specs.Tables.{Table};
ghost use Rattle.gno_terms.specs.declared.term.GoType.{GoType};
ghost use Rattle.gno_typed.specs.declared.step.BoundOf.{BoundOf};
ghost use Rattle.gno_typed.specs.declared.step.TypedStepOf.TheVariants as step;
ghost use Rattle.gno_typing.specs.Forms.{with_step};
ghost use Rattle.gno_typing.specs.Operands.{as_value};
ghost use Rattle.gno_typing.specs.declared.form.FormOf.{FormOf};
ghost use Rattle.gno_typing.specs.declared.operand.OperandOf.{OperandOf};
ghost use Rattle.gno_typing.specs.declared.value.Standing.TheVariants as st;
ghost use Rattle.gno_typing.specs.declared.value.ValueOf.TheVariants as v;
ghost use Rattle.gno_values.specs.NoValues.{IsNoValue};

use gno_giving::with_step;
use gno_judging::Faults;
use gno_scan::Pos;
use gno_terms::TypeRef;
use gno_typed::{BoundOf, TypedStepOf};
use gno_typing::{FormOf, OperandOf, Standing, ValueOf};
use std::alloc::{AllocError, Global};

/// The value that an operand stands for; a method becomes a bound one. `None` where it stands for none, which is noted.
pub fn as_value(
    alloc: Global,
    faults: &mut Faults,
    x: OperandOf<TypeRef>,
) -> Result<Option<ValueOf<TypeRef>>, AllocError>
    ensures { (table : Table) (y : OperandOf GoType) → OperandStands table x y → IfOk result (λ r. Answers (as_value y) (ValueStands table) faults.old faults.new r) }
{
    match x {
        OperandOf::Value(value) => Ok(Some(value)),
        OperandOf::Method {
            pos,
            of,
            calls,
            form,
            bound,
        } => {
            let value = bound_method(alloc, pos, of, calls, form, bound)?;
            Ok(Some(value))
        }
        other => {
            refuse(faults, &other);
            drop(other);
            Ok(None)
        }
    }
}

// A method with the receiver that it is bound to.
fn bound_method(
    alloc: Global,
    pos: Pos,
    of: TypeRef,
    calls: bool,
    form: FormOf<TypeRef>,
    bound: BoundOf<TypeRef>,
) -> Result<ValueOf<TypeRef>, AllocError>
    ensures { (table : Table) (s : GoType) (y : FormOf GoType) (d : BoundOf GoType) → TypeStands table of s → FormStands table form y → BoundStands table bound d → IfOk result (λ r. ValueStands table r (v.Typed pos s st.Result calls (with_step y (step.Bound pos s d)))) }
{
    let step = TypedStepOf::Bound { pos, of, bound };
    let form = with_step(alloc, form, step)?;
    Ok(ValueOf::Typed {
        pos,
        of,
        standing: Standing::Result,
        calls,
        form,
    })
}

// Notes of an operand that is no value, and no method of one, that it is none.
fn refuse(faults: &mut Faults, x: &OperandOf<TypeRef>)
    ensures { (table : Table) (y : OperandOf GoType) → OperandStands table x.now y → IsNoValue x.now → Answers (as_value y) (ValueStands table) faults.old faults.new None }
{
    match x {
        OperandOf::Value(_) => {}
        OperandOf::Method { .. } => {}
        OperandOf::Results { pos, .. } => faults.note(50, *pos),
        OperandOf::Type { pos, .. } => faults.note(41, *pos),
        OperandOf::OpenArray { pos, .. } => faults.note(41, *pos),
        OperandOf::Package { pos, .. } => faults.note(41, *pos),
        OperandOf::Builtin { pos, .. } => faults.note(41, *pos),
        OperandOf::Crossing { pos, .. } => faults.note(63, *pos),
        OperandOf::Cross { pos } => faults.note(63, *pos),
        OperandOf::Realm { pos } => faults.note(63, *pos),
    }
}
