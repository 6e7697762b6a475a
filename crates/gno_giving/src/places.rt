// Values in their places.
ghost use Rattle.std.specs.Prelude.{IfOk};
ghost use Rattle.gno_judging.specs.Answers.{Answers};
ghost use Rattle.gno_judging.specs.Found.{FormStands};
ghost use Rattle.gno_terms.specs.Tables.{Is, Table};
ghost use Rattle.gno_terms.specs.declared.term.GoType.{GoType};
ghost use Rattle.gno_type_classes.specs.Unnumbered.{unnumbered};
ghost use Rattle.gno_typed.specs.declared.expr.TypedExprOf.TheVariants as w;
ghost use Rattle.gno_typing.specs.Forms.{closed};
ghost use Rattle.gno_typing.specs.Giving.{typed_given};
ghost use Rattle.gno_typing.specs.declared.form.FormOf.{FormOf};
ghost use Rattle.gno_typing.specs.declared.form.FormOf.TheVariants as f;

use crate::forms::closed;
use gno_base::Shared;
use gno_judging::Faults;
use gno_scan::Pos;
use gno_terms::TypeRef;
use gno_type_classes::{is_boxed, takes};
use gno_type_table::TypeTable;
use gno_typed::TypedExprOf;
use gno_typing::FormOf;
use std::alloc::{AllocError, Global};

// As a value of an interface type.
pub(crate) fn boxed(
    alloc: Global,
    of: TypeRef,
    from: TypeRef,
    form: FormOf<TypeRef>,
) -> Result<FormOf<TypeRef>, AllocError>
    ensures { (table : Table) (u s : GoType) (y : FormOf GoType) → Is table of u → Is table from s → FormStands table form y → IfOk result (λ r. FormStands table r (f.Whole (w.Interface u s (closed y)))) }
{
    let operand = closed(alloc, form)?;
    let operand = Shared::new(alloc, operand)?;
    Ok(FormOf::Whole(TypedExprOf::Interface { of, from, operand }))
}

/// A value of a type that is no constant, in a place of a type. `code` at the place `at` where it is not assignable. Go
/// specification, "Assignability".
pub fn typed_given(
    alloc: Global,
    types: &TypeTable,
    faults: &mut Faults,
    code: u8,
    at: Pos,
    of: TypeRef,
    from: TypeRef,
    form: FormOf<TypeRef>,
) -> Result<Option<FormOf<TypeRef>>, AllocError>
    ensures { (u s : GoType) (y : FormOf GoType) → Is types.now of u → Is types.now from s → FormStands types.now form y → IfOk result (λ r. Answers (typed_given (unnumbered types.now) code at u s y) (FormStands types.now) faults.old faults.new r) }
{
    if takes(types, of, from) {
        if is_boxed(types, from, of) {
            let form = boxed(alloc, of, from, form)?;
            Ok(Some(form))
        } else {
            Ok(Some(form))
        }
    } else {
        drop(form);
        faults.note(code, at);
        Ok(None)
    }
}
