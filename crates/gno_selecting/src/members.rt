// Fields and methods that selectors name.
ghost use Rattle.std.specs.Prelude.{ℕ, IfOk, List, Option, length};
ghost use Rattle.gno_embedding.specs.Embedding.{IsComplete};
ghost use Rattle.gno_judging.specs.Answers.{Answers};
ghost use Rattle.gno_judging.specs.Found.{FormStands, OperandStands};
ghost use Rattle.gno_promotion.specs.MethodSets as sets;
ghost use Rattle.gno_selecting.specs.Members.{holder_with};
ghost use Rattle.gno_selectors.specs.Selectors.{IsAmbiguous, IsSelected, IsSelection, IsSelectionBelow, StandsAt};
ghost use Rattle.gno_terms.specs.declared.term.GoType.{GoType};
ghost use Rattle.gno_terms.specs.Tables.{Below, Is, type_at};
ghost use Rattle.gno_terms.specs.Terms.{field_with};
ghost use Rattle.gno_type_classes.specs.Unnumbered.{unnumbered};
ghost use Rattle.gno_typing.specs.Selectors.{asked, member_selected, selected_of};
ghost use Rattle.gno_typing.specs.Verdicts.{wants};
ghost use Rattle.gno_typing.specs.declared.fault.Fault.{Fault};
ghost use Rattle.gno_typing.specs.declared.form.FormOf.{FormOf};

use crate::methods::{is_taken_as_place, with_method};
use crate::operand::Operand;
use crate::searching::{fields_are_typed, find, is_complete};
use crate::ways::reached;
use gno_base::List;
use gno_giving::with_step;
use gno_judging::Faults;
use gno_scan::Pos;
use gno_selectors::Selection;
use gno_terms::{Field, TypeRef};
use gno_type_classes::Holder;
use gno_type_table::TypeTable;
use gno_typed::{Passed, TypedStepOf};
use gno_typing::{OperandOf, ValueOf};
use std::alloc::{AllocError, Global};

/// A member of the type whose fields and methods count.
pub(crate) fn selected_of(
    alloc: Global,
    types: &TypeTable,
    faults: &mut Faults,
    path: &[u8],
    place: Pos,
    name: &[u8],
    holder: Holder,
    x: Operand,
) -> Result<Option<OperandOf<TypeRef>>, AllocError>
    ensures { (s u : GoType) (y : FormOf GoType) → Is types.now x.of s → Is types.now holder.of u → FormStands types.now x.form y
        → IfOk result (λ r. Answers (selected_of (unnumbered types.now) place path.now name.now s x.standing x.calls y (holder_with holder u)) (OperandStands types.now) faults.old faults.new r) }
{
    if is_complete(types, holder.of) {
        found_in(alloc, types, faults, path, place, name, holder, x)
    } else {
        drop(x);
        faults.note(52, place);
        Ok(None)
    }
}

// A member of a type of which each type is defined that its embedded fields lead to.
fn found_in(
    alloc: Global,
    types: &TypeTable,
    faults: &mut Faults,
    path: &[u8],
    place: Pos,
    name: &[u8],
    holder: Holder,
    x: Operand,
) -> Result<Option<OperandOf<TypeRef>>, AllocError>
    requires below { Below (length types.now.types) holder.of }
    requires complete { (s : GoType) → Is types.now holder.of s → IsComplete types.now s }
    ensures { (s u : GoType) (y : FormOf GoType) → Is types.now x.of s → Is types.now holder.of u → FormStands types.now x.form y
        → IfOk result (λ r. Answers (wants (IsAmbiguous (unnumbered types.now) u name.now (asked path.now name.now) → ⊥) 53 place (member_selected (unnumbered types.now) place path.now name.now s x.standing x.calls y (holder_with holder u))) (OperandStands types.now) faults.old faults.new r) }
{
    match find(alloc, types, holder.of, path, name) {
        Ok(selection) => chosen(alloc, types, faults, place, holder, x, selection),
        Err(error) => {
            drop(x);
            Err(error)
        }
    }
}

// What the search found.
fn chosen(
    alloc: Global,
    types: &TypeTable,
    faults: &mut Faults,
    place: Pos,
    holder: Holder,
    x: Operand,
    selection: Selection,
) -> Result<Option<OperandOf<TypeRef>>, AllocError>
    ensures { (path name : List ℕ) (s u : GoType) (y : FormOf GoType) → Is types.now x.of s → IsSelection types.now u name (asked path name) selection → IsSelectionBelow (length types.now.types) selection → FormStands types.now x.form y
        → IfOk result (λ r. Answers (wants (IsAmbiguous (unnumbered types.now) u name (asked path name) → ⊥) 53 place (member_selected (unnumbered types.now) place path name s x.standing x.calls y (holder_with holder u))) (OperandStands types.now) faults.old faults.new r) }
{
    types.have_one_definition();
    match selection {
        Selection::Missing => {
            drop(x);
            faults.note(52, place);
            Ok(None)
        }
        Selection::Ambiguous => {
            drop(x);
            faults.note(53, place);
            Ok(None)
        }
        Selection::Field {
            way,
            of,
            place: index,
            field,
        } => with_field(alloc, types, place, holder, x, way, of, index, field),
        Selection::Method { way, of, method } => {
            with_method(types, faults, place, holder, x, way, of, method)
        }
    }
}

// A field.
fn with_field(
    alloc: Global,
    types: &TypeTable,
    place: Pos,
    holder: Holder,
    x: Operand,
    way: List<Passed>,
    of: TypeRef,
    index: usize,
    field: Field,
) -> Result<Option<OperandOf<TypeRef>>, AllocError>
    ensures { (path name : List ℕ) (s u : GoType) (y : FormOf GoType) (f : Option Fault) → IsSelected types.now u name (asked path name) way of (sets.field (field_with (type_at types.now.types) field)) → StandsAt types.now of index field → Below (length types.now.types) field.of → FormStands types.now x.form y
        → IfOk result (λ r. Answers (member_selected (unnumbered types.now) place path name s x.standing x.calls y (holder_with holder u)) (OperandStands types.now) f f r) }
{
    fields_are_typed(types, of);
    let as_place = is_taken_as_place(holder, &x);
    let standing = reached(holder.pointer, way.as_slice(), x.standing);
    let of = field.of;
    drop(field);
    let step = TypedStepOf::Field {
        pos: place,
        of,
        place: as_place,
        pointer: holder.pointer,
        way,
        index,
    };
    let Operand { calls, form, .. } = x;
    let form = with_step(alloc, form, step)?;
    Ok(Some(OperandOf::Value(ValueOf::Typed {
        pos: place,
        of,
        standing,
        calls,
        form,
    })))
}
