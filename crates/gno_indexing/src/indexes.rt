// `x[i]`. Go specification, "Index expressions".
ghost use Rattle.std.specs.Prelude.{◌≡◌, IfOk, Option, false};
ghost use Rattle.gno_giving.specs.Basics.{AreBasics};
ghost use Rattle.gno_judging.specs.Answers.{Answers};
ghost use Rattle.gno_judging.specs.Found.{ConstantTypeStands, FormStands, OperandStands, TypeStands, ValueStands};
ghost use Rattle.gno_judging.specs.Stands.{Stands};
ghost use Rattle.gno_indexing.specs.Counting.{CountedStands};
ghost use Rattle.gno_scan.specs.declared.token.Pos.{Pos};
ghost use Rattle.gno_indexing.specs.Indexing.{element, index_counted, map_element, map_indexed};
ghost use Rattle.gno_terms.specs.Tables.{Is, Table};
ghost use Rattle.gno_terms.specs.declared.term.GoType.{GoType};
ghost use Rattle.gno_type_classes.specs.Unnumbered.{unnumbered};
ghost use Rattle.gno_typed.specs.declared.expr.TypedExprOf.{TypedExprOf};
ghost use Rattle.gno_typed.specs.declared.step.IndexKind.TheVariants.{Map};
ghost use Rattle.gno_typed.specs.declared.step.TypedStepOf.TheVariants as step;
ghost use Rattle.gno_typing.specs.Forms.{closed, with_step};
ghost use Rattle.gno_typing.specs.Indexes.{HasElements, element_stands, index, indexed, indexed_by, indexed_text, indexed_typed, takes_place, text_length};
ghost use Rattle.gno_typing.specs.Giving.{given};
ghost use Rattle.gno_typing.specs.Operands.{as_value};
ghost use Rattle.gno_typing.specs.Verdicts.{After, wants_some};
ghost use Rattle.gno_typing.specs.declared.fault.Fault.{Fault};
ghost use Rattle.gno_typing.specs.declared.form.FormOf.{FormOf};
ghost use Rattle.gno_typing.specs.declared.operand.OperandOf.{OperandOf};
ghost use Rattle.gno_typing.specs.declared.value.ValueOf.TheVariants as v;
ghost use Rattle.gno_typing.specs.declared.value.ValueOf.{ValueOf};

use crate::counting::{counted, end_below, taken};
use crate::number::Counted;
use gno_base::Shared;
use gno_constants::Constant;
use gno_giving::{Basics, InType, closed, settled_constant, with_step};
use gno_judging::Faults;
use gno_scan::Pos;
use gno_seen::{as_operand, calls_with, pos_in};
use gno_terms::TypeRef;
use gno_type_classes::{Elements, elements_of, is_text, keys};
use gno_type_table::TypeTable;
use gno_typed::{IndexKind, TypedExpr, TypedStepOf};
use gno_typing::{FormOf, OperandOf, Standing, ValueOf};
use gno_values::{as_value, given};
use std::alloc::{AllocError, Global};

/// `x[i]`, whose `[` is at `place`; `None` where it is not allowed, which is noted: 54 where `x` has no elements that `i` names, 55 where
/// `i` is a constant out of range, 49 where it is no key of a map. Go specification, "Index expressions". An `Err` comes where there is no
/// memory.
pub fn index(
    alloc: Global,
    types: &TypeTable,
    basics: Basics,
    faults: &mut Faults,
    place: Pos,
    x: OperandOf<TypeRef>,
    i: OperandOf<TypeRef>,
) -> Result<Option<OperandOf<TypeRef>>, AllocError>
    ensures { (y j : OperandOf GoType) → AreBasics types.now basics → OperandStands types.now x y → OperandStands types.now i j → IfOk result (λ r. Answers (index (unnumbered types.now) place y j) (OperandStands types.now) faults.old faults.new r) }
{
    match as_value(alloc, faults, x) {
        Ok(left) => index_behind(alloc, types, basics, faults, place, left, i),
        Err(error) => {
            drop(i);
            Err(error)
        }
    }
}

// Of what was found of the left part: `before` is the least fault that was noted before it.
fn index_behind(
    alloc: Global,
    types: &TypeTable,
    basics: Basics,
    faults: &mut Faults,
    place: Pos,
    left: Option<ValueOf<TypeRef>>,
    i: OperandOf<TypeRef>,
) -> Result<Option<OperandOf<TypeRef>>, AllocError>
    ensures { (before : Option Fault) (y j : OperandOf GoType) → AreBasics types.now basics → Answers (as_value y) (ValueStands types.now) before faults.old left → OperandStands types.now i j → IfOk result (λ r. Answers (index (unnumbered types.now) place y j) (OperandStands types.now) before faults.new r) }
{
    match as_value(alloc, faults, i) {
        Ok(right) => index_of_both(alloc, types, basics, faults, place, left, right),
        Err(error) => {
            drop(left);
            Err(error)
        }
    }
}

// Of what was found of both parts.
fn index_of_both(
    alloc: Global,
    types: &TypeTable,
    basics: Basics,
    faults: &mut Faults,
    place: Pos,
    left: Option<ValueOf<TypeRef>>,
    right: Option<ValueOf<TypeRef>>,
) -> Result<Option<OperandOf<TypeRef>>, AllocError>
    ensures { (before between : Option Fault) (y j : OperandOf GoType) → AreBasics types.now basics → Answers (as_value y) (ValueStands types.now) before between left → Answers (as_value j) (ValueStands types.now) between faults.old right → IfOk result (λ r. Answers (index (unnumbered types.now) place y j) (OperandStands types.now) before faults.new r) }
{
    match left {
        Some(value) => match right {
            Some(at) => {
                let found = indexed(alloc, types, basics, faults, place, value, at)?;
                Ok(as_operand(found))
            }
            None => {
                drop(value);
                Ok(None)
            }
        },
        None => {
            drop(right);
            Ok(None)
        }
    }
}

// Of values.
fn indexed(
    alloc: Global,
    types: &TypeTable,
    basics: Basics,
    faults: &mut Faults,
    place: Pos,
    x: ValueOf<TypeRef>,
    index: ValueOf<TypeRef>,
) -> Result<Option<ValueOf<TypeRef>>, AllocError>
    ensures { (y j : ValueOf GoType) → AreBasics types.now basics → ValueStands types.now x y → ValueStands types.now index j → IfOk result (λ r. Answers (indexed (unnumbered types.now) place y j) (ValueStands types.now) faults.old faults.new r) }
{
    match x {
        ValueOf::Constant { pos, of, value } => {
            indexed_constant(alloc, types, basics, faults, place, pos, of, value, index)
        }
        ValueOf::Typed {
            pos: _pos,
            of,
            standing,
            calls,
            form,
        } => indexed_typed(
            alloc, types, basics, faults, place, of, standing, calls, form, index,
        ),
        other => {
            drop(other);
            drop(index);
            faults.note(54, place);
            Ok(None)
        }
    }
}

// A constant string.
fn indexed_constant(
    alloc: Global,
    types: &TypeTable,
    basics: Basics,
    faults: &mut Faults,
    place: Pos,
    pos: Pos,
    of: TypeRef,
    value: Constant,
    index: ValueOf<TypeRef>,
) -> Result<Option<ValueOf<TypeRef>>, AllocError>
    ensures { (s : GoType) (j : ValueOf GoType) → AreBasics types.now basics → ConstantTypeStands types.now of s → ValueStands types.now index j → IfOk result (λ r. Answers (indexed (unnumbered types.now) place (v.Constant pos s value) j) (ValueStands types.now) faults.old faults.new r) }
{
    if is_text(types, of) {
        indexed_text(alloc, types, basics, faults, place, pos, of, value, index)
    } else {
        drop(value);
        drop(index);
        faults.note(54, place);
        Ok(None)
    }
}

fn indexed_text(
    alloc: Global,
    types: &TypeTable,
    basics: Basics,
    faults: &mut Faults,
    place: Pos,
    pos: Pos,
    of: TypeRef,
    value: Constant,
    index: ValueOf<TypeRef>,
) -> Result<Option<ValueOf<TypeRef>>, AllocError>
    ensures { (s : GoType) (j : ValueOf GoType) → AreBasics types.now basics → ConstantTypeStands types.now of s → ValueStands types.now index j → IfOk result (λ r. Answers (indexed_text (unnumbered types.now) place pos s value j) (ValueStands types.now) faults.old faults.new r) }
{
    let count = text_length(&value);
    let elements = Elements {
        kind: IndexKind::String,
        of: basics.byte,
        count,
    };
    match settled_constant(types, basics, faults, pos, of, value) {
        Some(it) => {
            let InType { of: _of, form } = it;
            let standing = Standing::Result;
            indexed_by(
                alloc, types, basics, faults, place, standing, false, form, index, elements,
            )
        }
        None => {
            drop(index);
            Ok(None)
        }
    }
}

/// How long a string constant is.
pub(crate) fn text_length(value: &Constant) -> Option<u64>
    ensures { result ≡ text_length value.now }
{
    match value {
        Constant::Text(bytes) => Some(bytes.len() as u64),
        _ => None,
    }
}

// Of a value of a type: a map is indexed by a key, and anything else by an integer.
fn indexed_typed(
    alloc: Global,
    types: &TypeTable,
    basics: Basics,
    faults: &mut Faults,
    place: Pos,
    of: TypeRef,
    standing: Standing,
    calls: bool,
    form: FormOf<TypeRef>,
    index: ValueOf<TypeRef>,
) -> Result<Option<ValueOf<TypeRef>>, AllocError>
    ensures { (s : GoType) (y : FormOf GoType) (j : ValueOf GoType) → AreBasics types.now basics → TypeStands types.now of s → FormStands types.now form y → ValueStands types.now index j → IfOk result (λ r. Answers (indexed_typed (unnumbered types.now) place s standing calls y j) (ValueStands types.now) faults.old faults.new r) }
{
    match keys(types, of) {
        Some((key, value)) => indexed_map(
            alloc, types, basics, faults, place, key, value, calls, form, index,
        ),
        None => indexed_elements(
            alloc, types, basics, faults, place, of, standing, calls, form, index,
        ),
    }
}

fn indexed_map(
    alloc: Global,
    types: &TypeTable,
    basics: Basics,
    faults: &mut Faults,
    place: Pos,
    key: TypeRef,
    value: TypeRef,
    calls: bool,
    form: FormOf<TypeRef>,
    index: ValueOf<TypeRef>,
) -> Result<Option<ValueOf<TypeRef>>, AllocError>
    ensures { (k s : GoType) (y : FormOf GoType) (j : ValueOf GoType) → AreBasics types.now basics → Is types.now key k → TypeStands types.now value s → FormStands types.now form y → ValueStands types.now index j → IfOk result (λ r. Answers (map_indexed (unnumbered types.now) place calls y j k s) (ValueStands types.now) faults.old faults.new r) }
{
    let calls = calls_with(calls, &index);
    let at = pos_in(&index);
    match given(alloc, types, basics, faults, 49, at, key, index) {
        Ok(found) => map_step(alloc, types, place, value, calls, form, found),
        Err(error) => {
            drop(form);
            Err(error)
        }
    }
}

// By a key, where there is one.
fn map_step(
    alloc: Global,
    types: &TypeTable,
    place: Pos,
    value: TypeRef,
    calls: bool,
    form: FormOf<TypeRef>,
    key: Option<FormOf<TypeRef>>,
) -> Result<Option<ValueOf<TypeRef>>, AllocError>
    ensures { (before after : Option Fault) (at : Pos) (k s : GoType) (y : FormOf GoType) (j : ValueOf GoType) → TypeStands types.now value s → FormStands types.now form y → Answers (given (unnumbered types.now) 49 at k j) (FormStands types.now) before after key → IfOk result (λ r. Answers (After (given (unnumbered types.now) 49 at k j) (map_element place calls y s)) (ValueStands types.now) before after r) }
{
    match key {
        Some(x) => {
            let form = key_step(alloc, place, value, form, x)?;
            Ok(Some(ValueOf::Typed {
                pos: place,
                of: value,
                standing: Standing::Element,
                calls,
                form,
            }))
        }
        None => {
            drop(form);
            Ok(None)
        }
    }
}

// A key behind a form.
fn key_step(
    alloc: Global,
    place: Pos,
    of: TypeRef,
    form: FormOf<TypeRef>,
    key: FormOf<TypeRef>,
) -> Result<FormOf<TypeRef>, AllocError>
    ensures { (table : Table) (s : GoType) (y k : FormOf GoType) → Is table of s → FormStands table form y → FormStands table key k → IfOk result (λ r. FormStands table r (with_step y (step.Index place s Map false (closed k)))) }
{
    match closed(alloc, key) {
        Ok(key) => index_step(alloc, place, of, IndexKind::Map, false, form, key),
        Err(error) => {
            drop(form);
            Err(error)
        }
    }
}

// An index behind a form.
fn index_step(
    alloc: Global,
    place: Pos,
    of: TypeRef,
    kind: IndexKind,
    takes_place: bool,
    form: FormOf<TypeRef>,
    index: TypedExpr,
) -> Result<FormOf<TypeRef>, AllocError>
    ensures { (table : Table) (s : GoType) (y : FormOf GoType) (j : TypedExprOf GoType) → Is table of s → FormStands table form y → Stands table index j → IfOk result (λ r. FormStands table r (with_step y (step.Index place s kind takes_place j))) }
{
    match Shared::new(alloc, index) {
        Ok(index) => {
            let step = TypedStepOf::Index {
                pos: place,
                of,
                kind,
                place: takes_place,
                index,
            };
            with_step(alloc, form, step)
        }
        Err(error) => {
            drop(form);
            Err(error)
        }
    }
}

fn indexed_elements(
    alloc: Global,
    types: &TypeTable,
    basics: Basics,
    faults: &mut Faults,
    place: Pos,
    of: TypeRef,
    standing: Standing,
    calls: bool,
    form: FormOf<TypeRef>,
    index: ValueOf<TypeRef>,
) -> Result<Option<ValueOf<TypeRef>>, AllocError>
    ensures { (s : GoType) (y : FormOf GoType) (j : ValueOf GoType) → AreBasics types.now basics → TypeStands types.now of s → FormStands types.now form y → ValueStands types.now index j → IfOk result (λ r. Answers (wants_some (HasElements (unnumbered types.now) s) 54 place (indexed_by (unnumbered types.now) place standing calls y j)) (ValueStands types.now) faults.old faults.new r) }
{
    match elements_of(types, of, basics.byte) {
        Some(elements) => indexed_by(
            alloc, types, basics, faults, place, standing, calls, form, index, elements,
        ),
        None => {
            drop(form);
            drop(index);
            faults.note(54, place);
            Ok(None)
        }
    }
}

// By an integer.
fn indexed_by(
    alloc: Global,
    types: &TypeTable,
    basics: Basics,
    faults: &mut Faults,
    place: Pos,
    standing: Standing,
    calls: bool,
    form: FormOf<TypeRef>,
    index: ValueOf<TypeRef>,
    elements: Elements,
) -> Result<Option<ValueOf<TypeRef>>, AllocError>
    ensures { (s : GoType) (y : FormOf GoType) (j : ValueOf GoType) → AreBasics types.now basics → TypeStands types.now elements.of s → FormStands types.now form y → ValueStands types.now index j → IfOk result (λ r. Answers (indexed_by (unnumbered types.now) place standing calls y j (record { kind = elements.kind; of = s; count = elements.count })) (ValueStands types.now) faults.old faults.new r) }
{
    let calls = calls_with(calls, &index);
    match index_counted(alloc, types, basics, faults, place, elements.count, index) {
        Ok(found) => element(alloc, place, standing, calls, form, elements, found),
        Err(error) => {
            drop(form);
            Err(error)
        }
    }
}

// By what was found of the index.
fn element(
    alloc: Global,
    place: Pos,
    standing: Standing,
    calls: bool,
    form: FormOf<TypeRef>,
    elements: Elements,
    index: Option<Counted>,
) -> Result<Option<ValueOf<TypeRef>>, AllocError>
    ensures { (table rules : Table) (before after : Option Fault) (s : GoType) (y : FormOf GoType) (j : ValueOf GoType) → TypeStands table elements.of s → FormStands table form y → Answers (index_counted rules place elements.count j) (CountedStands table) before after index → IfOk result (λ r. Answers (After (index_counted rules place elements.count j) (element place standing calls y (record { kind = elements.kind; of = s; count = elements.count }))) (ValueStands table) before after r) }
{
    match index {
        Some(n) => {
            let Counted {
                form: index,
                value: _value,
            } = n;
            let (kind, of) = (elements.kind, elements.of);
            let at_place = takes_place(kind, standing);
            let form = index_step(alloc, place, of, kind, at_place, form, index)?;
            Ok(Some(ValueOf::Typed {
                pos: place,
                of,
                standing: element_stands(kind, standing),
                calls,
                form,
            }))
        }
        None => {
            drop(form);
            Ok(None)
        }
    }
}

fn index_counted(
    alloc: Global,
    types: &TypeTable,
    basics: Basics,
    faults: &mut Faults,
    place: Pos,
    count: Option<u64>,
    index: ValueOf<TypeRef>,
) -> Result<Option<Counted>, AllocError>
    ensures { (j : ValueOf GoType) → AreBasics types.now basics → ValueStands types.now index j → IfOk result (λ r. Answers (index_counted (unnumbered types.now) place count j) (CountedStands types.now) faults.old faults.new r) }
{
    match taken(alloc, types, basics, faults, index)? {
        Some(at) => counted(alloc, types, faults, 54, 55, end_below(count), place, at),
        None => Ok(None),
    }
}

// An element stands in a place where its array does, or where a pointer or a slice leads to it.
fn element_stands(kind: IndexKind, standing: Standing) -> Standing
    ensures { result ≡ element_stands kind standing }
{
    match kind {
        IndexKind::Slice => Standing::Place,
        IndexKind::Pointer => Standing::Place,
        IndexKind::Array => match standing {
            Standing::Place => Standing::Place,
            _ => Standing::Result,
        },
        _ => Standing::Result,
    }
}

// Whether an index takes its array as a place.
fn takes_place(kind: IndexKind, standing: Standing) -> bool
    ensures { result ≡ takes_place kind standing }
{
    match kind {
        IndexKind::Array => matches!(standing, Standing::Place),
        _ => false,
    }
}
