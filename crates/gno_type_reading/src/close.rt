// What stands behind a part.
ghost use Rattle.std.specs.Prelude.{◌≡◌, ◌∷◌, ◌++◌, [], IfOk};
ghost use Rattle.gno_type_reading.specs.Turns as turns;
ghost use Rattle.gno_type_reading.specs.Turns.{turn};

use crate::cursor::Cursor;
use crate::frame::{Action, ActionOf, Frame, FrameOf, Member};
use crate::lists::{fields, methods, params, results};
use gno_base::List;
use gno_terms::{Field, FieldOf, Method, MethodOf, TermOf, TypeRef};
use std::alloc::{AllocError, Global};

/// Reads from the end of a part to the next part of the type, or to its end.
#[tactic(auto, unfolding(crate::specs::Turns::closed))]
pub(crate) fn close(
    alloc: Global,
    cursor: &mut Cursor<'_>,
    frame: Frame,
    of: TypeRef,
) -> Result<Action, AllocError>
    ensures { IfOk result (λ action. turn action cursor.new ≡ turns.closed frame of cursor.old) }
{
    match frame {
        FrameOf::Pointer => Ok(ActionOf::Made(TermOf::Pointer(of))),
        FrameOf::Slice => Ok(ActionOf::Made(TermOf::Slice(of))),
        FrameOf::Array(length) => Ok(ActionOf::Made(TermOf::Array(length, of))),
        FrameOf::Key => {
            cursor.skip(1);
            Ok(ActionOf::Opened(FrameOf::Value(of)))
        }
        FrameOf::Value(key) => Ok(ActionOf::Made(TermOf::Map(key, of))),
        FrameOf::Params(before, variadic) => further_param(alloc, cursor, before, variadic, of),
        FrameOf::Result(params, variadic) => Ok(ActionOf::Made(TermOf::Function {
            params,
            variadic,
            results: List::from_slice(alloc, &[of])?,
        })),
        FrameOf::Results(params, variadic, before) => {
            further_result(cursor, params, variadic, before, of)
        }
        FrameOf::Field(before, member, embedded) => {
            further_field(alloc, cursor, before, member, embedded, of)
        }
        FrameOf::Method(before, member) => further_method(alloc, cursor, before, member, of),
    }
}

fn further_param(
    alloc: Global,
    cursor: &mut Cursor<'_>,
    mut before: List<TypeRef>,
    variadic: bool,
    of: TypeRef,
) -> Result<Action, AllocError>
    ensures { IfOk result (λ action. turn action cursor.new ≡ turns.further_param (before ++ of ∷ []) variadic cursor.old) }
{
    before.push(of)?;
    if cursor.begins(b',') {
        cursor.skip(2);
        Ok(params(alloc, cursor, before))
    } else {
        cursor.skip(1);
        Ok(results(alloc, cursor, before, variadic))
    }
}

fn further_result(
    cursor: &mut Cursor<'_>,
    params: List<TypeRef>,
    variadic: bool,
    mut before: List<TypeRef>,
    of: TypeRef,
) -> Result<Action, AllocError>
    ensures { IfOk result (λ action. turn action cursor.new ≡ turns.further_result params variadic (before ++ of ∷ []) cursor.old) }
{
    before.push(of)?;
    if cursor.begins(b',') {
        cursor.skip(2);
        Ok(ActionOf::Opened(FrameOf::Results(params, variadic, before)))
    } else {
        cursor.skip(1);
        Ok(ActionOf::Made(TermOf::Function {
            params,
            variadic,
            results: before,
        }))
    }
}

fn further_field(
    alloc: Global,
    cursor: &mut Cursor<'_>,
    mut before: List<Field>,
    member: Member,
    embedded: bool,
    of: TypeRef,
) -> Result<Action, AllocError>
    ensures { IfOk result (λ action. turn action cursor.new ≡ turns.fields (before ++ turns.field_with_type member embedded of ∷ []) (turns.past_separator cursor.old)) }
{
    before.push(FieldOf {
        name: member.name,
        package: member.package,
        embedded,
        of,
    })?;
    skip_separator(cursor);
    fields(alloc, cursor, before)
}

fn further_method(
    alloc: Global,
    cursor: &mut Cursor<'_>,
    mut before: List<Method>,
    member: Member,
    of: TypeRef,
) -> Result<Action, AllocError>
    ensures { IfOk result (λ action. turn action cursor.new ≡ turns.methods (before ++ turns.method_with_type member of ∷ []) (turns.past_separator cursor.old)) }
{
    before.push(MethodOf {
        name: member.name,
        package: member.package,
        of,
        pointer: false,
    })?;
    skip_separator(cursor);
    methods(alloc, cursor, before)
}

// Passes over `; `.
fn skip_separator(cursor: &mut Cursor<'_>)
    ensures { cursor.new ≡ turns.past_separator cursor.old }
{
    if cursor.begins(b';') {
        cursor.skip(2);
    }
}
