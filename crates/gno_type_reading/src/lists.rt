// What stands between the parts of functions, structs and interfaces.
ghost use Rattle.std.specs.Prelude.{◌≡◌, IfOk};
ghost use Rattle.gno_type_reading.specs.Turns as turns;
ghost use Rattle.gno_type_reading.specs.Turns.{turn};

use crate::cursor::Cursor;
use crate::frame::{Action, ActionOf, FrameOf};
use crate::words::member;
use gno_base::List;
use gno_terms::{Field, Method, TermOf, TypeRef};
use std::alloc::{AllocError, Global};

/// Behind the parameters of a function.
pub(crate) fn results(
    alloc: Global,
    cursor: &mut Cursor<'_>,
    params: List<TypeRef>,
    variadic: bool,
) -> Action
    ensures { turn result cursor.new ≡ turns.results params variadic cursor.old }
{
    if !cursor.begins(b' ') {
        return ActionOf::Made(TermOf::Function {
            params,
            variadic,
            results: List::new(alloc),
        });
    }
    cursor.skip(1);
    if cursor.begins(b'(') {
        cursor.skip(1);
        ActionOf::Opened(FrameOf::Results(params, variadic, List::new(alloc)))
    } else {
        ActionOf::Opened(FrameOf::Result(params, variadic))
    }
}

/// At a parameter or the closing parenthesis.
pub(crate) fn params(alloc: Global, cursor: &mut Cursor<'_>, before: List<TypeRef>) -> Action
    ensures { turn result cursor.new ≡ turns.params before cursor.old }
{
    if cursor.begins(b')') {
        cursor.skip(1);
        return results(alloc, cursor, before, false);
    }
    let variadic = cursor.begins(b'.');
    ActionOf::Opened(FrameOf::Params(before, variadic))
}

/// At a field or the closing brace.
pub(crate) fn fields(
    alloc: Global,
    cursor: &mut Cursor<'_>,
    before: List<Field>,
) -> Result<Action, AllocError>
    ensures { IfOk result (λ action. turn action cursor.new ≡ turns.fields before cursor.old) }
{
    if cursor.begins(b'}') {
        cursor.skip(1);
        return Ok(ActionOf::Made(TermOf::Struct(before)));
    }
    let embedded = cursor.begins(b'!');
    if embedded {
        cursor.skip(1);
    }
    field(alloc, cursor, before, embedded)
}

fn field(
    alloc: Global,
    cursor: &mut Cursor<'_>,
    before: List<Field>,
    embedded: bool,
) -> Result<Action, AllocError>
    ensures { IfOk result (λ action. turn action cursor.new ≡ turns.field before embedded cursor.old) }
{
    let member = member(alloc, cursor.word())?;
    cursor.skip(1);
    Ok(ActionOf::Opened(FrameOf::Field(before, member, embedded)))
}

/// At a method or the closing brace.
pub(crate) fn methods(
    alloc: Global,
    cursor: &mut Cursor<'_>,
    before: List<Method>,
) -> Result<Action, AllocError>
    ensures { IfOk result (λ action. turn action cursor.new ≡ turns.methods before cursor.old) }
{
    if cursor.begins(b'}') {
        cursor.skip(1);
        return Ok(ActionOf::Made(TermOf::Interface(before)));
    }
    let member = member(alloc, cursor.word())?;
    Ok(ActionOf::Opened(FrameOf::Method(before, member)))
}
