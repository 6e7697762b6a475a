// A guess at the type that has a text: it is right where there is one.
ghost use Rattle.std.specs.Prelude.{◌≡◌, None, Some, IfOk, IfSome, reverse};
ghost use Rattle.gno_terms.specs.declared.term.GoType.{GoType};
ghost use Rattle.gno_terms.specs.declared.term.TypeRef.{TypeRef};
ghost use Rattle.gno_terms.specs.Lawful.{Each};
ghost use Rattle.gno_terms.specs.Normal.{normal};
ghost use Rattle.gno_terms.specs.Tables.{Grows, Is, deep, type_at};
ghost use Rattle.gno_terms.specs.Terms.{parts, term_with};
ghost use Rattle.gno_type_rows.specs.RowTypes.{is_defined};
ghost use Rattle.gno_type_reading.specs.Frames.{Says, is_open};
ghost use Rattle.gno_type_reading.specs.Known.{Known, MayStand};
ghost use Rattle.gno_type_reading.specs.TypeTexts.{IsTypeText};

use crate::close::close;
use crate::cursor::Cursor;
use crate::frame::{Action, ActionOf, Frame};
use crate::lawful::is_lawful;
use crate::open::open;
use gno_terms::{Term, TermOf, TypeRef};
use gno_type_table::TypeTable;
use std::alloc::{AllocError, Global};

/// The one type that may have this text, over types that are defined, if any may. Takes about linear time.
pub(crate) fn guess(
    alloc: Global,
    types: &mut TypeTable,
    text: &[u8],
) -> Result<Option<TypeRef>, AllocError>
    ensures known { IfOk result (λ it. IfSome it (Known types.new)) }
    ensures right { IfOk result (λ it. (s : GoType) → IsTypeText types.old text.now s → (t : TypeRef) × (it ≡ Some t) × Is types.new t s) }
    ensures grows { Grows types.old types.new }
    ensures definitions { types.new.definitions ≡ types.old.definitions }
{
    let mut cursor = Cursor::new(text);
    let mut frames = Vec::new(alloc);
    let mut last = None;
    'parts: while is_open(&frames, last) {
        match said(alloc, &mut frames, &mut cursor, last)? {
            ActionOf::Opened(frame) => {
                frames.push(frame)?;
                last = None;
            }
            ActionOf::Made(term) => {
                let Some(t) = interned(alloc, types, term)? else {
                    return Ok(None);
                };
                last = Some(t);
            }
            ActionOf::Refused => return Ok(None),
        }
    }
    Ok(last)
}

// Whether something is open, or no part was read.
fn is_open(frames: &Vec<Frame>, last: Option<TypeRef>) -> bool
    ensures { result ≡ is_open frames.now.items last }
{
    match last {
        Some(_) => !frames.is_empty(),
        None => true,
    }
}

// What is said behind the last part, or at the next one.
fn said(
    alloc: Global,
    frames: &mut Vec<Frame>,
    cursor: &mut Cursor<'_>,
    last: Option<TypeRef>,
) -> Result<Action, AllocError>
    ensures { IfOk result (λ action. Says (reverse frames.old.items) last cursor.old action cursor.new (reverse frames.new.items)) }
{
    let Some(of) = last else {
        return open(alloc, cursor);
    };
    match frames.pop() {
        Some(frame) => close(alloc, cursor, frame, of),
        None => Ok(ActionOf::Refused),
    }
}

/// The number of a type that may be read.
fn interned(alloc: Global, types: &mut TypeTable, term: Term) -> Result<Option<TypeRef>, AllocError>
    requires { Each (Known types.old) (parts term) }
    ensures known { IfOk result (λ it. IfSome it (Known types.new)) }
    ensures is { IfOk result (λ it. IfSome it (λ t. Is types.new t (normal (deep types.old.types term)))) }
    ensures none { IfOk result (λ it. it ≡ None → MayStand types.old (term_with (type_at types.old.types) term) → ⊥) }
    ensures grows { Grows types.old types.new }
    ensures definitions { types.new.definitions ≡ types.old.definitions }
{
    if !is_lawful(alloc, types, &term)? {
        return Ok(None);
    }
    types.types_are_lawful();
    let defined = is_defined(&term);
    let t = types.intern(term)?;
    if !defined {
        return Ok(Some(t));
    }
    if types.is_defined(t) {
        Ok(Some(t))
    } else {
        Ok(None)
    }
}

fn is_defined(term: &Term) -> bool
    ensures { result ≡ is_defined term.now }
{
    matches!(term, TermOf::Defined { .. })
}
